//! Records as text, and what the auditor answers of each: a run, where it may not go on, that it isn't over, the first
//! fault of its configuration, or the line with which it is no record.
use crate::domains::ECHO;
use crate::histories::CALLS;
use crate::replays::{events_of, none_fails, written};
use std::alloc::Global;
use xa_audit::{AuditRefused, Verdict, audit};

#[derive(Clone, Copy)]
enum Told {
    Verdict(Verdict),
    Fault(u8),
    Line(u64),
}

type Row = (&'static [&'static [u8]], Told);

const HEAD: &[u8] = b"config 201\n";

const CLIENT: &[u8] = b"\nclients 1\nc1\n";

const BOOT: &[u8] = b"Advertise 0 0 ECHO 1 ECHO 1\n";

const CALL: &[u8] = b"Start 1 1 0
Accept 1 1 1.1 1 ECHO 1 ECHO 50 Reply octet 68656c6c6f
Take 1.1 1 1 1
End 1.1 1 1 Returned 0 octet 68656c6c6f
";

// Of two requests the second is taken first.
const TWO_CALLS: &[u8] = b"Start 1 1 0
Accept 1 1 1.1 1 ECHO 1 ECHO 50 Reply none
Accept 1 2 1.2 1 ECHO 1 ECHO 50 Reply none
Take 1.2 1 1 1
end 5
";

const ANSWER: &[u8] = b"Answer 1 1 1.1 Success 0 octet 68656c6c6f\n";

const ENDING: &[u8] = b"Leave 1\nClose 1\n";

const STOP: &[u8] = b"Stop 1 1 Shutdown\n";

// A call is answered: nine events, which are a run.
const ANSWERED: &[&[u8]] = &[
    HEAD, ECHO, CLIENT, BOOT, CALL, ANSWER, ENDING, STOP, b"end 9\n",
];

static ROWS: [Row; 27] = [
    (ANSWERED, Told::Verdict(Verdict::Run(9))),
    // the answer twice
    (
        &[
            HEAD,
            ECHO,
            CLIENT,
            BOOT,
            CALL,
            ANSWER,
            ANSWER,
            ENDING,
            STOP,
            b"end 10\n",
        ],
        Told::Verdict(Verdict::At(6)),
    ),
    // the last event left out
    (
        &[HEAD, ECHO, CLIENT, BOOT, CALL, ANSWER, ENDING, b"end 8\n"],
        Told::Verdict(Verdict::Unfinished(8)),
    ),
    // fewer events told than there are, and more
    (
        &[
            HEAD, ECHO, CLIENT, BOOT, CALL, ANSWER, ENDING, STOP, b"end 8\n",
        ],
        Told::Line(13),
    ),
    (
        &[
            HEAD,
            ECHO,
            CLIENT,
            BOOT,
            CALL,
            ANSWER,
            ENDING,
            STOP,
            b"end 10\n",
        ],
        Told::Line(13),
    ),
    // no event, and no client either
    (
        &[HEAD, ECHO, b"\nclients 0\nend 0\n"],
        Told::Verdict(Verdict::Unfinished(0)),
    ),
    // an event before the boot, and a take that isn't next
    (
        &[HEAD, ECHO, CLIENT, b"Start 1 1 0\nend 1\n"],
        Told::Verdict(Verdict::At(0)),
    ),
    (
        &[HEAD, ECHO, CLIENT, BOOT, TWO_CALLS],
        Told::Verdict(Verdict::At(4)),
    ),
    // a second record, octets, and a feed behind the end
    (
        &[
            HEAD,
            ECHO,
            b"\nclients 0\nend 0\n",
            HEAD,
            ECHO,
            b"\nclients 0\nend 0\n",
        ],
        Told::Line(4),
    ),
    (&[HEAD, ECHO, b"\nclients 0\nend 0\nx"], Told::Line(4)),
    (&[HEAD, ECHO, b"\nclients 0\nend 0\n\n"], Told::Line(4)),
    // the end left out, and without its feed
    (&[HEAD, ECHO, CLIENT, BOOT], Told::Line(5)),
    (&[HEAD, ECHO, CLIENT, BOOT, b"end 1"], Told::Line(5)),
    // an event in another spelling
    (&[HEAD, ECHO, CLIENT, b"Leave 01\nend 1\n"], Told::Line(4)),
    (&[HEAD, ECHO, CLIENT, b"Leave  1\nend 1\n"], Told::Line(4)),
    (
        &[HEAD, ECHO, CLIENT, b"Leave 65536\nend 1\n"],
        Told::Line(4),
    ),
    // too many clients, another spelling of their number, too few, and no name
    (&[HEAD, ECHO, b"\nclients 65\n"], Told::Line(2)),
    (&[HEAD, ECHO, b"\nclients 01\nc1\nend 0\n"], Told::Line(2)),
    (&[HEAD, ECHO, b"\nclients 2\nc1\nend 0\n"], Told::Line(4)),
    (&[HEAD, ECHO, b"\nclients 1\n.c\nend 0\n"], Told::Line(3)),
    (&[HEAD, ECHO, b"\n"], Told::Line(2)),
    // a configuration of another length than is told, in another spelling, and none
    (
        &[b"config 200\n", ECHO, b"\nclients 0\nend 0\n"],
        Told::Line(1),
    ),
    (
        &[b"config 0201\n", ECHO, b"\nclients 0\nend 0\n"],
        Told::Line(1),
    ),
    (&[b"config 18446744073709551616\n"], Told::Line(1)),
    (&[], Told::Line(1)),
    // a configuration with a fault, whatever stands behind it
    (&[b"config 3\nx=1\n"], Told::Fault(2)),
    (&[b"config 1\nx\nclients 0\nend 0\n"], Told::Fault(1)),
];

// The events of that call, a line each.
static EVENTS: [&[u8]; 9] = [
    BOOT,
    b"Start 1 1 0\n",
    b"Accept 1 1 1.1 1 ECHO 1 ECHO 50 Reply octet 68656c6c6f\n",
    b"Take 1.1 1 1 1\n",
    b"End 1.1 1 1 Returned 0 octet 68656c6c6f\n",
    ANSWER,
    b"Leave 1\n",
    b"Close 1\n",
    STOP,
];

// Which of these, and what they come to.
static CHANGES: [(&[usize], Verdict); 26] = [
    // each left out
    (&[1, 2, 3, 4, 5, 6, 7, 8], Verdict::At(0)),
    (&[0, 2, 3, 4, 5, 6, 7, 8], Verdict::At(2)),
    (&[0, 1, 3, 4, 5, 6, 7, 8], Verdict::At(2)),
    (&[0, 1, 2, 4, 5, 6, 7, 8], Verdict::At(3)),
    (&[0, 1, 2, 3, 5, 6, 7, 8], Verdict::At(4)),
    (&[0, 1, 2, 3, 4, 6, 7, 8], Verdict::At(5)),
    (&[0, 1, 2, 3, 4, 5, 7, 8], Verdict::At(6)),
    (&[0, 1, 2, 3, 4, 5, 6, 8], Verdict::At(7)),
    (&[0, 1, 2, 3, 4, 5, 6, 7], Verdict::Unfinished(8)),
    // each twice
    (&[0, 0, 1, 2, 3, 4, 5, 6, 7, 8], Verdict::At(1)),
    (&[0, 1, 1, 2, 3, 4, 5, 6, 7, 8], Verdict::At(2)),
    (&[0, 1, 2, 2, 3, 4, 5, 6, 7, 8], Verdict::At(3)),
    (&[0, 1, 2, 3, 3, 4, 5, 6, 7, 8], Verdict::At(4)),
    (&[0, 1, 2, 3, 4, 4, 5, 6, 7, 8], Verdict::At(5)),
    (&[0, 1, 2, 3, 4, 5, 5, 6, 7, 8], Verdict::At(6)),
    (&[0, 1, 2, 3, 4, 5, 6, 6, 7, 8], Verdict::At(7)),
    (&[0, 1, 2, 3, 4, 5, 6, 7, 7, 8], Verdict::At(8)),
    (&[0, 1, 2, 3, 4, 5, 6, 7, 8, 8], Verdict::At(9)),
    // each behind the next
    (&[1, 0, 2, 3, 4, 5, 6, 7, 8], Verdict::At(0)),
    (&[0, 2, 1, 3, 4, 5, 6, 7, 8], Verdict::Run(9)),
    (&[0, 1, 3, 2, 4, 5, 6, 7, 8], Verdict::At(2)),
    (&[0, 1, 2, 4, 3, 5, 6, 7, 8], Verdict::At(3)),
    (&[0, 1, 2, 3, 5, 4, 6, 7, 8], Verdict::At(4)),
    (&[0, 1, 2, 3, 4, 6, 5, 7, 8], Verdict::At(5)),
    (&[0, 1, 2, 3, 4, 5, 7, 6, 8], Verdict::At(6)),
    (&[0, 1, 2, 3, 4, 5, 6, 8, 7], Verdict::At(7)),
];

// The pieces one behind the other.
fn joined(alloc: Global, pieces: &[&[u8]]) -> Option<Vec<u8>> {
    let mut octets = Vec::new(alloc);
    for piece in pieces {
        octets.extend_from_slice(piece).ok()?;
    }
    Some(octets)
}

fn is_told(alloc: Global, octets: &[u8], told: Told) -> bool {
    match (audit(alloc, octets), told) {
        (Ok(verdict), Told::Verdict(expected)) => verdict == expected,
        (Err(AuditRefused::Config { number, .. }), Told::Fault(expected)) => number == expected,
        (Err(AuditRefused::BadRecord(line)), Told::Line(expected)) => line == expected,
        _ => false,
    }
}

fn first_not_told(alloc: Global) -> Option<usize> {
    for (place, (pieces, told)) in ROWS.iter().enumerate() {
        let Some(octets) = joined(alloc, pieces) else {
            return Some(place);
        };
        if !is_told(alloc, &octets, *told) {
            return Some(place);
        }
    }
    None
}

// The record of these events of the call.
fn changed(alloc: Global, order: &[usize]) -> Option<Vec<u8>> {
    let end: &[u8] = match order.len() {
        8 => b"end 8\n",
        9 => b"end 9\n",
        _ => b"end 10\n",
    };
    let mut octets = joined(alloc, &[HEAD, ECHO, CLIENT])?;
    for place in order {
        octets.extend_from_slice(EVENTS.get(*place)?).ok()?;
    }
    octets.extend_from_slice(end).ok()?;
    Some(octets)
}

fn first_other(alloc: Global) -> Option<usize> {
    for (place, (order, verdict)) in CHANGES.iter().enumerate() {
        let Some(octets) = changed(alloc, order) else {
            return Some(place);
        };
        if !is_told(alloc, &octets, Told::Verdict(*verdict)) {
            return Some(place);
        }
    }
    None
}

// Whether the record of a call that is answered is written so.
fn is_written(alloc: Global) -> bool {
    let (_, clients, parts, _) = CALLS[0];
    let (Some(events), Some(octets)) = (events_of(alloc, parts), joined(alloc, ANSWERED)) else {
        return false;
    };
    match written(alloc, ECHO, clients, &events) {
        Some(record) => record.slice() == octets.as_slice(),
        None => false,
    }
}

// The first place at which the record can be cut and is one still.
fn first_cut(alloc: Global) -> Option<usize> {
    let octets = joined(alloc, ANSWERED)?;
    for place in 0..octets.len() {
        if !matches!(
            audit(alloc, &octets[..place]),
            Err(AuditRefused::BadRecord(_))
        ) {
            return Some(place);
        }
    }
    None
}

#[test]
fn records_are_judged(rt: HostRuntime) {
    none_fails(&rt, (!is_written(rt.alloc())).then_some(0));
    none_fails(&rt, first_not_told(rt.alloc()));
}

#[test]
fn changed_records_are_no_runs_but_for_one(rt: HostRuntime) {
    none_fails(&rt, first_other(rt.alloc()));
}

#[test]
fn a_record_that_is_cut_is_none(rt: HostRuntime) {
    none_fails(&rt, first_cut(rt.alloc()));
}
