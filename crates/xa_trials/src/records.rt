//! Records that the top call writes, and what it says of them when it reads them again.
use crate::bank;
use crate::rows::none_fails;
use crate::running::{End, Files, Runtime, Script, runs, written_by};
use std::alloc::Global;
use xa_program::LocalYard;

// One queue with one server, and one service.
const CONFIG: &[u8] = b"[[queue]]\nname = \"Q1\"\n\
    [[server]]\nname = \"S1\"\nqueue = \"Q1\"\n\
    [[service]]\nname = \"ECHO\"\nqueues = [\"Q1\"]\n";

const SCRIPT: &[u8] = b"client a\ncall ECHO text \"hello\"\n";

const HEAD: &[u8] = b"config 100\n";

const CALL: &[u8] = b"\nclients 1\na\n\
    Advertise 0 0 ECHO 1 ECHO 1\n\
    Accept 1 1 1.1 1 ECHO 1 ECHO 50 Reply octet 68656c6c6f\n\
    Start 1 1 0\n\
    Take 1.1 1 1 1\n\
    End 1.1 1 1 Returned 0 octet 68656c6c6f\n";

const ANSWER: &[u8] = b"Answer 1 1 1.1 Success 0 octet 68656c6c6f\n";

const LEFT: &[u8] = b"Leave 1\nClose 1\n";

const STOP: &[u8] = b"Stop 1 1 Shutdown\n";

const RECORD: &[&[u8]] = &[HEAD, CONFIG, CALL, ANSWER, LEFT, STOP, b"end 9\n"];

const UNFINISHED: &[&[u8]] = &[HEAD, CONFIG, CALL, ANSWER, LEFT, b"end 8\n"];

// The record, the writes that take nothing, how judging it ends, and what is written.
type Row = (&'static [&'static [u8]], &'static [u64], End, &'static [u8]);

static ROWS: [Row; 11] = [
    (RECORD, &[], End::Done, b"run of 9 events\n"),
    // the answer twice
    (
        &[HEAD, CONFIG, CALL, ANSWER, ANSWER, LEFT, STOP, b"end 10\n"],
        &[],
        End::NotARun,
        b"refused at 6\n",
    ),
    // the last event left out
    (
        UNFINISHED,
        &[],
        End::NotARun,
        b"unfinished after 8 events\n",
    ),
    // one event fewer is told
    (
        &[HEAD, CONFIG, CALL, ANSWER, LEFT, STOP, b"end 8\n"],
        &[],
        End::BadRecord(13),
        b"",
    ),
    (&[], &[], End::BadRecord(1), b""),
    (&[HEAD, CONFIG], &[], End::BadRecord(1), b""),
    (&[b"config 3\nx=1\n"], &[], End::ConfigFault(2, "x"), b""),
    (&[b"config 1\nx\n"], &[], End::ConfigFault(1, ""), b""),
    // the output fails: that it is no run is told nevertheless
    (RECORD, &[1], End::WriteFault, b""),
    (RECORD, &[3], End::WriteFault, b"run of 9 e"),
    (UNFINISHED, &[2], End::NotARun, b"unfin"),
];

fn joined(alloc: Global, pieces: &[&[u8]]) -> Option<Vec<u8>> {
    let mut octets = Vec::new(alloc);
    for piece in pieces {
        octets.extend_from_slice(piece).ok()?;
    }
    Some(octets)
}

fn tells<R: Runtime>(rt: &R, files: Files<'_>, script: Script<'_>, want: (End, &[u8])) -> bool {
    let mut yard = LocalYard::new(rt.alloc());
    runs(rt, &["audit", "r"], files, script, &mut yard, want)
}

fn is_judged<R: Runtime>(rt: &R, (pieces, idle, end, wrote): Row) -> bool {
    match joined(rt.alloc(), pieces) {
        Some(octets) => {
            let files: [(&[u8], &[u8]); 1] = [(b"r", &octets)];
            tells(rt, (&files, &[]), (b"x", &[], idle), (end, wrote))
        }
        None => false,
    }
}

fn first_not_judged<R: Runtime>(rt: &R) -> Option<usize> {
    for (place, row) in ROWS.iter().enumerate() {
        if !is_judged(rt, *row) {
            return Some(place);
        }
    }
    None
}

// What the run of that configuration and script leaves as its record.
fn record_of<R: Runtime>(rt: &R, config: &[u8], script: &[u8]) -> Option<Vec<u8>> {
    let mut yard = LocalYard::new(rt.alloc());
    let files: [(&[u8], &[u8]); 1] = [(b"c", config)];
    written_by(
        rt,
        &["record", "c"],
        (&files, &[]),
        (script, &[], &[]),
        &mut yard,
        End::Done,
    )
}

fn is_written<R: Runtime>(rt: &R) -> bool {
    match (record_of(rt, CONFIG, SCRIPT), joined(rt.alloc(), RECORD)) {
        (Some(octets), Some(record)) => octets.as_slice() == record.as_slice(),
        _ => false,
    }
}

// What is said of a record that is a run: it has so many events as its last line tells.
fn run_of_all(alloc: Global, record: &[u8]) -> Option<Vec<u8>> {
    let mut many = None;
    for line in record.split(|octet| *octet == b'\n') {
        many = line.strip_prefix(b"end ").or(many);
    }
    joined(alloc, &[b"run of ", many?, b" events\n"])
}

// Whether what the run of that configuration and script leaves is judged as a run.
fn is_judged_a_run<R: Runtime>(rt: &R, config: &[u8], script: &[u8]) -> bool {
    let Some(record) = record_of(rt, config, script) else {
        return false;
    };
    match run_of_all(rt.alloc(), &record) {
        Some(said) => {
            let files: [(&[u8], &[u8]); 1] = [(b"r", &record)];
            tells(rt, (&files, &[]), (b"", &[], &[]), (End::Done, &said))
        }
        None => false,
    }
}

#[test]
fn the_record_of_the_bank_is_judged_a_run(rt: HostRuntime) {
    assert!(rt; is_judged_a_run(&rt, bank::CONFIG, bank::SCRIPT));
}

#[test]
fn records_are_written_and_judged(rt: HostRuntime) {
    assert!(rt; is_written(&rt));
    none_fails(&rt, first_not_judged(&rt));
}
