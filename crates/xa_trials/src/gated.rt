//! Runs in which a gate says what happens first.
use crate::rows::none_fails;
use crate::running::{End, Runtime, run_of};
use xa_program::LocalYard;
use xa_program::events::{Event, Evidence, Refused};
use xa_program::link::{Gate, HoldUntil, MeetAt, Point};
use xa_program::types::{CallerId, QueueId, ServerId};

// One queue, where one request may wait, with one server.
const ONE: &[u8] = b"[[queue]]\nname = \"Q1\"\ncapacity = 1\n\
    [[server]]\nname = \"S1\"\nqueue = \"Q1\"\n\
    [[service]]\nname = \"ECHO\"\nqueues = [\"Q1\"]\n\
    [[service]]\nname = \"DIE\"\nqueues = [\"Q1\"]\n";

// Two queues with a server and a service each.
const TWO: &[u8] = b"[[queue]]\nname = \"Q1\"\n[[queue]]\nname = \"Q2\"\n\
    [[server]]\nname = \"S1\"\nqueue = \"Q1\"\n\
    [[server]]\nname = \"S2\"\nqueue = \"Q2\"\n\
    [[service]]\nname = \"ECHO\"\nqueues = [\"Q1\"]\n\
    [[service]]\nname = \"LEN\"\nqueues = [\"Q2\"]\n";

/// The history of the script by that gate, where one of these is written.
pub fn history_of<R: Runtime, G: Gate>(
    rt: &R,
    gate: &G,
    config: &[u8],
    script: &[u8],
    wrote: &[&[u8]],
) -> Option<Vec<Event>> {
    let files: [(&[u8], &[u8]); 1] = [(b"c", config)];
    let mut yard = LocalYard::new(rt.alloc());
    let (history, _) = run_of(
        rt,
        &["run", "c"],
        (&files, &[]),
        (script, &[], &[]),
        &mut yard,
        gate,
        (End::Done, wrote),
    )?;
    Some(history)
}

fn is_told_of_the_last<R: Runtime>(rt: &R) -> bool {
    let gate = HoldUntil::new(
        Point::BeforeOp(CallerId(2), 1),
        Point::AfterOp(CallerId(1), 1),
    );
    let script = b"client a\ncall DIE none\nclient b\ncall ECHO none\n";
    history_of(rt, &gate, ONE, script, &[b"a 1 TPESVCERR\nb 1 TPENOENT\n"]).is_some()
}

// The server ends with the call of one client, and the other calls then.
#[test]
fn the_next_client_is_told_that_no_server_is_left(rt: HostRuntime) {
    assert!(rt; is_told_of_the_last(&rt));
}

const EACH: &[u8] = b"client a\ncall ECHO text \"k\"\nclient b\ncall LEN text \"k\"\n";

const TOLD: &[&[u8]] = &[b"a 1 OK 0 octet 6b\nb 1 OK 1 none\n"];

fn waits_for_the_other<R: Runtime>(rt: &R) -> bool {
    let gate = HoldUntil::new(
        Point::BeforeTake(ServerId(1)),
        Point::AfterOp(CallerId(2), 1),
    );
    history_of(rt, &gate, TWO, EACH, TOLD).is_some() && gate.asks() < 1_000_000
}

// One server takes its request after the client of the other was told.
#[test]
fn a_server_is_held_until_another_client_is_told(rt: HostRuntime) {
    assert!(rt; waits_for_the_other(&rt));
}

fn servers_meet<R: Runtime>(rt: &R) -> bool {
    let gate = MeetAt::new(
        Point::BeforeTake(ServerId(1)),
        Point::BeforeTake(ServerId(2)),
    );
    history_of(rt, &gate, TWO, EACH, TOLD).is_some() && gate.met()
}

// Each is at its point before the other goes on.
#[test]
fn servers_serve_beside_one_another(rt: HostRuntime) {
    assert!(rt; servers_meet(&rt));
}

// A script of one client, behind which call of it the server begins to take, what is written, and how many calls found the
// queue full.
type Full = (&'static [u8], u32, &'static [u8], u32);

static FULL: [Full; 2] = [
    (
        b"client a\nacall ECHO none\nacall ECHO none noblock\nget 1\n",
        2,
        b"a 1 CD 1\na 2 TPEBLOCK\na 3 CD 1 OK 0 none\n",
        1,
    ),
    // Who may wait does.
    (
        b"client a\nacall ECHO none\nacall ECHO none\nacall ECHO none\nget 3\nget 2\n",
        1,
        b"a 1 CD 1\na 2 CD 2\na 3 CD 3\na 4 CD 3 OK 0 none\na 5 CD 2 OK 0 none\n",
        0,
    ),
];

fn is_refused_by_the_queue(event: &Event) -> bool {
    match event {
        Event::Refuse(
            Refused {
                evidence: Evidence::Queue(queue, length),
                ..
            },
        ) => *queue == QueueId(1) && *length == 1,
        _ => false,
    }
}

fn is_blocked<R: Runtime>(rt: &R, (script, until, wrote, blocked): Full) -> bool {
    let gate = HoldUntil::new(
        Point::BeforeTake(ServerId(1)),
        Point::AfterOp(CallerId(1), until),
    );
    let Some(history) = history_of(rt, &gate, ONE, script, &[wrote]) else {
        return false;
    };
    let mut refused = 0_u32;
    for event in history.as_slice() {
        if is_refused_by_the_queue(event) {
            refused = refused.saturating_add(1);
        }
    }
    refused == blocked
}

fn first_not_blocked<R: Runtime>(rt: &R) -> Option<usize> {
    for (place, row) in FULL.iter().enumerate() {
        if !is_blocked(rt, *row) {
            return Some(place);
        }
    }
    None
}

#[test]
fn a_full_queue_refuses_who_will_not_wait(rt: HostRuntime) {
    none_fails(&rt, first_not_blocked(&rt));
}
