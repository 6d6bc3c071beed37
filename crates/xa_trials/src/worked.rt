//! Runs of one server, worked out by hand: what its program got, and what stands in the history.
use crate::lives::{NEXT, SOUND, yard_of};
use crate::rows::none_fails;
use crate::running::{End, Runtime, run_of};
use xa_program::events::{Event, Evidence, Refused};
use xa_program::link::{MemoryLink, MemoryYard, OpenGate};
use xa_program::{EndedLife, Pipes};

// One queue with one server, and six services.
const CONFIG: &[u8] = b"[[queue]]\nname = \"Q1\"\n\
    [[server]]\nname = \"S1\"\nqueue = \"Q1\"\n\
    [[service]]\nname = \"ECHO\"\nqueues = [\"Q1\"]\n\
    [[service]]\nname = \"LEN\"\nqueues = [\"Q1\"]\n\
    [[service]]\nname = \"FAIL\"\nqueues = [\"Q1\"]\n\
    [[service]]\nname = \"A\"\nroutine = \"PASS\"\nqueues = [\"Q1\"]\n\
    [[service]]\nname = \"B\"\nroutine = \"PASS\"\nqueues = [\"Q1\"]\n\
    [[service]]\nname = \"C\"\nroutine = \"ECHO\"\nqueues = [\"Q1\"]\n";

const READY: &[u8] = b"XA\x01\x01\0\0\0\x03\0\0\0\0\x02S1";

// RETURN of success to the first invocation, with code 0 and hello.
const RETURN: &[u8] = b"XA\x01\x04\0\0\0\x0f\0\0\0\x01\0\0\0\0\0\x01\0\0\0\x05hello";

// FORWARD of the first to B and of the second to C, and RETURN to the third, with what is left of the text.
const TO_B: &[u8] = b"XA\x01\x05\0\0\0\x0b\0\0\0\x01\x01B\x01\0\0\0\x04C hi";

const TO_C: &[u8] = b"XA\x01\x05\0\0\0\x09\0\0\0\x02\x01C\x01\0\0\0\x02hi";

const BACK: &[u8] = b"XA\x01\x04\0\0\0\x0c\0\0\0\x03\0\0\0\0\0\x01\0\0\0\x02hi";

const SHUTDOWN: &[u8] = b"XA\x01\x13\0\0\0\0\0\0\0\0";

// The script, what the program says, what is written, what the program got, and the version of the board that a refused
// call kept.
type Row = (
    &'static [u8],
    &'static [&'static [u8]],
    &'static [u8],
    &'static [u8],
    Option<u64>,
);

static ROWS: [Row; 4] = [
    (b"", &[READY, NEXT], b"", SHUTDOWN, None),
    (
        b"client a\ncall ECHO text \"hello\"\n",
        &[READY, NEXT, RETURN, NEXT],
        b"a 1 OK 0 octet 68656c6c6f\n",
        b"XA\x01\x11\0\0\0\x15\0\0\0\x01\x04ECHO\x04ECHO\0\x01\0\0\0\x05hello\
        XA\x01\x13\0\0\0\0\0\0\0\0",
        None,
    ),
    // It gets what it forwards to its own queue.
    (
        b"client a\ncall A text \"B C hi\"\n",
        &[READY, NEXT, TO_B, NEXT, TO_C, NEXT, BACK, NEXT],
        b"a 1 OK 0 octet 6869\n",
        b"XA\x01\x11\0\0\0\x13\0\0\0\x01\x01A\x04PASS\0\x01\0\0\0\x06B C hi\
        XA\x01\x11\0\0\0\x11\0\0\0\x02\x01B\x04PASS\0\x01\0\0\0\x04C hi\
        XA\x01\x11\0\0\0\x0f\0\0\0\x03\x01C\x04ECHO\0\x01\0\0\0\x02hi\
        XA\x01\x13\0\0\0\0\0\0\0\0",
        None,
    ),
    // The board has a row of each service by then.
    (
        b"client a\ncall NOPE none\n",
        &[READY, NEXT],
        b"a 1 TPENOENT\n",
        SHUTDOWN,
        Some(6),
    ),
];

// The version that the first refused call kept.
fn version_of(history: &[Event]) -> Option<u64> {
    history.iter().find_map(|event| match event {
        Event::Refuse(
            Refused {
                evidence: Evidence::Version(version),
                ..
            },
        ) => Some(*version),
        _ => None,
    })
}

// Whether there was one life of one server, and its program got that.
fn got_alone(mut servers: Vec<Vec<EndedLife<MemoryLink>>>, got: &[u8]) -> bool {
    let Some(mut lives) = servers.pop() else {
        return false;
    };
    let last = lives.pop();
    if !servers.is_empty() || !lives.is_empty() {
        return false;
    }
    match last {
        Some(life) => match life.into_pipes() {
            Pipes::Open(link) => link.taken() == got,
            Pipes::Closed(_) | Pipes::Killed(_) => false,
        },
        None => false,
    }
}

fn is_worked<R: Runtime>(rt: &R, yard: &mut MemoryYard, row: Row) -> bool {
    let (script, _, wrote, got, version) = row;
    let files: [(&[u8], &[u8]); 1] = [(b"c", CONFIG)];
    match run_of(
        rt,
        &["run", "c"],
        (&files, &[]),
        (script, &[], &[]),
        yard,
        &OpenGate,
        (End::Done, &[wrote]),
    ) {
        Some((history, lives)) => got_alone(lives, got) && version_of(&history) == version,
        None => false,
    }
}

fn works<R: Runtime>(rt: &R, row: Row) -> bool {
    match yard_of(rt.alloc(), Some(row.1), SOUND) {
        Some(mut yard) => is_worked(rt, &mut yard, row),
        None => false,
    }
}

fn first_not_worked<R: Runtime>(rt: &R) -> Option<usize> {
    for (place, row) in ROWS.iter().enumerate() {
        if !works(rt, *row) {
            return Some(place);
        }
    }
    None
}

#[test]
fn a_server_gets_what_is_due(rt: HostRuntime) {
    none_fails(&rt, first_not_worked(&rt));
}
