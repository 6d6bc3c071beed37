//! Runs whose servers pass requests on (Tuxedo, tpforward): what each call is told, and what is noted on the way.
use crate::gated::history_of;
use crate::lives::{NEXT, READY, SOUND, SUCCESS};
use crate::restarts::{NO_RESTART, NONE, Noted, ONE, Row as Lives, TWO, TWO_STARTS, serves};
use crate::rows::none_fails;
use crate::running::Runtime;
use std::sync::atomic::{AtomicBool, Ordering};
use xa_program::events::{Ended, Event, Outcome, StopCause};
use xa_program::link::{Gate, OpenGate, Point};
use xa_program::types::ServerId;

// ---- the monitor's own servers, in memory

// Three queues with a server each. Ten rows are advertised, so the board begins with version 10.
const CONFIG: &[u8] = b"[[shape]]\nname = \"entry\"\nfields = [\"account int\"]\n\
    [[queue]]\nname = \"Q1\"\n[[queue]]\nname = \"Q2\"\n[[queue]]\nname = \"Q3\"\n\
    [[server]]\nname = \"S1\"\nqueue = \"Q1\"\n\
    [[server]]\nname = \"S2\"\nqueue = \"Q2\"\n\
    [[server]]\nname = \"S3\"\nqueue = \"Q3\"\n\
    [[service]]\nname = \"A\"\nroutine = \"PASS\"\nqueues = [\"Q1\"]\n\
    [[service]]\nname = \"B\"\nroutine = \"PASS\"\nqueues = [\"Q1\"]\npriority = 60\n\
    [[service]]\nname = \"C\"\nroutine = \"ECHO\"\nqueues = [\"Q2\"]\npriority = 70\n\
    [[service]]\nname = \"L\"\nroutine = \"LEN\"\nqueues = [\"Q2\"]\naccepts = [\"octet\"]\n\
    [[service]]\nname = \"D\"\nroutine = \"ECHO\"\nqueues = [\"Q3\", \"Q1\"]\n\
    [[service]]\nname = \"E\"\nroutine = \"ECHO\"\nqueues = [\"Q2\"]\naccepts = [\"c:entry\"]\n\
    [[service]]\nname = \"N\"\nroutine = \"ECHO\"\nqueues = [\"Q2\"]\naccepts = []\n\
    [[service]]\nname = \"T\"\nroutine = \"ECHO\"\nqueues = [\"Q2\"]\nconversational = true\n\
    [[service]]\nname = \"DIE\"\nqueues = [\"Q3\"]\n";

// The script, what is written, the priorities of the requests that were accepted, the queue and the priority of each
// forward, and the version that each failed forward names.
type Row = (
    &'static [u8],
    &'static [u8],
    &'static [u8],
    &'static [(u16, u8)],
    &'static [u64],
);

const THIRTY_TWO: [(u16, u8); 32] = [(1, 50); 32];

const THIRTY_THREE: [(u16, u8); 33] = [(1, 50); 33];

static ROWS: [Row; 20] = [
    (
        b"client a\ncall A text \"B C hi\"\n",
        b"a 1 OK 0 octet 6869\n",
        &[50],
        &[(1, 60), (2, 70)],
        &[],
    ),
    (
        b"client a\ncall A text \"L four\"\n",
        b"a 1 OK 4 none\n",
        &[50],
        &[(2, 50)],
        &[],
    ),
    (
        b"client a\ncall A text \"C \"\n",
        b"a 1 OK 0 octet -\n",
        &[50],
        &[(2, 70)],
        &[],
    ),
    // To the queue that it came from.
    (
        b"client a\ncall A text \"A hi\"\n",
        b"a 1 OK 0 octet 6869\n",
        &[50],
        &[(1, 50)],
        &[],
    ),
    // To the first queue, and to the second once the first has no server.
    (
        b"client a\ncall A text \"D hi\"\n",
        b"a 1 OK 0 octet 6869\n",
        &[50],
        &[(3, 50)],
        &[],
    ),
    (
        b"client a\ncall DIE none\ncall A text \"D hi\"\n",
        b"a 1 TPESVCERR\na 2 OK 0 octet 6869\n",
        &[50, 50],
        &[(1, 50)],
        &[],
    ),
    // Its server ends with it in hand, and then no queue of the service is left: two rows were withdrawn.
    (
        b"client a\ncall A text \"DIE x\"\ncall A text \"DIE x\"\ncall A text \"C x\"\n",
        b"a 1 TPESVCERR\na 2 TPESVCERR\na 3 OK 0 octet 78\n",
        &[50, 50, 50],
        &[(3, 50), (2, 70)],
        &[12],
    ),
    // No such service, and the server goes on.
    (
        b"client a\ncall A text \"NONE x\"\ncall A text \"x\"\n",
        b"a 1 TPESVCERR\na 2 OK 0 octet 78\n",
        &[50, 50],
        &[],
        &[10],
    ),
    // Behind another forward.
    (
        b"client a\ncall A text \"B NONE x\"\n",
        b"a 1 TPESVCERR\n",
        &[50],
        &[(1, 60)],
        &[10],
    ),
    // What isn't accepted, and a service for conversations.
    (
        b"client a\ncall A text \"E x\"\ncall A text \"N x\"\ncall A text \"N \"\n",
        b"a 1 TPESVCERR\na 2 TPESVCERR\na 3 TPESVCERR\n",
        &[50, 50, 50],
        &[],
        &[10, 10, 10],
    ),
    (
        b"client a\ncall A text \"T x\"\n",
        b"a 1 TPESVCERR\n",
        &[50],
        &[],
        &[10],
    ),
    // Words that are no name: none, one with a dot first, and one of 32 octets; one of 31 is a name.
    (
        b"client a\ncall A text \" x\"\n",
        b"a 1 TPESVCERR\n",
        &[50],
        &[],
        &[0],
    ),
    (
        b"client a\ncall A text \".A x\"\n",
        b"a 1 TPESVCERR\n",
        &[50],
        &[],
        &[0],
    ),
    (
        b"client a\ncall A text \"AAAAAAAAAAAAAAAAAAAAAAAAAAAAAAAA x\"\n",
        b"a 1 TPESVCERR\n",
        &[50],
        &[],
        &[0],
    ),
    (
        b"client a\ncall A text \"AAAAAAAAAAAAAAAAAAAAAAAAAAAAAAA x\"\n",
        b"a 1 TPESVCERR\n",
        &[50],
        &[],
        &[10],
    ),
    // 32 forwards, and one more.
    (
        b"client a\ncall A text \"A A A A A A A A A A A A A A A A A A A A A A A A A A A A A A A A x\"\n",
        b"a 1 OK 0 octet 78\n",
        &[50],
        &THIRTY_TWO,
        &[],
    ),
    (
        b"client a\ncall A text \"A A A A A A A A A A A A A A A A A A A A A A A A A A A A A A A A A x\"\ncall A text \"A x\"\n",
        b"a 1 TPESVCERR\na 2 OK 0 octet 78\n",
        &[50, 50],
        &THIRTY_THREE,
        &[0],
    ),
    // What a client sets isn't passed on.
    (
        b"client a\nprio abs 10\ncall A text \"C x\"\n",
        b"a 1 DONE\na 2 OK 0 octet 78\n",
        &[10],
        &[(2, 70)],
        &[],
    ),
    (
        b"client a\nprio add 5\ncall A text \"A x\"\ncall A text \"B x\"\n",
        b"a 1 DONE\na 2 OK 0 octet 78\na 3 OK 0 octet 78\n",
        &[55, 50],
        &[(1, 50), (1, 60)],
        &[],
    ),
    // A reply of another kind than was asked for.
    (
        b"client a\ncall A text \"C x\" nochange c:entry\ncall A text \"C x\" nochange octet\n",
        b"a 1 TPEOTYPE\na 2 OK 0 octet 78\n",
        &[50, 50],
        &[(2, 70), (2, 70)],
        &[],
    ),
];

// Whether that, and no more, is noted of the requests; a client has one at a time.
fn are_noted(history: &[Event], (_, _, priorities, ways, versions): Row) -> bool {
    let mut accepted = priorities.iter();
    let mut passed = ways.iter();
    let mut failed = versions.iter();
    let mut hop = 0_u8;
    for event in history {
        let is_wanted = match event {
            Event::Accept(request) => {
                hop = 0;
                accepted.next() == Some(&request.priority)
            }
            Event::Forward(forward) => {
                hop = hop.saturating_add(1);
                forward.hop == hop && passed.next() == Some(&(forward.queue.0, forward.priority))
            }
            Event::End(
                Ended {
                    outcome: Outcome::BadForward(version),
                    ..
                },
            ) => failed.next() == Some(version),
            _ => true,
        };
        if !is_wanted {
            return false;
        }
    }
    accepted.next().is_none() && passed.next().is_none() && failed.next().is_none()
}

fn is_passed<R: Runtime>(rt: &R, row: Row) -> bool {
    match history_of(rt, &OpenGate, CONFIG, row.0, &[row.1]) {
        Some(history) => are_noted(history.as_slice(), row),
        None => false,
    }
}

fn first_not_passed<R: Runtime>(rt: &R) -> Option<usize> {
    for (place, row) in ROWS.iter().enumerate() {
        if !is_passed(rt, *row) {
            return Some(place);
        }
    }
    None
}

#[test]
fn requests_are_passed_on(rt: HostRuntime) {
    none_fails(&rt, first_not_passed(&rt));
}

// ---- a queue that is full

// Where C's queue takes one request.
const NARROW: &[u8] = b"[[queue]]\nname = \"Q1\"\n[[queue]]\nname = \"Q2\"\ncapacity = 1\n\
    [[server]]\nname = \"S1\"\nqueue = \"Q1\"\n\
    [[server]]\nname = \"S2\"\nqueue = \"Q2\"\n\
    [[service]]\nname = \"A\"\nroutine = \"PASS\"\nqueues = [\"Q1\"]\n\
    [[service]]\nname = \"C\"\nroutine = \"ECHO\"\nqueues = [\"Q2\"]\n";

// Holds the second server until a call is over.
#[derive(Drop)]
struct UntilOne {
    is_over: AtomicBool,
}

impl Gate for UntilOne {
    fn holds(&self, point: Point) -> bool {
        point == Point::BeforeTake(ServerId(2)) && !self.is_over.load(Ordering::SeqCst)
    }

    fn passed(&self, point: Point) {
        if let Point::AfterOp(..) = point {
            self.is_over.store(true, Ordering::SeqCst);
        }
    }
}

const BOTH: &[u8] = b"client a\ncall A text \"C x\"\nclient b\ncall A text \"C x\"\n";

// The one whose request is passed on first is answered.
const ONE_FAILS: &[&[u8]] = &[
    b"a 1 OK 0 octet 78\nb 1 TPESVCERR\n",
    b"a 1 TPESVCERR\nb 1 OK 0 octet 78\n",
];

fn is_failed(event: &Event) -> bool {
    match event {
        Event::End(ended) => matches!(ended.outcome, Outcome::BadForward(2)),
        _ => false,
    }
}

fn waits_for_no_room<R: Runtime>(rt: &R) -> bool {
    let gate = UntilOne {
        is_over: AtomicBool::new(false),
    };
    match history_of(rt, &gate, NARROW, BOTH, ONE_FAILS) {
        Some(history) => history.iter().filter(|event| is_failed(*event)).count() == 1,
        None => false,
    }
}

// Though neither call has `noblock`.
#[test]
fn a_forward_waits_for_no_room(rt: HostRuntime) {
    assert!(rt; waits_for_no_room(&rt));
}

// ---- what a server's program says

// FORWARD of the first invocation, of one letter: to ECHO, to a service that isn't there, and to the empty word.
const ON: &[u8] = b"XA\x01\x05\0\0\0\x0b\0\0\0\x01\x04ECHO\x01\0\0\0\x01k";

const AWAY: &[u8] = b"XA\x01\x05\0\0\0\x0b\0\0\0\x01\x04NONE\x01\0\0\0\x01k";

const NOWHERE: &[u8] = b"XA\x01\x05\0\0\0\x07\0\0\0\x01\0\x01\0\0\0\x01k";

// To ECHO with X_C_TYPE of a shape that isn't configured, and without data.
const UNSOUND: &[u8] = b"XA\x01\x05\0\0\0\x11\0\0\0\x01\x04ECHO\x02\x05entry\0\0\0\x01x";

const ABSENT: &[u8] = b"XA\x01\x05\0\0\0\x06\0\0\0\x01\x04ECHO\0";

// The first one with the tags 2 and 0, and cut short.
const SECOND_ON: &[u8] = b"XA\x01\x05\0\0\0\x0b\0\0\0\x02\x04ECHO\x01\0\0\0\x01k";

const NO_TAG: &[u8] = b"XA\x01\x05\0\0\0\x0b\0\0\0\0\x04ECHO\x01\0\0\0\x01k";

const SHORT: &[u8] = b"XA\x01\x05\0\0\0\x0b\0\0\0\x01\x04ECH";

// RETURN of success to the second and the third invocation.
const SECOND: &[u8] = b"XA\x01\x04\0\0\0\x06\0\0\0\x02\0\0\0\0\0\0";

const THIRD: &[u8] = b"XA\x01\x04\0\0\0\x06\0\0\0\x03\0\0\0\0\0\0";

const SHUT: Noted = Noted::Stop(StopCause::Shutdown);

const CUT: Noted = Noted::Stop(StopCause::EndOfInput);

// By a FORWARD with that tag.
const OUT_0: Noted = Noted::Stop(StopCause::OutOfTurn(5, 0));

const OUT_1: Noted = Noted::Stop(StopCause::OutOfTurn(5, 1));

const OUT_2: Noted = Noted::Stop(StopCause::OutOfTurn(5, 2));

static LIVES: [Lives; 15] = [
    // The server's own queue has the request again.
    (
        NO_RESTART,
        ONE,
        &[Some((&[READY, NEXT, ON, NEXT, SECOND, NEXT], SOUND))],
        b"a 1 OK 0 none\n",
        &[Noted::Start(1), SHUT],
    ),
    (
        NO_RESTART,
        TWO,
        &[Some((
            &[READY, NEXT, ABSENT, NEXT, SECOND, NEXT, THIRD, NEXT],
            SOUND,
        ))],
        b"a 1 OK 0 none\na 2 OK 0 none\n",
        &[Noted::Start(1), SHUT],
    ),
    // A forward that fails, and the server goes on.
    (
        NO_RESTART,
        TWO,
        &[Some((&[READY, NEXT, AWAY, NEXT, SECOND, NEXT], SOUND))],
        b"a 1 TPESVCERR\na 2 OK 0 none\n",
        &[Noted::Start(1), SHUT],
    ),
    (
        NO_RESTART,
        TWO,
        &[Some((&[READY, NEXT, NOWHERE, NEXT, SECOND, NEXT], SOUND))],
        b"a 1 TPESVCERR\na 2 OK 0 none\n",
        &[Noted::Start(1), SHUT],
    ),
    (
        NO_RESTART,
        TWO,
        &[Some((&[READY, NEXT, UNSOUND, NEXT, SECOND, NEXT], SOUND))],
        b"a 1 TPESVCERR\na 2 OK 0 none\n",
        &[Noted::Start(1), SHUT],
    ),
    // With another tag, and cut short.
    (
        NO_RESTART,
        TWO,
        &[Some((&[READY, NEXT, SECOND_ON, NEXT], SOUND))],
        b"a 1 TPESVCERR\na 2 TPENOENT\n",
        &[Noted::Start(1), OUT_2, Noted::Gone],
    ),
    (
        NO_RESTART,
        TWO,
        &[Some((&[READY, NEXT, NO_TAG, NEXT], SOUND))],
        b"a 1 TPESVCERR\na 2 TPENOENT\n",
        &[Noted::Start(1), OUT_0, Noted::Gone],
    ),
    (
        NO_RESTART,
        TWO,
        &[Some((&[READY, NEXT, SHORT], SOUND))],
        b"a 1 TPESVCERR\na 2 TPENOENT\n",
        &[Noted::Start(1), CUT, Noted::Gone],
    ),
    // In place of READY, and of the NEXT behind it: the server has not greeted.
    (
        NO_RESTART,
        ONE,
        &[Some((&[ON, READY, NEXT], SOUND))],
        b"a 1 TPENOENT\n",
        &[Noted::Start(1), OUT_1, Noted::Gone],
    ),
    (
        NO_RESTART,
        ONE,
        &[Some((&[READY, ON, NEXT], SOUND))],
        b"a 1 TPENOENT\n",
        &[Noted::Start(1), OUT_1, Noted::Gone],
    ),
    // In place of the NEXT behind a FORWARD, and at the end of the input there: the request waits at the queue, and is swept
    // from it.
    (
        NO_RESTART,
        TWO,
        &[Some((&[READY, NEXT, ON, SECOND_ON], SOUND))],
        b"a 1 TPESYSTEM\na 2 TPENOENT\n",
        &[Noted::Start(1), OUT_2, Noted::Gone],
    ),
    (
        NO_RESTART,
        TWO,
        &[Some((&[READY, NEXT, ON], SOUND))],
        b"a 1 TPESYSTEM\na 2 TPENOENT\n",
        &[Noted::Start(1), CUT, Noted::Gone],
    ),
    // The next life takes it.
    (
        TWO_STARTS,
        ONE,
        &[
            Some((&[READY, NEXT, ON], SOUND)),
            Some((&[READY, NEXT, SUCCESS, NEXT], SOUND)),
        ],
        b"a 1 OK 0 none\n",
        &[Noted::Start(1), CUT, Noted::Start(2), SHUT],
    ),
    (
        TWO_STARTS,
        TWO,
        &[
            Some((&[READY, NEXT, SECOND_ON], SOUND)),
            Some((&[READY, NEXT, ON, NEXT, SECOND, NEXT], SOUND)),
        ],
        b"a 1 TPESVCERR\na 2 OK 0 none\n",
        &[Noted::Start(1), OUT_2, Noted::Start(2), SHUT],
    ),
    // What stands where no call comes is never looked at.
    (
        NO_RESTART,
        NONE,
        &[Some((&[READY, NEXT, ON], SOUND))],
        b"",
        &[Noted::Start(1), SHUT],
    ),
];

fn first_not_heard<R: Runtime>(rt: &R) -> Option<usize> {
    for (place, row) in LIVES.iter().enumerate() {
        if !serves(rt, *row) {
            return Some(place);
        }
    }
    None
}

#[test]
fn servers_that_forward_are_heard(rt: HostRuntime) {
    none_fails(&rt, first_not_heard(&rt));
}
