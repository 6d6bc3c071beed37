//! Servers in memory that are started again (Tuxedo, RESTART, MAXGEN and GRACE): what each call is told, and what is noted
//! of their lives.
use crate::lives::{Life, NEXT, READY, SOUND, SUCCESS, lives_of};
use crate::rows::none_fails;
use crate::running::{End, Runtime, run_of};
use std::sync::atomic::{AtomicU32, Ordering};
use xa_program::events::{Event, StopCause};
use xa_program::link::{Gate, MemoryYard, OpenGate, Point};
use xa_program::types::{CallerId, ServerId};

// Where the clock stands at 0, each start counts by each GRACE.
pub const TWO_STARTS: &[u8] = b"[[queue]]\nname = \"Q\"\n\
    [[server]]\nname = \"S\"\nqueue = \"Q\"\nrestart = true\nmaxgen = 2\ngrace = 1\n\
    [[service]]\nname = \"ECHO\"\nqueues = [\"Q\"]\n";

const TWO_IN_TEN: &[u8] = b"[[queue]]\nname = \"Q\"\n\
    [[server]]\nname = \"S\"\nqueue = \"Q\"\nrestart = true\nmaxgen = 2\ngrace = 10\n\
    [[service]]\nname = \"ECHO\"\nqueues = [\"Q\"]\n";

const THREE_STARTS: &[u8] = b"[[queue]]\nname = \"Q\"\n\
    [[server]]\nname = \"S\"\nqueue = \"Q\"\nrestart = true\nmaxgen = 3\n\
    [[service]]\nname = \"ECHO\"\nqueues = [\"Q\"]\n";

pub const NO_RESTART: &[u8] = b"[[queue]]\nname = \"Q\"\n\
    [[server]]\nname = \"S\"\nqueue = \"Q\"\nmaxgen = 3\n\
    [[service]]\nname = \"ECHO\"\nqueues = [\"Q\"]\n";

const EXIT: &[u8] = b"XA\x01\x04\0\0\0\x06\0\0\0\x01\x02\0\0\0\x01\0";

// RETURNs of one letter to the first invocation, and one that is cut short behind eleven octets.
const K: &[u8] = b"XA\x01\x04\0\0\0\x0b\0\0\0\x01\0\0\0\0\0\x01\0\0\0\x01k";

const X: &[u8] = b"XA\x01\x04\0\0\0\x0b\0\0\0\x01\0\0\0\0\0\x01\0\0\0\x01x";

const Y: &[u8] = b"XA\x01\x04\0\0\0\x0b\0\0\0\x01\0\0\0\0\0\x01\0\0\0\x01y";

const SHORT: &[u8] = b"XA\x01\x04\0\0\0\x0b\0\0\0";

const DIES: Option<Life<'static>> = Some((&[READY, NEXT], SOUND));

const EXITS: Option<Life<'static>> = Some((&[READY, NEXT, EXIT], SOUND));

const ANSWERS: Option<Life<'static>> = Some((&[READY, NEXT, SUCCESS, NEXT], SOUND));

// Its first INVOKE or SHUTDOWN can't be written.
const UNWRITTEN: Option<Life<'static>> = Some((&[READY, NEXT], [&[], &[1], &[]]));

pub const NONE: &[u8] = b"client a\n";

pub const ONE: &[u8] = b"client a\ncall ECHO text \"k\"\n";

pub const TWO: &[u8] = b"client a\ncall ECHO none\ncall ECHO none\n";

const THREE: &[u8] = b"client a\ncall ECHO none\ncall ECHO none\ncall ECHO none\n";

const AT_NINE: &[u8] = b"client a\ncall ECHO none\ntick 9\ncall ECHO none\ncall ECHO none\n";

const AT_TEN: &[u8] = b"client a\ncall ECHO none\ntick 10\ncall ECHO none\ncall ECHO none\n";

const FIVE: &[u8] = b"client a\ncall ECHO text \"x\"\ncall ECHO text \"y\"\ncall ECHO text \"z\"\n\
    call ECHO text \"w\"\ncall ECHO none\n";

/// What is noted of the server: its starts by their generations, the ends of its lives, and that it is given up.
#[derive(Clone, Copy, PartialEq, Eq)]
pub enum Noted {
    Start(u64),
    StartFailed(u64),
    Stop(StopCause),
    Gone,
}

const ENDED: Noted = Noted::Stop(StopCause::EndOfInput);

const EXITED: Noted = Noted::Stop(StopCause::Exit);

const SHUT: Noted = Noted::Stop(StopCause::Shutdown);

const WRITE_FAILED: Noted = Noted::Stop(StopCause::WriteFault);

/// The configuration, the script, the server's lives or `None` where it can't be started, the transcript, and what is noted.
pub type Row = (
    &'static [u8],
    &'static [u8],
    &'static [Option<Life<'static>>],
    &'static [u8],
    &'static [Noted],
);

static ROWS: [Row; 14] = [
    // Two starts that fail count.
    (
        THREE_STARTS,
        ONE,
        &[None, None, Some((&[READY, NEXT, K, NEXT], SOUND))],
        b"a 1 OK 0 octet 6b\n",
        &[
            Noted::StartFailed(1),
            Noted::StartFailed(2),
            Noted::Start(3),
            SHUT,
        ],
    ),
    (
        TWO_STARTS,
        ONE,
        &[None, None, ANSWERS],
        b"a 1 TPENOENT\n",
        &[Noted::StartFailed(1), Noted::StartFailed(2), Noted::Gone],
    ),
    // Who is told of the last life finds no row of the queue.
    (
        TWO_STARTS,
        THREE,
        &[EXITS, EXITS, ANSWERS],
        b"a 1 TPESVCFAIL 1 none\na 2 TPESVCFAIL 1 none\na 3 TPENOENT\n",
        &[
            Noted::Start(1),
            EXITED,
            Noted::Start(2),
            EXITED,
            Noted::Gone,
        ],
    ),
    (
        TWO_STARTS,
        THREE,
        &[DIES, DIES, ANSWERS],
        b"a 1 TPESVCERR\na 2 TPESVCERR\na 3 TPENOENT\n",
        &[Noted::Start(1), ENDED, Noted::Start(2), ENDED, Noted::Gone],
    ),
    (
        TWO_STARTS,
        FIVE,
        &[
            Some((&[READY, NEXT, SHORT], SOUND)),
            Some((&[READY, NEXT, Y, NEXT], SOUND)),
        ],
        b"a 1 TPESVCERR\na 2 OK 0 octet 79\na 3 TPESVCERR\na 4 TPENOENT\na 5 TPENOENT\n",
        &[Noted::Start(1), ENDED, Noted::Start(2), ENDED, Noted::Gone],
    ),
    // A start counts for as many ticks as GRACE: at tick 9 two starts of tick 0 count, at tick 10 none of them does.
    (
        TWO_IN_TEN,
        AT_NINE,
        &[EXITS, EXITS, ANSWERS],
        b"a 1 TPESVCFAIL 1 none\na 2 NOW 9\na 3 TPESVCFAIL 1 none\na 4 TPENOENT\n",
        &[
            Noted::Start(1),
            EXITED,
            Noted::Start(2),
            EXITED,
            Noted::Gone,
        ],
    ),
    (
        TWO_IN_TEN,
        AT_TEN,
        &[EXITS, EXITS, EXITS, ANSWERS],
        b"a 1 TPESVCFAIL 1 none\na 2 NOW 10\na 3 TPESVCFAIL 1 none\na 4 TPESVCFAIL 1 none\n",
        &[
            Noted::Start(1),
            EXITED,
            Noted::Start(2),
            EXITED,
            Noted::Start(3),
            EXITED,
            Noted::Start(4),
            SHUT,
        ],
    ),
    // Without RESTART there is one life, whatever MAXGEN is.
    (
        NO_RESTART,
        TWO,
        &[DIES, ANSWERS],
        b"a 1 TPESVCERR\na 2 TPENOENT\n",
        &[Noted::Start(1), ENDED, Noted::Gone],
    ),
    (
        TWO_STARTS,
        TWO,
        &[DIES, ANSWERS],
        b"a 1 TPESVCERR\na 2 OK 0 none\n",
        &[Noted::Start(1), ENDED, Noted::Start(2), SHUT],
    ),
    // A life that ends behind its answer, without the NEXT that is due, and one that never greets.
    (
        TWO_STARTS,
        b"client a\ncall ECHO text \"x\"\n",
        &[
            Some((&[READY, NEXT, X], SOUND)),
            Some((&[READY, NEXT], SOUND)),
        ],
        b"a 1 OK 0 octet 78\n",
        &[Noted::Start(1), ENDED, Noted::Start(2), SHUT],
    ),
    (
        TWO_STARTS,
        TWO,
        &[Some((&[READY, NEXT, SUCCESS], SOUND)), ANSWERS],
        b"a 1 OK 0 none\na 2 OK 0 none\n",
        &[Noted::Start(1), ENDED, Noted::Start(2), SHUT],
    ),
    (
        THREE_STARTS,
        TWO,
        &[Some((&[READY], SOUND)), DIES, ANSWERS],
        b"a 1 TPESVCERR\na 2 OK 0 none\n",
        &[
            Noted::Start(1),
            ENDED,
            Noted::Start(2),
            ENDED,
            Noted::Start(3),
            SHUT,
        ],
    ),
    // One whose SHUTDOWN can't be written is started again, though its queue is closed then.
    (
        TWO_STARTS,
        NONE,
        &[UNWRITTEN, Some((&[READY, NEXT], SOUND))],
        b"",
        &[Noted::Start(1), WRITE_FAILED, Noted::Start(2), SHUT],
    ),
    (
        TWO_STARTS,
        NONE,
        &[UNWRITTEN, UNWRITTEN, ANSWERS],
        b"",
        &[
            Noted::Start(1),
            WRITE_FAILED,
            Noted::Start(2),
            WRITE_FAILED,
            Noted::Gone,
        ],
    ),
];

fn noted_of(event: &Event) -> Option<Noted> {
    match event {
        Event::Start(started) => Some(Noted::Start(started.generation.0)),
        Event::StartFailed(started) => Some(Noted::StartFailed(started.generation.0)),
        Event::Stop(stopped) => Some(Noted::Stop(stopped.cause)),
        Event::Gone(_) => Some(Noted::Gone),
        _ => None,
    }
}

fn are_noted(history: &[Event], wanted: &[Noted]) -> bool {
    let mut left = wanted.iter();
    for event in history {
        if let Some(noted) = noted_of(event) {
            match left.next() {
                Some(want) if *want == noted => {}
                _ => return false,
            }
        }
    }
    left.next().is_none()
}

fn is_served<R: Runtime, G: Gate>(
    rt: &R,
    yard: &mut MemoryYard,
    gate: &G,
    (config, script): (&[u8], &[u8]),
    wrote: &[&[u8]],
    noted: &[Noted],
) -> bool {
    let files: [(&[u8], &[u8]); 1] = [(b"c", config)];
    match run_of(
        rt,
        &["run", "c"],
        (&files, &[]),
        (script, &[], &[]),
        yard,
        gate,
        (End::Done, wrote),
    ) {
        Some((history, _)) => are_noted(&history, noted),
        None => false,
    }
}

/// Whether a script by that configuration, with a server of these lives, writes one of these and notes that of the server.
pub fn serves_one_of<R: Runtime>(
    rt: &R,
    read: (&[u8], &[u8]),
    lives: &[Option<Life<'_>>],
    wrote: &[&[u8]],
    noted: &[Noted],
) -> bool {
    match lives_of(rt.alloc(), lives) {
        Some(mut yard) => is_served(rt, &mut yard, &OpenGate, read, wrote, noted),
        None => false,
    }
}

/// Whether the run of a row goes so.
pub fn serves<R: Runtime>(rt: &R, (config, script, lives, wrote, noted): Row) -> bool {
    serves_one_of(rt, (config, script), lives, &[wrote], noted)
}

fn first_not_served<R: Runtime>(rt: &R) -> Option<usize> {
    for (place, row) in ROWS.iter().enumerate() {
        if !serves(rt, *row) {
            return Some(place);
        }
    }
    None
}

#[test]
fn servers_are_started_again(rt: HostRuntime) {
    none_fails(&rt, first_not_served(&rt));
}

// ---- requests that wait

// Where four requests may wait, and are taken in the order of the services.
const FOUR_WAIT: &[u8] = b"[[queue]]\nname = \"Q\"\ncapacity = 4\n\
    [[server]]\nname = \"S\"\nqueue = \"Q\"\nrestart = true\nmaxgen = 2\n\
    [[service]]\nname = \"A\"\nqueues = [\"Q\"]\npriority = 90\n\
    [[service]]\nname = \"B\"\nqueues = [\"Q\"]\npriority = 80\n\
    [[service]]\nname = \"C\"\nqueues = [\"Q\"]\npriority = 70\n\
    [[service]]\nname = \"D\"\nqueues = [\"Q\"]\npriority = 60\n\
    [[service]]\nname = \"E\"\nqueues = [\"Q\"]\npriority = 50\n";

const SIX: &[u8] = b"client a\ncall A none noblock\nclient b\ncall B none noblock\n\
    client c\ncall C none noblock\nclient d\ncall D none noblock\n\
    client e\ncall E none noblock\nclient f\ncall A none\n";

// The one whose request comes last of the five finds four there. Of these the first and the third are in hand as a life
// ends, and the fourth waits as the last one does.
const ONE_SWEPT: &[&[u8]] = &[
    b"a 1 TPEBLOCK\nb 1 TPESVCERR\nc 1 OK 0 none\nd 1 TPESVCERR\ne 1 TPESYSTEM\nf 1 TPENOENT\n",
    b"a 1 TPESVCERR\nb 1 TPEBLOCK\nc 1 OK 0 none\nd 1 TPESVCERR\ne 1 TPESYSTEM\nf 1 TPENOENT\n",
    b"a 1 TPESVCERR\nb 1 OK 0 none\nc 1 TPEBLOCK\nd 1 TPESVCERR\ne 1 TPESYSTEM\nf 1 TPENOENT\n",
    b"a 1 TPESVCERR\nb 1 OK 0 none\nc 1 TPESVCERR\nd 1 TPEBLOCK\ne 1 TPESYSTEM\nf 1 TPENOENT\n",
    b"a 1 TPESVCERR\nb 1 OK 0 none\nc 1 TPESVCERR\nd 1 TPESYSTEM\ne 1 TPEBLOCK\nf 1 TPENOENT\n",
];

// Holds the server until a call is over, and the last client until five are.
#[derive(Drop)]
struct UntilFive {
    over: AtomicU32,
}

impl Gate for UntilFive {
    fn holds(&self, point: Point) -> bool {
        let over = self.over.load(Ordering::SeqCst);
        (point == Point::BeforeTake(ServerId(1)) && over < 1)
            || (point == Point::BeforeOp(CallerId(6), 1) && over < 5)
    }

    fn passed(&self, point: Point) {
        if let Point::AfterOp(..) = point {
            let _ = self.over.fetch_add(1, Ordering::SeqCst);
        }
    }
}

fn is_swept<R: Runtime>(rt: &R) -> bool {
    let gate = UntilFive {
        over: AtomicU32::new(0),
    };
    let noted = [Noted::Start(1), ENDED, Noted::Start(2), ENDED, Noted::Gone];
    match lives_of(rt.alloc(), &[DIES, ANSWERS]) {
        Some(mut yard) => is_served(rt, &mut yard, &gate, (FOUR_WAIT, SIX), ONE_SWEPT, &noted),
        None => false,
    }
}

#[test]
fn what_waits_is_swept_with_the_last_life(rt: HostRuntime) {
    assert!(rt; is_swept(&rt));
}
