//! Runs of clients that have several requests out at once (XATMI, tpacall, tpgetrply with TPGETANY, tpcancel): what each call
//! is told, and what their client notes beside it.
use crate::gated::history_of;
use crate::rows::none_fails;
use crate::running::Runtime;
use std::alloc::Global;
use std::io::Write;
use xa_program::events::{Event, Evidence, Refused};
use xa_program::link::{HoldUntil, OpenGate, Point};
use xa_program::types::{CallerId, RequestId, ServerId};

// Two queues with a server each.
const CONFIG: &[u8] =
    b"[[shape]]\nname = \"entry\"\nfields = [\"account int\", \"amount long\", \"memo string 16\"]\n\
    [[queue]]\nname = \"Q1\"\n[[queue]]\nname = \"Q2\"\n\
    [[server]]\nname = \"S1\"\nqueue = \"Q1\"\n\
    [[server]]\nname = \"S2\"\nqueue = \"Q2\"\n\
    [[service]]\nname = \"ECHO\"\nqueues = [\"Q1\"]\n\
    [[service]]\nname = \"FAIL\"\nqueues = [\"Q1\"]\n\
    [[service]]\nname = \"DIE\"\nqueues = [\"Q1\"]\n\
    [[service]]\nname = \"LEN\"\nqueues = [\"Q2\"]\n";

// Who is held: nobody; the first server, which takes nothing until that call of the first client is over; or that call of it,
// which begins only once its request with this number has ended.
#[derive(Clone, Copy)]
enum Hold {
    Nobody,
    Server(u32),
    Call(u32, u64),
}

// What a client notes: which of its calls, or 0 for none, gives up the request with that number; which finds that no answer has
// come to the requests with these; and which is refused, since that descriptor isn't open, or since so many cells are in use.
#[derive(Clone, Copy)]
enum Noted {
    Cancel(u32, u64),
    NotYet(u32, &'static [u64]),
    NoDescriptor(u32, u64),
    NoCell(u32, u32),
}

// The script, who is held, what is written, and what is noted.
type Row = (&'static [u8], Hold, &'static [u8], &'static [Noted]);

static ROWS: [Row; 14] = [
    // An answer of another kind than the one that is asked for is gone, and so is its descriptor.
    (
        b"client a\nacall ECHO c entry account=7\nget 1 nochange octet\nget 1\n",
        Hold::Nobody,
        b"a 1 CD 1\na 2 CD 1 TPEOTYPE\na 3 TPEBADDESC\n",
        &[Noted::NoDescriptor(3, 1)],
    ),
    (
        b"client a\nacall ECHO c entry account=7\nacall ECHO text \"x\"\nacall ECHO none\nacall FAIL text \"y\"\n\
        get 1 nochange c:entry\ngetany nochange c:entry\nget 3 nochange octet\nget 4 nochange c:entry\n",
        Hold::Call(6, 4),
        b"a 1 CD 1\na 2 CD 2\na 3 CD 3\na 4 CD 4\n\
        a 5 CD 1 OK 0 c:entry 00000007000000000000000000000000000000000000000000000000\n\
        a 6 CD 2 TPEOTYPE\na 7 CD 3 OK 0 none\na 8 CD 4 TPEOTYPE\n",
        &[],
    ),
    // All three have been answered when the first of two is taken.
    (
        b"client a\nacall ECHO text \"1\"\nacall ECHO text \"2\"\nacall ECHO text \"3\"\ncancel 2\nget 2\n\
        getany\ngetany\ngetany\n",
        Hold::Call(6, 3),
        b"a 1 CD 1\na 2 CD 2\na 3 CD 3\na 4 DONE\na 5 TPEBADDESC\n\
        a 6 CD 1 OK 0 octet 31\na 7 CD 3 OK 0 octet 33\na 8 TPEBADDESC\n",
        &[
            Noted::Cancel(4, 2),
            Noted::NoDescriptor(5, 2),
            Noted::NoDescriptor(8, 0),
        ],
    ),
    // Descriptors that no call has opened, and one whose answer was taken; TPNOBLOCK changes nothing there.
    (
        b"client a\nget 0\nget 18446744073709551615\ngetany\ngetany noblock\ncancel 1\nacall ECHO text \"x\"\n\
        get 2 noblock\ncancel 0\nget 1\nget 1\ncancel 1\ngetany\n",
        Hold::Nobody,
        b"a 1 TPEBADDESC\na 2 TPEBADDESC\na 3 TPEBADDESC\na 4 TPEBADDESC\na 5 TPEBADDESC\na 6 CD 1\n\
        a 7 TPEBADDESC\na 8 TPEBADDESC\na 9 CD 1 OK 0 octet 78\na 10 TPEBADDESC\na 11 TPEBADDESC\n\
        a 12 TPEBADDESC\n",
        &[
            Noted::NoDescriptor(1, 0),
            Noted::NoDescriptor(2, u64::MAX),
            Noted::NoDescriptor(3, 0),
            Noted::NoDescriptor(4, 0),
            Noted::NoDescriptor(5, 1),
            Noted::NoDescriptor(7, 2),
            Noted::NoDescriptor(8, 0),
            Noted::NoDescriptor(10, 1),
            Noted::NoDescriptor(11, 1),
            Noted::NoDescriptor(12, 0),
        ],
    ),
    // Each client has descriptors of its own.
    (
        b"client a\nacall ECHO text \"x\"\nget 1\nclient b\nget 1\nacall LEN text \"abc\"\nget 1\n",
        Hold::Nobody,
        b"a 1 CD 1\na 2 CD 1 OK 0 octet 78\nb 1 TPEBADDESC\nb 2 CD 1\nb 3 CD 1 OK 3 none\n",
        &[Noted::NoDescriptor(1, 1)],
    ),
    // A tpcall has a number too; one that is refused has none.
    (
        b"client a\nacall ECHO text \"x\"\ncall ECHO text \"y\"\nacall NOPE none\nacall .A none\n\
        acall ECHO fill 65537 61\nacall ECHO text \"z\"\nget 2\nget 3\nget 1\n",
        Hold::Nobody,
        b"a 1 CD 1\na 2 OK 0 octet 79\na 3 TPENOENT\na 4 TPEINVAL\na 5 TPEINVAL\na 6 CD 3\n\
        a 7 TPEBADDESC\na 8 CD 3 OK 0 octet 7a\na 9 CD 1 OK 0 octet 78\n",
        &[Noted::NoDescriptor(7, 2)],
    ),
    // No answer has come, and a call that doesn't wait says at which descriptors it looked.
    (
        b"client a\nacall ECHO text \"1\"\nacall ECHO text \"2\"\nacall ECHO text \"3\"\ncancel 2\n\
        getany noblock\nget 3 noblock\nget 1\ngetany notime\ngetany\n",
        Hold::Server(6),
        b"a 1 CD 1\na 2 CD 2\na 3 CD 3\na 4 DONE\na 5 TPEBLOCK\na 6 TPEBLOCK\n\
        a 7 CD 1 OK 0 octet 31\na 8 CD 3 OK 0 octet 33\na 9 TPEBADDESC\n",
        &[
            Noted::Cancel(4, 2),
            Noted::NotYet(5, &[1, 3]),
            Noted::NotYet(6, &[3]),
            Noted::NoDescriptor(9, 0),
        ],
    ),
    // One has come, so it is told at once.
    (
        b"client a\nacall ECHO text \"1\"\nacall ECHO text \"2\"\ngetany noblock\nget 2 noblock\n",
        Hold::Call(3, 2),
        b"a 1 CD 1\na 2 CD 2\na 3 CD 1 OK 0 octet 31\na 4 CD 2 OK 0 octet 32\n",
        &[],
    ),
    // An answer comes before its descriptor is given up, and after that. The next call has its own.
    (
        b"client a\nacall ECHO text \"x\"\ncancel 1\nget 1\nacall ECHO text \"y\"\ngetany\n",
        Hold::Call(2, 1),
        b"a 1 CD 1\na 2 DONE\na 3 TPEBADDESC\na 4 CD 2\na 5 CD 2 OK 0 octet 79\n",
        &[Noted::Cancel(2, 1), Noted::NoDescriptor(3, 1)],
    ),
    (
        b"client a\nacall ECHO text \"x\"\ncancel 1\nget 1\nacall ECHO text \"y\"\ngetany\n",
        Hold::Server(4),
        b"a 1 CD 1\na 2 DONE\na 3 TPEBADDESC\na 4 CD 2\na 5 CD 2 OK 0 octet 79\n",
        &[Noted::Cancel(2, 1), Noted::NoDescriptor(3, 1)],
    ),
    // Of two services the one that answers first is told first.
    (
        b"client a\nacall ECHO text \"x\"\nacall LEN text \"abc\"\ngetany\ngetany\n",
        Hold::Server(3),
        b"a 1 CD 1\na 2 CD 2\na 3 CD 2 OK 3 none\na 4 CD 1 OK 0 octet 78\n",
        &[],
    ),
    // A service that fails, a server that ends, and a queue that has none left then.
    (
        b"client a\nacall FAIL text \"y\"\nacall DIE none\nacall ECHO none\nget 3\nget 2\nget 1\nacall ECHO none\n",
        Hold::Server(3),
        b"a 1 CD 1\na 2 CD 2\na 3 CD 3\na 4 CD 3 TPESYSTEM\na 5 CD 2 TPESVCERR\n\
        a 6 CD 1 TPESVCFAIL 7 octet 79\na 7 TPENOENT\n",
        &[],
    ),
    // A client that leaves gives up what is out, in order: one was answered, one is being served and one waits.
    (
        b"client a\nacall ECHO text \"1\"\nacall ECHO text \"2\"\nacall ECHO text \"3\"\nget 2\n\
        acall ECHO text \"4\"\n",
        Hold::Nobody,
        b"a 1 CD 1\na 2 CD 2\na 3 CD 3\na 4 CD 2 OK 0 octet 32\na 5 CD 4\n",
        &[
            Noted::Cancel(0, 1),
            Noted::Cancel(0, 3),
            Noted::Cancel(0, 4),
        ],
    ),
    // The ticks of a client leave its descriptors open.
    (
        b"client a\nacall ECHO text \"1\"\ntick 2147483647\nget 1\n",
        Hold::Server(2),
        b"a 1 CD 1\na 2 NOW 2147483647\na 3 CD 1 OK 0 octet 31\n",
        &[],
    ),
];

// Whether it is one of what `Noted` lists.
fn is_listed(event: &Event) -> bool {
    match event {
        Event::Cancel(_) | Event::NotYet(_) => true,
        Event::Refuse(refused) => matches!(
            refused.evidence,
            Evidence::Descriptor(_) | Evidence::Cells(_)
        ),
        _ => false,
    }
}

fn are_of(requests: &[RequestId], numbers: &[u64]) -> bool {
    let mut left = numbers.iter();
    for request in requests {
        if left.next() != Some(&request.number) {
            return false;
        }
    }
    left.next().is_none()
}

fn is_refused(refused: &Refused, noted: Noted) -> bool {
    match (&refused.evidence, noted) {
        (Evidence::Descriptor(at), Noted::NoDescriptor(op, number)) => {
            refused.op == op && *at == number
        }
        (Evidence::Cells(all), Noted::NoCell(op, count)) => refused.op == op && *all == count,
        _ => false,
    }
}

fn is_noted(event: &Event, noted: Noted) -> bool {
    match (event, noted) {
        (Event::Cancel(cancelled), Noted::Cancel(op, number)) => {
            cancelled.op == op && cancelled.request.number == number
        }
        (Event::NotYet(unready), Noted::NotYet(op, numbers)) => {
            unready.op == op && are_of(unready.requests.slice(), numbers)
        }
        (Event::Refuse(refused), _) => is_refused(refused, noted),
        _ => false,
    }
}

// Of what is listed that is noted, in that order.
fn are_noted(history: &[Event], noted: &[Noted]) -> bool {
    let mut left = noted.iter();
    for event in history {
        if is_listed(event) {
            match left.next() {
                Some(next) if is_noted(event, *next) => {}
                _ => return false,
            }
        }
    }
    left.next().is_none()
}

fn held_history_of<R: Runtime>(
    rt: &R,
    script: &[u8],
    hold: Hold,
    wrote: &[u8],
) -> Option<Vec<Event>> {
    let client = CallerId(1);
    let (held, until) = match hold {
        Hold::Nobody => return history_of(rt, &OpenGate, CONFIG, script, &[wrote]),
        Hold::Server(op) => (Point::BeforeTake(ServerId(1)), Point::AfterOp(client, op)),
        Hold::Call(op, number) => (
            Point::BeforeOp(client, op),
            Point::AfterFill(RequestId {
                caller: client,
                number,
            }),
        ),
    };
    history_of(rt, &HoldUntil::new(held, until), CONFIG, script, &[wrote])
}

fn is_told<R: Runtime>(rt: &R, (script, hold, wrote, noted): Row) -> bool {
    match held_history_of(rt, script, hold, wrote) {
        Some(history) => are_noted(history.as_slice(), noted),
        None => false,
    }
}

fn first_not_told<R: Runtime>(rt: &R) -> Option<usize> {
    for (place, row) in ROWS.iter().enumerate() {
        if !is_told(rt, *row) {
            return Some(place);
        }
    }
    None
}

#[test]
fn replies_are_taken_as_they_are_asked_for(rt: HostRuntime) {
    none_fails(&rt, first_not_told(&rt));
}

// What follows fifty calls that get a descriptor each, who is held, what is written behind their lines, the calls that find no
// cell, and the first and the last of the fifty requests that are given up in the end.
type Many = (
    &'static [u8],
    Hold,
    &'static [u8],
    &'static [u32],
    (u64, u64),
);

// How many cells a client has.
const CELLS: u32 = 50;

static FULL: [Many; 3] = [
    (
        b"acall ECHO none\n",
        Hold::Server(51),
        b"a 51 TPELIMIT\n",
        &[51],
        (1, 50),
    ),
    // An answer that is taken makes room for one more, which has the next number.
    (
        b"acall ECHO none\nget 1\nacall ECHO none\n",
        Hold::Nobody,
        b"a 51 TPELIMIT\na 52 CD 1 OK 0 none\na 53 CD 51\n",
        &[51],
        (2, 51),
    ),
    // A cell is in use until its request has ended, also where that was given up. A tpcall needs one too.
    (
        b"cancel 1\nacall ECHO none\ncall LEN none\nget 2\nacall ECHO none\nacall ECHO none\n",
        Hold::Server(53),
        b"a 51 DONE\na 52 TPELIMIT\na 53 TPELIMIT\na 54 CD 2 OK 0 none\na 55 CD 51\na 56 CD 52\n",
        &[52, 53],
        (3, 52),
    ),
];

// The script and what is written.
fn both_of(alloc: Global, last: &[u8], told: &[u8]) -> Option<(Vec<u8>, Vec<u8>)> {
    let mut script = Vec::from_slice(alloc, b"client a\n").ok()?;
    let mut wrote = Vec::new(alloc);
    for number in 1..=CELLS {
        script.extend_from_slice(b"acall ECHO none\n").ok()?;
        writeln!(wrote, "a {number} CD {number}").ok()?;
    }
    script.extend_from_slice(last).ok()?;
    wrote.extend_from_slice(told).ok()?;
    Some((script, wrote))
}

// Those calls find no cell, and no others.
fn were_full(history: &[Event], ops: &[u32]) -> bool {
    let mut left = ops.iter();
    for event in history {
        if let Event::Refuse(refused) = event {
            match left.next() {
                Some(op) if is_refused(refused, Noted::NoCell(*op, CELLS)) => {}
                _ => return false,
            }
        }
    }
    left.next().is_none()
}

// Those requests are given up by no call, each behind the one before it.
fn are_given_up(history: &[Event], (first, last): (u64, u64)) -> bool {
    let mut next = first;
    for event in history {
        if let Event::Cancel(cancelled) = event
            && cancelled.op == 0
        {
            if cancelled.request.number != next {
                return false;
            }
            next = next.saturating_add(1);
        }
    }
    next == last.saturating_add(1)
}

fn is_full<R: Runtime>(rt: &R, (last, hold, told, ops, given_up): Many) -> bool {
    let Some((script, wrote)) = both_of(rt.alloc(), last, told) else {
        return false;
    };
    match held_history_of(rt, &script, hold, &wrote) {
        Some(history) => {
            were_full(history.as_slice(), ops) && are_given_up(history.as_slice(), given_up)
        }
        None => false,
    }
}

fn first_not_full<R: Runtime>(rt: &R) -> Option<usize> {
    for (place, row) in FULL.iter().enumerate() {
        if !is_full(rt, *row) {
            return Some(place);
        }
    }
    None
}

#[test]
fn a_client_has_fifty_descriptors(rt: HostRuntime) {
    none_fails(&rt, first_not_full(&rt));
}
