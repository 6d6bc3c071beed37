//! Runs whose clients set the priority of their next request.
use crate::gated::history_of;
use crate::rows::none_fails;
use crate::running::Runtime;
use xa_program::events::Event;
use xa_program::link::{HoldUntil, OpenGate, Point};
use xa_program::types::{CallerId, ServerId};

// One queue with one server and three services, of which one has a priority of its own, and one takes no data.
const CONFIG: &[u8] = b"[[queue]]\nname = \"Q1\"\n\
    [[server]]\nname = \"S1\"\nqueue = \"Q1\"\n\
    [[service]]\nname = \"ECHO\"\nqueues = [\"Q1\"]\n\
    [[service]]\nname = \"LEN\"\nqueues = [\"Q1\"]\npriority = 70\n\
    [[service]]\nname = \"BARE\"\nroutine = \"ECHO\"\nqueues = [\"Q1\"]\naccepts = []\n";

// A script, what is written, and the priorities of the requests that were accepted.
type Row = (&'static [u8], &'static [u8], &'static [u8]);

static ROWS: [Row; 16] = [
    (b"client a\nprio add 5\n", b"a 1 DONE\n", &[]),
    (b"client a\ncall ECHO none\n", b"a 1 OK 0 none\n", &[50]),
    (
        b"client a\nprio abs 10\ncall ECHO none\n",
        b"a 1 DONE\na 2 OK 0 none\n",
        &[10],
    ),
    (
        b"client a\nprio add 80\ncall ECHO none\n",
        b"a 1 DONE\na 2 OK 0 none\n",
        &[100],
    ),
    (
        b"client a\nprio add -60\ncall ECHO none\n",
        b"a 1 DONE\na 2 OK 0 none\n",
        &[1],
    ),
    (
        b"client a\nprio abs 0\ncall ECHO none\n",
        b"a 1 DONE\na 2 OK 0 none\n",
        &[1],
    ),
    (
        b"client a\nprio abs 1000\ncall ECHO none\n",
        b"a 1 DONE\na 2 OK 0 none\n",
        &[100],
    ),
    (
        b"client a\nprio add 5\ncall LEN none\n",
        b"a 1 DONE\na 2 OK 0 none\n",
        &[75],
    ),
    // The next request has the service's own again.
    (
        b"client a\nprio abs 10\ncall ECHO none\ncall ECHO none\n",
        b"a 1 DONE\na 2 OK 0 none\na 3 OK 0 none\n",
        &[10, 50],
    ),
    // What was set last is what is set.
    (
        b"client a\nprio abs 10\nprio add 5\ncall ECHO none\n",
        b"a 1 DONE\na 2 DONE\na 3 OK 0 none\n",
        &[55],
    ),
    // A call that is refused leaves it for the next: the service's name is none, there is no such service, and the
    // data isn't taken.
    (
        b"client a\nprio abs 10\ncall .x none\ncall ECHO none\n",
        b"a 1 DONE\na 2 TPEINVAL\na 3 OK 0 none\n",
        &[10],
    ),
    (
        b"client a\nprio abs 10\ncall NOPE none\ncall ECHO none\n",
        b"a 1 DONE\na 2 TPENOENT\na 3 OK 0 none\n",
        &[10],
    ),
    (
        b"client a\nprio abs 10\ncall BARE text \"x\"\ncall ECHO none\n",
        b"a 1 DONE\na 2 TPEITYPE\na 3 OK 0 none\n",
        &[10],
    ),
    // A tpacall has it too, and a call that sends no request leaves it.
    (
        b"client a\nprio abs 10\ngetany\nacall ECHO none\nget 1\nacall ECHO none\n",
        b"a 1 DONE\na 2 TPEBADDESC\na 3 CD 1\na 4 CD 1 OK 0 none\na 5 CD 2\n",
        &[10, 50],
    ),
    // It is of one client alone, and is lost where that makes no request.
    (
        b"client a\nprio abs 10\ncall NOPE none\nclient b\ncall ECHO none\n",
        b"a 1 DONE\na 2 TPENOENT\nb 1 OK 0 none\n",
        &[50],
    ),
    (
        b"client a\ncall ECHO none\nprio abs 10\n",
        b"a 1 OK 0 none\na 2 DONE\n",
        &[50],
    ),
];

// The priorities of the requests that were accepted are these, in that order.
fn were_accepted_by(history: &[Event], priorities: &[u8]) -> bool {
    let mut left = priorities.iter();
    for event in history {
        if let Event::Accept(accepted) = event
            && left.next() != Some(&accepted.priority)
        {
            return false;
        }
    }
    left.next().is_none()
}

fn is_set<R: Runtime>(rt: &R, (script, wrote, priorities): Row) -> bool {
    match history_of(rt, &OpenGate, CONFIG, script, &[wrote]) {
        Some(history) => were_accepted_by(history.as_slice(), priorities),
        None => false,
    }
}

fn first_not_set<R: Runtime>(rt: &R) -> Option<usize> {
    for (place, row) in ROWS.iter().enumerate() {
        if !is_set(rt, *row) {
            return Some(place);
        }
    }
    None
}

#[test]
fn a_request_has_the_priority_that_was_set_for_it(rt: HostRuntime) {
    none_fails(&rt, first_not_set(&rt));
}

// A script of one client, the call behind which the server begins to take, what is written, and the numbers of the requests in
// the order in which they are taken.
type Turn = (&'static [u8], u32, &'static [u8], &'static [u64]);

static TURNS: [Turn; 3] = [
    (
        b"client a\nprio abs 20\nacall ECHO none\nprio abs 40\nacall ECHO none\nprio abs 10\nacall ECHO none\n\
        acall ECHO none\nacall ECHO none\n",
        8,
        b"a 1 DONE\na 2 CD 1\na 3 DONE\na 4 CD 2\na 5 DONE\na 6 CD 3\na 7 CD 4\na 8 CD 5\n",
        &[4, 5, 2, 1, 3],
    ),
    // The tenth is taken by age alone.
    (
        b"client a\nprio abs 10\n\
        acall ECHO none\nacall ECHO none\nacall ECHO none\nacall ECHO none\n\
        acall ECHO none\nacall ECHO none\nacall ECHO none\nacall ECHO none\n\
        acall ECHO none\nacall ECHO none\nacall ECHO none\nacall ECHO none\n",
        13,
        b"a 1 DONE\na 2 CD 1\na 3 CD 2\na 4 CD 3\na 5 CD 4\na 6 CD 5\na 7 CD 6\na 8 CD 7\n\
        a 9 CD 8\na 10 CD 9\na 11 CD 10\na 12 CD 11\na 13 CD 12\n",
        &[2, 3, 4, 5, 6, 7, 8, 9, 10, 1, 11, 12],
    ),
    // So is the twentieth.
    (
        b"client a\nprio abs 10\nacall ECHO none\nprio abs 10\nacall ECHO none\n\
        acall ECHO none\nacall ECHO none\nacall ECHO none\nacall ECHO none\nacall ECHO none\n\
        acall ECHO none\nacall ECHO none\nacall ECHO none\nacall ECHO none\nacall ECHO none\n\
        acall ECHO none\nacall ECHO none\nacall ECHO none\nacall ECHO none\nacall ECHO none\n\
        acall ECHO none\nacall ECHO none\nacall ECHO none\nacall ECHO none\nacall ECHO none\n",
        24,
        b"a 1 DONE\na 2 CD 1\na 3 DONE\na 4 CD 2\na 5 CD 3\na 6 CD 4\na 7 CD 5\na 8 CD 6\n\
        a 9 CD 7\na 10 CD 8\na 11 CD 9\na 12 CD 10\na 13 CD 11\na 14 CD 12\na 15 CD 13\na 16 CD 14\n\
        a 17 CD 15\na 18 CD 16\na 19 CD 17\na 20 CD 18\na 21 CD 19\na 22 CD 20\na 23 CD 21\na 24 CD 22\n",
        &[
            3, 4, 5, 6, 7, 8, 9, 10, 11, 1, 12, 13, 14, 15, 16, 17, 18, 19, 20, 2, 21, 22,
        ],
    ),
];

// The requests are taken in that order.
fn were_taken(history: &[Event], numbers: &[u64]) -> bool {
    let mut left = numbers.iter();
    for event in history {
        if let Event::Take(take) = event
            && left.next() != Some(&take.request.number)
        {
            return false;
        }
    }
    left.next().is_none()
}

fn is_in_turn<R: Runtime>(rt: &R, (script, until, wrote, numbers): Turn) -> bool {
    let gate = HoldUntil::new(
        Point::BeforeTake(ServerId(1)),
        Point::AfterOp(CallerId(1), until),
    );
    match history_of(rt, &gate, CONFIG, script, &[wrote]) {
        Some(history) => were_taken(history.as_slice(), numbers),
        None => false,
    }
}

fn first_not_in_turn<R: Runtime>(rt: &R) -> Option<usize> {
    for (place, turn) in TURNS.iter().enumerate() {
        if !is_in_turn(rt, *turn) {
            return Some(place);
        }
    }
    None
}

#[test]
fn requests_that_wait_are_taken_by_priority_and_every_tenth_by_age(rt: HostRuntime) {
    none_fails(&rt, first_not_in_turn(&rt));
}
