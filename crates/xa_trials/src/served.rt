//! Whole runs with real processes: what each call is told where servers end, fail or can't be started, and what is left.
use crate::processes::count_descriptors;
use crate::rows::none_fails;
use crate::running::{Runtime, is_among, source_of, words_of};
use crate::statuses::are_lives_told;
use std::alloc::Global;
use std::fs;
use xa_program::events::Event;
use xa_program::link::{
    ChildYard, FileShelf, Gate, HoldUntil, Link, MemorySink, MemorySource, OpenGate, Point,
};
use xa_program::types::{CallerId, Name, Octets, ServerId};
use xa_program::{EndedLife, Outcome, run};

// The shell's words for a server. One is started with the words `server` and its name, so `sh` reads its script from the
// file `server`, and has the name, of one octet, as `$1`. It greets with READY and NEXT, takes an INVOKE of `ECHO`
// without data, and returns with that number, or with TPEXIT. `alone` ends it where the process that noted itself last
// is still there, and else notes its own.
const WORDS: &str = "next() { printf 'XA\\001\\002\\000\\000\\000\\000\\000\\000\\000\\000'; }\n\
    greet() { printf \"XA\\001\\001\\000\\000\\000\\002\\000\\000\\000\\000\\001$1\"; next; }\n\
    take() { head -c 24 >/dev/null; }\n\
    give() { printf \"XA\\001\\004\\000\\000\\000\\006\\000\\000\\000\\00$1\\000\\000\\000\\000\\000\\000\"; }\n\
    leave() { printf 'XA\\001\\004\\000\\000\\000\\006\\000\\000\\000\\001\\002\\000\\000\\000\\001\\000'; }\n\
    alone() { if test -e pid && test -e /proc/$(cat pid); then exit; fi; echo $$ >pid; }\n";

fn server_text(alloc: Global, does: &str) -> Option<String> {
    format!(in alloc; "{WORDS}{does}\n").ok()
}

fn write_server(rt: &HostRuntime, does: &str) -> bool {
    match server_text(rt.alloc(), does) {
        Some(text) => fs::write(rt, "server", text).is_ok(),
        None => false,
    }
}

// What a command is run on: its words and its script, its output, and the real files and processes.
#[derive(Drop)]
struct Stage {
    words: Vec<String>,
    input: MemorySource,
    out: MemorySink,
    shelf: FileShelf<HostRuntime>,
    yard: ChildYard<HostRuntime>,
}

fn yard_of(rt: &HostRuntime) -> Option<ChildYard<HostRuntime>> {
    let own = Octets::of(rt.alloc(), b"sh").ok()?;
    Some(ChildYard::new(rt.clone().ok()?, own))
}

fn set_up(rt: &HostRuntime, words: &[&str], script: &str) -> Option<Stage> {
    let alloc = rt.alloc();
    let words = words_of(alloc, words)?;
    let input = source_of(alloc, script.as_bytes(), &[], 64)?;
    Some(Stage {
        words,
        input,
        out: MemorySink::new(alloc, Vec::new(alloc), Vec::new(alloc), 64),
        shelf: FileShelf::new(rt.clone().ok()?, alloc),
        yard: yard_of(rt)?,
    })
}

// What a run by so many processes, with so many starts that fail, may print, and the line of a life that failed; without
// one, any may be said.
#[derive(Clone, Copy)]
struct Want {
    wrote: &'static [&'static [u8]],
    count: usize,
    refused: usize,
    ended: Option<&'static str>,
}

// Whether that line is said of the lives of the server `S`.
fn is_told<L: Link>(
    alloc: Global,
    history: &[Event],
    lives: &[Vec<EndedLife<L>>],
    ended: Option<&str>,
) -> bool {
    match (ended, Name::read(b"S")) {
        (Some(line), Ok(name)) => are_lives_told(alloc, &[name], history, lives, line),
        (None, _) => true,
        _ => false,
    }
}

// Whether there are so many lives, of all servers.
fn are_so_many<T>(servers: &[Vec<T>], count: usize) -> bool {
    let mut left = count;
    for lives in servers {
        match left.checked_sub(lives.len()) {
            Some(rest) => left = rest,
            None => return false,
        }
    }
    left == 0
}

// How many starts failed.
fn refused_in(history: &[Event]) -> usize {
    history
        .iter()
        .filter(|event| matches!(**event, Event::StartFailed(_)))
        .count()
}

// Whether the command is done so.
fn prints<R: Runtime, G: Gate>(rt: &R, stage: &mut Stage, gate: &G, want: Want) -> bool {
    let Outcome {
        status,
        homes: _,
        history,
        lives,
        cut: _,
        starters: _,
    } = run(
        rt,
        rt.alloc(),
        stage.words.as_slice(),
        &mut stage.shelf,
        &mut stage.input,
        &mut stage.out,
        &mut stage.yard,
        gate,
    );
    let printed = is_among(stage.out.taken(), want.wrote);
    let done = status.number() == 0 && are_so_many(lives.as_slice(), want.count);
    let refused = refused_in(history.as_slice()) == want.refused;
    let told = is_told(rt.alloc(), history.as_slice(), lives.as_slice(), want.ended);
    printed && done && refused && told
}

/// Whether the file has that text.
pub fn has(rt: &HostRuntime, name: &str, text: &str) -> bool {
    match fs::read_to_string(rt, name) {
        Ok(read) => read.as_str() == text,
        Err(_) => false,
    }
}

fn is_childless(rt: &HostRuntime, thread: &str) -> bool {
    let Ok(path) = format!(in rt.alloc(); "/proc/self/task/{thread}/children") else {
        return false;
    };
    match fs::read_to_string(rt, path.as_str()) {
        Ok(children) => children.is_empty(),
        Err(_) => true,
    }
}

// Whether no thread has a process that it started, or that another left to it. A thread that ends by now has none.
fn has_no_child(rt: &HostRuntime) -> bool {
    let Ok(threads) = fs::read_dir(rt, "/proc/self/task") else {
        return false;
    };
    for thread in threads {
        match thread {
            Ok(thread) if is_childless(rt, thread.file_name()) => {}
            _ => return false,
        }
    }
    true
}

// Whether the command serves the script so, and leaves none of its processes.
fn serves<R: Runtime, G: Gate>(
    threads: &R,
    rt: &HostRuntime,
    words: [&str; 2],
    script: &str,
    gate: &G,
    want: Want,
) -> bool {
    let served = match set_up(rt, &words, script) {
        Some(mut stage) => prints(threads, &mut stage, gate, want),
        None => false,
    };
    served && has_no_child(rt)
}

/// Removes the files that a test wrote, and answers whether they were there.
pub fn remove(rt: &HostRuntime, names: &[&str]) -> bool {
    let mut were_there = true;
    for name in names {
        were_there &= fs::remove_file(rt, name).is_ok();
    }
    were_there
}

// ---- one server

const TWICE: &str = "client a\ncall ECHO none\ncall ECHO none\n";

// The next call comes before the rows of the queue are withdrawn, and is swept from it or finds it down, or after that.
const ONCE: &[&[u8]] = &[
    b"a 1 OK 0 none\na 2 TPENOENT\n",
    b"a 1 OK 0 none\na 2 TPESYSTEM\n",
];

const DIED: &[&[u8]] = &[b"a 1 TPESVCERR\na 2 TPENOENT\n"];

const NEVER: &[&[u8]] = &[b"a 1 TPENOENT\na 2 TPENOENT\n"];

// One server, whose program is the shell.
const ONE: &str = "[[queue]]\nname = \"Q\"\n\
                   [[server]]\nname = \"S\"\nqueue = \"Q\"\nprogram = \"/bin/sh\"\n\
                   [[service]]\nname = \"ECHO\"\nqueues = [\"Q\"]\n";

static COMMANDS: [[&str; 2]; 2] = [["play", "ECHO"], ["run", "config"]];

// What the server does, what may be printed, what is said of its life, and whether it comes to its own end behind its closed pipes and notes that in
// the file `ended`. The others that would go on are ended by force: else the test would last longer than it may.
type Row = (
    &'static str,
    &'static [&'static [u8]],
    Option<&'static str>,
    bool,
);

static ROWS: [Row; 10] = [
    // It ends, or is ended by another, while the call waits.
    (
        "greet $1; take; exit 3",
        DIED,
        Some("server S: life 1: ended by EndOfInput, status 3"),
        false,
    ),
    (
        "greet $1; take; kill -9 $$ >/dev/null & wait; exec sleep 600",
        DIED,
        Some("server S: life 1: ended by EndOfInput, signal 9"),
        false,
    ),
    // It goes on behind its closed pipes.
    ("greet $1; exec 0<&- 1>&- sleep 600", DIED, None, false),
    // It goes on behind octets that are no frame, before it greets and behind its call, and no signal but one ends it.
    (
        "echo no frame but text; exec sleep 600",
        NEVER,
        Some("server S: life 1: ended by BadBytes at 0, signal 9"),
        false,
    ),
    (
        "trap '' HUP INT PIPE TERM; greet $1; take; echo no frame but text; exec sleep 600",
        DIED,
        Some("server S: life 1: ended by BadBytes at 26, signal 9"),
        false,
    ),
    // It goes on behind a RETURN to another call, and behind its answer.
    (
        "greet $1; take; give 2; exec sleep 600",
        DIED,
        Some("server S: life 1: ended by OutOfTurn kind 4 tag 2, signal 9"),
        false,
    ),
    (
        "greet $1; take; give 1; echo no frame but text; exec sleep 600",
        ONCE,
        Some("server S: life 1: ended by BadBytes at 44, signal 9"),
        false,
    ),
    (
        "greet $1; take; give 1; next; take; echo no frame but text; exec sleep 600",
        &[b"a 1 OK 0 none\na 2 TPESVCERR\n"],
        Some("server S: life 1: ended by BadBytes at 56, signal 9"),
        false,
    ),
    // It is shut down, or returned TPEXIT.
    (
        "greet $1; take; give 1; next; take; give 2; next; cat >/dev/null; sleep 0.1; echo x >ended",
        &[b"a 1 OK 0 none\na 2 OK 0 none\n"],
        Some(""),
        true,
    ),
    (
        "greet $1; take; leave; cat >/dev/null; sleep 0.1; echo x >ended",
        &[b"a 1 TPESVCFAIL 1 none\na 2 TPENOENT\n"],
        Some(""),
        true,
    ),
];

fn fails_so<R: Runtime>(threads: &R, rt: &HostRuntime, (server, wrote, ended, ends): Row) -> bool {
    if !write_server(rt, server) {
        return false;
    }
    let want = Want {
        wrote,
        count: 1,
        refused: 0,
        ended,
    };
    for command in COMMANDS {
        if !serves(threads, rt, command, TWICE, &OpenGate, want) || remove(rt, &["ended"]) != ends {
            return false;
        }
    }
    true
}

fn first_not_ended<R: Runtime>(threads: &R, rt: &HostRuntime) -> Option<usize> {
    for (place, row) in ROWS.iter().enumerate() {
        if !fails_so(threads, rt, *row) {
            return Some(place);
        }
    }
    None
}

#[test]
fn a_server_that_fails_is_ended(rt: HostRuntime) {
    assert!(rt; fs::write(&rt, "config", ONE).is_ok());
    none_fails(&rt, first_not_ended(&rt, &rt));
    assert!(rt; remove(&rt, &["config", "server"]));
}

// ---- a server that is started again

// It may be started as often as a server ever may.
const OFTEN: &str = "[[queue]]\nname = \"Q\"\n\
                     [[server]]\nname = \"S\"\nqueue = \"Q\"\nrestart = true\nmaxgen = 255\nprogram = \"/bin/sh\"\n\
                     [[service]]\nname = \"ECHO\"\nqueues = [\"Q\"]\n";

// The program isn't there.
const NOWHERE: &str = "[[queue]]\nname = \"Q\"\n\
                       [[server]]\nname = \"S\"\nqueue = \"Q\"\nrestart = true\nmaxgen = 20\nprogram = \"./no-such-program\"\n\
                       [[service]]\nname = \"ECHO\"\nqueues = [\"Q\"]\n";

// The configuration, what the server does, what is printed, and how many of its starts come about and fail.
type Often = (
    &'static str,
    &'static str,
    &'static [&'static [u8]],
    usize,
    usize,
);

static OFTEN_ROWS: [Often; 6] = [
    (OFTEN, "exit", NEVER, 255, 0),
    (NOWHERE, "", NEVER, 0, 20),
    (
        OFTEN,
        "greet $1; take",
        &[b"a 1 TPESVCERR\na 2 TPESVCERR\n"],
        3,
        0,
    ),
    (
        OFTEN,
        "greet $1; take; leave",
        &[b"a 1 TPESVCFAIL 1 none\na 2 TPESVCFAIL 1 none\n"],
        3,
        0,
    ),
    // A process that goes on for a while is gone before the next one starts: else that one ends, and there are more lives.
    (
        OFTEN,
        "alone; greet $1; take; echo no frame but text; exec sleep 1",
        &[b"a 1 TPESVCERR\na 2 TPESVCERR\n"],
        3,
        0,
    ),
    (
        OFTEN,
        "alone; greet $1; take; leave; sleep 0.2",
        &[b"a 1 TPESVCFAIL 1 none\na 2 TPESVCFAIL 1 none\n"],
        3,
        0,
    ),
];

fn is_started_so<R: Runtime>(threads: &R, rt: &HostRuntime, row: Often) -> bool {
    let (config, server, wrote, count, refused) = row;
    let want = Want {
        wrote,
        count,
        refused,
        ended: None,
    };
    fs::write(rt, "config", config).is_ok()
        && write_server(rt, server)
        && serves(threads, rt, ["run", "config"], TWICE, &OpenGate, want)
}

fn first_not_started_so<R: Runtime>(threads: &R, rt: &HostRuntime) -> Option<usize> {
    for (place, row) in OFTEN_ROWS.iter().enumerate() {
        if !is_started_so(threads, rt, *row) {
            return Some(place);
        }
    }
    None
}

#[test]
fn a_server_is_started_as_often_as_it_may(rt: HostRuntime) {
    let before = count_descriptors(&rt);
    none_fails(&rt, first_not_started_so(&rt, &rt));
    assert!(rt; before.is_some() && count_descriptors(&rt) == before);
    assert!(rt; remove(&rt, &["config", "server", "pid"]));
}

// ---- several servers

// Two servers of one queue.
const PAIR: &str = "[[queue]]\nname = \"Q\"\n\
                    [[server]]\nname = \"A\"\nqueue = \"Q\"\nprogram = \"/bin/sh\"\n\
                    [[server]]\nname = \"B\"\nqueue = \"Q\"\nprogram = \"/bin/sh\"\n\
                    [[service]]\nname = \"ECHO\"\nqueues = [\"Q\"]\n";

// What the first server does once it has taken its call.
static ENDS: [&str; 3] = [
    "exit",
    "kill -9 $$",
    "echo no frame but text; exec sleep 600",
];

// The second one answers where the process of the first is gone.
const OTHER: &str =
    "for n in 1 2; do take; if test -e /proc/$(cat pid); then exit; fi; give $n; next; done\n\
    cat >/dev/null";

const PAIRED: &[&[u8]] = &[b"a 1 TPESVCERR\na 2 OK 0 none\nb 1 OK 0 none\n"];

// The first call of the first client is taken by the first server, and is over before the second client calls.
#[derive(Drop)]
struct FirstToOne {
    server: HoldUntil,
    client: HoldUntil,
}

impl FirstToOne {
    fn new() -> FirstToOne {
        let over = Point::AfterOp(CallerId(1), 1);
        FirstToOne {
            server: HoldUntil::new(Point::BeforeTake(ServerId(2)), over),
            client: HoldUntil::new(Point::BeforeOp(CallerId(2), 1), over),
        }
    }
}

impl Gate for FirstToOne {
    fn holds(&self, point: Point) -> bool {
        self.server.holds(point) || self.client.holds(point)
    }

    fn passed(&self, point: Point) {
        self.server.passed(point);
        self.client.passed(point);
    }
}

fn pair_text(alloc: Global, end: &str) -> Option<String> {
    format!(in alloc; "greet $1\nif test $1 = A; then echo $$ >pid; take; {end}; fi\n{OTHER}").ok()
}

fn write_pair(rt: &HostRuntime, end: &str) -> bool {
    match pair_text(rt.alloc(), end) {
        Some(does) => write_server(rt, does.as_str()),
        None => false,
    }
}

fn first_not_outlived<R: Runtime>(threads: &R, rt: &HostRuntime) -> Option<usize> {
    let script = "client a\ncall ECHO none\ncall ECHO none\nclient b\ncall ECHO none\n";
    let want = Want {
        wrote: PAIRED,
        count: 2,
        refused: 0,
        ended: None,
    };
    for (place, end) in ENDS.iter().enumerate() {
        let gate = FirstToOne::new();
        if !write_pair(rt, end) || !serves(threads, rt, ["run", "config"], script, &gate, want) {
            return Some(place);
        }
    }
    None
}

#[test]
fn the_other_server_of_a_queue_goes_on(rt: HostRuntime) {
    assert!(rt; fs::write(&rt, "config", PAIR).is_ok());
    none_fails(&rt, first_not_outlived(&rt, &rt));
    assert!(rt; remove(&rt, &["config", "server", "pid"]));
}

// Each server answers once both have a call in hand.
const BOTH: &str = "greet $1; take; echo x >has$1; n=0\n\
                    while test $n -lt 1000; do\n\
                    if test -e hasA && test -e hasB; then give 1; next; cat >/dev/null; exit; fi\n\
                    sleep 0.01; n=$((n + 1))\n\
                    done";

fn serves_both_at_once<R: Runtime>(threads: &R, rt: &HostRuntime) -> bool {
    let script = "client a\ncall ECHO none\nclient b\ncall ECHO none\n";
    let want = Want {
        wrote: &[b"a 1 OK 0 none\nb 1 OK 0 none\n"],
        count: 2,
        refused: 0,
        ended: None,
    };
    fs::write(rt, "config", PAIR).is_ok()
        && write_server(rt, BOTH)
        && serves(threads, rt, ["run", "config"], script, &OpenGate, want)
}

#[test]
fn two_calls_are_in_hand_at_once(rt: HostRuntime) {
    assert!(rt; serves_both_at_once(&rt, &rt));
    assert!(rt; remove(&rt, &["config", "server", "hasA", "hasB"]));
}

// Three queues with a server each: the program of the first isn't there, that of the second is a file that can't be
// executed, the configuration itself.
const THREE: &str = "[[queue]]\nname = \"P\"\n[[queue]]\nname = \"Q\"\n[[queue]]\nname = \"R\"\n\
                     [[server]]\nname = \"A\"\nqueue = \"P\"\nprogram = \"./no-such-program\"\n\
                     [[server]]\nname = \"B\"\nqueue = \"Q\"\nprogram = \"./config\"\n\
                     [[server]]\nname = \"S\"\nqueue = \"R\"\nprogram = \"/bin/sh\"\n\
                     [[service]]\nname = \"ONE\"\nqueues = [\"P\"]\n\
                     [[service]]\nname = \"TWO\"\nqueues = [\"Q\"]\n\
                     [[service]]\nname = \"ECHO\"\nqueues = [\"R\"]\n";

fn serves_one_of_three<R: Runtime>(threads: &R, rt: &HostRuntime) -> bool {
    let script = "client a\ncall ONE none\ncall TWO none\ncall ECHO none\n";
    let want = Want {
        wrote: &[b"a 1 TPENOENT\na 2 TPENOENT\na 3 OK 0 none\n"],
        count: 1,
        refused: 2,
        ended: None,
    };
    fs::write(rt, "config", THREE).is_ok()
        && write_server(rt, "greet $1; take; give 1; next; cat >/dev/null")
        && serves(threads, rt, ["run", "config"], script, &OpenGate, want)
}

#[test]
fn a_server_that_cannot_be_started_takes_its_queue_alone(rt: HostRuntime) {
    assert!(rt; serves_one_of_three(&rt, &rt));
    assert!(rt; remove(&rt, &["config", "server"]));
}
