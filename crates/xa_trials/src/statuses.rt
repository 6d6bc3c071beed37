//! What the program says as it ends, and which words it was given.
use crate::rows::none_fails;
use std::alloc::Global;
use std::fmt::Display;
use std::io;
use xa_program::events::{Event, StopCause, Stopped};
use xa_program::link::{Link, MemoryArguments, MemoryLink};
use xa_program::types::{Generation, Name, Octets, ServerId, Stamp};
use xa_program::{EndedLife, Input, Status, all_words, report, report_lives, words_behind};

const LINES: [(Status, u8, &str); 14] = [
    (Status::Done, 0, ""),
    (
        Status::Usage,
        1,
        "usage: xatmi run CONFIG, record CONFIG, audit FILE, drill N, play SERVICE, server NAME",
    ),
    (
        Status::BadLine { line: 7, cause: 9 },
        3,
        "script line 7 cause 9",
    ),
    (Status::ConfigRead, 4, "cannot read configuration"),
    (Status::ScriptRead, 4, "cannot read input"),
    (Status::WriteFault, 5, "cannot write"),
    (Status::NoMemory, 6, "no memory"),
    (
        Status::TooLong(Input::Configuration),
        7,
        "too long: configuration",
    ),
    (Status::TooLong(Input::Script), 7, "too long: script"),
    (Status::TooLong(Input::Record), 7, "too long: record"),
    (Status::Worn(Stamp(9)), 9, "stamp at its end"),
    (Status::BadFrame(24), 10, "bad frame at 24"),
    (Status::BadRecord(13), 11, "record line 13"),
    (Status::NotARun, 12, "not a run"),
];

// The number of a configuration's fault, its key and its line.
static FAULTS: [(u8, &str, &str); 4] = [
    (1, "", "config 1"),
    (2, "", "config 2 "),
    (2, "~\n\u{7f} é\\", "config 2 ~\\x0a\\x7f \\xc3\\xa9\\"),
    (8, "server[0].queue", "config 8 server[0].queue"),
];

// A standard error that takes this line alone.
#[derive(Drop)]
struct Taking<'a> {
    alloc: Global,
    line: &'a str,
}

impl Eprint for Taking<'_> {
    fn eprint<D: Display + Drop>(&self, value: D) -> io::Result<()> {
        self.eprintln(value)
    }

    fn eprintln<D: Display + Drop>(&self, value: D) -> io::Result<()> {
        let said = format!(in self.alloc; "{value}")?;
        if said.as_str() == self.line {
            Ok(())
        } else {
            Err(io::Error::from(io::ErrorKind::Other))
        }
    }
}

fn is_told(alloc: Global, status: &Status, number: u8, line: &str) -> bool {
    let taking = Taking { alloc, line };
    report(&taking, status).is_ok() && status.number() == number
}

fn first_not_said(alloc: Global) -> Option<usize> {
    for (place, (status, number, line)) in LINES.iter().enumerate() {
        if !is_told(alloc, status, *number, line) {
            return Some(place);
        }
    }
    None
}

fn is_fault_told(alloc: Global, (number, key, line): (u8, &str, &str)) -> bool {
    match Octets::of(alloc, key.as_bytes()) {
        Ok(key) => is_told(alloc, &Status::ConfigFault { number, key }, 2, line),
        Err(_) => false,
    }
}

fn first_fault_not_said(alloc: Global) -> Option<usize> {
    for (place, fault) in FAULTS.iter().enumerate() {
        if !is_fault_told(alloc, *fault) {
            return Some(place);
        }
    }
    None
}

#[test]
fn each_status_has_its_line(rt: HostRuntime) {
    none_fails(&rt, first_not_said(rt.alloc()));
    none_fails(&rt, first_fault_not_said(rt.alloc()));
}

// Why a life of the second server ended, and its line, if any.
static CAUSES: [(StopCause, &str); 8] = [
    (StopCause::Shutdown, ""),
    (StopCause::Exit, ""),
    (
        StopCause::EndOfInput,
        "server B: life 3: ended by EndOfInput",
    ),
    (StopCause::ReadFault, "server B: life 3: ended by ReadFault"),
    (
        StopCause::WriteFault,
        "server B: life 3: ended by WriteFault",
    ),
    (
        StopCause::BadBytes(27),
        "server B: life 3: ended by BadBytes at 27",
    ),
    (
        StopCause::OutOfTurn(2, 0),
        "server B: life 3: ended by OutOfTurn kind 2 tag 0",
    ),
    (StopCause::Starved, "server B: life 3: ended by Starved"),
];

/// Whether of the lives of these servers that line is said, and no other; of the empty one, whether nothing is.
pub fn are_lives_told<L: Link>(
    alloc: Global,
    names: &[Name],
    history: &[Event],
    lives: &[Vec<EndedLife<L>>],
    line: &str,
) -> bool {
    let says = report_lives(&Taking { alloc, line }, names, history, lives).is_ok();
    let silent = report_lives(&Taking { alloc, line: "" }, names, history, lives).is_ok();
    says && silent == line.is_empty()
}

fn is_end_told(alloc: Global, cause: StopCause, line: &str) -> bool {
    let (Ok(first), Ok(second)) = (Name::read(b"A"), Name::read(b"B")) else {
        return false;
    };
    let stopped = Stopped {
        server: ServerId(2),
        generation: Generation(3),
        cause,
    };
    let none: Vec<Vec<EndedLife<MemoryLink>>> = Vec::new(alloc);
    are_lives_told(
        alloc,
        &[first, second],
        &[Event::Stop(stopped)],
        none.as_slice(),
        line,
    )
}

fn first_end_not_said(alloc: Global) -> Option<usize> {
    for (place, (cause, line)) in CAUSES.iter().enumerate() {
        if !is_end_told(alloc, *cause, line) {
            return Some(place);
        }
    }
    None
}

#[test]
fn each_life_that_failed_has_its_line(rt: HostRuntime) {
    none_fails(&rt, first_end_not_said(rt.alloc()));
}

// What a command line gives: its words, and what they are behind the first, or the number of the status.
type Line = (
    &'static [&'static [u8]],
    Result<&'static [&'static str], u8>,
);

static COMMAND_LINES: [Line; 3] = [
    (&[], Ok(&[])),
    (&[b"\xff", b"play", b"ECHO"], Ok(&["play", "ECHO"])),
    (&[b"xatmi", b"play", b"\xff"], Err(1)),
];

fn arguments_of(alloc: Global, words: &[&[u8]]) -> Option<MemoryArguments> {
    let mut all = Vec::new(alloc);
    for word in words {
        all.push(Octets::of(alloc, word).ok()?).ok()?;
    }
    Some(MemoryArguments::new(alloc, all))
}

fn all_of(alloc: Global, words: &[&[u8]]) -> Option<Vec<Octets>> {
    all_words(alloc, &arguments_of(alloc, words)?).ok()
}

fn are(words: &[String], want: &[&str]) -> bool {
    for (word, want) in words.iter().zip(want) {
        if word.as_str() != *want {
            return false;
        }
    }
    words.len() == want.len()
}

fn splits(alloc: Global, all: &[Octets], want: Result<&[&str], u8>) -> bool {
    match (words_behind(alloc, all), want) {
        (Ok(words), Ok(want)) => are(&words, want),
        (Err(status), Err(number)) => status.number() == number,
        _ => false,
    }
}

fn gives_words(alloc: Global, (words, want): &Line) -> bool {
    match all_of(alloc, words) {
        Some(all) => splits(alloc, &all, *want),
        None => false,
    }
}

fn first_not_given(alloc: Global) -> Option<usize> {
    for (place, line) in COMMAND_LINES.iter().enumerate() {
        if !gives_words(alloc, line) {
            return Some(place);
        }
    }
    None
}

#[test]
fn words_that_are_no_text_are_no_command(rt: HostRuntime) {
    none_fails(&rt, first_not_given(rt.alloc()));
}
