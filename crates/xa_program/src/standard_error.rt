// What is said on standard error of how a command ended.
use crate::status::{Input, Status};
use std::io;
use xa_link::Escaped;
use xa_types::Octets;

// The line of a status that is the same whenever it comes.
fn line_of(status: &Status) -> Option<&'static str> {
    match status {
        Status::Usage => Some(
            "usage: xatmi run CONFIG, record CONFIG, audit FILE, drill N, play SERVICE, server NAME",
        ),
        Status::ConfigRead => Some("cannot read configuration"),
        Status::ScriptRead => Some("cannot read input"),
        Status::WriteFault => Some("cannot write"),
        Status::NoMemory => Some("no memory"),
        Status::TooLong(Input::Configuration) => Some("too long: configuration"),
        Status::TooLong(Input::Script) => Some("too long: script"),
        Status::TooLong(Input::Record) => Some("too long: record"),
        Status::Worn(_) => Some("stamp at its end"),
        Status::NotARun => Some("not a run"),
        Status::Done
        | Status::ConfigFault { .. }
        | Status::BadLine { .. }
        | Status::BadFrame(_)
        | Status::BadRecord(_) => None,
    }
}

// Says the fault of a configuration and its key; that it is no document has none.
fn report_fault<R: Eprint>(rt: &R, number: u8, key: &Octets) -> io::Result<()> {
    if number == 1 {
        return eprintln!(rt; "config {number}");
    }
    let key = Escaped(key.slice());
    eprintln!(rt; "config {number} {key}")
}

/// Says on standard error how a command ended, but nothing of one that is done.
pub fn report<R: Eprint>(rt: &R, status: &Status) -> io::Result<()> {
    match status {
        Status::ConfigFault { number, key } => report_fault(rt, *number, key),
        Status::BadLine { line, cause } => eprintln!(rt; "script line {line} cause {cause}"),
        Status::BadFrame(place) => eprintln!(rt; "bad frame at {place}"),
        Status::BadRecord(line) => eprintln!(rt; "record line {line}"),
        _ => match line_of(status) {
            Some(line) => eprintln!(rt; "{line}"),
            None => Ok(()),
        },
    }
}
