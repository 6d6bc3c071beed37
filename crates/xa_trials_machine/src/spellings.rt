//! Lines that are spelled otherwise than they were written: no event has that line, and a record with it is none, as is one
//! that lacks a line or has it twice.
use crate::domains::ECHO;
use crate::histories::{CALLS, CHANGES, FORWARDS, History, LIVES, TALKS};
use crate::replays::{events_of, none_fails, written};
use crate::steps::Text;
use std::alloc::Global;
use xa_audit::{AuditRefused, audit};
use xa_events::Event;
use xa_lines::{EventRefused, put_event, read_event};

/// What becomes of a word of a line.
#[derive(Clone, Copy)]
enum Change {
    LeftOut,
    Twice,
    /// This stands before it, and that behind it.
    Between(Text, Text),
    /// The same, where it begins with a digit.
    NumberBetween(Text, Text),
}

static WAYS: [Change; 8] = [
    Change::LeftOut,
    Change::Twice,
    Change::Between(b" ", b""),
    Change::Between(b"", b" "),
    Change::Between(b"", b"\r"),
    Change::NumberBetween(b"0", b""),
    Change::NumberBetween(b"+", b""),
    // out of range, and an odd number of digits more
    Change::NumberBetween(b"", b"184467440737095516160"),
];

fn put_between(out: &mut Vec<u8>, word: &[u8], before: &[u8], behind: &[u8]) -> Option<()> {
    out.extend_from_slice(before).ok()?;
    out.extend_from_slice(word).ok()?;
    out.extend_from_slice(behind).ok()
}

// Puts the word, so changed, and a space in front of it unless it is the first.
fn put_word(out: &mut Vec<u8>, word: &[u8], is_first: bool, change: Change) -> Option<()> {
    let space: &[u8] = if is_first { b"" } else { b" " };
    match change {
        Change::LeftOut => Some(()),
        Change::Twice => {
            put_between(out, word, space, b" ")?;
            out.extend_from_slice(word).ok()
        }
        Change::Between(before, behind) | Change::NumberBetween(before, behind) => {
            out.extend_from_slice(space).ok()?;
            put_between(out, word, before, behind)
        }
    }
}

fn is_feed(octet: &u8) -> bool {
    *octet == b'\n'
}

fn is_space(octet: &u8) -> bool {
    *octet == b' '
}

// The line, of which the word at that place is changed so.
fn changed(alloc: Global, line: &[u8], place: usize, change: Change) -> Option<Vec<u8>> {
    let mut out = Vec::new(alloc);
    let mut is_first = true;
    for (at, word) in line.split(is_space).enumerate() {
        let change = if at == place {
            change
        } else {
            Change::Between(b"", b"")
        };
        put_word(&mut out, word, is_first, change)?;
        is_first &= matches!(change, Change::LeftOut);
    }
    Some(out)
}

fn applies(change: Change, word: &[u8]) -> bool {
    match change {
        Change::NumberBetween(..) => word.first().is_some_and(u8::is_ascii_digit),
        Change::LeftOut | Change::Twice | Change::Between(..) => true,
    }
}

// ---- the lines of events

fn is_no_event(alloc: Global, line: &[u8], place: usize, change: Change) -> bool {
    match changed(alloc, line, place, change) {
        Some(text) => matches!(read_event(alloc, &text), Err(EventRefused::NoEvent)),
        None => false,
    }
}

fn is_no_event_at(alloc: Global, line: &[u8], place: usize, word: &[u8]) -> bool {
    for change in &WAYS {
        if applies(*change, word) && !is_no_event(alloc, line, place, *change) {
            return false;
        }
    }
    true
}

// Whether no event has the line of this one with any change.
fn has_one_spelling(alloc: Global, event: &Event) -> bool {
    let mut line = Vec::new(alloc);
    if put_event(&mut line, event).is_err() {
        return false;
    }
    for (place, word) in line.split(is_space).enumerate() {
        if !is_no_event_at(alloc, &line, place, word) {
            return false;
        }
    }
    true
}

fn have_one_spelling(alloc: Global, (_, _, parts, _): History) -> bool {
    match events_of(alloc, parts) {
        Some(events) => events.iter().all(|event| has_one_spelling(alloc, event)),
        None => false,
    }
}

fn first_with_another(alloc: Global, histories: &[History]) -> Option<usize> {
    for (place, history) in histories.iter().enumerate() {
        if !have_one_spelling(alloc, *history) {
            return Some(place);
        }
    }
    None
}

#[test]
fn each_event_has_one_line(rt: HostRuntime) {
    for histories in [&CALLS[..], &FORWARDS, &LIVES, &TALKS, &CHANGES] {
        none_fails(&rt, first_with_another(rt.alloc(), histories));
    }
}

// ---- the lines of a record

fn put_lines(out: &mut Vec<u8>, lines: &[&[u8]]) -> Option<()> {
    for line in lines {
        put_between(out, line, b"", b"\n")?;
    }
    Some(())
}

// The octets, in which these lines stand in place of that one.
fn with_lines(alloc: Global, octets: &[u8], place: usize, lines: &[&[u8]]) -> Option<Vec<u8>> {
    let mut out = Vec::new(alloc);
    for (at, line) in octets.split(is_feed).enumerate() {
        if at == place {
            put_lines(&mut out, lines)?;
        } else {
            put_lines(&mut out, &[line])?;
        }
    }
    // No feed stands behind the piece that is left behind the last one.
    out.pop()?;
    Some(out)
}

/// A line of a record: the record, the line's place in it, its octets, and its number where the configuration is one line.
#[derive(Clone, Copy)]
struct Line<'a> {
    octets: &'a [u8],
    place: usize,
    text: &'a [u8],
    number: u64,
}

// The line with which the record isn't one any more, where these lines stand in place of that one.
fn bad_line(alloc: Global, line: Line<'_>, lines: &[&[u8]]) -> Option<u64> {
    let octets = with_lines(alloc, line.octets, line.place, lines)?;
    match audit(alloc, &octets) {
        Err(AuditRefused::BadRecord(at)) => Some(at),
        _ => None,
    }
}

fn is_bad_so(alloc: Global, line: Line<'_>, place: usize, change: Change) -> bool {
    match changed(alloc, line.text, place, change) {
        Some(text) => bad_line(alloc, line, &[&text]) == Some(line.number),
        None => false,
    }
}

fn is_bad_at_word(alloc: Global, line: Line<'_>, place: usize, word: &[u8]) -> bool {
    for change in &WAYS {
        if applies(*change, word) && !is_bad_so(alloc, line, place, *change) {
            return false;
        }
    }
    true
}

// Whether the record is none with each change of this line.
fn is_bad_by(alloc: Global, line: Line<'_>) -> bool {
    for (place, word) in line.text.split(is_space).enumerate() {
        if !is_bad_at_word(alloc, line, place, word) {
            return false;
        }
    }
    bad_line(alloc, line, &[]).is_some() && bad_line(alloc, line, &[line.text, line.text]).is_some()
}

// The number of the line at that place, behind so many lines of the configuration; none of those themselves.
fn number_of(place: usize, own: usize) -> Option<u64> {
    if place == 0 {
        return Some(1);
    }
    match place.checked_sub(own) {
        None | Some(0) => None,
        Some(behind) => (behind as u64).checked_add(1),
    }
}

fn is_bad_everywhere(alloc: Global, config: &[u8], octets: &[u8]) -> bool {
    let own = config.split(is_feed).count();
    for (place, text) in octets.split(is_feed).enumerate() {
        if let Some(number) = number_of(place, own)
            && !text.is_empty()
            && !is_bad_by(
                alloc,
                Line {
                    octets,
                    place,
                    text,
                    number,
                },
            )
        {
            return false;
        }
    }
    true
}

// Whether the record of a call that is answered is none with any of its lines changed.
fn has_one_form(alloc: Global) -> bool {
    let (_, clients, parts, _) = CALLS[0];
    let Some(events) = events_of(alloc, parts) else {
        return false;
    };
    match written(alloc, ECHO, clients, &events) {
        Some(record) => is_bad_everywhere(alloc, ECHO, record.slice()),
        None => false,
    }
}

#[test]
fn a_record_has_one_form(rt: HostRuntime) {
    none_fails(&rt, (!has_one_form(rt.alloc())).then_some(0));
}
