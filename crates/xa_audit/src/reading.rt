// The lines of a record, read.
ghost use Rattle.std.specs.Prelude.{◌≡◌, ◌++◌, ◌≤◌, ◌↔◌, ⊤, true, length, codes, decimal, MatchOption, IfOk, IfErr, IsTrue};
ghost use Rattle.std.specs.List.{position};
ghost use Rattle.std.specs.Str.{bytes_eq};
ghost use Rattle.xa_lines.specs.Reading.{number_of};
ghost use Rattle.xa_audit.specs.Record.{counted, config_text, is_feed};
ghost use Rattle.xa_audit.specs.Reading.{IsCut, NoLine, IsNotCounted, NoConfig, HasClients, NoClients, HasName, NoName, HasNames, StopsAtName, HasHistory, StopsAtEvent, AreLines, StopsAtLine, Tells};

use itoa::Buffer;
use std::alloc::{AllocError, AllocFailed, Global};
use xa_events::Event;
use xa_lines::{EventRefused, read_event};
use xa_types::Name;

/// Why octets are no record.
#[derive(Clone, Copy)]
pub enum RecordRefused {
    /// The least line, from 1, that fits no place; the configuration counts as one line.
    BadRecord(u64),
    NoMemory,
}

impl From<AllocError> for RecordRefused {
    ghost use Rattle.std.specs.Prelude.{◌≡◌};
    ghost use Rattle.xa_audit.specs.declared.reading.RecordRefused.TheVariants as refusals;

    ghost from_gives = { λ _ e. e ≡ refusals.NoMemory };

    fn from(_: AllocError) -> Self {
        RecordRefused::NoMemory
    }
}

impl<T: Drop> From<AllocFailed<T>> for RecordRefused {
    ghost use Rattle.std.specs.Prelude.{◌≡◌};
    ghost use Rattle.xa_audit.specs.declared.reading.RecordRefused.TheVariants as refusals;

    ghost from_gives = { λ _ e. e ≡ refusals.NoMemory };

    fn from(_: AllocFailed<T>) -> Self {
        RecordRefused::NoMemory
    }
}

fn place_of_feed(octets: &[u8]) -> Option<usize>
    ensures { result ≡ position is_feed octets.now }
{
    octets.iter().position(|octet| *octet == b'\n')
}

// The first line, without the octet that ends it, and what follows.
fn cut_line(octets: &[u8]) -> Option<(&[u8], &[u8])>
    ensures { MatchOption result (NoLine octets.now) (λ x. IsCut octets.now x.0.now x.1.now) }
{
    let place = place_of_feed(octets)?;
    let (text, _) = octets.split_at(place);
    let (_, rest) = octets.split_at(place + 1);
    Some((text, rest))
}

fn is_decimal(digits: &[u8], number: usize) -> bool
    ensures { result ≡ bytes_eq (decimal number) digits.now }
{
    let mut written = Buffer::new();
    written.format(number).as_bytes() == digits
}

fn number_of(digits: &[u8]) -> Option<usize>
    ensures { result ≡ number_of 18446744073709551615 digits.now }
{
    let Ok(text) = str::from_utf8(digits) else {
        return None;
    };
    let Ok(number) = text.parse::<usize>() else {
        return None;
    };
    if !is_decimal(digits, number) {
        return None;
    }
    Some(number)
}

// The number that stands behind the word.
fn counted_of(text: &[u8], word: &[u8]) -> Option<usize>
    ensures { MatchOption result (IsNotCounted text.now word.now) (λ number. text.now ≡ counted word.now number) }
{
    let behind = text.strip_prefix(word)?;
    let digits = behind.strip_prefix(b" ".as_slice())?;
    let number = number_of(digits)?;
    Some(number)
}

// The configuration that stands in front, and what follows it.
pub(crate) fn config_of(octets: &[u8]) -> Option<(&[u8], &[u8])>
    ensures { MatchOption result (NoConfig octets.now) (λ x. octets.now ≡ config_text x.0.now ++ x.1.now) }
{
    let (text, rest) = cut_line(octets)?;
    let size = counted_of(text, b"config")?;
    if size >= rest.len() || rest[size] != b'\n' {
        return None;
    }
    let (config, _) = rest.split_at(size);
    let (_, rest) = rest.split_at(size + 1);
    Some((config, rest))
}

// How many clients there are, at most 64.
fn clients_of(octets: &[u8]) -> Option<(usize, &[u8])>
    ensures { MatchOption result (NoClients octets.now) (λ x. HasClients octets.now x.0 x.1.now) }
{
    let (text, rest) = cut_line(octets)?;
    let many = counted_of(text, b"clients")?;
    if many > 64 {
        return None;
    }
    Some((many, rest))
}

fn name_of(octets: &[u8]) -> Option<(Name, &[u8])>
    ensures { MatchOption result (NoName octets.now) (λ x. HasName octets.now x.0 x.1.now) }
{
    let (text, rest) = cut_line(octets)?;
    let Ok(name) = Name::read(text) else {
        return None;
    };
    Some((name, rest))
}

// So many names, a line each.
#[tactic(auto, using(crate::proofs::Lines::names_more))]
fn names_of(alloc: Global, many: usize, octets: &[u8]) -> Result<(Vec<Name>, &[u8]), RecordRefused>
    requires { many ≤ 64 }
    ensures names { IfOk result (λ x. HasNames octets.now x.0.items x.1.now) }
    ensures many { IfOk result (λ x. length x.0.items ≡ many) }
    ensures refused { IfErr result (Tells (StopsAtName many octets.now)) }
{
    let mut names = Vec::new(alloc);
    let mut rest = octets;
    for i in 0..many {
        let Some((name, behind)) = name_of(rest) else {
            return Err(RecordRefused::BadRecord(i as u64 + 3));
        };
        names.push(name)?;
        rest = behind;
    }
    Ok((names, rest))
}

fn is_end(text: &[u8], many: usize) -> bool
    ensures { IsTrue result ↔ (text.now ≡ counted (codes "end") many) }
{
    match counted_of(text, b"end") {
        Some(number) => number == many,
        None => false,
    }
}

// The events, a line each, up to the line that says how many they are; the first of their lines has that number.
#[tactic(auto, using(crate::proofs::Lines::events_more))]
fn events_of(alloc: Global, first: u64, octets: &[u8]) -> Result<(Vec<Event>, &[u8]), RecordRefused>
    requires { first ≤ 67 }
    ensures history { IfOk result (λ x. HasHistory octets.now x.0.items x.1.now) }
    ensures refused { IfErr result (Tells (StopsAtEvent first octets.now)) }
{
    let mut history = Vec::new(alloc);
    let mut rest = octets;
    for i in 0..octets.len() {
        let Some((text, behind)) = cut_line(rest) else {
            return Err(RecordRefused::BadRecord(first + i as u64));
        };
        if is_end(text, history.len()) {
            return Ok((history, behind));
        }
        match read_event(alloc, text) {
            Ok(event) => history.push(event)?,
            Err(EventRefused::NoEvent) => {
                return Err(RecordRefused::BadRecord(first + i as u64));
            }
            Err(EventRefused::NoMemory) => return Err(RecordRefused::NoMemory),
        }
        rest = behind;
    }
    Err(RecordRefused::BadRecord(first + octets.len() as u64))
}

// The names and the events that the lines behind the configuration say.
pub(crate) fn lines_of(
    alloc: Global,
    octets: &[u8],
) -> Result<(Vec<Name>, Vec<Event>), RecordRefused>
    ensures lines { IfOk result (λ x. AreLines octets.now x.0.items x.1.items) }
    ensures refused { IfErr result (Tells (StopsAtLine octets.now)) }
{
    let Some((many, rest)) = clients_of(octets) else {
        return Err(RecordRefused::BadRecord(2));
    };
    let (names, rest) = names_of(alloc, many, rest)?;
    let (history, rest) = events_of(alloc, many as u64 + 3, rest)?;
    if !rest.is_empty() {
        return Err(RecordRefused::BadRecord(many as u64 + 4 + history.len() as u64));
    }
    Ok((names, history))
}
