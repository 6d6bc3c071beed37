// The history of a run that was served, and what is written of it.
ghost use Rattle.std.specs.Prelude.{◌≡◌, ◌⊎◌, ◌≤◌, [], List, length, reverse, None, IfOk, OnOk, OnErr};
ghost use Rattle.std.specs.List.{flat_map};
ghost use Rattle.xa_domain.specs.xa_link.Told.{Grew, GrewByPart, Rose};
ghost use Rattle.xa_domain.specs.xa_events.declared.event.Event.{Event};
ghost use Rattle.xa_domain.specs.xa_stamp.Merge.{IsMerged};
ghost use Rattle.xa_text.specs.InTurn.{AllInTurn};
ghost use Rattle.xa_program.specs.Headline.{names_of};
ghost use Rattle.xa_program.specs.Progress.{IsWritten, Printed, TellingEnds};

use crate::status::Status;
use std::alloc::Global;
use xa_audit::write;
use xa_domain::Halt;
use xa_domain::script::Client;
use xa_domain::stamp::{Record, merge};
use xa_events::Event;
use xa_link::{Failed, Sink, put};
use xa_text::transcript;
use xa_types::{Name, NoMemory, Octets};

/// What is written of a run that came to its end.
#[derive(Drop)]
pub enum Form {
    /// The clients' transcript.
    Transcript,
    /// The record of the run, in front of which this configuration stands.
    Record(Octets),
}

fn names_of(alloc: Global, clients: &[Client]) -> Result<Vec<Name>, NoMemory>
    ensures { IfOk result (λ names. names.items ≡ names_of clients.now) }
{
    let mut names = Vec::new(alloc);
    for client in clients {
        names.push(client.name)?;
    }
    Ok(names)
}

fn pieces_of(
    alloc: Global,
    form: &Form,
    history: &[Event],
    clients: &[Client],
) -> Result<Vec<Octets>, NoMemory>
    requires turns { AllInTurn (length clients.now) (reverse history.now) }
    requires few { length clients.now ≤ 64 }
    ensures { IfOk result (λ pieces. IsWritten form.now clients.now history.now (flat_map (λ piece. piece) pieces.items)) }
{
    let names = names_of(alloc, clients)?;
    match form {
        Form::Transcript => transcript(alloc, history, names.as_slice()),
        Form::Record(config) => {
            let octets = write(alloc, config.slice(), names.as_slice(), history)?;
            Ok(vec![in alloc; octets]?)
        }
    }
}

// Writes the pieces one after another.
fn put_all<O: Sink>(out: &mut O, pieces: &[Octets]) -> Result<(), Failed>
    ensures whole { OnOk result (Grew (O.shows out.old).took (O.shows out.new).took (flat_map (λ piece. piece) pieces.now)) }
    ensures part { OnErr result (GrewByPart (O.shows out.old).took (O.shows out.new).took (flat_map (λ piece. piece) pieces.now)) }
    ensures cause { OnErr result (Rose (O.shows out.old).faults (O.shows out.new).faults) }
    ensures quiet { OnOk result ((O.shows out.new).faults ≡ (O.shows out.old).faults) }
{
    for piece in pieces {
        put(out, piece.slice())?;
    }
    Ok(())
}

// Writes what is due of the history.
fn print<O: Sink>(
    alloc: Global,
    form: &Form,
    history: &[Event],
    clients: &[Client],
    out: &mut O,
) -> Status
    requires turns { AllInTurn (length clients.now) (reverse history.now) }
    requires few { length clients.now ≤ 64 }
    ensures { Printed (O.shows out.old).took (O.shows out.new).took (O.shows out.old).faults (O.shows out.new).faults form.now clients.now history.now result }
{
    let Ok(pieces) = pieces_of(alloc, form, history, clients) else {
        return Status::NoMemory;
    };
    match put_all(out, pieces.as_slice()) {
        Ok(()) => Status::Done,
        Err(_) => Status::WriteFault,
    }
}

// The events of the homes in order; none where memory runs out.
fn merged_or_none(alloc: Global, homes: &Record) -> Vec<Event>
    ensures { (result.items ≡ []) ⊎ IsMerged homes.now.homes result.items }
{
    match merge(alloc, homes) {
        Ok(history) => history,
        Err(NoMemory) => Vec::new(alloc),
    }
}

// A run that came to its end: its history, and how that was written.
fn tell_whole<O: Sink>(
    alloc: Global,
    form: &Form,
    homes: &Record,
    clients: &[Client],
    out: &mut O,
) -> (Status, Vec<Event>)
    requires turns { (events : List Event) → IsMerged homes.now.homes events → AllInTurn (length clients.now) (reverse events) }
    requires few { length clients.now ≤ 64 }
    ensures { TellingEnds None homes.now.homes form.now clients.now (O.shows out.old).took (O.shows out.new).took (O.shows out.old).faults (O.shows out.new).faults result.0 result.1.items }
{
    match merge(alloc, homes) {
        Ok(history) => {
            let status = print(alloc, form, history.as_slice(), clients, out);
            (status, history)
        }
        Err(NoMemory) => (Status::NoMemory, Vec::new(alloc)),
    }
}

/// How a run ends by how serving it ended, and its history: where it came to its end, that is written.
pub fn tell<O: Sink>(
    alloc: Global,
    halt: Option<Halt>,
    form: &Form,
    homes: &Record,
    clients: &[Client],
    out: &mut O,
) -> (Status, Vec<Event>)
    requires turns { halt ≡ None → (events : List Event) → IsMerged homes.now.homes events → AllInTurn (length clients.now) (reverse events) }
    requires few { length clients.now ≤ 64 }
    ensures { TellingEnds halt homes.now.homes form.now clients.now (O.shows out.old).took (O.shows out.new).took (O.shows out.old).faults (O.shows out.new).faults result.0 result.1.items }
{
    match halt {
        None => tell_whole(alloc, form, homes, clients, out),
        Some(Halt::NoMemory) => (Status::NoMemory, merged_or_none(alloc, homes)),
        Some(Halt::Worn(stamp)) => (Status::Worn(stamp), merged_or_none(alloc, homes)),
    }
}
