// The command `audit`: what the record in a file comes to.
ghost use Rattle.std.specs.Prelude.{Some};
ghost use Rattle.xa_program.specs.declared.words.Command.TheVariants.{Audit};
ghost use Rattle.xa_program.specs.Configuration.{shelf_by, KeepsShelf};
ghost use Rattle.xa_program.specs.Audit.{AuditEnds, IsToldAs};

use crate::status::{Input, Status};
use std::alloc::Global;
use xa_audit::{AuditRefused, Verdict, audit, verdict_line};
use xa_link::{Shelf, ShelfRefused, Sink, put};

/// How many octets a record may have.
const LONGEST_RECORD: u32 = 67_108_864;

// Writes what a record comes to. That it is no run is told though the output failed.
fn tell_verdict<O: Sink>(alloc: Global, verdict: Verdict, out: &mut O) -> Status
    ensures { IsToldAs verdict (O.shows out.old) (O.shows out.new) result }
{
    let Ok(line) = verdict_line(alloc, verdict) else {
        return Status::NoMemory;
    };
    let written = put(out, line.slice());
    match verdict {
        Verdict::Run(_) => match written {
            Ok(()) => Status::Done,
            Err(_) => Status::WriteFault,
        },
        Verdict::At(_) | Verdict::Unfinished(_) => Status::NotARun,
    }
}

/// Judges the record that the file of that name holds, and writes what its events come to.
pub fn audit_file<S: Shelf, O: Sink>(
    alloc: Global,
    name: &[u8],
    shelf: &mut S,
    out: &mut O,
) -> Status
    ensures ends { AuditEnds (shelf_by S.shows shelf.old shelf.new) name.now (O.shows out.old) (O.shows out.new) result }
    ensures shelf { KeepsShelf (Some (Audit name.now)) result (S.shows shelf.old) (S.shows shelf.new) }
{
    let octets = match shelf.read(name, LONGEST_RECORD) {
        Ok(octets) => octets,
        Err(ShelfRefused::Failed) => return Status::ConfigRead,
        Err(ShelfRefused::TooLong) => return Status::TooLong(Input::Record),
        Err(ShelfRefused::NoMemory) => return Status::NoMemory,
    };
    match audit(alloc, octets.slice()) {
        Ok(verdict) => tell_verdict(alloc, verdict, out),
        Err(AuditRefused::Config { number, key }) => Status::ConfigFault { number, key },
        Err(AuditRefused::BadRecord(line)) => Status::BadRecord(line),
        Err(AuditRefused::NoMemory) => Status::NoMemory,
    }
}
