// What the caller of a server notes of that server, and the cells that it fills.
ghost use Rattle.std.specs.Prelude.{◌≡◌, ◌+◌, ◌≤◌, ◌<◌, ◌^◌, length, None, IfOk, IfErr, OnErr};
ghost use Rattle.xa_cell.specs.Known.{known, IsSeatOf, IsTicketOf, SameSeat};
ghost use Rattle.xa_cell.specs.Calls.{FilledAs};
ghost use Rattle.xa_worker.specs.Crew.{IsOfDomain};
ghost use Rattle.xa_worker.specs.Work.{IsNext};
ghost use Rattle.xa_caller.specs.declared.phase.Phase.TheVariants as phases;
ghost use Rattle.xa_caller.specs.Serving.{IsOfServer, IsAtQueue, IsForwardBy, version_ended, raised, noted_own, noted_off, forwarded_off};

use crate::caller::Caller;
use crate::cargo::Filling;
use std::snapshot::Snapshot;
use xa_cell::{Cells, Filled, Ticket};
use xa_events::{Ended, Event, Outcome};
use xa_types::{Stamp, Worn};

// The version of the board that the end of a request says to have been read; 0 is none.
fn version_ended(event: &Event) -> Option<u64>
    ensures { result ≡ version_ended event.now }
{
    match event {
        Event::End(
            Ended {
                outcome: Outcome::BadForward(version),
                ..
            },
        ) if *version != 0 => Some(*version),
        _ => None,
    }
}

fn raised(version: Option<u64>, least: u64) -> u64
    ensures { result ≡ raised version least }
{
    match version {
        None => least,
        Some(version) => least.max(version),
    }
}

impl Caller {
    /// Notes a start, a failed start, a stop, or the end of a request of its server at its own home, with the next stamp, in
    /// room that was reserved. `Worn` comes exactly where its stamp is 2^63, and then nothing changes.
    pub fn note(&mut self, event: Event) -> Result<Stamp, Worn>
        requires room { length self.old.out < self.old.work.room }
        requires idle { self.old.phase ≡ phases.Idle }
        requires kind { IsOfServer event }
        requires next { IsNext self.old.work event }
        ensures stamp { IfOk result (λ stamp. (stamp.0 ≡ self.old.work.stamp.0 + 1) × (stamp.0 ≤ 2 ^ 63)) }
        ensures noted { IfOk result (λ stamp. self.new ≡ noted_own stamp event self.old) }
        ensures worn { IfErr result (λ worn. (self.old.work.stamp.0 ≡ 2 ^ 63) × (worn.0.0 ≡ 2 ^ 63)) }
        ensures kept { OnErr result (self.new ≡ self.old) }
    {
        let least = raised(version_ended(&event), self.least);
        let stamp = self.work.note(event)?;
        self.least = least;
        Ok(stamp)
    }

    /// The take of a request by its server, or that its server is given up, was noted at a queue with that stamp.
    pub fn noted(&mut self, stamp: Stamp, event: Snapshot<Event>)
        requires later { self.old.work.stamp.0 < stamp.0 }
        requires bound { stamp.0 ≤ 2 ^ 63 }
        requires kind { IsAtQueue event.value }
        requires next { IsNext self.old.work event.value }
        ensures noted { self.new ≡ noted_off stamp event.value self.old }
    {
        self.work.noted(stamp, event);
    }

    /// What it set for the priority of its next request: absolute, or to be added to the service's own.
    pub fn next_priority(&self) -> Option<(bool, i32)>
        ensures { result ≡ self.now.priority }
    {
        self.priority
    }

    /// Its server forwarded a request, by that version of the board, which was noted at a queue with that stamp. What was set
    /// for the priority of the next request is set no more.
    pub fn forwarded(&mut self, stamp: Stamp, version: u64, event: Snapshot<Event>)
        requires idle { self.old.phase ≡ phases.Idle }
        requires later { self.old.work.stamp.0 < stamp.0 }
        requires bound { stamp.0 ≤ 2 ^ 63 }
        requires kind { IsForwardBy version event.value }
        requires recent { self.old.least ≤ version }
        requires next { IsNext self.old.work event.value }
        ensures noted { self.new ≡ forwarded_off stamp version event.value self.old }
    {
        self.work.noted(stamp, event);
        self.least = version;
        self.priority = None;
    }

    /// An event of the domain was noted by its server's worker at the board or at a queue, with that stamp.
    pub fn noted_for_domain(&mut self, stamp: Stamp, event: Snapshot<Event>)
        requires later { self.old.work.stamp.0 < stamp.0 }
        requires bound { stamp.0 ≤ 2 ^ 63 }
        requires domain { IsOfDomain event.value }
        ensures noted { self.new ≡ noted_off stamp event.value self.old }
    {
        self.work.noted_for_domain(stamp, event);
    }

    /// Fills the cell of a ticket, by its own seat. What was given up before comes back.
    pub fn fill(
        &mut self,
        cells: &Cells<Filling>,
        ticket: Ticket<Filling>,
        filling: Filling,
    ) -> Filled<Filling>
        requires cells { IsSeatOf cells.now self.old.seat × IsTicketOf cells.now ticket }
        ensures cells { SameSeat cells.now self.old.seat self.new.seat }
        ensures filled { FilledAs ticket filling (known self.old.seat) (known self.new.seat) result }
        ensures made { self.new ≡ record self.old { seat = self.new.seat } }
    {
        cells.fill(&mut self.seat, ticket, filling)
    }
}
