// How a call is checked, and what becomes of a request that a queue did not take.
ghost use Rattle.std.specs.Prelude.{◌≡◌, ◌+◌, ◌≤◌, ◌<◌, true, false, IfOk, IfErr, OnOk, MatchOption};
ghost use Rattle.xa_types.specs.declared.setup.Setup.{Setup};
ghost use Rattle.xa_types.specs.Kind.{is_sound};
ghost use Rattle.xa_events.specs.Calls.{is_invalid_call};
ghost use Rattle.xa_cell.specs.Known.{known, IsSeatOf, IsTicketOf, SameSeat};
ghost use Rattle.xa_cell.specs.Changes.{withdrawn};
ghost use Rattle.xa_cell.specs.declared.cells.Cells.{Cells as CellsOf};
ghost use Rattle.xa_held.specs.Kept.{IsRight};
ghost use Rattle.xa_caller.specs.declared.cargo.Filling.{Filling};
ghost use Rattle.xa_caller.specs.declared.phase.Phase.TheVariants as phases;
ghost use Rattle.xa_caller.specs.declared.phase.Draft.{Draft as Drafted};
ghost use Rattle.xa_caller.specs.Caller.{MayCall, AreRowsOf};
ghost use Rattle.xa_caller.specs.Phases.{IsPreparedAt, IsOfVersion};
ghost use Rattle.xa_caller.specs.Unsent.{ChecksAs, AimsAs, MayBe, UnsentAs, step, aimed_at, entry_in};
ghost use Rattle.xa_caller.specs.Changes.{stop};

use crate::caller::{Caller, accepted_by, draft_in, set, take_out};
use crate::cargo::{Cargo, Filling};
use crate::choosing::row_at;
use crate::outcomes::{Aimed, Note, Step, Stop, Why};
use crate::phase::{Draft, Open, Phase};
use std::alloc::Global;
use std::snapshot::Snapshot;
use xa_buffer::Shapes;
use xa_cell::Cells;
use xa_events::{Event, Evidence};
use xa_held::Invocation;
use xa_queue::Entry;
use xa_route::priority;
use xa_types::{Ask, Fault, Found, Name, Row, Stamp};
use xa_worker::Halt;

// A request whose cell was given back: the number of its call, and the version of the board by which it was made.
#[derive(Drop)]
struct GivenBack {
    op: u32,
    version: u64,
}

pub(crate) fn stop(refused: Result<Stamp, Halt>) -> Stop
    ensures { result ≡ stop refused }
{
    match refused {
        Ok(stamp) => Stop::Refused(stamp),
        Err(halt) => Stop::Halt(halt),
    }
}

pub(crate) fn step(refused: Result<Stamp, Halt>) -> Step
    ensures { result ≡ step refused }
{
    match refused {
        Ok(stamp) => Step::Told(stamp),
        Err(halt) => Step::Halt(halt),
    }
}

// The service of a tpcall that TPEINVAL doesn't refuse.
fn service_of(shapes: &Shapes, ask: &Ask) -> Option<Name>
    ensures { (setup : Setup) → setup.shapes ≡ shapes.now → MatchOption result (is_invalid_call setup ask.now ≡ true) (λ name. (is_invalid_call setup ask.now ≡ false) × (name ≡ ask.now.service)) }
{
    let name = Name::read(ask.service.slice()).ok()?;
    if !shapes.sound(&ask.payload) || ask.flags.no_reply {
        return None;
    }
    Some(name)
}

impl Caller {
    /// The service of its next call, a tpcall, unless TPEINVAL refuses that: the service's name is none, the data isn't
    /// sound, or the call has TPNOREPLY. Where it isn't refused nothing changes.
    pub fn check(&mut self, shapes: &Shapes, op: u32, ask: &Ask) -> Result<Name, Stop>
        requires shapes { shapes.now ≡ self.old.work.setup.shapes }
        requires active { MayCall self.old }
        requires idle { self.old.phase ≡ phases.Idle }
        requires turn { op ≡ self.old.op + 1 }
        ensures ok { IfOk result (λ name. (is_invalid_call self.old.work.setup ask.now ≡ false) × (name ≡ ask.now.service)) }
        ensures kept { OnOk result (self.new ≡ self.old) }
        ensures refused { IfErr result (λ stop. (is_invalid_call self.old.work.setup ask.now ≡ true) × ChecksAs op stop self.new self.old) }
    {
        match service_of(shapes, ask) {
            Some(name) => Ok(name),
            None => Err(stop(self.refuse(op, Fault::Inval, Evidence::Argument))),
        }
    }

    /// Aims a request that a queue refused at the queue of the row at that attempt, counted from 0, of those that were found
    /// when it was prepared.
    pub fn aim(&mut self, alloc: Global, entry: Entry<Cargo>, found: &Found, attempt: u32) -> Aimed
        requires prepared { IsOfVersion found.now.version self.old.phase }
        requires sound { is_sound self.old.work.setup entry.cargo.invocation.payload ≡ true }
        requires rows { AreRowsOf self.old.work.setup entry.cargo.invocation.service found.now.rows }
        ensures aims { AimsAs entry found.now.rows attempt result self.new self.old }
        ensures right { (cells : CellsOf Filling) → IsRight cells entry → IsRight cells (entry_in result) }
    {
        let Some(row) = row_at(found, attempt) else {
            return Aimed::Past(entry);
        };
        let Ok(payload) = entry.cargo.invocation.payload.copy(alloc) else {
            return Aimed::NoMemory(entry);
        };
        let Draft {
            asked,
            op,
            version,
            event: _,
        } = draft_in(take_out(&mut self.phase));
        let event = Event::Accept(accepted_by(
            op,
            asked.request,
            version,
            &row,
            self.priority,
            payload,
        ));
        let event_noted = Snapshot::of(&event);
        set(
            &mut self.phase,
            Phase::Prepared(Draft {
                asked,
                op,
                version,
                event: event_noted,
            }),
        );
        Aimed::At(aimed_at(entry, &row, self.priority), event)
    }

    // The cell of the request that was prepared is given back, and its data dropped.
    fn give_back(&mut self, cells: &Cells<Filling>, note: Note, entry: Entry<Cargo>) -> GivenBack
        requires cells { IsSeatOf cells.now self.old.seat × IsTicketOf cells.now entry.cargo.ticket }
        requires prepared { IsPreparedAt entry.cargo.ticket.cell self.old.phase }
        ensures cells { SameSeat cells.now self.old.seat self.new.seat }
        ensures seat { known self.new.seat ≡ withdrawn entry.cargo.ticket.cell (known self.old.seat) }
        ensures made { self.new ≡ record self.old { seat = self.new.seat; phase = phases.Idle } }
        ensures draft { (draft : Drafted) × (self.old.phase ≡ phases.Prepared draft) × (result ≡ record { op = draft.op; version = draft.version }) }
        ensures turn { result.op ≡ self.old.op + 1 }
        ensures recent { self.old.least ≤ result.version }
    {
        let Note { op: _ } = note;
        let Draft {
            asked,
            op,
            version,
            event: _,
        } = draft_in(take_out(&mut self.phase));
        let Open { request: _, place } = asked;
        let Entry {
            request: _,
            priority: _,
            cargo,
        } = entry;
        let Cargo { ticket, invocation } = cargo;
        drop(invocation);
        cells.withdraw(&mut self.seat, place, ticket);
        GivenBack { op, version }
    }

    /// No queue took the request that was prepared. Its cell is given back. It is refused by TPESYSTEM where each queue is
    /// down or closed, by TPEBLOCK where one was full and the call doesn't wait; else it has to wait, or the Halt is handed
    /// on.
    pub fn unsent(
        &mut self,
        cells: &Cells<Filling>,
        note: Note,
        entry: Entry<Cargo>,
        why: Why,
        no_block: bool,
    ) -> Step
        requires cells { IsSeatOf cells.now self.old.seat × IsTicketOf cells.now entry.cargo.ticket }
        requires active { MayCall self.old }
        requires prepared { IsPreparedAt entry.cargo.ticket.cell self.old.phase }
        requires why { MayBe self.old.work.setup why }
        ensures cells { SameSeat cells.now self.old.seat self.new.seat }
        ensures unsent { UnsentAs entry.cargo.ticket.cell why no_block result self.new self.old }
    {
        let GivenBack { op, version } = self.give_back(cells, note, entry);
        let _itself = self.id();
        match (why, no_block) {
            (Why::AllShut, _) => step(self.refuse(op, Fault::System, Evidence::AllDown(version))),
            (Why::Full(queue, waiting), true) => step(self.refuse(
                op,
                Fault::Block,
                Evidence::Queue(queue, waiting),
            )),
            (Why::Full(_, _), false) => Step::Wait,
            (Why::Halt(halt), _) => Step::Halt(halt),
        }
    }
}

// The entry with another row, and the priority that was asked for.
fn aimed_at(entry: Entry<Cargo>, row: &Row, asked: Option<(bool, i32)>) -> Entry<Cargo>
    ensures { result ≡ aimed_at entry row.now asked }
{
    let Entry {
        request,
        priority: _,
        cargo,
    } = entry;
    let Cargo { ticket, invocation } = cargo;
    let Invocation {
        service: _,
        routine: _,
        hop: _,
        payload,
    } = invocation;
    Entry {
        request,
        priority: priority(row.priority, asked),
        cargo: Cargo {
            ticket,
            invocation: Invocation {
                service: row.service,
                routine: row.routine,
                hop: 0,
                payload,
            },
        },
    }
}
