//! The machine: the events so far, and the tables of what they come to.
ghost use Rattle.std.specs.Prelude.{◌≡◌, length, OnOk, OnErr, IfOk, IfErr, true};
ghost use Rattle.std.specs.Bool.{Decides};
ghost use Rattle.xa_types.specs.Configured.{is_configured};
ghost use Rattle.xa_events.specs.State.{opening, noted};
ghost use Rattle.xa_events.specs.Board.{published, boot, rows_of_version};
ghost use Rattle.xa_events.specs.Clock.{is_shown, now};
ghost use Rattle.xa_events.specs.Server.{is_busy, held_in, in_hand};
ghost use Rattle.xa_events.specs.Caller.{is_client, is_active, is_serving, may_give_up};
ghost use Rattle.xa_events.specs.Cases.{Case, IsNextCall, rows_now};
ghost use Rattle.xa_machine.specs.Reads.{ServerReads, QueueReads, CallerReads};
ghost use Rattle.xa_machine.specs.Whole.{IsPlaceOf};
ghost use Rattle.xa_machine.specs.Kept.{IsPlaced, IsWithin};
ghost use Rattle.xa_machine.specs.declared.machine.StepRefused.TheVariants as refusals;

use crate::caller::CallerRow;
use crate::queued::QueueRow;
use crate::served::ServerRow;
use crate::standing::next_version;
use crate::tables::{BoardChange, Place, Tables, queue_home, worker_of};
use crate::words::{either, has_tick};
use std::alloc::Global;
use std::marker::Model;
use xa_buffer::Shapes;
use xa_events::{Doing, Event};
use xa_types::{CallerId, NoMemory, RequestId, Row, Setup};

/// Why a step isn't taken. The machine is as it was then.
#[derive(Clone, Copy, Debug, PartialEq, Eq)]
pub enum StepRefused {
    /// The event may not come next.
    Refused,
    NoMemory,
}

/// The events so far, and the tables. It is seen as the state that the events come to.
#[derive(Drop)]
pub struct Machine {
    pub(crate) alloc: Global,
    pub(crate) setup: Setup,
    pub(crate) clients: u16,
    pub(crate) shapes: Shapes,
    pub(crate) events: Vec<Event>,
    pub(crate) tables: Tables,
}

impl Model for Machine {
    ghost use Rattle.xa_events.specs.State.{State};

    ghost Value = { State };

    ghost use Rattle.xa_machine.specs.Kept.{state_of, IsKept};

    ghost view = { state_of };

    ghost invariant = { IsKept };
}

pub(crate) fn is_busy(doing: Doing) -> bool
    ensures { result ≡ is_busy doing }
{
    matches!(doing, Doing::Busy(..))
}

pub(crate) fn is_client(clients: u16, caller: CallerId) -> bool
    ensures { result ≡ is_client clients caller.0 }
{
    1 <= caller.0 && caller.0 <= clients
}

fn count_changes(board: &[BoardChange]) -> u64
    ensures { result ≡ length board.now }
{
    board.len() as u64
}

fn held_in(doing: Doing) -> Option<RequestId>
    ensures { result ≡ held_in doing }
{
    match doing {
        Doing::Busy(_, request) => Some(request),
        _ => None,
    }
}

impl Machine {
    /// The machine before any event.
    pub fn new(alloc: Global, setup: &Setup, clients: u16) -> Result<Machine, NoMemory>
        requires { is_configured setup.now ≡ true }
        ensures { IfOk result (λ machine. machine ≡ opening setup.now clients) }
    {
        let tables = Tables::new(alloc, setup, clients)?;
        let shapes = Shapes::of(alloc, setup)?;
        let setup = setup.copy(alloc)?;
        Ok(Machine {
            alloc,
            setup,
            clients,
            shapes,
            events: Vec::new(alloc),
            tables,
        })
    }

    /// The row of that server.
    pub(crate) fn server(&self, server: u16) -> &ServerRow
        ensures { ServerReads server self.now.past result.now }
    {
        self.tables.server(u32::from(server))
    }

    /// The row of that queue.
    pub(crate) fn queue(&self, queue: u16) -> &QueueRow
        ensures { QueueReads self.now.setup queue self.now.past result.now }
    {
        self.tables.queue(queue)
    }

    /// The row of that caller.
    pub(crate) fn caller(&self, caller: u32) -> &CallerRow
        ensures { CallerReads self.now.setup self.now.clients caller self.now.past result.now }
    {
        self.tables.caller(caller)
    }

    /// How many changes of the board were made.
    pub(crate) fn published(&self) -> u64
        ensures { result ≡ published self.now.past }
    {
        count_changes(&self.tables.board)
    }

    /// The rows of that version of the board, and of one that isn't made yet those that stand.
    pub(crate) fn rows_at(&self, version: u64) -> &[Row]
        ensures { result.now ≡ rows_of_version self.now.setup self.now.past version }
    {
        self.tables.rows_at(version)
    }

    /// The rows that stand.
    pub(crate) fn standing(&self) -> &[Row]
        ensures { result.now ≡ rows_now self.now.setup self.now.past }
    {
        self.rows_at(self.published())
    }

    /// How many changes of the board the boot makes.
    pub(crate) fn boot(&self) -> u64
        ensures { result ≡ boot self.now.setup }
    {
        self.tables.booting.len() as u64
    }

    /// What the clock shows.
    pub(crate) fn now(&self) -> u64
        ensures { result ≡ now self.now.past }
    {
        self.tables.clock
    }

    /// Whether the clock has shown that tick.
    pub(crate) fn is_shown(&self, tick: u64) -> bool
        ensures { result ≡ is_shown tick self.now.past }
    {
        either(tick == 0, has_tick(&self.tables.ticks, tick))
    }

    /// Whether the caller's server has a request in hand.
    fn is_serving(&self, caller: CallerId) -> bool
        ensures { result ≡ is_serving self.now.clients caller.0 self.now.past }
    {
        self.clients < caller.0 && is_busy(self.server(caller.0 - self.clients).doing)
    }

    /// The request that the caller's server is busy with.
    pub(crate) fn in_hand(&self, caller: CallerId) -> Option<RequestId>
        ensures { result ≡ in_hand self.now.clients caller.0 self.now.past }
    {
        if self.clients < caller.0 {
            held_in(self.server(caller.0 - self.clients).doing)
        } else {
            None
        }
    }

    /// Whether the caller may make a call.
    pub(crate) fn is_active(&self, caller: CallerId) -> bool
        ensures { result ≡ is_active self.now.clients caller.0 self.now.past }
    {
        if is_client(self.clients, caller) {
            let row = self.caller(u32::from(caller.0));
            !row.left && !row.leaving
        } else {
            self.is_serving(caller)
        }
    }

    /// Whether the caller may give up what it has open, without a call.
    pub(crate) fn may_give_up(&self, caller: CallerId) -> bool
        ensures { result ≡ may_give_up self.now.clients caller.0 self.now.past }
    {
        if is_client(self.clients, caller) {
            !self.caller(u32::from(caller.0)).left
        } else {
            self.clients < caller.0 && !is_busy(self.server(caller.0 - self.clients).doing)
        }
    }

    /// Whether that may be the caller's next call.
    pub(crate) fn admits_call(&self, caller: CallerId, op: u32) -> bool
        ensures { Decides result (IsNextCall self.now.clients caller.0 op self.now.past) }
    {
        self.is_active(caller) && 0 < op && op - 1 == self.caller(u32::from(caller.0)).op
    }

    // Where the rows of an event stand that may come next.
    fn place_of(&self, event: &Event) -> Place
        requires { IsPlaced self.now event.now }
        ensures place { IsPlaceOf self.now.setup self.now.clients event.now result }
        ensures within { IsWithin self.now result }
    {
        let worker = worker_of(self.clients, event);
        let server = worker.saturating_sub(u32::from(self.clients)) as u16;
        let queue = queue_home(&self.setup, event);
        Place {
            worker,
            server,
            queue,
        }
    }

    // Notes an event that may come next.
    fn note(&mut self, event: &Event) -> Result<(), NoMemory>
        requires { Case self.old event.now }
        ensures ok { OnOk result (self.new ≡ noted self.old event.now) }
        ensures err { OnErr result (self.new ≡ self.old) }
    {
        let place = self.place_of(event);
        let version = next_version(self.alloc, &self.setup, self.standing(), event)?;
        self.events.reserve(1)?;
        self.tables.reserve(place)?;
        let copied = event.copy(self.alloc)?;
        self.tables.note(self.clients, place, event, version);
        self.events.push_reserved(copied);
        Ok(())
    }

    /// Takes the event as the next one. It is refused exactly where it may not come next.
    pub fn step(&mut self, event: &Event) -> Result<(), StepRefused>
        ensures yes { OnOk result (Case self.old event.now × (self.new ≡ noted self.old event.now)) }
        ensures no { IfErr result (λ why. (why ≡ refusals.Refused → Case self.old event.now → ⊥) × (self.new ≡ self.old)) }
    {
        if !self.admits(event) {
            return Err(StepRefused::Refused);
        }
        match self.note(event) {
            Ok(()) => Ok(()),
            Err(_) => Err(StepRefused::NoMemory),
        }
    }
}
