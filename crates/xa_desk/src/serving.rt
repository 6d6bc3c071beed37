// The steps of a server's worker.
ghost use Rattle.std.specs.Prelude.{◌≡◌, ◌<◌, ◌≤◌, ℕ, true, false, None, Ok, Err, IfOk, IfErr, OnOk, OnErr, IfSome, length, vec_len, vec_capacity, ◌+◌};
ghost use Rattle.xa_server.specs.xa_types.Kind.{is_sound};
ghost use Rattle.xa_server.specs.xa_events.Conversation.{connections};
ghost use Rattle.xa_server.specs.xa_events.Finishing.{return_by};
ghost use Rattle.xa_server.specs.xa_events.declared.event.StopCause.TheVariants.{Shutdown};
ghost use Rattle.xa_server.specs.xa_link.Starts.{AsksFor};
ghost use Rattle.xa_server.specs.xa_stamp.Home.{last_stamp};
ghost use Rattle.xa_server.specs.xa_worker.Crew.{no_stamp};
ghost use Rattle.xa_server.specs.xa_cell.Known.{known};
ghost use Rattle.xa_server.specs.xa_worker.Work.{theirs};
ghost use Rattle.xa_server.specs.Doings.{IsIdle, IsBusy, IsAlive, MayStop, is_death};
ghost use Rattle.xa_server.specs.Changes.{MayStart, MayBeGivenUp, Finishes, Dies, DiesWorn, Stops, next_life};
ghost use Rattle.xa_server.specs.Noting.{HaltsWith, IsWorn};
ghost use Rattle.xa_server.specs.Served.{Tries, Counts, Halts};
ghost use Rattle.xa_server.specs.Told.{GivenAs};
ghost use Rattle.xa_server.specs.xa_events.Cases.{IsShut};
ghost use Rattle.xa_desk.specs.Desks.{IsDomain, IsDesk, Leads, shown_to};
ghost use Rattle.xa_desk.specs.Found.{SawAtQueue};
ghost use Rattle.xa_desk.specs.Serving.{IsServing, TakesAs, LeavesAs, IsDeserted, IsCleared, IsFallen, OfDomain, IsToTell, SweepsAs, IsAtEnd};

use crate::desk::Desk;
use crate::domain::Domain;
use crate::visit::{enter, leave};
use std::alloc::Global;
use std::sync::Wait;
use xa_server::events::StopCause;
use xa_server::link::{Link, Starter};
use xa_server::pipe::{Life, Return};
use xa_server::queue::{GivenUp, Outgoing, Taken};
use xa_server::stamp::Noted;
use xa_server::types::{Name, QueueId, Stamp, Worn};
use xa_server::work::Halt;
use xa_server::{Closing, Given, Served, ServerSlot};

/// What a take of a server comes to.
#[derive(Clone, Copy, Debug, PartialEq, Eq)]
pub enum Took {
    /// A request, which the slot has in hand.
    Request,
    /// Nothing waits.
    Nothing,
    /// Nothing waits, and nothing will.
    Closed,
}

impl Desk {
    /// Starts the next life of its server, as `start` of what serves it, at the tick that the clock showed the worker last.
    pub fn start<L: Link, T: Starter<L>>(
        &mut self,
        alloc: Global,
        domain: &Domain,
        served: &mut Served<L, T>,
        name: &Name,
        tick: u64,
    ) -> Result<Option<Life<L>>, Halt>
        requires domain { (queue : ℕ) × IsDomain domain.now × IsDesk domain.now self.old × IsServing domain.now queue served.old.slot self.old }
        requires own { name.now ≡ (T.shows served.old.starter).name }
        requires may { MayStart tick served.old.slot self.old.caller.work × (tick ≡ shown_to self.old) }
        ensures leads { Leads domain.now self.old self.new }
        ensures serving { (queue : ℕ) → IsServing domain.now queue served.old.slot self.old → IsServing domain.now queue served.new.slot self.new }
        ensures tried { IfOk result (λ life. Tries name.now tick life served.new.slot served.old.slot self.new.caller.work self.old.caller.work) }
        ensures counted { IfOk result (λ life. Counts life (T.shows served.old.starter).faults (T.shows served.new.starter).faults) }
        ensures asked { OnOk result (AsksFor (T.shows served.old.starter).asked (T.shows served.new.starter).asked name.now (next_life served.old.slot)) }
        ensures same { (T.shows served.new.starter).name ≡ (T.shows served.old.starter).name }
        ensures rest { (self.new ≡ record self.old { caller = self.new.caller }) × (served.new.lives.items ≡ served.old.lives.items) × (self.new.caller.seat ≡ self.old.caller.seat) }
        ensures room { OnOk result (vec_len served.new.lives < vec_capacity served.new.lives) }
        ensures halted { IfErr result (Halts name.now (next_life served.old.slot) (T.shows served.new.starter) (T.shows served.old.starter) self.new.caller.work self.old.caller.work) }
        ensures kept { OnErr result (served.new.slot ≡ served.old.slot) }
    {
        let _ = domain;
        served.start(alloc, &mut self.caller, name, tick)
    }

    /// Takes the next request of its server's queue.
    pub fn take<W: Wait>(
        &mut self,
        rt: &W,
        domain: &Domain,
        slot: &mut ServerSlot,
        queue: QueueId,
    ) -> Result<Took, Worn>
        requires domain { IsDomain domain.now }
        requires desk { IsDesk domain.now self.old }
        requires serving { IsServing domain.now queue.0 slot.old self.old }
        requires idle { IsIdle slot.old.doing }
        requires left { slot.old.gone ≡ false }
        ensures leads { Leads domain.now self.old self.new }
        ensures serving { IsServing domain.now queue.0 slot.new self.new }
        ensures taken { TakesAs domain.now queue.0 result slot.old slot.new self.old self.new }
        ensures board { (self.new.board ≡ self.old.board) × (self.new.reader ≡ self.old.reader) }
    {
        let seen = self.caller.stamp();
        let maker = self.caller.id();
        let mut visit = enter(rt, domain, &mut self.queues, queue);
        let answer = visit
            .queue
            .value()
            .take(seen, maker, slot.server(), slot.life());
        let last = leave(domain, &mut self.queues, visit);
        match answer {
            Ok(Taken::Request(out)) => {
                let Outgoing { entry, noted } = out;
                let Noted { stamp, event } = noted;
                slot.begin(&mut self.caller, entry, stamp, event);
                Ok(Took::Request)
            }
            Ok(Taken::Empty) => {
                self.caller.saw(last);
                Ok(Took::Nothing)
            }
            Ok(Taken::Closed) => {
                self.caller.saw(last);
                Ok(Took::Closed)
            }
            Err(worn) => {
                self.caller.saw(last);
                Err(worn)
            }
        }
    }

    /// Its server's service returned.
    pub fn finish(
        &mut self,
        alloc: Global,
        domain: &Domain,
        slot: &mut ServerSlot,
        back: Return,
    ) -> Result<Closing, Halt>
        requires domain { (queue : ℕ) × IsDomain domain.now × IsDesk domain.now self.old × IsServing domain.now queue slot.old self.old }
        requires busy { IsBusy slot.old.doing }
        ensures leads { Leads domain.now self.old self.new }
        ensures serving { (queue : ℕ) → IsServing domain.now queue slot.old self.old → IsServing domain.now queue slot.new self.new }
        ensures ok { IfOk result (λ closing. Finishes (return_by domain.now.setup (connections self.old.caller.work.id.0 (theirs self.old.caller.work)) back.value back.code back.payload) closing slot.new slot.old self.new.caller.work self.old.caller.work) }
        ensures told { IfOk result (IsToTell domain.now self.new) }
        ensures rest { (self.new ≡ record self.old { caller = self.new.caller }) × (self.new.caller.seat ≡ self.old.caller.seat) }
        ensures halted { IfErr result (HaltsWith 3 self.new.caller.work self.old.caller.work) }
        ensures kept { OnErr result (slot.new ≡ slot.old) }
    {
        let Return {
            value,
            code,
            payload,
        } = back;
        let sound = domain.shapes.sound(&payload);
        slot.finish_return(alloc, &mut self.caller, sound, value, code, payload)
    }

    /// The life of its server ends by itself.
    pub fn die(
        &mut self,
        domain: &Domain,
        slot: &mut ServerSlot,
        cause: StopCause,
    ) -> Result<Closing, Worn>
        requires domain { (queue : ℕ) × IsDomain domain.now × IsDesk domain.now self.old × IsServing domain.now queue slot.old self.old }
        requires alive { IsAlive slot.old.doing }
        requires death { is_death cause ≡ true }
        ensures leads { Leads domain.now self.old self.new }
        ensures serving { (queue : ℕ) → IsServing domain.now queue slot.old self.old → IsServing domain.now queue slot.new self.new }
        ensures ok { IfOk result (λ closing. Dies cause closing slot.new slot.old self.new.caller.work self.old.caller.work) }
        ensures told { IfOk result (IsToTell domain.now self.new) }
        ensures rest { (self.new ≡ record self.old { caller = self.new.caller }) × (self.new.caller.seat ≡ self.old.caller.seat) }
        ensures worn { IfErr result (λ worn. DiesWorn cause worn slot.new slot.old self.new.caller.work self.old.caller.work) }
    {
        let _ = domain;
        slot.died(&mut self.caller, cause)
    }

    /// The life of its server ends by SHUTDOWN or TPEXIT.
    pub fn stop(
        &mut self,
        domain: &Domain,
        slot: &mut ServerSlot,
        cause: StopCause,
    ) -> Result<Stamp, Worn>
        requires domain { (queue : ℕ) × IsDomain domain.now × IsDesk domain.now self.old × IsServing domain.now queue slot.old self.old
            × (cause ≡ Shutdown → SawAtQueue domain.now queue self.old (IsShut domain.now.setup queue)) }
        requires may { MayStop cause slot.old.doing slot.old.last }
        requires free { slot.old.hand ≡ None }
        ensures leads { Leads domain.now self.old self.new }
        ensures serving { (queue : ℕ) → IsServing domain.now queue slot.old self.old → IsServing domain.now queue slot.new self.new }
        ensures ok { IfOk result (λ stamp. Stops cause stamp slot.new slot.old self.new.caller.work self.old.caller.work) }
        ensures rest { (self.new ≡ record self.old { caller = self.new.caller }) × (self.new.caller.seat ≡ self.old.caller.seat) }
        ensures worn { IfErr result (λ worn. IsWorn worn self.old.caller.work) }
        ensures kept { OnErr result ((slot.new ≡ slot.old) × (self.new.caller.work ≡ self.old.caller.work)) }
    {
        let _ = domain;
        slot.stopped(&mut self.caller, cause)
    }

    /// Its server is given up at its queue. Answers whether no server is left there.
    pub fn leave_queue<W: Wait>(
        &mut self,
        rt: &W,
        domain: &Domain,
        slot: &mut ServerSlot,
        queue: QueueId,
        tick: u64,
    ) -> Result<bool, Worn>
        requires domain { IsDomain domain.now }
        requires desk { IsDesk domain.now self.old }
        requires serving { IsServing domain.now queue.0 slot.old self.old }
        requires may { MayBeGivenUp tick slot.old self.old.caller.work }
        requires left { slot.old.gone ≡ false }
        ensures leads { Leads domain.now self.old self.new }
        ensures serving { IsServing domain.now queue.0 slot.new self.new }
        ensures gone { LeavesAs domain.now queue.0 result slot.old slot.new self.old self.new }
        ensures board { (self.new.board ≡ self.old.board) × (self.new.reader ≡ self.old.reader) }
    {
        let seen = self.caller.stamp();
        let maker = self.caller.id();
        let mut visit = enter(rt, domain, &mut self.queues, queue);
        let answer = visit.queue.value().gone(seen, maker, slot.server());
        let last = leave(domain, &mut self.queues, visit);
        match answer {
            Ok(GivenUp { noted, last }) => {
                let Noted { stamp, event } = noted;
                slot.given_up(&mut self.caller, tick, stamp, event);
                Ok(last)
            }
            Err(worn) => {
                self.caller.saw(last);
                Err(worn)
            }
        }
    }

    /// Takes a queue without servers and without rows down, for the domain.
    pub fn take_down<W: Wait>(
        &mut self,
        rt: &W,
        domain: &Domain,
        queue: QueueId,
    ) -> Result<(), Worn>
        requires domain { IsDomain domain.now }
        requires desk { IsDesk domain.now self.old }
        requires deserted { IsDeserted domain.now queue.0 self.old × (0 < queue.0) × (queue.0 < length domain.now.queues.items + 1) }
        requires clear { IsCleared domain.now queue.0 self.old }
        ensures leads { Leads domain.now self.old self.new }
        ensures noted { OfDomain self.old self.new }
        ensures down { OnOk result (IsFallen domain.now queue.0 self.new) }
        ensures worn { IfErr result (λ worn. IsAtEnd worn self.old self.new) }
        ensures board { (self.new.board ≡ self.old.board) × (self.new.reader ≡ self.old.reader) }
    {
        let seen = self.caller.stamp();
        let maker = self.caller.id();
        let mut visit = enter(rt, domain, &mut self.queues, queue);
        let answer = visit.queue.value().down(seen, maker);
        let last = leave(domain, &mut self.queues, visit);
        match answer {
            Ok(Some(noted)) => {
                let Noted { stamp, event } = noted;
                self.caller.noted_for_domain(stamp, event);
                Ok(())
            }
            Ok(None) => {
                self.caller.saw(last);
                Ok(())
            }
            Err(worn) => {
                self.caller.saw(last);
                Err(worn)
            }
        }
    }

    /// Gives up the oldest request that waits at a queue that is down, for the domain.
    pub fn sweep<W: Wait>(
        &mut self,
        rt: &W,
        domain: &Domain,
        slot: &ServerSlot,
        queue: QueueId,
    ) -> Result<Option<Closing>, Worn>
        requires domain { IsDomain domain.now }
        requires desk { IsDesk domain.now self.old }
        requires fallen { IsFallen domain.now queue.0 self.old × (0 < queue.0) × (queue.0 < length domain.now.queues.items + 1) }
        ensures leads { Leads domain.now self.old self.new }
        ensures swept { SweepsAs domain.now queue.0 result self.old self.new }
        ensures fallen { IsFallen domain.now queue.0 self.new }
        ensures board { (self.new.board ≡ self.old.board) × (self.new.reader ≡ self.old.reader) }
    {
        let seen = self.caller.stamp();
        let maker = self.caller.id();
        let mut visit = enter(rt, domain, &mut self.queues, queue);
        let answer = visit.queue.value().sweep(seen, maker);
        let last = leave(domain, &mut self.queues, visit);
        match answer {
            Ok(Some(out)) => {
                let Outgoing { entry, noted } = out;
                let Noted { stamp, event } = noted;
                self.caller.noted_for_domain(stamp, event);
                Ok(Some(slot.swept(entry, stamp)))
            }
            Ok(None) => {
                self.caller.saw(last);
                Ok(None)
            }
            Err(worn) => {
                self.caller.saw(last);
                Err(worn)
            }
        }
    }

    /// Tells the caller of a request what befell it.
    pub fn give(&mut self, domain: &Domain, closing: Closing) -> Given
        requires domain { IsDomain domain.now }
        requires desk { IsDesk domain.now self.old }
        requires told { IsToTell domain.now self.old closing }
        ensures leads { Leads domain.now self.old self.new }
        ensures given { GivenAs closing (record { 0 = last_stamp no_stamp self.old.caller.work.own }) (known self.old.caller.seat) (known self.new.caller.seat) result }
        ensures rest { self.new ≡ record self.old { caller = record self.old.caller { seat = self.new.caller.seat } } }
    {
        closing.give(&mut self.caller, &domain.cells)
    }
}
