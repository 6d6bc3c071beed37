// A worker reads the clock, and a client moves it on.
ghost use Rattle.std.specs.Prelude.{◌≡◌, ◌+◌, ℕ, true, Ok, IfOk, IfErr, OnOk, OnErr};
ghost use Rattle.xa_server.specs.xa_types.declared.stamp.Stamp.{Stamp as Stamped};
ghost use Rattle.xa_server.specs.xa_types.declared.call.Op.TheVariants.{Tick};
ghost use Rattle.xa_server.specs.xa_events.Caller.{is_client};
ghost use Rattle.xa_server.specs.xa_caller.Caller.{MayCall};
ghost use Rattle.xa_server.specs.xa_caller.declared.phase.Phase.TheVariants as phases;
ghost use Rattle.xa_server.specs.xa_worker.Work.{HaltsAt, seeing};
ghost use Rattle.xa_server.specs.declared.slot.ServerSlot.{ServerSlot as Slot};
ghost use Rattle.xa_desk.specs.Advertising.{HasSeen};
ghost use Rattle.xa_desk.specs.Desks.{IsDomain, IsDesk, Leads, shown_to};
ghost use Rattle.xa_desk.specs.Serving.{IsHaltNear, IsServing, seen_by};
ghost use Rattle.xa_desk.specs.Steps.{FitsOp};
ghost use Rattle.xa_desk.specs.Ticking.{BarsTick, MovesAtClock, ReadsClock, RefusesTick, TickRefusedBy, TicksAs, tick_halt};

use crate::desk::Desk;
use crate::domain::Domain;
use crate::visit::take_out;
use std::sync::Wait;
use xa_server::events::Evidence;
use xa_server::types::{Fault, Stamp};
use xa_server::work::Halt;
use xa_ticks::{AtClock, TickRefused, read_at, tick_at};

// The stamp that was seen there where the clock wasn't moved: the last one, or where stamps came to their end that.
fn seen_at(refused: &TickRefused, last: Stamp) -> Stamp
    ensures { result ≡ seen_by (tick_halt refused.now) last }
{
    match refused {
        TickRefused::Worn(stamp) => *stamp,
        TickRefused::Past(_) | TickRefused::NoMemory => last,
    }
}

impl Desk {
    /// What the clock shows.
    pub fn read_clock<W: Wait>(&mut self, rt: &W, domain: &Domain) -> u64
        requires desk { IsDesk domain.now self.old }
        ensures reads { ReadsClock domain.now result self.old self.new }
        ensures serving { (queue : ℕ) (slot : Slot) → IsServing domain.now queue slot self.old → IsServing domain.now queue slot self.new }
    {
        let AtClock { pass, last, answer } = read_at(rt, &domain.clock, take_out(&mut self.clock));
        self.clock = Some(pass);
        self.caller.saw(last);
        answer
    }

    // Its caller's next call, that of a client, moves the clock on. Answers what it shows then. Where that is refused the clock's
    // last stamp was seen, or that at which stamps came to their end.
    fn move_clock<W: Wait>(
        &mut self,
        rt: &W,
        domain: &Domain,
        op: u32,
        n: u32,
    ) -> Result<u64, TickRefused>
        requires desk { IsDesk domain.now self.old }
        requires client { is_client self.old.caller.work.clients self.old.caller.work.id.0 ≡ true }
        requires idle { self.old.caller.phase ≡ phases.Idle }
        requires turn { op ≡ self.old.caller.op + 1 }
        ensures moves { MovesAtClock domain.now self.old self.new }
        ensures made { IfOk result (λ tick. TicksAs op (Ok tick) self.new.caller self.old.caller) }
        ensures fits { OnOk result (FitsOp domain.now op (Tick n) self.old self.new) }
        ensures kept { IfErr result (λ why. (seen : Stamped) × (self.new.caller ≡ record self.old.caller { work = seeing seen self.old.caller.work })) }
        ensures barred { IfErr result (λ why. BarsTick n why (shown_to self.new)) }
        ensures halts { IfErr result (λ why. IsHaltNear self.new (tick_halt why)) }
    {
        let seen = self.caller.stamp();
        let by = self.caller.id();
        let AtClock { pass, last, answer } = tick_at(
            rt,
            &domain.clock,
            take_out(&mut self.clock),
            seen,
            by,
            op,
            n,
        );
        self.clock = Some(pass);
        match answer {
            Ok(moment) => {
                self.caller.ticked(op, moment.now, moment.stamp);
                Ok(moment.now)
            }
            Err(refused) => {
                self.caller.saw(seen_at(&refused, last));
                Err(refused)
            }
        }
    }

    // Its caller's next call, a tick, is refused.
    fn refuse_tick(
        &mut self,
        domain: &Domain,
        op: u32,
        n: u32,
        fault: Fault,
        evidence: Evidence,
    ) -> Result<Stamp, Halt>
        requires desk { IsDesk domain.now self.old }
        requires active { MayCall self.old.caller }
        requires idle { self.old.caller.phase ≡ phases.Idle }
        requires turn { op ≡ self.old.caller.op + 1 }
        requires so { TickRefusedBy domain.now self.old n fault evidence }
        ensures leads { Leads domain.now self.old self.new }
        ensures refused { IfOk result (λ stamp. RefusesTick op fault evidence stamp self.new.caller self.old.caller) }
        ensures halted { IfErr result (HaltsAt self.old.caller.work.stamp) }
        ensures kept { OnErr result (self.new ≡ self.old) }
        ensures rest { self.new ≡ record self.old { caller = self.new.caller } }
        ensures fits { FitsOp domain.now op (Tick n) self.old self.new }
    {
        let _ = domain;
        let _ = n;
        let _itself = self.caller.id();
        self.caller.refuse(op, fault, evidence)
    }

    /// Its caller's next call, a tick: a client moves the clock on by `n`, and is told what it shows then. TPELIMIT refuses a sum
    /// that passes 2^62, and TPEPROTO each tick of a server. (This project's own.)
    pub fn tick<W: Wait>(
        &mut self,
        rt: &W,
        domain: &Domain,
        op: u32,
        n: u32,
    ) -> Result<Result<u64, Fault>, Halt>
        requires domain { IsDomain domain.now }
        requires desk { IsDesk domain.now self.old }
        requires active { MayCall self.old.caller }
        requires idle { self.old.caller.phase ≡ phases.Idle }
        requires turn { op ≡ self.old.caller.op + 1 }
        ensures moves { MovesAtClock domain.now self.old self.new }
        ensures fits { FitsOp domain.now op (Tick n) self.old self.new }
        ensures made { IfOk result (λ told. TicksAs op told self.new.caller self.old.caller) }
        ensures kept { OnErr result (HasSeen self.new.caller self.old.caller) }
        ensures halted { IfErr result (IsHaltNear self.new) }
    {
        let caller = self.caller.id();
        if caller.0 > domain.clients {
            self.refuse_tick(domain, op, n, Fault::Proto, Evidence::Role)?;
            return Ok(Err(Fault::Proto));
        }
        match self.move_clock(rt, domain, op, n) {
            Ok(tick) => Ok(Ok(tick)),
            Err(TickRefused::Past(tick)) => {
                self.refuse_tick(domain, op, n, Fault::Limit, Evidence::Clock(tick))?;
                Ok(Err(Fault::Limit))
            }
            Err(TickRefused::Worn(stamp)) => Err(Halt::Worn(stamp)),
            Err(TickRefused::NoMemory) => Err(Halt::NoMemory),
        }
    }
}
