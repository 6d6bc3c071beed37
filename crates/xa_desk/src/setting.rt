// A caller sets the priority of its next request.
ghost use Rattle.std.specs.Prelude.{◌≡◌, ◌+◌, IfOk, IfErr, OnErr};
ghost use Rattle.xa_server.specs.xa_types.declared.call.Op.TheVariants.{Priority};
ghost use Rattle.xa_server.specs.xa_caller.declared.phase.Phase.TheVariants as phases;
ghost use Rattle.xa_server.specs.xa_caller.Caller.{MayCall};
ghost use Rattle.xa_server.specs.xa_caller.Changes.{SetsPriority};
ghost use Rattle.xa_server.specs.xa_worker.Work.{HaltsAt};
ghost use Rattle.xa_desk.specs.Desks.{IsDomain, IsDesk, Leads};
ghost use Rattle.xa_desk.specs.Steps.{FitsOp};

use crate::desk::Desk;
use crate::domain::Domain;
use xa_server::types::Stamp;
use xa_server::work::Halt;

impl Desk {
    /// Its caller sets the priority of its next request, as `set_priority` of a caller.
    pub fn set_priority(
        &mut self,
        domain: &Domain,
        op: u32,
        absolute: bool,
        amount: i32,
    ) -> Result<Stamp, Halt>
        requires domain { IsDomain domain.now }
        requires desk { IsDesk domain.now self.old }
        requires active { MayCall self.old.caller }
        requires idle { self.old.caller.phase ≡ phases.Idle }
        requires turn { op ≡ self.old.caller.op + 1 }
        ensures leads { Leads domain.now self.old self.new }
        ensures set { IfOk result (λ stamp. SetsPriority op absolute amount stamp self.new.caller self.old.caller) }
        ensures halted { IfErr result (HaltsAt self.old.caller.work.stamp) }
        ensures kept { OnErr result (self.new ≡ self.old) }
        ensures rest { self.new ≡ record self.old { caller = self.new.caller } }
        ensures fits { FitsOp domain.now op (Priority absolute amount) self.old self.new }
    {
        let _ = domain;
        let _itself = self.caller.id();
        self.caller.set_priority(op, absolute, amount)
    }
}
