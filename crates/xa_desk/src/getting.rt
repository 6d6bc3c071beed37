// The steps of a tpgetrply and of a tpcancel.
ghost use Rattle.std.specs.Prelude.{◌≡◌, ◌+◌};
ghost use Rattle.xa_server.specs.xa_types.declared.call.Op.TheVariants.{Get, GetAny, Cancel};
ghost use Rattle.xa_server.specs.xa_caller.declared.phase.Phase.TheVariants as phases;
ghost use Rattle.xa_server.specs.xa_caller.Caller.{MayCall};
ghost use Rattle.xa_server.specs.xa_caller.Changes.{CancelsAs};
ghost use Rattle.xa_server.specs.xa_caller.Getting.{RepliesAs, AnyAs};
ghost use Rattle.xa_desk.specs.Desks.{IsDomain, IsDesk, Leads};
ghost use Rattle.xa_desk.specs.Steps.{FitsOp};

use crate::desk::Desk;
use crate::domain::Domain;
use std::alloc::Global;
use xa_server::caller::Step;
use xa_server::types::{CallFlags, Kind, Stamp};
use xa_server::work::Halt;

impl Desk {
    /// Looks for the answer of one of its caller's descriptors, as `reply` of a caller.
    pub fn get(
        &mut self,
        alloc: Global,
        domain: &Domain,
        op: u32,
        descriptor: u64,
        flags: CallFlags,
        expect: &Option<Kind>,
    ) -> Step
        requires domain { IsDomain domain.now }
        requires desk { IsDesk domain.now self.old }
        requires active { MayCall self.old.caller }
        requires idle { self.old.caller.phase ≡ phases.Idle }
        requires turn { op ≡ self.old.caller.op + 1 }
        ensures leads { Leads domain.now self.old self.new }
        ensures step { RepliesAs op descriptor expect.now flags.no_block result self.new.caller self.old.caller }
        ensures rest { self.new ≡ record self.old { caller = self.new.caller } }
        ensures fits { FitsOp domain.now op (Get descriptor flags expect.now) self.old self.new }
    {
        let _itself = self.caller.id();
        self.caller.reply(alloc, &domain.cells, op, descriptor, expect, flags.no_block)
    }

    /// Looks for the answers of all its caller's descriptors, as `any` of a caller.
    pub fn get_any(
        &mut self,
        alloc: Global,
        domain: &Domain,
        op: u32,
        flags: CallFlags,
        expect: &Option<Kind>,
    ) -> Step
        requires domain { IsDomain domain.now }
        requires desk { IsDesk domain.now self.old }
        requires active { MayCall self.old.caller }
        requires idle { self.old.caller.phase ≡ phases.Idle }
        requires turn { op ≡ self.old.caller.op + 1 }
        ensures leads { Leads domain.now self.old self.new }
        ensures step { AnyAs op expect.now flags.no_block result self.new.caller self.old.caller }
        ensures rest { self.new ≡ record self.old { caller = self.new.caller } }
        ensures fits { FitsOp domain.now op (GetAny flags expect.now) self.old self.new }
    {
        let _itself = self.caller.id();
        self.caller
            .any(alloc, &domain.cells, op, expect, flags.no_block)
    }

    /// Gives up one of its caller's descriptors, as `cancel` of a caller.
    pub fn cancel(&mut self, domain: &Domain, op: u32, descriptor: u64) -> Result<Stamp, Halt>
        requires domain { IsDomain domain.now }
        requires desk { IsDesk domain.now self.old }
        requires active { MayCall self.old.caller }
        requires idle { self.old.caller.phase ≡ phases.Idle }
        requires turn { op ≡ self.old.caller.op + 1 }
        ensures leads { Leads domain.now self.old self.new }
        ensures cancels { CancelsAs op descriptor result self.new.caller self.old.caller }
        ensures rest { self.new ≡ record self.old { caller = self.new.caller } }
        ensures fits { FitsOp domain.now op (Cancel descriptor) self.old self.new }
    {
        let _itself = self.caller.id();
        self.caller.cancel(&domain.cells, op, descriptor)
    }
}
