// A server's worker that passes its request on.
ghost use Rattle.std.specs.Prelude.{◌≡◌, ◌<◌, ℕ, true, Some, None, IfOk, IfErr, IfSome, OnOk, OnErr};
ghost use Rattle.xa_server.specs.xa_types.Name.{is_name};
ghost use Rattle.xa_server.specs.xa_types.declared.stamp.Stamp.{Stamp};
ghost use Rattle.xa_server.specs.xa_events.declared.event.Event.{Event as Passed};
ghost use Rattle.xa_server.specs.xa_events.declared.event.Taken.{Taken};
ghost use Rattle.xa_server.specs.xa_worker.Work.{seeing};
ghost use Rattle.xa_server.specs.Doings.{IsBusy};
ghost use Rattle.xa_server.specs.Forwarding.{way_of, hop_in, Fails, ForwardsAs, AimsOn, GoesOn};
ghost use Rattle.xa_server.specs.Noting.{HaltsWith};
ghost use Rattle.xa_desk.specs.Desks.{IsDomain, IsDesk, Leads};
ghost use Rattle.xa_desk.specs.Found.{HasFound, ShowsWhy};
ghost use Rattle.xa_desk.specs.Serving.{IsServing, IsTaken, IsToTell};
ghost use Rattle.xa_desk.specs.Passing.{IsPassing, Leaves, StillPassing, forwarded_to, holding};

use crate::desk::Desk;
use crate::domain::Domain;
use crate::visit::{enter, leave};
use std::alloc::Global;
use std::snapshot::Snapshot;
use std::sync::Wait;
use xa_server::caller::{Aimed, Cargo};
use xa_server::events::Event;
use xa_server::queue::{Entry, PutRefused, Refusal};
use xa_server::types::{Data, Octets, QueueId};
use xa_server::work::Halt;
use xa_server::{Closing, Forwarding, ServerSlot};

// The queue that the event sends a request to.
fn queue_of(event: &Event) -> QueueId
    requires { 0 < forwarded_to event.now }
    ensures { result.0 ≡ forwarded_to event.now }
{
    match event {
        Event::Forward(forwarded) => forwarded.queue,
        _ => unreachable!(),
    }
}

/// A request that its queue didn't take.
pub struct NotPassed {
    pub queue: QueueId,
    pub entry: Entry<Cargo>,
    pub why: Refusal,
}

impl Desk {
    /// Its server's service forwards the request in hand to the service of that name, of which the reader found the rows, if it
    /// is a name; as `finish_forward` of a slot.
    pub fn forward(
        &mut self,
        alloc: Global,
        domain: &Domain,
        slot: &mut ServerSlot,
        service: &Octets,
        payload: Data,
    ) -> Result<Forwarding, Halt>
        requires domain { IsDomain domain.now }
        requires desk { IsDesk domain.now self.old }
        requires serving { (queue : ℕ) × (t : Taken) × IsServing domain.now queue slot.old self.old × IfSome slot.old.hand (IsTaken domain.now queue t self.old) }
        requires busy { IsBusy slot.old.doing }
        requires found { is_name service.now ≡ true → HasFound domain.now service.now self.old.reader.found self.old }
        ensures leads { Leads domain.now self.old self.new }
        ensures ok { IfOk result (λ forwarding. ForwardsAs self.old.reader.found.version payload (way_of domain.now.setup service.now payload (hop_in slot.old.hand) self.old.reader.found) forwarding slot.new slot.old self.new.caller self.old.caller) }
        ensures leaves { (queue : ℕ) → IsServing domain.now queue slot.old self.old → (t : Taken) → IfSome slot.old.hand (IsTaken domain.now queue t self.old) → IfOk result (λ forwarding. Leaves domain.now queue forwarding slot.new self.new) }
        ensures rest { (self.new ≡ record self.old { caller = self.new.caller }) × (self.new.caller.seat ≡ self.old.caller.seat) }
        ensures halted { IfErr result (HaltsWith 3 self.new.caller.work self.old.caller.work) }
        ensures kept { OnErr result (slot.new ≡ slot.old) }
        ensures serving { (queue : ℕ) → IsServing domain.now queue slot.old self.old → OnErr result (IsServing domain.now queue slot.new self.new) }
    {
        let sound = domain.shapes.sound(&payload);
        slot.finish_forward(
            alloc,
            &domain.setup,
            &mut self.caller,
            sound,
            service,
            payload,
            self.reader.found(),
        )
    }

    /// Puts the request that is out on the queue that it is aimed at. Where that takes it, the server forwarded it; else it
    /// comes back, and the worker saw the queue's stamp.
    pub fn pass<W: Wait>(
        &mut self,
        rt: &W,
        domain: &Domain,
        slot: &mut ServerSlot,
        entry: Entry<Cargo>,
        event: Event,
    ) -> Result<QueueId, NotPassed>
        requires domain { IsDomain domain.now }
        requires desk { IsDesk domain.now self.old }
        requires passing { (queue : ℕ) × IsPassing domain.now queue entry event slot.old self.old }
        ensures leads { Leads domain.now self.old self.new }
        ensures goes { OnOk result ((stamp : Stamp) × (self.old.caller.work.stamp.0 < stamp.0) × GoesOn stamp self.old.reader.found.version event slot.new slot.old self.new.caller self.old.caller) }
        ensures serving { (queue : ℕ) → IsPassing domain.now queue entry event slot.old self.old → OnOk result (IsServing domain.now queue slot.new self.new) }
        ensures queue { IfOk result (λ queue. queue.0 ≡ forwarded_to event) }
        ensures back { IfErr result (λ back. (back.entry ≡ entry) × (back.queue.0 ≡ forwarded_to event)) }
        ensures kept { OnErr result ((slot.new ≡ slot.old) × ((seen : Stamp) × (self.new.caller ≡ record self.old.caller { work = seeing seen self.old.caller.work }))) }
        ensures passing { (queue : ℕ) → IsPassing domain.now queue entry event slot.old self.old → OnErr result (IsPassing domain.now queue entry event slot.new self.new) }
        ensures why { IfErr result (λ back. ShowsWhy domain.now (forwarded_to event) back.why self.new) }
        ensures board { (self.new.board ≡ self.old.board) × (self.new.reader ≡ self.old.reader) }
    {
        let queue = queue_of(&event);
        let version = self.reader.found().version;
        let forwarded = Snapshot::of(&event);
        let seen = self.caller.stamp();
        let maker = self.caller.id();
        let mut visit = enter(rt, domain, &mut self.queues, queue);
        let answer = visit.queue.value().put(seen, maker, event, entry);
        let last = leave(domain, &mut self.queues, visit);
        match answer {
            Ok(stamp) => {
                slot.forwarded(&mut self.caller, version, stamp, forwarded);
                Ok(queue)
            }
            Err(refused) => {
                let PutRefused { entry, why } = refused;
                self.caller.saw(last);
                Err(NotPassed { queue, entry, why })
            }
        }
    }

    /// Aims the request that is out by the row at that attempt, as `forward_again` of a slot.
    pub fn pass_again(
        &self,
        alloc: Global,
        domain: &Domain,
        slot: &ServerSlot,
        entry: Entry<Cargo>,
        attempt: u32,
    ) -> Aimed
        requires domain { IsDomain domain.now }
        requires desk { IsDesk domain.now self.now }
        requires passing { (queue : ℕ) × (event : Passed) × IsPassing domain.now queue entry event slot.now self.now }
        ensures aims { AimsOn self.now.reader.found.version self.now.caller.priority entry self.now.reader.found.rows attempt slot.now result }
        ensures passing { (queue : ℕ) (event : Passed) → IsPassing domain.now queue entry event slot.now self.now → StillPassing domain.now queue event result slot.now self.now }
    {
        let _ = domain;
        slot.forward_again(alloc, &self.caller, entry, self.reader.found(), attempt)
    }

    /// No queue took the request that is out: it ends as a forward that failed, with the version that was looked up, as by
    /// `forward_refused` of a slot.
    pub fn fail_to_pass(
        &mut self,
        domain: &Domain,
        slot: &mut ServerSlot,
        entry: Entry<Cargo>,
    ) -> Result<Closing, Halt>
        requires domain { IsDomain domain.now }
        requires desk { IsDesk domain.now self.old }
        requires passing { (queue : ℕ) × (event : Passed) × IsPassing domain.now queue entry event slot.old self.old }
        ensures leads { Leads domain.now self.old self.new }
        ensures ok { IfOk result (λ closing. Fails self.old.reader.found.version closing slot.new (holding entry slot.old) self.new.caller self.old.caller) }
        ensures told { IfOk result (IsToTell domain.now self.new) }
        ensures serving { (queue : ℕ) (event : Passed) → IsPassing domain.now queue entry event slot.old self.old → IsServing domain.now queue slot.new self.new }
        ensures rest { (self.new ≡ record self.old { caller = self.new.caller }) × (self.new.caller.seat ≡ self.old.caller.seat) }
        ensures halted { IfErr result (HaltsWith 3 self.new.caller.work self.old.caller.work) }
        ensures kept { OnErr result (slot.new ≡ holding entry slot.old) }
    {
        let _ = domain;
        let version = self.reader.found().version;
        slot.forward_refused(&mut self.caller, entry, version)
    }
}
