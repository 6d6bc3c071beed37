// The steps of a tpcall and of a tpacall.
ghost use Rattle.std.specs.Prelude.{◌≡◌, ℕ, List, ◌+◌, ◌≤◌, ◌<◌, ◌^◌, true, false, IfOk, IfErr, OnOk, OnErr};
ghost use Rattle.xa_server.specs.xa_types.declared.call.Ask.{Ask as Asked};
ghost use Rattle.xa_server.specs.xa_types.declared.call.Op.TheVariants.{Call};
ghost use Rattle.xa_server.specs.xa_events.Calls.{is_invalid_call};
ghost use Rattle.xa_server.specs.xa_events.Caller.{is_client};
ghost use Rattle.xa_server.specs.xa_types.declared.stamp.Stamp.{Stamp as StampOf};
ghost use Rattle.xa_server.specs.xa_events.declared.event.Event.{Event as Accepting};
ghost use Rattle.xa_server.specs.xa_caller.declared.phase.Phase.TheVariants as phases;
ghost use Rattle.xa_server.specs.xa_caller.Caller.{MayCall};
ghost use Rattle.xa_server.specs.xa_caller.Changes.{Prepares, StopsAs, StepsAs};
ghost use Rattle.xa_server.specs.xa_caller.Phases.{IsPrepared, IsSent};
ghost use Rattle.xa_server.specs.xa_caller.Unsent.{ChecksAs, AimsAs, UnsentAs};
ghost use Rattle.xa_server.specs.xa_worker.Work.{seeing};
ghost use Rattle.xa_desk.specs.Desks.{IsDomain, IsDesk, Leads};
ghost use Rattle.xa_desk.specs.Found.{HasFound, IsAimed, StillAimed, ShowsWhy, IsAccept, queue_in};
ghost use Rattle.xa_desk.specs.Looks.{SeesWhy};
ghost use Rattle.xa_desk.specs.Steps.{FitsOn, FitsOp, IsWhy, SentBy, ask_by};

use crate::desk::Desk;
use crate::domain::Domain;
use crate::visit::{enter, leave};
use std::alloc::Global;
use std::sync::Wait;
use xa_server::caller::{Aimed, Caller, Cargo, Note, Prepared, Step, Stop, Why};
use xa_server::events::Event;
use xa_server::queue::{Entry, PutRefused, Refusal};
use xa_server::types::{Ask, Kind, Name, QueueId, Stamp};

// The queue that the event sends a request to.
fn queue_of(event: &Event) -> QueueId
    requires { IsAccept event.now }
    ensures { result.0 ≡ queue_in event.now }
{
    match event {
        Event::Accept(accepted) => accepted.queue,
        _ => unreachable!(),
    }
}

// Its request was accepted with that stamp.
fn mark_sent(caller: &mut Caller, note: Note, stamp: Stamp, apart: bool)
    requires active { MayCall caller.old }
    requires client { apart ≡ true → is_client caller.old.work.clients caller.old.work.id.0 ≡ true }
    requires prepared { IsPrepared caller.old.phase }
    requires later { caller.old.work.stamp.0 < stamp.0 }
    requires bound { stamp.0 ≤ 2 ^ 63 }
    ensures { SentBy apart stamp caller.new caller.old }
{
    if apart {
        caller.sent_apart(note, stamp);
    } else {
        caller.sent(note, stamp);
    }
}

/// A request that its queue didn't take.
pub struct Unsent {
    pub queue: QueueId,
    pub entry: Entry<Cargo>,
    pub note: Note,
    pub why: Refusal,
}

impl Desk {
    /// The service of its caller's next call, a tpcall or a tpacall, unless TPEINVAL refuses that, as `check` of a caller.
    pub fn check(&mut self, domain: &Domain, op: u32, ask: &Ask) -> Result<Name, Stop>
        requires domain { IsDomain domain.now }
        requires desk { IsDesk domain.now self.old }
        requires active { MayCall self.old.caller }
        requires idle { self.old.caller.phase ≡ phases.Idle }
        requires turn { op ≡ self.old.caller.op + 1 }
        ensures ok { IfOk result (λ name. (is_invalid_call domain.now.setup ask.now ≡ false) × (name ≡ ask.now.service)) }
        ensures kept { OnOk result (self.new ≡ self.old) }
        ensures leads { Leads domain.now self.old self.new }
        ensures refused { IfErr result (λ stop. ChecksAs op stop self.new.caller self.old.caller) }
        ensures rest { self.new ≡ record self.old { caller = self.new.caller } }
        ensures fits { FitsOn domain.now op ask.now self.old self.new }
    {
        let _itself = self.caller.id();
        self.caller.check(&domain.shapes, op, ask)
    }

    /// Makes a request for its caller's next call by the rows that were found, as `prepare` of a caller.
    pub fn prepare(
        &mut self,
        alloc: Global,
        domain: &Domain,
        op: u32,
        ask: &Ask,
    ) -> Result<Prepared, Stop>
        requires domain { IsDomain domain.now }
        requires desk { IsDesk domain.now self.old }
        requires active { MayCall self.old.caller }
        requires idle { self.old.caller.phase ≡ phases.Idle }
        requires turn { op ≡ self.old.caller.op + 1 }
        requires valid { is_invalid_call domain.now.setup ask.now ≡ false }
        requires found { HasFound domain.now ask.now.service self.old.reader.found self.old }
        ensures leads { Leads domain.now self.old self.new }
        ensures made { IfOk result (λ prepared. Prepares domain.now.setup domain.now.cells op ask.now.payload self.old.reader.found prepared self.new.caller self.old.caller) }
        ensures aimed { IfOk result (λ prepared. IsAimed domain.now self.old.reader.found ask.now.payload prepared.entry prepared.event self.new) }
        ensures found { OnOk result (HasFound domain.now ask.now.service self.old.reader.found self.new) }
        ensures rest { self.new ≡ record self.old { caller = self.new.caller } }
        ensures stopped { IfErr result (λ stop. StopsAs domain.now.setup op ask.now.payload self.old.reader.found stop self.new.caller self.old.caller) }
        ensures fits { FitsOn domain.now op ask.now self.old self.new }
    {
        let _itself = self.caller.id();
        self.caller.prepare(
            alloc,
            &domain.setup,
            &domain.cells,
            op,
            ask,
            self.reader.found(),
        )
    }

    /// Puts the request that was prepared on the queue that it is aimed at. Where that takes it, its caller sent it, by a client's
    /// tpacall or by a tpcall; else it comes back, and the worker saw the queue's stamp.
    pub fn send<W: Wait>(
        &mut self,
        rt: &W,
        domain: &Domain,
        prepared: Prepared,
        apart: bool,
    ) -> Result<QueueId, Unsent>
        requires domain { IsDomain domain.now }
        requires desk { IsDesk domain.now self.old }
        requires active { MayCall self.old.caller }
        requires client { apart ≡ true → is_client self.old.caller.work.clients self.old.caller.work.id.0 ≡ true }
        requires found { (ask : Asked) × (is_invalid_call domain.now.setup ask ≡ false) × HasFound domain.now ask.service self.old.reader.found self.old
            × IsAimed domain.now self.old.reader.found ask.payload prepared.entry prepared.event self.old }
        ensures leads { Leads domain.now self.old self.new }
        ensures sent { OnOk result ((stamp : StampOf) × SentBy apart stamp self.new.caller self.old.caller) }
        ensures fits { (ask : Asked) → is_invalid_call domain.now.setup ask ≡ false → HasFound domain.now ask.service self.old.reader.found self.old → IsAimed domain.now self.old.reader.found ask.payload prepared.entry prepared.event self.old
            → FitsOp domain.now (self.old.caller.op + 1) (ask_by apart ask) self.old self.new }
        ensures reader { self.new.reader ≡ self.old.reader }
        ensures board { self.new.board ≡ self.old.board }
        ensures queue { IfOk result (λ queue. queue.0 ≡ queue_in prepared.event) }
        ensures back { IfErr result (λ back. back.entry ≡ prepared.entry) }
        ensures shut { IfErr result (λ back. back.queue.0 ≡ queue_in prepared.event) }
        ensures kept { OnErr result ((seen : Stamp) × (self.new.caller ≡ record self.old.caller { work = seeing seen self.old.caller.work })) }
        ensures why { IfErr result (λ back. ShowsWhy domain.now (queue_in prepared.event) back.why self.new) }
        ensures seen { IfErr result (λ back. SeesWhy domain.now (queue_in prepared.event) back.why self.new) }
    {
        let Prepared { entry, event, note } = prepared;
        let queue = queue_of(&event);
        let seen = self.caller.stamp();
        let maker = self.caller.id();
        let mut visit = enter(rt, domain, &mut self.queues, queue);
        let answer = visit.queue.value().put(seen, maker, event, entry);
        let last = leave(domain, &mut self.queues, visit);
        match answer {
            Ok(stamp) => {
                mark_sent(&mut self.caller, note, stamp, apart);
                Ok(queue)
            }
            Err(refused) => {
                let PutRefused { entry, why } = refused;
                self.caller.saw(last);
                Err(Unsent {
                    queue,
                    entry,
                    note,
                    why,
                })
            }
        }
    }

    /// Aims a request that a queue refused by the row at that attempt, as `aim` of a caller.
    pub fn aim(
        &mut self,
        alloc: Global,
        domain: &Domain,
        entry: Entry<Cargo>,
        attempt: u32,
    ) -> Aimed
        requires domain { IsDomain domain.now }
        requires desk { IsDesk domain.now self.old }
        requires found { (ask : Asked) × (event : Accepting) × HasFound domain.now ask.service self.old.reader.found self.old × IsAimed domain.now self.old.reader.found ask.payload entry event self.old }
        ensures leads { Leads domain.now self.old self.new }
        ensures aims { AimsAs entry self.old.reader.found.rows attempt result self.new.caller self.old.caller }
        ensures found { (service : List ℕ) → HasFound domain.now service self.old.reader.found self.old → HasFound domain.now service self.old.reader.found self.new }
        ensures aimed { (ask : Asked) (event : Accepting) → HasFound domain.now ask.service self.old.reader.found self.old → IsAimed domain.now self.old.reader.found ask.payload entry event self.old
            → StillAimed domain.now self.old.reader.found ask.payload event result self.new }
        ensures rest { self.new ≡ record self.old { caller = self.new.caller } }
        ensures fits { (op : ℕ) (ask : Asked) → FitsOn domain.now op ask self.old self.new }
    {
        let _ = domain;
        self.caller.aim(alloc, entry, self.reader.found(), attempt)
    }

    /// No queue took the request that was prepared, for that reason: its cell is given back, and its caller is refused or
    /// waits, as by `unsent` of a caller.
    pub fn unsent(
        &mut self,
        domain: &Domain,
        note: Note,
        entry: Entry<Cargo>,
        why: Why,
        no_block: bool,
    ) -> Step
        requires domain { IsDomain domain.now }
        requires desk { IsDesk domain.now self.old }
        requires active { MayCall self.old.caller }
        requires found { (ask : Asked) × (event : Accepting) × HasFound domain.now ask.service self.old.reader.found self.old × IsAimed domain.now self.old.reader.found ask.payload entry event self.old }
        requires why { IsWhy domain.now self.old.reader.found why self.old }
        ensures leads { Leads domain.now self.old self.new }
        ensures unsent { UnsentAs entry.cargo.ticket.cell why no_block result self.new.caller self.old.caller }
        ensures rest { self.new ≡ record self.old { caller = self.new.caller } }
        ensures fits { (ask : Asked) → is_invalid_call domain.now.setup ask ≡ false → no_block ≡ ask.flags.no_block → HasFound domain.now ask.service self.old.reader.found self.old
            → FitsOn domain.now (self.old.caller.op + 1) ask self.old self.new }
    {
        let _itself = self.caller.id();
        self.caller
            .unsent(&domain.cells, note, entry, why, no_block)
    }

    /// Looks for the answer to its caller's request, and notes it where it has come, as `call_reply` of a caller.
    pub fn look_for_reply(&mut self, domain: &Domain, expect: &Option<Kind>) -> Step
        requires domain { IsDomain domain.now }
        requires desk { IsDesk domain.now self.old }
        requires active { MayCall self.old.caller }
        requires sent { IsSent self.old.caller.phase }
        ensures leads { Leads domain.now self.old self.new }
        ensures step { StepsAs expect.now result self.new.caller self.old.caller }
        ensures rest { self.new ≡ record self.old { caller = self.new.caller } }
        ensures fits { (ask : Asked) → expect.now ≡ ask.expect → FitsOp domain.now self.old.caller.op (Call ask) self.old self.new }
    {
        let _itself = self.caller.id();
        self.caller.call_reply(&domain.cells, expect)
    }
}
