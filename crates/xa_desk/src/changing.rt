// A server changes the board for its queue.
ghost use Rattle.std.specs.Prelude.{◌≡◌, ℕ, ◌+◌, ◌<◌, ◌&&◌, true, false, length, IfOk, IfErr, IfSome, IfNone, OnOk, OnErr};
ghost use Rattle.xa_server.specs.xa_types.declared.stamp.Stamp.{Stamp as Stamped};
ghost use Rattle.xa_server.specs.xa_types.declared.call.Op.{Op as Change};
ghost use Rattle.xa_server.specs.xa_types.declared.fault.Fault.TheVariants.{Proto};
ghost use Rattle.xa_server.specs.xa_events.declared.event.Evidence.{Evidence as Shown};
ghost use Rattle.xa_server.specs.xa_events.declared.event.Evidence.TheVariants.{Role};
ghost use Rattle.xa_server.specs.xa_types.declared.call.Op.TheVariants.{Advertise as AdvertiseOp, Unadvertise};
ghost use Rattle.xa_server.specs.xa_types.Name.{is_name};
ghost use Rattle.xa_server.specs.xa_events.declared.event.Event.TheVariants.{Advertise, Withdraw};
ghost use Rattle.xa_server.specs.xa_events.Caller.{is_client, is_serving};
ghost use Rattle.xa_server.specs.xa_events.Cases.{queue_by};
ghost use Rattle.xa_server.specs.xa_caller.Caller.{MayCall};
ghost use Rattle.xa_server.specs.xa_caller.Changes.{changed_by};
ghost use Rattle.xa_server.specs.xa_caller.declared.phase.Phase.TheVariants as phases;
ghost use Rattle.xa_server.specs.xa_worker.Work.{HaltsAt, theirs, seeing};
ghost use Rattle.xa_desk.specs.Advertising.{BarsPut, BarsWithdrawal, ChangeRefusedBy, ChangesAs, HasSeen, IsChange, MovesAtBoard, RefusedBy, RefusesChange, refusal_by, rows_seen};
ghost use Rattle.xa_desk.specs.Desks.{IsDomain, IsDesk, Leads};
ghost use Rattle.xa_desk.specs.Serving.{IsHaltNear, halt_by, seen_by};
ghost use Rattle.xa_desk.specs.Steps.{FitsOp};

use crate::clearing::halt_by;
use crate::desk::Desk;
use crate::domain::Domain;
use crate::visit::{enter_board, leave_board};
use std::sync::Wait;
use xa_board::{BoardRefused, Changed};
use xa_server::events::Evidence;
use xa_server::route::{queue_of, row_for};
use xa_server::stamp::Noted;
use xa_server::types::{Fault, Name, Op, QueueId, ServerId, Stamp};
use xa_server::work::Halt;

// The stamp that was seen there where a change was refused: the last one, or where stamps came to their end that.
fn seen_at(refused: &BoardRefused, last: Stamp) -> Stamp
    ensures { result ≡ seen_by (halt_by refused.now) last }
{
    match refused {
        BoardRefused::Worn(stamp) => *stamp,
        _ => last,
    }
}

// How its caller is told why the board isn't changed, where it is told.
fn refusal_by(refused: &BoardRefused) -> Option<(Fault, Evidence)>
    ensures { result ≡ refusal_by refused.now }
{
    match refused {
        BoardRefused::Match(found) => Some((Fault::Match, Evidence::Routine(*found))),
        BoardRefused::Full => Some((Fault::Limit, Evidence::Rows(256))),
        BoardRefused::NoEnt => Some((Fault::NoEnt, Evidence::NoRow)),
        BoardRefused::Worn(_) | BoardRefused::NoMemory => None,
    }
}

// The word as a name, where it is one.
fn name_of(service: &[u8]) -> Option<Name>
    ensures some { IfSome result (λ name. (name ≡ service.now) × (is_name service.now ≡ true)) }
    ensures none { IfNone result (is_name service.now ≡ false) }
{
    Name::read(service).ok()
}

// Both words as names, where they are.
fn names_of(service: &[u8], routine: &[u8]) -> Option<(Name, Name)>
    ensures some { IfSome result (λ names. (names.0 ≡ service.now) × (names.1 ≡ routine.now) × ((is_name service.now && is_name routine.now) ≡ true)) }
    ensures none { IfNone result ((is_name service.now && is_name routine.now) ≡ false) }
{
    let service = Name::read(service).ok()?;
    let routine = Name::read(routine).ok()?;
    Some((service, routine))
}

impl Desk {
    // Its caller's next call puts a row of its server's queue on the board. Where that is refused the board's last stamp was
    // seen, or that at which stamps came to their end.
    fn put_row<W: Wait>(
        &mut self,
        rt: &W,
        domain: &Domain,
        op: u32,
        queue: QueueId,
        service: Name,
        routine: Name,
    ) -> Result<(), BoardRefused>
        requires domain { IsDomain domain.now }
        requires desk { IsDesk domain.now self.old }
        requires active { is_serving self.old.caller.work.clients self.old.caller.work.id.0 (theirs self.old.caller.work) ≡ true }
        requires idle { self.old.caller.phase ≡ phases.Idle }
        requires turn { op ≡ self.old.caller.op + 1 }
        requires some { (0 < queue.0) × (queue.0 < length domain.now.setup.queues + 1) }
        requires queue { queue_by domain.now.setup domain.now.clients self.old.caller.work.id.0 ≡ queue.0 }
        ensures moves { MovesAtBoard domain.now self.old self.new }
        ensures made { OnOk result ((stamp : Stamped) × (version : ℕ) × (self.new.caller ≡ changed_by stamp op version
            (Advertise (record { by = self.old.caller.work.id; op = op; service = service; queue = queue; routine = routine; version = version })) self.old.caller)) }
        ensures fits { OnOk result ((is_name service && is_name routine) ≡ true → FitsOp domain.now op (AdvertiseOp service routine) self.old self.new) }
        ensures kept { IfErr result (λ why. (seen : Stamped) × (self.new.caller ≡ record self.old.caller { work = seeing seen self.old.caller.work })) }
        ensures barred { IfErr result (λ why. BarsPut service queue.0 routine why (rows_seen domain.now self.new)) }
        ensures halts { IfErr result (λ why. IsHaltNear self.new (halt_by why)) }
    {
        let row = row_for(&domain.setup, queue, service, routine);
        let seen = self.caller.stamp();
        let maker = self.caller.id();
        let mut board = enter_board(rt, domain, &mut self.board);
        let answer = board.value().advertise(seen, maker, maker, op, row);
        let last = leave_board(domain, &mut self.board, board);
        match answer {
            Ok(changed) => {
                let Changed { version, noted } = changed;
                let Noted { stamp, event } = noted;
                self.caller.changed(op, version, stamp, event);
                Ok(())
            }
            Err(refused) => {
                self.caller.saw(seen_at(&refused, last));
                Err(refused)
            }
        }
    }

    // Its caller's next call takes the row of that service and of its server's queue off the board, as `put_row` puts one there.
    fn take_row<W: Wait>(
        &mut self,
        rt: &W,
        domain: &Domain,
        op: u32,
        queue: QueueId,
        service: &Name,
    ) -> Result<(), BoardRefused>
        requires domain { IsDomain domain.now }
        requires desk { IsDesk domain.now self.old }
        requires active { is_serving self.old.caller.work.clients self.old.caller.work.id.0 (theirs self.old.caller.work) ≡ true }
        requires idle { self.old.caller.phase ≡ phases.Idle }
        requires turn { op ≡ self.old.caller.op + 1 }
        requires queue { queue_by domain.now.setup domain.now.clients self.old.caller.work.id.0 ≡ queue.0 }
        ensures moves { MovesAtBoard domain.now self.old self.new }
        ensures made { OnOk result ((stamp : Stamped) × (version : ℕ) × (self.new.caller ≡ changed_by stamp op version
            (Withdraw (record { by = self.old.caller.work.id; op = op; service = service.now; queue = queue; version = version })) self.old.caller)) }
        ensures fits { OnOk result (is_name service.now ≡ true → FitsOp domain.now op (Unadvertise service.now) self.old self.new) }
        ensures kept { IfErr result (λ why. (seen : Stamped) × (self.new.caller ≡ record self.old.caller { work = seeing seen self.old.caller.work })) }
        ensures barred { IfErr result (λ why. BarsWithdrawal service.now queue.0 why (rows_seen domain.now self.new)) }
        ensures halts { IfErr result (λ why. IsHaltNear self.new (halt_by why)) }
    {
        let seen = self.caller.stamp();
        let maker = self.caller.id();
        let mut board = enter_board(rt, domain, &mut self.board);
        let answer = board
            .value()
            .withdraw(seen, maker, maker, op, service, queue);
        let last = leave_board(domain, &mut self.board, board);
        match answer {
            Ok(changed) => {
                let Changed { version, noted } = changed;
                let Noted { stamp, event } = noted;
                self.caller.changed(op, version, stamp, event);
                Ok(())
            }
            Err(refused) => {
                self.caller.saw(seen_at(&refused, last));
                Err(refused)
            }
        }
    }

    // Its caller's next call, which would change the board, is refused.
    fn refuse_change(
        &mut self,
        domain: &Domain,
        op: u32,
        fault: Fault,
        evidence: Evidence,
    ) -> Result<Stamp, Halt>
        requires domain { IsDomain domain.now }
        requires desk { IsDesk domain.now self.old }
        requires active { MayCall self.old.caller }
        requires idle { self.old.caller.phase ≡ phases.Idle }
        requires turn { op ≡ self.old.caller.op + 1 }
        requires so { (change : Change) × ChangeRefusedBy domain.now self.old change fault evidence }
        ensures leads { Leads domain.now self.old self.new }
        ensures refused { IfOk result (λ stamp. RefusesChange op fault evidence stamp self.new.caller self.old.caller) }
        ensures halted { IfErr result (HaltsAt self.old.caller.work.stamp) }
        ensures kept { OnErr result (self.new ≡ self.old) }
        ensures rest { self.new ≡ record self.old { caller = self.new.caller } }
        ensures fits { (change : Change) → ChangeRefusedBy domain.now self.old change fault evidence → FitsOp domain.now op change self.old self.new }
    {
        let _ = domain;
        let _itself = self.caller.id();
        self.caller.refuse(op, fault, evidence)
    }

    // Its caller's next call is refused as the board refused the change, or the worker halts.
    fn told_refused(
        &mut self,
        domain: &Domain,
        op: u32,
        refused: BoardRefused,
    ) -> Result<Fault, Halt>
        requires domain { IsDomain domain.now }
        requires desk { IsDesk domain.now self.old }
        requires active { MayCall self.old.caller }
        requires idle { self.old.caller.phase ≡ phases.Idle }
        requires turn { op ≡ self.old.caller.op + 1 }
        requires so { (change : Change) × RefusedBy domain.now self.old change refused }
        requires halts { IsHaltNear self.old (halt_by refused) }
        ensures leads { Leads domain.now self.old self.new }
        ensures told { IfOk result (λ fault. (evidence : Shown) × (stamp : Stamped) × RefusesChange op fault evidence stamp self.new.caller self.old.caller) }
        ensures kept { OnErr result (self.new ≡ self.old) }
        ensures halted { IfErr result (IsHaltNear self.new) }
        ensures rest { self.new ≡ record self.old { caller = self.new.caller } }
        ensures fits { (change : Change) → RefusedBy domain.now self.old change refused → FitsOp domain.now op change self.old self.new }
    {
        match refusal_by(&refused) {
            Some((fault, evidence)) => {
                self.refuse_change(domain, op, fault, evidence)?;
                Ok(fault)
            }
            None => Err(halt_by(refused)),
        }
    }

    // Its caller's next call isn't the caller's to make.
    fn refuse_role(&mut self, domain: &Domain, op: u32) -> Result<Option<Fault>, Halt>
        requires domain { IsDomain domain.now }
        requires desk { IsDesk domain.now self.old }
        requires active { MayCall self.old.caller }
        requires idle { self.old.caller.phase ≡ phases.Idle }
        requires turn { op ≡ self.old.caller.op + 1 }
        requires so { (change : Change) × ChangeRefusedBy domain.now self.old change Proto Role }
        ensures moves { MovesAtBoard domain.now self.old self.new }
        ensures fits { (change : Change) → ChangeRefusedBy domain.now self.old change Proto Role → FitsOp domain.now op change self.old self.new }
        ensures made { IfOk result (λ refused. ChangesAs op refused self.new.caller self.old.caller) }
        ensures kept { OnErr result (HasSeen self.new.caller self.old.caller) }
        ensures halted { IfErr result (IsHaltNear self.new) }
    {
        self.refuse_change(domain, op, Fault::Proto, Evidence::Role)?;
        Ok(Some(Fault::Proto))
    }

    // Its caller's next call, that of a server, advertises a service for the server's queue with that routine: a row stands
    // then. Or the call is refused: with TPEINVAL where a word is no name, with TPEMATCH where the row stands with another
    // routine, and with TPELIMIT where 256 rows stand without it.
    fn advertise<W: Wait>(
        &mut self,
        rt: &W,
        domain: &Domain,
        op: u32,
        queue: QueueId,
        service: &[u8],
        routine: &[u8],
    ) -> Result<Option<Fault>, Halt>
        requires domain { IsDomain domain.now }
        requires desk { IsDesk domain.now self.old }
        requires server { is_client domain.now.clients self.old.caller.work.id.0 ≡ false }
        requires active { is_serving self.old.caller.work.clients self.old.caller.work.id.0 (theirs self.old.caller.work) ≡ true }
        requires idle { self.old.caller.phase ≡ phases.Idle }
        requires turn { op ≡ self.old.caller.op + 1 }
        requires some { (0 < queue.0) × (queue.0 < length domain.now.setup.queues + 1) }
        requires queue { queue_by domain.now.setup domain.now.clients self.old.caller.work.id.0 ≡ queue.0 }
        ensures moves { MovesAtBoard domain.now self.old self.new }
        ensures fits { FitsOp domain.now op (AdvertiseOp service.now routine.now) self.old self.new }
        ensures made { IfOk result (λ refused. ChangesAs op refused self.new.caller self.old.caller) }
        ensures kept { OnErr result (HasSeen self.new.caller self.old.caller) }
        ensures halted { IfErr result (IsHaltNear self.new) }
    {
        let Some((name, its)) = names_of(service, routine) else {
            self.refuse_change(domain, op, Fault::Inval, Evidence::Argument)?;
            return Ok(Some(Fault::Inval));
        };
        match self.put_row(rt, domain, op, queue, name, its) {
            Ok(()) => Ok(None),
            Err(refused) => Ok(Some(self.told_refused(domain, op, refused)?)),
        }
    }

    // Its caller's next call, that of a server, withdraws a service from the server's queue: no row of it stands there then. Or
    // the call is refused: with TPEINVAL where the word is no name, and with TPENOENT where none stood.
    fn unadvertise<W: Wait>(
        &mut self,
        rt: &W,
        domain: &Domain,
        op: u32,
        queue: QueueId,
        service: &[u8],
    ) -> Result<Option<Fault>, Halt>
        requires domain { IsDomain domain.now }
        requires desk { IsDesk domain.now self.old }
        requires server { is_client domain.now.clients self.old.caller.work.id.0 ≡ false }
        requires active { is_serving self.old.caller.work.clients self.old.caller.work.id.0 (theirs self.old.caller.work) ≡ true }
        requires idle { self.old.caller.phase ≡ phases.Idle }
        requires turn { op ≡ self.old.caller.op + 1 }
        requires queue { queue_by domain.now.setup domain.now.clients self.old.caller.work.id.0 ≡ queue.0 }
        ensures moves { MovesAtBoard domain.now self.old self.new }
        ensures fits { FitsOp domain.now op (Unadvertise service.now) self.old self.new }
        ensures made { IfOk result (λ refused. ChangesAs op refused self.new.caller self.old.caller) }
        ensures kept { OnErr result (HasSeen self.new.caller self.old.caller) }
        ensures halted { IfErr result (IsHaltNear self.new) }
    {
        let Some(name) = name_of(service) else {
            self.refuse_change(domain, op, Fault::Inval, Evidence::Argument)?;
            return Ok(Some(Fault::Inval));
        };
        match self.take_row(rt, domain, op, queue, &name) {
            Ok(()) => Ok(None),
            Err(refused) => Ok(Some(self.told_refused(domain, op, refused)?)),
        }
    }

    /// Its caller's next call, by which the board would change. A server changes a row of its own queue: it
    /// advertises a service there with a routine, so that a row stands (tpadvertise), or withdraws it (tpunadvertise). TPEINVAL
    /// refuses a word that is no name; TPEMATCH a service whose row stands there with another routine; TPELIMIT a row beside 256
    /// others; TPENOENT the withdrawal of what doesn't stand there; TPEPROTO each change of a client. Answers the error by which
    /// the call was refused, if it was.
    pub fn change<W: Wait>(
        &mut self,
        rt: &W,
        domain: &Domain,
        op: u32,
        change: &Op,
    ) -> Result<Option<Fault>, Halt>
        requires domain { IsDomain domain.now }
        requires desk { IsDesk domain.now self.old }
        requires active { MayCall self.old.caller }
        requires idle { self.old.caller.phase ≡ phases.Idle }
        requires turn { op ≡ self.old.caller.op + 1 }
        requires kind { IsChange change.now }
        ensures moves { MovesAtBoard domain.now self.old self.new }
        ensures fits { FitsOp domain.now op change.now self.old self.new }
        ensures made { IfOk result (λ refused. ChangesAs op refused self.new.caller self.old.caller) }
        ensures kept { OnErr result (HasSeen self.new.caller self.old.caller) }
        ensures halted { IfErr result (IsHaltNear self.new) }
    {
        let caller = self.caller.id();
        if caller.0 <= domain.clients {
            return self.refuse_role(domain, op);
        }
        let queue = queue_of(&domain.setup, ServerId(caller.0 - domain.clients));
        match change {
            Op::Advertise(service, routine) => {
                self.advertise(rt, domain, op, queue, service.slice(), routine.slice())
            }
            Op::Unadvertise(service) => self.unadvertise(rt, domain, op, queue, service.slice()),
            _ => unreachable!(),
        }
    }
}
