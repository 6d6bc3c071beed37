// A caller makes a call.
ghost use Rattle.std.specs.Prelude.{◌≡◌, ◌+◌, ◌<◌, false, Ok, OnOk, IfOk, IfErr};
ghost use Rattle.xa_desk.specs.xa_types.declared.call.Op.TheVariants.{Call, Acall, Priority, Tick};
ghost use Rattle.xa_desk.specs.xa_events.Caller.{is_client};
ghost use Rattle.xa_desk.specs.xa_events.Said.{is_op};
ghost use Rattle.xa_desk.specs.xa_events.Words.{count};
ghost use Rattle.xa_desk.specs.xa_worker.Work.{theirs};
ghost use Rattle.xa_desk.specs.Advertising.{IsChange};
ghost use Rattle.xa_desk.specs.Desks.{IsDomain};
ghost use Rattle.xa_desk.specs.xa_caller.Caller.{MayCall};
ghost use Rattle.xa_calls.specs.Going.{IsReady, IsWaiting, IsStopped, PerformsBy, FoundPending, ToldAs, IsCall, told_by};
ghost use Rattle.xa_calls.specs.Telling.{IsQuiet, IsNoWant, NotesOne, Closes, LookNotes, NotesCall, StoppedIn, IsTold};

use crate::getting::{Wanted, cancel, get};
use crate::sending::{refused_by, send};
use crate::telling::{Told, told_at, told_by_clock, told_by_error};
use std::sync::Wait;
use xa_desk::caller::Step;
use xa_desk::link::{Gate, Point, stay};
use xa_desk::types::{Ask, Op};
use xa_desk::{Desk, Domain, Monitor, Stopped};

pub(crate) fn told_by(step: Step) -> Result<bool, Stopped>
    ensures { result ≡ told_by step }
{
    match step {
        Step::Told(_) => Ok(true),
        Step::Wait => Ok(false),
        Step::Halt(halt) => Err(Stopped::Here(halt)),
        Step::Halted => Err(Stopped::Elsewhere),
    }
}

// Whether the answer was told.
fn is_told(domain: &Domain, desk: &mut Desk, ask: &Ask) -> Result<bool, Stopped>
    requires domain { IsDomain domain.now }
    requires waiting { IsWaiting domain.now desk.old.caller.op desk.old }
    requires active { MayCall desk.old.caller }
    requires some { 0 < desk.old.caller.op }
    ensures goes { PerformsBy domain.now desk.old.caller.op (Call ask.now) desk.old desk.new }
    ensures active { MayCall desk.new.caller }
    ensures told { ToldAs domain.now desk.old.caller.op result desk.new }
    ensures pends { result ≡ Ok false → FoundPending desk.old desk.new }
    ensures notes { LookNotes desk.old.caller.op result desk.old desk.new }
{
    let _itself = desk.caller.id();
    told_by(desk.look_for_reply(domain, &ask.expect))
}

// Waits for the answer.
fn await_reply<W: Wait, G>(
    monitor: &Monitor<'_, W, G>,
    desk: &mut Desk,
    ask: &Ask,
) -> Result<(), Stopped>
    requires domain { IsDomain monitor.now.domain.now }
    requires waiting { IsWaiting monitor.now.domain.now desk.old.caller.op desk.old }
    requires active { MayCall desk.old.caller }
    requires some { 0 < desk.old.caller.op }
    ensures goes { PerformsBy monitor.now.domain.now desk.old.caller.op (Call ask.now) desk.old desk.new }
    ensures active { MayCall desk.new.caller }
    ensures told { OnOk result (IsReady monitor.now.domain.now desk.old.caller.op desk.new) }
    ensures stopped { IfErr result (IsStopped desk.new) }
    ensures notes { OnOk result (NotesOne desk.old.caller.op Closes desk.old desk.new) }
    ensures quiet { IfErr result (λ stopped. IsQuiet desk.old desk.new × IsNoWant stopped) }
{
    let caller = desk.caller.id();
    for _ in monitor.rt.forever() {
        let seen = monitor.domain.waits.replies.count(caller.0);
        if is_told(monitor.domain, desk, ask)? {
            return Ok(());
        }
        if monitor.domain.halt.get().is_some() {
            return Err(Stopped::Elsewhere);
        }
        monitor
            .domain
            .waits
            .replies
            .wait(monitor.rt, caller.0, seen);
    }
    unreachable!()
}

// A tpcall.
fn call<W: Wait, G>(
    monitor: &Monitor<'_, W, G>,
    desk: &mut Desk,
    op: u32,
    ask: &Ask,
) -> Result<(), Stopped>
    requires domain { IsDomain monitor.now.domain.now }
    requires ready { IsReady monitor.now.domain.now desk.old.caller.op desk.old }
    requires active { MayCall desk.old.caller }
    requires turn { op ≡ desk.old.caller.op + 1 }
    ensures goes { PerformsBy monitor.now.domain.now op (Call ask.now) desk.old desk.new }
    ensures active { MayCall desk.new.caller }
    ensures made { OnOk result (IsReady monitor.now.domain.now op desk.new) }
    ensures stopped { IfErr result (IsStopped desk.new) }
    ensures notes { OnOk result (NotesCall op desk.old desk.new) }
    ensures within { IfErr result (λ stopped. StoppedIn op stopped desk.old desk.new) }
{
    let service = match desk.check(monitor.domain, op, ask) {
        Ok(service) => service,
        Err(stop) => {
            refused_by(stop)?;
            return Ok(());
        }
    };
    if send(monitor, desk, op, ask, &service, false)? {
        return await_reply(monitor, desk, ask);
    }
    Ok(())
}

// A client's tpacall.
fn acall<W: Wait, G>(
    monitor: &Monitor<'_, W, G>,
    desk: &mut Desk,
    op: u32,
    ask: &Ask,
) -> Result<Told, Stopped>
    requires domain { IsDomain monitor.now.domain.now }
    requires ready { IsReady monitor.now.domain.now desk.old.caller.op desk.old }
    requires active { MayCall desk.old.caller }
    requires turn { op ≡ desk.old.caller.op + 1 }
    requires kind { IsCall (is_client desk.old.caller.work.clients desk.old.caller.work.id.0) (Acall ask.now) }
    ensures goes { PerformsBy monitor.now.domain.now op (Acall ask.now) desk.old desk.new }
    ensures active { MayCall desk.new.caller }
    ensures made { OnOk result (IsReady monitor.now.domain.now op desk.new) }
    ensures stopped { IfErr result (IsStopped desk.new) }
    ensures told { IfOk result (λ told. IsTold told op desk.old desk.new) }
    ensures within { IfErr result (λ stopped. StoppedIn op stopped desk.old desk.new) }
{
    let service = match desk.check(monitor.domain, op, ask) {
        Ok(service) => service,
        Err(stop) => {
            refused_by(stop)?;
            return Ok(told_at(desk));
        }
    };
    if send(monitor, desk, op, ask, &service, true)? {
        return Ok(Told::Descriptor(desk.caller.last_request()));
    }
    Ok(told_at(desk))
}

// It sets the priority of its next request.
fn set_priority<W, G>(
    monitor: &Monitor<'_, W, G>,
    desk: &mut Desk,
    op: u32,
    absolute: bool,
    amount: i32,
) -> Result<(), Stopped>
    requires domain { IsDomain monitor.now.domain.now }
    requires ready { IsReady monitor.now.domain.now desk.old.caller.op desk.old }
    requires active { MayCall desk.old.caller }
    requires turn { op ≡ desk.old.caller.op + 1 }
    ensures goes { PerformsBy monitor.now.domain.now op (Priority absolute amount) desk.old desk.new }
    ensures active { MayCall desk.new.caller }
    ensures made { OnOk result (IsReady monitor.now.domain.now op desk.new) }
    ensures stopped { IfErr result (IsStopped desk.new) }
    ensures notes { OnOk result (NotesCall op desk.old desk.new) }
    ensures within { IfErr result (λ stopped. StoppedIn op stopped desk.old desk.new) }
{
    desk.set_priority(monitor.domain, op, absolute, amount)?;
    Ok(())
}

// A call by which the board would change.
fn change<W: Wait, G>(
    monitor: &Monitor<'_, W, G>,
    desk: &mut Desk,
    op: u32,
    change: &Op,
) -> Result<Told, Stopped>
    requires domain { IsDomain monitor.now.domain.now }
    requires ready { IsReady monitor.now.domain.now desk.old.caller.op desk.old }
    requires active { MayCall desk.old.caller }
    requires turn { op ≡ desk.old.caller.op + 1 }
    requires kind { IsChange change.now }
    ensures goes { PerformsBy monitor.now.domain.now op change.now desk.old desk.new }
    ensures active { MayCall desk.new.caller }
    ensures made { OnOk result (IsReady monitor.now.domain.now op desk.new) }
    ensures stopped { IfErr result (IsStopped desk.new) }
    ensures told { IfOk result (λ told. IsTold told op desk.old desk.new) }
    ensures within { IfErr result (λ stopped. StoppedIn op stopped desk.old desk.new) }
{
    let refused = desk.change(monitor.rt, monitor.domain, op, change)?;
    Ok(told_by_error(refused))
}

// A tick: a client's moves the clock on.
fn tick<W: Wait, G>(
    monitor: &Monitor<'_, W, G>,
    desk: &mut Desk,
    op: u32,
    n: u32,
) -> Result<Told, Stopped>
    requires domain { IsDomain monitor.now.domain.now }
    requires ready { IsReady monitor.now.domain.now desk.old.caller.op desk.old }
    requires active { MayCall desk.old.caller }
    requires turn { op ≡ desk.old.caller.op + 1 }
    ensures goes { PerformsBy monitor.now.domain.now op (Tick n) desk.old desk.new }
    ensures active { MayCall desk.new.caller }
    ensures made { OnOk result (IsReady monitor.now.domain.now op desk.new) }
    ensures stopped { IfErr result (IsStopped desk.new) }
    ensures told { IfOk result (λ told. IsTold told op desk.old desk.new) }
    ensures within { IfErr result (λ stopped. StoppedIn op stopped desk.old desk.new) }
{
    let told = desk.tick(monitor.rt, monitor.domain, op, n)?;
    Ok(told_by_clock(told))
}

// Makes its next call.
fn make<W: Wait, G>(
    monitor: &Monitor<'_, W, G>,
    desk: &mut Desk,
    number: u32,
    op: &Op,
) -> Result<Told, Stopped>
    requires domain { IsDomain monitor.now.domain.now }
    requires ready { IsReady monitor.now.domain.now desk.old.caller.op desk.old }
    requires active { MayCall desk.old.caller }
    requires turn { number ≡ desk.old.caller.op + 1 }
    requires kind { IsCall (is_client desk.old.caller.work.clients desk.old.caller.work.id.0) op.now }
    ensures goes { PerformsBy monitor.now.domain.now number op.now desk.old desk.new }
    ensures active { MayCall desk.new.caller }
    ensures made { OnOk result (IsReady monitor.now.domain.now number desk.new) }
    ensures stopped { IfErr result (IsStopped desk.new) }
    ensures told { IfOk result (λ told. IsTold told number desk.old desk.new) }
    ensures within { IfErr result (λ stopped. StoppedIn number stopped desk.old desk.new) }
{
    match op {
        Op::Call(ask) => {
            call(monitor, desk, number, ask)?;
            Ok(told_at(desk))
        }
        Op::Acall(ask) => acall(monitor, desk, number, ask),
        Op::Get(descriptor, flags, expect) => {
            let wanted = Wanted {
                descriptor: Some(*descriptor),
                flags: *flags,
                expect,
            };
            get(monitor, desk, number, wanted)
        }
        Op::GetAny(flags, expect) => {
            let wanted = Wanted {
                descriptor: None,
                flags: *flags,
                expect,
            };
            get(monitor, desk, number, wanted)
        }
        Op::Cancel(descriptor) => cancel(monitor, desk, number, *descriptor),
        Op::Priority(absolute, amount) => {
            set_priority(monitor, desk, number, *absolute, *amount)?;
            Ok(told_at(desk))
        }
        Op::Advertise(..) | Op::Unadvertise(_) => change(monitor, desk, number, op),
        Op::Tick(n) => tick(monitor, desk, number, *n),
        _ => unreachable!(),
    }
}

/// Makes its next call, which has that number, as no event of its caller has yet: it is answered, done or refused, or the
/// run halts. Where memory runs out nothing was noted, and the call may be made again.
pub fn perform<W: Wait, G: Gate>(
    monitor: &Monitor<'_, W, G>,
    desk: &mut Desk,
    number: u32,
    op: &Op,
) -> Result<Told, Stopped>
    requires domain { IsDomain monitor.now.domain.now }
    requires ready { IsReady monitor.now.domain.now desk.old.caller.op desk.old }
    requires active { MayCall desk.old.caller }
    requires turn { number ≡ desk.old.caller.op + 1 }
    requires kind { IsCall (is_client desk.old.caller.work.clients desk.old.caller.work.id.0) op.now }
    ensures goes { PerformsBy monitor.now.domain.now number op.now desk.old desk.new }
    ensures active { MayCall desk.new.caller }
    ensures made { OnOk result (IsReady monitor.now.domain.now number desk.new) }
    ensures stopped { IfErr result (IsStopped desk.new) }
    ensures told { IfOk result (λ told. IsTold told number desk.old desk.new) }
    ensures fresh { count (is_op desk.old.caller.work.id.0 number) (theirs desk.old.caller.work) ≡ 0 }
    ensures within { IfErr result (λ stopped. StoppedIn number stopped desk.old desk.new) }
{
    let _last = desk.caller.op();
    if monitor.domain.halt.get().is_some() {
        return Err(Stopped::Elsewhere);
    }
    let caller = desk.caller.id();
    stay(monitor.gate, Point::BeforeOp(caller, number));
    let told = make(monitor, desk, number, op)?;
    monitor.gate.passed(Point::AfterOp(caller, number));
    Ok(told)
}
