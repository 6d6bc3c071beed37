// A caller sends a request.
ghost use Rattle.std.specs.Prelude.{◌≡◌, ◌+◌, true, false, Some};
ghost use Rattle.xa_desk.specs.xa_events.Calls.{is_invalid_call};
ghost use Rattle.xa_desk.specs.xa_events.Caller.{is_client};
ghost use Rattle.xa_desk.specs.xa_events.declared.event.Event.{Event as Accepting};
ghost use Rattle.xa_desk.specs.Desks.{IsDomain, IsDesk};
ghost use Rattle.xa_desk.specs.Found.{HasFound, IsAimed};
ghost use Rattle.xa_desk.specs.Steps.{IsWhy, ask_by, full_in};
ghost use Rattle.xa_desk.specs.xa_caller.Caller.{MayCall};
ghost use Rattle.xa_calls.specs.Resting.{SawFull};
ghost use Rattle.xa_calls.specs.Going.{IsReady, GoesBy, PerformsBy, TriesBy, TriedAs, SentAs, tried_by, refused_by};
ghost use Rattle.xa_calls.specs.Sending.{IsBy, why_of, full_by};
ghost use Rattle.xa_calls.specs.Telling.{TriedNotes, SentNotes};

use std::sync::Wait;
use xa_desk::caller::{Aimed, Cargo, Note, Prepared, Step, Stop, Why};
use xa_desk::queue::{Entry, Refusal};
use xa_desk::types::{Ask, Name, QueueId};
use xa_desk::work::Halt;
use xa_desk::{Desk, Monitor, Stopped, Unsent};

// What an attempt to send comes to.
#[derive(Clone, Copy)]
pub(crate) enum Tried {
    Sent,
    Refused,
    Full,
}

fn why_of(full: Option<(QueueId, u32)>) -> Why
    ensures { result ≡ why_of full }
{
    match full {
        None => Why::AllShut,
        Some((queue, waiting)) => Why::Full(queue, waiting),
    }
}

fn tried_by(step: Step) -> Result<Tried, Stopped>
    ensures { result ≡ tried_by step }
{
    match step {
        Step::Told(_) => Ok(Tried::Refused),
        Step::Wait => Ok(Tried::Full),
        Step::Halt(halt) => Err(Stopped::Here(halt)),
        Step::Halted => Err(Stopped::Elsewhere),
    }
}

pub(crate) fn refused_by(stop: Stop) -> Result<Tried, Stopped>
    ensures { result ≡ refused_by stop }
{
    match stop {
        Stop::Refused(_) => Ok(Tried::Refused),
        Stop::Halt(halt) => Err(Stopped::Here(halt)),
    }
}

// Which queue was full, behind a queue that refused, or why nothing more is tried.
fn full_by(
    queue: QueueId,
    why: Refusal,
    full: Option<(QueueId, u32)>,
) -> Result<Option<(QueueId, u32)>, Halt>
    ensures { result ≡ full_by queue why full }
{
    match why {
        Refusal::Full(waiting) => Ok(Some((queue, waiting))),
        Refusal::Down => Ok(full),
        Refusal::Closed => Ok(full),
        Refusal::Worn(stamp) => Err(Halt::Worn(stamp)),
        Refusal::NoMemory => Err(Halt::NoMemory),
    }
}

// No queue took the request, for that reason.
fn give_up<W, G>(
    monitor: &Monitor<'_, W, G>,
    desk: &mut Desk,
    note: Note,
    entry: Entry<Cargo>,
    why: Why,
    ask: &Ask,
    apart: bool,
) -> Result<Tried, Stopped>
    requires domain { IsDomain monitor.now.domain.now }
    requires desk { IsDesk monitor.now.domain.now desk.old }
    requires active { MayCall desk.old.caller }
    requires valid { is_invalid_call monitor.now.domain.now.setup ask.now ≡ false }
    requires found { HasFound monitor.now.domain.now ask.now.service desk.old.reader.found desk.old }
    requires aimed { (event : Accepting) × IsAimed monitor.now.domain.now desk.old.reader.found ask.now.payload entry event desk.old }
    requires why { IsWhy monitor.now.domain.now desk.old.reader.found why desk.old }
    ensures goes { GoesBy monitor.now.domain.now (desk.old.caller.op + 1) apart ask.now desk.old desk.new }
    ensures tries { TriesBy (λ one. full_in why ≡ Some one) desk.old desk.new }
    ensures tried { TriedAs apart monitor.now.domain.now (desk.old.caller.op + 1) result desk.new }
    ensures notes { TriedNotes (desk.old.caller.op + 1) result desk.old desk.new }
    ensures active { MayCall desk.new.caller }
{
    tried_by(desk.unsent(monitor.domain, note, entry, why, ask.flags.no_block))
}

// Puts the request on the first queue that takes it.
fn put_on_one<W: Wait, G>(
    monitor: &Monitor<'_, W, G>,
    desk: &mut Desk,
    first: Prepared,
    ask: &Ask,
    apart: bool,
) -> Result<Tried, Stopped>
    requires domain { IsDomain monitor.now.domain.now }
    requires desk { IsDesk monitor.now.domain.now desk.old }
    requires active { MayCall desk.old.caller }
    requires client { apart ≡ true → is_client desk.old.caller.work.clients desk.old.caller.work.id.0 ≡ true }
    requires valid { is_invalid_call monitor.now.domain.now.setup ask.now ≡ false }
    requires found { HasFound monitor.now.domain.now ask.now.service desk.old.reader.found desk.old }
    requires aimed { IsAimed monitor.now.domain.now desk.old.reader.found ask.now.payload first.entry first.event desk.old }
    requires first { IsBy desk.old.reader.found 0 first.event }
    ensures goes { GoesBy monitor.now.domain.now (desk.old.caller.op + 1) apart ask.now desk.old desk.new }
    ensures tries { TriesBy (SawFull monitor.now.domain.now desk.old desk.new) desk.old desk.new }
    ensures tried { TriedAs apart monitor.now.domain.now (desk.old.caller.op + 1) result desk.new }
    ensures notes { TriedNotes (desk.old.caller.op + 1) result desk.old desk.new }
    ensures active { MayCall desk.new.caller }
{
    let mut prepared = first;
    let mut full = None;
    let mut attempt = 0u32;
    for _ in monitor.rt.forever() {
        let unsent = match desk.send(monitor.rt, monitor.domain, prepared, apart) {
            Ok(queue) => {
                monitor.domain.wake_server(queue);
                return Ok(Tried::Sent);
            }
            Err(unsent) => unsent,
        };
        let Unsent {
            queue,
            entry,
            note,
            why,
        } = unsent;
        full = match full_by(queue, why, full) {
            Ok(full) => full,
            Err(halt) => {
                return give_up(monitor, desk, note, entry, Why::Halt(halt), ask, apart);
            }
        };
        attempt = attempt.saturating_add(1);
        prepared = match desk.aim(monitor.alloc, monitor.domain, entry, attempt) {
            Aimed::At(entry, event) => Prepared { entry, event, note },
            Aimed::Past(entry) => {
                return give_up(monitor, desk, note, entry, why_of(full), ask, apart);
            }
            Aimed::NoMemory(entry) => {
                return give_up(
                    monitor,
                    desk,
                    note,
                    entry,
                    Why::Halt(Halt::NoMemory),
                    ask,
                    apart,
                );
            }
        };
    }
    unreachable!()
}

// Looks the service up, and sends the request by what is found, or is refused.
fn try_to_send<W: Wait, G>(
    monitor: &Monitor<'_, W, G>,
    desk: &mut Desk,
    op: u32,
    ask: &Ask,
    service: &Name,
    apart: bool,
) -> Result<Tried, Stopped>
    requires domain { IsDomain monitor.now.domain.now }
    requires ready { IsReady monitor.now.domain.now desk.old.caller.op desk.old }
    requires active { MayCall desk.old.caller }
    requires turn { op ≡ desk.old.caller.op + 1 }
    requires client { apart ≡ true → is_client desk.old.caller.work.clients desk.old.caller.work.id.0 ≡ true }
    requires valid { is_invalid_call monitor.now.domain.now.setup ask.now ≡ false }
    requires named { service.now ≡ ask.now.service }
    ensures goes { PerformsBy monitor.now.domain.now op (ask_by apart ask.now) desk.old desk.new }
    ensures tried { TriedAs apart monitor.now.domain.now op result desk.new }
    ensures notes { TriedNotes op result desk.old desk.new }
    ensures active { MayCall desk.new.caller }
{
    desk.look_up(monitor.rt, monitor.domain, service);
    match desk.prepare(monitor.alloc, monitor.domain, op, ask) {
        Ok(prepared) => put_on_one(monitor, desk, prepared, ask, apart),
        Err(stop) => refused_by(stop),
    }
}

// Sends the request; where all queues that are up are full it waits until one has room, and looks the service up again.
// Answers whether it was sent, or else refused.
pub(crate) fn send<W: Wait, G>(
    monitor: &Monitor<'_, W, G>,
    desk: &mut Desk,
    op: u32,
    ask: &Ask,
    service: &Name,
    apart: bool,
) -> Result<bool, Stopped>
    requires domain { IsDomain monitor.now.domain.now }
    requires ready { IsReady monitor.now.domain.now desk.old.caller.op desk.old }
    requires active { MayCall desk.old.caller }
    requires turn { op ≡ desk.old.caller.op + 1 }
    requires client { apart ≡ true → is_client desk.old.caller.work.clients desk.old.caller.work.id.0 ≡ true }
    requires valid { is_invalid_call monitor.now.domain.now.setup ask.now ≡ false }
    requires named { service.now ≡ ask.now.service }
    ensures goes { PerformsBy monitor.now.domain.now op (ask_by apart ask.now) desk.old desk.new }
    ensures sent { SentAs apart monitor.now.domain.now op result desk.new }
    ensures notes { SentNotes op result desk.old desk.new }
    ensures active { MayCall desk.new.caller }
{
    match try_to_send(monitor, desk, op, ask, service, apart)? {
        Tried::Sent => return Ok(true),
        Tried::Refused => return Ok(false),
        Tried::Full => {}
    }
    for _ in monitor.rt.forever() {
        let key = monitor.domain.waits.room.prepare_wait();
        match try_to_send(monitor, desk, op, ask, service, apart)? {
            Tried::Sent => return Ok(true),
            Tried::Refused => return Ok(false),
            Tried::Full => {}
        }
        if monitor.domain.halt.get().is_some() {
            return Err(Stopped::Elsewhere);
        }
        key.wait(monitor.rt);
    }
    unreachable!()
}
