// A server's worker that passes its request on.
ghost use Rattle.std.specs.Prelude.{◌≡◌, ℕ, ◌+◌, ◌≤◌, true, List, [], IfSome};
ghost use Rattle.xa_desk.specs.xa_types.Name.{is_name};
ghost use Rattle.xa_desk.specs.xa_events.declared.event.Event.{Event as Passed};
ghost use Rattle.xa_desk.specs.xa_events.declared.event.Taken.{Taken};
ghost use Rattle.xa_desk.specs.xa_queue.declared.entry.Entry.{Entry as EntryOf};
ghost use Rattle.xa_desk.specs.xa_caller.Drafts.{Cargo as CargoOf};
ghost use Rattle.xa_desk.specs.xa_server.Doings.{IsBusy};
ghost use Rattle.xa_desk.specs.xa_server.declared.slot.ServerSlot.{ServerSlot as Slot};
ghost use Rattle.xa_desk.specs.Desks.{IsDomain, IsDesk};
ghost use Rattle.xa_desk.specs.Found.{HasFound};
ghost use Rattle.xa_desk.specs.Passing.{IsPassing};
ghost use Rattle.xa_desk.specs.Serving.{IsServing, IsTaken};
ghost use Rattle.xa_server_worker.specs.Passing.{IsBy, TookNothing, WereTried, TriedAs, PassesAs, its_queue, halt_by};
ghost use Rattle.xa_server_worker.specs.Steps.{Steps};

use std::alloc::Global;
use std::sync::Wait;
use xa_desk::caller::{Aimed, Cargo};
use xa_desk::events::Event;
use xa_desk::pipe::Forward;
use xa_desk::queue::{Entry, Refusal};
use xa_desk::server::{Closing, Forwarding, ServerSlot};
use xa_desk::types::{Name, Octets};
use xa_desk::work::Halt;
use xa_desk::{Desk, Domain, Monitor, NotPassed};

// How the worker halts by what a queue refused for, if it does.
fn halt_by(why: Refusal) -> Option<Halt>
    ensures { result ≡ halt_by why }
{
    match why {
        Refusal::Worn(stamp) => Some(Halt::Worn(stamp)),
        Refusal::NoMemory => Some(Halt::NoMemory),
        Refusal::Down | Refusal::Closed | Refusal::Full(_) => None,
    }
}

// What one attempt to pass a request on comes to.
pub(crate) enum Tried {
    // The forward is over. If it failed, the caller is to be told.
    Passed(Option<Closing>),
    // It is out still, to be put on a queue by that event.
    Again(Entry<Cargo>, Event),
    Halted(Halt),
}

// No queue of the rows that were found took the request that is out: its forward failed.
fn fail(domain: &Domain, desk: &mut Desk, slot: &mut ServerSlot, entry: Entry<Cargo>) -> Tried
    requires domain { IsDomain domain.now }
    requires desk { IsDesk domain.now desk.old }
    requires passing { (event : Passed) × IsPassing domain.now (its_queue domain.now slot.old) entry event slot.old desk.old }
    requires tried { TookNothing domain.now desk.old desk.old.reader.found.rows }
    ensures { (service : List ℕ) (next : ℕ) → HasFound domain.now service desk.old.reader.found desk.old
        → TriedAs domain.now (its_queue domain.now slot.old) service entry.cargo.invocation.payload next result slot.old slot.new desk.old desk.new }
{
    match desk.fail_to_pass(domain, slot, entry) {
        Ok(closing) => Tried::Passed(Some(closing)),
        Err(halt) => Tried::Halted(halt),
    }
}

// Aims the request that is out by the row at that attempt, behind those that were tried; if there is none its forward failed.
fn aim_again(
    alloc: Global,
    domain: &Domain,
    desk: &mut Desk,
    slot: &mut ServerSlot,
    entry: Entry<Cargo>,
    attempt: u32,
) -> Tried
    requires domain { IsDomain domain.now }
    requires desk { IsDesk domain.now desk.old }
    requires passing { (event : Passed) × IsPassing domain.now (its_queue domain.now slot.old) entry event slot.old desk.old }
    requires tried { WereTried domain.now desk.old attempt }
    ensures { (service : List ℕ) → HasFound domain.now service desk.old.reader.found desk.old
        → TriedAs domain.now (its_queue domain.now slot.old) service entry.cargo.invocation.payload attempt result slot.old slot.new desk.old desk.new }
{
    match desk.pass_again(alloc, domain, slot, entry, attempt) {
        Aimed::At(entry, event) => Tried::Again(entry, event),
        Aimed::Past(entry) => fail(domain, desk, slot, entry),
        Aimed::NoMemory(entry) => {
            slot.retake(entry);
            Tried::Halted(Halt::NoMemory)
        }
    }
}

// Puts the request that is out on the queue that it is aimed at; if that doesn't take it, it is aimed by the row at that
// attempt, the next. At a halt it is in hand again.
fn try_to_pass<W: Wait, G>(
    monitor: &Monitor<'_, W, G>,
    desk: &mut Desk,
    slot: &mut ServerSlot,
    entry: Entry<Cargo>,
    event: Event,
    attempt: u32,
) -> Tried
    requires domain { IsDomain monitor.now.domain.now }
    requires desk { IsDesk monitor.now.domain.now desk.old }
    requires passing { IsPassing monitor.now.domain.now (its_queue monitor.now.domain.now slot.old) entry event slot.old desk.old }
    requires tried { (n : ℕ) × (attempt ≤ n + 1) × IsBy desk.old n event × WereTried monitor.now.domain.now desk.old n }
    ensures { (service : List ℕ) → HasFound monitor.now.domain.now service desk.old.reader.found desk.old
        → TriedAs monitor.now.domain.now (its_queue monitor.now.domain.now slot.old) service entry.cargo.invocation.payload attempt result slot.old slot.new desk.old desk.new }
{
    match desk.pass(monitor.rt, monitor.domain, slot, entry, event) {
        Ok(queue) => {
            monitor.domain.wake_server(queue);
            Tried::Passed(None)
        }
        Err(not_passed) => {
            let NotPassed {
                queue: _,
                entry,
                why,
            } = not_passed;
            match halt_by(why) {
                None => aim_again(monitor.alloc, monitor.domain, desk, slot, entry, attempt),
                Some(halt) => {
                    slot.retake(entry);
                    Tried::Halted(halt)
                }
            }
        }
    }
}

// Puts the request that is out on the first queue that takes it. If none does its forward failed, and its caller is to be
// told. At a halt it is in hand again.
fn pass_on<W: Wait, G>(
    monitor: &Monitor<'_, W, G>,
    desk: &mut Desk,
    slot: &mut ServerSlot,
    first: Entry<Cargo>,
    first_event: Event,
) -> Result<Option<Closing>, Halt>
    requires domain { IsDomain monitor.now.domain.now }
    requires desk { IsDesk monitor.now.domain.now desk.old }
    requires passing { IsPassing monitor.now.domain.now (its_queue monitor.now.domain.now slot.old) first first_event slot.old desk.old }
    requires first { IsBy desk.old 0 first_event }
    ensures { (service : List ℕ) → HasFound monitor.now.domain.now service desk.old.reader.found desk.old
        → PassesAs monitor.now.domain.now (its_queue monitor.now.domain.now slot.old) service first.cargo.invocation.payload result slot.old slot.new desk.old desk.new }
{
    let mut entry = first;
    let mut event = first_event;
    let mut attempt = 0u32;
    for _ in monitor.rt.forever() {
        attempt = attempt.saturating_add(1);
        match try_to_pass(monitor, desk, slot, entry, event, attempt) {
            Tried::Passed(closing) => return Ok(closing),
            Tried::Halted(halt) => return Err(halt),
            Tried::Again(next, next_event) => {
                entry = next;
                event = next_event;
            }
        }
    }
    unreachable!()
}

// Looks up the service of that name, if it is a name.
fn look_up<W: Wait, G>(monitor: &Monitor<'_, W, G>, desk: &mut Desk, service: &Octets)
    requires domain { IsDomain monitor.now.domain.now }
    requires desk { IsDesk monitor.now.domain.now desk.old }
    ensures steps { Steps monitor.now.domain.now [] desk.old desk.new }
    ensures own { desk.new.caller.work.own ≡ desk.old.caller.work.own }
    ensures seat { desk.new.caller.seat ≡ desk.old.caller.seat }
    ensures found { is_name service.now ≡ true → HasFound monitor.now.domain.now service.now desk.new.reader.found desk.new }
    ensures serving { (queue : ℕ) (slot : Slot) → IsServing monitor.now.domain.now queue slot desk.old → IsServing monitor.now.domain.now queue slot desk.new }
    ensures taken { (queue : ℕ) (t : Taken) (entry : EntryOf CargoOf) → IsTaken monitor.now.domain.now queue t desk.old entry → IsTaken monitor.now.domain.now queue t desk.new entry }
{
    if let Ok(name) = Name::read(service.slice()) {
        desk.look_up(monitor.rt, monitor.domain, &name);
    }
}

/// The service forwards the request in hand: it goes on to a queue of the service that is named, or its forward failed, and
/// its caller is to be told. At a halt it is in hand still.
pub(crate) fn forward<W: Wait, G>(
    monitor: &Monitor<'_, W, G>,
    desk: &mut Desk,
    slot: &mut ServerSlot,
    forwards: Forward,
) -> Result<Option<Closing>, Halt>
    requires domain { IsDomain monitor.now.domain.now }
    requires desk { IsDesk monitor.now.domain.now desk.old }
    requires serving { (t : Taken) × IsServing monitor.now.domain.now (its_queue monitor.now.domain.now slot.old) slot.old desk.old × IfSome slot.old.hand (IsTaken monitor.now.domain.now (its_queue monitor.now.domain.now slot.old) t desk.old) }
    requires busy { IsBusy slot.old.doing }
    ensures { PassesAs monitor.now.domain.now (its_queue monitor.now.domain.now slot.old) forwards.service forwards.payload result slot.old slot.new desk.old desk.new }
{
    let Forward { service, payload } = forwards;
    look_up(monitor, desk, &service);
    match desk.forward(monitor.alloc, monitor.domain, slot, &service, payload) {
        Ok(Forwarding::Failed(closing)) => Ok(Some(closing)),
        Ok(Forwarding::On(entry, event)) => pass_on(monitor, desk, slot, entry, event),
        Err(halt) => Err(halt),
    }
}
