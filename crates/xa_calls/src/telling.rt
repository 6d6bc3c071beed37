// What the caller of a call is told.
ghost use Rattle.std.specs.Prelude.{◌≡◌, ◌∷◌, ◌++◌, true, List, []};
ghost use Rattle.xa_desk.specs.xa_events.Homes.Home.{CallerHome};
ghost use Rattle.xa_desk.specs.xa_stamp.declared.home.Stamped.{Stamped};
ghost use Rattle.xa_desk.specs.xa_worker.Crew.{stands_at};
ghost use Rattle.xa_calls.specs.Telling.{told_by_clock, told_by_error, told_of, given_of};

use xa_desk::Desk;
use xa_desk::events::Event;
use xa_desk::types::Fault;

/// What the caller of a call is told: that it is done, by which error it failed, which descriptor its request has, that it was
/// answered, for which descriptor, or 0 where it awaited the answer, or which tick the clock shows now. The answer stands as the
/// newest event at the caller's own home.
#[derive(Clone, Copy)]
pub enum Told {
    Done,
    Fault(Fault),
    Descriptor(u64),
    Answered(u64),
    Now(u64),
}

fn told_of(event: &Event) -> Told
    ensures { result ≡ told_of event.now }
{
    match event {
        Event::Refuse(refused) => Told::Fault(refused.fault),
        Event::Answer(_) => Told::Answered(0),
        _ => Told::Done,
    }
}

fn given_of(event: &Event) -> Told
    ensures { result ≡ given_of event.now }
{
    match event {
        Event::Refuse(refused) => Told::Fault(refused.fault),
        Event::NotYet(_) => Told::Fault(Fault::Block),
        Event::Answer(replied) => Told::Answered(replied.request.number),
        _ => Told::Done,
    }
}

// What its caller is told of a call that was refused with that error, or done.
pub(crate) fn told_by_error(refused: Option<Fault>) -> Told
    ensures { result ≡ told_by_error refused }
{
    match refused {
        Some(fault) => Told::Fault(fault),
        None => Told::Done,
    }
}

// What its caller is told of a tick.
pub(crate) fn told_by_clock(told: Result<u64, Fault>) -> Told
    ensures { result ≡ told_by_clock told }
{
    match told {
        Ok(tick) => Told::Now(tick),
        Err(fault) => Told::Fault(fault),
    }
}

// What its caller is told by the event that it noted last, if that stands at its own home.
pub(crate) fn told_at(desk: &Desk) -> Told
    ensures { (older : List Stamped) (x : Stamped) → desk.now.caller.work.own ≡ older ++ x ∷ [] → stands_at desk.now.caller.work.setup desk.now.caller.work.clients (CallerHome desk.now.caller.work.id.0) x ≡ true
        → result ≡ told_of x.event }
{
    match desk.caller.entries() {
        [.., newest] => told_of(&newest.event),
        [] => Told::Done,
    }
}

// What its caller is told by that event of a tpgetrply or a tpcancel.
pub(crate) fn given_at(desk: &Desk) -> Told
    ensures { (older : List Stamped) (x : Stamped) → desk.now.caller.work.own ≡ older ++ x ∷ [] → stands_at desk.now.caller.work.setup desk.now.caller.work.clients (CallerHome desk.now.caller.work.id.0) x ≡ true
        → result ≡ given_of x.event }
{
    match desk.caller.entries() {
        [.., newest] => given_of(&newest.event),
        [] => Told::Done,
    }
}
