// What the ends of a conversation did, read off all events.
ghost use Rattle.std.specs.Prelude.{◌≡◌, ◌+◌, ℕ, List, reverse};
ghost use Rattle.std.specs.Bool.{Decides};
ghost use Rattle.xa_types.specs.declared.ids.RequestId.{RequestId as Named};
ghost use Rattle.xa_events.specs.declared.event.Event.{Event as Noted};
ghost use Rattle.xa_events.specs.Words.{has};
ghost use Rattle.xa_events.specs.Cases.{BeganAt};
ghost use Rattle.xa_events.specs.Conversation.{after_item, after_send, begins_with, broken, done_after, end_done, is_at_end, is_begun, same_side, side_from, side_of, TurnIs};
ghost use Rattle.xa_machine.specs.Ends.{breaks, counted, side_at, IsFew, TellsBegun};

use crate::words::{either, same_request};
use xa_events::{Event, Item};
use xa_types::{CallerId, Mode, RequestId};

/// An end of a conversation, as a caller has it: the service's, or the originator's.
#[derive(Clone, Copy)]
pub struct HeldEnd {
    pub caller: u32,
    pub service: bool,
    pub request: RequestId,
}

/// How many messages an end sent and received; and of the messages that passed control the last: whether it came to
/// this end.
#[derive(Clone, Copy)]
pub struct Done {
    pub sent: usize,
    pub received: usize,
    pub turn: Option<bool>,
}

/// Whether a conversation began with control at its originator, and at its service.
#[derive(Clone, Copy)]
pub struct Begun {
    pub originator: bool,
    pub service: bool,
}

fn breaks(caller: u32, request: RequestId, event: &Event) -> bool
    ensures { result ≡ breaks caller request event.now }
{
    match event {
        Event::Break(b) => u32::from(b.by.0) == caller && same_request(request, b.request),
        _ => false,
    }
}

/// Whether the caller broke the conversation.
pub fn was_broken(events: &[Event], caller: u32, request: RequestId) -> bool
    ensures { result ≡ has request (broken caller (reverse events.now)) }
{
    let mut found = false;
    for event in events {
        found = either(breaks(caller, request, event), found);
    }
    found
}

/// Whether a caller that broke the conversation, or didn't, means the service's end of it.
pub fn means_service(caller: u32, request: RequestId, broke: bool) -> bool
    ensures { (all : List Named) → has request all ≡ broke → side_at result ≡ side_from caller request all }
{
    broke || caller != u32::from(request.caller.0)
}

/// Whether the caller means the service's end of the conversation.
pub fn is_of_service(events: &[Event], caller: u32, request: RequestId) -> bool
    ensures { side_at result ≡ side_of caller request (reverse events.now) }
{
    means_service(caller, request, was_broken(events, caller, request))
}

/// Whether both are the same end of a conversation.
pub fn same_end(service: bool, other: bool) -> bool
    ensures same { result ≡ same_side (side_at service) (side_at other) }
    ensures equal { Decides result (side_at service ≡ side_at other) }
{
    if service { other } else { !other }
}

fn is_at_end(end: HeldEnd, by: CallerId, named: RequestId, broke: bool) -> bool
    ensures { (all : List Named) → has end.request all ≡ broke → result ≡ is_at_end end.caller (side_at end.service) end.request by.0 named all }
{
    u32::from(by.0) == end.caller
        && same_request(named, end.request)
        && same_end(end.service, means_service(end.caller, end.request, broke))
}

fn after_send(done: Done, passes: bool) -> Done
    requires { IsFew done 18446744073709551615 }
    ensures same { counted result ≡ after_send passes (counted done) }
    ensures few { (n : ℕ) → IsFew done n → IsFew result (n + 1) }
{
    Done {
        sent: done.sent + 1,
        received: done.received,
        turn: if passes { Some(false) } else { done.turn },
    }
}

fn after_item(done: Done, item: &Item) -> Done
    requires { IsFew done 18446744073709551615 }
    ensures same { counted result ≡ after_item item.now (counted done) }
    ensures few { (n : ℕ) → IsFew done n → IsFew result (n + 1) }
{
    match item {
        Item::Message(_, passes) => Done {
            sent: done.sent,
            received: done.received + 1,
            turn: if *passes { Some(true) } else { done.turn },
        },
        Item::Ending(..) => done,
    }
}

fn done_after(done: Done, end: HeldEnd, event: &Event, broke: bool) -> Done
    requires { IsFew done 18446744073709551615 }
    ensures same { (all : List Named) → has end.request all ≡ broke → counted result ≡ done_after end.caller (side_at end.service) end.request event.now all (counted done) }
    ensures few { (n : ℕ) → IsFew done n → IsFew result (n + 1) }
{
    match event {
        Event::Send(s) if is_at_end(end, s.by, s.request, broke) => after_send(done, s.passes),
        Event::Receive(r) if is_at_end(end, r.by, r.request, broke) => after_item(done, &r.item),
        _ => done,
    }
}

/// What a caller did at that end.
pub fn done_of(events: &[Event], end: HeldEnd) -> Done
    ensures { counted result ≡ end_done end.caller (side_at end.service) end.request (reverse events.now) }
{
    let mut done = Done {
        sent: 0,
        received: 0,
        turn: None,
    };
    let mut broke = false;
    for event in events {
        done = done_after(done, end, event, broke);
        broke = either(breaks(end.caller, end.request, event), broke);
    }
    done
}

fn begins_with(service: bool, request: RequestId, event: &Event) -> bool
    ensures { result ≡ begins_with (side_at service) request event.now }
{
    match event {
        Event::Accept(a) => {
            same_request(a.request, request)
                && match a.mode {
                    Mode::ConvReceives => !service,
                    Mode::ConvSends => service,
                    _ => false,
                }
        }
        _ => false,
    }
}

fn is_begun(events: &[Event], service: bool, request: RequestId) -> bool
    ensures { result ≡ is_begun (side_at service) request (reverse events.now) }
{
    let mut found = false;
    for event in events {
        found = either(begins_with(service, request, event), found);
    }
    found
}

/// How the conversation began.
pub fn how_begun(events: &[Event], request: RequestId) -> Begun
    ensures { TellsBegun result request (reverse events.now) }
{
    Begun {
        originator: is_begun(events, false, request),
        service: is_begun(events, true, request),
    }
}

/// Whether the end has control, or hasn't, by the last message that passed it and by how the conversation began.
pub fn turn_is(control: bool, service: bool, turn: Option<bool>, begun: Begun) -> bool
    ensures { (request : Named) (past : List Noted) → TellsBegun begun request past → Decides result (TurnIs control (side_at service) turn (BeganAt request past)) }
{
    match turn {
        Some(has) => has == control,
        None => {
            if control == service {
                begun.service
            } else {
                begun.originator
            }
        }
    }
}
