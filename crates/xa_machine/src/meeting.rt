// What an end of a conversation finds of the other: a message that was sent, or how that end closed.
ghost use Rattle.std.specs.Prelude.{◌≡◌, pos, List, reverse};
ghost use Rattle.std.specs.Bool.{Decides};
ghost use Rattle.xa_types.specs.declared.data.Data.TheVariants.{Absent};
ghost use Rattle.xa_types.specs.declared.ids.RequestId.{RequestId as Named};
ghost use Rattle.xa_events.specs.declared.event.Event.{Event as Noted};
ghost use Rattle.xa_events.specs.Words.{Was};
ghost use Rattle.xa_events.specs.Cases.{BeganAt};
ghost use Rattle.xa_events.specs.Conversation.{end_done, event_of, side_of, IsClosing, IsSent, ToldByEnd};
ghost use Rattle.xa_machine.specs.Ends.{counted, side_at, Tells, TellsBegun};

use crate::ending::{has_kind, same_data};
use crate::talking::{Begun, Done, HeldEnd, done_of, is_of_service, same_end, turn_is};
use crate::words::{either, same_request};
use xa_events::{Event, Item, Outcome};
use xa_types::{ConvEvent, Data, RequestId};

/// An end of a conversation that has sent so many messages.
#[derive(Clone, Copy)]
pub struct Sender {
    pub service: bool,
    pub request: RequestId,
    pub sent: usize,
}

// Whether the caller means that end, and sent so many messages there.
fn is_sender(before: &[Event], caller: u32, sender: Sender) -> bool
    ensures { Decides result ((side_of caller sender.request (reverse before.now) ≡ side_at sender.service)
        × ((end_done caller (side_at sender.service) sender.request (reverse before.now)).sent ≡ sender.sent)) }
{
    same_end(
        is_of_service(before, caller, sender.request),
        sender.service,
    ) && has_sent(before, caller, sender)
}

// Whether the caller sent so many messages at that end.
fn has_sent(before: &[Event], caller: u32, sender: Sender) -> bool
    ensures { Decides result ((end_done caller (side_at sender.service) sender.request (reverse before.now)).sent ≡ sender.sent) }
{
    done_by(before, caller, sender).sent == sender.sent
}

fn done_by(before: &[Event], caller: u32, sender: Sender) -> Done
    ensures { counted result ≡ end_done caller (side_at sender.service) sender.request (reverse before.now) }
{
    done_of(
        before,
        HeldEnd {
            caller,
            service: sender.service,
            request: sender.request,
        },
    )
}

// Whether the event sends that message, as the next of that end.
fn is_sent(event: &Event, before: &[Event], sender: Sender, payload: &Data, passes: bool) -> bool
    ensures { Decides result (IsSent (side_at sender.service) sender.request sender.sent payload.now passes event.now (reverse before.now)) }
{
    match event {
        Event::Send(s) => {
            same_request(s.request, sender.request)
                && s.passes == passes
                && same_data(&s.payload, payload)
                && is_sender(before, u32::from(s.by.0), sender)
        }
        _ => false,
    }
}

/// Whether that end sent the message as its next.
pub fn was_sent(events: &[Event], sender: Sender, payload: &Data, passes: bool) -> bool
    ensures { Decides result (Was (IsSent (side_at sender.service) sender.request sender.sent payload.now passes) (reverse events.now)) }
{
    let mut found = false;
    for (i, event) in events.iter().enumerate() {
        found = either(is_sent(event, &events[..i], sender, payload, passes), found);
    }
    found
}

fn same_event(a: ConvEvent, b: ConvEvent) -> bool
    ensures { Decides result (a ≡ b) }
{
    match a {
        ConvEvent::DisconImm => matches!(b, ConvEvent::DisconImm),
        ConvEvent::SendOnly => matches!(b, ConvEvent::SendOnly),
        ConvEvent::SvcErr => matches!(b, ConvEvent::SvcErr),
        ConvEvent::SvcFail => matches!(b, ConvEvent::SvcFail),
        ConvEvent::SvcSucc => matches!(b, ConvEvent::SvcSucc),
        ConvEvent::NoMemory => matches!(b, ConvEvent::NoMemory),
    }
}

// Whether the item tells of that ending: the whole of it, or its event alone.
fn tells(item: &Item, whole: bool, event: ConvEvent, code: i32, payload: &Data) -> bool
    ensures { Decides result (Tells whole item.now (event, code, payload.now)) }
{
    match item {
        Item::Message(..) => false,
        Item::Ending(told, with, data) => {
            same_event(event, *told) && (!whole || code == *with && same_data(payload, data))
        }
    }
}

// The same, of an ending with no code and no data.
fn tells_event(item: &Item, whole: bool, event: ConvEvent) -> bool
    ensures { Decides result (Tells whole item.now (event, pos 0, Absent)) }
{
    match item {
        Item::Message(..) => false,
        Item::Ending(told, with, data) => {
            same_event(event, *told) && (!whole || *with == 0 && !has_kind(data))
        }
    }
}

// Whether the item tells how the request ended at a service that had control then, or hadn't.
fn tells_end(item: &Item, whole: bool, outcome: &Outcome, control: bool) -> bool
    ensures { Decides result (Tells whole item.now (event_of outcome.now control)) }
{
    match outcome {
        Outcome::Returned(code, payload) if control => {
            tells(item, whole, ConvEvent::SvcSucc, *code, payload)
        }
        Outcome::Failed(code, payload) if control || !has_kind(payload) => {
            tells(item, whole, ConvEvent::SvcFail, *code, payload)
        }
        Outcome::Died => tells_event(item, whole, ConvEvent::DisconImm),
        Outcome::Starved => tells_event(item, whole, ConvEvent::NoMemory),
        _ => tells_event(item, whole, ConvEvent::SvcErr),
    }
}

// Whether the item tells how the request ended, by who had control at the service's end.
fn tells_by_turn(
    item: &Item,
    whole: bool,
    outcome: &Outcome,
    turn: Option<bool>,
    begun: Begun,
) -> bool
    ensures { (request : Named) (past : List Noted) → TellsBegun begun request past → Decides result (ToldByEnd outcome.now turn (BeganAt request past) (Tells whole item.now)) }
{
    turn_is(true, true, turn, begun) && tells_end(item, whole, outcome, true)
        || turn_is(false, true, turn, begun) && tells_end(item, whole, outcome, false)
}

// Whether the event closes that end, so that the item tells of it.
fn is_closing(
    event: &Event,
    before: &[Event],
    clients: u16,
    sender: Sender,
    begun: Begun,
    item: &Item,
    whole: bool,
) -> bool
    ensures { (past : List Noted) → TellsBegun begun sender.request past →
        Decides result (IsClosing clients (side_at sender.service) sender.request sender.sent (BeganAt sender.request past) (Tells whole item.now) event.now (reverse before.now)) }
{
    match event {
        Event::End(e) if sender.service => {
            same_request(e.request, sender.request)
                && {
                    let done = done_by(before, u32::from(clients) + u32::from(e.server.0), sender);
                    done.sent == sender.sent
                        && tells_by_turn(item, whole, &e.outcome, done.turn, begun)
                }
        }
        Event::Sweep(x) if sender.service => {
            same_request(x.request, sender.request)
                && sender.sent == 0
                && tells_event(item, whole, ConvEvent::DisconImm)
        }
        Event::Break(b) if !sender.service => {
            same_request(b.request, sender.request)
                && has_sent(before, u32::from(b.by.0), sender)
                && tells_event(item, whole, ConvEvent::DisconImm)
        }
        _ => false,
    }
}

/// Whether that end closed, so that the item tells of it: the whole of its ending, or its event alone.
pub fn was_closed(
    events: &[Event],
    clients: u16,
    sender: Sender,
    begun: Begun,
    item: &Item,
    whole: bool,
) -> bool
    ensures { (past : List Noted) → TellsBegun begun sender.request past →
        Decides result (Was (IsClosing clients (side_at sender.service) sender.request sender.sent (BeganAt sender.request past) (Tells whole item.now)) (reverse events.now)) }
{
    let mut found = false;
    for (i, event) in events.iter().enumerate() {
        found = either(
            is_closing(event, &events[..i], clients, sender, begun, item, whole),
            found,
        );
    }
    found
}
