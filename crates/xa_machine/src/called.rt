// What an event says of its caller, by kind.
ghost use Rattle.std.specs.Prelude.{◌≡◌, ◌==◌, Some};
ghost use Rattle.xa_events.specs.State.{caller_of};
ghost use Rattle.xa_events.specs.declared.event.Event.TheVariants.{Lapse};
ghost use Rattle.xa_events.specs.Caller.{closed_in, call_in, is_call_of, op_in, accepted_in, accepts_for, wants_reply, is_conversational, opens_descriptor, closes_descriptor, answers_request, reads, version_of, version_in, tick_in, tick_of, is_leave_of, gives_up, changes_priority, priority_asked};
ghost use Rattle.xa_events.specs.Conversation.{opens_connection, closes_connection, break_in, is_ending, ends_hand};

use xa_events::{Event, Evidence, Item, Lapsed, Outcome};
use xa_types::{Mode, RequestId, ServerId};

/// Whether the caller is that server's.
pub fn is_of(clients: u16, server: ServerId, caller: u32) -> bool
    ensures { result ≡ (caller_of clients server.0 == caller) }
{
    u32::from(clients) + u32::from(server.0) == caller
}

/// The caller and the number of the event's call.
pub fn call_in(event: &Event) -> Option<(u16, u32)>
    ensures { result ≡ call_in event.now }
{
    match event {
        Event::Advertise(a) => Some((a.by.0, a.op)),
        Event::Withdraw(w) => Some((w.by.0, w.op)),
        Event::Accept(a) => Some((a.by.0, a.op)),
        Event::Tick(t) => Some((t.by.0, t.op)),
        Event::Answer(a) => Some((a.by.0, a.op)),
        Event::Cancel(c) => Some((c.by.0, c.op)),
        Event::Lapse(l) => Some((l.by.0, l.op)),
        Event::Refuse(r) => Some((r.by.0, r.op)),
        Event::NotYet(n) => Some((n.by.0, n.op)),
        Event::Send(s) => Some((s.by.0, s.op)),
        Event::Receive(r) => Some((r.by.0, r.op)),
        Event::Break(b) => Some((b.by.0, b.op)),
        Event::Priority(p) => Some((p.by.0, p.op)),
        _ => None,
    }
}

/// Whether the event is of a call of the caller.
pub fn is_call_of(caller: u32, event: &Event) -> bool
    ensures { result ≡ is_call_of caller event.now }
{
    match call_in(event) {
        Some((by, op)) => u32::from(by) == caller && 0 < op,
        None => false,
    }
}

/// The number of the event's call.
pub fn op_in(event: &Event) -> u32
    ensures { result ≡ op_in event.now }
{
    match call_in(event) {
        Some((_, op)) => op,
        None => 0,
    }
}

/// The request that the event accepts.
pub fn accepted_in(event: &Event) -> Option<RequestId>
    ensures { result ≡ accepted_in (Some event.now) }
{
    match event {
        Event::Accept(a) => Some(a.request),
        _ => None,
    }
}

pub fn accepts_for(caller: u32, event: &Event) -> bool
    ensures { result ≡ accepts_for caller event.now }
{
    match event {
        Event::Accept(a) => u32::from(a.by.0) == caller,
        _ => false,
    }
}

pub fn wants_reply(mode: Mode) -> bool
    ensures { result ≡ wants_reply mode }
{
    matches!(mode, Mode::Reply)
}

pub fn is_conversational(mode: Mode) -> bool
    ensures { result ≡ is_conversational mode }
{
    matches!(mode, Mode::ConvReceives | Mode::ConvSends)
}

pub fn opens_descriptor(caller: u32, event: &Event) -> Option<RequestId>
    ensures { result ≡ opens_descriptor caller event.now }
{
    match event {
        Event::Accept(a) if u32::from(a.by.0) == caller && wants_reply(a.mode) => Some(a.request),
        _ => None,
    }
}

fn lapses(lapsed: &Lapsed) -> Option<RequestId>
    ensures { result ≡ closed_in (Lapse lapsed.entry.now) }
{
    if lapsed.of_call {
        lapsed.requests.slice().first().copied()
    } else {
        None
    }
}

pub fn closes_descriptor(caller: u32, event: &Event) -> Option<RequestId>
    ensures { result ≡ closes_descriptor caller event.now }
{
    match event {
        Event::Answer(a) if u32::from(a.by.0) == caller => Some(a.request),
        Event::Cancel(c) if u32::from(c.by.0) == caller => Some(c.request),
        Event::Lapse(l) if u32::from(l.by.0) == caller => lapses(l),
        _ => None,
    }
}

pub fn answers_request(caller: u32, event: &Event) -> Option<RequestId>
    ensures { result ≡ answers_request caller event.now }
{
    match event {
        Event::Answer(a) if u32::from(a.by.0) == caller => Some(a.request),
        _ => None,
    }
}

pub fn version_of(outcome: &Outcome) -> Option<u64>
    ensures { result ≡ version_of outcome.now }
{
    match outcome {
        Outcome::BadForward(version) if *version != 0 => Some(*version),
        _ => None,
    }
}

fn version_in(evidence: &Evidence) -> Option<u64>
    ensures { result ≡ version_in evidence.now }
{
    match evidence {
        Evidence::Version(version) | Evidence::AllDown(version) => Some(*version),
        _ => None,
    }
}

pub fn reads(clients: u16, caller: u32, event: &Event) -> Option<u64>
    ensures { result ≡ reads clients caller event.now }
{
    match event {
        Event::Advertise(a) if u32::from(a.by.0) == caller => Some(a.version),
        Event::Withdraw(w) if u32::from(w.by.0) == caller => Some(w.version),
        Event::Accept(a) if u32::from(a.by.0) == caller => Some(a.version),
        Event::Forward(f) if is_of(clients, f.server, caller) => Some(f.version),
        Event::End(e) if is_of(clients, e.server, caller) => version_of(&e.outcome),
        Event::Refuse(r) if u32::from(r.by.0) == caller => version_in(&r.evidence),
        _ => None,
    }
}

fn tick_of(evidence: &Evidence) -> Option<u64>
    ensures { result ≡ tick_of evidence.now }
{
    match evidence {
        Evidence::Clock(tick) => Some(*tick),
        Evidence::Deadline(now, _) => Some(*now),
        _ => None,
    }
}

pub fn tick_in(clients: u16, caller: u32, event: &Event) -> Option<u64>
    ensures { result ≡ tick_in clients caller event.now }
{
    match event {
        Event::Tick(t) if u32::from(t.by.0) == caller => Some(t.now),
        Event::Start(s) if is_of(clients, s.server, caller) => Some(s.tick),
        Event::StartFailed(s) if is_of(clients, s.server, caller) => Some(s.tick),
        Event::Lapse(l) if u32::from(l.by.0) == caller => Some(l.now),
        Event::Refuse(r) if u32::from(r.by.0) == caller => tick_of(&r.evidence),
        _ => None,
    }
}

pub fn is_leave_of(client: u32, event: &Event) -> bool
    ensures { result ≡ is_leave_of client event.now }
{
    match event {
        Event::Leave(c) => u32::from(c.0) == client,
        _ => false,
    }
}

pub fn gives_up(caller: u32, event: &Event) -> bool
    ensures { result ≡ gives_up caller event.now }
{
    match event {
        Event::Cancel(c) => u32::from(c.by.0) == caller && c.op == 0,
        Event::Break(b) => u32::from(b.by.0) == caller && b.op == 0,
        _ => false,
    }
}

pub fn changes_priority(clients: u16, caller: u32, event: &Event) -> bool
    ensures { result ≡ changes_priority clients caller event.now }
{
    match event {
        Event::Accept(a) => u32::from(a.by.0) == caller && !is_conversational(a.mode),
        Event::Forward(f) => is_of(clients, f.server, caller),
        Event::Priority(p) => u32::from(p.by.0) == caller,
        _ => false,
    }
}

pub fn priority_asked(event: &Event) -> Option<(bool, i32)>
    ensures { result ≡ priority_asked (Some event.now) }
{
    match event {
        Event::Priority(p) => Some((p.absolute, p.amount)),
        _ => None,
    }
}

pub fn opens_connection(caller: u32, event: &Event) -> Option<RequestId>
    ensures { result ≡ opens_connection caller event.now }
{
    match event {
        Event::Accept(a) if u32::from(a.by.0) == caller && is_conversational(a.mode) => {
            Some(a.request)
        }
        _ => None,
    }
}

pub fn is_ending(item: &Item) -> bool
    ensures { result ≡ is_ending item.now }
{
    matches!(item, Item::Ending(..))
}

pub fn ends_hand(evidence: &Evidence) -> bool
    ensures { result ≡ ends_hand evidence.now }
{
    match evidence {
        Evidence::Ended(descriptor, _, _) => *descriptor == 0,
        _ => false,
    }
}

pub fn closes_connection(caller: u32, event: &Event) -> Option<RequestId>
    ensures { result ≡ closes_connection caller event.now }
{
    match event {
        Event::Receive(r) if u32::from(r.by.0) == caller && is_ending(&r.item) => Some(r.request),
        Event::Break(b) if u32::from(b.by.0) == caller => Some(b.request),
        Event::Refuse(r) if u32::from(r.by.0) == caller => match r.evidence {
            Evidence::Ended(descriptor, _, _) if descriptor != 0 => Some(RequestId {
                caller: r.by,
                number: descriptor,
            }),
            _ => None,
        },
        _ => None,
    }
}

pub fn break_in(caller: u32, event: &Event) -> Option<RequestId>
    ensures { result ≡ break_in caller event.now }
{
    match event {
        Event::Break(b) if u32::from(b.by.0) == caller => Some(b.request),
        _ => None,
    }
}
