// The transcript of a history: the lines of each client.
ghost use Rattle.std.specs.Prelude.{◌≡◌, ◌++◌, ◌∷◌, ◌+◌, ◌<◌, ◌==◌, ◌↔◌, ℕ, true, false, List, length, reverse, IsTrue, OnOk, IfOk, MatchOption};
ghost use Rattle.xa_events.specs.declared.event.Event.{Event};
ghost use Rattle.xa_events.specs.Caller.{call_in, is_call_of, op_in, last_op};
ghost use Rattle.xa_events.specs.Said.{descriptor_given, descriptor_of, refusal_reply, item_reply, reply_shown_by};
ghost use Rattle.xa_text.specs.Line.{reply_text, line_text};
ghost use Rattle.std.specs.List.{All, flat_map};
ghost use Rattle.xa_text.specs.Telling.{IsTold, IsFresh, AreTold};
ghost use Rattle.xa_text.specs.InTurn.{IsInTurn, CallsInTurn, AllInTurn};
ghost use Rattle.xa_text.specs.Transcript.{transcript};

use crate::line::{
    push_answered, push_call, push_done, push_event, push_fault, push_given, push_message,
    push_now, push_text,
};
use std::alloc::Global;
use xa_events::{Accepted, Event, Evidence, Item, Refused, Replied};
use xa_types::{Answer, ConvEvent, Data, Fault, Mode, Name, NoMemory, Octets};

// The caller of the event and the number of its call, where it belongs to one.
fn call_in(event: &Event) -> Option<(u16, u32)>
    ensures { result ≡ call_in event.now }
{
    match event {
        Event::Advertise(e) => Some((e.by.0, e.op)),
        Event::Withdraw(e) => Some((e.by.0, e.op)),
        Event::Accept(e) => Some((e.by.0, e.op)),
        Event::Tick(e) => Some((e.by.0, e.op)),
        Event::Answer(e) => Some((e.by.0, e.op)),
        Event::Cancel(e) => Some((e.by.0, e.op)),
        Event::Lapse(e) => Some((e.by.0, e.op)),
        Event::Refuse(e) => Some((e.by.0, e.op)),
        Event::NotYet(e) => Some((e.by.0, e.op)),
        Event::Send(e) => Some((e.by.0, e.op)),
        Event::Receive(e) => Some((e.by.0, e.op)),
        Event::Break(e) => Some((e.by.0, e.op)),
        Event::Priority(e) => Some((e.by.0, e.op)),
        Event::Take(_)
        | Event::Forward(_)
        | Event::Sweep(_)
        | Event::Gone(_)
        | Event::Down(_)
        | Event::Close(_)
        | Event::Start(_)
        | Event::StartFailed(_)
        | Event::End(_)
        | Event::Stop(_)
        | Event::Leave(_) => None,
    }
}

// The number of the client's call to which the event belongs, if it does; no call has the number 0.
fn call_of(event: &Event, client: usize) -> Option<u32>
    ensures { MatchOption result (is_call_of client event.now ≡ false) (λ op. (is_call_of client event.now ≡ true) × (op ≡ op_in event.now)) }
{
    match call_in(event) {
        Some((by, op)) if usize::from(by) == client && op > 0 => Some(op),
        _ => None,
    }
}

// Of which caller's call the event is, where it is of one; no call has the number 0.
fn maker_of(event: &Event) -> Option<u16>
    ensures { MatchOption result ((client : ℕ) → is_call_of client event.now ≡ false) (λ by. (client : ℕ) → is_call_of client event.now ≡ (by == client)) }
{
    match call_in(event) {
        Some((by, op)) if op > 0 => Some(by),
        _ => None,
    }
}

fn descriptor_given(accepted: &Accepted) -> u64
    ensures { result ≡ descriptor_given accepted.now.mode accepted.now.request.number }
{
    match accepted.mode {
        Mode::NoReply => 0,
        Mode::Reply | Mode::ConvReceives | Mode::ConvSends => accepted.request.number,
    }
}

// The descriptor that an answer tells, where `before` is the number of its caller's last call before.
fn descriptor_of(answered: &Replied, before: u32) -> u64
    ensures { (past : List Event) → before ≡ last_op answered.now.by.0 past → result ≡ descriptor_of answered.now past }
{
    if before == answered.op {
        return 0;
    }
    answered.request.number
}

fn push_refusal(out: &mut Vec<u8>, refused: &Refused) -> Result<(), NoMemory>
    ensures { OnOk result (out.new.items ≡ out.old.items ++ reply_text (refusal_reply refused.now.fault refused.now.evidence)) }
{
    match refused.evidence {
        Evidence::Ended(_, event, _) => push_event(out, event, 0, &Data::Absent),
        _ => push_fault(out, refused.fault),
    }
}

fn push_item(out: &mut Vec<u8>, item: &Item) -> Result<(), NoMemory>
    ensures { OnOk result (out.new.items ≡ out.old.items ++ reply_text (item_reply item.now)) }
{
    match item {
        Item::Message(payload, true) => push_event(out, ConvEvent::SendOnly, 0, payload),
        Item::Message(payload, false) => push_message(out, payload),
        Item::Ending(event, code, payload) => push_event(out, *event, *code, payload),
    }
}

// Puts what the event tells of its call at the end, where `before` is the number of its caller's last call before.
fn push_shown(out: &mut Vec<u8>, event: &Event, before: u32) -> Result<(), NoMemory>
    ensures { OnOk result ((client : ℕ) (past : List Event) → is_call_of client event.now ≡ true → before ≡ last_op client past
        → out.new.items ≡ out.old.items ++ reply_text (reply_shown_by event.now past)) }
{
    match event {
        Event::Accept(accepted) => push_given(out, descriptor_given(accepted)),
        Event::Tick(ticked) => push_now(out, ticked.now),
        Event::Answer(answered) => {
            push_answered(out, descriptor_of(answered, before), &answered.answer)
        }
        Event::Lapse(_) => push_fault(out, Fault::Time),
        Event::Refuse(refused) => push_refusal(out, refused),
        Event::NotYet(_) => push_fault(out, Fault::Block),
        Event::Receive(received) => push_item(out, &received.item),
        Event::Advertise(_)
        | Event::Withdraw(_)
        | Event::Take(_)
        | Event::Forward(_)
        | Event::Sweep(_)
        | Event::Gone(_)
        | Event::Down(_)
        | Event::Close(_)
        | Event::Start(_)
        | Event::StartFailed(_)
        | Event::End(_)
        | Event::Stop(_)
        | Event::Cancel(_)
        | Event::Leave(_)
        | Event::Send(_)
        | Event::Break(_)
        | Event::Priority(_) => push_done(out),
    }
}

fn push_shown_line(
    out: &mut Vec<u8>,
    name: &Name,
    op: u32,
    event: &Event,
    before: u32,
) -> Result<(), NoMemory>
    ensures { OnOk result ((client : ℕ) (past : List Event) → is_call_of client event.now ≡ true → before ≡ last_op client past
        → out.new.items ≡ out.old.items ++ line_text name.now op (reply_shown_by event.now past)) }
{
    push_call(out, name, op)?;
    push_shown(out, event, before)?;
    push_text(out, b"\n")
}

// How far a client's lines have come: the number of its last call, 0 before the first, and where the line of that call
// begins.
#[derive(Clone, Copy)]
struct Place {
    op: u32,
    start: usize,
}

impl Place {
    // Where the line of that call begins: where it stands already, or at the end.
    fn start_of(self, op: u32, end: usize) -> usize
        ensures same { op ≡ self.op → result ≡ self.start }
        ensures next { (op ≡ self.op → ⊥) → result ≡ end }
    {
        if op == self.op { self.start } else { end }
    }
}

// Goes on to the next event: the line of the client's call to which it belongs takes the place of an earlier one.
fn tell(
    out: &mut Vec<u8>,
    place: Place,
    name: &Name,
    client: usize,
    event: &Event,
) -> Result<Place, NoMemory>
    ensures { IfOk result (λ now. (front : List ℕ) (past : List Event) → IsTold front name.now client past place.op place.start out.old.items
        → IsInTurn client event.now past → IsTold front name.now client (event.now ∷ past) now.op now.start out.new.items) }
{
    let Some(op) = call_of(event, client) else {
        return Ok(place);
    };
    let start = place.start_of(op, out.len());
    out.truncate(start);
    push_shown_line(out, name, op, event, place.op)?;
    Ok(Place { op, start })
}

// The lines of a client so far, and how far they have come.
#[derive(Drop)]
struct Told {
    text: Vec<u8>,
    place: Place,
}

// Goes on to the next event, for the client of whose call it is, if it is of one.
fn tell_maker(told: &mut Vec<Told>, names: &[Name], event: &Event) -> Result<(), NoMemory>
    requires { length told.old.items ≡ length names.now }
    ensures { OnOk result ((past : List Event) → ((client : ℕ) → 0 < client → client < length names.now + 1 → IsInTurn client event.now past)
        → AreTold names.now past told.old.items → AreTold names.now (event.now ∷ past) told.new.items) }
{
    let Some(by) = maker_of(event) else {
        return Ok(());
    };
    let by = usize::from(by);
    if 0 < by && by <= told.len() {
        let own = &mut told[by - 1];
        own.place = tell(&mut own.text, own.place, &names[by - 1], by, event)?;
    }
    Ok(())
}

fn none_told(alloc: Global, clients: usize) -> Result<Vec<Told>, NoMemory>
    ensures len { IfOk result (λ told. length told.items ≡ clients) }
    ensures fresh { IfOk result (λ told. All IsFresh told.items) }
{
    let mut all = Vec::with_capacity(alloc, clients)?;
    for _ in 0..clients {
        let place = Place { op: 0, start: 0 };
        let text = Vec::new(alloc);
        all.push_reserved(Told { text, place });
    }
    Ok(all)
}

// The lines of the clients with these names, by all events of a history.
fn all_told(alloc: Global, history: &[Event], names: &[Name]) -> Result<Vec<Told>, NoMemory>
    requires { AllInTurn (length names.now) (reverse history.now) }
    ensures { IfOk result (λ told. AreTold names.now (reverse history.now) told.items) }
{
    let mut told = none_told(alloc, names.len())?;
    for event in history {
        tell_maker(&mut told, names, event)?;
    }
    Ok(told)
}

// The number of the client's last call behind the event, where `last` is that before it; None where it is out of turn.
fn last_behind(event: &Event, client: usize, last: u32) -> Option<u32>
    ensures { (past : List Event) → last ≡ last_op client past
        → MatchOption result (IsInTurn client event.now past → ⊥) (λ now. IsInTurn client event.now past × (now ≡ last_op client (event.now ∷ past))) }
{
    match call_of(event, client) {
        None => Some(last),
        Some(op) if op == last || op - 1 == last => Some(op),
        Some(_) => None,
    }
}

fn client_in_turn(history: &[Event], client: usize) -> bool
    ensures { IsTrue result ↔ CallsInTurn client (reverse history.now) }
{
    let mut last = 0u32;
    for event in history {
        let Some(now) = last_behind(event, client, last) else {
            return false;
        };
        last = now;
    }
    true
}

/// Whether the history, whose events stand in the order in which they were made, has a transcript of so many clients:
/// the calls of each are numbered one by one, and an event of a call is of the last one or of the next. The clients are
/// the callers from 1 on.
pub fn calls_in_turn(history: &[Event], clients: usize) -> bool
    ensures { IsTrue result ↔ AllInTurn clients (reverse history.now) }
{
    for client in 1..=clients {
        if !client_in_turn(history, client) {
            return false;
        }
    }
    true
}

/// The transcript of a history, whose events stand in the order in which they were made: the lines of the clients with
/// these names, one client after another, and of each a line for each of its calls, of what the call was told by its
/// newest event. It comes in pieces, which make it one after another. The clients are the callers from 1 on. The one error
/// is that memory runs out.
pub fn transcript(alloc: Global, history: &[Event], names: &[Name]) -> Result<Vec<Octets>, NoMemory>
    requires { AllInTurn (length names.now) (reverse history.now) }
    ensures { IfOk result (λ pieces. flat_map (λ piece. piece) pieces.items ≡ transcript names.now (reverse history.now)) }
{
    let told = all_told(alloc, history, names)?;
    let mut pieces = Vec::with_capacity(alloc, told.len())?;
    for Told { text, .. } in told {
        pieces.push_reserved(Octets::from_vec(text));
    }
    Ok(pieces)
}
