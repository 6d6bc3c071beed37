// The line of an event.
ghost use Rattle.std.specs.Prelude.{◌≡◌, ◌^◌, ◌<◌, ◌++◌, ◌∷◌, [], OnOk, IfOk, decimal};
ghost use Rattle.xa_types.specs.Name.{IsName};
ghost use Rattle.std.specs.List.{flat_map};
ghost use Rattle.xa_events.specs.declared.event.Event.TheVariants as events;
ghost use Rattle.xa_lines.specs.Line.{spaced, joined, mode_word, data_words, line_of, event_words, IsCall, IsLife, IsData, IsOutcome, IsCause, IsAnswer, IsEvidence, IsItem, IsEvent, outcome_words, cause_words, answer_words, item_words, evidence_words};

use crate::spelling::{
    put, put_coded, put_data, put_mode, put_number, put_request, put_requests, put_signed,
    put_truth,
};
use std::alloc::Global;
use xa_events::{
    Accepted, Advertised, Broken, Cancelled, Ended, Event, Evidence, Forwarded, Item, Lapsed,
    Outcome, Prioritized, Received, Refused, Replied, Sent, Started, StopCause, Stopped, Swept,
    Taken, Ticked, Unready, Withdrawn,
};
use xa_types::{
    Answer, CallerId, Data, Generation, Mode, Name, NoMemory, Octets, QueueId, ServerId,
};

// Puts the first word of a line at the end.
fn begin(out: &mut Vec<u8>, word: &[u8]) -> Result<(), NoMemory>
    ensures { OnOk result (out.new.items ≡ out.old.items ++ word.now) }
{
    Ok(out.extend_from_slice(word)?)
}

// Puts a caller and the number of its call.
fn put_call(out: &mut Vec<u8>, by: CallerId, op: u32) -> Result<(), NoMemory>
    ensures text { OnOk result (out.new.items ≡ out.old.items ++ flat_map spaced (decimal by.0 ∷ decimal op ∷ [])) }
    ensures fits { OnOk result (IsCall by.0 op) }
{
    put_number(out, u64::from(by.0))?;
    put_number(out, u64::from(op))
}

// Puts a life of a server.
fn put_life(out: &mut Vec<u8>, server: ServerId, generation: Generation) -> Result<(), NoMemory>
    ensures text { OnOk result (out.new.items ≡ out.old.items ++ flat_map spaced (decimal server.0 ∷ decimal generation.0 ∷ [])) }
    ensures fits { OnOk result (IsLife server.0 generation.0) }
{
    put_number(out, u64::from(server.0))?;
    put_number(out, generation.0)
}

// Puts where a request goes: by which version of the board, for which service, to which queue, routine and priority.
fn put_way(
    out: &mut Vec<u8>,
    version: u64,
    service: &Name,
    queue: QueueId,
    routine: &Name,
    priority: u8,
) -> Result<(), NoMemory>
    ensures text { OnOk result (out.new.items ≡ out.old.items
        ++ flat_map spaced (decimal version ∷ service.now ∷ decimal queue.0 ∷ routine.now ∷ decimal priority ∷ [])) }
    ensures fits { OnOk result ((version < 2 ^ 64) × IsName service.now × (queue.0 < 2 ^ 16) × IsName routine.now × (priority < 2 ^ 8)) }
{
    put_number(out, version)?;
    put(out, service.octets())?;
    put_number(out, u64::from(queue.0))?;
    put(out, routine.octets())?;
    put_number(out, u64::from(priority))
}

fn put_advertise(out: &mut Vec<u8>, e: &Advertised) -> Result<(), NoMemory>
    ensures text { OnOk result (out.new.items ≡ out.old.items ++ joined (event_words (events.Advertise e.now))) }
    ensures fits { OnOk result (IsEvent (events.Advertise e.now)) }
{
    begin(out, b"Advertise")?;
    put_call(out, e.by, e.op)?;
    put(out, e.service.octets())?;
    put_number(out, u64::from(e.queue.0))?;
    put(out, e.routine.octets())?;
    put_number(out, e.version)
}

fn put_withdraw(out: &mut Vec<u8>, e: &Withdrawn) -> Result<(), NoMemory>
    ensures text { OnOk result (out.new.items ≡ out.old.items ++ joined (event_words (events.Withdraw e.now))) }
    ensures fits { OnOk result (IsEvent (events.Withdraw e.now)) }
{
    begin(out, b"Withdraw")?;
    put_call(out, e.by, e.op)?;
    put(out, e.service.octets())?;
    put_number(out, u64::from(e.queue.0))?;
    put_number(out, e.version)
}

// Puts what a service is invoked for, and with what data.
fn put_work(out: &mut Vec<u8>, mode: Mode, payload: &Data) -> Result<(), NoMemory>
    ensures text { OnOk result (out.new.items ≡ out.old.items ++ flat_map spaced (mode_word mode ∷ data_words payload.now)) }
    ensures fits { OnOk result (IsData payload.now) }
{
    put_mode(out, mode)?;
    put_data(out, payload)
}

fn put_accept(out: &mut Vec<u8>, e: &Accepted) -> Result<(), NoMemory>
    ensures text { OnOk result (out.new.items ≡ out.old.items ++ joined (event_words (events.Accept e.now))) }
    ensures fits { OnOk result (IsEvent (events.Accept e.now)) }
{
    begin(out, b"Accept")?;
    put_call(out, e.by, e.op)?;
    put_request(out, e.request)?;
    put_way(out, e.version, &e.service, e.queue, &e.routine, e.priority)?;
    put_work(out, e.mode, &e.payload)
}

fn put_take(out: &mut Vec<u8>, e: &Taken) -> Result<(), NoMemory>
    ensures text { OnOk result (out.new.items ≡ out.old.items ++ joined (event_words (events.Take e.now))) }
    ensures fits { OnOk result (IsEvent (events.Take e.now)) }
{
    begin(out, b"Take")?;
    put_request(out, e.request)?;
    put_life(out, e.server, e.generation)?;
    put_number(out, e.k)
}

fn put_forward(out: &mut Vec<u8>, e: &Forwarded) -> Result<(), NoMemory>
    ensures text { OnOk result (out.new.items ≡ out.old.items ++ joined (event_words (events.Forward e.now))) }
    ensures fits { OnOk result (IsEvent (events.Forward e.now)) }
{
    begin(out, b"Forward")?;
    put_request(out, e.request)?;
    put_life(out, e.server, e.generation)?;
    put_number(out, u64::from(e.hop))?;
    put_way(out, e.version, &e.service, e.queue, &e.routine, e.priority)?;
    put_data(out, &e.payload)
}

fn put_sweep(out: &mut Vec<u8>, e: &Swept) -> Result<(), NoMemory>
    ensures text { OnOk result (out.new.items ≡ out.old.items ++ joined (event_words (events.Sweep e.now))) }
    ensures fits { OnOk result (IsEvent (events.Sweep e.now)) }
{
    begin(out, b"Sweep")?;
    put_request(out, e.request)?;
    put_number(out, u64::from(e.queue.0))
}

// Puts an event that has one number.
fn put_one(out: &mut Vec<u8>, name: &[u8], number: u16) -> Result<(), NoMemory>
    ensures text { OnOk result (out.new.items ≡ out.old.items ++ joined (name.now ∷ decimal number ∷ [])) }
    ensures fits { OnOk result (number < 2 ^ 16) }
{
    begin(out, name)?;
    put_number(out, u64::from(number))
}

fn put_tick(out: &mut Vec<u8>, e: &Ticked) -> Result<(), NoMemory>
    ensures text { OnOk result (out.new.items ≡ out.old.items ++ joined (event_words (events.Tick e.entry.now))) }
    ensures fits { OnOk result (IsEvent (events.Tick e.entry.now)) }
{
    begin(out, b"Tick")?;
    put_call(out, e.by, e.op)?;
    put_number(out, e.now)
}

// Puts a start, or one that failed.
fn put_start(out: &mut Vec<u8>, name: &[u8], e: &Started) -> Result<(), NoMemory>
    ensures text { OnOk result (out.new.items ≡ out.old.items
        ++ joined (name.now ∷ decimal e.now.server.0 ∷ decimal e.now.generation.0 ∷ decimal e.now.tick ∷ [])) }
    ensures fits { OnOk result (IsLife e.now.server.0 e.now.generation.0 × (e.now.tick < 2 ^ 64)) }
{
    begin(out, name)?;
    put_life(out, e.server, e.generation)?;
    put_number(out, e.tick)
}

fn put_outcome(out: &mut Vec<u8>, outcome: &Outcome) -> Result<(), NoMemory>
    ensures text { OnOk result (out.new.items ≡ out.old.items ++ flat_map spaced (outcome_words outcome.now)) }
    ensures fits { OnOk result (IsOutcome outcome.now) }
{
    match outcome {
        Outcome::Returned(code, payload) => {
            put(out, b"Returned")?;
            put_coded(out, *code, payload)
        }
        Outcome::Failed(code, payload) => {
            put(out, b"Failed")?;
            put_coded(out, *code, payload)
        }
        Outcome::BadReturn => put(out, b"BadReturn"),
        Outcome::BadForward(version) => {
            put(out, b"BadForward")?;
            put_number(out, *version)
        }
        Outcome::Died => put(out, b"Died"),
        Outcome::Starved => put(out, b"Starved"),
    }
}

fn put_end(out: &mut Vec<u8>, e: &Ended) -> Result<(), NoMemory>
    ensures text { OnOk result (out.new.items ≡ out.old.items ++ joined (event_words (events.End e.now))) }
    ensures fits { OnOk result (IsEvent (events.End e.now)) }
{
    begin(out, b"End")?;
    put_request(out, e.request)?;
    put_life(out, e.server, e.generation)?;
    put_outcome(out, &e.outcome)
}

fn put_cause(out: &mut Vec<u8>, cause: StopCause) -> Result<(), NoMemory>
    ensures text { OnOk result (out.new.items ≡ out.old.items ++ flat_map spaced (cause_words cause)) }
    ensures fits { OnOk result (IsCause cause) }
{
    match cause {
        StopCause::Shutdown => put(out, b"Shutdown"),
        StopCause::Exit => put(out, b"Exit"),
        StopCause::EndOfInput => put(out, b"EndOfInput"),
        StopCause::ReadFault => put(out, b"ReadFault"),
        StopCause::WriteFault => put(out, b"WriteFault"),
        StopCause::BadBytes(place) => { put_named(out, b"BadBytes", place) }
        StopCause::OutOfTurn(kind, tag) => {
            put_named(out, b"OutOfTurn", u64::from(kind))?;
            put_number(out, u64::from(tag))
        }
        StopCause::Starved => put(out, b"Starved"),
    }
}

fn put_stop(out: &mut Vec<u8>, e: &Stopped) -> Result<(), NoMemory>
    ensures text { OnOk result (out.new.items ≡ out.old.items ++ joined (event_words (events.Stop e.now))) }
    ensures fits { OnOk result (IsEvent (events.Stop e.now)) }
{
    begin(out, b"Stop")?;
    put_life(out, e.server, e.generation)?;
    put_cause(out, e.cause)
}

fn put_reply(out: &mut Vec<u8>, answer: &Answer) -> Result<(), NoMemory>
    ensures text { OnOk result (out.new.items ≡ out.old.items ++ flat_map spaced (answer_words answer.now)) }
    ensures fits { OnOk result (IsAnswer answer.now) }
{
    match answer {
        Answer::Success(code, payload) => {
            put(out, b"Success")?;
            put_coded(out, *code, payload)
        }
        Answer::Failed(code, payload) => {
            put(out, b"Failed")?;
            put_coded(out, *code, payload)
        }
        Answer::Error(fault) => {
            put(out, b"Error")?;
            put(out, fault.text().as_bytes())
        }
    }
}

fn put_answer(out: &mut Vec<u8>, e: &Replied) -> Result<(), NoMemory>
    ensures text { OnOk result (out.new.items ≡ out.old.items ++ joined (event_words (events.Answer e.now))) }
    ensures fits { OnOk result (IsEvent (events.Answer e.now)) }
{
    begin(out, b"Answer")?;
    put_call(out, e.by, e.op)?;
    put_request(out, e.request)?;
    put_reply(out, &e.answer)
}

fn put_cancel(out: &mut Vec<u8>, e: &Cancelled) -> Result<(), NoMemory>
    ensures text { OnOk result (out.new.items ≡ out.old.items ++ joined (event_words (events.Cancel e.now))) }
    ensures fits { OnOk result (IsEvent (events.Cancel e.now)) }
{
    begin(out, b"Cancel")?;
    put_call(out, e.by, e.op)?;
    put_request(out, e.request)
}

fn put_lapse(out: &mut Vec<u8>, e: &Lapsed) -> Result<(), NoMemory>
    ensures text { OnOk result (out.new.items ≡ out.old.items ++ joined (event_words (events.Lapse e.entry.now))) }
    ensures fits { OnOk result (IsEvent (events.Lapse e.entry.now)) }
{
    begin(out, b"Lapse")?;
    put_call(out, e.by, e.op)?;
    put_requests(out, e.requests.slice())?;
    put_truth(out, e.of_call)?;
    put_number(out, e.now)?;
    put_number(out, e.deadline)
}

fn put_evidence(out: &mut Vec<u8>, evidence: &Evidence) -> Result<(), NoMemory>
    ensures text { OnOk result (out.new.items ≡ out.old.items ++ flat_map spaced (evidence_words evidence.now)) }
    ensures fits { OnOk result (IsEvidence evidence.now) }
{
    match evidence {
        Evidence::Argument => put(out, b"Argument"),
        Evidence::Version(version) => put_named(out, b"Version", *version),
        Evidence::AllDown(version) => put_named(out, b"AllDown", *version),
        Evidence::Descriptor(descriptor) => put_named(out, b"Descriptor", *descriptor),
        Evidence::Cells(many) => put_named(out, b"Cells", u64::from(*many)),
        Evidence::Connections(many) => put_named(out, b"Connections", u64::from(*many)),
        Evidence::Rows(many) => put_named(out, b"Rows", u64::from(*many)),
        Evidence::Clock(tick) => put_named(out, b"Clock", *tick),
        Evidence::Queue(queue, waiting) => {
            put(out, b"Queue")?;
            put_level(out, *queue, *waiting)
        }
        Evidence::Pool => put(out, b"Pool"),
        Evidence::Conversation(descriptor) => put_named(out, b"Conversation", *descriptor),
        Evidence::Deadline(tick, deadline) => {
            put_named(out, b"Deadline", *tick)?;
            put_number(out, *deadline)
        }
        Evidence::Control(has) => {
            put(out, b"Control")?;
            put_truth(out, *has)
        }
        Evidence::Role => put(out, b"Role"),
        Evidence::Routine(routine) => {
            put(out, b"Routine")?;
            put(out, routine.octets())
        }
        Evidence::NoRow => put(out, b"NoRow"),
        Evidence::Ended(descriptor, event, code) => {
            put_named(out, b"Ended", *descriptor)?;
            put(out, event.text().as_bytes())?;
            put_signed(out, *code)
        }
    }
}

// Puts a word and a number.
fn put_named(out: &mut Vec<u8>, word: &[u8], number: u64) -> Result<(), NoMemory>
    ensures { OnOk result (out.new.items ≡ out.old.items ++ flat_map spaced (word.now ∷ decimal number ∷ [])) }
{
    put(out, word)?;
    put_number(out, number)
}

// Puts a queue, and how many waited there.
fn put_level(out: &mut Vec<u8>, queue: QueueId, waiting: u32) -> Result<(), NoMemory>
    ensures text { OnOk result (out.new.items ≡ out.old.items ++ flat_map spaced (decimal queue.0 ∷ decimal waiting ∷ [])) }
    ensures fits { OnOk result ((queue.0 < 2 ^ 16) × (waiting < 2 ^ 32)) }
{
    put_number(out, u64::from(queue.0))?;
    put_number(out, u64::from(waiting))
}

fn put_refuse(out: &mut Vec<u8>, e: &Refused) -> Result<(), NoMemory>
    ensures text { OnOk result (out.new.items ≡ out.old.items ++ joined (event_words (events.Refuse e.now))) }
    ensures fits { OnOk result (IsEvent (events.Refuse e.now)) }
{
    begin(out, b"Refuse")?;
    put_call(out, e.by, e.op)?;
    put(out, e.fault.text().as_bytes())?;
    put_evidence(out, &e.evidence)
}

fn put_not_yet(out: &mut Vec<u8>, e: &Unready) -> Result<(), NoMemory>
    ensures text { OnOk result (out.new.items ≡ out.old.items ++ joined (event_words (events.NotYet e.now))) }
    ensures fits { OnOk result (IsEvent (events.NotYet e.now)) }
{
    begin(out, b"NotYet")?;
    put_call(out, e.by, e.op)?;
    put_requests(out, e.requests.slice())
}

fn put_send(out: &mut Vec<u8>, e: &Sent) -> Result<(), NoMemory>
    ensures text { OnOk result (out.new.items ≡ out.old.items ++ joined (event_words (events.Send e.now))) }
    ensures fits { OnOk result (IsEvent (events.Send e.now)) }
{
    begin(out, b"Send")?;
    put_call(out, e.by, e.op)?;
    put_request(out, e.request)?;
    put_data(out, &e.payload)?;
    put_truth(out, e.passes)
}

fn put_item(out: &mut Vec<u8>, item: &Item) -> Result<(), NoMemory>
    ensures text { OnOk result (out.new.items ≡ out.old.items ++ flat_map spaced (item_words item.now)) }
    ensures fits { OnOk result (IsItem item.now) }
{
    match item {
        Item::Message(payload, passes) => {
            put(out, b"Message")?;
            put_data(out, payload)?;
            put_truth(out, *passes)
        }
        Item::Ending(event, code, payload) => {
            put(out, b"Ending")?;
            put(out, event.text().as_bytes())?;
            put_coded(out, *code, payload)
        }
    }
}

fn put_receive(out: &mut Vec<u8>, e: &Received) -> Result<(), NoMemory>
    ensures text { OnOk result (out.new.items ≡ out.old.items ++ joined (event_words (events.Receive e.now))) }
    ensures fits { OnOk result (IsEvent (events.Receive e.now)) }
{
    begin(out, b"Receive")?;
    put_call(out, e.by, e.op)?;
    put_request(out, e.request)?;
    put_item(out, &e.item)
}

fn put_break(out: &mut Vec<u8>, e: &Broken) -> Result<(), NoMemory>
    ensures text { OnOk result (out.new.items ≡ out.old.items ++ joined (event_words (events.Break e.now))) }
    ensures fits { OnOk result (IsEvent (events.Break e.now)) }
{
    begin(out, b"Break")?;
    put_call(out, e.by, e.op)?;
    put_request(out, e.request)
}

fn put_priority(out: &mut Vec<u8>, e: &Prioritized) -> Result<(), NoMemory>
    ensures text { OnOk result (out.new.items ≡ out.old.items ++ joined (event_words (events.Priority e.now))) }
    ensures fits { OnOk result (IsEvent (events.Priority e.now)) }
{
    begin(out, b"Priority")?;
    put_call(out, e.by, e.op)?;
    put_truth(out, e.absolute)?;
    put_signed(out, e.amount)
}

/// Puts the line of the event at the end, without the octet that ends a line. What the event's fields say fits their
/// types.
pub fn put_event(out: &mut Vec<u8>, event: &Event) -> Result<(), NoMemory>
    ensures text { OnOk result (out.new.items ≡ out.old.items ++ line_of event.now) }
    ensures fits { OnOk result (IsEvent event.now) }
{
    match event {
        Event::Advertise(e) => put_advertise(out, e),
        Event::Withdraw(e) => put_withdraw(out, e),
        Event::Accept(e) => put_accept(out, e),
        Event::Take(e) => put_take(out, e),
        Event::Forward(e) => put_forward(out, e),
        Event::Sweep(e) => put_sweep(out, e),
        Event::Gone(server) => put_one(out, b"Gone", server.0),
        Event::Down(queue) => put_one(out, b"Down", queue.0),
        Event::Close(queue) => put_one(out, b"Close", queue.0),
        Event::Tick(e) => put_tick(out, e),
        Event::Start(e) => put_start(out, b"Start", e),
        Event::StartFailed(e) => put_start(out, b"StartFailed", e),
        Event::End(e) => put_end(out, e),
        Event::Stop(e) => put_stop(out, e),
        Event::Answer(e) => put_answer(out, e),
        Event::Cancel(e) => put_cancel(out, e),
        Event::Lapse(e) => put_lapse(out, e),
        Event::Refuse(e) => put_refuse(out, e),
        Event::NotYet(e) => put_not_yet(out, e),
        Event::Leave(client) => put_one(out, b"Leave", client.0),
        Event::Send(e) => put_send(out, e),
        Event::Receive(e) => put_receive(out, e),
        Event::Break(e) => put_break(out, e),
        Event::Priority(e) => put_priority(out, e),
    }
}

/// The line of the event, without the octet that ends a line.
pub fn event(alloc: Global, event: &Event) -> Result<Octets, NoMemory>
    ensures { IfOk result (λ line. line ≡ line_of event.now) }
{
    let mut out = Vec::new(alloc);
    put_event(&mut out, event)?;
    Ok(Octets::from_vec(out))
}
