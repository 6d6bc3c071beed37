// The event that a line is.
ghost use Rattle.std.specs.Prelude.{◌≡◌, ℕ, List, Option, Some, None, length, IfOk, IfErr};
ghost use Rattle.xa_events.specs.declared.event.Event.{Event};
ghost use Rattle.xa_lines.specs.declared.refusal.EventRefused.TheVariants as refusals;
ghost use Rattle.xa_lines.specs.Line.{line_of, IsEvent};
ghost use Rattle.xa_lines.specs.Reading.{Reads, Makes, said, whole, split, words_in, event_form, event_of, outcome_at, cause_at, answer_at, item_at, evidence_at, way_at, number_at, advertise_at, withdraw_at, accept_at, take_at, forward_at, sweep_at, gone, down, closed, left, tick_at, started, not_started, start_at, ended_at, stop_at, answered_at, cancelled, broken, asked_at, lapse_at, refuse_at, not_yet_at, send_at, receive_at, priority_at};

use crate::fields::{call_at, coded_at, data_at, life_at, queue_at, requests_at};
use crate::refusal::EventRefused;
use crate::words::{
    NoForm, cut_word, end_at, fault_at, is, is_done, mode_at, name_at, number_at, request_at,
    signed_at, truth_at, word_at,
};
use std::alloc::Global;
use xa_events::{
    Accepted, Advertised, Broken, Cancelled, Ended, Event, Evidence, Forwarded, Item, Lapsed,
    Outcome, Prioritized, Received, Refused, Replied, Sent, Started, StopCause, Stopped, Swept,
    Taken, Ticked, Unready, Withdrawn,
};
use xa_types::{Answer, CallerId, Name, QueueId, RequestId, ServerId};

// ---- parts of events

#[tactic(auto, unfolding(crate::specs::Reading::outcome_at))]
fn outcome_at(alloc: Global, words: &[u8]) -> Result<(Outcome, &[u8]), EventRefused>
    ensures { Makes (λ x. (x.0, words_in x.1.now)) result (outcome_at (words_in words.now)) }
{
    let (word, rest) = word_at(words)?;
    if is(word, b"Returned") {
        let (code, payload, rest) = coded_at(alloc, rest)?;
        Ok((Outcome::Returned(code, payload), rest))
    } else if is(word, b"Failed") {
        let (code, payload, rest) = coded_at(alloc, rest)?;
        Ok((Outcome::Failed(code, payload), rest))
    } else if is(word, b"BadReturn") {
        Ok((Outcome::BadReturn, rest))
    } else if is(word, b"BadForward") {
        let (version, rest) = number_at(u64::MAX, rest)?;
        Ok((Outcome::BadForward(version), rest))
    } else if is(word, b"Died") {
        Ok((Outcome::Died, rest))
    } else if is(word, b"Starved") {
        Ok((Outcome::Starved, rest))
    } else {
        Err(EventRefused::NoEvent)
    }
}

#[tactic(auto, unfolding(crate::specs::Reading::cause_at))]
fn cause_at(words: &[u8]) -> Result<(StopCause, &[u8]), NoForm>
    ensures { Reads (λ x. (x.0, words_in x.1.now)) result (cause_at (words_in words.now)) }
{
    let (word, rest) = word_at(words)?;
    if is(word, b"Shutdown") {
        Ok((StopCause::Shutdown, rest))
    } else if is(word, b"Exit") {
        Ok((StopCause::Exit, rest))
    } else if is(word, b"EndOfInput") {
        Ok((StopCause::EndOfInput, rest))
    } else if is(word, b"ReadFault") {
        Ok((StopCause::ReadFault, rest))
    } else if is(word, b"WriteFault") {
        Ok((StopCause::WriteFault, rest))
    } else if is(word, b"BadBytes") {
        let (place, rest) = number_at(u64::MAX, rest)?;
        Ok((StopCause::BadBytes(place), rest))
    } else if is(word, b"OutOfTurn") {
        let (kind, rest) = number_at(255, rest)?;
        let (tag, rest) = number_at(4_294_967_295, rest)?;
        Ok((StopCause::OutOfTurn(kind as u8, tag as u32), rest))
    } else if is(word, b"Starved") {
        Ok((StopCause::Starved, rest))
    } else {
        Err(NoForm)
    }
}

#[tactic(auto, unfolding(crate::specs::Reading::answer_at))]
fn answer_at(alloc: Global, words: &[u8]) -> Result<(Answer, &[u8]), EventRefused>
    ensures { Makes (λ x. (x.0, words_in x.1.now)) result (answer_at (words_in words.now)) }
{
    let (word, rest) = word_at(words)?;
    if is(word, b"Success") {
        let (code, payload, rest) = coded_at(alloc, rest)?;
        Ok((Answer::Success(code, payload), rest))
    } else if is(word, b"Failed") {
        let (code, payload, rest) = coded_at(alloc, rest)?;
        Ok((Answer::Failed(code, payload), rest))
    } else if is(word, b"Error") {
        let (fault, rest) = fault_at(rest)?;
        Ok((Answer::Error(fault), rest))
    } else {
        Err(EventRefused::NoEvent)
    }
}

#[tactic(auto, unfolding(crate::specs::Reading::item_at))]
fn item_at(alloc: Global, words: &[u8]) -> Result<(Item, &[u8]), EventRefused>
    ensures { Makes (λ x. (x.0, words_in x.1.now)) result (item_at (words_in words.now)) }
{
    let (word, rest) = word_at(words)?;
    if is(word, b"Message") {
        let (payload, rest) = data_at(alloc, rest)?;
        let (passes, rest) = truth_at(rest)?;
        Ok((Item::Message(payload, passes), rest))
    } else if is(word, b"Ending") {
        let (event, rest) = end_at(rest)?;
        let (code, payload, rest) = coded_at(alloc, rest)?;
        Ok((Item::Ending(event, code, payload), rest))
    } else {
        Err(EventRefused::NoEvent)
    }
}

#[tactic(auto, unfolding(crate::specs::Reading::evidence_at))]
fn evidence_at(words: &[u8]) -> Result<(Evidence, &[u8]), NoForm>
    ensures { Reads (λ x. (x.0, words_in x.1.now)) result (evidence_at (words_in words.now)) }
{
    let (word, rest) = word_at(words)?;
    if is(word, b"Argument") {
        Ok((Evidence::Argument, rest))
    } else if is(word, b"Version") {
        let (version, rest) = number_at(u64::MAX, rest)?;
        Ok((Evidence::Version(version), rest))
    } else if is(word, b"AllDown") {
        let (version, rest) = number_at(u64::MAX, rest)?;
        Ok((Evidence::AllDown(version), rest))
    } else if is(word, b"Descriptor") {
        let (descriptor, rest) = number_at(u64::MAX, rest)?;
        Ok((Evidence::Descriptor(descriptor), rest))
    } else if is(word, b"Cells") {
        let (many, rest) = number_at(4_294_967_295, rest)?;
        Ok((Evidence::Cells(many as u32), rest))
    } else if is(word, b"Connections") {
        let (many, rest) = number_at(4_294_967_295, rest)?;
        Ok((Evidence::Connections(many as u32), rest))
    } else if is(word, b"Rows") {
        let (many, rest) = number_at(4_294_967_295, rest)?;
        Ok((Evidence::Rows(many as u32), rest))
    } else if is(word, b"Clock") {
        let (tick, rest) = number_at(u64::MAX, rest)?;
        Ok((Evidence::Clock(tick), rest))
    } else if is(word, b"Queue") {
        let (queue, rest) = queue_at(rest)?;
        let (waiting, rest) = number_at(4_294_967_295, rest)?;
        Ok((Evidence::Queue(queue, waiting as u32), rest))
    } else if is(word, b"Pool") {
        Ok((Evidence::Pool, rest))
    } else if is(word, b"Conversation") {
        let (descriptor, rest) = number_at(u64::MAX, rest)?;
        Ok((Evidence::Conversation(descriptor), rest))
    } else if is(word, b"Deadline") {
        let (tick, rest) = number_at(u64::MAX, rest)?;
        let (deadline, rest) = number_at(u64::MAX, rest)?;
        Ok((Evidence::Deadline(tick, deadline), rest))
    } else if is(word, b"Control") {
        let (has, rest) = truth_at(rest)?;
        Ok((Evidence::Control(has), rest))
    } else if is(word, b"Role") {
        Ok((Evidence::Role, rest))
    } else if is(word, b"Routine") {
        let Ok((routine, rest)) = name_at(rest) else {
            return Err(NoForm);
        };
        Ok((Evidence::Routine(routine), rest))
    } else if is(word, b"NoRow") {
        Ok((Evidence::NoRow, rest))
    } else if is(word, b"Ended") {
        let (descriptor, rest) = number_at(u64::MAX, rest)?;
        let (event, rest) = end_at(rest)?;
        let (code, rest) = signed_at(rest)?;
        Ok((Evidence::Ended(descriptor, event, code), rest))
    } else {
        Err(NoForm)
    }
}

// Where a request goes.
#[derive(Clone, Copy)]
struct Way {
    version: u64,
    service: Name,
    queue: QueueId,
    routine: Name,
    priority: u8,
}

fn way_at(words: &[u8]) -> Result<(Way, &[u8]), NoForm>
    ensures { Reads (λ x. ((x.0.version, (x.0.service, (x.0.queue.0, (x.0.routine, x.0.priority)))), words_in x.1.now)) result
        (way_at (words_in words.now)) }
{
    let (version, rest) = number_at(u64::MAX, words)?;
    let Ok((service, rest)) = name_at(rest) else {
        return Err(NoForm);
    };
    let (queue, rest) = queue_at(rest)?;
    let Ok((routine, rest)) = name_at(rest) else {
        return Err(NoForm);
    };
    let (priority, rest) = number_at(255, rest)?;
    let way = Way {
        version,
        service,
        queue,
        routine,
        priority: priority as u8,
    };
    Ok((way, rest))
}

// ---- events

#[tactic(auto, unfolding(crate::specs::Reading::advertise_at))]
fn advertise_at(words: &[u8]) -> Result<(Event, &[u8]), NoForm>
    ensures { Reads (λ x. (x.0, words_in x.1.now)) result (advertise_at (words_in words.now)) }
{
    let (by, op, rest) = call_at(words)?;
    let Ok((service, rest)) = name_at(rest) else {
        return Err(NoForm);
    };
    let (queue, rest) = queue_at(rest)?;
    let Ok((routine, rest)) = name_at(rest) else {
        return Err(NoForm);
    };
    let (version, rest) = number_at(u64::MAX, rest)?;
    let event = Advertised {
        by,
        op,
        service,
        queue,
        routine,
        version,
    };
    Ok((Event::Advertise(event), rest))
}

#[tactic(auto, unfolding(crate::specs::Reading::withdraw_at))]
fn withdraw_at(words: &[u8]) -> Result<(Event, &[u8]), NoForm>
    ensures { Reads (λ x. (x.0, words_in x.1.now)) result (withdraw_at (words_in words.now)) }
{
    let (by, op, rest) = call_at(words)?;
    let Ok((service, rest)) = name_at(rest) else {
        return Err(NoForm);
    };
    let (queue, rest) = queue_at(rest)?;
    let (version, rest) = number_at(u64::MAX, rest)?;
    let event = Withdrawn {
        by,
        op,
        service,
        queue,
        version,
    };
    Ok((Event::Withdraw(event), rest))
}

#[tactic(auto, unfolding(crate::specs::Reading::accept_at))]
fn accept_at(alloc: Global, words: &[u8]) -> Result<(Event, &[u8]), EventRefused>
    ensures { Makes (λ x. (x.0, words_in x.1.now)) result (accept_at (words_in words.now)) }
{
    let (by, op, rest) = call_at(words)?;
    let (request, rest) = request_at(rest)?;
    let Ok((way, rest)) = way_at(rest) else {
        return Err(EventRefused::NoEvent);
    };
    let (mode, rest) = mode_at(rest)?;
    let (payload, rest) = data_at(alloc, rest)?;
    let event = Accepted {
        by,
        op,
        request,
        version: way.version,
        service: way.service,
        queue: way.queue,
        routine: way.routine,
        priority: way.priority,
        mode,
        payload,
    };
    Ok((Event::Accept(event), rest))
}

#[tactic(auto, unfolding(crate::specs::Reading::take_at))]
fn take_at(words: &[u8]) -> Result<(Event, &[u8]), NoForm>
    ensures { Reads (λ x. (x.0, words_in x.1.now)) result (take_at (words_in words.now)) }
{
    let (request, rest) = request_at(words)?;
    let (server, generation, rest) = life_at(rest)?;
    let (k, rest) = number_at(u64::MAX, rest)?;
    let event = Taken {
        request,
        server,
        generation,
        k,
    };
    Ok((Event::Take(event), rest))
}

#[tactic(auto, unfolding(crate::specs::Reading::forward_at))]
fn forward_at(alloc: Global, words: &[u8]) -> Result<(Event, &[u8]), EventRefused>
    ensures { Makes (λ x. (x.0, words_in x.1.now)) result (forward_at (words_in words.now)) }
{
    let (request, rest) = request_at(words)?;
    let (server, generation, rest) = life_at(rest)?;
    let (hop, rest) = number_at(255, rest)?;
    let Ok((way, rest)) = way_at(rest) else {
        return Err(EventRefused::NoEvent);
    };
    let (payload, rest) = data_at(alloc, rest)?;
    let event = Forwarded {
        request,
        generation,
        version: way.version,
        server,
        queue: way.queue,
        hop: hop as u8,
        priority: way.priority,
        service: way.service,
        routine: way.routine,
        payload,
    };
    Ok((Event::Forward(event), rest))
}

#[tactic(auto, unfolding(crate::specs::Reading::sweep_at))]
fn sweep_at(words: &[u8]) -> Result<(Event, &[u8]), NoForm>
    ensures { Reads (λ x. (x.0, words_in x.1.now)) result (sweep_at (words_in words.now)) }
{
    let (request, rest) = request_at(words)?;
    let (queue, rest) = queue_at(rest)?;
    Ok((Event::Sweep(Swept { request, queue }), rest))
}

fn gone_at(words: &[u8]) -> Result<(Event, &[u8]), NoForm>
    ensures { Reads (λ x. (x.0, words_in x.1.now)) result (said gone (number_at 65535) (words_in words.now)) }
{
    let (server, rest) = number_at(65_535, words)?;
    Ok((Event::Gone(ServerId(server as u16)), rest))
}

fn down_at(words: &[u8]) -> Result<(Event, &[u8]), NoForm>
    ensures { Reads (λ x. (x.0, words_in x.1.now)) result (said down (number_at 65535) (words_in words.now)) }
{
    let (queue, rest) = queue_at(words)?;
    Ok((Event::Down(queue), rest))
}

fn close_at(words: &[u8]) -> Result<(Event, &[u8]), NoForm>
    ensures { Reads (λ x. (x.0, words_in x.1.now)) result (said closed (number_at 65535) (words_in words.now)) }
{
    let (queue, rest) = queue_at(words)?;
    Ok((Event::Close(queue), rest))
}

fn leave_at(words: &[u8]) -> Result<(Event, &[u8]), NoForm>
    ensures { Reads (λ x. (x.0, words_in x.1.now)) result (said left (number_at 65535) (words_in words.now)) }
{
    let (client, rest) = number_at(65_535, words)?;
    Ok((Event::Leave(CallerId(client as u16)), rest))
}

#[tactic(auto, unfolding(crate::specs::Reading::tick_at))]
fn tick_at(words: &[u8]) -> Result<(Event, &[u8]), NoForm>
    ensures { Reads (λ x. (x.0, words_in x.1.now)) result (tick_at (words_in words.now)) }
{
    let (by, op, rest) = call_at(words)?;
    let (now, rest) = number_at(u64::MAX, rest)?;
    Ok((Event::Tick(Ticked { by, op, now }), rest))
}

fn start_at(words: &[u8]) -> Result<(Started, &[u8]), NoForm>
    ensures { Reads (λ x. (((x.0.server.0, x.0.generation.0), x.0.tick), words_in x.1.now)) result (start_at (words_in words.now)) }
{
    let (server, generation, rest) = life_at(words)?;
    let (tick, rest) = number_at(u64::MAX, rest)?;
    let start = Started {
        server,
        generation,
        tick,
    };
    Ok((start, rest))
}

fn started_at(words: &[u8]) -> Result<(Event, &[u8]), NoForm>
    ensures { Reads (λ x. (x.0, words_in x.1.now)) result (said started start_at (words_in words.now)) }
{
    let (start, rest) = start_at(words)?;
    Ok((Event::Start(start), rest))
}

fn not_started_at(words: &[u8]) -> Result<(Event, &[u8]), NoForm>
    ensures { Reads (λ x. (x.0, words_in x.1.now)) result (said not_started start_at (words_in words.now)) }
{
    let (start, rest) = start_at(words)?;
    Ok((Event::StartFailed(start), rest))
}

#[tactic(auto, unfolding(crate::specs::Reading::ended_at))]
fn ended_at(alloc: Global, words: &[u8]) -> Result<(Event, &[u8]), EventRefused>
    ensures { Makes (λ x. (x.0, words_in x.1.now)) result (ended_at (words_in words.now)) }
{
    let (request, rest) = request_at(words)?;
    let (server, generation, rest) = life_at(rest)?;
    let (outcome, rest) = outcome_at(alloc, rest)?;
    let event = Ended {
        request,
        server,
        generation,
        outcome,
    };
    Ok((Event::End(event), rest))
}

#[tactic(auto, unfolding(crate::specs::Reading::stop_at))]
fn stop_at(words: &[u8]) -> Result<(Event, &[u8]), NoForm>
    ensures { Reads (λ x. (x.0, words_in x.1.now)) result (stop_at (words_in words.now)) }
{
    let (server, generation, rest) = life_at(words)?;
    let (cause, rest) = cause_at(rest)?;
    let event = Stopped {
        server,
        generation,
        cause,
    };
    Ok((Event::Stop(event), rest))
}

#[tactic(auto, unfolding(crate::specs::Reading::answered_at))]
fn answered_at(alloc: Global, words: &[u8]) -> Result<(Event, &[u8]), EventRefused>
    ensures { Makes (λ x. (x.0, words_in x.1.now)) result (answered_at (words_in words.now)) }
{
    let (by, op, rest) = call_at(words)?;
    let (request, rest) = request_at(rest)?;
    let (answer, rest) = answer_at(alloc, rest)?;
    let event = Replied {
        by,
        op,
        request,
        answer,
    };
    Ok((Event::Answer(event), rest))
}

fn asked_at(words: &[u8]) -> Result<(CallerId, u32, RequestId, &[u8]), NoForm>
    ensures { Reads (λ x. (((x.0.0, x.1), x.2), words_in x.3.now)) result (asked_at (words_in words.now)) }
{
    let (by, op, rest) = call_at(words)?;
    let (request, rest) = request_at(rest)?;
    Ok((by, op, request, rest))
}

fn cancel_at(words: &[u8]) -> Result<(Event, &[u8]), NoForm>
    ensures { Reads (λ x. (x.0, words_in x.1.now)) result (said cancelled asked_at (words_in words.now)) }
{
    let (by, op, request, rest) = asked_at(words)?;
    Ok((Event::Cancel(Cancelled { by, op, request }), rest))
}

fn break_at(words: &[u8]) -> Result<(Event, &[u8]), NoForm>
    ensures { Reads (λ x. (x.0, words_in x.1.now)) result (said broken asked_at (words_in words.now)) }
{
    let (by, op, request, rest) = asked_at(words)?;
    Ok((Event::Break(Broken { by, op, request }), rest))
}

#[tactic(auto, unfolding(crate::specs::Reading::lapse_at))]
fn lapse_at(alloc: Global, words: &[u8]) -> Result<(Event, &[u8]), EventRefused>
    ensures { Makes (λ x. (x.0, words_in x.1.now)) result (lapse_at (words_in words.now)) }
{
    let (by, op, rest) = call_at(words)?;
    let (requests, rest) = requests_at(alloc, rest)?;
    let (of_call, rest) = truth_at(rest)?;
    let (now, rest) = number_at(u64::MAX, rest)?;
    let (deadline, rest) = number_at(u64::MAX, rest)?;
    let event = Lapsed {
        by,
        op,
        requests,
        of_call,
        now,
        deadline,
    };
    Ok((Event::Lapse(event), rest))
}

#[tactic(auto, unfolding(crate::specs::Reading::refuse_at))]
fn refuse_at(words: &[u8]) -> Result<(Event, &[u8]), NoForm>
    ensures { Reads (λ x. (x.0, words_in x.1.now)) result (refuse_at (words_in words.now)) }
{
    let (by, op, rest) = call_at(words)?;
    let (fault, rest) = fault_at(rest)?;
    let Ok((evidence, rest)) = evidence_at(rest) else {
        return Err(NoForm);
    };
    let event = Refused {
        by,
        op,
        fault,
        evidence,
    };
    Ok((Event::Refuse(event), rest))
}

#[tactic(auto, unfolding(crate::specs::Reading::not_yet_at))]
fn not_yet_at(alloc: Global, words: &[u8]) -> Result<(Event, &[u8]), EventRefused>
    ensures { Makes (λ x. (x.0, words_in x.1.now)) result (not_yet_at (words_in words.now)) }
{
    let (by, op, rest) = call_at(words)?;
    let (requests, rest) = requests_at(alloc, rest)?;
    Ok((Event::NotYet(Unready { by, op, requests }), rest))
}

#[tactic(auto, unfolding(crate::specs::Reading::send_at))]
fn send_at(alloc: Global, words: &[u8]) -> Result<(Event, &[u8]), EventRefused>
    ensures { Makes (λ x. (x.0, words_in x.1.now)) result (send_at (words_in words.now)) }
{
    let (by, op, rest) = call_at(words)?;
    let (request, rest) = request_at(rest)?;
    let (payload, rest) = data_at(alloc, rest)?;
    let (passes, rest) = truth_at(rest)?;
    let event = Sent {
        by,
        op,
        request,
        payload,
        passes,
    };
    Ok((Event::Send(event), rest))
}

#[tactic(auto, unfolding(crate::specs::Reading::receive_at))]
fn receive_at(alloc: Global, words: &[u8]) -> Result<(Event, &[u8]), EventRefused>
    ensures { Makes (λ x. (x.0, words_in x.1.now)) result (receive_at (words_in words.now)) }
{
    let (by, op, rest) = call_at(words)?;
    let (request, rest) = request_at(rest)?;
    let (item, rest) = item_at(alloc, rest)?;
    let event = Received {
        by,
        op,
        request,
        item,
    };
    Ok((Event::Receive(event), rest))
}

#[tactic(auto, unfolding(crate::specs::Reading::priority_at))]
fn priority_at(words: &[u8]) -> Result<(Event, &[u8]), NoForm>
    ensures { Reads (λ x. (x.0, words_in x.1.now)) result (priority_at (words_in words.now)) }
{
    let (by, op, rest) = call_at(words)?;
    let (absolute, rest) = truth_at(rest)?;
    let (amount, rest) = signed_at(rest)?;
    let event = Prioritized {
        by,
        op,
        absolute,
        amount,
    };
    Ok((Event::Priority(event), rest))
}

// ---- lines

type Read<'a, E> = Result<(Event, &'a [u8]), E>;

// The same, where memory may run out too.
fn made(read: Read<'_, NoForm>) -> Read<'_, EventRefused>
    ensures { (said : Option (Event × List (List ℕ))) → Reads (λ x. (x.0, words_in x.1.now)) read.entry said
        → Makes (λ x. (x.0, words_in x.1.now)) result said }
{
    match read {
        Ok(found) => Ok(found),
        Err(_) => Err(EventRefused::NoEvent),
    }
}

// The event of that kind.
fn event_at<'a>(alloc: Global, kind: &[u8], words: &'a [u8]) -> Read<'a, EventRefused>
    ensures { Makes (λ x. (x.0, words_in x.1.now)) result (event_form kind.now (words_in words.now)) }
{
    if is(kind, b"Take") {
        made(take_at(words))
    } else if is(kind, b"End") {
        ended_at(alloc, words)
    } else if is(kind, b"Answer") {
        answered_at(alloc, words)
    } else if is(kind, b"Accept") {
        accept_at(alloc, words)
    } else if is(kind, b"Send") {
        send_at(alloc, words)
    } else if is(kind, b"Receive") {
        receive_at(alloc, words)
    } else if is(kind, b"Forward") {
        forward_at(alloc, words)
    } else if is(kind, b"Advertise") {
        made(advertise_at(words))
    } else if is(kind, b"Withdraw") {
        made(withdraw_at(words))
    } else if is(kind, b"Sweep") {
        made(sweep_at(words))
    } else if is(kind, b"Gone") {
        made(gone_at(words))
    } else if is(kind, b"Down") {
        made(down_at(words))
    } else if is(kind, b"Close") {
        made(close_at(words))
    } else if is(kind, b"Tick") {
        made(tick_at(words))
    } else if is(kind, b"Start") {
        made(started_at(words))
    } else if is(kind, b"StartFailed") {
        made(not_started_at(words))
    } else if is(kind, b"Stop") {
        made(stop_at(words))
    } else if is(kind, b"Cancel") {
        made(cancel_at(words))
    } else if is(kind, b"Lapse") {
        lapse_at(alloc, words)
    } else if is(kind, b"Refuse") {
        made(refuse_at(words))
    } else if is(kind, b"NotYet") {
        not_yet_at(alloc, words)
    } else if is(kind, b"Leave") {
        made(leave_at(words))
    } else if is(kind, b"Break") {
        made(break_at(words))
    } else if is(kind, b"Priority") {
        made(priority_at(words))
    } else {
        Err(EventRefused::NoEvent)
    }
}

// The event of which these are all words.
#[tactic(auto, unfolding(crate::specs::Reading::event_of))]
fn event_of(alloc: Global, line: &[u8]) -> Result<Event, EventRefused>
    ensures { Makes (λ event. event) result (event_of (split line.now)) }
{
    let (kind, words) = cut_word(line);
    let (event, rest) = event_at(alloc, kind, words)?;
    if !is_done(rest) {
        return Err(EventRefused::NoEvent);
    }
    Ok(event)
}

/// The event that the line is, given without the octet that ends it. `NoEvent` comes exactly where no event has that
/// line.
pub fn read_event(alloc: Global, line: &[u8]) -> Result<Event, EventRefused>
    ensures ok { IfOk result (λ event. line_of event ≡ line.now) }
    ensures fits { IfOk result (λ event. IsEvent event) }
    ensures refused { IfErr result (λ why. why ≡ refusals.NoEvent → (event : Event) → IsEvent event → line_of event ≡ line.now → ⊥) }
{
    event_of(alloc, line)
}
