//! Copies of events, which take memory for their data and their lists.
ghost use Rattle.std.specs.Prelude.{◌≡◌, IfOk};
ghost use Rattle.xa_events.specs.declared.event.Event.TheVariants as events;

use crate::{
    Accepted, Ended, Event, Forwarded, Item, Lapsed, Outcome, Received, Replied, Sent, Unready,
};
use std::alloc::Global;
use xa_types::{Answer, NoMemory, RequestId, Sequence};

fn copy_requests(
    requests: &Sequence<RequestId>,
    alloc: Global,
) -> Result<Sequence<RequestId>, NoMemory>
    ensures { IfOk result (λ copied. copied ≡ requests.now) }
{
    let items = Vec::from_slice(alloc, requests.slice())?;
    Ok(Sequence::from_vec(items))
}

fn copy_answer(answer: &Answer, alloc: Global) -> Result<Answer, NoMemory>
    ensures { IfOk result (λ copied. copied ≡ answer.now) }
{
    match answer {
        Answer::Success(code, data) => Ok(Answer::Success(*code, data.copy(alloc)?)),
        Answer::Failed(code, data) => Ok(Answer::Failed(*code, data.copy(alloc)?)),
        Answer::Error(fault) => Ok(Answer::Error(*fault)),
    }
}

impl Accepted {
    // The event of a copy.
    fn copy_event(&self, alloc: Global) -> Result<Event, NoMemory>
        ensures { IfOk result (λ copied. copied ≡ events.Accept self.now) }
    {
        let payload = self.payload.copy(alloc)?;
        Ok(Event::Accept(Accepted {
            by: self.by,
            op: self.op,
            request: self.request,
            version: self.version,
            service: self.service,
            queue: self.queue,
            routine: self.routine,
            priority: self.priority,
            mode: self.mode,
            payload,
        }))
    }
}

impl Forwarded {
    fn copy_event(&self, alloc: Global) -> Result<Event, NoMemory>
        ensures { IfOk result (λ copied. copied ≡ events.Forward self.now) }
    {
        let payload = self.payload.copy(alloc)?;
        Ok(Event::Forward(Forwarded {
            request: self.request,
            server: self.server,
            generation: self.generation,
            hop: self.hop,
            version: self.version,
            service: self.service,
            queue: self.queue,
            routine: self.routine,
            priority: self.priority,
            payload,
        }))
    }
}

impl Outcome {
    fn copy(&self, alloc: Global) -> Result<Outcome, NoMemory>
        ensures { IfOk result (λ copied. copied ≡ self.now) }
    {
        match self {
            Outcome::Returned(code, data) => Ok(Outcome::Returned(*code, data.copy(alloc)?)),
            Outcome::Failed(code, data) => Ok(Outcome::Failed(*code, data.copy(alloc)?)),
            Outcome::BadReturn => Ok(Outcome::BadReturn),
            Outcome::BadForward(version) => Ok(Outcome::BadForward(*version)),
            Outcome::Died => Ok(Outcome::Died),
            Outcome::Starved => Ok(Outcome::Starved),
        }
    }
}

impl Ended {
    fn copy_event(&self, alloc: Global) -> Result<Event, NoMemory>
        ensures { IfOk result (λ copied. copied ≡ events.End self.now) }
    {
        let outcome = self.outcome.copy(alloc)?;
        Ok(Event::End(Ended {
            request: self.request,
            server: self.server,
            generation: self.generation,
            outcome,
        }))
    }
}

impl Replied {
    fn copy_event(&self, alloc: Global) -> Result<Event, NoMemory>
        ensures { IfOk result (λ copied. copied ≡ events.Answer self.now) }
    {
        let answer = copy_answer(&self.answer, alloc)?;
        Ok(Event::Answer(Replied {
            by: self.by,
            op: self.op,
            request: self.request,
            answer,
        }))
    }
}

impl Lapsed {
    fn copy_event(&self, alloc: Global) -> Result<Event, NoMemory>
        ensures { IfOk result (λ copied. copied ≡ events.Lapse self.entry.now) }
    {
        let requests = copy_requests(&self.requests, alloc)?;
        Ok(Event::Lapse(Lapsed {
            by: self.by,
            op: self.op,
            requests,
            of_call: self.of_call,
            now: self.now,
            deadline: self.deadline,
        }))
    }
}

impl Unready {
    fn copy_event(&self, alloc: Global) -> Result<Event, NoMemory>
        ensures { IfOk result (λ copied. copied ≡ events.NotYet self.now) }
    {
        let requests = copy_requests(&self.requests, alloc)?;
        Ok(Event::NotYet(Unready {
            by: self.by,
            op: self.op,
            requests,
        }))
    }
}

impl Sent {
    fn copy_event(&self, alloc: Global) -> Result<Event, NoMemory>
        ensures { IfOk result (λ copied. copied ≡ events.Send self.now) }
    {
        let payload = self.payload.copy(alloc)?;
        Ok(Event::Send(Sent {
            by: self.by,
            op: self.op,
            request: self.request,
            payload,
            passes: self.passes,
        }))
    }
}

impl Item {
    fn copy(&self, alloc: Global) -> Result<Item, NoMemory>
        ensures { IfOk result (λ copied. copied ≡ self.now) }
    {
        match self {
            Item::Message(data, passes) => Ok(Item::Message(data.copy(alloc)?, *passes)),
            Item::Ending(event, code, data) => Ok(Item::Ending(*event, *code, data.copy(alloc)?)),
        }
    }
}

impl Received {
    fn copy_event(&self, alloc: Global) -> Result<Event, NoMemory>
        ensures { IfOk result (λ copied. copied ≡ events.Receive self.now) }
    {
        let item = self.item.copy(alloc)?;
        Ok(Event::Receive(Received {
            by: self.by,
            op: self.op,
            request: self.request,
            item,
        }))
    }
}

impl Event {
    /// A copy.
    pub fn copy(&self, alloc: Global) -> Result<Event, NoMemory>
        ensures { IfOk result (λ copied. copied ≡ self.now) }
    {
        match self {
            Event::Advertise(advertised) => Ok(Event::Advertise(*advertised)),
            Event::Withdraw(withdrawn) => Ok(Event::Withdraw(*withdrawn)),
            Event::Accept(accepted) => accepted.copy_event(alloc),
            Event::Take(taken) => Ok(Event::Take(*taken)),
            Event::Forward(forwarded) => forwarded.copy_event(alloc),
            Event::Sweep(swept) => Ok(Event::Sweep(*swept)),
            Event::Gone(server) => Ok(Event::Gone(*server)),
            Event::Down(queue) => Ok(Event::Down(*queue)),
            Event::Close(queue) => Ok(Event::Close(*queue)),
            Event::Tick(ticked) => Ok(Event::Tick(*ticked)),
            Event::Start(started) => Ok(Event::Start(*started)),
            Event::StartFailed(started) => Ok(Event::StartFailed(*started)),
            Event::End(ended) => ended.copy_event(alloc),
            Event::Stop(stopped) => Ok(Event::Stop(*stopped)),
            Event::Answer(replied) => replied.copy_event(alloc),
            Event::Cancel(cancelled) => Ok(Event::Cancel(*cancelled)),
            Event::Lapse(lapsed) => lapsed.copy_event(alloc),
            Event::Refuse(refused) => Ok(Event::Refuse(*refused)),
            Event::NotYet(unready) => unready.copy_event(alloc),
            Event::Leave(client) => Ok(Event::Leave(*client)),
            Event::Send(sent) => sent.copy_event(alloc),
            Event::Receive(received) => received.copy_event(alloc),
            Event::Break(broken) => Ok(Event::Break(*broken)),
            Event::Priority(prioritized) => Ok(Event::Priority(*prioritized)),
        }
    }
}
