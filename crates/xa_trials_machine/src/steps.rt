//! Events as the tables tell them: mostly of the client 1, whose request has that number, of the server 1 and of its
//! queue 1.
use std::alloc::Global;
use xa_events::{
    Accepted, Advertised, Broken, Cancelled, Ended, Event, Evidence, Forwarded, Item, Lapsed,
    Outcome, Prioritized, Received, Refused, Replied, Sent, Started, StopCause, Stopped, Swept,
    Taken, Ticked, Unready, Withdrawn,
};
use xa_types::{
    Answer, CallerId, ConvEvent, Data, Fault, Generation, Mode, Name, Octets, QueueId, RequestId,
    Sequence, ServerId,
};

pub type Text = &'static [u8];

/// Data: absent, octets, or an entry whose account is 7.
#[derive(Clone, Copy)]
pub enum Payload {
    Absent,
    Text(Text),
    Entry,
}

/// How a request ended, and what its caller was told: a code and data, or neither.
#[derive(Clone, Copy)]
pub enum Way {
    Success(i32, Payload),
    Failure(i32, Payload),
    BadForward(u64),
    Died,
    Error(Fault),
}

/// What an end of a conversation received: octets and whether they pass control, or an event with its code and data.
#[derive(Clone, Copy)]
pub enum Heard {
    Message(Text, bool),
    Ending(ConvEvent, i32, Payload),
}

/// What shows that a refusal is right.
#[derive(Clone, Copy)]
pub enum Shown {
    Argument,
    Version(u64),
    Descriptor(u64),
    Cells(u32),
    /// So many waited.
    Queue(u32),
    Control(bool),
    Role,
    Routine(Text),
    Ended(u64, ConvEvent),
}

#[derive(Clone, Copy)]
pub enum Step {
    /// By, call, service, queue, routine and version.
    Put(u16, u32, Text, u16, Text, u64),
    /// By, call, service, and version.
    Withdraw(u16, u32, Text, u64),
    /// By, call, number, version, service, queue, routine, priority and mode.
    Send(u16, u32, u64, u64, Text, u16, Text, u8, Mode, Payload),
    /// Caller, number, server, generation and k.
    Take(u16, u64, u16, u64, u64),
    /// How often, service, routine and data.
    Forward(u8, Text, Text, Payload),
    Sweep(u64),
    Gone(u16),
    Down(u16),
    Close(u16),
    /// By, call and what the clock shows.
    Tick(u16, u32, u64),
    /// Server and generation.
    Start(u16, u64),
    StartFailed(u16, u64),
    /// Caller, number, server, generation.
    End(u16, u64, u16, u64, Way),
    /// Server and generation.
    Stop(u16, u64, StopCause),
    /// By, call and number.
    Tell(u16, u32, u64, Way),
    /// Call and number.
    Cancel(u32, u64),
    /// Call, what the clock shows and the deadline.
    Lapse(u32, u64, u64),
    Refuse(u16, u32, Fault, Shown),
    NotYet(u32),
    Leave(u16),
    Say(u16, u32, Text, bool),
    Hear(u16, u32, Heard),
    Break(u16, u32),
    Prefer(u32, i32),
    /// The boot advertises that service, by that routine, as the version.
    Boot(Text, Text, u64),
    /// The client's call with that number asks ECHO, by the version 1.
    Ask(u32, Payload),
    /// The same of a service and its routine, by the version that comes first.
    Call(u32, u64, Text, Text, Payload),
    /// The client's first call begins a conversation, by that version.
    Connect(u64, Text, Payload, Mode),
    /// The client's request with that number is taken as the k-th.
    Taken(u64, u64),
    Ended(u64, Way),
    /// It ends with code 0 and that data.
    Return(u64, Payload),
    /// The client's call is told that of the request.
    Told(u32, u64, Payload),
    Failed(u32, u64, Fault),
    /// The client's call is refused.
    Refused(u32, Fault, Shown),
    /// The same for each number from the first to the last.
    Each(Each, u32, u32),
}

/// What is done for each number.
#[derive(Clone, Copy)]
pub enum Each {
    /// The client asks ECHO, without data.
    Ask,
    /// It gives the request up as it leaves.
    Cancel,
    /// The server takes the request, and returns nothing.
    Serve,
}

/// What is done for that number: one event or two.
pub fn steps_of(each: Each, number: u32) -> (Step, Option<Step>) {
    let request = u64::from(number);
    match each {
        Each::Ask => (Step::Ask(number, Payload::Absent), None),
        Each::Cancel => (Step::Cancel(0, request), None),
        Each::Serve => (
            Step::Taken(request, request),
            Some(Step::Return(request, Payload::Absent)),
        ),
    }
}

// The step with nothing left out.
fn whole(step: Step) -> Step {
    match step {
        Step::Boot(service, routine, version) => Step::Put(0, 0, service, 1, routine, version),
        Step::Ask(op, payload) => whole_call(op, 1, b"ECHO", b"ECHO", payload),
        Step::Call(op, version, service, routine, payload) => {
            whole_call(op, version, service, routine, payload)
        }
        Step::Connect(version, service, payload, mode) => {
            Step::Send(1, 1, 1, version, service, 1, service, 50, mode, payload)
        }
        Step::Taken(number, k) => Step::Take(1, number, 1, 1, k),
        Step::Ended(number, way) => Step::End(1, number, 1, 1, way),
        Step::Return(number, payload) => Step::End(1, number, 1, 1, Way::Success(0, payload)),
        Step::Told(op, number, payload) => Step::Tell(1, op, number, Way::Success(0, payload)),
        Step::Failed(op, number, fault) => Step::Tell(1, op, number, Way::Error(fault)),
        Step::Refused(op, fault, shown) => Step::Refuse(1, op, fault, shown),
        whole => whole,
    }
}

// A request of the client that has the number of its call.
fn whole_call(op: u32, version: u64, service: Text, routine: Text, payload: Payload) -> Step {
    Step::Send(
        1,
        op,
        u64::from(op),
        version,
        service,
        1,
        routine,
        50,
        Mode::Reply,
        payload,
    )
}

fn request(caller: u16, number: u64) -> RequestId {
    RequestId {
        caller: CallerId(caller),
        number,
    }
}

fn octets_of(alloc: Global, octets: &[u8]) -> Option<Data> {
    Some(Data::Octet(Octets::of(alloc, octets).ok()?))
}

fn entry(alloc: Global) -> Option<Data> {
    let mut octets = [0u8; 28];
    octets[3] = 7;
    let subtype = Name::read(b"entry").ok()?;
    Some(Data::Struct(subtype, Octets::of(alloc, &octets).ok()?))
}

fn data_of(alloc: Global, payload: Payload) -> Option<Data> {
    match payload {
        Payload::Absent => Some(Data::Absent),
        Payload::Text(octets) => octets_of(alloc, octets),
        Payload::Entry => entry(alloc),
    }
}

// A list of the first request of the client 1.
fn first_request(alloc: Global) -> Option<Sequence<RequestId>> {
    let requests = Vec::from_slice(alloc, &[request(1, 1)]).ok()?;
    Some(Sequence::from_vec(requests))
}

fn outcome_of(alloc: Global, way: Way) -> Option<Outcome> {
    match way {
        Way::Success(code, payload) => Some(Outcome::Returned(code, data_of(alloc, payload)?)),
        Way::Failure(code, payload) => Some(Outcome::Failed(code, data_of(alloc, payload)?)),
        Way::BadForward(version) => Some(Outcome::BadForward(version)),
        Way::Died => Some(Outcome::Died),
        Way::Error(_) => None,
    }
}

fn answer_of(alloc: Global, way: Way) -> Option<Answer> {
    match way {
        Way::Success(code, payload) => Some(Answer::Success(code, data_of(alloc, payload)?)),
        Way::Failure(code, payload) => Some(Answer::Failed(code, data_of(alloc, payload)?)),
        Way::Error(fault) => Some(Answer::Error(fault)),
        _ => None,
    }
}

fn item_of(alloc: Global, heard: Heard) -> Option<Item> {
    match heard {
        Heard::Message(octets, passes) => Some(Item::Message(octets_of(alloc, octets)?, passes)),
        Heard::Ending(event, code, payload) => {
            Some(Item::Ending(event, code, data_of(alloc, payload)?))
        }
    }
}

fn evidence_of(shown: Shown) -> Option<Evidence> {
    let evidence = match shown {
        Shown::Argument => Evidence::Argument,
        Shown::Version(version) => Evidence::Version(version),
        Shown::Descriptor(descriptor) => Evidence::Descriptor(descriptor),
        Shown::Cells(n) => Evidence::Cells(n),
        Shown::Queue(n) => Evidence::Queue(QueueId(1), n),
        Shown::Control(control) => Evidence::Control(control),
        Shown::Role => Evidence::Role,
        Shown::Routine(routine) => Evidence::Routine(Name::read(routine).ok()?),
        Shown::Ended(descriptor, event) => Evidence::Ended(descriptor, event, 0),
    };
    Some(evidence)
}

// The events with names, of the board and of a request that is sent.
fn named(alloc: Global, step: Step) -> Option<Event> {
    match step {
        Step::Put(by, op, service, queue, routine, version) => Some(Event::Advertise(Advertised {
            by: CallerId(by),
            op,
            service: Name::read(service).ok()?,
            queue: QueueId(queue),
            routine: Name::read(routine).ok()?,
            version,
        })),
        Step::Withdraw(by, op, service, version) => Some(Event::Withdraw(Withdrawn {
            by: CallerId(by),
            op,
            service: Name::read(service).ok()?,
            queue: QueueId(1),
            version,
        })),
        Step::Send(by, op, number, version, service, queue, routine, priority, mode, payload) => {
            Some(Event::Accept(Accepted {
                by: CallerId(by),
                op,
                request: request(by, number),
                version,
                service: Name::read(service).ok()?,
                queue: QueueId(queue),
                routine: Name::read(routine).ok()?,
                priority,
                mode,
                payload: data_of(alloc, payload)?,
            }))
        }
        Step::Forward(hop, service, routine, payload) => Some(Event::Forward(Forwarded {
            request: request(1, 1),
            generation: Generation(1),
            version: 3,
            server: ServerId(1),
            queue: QueueId(1),
            hop,
            priority: 50,
            service: Name::read(service).ok()?,
            routine: Name::read(routine).ok()?,
            payload: data_of(alloc, payload)?,
        })),
        Step::Refuse(by, op, fault, shown) => Some(Event::Refuse(Refused {
            by: CallerId(by),
            op,
            fault,
            evidence: evidence_of(shown)?,
        })),
        _ => None,
    }
}

// The events with data or a list, but for those with names.
fn weighty(alloc: Global, step: Step) -> Option<Event> {
    match step {
        Step::End(caller, number, server, generation, way) => Some(Event::End(Ended {
            request: request(caller, number),
            server: ServerId(server),
            generation: Generation(generation),
            outcome: outcome_of(alloc, way)?,
        })),
        Step::Tell(by, op, number, way) => Some(Event::Answer(Replied {
            by: CallerId(by),
            op,
            request: request(by, number),
            answer: answer_of(alloc, way)?,
        })),
        Step::Lapse(op, now, deadline) => Some(Event::Lapse(Lapsed {
            by: CallerId(1),
            op,
            requests: first_request(alloc)?,
            of_call: false,
            now,
            deadline,
        })),
        Step::NotYet(op) => Some(Event::NotYet(Unready {
            by: CallerId(1),
            op,
            requests: first_request(alloc)?,
        })),
        Step::Say(by, op, octets, passes) => Some(Event::Send(Sent {
            by: CallerId(by),
            op,
            request: request(1, 1),
            payload: octets_of(alloc, octets)?,
            passes,
        })),
        Step::Hear(by, op, heard) => Some(Event::Receive(Received {
            by: CallerId(by),
            op,
            request: request(1, 1),
            item: item_of(alloc, heard)?,
        })),
        _ => None,
    }
}

// The events of a queue or a server that are numbers alone.
fn of_queue(step: Step) -> Option<Event> {
    let event = match step {
        Step::Take(caller, number, server, generation, k) => Event::Take(Taken {
            request: request(caller, number),
            server: ServerId(server),
            generation: Generation(generation),
            k,
        }),
        Step::Sweep(number) => Event::Sweep(Swept {
            request: request(1, number),
            queue: QueueId(1),
        }),
        Step::Gone(server) => Event::Gone(ServerId(server)),
        Step::Down(queue) => Event::Down(QueueId(queue)),
        Step::Close(queue) => Event::Close(QueueId(queue)),
        Step::Start(server, generation) => Event::Start(Started {
            server: ServerId(server),
            generation: Generation(generation),
            tick: 0,
        }),
        Step::StartFailed(server, generation) => Event::StartFailed(Started {
            server: ServerId(server),
            generation: Generation(generation),
            tick: 0,
        }),
        Step::Stop(server, generation, cause) => Event::Stop(Stopped {
            server: ServerId(server),
            generation: Generation(generation),
            cause,
        }),
        _ => return None,
    };
    Some(event)
}

// The same of a caller.
fn of_caller(step: Step) -> Option<Event> {
    let event = match step {
        Step::Tick(by, op, now) => Event::Tick(Ticked {
            by: CallerId(by),
            op,
            now,
        }),
        Step::Cancel(op, number) => Event::Cancel(Cancelled {
            by: CallerId(1),
            op,
            request: request(1, number),
        }),
        Step::Leave(client) => Event::Leave(CallerId(client)),
        Step::Break(by, op) => Event::Break(Broken {
            by: CallerId(by),
            op,
            request: request(1, 1),
        }),
        Step::Prefer(op, amount) => Event::Priority(Prioritized {
            by: CallerId(1),
            op,
            absolute: true,
            amount,
        }),
        _ => return None,
    };
    Some(event)
}

/// The event.
pub fn event_of(alloc: Global, step: Step) -> Option<Event> {
    let step = whole(step);
    match step {
        Step::Put(..)
        | Step::Withdraw(..)
        | Step::Send(..)
        | Step::Forward(..)
        | Step::Refuse(..) => named(alloc, step),
        Step::End(..)
        | Step::Tell(..)
        | Step::Lapse(..)
        | Step::NotYet(..)
        | Step::Say(..)
        | Step::Hear(..) => weighty(alloc, step),
        Step::Tick(..) | Step::Cancel(..) | Step::Leave(..) | Step::Break(..) | Step::Prefer(..) =>
            of_caller(step),
        _ => of_queue(step),
    }
}
