//! The transcript of a small history, as the documents print it, and calls that aren't in turn.
use crate::rows::none_fails;
use std::alloc::Global;
use xa_events::{Accepted, Event, Evidence, Refused, Replied};
use xa_text::{calls_in_turn, transcript};
use xa_types::{Answer, CallerId, Data, Fault, Mode, Name, Octets, QueueId, RequestId};

// What happened in a tpcall.
#[derive(Clone, Copy)]
enum What {
    Accept,
    Success(i32, &'static [u8]),
    Failed(i32),
    Error(Fault),
    Refuse(Fault),
}

// The client, the number of its call, and what happened.
type Step = (u16, u32, What);

// The events, and the lines of the clients `first` and `second`, where the calls are in turn.
static ROWS: [(&[Step], Option<&[u8]>); 4] = [
    (
        &[
            (1, 1, What::Accept),
            (2, 1, What::Accept),
            (2, 1, What::Failed(7)),
            (1, 1, What::Success(0, b"hi")),
            (2, 2, What::Refuse(Fault::NoEnt)),
            (1, 2, What::Accept),
            (1, 2, What::Error(Fault::SvcErr)),
        ],
        Some(
            b"first 1 OK 0 octet 6869\nfirst 2 TPESVCERR\nsecond 1 TPESVCFAIL 7 none\nsecond 2 TPENOENT\n",
        ),
    ),
    (&[(1, 2, What::Accept)], None),
    (
        &[
            (1, 1, What::Accept),
            (2, 1, What::Refuse(Fault::NoEnt)),
            (2, 3, What::Refuse(Fault::NoEnt)),
        ],
        None,
    ),
    (
        &[
            (1, 1, What::Accept),
            (1, 2, What::Accept),
            (1, 1, What::Failed(0)),
        ],
        None,
    ),
];

fn request_of(client: u16, op: u32) -> RequestId {
    RequestId {
        caller: CallerId(client),
        number: u64::from(op),
    }
}

fn accepted(client: u16, op: u32, service: Name) -> Event {
    Event::Accept(Accepted {
        by: CallerId(client),
        op,
        request: request_of(client, op),
        version: 1,
        service,
        queue: QueueId(1),
        routine: service,
        priority: 50,
        mode: Mode::Reply,
        payload: Data::Absent,
    })
}

fn refused(client: u16, op: u32, fault: Fault) -> Event {
    Event::Refuse(Refused {
        by: CallerId(client),
        op,
        fault,
        evidence: Evidence::Version(1),
    })
}

fn answered(client: u16, op: u32, answer: Answer) -> Event {
    Event::Answer(Replied {
        by: CallerId(client),
        op,
        request: request_of(client, op),
        answer,
    })
}

fn success(alloc: Global, code: i32, text: &[u8]) -> Option<Answer> {
    let octets = Octets::of(alloc, text).ok()?;
    Some(Answer::Success(code, Data::Octet(octets)))
}

fn event_of(alloc: Global, service: Name, (client, op, what): Step) -> Option<Event> {
    let answer = match what {
        What::Accept => return Some(accepted(client, op, service)),
        What::Refuse(fault) => return Some(refused(client, op, fault)),
        What::Success(code, text) => success(alloc, code, text)?,
        What::Failed(code) => Answer::Failed(code, Data::Absent),
        What::Error(fault) => Answer::Error(fault),
    };
    Some(answered(client, op, answer))
}

fn push_event(alloc: Global, history: &mut Vec<Event>, service: Name, step: Step) -> Option<()> {
    history.push(event_of(alloc, service, step)?).ok()
}

// Whether there is a piece for each name, and they are these octets, one after another.
fn are_pieces_of(pieces: &[Octets], names: &[Name], octets: &[u8]) -> bool {
    let mut left = octets;
    for piece in pieces {
        match left.strip_prefix(piece.slice()) {
            Some(further) => left = further,
            None => return false,
        }
    }
    left.is_empty() && pieces.len() == names.len()
}

fn prints(alloc: Global, history: &[Event], names: &[Name], want: Option<&[u8]>) -> bool {
    if !calls_in_turn(history, names.len()) {
        return want.is_none();
    }
    match (transcript(alloc, history, names), want) {
        (Ok(pieces), Some(lines)) => are_pieces_of(&pieces, names, lines),
        _ => false,
    }
}

fn push_all(alloc: Global, history: &mut Vec<Event>, service: Name, steps: &[Step]) -> bool {
    let mut are_pushed = true;
    for step in steps {
        are_pushed &= push_event(alloc, history, service, *step).is_some();
    }
    are_pushed
}

fn is_read(alloc: Global, names: &[Name; 2], steps: &[Step], want: Option<&[u8]>) -> bool {
    let mut history = Vec::new(alloc);
    push_all(alloc, &mut history, names[0], steps) && prints(alloc, &history, names, want)
}

// The place of the first row that isn't read so; without the names, of the first.
fn first_not_read(alloc: Global) -> Option<usize> {
    let (Ok(first), Ok(second)) = (Name::read(b"first"), Name::read(b"second")) else {
        return Some(0);
    };
    for (place, (steps, want)) in ROWS.iter().enumerate() {
        if !is_read(alloc, &[first, second], steps, *want) {
            return Some(place);
        }
    }
    None
}

#[test]
fn transcripts_read_as_they_should(rt: HostRuntime) {
    none_fails(&rt, first_not_read(rt.alloc()));
}
