// What a caller may be told of a request, by an event that settled it.
ghost use Rattle.std.specs.Prelude.{◌≡◌, IsSomeAnd, reverse};
ghost use Rattle.std.specs.Bool.{Decides};
ghost use Rattle.xa_types.specs.declared.fault.Fault.TheVariants as faults;
ghost use Rattle.xa_types.specs.declared.reply.Answer.TheVariants as answers;
ghost use Rattle.xa_types.specs.Kind.{kind_of};
ghost use Rattle.xa_events.specs.Answers.{IsAnswerTo, has_kind};
ghost use Rattle.xa_events.specs.Request.{settlement_in, WasSettled};
ghost use Rattle.xa_events.specs.Request.Settlement.{EndedBy, SweptAway};

use crate::words::same_request;
use xa_events::{Event, Outcome};
use xa_types::{Answer, Data, Fault, Name, RequestId};

fn same_octets(a: &[u8], b: &[u8]) -> bool
    ensures { Decides result (a.now ≡ b.now) }
{
    a == b
}

/// Whether both are the same name.
pub fn same_name(a: &Name, b: &Name) -> bool
    ensures { Decides result (a.now ≡ b.now) }
{
    same_octets(a.octets(), b.octets())
}

/// Whether both are the same data.
pub fn same_data(a: &Data, b: &Data) -> bool
    ensures { Decides result (a.now ≡ b.now) }
{
    match a {
        Data::Absent => matches!(b, Data::Absent),
        Data::Octet(octets) => match b {
            Data::Octet(others) => same_octets(octets.slice(), others.slice()),
            _ => false,
        },
        Data::Struct(subtype, octets) => match b {
            Data::Struct(other, others) => {
                same_octets(subtype.octets(), other.octets())
                    && same_octets(octets.slice(), others.slice())
            }
            _ => false,
        },
    }
}

/// Whether there is data.
pub fn has_kind(payload: &Data) -> bool
    ensures { result ≡ has_kind (kind_of payload.now) }
{
    !matches!(payload, Data::Absent)
}

fn is_wrong_type(answer: &Answer) -> bool
    ensures { Decides result (answer.now ≡ answers.Error faults.OType) }
{
    matches!(answer, Answer::Error(Fault::OType))
}

fn is_success(answer: &Answer, code: i32, sent: &Data) -> bool
    ensures { Decides result (answer.now ≡ answers.Success code sent.now) }
{
    match answer {
        Answer::Success(told, payload) => *told == code && same_data(payload, sent),
        _ => false,
    }
}

fn is_failure(answer: &Answer, code: i32, sent: &Data) -> bool
    ensures { Decides result (answer.now ≡ answers.Failed code sent.now) }
{
    match answer {
        Answer::Failed(told, payload) => *told == code && same_data(payload, sent),
        _ => false,
    }
}

fn answers_end(answer: &Answer, outcome: &Outcome) -> bool
    ensures { Decides result (IsAnswerTo answer.now (EndedBy outcome.now)) }
{
    match outcome {
        Outcome::Returned(code, data) => {
            is_success(answer, *code, data) || is_wrong_type(answer) && has_kind(data)
        }
        Outcome::Failed(code, data) => {
            is_failure(answer, *code, data) || is_wrong_type(answer) && has_kind(data)
        }
        Outcome::BadReturn | Outcome::BadForward(_) | Outcome::Died => {
            matches!(answer, Answer::Error(Fault::SvcErr))
        }
        Outcome::Starved => matches!(answer, Answer::Error(Fault::NoMemory)),
    }
}

fn answers_sweep(answer: &Answer) -> bool
    ensures { Decides result (IsAnswerTo answer.now SweptAway) }
{
    matches!(answer, Answer::Error(Fault::System))
}

// Whether the event settled the request so that the answer tells of it.
fn settles_so(event: &Event, request: RequestId, answer: &Answer) -> bool
    ensures { Decides result (IsSomeAnd (settlement_in request event.now) (IsAnswerTo answer.now)) }
{
    match event {
        Event::End(e) => same_request(e.request, request) && answers_end(answer, &e.outcome),
        Event::Sweep(x) => same_request(x.request, request) && answers_sweep(answer),
        _ => false,
    }
}

/// Whether one of the events settled the request so that the answer tells of it: the newest is looked at first, since a
/// request is answered soon after it was settled.
pub fn was_settled(events: &[Event], request: RequestId, answer: &Answer) -> bool
    ensures { Decides result (WasSettled request (IsAnswerTo answer.now) (reverse events.now)) }
{
    for i in (0..events.len()).rev() {
        if settles_so(&events[i], request, answer) {
            return true;
        }
    }
    false
}
