// What the caller of a request that ended is to be told.
ghost use Rattle.std.specs.Prelude.{◌≡◌, IfOk};
ghost use Rattle.xa_caller.specs.Sound.{IsSoundAnswer};
ghost use Rattle.xa_caller.specs.xa_events.Answers.{reply_of};
ghost use Rattle.xa_caller.specs.xa_events.Request.Settlement.{EndedBy};
ghost use Rattle.xa_server.specs.Changes.{closing_of};

use crate::closing::Closing;
use std::alloc::Global;
use xa_caller::Cargo;
use xa_caller::events::Outcome;
use xa_caller::queue::Entry;
use xa_caller::types::{Answer, Fault, NoMemory, Stamp};

// What the caller is told of a request that ended so.
pub(crate) fn reply_to(alloc: Global, outcome: &Outcome) -> Result<Answer, NoMemory>
    ensures { IfOk result (λ answer. answer ≡ reply_of (EndedBy outcome.now)) }
{
    match outcome {
        Outcome::Returned(code, payload) => Ok(Answer::Success(*code, payload.copy(alloc)?)),
        Outcome::Failed(code, payload) => Ok(Answer::Failed(*code, payload.copy(alloc)?)),
        Outcome::BadReturn | Outcome::BadForward(_) | Outcome::Died => {
            Ok(Answer::Error(Fault::SvcErr))
        }
        Outcome::Starved => Ok(Answer::Error(Fault::NoMemory)),
    }
}

// The answer to the request of that entry, which ended with that stamp, if it ended.
pub(crate) fn close(entry: Entry<Cargo>, answer: Option<Answer>, stamp: Stamp) -> Closing
    requires { IsSoundAnswer answer }
    ensures { (sound : IsSoundAnswer answer) → result ≡ closing_of entry answer stamp sound }
{
    let Entry {
        request,
        priority: _,
        cargo,
    } = entry;
    let Cargo { ticket, invocation } = cargo;
    drop(invocation);
    Closing {
        request: Some(request),
        ticket: Some(ticket),
        answer,
        stamp,
    }
}
