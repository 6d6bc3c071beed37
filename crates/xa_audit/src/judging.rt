// What a list of events comes to.
ghost use Rattle.std.specs.Prelude.{◌≡◌, IfOk, true};
ghost use Rattle.xa_types.specs.Configured.{is_configured};
ghost use Rattle.xa_audit.specs.Verdict.{IsVerdict};

use std::alloc::Global;
use xa_events::Event;
use xa_machine::{Machine, StepRefused};
use xa_types::{NoMemory, Setup};

/// What a list of events comes to.
#[derive(Clone, Copy, Debug, PartialEq, Eq)]
pub enum Verdict {
    /// So many events, which are a run that is over.
    Run(u64),
    /// The least place, from 0, whose event may not come next, or takes a request that isn't next.
    At(u64),
    /// So many events, which are a run that isn't over.
    Unfinished(u64),
}

/// Takes the events in order, from before any event, and says what they come to.
pub fn judge(
    alloc: Global,
    setup: &Setup,
    clients: u16,
    events: &[Event],
) -> Result<Verdict, NoMemory>
    requires { is_configured setup.now ≡ true }
    ensures { IfOk result (IsVerdict setup.now clients events.now) }
{
    let mut machine = Machine::new(alloc, setup, clients)?;
    for (i, event) in events.iter().enumerate() {
        if !machine.takes_next(event) {
            return Ok(Verdict::At(i as u64));
        }
        match machine.step(event) {
            Ok(()) => {}
            Err(StepRefused::Refused) => return Ok(Verdict::At(i as u64)),
            Err(StepRefused::NoMemory) => return Err(NoMemory),
        }
    }
    if machine.is_final() {
        Ok(Verdict::Run(events.len() as u64))
    } else {
        Ok(Verdict::Unfinished(events.len() as u64))
    }
}
