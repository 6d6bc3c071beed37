// A list of events, taken in order.
ghost use Rattle.std.specs.Prelude.{◌≡◌, ℕ, IfOk, IfErr, true};
ghost use Rattle.xa_types.specs.Configured.{is_configured};
ghost use Rattle.xa_events.specs.State.{opening};
ghost use Rattle.xa_events.specs.Run.{Run};
ghost use Rattle.xa_machine.specs.Runs.{IsLawful, IsRefusedAt};
ghost use Rattle.xa_machine.specs.declared.replaying.ReplayRefused.TheVariants as refusals;

use crate::laws::runs_are_lawful;
use crate::machine::{Machine, StepRefused};
use std::alloc::Global;
use xa_events::Event;
use xa_types::{NoMemory, Setup};

/// Why a list of events isn't a run.
#[derive(Clone, Copy, Debug, PartialEq, Eq)]
pub enum ReplayRefused {
    /// The least place whose event may not come next.
    At(u64),
    NoMemory,
}

/// Takes the events in order, from before any event. Where it answers Ok they are a run, and every law of a run holds
/// of them; else the least place is told whose event may not come next, counted from 0.
pub fn replay(
    alloc: Global,
    setup: &Setup,
    clients: u16,
    events: &[Event],
) -> Result<Machine, ReplayRefused>
    requires { is_configured setup.now ≡ true }
    ensures run { IfOk result (λ machine. Run (opening setup.now clients) events.now machine) }
    ensures lawful { IfOk result (λ machine. IsLawful clients machine.past) }
    ensures at { IfErr result (λ why. (k : ℕ) → why ≡ refusals.At k → IsRefusedAt (opening setup.now clients) events.now k) }
{
    runs_are_lawful();
    let mut machine = match Machine::new(alloc, setup, clients) {
        Ok(machine) => machine,
        Err(NoMemory) => return Err(ReplayRefused::NoMemory),
    };
    for (i, event) in events.iter().enumerate() {
        match machine.step(event) {
            Ok(()) => {}
            Err(StepRefused::Refused) => return Err(ReplayRefused::At(i as u64)),
            Err(StepRefused::NoMemory) => return Err(ReplayRefused::NoMemory),
        }
    }
    Ok(machine)
}
