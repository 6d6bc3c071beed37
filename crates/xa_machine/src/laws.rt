// What holds of the events of every run, in one record.
ghost use Rattle.std.specs.Prelude.{ℕ, List};
ghost use Rattle.xa_types.specs.declared.setup.Setup.{Setup};
ghost use Rattle.xa_events.specs.declared.event.Event.{Event};
ghost use Rattle.xa_events.specs.State.{State, opening};
ghost use Rattle.xa_events.specs.Run.{Run};
ghost use Rattle.xa_machine.specs.Runs.{IsLawful};

use xa_events::laws::{
    answers_once, closed_queues_get_nothing, control_takes_turns, ended_servers_are_off,
    endings_come_last, ends_once, gives_up_in_time, gone_servers_advertise_nothing,
    last_entry_tells, messages_in_order, reads_forward,
};

/// All laws hold of every run.
pub fn runs_are_lawful()
    ensures { (setup : Setup) (clients : ℕ) (events : List Event) (new : State) → Run (opening setup clients) events new → IsLawful clients new.past }
{
    ends_once();
    answers_once();
    reads_forward();
    gives_up_in_time();
    ended_servers_are_off();
    messages_in_order();
    control_takes_turns();
    endings_come_last();
    gone_servers_advertise_nothing();
    closed_queues_get_nothing();
    last_entry_tells();
}
