//! What holds of the lines of every run.
ghost use Rattle.std.specs.Prelude.{ℕ, List};
ghost use Rattle.xa_types.specs.declared.setup.Setup.{Setup};
ghost use Rattle.xa_events.specs.declared.event.Event.{Event};
ghost use Rattle.xa_events.specs.State.{State, opening};
ghost use Rattle.xa_events.specs.Run.{Run};
ghost use Rattle.xa_text.specs.InTurn.{CallsInTurn};

/// In every run the calls of each caller are numbered one by one, so that its history has a transcript.
pub fn runs_are_in_turn()
    ensures { (setup : Setup) (clients : ℕ) (events : List Event) (new : State) → Run (opening setup clients) events new → (client : ℕ) → CallsInTurn client new.past }
{}
