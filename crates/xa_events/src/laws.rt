//! What holds of every run.
ghost use Rattle.std.specs.Prelude.{ℕ, List, reverse};
ghost use Rattle.xa_types.specs.declared.setup.Setup.{Setup};
ghost use Rattle.xa_events.specs.declared.event.Event.{Event};
ghost use Rattle.xa_events.specs.State.{State, opening};
ghost use Rattle.xa_events.specs.Run.{Run};
ghost use Rattle.xa_events.specs.Local.{Local};
ghost use Rattle.xa_events.specs.Laws.{LawOfEnds, LawOfAnswers, LawOfVersions, LawOfTimes, LawOfServers, LawOfMessages, LawOfEndings, LawOfTurns, LawOfGone, LawOfClosed, LawOfEntries};

/// A request is accepted once at most, and what moves it on finds it accepted and not settled: a take or a sweep finds it
/// at a queue, as often taken as forwarded, and a forward or an end finds it at a server, once more taken.
pub fn ends_once()
    ensures { (setup : Setup) (clients : ℕ) (events : List Event) (new : State) → Run (opening setup clients) events new → LawOfEnds new.past }
{}

/// The descriptor of a request becomes invalid once, and not before the request was accepted. The lapse of a tpcall is of
/// one request. Each answer is of a request of its own caller, which was settled once; it is what befell the request, or
/// TPEOTYPE where data came back.
pub fn answers_once()
    ensures { (setup : Setup) (clients : ℕ) (events : List Event) (new : State) → Run (opening setup clients) events new → LawOfAnswers new.past }
{}

/// What a caller reads of the board never gets older, and is never of the future.
pub fn reads_forward()
    ensures { (setup : Setup) (clients : ℕ) (events : List Event) (new : State) → Run (opening setup clients) events new → LawOfVersions clients new.past }
{}

/// A call gives up at a tick that the clock had shown, and not before its deadline.
pub fn gives_up_in_time()
    ensures { (setup : Setup) (clients : ℕ) (events : List Event) (new : State) → Run (opening setup clients) events new → LawOfTimes new.past }
{}

/// A server that was shut down or is given up is off.
pub fn ended_servers_are_off()
    ensures { (setup : Setup) (clients : ℕ) (events : List Event) (new : State) → Run (opening setup clients) events new → LawOfServers new.past }
{}

/// The two ends of a conversation alone send and receive, and in each direction messages come once and in order.
pub fn messages_in_order()
    ensures { (setup : Setup) (clients : ℕ) (events : List Event) (new : State) → Run (opening setup clients) events new → LawOfMessages clients new.past }
{}

/// Control of a conversation goes from end to end in turn.
pub fn control_takes_turns()
    ensures { (setup : Setup) (clients : ℕ) (events : List Event) (new : State) → Run (opening setup clients) events new → LawOfTurns clients new.past }
{}

/// An end of a conversation that receives an ending has received all that the other end sent.
pub fn endings_come_last()
    ensures { (setup : Setup) (clients : ℕ) (events : List Event) (new : State) → Run (opening setup clients) events new → LawOfEndings clients new.past }
{}

/// A server that is gone advertises nothing: so a queue of which every server is gone gets no row back.
pub fn gone_servers_advertise_nothing()
    ensures { (setup : Setup) (clients : ℕ) (events : List Event) (new : State) → Run (opening setup clients) events new → LawOfGone clients new.past }
{}

/// Nothing is sent to a queue that is closed: so one at which nothing waits stays so.
pub fn closed_queues_get_nothing()
    ensures { (setup : Setup) (clients : ℕ) (events : List Event) (new : State) → Run (opening setup clients) events new → LawOfClosed new.past }
{}

/// The event that sent a request last says how often it was forwarded.
pub fn last_entry_tells()
    ensures { (setup : Setup) (clients : ℕ) (events : List Event) (new : State) → Run (opening setup clients) events new → LawOfEntries new.past }
{}

/// Events of which each meets its home part among the events of its home, its worker part among those of its worker, and
/// names what was seen of other homes before it, are a run from the opening.
pub fn local_is_run()
    ensures { (setup : Setup) (clients : ℕ) (past : List Event) → Local setup clients past → Run (opening setup clients) (reverse past) (record { setup = setup; clients = clients; past = past }) }
{}
