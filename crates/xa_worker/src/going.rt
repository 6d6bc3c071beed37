//! How what a worker noted goes on, event by event, towards what a crew asks.
ghost use Rattle.std.specs.Prelude.{◌≡◌, ℕ, true, List, [], ◌∷◌, ◌++◌, reverse};
ghost use Rattle.xa_types.specs.declared.call.Op.{Op};
ghost use Rattle.xa_types.specs.declared.setup.Setup.{Setup};
ghost use Rattle.xa_types.specs.declared.stamp.Stamp.{Stamp};
ghost use Rattle.xa_events.specs.Homes.{Home};
ghost use Rattle.xa_events.specs.Caller.{is_call_of};
ghost use Rattle.xa_events.specs.Local.{worker_events};
ghost use Rattle.xa_stamp.specs.declared.home.Stamped.{Stamped};
ghost use Rattle.xa_worker.specs.Seen.{past_in, SawFronts, WasTold, IsBehind};
ghost use Rattle.xa_worker.specs.Crew.{IsWork, TellsEach};
ghost use Rattle.xa_worker.specs.Calls.{FitsTurn};
ghost use Rattle.xa_worker.specs.Work.{WorkState, IsSound, noted};
ghost use Rattle.xa_worker.specs.Going.{FitEach};

/// What a worker noted is its work also with one event more, by what holds of every `Work`, where the event came behind the
/// boot and the fronts that it rests on were seen.
pub fn work_is_work()
    ensures { (last : Stamp) (seen : Home → List Stamped) (old : WorkState) (x : Stamped) → IsWork old.setup old.clients last seen old.id.0 old.own → IsSound (noted x old)
        → IsBehind last x.stamp x.event → SawFronts old.setup old.clients seen x.stamp x.event (past_in old.own) → IsWork old.setup old.clients last seen old.id.0 (noted x old).own }
{}

/// Each event was told what it rests on also with one more, where that one was.
pub fn told_goes_on()
    ensures { (setup : Setup) (clients : ℕ) (entries : Home → List Stamped) (worker : ℕ) (own : List Stamped) (x : Stamped) → TellsEach setup clients entries worker own
        → WasTold setup clients entries x.stamp (worker_events clients worker (past_in own)) x.event → TellsEach setup clients entries worker (own ++ x ∷ []) }
{}

/// Each event fits its call also with one more, where that one does if it is of a call.
pub fn calls_go_on()
    ensures { (setup : Setup) (clients : ℕ) (entries : Home → List Stamped) (caller : ℕ) (ops : List Op) (own : List Stamped) (x : Stamped) → FitEach setup clients entries caller ops own
        → (is_call_of caller x.event ≡ true → FitsTurn setup clients entries x.stamp caller ops x.event (worker_events clients caller (past_in own))) → FitEach setup clients entries caller ops (own ++ x ∷ []) }
{}
