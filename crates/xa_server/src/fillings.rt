//! From what each worker knows of its seat to what is told of all workers' homes.
ghost use Rattle.std.specs.Prelude.{◌≡◌, ℕ, ◌<◌, Option, List, [], ◌∷◌, ◌++◌};
ghost use Rattle.std.specs.List.{All, Contains};
ghost use Rattle.xa_caller.specs.xa_types.declared.data.Kind.{Kind};
ghost use Rattle.xa_caller.specs.xa_types.declared.ids.RequestId.{RequestId};
ghost use Rattle.xa_caller.specs.xa_types.declared.setup.Setup.{Setup};
ghost use Rattle.xa_caller.specs.xa_types.declared.stamp.Stamp.{Stamp};
ghost use Rattle.xa_caller.specs.xa_events.declared.event.Event.{Event};
ghost use Rattle.xa_caller.specs.xa_events.declared.event.Event.TheVariants.{Answer};
ghost use Rattle.xa_caller.specs.xa_events.declared.event.Replied.{Replied};
ghost use Rattle.xa_caller.specs.xa_events.Homes.{Home};
ghost use Rattle.xa_caller.specs.xa_stamp.declared.home.Stamped.{Stamped};
ghost use Rattle.xa_caller.specs.xa_lock.declared.makers.Made.{Made};
ghost use Rattle.xa_caller.specs.xa_lock.Makers.{noted_in};
ghost use Rattle.xa_caller.specs.xa_worker.Crew.{IsCrew};
ghost use Rattle.xa_caller.specs.xa_worker.Seen.{WasTold};
ghost use Rattle.xa_caller.specs.xa_cell.declared.tokens.Seat.{Seat};
ghost use Rattle.xa_caller.specs.xa_cell.declared.view.Opening.{Opening};
ghost use Rattle.xa_caller.specs.xa_cell.declared.view.View.{View};
ghost use Rattle.xa_caller.specs.xa_cell.declared.cells.Cells.{Cells};
ghost use Rattle.xa_caller.specs.xa_cell.declared.filler.Filled.{Filled};
ghost use Rattle.xa_caller.specs.xa_cell.declared.owner.Cancelled.{Cancelled};
ghost use Rattle.xa_caller.specs.xa_cell.declared.tokens.Place.{Place};
ghost use Rattle.xa_caller.specs.xa_cell.declared.tokens.Ticket.{Ticket};
ghost use Rattle.xa_caller.specs.xa_cell.Calls.{Began, AllTaken, TookAs, CancelledAs, FilledAs};
ghost use Rattle.xa_caller.specs.xa_cell.Growing.{Keeps, TakesMore, FillsMore, CancelTakes};
ghost use Rattle.xa_caller.specs.xa_cell.Known.{known, named};
ghost use Rattle.xa_caller.specs.xa_cell.Law.{Answered};
ghost use Rattle.xa_caller.specs.xa_cell.Views.{at, fill};
ghost use Rattle.xa_caller.specs.declared.cargo.Filling.{Filling};
ghost use Rattle.xa_caller.specs.Caller.{CallerState};
ghost use Rattle.xa_caller.specs.Changes.{Answers};
ghost use Rattle.xa_server.specs.Growing.{Grows};
ghost use Rattle.xa_server.specs.Told.{FilledByEnds};
ghost use Rattle.xa_server.specs.Fillings.{TookFor, WasTaken, AnswersTaken, HasEnd, AllEnded, StandAt};

/// What a seat took and filled stands behind each call of it, and behind any sequence of calls.
pub fn seats_see_more()
    ensures keeps { (v w : View Filling) → Keeps v w → Grows v w }
    ensures takes { (k : ℕ) (a : Filling) (v w : View Filling) → TakesMore k a v w → Grows v w }
    ensures fills { (k : ℕ) (opening : Opening) (a : Filling) (v w : View Filling) → FillsMore k opening a v w → Grows v w }
    ensures both { (u v w : View Filling) → Grows u v → Grows v w → Grows u w }
{}

/// By what the calls say of a seat's view: a place that was begun, also where all cells are in use, leaves what was taken and
/// filled; what was taken, or came at a cancel, is one answer more; and a fill loses nothing.
pub fn calls_see_more()
    ensures began { (cells : Cells Filling) (q : RequestId) (s s' : Seat Filling) (place : Place) (t : Ticket Filling) → Began cells q s s' place t → Keeps (known s) (known s') }
    ensures full { (s s' : Seat Filling) → AllTaken s s' → Keeps (known s) (known s') }
    ensures took { (k : ℕ) (a : Filling) (v w : View Filling) → TookAs k a v w → TakesMore k a v w }
    ensures cancelled { (k : ℕ) (v w : View Filling) (answer : Cancelled Filling) → CancelledAs k v w answer → CancelTakes k v w answer }
    ensures filled { (t : Ticket Filling) (a : Filling) (v w : View Filling) (answer : Filled Filling) → FilledAs t a v w answer → Grows v w }
{}

/// Each answer of a worker was taken from a cell also where its seat saw more, and with one event more.
pub fn answers_stand()
    ensures grows { (own : List Stamped) (v w : View Filling) → Grows v w → AnswersTaken v own → AnswersTaken w own }
    ensures more { (own : List Stamped) (x : Stamped) (v : View Filling) → AnswersTaken v own → WasTaken v x.stamp x.event → AnswersTaken v (own ++ x ∷ []) }
{}

/// Each filling of a seat has its end also behind a call that fills nothing, behind a filling that has its end where it was
/// delivered, and where homes have more entries.
pub fn ends_stand()
    ensures keeps { (entries : Home → List Stamped) (v w : View Filling) → Keeps v w → AllEnded entries v → AllEnded entries w }
    ensures takes { (entries : Home → List Stamped) (k : ℕ) (a : Filling) (v w : View Filling) → TakesMore k a v w → AllEnded entries v → AllEnded entries w }
    ensures fills { (entries : Home → List Stamped) (k : ℕ) (opening : Opening) (a : Filling) (v w : View Filling) → FillsMore k opening a v w → HasEnd entries (fill opening a) → AllEnded entries v → AllEnded entries w }
    ensures given { (entries : Home → List Stamped) (t : Ticket Filling) (a : Filling) (v w : View Filling) (answer : Filled Filling) → FilledAs t a v w answer → ((o : Opening) → named t ≡ o ∷ [] → HasEnd entries (fill o a)) → AllEnded entries v → AllEnded entries w }
    ensures entries { (entries later : Home → List Stamped) (v : View Filling) → ((home : Home) (x : Stamped) → Contains (entries home) x → Contains (later home) x) → AllEnded entries v → AllEnded later v }
{}

/// Each answer that a caller is told is one that its seat took, and so all of its answers are where all before were.
pub fn answers_were_taken()
    ensures all { (expect : Option Kind) (stamp : Stamp) (new old : CallerState) → Answers expect stamp new old → AnswersTaken (known old.seat) old.work.own → AnswersTaken (known new.seat) new.work.own }
    ensures one { (expect : Option Kind) (stamp : Stamp) (new old : CallerState) → Answers expect stamp new old → (a : Replied) × Contains new.work.own (record { stamp = stamp; event = Answer a }) × TookFor (known new.seat) stamp a }
{}

/// Once the cells are closed, each answer that a worker noted tells how its request ended: the end, or the sweep, stands at
/// some home with a smaller stamp.
pub fn answers_were_told()
    ensures told { (setup : Setup) (clients : ℕ) (entries : Home → List Stamped) (seats : List (Seat Filling)) → ((k : ℕ) → Answered k seats) → All (λ s. AllEnded entries (known s)) seats
        → (seat : Seat Filling) → Contains seats seat → (stamp : Stamp) (a : Replied) → TookFor (known seat) stamp a → (own : List Event) → WasTold setup clients entries stamp own (Answer a) }
    ensures each { (setup : Setup) (clients : ℕ) (entries : Home → List Stamped) (seats : List (Seat Filling)) → ((k : ℕ) → Answered k seats) → All (λ s. AllEnded entries (known s)) seats
        → (seat : Seat Filling) → Contains seats seat → (own : List Stamped) → AnswersTaken (known seat) own → All (λ x. (a : Replied) → x.event ≡ Answer a → (before : List Event) → WasTold setup clients entries x.stamp before (Answer a)) own }
{}

/// Where all that a worker noted stands at the homes, each filling of its seat that has its end or its sweep among that has
/// it at a home: an end at the worker's own, a sweep at its queue's.
pub fn own_ends_stand()
    ensures { (setup : Setup) (clients : ℕ) (entries : Home → List Stamped) (own : List Stamped) (v : View Filling) → StandAt setup clients entries own → FilledByEnds own v → AllEnded entries v }
{}

/// Each filling has its end or its sweep among a worker's entries also behind a call of its seat that fills nothing.
pub fn own_ends_are_kept()
    ensures keeps { (own : List Stamped) (v w : View Filling) → Keeps v w → FilledByEnds own v → FilledByEnds own w }
    ensures takes { (own : List Stamped) (k : ℕ) (a : Filling) (v w : View Filling) → TakesMore k a v w → FilledByEnds own v → FilledByEnds own w }
{}

/// Once the cells are closed, each filling that a seat took has its end or its sweep at some home, where all that the seats
/// filled have it.
pub fn taken_have_ends()
    ensures { (entries : Home → List Stamped) (seats : List (Seat Filling)) → ((k : ℕ) → Answered k seats) → All (λ s. AllEnded entries (known s)) seats
        → (seat : Seat Filling) → Contains seats seat → (k : ℕ) → All (HasEnd entries) (at k (known seat)).taken }
{}

/// All that a worker of a crew noted stands at the homes.
pub fn crews_stand()
    ensures { (setup : Setup) (clients workers : ℕ) (kept : Home → List Made) (noted : ℕ → List Stamped) → IsCrew setup clients workers kept noted → (worker : ℕ) → worker < workers → StandAt setup clients (λ home. noted_in (kept home)) (noted worker) }
{}
