//! What holds of the homes of all workers, once their threads are joined.
ghost use Rattle.std.specs.Prelude.{◌≡◌, ℕ, ◌+◌, length, ◌<◌, true, false, List, [], ◌∷◌, ◌++◌, reverse, Option};
ghost use Rattle.xa_types.specs.declared.setup.Setup.{Setup};
ghost use Rattle.xa_events.specs.declared.event.Event.{Event};
ghost use Rattle.std.specs.List.{All, filter};
ghost use Rattle.xa_types.specs.declared.ids.CallerId.{CallerId};
ghost use Rattle.xa_types.specs.declared.stamp.Stamp.{Stamp};
ghost use Rattle.xa_lock.specs.declared.pass.Page.{Page};
ghost use Rattle.xa_lock.specs.Pages.{StartsWith, entries_by, page_leaving};
ghost use Rattle.xa_lock.specs.Makers.{maker_of, noted_in, made_by};
ghost use Rattle.xa_events.specs.Homes.{Home, at_home};
ghost use Rattle.xa_worker.specs.Entering.{Enters, stamped_with};
ghost use Rattle.xa_events.specs.Homes.Home.{BoardHome, ClockHome, CallerHome};
ghost use Rattle.xa_events.specs.Local.{Local};
ghost use Rattle.xa_stamp.specs.declared.home.Stamped.{Stamped};
ghost use Rattle.xa_stamp.specs.Home.{Notes};
ghost use Rattle.xa_stamp.specs.Merge.{IsMerged, IsDense};
ghost use Rattle.xa_lock.specs.declared.makers.Made.{Made};
ghost use Rattle.xa_events.specs.State.{State, opening, caller_of};
ghost use Rattle.xa_events.specs.Run.{Run, IsFinal};
ghost use Rattle.xa_types.specs.declared.call.Op.{Op};
ghost use Rattle.xa_events.specs.Calls.{MadeCalls};
ghost use Rattle.xa_events.specs.Said.{reply_at};
ghost use Rattle.xa_events.specs.Finishing.{Finish, FitsFinishes};
ghost use Rattle.xa_worker.specs.Finishing.{FinishedOwn};
ghost use Rattle.xa_events.specs.Words.{AtEach};
ghost use Rattle.xa_events.specs.Cases.{HomePart};
ghost use Rattle.xa_worker.specs.Seen.{past_in};
ghost use Rattle.xa_worker.specs.Calls.{MadeOwn};
ghost use Rattle.xa_worker.specs.Ending.{kept_at, workers_of, AllJoined, AreAll};
ghost use Rattle.xa_events.specs.Order.{TakesInOrder};
ghost use Rattle.xa_worker.specs.Orders.{AllNew, AllNext, AllMetIfNew};
ghost use Rattle.xa_worker.specs.Crew.{MayNote, stands_at, IsWork, IsNextWork, IsCrew, MetAmong, AllMet, AllOver, AreHomes, IsNextStamp, no_stamp};

/// What a worker has shown of what it has seen stands as it sees more of each home.
pub fn work_stays()
    ensures { (setup : Setup) (clients : ℕ) (seen now : Home → List Stamped) → ((home : Home) → StartsWith (now home) (seen home)) → (last : Stamp) (worker : ℕ) (noted : List Stamped) → IsWork setup clients last seen worker noted → IsWork setup clients last now worker noted }
{}

/// The work of a worker goes on by an event of which it has shown what is asked.
pub fn work_goes_on()
    ensures { (setup : Setup) (clients : ℕ) (last : Stamp) (seen : Home → List Stamped) (worker : ℕ) (noted : List Stamped) (x : Stamped) → IsWork setup clients last seen worker noted → IsNextWork setup clients last seen worker noted x → IsWork setup clients last seen worker (noted ++ x ∷ []) }
{}

/// A page has what its maker noted at the page's home, once the maker left the lock with more entries.
pub fn page_goes_on()
    ensures { (setup : Setup) (clients : ℕ) (home : Home) (maker : CallerId) (page : Page Made) (entries : List Made) (noted more : List Stamped) → noted_in page.own ≡ filter (stands_at setup clients home) noted
        → entries ≡ page.seen ++ made_by maker more → All (λ x. stands_at setup clients home x ≡ true) more → noted_in (page_leaving page entries).own ≡ filter (stands_at setup clients home) (noted ++ more) }
{}

/// Where one enter noted an event of the page's home, the page has it, and what it had seen it has seen still.
pub fn enters_goes_on()
    ensures own { (setup : Setup) (clients : ℕ) (home : Home) (old new : Page Made) (maker : CallerId) (seen : Stamp) (stamp : Option Stamp) (event : Event) (noted : List Stamped) → Enters old new maker seen stamp event → at_home setup clients home event ≡ true
        → noted_in old.own ≡ filter (stands_at setup clients home) noted → noted_in new.own ≡ filter (stands_at setup clients home) (noted ++ stamped_with stamp event) }
    ensures seen { (old new : Page Made) (maker : CallerId) (seen : Stamp) (stamp : Option Stamp) (event : Event) → Enters old new maker seen stamp event → StartsWith new.seen old.seen }
{}

/// A page of another home has what it had.
pub fn page_stays()
    ensures { (setup : Setup) (clients : ℕ) (home : Home) (own : List Made) (noted more : List Stamped) → noted_in own ≡ filter (stands_at setup clients home) noted
        → All (λ x. stands_at setup clients home x ≡ false) more → noted_in own ≡ filter (stands_at setup clients home) (noted ++ more) }
{}

/// Where the own home of a caller holds what that caller noted there, it holds of each worker what that worker noted there: of
/// the others nothing.
pub fn own_home_is_its_own()
    ensures { (setup : Setup) (clients : ℕ) (caller : CallerId) (worker : ℕ) (entries noted : List Stamped) → All (λ x. MayNote clients worker x.event) noted → (worker ≡ caller.0 → entries ≡ filter (stands_at setup clients (CallerHome caller.0)) noted)
        → noted_in (entries_by maker_of worker (made_by caller entries)) ≡ filter (stands_at setup clients (CallerHome caller.0)) noted }
{}

/// Workers that were joined are a crew, once all locks are closed: by their passes' pages and by their own homes.
pub fn joined_are_crew()
    ensures { (setup : Setup) (clients : ℕ) (board clock : List Made) (queues : List (List Made)) (own : List (List Stamped)) (noted : ℕ → List Stamped) → length own ≡ clients + length setup.servers → AllJoined setup clients board clock queues own noted
        → IsCrew setup clients (workers_of setup clients) (kept_at board clock queues own) noted }
{}

/// The merge of the homes of a crew is a list of events of which each meets its parts where they are asked.
pub fn crew_is_local()
    ensures { (setup : Setup) (clients workers : ℕ) (kept : Home → List Made) (noted : ℕ → List Stamped) (names : List Home) (homes : List Notes) (events : List Event) → IsCrew setup clients workers kept noted → AllMet setup kept → AreHomes names kept homes → IsMerged homes events → Local setup clients (reverse events) }
{}

/// At a home of a crew each event met what is asked of the home's events before it, where each worker has shown that of its own.
pub fn met_by_workers()
    ensures { (setup : Setup) (clients workers : ℕ) (kept : Home → List Made) (noted : ℕ → List Stamped) → IsCrew setup clients workers kept noted
        → (home : Home) → ((worker : ℕ) → worker < workers → All (MetAmong setup (noted_in (kept home))) (filter (stands_at setup clients home) (noted worker))) → AtEach (HomePart setup) (past_in (noted_in (kept home))) }
{}

/// Where at each queue of a crew each event met what is asked of the queue, if no request had been sent there while it waited, none
/// was sent so, and each event met it.
pub fn requests_are_new()
    ensures { (setup : Setup) (clients workers : ℕ) (kept : Home → List Made) (noted : ℕ → List Stamped) (names : List Home) (homes : List Notes) (events : List Event) → IsCrew setup clients workers kept noted → AreHomes names kept homes → IsMerged homes events
        → AtEach (HomePart setup) (past_in (noted_in (kept BoardHome))) → AtEach (HomePart setup) (past_in (noted_in (kept ClockHome))) → AllMetIfNew setup kept → AllNew setup kept × AllMet setup kept }
{}

/// Where each queue of a crew gave the next request by its own events, each take of the merge is the next by all events.
pub fn takes_in_order()
    ensures { (setup : Setup) (clients workers : ℕ) (kept : Home → List Made) (noted : ℕ → List Stamped) (names : List Home) (homes : List Notes) (events : List Event) → IsCrew setup clients workers kept noted → AllMet setup kept → AllNext setup kept → AreHomes names kept homes → IsMerged homes events → TakesInOrder setup (reverse events) }
{}

/// The merge of the homes of a domain, of which those that are shared stood under locks and each caller had its own, is a run.
pub fn crew_is_run()
    ensures { (setup : Setup) (clients workers : ℕ) (board clock : List Made) (queues : List (List Made)) (own : List (List Stamped)) (noted : ℕ → List Stamped) (homes : List Notes) (events : List Event) → IsCrew setup clients workers (kept_at board clock queues own) noted → AllMet setup (kept_at board clock queues own)
        → AreAll setup clients board clock queues own homes → IsMerged homes events → Run (opening setup clients) events (record { setup = setup; clients = clients; past = reverse events }) }
{}

/// A caller made its calls by all events where it did by its own and by what it saw and was told.
pub fn caller_made_calls()
    ensures { (setup : Setup) (clients workers : ℕ) (kept : Home → List Made) (noted : ℕ → List Stamped) (names : List Home) (homes : List Notes) (events : List Event) → IsCrew setup clients workers kept noted → AllMet setup kept → AreHomes names kept homes → IsMerged homes events
        → (caller : ℕ) → 0 < caller → caller < workers → (ops : List Op) → MadeOwn setup clients (λ home. noted_in (kept home)) caller ops (noted caller) → MadeCalls setup clients caller ops (reverse events) }
{}

/// What a server's returns and forwards became by its own events, and by what it saw, they became by all events.
pub fn server_finished()
    ensures { (setup : Setup) (clients workers : ℕ) (kept : Home → List Made) (noted : ℕ → List Stamped) (names : List Home) (homes : List Notes) (events : List Event) → IsCrew setup clients workers kept noted → AllMet setup kept → AreHomes names kept homes → IsMerged homes events
        → (server : ℕ) → 0 < server → caller_of clients server < workers → (all : List Finish) → FinishedOwn setup clients (λ home. noted_in (kept home)) server all (noted (caller_of clients server)) → FitsFinishes setup clients server all (reverse events) }
{}

/// What a caller was told of its calls by all events is what it was told by the events that it noted.
pub fn replies_are_own()
    ensures { (setup : Setup) (clients workers : ℕ) (kept : Home → List Made) (noted : ℕ → List Stamped) (names : List Home) (homes : List Notes) (events : List Event) → IsCrew setup clients workers kept noted → AreHomes names kept homes → IsMerged homes events
        → (caller : ℕ) → 0 < caller → caller < workers → (op : ℕ) → reply_at (reverse events) caller op ≡ reply_at (past_in (noted caller)) caller op }
{}

/// Where all is over by what each worker noted and by what stands at the queues, all is over on the merge: also each request
/// that was accepted was settled.
pub fn crew_is_final()
    ensures { (setup : Setup) (clients workers : ℕ) (kept : Home → List Made) (noted : ℕ → List Stamped) (names : List Home) (homes : List Notes) (events : List Event) → IsCrew setup clients workers kept noted → AllMet setup kept → AreHomes names kept homes → IsMerged homes events
        → clients + length setup.servers < workers → AllOver setup clients kept noted → IsFinal (record { setup = setup; clients = clients; past = reverse events }) }
{}

/// The stamps of a crew's homes are dense where each worker took one more than a stamp that it had seen, or than 0.
pub fn crew_is_dense()
    ensures { (setup : Setup) (clients workers : ℕ) (kept : Home → List Made) (noted : ℕ → List Stamped) (names : List Home) (homes : List Notes) → IsCrew setup clients workers kept noted → AreHomes names kept homes
        → ((worker : ℕ) → worker < workers → All (λ (x : Stamped). IsNextStamp (λ home. noted_in (kept home)) x.stamp) (noted worker)) → IsDense no_stamp homes }
{}
