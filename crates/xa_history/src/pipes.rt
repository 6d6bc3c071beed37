//! From what the workers of servers show to what holds of the merge of all homes. Each law is the clause of a function without
//! arguments.
ghost use Rattle.std.specs.Prelude.{◌≡◌, ℕ, ◌+◌, ◌<◌, List, Some, map, reverse, ⊤};
ghost use Rattle.xa_client_worker.specs.xa_types.Setup.{numbered};
ghost use Rattle.xa_client_worker.specs.xa_events.declared.event.Event.{Event};
ghost use Rattle.xa_client_worker.specs.xa_events.Local.{worker_events};
ghost use Rattle.xa_client_worker.specs.xa_events.State.{caller_of};
ghost use Rattle.xa_client_worker.specs.xa_events.Words.{EachNumbered};
ghost use Rattle.xa_client_worker.specs.xa_stamp.Home.{Notes};
ghost use Rattle.xa_client_worker.specs.xa_stamp.Merge.{IsMerged};
ghost use Rattle.xa_client_worker.specs.xa_worker.Work.{WorkState, theirs};
ghost use Rattle.xa_client_worker.specs.xa_desk.declared.domain.Domain.{Domain};
ghost use Rattle.xa_client_worker.specs.xa_desk.declared.desk.Desk.{Desk};
ghost use Rattle.xa_history.specs.Joined.{Back, AllLeft};
ghost use Rattle.xa_history.specs.Ended.{ServerEnd, Ends};
ghost use Rattle.xa_history.specs.Served.{HoldAll, IsCarried, AreLivesSoFar, IsStarterSoFar};

/// Of a server's worker the merge has the events that it noted, in its order.
pub fn server_events_are_own()
    ensures { (d : Domain) (b : Back) (domain : WorkState) (desks : List Desk) (homes : List Notes) (events : List Event) → AllLeft d b domain desks → HoldAll d b homes → IsMerged homes events
        → (server : ℕ) (desk : Desk) → 0 < server → numbered (d.clients + server) desks ≡ Some desk → worker_events d.clients (caller_of d.clients server) (reverse events) ≡ theirs desk.caller.work }
{}

/// What the workers show of their servers' lives and starts is what the events of the merge say of them, also where the run
/// came to a halt.
pub fn lives_are_the_runs_so_far()
    ensures lives { (d : Domain) (b : Back) (domain : WorkState) (desks : List Desk) (servers : List ServerEnd) (homes : List Notes) (events : List Event) → Ends d b domain desks servers homes ⊥ → IsMerged homes events
        → AreLivesSoFar d.setup (reverse events) (map (λ (x : ServerEnd). x.lives) servers) (map (λ (x : ServerEnd). x.cut) servers) }
    ensures starters { (d : Domain) (b : Back) (domain : WorkState) (desks : List Desk) (servers : List ServerEnd) (homes : List Notes) (events : List Event) → Ends d b domain desks servers homes ⊥ → IsMerged homes events
        → EachNumbered (λ server (x : ServerEnd). IsStarterSoFar d.setup server x.shown (reverse events)) 1 servers }
{}

/// Where each worker came to its end, what went through the pipes is what the events of the merge say.
pub fn lives_are_the_runs()
    ensures { (d : Domain) (b : Back) (domain : WorkState) (desks : List Desk) (servers : List ServerEnd) (homes : List Notes) (events : List Event) → Ends d b domain desks servers homes ⊤ → IsMerged homes events
        → IsCarried (λ (x : ServerEnd). x.shown) d.setup d.clients (reverse events) (map (λ (x : ServerEnd). x.lives) servers) servers }
{}
