//! From what the desks of a domain's workers show to what holds of all homes. Each law is the clause of a function without
//! arguments.
ghost use Rattle.std.specs.Prelude.{◌≡◌, ℕ, ◌<◌, List, Some, length, false};
ghost use Rattle.std.specs.List.{All};
ghost use Rattle.xa_client_worker.specs.xa_types.declared.call.Op.{Op};
ghost use Rattle.xa_client_worker.specs.xa_types.Setup.{numbered};
ghost use Rattle.xa_client_worker.specs.xa_events.Calls.{awaits_answer};
ghost use Rattle.xa_client_worker.specs.xa_events.Caller.{last_op, newest_call};
ghost use Rattle.xa_client_worker.specs.xa_events.Local.{worker_events};
ghost use Rattle.xa_client_worker.specs.xa_stamp.declared.home.Stamped.{Stamped};
ghost use Rattle.xa_client_worker.specs.xa_lock.Makers.{noted_in};
ghost use Rattle.xa_client_worker.specs.xa_worker.Calls.{MadeOwn};
ghost use Rattle.xa_client_worker.specs.xa_worker.Crew.{IsCrew, AllMet, IsNextStamp};
ghost use Rattle.xa_client_worker.specs.xa_worker.Ending.{workers_of};
ghost use Rattle.xa_client_worker.specs.xa_worker.Orders.{AllNext};
ghost use Rattle.xa_client_worker.specs.xa_worker.Seen.{past_in};
ghost use Rattle.xa_client_worker.specs.xa_worker.Work.{WorkState};
ghost use Rattle.xa_client_worker.specs.xa_desk.declared.domain.Domain.{Domain};
ghost use Rattle.xa_client_worker.specs.xa_desk.declared.desk.Desk.{Desk};
ghost use Rattle.xa_client_worker.specs.xa_desk.Desks.{GoesOn, FitsCalls};
ghost use Rattle.xa_history.specs.Joined.{Back, AllLeft, whole_of, kept_of, noted_of};

/// What each desk asks of the homes in the end holds of them, once all workers have left.
pub fn desks_go_on()
    ensures { (d : Domain) (b : Back) (domain : WorkState) (desks : List Desk) → AllLeft d b domain desks → All (GoesOn d (whole_of d b)) desks }
{}

/// Workers that have left are a crew.
pub fn desks_are_crew()
    ensures { (d : Domain) (b : Back) (domain : WorkState) (desks : List Desk) → AllLeft d b domain desks → IsCrew d.setup d.clients (workers_of d.setup d.clients) (kept_of b) (noted_of domain desks) }
{}

/// At each shared home each event met what is asked of the home's events before it, and each take of a queue gave the next
/// request.
pub fn homes_are_met()
    ensures met { (d : Domain) (b : Back) (domain : WorkState) (desks : List Desk) → AllLeft d b domain desks → AllMet d.setup (kept_of b) }
    ensures next { (d : Domain) (b : Back) (domain : WorkState) (desks : List Desk) → AllLeft d b domain desks → AllNext d.setup (kept_of b) }
{}

/// Each stamp of a worker is one more than that of an event, or than 0.
pub fn stamps_are_next()
    ensures { (d : Domain) (b : Back) (domain : WorkState) (desks : List Desk) → AllLeft d b domain desks
        → (worker : ℕ) → worker < workers_of d.setup d.clients → All (λ (x : Stamped). IsNextStamp (λ home. noted_in (kept_of b home)) x.stamp) (noted_of domain desks worker) }
{}

/// A caller whose desk shows that each of its events fits a call, and which came to its last one, made its calls by its own
/// events and by what it saw.
pub fn caller_made_its_own()
    ensures { (d : Domain) (b : Back) (domain : WorkState) (desks : List Desk) → AllLeft d b domain desks → (caller : ℕ) (desk : Desk) → numbered caller desks ≡ Some desk → (ops : List Op) → FitsCalls d ops desk
        → last_op caller (worker_events d.clients caller (past_in desk.caller.work.own)) ≡ length ops → awaits_answer ops (newest_call caller (worker_events d.clients caller (past_in desk.caller.work.own))) ≡ false
        → MadeOwn d.setup d.clients (λ home. noted_in (kept_of b home)) caller ops (noted_of domain desks caller) }
{}
