//! What a run of a domain comes to, by how its workers ended. Each law is the clause of a function without arguments.
ghost use Rattle.std.specs.Prelude.{◌≡◌, ◌^◌, List, map, reverse, ⊤};
ghost use Rattle.std.specs.List.{All, Contains};
ghost use Rattle.xa_client_worker.specs.xa_types.declared.call.Op.{Op};
ghost use Rattle.xa_client_worker.specs.xa_events.declared.event.Event.{Event};
ghost use Rattle.xa_client_worker.specs.xa_events.Run.{Run};
ghost use Rattle.xa_client_worker.specs.xa_events.State.{opening};
ghost use Rattle.xa_client_worker.specs.xa_stamp.Home.{Notes};
ghost use Rattle.xa_client_worker.specs.xa_stamp.Merge.{IsDense, IsMerged, stamps_of};
ghost use Rattle.xa_client_worker.specs.xa_worker.Work.{WorkState};
ghost use Rattle.xa_script.specs.declared.script.Client.{Client};
ghost use Rattle.xa_client_worker.specs.xa_desk.declared.domain.Domain.{Domain};
ghost use Rattle.xa_client_worker.specs.xa_desk.declared.desk.Desk.{Desk};
ghost use Rattle.xa_client_worker.specs.xa_desk.Made.{IsMade};
ghost use Rattle.xa_history.specs.Joined.{Back, AllLeft};
ghost use Rattle.xa_history.specs.Ended.{ServerEnd, Ends, EndsWhole};
ghost use Rattle.xa_history.specs.Served.{HoldAll, IsRecorded, IsHistory};

/// Each event stands at its own home, stamps rise there and leave none out, and each answer tells what befell its request,
/// behind the end of a life that ended with that.
pub fn all_is_recorded()
    ensures recorded { (d : Domain) (b : Back) (domain : WorkState) (desks : List Desk) (servers : List ServerEnd) (homes : List Notes) → Ends d b domain desks servers homes ⊥ → IsRecorded d.setup d.clients homes }
    ensures dense { (d : Domain) (b : Back) (domain : WorkState) (desks : List Desk) (homes : List Notes) → AllLeft d b domain desks → HoldAll d b homes → IsDense (record { 0 = 0 }) homes }
{}

/// The merge of the homes is a run, whose events are those that workers make.
pub fn ends_are_a_run()
    ensures run { (d : Domain) (b : Back) (domain : WorkState) (desks : List Desk) (homes : List Notes) (events : List Event) → AllLeft d b domain desks → HoldAll d b homes → IsMerged homes events
        → Run (opening d.setup d.clients) events (record { setup = d.setup; clients = d.clients; past = reverse events }) }
    ensures made { (d : Domain) (b : Back) (domain : WorkState) (desks : List Desk) (homes : List Notes) (events : List Event) → AllLeft d b domain desks → HoldAll d b homes → IsMerged homes events → All IsMade (reverse events) }
{}

/// Where a worker's stamp came to its end an event has that stamp.
pub fn worn_is_noted()
    ensures { (d : Domain) (b : Back) (domain : WorkState) (desks : List Desk) (homes : List Notes) → AllLeft d b domain desks → HoldAll d b homes → (desk : Desk) → Contains desks desk → desk.caller.work.stamp.0 ≡ 2 ^ 63 → Contains (stamps_of homes) (2 ^ 63) }
{}

/// Where each server is done, each client made its calls and each queue was closed, the merge of the homes is one whole history.
pub fn ends_are_history()
    ensures { (d : Domain) (b : Back) (domain : WorkState) (desks : List Desk) (servers : List ServerEnd) (homes : List Notes) (calls : List (List Op)) (clients : List Client) (events : List Event) → Ends d b domain desks servers homes ⊤ → EndsWhole d b desks calls
        → calls ≡ map (λ (c : Client). c.ops) clients → IsMerged homes events → IsHistory d.setup clients events }
{}
