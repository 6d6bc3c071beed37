//! What holds of all homes. Each law is the clause of a function without arguments.
ghost use Rattle.std.specs.Prelude.{◌≡◌, ◌<◌, List};
ghost use Rattle.std.specs.List.{AllPairs};
ghost use Rattle.xa_types.specs.declared.stamp.Stamp.{Stamp};
ghost use Rattle.xa_events.specs.declared.event.Event.{Event};
ghost use Rattle.xa_stamp.specs.declared.home.Stamped.{Stamped};
ghost use Rattle.xa_stamp.specs.Home.{Notes, Rises};
ghost use Rattle.xa_stamp.specs.Merge.{IsMerged};

/// Homes have one merge at most.
pub fn one_merge()
    ensures { (homes : List Notes) (one other : List Event) → IsMerged homes one → IsMerged homes other → one ≡ other }
{}

/// Of two events of one home the later one has the greater stamp, so no two have the same. Events of different homes may.
pub fn stamps_differ()
    ensures { (first : Stamp) (entries : List Stamped) → Rises first entries → AllPairs (λ earlier later. earlier.stamp.0 < later.stamp.0) entries }
{}
