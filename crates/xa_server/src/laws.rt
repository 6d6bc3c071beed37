//! What holds of slots and closings.
ghost use Rattle.xa_caller.specs.xa_worker.Work.{WorkState};
ghost use Rattle.xa_server.specs.declared.slot.ServerSlot.{ServerSlot};
ghost use Rattle.xa_server.specs.Slot.{Stands, SameWork};
ghost use Rattle.std.specs.Prelude.{◌≡◌, ◌≤◌, List, [], ◌++◌, Some, IsSome, IsSomeAnd};
ghost use Rattle.std.specs.List.{Contains};
ghost use Rattle.xa_caller.specs.xa_types.declared.stamp.Stamp.{Stamp};
ghost use Rattle.xa_caller.specs.xa_types.declared.ids.QueueId.{QueueId};
ghost use Rattle.xa_caller.specs.xa_types.declared.ids.ServerId.{ServerId};
ghost use Rattle.xa_caller.specs.xa_types.Setup.{numbered};
ghost use Rattle.xa_caller.specs.xa_events.State.{caller_of};
ghost use Rattle.xa_restart.specs.Rule.{RestartState, IsRuleOf};
ghost use Rattle.xa_caller.specs.xa_events.declared.event.Event.{Event};
ghost use Rattle.xa_caller.specs.xa_events.declared.event.Event.TheVariants.{Sweep};
ghost use Rattle.xa_caller.specs.xa_events.declared.event.Outcome.{Outcome};
ghost use Rattle.xa_caller.specs.xa_events.declared.event.StopCause.{StopCause};
ghost use Rattle.xa_caller.specs.xa_queue.declared.entry.Entry.{Entry};
ghost use Rattle.xa_caller.specs.Caller.{CallerState};
ghost use Rattle.xa_caller.specs.Drafts.{Cargo};
ghost use Rattle.xa_caller.specs.xa_events.Answers.{reply_of};
ghost use Rattle.xa_caller.specs.xa_events.Request.Settlement.{EndedBy, SweptAway};
ghost use Rattle.xa_caller.specs.xa_stamp.declared.home.Stamped.{Stamped};
ghost use Rattle.xa_caller.specs.xa_stamp.Home.{last_stamp};
ghost use Rattle.xa_caller.specs.xa_worker.Crew.{no_stamp};
ghost use Rattle.xa_caller.specs.xa_cell.declared.view.View.{View};
ghost use Rattle.xa_caller.specs.declared.cargo.Filling.{Filling};
ghost use Rattle.xa_server.specs.declared.closing.Closing.{Closing};
ghost use Rattle.xa_server.specs.declared.closing.Given.{Given};
ghost use Rattle.xa_server.specs.Forwarding.{IsOnWay};
ghost use Rattle.xa_server.specs.Changes.{closing_of, new_slot, Ends, Closes, Finishes, Dies};
ghost use Rattle.xa_server.specs.Told.{GivenAs, FilledByEnds, HasStamp, IsBacked, NamesIts};

/// The slot of a server that was never started stands, where its worker has noted nothing and the server is configured with
/// its rule.
pub fn new_slots_stand()
    ensures { (server : ServerId) (restarts : RestartState) (w : WorkState) → caller_of w.clients server.0 ≡ w.id.0 → IsSomeAnd (numbered server.0 w.setup.servers) (λ configured. IsRuleOf configured restarts.restart restarts.maxgen restarts.grace)
        → restarts.starts ≡ [] → w.own ≡ [] → Stands (new_slot server restarts) w }
{}

/// A slot that stands on its worker's events does so also where the worker saw a stamp, made room, or noted an event of the
/// domain.
pub fn still_stands()
    ensures { (slot : ServerSlot) (old new : WorkState) → SameWork new old → Stands slot old → Stands slot new }
{}

/// So a request that is out stays on its way, where what its caller set and read stays too.
pub fn still_on_way()
    ensures { (entry : Entry Cargo) (event : Event) (slot : ServerSlot) (old new : CallerState) → SameWork new.work old.work → new.least ≡ old.least → new.priority ≡ old.priority → IsOnWay entry event slot old → IsOnWay entry event slot new }
{}

/// What a slot closes has its end among what its worker noted, with the stamp that the closing carries.
pub fn closings_are_backed()
    ensures { (outcome : Outcome) (stamp : Stamp) (closing : Closing) (after before : ServerSlot) (new old : WorkState) → Ends outcome stamp after before new old
        → Closes (reply_of (EndedBy outcome)) stamp before.hand closing → NamesIts before.hand → IsBacked new.own closing }
{}

/// So it is with what the return or the death of a life closes, and its stamp is no greater than that of the worker's last
/// event.
pub fn answers_are_backed()
    ensures finishes { (outcome : Outcome) (closing : Closing) (after before : ServerSlot) (new old : WorkState) → Finishes outcome closing after before new old → NamesIts before.hand → IsBacked new.own closing × (closing.stamp.0 ≤ last_stamp no_stamp new.own) }
    ensures dies { (cause : StopCause) (closing : Closing) (after before : ServerSlot) (new old : WorkState) → Dies cause closing after before new old → NamesIts before.hand → IsBacked new.own closing × (closing.stamp.0 ≤ last_stamp no_stamp new.own) }
{}

/// What is closed of a request that was swept has its sweep among entries where that stands with its stamp.
pub fn sweeps_are_backed()
    ensures { (entries : List Stamped) (entry : Entry Cargo) (queue : QueueId) (stamp : Stamp) → Contains entries (record { stamp = stamp; event = Sweep (record { request = entry.request; queue = queue }) })
        → NamesIts (Some entry) → IsBacked entries (closing_of entry (Some (reply_of SweptAway)) stamp tt) }
{}

/// Where each filling of a seat has its end or its sweep among a worker's entries, it does so also behind the `give` of a
/// closing that has its own there.
pub fn given_answers_have_ends()
    ensures { (entries : List Stamped) (closing : Closing) (stamp : Stamp) (before after : View Filling) (given : Given) → GivenAs closing stamp before after given
        → closing.stamp.0 ≤ stamp.0 → (IsSome closing.answer → HasStamp entries stamp) → IsBacked entries closing → FilledByEnds entries before → FilledByEnds entries after }
{}

/// And with further entries.
pub fn ends_stay()
    ensures fillings { (entries further : List Stamped) (view : View Filling) → FilledByEnds entries view → FilledByEnds (entries ++ further) view }
    ensures closings { (entries further : List Stamped) (closing : Closing) → IsBacked entries closing → IsBacked (entries ++ further) closing }
{}
