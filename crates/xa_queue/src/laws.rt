//! What holds of every queue. Each law is the clause of a function without arguments.
ghost use Rattle.std.specs.Prelude.{◌≡◌, ℕ, ◌∷◌, ◌++◌, List, map, Some};
ghost use Rattle.std.specs.List.{All};
ghost use Rattle.xa_types.specs.declared.ids.RequestId.{RequestId};
ghost use Rattle.xa_events.specs.Order.{next_of};
ghost use Rattle.xa_queue.specs.declared.entry.Entry.{Entry};
ghost use Rattle.xa_queue.specs.Line.{IsNext};

/// The entry that the k-th take gives is the one that the machine's order of takes names.
pub fn takes_in_order<C>()
    ensures { (priority : RequestId → ℕ) (k : ℕ) (front back : List (Entry C)) (entry : Entry C) → All (λ waits. priority waits.request ≡ waits.priority) (front ++ entry ∷ back) → IsNext k front entry back →
        next_of priority (map (λ waits. waits.request) (front ++ entry ∷ back)) k ≡ Some entry.request }
{}
