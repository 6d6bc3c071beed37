// What holds of the rows that a call may find.
ghost use Rattle.std.specs.Prelude.{◌≢◌, ℕ, Bool, List};
ghost use Rattle.std.specs.List.{AllPairs};
ghost use Rattle.xa_types.specs.declared.setup.Setup.{Setup};
ghost use Rattle.xa_types.specs.Rows.{Change, listed};

/// Of the rows that a call of a service sees no two are on one queue: so it tries each queue once.
pub fn each_queue_is_listed_once()
    ensures { (setup : Setup) (changes : List Change) (v : ℕ) (service : List ℕ) (conversational : Bool) →
        AllPairs (λ x y. x.queue ≢ y.queue) (listed setup changes v service conversational) }
{}
