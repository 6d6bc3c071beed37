//! What holds of every board.
ghost use Rattle.std.specs.Prelude.{◌≡◌, ℕ, Bool, List};
ghost use Rattle.std.specs.List.{All};
ghost use Rattle.xa_types.specs.declared.setup.Setup.{Setup};
ghost use Rattle.xa_events.specs.Board.{rows_of_version, listed_in};
ghost use Rattle.xa_board.specs.Board.{BoardState, ReadsAsNoted, IsAsConfigured, past_of, version_of, rows_seen};

/// Where each row that stands has the attributes that the setup gives its service, the rows are those of the version that
/// the events have, and a call of a service sees those that are listed for it there.
pub fn rows_are_listed()
    ensures { (setup : Setup) (board : BoardState) → ReadsAsNoted board → All (IsAsConfigured setup) board.rows →
        (board.rows ≡ rows_of_version setup (past_of board) (version_of board))
        × ((service : List ℕ) (conversational : Bool) → rows_seen service conversational board.rows ≡ listed_in setup (past_of board) (version_of board) service conversational) }
{}
