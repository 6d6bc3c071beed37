//! What a request that a caller makes has of what was asked.
ghost use Rattle.std.specs.Prelude.{◌≡◌, ℕ, ℤ, Bool, List, Option, Some, slice_get, false};
ghost use Rattle.std.specs.List.{find};
ghost use Rattle.xa_types.specs.declared.call.Ask.{Ask};
ghost use Rattle.xa_types.specs.declared.call.Mode.TheVariants.{Reply};
ghost use Rattle.xa_types.specs.declared.data.Data.{Data};
ghost use Rattle.xa_types.specs.declared.ids.RequestId.{RequestId};
ghost use Rattle.xa_types.specs.declared.row.Row.{Row};
ghost use Rattle.xa_types.specs.declared.setup.Setup.{Setup};
ghost use Rattle.xa_types.specs.Kind.{is_accepted, kind_of};
ghost use Rattle.xa_types.specs.Rows.{row_for};
ghost use Rattle.xa_events.specs.Calls.{AskSent, is_invalid_call};
ghost use Rattle.xa_caller.specs.Caller.{AreRowsOf};
ghost use Rattle.xa_caller.specs.Drafts.{accepted_by};

/// The row that `prepare` takes is the first that was found, so further attempts begin with the second.
pub fn chosen_is_first()
    ensures { (setup : Setup) (service : List ℕ) (payload : Data) (rows : List Row) (row : Row) → AreRowsOf setup service rows
        → find (λ (one : Row). is_accepted setup one.accepts (kind_of payload)) rows ≡ Some row → slice_get rows 0 ≡ Some row }
{}

/// The event that accepts a request is one of its tpcall, by whichever row of the service and with
/// whichever priority.
pub fn request_is_as_asked()
    ensures { (setup : Setup) (ask : Ask) (op version : ℕ) (request : RequestId) (row : Row) (asked : Option (Bool × ℤ)) → is_invalid_call setup ask ≡ false → row ≡ row_for setup ask.service row.queue.0 row.routine
        → AskSent (is_invalid_call setup ask) Reply ask (accepted_by op request version row asked ask.payload) }
{}
