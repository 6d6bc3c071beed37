use crate::words::NoForm;
use std::alloc::{AllocError, AllocFailed};
use xa_types::NoMemory;

/// Why no event is read.
#[derive(Clone, Copy, Debug, PartialEq, Eq)]
pub enum EventRefused {
    /// The line is no event's.
    NoEvent,
    NoMemory,
}

impl From<NoForm> for EventRefused {
    ghost use Rattle.std.specs.Prelude.{◌≡◌};
    ghost use Rattle.xa_lines.specs.declared.refusal.EventRefused.TheVariants as refusals;

    ghost from_gives = { λ _ e. e ≡ refusals.NoEvent };

    fn from(_: NoForm) -> Self {
        EventRefused::NoEvent
    }
}

impl From<NoMemory> for EventRefused {
    ghost use Rattle.std.specs.Prelude.{◌≡◌};
    ghost use Rattle.xa_lines.specs.declared.refusal.EventRefused.TheVariants as refusals;

    ghost from_gives = { λ _ e. e ≡ refusals.NoMemory };

    fn from(_: NoMemory) -> Self {
        EventRefused::NoMemory
    }
}

impl From<AllocError> for EventRefused {
    ghost use Rattle.std.specs.Prelude.{◌≡◌};
    ghost use Rattle.xa_lines.specs.declared.refusal.EventRefused.TheVariants as refusals;

    ghost from_gives = { λ _ e. e ≡ refusals.NoMemory };

    fn from(_: AllocError) -> Self {
        EventRefused::NoMemory
    }
}

impl<T: Drop> From<AllocFailed<T>> for EventRefused {
    ghost use Rattle.std.specs.Prelude.{◌≡◌};
    ghost use Rattle.xa_lines.specs.declared.refusal.EventRefused.TheVariants as refusals;

    ghost from_gives = { λ _ e. e ≡ refusals.NoMemory };

    fn from(_: AllocFailed<T>) -> Self {
        EventRefused::NoMemory
    }
}
