//! What is told of an event that was noted, to whoever keeps a list of its own.
ghost use Rattle.std.specs.Prelude.{◌≡◌, ◌^◌, ◌≤◌};

use std::snapshot::Snapshot;
use xa_events::Event;
use xa_types::Stamp;

/// An event that was noted, as contracts see it, and its stamp, which is at most 2^63. The event takes no octets.
#[derive(Drop)]
pub struct Noted {
    pub stamp: Stamp,
    pub event: Snapshot<Event>,
    ghost bound: { stamp.0 ≤ 2 ^ 63 },
}

impl Noted {
    /// The event with its stamp, which is at most 2^63.
    pub fn of(stamp: Stamp, event: &Event) -> Noted
        requires { stamp.0 ≤ 2 ^ 63 }
        ensures stamp { result.stamp ≡ stamp }
        ensures event { result.event.value ≡ event.now }
    {
        Noted {
            stamp,
            event: Snapshot::of(event),
        }
    }
}
