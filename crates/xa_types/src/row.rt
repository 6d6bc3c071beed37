ghost use Rattle.std.specs.Prelude.{◌≡◌};
ghost use Rattle.xa_types.specs.Rows.{all_kinds};

use crate::{Name, QueueId};

/// The kinds of data that a service accepts: X_OCTET, and by one bit each the shapes in the order of the setup.
#[derive(Clone, Copy, PartialEq, Eq)]
pub struct Accepts {
    pub octet: bool,
    pub structs: u64,
}

impl Accepts {
    /// All kinds.
    pub fn all() -> Accepts
        ensures { result ≡ all_kinds }
    {
        Accepts {
            octet: true,
            structs: u64::MAX,
        }
    }
}

/// A row of the board: a service that is advertised on a queue.
#[derive(Clone, Copy, PartialEq, Eq)]
pub struct Row {
    pub service: Name,
    pub queue: QueueId,
    pub routine: Name,
    pub priority: u8,
    pub conversational: bool,
    pub accepts: Accepts,
}
