//! A caller: it sends requests, and is told what befell them. Its contracts speak of its own events alone.
#![tactic(auto)]

mod asking;
mod caller;
mod cargo;
mod choosing;
mod descriptors;
mod getting;
mod laws;
mod leaving;
mod outcomes;
mod phase;
mod serving;
mod telling;

pub use caller::{Caller, Left};
pub use cargo::{Cargo, Filling};
pub use choosing::{first_row, row_at};
pub use laws::{chosen_is_first, request_is_as_asked};
pub use outcomes::{Aimed, Note, Prepared, Step, Stop, Why};
pub use phase::{Draft, Open, Phase};

// What crates above name of those below, in a module for each. A crate that is named whole would be written out once more in
// each layer, and each check would load all of it.
pub mod buffer {
    pub use xa_buffer::Shapes;
}

pub mod cell {
    pub use xa_cell::{Cells, Filled, Seat, Ticket};
}

pub mod events {
    pub use xa_events::{
        Doing, Ended, Event, Evidence, Forwarded, Outcome, Started, StopCause, Stopped,
    };
}

pub mod held {
    pub use xa_held::{
        AtQueue, BoardNote, Clearing, Invocation, KeptBoard, KeptQueue, QueueNote, close_at,
    };
}

pub mod lock {
    pub use xa_lock::{Guarded, Held, LockPass, Made};
}

pub mod queue {
    pub use xa_queue::{Entry, GivenUp, Outgoing, PutRefused, Queue, Refusal, Taken};
}

pub mod route {
    pub use xa_route::{is_same, priority, queue_named, queue_of, row_for};
}

pub mod stamp {
    pub use xa_stamp::{Home, Noted, Record, merge};
}

pub mod types {
    pub use xa_types::{
        Answer, Ask, CallFlags, CallerId, Data, Fault, Found, Generation, Kind, Name, NoMemory,
        Octets, Op, QueueId, Reply, RequestId, Row, Rval, Sequence, ServerId, ServiceSetup, Setup,
        Stamp, Worn,
    };
}

pub mod work {
    pub use xa_worker::{Halt, Own, Work};
}
