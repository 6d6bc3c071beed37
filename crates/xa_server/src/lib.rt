//! A server's slot: it takes requests and ends them, and is started again as its rule says. Its contracts speak of its own
//! worker's events alone. Beside it stands what the seats of all workers show of answers.
#![tactic(auto)]

mod answering;
mod closing;
pub mod fillings;
mod forwarding;
pub mod laws;
mod noting;
mod served;
mod slot;

pub use closing::{Closing, Given};
pub use forwarding::Forwarding;
pub use served::Served;
pub use slot::{Last, ServerSlot};

// What crates above name of those below, in a module for each. A crate that is named whole would be written out once more in
// each layer, and each check would load all of it.
pub mod buffer {
    pub use xa_caller::buffer::Shapes;
}

pub mod caller {
    pub use xa_caller::{Aimed, Caller, Cargo, Filling, Left, Note, Prepared, Step, Stop, Why};
}

pub mod cell {
    pub use xa_caller::cell::{Cells, Filled, Seat};
}

pub mod events {
    pub use xa_caller::events::{Event, Evidence, StopCause};
}

pub mod held {
    pub use xa_caller::held::{
        AtQueue, BoardNote, Clearing, KeptBoard, KeptQueue, QueueNote, close_at,
    };
}

pub mod link {
    pub use xa_link::{Closed, Gate, Link, Point, Starter, Yard, stay};
}

pub mod lock {
    pub use xa_caller::lock::{Guarded, Held, LockPass, Made};
}

pub mod pipe {
    pub use xa_pipe::{Act, Acted, CutLife, EndedLife, Finish, Forward, Life, Pipes, Return};
}

pub mod queue {
    pub use xa_caller::queue::{Entry, GivenUp, Outgoing, PutRefused, Queue, Refusal, Taken};
}

pub mod restart {
    pub use xa_restart::Lives;
}

pub mod route {
    pub use xa_caller::route::{is_same, queue_named, queue_of, row_for};
}

pub mod stamp {
    pub use xa_caller::stamp::{Home, Noted, Record, merge};
}

pub mod types {
    pub use xa_caller::types::{
        Answer, Ask, CallFlags, CallerId, Data, Fault, Generation, Kind, Name, NoMemory, Octets,
        Op, QueueId, Reply, RequestId, Rval, Sequence, ServerId, ServiceSetup, Setup, Stamp, Worn,
    };
}

pub mod work {
    pub use xa_caller::work::{Halt, Own, Work};
}
