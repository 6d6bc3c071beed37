//! A client's worker: it makes its calls one after another, and leaves.
#![tactic(auto)]

mod working;

pub use working::{ClientWorker, Ended, client_work};
pub use xa_calls::perform;

// What crates above name of those below.
pub use xa_desk::{
    board, buffer, caller, cell, clock, events, held, link, lock, pipe, queue, restart, route,
    server, stamp, types, work,
};

// What xa_desk itself has.
pub mod desk {
    pub use xa_desk::{
        Desk, Domain, Done, HaltWord, Monitor, NotPassed, Signals, Stopped, Took, Unsent, Waits,
    };
}
