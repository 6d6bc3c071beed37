//! What the workers of a domain share, and what one of them has: its caller, and its passes of the board, of the queues and of
//! the clock.
//! Each call here is one step of that worker, at a shared home or at its own. Its contract speaks of what the worker noted,
//! saw and may tell, and of no other worker.
#![tactic(auto)]

mod calls;
mod changing;
mod clearing;
mod departure;
mod desk;
mod domain;
mod getting;
mod halting;
mod monitor;
mod passing;
mod serving;
mod setting;
mod signal;
mod stopped;
mod ticking;
mod visit;

pub use calls::Unsent;
pub use departure::Done;
pub use desk::Desk;
pub use domain::{Domain, Waits};
pub use halting::HaltWord;
pub use monitor::Monitor;
pub use passing::NotPassed;
pub use serving::Took;
pub use signal::Signals;
pub use stopped::Stopped;

// What crates above name of those below.
pub use xa_server::{
    buffer, caller, cell, events, held, link, lock, pipe, queue, restart, route, stamp, types, work,
};

pub mod board {
    pub use xa_board::{Board, Reader};
}

pub mod clock {
    pub use xa_ticks::Clock;
}

// What xa_server itself has.
pub mod server {
    pub use xa_server::{Closing, Forwarding, Given, Last, Served, ServerSlot};
}
