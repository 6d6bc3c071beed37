//! The clock: it shows a tick, and clients move it on. Each move is an event, noted in the clock's own home with a stamp. A worker
//! looks at it, or moves it on, under its lock.
#![tactic(auto)]

mod clock;
pub mod laws;
mod visits;

pub use clock::{Clock, Moment, TickRefused, deadline};
pub use visits::{AtClock, read_at, tick_at};
