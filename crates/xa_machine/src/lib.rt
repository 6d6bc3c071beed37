//! The machine computed: which event may come next, by tables of what the events so far come to.
//!
//! `Machine::step` takes an event exactly where it may come next, of every kind. Where `replay` answers Ok the events are
//! a run, and every law of a run holds of them; else it tells the least place whose event may not come next. `is_final`
//! says whether nothing is left to do, and `takes_next` whether a take is in its queue's order.
#![tactic(auto)]

mod admits;
mod advertising;
mod called;
mod caller;
mod conversing;
mod ending;
mod finishing;
mod holding;
mod laws;
mod machine;
mod meeting;
mod opening;
mod order;
mod queued;
mod refusing;
mod replaying;
mod sending;
mod served;
mod setups;
mod standing;
mod tables;
mod talking;
mod telling;
mod words;

pub use laws::runs_are_lawful;
pub use machine::{Machine, StepRefused};
pub use replaying::{ReplayRefused, replay};
