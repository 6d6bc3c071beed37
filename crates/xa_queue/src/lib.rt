//! The queue of a domain: entries wait by priority and age, and each of its events is noted in its own home with a stamp.
#![tactic(auto)]

mod entry;
mod lanes;
pub mod laws;
mod line;
mod queue;
mod rest;
mod told;

pub use entry::Entry;
pub use queue::{PutRefused, Queue, Refusal, Taken};
pub use rest::Rest;
pub use told::{GivenUp, Outgoing};
