//! Homes: where events are noted, each with its stamp, and the merge of all homes into one list.
#![tactic(auto)]

mod home;
pub mod laws;
mod merging;
mod told;

pub use home::{Home, Stamped};
pub use merging::{Place, Record, merge};
pub use told::Noted;
