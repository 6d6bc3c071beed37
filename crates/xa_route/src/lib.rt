//! Where a call goes: which queue its request is put on, whether a row takes its data, and with which priority.
#![tactic(auto)]

mod choice;
mod laws;
mod priorities;
mod rows;
mod setups;

pub use choice::choose;
pub use laws::each_queue_is_listed_once;
pub use priorities::priority;
pub use rows::{admits, is_same, place_of_shape, row_for};
pub use setups::{queue_named, queue_of, server_at};
