//! Queues and the board as a lock guards them. Each call says which event was noted with which stamp, and how the queue or the
//! board changed; the definitions beside it, what a pass knew before a visit and knows after.
#![tactic(auto)]

mod cargo;
mod kept_board;
mod kept_queue;
pub mod laws;
mod queues;

pub use cargo::{Cargo, Invocation};
pub use kept_board::{BoardNote, Clearing, KeptBoard, Look};
pub use kept_queue::{KeptQueue, QueueNote, Setting};
pub use queues::{AtQueue, close_at};
