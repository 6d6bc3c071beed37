//! The board: which services are advertised on which queues, and what a lookup of a service finds there.
#![tactic(auto)]

mod board;
pub mod laws;
mod reader;
mod rows;

pub use board::{Board, BoardRefused, Changed};
pub use reader::Reader;
