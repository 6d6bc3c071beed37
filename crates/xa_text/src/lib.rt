//! The lines that the program prints: what a client was told of each of its calls.
#![tactic(auto)]

pub mod laws;
mod line;
mod transcribing;

pub use line::push_line;
pub use transcribing::{calls_in_turn, transcript};
