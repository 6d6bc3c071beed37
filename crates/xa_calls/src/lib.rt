//! How a caller makes one call at its desk: a client, or a server that is busy with a request.
#![tactic(auto)]

mod calling;
mod getting;
mod sending;
mod telling;

pub use calling::perform;
pub use telling::Told;
