//! The pool of blocks, each with room for the data of one request or message. Workers take blocks and give them back; there
//! is no lock. A block is with one holder, and at the end those at home and those out are as many as at the boot.
#![tactic(auto)]

mod block;
mod calls;
mod ends;
mod pool;

pub use block::{Block, TooLong};
pub use calls::Empty;
pub use pool::{BlockPass, Pool};
