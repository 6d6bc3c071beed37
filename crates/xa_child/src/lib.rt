//! The program of a server: what it says to each frame, its work on an input and an output, and the same program in
//! memory.
#![tactic(auto)]

mod calling;
mod child;
mod doing;
mod local;
mod routines;
mod serving;
mod working;

pub use child::{Child, ChildRefused, child_step};
pub use local::{LocalLink, LocalStarter, LocalYard};
pub use working::{WorkRefused, work};
