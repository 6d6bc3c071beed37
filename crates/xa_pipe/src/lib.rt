//! The monitor's end of the two pipes of one life of a server: what it writes, what it reads, and why a life ends.
//!
//! The server's program says READY with its name and NEXT, and to each INVOKE any number of OPs, then a RETURN or a
//! FORWARD, and NEXT; after a RETURN with TPEXIT it says nothing more. To each OP the monitor writes a REPLY before it
//! reads on. A `Life` is one such life with its link; whoever calls it can't go on with a life that has ended. `Pipe` is
//! what it reads and writes by.
#![tactic(auto)]

mod course;
mod hearing;
mod laws;
mod life;
mod noted;
mod over;
mod pipe;
mod turn;

pub use hearing::{Act, Finish, Forward, Return};
pub use laws::{ends_as_said, lives_are_carried};
pub use life::{Acted, Life};
pub use over::{CutLife, EndedLife, Pipes};
pub use pipe::Pipe;
pub use turn::{Turn, Written};
