//! A worker's book of all that it noted, and the law of joined workers: threads whose homes make one history. The definitions
//! stand in `specs/`.
#![tactic(auto)]

mod entering;
mod going;
pub mod laws;
mod own;
mod work;

pub use entering::note_under;
pub use going::{calls_go_on, told_goes_on, work_is_work};
pub use own::Own;
pub use work::{Halt, Work};
