//! Records of runs, and what a record comes to.
#![tactic(auto)]

mod auditing;
mod judging;
mod laws;
mod reading;
mod telling;
mod writing;

pub use auditing::{AuditRefused, audit};
pub use judging::{Verdict, judge};
pub use laws::one_answer;
pub use telling::verdict_line;
pub use writing::write;
