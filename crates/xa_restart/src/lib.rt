//! When a server may be started again: RESTART, MAXGEN and GRACE (after Tuxedo, UBBCONFIG). GRACE counts ticks.
#![tactic(auto)]

mod laws;
mod lives;

pub use laws::{no_start_is_earlier, rule_is_the_machines};
pub use lives::Lives;
