//! A level between 0 and a limit that workers move by one. There is no lock. All calls have one legal order, in which a
//! refusal stands only where the level was at its limit or at 0, and each pass knows its own calls in it.
#![tactic(auto)]

mod ends;
mod gauge;
mod moves;
mod rules;
mod steps;

pub use gauge::{Gauge, GaugePass};
pub use moves::{Knows, Limits, Move};
