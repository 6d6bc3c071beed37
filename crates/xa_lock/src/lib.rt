//! A lock over a list of entries. Each maker has one pass, which knows the maker's own entries and what it saw last. Who
//! enters gets the value, adds entries of its own, and leaves with it. Once all passes are back, each maker's entries in
//! the value are those that its pass knows as its own. No value of `Page` is made: it is what contracts see.
#![tactic(auto)]

mod chronicle;
mod guarded;
mod held;
mod homes;
pub mod laws;
mod makers;
mod pass;
mod rule;
mod waiting;

pub use chronicle::Chronicle;
pub use guarded::Guarded;
pub use held::Held;
pub use homes::Kept;
pub use makers::{Made, Makers};
pub use pass::{LockPass, Page};
