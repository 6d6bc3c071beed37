//! The configuration of a domain: the setup that a TOML document says, and the first fault of one that says none.
#![tactic(auto)]

mod accepts;
mod configuration;
mod document;
mod entry;
mod field;
mod kinds;
mod laws;
mod lists;
mod refusal;
mod tables;

pub use configuration::read;
pub use laws::one_reading;
pub use refusal::ConfigRefused;
