//! Scripts: their lines, the clients and the calls that they make, and the first line at fault.
#![tactic(auto)]

mod calls;
mod draft;
mod flags;
mod payload;
mod script;
mod structures;
mod words;

pub use script::{Client, Script, ScriptRefused, one_reading, read, read_upto};
