//! From what the desks of a domain's workers show, one by one, to what holds of all homes once every worker has left, and of
//! what went through the pipes in the run. These are laws alone.
#![tactic(auto)]

pub mod ending;
pub mod laws;
pub mod pipes;

// What crates above name of those below.
pub mod script {
    pub use xa_script::{Client, Script, ScriptRefused, read_upto};
}
