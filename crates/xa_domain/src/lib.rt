//! The domain: what serves a script. It is booted, each client and each server runs on a thread of its own, the queues are
//! closed behind the last client, and what the workers leave is handed back.
#![tactic(auto)]

mod beside;
mod closing;
mod crew;
mod forks;
mod gathering;
mod handing;
mod homes;
mod room;
mod serving;
mod tokens;

pub use handing::Served;
pub use serving::serve;
pub use xa_boot::links::CutLife;
pub use xa_boot::pipe::EndedLife;
pub use xa_boot::work::Halt;

// What crates above name of those below.
pub use xa_boot::{pipe, stamp};
pub use xa_history::script;
