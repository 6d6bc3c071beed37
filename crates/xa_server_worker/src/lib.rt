//! A server's worker: it starts the server, hands it the requests of its queue one after another, and retires it.
#![tactic(auto)]

mod attending;
mod living;
mod passing;
mod retiring;
mod taking;
mod telling;
mod working;

pub use working::ServerWorker;

// What crates above name of those below.
pub use xa_desk::pipe::CutLife;
