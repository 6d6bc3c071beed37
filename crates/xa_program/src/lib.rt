//! The program around the domain: what it is asked, what its configuration and its script say, how it runs, and what it
//! prints, on standard error too. And what the record of a run comes to.
#![tactic(auto)]

mod auditing;
mod lives;
mod outcome;
mod script;
mod server;
mod setup;
mod standard_error;
mod status;
mod telling;
mod top;
mod words;

pub use lives::report_lives;
pub use outcome::Outcome;
pub use server::child_work;
pub use setup::play_setup;
pub use standard_error::report;
pub use status::{Input, Status};
pub use top::run;
pub use words::{Command, all_words, own_word, read_words, words_behind};
pub use xa_child::{Child, ChildRefused, LocalLink, LocalStarter, LocalYard, child_step};
pub use xa_domain::pipe::Pipes;
pub use xa_domain::{CutLife, EndedLife};

// What crates above name of those below.
pub use xa_events as events;
pub use xa_link as link;
pub use xa_types as types;
