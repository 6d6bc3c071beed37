//! The machine's meaning: its events, what is read off a list of them, when an event may come next, a run, the laws
//! of every run, and what a call may have become. The definitions stand in `specs/`.
#![tactic(auto)]

mod copy;
mod event;
pub mod laws;

pub use event::{
    Accepted, Advertised, Broken, Cancelled, Doing, Ended, Event, Evidence, Forwarded, Item,
    Lapsed, Outcome, Prioritized, Received, Refused, Replied, Sent, Started, StopCause, Stopped,
    Swept, Taken, Ticked, Unready, Withdrawn,
};
