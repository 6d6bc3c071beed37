//! The lines of events: the text of an event, one spelling each, and the event that a line is.
#![tactic(auto)]

mod fields;
mod laws;
mod reading;
mod refusal;
mod spelling;
mod words;
mod writing;

pub use laws::one_reading;
pub use reading::read_event;
pub use refusal::EventRefused;
pub use writing::{event, put_event};
