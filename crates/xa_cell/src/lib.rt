//! Reply cells: where the answer to a request is put by whoever has the request's ticket, and taken by the caller that
//! asked. There is no lock and nobody waits: of a fill and a cancel one is first, by one step on one word.
#![tactic(auto)]

mod cells;
mod ends;
mod filler;
mod owner;
mod rule;
mod state;
mod tokens;
mod view;

pub use cells::Cells;
pub use filler::Filled;
pub use owner::{Cancelled, CellsFull, Look};
pub use tokens::{Place, Seat, Ticket};
pub use view::{Act, Carried, Deed, Fill, Opening, Part, View, Word};
