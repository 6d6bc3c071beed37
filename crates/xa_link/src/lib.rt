//! The outside as traits: files, streams, the processes of servers, and the words of the command line. Of each there is
//! a form in memory, which tells all of its octets, and a real one, which tells none; a count says how often it failed,
//! but for words. Gates have one form and no count. `Escaped` is how octets stand in a line on standard error.
#![tactic(auto)]

mod arguments;
mod child;
mod count;
mod escaped;
mod file;
mod gate;
mod link;
mod memory;
mod shelf;
mod sink;
mod source;
mod starter;
mod stream;

pub use arguments::{Arguments, MemoryArguments, SystemArguments};
pub use child::{ChildLink, ChildStarter, ChildYard};
pub use escaped::Escaped;
pub use file::{FileShelf, read_all};
pub use gate::{Gate, HoldUntil, MeetAt, OpenGate, Point, stay};
pub use link::{Closed, Fate, Link, ProcessEnd};
pub use memory::{MemoryLink, MemoryShelf, MemorySink, MemorySource, MemoryStarter, MemoryYard};
pub use shelf::{Shelf, ShelfRefused};
pub use sink::{Sink, put};
pub use source::{Failed, Source};
pub use starter::{StartRefused, Starter, Yard};
pub use stream::{ReadSource, WriteSink};
