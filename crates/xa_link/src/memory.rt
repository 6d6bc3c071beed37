// The outside in memory.
mod link;
mod shelf;
mod sink;
mod source;
mod yard;

pub use link::MemoryLink;
pub use shelf::MemoryShelf;
pub use sink::MemorySink;
pub use source::MemorySource;
pub use yard::{MemoryStarter, MemoryYard};
