//! Values that the other crates share: names, data, calls, replies, stamps and the setup.
#![tactic(auto)]

mod call;
mod data;
mod fault;
mod found;
mod ids;
mod memory;
mod name;
mod octets;
mod reply;
mod row;
mod sequence;
mod setup;
mod stamp;

pub use call::{Ask, CallFlags, Direction, Mode, Op, Rval};
pub use data::{Data, Kind};
pub use fault::{ConvEvent, Fault};
pub use found::Found;
pub use ids::{CallerId, Generation, QueueId, RequestId, ServerId};
pub use memory::NoMemory;
pub use name::{BadName, Name};
pub use octets::Octets;
pub use reply::{Answer, Reply};
pub use row::{Accepts, Row};
pub use sequence::Sequence;
pub use setup::{FieldKind, FieldSetup, QueueSetup, ServerSetup, ServiceSetup, Setup, ShapeSetup};
pub use stamp::{Stamp, Worn};
