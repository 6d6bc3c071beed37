//! The boot of a domain: the services are advertised, and the workers get their desks.
#![tactic(auto)]

mod advertising;
mod boards;
mod booting;
mod clocks;
mod closer;
mod founding;
mod hiring;
mod locking;
mod rooms;
mod staff;

pub use booting::{Booted, NotBooted, boot};
pub use closer::Closer;

// What crates above name of those below.
pub use xa_client_worker::{
    caller, cell, desk, events, held, link, lock, pipe, queue, server, stamp, types, work,
};

// What xa_client_worker itself has.
pub mod clients {
    pub use xa_client_worker::{ClientWorker, Ended, client_work, perform};
}

pub mod links {
    pub use xa_server_worker::{CutLife, ServerWorker};
}
