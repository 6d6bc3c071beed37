// What closes a domain.
use xa_client_worker::caller::Filling;
use xa_client_worker::cell::Seat;
use xa_client_worker::held::{BoardNote, QueueNote};
use xa_client_worker::lock::{LockPass, Made};
use xa_client_worker::types::Stamp;
use xa_client_worker::work::{Halt, Own};

/// The domain itself, which is caller 0: its seat and its passes, what it noted, which takes no memory, the greatest stamp
/// that it noted or saw, and why it halted, if it did.
pub struct Closer {
    pub seat: Seat<Filling>,
    pub board: Option<LockPass<BoardNote>>,
    pub queues: Vec<Option<LockPass<QueueNote<Filling>>>>,
    pub clock: Option<LockPass<Made>>,
    pub own: Own,
    pub seen: Stamp,
    pub halt: Option<Halt>,
}
