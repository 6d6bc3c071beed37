// What waits at a queue.
use xa_types::RequestId;

/// A request that waits, its priority, and what is handed to the server with it. The cargo need not be `Drop`, so no entry
/// is let go: each one that is put is taken, swept or drained, or comes back where it is refused.
pub struct Entry<C> {
    pub request: RequestId,
    pub priority: u8,
    pub cargo: C,
}

// An entry with its age: how many events were noted at its queue before the one that brought it.
pub(crate) struct Aged<C> {
    pub age: u64,
    pub entry: Entry<C>,
}
