// What is handed to a server with a request.
use xa_cell::Ticket;
use xa_types::{Data, Name};

/// What a server is asked for: the service, its routine, how often the request was forwarded until it came here, and the
/// data.
#[derive(Drop)]
pub struct Invocation {
    pub service: Name,
    pub routine: Name,
    pub hop: u8,
    pub payload: Data,
}

/// The ticket by which a request is answered, and what its server is asked for. It isn't `Drop`: the ticket ends in a call.
pub struct Cargo<A> {
    pub ticket: Ticket<A>,
    pub invocation: Invocation,
}
