/// A caller: the clients in script order, numbered from 1, and then the servers in the order of the setup.
/// Number 0 is the domain itself.
#[derive(Clone, Copy, PartialEq, Eq)]
pub struct CallerId(pub u16);

/// A server, numbered from 1 in the order of the setup.
#[derive(Clone, Copy, PartialEq, Eq)]
pub struct ServerId(pub u16);

/// A queue, numbered from 1 in the order of the setup.
#[derive(Clone, Copy, Debug, PartialEq, Eq)]
pub struct QueueId(pub u16);

/// Which start of its server a life is, counted from 1.
#[derive(Clone, Copy, PartialEq, Eq)]
pub struct Generation(pub u64);

/// A request: its caller, and its number among that caller's accepted requests, from 1.
#[derive(Clone, Copy, PartialEq, Eq)]
pub struct RequestId {
    pub caller: CallerId,
    pub number: u64,
}
