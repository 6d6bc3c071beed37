//! The domains of the histories.

/// Which domain.
#[derive(Clone, Copy)]
pub enum Domain {
    /// One queue, one server on it, and the service ECHO; the shape entry.
    Echo,
    /// The same with a queue that has room for one.
    Narrow,
    /// ECHO on one queue, LEN on a second that has room for one.
    Town,
    /// A and B with the routine PASS, and C with ECHO.
    Passing,
    /// A and B with the routine PASS, and the conversational CHAT.
    Company,
    /// ECHO at a server that may start twice.
    Restarting,
    /// EXIT at a server that may start twice.
    Exiting,
    /// The conversational CHAT.
    Parlour,
    /// CHAT and QUIT, both conversational.
    Lounge,
    /// ADV, which advertises others.
    Market,
}

/// The configuration of that domain.
pub const ECHO: &[u8] = b"queue = [{ name = 'Q1' }]
server = [{ name = 'S1', queue = 'Q1' }]
shape = [{ name = 'entry', fields = ['account int', 'amount long', 'memo string 16'] }]
service = [{ name = 'ECHO', queues = ['Q1'] }]";

static NARROW: &[u8] = b"queue = [{ name = 'Q1', capacity = 1 }]
server = [{ name = 'S1', queue = 'Q1' }]
service = [{ name = 'ECHO', queues = ['Q1'] }]";

static TOWN: &[u8] = b"queue = [{ name = 'Q1' }, { name = 'Q2', capacity = 1 }]
server = [{ name = 'S1', queue = 'Q1' }, { name = 'S2', queue = 'Q2' }]
service = [{ name = 'ECHO', queues = ['Q1'] }, { name = 'LEN', queues = ['Q2'], priority = 7 }]";

static PASSING: &[u8] = b"queue = [{ name = 'Q1' }]
server = [{ name = 'S1', queue = 'Q1' }]
service = [{ name = 'A', routine = 'PASS', queues = ['Q1'] }, { name = 'B', routine = 'PASS', queues = ['Q1'] },
  { name = 'C', routine = 'ECHO', queues = ['Q1'] }]";

static COMPANY: &[u8] = b"queue = [{ name = 'Q1' }]
server = [{ name = 'S1', queue = 'Q1' }]
service = [{ name = 'A', routine = 'PASS', queues = ['Q1'] }, { name = 'B', routine = 'PASS', queues = ['Q1'] },
  { name = 'CHAT', queues = ['Q1'], conversational = true }]";

static RESTARTING: &[u8] = b"queue = [{ name = 'Q1' }]
server = [{ name = 'S1', queue = 'Q1', restart = true, maxgen = 2 }]
service = [{ name = 'ECHO', queues = ['Q1'] }]";

static EXITING: &[u8] = b"queue = [{ name = 'Q1' }]
server = [{ name = 'S1', queue = 'Q1', restart = true, maxgen = 2 }]
service = [{ name = 'EXIT', queues = ['Q1'] }]";

static PARLOUR: &[u8] = b"queue = [{ name = 'Q1' }]
server = [{ name = 'S1', queue = 'Q1' }]
service = [{ name = 'CHAT', queues = ['Q1'], conversational = true }]";

static LOUNGE: &[u8] = b"queue = [{ name = 'Q1' }]
server = [{ name = 'S1', queue = 'Q1' }]
service = [{ name = 'CHAT', queues = ['Q1'], conversational = true },
  { name = 'QUIT', queues = ['Q1'], conversational = true }]";

static MARKET: &[u8] = b"queue = [{ name = 'Q1' }]
server = [{ name = 'S1', queue = 'Q1' }]
service = [{ name = 'ADV', queues = ['Q1'] }]";

/// The domain's configuration.
pub fn configuration(domain: Domain) -> &'static [u8] {
    match domain {
        Domain::Echo => ECHO,
        Domain::Narrow => NARROW,
        Domain::Town => TOWN,
        Domain::Passing => PASSING,
        Domain::Company => COMPANY,
        Domain::Restarting => RESTARTING,
        Domain::Exiting => EXITING,
        Domain::Parlour => PARLOUR,
        Domain::Lounge => LOUNGE,
        Domain::Market => MARKET,
    }
}
