// What the setup says, by numbers.
ghost use Rattle.std.specs.Prelude.{◌≡◌, reverse};
ghost use Rattle.xa_types.specs.Setup.{capacity_of};
ghost use Rattle.xa_events.specs.Server.{may_start};
ghost use Rattle.xa_events.specs.Words.{count};
ghost use Rattle.xa_machine.specs.Here.{is_recent};

use xa_route::server_at;
use xa_types::{ServerId, Setup};

/// How many requests may wait at the queue.
pub fn capacity_of(setup: &Setup, queue: u16) -> u32
    ensures { result ≡ capacity_of setup.now queue }
{
    if queue == 0 {
        return 0;
    }
    match setup.queues.slice().get(usize::from(queue - 1)) {
        Some(queue) => queue.capacity,
        None => 0,
    }
}

fn is_recent(now: u64, grace: u32, tick: u64) -> bool
    ensures { result ≡ is_recent now grace tick }
{
    now.saturating_sub(tick) < u64::from(grace)
}

// How many of these starts, the oldest first, lie within GRACE.
fn recent(starts: &[u64], now: u64, grace: u32) -> usize
    ensures { result ≡ count (is_recent now grace) (reverse starts.now) }
{
    let mut n = 0;
    for start in starts {
        if is_recent(now, grace, *start) {
            n += 1;
        }
    }
    n
}

/// Whether the server may start at that tick, after these starts, the oldest first.
pub fn may_start(setup: &Setup, server: ServerId, starts: &[u64], now: u64) -> bool
    ensures { result ≡ may_start setup.now server.0 (reverse starts.now) now }
{
    match server_at(setup, server) {
        Some(server) => {
            starts.is_empty()
                || server.restart && recent(starts, now, server.grace) < usize::from(server.maxgen)
        }
        None => false,
    }
}
