// Which of the queues that a lookup found is tried next.
ghost use Rattle.std.specs.Prelude.{◌≡◌, map, slice_get};

use xa_types::{Found, QueueId};

/// The queue that is tried at that attempt, counted from 0: each row has one, and each is tried once, in their order.
pub fn choose(found: &Found, attempt: u32) -> Option<QueueId>
    ensures { result ≡ slice_get (map (λ row. row.queue) found.now.rows) attempt }
{
    found.rows.get(attempt as usize).map(|row| row.queue)
}
