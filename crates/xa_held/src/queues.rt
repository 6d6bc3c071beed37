// One step at a locked queue, with a worker's pass.
ghost use Rattle.std.specs.Prelude.{◌≡◌, ◌≤◌, ◌^◌};
ghost use Rattle.xa_lock.specs.Known.{known, IsPassOf};
ghost use Rattle.xa_held.specs.Steps.{ClosedAs};
ghost use Rattle.xa_held.specs.Visits.{Visits, Reaches};

use crate::kept_queue::{KeptQueue, QueueNote};
use std::sync::Wait;
use xa_lock::{Guarded, LockPass};
use xa_stamp::Noted;
use xa_types::{CallerId, Stamp, Worn};

/// What a step at a queue answers, the pass, which has left, and the stamp of the queue's last event by then, 0 where
/// it has none.
pub struct AtQueue<A, R> {
    pub pass: LockPass<QueueNote<A>>,
    pub last: Stamp,
    pub answer: R,
}

/// Closes a locked queue, where it isn't closed yet.
pub fn close_at<W: Wait, A>(
    rt: &W,
    queue: &Guarded<KeptQueue<A>>,
    pass: LockPass<QueueNote<A>>,
    seen: Stamp,
    maker: CallerId,
) -> AtQueue<A, Result<Option<Noted>, Worn>>
    requires lock { IsPassOf queue.now pass }
    requires maker { (known pass).maker ≡ maker.0 }
    requires seen { seen.0 ≤ 2 ^ 63 }
    ensures lock { IsPassOf queue.now result.pass }
    ensures reached { Reaches (known result.pass) result.last }
    ensures closed { ClosedAs (Visits (known pass) (known result.pass)) seen maker result.answer }
{
    let mut held = queue.enter(rt, pass);
    let answer = held.value().close(seen, maker);
    let last = held.get().stamp();
    AtQueue {
        pass: queue.leave(held),
        last,
        answer,
    }
}
