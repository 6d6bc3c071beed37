// One step at the locked clock, with a worker's pass.
ghost use Rattle.std.specs.Prelude.{◌≡◌, ◌≤◌, ◌^◌};
ghost use Rattle.xa_lock.specs.Known.{known, IsPassOf};
ghost use Rattle.xa_ticks.specs.Visits.{ReachesClock, ReadAs, TickedAs};

use crate::clock::{Clock, Moment, TickRefused};
use std::sync::Wait;
use xa_lock::{Guarded, LockPass, Made};
use xa_types::{CallerId, Stamp};

/// What a step at the clock answers, the pass, which has left, and the stamp of the clock's last event by then, 0 where it
/// has none.
pub struct AtClock<R> {
    pub pass: LockPass<Made>,
    pub last: Stamp,
    pub answer: R,
}

/// Looks at the locked clock, and answers what it shows.
pub fn read_at<W: Wait>(rt: &W, clock: &Guarded<Clock>, pass: LockPass<Made>) -> AtClock<u64>
    requires lock { IsPassOf clock.now pass }
    ensures lock { IsPassOf clock.now result.pass }
    ensures reached { ReachesClock (known result.pass) result.last }
    ensures read { ReadAs (known pass) (known result.pass) result.answer }
{
    let held = clock.enter(rt, pass);
    let shown = held.get().now();
    let last = held.get().stamp();
    AtClock {
        pass: clock.leave(held),
        last,
        answer: shown.now,
    }
}

/// Moves the locked clock on, for a call of that client, in its own work.
pub fn tick_at<W: Wait>(
    rt: &W,
    clock: &Guarded<Clock>,
    pass: LockPass<Made>,
    seen: Stamp,
    by: CallerId,
    op: u32,
    n: u32,
) -> AtClock<Result<Moment, TickRefused>>
    requires lock { IsPassOf clock.now pass }
    requires maker { (known pass).maker ≡ by.0 }
    requires seen { seen.0 ≤ 2 ^ 63 }
    ensures lock { IsPassOf clock.now result.pass }
    ensures reached { ReachesClock (known result.pass) result.last }
    ensures ticked { TickedAs (known pass) (known result.pass) seen by op n result.answer }
{
    let mut held = clock.enter(rt, pass);
    let answer = held.value().advance(seen, by, op, n);
    let last = held.get().stamp();
    AtClock {
        pass: clock.leave(held),
        last,
        answer,
    }
}
