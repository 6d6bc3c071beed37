// One event noted under a lock, as a worker does it.
ghost use Rattle.std.specs.Prelude.{◌≡◌, ◌^◌, ◌<◌, ◌≤◌, ◌++◌, IfSome};
ghost use Rattle.xa_lock.specs.Known.{known, IsPassOf};
ghost use Rattle.xa_lock.specs.Makers.{made_by};
ghost use Rattle.xa_worker.specs.Entering.{Enters, stamped_with};

use std::sync::Wait;
use xa_events::Event;
use xa_lock::{Guarded, Kept, LockPass, Made};
use xa_types::{CallerId, Stamp};

// The stamp of the event where it was noted, and nothing where memory or stamps came to their end.
fn note_one(kept: &mut Kept, seen: Stamp, maker: CallerId, event: Event) -> Option<Stamp>
    requires seen { seen.0 ≤ 2 ^ 63 }
    ensures entries { kept.new.entries ≡ kept.old.entries ++ made_by maker (stamped_with result event) }
    ensures later { IfSome result (λ stamp. (seen.0 < stamp.0) × (stamp.0 ≤ 2 ^ 63)) }
{
    if kept.reserve(1).is_err() {
        drop(event);
        return None;
    }
    kept.note(seen, maker, event).ok()
}

/// Enters the lock, notes the event behind all that stands there, and leaves. Where memory or stamps came to their end nothing
/// is noted.
pub fn note_under<R: Wait>(
    rt: &R,
    lock: &Guarded<Kept>,
    pass: LockPass<Made>,
    seen: Stamp,
    maker: CallerId,
    event: Event,
) -> (LockPass<Made>, Option<Stamp>)
    requires lock { IsPassOf lock.now pass }
    requires maker { (known pass).maker ≡ maker.0 }
    requires seen { seen.0 ≤ 2 ^ 63 }
    ensures lock { IsPassOf lock.now result.0 }
    ensures enters { Enters (known pass) (known result.0) maker seen result.1 event }
{
    let mut held = lock.enter(rt, pass);
    let noted = note_one(held.value(), seen, maker, event);
    (lock.leave(held), noted)
}
