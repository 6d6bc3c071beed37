//! The passes of a lock, and what each of them knows.
ghost use Rattle.std.specs.Prelude.{◌≡◌, [], ◌∷◌};
ghost use Rattle.xa_lock.specs.Pages.{page_of};
ghost use Rattle.xa_lock.specs.Views.{idle};

use atomic_table::{Badge, Seat};
use std::collections::LinkedList;

/// What a pass knows: its maker, that maker's own entries, and all entries that it saw last. No value of it is made.
pub struct Page<E> {
    pub maker: u32,
    pub own: LinkedList<E>,
    pub seen: LinkedList<E>,
}

// The pages of a seat, and whether the value is out with it. No value of it is made.
pub struct SeatView<E> {
    pub pages: LinkedList<Page<E>>,
    pub holds: bool,
}

/// A maker's right to enter a lock. It takes no memory, and its type is the same for all locks whose entries are of one
/// type. Once it is dropped the lock can't be closed any more.
#[derive(Drop)]
pub struct LockPass<E> {
    pub(crate) badge: Badge<SeatView<E>>,
    ghost free: { badge.views ≡ idle (page_of badge.views ∷ []) ∷ [] },
}

impl<E> LockPass<E> {
    pub(crate) fn of<T>(seat: Seat<Option<T>, SeatView<E>>) -> LockPass<E>
        requires { (page : Page E) × (seat.me ≡ (idle (page ∷ []), [])) }
        ensures table { result.badge.table_id ≡ seat.table_id }
        ensures views { result.badge.views ≡ seat.me.0 ∷ [] }
    {
        LockPass {
            badge: seat.into_badge(),
        }
    }

    pub(crate) fn into_seat<T>(self) -> Seat<Option<T>, SeatView<E>>
        ensures table { result.table_id ≡ self.badge.table_id }
        ensures me { result.me ≡ (idle (page_of self.badge.views ∷ []), []) }
    {
        let LockPass { badge } = self;
        badge.into_seat()
    }
}
