//! A value that is out.
ghost use Rattle.std.specs.Prelude.{◌≡◌, None, [], ◌∷◌};
ghost use Rattle.xa_lock.specs.Pages.{mine};
ghost use Rattle.xa_lock.specs.Views.{holding};

use crate::chronicle::Chronicle;
use crate::pass::SeatView;
use atomic_table::Seat;

// The seat that a value is out with. It stands apart from the value, so that the value can be lent.
pub(crate) struct Turned<T, E> {
    pub(crate) seat: Seat<Option<T>, SeatView<E>>,
    ghost out: { seat.me ≡ (holding (mine seat.me.0), (0, None) ∷ []) },
}

/// The value of a lock, with the pass that entered. It has to go back by `leave`.
pub struct Held<T: Chronicle> {
    pub(crate) turned: Turned<T, T::Entry>,
    pub(crate) value: T,
}

impl<T: Chronicle> Held<T> {
    ghost use Rattle.std.specs.Borrow.{sem};
    ghost use Rattle.xa_lock.specs.Known.{value_of};
    ghost use Rattle.xa_lock.specs.Lending.{LendsValue};

    /// The value, to be read.
    pub fn get(&self) -> &T
        ensures { result.now ≡ value_of self.now }
    {
        &self.value
    }

    /// The value, to which entries may be added.
    pub fn value(&mut self) -> &mut T
        ensures* writes_back { sem 𝓛 (LendsValue T.row T.Entry.row self.entry result) }
        ensures value { result.now ≡ value_of self.old }
    {
        &mut self.value
    }
}
