//! The rule of a lock's table, and what its steps tell.
use crate::chronicle::Chronicle;
use crate::pass::SeatView;
use atomic_table::{Join, Play, Split, TableRule};
use std::marker::PhantomData;
use std::snapshot::Snapshot;

/// What a lock is told when it is made: how many passes there are, and the value.
#[derive(Drop)]
pub struct Start<T> {
    pub passes: u32,
    pub value: Snapshot<T>,
}

/// The value is at home, or out with one seat.
pub struct OneAtATime<T> {
    marker: PhantomData<T>,
}

impl<T: Chronicle> TableRule<Option<T>, SeatView<T::Entry>, Start<T>> for OneAtATime<T> {
    ghost use Rattle.xa_lock.specs.Views.{idle, first_pages};
    ghost use Rattle.xa_lock.specs.Rule.{Locked};

    ghost holds = { λ start. Locked T.entries T.maker start.passes };

    ghost first = { λ start. idle (first_pages (T.entries start.value.value) 0 start.passes) };
}

/// The value is taken out, where it is at home.
pub struct Take;

impl<T: Chronicle> Play<Option<T>, SeatView<T::Entry>> for Take {
    ghost use Rattle.xa_lock.specs.Rule.{Takes};

    ghost then = { Takes T.entries T.maker };
}

/// The value is put back.
pub struct Put;

impl<T: Chronicle> Play<Option<T>, SeatView<T::Entry>> for Put {
    ghost use Rattle.xa_lock.specs.Rule.{Puts};

    ghost then = { Puts T.entries T.maker };
}

/// The first page goes to a new seat.
pub struct First;

impl<E> Split<SeatView<E>> for First {
    ghost use Rattle.xa_lock.specs.Views.{but_first, first_only};

    ghost left = { but_first };

    ghost right = { first_only };
}

/// The pages of the other seat go before one's own.
pub struct Before;

impl<E> Join<SeatView<E>> for Before {
    ghost use Rattle.xa_lock.specs.Views.{idle, before};
    ghost use Rattle.std.specs.Prelude.{[]};

    ghost both = { before };

    ghost spent = { idle [] };
}
