//! The lock. One word says whether the value is at home. Who enters waits until it is, and takes it; who leaves puts it back.
//! Those who wait enter in no set order.
ghost use Rattle.std.specs.Prelude.{◌≡◌, ◌<◌, ◌≤◌, ◌+◌, ℕ, IfOk, IfErr, map, length, slice_index_or, [], ◌∷◌, vec_len, vec_capacity};
ghost use Rattle.std.specs.List.{All};
ghost use Rattle.xa_lock.specs.Pages.{GrewBy, Knows, page_seeing, page_leaving, first_page};
ghost use Rattle.xa_lock.specs.Views.{idle};

use crate::chronicle::Chronicle;
use crate::held::{Held, Turned};
use crate::pass::{LockPass, SeatView};
use crate::rule::{Before, First, OneAtATime, Put, Start};
use crate::waiting::FREE;
use atomic_table::{Refused, Seat, Table};
use std::alloc::Global;
use std::snapshot::Snapshot;
use std::sync::Wait;
use xa_types::NoMemory;

/// A value under a lock. It may be shared by threads where the value may be sent to one.
#[derive(Drop)]
pub struct Guarded<T: Chronicle> {
    pub(crate) table: Table<Option<T>, SeatView<T::Entry>, Start<T>, OneAtATime<T>, Global>,
    ghost sized: { (table.shared.table_id.words ≡ 1) × (table.shared.table_id.slots ≡ 1) },
    ghost some: { 0 < table.shared.key.passes },
}

// The value of the one slot.
fn only_value<T>(mut slots: Vec<Option<T>>) -> T
    requires { (value : T) × (slots.items ≡ Some value ∷ []) }
    ensures { slots.items ≡ Some result ∷ [] }
{
    match slots.pop() {
        Some(Some(value)) => {
            slots.destroy_empty();
            value
        }
        Some(None) => unreachable!(),
        None => unreachable!(),
    }
}

impl<T: Chronicle + Drop> Guarded<T> {
    ghost use Rattle.xa_lock.specs.Known.{known, IsPassOf, passes_of};

    /// The value under a lock, and so many passes, at least one: the k-th, counted from 0, is of maker k. All of them have
    /// seen the entries that the value has now, which are maker 0's.
    pub fn new(
        alloc: Global,
        value: T,
        passes: u32,
    ) -> Result<(Guarded<T>, Vec<LockPass<T::Entry>>), NoMemory>
        requires some { 0 < passes }
        requires first { All (λ entry. T.maker entry ≡ 0) (T.entries value) }
        ensures count { IfOk result (λ made. (length made.1.items ≡ passes) × (passes_of made.0 ≡ passes)) }
        ensures lock { IfOk result (λ made. All (IsPassOf made.0) made.1.items) }
        ensures known { IfOk result (λ made. (k : ℕ) (d : _) → k < passes → known (slice_index_or made.1.items k d) ≡ first_page k (T.entries value)) }
    {
        match Guarded::try_new(alloc, value, passes) {
            Ok(made) => Ok(made),
            Err(_) => Err(NoMemory),
        }
    }
}

impl<T: Chronicle> Guarded<T> {
    ghost use Rattle.xa_lock.specs.Known.{known, found, value_of, IsPassOf, IsHeldOf, passes_of};

    /// As `new`, for a value that can't be dropped: it comes back where memory ran out.
    pub fn try_new(
        alloc: Global,
        value: T,
        passes: u32,
    ) -> Result<(Guarded<T>, Vec<LockPass<T::Entry>>), T>
        requires some { 0 < passes }
        requires first { All (λ entry. T.maker entry ≡ 0) (T.entries value) }
        ensures count { IfOk result (λ made. (length made.1.items ≡ passes) × (passes_of made.0 ≡ passes)) }
        ensures lock { IfOk result (λ made. All (IsPassOf made.0) made.1.items) }
        ensures known { IfOk result (λ made. (k : ℕ) (d : _) → k < passes → known (slice_index_or made.1.items k d) ≡ first_page k (T.entries value)) }
        ensures back { IfErr result (λ back. back ≡ value) }
    {
        let Ok(mut all) = Vec::with_capacity(alloc, passes as usize) else {
            return Err(value);
        };
        let Ok(mut slots) = Vec::with_capacity(alloc, 1) else {
            return Err(value);
        };
        let start = Start {
            passes,
            value: Snapshot::of(&value),
        };
        slots.push_reserved(Some(value));
        match Table::new(alloc, &[FREE], slots, &start) {
            Ok((table, seat)) => {
                let lock = Guarded { table };
                lock.deal(seat, passes, &mut all);
                Ok((lock, all))
            }
            Err(Refused { slots }) => Err(only_value(slots)),
        }
    }

    /// Waits until the value is at home, and takes it. What the pass saw is a front of the entries that it finds, and those
    /// of its maker among them are its own. It takes no memory.
    pub fn enter<R: Wait>(&self, rt: &R, pass: LockPass<T::Entry>) -> Held<T>
        requires lock { IsPassOf self.now pass }
        ensures lock { IsHeldOf self.now result }
        ensures found { found result ≡ page_seeing (known pass) (T.entries (value_of result)) }
        ensures knows { Knows T.maker (known pass) (T.entries (value_of result)) }
    {
        let mut seat = pass.into_seat();
        self.take_out(rt, &mut seat);
        let value = self.table.shared.exchange(&mut seat, 0, None).unwrap();
        Held {
            turned: Turned { seat },
            value,
        }
    }

    /// Puts the value back, in which the entries that were found stand first and all further ones are of this pass's
    /// maker. It takes no memory.
    pub fn leave(&self, held: Held<T>) -> LockPass<T::Entry>
        requires lock { IsHeldOf self.now held }
        requires grew { GrewBy T.maker (found held).maker (found held).seen (T.entries (value_of held)) }
        ensures lock { IsPassOf self.now result }
        ensures known { known result ≡ page_leaving (found held) (T.entries (value_of held)) }
    {
        let Held { turned, value } = held;
        let Turned { mut seat } = turned;
        let shared = &self.table.shared;
        match shared.exchange(&mut seat, 0, Some(value)) {
            None => {}
            Some(_) => unreachable!(),
        }
        let found = shared.swap::<Put>(&mut seat, 0, FREE);
        self.wake(found);
        LockPass::of(seat)
    }

    // Cuts the pages of a seat into passes.
    fn deal(
        &self,
        mut seat: Seat<Option<T>, SeatView<T::Entry>>,
        passes: u32,
        all: &mut Vec<LockPass<T::Entry>>,
    )
        requires table { seat.table_id ≡ self.now.table.shared.table_id }
        requires free { seat.me ≡ (idle seat.me.0.pages, []) }
        requires count { (length seat.me.0.pages ≡ passes) × (0 < passes) }
        requires room { (vec_len all.old ≡ 0) × (passes ≤ vec_capacity all.old) }
        ensures lock { All (IsPassOf self.now) all.new.items }
        ensures known { map known all.new.items ≡ seat.me.0.pages }
    {
        for _ in 1..passes {
            let one = self.table.shared.split_seat::<First>(&mut seat);
            all.push_reserved(LockPass::of(one));
        }
        all.push_reserved(LockPass::of(seat));
    }

    // Brings the passes together in one seat.
    fn gather(&self, mut passes: Vec<LockPass<T::Entry>>) -> Seat<Option<T>, SeatView<T::Entry>>
        requires lock { All (IsPassOf self.now) passes.items }
        requires some { 0 < length passes.items }
        ensures table { result.table_id ≡ self.now.table.shared.table_id }
        ensures me { result.me ≡ (idle (map known passes.items), []) }
    {
        let Some(last) = passes.pop() else {
            unreachable!()
        };
        let mut seat = last.into_seat();
        while let Some(pass) = passes.pop() {
            self.table
                .shared
                .join_seat::<Before>(&mut seat, pass.into_seat());
        }
        seat
    }

    /// Ends the lock, with all its passes, and gives the value. Of its entries each maker's are its pass's own, what a pass
    /// saw is a front, and none is of another maker. It takes no memory.
    pub fn close(self, passes: Vec<LockPass<T::Entry>>) -> T
        requires lock { All (IsPassOf self) passes.items }
        requires all { length passes.items ≡ passes_of self }
        ensures known { All (λ pass. Knows T.maker (known pass) (T.entries result)) passes.items }
        ensures makers { All (λ entry. T.maker entry < passes_of self) (T.entries result) }
    {
        let seat = self.gather(passes);
        let Guarded { table } = self;
        let mut closed = table.close_with(seat);
        let value = closed.take(0).unwrap();
        closed.free();
        value
    }
}
