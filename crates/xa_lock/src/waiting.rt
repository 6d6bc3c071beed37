//! The word of a lock: taking the value out, and waiting until it is at home.
ghost use Rattle.std.specs.Prelude.{◌≡◌, true, false};
ghost use Rattle.xa_lock.specs.Views.{IsIdle};
ghost use Rattle.xa_lock.specs.Rule.{TakesOut};

use crate::chronicle::Chronicle;
use crate::guarded::Guarded;
use crate::pass::SeatView;
use crate::rule::Take;
use atomic_table::Seat;
use std::hint;
use std::sync::Wait;

// What the word says: the value is at home, it is out, or it is out and someone may sleep until it is back.
pub(crate) const FREE: u64 = 0;

const TAKEN: u64 = 1;

const AWAITED: u64 = 2;

// So often the word is looked at before the thread sleeps.
const LOOKS: u32 = 100;

impl<T: Chronicle> Guarded<T> {
    // Takes the value out where it is at home. The word is only read where it isn't.
    fn try_take(&self, seat: &mut Seat<Option<T>, SeatView<T::Entry>>) -> bool
        requires table { seat.old.table_id ≡ self.now.table.shared.table_id }
        requires free { IsIdle seat.old.me }
        ensures table { seat.new.table_id ≡ seat.old.table_id }
        ensures yes { result ≡ true → TakesOut T.entries T.maker seat.old.me seat.new.me }
        ensures no { result ≡ false → seat.new.me ≡ seat.old.me }
    {
        let shared = &self.table.shared;
        if shared.peek(0) != FREE {
            return false;
        }
        shared.compare_exchange::<Take>(seat, 0, FREE, TAKEN) == FREE
    }

    // The same, and the word says that someone waits, also where the value was at home.
    fn take_or_ask(&self, seat: &mut Seat<Option<T>, SeatView<T::Entry>>) -> bool
        requires table { seat.old.table_id ≡ self.now.table.shared.table_id }
        requires free { IsIdle seat.old.me }
        ensures table { seat.new.table_id ≡ seat.old.table_id }
        ensures yes { result ≡ true → TakesOut T.entries T.maker seat.old.me seat.new.me }
        ensures no { result ≡ false → seat.new.me ≡ seat.old.me }
    {
        self.table.shared.swap::<Take>(seat, 0, AWAITED) == FREE
    }

    // Looks a while, and takes the value out if it comes home.
    fn look(&self, seat: &mut Seat<Option<T>, SeatView<T::Entry>>) -> bool
        requires table { seat.old.table_id ≡ self.now.table.shared.table_id }
        requires free { IsIdle seat.old.me }
        ensures table { seat.new.table_id ≡ seat.old.table_id }
        ensures yes { result ≡ true → TakesOut T.entries T.maker seat.old.me seat.new.me }
        ensures no { result ≡ false → seat.new.me ≡ seat.old.me }
    {
        for _ in 0..LOOKS {
            if self.try_take(seat) {
                return true;
            }
            hint::spin_loop();
        }
        false
    }

    // Takes the value out. Looks a while, and then sleeps until it is woken, and asks again.
    //
    // No wake-up is lost. Who sleeps has put AWAITED into the word before, and falls asleep only while it stands there. Only
    // who leaves takes it away, with the same step that frees the word, and then wakes one sleeper. Who was woken puts it
    // there again, whether it finds the value at home or others took it first; so who leaves next asks for a further
    // sleeper. Who took the value without sleeping left AWAITED as it stood. So while someone sleeps, the word is AWAITED,
    // or one that left is about to wake a sleeper, or one that was woken is about to put it there. No order among those who
    // wait is kept.
    pub(crate) fn take_out<R: Wait>(&self, rt: &R, seat: &mut Seat<Option<T>, SeatView<T::Entry>>)
        requires table { seat.old.table_id ≡ self.now.table.shared.table_id }
        requires free { IsIdle seat.old.me }
        ensures table { seat.new.table_id ≡ seat.old.table_id }
        ensures out { TakesOut T.entries T.maker seat.old.me seat.new.me }
    {
        if self.look(seat) {
            return;
        }
        for _ in rt.forever() {
            if self.take_or_ask(seat) {
                return;
            }
            self.table.shared.park(rt, 0, AWAITED as u32);
        }
        unreachable!()
    }

    // Wakes one that sleeps, where the word was AWAITED when it was freed.
    pub(crate) fn wake(&self, found: u64) {
        if found == AWAITED {
            self.table.shared.wake_one(0);
        }
    }
}
