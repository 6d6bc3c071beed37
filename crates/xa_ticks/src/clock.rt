// The clock.
ghost use Rattle.std.specs.Prelude.{◌≡◌, ◌⊎◌, ◌+◌, ◌<◌, ◌≤◌, ◌^◌, [], Some, None, IfOk, IfErr, OnOk, OnErr};
ghost use Rattle.xa_ticks.specs.Clock.{ReadsAsNoted, Advances, now_of, stamp_of, tick_refused};
ghost use Rattle.xa_ticks.specs.declared.clock.TickRefused.TheVariants as refusals;

use std::alloc::Global;
use std::marker::Model;
use xa_events::{Event, Ticked};
use xa_lock::{Chronicle, Made};
use xa_stamp::Home;
use xa_types::{CallerId, NoMemory, Stamp};

// The last tick.
const LAST: u64 = 1 << 62;

/// A tick that the clock showed, and the stamp of the event that moved it there; both are 0 at first.
#[derive(Clone, Copy, Debug, PartialEq, Eq)]
pub struct Moment {
    pub now: u64,
    pub stamp: Stamp,
}

/// Why the clock isn't moved on.
#[derive(Clone, Copy, Debug, PartialEq, Eq)]
pub enum TickRefused {
    /// It would pass 2^62; this is what it shows.
    Past(u64),
    /// Stamps would pass their end; this is the larger of what was seen and of the last one.
    Worn(Stamp),
    NoMemory,
}

/// The clock. Each of its events is a move, whose maker is the client that made it.
#[derive(Drop)]
pub struct Clock {
    home: Home,
    moment: Moment,
}

impl Model for Clock {
    ghost use Rattle.xa_ticks.specs.Clock.{ClockState};

    ghost Value = { ClockState };

    ghost use Rattle.xa_ticks.specs.Kept.{standing_of, IsKept};

    ghost view = { standing_of };

    ghost invariant = { IsKept };
}

impl Chronicle for Clock {
    ghost use Rattle.std.specs.Prelude.{ℕ};
    ghost use Rattle.xa_lock.specs.Makers.{maker_of};
    ghost use Rattle.xa_ticks.specs.Clock.{made_in};

    type Entry = Made;

    ghost entries = { λ clock. made_in clock.entries };

    ghost maker = { maker_of };
}

/// The tick at which a call lapses that began at `start` and waits for so long.
pub fn deadline(start: u64, block: u32) -> u64
    requires { start ≤ 2 ^ 62 }
    ensures { result ≡ start + block }
{
    start + u64::from(block)
}

impl Clock {
    /// A clock that shows 0. It takes no memory.
    pub fn new(alloc: Global) -> Clock
        ensures { result ≡ record { entries = [] } }
    {
        let stamp = Stamp(0);
        Clock {
            home: Home::new(alloc, stamp),
            moment: Moment { now: 0, stamp },
        }
    }

    /// What it shows. It takes no memory.
    pub fn now(&self) -> Moment
        ensures now { result.now ≡ now_of self.now }
        ensures stamp { result.stamp.0 ≡ stamp_of self.now }
        ensures reads { ReadsAsNoted self.now }
    {
        self.moment
    }

    /// The stamp of its last event, or 0 where it has none. It takes no memory.
    pub fn stamp(&self) -> Stamp
        ensures value { result.0 ≡ stamp_of self.now }
        ensures bound { result.0 ≤ 2 ^ 63 }
        ensures reads { ReadsAsNoted self.now }
    {
        match self.home.entries() {
            [] => Stamp(0),
            [.., newest] => newest.stamp,
        }
    }

    /// Moves it on by `n`, for a call of that client. `seen` is at most 2^63, and the event has one more than the larger of it
    /// and of the last stamp. Where it isn't moved nothing changes.
    pub fn advance(
        &mut self,
        seen: Stamp,
        by: CallerId,
        op: u32,
        n: u32,
    ) -> Result<Moment, TickRefused>
        requires { seen.0 ≤ 2 ^ 63 }
        ensures moved { IfOk result (λ moment. Advances seen by op n moment self.new self.old) }
        ensures allowed { OnOk result (tick_refused seen n self.old ≡ None) }
        ensures refused { IfErr result (λ why. (tick_refused seen n self.old ≡ Some why) ⊎ (why ≡ refusals.NoMemory)) }
        ensures kept { OnErr result (self.new ≡ self.old) }
    {
        let now = self.moment.now + u64::from(n);
        if now > LAST {
            return Err(TickRefused::Past(self.moment.now));
        }
        let stamp = match self.home.next_stamp(seen) {
            Ok(stamp) => stamp,
            Err(worn) => return Err(TickRefused::Worn(worn.0)),
        };
        if self.home.reserve(1).is_err() {
            return Err(TickRefused::NoMemory);
        }
        self.home.add(stamp, Event::Tick(Ticked { by, op, now }));
        self.moment = Moment { now, stamp };
        Ok(self.moment)
    }

    /// Its events as they were noted. It takes no memory.
    pub fn home(self) -> Home
        ensures entries { result.entries ≡ self.entries }
        ensures reads { ReadsAsNoted self }
    {
        let Clock { home, moment: _ } = self;
        home
    }
}
