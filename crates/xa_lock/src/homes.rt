//! A home whose entries have their makers beside them, so that a lock can guard it.
ghost use Rattle.std.specs.Prelude.{◌≡◌, ◌+◌, ◌^◌, ◌≤◌, ◌<◌, ◌∷◌, ◌++◌, [], length, MatchResult, IfOk, OnOk, OnErr, IsOk};
ghost use Rattle.xa_stamp.specs.Home.{Rises, last_stamp, larger_of, IsOneMore, IsSpent};
ghost use Rattle.xa_lock.specs.Pages.{GrewBy};
ghost use Rattle.xa_lock.specs.Makers.{maker_of, noted_in, made_by};

use crate::{Chronicle, Made, Makers};
use std::alloc::Global;
use std::marker::Model;
use xa_events::Event;
use xa_stamp::{Home, Stamped};
use xa_types::{CallerId, NoMemory, Stamp, Worn};

/// A home, with the maker of each of its entries.
#[derive(Drop)]
pub struct Kept {
    home: Home,
    makers: Makers,
}

impl Model for Kept {
    ghost use Rattle.std.specs.Prelude.{◌≡◌, length, min};
    ghost use Rattle.xa_lock.specs.Makers.{KeptNotes, made};

    ghost Value = { KeptNotes };

    ghost view = { λ k. record {
      first = k.home.first;
      entries = made k.makers.all k.home.entries;
      room = min k.home.room k.makers.room;
    } };

    ghost invariant = { λ k. length k.makers.all ≡ length k.home.entries };
}

impl Chronicle for Kept {
    ghost use Rattle.xa_lock.specs.Makers.{maker_of};

    type Entry = Made;

    ghost entries = { λ kept. kept.entries };

    ghost maker = { maker_of };
}

impl Kept {
    /// The home, whose entries so far are of maker 0.
    pub fn of(alloc: Global, home: Home) -> Result<Kept, NoMemory>
        ensures first { IfOk result (λ kept. kept.first ≡ home.first) }
        ensures entries { IfOk result (λ kept. kept.entries ≡ made_by (record { 0 = 0 }) home.entries) }
    {
        let count = home.entries().len();
        let mut makers = Makers::new(alloc);
        makers.reserve(count)?;
        makers.add(CallerId(0), count);
        Ok(Kept { home, makers })
    }

    /// The home as it is.
    pub fn home(&self) -> &Home
        ensures first { result.now.first ≡ self.now.first }
        ensures entries { result.now.entries ≡ noted_in self.now.entries }
    {
        &self.home
    }

    /// Makes room for so many more, where there isn't already.
    pub fn reserve(&mut self, more: u32) -> Result<(), NoMemory>
        ensures first { self.new.first ≡ self.old.first }
        ensures entries { self.new.entries ≡ self.old.entries }
        ensures room { OnOk result (more ≤ self.new.room) }
        ensures more { self.old.room ≤ self.new.room }
        ensures ready { more ≤ self.old.room → IsOk result }
    {
        self.makers.reserve(more as usize)?;
        self.home.reserve(more)
    }

    /// The stamp of the next event: one more than the larger of `seen` and the last stamp. `Worn` comes exactly where the
    /// larger is 2^63.
    pub fn next_stamp(&self, seen: Stamp) -> Result<Stamp, Worn>
        requires { seen.0 ≤ 2 ^ 63 }
        ensures { MatchResult result
            (IsOneMore (larger_of seen self.now.first (noted_in self.now.entries)))
            (IsSpent (larger_of seen self.now.first (noted_in self.now.entries))) }
    {
        self.home.next_stamp(seen)
    }

    /// Adds an event in the work of that maker, with a stamp that is behind the last one. It takes no memory.
    pub fn add(&mut self, stamp: Stamp, maker: CallerId, event: Event)
        requires later { last_stamp self.old.first (noted_in self.old.entries) < stamp.0 }
        requires bound { stamp.0 ≤ 2 ^ 63 }
        requires room { 0 < self.old.room }
        ensures entries { self.new.entries ≡ self.old.entries ++ made_by maker (record { stamp = stamp; event = event } ∷ []) }
        ensures grew { GrewBy maker_of maker.0 self.old.entries self.new.entries }
        ensures first { self.new.first ≡ self.old.first }
        ensures room { self.old.room ≤ self.new.room + 1 }
    {
        self.home.add(stamp, event);
        self.makers.add(maker, 1);
    }

    /// Notes an event in the work of that maker, with one more than the larger of `seen` and the last stamp, and answers
    /// that stamp. `Worn` comes exactly where the larger is 2^63, and then nothing changes. It takes no memory.
    pub fn note(&mut self, seen: Stamp, maker: CallerId, event: Event) -> Result<Stamp, Worn>
        requires seen { seen.0 ≤ 2 ^ 63 }
        requires room { 0 < self.old.room }
        ensures stamp { MatchResult result
            (IsOneMore (larger_of seen self.old.first (noted_in self.old.entries)))
            (IsSpent (larger_of seen self.old.first (noted_in self.old.entries))) }
        ensures entries { IfOk result (λ stamp. self.new.entries ≡ self.old.entries ++ made_by maker (record { stamp = stamp; event = event } ∷ [])) }
        ensures grew { GrewBy maker_of maker.0 self.old.entries self.new.entries }
        ensures first { self.new.first ≡ self.old.first }
        ensures room { self.old.room ≤ self.new.room + 1 }
        ensures kept { OnErr result (self.new ≡ self.old) }
    {
        match self.next_stamp(seen) {
            Ok(stamp) => {
                self.add(stamp, maker, event);
                Ok(stamp)
            }
            Err(worn) => {
                drop(event);
                Err(worn)
            }
        }
    }

    /// All that was noted, in order, and that its stamps rise.
    pub fn entries(&self) -> &[Stamped]
        ensures value { result.now ≡ noted_in self.now.entries }
        ensures count { length result.now ≡ length self.now.entries }
        ensures rises { Rises self.now.first (noted_in self.now.entries) }
    {
        self.home.entries()
    }

    /// The home, without its makers. It takes no memory.
    pub fn into_home(self) -> Home
        ensures first { result.first ≡ self.first }
        ensures entries { result.entries ≡ noted_in self.entries }
    {
        let Kept { home, makers: _ } = self;
        home
    }
}
