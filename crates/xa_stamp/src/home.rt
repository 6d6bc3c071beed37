//! A home: where the events of one object or of one caller are noted, each with its stamp.
ghost use Rattle.std.specs.Prelude.{◌≡◌, ◌+◌, ◌-◌, ◌^◌, ◌≤◌, ◌<◌, [], OnOk, OnErr, IfOk, IfErr, IsOk, MatchResult};
ghost use Rattle.xa_stamp.specs.Home.{Rises, last_stamp, larger_of, IsOneMore, IsSpent, with_event};

use std::alloc::Global;
use std::marker::Model;
use xa_events::Event;
use xa_types::{NoMemory, Stamp, Worn};

/// An event with its stamp.
#[derive(Drop)]
pub struct Stamped {
    pub stamp: Stamp,
    pub event: Event,
}

/// The events of one object or of one caller, in the order noted. Their stamps rise.
#[derive(Drop)]
pub struct Home {
    first: Stamp,
    entries: Vec<Stamped>,
}

impl Model for Home {
    ghost use Rattle.std.specs.Prelude.{◌-◌, vec_len, vec_capacity};
    ghost use Rattle.xa_stamp.specs.Home.{Notes, Rises};

    ghost Value = { Notes };

    ghost view = { λ h. record {
      first = h.first;
      entries = h.entries.items;
      room = vec_capacity h.entries - vec_len h.entries;
    } };

    ghost invariant = { λ h. Rises h.first h.entries.items };
}

impl Home {
    /// A home that begins with this stamp, which none of its events has. It takes no memory.
    pub fn new(alloc: Global, first: Stamp) -> Home
        requires { first.0 ≤ 2 ^ 63 }
        ensures first { result.first ≡ first }
        ensures entries { result.entries ≡ [] }
    {
        Home {
            first,
            entries: Vec::new(alloc),
        }
    }

    /// All that was noted, in order.
    pub fn entries(&self) -> &[Stamped]
        ensures value { result.now ≡ self.now.entries }
        ensures rises { Rises self.now.first self.now.entries }
    {
        self.entries.as_slice()
    }

    // The stamp that was noted last, or the first one where nothing was.
    fn last(&self) -> Stamp
        ensures value { result.0 ≡ last_stamp self.now.first self.now.entries }
        ensures bound { result.0 ≤ 2 ^ 63 }
    {
        match self.entries.as_slice() {
            [] => self.first,
            [.., newest] => newest.stamp,
        }
    }

    /// Makes room for so many more, where there isn't already. Where it fails nothing changes.
    pub fn reserve(&mut self, more: u32) -> Result<(), NoMemory>
        ensures first { self.new.first ≡ self.old.first }
        ensures entries { self.new.entries ≡ self.old.entries }
        ensures room { OnOk result (more ≤ self.new.room) }
        ensures more { self.old.room ≤ self.new.room }
        ensures ready { more ≤ self.old.room → IsOk result }
        ensures kept { OnErr result (self.new ≡ self.old) }
    {
        self.entries.reserve(more as usize)?;
        Ok(())
    }

    /// The stamp of the next event: one more than the larger of `seen` and the last stamp. `Worn` comes exactly where the
    /// larger is 2^63.
    pub fn next_stamp(&self, seen: Stamp) -> Result<Stamp, Worn>
        requires { seen.0 ≤ 2 ^ 63 }
        ensures { MatchResult result
            (IsOneMore (larger_of seen self.now.first self.now.entries))
            (IsSpent (larger_of seen self.now.first self.now.entries)) }
    {
        Stamp::after(seen, self.last())
    }

    /// Adds an event with a stamp that is behind the last one. It takes no memory.
    pub fn add(&mut self, stamp: Stamp, event: Event)
        requires later { last_stamp self.old.first self.old.entries < stamp.0 }
        requires bound { stamp.0 ≤ 2 ^ 63 }
        requires room { 0 < self.old.room }
        ensures entries { self.new.entries ≡ with_event stamp event self.old.entries }
        ensures first { self.new.first ≡ self.old.first }
        ensures room { self.old.room ≤ self.new.room + 1 }
    {
        self.entries.push_reserved(Stamped { stamp, event });
    }

    /// Notes an event with one more than the larger of `seen` and the last stamp, and answers that stamp. `Worn` comes
    /// exactly where the larger is 2^63, and then nothing changes. It takes no memory.
    pub fn note(&mut self, seen: Stamp, event: Event) -> Result<Stamp, Worn>
        requires seen { seen.0 ≤ 2 ^ 63 }
        requires room { 0 < self.old.room }
        ensures stamp { IfOk result (IsOneMore (larger_of seen self.old.first self.old.entries)) }
        ensures entries { IfOk result (λ stamp. self.new.entries ≡ with_event stamp event self.old.entries) }
        ensures first { self.new.first ≡ self.old.first }
        ensures room { self.old.room ≤ self.new.room + 1 }
        ensures worn { IfErr result (IsSpent (larger_of seen self.old.first self.old.entries)) }
        ensures kept { OnErr result (self.new ≡ self.old) }
    {
        match self.next_stamp(seen) {
            Ok(stamp) => {
                self.add(stamp, event);
                Ok(stamp)
            }
            Err(worn) => {
                drop(event);
                Err(worn)
            }
        }
    }
}
