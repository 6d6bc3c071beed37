//! Who made the entries of a home. An event doesn't tell: a withdrawal of the domain is noted in the work of the server that
//! went last, and which number that one has depends on how many clients there are.
ghost use Rattle.std.specs.Prelude.{◌≡◌, ◌+◌, ◌-◌, ◌≤◌, ◌++◌, [], OnOk, IsOk, replicate, vec_len, vec_capacity};

use std::alloc::Global;
use std::marker::Model;
use xa_stamp::Stamped;
use xa_types::{CallerId, NoMemory};

/// An entry of a home with its maker: the caller in whose work it was noted, whichever its event names, and 0 at the boot
/// and at the closing. No value of it is made: it is how contracts see a home's entries.
#[derive(Drop)]
pub struct Made {
    pub maker: CallerId,
    pub noted: Stamped,
}

/// The makers of a home's entries, in their order. Each takes two octets.
#[derive(Drop)]
pub struct Makers {
    makers: Vec<CallerId>,
}

impl Model for Makers {
    ghost use Rattle.std.specs.Prelude.{◌-◌, vec_len, vec_capacity};
    ghost use Rattle.xa_lock.specs.Makers.{MakerList};

    ghost Value = { MakerList };

    ghost view = { λ m. record {
      all = m.makers.items;
      room = vec_capacity m.makers - vec_len m.makers;
    } };
}

// Adds the maker so often.
fn add_each(makers: &mut Vec<CallerId>, maker: CallerId, count: usize)
    requires { vec_len makers.old + count ≤ vec_capacity makers.old }
    ensures all { makers.new.items ≡ makers.old.items ++ replicate count maker }
    ensures len { vec_len makers.new ≡ vec_len makers.old + count }
    ensures capacity { vec_capacity makers.new ≡ vec_capacity makers.old }
{
    for _ in 0..count {
        makers.push_reserved(maker);
    }
}

impl Makers {
    /// No makers. It takes no memory.
    pub fn new(alloc: Global) -> Makers
        ensures { result.all ≡ [] }
    {
        Makers {
            makers: Vec::new(alloc),
        }
    }

    /// Makes room for so many more, where there isn't already.
    pub fn reserve(&mut self, more: usize) -> Result<(), NoMemory>
        ensures all { self.new.all ≡ self.old.all }
        ensures room { OnOk result (more ≤ self.new.room) }
        ensures more { self.old.room ≤ self.new.room }
        ensures ready { more ≤ self.old.room → IsOk result }
    {
        self.makers.reserve(more)?;
        Ok(())
    }

    /// The next so many entries are of this maker.
    pub fn add(&mut self, maker: CallerId, count: usize)
        requires { count ≤ self.old.room }
        ensures all { self.new.all ≡ self.old.all ++ replicate count maker }
        ensures room { self.new.room ≡ self.old.room - count }
    {
        add_each(&mut self.makers, maker, count);
    }
}
