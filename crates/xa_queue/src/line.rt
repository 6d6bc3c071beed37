// The line of a queue: the entries that wait.
ghost use Rattle.std.specs.Prelude.{◌≡◌, ◌+◌, ◌^◌, ◌≤◌, ◌<◌, [], ◌∷◌, ◌++◌, length, IfOk, IfErr, OnOk, OnErr};
ghost use Rattle.xa_queue.specs.Line.{TakesOut};

use crate::entry::{Aged, Entry};
use crate::lanes;
use std::alloc::Global;
use std::collections::VecDeque;
use std::marker::Model;
use xa_types::NoMemory;

// How many priorities there are: a request has one from 1 on.
const PRIORITIES: usize = 100;

/// The entries that wait, in a lane for each priority. So an entry is put and taken in the same time however many wait.
pub(crate) struct Line<C> {
    lanes: Vec<VecDeque<Aged<C>, Global>>,
    count: u32,
    // More than the age of each entry.
    next: u64,
}

impl<C> Model for Line<C> {
    ghost use Rattle.xa_queue.specs.Line.{InLine};

    ghost Value = { InLine C };

    ghost use Rattle.xa_queue.specs.Lanes.{in_line, IsLine};

    ghost view = { in_line };

    ghost invariant = { IsLine };
}

impl<C> Line<C> {
    /// A line where none waits.
    pub fn new(alloc: Global) -> Result<Line<C>, NoMemory>
        ensures { IfOk result (λ line. line ≡ record { waiting = []; next = 0 }) }
    {
        let mut lanes = Vec::with_capacity(alloc, PRIORITIES)?;
        for _ in 0..PRIORITIES {
            lanes.push_reserved(VecDeque::new(alloc));
        }
        Ok(Line {
            lanes,
            count: 0,
            next: 0,
        })
    }

    /// How many wait.
    pub fn len(&self) -> u32
        ensures { result ≡ length self.now.waiting }
    {
        self.count
    }

    /// Puts an entry behind all that wait. Where memory runs out it comes back, and nothing changes.
    pub fn push(&mut self, age: u64, entry: Entry<C>) -> Result<(), Entry<C>>
        requires priority { (1 ≤ entry.priority) × (entry.priority ≤ 100) }
        requires young { self.old.next ≤ age }
        requires age { age + 1 < 2 ^ 64 }
        requires few { length self.old.waiting + 1 < 2 ^ 32 }
        ensures pushed { OnOk result (self.new ≡ record { waiting = self.old.waiting ++ entry ∷ []; next = age + 1 }) }
        ensures back { IfErr result (λ back. back ≡ entry) }
        ensures kept { OnErr result (self.new ≡ self.old) }
    {
        let lane = entry.priority as usize - 1;
        match lanes::push(&mut self.lanes, lane, Aged { age, entry }) {
            Ok(()) => {
                self.count += 1;
                self.next = age + 1;
                Ok(())
            }
            Err(Aged { age: _, entry }) => Err(entry),
        }
    }

    /// Takes the oldest entry, or the first of the highest priority. There is one.
    pub fn take(&mut self, oldest: bool) -> Entry<C>
        requires { 0 < length self.old.waiting }
        ensures taken { TakesOut oldest self.old.waiting result self.new.waiting }
        ensures next { self.new.next ≡ self.old.next }
    {
        let Some(lane) = lanes::chosen(&self.lanes, oldest) else {
            unreachable!()
        };
        let Aged { age: _, entry } = lanes::pop(&mut self.lanes, lane);
        self.count -= 1;
        entry
    }

    /// Gives the memory of a line back where none waits.
    pub fn free(self)
        requires { self.waiting ≡ [] }
    {
        let Line {
            mut lanes,
            count: _,
            next: _,
        } = self;
        while let Some(lane) = lanes.pop() {
            lane.destroy_empty();
        }
        lanes.destroy_empty();
    }
}
