// A sink in memory.
ghost use Rattle.std.specs.Prelude.{◌≡◌, ◌<◌, ◌-◌, take, Some, None, []};

use crate::count::raise;
use crate::{Failed, Sink};
use std::alloc::Global;

/// Keeps the octets that it takes, and tells all. Where memory runs out, a write fails.
#[derive(Drop)]
pub struct MemorySink {
    taken: Vec<u8>,
    fails: Vec<u64>,
    idle: Vec<u64>,
    most: usize,
    calls: u64,
    faults: u64,
    ghost moves: { 0 < most },
}

impl MemorySink {
    ghost use Rattle.xa_link.specs.Memory.{sink_took, sink_faults};

    /// `fails` and `idle` have the numbers, from 1, of the writes that fail and of those that take nothing; `most` is
    /// how many octets one write takes at most.
    pub fn new(alloc: Global, fails: Vec<u64>, idle: Vec<u64>, most: u32) -> MemorySink
        requires { 0 < most }
        ensures took { sink_took result ≡ [] }
        ensures count { sink_faults result ≡ 0 }
    {
        MemorySink {
            taken: Vec::new(alloc),
            fails,
            idle,
            most: most as usize,
            calls: 0,
            faults: 0,
        }
    }

    /// The octets that it took.
    pub fn taken(&self) -> &[u8]
        ensures { result.now ≡ sink_took self.now }
    {
        self.taken.as_slice()
    }

    /// Forgets what it took, as if nothing had been written.
    pub(super) fn rewind(&mut self)
        ensures took { sink_took self.new ≡ [] }
        ensures count { sink_faults self.new ≡ 0 }
        ensures anew { self.new.calls ≡ 0 }
    {
        self.taken.clear();
        self.calls = 0;
        self.faults = 0;
    }
}

impl Sink for MemorySink {
    ghost use Rattle.std.specs.Prelude.{Some};
    ghost use Rattle.xa_link.specs.Links.{nothing_beside};
    ghost use Rattle.xa_link.specs.Memory.{sink_took, sink_faults};

    ghost shows = { λ s. record { took = Some (sink_took s); faults = sink_faults s; beside = nothing_beside } };

    fn write(&mut self, from: &[u8]) -> Result<usize, Failed> {
        self.calls = self.calls.saturating_add(1);
        if self.fails.contains(&self.calls) {
            raise(&mut self.faults);
            return Err(Failed);
        }
        if self.idle.contains(&self.calls) {
            if !from.is_empty() {
                raise(&mut self.faults);
            }
            return Ok(0);
        }
        let n = from.len().min(self.most);
        if self.taken.extend_from_slice(&from[..n]).is_err() {
            raise(&mut self.faults);
            return Err(Failed);
        }
        Ok(n)
    }
}
