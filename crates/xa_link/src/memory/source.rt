// A source in memory.
ghost use Rattle.std.specs.Prelude.{◌≡◌, ◌≤◌, ◌<◌, ◌-◌, ◌+◌, ◌++◌, take, drop, length, Some, None, []};

use crate::count::raise;
use crate::{Failed, Source};
use xa_types::Octets;

/// Gives prepared octets, and tells all.
#[derive(Drop)]
pub struct MemorySource {
    octets: Octets,
    at: usize,
    fails: Vec<u64>,
    most: usize,
    calls: u64,
    faults: u64,
    ghost within: { at ≤ length octets },
    ghost moves: { 0 < most },
}

impl MemorySource {
    ghost use Rattle.xa_link.specs.Memory.{source_left, source_gave, source_faults};

    /// `fails` has the numbers, from 1, of the reads that fail; `most` is how many octets one read gives at most.
    pub fn new(octets: Octets, fails: Vec<u64>, most: u32) -> MemorySource
        requires { 0 < most }
        ensures left { source_left result ≡ octets }
        ensures gave { source_gave result ≡ [] }
        ensures count { source_faults result ≡ 0 }
    {
        MemorySource {
            octets,
            at: 0,
            fails,
            most: most as usize,
            calls: 0,
            faults: 0,
        }
    }

    /// The same octets from the start, as if nothing had been read.
    pub(super) fn rewind(&mut self)
        ensures left { source_left self.new ≡ source_gave self.old ++ source_left self.old }
        ensures gave { source_gave self.new ≡ [] }
        ensures count { source_faults self.new ≡ 0 }
        ensures anew { self.new.calls ≡ 0 }
    {
        self.at = 0;
        self.calls = 0;
        self.faults = 0;
    }

    fn copy(&mut self, into: &mut [u8]) -> usize
        ensures bound { result ≤ length into.new }
        ensures told { take result into.new ≡ take result (source_left self.old) }
        ensures left { source_left self.new ≡ drop result (source_left self.old) }
        ensures gave { source_gave self.new ≡ source_gave self.old ++ take result into.new }
        ensures moved { result ≤ length (source_left self.old) }
        ensures few { result ≤ self.old.most }
        ensures end { result ≡ 0 → 0 < length into.new → source_left self.old ≡ [] }
        ensures count { source_faults self.new ≡ source_faults self.old }
    {
        let n = give(self.octets.slice(), self.at, into, self.most);
        self.at += n;
        n
    }
}

// Copies as much as there is behind `at`, fits and is allowed.
fn give(octets: &[u8], at: usize, into: &mut [u8], most: usize) -> usize
    requires place { at ≤ length octets.now }
    requires moves { 0 < most }
    ensures room { result ≤ length into.new }
    ensures there { result ≤ length (drop at octets.now) }
    ensures copied { take result into.new ≡ take result (drop at octets.now) }
    ensures few { result ≤ most }
    ensures end { result ≡ 0 → 0 < length into.new → drop at octets.now ≡ [] }
{
    let rest = &octets[at..];
    let n = rest.len().min(into.len()).min(most);
    into[..n].copy_from_slice(&rest[..n]);
    n
}

impl Source for MemorySource {
    ghost use Rattle.std.specs.Prelude.{Some};
    ghost use Rattle.xa_link.specs.Links.{nothing_beside};
    ghost use Rattle.xa_link.specs.Memory.{source_left, source_gave, source_faults};

    ghost shows = { λ s. record { left = Some (source_left s); gave = Some (source_gave s); faults = source_faults s; beside = nothing_beside } };

    fn read(&mut self, into: &mut [u8]) -> Result<usize, Failed> {
        self.calls = self.calls.saturating_add(1);
        if self.fails.contains(&self.calls) {
            raise(&mut self.faults);
            return Err(Failed);
        }
        Ok(self.copy(into))
    }
}
