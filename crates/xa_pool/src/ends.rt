// How the pool begins and how it ends.
ghost use Rattle.std.specs.Prelude.{◌≡◌, ◌+◌, ◌<◌, ◌≤◌, [], length, IfOk, vec_len, vec_capacity};
ghost use Rattle.std.specs.List.{All};
ghost use Rattle.crossbeam_queue.specs.Passes.{queue_capacity};
ghost use Rattle.xa_gauge.specs.Gauge.{knows, single};
ghost use Rattle.xa_gauge.specs.Known.{known as gauged, IsPassOf as IsGaugePassOf};
ghost use Rattle.xa_pool.specs.Known.{known, limits_of, IsPassOf, limits, taken, given};

use crate::block::Block;
use crate::calls::put;
use crate::pool::{BlockPass, Pool};
use crossbeam_queue::ArrayQueue;
use std::alloc::Global;
use std::sync::Wait;
use xa_gauge::{Gauge, GaugePass, Limits};
use xa_types::NoMemory;

// A queue with so many blocks, and room for them.
fn stock<R: Wait>(rt: &R, alloc: Global, count: u32) -> Result<ArrayQueue<Block>, NoMemory>
    requires { 0 < count }
    ensures room { IfOk result (λ blocks. queue_capacity blocks ≡ count) }
{
    let blocks = ArrayQueue::new(alloc, count as usize)?;
    for _ in 0..count {
        put(rt, &blocks, Block::new(alloc)?);
    }
    Ok(blocks)
}

// Cuts a pass for each worker.
fn deal(home: &Gauge, mut whole: GaugePass, count: u32, passes: &mut Vec<BlockPass>)
    requires pass { IsGaugePassOf home.now whole }
    requires new { gauged whole ≡ knows home.now.table.shared.key count [] 0 0 }
    requires some { 0 < count }
    requires room { (vec_len passes.old ≡ 0) × (count ≤ vec_capacity passes.old) }
    ensures count { length passes.new.items ≡ count }
    ensures table { All (λ p. IsGaugePassOf home.now p.pass) passes.new.items }
    ensures new { All (λ p. gauged p.pass ≡ single home.now.table.shared.key) passes.new.items }
{
    for _ in 1..count {
        let pass = home.another(&mut whole);
        passes.push_reserved(BlockPass { pass });
    }
    passes.push_reserved(BlockPass { pass: whole });
}

// Brings the passes together.
fn gather(home: &Gauge, mut passes: Vec<BlockPass>) -> GaugePass
    requires table { All (λ p. IsGaugePassOf home.now p.pass) passes.items }
    requires some { 0 < length passes.items }
    ensures pass { IsGaugePassOf home.now result }
    ensures parts { (gauged result).parts ≡ length passes.items }
    ensures taken { (gauged result).downs ≡ taken passes.items }
    ensures given { (gauged result).ups ≡ given passes.items }
{
    let Some(last) = passes.pop() else {
        unreachable!()
    };
    let BlockPass { pass: mut all } = last;
    while let Some(next) = passes.pop() {
        let BlockPass { pass } = next;
        home.absorb(&mut all, pass);
    }
    all
}

impl Pool {
    /// A pool of 1 to 4,096 blocks, and so many passes, which are 1 at least. No other call takes memory.
    pub fn new<R: Wait>(
        rt: &R,
        alloc: Global,
        blocks: u32,
        passes: u32,
    ) -> Result<(Pool, Vec<BlockPass>), NoMemory>
        requires blocks { (0 < blocks) × (blocks ≤ 4096) }
        requires passes { 0 < passes }
        ensures limits { IfOk result (λ made. limits_of made.0 ≡ limits blocks passes) }
        ensures count { IfOk result (λ made. length made.1.items ≡ passes) }
        ensures table { IfOk result (λ made. All (IsPassOf made.0) made.1.items) }
        ensures new { IfOk result (λ made. All (λ p. known p ≡ single (limits_of made.0)) made.1.items) }
    {
        let stock = stock(rt, alloc, blocks)?;
        let mut dealt = Vec::with_capacity(alloc, passes as usize)?;
        let full = u64::from(blocks);
        let (home, whole) = Gauge::new(
            alloc,
            Limits {
                start: full,
                full,
                passes: u64::from(passes),
            },
        )?;
        deal(&home, whole, passes, &mut dealt);
        Ok((
            Pool {
                home,
                blocks: stock,
            },
            dealt,
        ))
    }

    /// Ends the pool, with the passes of all workers, and answers how many blocks are at home: with those that were taken
    /// and not given back they are as many as at the boot.
    pub fn close(self, passes: Vec<BlockPass>) -> u32
        requires table { All (IsPassOf self) passes.items }
        requires all { length passes.items ≡ (limits_of self).passes }
        ensures home { result + taken passes.items ≡ (limits_of self).start + given passes.items }
        ensures few { result ≤ (limits_of self).start }
    {
        let all = gather(&self.home, passes);
        let Pool { home, blocks: _ } = self;
        home.close(all) as u32
    }
}
