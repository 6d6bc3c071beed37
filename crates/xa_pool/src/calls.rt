// What workers do: they take blocks and give them back.
ghost use Rattle.std.specs.Prelude.{◌≡◌, [], MatchResult};
ghost use Rattle.xa_gauge.specs.Gauge.{noted, Ordered};
ghost use Rattle.xa_gauge.specs.declared.moves.Move.TheVariants as moves;
ghost use Rattle.xa_pool.specs.Known.{known, IsPassOf};

use crate::block::Block;
use crate::pool::{BlockPass, Pool};
use crossbeam_queue::ArrayQueue;
use std::sync::Wait;
use std::thread;

/// No block was at home.
#[derive(Clone, Copy, Debug, PartialEq, Eq)]
pub struct Empty;

// Puts a block into the queue, which has room for each block of the pool.
pub(crate) fn put<R: Wait>(rt: &R, blocks: &ArrayQueue<Block>, block: Block) {
    let mut next = block;
    for _ in rt.forever() {
        match blocks.push(rt, next) {
            Ok(()) => return,
            Err(back) => next = back,
        }
        thread::yield_now();
    }
    unreachable!()
}

// Gets a block out of the queue, in which one is that is nobody else's.
fn get<R: Wait>(rt: &R, blocks: &ArrayQueue<Block>) -> Block {
    for _ in rt.forever() {
        if let Some(block) = blocks.pop(rt) {
            return block;
        }
        thread::yield_now();
    }
    unreachable!()
}

impl Pool {
    /// A block without octets, which is nobody else's; or `Empty`, only where no block was at home at a step of this call.
    /// It takes no memory, and waits only while other workers take or give.
    pub fn take<R: Wait>(&self, rt: &R, pass: &mut BlockPass) -> Result<Block, Empty>
        requires { IsPassOf self.now pass.old }
        ensures pass { IsPassOf self.now pass.new }
        ensures known { MatchResult result (λ block. (block ≡ []) × (known pass.new ≡ noted (known pass.old) moves.Down)) (λ _. known pass.new ≡ noted (known pass.old) moves.Empty) }
        ensures ordered { Ordered (known pass.new) }
    {
        if !self.home.down(rt, &mut pass.pass) {
            return Err(Empty);
        }
        let mut block = get(rt, &self.blocks);
        block.clear();
        Ok(block)
    }

    /// Gives a block back. It comes back to the caller only where all blocks were at home at a step of this call. It takes
    /// no memory, and waits only while other workers take or give.
    pub fn give<R: Wait>(&self, rt: &R, pass: &mut BlockPass, block: Block) -> Result<(), Block>
        requires { IsPassOf self.now pass.old }
        ensures pass { IsPassOf self.now pass.new }
        ensures known { MatchResult result (λ _. known pass.new ≡ noted (known pass.old) moves.Up) (λ back. (back ≡ block) × (known pass.new ≡ noted (known pass.old) moves.Full)) }
        ensures ordered { Ordered (known pass.new) }
    {
        if !self.home.up(rt, &mut pass.pass) {
            return Err(block);
        }
        put(rt, &self.blocks, block);
        Ok(())
    }
}
