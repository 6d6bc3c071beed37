// The pool and its passes.
ghost use Rattle.std.specs.Prelude.{◌≡◌, ◌<◌, ◌≤◌};
ghost use Rattle.crossbeam_queue.specs.Passes.{queue_capacity};

use crate::block::Block;
use crossbeam_queue::ArrayQueue;
use xa_gauge::{Gauge, GaugePass};

/// The blocks of all workers: a gauge of those at home, and the queue that has them, with room for all.
#[derive(Drop)]
pub struct Pool {
    pub(crate) home: Gauge,
    pub(crate) blocks: ArrayQueue<Block>,
    ghost limits: { (home.table.shared.key.start ≡ home.table.shared.key.full) × (home.table.shared.key.full ≤ 4096) },
    ghost some: { 0 < home.table.shared.key.passes },
    ghost room: { queue_capacity blocks ≡ home.table.shared.key.full },
}

/// What one worker knows of the pool: its own takes and gives, in their order.
#[derive(Drop)]
pub struct BlockPass {
    pub(crate) pass: GaugePass,
    ghost one: { pass.seat.me.0.parts ≡ 1 },
}
