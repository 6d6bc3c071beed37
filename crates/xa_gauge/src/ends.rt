// How a gauge begins and ends, and how its passes are cut and brought together.
ghost use Rattle.std.specs.Prelude.{◌≡◌, ◌+◌, ◌^◌, ◌<◌, ◌≤◌, [], IfOk};
ghost use Rattle.xa_gauge.specs.Gauge.{knows, fewer, single, together};
ghost use Rattle.xa_gauge.specs.Known.{known, limits_of, IsPassOf};

use crate::gauge::{Gauge, GaugePass};
use crate::moves::Limits;
use crate::rules::{Count, Parts};
use atomic_table::Table;
use std::alloc::Global;
use xa_types::NoMemory;

impl Gauge {
    /// A gauge at its first level, below 2^32 as its limit is. From its one pass the others are cut.
    pub fn new(alloc: Global, limits: Limits) -> Result<(Gauge, GaugePass), NoMemory>
        requires level { (limits.start ≤ limits.full) × (limits.full < 2 ^ 32) }
        requires passes { 0 < limits.passes }
        ensures limits { IfOk result (λ made. limits_of made.0 ≡ limits) }
        ensures pass { IfOk result (λ made. IsPassOf made.0 made.1) }
        ensures known { IfOk result (λ made. known made.1 ≡ knows limits limits.passes [] 0 0) }
    {
        let (table, seat) = Table::of_words(alloc, &[limits.start], &limits)?;
        Ok((Gauge { table, limits }, GaugePass { seat }))
    }

    /// Cuts one pass off, for another worker. It has made no call.
    pub fn another(&self, pass: &mut GaugePass) -> GaugePass
        requires pass { IsPassOf self.now pass.old }
        requires parts { 1 < (known pass.old).parts }
        ensures pass { IsPassOf self.now pass.new × IsPassOf self.now result }
        ensures known { known pass.new ≡ fewer (known pass.old) }
        ensures other { known result ≡ single (known pass.old).of }
    {
        GaugePass {
            seat: self.table.shared.split_seat::<Parts>(&mut pass.seat),
        }
    }

    /// Takes in another pass, with what it moved.
    pub fn absorb(&self, pass: &mut GaugePass, other: GaugePass)
        requires pass { IsPassOf self.now pass.old }
        requires other { IsPassOf self.now other }
        ensures pass { IsPassOf self.now pass.new }
        ensures known { known pass.new ≡ together (known pass.old) (known other) }
    {
        self.table
            .shared
            .join_seat::<Parts>(&mut pass.seat, other.seat);
    }

    /// The level at the end, once all passes are in this one: the first level, one more for each move up and one less for
    /// each move down.
    pub fn close(self, mut pass: GaugePass) -> u64
        requires pass { IsPassOf self pass }
        requires all { (known pass).parts ≡ (limits_of self).passes }
        ensures level { result + (known pass).downs ≡ (limits_of self).start + (known pass).ups }
        ensures few { result ≤ (limits_of self).full }
    {
        self.table.shared.load::<Count>(&mut pass.seat, 0)
    }
}
