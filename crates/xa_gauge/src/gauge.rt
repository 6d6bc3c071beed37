// A gauge and its passes.
ghost use Rattle.std.specs.Prelude.{◌≡◌, []};

use crate::moves::{Knows, Limits};
use crate::rules::Levels;
use atomic_table::{Seat, Table};
use std::alloc::Global;

/// A level that workers move.
#[derive(Drop)]
pub struct Gauge {
    pub(crate) table: Table<u8, Knows, Limits, Levels, Global>,
    pub(crate) limits: Limits,
    ghost sized: { (table.shared.table_id.words ≡ 1) × (table.shared.table_id.slots ≡ 0) },
    ghost same: { limits ≡ table.shared.key },
}

/// What one worker knows of a gauge.
#[derive(Drop)]
pub struct GaugePass {
    pub(crate) seat: Seat<u8, Knows>,
    ghost idle: { seat.me.1 ≡ [] },
}
