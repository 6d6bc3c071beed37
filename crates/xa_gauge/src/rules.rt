// The rule of the table, and what its steps tell.
use crate::moves::{Knows, Limits};
use atomic_table::{Join, Play, Split, TableRule};

/// The rule of a gauge.
pub struct Levels;

impl TableRule<u8, Knows, Limits> for Levels {
    ghost use Rattle.std.specs.Prelude.{[]};
    ghost use Rattle.xa_gauge.specs.Gauge.{Gauged, knows};

    ghost holds = { Gauged };

    ghost first = { λ key. knows key key.passes [] 0 0 };
}

/// A look that may find the level at its limit.
pub(crate) struct LookUp;

impl Play<u8, Knows> for LookUp {
    ghost use Rattle.xa_gauge.specs.Gauge.{looks_up};

    ghost then = { looks_up };
}

/// A look that may find the level at 0.
pub(crate) struct LookDown;

impl Play<u8, Knows> for LookDown {
    ghost use Rattle.xa_gauge.specs.Gauge.{looks_down};

    ghost then = { looks_down };
}

/// A move up, from the level that is expected.
pub(crate) struct GoUp;

impl Play<u8, Knows> for GoUp {
    ghost use Rattle.xa_gauge.specs.Gauge.{goes_up};

    ghost then = { goes_up };
}

/// A move down, from the level that is expected.
pub(crate) struct GoDown;

impl Play<u8, Knows> for GoDown {
    ghost use Rattle.xa_gauge.specs.Gauge.{goes_down};

    ghost then = { goes_down };
}

/// The level at the end, by one who has every part.
pub(crate) struct Count;

impl Play<u8, Knows> for Count {
    ghost use Rattle.xa_gauge.specs.Gauge.{counts};

    ghost then = { counts };
}

/// One part goes to a new pass.
pub(crate) struct Parts;

impl Split<Knows> for Parts {
    ghost use Rattle.xa_gauge.specs.Gauge.{fewer, single};

    ghost left = { fewer };

    ghost right = { λ v. single v.of };
}

/// A pass takes in the parts and the counts of another.
impl Join<Knows> for Parts {
    ghost use Rattle.std.specs.Prelude.{[]};
    ghost use Rattle.xa_gauge.specs.Gauge.{knows, nothing, together};

    ghost both = { together };

    ghost spent = { knows nothing 0 [] 0 0 };
}
