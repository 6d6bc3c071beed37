// The two calls that move a gauge.
ghost use Rattle.std.specs.Prelude.{◌≡◌, MatchBool};
ghost use Rattle.xa_gauge.specs.Gauge.{noted, Ordered};
ghost use Rattle.xa_gauge.specs.Known.{known, IsPassOf};
ghost use Rattle.xa_gauge.specs.declared.moves.Move.TheVariants.{Up, Down, Full, Empty};

use crate::gauge::{Gauge, GaugePass};
use crate::rules::{GoDown, GoUp, LookDown, LookUp};
use std::sync::Wait;
use std::thread;

impl Gauge {
    /// Moves the level up by one, which is true; or doesn't, where it was at its limit at a step of this call. It waits only
    /// while other workers move the level.
    pub fn up<R: Wait>(&self, rt: &R, pass: &mut GaugePass) -> bool
        requires { IsPassOf self.now pass.old }
        ensures pass { IsPassOf self.now pass.new }
        ensures known { MatchBool result (known pass.new ≡ noted (known pass.old) Up) (known pass.new ≡ noted (known pass.old) Full) }
        ensures ordered { Ordered (known pass.new) }
    {
        let shared = &self.table.shared;
        for _ in rt.forever() {
            let found = shared.load::<LookUp>(&mut pass.seat, 0);
            if found == self.limits.full {
                return false;
            }
            if shared.compare_exchange::<GoUp>(&mut pass.seat, 0, found, found + 1) == found {
                return true;
            }
            thread::yield_now();
        }
        unreachable!()
    }

    /// Moves the level down by one, which is true; or doesn't, where it was 0 at a step of this call. It waits only while
    /// other workers move the level.
    pub fn down<R: Wait>(&self, rt: &R, pass: &mut GaugePass) -> bool
        requires { IsPassOf self.now pass.old }
        ensures pass { IsPassOf self.now pass.new }
        ensures known { MatchBool result (known pass.new ≡ noted (known pass.old) Down) (known pass.new ≡ noted (known pass.old) Empty) }
        ensures ordered { Ordered (known pass.new) }
    {
        let shared = &self.table.shared;
        for _ in rt.forever() {
            let found = shared.load::<LookDown>(&mut pass.seat, 0);
            if found == 0 {
                return false;
            }
            if shared.compare_exchange::<GoDown>(&mut pass.seat, 0, found, found - 1) == found {
                return true;
            }
            thread::yield_now();
        }
        unreachable!()
    }
}
