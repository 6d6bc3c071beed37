ghost use Rattle.std.specs.Prelude.{◌≡◌, ◌+◌, ◌^◌, ◌≤◌, ◌<◌, max, MatchResult};

/// The stamp of an event: greater than those of all events that it depends on, and at most 2^63.
#[derive(Clone, Copy, Debug, PartialEq, Eq, PartialOrd, Ord)]
pub struct Stamp(pub u64);

/// The stamp with which stamps are at their end.
#[derive(Clone, Copy, Debug, PartialEq, Eq)]
pub struct Worn(pub Stamp);

impl Stamp {
    /// The last stamp.
    pub const LAST: Stamp = Stamp(1 << 63);

    /// One more than the larger of both, which are at most 2^63. `Worn` comes exactly where the larger is 2^63.
    pub fn after(a: Stamp, b: Stamp) -> Result<Stamp, Worn>
        requires first { a.0 ≤ 2 ^ 63 }
        requires second { b.0 ≤ 2 ^ 63 }
        ensures { MatchResult result
            (λ next. (next.0 ≡ max a.0 b.0 + 1) × (next.0 ≤ 2 ^ 63))
            (λ worn. (worn.0.0 ≡ max a.0 b.0) × (max a.0 b.0 ≡ 2 ^ 63)) }
    {
        let larger = a.0.max(b.0);
        if larger >= Stamp::LAST.0 {
            return Err(Worn(Stamp(larger)));
        }
        Ok(Stamp(larger + 1))
    }
}
