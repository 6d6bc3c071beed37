//! What a lock guards.
ghost use Rattle.std.specs.Prelude.{ℕ, List};

/// A value that contracts see as a list of entries, each of which names its maker.
pub trait Chronicle {
    type Entry;

    ghost entries: { Self → List Self.Entry };

    ghost maker: { Self.Entry → ℕ };
}
