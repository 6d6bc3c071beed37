// The states of a cell, as its word has them.
ghost use Rattle.std.specs.Prelude.{◌≡◌, ◌+◌, ◌-◌, ◌%◌, ◌<◌};

// A word is this times the number of its last opening, modulo 2^62, and a state.
pub(crate) const NUMBER: u64 = 4;

pub(crate) const FREE: u64 = 0;
// The place was given up, and its ticket isn't spent yet.
pub(crate) const CANCELLED: u64 = 1;

pub(crate) const FILLED: u64 = 2;

pub(crate) const PENDING: u64 = 3;

// The word of the same opening with that state.
pub(crate) fn with_state(word: u64, state: u64) -> u64
    requires { state < 4 }
    ensures { result ≡ word - word % 4 + state }
{
    word - word % NUMBER + state
}
