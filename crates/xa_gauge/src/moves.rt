// What a gauge is made with, and what its passes know.
use std::collections::LinkedList;

/// What a gauge is made with: its level, its limit, and how many passes it may have.
#[derive(Clone, Copy)]
pub struct Limits {
    pub start: u64,
    pub full: u64,
    pub passes: u64,
}

/// One call: the level moved up or down by one, or didn't, as it was at its limit or at 0.
#[derive(Clone, Copy)]
pub enum Move {
    Up,
    Down,
    Full,
    Empty,
}

/// What a pass knows: the gauge, how many passes may be cut from it, its own calls in their order, and how often it and
/// the passes that it took in moved the level up and down. No value of it is made: it is what contracts see.
pub struct Knows {
    pub of: Limits,
    pub parts: u64,
    pub moves: LinkedList<Move>,
    pub ups: u64,
    pub downs: u64,
}
