// What a seat knows. But for `Carried`, no code holds a value of these types: contracts speak of them.
ghost use Rattle.std.specs.Prelude.{◌≡◌};

use std::collections::LinkedList;
use xa_types::RequestId;

/// What a slot may have: an answer. `Asked` never lies in a slot: by it a step is told a request.
pub enum Carried<A> {
    Asked(RequestId),
    Answer(A),
}

// The answer that a slot has.
pub(crate) fn answer_in<A>(slot: Option<Carried<A>>) -> A
    requires { (a : A) × (slot ≡ Some (Carried.Answer a)) }
    ensures { slot ≡ Some (Carried.Answer result) }
{
    match slot {
        Some(Carried::Answer(answer)) => answer,
        _ => unreachable!(),
    }
}

/// An opening of a cell, and the request that it was for. The openings of a cell are numbered from 1.
pub struct Opening {
    pub number: u64,
    pub request: RequestId,
}

/// An answer that was filled or taken, at this opening of its cell.
pub struct Fill<A> {
    pub opening: Opening,
    pub answer: A,
}

/// A word, as a look finds it.
pub enum Word {
    Free,
    Pending,
    Filled,
    Cancelled,
}

pub enum Act {
    Opened,
    Withdrawn,
    Looked(Word),
}

/// What a seat did with a cell: at which opening, and for which request, which is none where no place was open.
pub struct Deed {
    pub cell: u64,
    pub opening: u64,
    pub requests: LinkedList<RequestId>,
    pub act: Act,
}

/// What a seat knows of one cell. A list of owners, of requests asked or of tickets has one member at most.
pub struct Part<A> {
    /// The caller that owns the cell, where this seat is the owner's.
    pub owners: LinkedList<u64>,
    /// How often the owner opened the cell.
    pub count: u64,
    /// The request of the place that is open.
    pub asked: LinkedList<RequestId>,
    /// 1 where the owner knows that no ticket of the cell is unspent.
    pub settled: u64,
    /// The tickets that have come into this seat.
    pub tickets: LinkedList<Opening>,
    /// 1 where the seat has the slot, to fill it.
    pub filling: u64,
    /// 1 where the seat has the slot, to take from it.
    pub taking: u64,
    /// 1 where the seat came too late to fill.
    pub late: u64,
    /// The openings that the owner gave up before they were filled.
    pub given_up: LinkedList<u64>,
    /// The openings that the seat came too late to fill.
    pub dropped: LinkedList<u64>,
    pub taken: LinkedList<Fill<A>>,
    pub filled: LinkedList<Fill<A>>,
}

/// What a seat knows: the callers that it is of, a part for each cell, and what it did, in order.
pub struct View<A> {
    pub callers: LinkedList<u64>,
    pub parts: LinkedList<Part<A>>,
    pub deeds: LinkedList<Deed>,
}
