// Lanes: the entries of one priority, the oldest first.
ghost use Rattle.std.specs.Prelude.{◌≡◌, ◌<◌, length, [], ◌∷◌, ◌++◌, drop, Some, slice_get, slice_index_or, slice_set, OnOk, OnErr, IfErr, MatchOption};
ghost use Rattle.xa_queue.specs.Lanes.{lanes_of, AreEmpty, IsHighest, IsOldest, IsChosenLane, first_age, older};

use crate::entry::Aged;
use std::alloc::{AllocFailed, Global};
use std::collections::VecDeque;

/// Puts an entry behind the others of the lane. Where memory runs out it comes back.
pub fn push<C>(
    lanes: &mut Vec<VecDeque<Aged<C>, Global>>,
    lane: usize,
    aged: Aged<C>,
) -> Result<(), Aged<C>>
    requires { lane < length lanes.old.items }
    ensures pushed { OnOk result (lanes_of lanes.new.items ≡ slice_set (lanes_of lanes.old.items) lane (slice_index_or (lanes_of lanes.old.items) lane [] ++ aged ∷ [])) }
    ensures back { IfErr result (λ back. back ≡ aged) }
    ensures kept { OnErr result (lanes_of lanes.new.items ≡ lanes_of lanes.old.items) }
{
    let lane = &mut lanes[lane];
    match lane.push_back(aged) {
        Ok(()) => Ok(()),
        Err(AllocFailed { value }) => Err(value),
    }
}

// Takes the first entry of a lane. Where it is the last one too it goes from the back: so the next one that comes stands
// where it stood, whose memory is at hand.
fn pop_first<C>(lane: &mut VecDeque<Aged<C>, Global>) -> Option<Aged<C>>
    ensures first { result ≡ slice_get lane.old.items 0 }
    ensures rest { lane.new.items ≡ drop 1 lane.old.items }
{
    if lane.len() == 1 {
        lane.pop_back()
    } else {
        lane.pop_front()
    }
}

/// Takes the first entry of a lane that has one.
pub fn pop<C>(lanes: &mut Vec<VecDeque<Aged<C>, Global>>, lane: usize) -> Aged<C>
    requires lane { lane < length lanes.old.items }
    requires some { 0 < length (slice_index_or (lanes_of lanes.old.items) lane []) }
    ensures first { slice_get (slice_index_or (lanes_of lanes.old.items) lane []) 0 ≡ Some result }
    ensures rest { lanes_of lanes.new.items ≡ slice_set (lanes_of lanes.old.items) lane (drop 1 (slice_index_or (lanes_of lanes.old.items) lane [])) }
{
    let Some(aged) = pop_first(&mut lanes[lane]) else {
        unreachable!()
    };
    aged
}

// The last lane that has an entry.
fn highest<C>(lanes: &[VecDeque<Aged<C>, Global>]) -> Option<usize>
    ensures { MatchOption result (AreEmpty (lanes_of lanes.now)) (IsHighest (lanes_of lanes.now)) }
{
    let mut left = lanes.len();
    while left > 0 {
        left -= 1;
        if !lanes[left].is_empty() {
            return Some(left);
        }
    }
    None
}

fn first_age<C>(lane: &VecDeque<Aged<C>, Global>) -> Option<u64>
    ensures { result ≡ first_age lane.now.items }
{
    match lane.front() {
        Some(first) => Some(first.age),
        None => None,
    }
}

// What was found so far, and the age there: that lane too, where its first entry is older.
fn older(found: Option<(usize, u64)>, lane: usize, age: Option<u64>) -> Option<(usize, u64)>
    ensures { result ≡ older found lane age }
{
    let Some(age) = age else {
        return found;
    };
    match found {
        Some((before, least)) if least < age => Some((before, least)),
        Some(_) => Some((lane, age)),
        None => Some((lane, age)),
    }
}

// The lane whose first entry is the oldest of all.
fn oldest<C>(lanes: &[VecDeque<Aged<C>, Global>]) -> Option<usize>
    ensures { MatchOption result (AreEmpty (lanes_of lanes.now)) (IsOldest (lanes_of lanes.now)) }
{
    let mut found = None;
    for lane in 0..lanes.len() {
        found = older(found, lane, first_age(&lanes[lane]));
    }
    match found {
        Some((lane, _)) => Some(lane),
        None => None,
    }
}

/// The lane whose first entry is the oldest, or the first of the highest priority.
pub fn chosen<C>(lanes: &[VecDeque<Aged<C>, Global>], by_age: bool) -> Option<usize>
    ensures { MatchOption result (AreEmpty (lanes_of lanes.now)) (IsChosenLane by_age (lanes_of lanes.now)) }
{
    if by_age {
        oldest(lanes)
    } else {
        highest(lanes)
    }
}
