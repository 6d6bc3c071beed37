// What each worker has at hand.
use crate::domain::Domain;
use std::alloc::Global;

/// What each worker of a run has at hand: where it waits, its memory, the domain that all share, and the gate that it passes
/// at each point of its work.
#[derive(Drop)]
pub struct Monitor<'a, W, G> {
    pub rt: &'a W,
    pub alloc: Global,
    pub domain: &'a Domain,
    pub gate: &'a G,
}
