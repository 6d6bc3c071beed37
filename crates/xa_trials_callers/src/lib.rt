//! Trials of a worker's own objects, by their public calls: callers, the slots of servers, and their restarts; what their
//! clauses don't say, or leave to memory. No crate stands on this one.
#![tactic(auto)]

#[cfg(test)]
mod askers;
#[cfg(test)]
mod callers;
#[cfg(test)]
mod clients;
#[cfg(test)]
mod forwards;
#[cfg(test)]
mod memory;
#[cfg(test)]
mod restarts;
#[cfg(test)]
mod rows;
