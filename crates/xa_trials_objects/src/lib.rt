//! Trials of the objects that workers share, by their public calls: cells, the lock, queues, the board, and those under
//! their locks; what their clauses don't say, or leave to memory. Only trials stand on this crate.
#![tactic(auto)]

#[cfg(test)]
mod board;
#[cfg(test)]
mod cells;
#[cfg(test)]
mod held;
#[cfg(test)]
mod held_board;
#[cfg(test)]
mod held_steps;
#[cfg(test)]
mod locks;
#[cfg(test)]
mod queues;
#[cfg(test)]
mod rows;
