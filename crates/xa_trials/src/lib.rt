//! Trials of whole runs by the top call, with streams, servers and files in memory or with real processes: what its
//! clauses don't say, or leave to memory, to the system and to whoever reads a transcript. No crate stands on this one.
#![tactic(auto)]

#[cfg(test)]
mod bank;
#[cfg(test)]
mod calls;
#[cfg(test)]
mod commands;
#[cfg(test)]
mod configurations;
#[cfg(test)]
mod descriptors;
#[cfg(test)]
mod ends;
#[cfg(test)]
mod forwards;
#[cfg(test)]
mod gated;
#[cfg(test)]
mod lives;
#[cfg(test)]
mod priorities;
#[cfg(test)]
mod processes;
#[cfg(test)]
mod records;
#[cfg(test)]
mod restarts;
#[cfg(test)]
mod rows;
#[cfg(test)]
mod running;
#[cfg(test)]
mod served;
#[cfg(test)]
mod sizes;
#[cfg(test)]
mod statuses;
#[cfg(test)]
mod worked;
