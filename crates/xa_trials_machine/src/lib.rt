//! Trials of the machine: whole histories that are replayed, and histories with one event that may not come where it
//! stands. No crate stands on this one.
#![tactic(auto)]

#[cfg(test)]
mod domains;
#[cfg(test)]
mod histories;
#[cfg(test)]
mod records;
#[cfg(test)]
mod replays;
#[cfg(test)]
mod spellings;
#[cfg(test)]
mod steps;
