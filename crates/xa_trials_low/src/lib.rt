//! Trials of the public calls of frames, links, lives, configurations, scripts, texts and buffers: what their clauses
//! don't say, or leave to memory, to the system and to whoever reads them. No crate stands on this one.
#![tactic(auto)]

#[cfg(test)]
mod buffers;
#[cfg(test)]
mod frames;
#[cfg(test)]
mod gates;
#[cfg(test)]
mod lines;
#[cfg(test)]
mod links;
#[cfg(test)]
mod lives;
#[cfg(test)]
mod memory;
#[cfg(test)]
mod pipes;
#[cfg(test)]
mod pools;
#[cfg(test)]
mod programs;
#[cfg(test)]
mod routes;
#[cfg(test)]
mod rows;
#[cfg(test)]
mod scripts;
#[cfg(test)]
mod shelves;
#[cfg(test)]
mod stamps;
#[cfg(test)]
mod transcripts;
#[cfg(test)]
mod yards;
