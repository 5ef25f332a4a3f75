//! What a replica holds of the instances in span: votes, tallies and known batches.
#![tactic(auto)]

pub mod fault;
pub mod log;
#[cfg(test)]
mod plain;
mod tally;
