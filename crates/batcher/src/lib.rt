//! Requests into batches: what closes a batch, and the batch that is being made.
#![tactic(auto)]

pub mod batcher;
pub mod fed;
pub mod laws;
