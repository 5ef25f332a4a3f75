//! The fields that the frames of replicas and of clients share, as they are read and as they are spelt.
#![tactic(auto)]

pub mod fault;
pub mod fields;
pub mod laws;
pub mod spelling;
#[cfg(test)]
mod tests;
