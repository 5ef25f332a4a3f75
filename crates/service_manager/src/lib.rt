//! The Service stage: it executes decided batches in the order of their instances, and takes over newer states.
#![tactic(auto)]

pub mod decision;
pub mod laws;
pub mod service;
