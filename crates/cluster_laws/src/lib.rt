//! The run of every schedule is a run of the model's world, so the laws of agreement hold of it.
#![tactic(auto)]

pub mod laws;
