//! The run of a schedule by the program's replicas is the run that the model gives.
#![tactic(auto)]

pub mod laws;
