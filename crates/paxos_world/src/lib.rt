//! The model: lives, votes and messages of replicas over whole runs, the steps that they may take, the turn of a replica's Protocol stage, and the laws of agreement.
#![tactic(auto)]

pub mod last;
pub mod laws;
pub mod step;
