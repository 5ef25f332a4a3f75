//! Vectors of epochs, and the replies of the other replicas, of which those of the epochs that are known are counted.
#![tactic(auto)]

pub mod counted;
pub mod vector;
