//! What a replica's life does is what the stage of the model does.
#![tactic(auto)]

pub mod laws;
