//! What the cores keep of a replica is what the turn of the model reads of it.
#![tactic(auto)]

pub mod laws;
