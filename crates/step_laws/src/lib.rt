//! Which steps a turn of the model shows, exactly.
#![tactic(auto)]

pub mod laws;
