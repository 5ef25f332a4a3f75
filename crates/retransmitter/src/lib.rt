//! The messages that a replica repeats until they are cancelled, in 256 slots.
#![tactic(auto)]

pub mod arms;
pub mod laws;
pub mod outgoing;
mod slot_set;
pub mod slots;
