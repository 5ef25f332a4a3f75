//! The turn of a replica's Protocol stage is lawful: each step of the world that it makes is allowed where it comes.
#![tactic(auto)]

pub mod laws;
