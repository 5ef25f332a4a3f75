//! What a replica promises, votes on and learns, by the messages that come.
#![tactic(auto)]

mod learning;
pub mod promising;
pub mod voting;
