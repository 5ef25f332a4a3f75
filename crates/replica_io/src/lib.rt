//! The stages that send messages to another replica, and receive them from it.
#![tactic(auto)]

pub mod held;
pub mod receive;
pub mod send;
