//! The configuration files of a node and of a client.
#![tactic(auto)]

pub mod address;
pub mod client;
pub mod fault;
pub mod node;
mod reading;
