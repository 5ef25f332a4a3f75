//! Byte streams between processes: what they are to their callers, in memory, and over the sockets of the system.
#![tactic(auto)]

pub mod arrivals;
pub mod came;
pub mod door;
pub mod link;
pub mod peer;
pub mod received;
pub mod scripted;
pub mod steady;
pub mod tcp;
