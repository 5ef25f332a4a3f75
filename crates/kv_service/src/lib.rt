//! The sequential key-value service: a store, each client's last reply, and the bytes of the whole state.
#![tactic(auto)]

pub mod fault;
mod lengths;
pub mod outcome;
mod reading;
pub mod state;
pub mod store;
mod writing;
