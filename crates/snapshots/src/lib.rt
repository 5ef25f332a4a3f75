//! The bytes of a service's state in parts: how they are cut, and how parts that came are joined.
#![tactic(auto)]

pub mod cut;
pub mod joiner;
pub mod laws;
