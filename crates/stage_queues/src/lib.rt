//! Bounded lanes between the threads of a node: producers put items in, and one consumer takes them out.
#![tactic(auto)]

pub mod bell;
pub mod inlet;
pub mod lane;
pub mod outlet;
pub mod pass;
mod rule;
pub mod side;
pub mod taken;
#[cfg(test)]
mod tests;
