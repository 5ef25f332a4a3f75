//! The frames between clients and replicas: how they are spelt, and the reader of a stream of them.
#![tactic(auto)]

pub mod frame;
pub mod grammar;
pub mod laws;
pub mod reader;
#[cfg(test)]
mod tests;
