//! The frames between replicas: how messages are written, and how they are read back from a stream of bytes under any
//! cutting into pieces.
#![tactic(auto)]

mod fields;
pub mod laws;
pub mod reader;
#[cfg(test)]
mod tests;
pub mod writing;
