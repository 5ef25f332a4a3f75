//! Reading a stream of frames under any cutting into pieces, by a grammar that tells which kinds there are and what the
//! fields of a frame spell.
#![tactic(auto)]

pub mod grammar;
pub mod laws;
pub mod reader;
#[cfg(test)]
mod tests;
