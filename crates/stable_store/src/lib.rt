//! A small device that outlives its process, and the one growing number that a replica keeps on it.
#![tactic(auto)]

pub mod cell;
pub mod disk;
pub mod failing;
pub mod file;
pub mod memory;
