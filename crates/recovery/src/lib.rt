//! How a life begins, what it answers to one that recovers, and when a life that recovers takes part again.
#![tactic(auto)]

pub mod begin;
pub mod rejoiner;
