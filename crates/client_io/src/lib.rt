//! The sessions of a replica's clients, and a client's own run.
#![tactic(auto)]

pub mod attempt;
pub mod attempt_end;
#[cfg(test)]
mod attempt_tests;
pub mod desk;
#[cfg(test)]
mod door_tests;
pub mod door_turn;
pub mod hearing;
pub mod session;
pub mod stage;
pub mod told;
