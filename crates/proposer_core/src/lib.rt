//! The proposer: phase 1 of a view, the batches that a new leader adopts from promises, and the window of instances in
//! which it proposes.
#![tactic(auto)]

mod adopting;
pub mod adoption;
mod counting;
pub mod leading;
pub mod not_now;
mod promise;
pub mod proposer;
mod report;
