//! In the run of every schedule there are only requests for which the schedule asks.
#![tactic(auto)]

pub mod laws;
