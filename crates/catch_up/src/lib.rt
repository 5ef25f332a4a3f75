//! Catching up: whether there is something to ask for, whom to ask, and what a query is answered with.
#![tactic(auto)]

pub mod query;
pub mod reply;
