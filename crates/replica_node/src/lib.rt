//! One replica: its stages, the lanes between them, and what they hold.
#![tactic(auto)]

pub mod batching;
pub mod lane;
pub mod repeating;
pub mod replica;
pub mod serving;
pub mod stage;
pub mod stages;
pub mod taking;
