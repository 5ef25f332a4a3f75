//! Schedules of several replicas, what the model makes of them, and the text of a run.
#![tactic(auto)]

pub mod event;
pub mod line;
pub mod read_line;
pub mod schedule;
pub mod show_line;
pub mod show_step;
pub mod summary;
pub mod text;
