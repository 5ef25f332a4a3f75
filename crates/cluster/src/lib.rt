//! Several replicas in one process, driven by a schedule of stage steps, deliveries and crashes.
#![tactic(auto)]

pub mod generator;
pub mod machine;
pub mod sent;
pub mod stepper;
