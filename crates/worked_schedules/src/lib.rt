//! Worked schedules: what the model makes of the schedules of `examples/`, computed. There is no code here: each file of
//! `proofs/` works one schedule.
#![tactic(auto)]
