//! Lines of texts that are read, and how numbers, keys, values and replies are written as text.
#![tactic(auto)]

pub mod lines;
pub mod texts;
