//! The events of a run.

use crate::line::{Line, Word};
use jp_types::listed::Listed;
use paxos_world::last::Last;
use paxos_world::step::Step;

/// A line, its answer word, and the steps that it shows.
#[derive(Debug, Drop)]
pub struct Event {
    pub line: Line,
    pub word: Word,
    pub steps: Listed<Step>,
}

/// A whole run: its events, and what each replica ends with, `None` where it is down.
#[derive(Debug, Drop)]
pub struct Run {
    pub events: Listed<Event>,
    pub last: Listed<Option<Last>>,
}
