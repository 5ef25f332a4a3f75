//! What a call of a door gives, and what the calls gave so far.

use jp_types::command::Request;
use jp_types::listed::Listed;

/// What one call of a door gave.
#[derive(Debug, Drop)]
pub struct DoorTurn {
    /// The requests to put, in the order in which they came.
    pub requests: Listed<Request>,
    /// Whether a client asked the replica to stop.
    pub stop: bool,
    /// Whether nothing was moved: no session began, nothing was queued for the session in turn, and nothing came from
    /// it.
    pub idle: bool,
}

/// What a client stage did so far. A count at 2^64 - 1 stays.
#[derive(Clone, Copy, Debug, PartialEq, Eq)]
pub struct DoorTally {
    /// How many requests were given to put.
    pub given: u64,
    /// How many calls of `busy` were done.
    pub busy: u64,
    /// How many calls of `told` were done.
    pub told: u64,
    /// Whether a client asked the replica to stop.
    pub stop: bool,
}
