//! What becomes of the requests of a batch.

use jp_types::command::Reply;
use jp_types::listed::Listed;

/// How a request is taken: executed now, answered again with the kept reply, or passed over.
#[derive(Clone, Copy, Debug, PartialEq, Eq)]
pub enum Kind {
    First,
    Repeated,
    Passed,
}

/// What became of one request.
#[derive(Debug, Drop)]
pub struct Outcome {
    pub client: u64,
    pub number: u64,
    pub kind: Kind,
    /// `None` exactly for `Passed`.
    pub reply: Option<Reply>,
}

/// What became of a batch's requests, in order.
pub type Outcomes = Listed<Outcome>;
