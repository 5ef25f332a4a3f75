//! What a replica proposes as it becomes Prepared.

use jp_types::batch::Batch;
use jp_types::listed::Listed;
use jp_types::message::Instance;

/// The batch that is adopted for an instance.
#[derive(Debug, Drop)]
pub struct Launch {
    pub instance: Instance,
    pub batch: Batch,
    /// Whether a promise told the batch as decided where the own log does not know it.
    pub decided: bool,
}

/// What a replica adopts from the promises.
#[derive(Debug, Drop)]
pub struct Adopted {
    /// The instance for the first batch that is offered.
    pub next: Instance,
    /// In ascending order of their instances.
    pub launches: Listed<Launch>,
}
