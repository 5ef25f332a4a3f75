//! What the Service stage takes, and what it gives.

use jp_types::batch::Batch;
use jp_types::message::Instance;
use jp_types::octets::Octets;
use kv_service::outcome::Outcomes;
use kv_service::state::State;

/// What the protocol hands to the service.
#[derive(Debug, Drop)]
pub enum Decision {
    /// The batch that was decided in an instance.
    Decided { instance: Instance, batch: Batch },
    /// The state of another replica's service, in which all instances below `upto` are executed.
    Install { upto: Instance, state: State },
}

/// What comes of a decision.
#[derive(Debug, Drop)]
pub struct Served {
    /// What became of each request of a batch that was executed, in order.
    pub outcomes: Outcomes,
    /// Whether a state was taken over.
    pub restored: bool,
    /// The bytes of the state, after each 256 batches.
    pub snapshot: Option<Octets>,
}
