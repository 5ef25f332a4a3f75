//! What the Protocol stage takes.

use jp_types::batch::Batch;
use jp_types::message::{Instance, Message, ReplicaId};
use jp_types::octets::Octets;

/// What the Protocol stage takes.
#[derive(Debug, Drop)]
pub enum Item {
    Message { from: ReplicaId, message: Message },
    /// A batch that the Batcher closed.
    Batch(Batch),
    Tick,
    Suspect,
    /// The bytes of the own service's state, which has executed all below `upto`.
    Snapshot { upto: Instance, bytes: Octets },
}
