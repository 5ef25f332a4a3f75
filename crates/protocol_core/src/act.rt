//! What a life does.

use jp_types::message::{Instance, Message, ReplicaId};
use paxos_world::step::Step;
use retransmitter::outgoing::Outgoing;
use service_manager::decision::Decision;

/// What a message is repeated for, and by what it is cancelled.
#[derive(Clone, Copy, Debug, PartialEq, Eq)]
pub enum Topic {
    /// Phase 1 of the own view.
    Prepare,
    /// The recovery of the life.
    Recovery,
    /// The query for known batches.
    Query,
    /// The own proposal for an instance.
    Propose(Instance),
}

/// What a life does. The order of the acts is that in which they have to take effect: a message behind a `Save` may go
/// out only when the number is saved.
#[derive(Debug, Drop)]
pub enum Act {
    /// Shows a step.
    Step(Step),
    Send { to: ReplicaId, message: Message },
    /// Hands a decision to the Service stage.
    Hand(Decision),
    /// Saves the stable number.
    Save(u64),
    /// Repeats a message until it is cancelled.
    Arm { topic: Topic, outgoing: Outgoing },
    Cancel(Topic),
    /// Cancels the own proposals for all instances.
    CancelProposes,
}
