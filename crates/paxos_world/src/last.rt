//! What a replica ends with.

use jp_types::message::View;
use jp_types::mode::Phase;
use kv_service::state::State;

/// What is left of a replica that is up when a run ends.
#[derive(Debug, Drop)]
pub struct Last {
    pub phase: Phase,
    pub view: View,
    /// The state of the Service stage.
    pub state: State,
}
