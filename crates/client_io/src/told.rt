//! What a client stage is told.

use jp_types::command::Reply;
use jp_types::message::View;

/// What the other stages tell a client stage.
#[derive(Debug, Drop)]
pub enum Told {
    /// The reply to a client's request of this number.
    Answer {
        client: u64,
        number: u64,
        reply: Reply,
    },
    /// The view of the replica, and whether it leads that view and is prepared.
    Hint {
        view: View,
        leading: bool,
    },
}
