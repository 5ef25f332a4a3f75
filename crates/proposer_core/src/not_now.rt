//! Why a batch has no place now.

use jp_types::message::Instance;

/// Why a batch has no place now.
#[derive(Clone, Copy, Debug, PartialEq, Eq)]
pub enum NotNow {
    /// The replica is not Prepared in any view.
    NotLeader,
    /// The next instance is not below this limit, the end of the window or of the log's span.
    Waiting(Instance),
}
