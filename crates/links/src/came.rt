//! What a receive answers.

/// What a receive that did not fail brought.
#[derive(Clone, Copy, Debug, PartialEq, Eq)]
pub enum Came {
    /// So many bytes, at least one, at the front of the room.
    Bytes(usize),
    /// Nothing in this call. More may come later.
    Quiet,
    /// Nothing, and the other side sends no more.
    Ended,
}
