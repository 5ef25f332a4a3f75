//! Why bytes are no frame.

ghost use Rattle.std.specs.Prelude.{◌≡◌};
ghost use Rattle.frame_fields.specs.declared.fault.FrameFault.TheVariants.{NoMemory as Unread};

use jp_types::memory::NoMemory;
use std::alloc::{AllocError, AllocFailed};

/// Why no frame was read: the first fault of the stream, or want of memory. Each place is counted from the first byte
/// of the stream; a place above `u64::MAX` is told as `u64::MAX`.
#[derive(Clone, Copy, Debug, PartialEq, Eq)]
pub enum FrameFault {
    /// The kind at this place is none that is listed.
    BadKind(u64),
    /// The field at this place is cut by the end of its frame, or the frame has bytes from this place on behind its last
    /// field, or the frame whose length stands at this place has no kind.
    BadLength(u64),
    /// The field at this place is out of its range, or the batch that begins at this place is too large.
    BadField(u64),
    /// The length at this place is above that of the longest frame.
    TooLong(u64),
    /// The frame is of another cluster.
    OtherCluster {
        /// The place of the cluster's number.
        at: u64,
        /// The cluster that the frame names.
        got: u64,
    },
    /// A growth was refused. It says nothing about the bytes.
    NoMemory,
}

impl From<NoMemory> for FrameFault {
    ghost from_gives = { λ _ e. e ≡ Unread };

    fn from(_want: NoMemory) -> FrameFault {
        FrameFault::NoMemory
    }
}

impl From<AllocError> for FrameFault {
    ghost from_gives = { λ _ e. e ≡ Unread };

    fn from(_error: AllocError) -> FrameFault {
        FrameFault::NoMemory
    }
}

impl<T: Drop> From<AllocFailed<T>> for FrameFault {
    ghost from_gives = { λ _ e. e ≡ Unread };

    fn from(_failed: AllocFailed<T>) -> FrameFault {
        FrameFault::NoMemory
    }
}
