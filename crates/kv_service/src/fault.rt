//! Why bytes are no state.

ghost use Rattle.std.specs.Prelude.{◌≡◌};
ghost use Rattle.kv_service.specs.declared.fault.StateFault.TheVariants.{NoMemory as Unread};

use jp_types::memory::NoMemory;
use std::alloc::{AllocError, AllocFailed};

/// Why no state was read: the first fault of the bytes, read from the front, or want of memory. Each place is counted
/// from the first byte.
#[derive(Clone, Copy, Debug, PartialEq, Eq)]
pub enum StateFault {
    /// The field at this place is cut by the end.
    Truncated(usize),
    /// The entry at this place is not above the one before it.
    Unordered(usize),
    /// The count or length at this place is above its limit.
    TooLong(usize),
    /// The state ends at this place, and bytes are left.
    Trailing(usize),
    /// The field at this place is out of its range.
    BadField(usize),
    /// A growth was refused. It says nothing about the bytes.
    NoMemory,
}

impl From<NoMemory> for StateFault {
    ghost from_gives = { λ _ e. e ≡ Unread };

    fn from(_want: NoMemory) -> StateFault {
        StateFault::NoMemory
    }
}

impl From<AllocError> for StateFault {
    ghost from_gives = { λ _ e. e ≡ Unread };

    fn from(_error: AllocError) -> StateFault {
        StateFault::NoMemory
    }
}

impl<T: Drop> From<AllocFailed<T>> for StateFault {
    ghost from_gives = { λ _ e. e ≡ Unread };

    fn from(_failed: AllocFailed<T>) -> StateFault {
        StateFault::NoMemory
    }
}
