//! Why a log takes nothing for an instance.

ghost use Rattle.std.specs.Prelude.{◌≡◌};

use jp_types::memory::NoMemory;
use jp_types::message::Instance;

/// Why a log takes nothing for an instance.
#[derive(Clone, Copy, Debug, PartialEq, Eq)]
pub enum LogFault {
    /// The instance is below the base, which stands here.
    BelowBase(Instance),
    /// The instance is not below the end of the span, which stands here.
    PastSpan(Instance),
    NoMemory,
}

impl From<NoMemory> for LogFault {
    ghost use Rattle.replica_log.specs.declared.fault.LogFault.{LogFault};

    ghost from_gives = { λ _ fault. fault ≡ LogFault.NoMemory };

    fn from(_error: NoMemory) -> LogFault {
        LogFault::NoMemory
    }
}
