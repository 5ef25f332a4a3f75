//! Why a configuration was not read.

ghost use Rattle.std.specs.Prelude.{◌≡◌};
ghost use Rattle.configuration.specs.declared.fault.ConfigFault.TheVariants.{NoMemory as Unread};

use jp_types::cause::Cause;
use jp_types::memory::NoMemory;

/// Why a configuration was not read.
#[derive(Clone, Copy, Debug, PartialEq, Eq)]
pub enum ConfigFault {
    /// The first line that is wrong, counted from 1.
    Bad { line: u64, cause: Cause },
    /// A growth was refused. It says nothing about the text.
    NoMemory,
}

impl From<NoMemory> for ConfigFault {
    ghost from_gives = { λ _ e. e ≡ Unread };

    fn from(_want: NoMemory) -> ConfigFault {
        ConfigFault::NoMemory
    }
}
