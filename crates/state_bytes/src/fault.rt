//! Why a run told no count of bytes.

use jp_types::memory::NoMemory;
use kv_service::fault::StateFault;

#[derive(Clone, Copy, Debug, PartialEq, Eq)]
pub enum Fault {
    /// The words are no two numbers in their ranges.
    Usage,
    /// The bytes of the state are those of no state, or of one with another number of keys.
    NotRead,
    /// A state told that it executed another number of batches than it was given.
    Executed,
    /// The line could not be written.
    Write,
    NoMemory,
}

impl Fault {
    /// What a person is told.
    pub fn text(self) -> &'static str {
        match self {
            Fault::Usage => "state_bytes: usage: state_bytes KEYS (1 to 16384) LENGTH (0 to 4096)",
            Fault::NotRead => "state_bytes: the state was not read back",
            Fault::Executed => "state_bytes: another number of batches was executed",
            Fault::Write => "state_bytes: standard output could not be written",
            Fault::NoMemory => "state_bytes: out of memory",
        }
    }

    /// The exit status: where the program `jpaxos` has the same fault, its status.
    pub fn status(self) -> u8 {
        match self {
            Fault::NotRead | Fault::Executed => 1,
            Fault::Usage => 2,
            Fault::Write => 6,
            Fault::NoMemory => 8,
        }
    }
}

impl From<NoMemory> for Fault {
    fn from(_want: NoMemory) -> Fault {
        Fault::NoMemory
    }
}

impl From<StateFault> for Fault {
    fn from(fault: StateFault) -> Fault {
        match fault {
            StateFault::NoMemory => Fault::NoMemory,
            _ => Fault::NotRead,
        }
    }
}
