//! How large a state is to be, as the words of the command line say.

ghost use Rattle.std.specs.Prelude.{◌≤◌};

use crate::fault::Fault;
use jp_types::words::number;
use kv_service::store::KEYS;

/// The size of a state: its keys, and how many bytes each value has.
#[derive(Clone, Copy, Debug, PartialEq, Eq)]
pub struct Size {
    pub keys: u16,
    pub length: u16,
    ghost few: { keys ≤ 16384 },
}

/// The size that the words after the program's name spell.
pub fn size_of(words: &[String]) -> Result<Size, Fault> {
    match words {
        [keys, length] => spelt(keys.as_bytes(), length.as_bytes()),
        _ => Err(Fault::Usage),
    }
}

// The ranges are those of states that are read back: a store takes no more keys, and no longer value is read.
fn spelt(keys: &[u8], length: &[u8]) -> Result<Size, Fault> {
    match (number(keys, 1, KEYS as u64), number(length, 0, 4_096)) {
        (Ok(keys), Ok(length)) => Ok(Size {
            keys: keys as u16,
            length: length as u16,
        }),
        _ => Err(Fault::Usage),
    }
}
