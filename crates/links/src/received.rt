//! What a link counts of its receives.

ghost use Rattle.std.specs.Prelude.{◌≡◌, Ok};
ghost use Rattle.links.specs.Receiving.{CountsQuiet, CountsEnded, CountsGiven};
ghost use Rattle.links.specs.Scripts.{none_received};

use crate::came::Came;
use jp_types::fault::Failed;

/// How often the receives of a link brought nothing or met the end, and how many bytes they brought.
#[derive(Clone, Copy, Debug, Drop, PartialEq, Eq)]
pub struct Receipts {
    pub quiets: u64,
    pub endings: u64,
    pub given: u64,
}

impl Receipts {
    pub fn new() -> Receipts
        ensures { result ≡ none_received }
    {
        Receipts {
            quiets: 0,
            endings: 0,
            given: 0,
        }
    }

    /// Counts an answer.
    pub fn count(&mut self, came: Came)
        ensures quiets { CountsQuiet {E = Failed} self.old.quiets self.new.quiets (Ok came) }
        ensures endings { CountsEnded {E = Failed} self.old.endings self.new.endings (Ok came) }
        ensures given { CountsGiven {E = Failed} self.old.given self.new.given (Ok came) }
    {
        match came {
            Came::Bytes(count) => self.given = self.given.saturating_add(count as u64),
            Came::Quiet => self.quiets = self.quiets.saturating_add(1),
            Came::Ended => self.endings = self.endings.saturating_add(1),
        }
    }
}
