//! A byte stream between two processes, both ways.

ghost use Rattle.std.specs.Prelude.{◌≡◌, List, ℕ, Option, ◌<◌, length, take, IfOk, OnOk, OnErr};
ghost use Rattle.std.specs.Io.{WritesAtMost};
ghost use Rattle.std.specs.Io.KnownBytes.{Appends};
ghost use Rattle.jp_types.specs.Faults.{HasCause};
ghost use Rattle.links.specs.Receiving.{FitsRoom, SendAppends, ReceiveConsumes, CountsQuiet, CountsEnded, CountsGiven};

use crate::came::Came;
use jp_types::fault::Failed;

/// A byte stream between two processes, both ways. Its four counts begin at 0 and never fall; a count at 2^64 - 1 stays,
/// and then counts as risen.
pub trait Link: Send + Drop {
    /// The bytes that are left to receive, where that is known.
    ghost left: { Self → Option (List ℕ) };

    /// The bytes that were sent so far, where that is known.
    ghost sent: { Self → Option (List ℕ) };

    /// How many calls have failed.
    ghost faults: { Self → ℕ };

    /// How many receives brought nothing.
    ghost quiets: { Self → ℕ };

    /// How many receives met the end.
    ghost endings: { Self → ℕ };

    /// How many bytes the receives have brought.
    ghost given: { Self → ℕ };

    /// Takes some bytes from the front of a piece, and at least one where there is one. A failure takes none.
    fn send(&mut self, piece: &[u8]) -> Result<usize, Failed>
        ensures bound { WritesAtMost result piece.now }
        ensures some { IfOk result (λ count. 0 < length piece.now → 0 < count) }
        ensures bytes { SendAppends (sent self.old) (sent self.new) result piece.now }
        ensures left { left self.new ≡ left self.old }
        ensures cause { HasCause (faults self.old) (faults self.new) result }
        ensures quiets { quiets self.new ≡ quiets self.old }
        ensures endings { endings self.new ≡ endings self.old }
        ensures given { given self.new ≡ given self.old };

    /// Receives into the front of the room.
    fn receive(&mut self, room: &mut [u8]) -> Result<Came, Failed>
        requires { 0 < length room.old }
        ensures bound { IfOk result (λ came. FitsRoom came (length room.new)) }
        ensures bytes { ReceiveConsumes (left self.old) (left self.new) result room.new }
        ensures sent { sent self.new ≡ sent self.old }
        ensures cause { HasCause (faults self.old) (faults self.new) result }
        ensures quiets { CountsQuiet (quiets self.old) (quiets self.new) result }
        ensures endings { CountsEnded (endings self.old) (endings self.new) result }
        ensures given { CountsGiven (given self.old) (given self.new) result };
}

/// Sends all of a text. After a failure a beginning of it was sent.
pub fn send_all<L: Link>(link: &mut L, text: &[u8]) -> Result<(), Failed>
    ensures ok { OnOk result (Appends (L.sent link.old) (L.sent link.new) text.now) }
    ensures begun { OnErr result ((count : ℕ) × Appends (L.sent link.old) (L.sent link.new) (take count text.now)) }
    ensures left { L.left link.new ≡ L.left link.old }
    ensures cause { HasCause (L.faults link.old) (L.faults link.new) result }
    ensures quiets { L.quiets link.new ≡ L.quiets link.old }
    ensures endings { L.endings link.new ≡ L.endings link.old }
    ensures given { L.given link.new ≡ L.given link.old }
{
    let mut done = 0;
    'pieces: while done < text.len() {
        done += link.send(&text[done..])?;
    }
    Ok(())
}
