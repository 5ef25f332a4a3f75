//! The other process, with which links are made.

ghost use Rattle.std.specs.Prelude.{◌≡◌, ℕ, IfOk, IfSome};
ghost use Rattle.jp_types.specs.Faults.{HasCause};
ghost use Rattle.links.specs.Peers.{CountsNone, IsFresh};

use crate::link::Link;
use jp_types::fault::Failed;

/// Another process, which is dialled and whose dials are accepted. A link begins with all counts 0 and with nothing sent.
pub trait Peer: Send {
    type L: Link;

    /// How many calls have failed.
    ghost faults: { Self → ℕ };

    /// How many calls of `accept` found no link.
    ghost nones: { Self → ℕ };

    /// Makes a link.
    fn dial(&mut self) -> Result<Self::L, Failed>
        ensures fresh { IfOk result (λ link. IsFresh (Self.L.faults link) (Self.L.quiets link) (Self.L.endings link) (Self.L.given link) (Self.L.sent link)) }
        ensures cause { HasCause (faults self.old) (faults self.new) result }
        ensures nones { nones self.new ≡ nones self.old };

    /// Gives a link that the other process made, or None where there is none at present.
    fn accept(&mut self) -> Result<Option<Self::L>, Failed>
        ensures fresh { IfOk result (λ found. IfSome found (λ link. IsFresh (Self.L.faults link) (Self.L.quiets link) (Self.L.endings link) (Self.L.given link) (Self.L.sent link))) }
        ensures cause { HasCause (faults self.old) (faults self.new) result }
        ensures nones { CountsNone (nones self.old) (nones self.new) result };
}

/// A peer whose links and whose `accept` answer at once, so that one thread serves many of them.
pub trait Door: Peer {
    /// Waits until one of its sockets is ready, for a millisecond at most. To be called once after a round in which
    /// nothing came.
    fn rest(&mut self)
        ensures faults { Self.faults self.new ≡ Self.faults self.old }
        ensures nones { Self.nones self.new ≡ Self.nones self.old };
}
