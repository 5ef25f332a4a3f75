//! Arming a message, so that it is repeated, and cancelling it.

ghost use Rattle.std.specs.Prelude.{◌≡◌, IfErr, IfOk, List, OnErr, Option, ℕ};
ghost use Rattle.retransmitter.specs.Slots.{IsArmed, cancelled, slot_of};
ghost use Rattle.retransmitter.specs.declared.slots.Slot.{Slot};

use crate::outgoing::{Armed, Full, Outgoing};

/// What repeats messages until they are cancelled. A message that finds no slot is not repeated.
pub trait Arms {
    /// The slots, each with its generation and, where it is live, its message.
    ghost slots: { Self → List Slot };

    /// Whether arming over these slots may take this one, or none.
    ghost may_take: { List Slot → Option ℕ → Type 0 };

    /// Repeats a message from now on, in a slot that was not live.
    fn arm(&mut self, m: Outgoing) -> Result<Armed, Full>
        ensures armed { IfOk result (λ a. IsArmed (slots self.old) m a (slots self.new)) }
        ensures full { IfErr result (λ full. full.0 ≡ m) }
        ensures kept { OnErr result (slots self.new ≡ slots self.old) }
        ensures choice { may_take (slots self.old) (slot_of result) };

    /// Repeats the message no more that was armed as `a`. An `a` of other slots, whose generation the slot here does not
    /// have, changes nothing.
    fn cancel(&mut self, a: Armed)
        ensures { slots self.new ≡ cancelled (slots self.old) a };
}
