//! A step of the Retransmitter.

ghost use Rattle.std.specs.Prelude.{◌≡◌, ◌+◌, ◌<◌, ◌∷◌, ◌++◌, [], if◌then◌else◌, Some, IfOk, OnOk};
ghost use Rattle.jp_types.specs.ReplicaSets.{is_member};
ghost use Rattle.protocol_core.specs.declared.act.Act.TheVariants as act_as;
ghost use Rattle.retransmitter.specs.Slots.{claim_of};
ghost use Rattle.replica_node.specs.Repeating.{sends_of, claimed_sends, retransmit_step, repeated};

use crate::stages::{Stages, Taken};
use jp_types::listed::Listed;
use jp_types::memory::{Duplicate, NoMemory};
use jp_types::message::{Message, ReplicaId};
use protocol_core::act::Act;
use retransmitter::outgoing::Outgoing;
use std::alloc::Global;

/// A replica set has members below this number.
const REPLICA_LIMIT: ReplicaId = 9;

// Sends a copy of a message.
fn send_copy(to: ReplicaId, message: &Message, acts: &mut Listed<Act>) -> Result<(), NoMemory>
    ensures { OnOk result (acts.new ≡ acts.old ++ act_as.Send to message.now ∷ []) }
{
    acts.push(Act::Send {
        to,
        message: message.copy()?,
    })
}

// Sends a copy of a message to a replica, where the replica is one of its addressees.
fn send_if_addressed(
    to: ReplicaId,
    outgoing: &Outgoing,
    acts: &mut Listed<Act>,
) -> Result<(), NoMemory>
    requires { to < 9 }
    ensures { OnOk result (acts.new ≡ acts.old ++ (if is_member outgoing.now.to to then act_as.Send to outgoing.now.message ∷ [] else [])) }
{
    if outgoing.to.has(to) {
        send_copy(to, &outgoing.message, acts)
    } else {
        Ok(())
    }
}

// Sends a copy of a message to each of its addressees, in ascending order.
fn send_copies(alloc: Global, outgoing: &Outgoing) -> Result<Listed<Act>, NoMemory>
    ensures { IfOk result (λ acts. acts ≡ sends_of outgoing.now) }
{
    let mut acts = Listed::empty(alloc);
    for to in 0..REPLICA_LIMIT {
        send_if_addressed(to, outgoing, &mut acts)?;
    }
    Ok(acts)
}

impl Stages {
    // Sends the message of a slot once more. Where the slot is not live nothing is sent.
    fn send_again(&self, slot: u16) -> Result<Listed<Act>, NoMemory>
        ensures { IfOk result (λ acts. acts ≡ claimed_sends (claim_of self.now.protocol.repeating.slots slot)) }
    {
        match self.protocol.lent(slot) {
            Some(lent) => send_copies(self.alloc(), lent.outgoing),
            None => Ok(Listed::empty(self.alloc())),
        }
    }

    // The Retransmitter repeats the message of a slot, and goes on behind it.
    fn repeat(&mut self, slot: u16) -> Result<Taken, NoMemory>
        ensures answer { IfOk result (λ taken. taken ≡ (repeated self.old (Some slot)).answer) }
        ensures after { OnOk result (self.new ≡ (repeated self.old (Some slot)).stages) }
    {
        let acts = self.send_again(slot)?;
        self.cursor = ((slot as u32 + 1) % 256) as u16;
        Ok(Taken::Done(acts))
    }

    /// The Retransmitter repeats the first live message from its cursor on.
    pub(crate) fn step_retransmit(&mut self) -> Result<Taken, NoMemory>
        ensures answer { IfOk result (λ taken. taken ≡ (retransmit_step self.old).answer) }
        ensures after { OnOk result (self.new ≡ (retransmit_step self.old).stages) }
    {
        match self.protocol.next_live(self.cursor) {
            Some(slot) => self.repeat(slot),
            None => Ok(Taken::Empty),
        }
    }
}
