//! The messages that a run has sent.

ghost use Rattle.std.specs.Prelude.{◌≡◌, ◌++◌, ◌∷◌, [], ◌==◌, if◌then◌else◌, nat_lt, length, IfOk, OnOk, Some, None};
ghost use Rattle.std.specs.List.{slice_get};
ghost use Rattle.std.specs.Option.{option_copied};
ghost use Rattle.protocol_core.specs.declared.item.Item.{Item};
ghost use Rattle.schedules.specs.Cluster.{kind_of};
ghost use Rattle.cluster.specs.Frames.{addressed, frame_bytes, frame_limit, sent_by, sent_of, shown_by, shown_of};

use jp_types::listed::Listed;
use jp_types::memory::{Duplicate, NoMemory};
use jp_types::message::{Message, ReplicaId};
use jp_types::size::frame_size;
use paxos_world::step::Step;
use protocol_core::act::Act;
use protocol_core::item::Item;
use std::alloc::Global;
use std::marker::Model;

/// How many bytes the frames of all messages of a run may have.
pub const FRAME_LIMIT: u64 = 268_435_456;

/// A message as it was sent.
#[derive(Debug, Drop)]
pub struct Sent {
    pub from: ReplicaId,
    pub to: ReplicaId,
    pub message: Message,
}

impl Sent {
    /// What the addressee's Protocol stage takes: a copy of the message, with its sender.
    pub fn item(&self) -> Result<Item, NoMemory>
        ensures { IfOk result (λ item. item ≡ Item.Message self.now.from self.now.message) }
    {
        Ok(Item::Message {
            from: self.from,
            message: self.message.copy()?,
        })
    }
}

/// A message's kind, as its frame and the text of a run tell it.
fn kind_of(message: &Message) -> u8
    ensures { result ≡ kind_of message.now }
{
    match message {
        Message::Prepare(_) => 1,
        Message::PrepareOk(_) => 2,
        Message::Propose(_) => 3,
        Message::Accept(_) => 4,
        Message::Recovery(_) => 5,
        Message::RecoveryAnswer(_) => 6,
        Message::CatchUpQuery(_) => 7,
        Message::CatchUpReply(_) => 8,
        Message::SnapshotPart(_) => 9,
        Message::Alive(_) => 10,
    }
}

/// Every message that was sent, numbered from 0.
#[derive(Debug, Drop)]
pub struct SentMessages {
    messages: Vec<Sent>,
    /// The bytes of all their frames, or 2^64 - 1 where they are more, so that no frame is counted anew.
    bytes: u64,
}

impl Model for SentMessages {
    ghost use Rattle.std.specs.Prelude.{◌≡◌, ◌-◌, ◌^◌, List, min};
    ghost use Rattle.cluster.specs.declared.sent.Sent.{Sent};
    ghost use Rattle.cluster.specs.Frames.{frame_bytes};

    ghost Value = { List Sent };

    ghost view = { λ s. s.messages.items };

    ghost invariant = { λ s. s.bytes ≡ min (frame_bytes s.messages.items) (2 ^ 64 - 1) };
}

impl SentMessages {
    /// None was sent yet.
    pub fn none(alloc: Global) -> SentMessages
        ensures { result ≡ [] }
    {
        SentMessages {
            messages: Vec::new(alloc),
            bytes: 0,
        }
    }

    pub fn as_slice(&self) -> &[Sent]
        ensures { result.now ≡ self.now }
    {
        &self.messages
    }

    /// Whether the frames have more bytes than those of a run may have.
    pub fn pass_limit(&self) -> bool
        ensures { result ≡ nat_lt frame_limit (frame_bytes self.now) }
    {
        self.bytes > FRAME_LIMIT
    }

    /// The message of a number, if it goes to this replica.
    pub fn addressed(&self, number: u64, replica: ReplicaId) -> Option<&Sent>
        ensures { option_copied result ≡ addressed replica (slice_get self.now number) }
    {
        let found = self.messages.get(number as usize)?;
        if found.to == replica {
            Some(found)
        } else {
            None
        }
    }

    // One message more.
    fn push(&mut self, sent: Sent) -> Result<(), NoMemory>
        ensures { OnOk result (self.new ≡ self.old ++ sent ∷ []) }
    {
        let bytes = self.bytes.saturating_add(frame_size(&sent.message));
        self.messages.push(sent)?;
        self.bytes = bytes;
        Ok(())
    }

    // Keeps a message that is sent, and shows that.
    fn send(
        &mut self,
        from: ReplicaId,
        to: ReplicaId,
        message: Message,
        steps: &mut Listed<Step>,
    ) -> Result<(), NoMemory>
        ensures sent { OnOk result (self.new ≡ self.old ++ record { from = from; to = to; message = message } ∷ []) }
        ensures shown { OnOk result (steps.new ≡ steps.old ++ Step.Send (length self.old) to (kind_of message) ∷ []) }
    {
        let number = self.messages.len() as u64;
        let kind = kind_of(&message);
        self.push(Sent { from, to, message })?;
        steps.push(Step::Send { number, to, kind })
    }

    // Shows one act, and keeps what it sends.
    fn show(&mut self, from: ReplicaId, act: Act, steps: &mut Listed<Step>) -> Result<(), NoMemory>
        ensures sent { OnOk result (self.new ≡ self.old ++ sent_of from act) }
        ensures shown { OnOk result (steps.new ≡ steps.old ++ shown_of (length self.old) act) }
    {
        match act {
            Act::Step(step) => steps.push(step),
            Act::Send { to, message } => self.send(from, to, message, steps),
            Act::Hand(_)
            | Act::Save(_)
            | Act::Arm {
                topic: _,
                outgoing: _,
            }
            | Act::Cancel(_)
            | Act::CancelProposes => Ok(()),
        }
    }

    /// Shows what a replica did, in order, and keeps what it sent.
    #[tactic(auto, using(crate::proofs::FrameLemmas::number_follows))]
    pub fn show_all(
        &mut self,
        alloc: Global,
        from: ReplicaId,
        acts: Listed<Act>,
    ) -> Result<Listed<Step>, NoMemory>
        ensures sent { OnOk result (self.new ≡ self.old ++ sent_by from acts) }
        ensures shown { IfOk result (λ steps. steps ≡ shown_by (length self.old) acts) }
    {
        let mut steps = Listed::empty(alloc);
        for act in acts.into_vec() {
            self.show(from, act, &mut steps)?;
        }
        Ok(steps)
    }
}
