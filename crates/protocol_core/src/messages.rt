//! What a life does with each message.

ghost use Rattle.std.specs.Prelude.{◌≡◌, OnOk};
ghost use Rattle.protocol_core.specs.Messages.{on_kind, heard, on_message};
ghost use Rattle.protocol_core.specs.Turned.{Does};

use crate::act::Act;
use crate::life::Life;
use jp_types::listed::Listed;
use jp_types::memory::NoMemory;
use jp_types::message::{Message, ReplicaId};

impl Life {
    // The leader of the own view was heard, where it is the sender.
    fn hear(&mut self, from: ReplicaId)
        ensures { self.new ≡ heard self.old from }
    {
        if self.leads(from, self.view) {
            self.quiet = 0;
        }
    }

    // What is done with a message, by its kind.
    fn on_kind(
        &mut self,
        from: ReplicaId,
        message: Message,
        acts: &mut Listed<Act>,
    ) -> Result<(), NoMemory>
        ensures { OnOk result (Does (on_kind self.old from message) self.new acts.old acts.new) }
    {
        match message {
            Message::Prepare(m) => self.on_prepare(from, &m, acts),
            Message::PrepareOk(m) => {
                self.on_prepare_ok(from, m);
                Ok(())
            }
            Message::Propose(m) => self.on_propose(from, m, acts),
            Message::Accept(m) => self.on_accept(from, m, acts),
            Message::Recovery(m) => self.on_recovery(from, m.mark, acts),
            Message::RecoveryAnswer(m) => {
                self.on_recovery_answer(from, m);
                Ok(())
            }
            Message::CatchUpQuery(m) => self.on_query(from, m.first, acts),
            Message::CatchUpReply(m) => self.on_batches(m.first, m.batches.as_slice(), acts),
            Message::SnapshotPart(m) => self.on_part(&m, acts),
            Message::Alive(m) => self.on_alive(from, &m, acts),
        }
    }

    /// A message of a replica.
    pub fn on_message(
        &mut self,
        from: ReplicaId,
        message: Message,
        acts: &mut Listed<Act>,
    ) -> Result<(), NoMemory>
        ensures { OnOk result (Does (on_message self.old from message) self.new acts.old acts.new) }
    {
        self.hear(from);
        self.on_kind(from, message, acts)
    }
}
