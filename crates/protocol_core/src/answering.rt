//! Answers of phase 1 and of recoveries, and the leader's word that it is alive.

ghost use Rattle.std.specs.Prelude.{◌≡◌, ◌<◌, ◌==◌, length, if◌then◌else◌, OnOk};
ghost use Rattle.protocol_core.specs.Answering.{on_prepare_ok, with_entry, answer_sent, raised_to_mark, on_recovery, horizon_to_next, with_answer, on_recovery_answer, on_alive};
ghost use Rattle.protocol_core.specs.Turned.{Does};

use crate::act::Act;
use crate::life::Life;
use epoch_vectors::vector::raise;
use jp_types::listed::Listed;
use jp_types::memory::NoMemory;
use jp_types::message::{
    Alive, Instance, Mark, Message, PrepareOk, Recovery, RecoveryAnswer, ReplicaId,
};
use jp_types::mode::{Mode, Phase};
use paxos_world::step::Step;
use recovery::rejoiner::answer;

impl Life {
    /// PrepareOk: where it answers the phase 1 that runs, it is merged, it may be held, and all below its `low` was heard
    /// of.
    pub fn on_prepare_ok(&mut self, from: ReplicaId, promise: PrepareOk)
        ensures { self.new ≡ on_prepare_ok self.old from promise }
    {
        if from < self.proposer.replicas() && self.proposer.leading().is_awaited(&promise) {
            self.horizon_to(promise.low);
            self.proposer.on_prepare_ok(&mut self.vector, from, promise);
        }
    }

    // The vector's entry for a replica is at least the mark of its life. In ViewSS the vector stays all 0.
    fn raise_entry(&mut self, from: ReplicaId, mark: Mark)
        ensures { self.new ≡ with_entry self.old from mark }
    {
        if self.config.mode == Mode::EpochSs && from < 9 {
            raise(&mut self.vector, from, mark);
        }
    }

    // Answers a recovery.
    fn send_answer(
        &mut self,
        to: ReplicaId,
        mark: Mark,
        acts: &mut Listed<Act>,
    ) -> Result<(), NoMemory>
        ensures { OnOk result (Does (answer_sent self.old to mark) self.new acts.old acts.new) }
    {
        let next = self.proposer.next();
        acts.push(Act::Step(Step::Answer {
            replica: self.config.me,
            to,
            view: self.view,
            next,
        }))?;
        let message = answer(self.view, &self.vector, next, &Recovery { mark });
        acts.push(Act::Send {
            to,
            message: Message::RecoveryAnswer(message),
        })
    }

    // In ViewSS a Working life is raised to the mark of a recovery.
    fn raise_to_mark(&mut self, mark: Mark, acts: &mut Listed<Act>) -> Result<(), NoMemory>
        ensures { OnOk result (Does (raised_to_mark self.old mark) self.new acts.old acts.new) }
    {
        if self.config.mode == Mode::ViewSs {
            self.raise_up_to(mark, acts)?;
        }
        Ok(())
    }

    /// Recovery: a Working life answers. In ViewSS it raises to the mark first.
    pub fn on_recovery(
        &mut self,
        from: ReplicaId,
        mark: Mark,
        acts: &mut Listed<Act>,
    ) -> Result<(), NoMemory>
        ensures { OnOk result (Does (on_recovery self.old from mark) self.new acts.old acts.new) }
    {
        if self.works() {
            self.raise_to_mark(mark, acts)?;
            self.raise_entry(from, mark);
            self.send_answer(from, mark, acts)?;
        }
        Ok(())
    }

    // The horizon is at least the instance, if there is one.
    fn horizon_to_next(&mut self, next: Option<Instance>)
        ensures { self.new ≡ horizon_to_next self.old next }
    {
        if let Some(next) = next {
            self.horizon_to(next);
        }
    }

    // Takes an answer. Whether it is one to this life.
    fn take_answer(&mut self, from: ReplicaId, message: RecoveryAnswer) -> bool
        requires { from < length self.old.rejoiner.answers }
        ensures own { result ≡ (message.mark == self.old.rejoiner.mark) }
        ensures after { self.new ≡ (if result then with_answer self.old from message else self.old) }
    {
        self.rejoiner.on_answer(&mut self.vector, from, message)
    }

    /// RecoveryAnswer: where it answers this life, and that is Recovering, it is merged, it may be held, and all below its
    /// `next` was heard of.
    pub fn on_recovery_answer(&mut self, from: ReplicaId, message: RecoveryAnswer)
        ensures { self.new ≡ on_recovery_answer self.old from message }
    {
        let next = message.next;
        if self.phase == Phase::Recovering
            && from < self.rejoiner.replicas()
            && self.take_answer(from, message)
        {
            self.horizon_to_next(next);
        }
    }

    /// Alive of its view's leader: it is heard of and raised to.
    pub fn on_alive(
        &mut self,
        from: ReplicaId,
        alive: &Alive,
        acts: &mut Listed<Act>,
    ) -> Result<(), NoMemory>
        ensures { OnOk result (Does (on_alive self.old from alive.now) self.new acts.old acts.new) }
    {
        if self.leads(from, alive.view) {
            self.horizon_to(alive.first_undecided);
            self.raise_up_to(alive.view, acts)?;
        }
        Ok(())
    }
}
