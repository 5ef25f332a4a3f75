//! Learning without votes, and launching.

ghost use Rattle.std.specs.Prelude.{◌≡◌, ◌<◌, ◌++◌, Some, false, OnOk};
ghost use Rattle.replica_log.specs.Log.{after_learn, is_known, with_note, with_vote};
ghost use Rattle.acceptor_core.specs.Learning.{is_open, after_note};
ghost use Rattle.protocol_core.specs.Launching.{learned, learned_if_open, propose_of, after_own_vote, after_own_note, after_own_acceptance, launch_shown, proposed, launched};
ghost use Rattle.protocol_core.specs.Turned.{Does};

use crate::act::{Act, Topic};
use crate::life::Life;
use crate::sending::{arm_for_all, send_to_all};
use jp_types::batch::Batch;
use jp_types::listed::Listed;
use jp_types::memory::{Duplicate, NoMemory};
use jp_types::message::{Instance, Message, Propose, ReplicaId, View};
use paxos_world::step::Step;
use replica_log::log::ReplicaLog;

impl Life {
    // Learns a batch.
    fn learn(
        &mut self,
        instance: Instance,
        batch: Batch,
        acts: &mut Listed<Act>,
    ) -> Result<(), NoMemory>
        ensures { OnOk result (Does (learned self.old instance batch) self.new acts.old acts.new) }
    {
        learn_open(&mut self.log, instance, batch)?;
        self.show_learning(instance, acts)
    }

    /// Learns a batch, where the instance is in span and not known.
    pub fn learn_if_open(
        &mut self,
        instance: Instance,
        batch: &Batch,
        acts: &mut Listed<Act>,
    ) -> Result<(), NoMemory>
        ensures { OnOk result (Does (learned_if_open self.old instance batch.now) self.new acts.old acts.new) }
    {
        if is_open(&self.log, instance) {
            self.learn(instance, batch.copy()?, acts)?;
        }
        Ok(())
    }

    // The steps of a launch. The own vote is the own acceptance too.
    fn show_launch(
        &mut self,
        instance: Instance,
        batch: &Batch,
        acts: &mut Listed<Act>,
    ) -> Result<(), NoMemory>
        ensures { OnOk result (Does (launch_shown self.old instance batch.now) self.new acts.old acts.new) }
    {
        accept_own(&mut self.log, instance, self.view, self.config.me, batch)?;
        acts.push(Act::Step(Step::Launch {
            replica: self.config.me,
            view: self.view,
            instance,
            batch: batch.copy()?,
        }))?;
        acts.push(Act::Step(Step::Vote {
            replica: self.config.me,
            view: self.view,
            instance,
        }))
    }

    // Sends a Propose to all others, and repeats it where that is asked for.
    fn propose(
        &self,
        repeats: bool,
        instance: Instance,
        message: Message,
        acts: &mut Listed<Act>,
    ) -> Result<(), NoMemory>
        ensures { OnOk result (acts.new ≡ acts.old ++ (proposed repeats instance message self.now).acts) }
    {
        send_to_all(&self.config, &message, acts)?;
        if repeats {
            arm_for_all(&self.config, Topic::Propose(instance), message, acts)?;
        }
        Ok(())
    }

    /// Launches a batch at an instance in the own view. It is repeated where the instance is not known.
    pub fn launch(
        &mut self,
        instance: Instance,
        batch: Batch,
        acts: &mut Listed<Act>,
    ) -> Result<(), NoMemory>
        ensures { OnOk result (Does (launched self.old instance batch) self.new acts.old acts.new) }
    {
        let repeats = !self.log.is_known(instance);
        self.show_launch(instance, &batch, acts)?;
        let message = propose_of(self.view, instance, batch);
        self.propose(repeats, instance, message, acts)
    }
}

// Whether an instance is in span and not known.
fn is_open(log: &ReplicaLog, instance: Instance) -> bool
    ensures { result ≡ is_open log.now instance }
{
    log.is_in_span(instance) && !log.is_known(instance)
}

// Makes an instance known. It is open, so that want of memory is the one fault there can be.
fn learn_open(log: &mut ReplicaLog, instance: Instance, batch: Batch) -> Result<(), NoMemory>
    ensures { OnOk result (log.new ≡ after_learn log.old instance batch) }
{
    match log.learn(instance, batch) {
        Ok(_) => Ok(()),
        Err(_) => Err(NoMemory),
    }
}

// Keeps a vote. The instance is in span, so that want of memory is the one fault there can be.
fn vote_in_span(
    log: &mut ReplicaLog,
    instance: Instance,
    view: View,
    batch: Batch,
) -> Result<(), NoMemory>
    ensures { OnOk result (log.new ≡ with_vote log.old instance view batch) }
{
    match log.vote(instance, view, batch) {
        Ok(()) => Ok(()),
        Err(_) => Err(NoMemory),
    }
}

// Keeps the own vote on a batch, where the instance is in span.
fn vote_own(
    log: &mut ReplicaLog,
    instance: Instance,
    view: View,
    batch: &Batch,
) -> Result<(), NoMemory>
    ensures { OnOk result (log.new ≡ after_own_vote log.old instance view batch.now) }
{
    if log.is_in_span(instance) {
        vote_in_span(log, instance, view, batch.copy()?)?;
    }
    Ok(())
}

// Notes an acceptance with its batch. The instance is open, so that want of memory is the one fault there can be.
fn note_open(
    log: &mut ReplicaLog,
    instance: Instance,
    view: View,
    me: ReplicaId,
    batch: Batch,
) -> Result<(), NoMemory>
    requires unknown { is_known log.old instance ≡ false }
    requires replica { me < log.old.n }
    ensures { OnOk result (log.new ≡ with_note log.old instance view me (Some batch)) }
{
    match log.note(instance, view, me, Some(batch)) {
        Ok(_) => Ok(()),
        Err(_) => Err(NoMemory),
    }
}

// Notes an acceptance with its batch, where the instance is open.
fn note_if_open(
    log: &mut ReplicaLog,
    instance: Instance,
    view: View,
    me: ReplicaId,
    batch: &Batch,
) -> Result<(), NoMemory>
    requires { me < log.old.n }
    ensures { OnOk result (log.new ≡ after_note log.old instance view me (Some batch.now)) }
{
    if is_open(log, instance) {
        note_open(log, instance, view, me, batch.copy()?)?;
    }
    Ok(())
}

// Notes the own acceptance of a batch, where the log counts the own replica.
fn note_own(
    log: &mut ReplicaLog,
    instance: Instance,
    view: View,
    me: ReplicaId,
    batch: &Batch,
) -> Result<(), NoMemory>
    ensures { OnOk result (log.new ≡ after_own_note log.old instance view me batch.now) }
{
    if me < log.replicas() {
        note_if_open(log, instance, view, me, batch)?;
    }
    Ok(())
}

// The own vote on a launched batch, and the own acceptance.
fn accept_own(
    log: &mut ReplicaLog,
    instance: Instance,
    view: View,
    me: ReplicaId,
    batch: &Batch,
) -> Result<(), NoMemory>
    ensures { OnOk result (log.new ≡ after_own_acceptance log.old instance view me batch.now) }
{
    vote_own(log, instance, view, batch)?;
    note_own(log, instance, view, me, batch)
}

// The Propose of a batch.
fn propose_of(view: View, instance: Instance, batch: Batch) -> Message
    ensures { result ≡ propose_of view instance batch }
{
    Message::Propose(Propose {
        view,
        instance,
        batch,
    })
}
