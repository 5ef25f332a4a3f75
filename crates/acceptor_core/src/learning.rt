//! Acceptances, and what is learned by them.

ghost use Rattle.std.specs.Prelude.{◌≡◌, ◌<◌, ◌&&◌, None, Some, false, is_some, IfOk, OnOk};
ghost use Rattle.replica_log.specs.Log.{after_learn, is_known, with_note, with_vote};
ghost use Rattle.acceptor_core.specs.Learning.{KeepsSpan, after_check, after_note, is_open, learned_with};

use jp_types::batch::Batch;
use jp_types::memory::{Duplicate, NoMemory};
use jp_types::message::{Instance, ReplicaId, View};
use replica_log::log::ReplicaLog;

// Whether acceptances of an instance are noted: it is in span and not known.
pub fn is_open(log: &ReplicaLog, instance: Instance) -> bool
    ensures { result ≡ is_open log.now instance }
{
    log.is_in_span(instance) && !log.is_known(instance)
}

// A vote. The instance is in span, so that want of memory is the one fault there can be.
pub fn vote(
    log: &mut ReplicaLog,
    instance: Instance,
    view: View,
    batch: Batch,
) -> Result<(), NoMemory>
    ensures { OnOk result (log.new ≡ with_vote log.old instance view batch) }
{
    match log.vote(instance, view, batch) {
        Ok(()) => Ok(()),
        Err(_) => Err(NoMemory),
    }
}

// A note on an instance that is open, so that want of memory is the one fault there can be.
fn note_open(
    log: &mut ReplicaLog,
    instance: Instance,
    view: View,
    from: ReplicaId,
    batch: Option<Batch>,
) -> Result<(), NoMemory>
    requires unknown { is_known log.old instance ≡ false }
    requires replica { from < log.old.n }
    ensures { OnOk result (log.new ≡ with_note log.old instance view from batch) }
{
    match log.note(instance, view, from, batch) {
        Ok(_) => Ok(()),
        Err(_) => Err(NoMemory),
    }
}

// Notes that a replica accepted, where the instance is open.
pub fn note(
    log: &mut ReplicaLog,
    instance: Instance,
    view: View,
    from: ReplicaId,
) -> Result<(), NoMemory>
    requires { from < log.old.n }
    ensures after { OnOk result (log.new ≡ after_note log.old instance view from None) }
    ensures span { OnOk result (KeepsSpan log.old log.new) }
{
    if is_open(log, instance) {
        return note_open(log, instance, view, from, None);
    }
    Ok(())
}

// Notes that a leader proposed a batch, which counts as its acceptance, where the instance is open.
pub fn note_proposal(
    log: &mut ReplicaLog,
    instance: Instance,
    view: View,
    from: ReplicaId,
    batch: &Batch,
) -> Result<(), NoMemory>
    requires { from < log.old.n }
    ensures after { OnOk result (log.new ≡ after_note log.old instance view from (Some batch.now)) }
    ensures span { OnOk result (KeepsSpan log.old log.new) }
{
    if is_open(log, instance) {
        return note_open(log, instance, view, from, Some(batch.copy()?));
    }
    Ok(())
}

// Makes an instance known. What has a full tally is in span, so that want of memory is the one fault there can be.
fn learn(log: &mut ReplicaLog, instance: Instance, batch: Batch) -> Result<(), NoMemory>
    ensures { OnOk result (log.new ≡ after_learn log.old instance batch) }
{
    match log.learn(instance, batch) {
        Ok(_) => Ok(()),
        Err(_) => Err(NoMemory),
    }
}

// The batch with which an instance is learned.
fn learned_with(log: &ReplicaLog, instance: Instance) -> Result<Option<Batch>, NoMemory>
    ensures { IfOk result (λ batch. batch ≡ learned_with log.now instance) }
{
    if log.is_known(instance) || !log.is_full(instance) {
        return Ok(None);
    }
    match log.tallied(instance) {
        Some(batch) => Ok(Some(batch.copy()?)),
        None => Ok(None),
    }
}

// Learns an instance whose tally has its batch and a majority, and tells whether it did.
pub fn learn_check(log: &mut ReplicaLog, instance: Instance) -> Result<bool, NoMemory>
    ensures learned { IfOk result (λ learned. learned ≡ is_some (learned_with log.old instance)) }
    ensures after { OnOk result (log.new ≡ after_check log.old instance) }
    ensures span { OnOk result (KeepsSpan log.old log.new) }
{
    match learned_with(log, instance)? {
        Some(batch) => {
            learn(log, instance, batch)?;
            Ok(true)
        }
        None => Ok(false),
    }
}
