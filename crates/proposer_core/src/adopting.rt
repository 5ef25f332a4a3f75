//! What a replica adopts from the counted promises and its own log.

ghost use Rattle.std.specs.Prelude.{◌≡◌, ◌≤◌, ◌-◌, ◌^◌, min, Some, None, if◌then◌else◌, IfOk, OnOk, ◌++◌, ◌∷◌, []};
ghost use Rattle.std.specs.Option.{option_copied};
ghost use Rattle.jp_types.specs.Instances.{span};
ghost use Rattle.proposer_core.specs.Counting.{report_in};
ghost use Rattle.proposer_core.specs.Adoption.{has_own, own_end, adoption_end, is_prepared, batch_of, launch_of, launches_from, adoption};

use crate::adoption::{Adopted, Launch};
use crate::counting::{
    decided_below, greatest_low, highest_below, is_promised_enough, reported_end,
};
use crate::promise::Promise;
use epoch_vectors::counted::Counted;
use jp_types::batch::Batch;
use jp_types::listed::Listed;
use jp_types::memory::{Duplicate, NoMemory};
use jp_types::message::{Instance, ReplicaId};
use jp_types::replica_set::ReplicaSet;
use replica_log::log::{ReplicaLog, SPAN};
use std::alloc::Global;

// Whether the log has a vote or a known batch for an instance.
fn has_own(log: &ReplicaLog, instance: Instance) -> bool
    ensures { result ≡ has_own log.now instance }
{
    log.voted(instance).is_some() || log.known(instance).is_some()
}

// Among so many instances from the base on, one more than the highest from `first` on that has a vote or a known batch;
// 0 where none has.
fn own_end(log: &ReplicaLog, first: Instance, count: u64) -> Instance
    requires { count ≤ span }
    ensures { result ≡ own_end count log.now first }
{
    let base = log.base();
    let mut end = 0;
    for offset in 0..count {
        let instance = base + offset;
        if first <= instance && has_own(log, instance) {
            end = instance + 1;
        }
    }
    end
}

// One more than the highest instance in the counted reports or, from `first` on, in the own votes and known batches, as
// far as a number goes; 0 where there is none.
fn adoption_end(
    held: &Counted<Promise>,
    counted: ReplicaSet,
    n: u8,
    log: &ReplicaLog,
    first: Instance,
) -> Instance
    requires { n ≤ 9 }
    ensures { result ≡ min (adoption_end n counted held.now log.now first) (2 ^ 64 - 1) }
{
    reported_end(held, counted, n).max(own_end(log, first, SPAN))
}

// Whether the replica, in phase 1 from `first` on, becomes Prepared.
fn is_prepared(
    held: &Counted<Promise>,
    counted: ReplicaSet,
    n: u8,
    me: ReplicaId,
    log: &ReplicaLog,
    first: Instance,
) -> bool
    requires { n ≤ 9 }
    ensures { result ≡ is_prepared n me counted held.now log.now first }
{
    is_promised_enough(counted, n, me)
        && greatest_low(held, counted, n) <= log.first_undecided()
        && adoption_end(held, counted, n, log, first) <= log.span_end()
}

// The batch adopted for an instance of which this is the decided batch that is reported, if one is.
fn adopted_batch(
    alloc: Global,
    held: &Counted<Promise>,
    counted: ReplicaSet,
    n: u8,
    log: &ReplicaLog,
    instance: Instance,
    decided: Option<&Batch>,
) -> Result<Batch, NoMemory>
    requires { n ≤ 9 }
    ensures { IfOk result (λ batch. batch ≡ batch_of n (report_in counted held.now) log.now instance (option_copied decided.entry)) }
{
    if let Some(batch) = log.known(instance) {
        return batch.copy();
    }
    if let Some(batch) = decided {
        return batch.copy();
    }
    match highest_below(held, counted, n, log.voted(instance), instance) {
        Some((_, batch)) => batch.copy(),
        None => Ok(Batch::empty(alloc)),
    }
}

// The launch of an instance.
fn launch_of(
    alloc: Global,
    held: &Counted<Promise>,
    counted: ReplicaSet,
    n: u8,
    log: &ReplicaLog,
    instance: Instance,
) -> Result<Launch, NoMemory>
    requires { n ≤ 9 }
    ensures { IfOk result (λ launch. launch ≡ launch_of n (report_in counted held.now) log.now instance) }
{
    let decided = decided_below(held, counted, n, instance);
    let batch = adopted_batch(alloc, held, counted, n, log, instance, decided)?;
    Ok(Launch {
        instance,
        batch,
        decided: !log.is_known(instance) && decided.is_some(),
    })
}

// Appends the launch of an instance.
fn push_launch(
    launches: &mut Listed<Launch>,
    alloc: Global,
    held: &Counted<Promise>,
    counted: ReplicaSet,
    n: u8,
    log: &ReplicaLog,
    instance: Instance,
) -> Result<(), NoMemory>
    requires { n ≤ 9 }
    ensures { OnOk result (launches.new ≡ launches.old ++ launch_of n (report_in counted held.now) log.now instance ∷ []) }
{
    let launch = launch_of(alloc, held, counted, n, log, instance)?;
    launches.push(launch)
}

// The launches of the instances from `from` up to `end`.
fn launches(
    alloc: Global,
    held: &Counted<Promise>,
    counted: ReplicaSet,
    n: u8,
    log: &ReplicaLog,
    from: Instance,
    end: Instance,
) -> Result<Listed<Launch>, NoMemory>
    requires { n ≤ 9 }
    ensures { IfOk result (λ launches. launches ≡ launches_from (end - from) n (report_in counted held.now) log.now from) }
{
    let mut launches = Listed::empty(alloc);
    for instance in from..end {
        push_launch(&mut launches, alloc, held, counted, n, log, instance)?;
    }
    Ok(launches)
}

/// What is adopted, where the replica becomes Prepared.
pub fn adoption(
    alloc: Global,
    held: &Counted<Promise>,
    counted: ReplicaSet,
    n: u8,
    me: ReplicaId,
    log: &ReplicaLog,
    first: Instance,
) -> Result<Option<Adopted>, NoMemory>
    requires { n ≤ 9 }
    ensures { IfOk result (λ adopted. adopted ≡ (if is_prepared n me counted held.now log.now first then Some (adoption n counted held.now log.now first) else None)) }
{
    if !is_prepared(held, counted, n, me, log, first) {
        return Ok(None);
    }
    let end = adoption_end(held, counted, n, log, first);
    let next = end.max(log.first_undecided());
    let launches = launches(alloc, held, counted, n, log, first.max(log.base()), end)?;
    Ok(Some(Adopted { next, launches }))
}
