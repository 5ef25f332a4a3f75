//! What the counted promises say together.

ghost use Rattle.std.specs.Prelude.{◌≡◌, ◌≤◌, ◌<◌, ◌-◌, ◌^◌, min};
ghost use Rattle.std.specs.Option.{option_copied};
ghost use Rattle.jp_types.specs.Reports.{decided_in, report_end, vote_in};
ghost use Rattle.replica_log.specs.Log as log;
ghost use Rattle.proposer_core.specs.Counting.{promise_in, report_in, low_in, is_promised, is_promised_enough, greatest_low, reported_end};
ghost use Rattle.jp_types.specs.Reports.{decided_below, highest_below};

use crate::promise::Promise;
use crate::report::{higher, report_end};
use epoch_vectors::counted::Counted;
use jp_types::batch::Batch;
use jp_types::message::{Instance, ReplicaId, View};
use jp_types::replica_set::ReplicaSet;
use jp_types::views::majority;

// The held promise of a replica, where it is counted.
fn promise_in(held: &Counted<Promise>, counted: ReplicaSet, replica: ReplicaId) -> Option<&Promise>
    requires { replica < 9 }
    ensures { option_copied result ≡ promise_in counted held.now replica }
{
    if !counted.has(replica) {
        return None;
    }
    match held.held(replica) {
        Some((_, promise)) => Some(promise),
        None => None,
    }
}

/// Whether the leader and the replicas whose promises are counted are a majority.
pub fn is_promised_enough(counted: ReplicaSet, n: u8, me: ReplicaId) -> bool
    requires { n ≤ 9 }
    ensures { result ≡ is_promised_enough counted n me }
{
    let mut count = 0;
    for replica in 0..n {
        if replica == me || counted.has(replica) {
            count += 1;
        }
    }
    majority(n) <= count
}

// The `low` of a counted promise, and 0 where there is none.
fn low_in(held: &Counted<Promise>, counted: ReplicaSet, replica: ReplicaId) -> Instance
    requires { replica < 9 }
    ensures { result ≡ low_in counted held.now replica }
{
    match promise_in(held, counted, replica) {
        Some(promise) => promise.low(),
        None => 0,
    }
}

/// The greatest `low` of the counted promises.
pub fn greatest_low(held: &Counted<Promise>, counted: ReplicaSet, n: u8) -> Instance
    requires { n ≤ 9 }
    ensures { result ≡ greatest_low n counted held.now }
{
    let mut greatest = 0;
    for replica in 0..n {
        greatest = low_in(held, counted, replica).max(greatest);
    }
    greatest
}

// One more than the highest instance that a counted promise reports, as far as a number goes, or 0.
fn end_in(held: &Counted<Promise>, counted: ReplicaSet, replica: ReplicaId) -> Instance
    requires { replica < 9 }
    ensures { result ≡ min (report_end (report_in counted held.now replica)) (2 ^ 64 - 1) }
{
    match promise_in(held, counted, replica) {
        Some(promise) => promise.end(),
        None => 0,
    }
}

/// One more than the highest instance that the counted promises report, as far as a number goes, or 0.
pub fn reported_end(held: &Counted<Promise>, counted: ReplicaSet, n: u8) -> Instance
    requires { n ≤ 9 }
    ensures { result ≡ min (reported_end n counted held.now) (2 ^ 64 - 1) }
{
    let mut end = 0;
    for replica in 0..n {
        end = end_in(held, counted, replica).max(end);
    }
    end
}

// The decided batch of an instance in the report of a counted promise.
fn decided_in(
    held: &Counted<Promise>,
    counted: ReplicaSet,
    replica: ReplicaId,
    instance: Instance,
) -> Option<&Batch>
    requires { replica < 9 }
    ensures { option_copied result ≡ decided_in instance (report_in counted held.now replica) }
{
    match promise_in(held, counted, replica) {
        Some(promise) => promise.decided(instance),
        None => None,
    }
}

/// The decided batch of an instance that the least replica of those with one reports in a counted promise.
pub fn decided_below(
    held: &Counted<Promise>,
    counted: ReplicaSet,
    n: u8,
    instance: Instance,
) -> Option<&Batch>
    requires { n ≤ 9 }
    ensures { option_copied result ≡ decided_below n (report_in counted held.now) instance }
{
    for replica in 0..n {
        if let Some(batch) = decided_in(held, counted, replica, instance) {
            return Some(batch);
        }
    }
    None
}

// The vote on an instance in the report of a counted promise.
fn vote_in(
    held: &Counted<Promise>,
    counted: ReplicaSet,
    replica: ReplicaId,
    instance: Instance,
) -> Option<(View, &Batch)>
    requires { replica < 9 }
    ensures { log.vote_behind result ≡ vote_in instance (report_in counted held.now replica) }
{
    match promise_in(held, counted, replica) {
        Some(promise) => promise.vote(instance),
        None => None,
    }
}

/// The vote of the highest view on an instance: the own one, or one that a counted promise reports. Of votes of one view
/// it is the own one, or the least replica's.
pub fn highest_below<'a>(
    held: &'a Counted<Promise>,
    counted: ReplicaSet,
    n: u8,
    own: Option<(View, &'a Batch)>,
    instance: Instance,
) -> Option<(View, &'a Batch)>
    requires { n ≤ 9 }
    ensures { log.vote_behind result ≡ highest_below n (report_in counted held.now) (log.vote_behind own.entry) instance }
{
    let mut highest = own;
    for replica in 0..n {
        highest = higher(highest, vote_in(held, counted, replica, instance));
    }
    highest
}
