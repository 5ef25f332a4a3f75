//! What a report says of an instance.

ghost use Rattle.std.specs.Prelude.{◌≡◌, ◌^◌, ◌-◌, ◌==◌, if◌then◌else◌, None, true, min, slice_get};
ghost use Rattle.std.specs.Option.{option_copied};
ghost use Rattle.jp_types.specs.Reports.{decided_of, vote_of, decided_in, vote_in, higher, report_end};
ghost use Rattle.proposer_core.specs.Ascending.{is_above, ascends_above, found_at};
ghost use Rattle.replica_log.specs.Log as log;

use jp_types::batch::Batch;
use jp_types::message::{Entry, Instance, View};

// The batch of an entry for this instance, where it is decided.
fn decided_of(entry: &Entry, instance: Instance) -> Option<&Batch>
    ensures { option_copied result ≡ (if entry.now.instance == instance then decided_of entry.now.vote entry.now.batch else None) }
{
    if entry.instance == instance && entry.vote.is_none() {
        Some(&entry.batch)
    } else {
        None
    }
}

// The vote of an entry for this instance, where it is not decided.
fn vote_of(entry: &Entry, instance: Instance) -> Option<(View, &Batch)>
    ensures { log.vote_behind result ≡ (if entry.now.instance == instance then vote_of entry.now.vote entry.now.batch else None) }
{
    match entry.vote {
        Some(view) if entry.instance == instance => Some((view, &entry.batch)),
        _ => None,
    }
}

/// The decided batch of an instance in a report.
pub fn decided_in(instance: Instance, report: &[Entry]) -> Option<&Batch>
    ensures { option_copied result ≡ decided_in instance report.now }
{
    for entry in report {
        if let Some(batch) = decided_of(entry, instance) {
            return Some(batch);
        }
    }
    None
}

/// The vote on an instance in a report.
pub fn vote_in(instance: Instance, report: &[Entry]) -> Option<(View, &Batch)>
    ensures { log.vote_behind result ≡ vote_in instance report.now }
{
    for entry in report {
        if let Some(vote) = vote_of(entry, instance) {
            return Some(vote);
        }
    }
    None
}

/// Of two votes the one of the higher view, and the first where the views are equal.
pub fn higher<'a>(
    first: Option<(View, &'a Batch)>,
    second: Option<(View, &'a Batch)>,
) -> Option<(View, &'a Batch)>
    ensures { log.vote_behind result ≡ higher (log.vote_behind first.entry) (log.vote_behind second.entry) }
{
    match (first, second) {
        (Some(a), Some(b)) => { if a.0 < b.0 { Some(b) } else { Some(a) } }
        (None, b) => b,
        (a, None) => a,
    }
}

/// One more than the highest instance in a report, as far as a number goes, and 0 for an empty one.
pub fn report_end(report: &[Entry]) -> Instance
    ensures { result ≡ min (report_end report.now) (2 ^ 64 - 1) }
{
    let mut end: Instance = 0;
    for entry in report {
        end = end.max(entry.instance.saturating_add(1));
    }
    end
}

// Whether an instance is above the last one, if there is one.
fn is_above(last: Option<Instance>, instance: Instance) -> bool
    ensures { result ≡ is_above last instance }
{
    match last {
        Some(last) => last < instance,
        None => true,
    }
}

/// Whether each instance in a report is above the one before it.
pub fn ascends(report: &[Entry]) -> bool
    ensures { result ≡ ascends_above None report.now }
{
    let mut last = None;
    for entry in report {
        if !is_above(last, entry.instance) {
            return false;
        }
        last = Some(entry.instance);
    }
    true
}

// The place of the first entry of this instance or of a later one, in a report that ascends: no other entry may be of it.
fn place_of(report: &[Entry], instance: Instance) -> usize
    requires { ascends_above None report.now ≡ true }
    ensures decided { decided_in instance report.now ≡ found_at decided_of instance (slice_get report.now result) }
    ensures vote { vote_in instance report.now ≡ found_at vote_of instance (slice_get report.now result) }
{
    report.partition_point(|entry| entry.instance < instance)
}

/// The decided batch of an instance in a report that ascends.
pub fn decided_search(report: &[Entry], instance: Instance) -> Option<&Batch>
    requires { ascends_above None report.now ≡ true }
    ensures { option_copied result ≡ decided_in instance report.now }
{
    match report.get(place_of(report, instance)) {
        Some(entry) => decided_of(entry, instance),
        None => None,
    }
}

/// The vote on an instance in a report that ascends.
pub fn vote_search(report: &[Entry], instance: Instance) -> Option<(View, &Batch)>
    requires { ascends_above None report.now ≡ true }
    ensures { log.vote_behind result ≡ vote_in instance report.now }
{
    match report.get(place_of(report, instance)) {
        Some(entry) => vote_of(entry, instance),
        None => None,
    }
}
