//! Which replicas accepted an instance, and with which batch.

ghost use Rattle.std.specs.Prelude.{◌≡◌, ◌<◌, OnErr, OnOk};
ghost use Rattle.std.specs.FinMap as map;
ghost use Rattle.replica_log.specs.Log.{begun, has_majority, newer_batch, noted};

use jp_types::batch::Batch;
use jp_types::memory::NoMemory;
use jp_types::message::{Instance, ReplicaId, View};
use jp_types::numbered::Numbered;
use jp_types::replica_set::ReplicaSet;
use jp_types::views::majority;

/// What was noted of an instance in the highest view.
#[derive(Debug, Drop)]
pub struct Tally {
    pub view: View,
    pub from: ReplicaSet,
    pub batch: Option<Batch>,
}

/// The newer batch, where there is one.
fn newer_batch(newer: Option<Batch>, older: Option<Batch>) -> Option<Batch>
    ensures { result ≡ newer_batch newer older }
{
    match newer {
        Some(batch) => Some(batch),
        None => older,
    }
}

impl Tally {
    /// A tally with nothing noted.
    fn none() -> Tally {
        Tally {
            view: 0,
            from: ReplicaSet::none(),
            batch: None,
        }
    }

    /// The tally that begins with a note.
    pub fn begun(view: View, from: ReplicaId, batch: Option<Batch>) -> Tally
        requires { from < 9 }
        ensures { result ≡ begun view from batch }
    {
        Tally {
            view,
            from: ReplicaSet::none().with(from),
            batch,
        }
    }

    /// The tally after one more note. A higher view starts it anew, and a lower one is passed over.
    pub fn noted(old: Option<Tally>, view: View, from: ReplicaId, batch: Option<Batch>) -> Tally
        requires { from < 9 }
        ensures { result ≡ noted old view from batch }
    {
        match old {
            Some(tally) if view < tally.view => tally,
            Some(tally) if view == tally.view => Tally {
                view,
                from: tally.from.with(from),
                batch: newer_batch(batch, tally.batch),
            },
            _ => Tally::begun(view, from, batch),
        }
    }

    /// Whether a majority of n replicas accepted.
    pub fn has_majority(&self, n: u8) -> bool
        ensures { result ≡ has_majority n (Some self.now) }
    {
        self.from.count() >= majority(n)
    }
}

/// Adds a note to the tally of an instance.
pub fn add(
    tallies: &mut Numbered<Tally>,
    instance: Instance,
    view: View,
    from: ReplicaId,
    batch: Option<Batch>,
) -> Result<(), NoMemory>
    requires { from < 9 }
    ensures ok { OnOk result (tallies.new ≡ map.insert tallies.old instance (noted (map.get tallies.old instance) view from batch)) }
    ensures err { OnErr result (tallies.new ≡ tallies.old) }
{
    // A tally that is there already is taken out, but its place is kept, so that its growth can't be refused.
    match tallies.replace(instance, Tally::none()) {
        Some(tally) => {
            let _placeholder = tallies.replace(
                instance,
                Tally::noted(Some(tally), view, from, batch),
            );
            Ok(())
        }
        None => tallies.insert(instance, Tally::begun(view, from, batch)),
    }
}

/// Drops the tally of an instance.
pub fn forget(tallies: &mut Numbered<Tally>, instance: Instance)
    ensures { tallies.new ≡ map.remove tallies.old instance }
{
    let _tally = tallies.remove(instance);
}
