//! Replies to queries.

ghost use Rattle.std.specs.Prelude.{◌≡◌, suc, true, IfOk};
ghost use Rattle.std.specs.FinMap as map;
ghost use Rattle.catch_up.specs.Replying.{replied_batches, reply_to};

use jp_types::batch::Batch;
use jp_types::listed::Listed;
use jp_types::memory::{Duplicate, NoMemory};
use jp_types::message::Instance;
use replica_log::log::ReplicaLog;
use std::alloc::Global;

/// How many batches a reply has at most.
pub const REPLY_LIMIT: u64 = 64;

/// What a query is answered with.
#[derive(Debug, Drop)]
pub enum Given {
    /// The newest snapshot, since the batches asked for are dropped.
    Offer,
    Nothing,
    /// The batches of consecutive instances, the first of them the one asked for.
    Batches(Listed<Batch>),
}

// The instance after a known one. What is known lies in span, so that it is no last number.
fn instance_after(log: &ReplicaLog, instance: Instance) -> Instance
    requires { map.contains_key log.now.known instance ≡ true }
    ensures { result ≡ suc instance }
{
    let _end = log.span_end();
    let _batch = log.known(instance);
    instance + 1
}

// The known batches from an instance on, up to the next that is not known.
fn replied_batches(
    alloc: Global,
    log: &ReplicaLog,
    first: Instance,
) -> Result<Listed<Batch>, NoMemory>
    ensures { IfOk result (λ batches. batches ≡ replied_batches log.now first) }
{
    let mut batches = Listed::empty(alloc);
    let mut instance = first;
    for _ in 0..REPLY_LIMIT {
        match log.known(instance) {
            Some(batch) => batches.push(batch.copy()?)?,
            None => return Ok(batches),
        }
        instance = instance_after(log, instance);
    }
    Ok(batches)
}

/// The answer to a query for the batches from an instance on: a snapshot where that lies below the base, nothing where
/// it is not known, and else the known batches up to the next instance that is not known, the first 64 where there are
/// more.
pub fn reply(alloc: Global, log: &ReplicaLog, first: Instance) -> Result<Given, NoMemory>
    ensures { IfOk result (λ given. given ≡ reply_to log.now first) }
{
    if first < log.base() {
        return Ok(Given::Offer);
    }
    if !log.is_known(first) {
        return Ok(Given::Nothing);
    }
    Ok(Given::Batches(replied_batches(alloc, log, first)?))
}

#[cfg(test)]
mod tests {
    use super::*;
    use std::test::Fail;

    // What a reply is: a word, and how many batches it has.
    fn told(given: &Given) -> (&'static str, usize) {
        match given {
            Given::Offer => ("offer", 0),
            Given::Nothing => ("nothing", 0),
            Given::Batches(batches) => ("batches", batches.as_slice().len()),
        }
    }

    // A log in which the instances from one on are known, so many of them.
    fn learned(alloc: Global, log: &mut ReplicaLog, first: Instance, count: u64) -> bool {
        let mut fresh = true;
        for offset in 0..count {
            let batch = Batch::empty(alloc);
            match log.learn(first.saturating_add(offset), batch) {
                Ok(learned) => fresh = fresh && learned,
                Err(_) => return false,
            }
        }
        fresh
    }

    #[test]
    fn replies_of_a_log(rt: HostRuntime) -> Result<(), Fail> {
        let mut log = ReplicaLog::new(rt.alloc(), 3)?;
        assert!(rt; log.vote(1_023, 0, Batch::empty(rt.alloc())).is_ok());
        assert!(rt; learned(rt.alloc(), &mut log, 0, 5));
        assert!(rt; log.base() <= 3 && 3 <= log.first_undecided());
        log.cut(3);
        assert!(rt; learned(rt.alloc(), &mut log, 10, 65));
        let lines = [
            (2u64, ("offer", 0)),
            (3, ("batches", 2)),
            (5, ("nothing", 0)),
            (10, ("batches", 64)),
            (11, ("batches", 64)),
            (12, ("batches", 63)),
            (1_023, ("nothing", 0)),
            (u64::MAX, ("nothing", 0)),
        ];
        for (first, want) in lines {
            assert_eq!(rt; told(&reply(rt.alloc(), &log, first)?), want, "{first}");
        }
        Ok(())
    }
}
