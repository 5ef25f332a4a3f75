//! Queries, answers to them, and known batches.

ghost use Rattle.std.specs.Prelude.{◌≡◌, ◌<◌, ◌++◌, OnOk};
ghost use Rattle.catch_up.specs.Replying.{reply_to};
ghost use Rattle.protocol_core.specs.CatchingUp.{query_of, query_sent, queried, queried_if_due, each_sent, snapshot_sent, newest_sent, batches_sent, given_sent, query_answered, on_query, learned_each, on_batches};
ghost use Rattle.protocol_core.specs.Turned.{Does};

use crate::act::{Act, Topic};
use crate::life::{Life, Snapshot};
use catch_up::query::due;
use catch_up::reply::{Given, reply};
use jp_types::batch::Batch;
use jp_types::listed::Listed;
use jp_types::memory::NoMemory;
use jp_types::message::{CatchUpQuery, CatchUpReply, Instance, Message, ReplicaId, SnapshotPart};
use jp_types::replica_set::ReplicaSet;
use retransmitter::outgoing::Outgoing;
use snapshots::cut::{STATE_BYTES, parts};
use std::alloc::Global;

impl Life {
    // Sends a query to a replica, and repeats it there in place of the one before.
    fn send_query(
        &mut self,
        to: ReplicaId,
        first: Instance,
        acts: &mut Listed<Act>,
    ) -> Result<(), NoMemory>
        requires { to < 9 }
        ensures { OnOk result (Does (query_sent self.old to (query_of first)) self.new acts.old acts.new) }
    {
        self.queries = self.config.queries_after(self.queries);
        acts.push(Act::Cancel(Topic::Query))?;
        acts.push(Act::Send {
            to,
            message: query_of(first),
        })?;
        let outgoing = Outgoing {
            to: ReplicaSet::none().with(to),
            message: query_of(first),
        };
        acts.push(Act::Arm {
            topic: Topic::Query,
            outgoing,
        })
    }

    // Sends a query to the next peer.
    fn query(&mut self, acts: &mut Listed<Act>) -> Result<(), NoMemory>
        ensures { OnOk result (Does (queried self.old) self.new acts.old acts.new) }
    {
        let to = self.config.peer(self.queries);
        let first = self.first_undecided();
        self.send_query(to, first, acts)
    }

    /// A query goes out where something was heard of that is not known.
    pub fn query_if_due(&mut self, acts: &mut Listed<Act>) -> Result<(), NoMemory>
        ensures { OnOk result (Does (queried_if_due self.old) self.new acts.old acts.new) }
    {
        if due(self.first_undecided(), self.horizon) {
            self.query(acts)?;
        }
        Ok(())
    }

    // Sends the parts of the newest snapshot, if there is one.
    fn send_newest(&self, to: ReplicaId, acts: &mut Listed<Act>) -> Result<(), NoMemory>
        ensures { OnOk result (acts.new ≡ acts.old ++ newest_sent to self.now.newest) }
    {
        match &self.newest {
            Some(snapshot) => send_snapshot(self.alloc(), snapshot, to, acts),
            None => Ok(()),
        }
    }

    // Sends what a query is answered with.
    fn send_given(
        &self,
        to: ReplicaId,
        first: Instance,
        given: Given,
        acts: &mut Listed<Act>,
    ) -> Result<(), NoMemory>
        ensures { OnOk result (acts.new ≡ acts.old ++ given_sent self.now to first given) }
    {
        match given {
            Given::Offer => self.send_newest(to, acts),
            Given::Nothing => Ok(()),
            Given::Batches(batches) => send_batches(to, first, batches, acts),
        }
    }

    /// Answers a query for the batches from an instance on: below the base with the newest snapshot, else with the known
    /// batches.
    pub fn on_query(
        &self,
        from: ReplicaId,
        first: Instance,
        acts: &mut Listed<Act>,
    ) -> Result<(), NoMemory>
        ensures { OnOk result (acts.new ≡ acts.old ++ query_answered self.now from first) }
    {
        let given = reply(self.alloc(), &self.log, first)?;
        self.send_given(from, first, given, acts)
    }

    // Learns each of the batches of consecutive instances that is open.
    fn learn_each(
        &mut self,
        first: Instance,
        batches: &[Batch],
        acts: &mut Listed<Act>,
    ) -> Result<(), NoMemory>
        ensures { OnOk result (Does (learned_each self.old first batches.now) self.new acts.old acts.new) }
    {
        let mut instance = first;
        for batch in batches {
            self.learn_if_open(instance, batch, acts)?;
            instance = instance.saturating_add(1);
        }
        Ok(())
    }

    /// Known batches came: the query is answered, and what they tell is learned.
    pub fn on_batches(
        &mut self,
        first: Instance,
        batches: &[Batch],
        acts: &mut Listed<Act>,
    ) -> Result<(), NoMemory>
        ensures { OnOk result (Does (on_batches self.old first batches.now) self.new acts.old acts.new) }
    {
        acts.push(Act::Cancel(Topic::Query))?;
        self.learn_each(first, batches, acts)
    }
}

// The query for the batches from an instance on.
fn query_of(first: Instance) -> Message
    ensures { result ≡ query_of first }
{
    Message::CatchUpQuery(CatchUpQuery { first })
}

// Sends parts, in order.
fn send_each(
    to: ReplicaId,
    parts: Vec<SnapshotPart>,
    acts: &mut Listed<Act>,
) -> Result<(), NoMemory>
    ensures { OnOk result (acts.new ≡ acts.old ++ each_sent to parts.items) }
{
    for part in parts {
        acts.push(Act::Send {
            to,
            message: Message::SnapshotPart(part),
        })?;
    }
    Ok(())
}

// Sends the parts of a snapshot. One that is larger than a state may be is not sent.
fn send_snapshot(
    alloc: Global,
    snapshot: &Snapshot,
    to: ReplicaId,
    acts: &mut Listed<Act>,
) -> Result<(), NoMemory>
    ensures { OnOk result (acts.new ≡ acts.old ++ snapshot_sent to snapshot.now) }
{
    let bytes = snapshot.bytes.bytes();
    if bytes.len() <= STATE_BYTES {
        send_each(to, parts(alloc, snapshot.place, bytes)?, acts)?;
    }
    Ok(())
}

// Sends known batches.
fn send_batches(
    to: ReplicaId,
    first: Instance,
    batches: Listed<Batch>,
    acts: &mut Listed<Act>,
) -> Result<(), NoMemory>
    ensures { OnOk result (acts.new ≡ acts.old ++ batches_sent to first batches) }
{
    acts.push(Act::Send {
        to,
        message: Message::CatchUpReply(CatchUpReply { first, batches }),
    })
}
