//! The fields of messages, read from the front.

ghost use Rattle.std.specs.Prelude.{◌≡◌, ◌≤◌, ◌^◌, ◌*◌, ◌+◌, IfOk, length};
ghost use Rattle.frame_fields.specs.Reading.{request, counter, times, number_within};
ghost use Rattle.frame_fields.specs.Telling.{Tells};
ghost use Rattle.message_codec.specs.Messages.{vector, requests, batch, vote, entry, entries, report, prepare, prepare_ok, propose, accept, recovery, recovery_answer, catch_up_query, catch_up_reply, snapshot_part, alive, message_of_kind};
ghost use Rattle.message_codec.specs.Frames.{cluster_number, of_cluster, frame_of_kind, read_message};

use crate::writing::VERSION_2;
use frame_fields::fault::FrameFault;
use frame_fields::fields::Fields;
use jp_types::batch::Batch;
use jp_types::listed::Listed;
use jp_types::message::{
    Accept, Alive, CatchUpQuery, CatchUpReply, Entry, Instance, Message, Prepare, PrepareOk,
    Propose, Recovery, RecoveryAnswer, Report, SnapshotPart, Vector, View,
};
use jp_types::octets::Octets;
use std::alloc::Global;

/// The greatest view, instance, mark and epoch, and the greatest number of a cluster.
const NUMBERS: u64 = 1 << 48;

/// The most requests of a batch, and the most entries of a report.
const ITEMS: u64 = 1024;

/// The most batches of a reply.
const BATCHES: u64 = 64;

/// The most bytes of a state.
const STATE: u32 = 268_435_456;

/// The most bytes of a part of a state.
const PART: u64 = 65_536;

/// The least bytes of a batch: its count.
const LEAST_BATCH: usize = 4;

/// The least bytes of an entry: the instance, a tag and a batch.
const LEAST_ENTRY: usize = 13;

fn vector(fields: &mut Fields<'_>) -> Result<Vector, FrameFault>
    ensures { Tells (λ read. (read, fields.new)) result (vector fields.old) }
{
    let mut vector = [0; 9];
    for replica in 0..9 {
        vector[replica] = fields.counter()?;
    }
    Ok(vector)
}

// So many requests.
fn times_request(fields: &mut Fields<'_>, alloc: Global, count: u64) -> Result<Batch, FrameFault>
    ensures { Tells (λ read. (read, fields.new)) result (times count request fields.old) }
{
    let mut batch = Batch::empty(alloc);
    for _ in 0..count {
        batch.push(fields.request(alloc)?)?;
    }
    Ok(batch)
}

fn requests(fields: &mut Fields<'_>, alloc: Global) -> Result<Batch, FrameFault>
    ensures { Tells (λ read. (read, fields.new)) result (requests fields.old) }
{
    let count = fields.number_within(4, 0, ITEMS)?;
    times_request(fields, alloc, count)
}

fn batch(fields: &mut Fields<'_>, alloc: Global) -> Result<Batch, FrameFault>
    ensures { Tells (λ read. (read, fields.new)) result (batch fields.old) }
{
    fields.begin_batch();
    let batch = requests(fields, alloc)?;
    fields.end_batch();
    Ok(batch)
}

fn vote(fields: &mut Fields<'_>) -> Result<Option<View>, FrameFault>
    ensures { Tells (λ read. (read, fields.new)) result (vote fields.old) }
{
    let tag = fields.number_within(1, 0, 1)?;
    if tag == 0 {
        return Ok(Some(fields.counter()?));
    }
    Ok(None)
}

// An entry, whose instance is not below the least one.
fn entry(fields: &mut Fields<'_>, alloc: Global, least: Instance) -> Result<Entry, FrameFault>
    ensures read { Tells (λ read. (read, fields.new)) result (entry least fields.old) }
    ensures limit { IfOk result (λ read. read.instance ≤ 2 ^ 48) }
{
    let instance = fields.number_within(8, least, NUMBERS)?;
    let vote = vote(fields)?;
    let batch = batch(fields, alloc)?;
    Ok(Entry {
        instance,
        vote,
        batch,
    })
}

// So many entries in ascending order of their instances.
fn entries(fields: &mut Fields<'_>, alloc: Global, count: u64) -> Result<Vec<Entry>, FrameFault>
    ensures { Tells (λ read. (read.items, fields.new)) result (entries count 0 fields.old) }
{
    let mut entries = Vec::with_capacity(alloc, fields.room(count, LEAST_ENTRY))?;
    let mut least = 0;
    for _ in 0..count {
        let entry = entry(fields, alloc, least)?;
        least = entry.instance + 1;
        entries.push(entry)?;
    }
    Ok(entries)
}

fn report(fields: &mut Fields<'_>, alloc: Global) -> Result<Report, FrameFault>
    ensures { Tells (λ read. (read, fields.new)) result (report fields.old) }
{
    let count = fields.number_within(4, 0, ITEMS)?;
    let entries = entries(fields, alloc, count)?;
    Ok(Listed::from_vec(entries))
}

// So many batches.
fn times_batch(fields: &mut Fields<'_>, alloc: Global, count: u64) -> Result<Vec<Batch>, FrameFault>
    ensures { Tells (λ read. (read.items, fields.new)) result (times count batch fields.old) }
{
    let mut batches = Vec::with_capacity(alloc, fields.room(count, LEAST_BATCH))?;
    for _ in 0..count {
        batches.push(batch(fields, alloc)?)?;
    }
    Ok(batches)
}

fn prepare(fields: &mut Fields<'_>) -> Result<Prepare, FrameFault>
    ensures { Tells (λ read. (read, fields.new)) result (prepare fields.old) }
{
    let view = fields.counter()?;
    let first = fields.counter()?;
    let mark = fields.counter()?;
    Ok(Prepare { view, first, mark })
}

fn prepare_ok(fields: &mut Fields<'_>, alloc: Global) -> Result<PrepareOk, FrameFault>
    ensures { Tells (λ read. (read, fields.new)) result (prepare_ok fields.old) }
{
    let view = fields.counter()?;
    let mark = fields.counter()?;
    let vector = vector(fields)?;
    let low = fields.counter()?;
    let report = report(fields, alloc)?;
    Ok(PrepareOk {
        view,
        mark,
        vector,
        low,
        report,
    })
}

fn propose(fields: &mut Fields<'_>, alloc: Global) -> Result<Propose, FrameFault>
    ensures { Tells (λ read. (read, fields.new)) result (propose fields.old) }
{
    let view = fields.counter()?;
    let instance = fields.counter()?;
    let batch = batch(fields, alloc)?;
    Ok(Propose {
        view,
        instance,
        batch,
    })
}

fn accept(fields: &mut Fields<'_>) -> Result<Accept, FrameFault>
    ensures { Tells (λ read. (read, fields.new)) result (accept fields.old) }
{
    let view = fields.counter()?;
    let instance = fields.counter()?;
    Ok(Accept { view, instance })
}

fn recovery(fields: &mut Fields<'_>) -> Result<Recovery, FrameFault>
    ensures { Tells (λ read. (read, fields.new)) result (recovery fields.old) }
{
    let mark = fields.counter()?;
    Ok(Recovery { mark })
}

fn recovery_answer(fields: &mut Fields<'_>) -> Result<RecoveryAnswer, FrameFault>
    ensures { Tells (λ read. (read, fields.new)) result (recovery_answer fields.old) }
{
    let mark = fields.counter()?;
    let view = fields.counter()?;
    let vector = vector(fields)?;
    let next = fields.optional_counter()?;
    Ok(RecoveryAnswer {
        mark,
        view,
        vector,
        next,
    })
}

fn catch_up_query(fields: &mut Fields<'_>) -> Result<CatchUpQuery, FrameFault>
    ensures { Tells (λ read. (read, fields.new)) result (catch_up_query fields.old) }
{
    let first = fields.counter()?;
    Ok(CatchUpQuery { first })
}

fn catch_up_reply(fields: &mut Fields<'_>, alloc: Global) -> Result<CatchUpReply, FrameFault>
    ensures { Tells (λ read. (read, fields.new)) result (catch_up_reply fields.old) }
{
    let first = fields.counter()?;
    let count = fields.number_within(1, 1, BATCHES)?;
    let batches = times_batch(fields, alloc, count)?;
    Ok(CatchUpReply {
        first,
        batches: Listed::from_vec(batches),
    })
}

// A number in four bytes, from 0 to a greatest one.
fn within_four_bytes(fields: &mut Fields<'_>, high: u32) -> Result<u32, FrameFault>
    ensures { Tells (λ read. (read, fields.new)) result (number_within 4 0 high fields.old) }
{
    let number = fields.number_within(4, 0, high as u64)?;
    Ok(number as u32)
}

fn snapshot_part(fields: &mut Fields<'_>, alloc: Global) -> Result<SnapshotPart, FrameFault>
    ensures { Tells (λ read. (read, fields.new)) result (snapshot_part fields.old) }
{
    let upto = fields.counter()?;
    let total = within_four_bytes(fields, STATE)?;
    let at = within_four_bytes(fields, u32::MAX)?;
    let size = fields.number_within(4, 0, PART)?;
    let bytes = Octets::from_slice(alloc, fields.bytes(size as usize)?)?;
    Ok(SnapshotPart {
        upto,
        total,
        at,
        bytes,
    })
}

fn alive(fields: &mut Fields<'_>) -> Result<Alive, FrameFault>
    ensures { Tells (λ read. (read, fields.new)) result (alive fields.old) }
{
    let view = fields.counter()?;
    let first_undecided = fields.counter()?;
    Ok(Alive {
        view,
        first_undecided,
    })
}

// The fields of a message of this kind.
fn message_of_kind(fields: &mut Fields<'_>, alloc: Global, kind: u8) -> Result<Message, FrameFault>
    ensures { Tells (λ read. (read, fields.new)) result (message_of_kind kind fields.old) }
{
    match kind {
        1 => Ok(Message::Prepare(prepare(fields)?)),
        2 => Ok(Message::PrepareOk(prepare_ok(fields, alloc)?)),
        3 => Ok(Message::Propose(propose(fields, alloc)?)),
        4 => Ok(Message::Accept(accept(fields)?)),
        5 => Ok(Message::Recovery(recovery(fields)?)),
        6 => Ok(Message::RecoveryAnswer(recovery_answer(fields)?)),
        7 => Ok(Message::CatchUpQuery(catch_up_query(fields)?)),
        8 => Ok(Message::CatchUpReply(catch_up_reply(fields, alloc)?)),
        9 => Ok(Message::SnapshotPart(snapshot_part(fields, alloc)?)),
        _ => Ok(Message::Alive(alive(fields)?)),
    }
}

// The number of the cluster, which has to be the reader's.
fn cluster_number(fields: &mut Fields<'_>, cluster: u64) -> Result<u64, FrameFault>
    ensures { Tells (λ read. (read, fields.new)) result (cluster_number cluster fields.old) }
{
    let at = fields.at();
    let got = fields.number_within(8, 1, NUMBERS)?;
    if got != cluster {
        return Err(FrameFault::OtherCluster { at, got });
    }
    Ok(got)
}

fn of_cluster(
    fields: &mut Fields<'_>,
    alloc: Global,
    cluster: u64,
    kind: u8,
) -> Result<Message, FrameFault>
    ensures { Tells (λ read. (read, fields.new)) result (of_cluster cluster kind fields.old) }
{
    cluster_number(fields, cluster)?;
    message_of_kind(fields, alloc, kind)
}

// The fields of a frame of this kind.
fn frame_of_kind(
    fields: &mut Fields<'_>,
    alloc: Global,
    cluster: u64,
    kind: u8,
) -> Result<Message, FrameFault>
    ensures { Tells (λ read. (read, fields.new)) result (frame_of_kind cluster kind fields.old) }
{
    if kind < VERSION_2 {
        message_of_kind(fields, alloc, kind)
    } else {
        of_cluster(fields, alloc, cluster, kind - VERSION_2)
    }
}

/// The message that the fields of a frame of this kind spell, which begin at this place of the stream. Frames of version 2
/// have to name this cluster.
pub fn read_message(
    alloc: Global,
    cluster: u64,
    kind: u8,
    at: u64,
    bytes: &[u8],
) -> Result<Message, FrameFault>
    ensures { Tells (λ message. message) result (read_message cluster kind at bytes.now) }
{
    let mut fields = Fields::new(at, bytes);
    let message = frame_of_kind(&mut fields, alloc, cluster, kind)?;
    fields.finish(message)
}
