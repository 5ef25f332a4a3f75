//! The frames of messages.

ghost use Rattle.std.specs.Prelude.{◌≡◌, ◌+◌, ◌≤◌, ◌∷◌, ◌++◌, length, flat_map, OnOk, IfOk};
ghost use Rattle.std.specs.Int.{to_be_bytes, w8, w32};
ghost use Rattle.frame_fields.specs.Spelling.{optional_bytes, request_bytes};
ghost use Rattle.message_codec.specs.Spelling.{counter_bytes, batch_bytes, vote_bytes, entry_bytes, report_bytes, kind_of, message_fields, frame_bytes};

use bytes::Bytes;
use frame_fields::spelling::{
    begin_frame, end_frame, push_byte, push_bytes, push_count, push_number, push_optional_number,
    push_request,
};
use jp_types::batch::Batch;
use jp_types::command::Request;
use jp_types::memory::NoMemory;
use jp_types::message::{
    CatchUpReply, Entry, Message, PrepareOk, RecoveryAnswer, SnapshotPart, Vector, View,
};
use jp_types::size::frame_size;
use std::alloc::Global;

/// By how much the kind of a frame of version 2 is above that of its message.
pub const VERSION_2: u8 = 128;

/// The bytes of a cluster's number, by which a frame of version 2 is longer.
const CLUSTER: u64 = 8;

/// Appends the frame of version 2 of a message, in this cluster.
pub fn write(message: &Message, cluster: u64, out: &mut Vec<u8>) -> Result<(), NoMemory>
    ensures { OnOk result (out.new.items ≡ out.old.items ++ frame_bytes cluster message.now) }
{
    let place = begin_frame(out, kind_of(message) + VERSION_2)?;
    push_number(out, cluster)?;
    push_fields(out, message)?;
    end_frame(out, place);
    Ok(())
}

/// The frame of version 2 of a message, in this cluster: written once, to be shared by what sends it to many peers.
pub fn spell(alloc: Global, message: &Message, cluster: u64) -> Result<Bytes, NoMemory>
    ensures { IfOk result (λ frame. frame ≡ frame_bytes cluster message.now) }
{
    let size = frame_size(message).saturating_add(CLUSTER);
    let mut frame = Vec::with_capacity(alloc, size as usize)?;
    write(message, cluster, &mut frame)?;
    Ok(Bytes::from_vec(frame)?)
}

// The kind of a message.
fn kind_of(message: &Message) -> u8
    ensures kind { result ≡ kind_of message.now }
    ensures limit { result ≤ 10 }
{
    match message {
        Message::Prepare(_) => 1,
        Message::PrepareOk(_) => 2,
        Message::Propose(_) => 3,
        Message::Accept(_) => 4,
        Message::Recovery(_) => 5,
        Message::RecoveryAnswer(_) => 6,
        Message::CatchUpQuery(_) => 7,
        Message::CatchUpReply(_) => 8,
        Message::SnapshotPart(_) => 9,
        Message::Alive(_) => 10,
    }
}

// The fields of a message.
fn push_fields(out: &mut Vec<u8>, message: &Message) -> Result<(), NoMemory>
    ensures { OnOk result (out.new.items ≡ out.old.items ++ message_fields message.now) }
{
    match message {
        Message::Prepare(m) => push_three(out, m.view, m.first, m.mark),
        Message::PrepareOk(m) => push_prepare_ok(out, m),
        Message::Propose(m) => {
            push_two(out, m.view, m.instance)?;
            push_batch(out, &m.batch)
        }
        Message::Accept(m) => push_two(out, m.view, m.instance),
        Message::Recovery(m) => push_number(out, m.mark),
        Message::RecoveryAnswer(m) => push_recovery_answer(out, m),
        Message::CatchUpQuery(m) => push_number(out, m.first),
        Message::CatchUpReply(m) => push_catch_up_reply(out, m),
        Message::SnapshotPart(m) => push_snapshot_part(out, m),
        Message::Alive(m) => push_two(out, m.view, m.first_undecided),
    }
}

// Two counters.
fn push_two(out: &mut Vec<u8>, first: u64, second: u64) -> Result<(), NoMemory>
    ensures { OnOk result (out.new.items ≡ out.old.items ++ counter_bytes first ++ counter_bytes second) }
{
    push_number(out, first)?;
    push_number(out, second)
}

// Three counters.
fn push_three(out: &mut Vec<u8>, first: u64, second: u64, third: u64) -> Result<(), NoMemory>
    ensures { OnOk result (out.new.items ≡ out.old.items ++ counter_bytes first ++ counter_bytes second ++ counter_bytes third) }
{
    push_two(out, first, second)?;
    push_number(out, third)
}

// Nine epochs.
fn push_vector(out: &mut Vec<u8>, vector: &Vector) -> Result<(), NoMemory>
    ensures { OnOk result (out.new.items ≡ out.old.items ++ flat_map counter_bytes vector.now) }
{
    for epoch in vector {
        push_number(out, *epoch)?;
    }
    Ok(())
}

// The count of requests, and each request.
fn push_batch(out: &mut Vec<u8>, batch: &Batch) -> Result<(), NoMemory>
    ensures { OnOk result (out.new.items ≡ out.old.items ++ batch_bytes batch.now) }
{
    let requests = batch.requests();
    push_count(out, requests.len() as u64)?;
    push_requests(out, requests)
}

// Each request.
fn push_requests(out: &mut Vec<u8>, requests: &[Request]) -> Result<(), NoMemory>
    ensures { OnOk result (out.new.items ≡ out.old.items ++ flat_map request_bytes requests.now) }
{
    for request in requests {
        push_request(out, request)?;
    }
    Ok(())
}

// Each batch.
fn push_batches(out: &mut Vec<u8>, batches: &[Batch]) -> Result<(), NoMemory>
    ensures { OnOk result (out.new.items ≡ out.old.items ++ flat_map batch_bytes batches.now) }
{
    for batch in batches {
        push_batch(out, batch)?;
    }
    Ok(())
}

// A tag, and the view of a vote.
fn push_vote(out: &mut Vec<u8>, vote: Option<View>) -> Result<(), NoMemory>
    ensures { OnOk result (out.new.items ≡ out.old.items ++ vote_bytes vote) }
{
    match vote {
        Some(view) => {
            push_byte(out, 0)?;
            push_number(out, view)
        }
        None => push_byte(out, 1),
    }
}

// The instance, what stands for it, and the batch.
fn push_entry(out: &mut Vec<u8>, entry: &Entry) -> Result<(), NoMemory>
    ensures { OnOk result (out.new.items ≡ out.old.items ++ entry_bytes entry.now) }
{
    push_number(out, entry.instance)?;
    push_vote(out, entry.vote)?;
    push_batch(out, &entry.batch)
}

// The count of entries, and each entry.
fn push_report(out: &mut Vec<u8>, report: &[Entry]) -> Result<(), NoMemory>
    ensures { OnOk result (out.new.items ≡ out.old.items ++ report_bytes report.now) }
{
    push_count(out, report.len() as u64)?;
    for entry in report {
        push_entry(out, entry)?;
    }
    Ok(())
}

fn push_prepare_ok(out: &mut Vec<u8>, m: &PrepareOk) -> Result<(), NoMemory>
    ensures { OnOk result (out.new.items ≡ out.old.items ++ counter_bytes m.now.view ++ counter_bytes m.now.mark ++ flat_map counter_bytes m.now.vector ++ counter_bytes m.now.low ++ report_bytes m.now.report) }
{
    push_two(out, m.view, m.mark)?;
    push_vector(out, &m.vector)?;
    push_number(out, m.low)?;
    push_report(out, m.report.as_slice())
}

fn push_recovery_answer(out: &mut Vec<u8>, m: &RecoveryAnswer) -> Result<(), NoMemory>
    ensures { OnOk result (out.new.items ≡ out.old.items ++ counter_bytes m.now.mark ++ counter_bytes m.now.view ++ flat_map counter_bytes m.now.vector ++ optional_bytes counter_bytes m.now.next) }
{
    push_two(out, m.mark, m.view)?;
    push_vector(out, &m.vector)?;
    push_optional_number(out, m.next)
}

// The first instance, the count of batches in the low one of its eight bytes, and each batch.
fn push_catch_up_reply(out: &mut Vec<u8>, m: &CatchUpReply) -> Result<(), NoMemory>
    ensures { OnOk result (out.new.items ≡ out.old.items ++ counter_bytes m.now.first ++ to_be_bytes w8 (length m.now.batches) ++ flat_map batch_bytes m.now.batches) }
{
    let batches = m.batches.as_slice();
    let count = (batches.len() as u64).to_be_bytes();
    push_number(out, m.first)?;
    push_bytes(out, &count[7..])?;
    push_batches(out, batches)
}

fn push_snapshot_part(out: &mut Vec<u8>, m: &SnapshotPart) -> Result<(), NoMemory>
    ensures { OnOk result (out.new.items ≡ out.old.items ++ counter_bytes m.now.upto ++ to_be_bytes w32 m.now.total ++ to_be_bytes w32 m.now.at ++ to_be_bytes w32 (length m.now.bytes) ++ m.now.bytes) }
{
    let bytes = m.bytes.bytes();
    push_number(out, m.upto)?;
    push_count(out, m.total as u64)?;
    push_count(out, m.at as u64)?;
    push_count(out, bytes.len() as u64)?;
    push_bytes(out, bytes)
}
