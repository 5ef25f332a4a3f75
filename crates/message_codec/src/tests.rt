//! Frames of each kind, cut in many ways, and each limit with what is one above it.

use crate::reader::Reader;
use crate::writing::{spell, write};
use frame_fields::fault::FrameFault;
use jp_types::batch::Batch;
use jp_types::command::{Command, Request};
use jp_types::listed::Listed;
use jp_types::memory::NoMemory;
use jp_types::message::{
    Accept, Alive, CatchUpQuery, CatchUpReply, Entry, Message, Prepare, PrepareOk, Propose,
    Recovery, RecoveryAnswer, SnapshotPart,
};
use jp_types::octets::Octets;
use std::alloc::Global;
use std::test::Fail;

// The cluster of the readers.
const CLUSTER: u64 = 5;

// The greatest view, instance, mark, epoch and number.
const NUMBERS: u64 = 1 << 48;

// A frame of each kind, of version 2 in that cluster, in the order of `messages`.
const FRAMES: [&[u8]; 10] = [
    b"\0\0\0\x21\x81\0\0\0\0\0\0\0\x05\0\0\0\0\0\0\0\x01\0\0\0\0\0\0\0\x02\0\0\0\0\0\0\0\x03",
    b"\0\0\0\xb7\x82\0\0\0\0\0\0\0\x05\0\0\0\0\0\0\0\x01\0\0\0\0\0\0\0\x02\
      \0\0\0\0\0\0\0\x01\0\0\0\0\0\0\0\x02\0\0\0\0\0\0\0\x03\0\0\0\0\0\0\0\x04\0\0\0\0\0\0\0\x05\
      \0\0\0\0\0\0\0\x06\0\0\0\0\0\0\0\x07\0\0\0\0\0\0\0\x08\0\0\0\0\0\0\0\x09\
      \0\0\0\0\0\0\0\x03\0\0\0\x02\
      \0\0\0\0\0\0\0\x03\0\0\0\0\0\0\0\0\x01\0\0\0\x01\0\0\0\0\0\0\0\x07\0\0\0\0\0\0\0\x01\x02\0\x01k\
      \0\0\0\0\0\0\0\x04\x01\0\0\0\x01\0\0\0\0\0\0\0\x07\0\0\0\0\0\0\0\x02\x03\0\x01k",
    b"\0\0\0\x38\x83\0\0\0\0\0\0\0\x05\0\0\0\0\0\0\0\x01\0\0\0\0\0\0\0\x02\
      \0\0\0\x01\0\0\0\0\0\0\0\x07\0\0\0\0\0\0\0\x03\x04\0\x01k\x01\0\x02ol\0\0",
    ACCEPT,
    b"\0\0\0\x11\x85\0\0\0\0\0\0\0\x05\0\0\0\0\0\0\0\x07",
    b"\0\0\0\x6a\x86\0\0\0\0\0\0\0\x05\0\0\0\0\0\0\0\x02\0\0\0\0\0\0\0\x03\
      \0\0\0\0\0\0\0\0\0\0\0\0\0\0\0\0\0\0\0\0\0\0\0\0\0\0\0\0\0\0\0\0\0\0\0\0\0\0\0\0\
      \0\0\0\0\0\0\0\0\0\0\0\0\0\0\0\0\0\0\0\0\0\0\0\0\0\0\0\0\0\0\0\0\
      \x01\0\0\0\0\0\0\0\x04",
    b"\0\0\0\x11\x87\0\0\0\0\0\0\0\x05\0\0\0\0\0\0\0\x09",
    b"\0\0\0\x31\x88\0\0\0\0\0\0\0\x05\0\0\0\0\0\0\0\x01\x02\0\0\0\0\
      \0\0\0\x01\0\0\0\0\0\0\0\x07\0\0\0\0\0\0\0\x04\x01\0\x01k\0\x01v",
    b"\0\0\0\x22\x89\0\0\0\0\0\0\0\x05\0\0\0\0\0\0\x01\0\0\0\0\x05\0\0\0\0\0\0\0\x05bytes",
    b"\0\0\0\x19\x8a\0\0\0\0\0\0\0\x05\0\0\0\0\0\0\0\x01\0\0\0\0\0\0\0\x02",
];

// The Accept of view 1 and instance 2, of version 2.
const ACCEPT: &[u8] = b"\0\0\0\x19\x84\0\0\0\0\0\0\0\x05\0\0\0\0\0\0\0\x01\0\0\0\0\0\0\0\x02";

// The Accept of view 1 and instance 2, of version 1.
const OLD_ACCEPT: &[u8] = b"\0\0\0\x11\x04\0\0\0\0\0\0\0\x01\0\0\0\0\0\0\0\x02";

fn octets(alloc: Global, bytes: &[u8]) -> Result<Octets, NoMemory> {
    Octets::from_slice(alloc, bytes)
}

// A batch of one request.
fn batch(alloc: Global, client: u64, number: u64, command: Command) -> Result<Batch, NoMemory> {
    let mut batch = Batch::empty(alloc);
    batch.push(Request {
        client,
        number,
        command,
    })?;
    Ok(batch)
}

fn get(alloc: Global, key: &[u8]) -> Result<Command, NoMemory> {
    Ok(Command::Get {
        key: octets(alloc, key)?,
    })
}

fn put(alloc: Global, key: &[u8], value: &[u8]) -> Result<Command, NoMemory> {
    Ok(Command::Put {
        key: octets(alloc, key)?,
        value: octets(alloc, value)?,
    })
}

fn propose(batch: Batch) -> Message {
    Message::Propose(Propose {
        view: 1,
        instance: 2,
        batch,
    })
}

fn promise(low: u64, entries: Vec<Entry>) -> Message {
    Message::PrepareOk(PrepareOk {
        view: 1,
        mark: 2,
        vector: [1, 2, 3, 4, 5, 6, 7, 8, 9],
        low,
        report: Listed::from_vec(entries),
    })
}

fn entry(instance: u64, vote: Option<u64>, batch: Batch) -> Entry {
    Entry {
        instance,
        vote,
        batch,
    }
}

fn entries(alloc: Global) -> Result<Vec<Entry>, NoMemory> {
    let del = Command::Del {
        key: octets(alloc, b"k")?,
    };
    let mut entries = Vec::new(alloc);
    entries.push(entry(3, Some(1), batch(alloc, 7, 1, get(alloc, b"k")?)?))?;
    entries.push(entry(4, None, batch(alloc, 7, 2, del)?))?;
    Ok(entries)
}

fn answer(next: Option<u64>) -> Message {
    Message::RecoveryAnswer(RecoveryAnswer {
        mark: 2,
        view: 3,
        vector: [0; 9],
        next,
    })
}

fn batches(alloc: Global) -> Result<Listed<Batch>, NoMemory> {
    let mut batches = Listed::empty(alloc);
    batches.push(Batch::empty(alloc))?;
    batches.push(batch(alloc, 7, 4, put(alloc, b"k", b"v")?)?)?;
    Ok(batches)
}

fn part(total: u32, bytes: Octets) -> Message {
    Message::SnapshotPart(SnapshotPart {
        upto: 256,
        total,
        at: 0,
        bytes,
    })
}

// A message of each kind.
fn messages(alloc: Global) -> Result<[Message; 10], NoMemory> {
    let cas = Command::Cas {
        key: octets(alloc, b"k")?,
        old: Some(octets(alloc, b"ol")?),
        new: octets(alloc, b"")?,
    };
    let promise = promise(3, entries(alloc)?);
    let propose = propose(batch(alloc, 7, 3, cas)?);
    let batches = batches(alloc)?;
    let part = part(5, octets(alloc, b"bytes")?);
    Ok([
        Message::Prepare(Prepare {
            view: 1,
            first: 2,
            mark: 3,
        }),
        promise,
        propose,
        Message::Accept(Accept {
            view: 1,
            instance: 2,
        }),
        Message::Recovery(Recovery { mark: 7 }),
        answer(Some(4)),
        Message::CatchUpQuery(CatchUpQuery { first: 9 }),
        Message::CatchUpReply(CatchUpReply { first: 1, batches }),
        part,
        Message::Alive(Alive {
            view: 1,
            first_undecided: 2,
        }),
    ])
}

// What a reader gives that is fed these pieces, as a text, and the fault.
fn read(alloc: Global, old: bool, pieces: &[&[u8]]) -> Result<(String, Option<FrameFault>), Fail> {
    let mut reader = Reader::new(alloc, CLUSTER, old)?;
    let mut out = Vec::new(alloc);
    let mut fault = None;
    for piece in pieces {
        fault = reader.feed(piece, &mut out).err();
    }
    Ok((format!(in alloc; "{out:?}")?, fault))
}

// Whether a reader gives this message alone, wherever its frame is cut in two.
fn is_read_in_two(alloc: Global, frame: &[u8], shown: &str) -> Result<bool, Fail> {
    for cut in 0..frame.len() {
        let (front, back) = frame.split_at(cut);
        let (read, fault) = read(alloc, false, &[front, back])?;
        if read.as_str() != shown || fault.is_some() {
            return Ok(false);
        }
    }
    Ok(true)
}

// Whether a reader gives this message alone that is fed one byte a call, and holds what it was fed until then.
fn is_read_by_bytes(alloc: Global, frame: &[u8], shown: &str) -> Result<bool, Fail> {
    let mut reader = Reader::new(alloc, CLUSTER, false)?;
    let mut out = Vec::new(alloc);
    for (fed, byte) in frame.iter().enumerate() {
        if reader.held() != fed as u64 || reader.feed(&[*byte], &mut out).is_err() {
            return Ok(false);
        }
    }
    Ok(reader.held() == 0 && format!(in alloc; "{out:?}")?.as_str() == shown)
}

#[test]
fn a_frame_of_each_kind_is_read_under_any_cutting(rt: HostRuntime) -> Result<(), Fail> {
    let alloc = rt.alloc();
    for (message, frame) in messages(alloc)?.iter().zip(&FRAMES) {
        assert_eq!(rt; spell(alloc, message, CLUSTER)?.as_slice(), *frame);
        let shown = format!(in alloc; "[{message:?}]")?;
        assert!(rt; is_read_in_two(alloc, frame, &shown)?);
        assert!(rt; is_read_by_bytes(alloc, frame, &shown)?);
    }
    Ok(())
}

// The fault of the frame of version 2 of a message. A frame without a fault reads back.
fn fault_of(alloc: Global, message: &Message) -> Result<Option<FrameFault>, Fail> {
    let mut frame = Vec::new(alloc);
    write(message, CLUSTER, &mut frame)?;
    let (read, fault) = read(alloc, false, &[&frame])?;
    if fault.is_none() && read != format!(in alloc; "[{message:?}]")? {
        return Err("a frame without a fault reads back".into());
    }
    Ok(fault)
}

#[test]
fn counters_are_at_most_two_to_the_48(rt: HostRuntime) -> Result<(), Fail> {
    let alloc = rt.alloc();
    let prepare = |view, first, mark| Message::Prepare(Prepare { view, first, mark });
    let lines = [
        (prepare(NUMBERS, NUMBERS, NUMBERS), None),
        (prepare(NUMBERS + 1, 0, 0), Some(13)),
        (prepare(0, NUMBERS + 1, 0), Some(21)),
        (prepare(0, 0, NUMBERS + 1), Some(29)),
        (promise(NUMBERS, Vec::new(alloc)), None),
        (promise(NUMBERS + 1, Vec::new(alloc)), Some(101)),
        (answer(Some(NUMBERS)), None),
        (answer(Some(NUMBERS + 1)), Some(102)),
        (answer(None), None),
    ];
    for (message, place) in lines {
        assert_eq!(rt; fault_of(alloc, &message)?, place.map(FrameFault::BadField));
    }
    Ok(())
}

// A batch of like requests, each a Get, or a Put where the value's length is told.
#[derive(Clone, Copy, Drop)]
struct Like {
    requests: u64,
    client: u64,
    number: u64,
    key: usize,
    value: Option<usize>,
}

const GET: Like = Like {
    requests: 1,
    client: 7,
    number: 1,
    key: 1,
    value: None,
};

fn batch_like(alloc: Global, like: &Like) -> Result<Batch, Fail> {
    let key = vec![in alloc; b'k'; like.key]?;
    let mut batch = Batch::empty(alloc);
    for _ in 0..like.requests {
        let command = match like.value {
            Some(value) => put(alloc, &key, &vec![in alloc; b'v'; value]?)?,
            None => get(alloc, &key)?,
        };
        batch.push(Request {
            client: like.client,
            number: like.number,
            command,
        })?;
    }
    Ok(batch)
}

#[test]
fn batches_are_within_their_limits(rt: HostRuntime) -> Result<(), Fail> {
    let lines = [
        (Like { requests: 0, ..GET }, None),
        (
            Like {
                requests: 1024,
                ..GET
            },
            None,
        ),
        (
            Like {
                requests: 1025,
                ..GET
            },
            Some(29),
        ),
        (
            Like {
                client: 1023,
                number: NUMBERS,
                ..GET
            },
            None,
        ),
        (
            Like {
                client: 1024,
                ..GET
            },
            Some(33),
        ),
        (Like { number: 0, ..GET }, Some(41)),
        (
            Like {
                number: NUMBERS + 1,
                ..GET
            },
            Some(41),
        ),
        (Like { key: 0, ..GET }, Some(50)),
        (Like { key: 256, ..GET }, None),
        (Like { key: 257, ..GET }, Some(50)),
        (
            Like {
                value: Some(4096),
                ..GET
            },
            None,
        ),
        (
            Like {
                value: Some(4097),
                ..GET
            },
            Some(53),
        ),
    ];
    for (like, place) in &lines {
        let message = propose(batch_like(rt.alloc(), like)?);
        assert_eq!(rt;
            fault_of(rt.alloc(), &message)?,
            place.map(FrameFault::BadField)
        );
    }
    Ok(())
}

// Fifteen requests of 4,096 bytes, and one whose value has so many: with 4,070 the batch has 65,536 bytes.
fn large_batch(alloc: Global, last: usize) -> Result<Batch, Fail> {
    let mut batch = batch_like(
        alloc,
        &Like {
            requests: 15,
            value: Some(4074),
            ..GET
        },
    )?;
    batch.push(Request {
        client: 7,
        number: 1,
        command: put(alloc, b"k", &vec![in alloc; b'v'; last]?)?,
    })?;
    Ok(batch)
}

#[test]
fn a_batch_has_at_most_65536_bytes(rt: HostRuntime) -> Result<(), Fail> {
    for (last, place) in [(4070, None), (4071, Some(29)), (4096, Some(29))] {
        let message = propose(large_batch(rt.alloc(), last)?);
        assert_eq!(rt;
            fault_of(rt.alloc(), &message)?,
            place.map(FrameFault::BadField)
        );
    }
    Ok(())
}

// A report of so many entries.
fn report(alloc: Global, count: u64) -> Result<Message, NoMemory> {
    let mut entries = Vec::new(alloc);
    for instance in 0..count {
        entries.push(entry(instance, None, Batch::empty(alloc)))?;
    }
    Ok(promise(0, entries))
}

// A reply of so many batches.
fn reply(alloc: Global, count: u64) -> Result<Message, NoMemory> {
    let mut batches = Listed::empty(alloc);
    for _ in 0..count {
        batches.push(Batch::empty(alloc))?;
    }
    Ok(Message::CatchUpReply(CatchUpReply { first: 1, batches }))
}

#[test]
fn lists_are_within_their_limits(rt: HostRuntime) -> Result<(), Fail> {
    for (count, place) in [(1024, None), (1025, Some(109))] {
        let message = report(rt.alloc(), count)?;
        assert_eq!(rt;
            fault_of(rt.alloc(), &message)?,
            place.map(FrameFault::BadField)
        );
    }
    for (count, place) in [(0, Some(21)), (64, None), (65, Some(21))] {
        let message = reply(rt.alloc(), count)?;
        assert_eq!(rt;
            fault_of(rt.alloc(), &message)?,
            place.map(FrameFault::BadField)
        );
    }
    Ok(())
}

#[test]
fn parts_are_within_their_limits(rt: HostRuntime) -> Result<(), Fail> {
    let lines = [
        (268_435_456, 65_536, None),
        (268_435_457, 0, Some(21)),
        (0, 65_537, Some(29)),
    ];
    for (total, size, place) in lines {
        let message = part(
            total,
            octets(rt.alloc(), &vec![in rt.alloc(); b'b'; size]?)?,
        );
        assert_eq!(rt;
            fault_of(rt.alloc(), &message)?,
            place.map(FrameFault::BadField)
        );
    }
    Ok(())
}

// A frame with another byte at this place.
fn changed(alloc: Global, frame: &[u8], place: usize, byte: u8) -> Result<Vec<u8>, NoMemory> {
    let mut frame = Vec::from_slice(alloc, frame)?;
    if let Some(old) = frame.get_mut(place) {
        *old = byte;
    }
    Ok(frame)
}

#[test]
fn a_byte_of_a_frame_is_changed(rt: HostRuntime) -> Result<(), Fail> {
    let alloc = rt.alloc();
    let lines = [
        (0, 0, 8, FrameFault::TooLong(0)),
        (0, 3, 0, FrameFault::BadLength(0)),
        (0, 3, 32, FrameFault::BadLength(29)),
        (0, 4, 0x80, FrameFault::BadKind(4)),
        (0, 4, 0x8b, FrameFault::BadKind(4)),
        (0, 4, 1, FrameFault::BadKind(4)),
        (0, 12, 0, FrameFault::BadField(5)),
        (0, 6, 1, FrameFault::BadField(5)),
        (0, 12, 6, FrameFault::OtherCluster { at: 5, got: 6 }),
        (1, 121, 2, FrameFault::BadField(121)),
        (1, 150, 0, FrameFault::BadField(150)),
        (1, 150, 5, FrameFault::BadField(150)),
        (1, 161, 3, FrameFault::BadField(154)),
        (2, 53, 2, FrameFault::BadField(53)),
        (2, 58, 16, FrameFault::BadLength(60)),
        (2, 58, 17, FrameFault::BadField(58)),
        (5, 101, 0, FrameFault::BadLength(102)),
        (5, 101, 2, FrameFault::BadField(101)),
        (7, 21, 3, FrameFault::BadLength(53)),
    ];
    let frames = FRAMES;
    for (frame, place, byte, fault) in lines {
        let frame = frames.get(frame).copied().unwrap_or(&[]);
        let frame = changed(alloc, frame, place, byte)?;
        assert_eq!(rt; read(alloc, false, &[&frame])?.1, Some(fault));
    }
    Ok(())
}

#[test]
fn frames_of_version_1_are_read_where_old_ones_are(rt: HostRuntime) -> Result<(), Fail> {
    let alloc = rt.alloc();
    let lines = [
        (OLD_ACCEPT, true, None),
        (OLD_ACCEPT, false, Some(FrameFault::BadKind(4))),
        (ACCEPT, true, None),
        (
            b"\0\0\0\x11\x04\0\x01\0\0\0\0\0\0\0\0\0\0\0\0\0\x02",
            true,
            None,
        ),
        (
            b"\0\0\0\x11\x04\0\x01\0\0\0\0\0\x01\0\0\0\0\0\0\0\x02",
            true,
            Some(FrameFault::BadField(5)),
        ),
        (
            b"\0\0\0\x12\x04\0\0\0\0\0\0\0\x01\0\0\0\0\0\0\0\x02\0",
            true,
            Some(FrameFault::BadLength(21)),
        ),
        (b"\0\0\0\x11\x0b", true, Some(FrameFault::BadKind(4))),
        (b"\xff\xff\xff\xff", true, Some(FrameFault::TooLong(0))),
    ];
    for (stream, old, fault) in lines {
        assert_eq!(rt; read(alloc, old, &[stream])?.1, fault);
    }
    Ok(())
}

#[test]
fn what_is_held_waits_for_the_rest(rt: HostRuntime) -> Result<(), Fail> {
    let mut reader = Reader::new(rt.alloc(), CLUSTER, true)?;
    let mut out = Vec::new(rt.alloc());
    assert_eq!(rt; reader.feed(OLD_ACCEPT, &mut out), Ok(()));
    assert_eq!(rt; reader.feed(b"\x07\xff\xff\xff", &mut out), Ok(()));
    assert_eq!(rt; reader.held(), 4);
    let fault = Err(FrameFault::BadKind(25));
    assert_eq!(rt; reader.feed(b"\0", &mut out), fault);
    assert_eq!(rt; reader.held(), 0);
    assert_eq!(rt; reader.feed(OLD_ACCEPT, &mut out), fault);
    assert_eq!(rt; out.len(), 1);
    Ok(())
}
