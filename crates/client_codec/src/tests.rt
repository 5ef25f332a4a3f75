//! Streams of frames between clients and replicas.

use crate::frame::{ClientFrame, write};
use crate::reader::Reader;
use frame_fields::fault::FrameFault;
use jp_types::memory::NoMemory;
use std::alloc::Global;
use std::test::Fail;

const FRAMES: [&[u8]; 12] = [
    b"\0\0\0\x1a\x01\0\0\0\0\0\0\x03\xff\0\x01\0\0\0\0\0\0\x01\0\x01k\0\x03new",
    b"\0\0\0\x15\x01\0\0\0\0\0\0\x03\xff\0\x01\0\0\0\0\0\0\x02\0\x01k",
    b"\0\0\0\x15\x01\0\0\0\0\0\0\x03\xff\0\x01\0\0\0\0\0\0\x03\0\x01k",
    b"\0\0\0\x1b\x01\0\0\0\0\0\0\x03\xff\0\x01\0\0\0\0\0\0\x04\0\x01k\0\0\x03new",
    b"\0\0\0\x1d\x01\0\0\0\0\0\0\x03\xff\0\x01\0\0\0\0\0\0\x04\0\x01k\x01\0\0\0\x03new",
    b"\0\0\0\x0a\x02\0\0\0\0\0\0\0\x07\x01",
    b"\0\0\0\x0d\x02\0\0\0\0\0\0\0\x07\x02\0\x01v",
    b"\0\0\0\x0a\x02\0\0\0\0\0\0\0\x07\x03",
    b"\0\0\0\x0a\x02\0\0\0\0\0\0\0\x07\x04",
    b"\0\0\0\x02\x03\x08",
    b"\0\0\0\x09\x04\0\x01\0\0\0\0\0\0",
    b"\0\0\0\x01\x05",
];

// The frames that are given for a stream in two pieces, spelt again, and the fault.
fn given(
    alloc: Global,
    front: &[u8],
    back: &[u8],
) -> Result<(Vec<u8>, Option<FrameFault>), NoMemory> {
    let mut reader = Reader::new(alloc)?;
    let mut frames = Vec::new(alloc);
    let _first = reader.feed(front, &mut frames);
    let fault = reader.feed(back, &mut frames).err();
    Ok((spelt(alloc, &frames)?, fault))
}

fn spelt(alloc: Global, frames: &[ClientFrame]) -> Result<Vec<u8>, NoMemory> {
    let mut bytes = Vec::new(alloc);
    for frame in frames {
        write(frame, &mut bytes)?;
    }
    Ok(bytes)
}

#[test]
fn each_frame_is_read_as_spelt_cut_at_each_byte(rt: HostRuntime) -> Result<(), Fail> {
    for bytes in FRAMES {
        for at in 0..bytes.len() {
            let (front, back) = bytes.split_at(at);
            let (again, fault) = given(rt.alloc(), front, back)?;
            assert_eq!(rt; again.as_slice(), bytes);
            assert_eq!(rt; fault, None);
        }
    }
    Ok(())
}

// Streams of one frame, and their faults.
const REQUESTS: [(&[u8], FrameFault); 10] = [
    (b"\0\0\0\x09\x01\0\0\0\0\0\0\x04\0", FrameFault::BadField(5)),
    (
        b"\0\0\0\x11\x01\0\0\0\0\0\0\x03\xff\0\0\0\0\0\0\0\0",
        FrameFault::BadField(13),
    ),
    (
        b"\0\0\0\x11\x01\0\0\0\0\0\0\x03\xff\0\x01\0\0\0\0\0\x01",
        FrameFault::BadField(13),
    ),
    (
        b"\0\0\0\x12\x01\0\0\0\0\0\0\0\0\0\0\0\0\0\0\0\x01\0",
        FrameFault::BadField(21),
    ),
    (
        b"\0\0\0\x12\x01\0\0\0\0\0\0\0\0\0\0\0\0\0\0\0\x01\x05",
        FrameFault::BadField(21),
    ),
    (
        b"\0\0\0\x14\x01\0\0\0\0\0\0\0\0\0\0\0\0\0\0\0\x01\x02\0\0",
        FrameFault::BadField(22),
    ),
    (
        b"\0\0\0\x14\x01\0\0\0\0\0\0\0\0\0\0\0\0\0\0\0\x01\x02\x01\x01",
        FrameFault::BadField(22),
    ),
    (
        b"\0\0\0\x15\x01\0\0\0\0\0\0\0\0\0\0\0\0\0\0\0\x01\x02\0\x02k",
        FrameFault::BadLength(24),
    ),
    (
        b"\0\0\0\x17\x01\0\0\0\0\0\0\0\0\0\0\0\0\0\0\0\x01\x01\0\x01k\x10\x01",
        FrameFault::BadField(25),
    ),
    (
        b"\0\0\0\x16\x01\0\0\0\0\0\0\0\0\0\0\0\0\0\0\0\x01\x04\0\x01k\x02",
        FrameFault::BadField(25),
    ),
];

const OTHERS: [(&[u8], FrameFault); 12] = [
    (
        b"\0\0\0\x0a\x02\0\x01\0\0\0\0\0\x01\x01",
        FrameFault::BadField(5),
    ),
    (
        b"\0\0\0\x0a\x02\0\0\0\0\0\0\0\x01\0",
        FrameFault::BadField(13),
    ),
    (
        b"\0\0\0\x0a\x02\0\0\0\0\0\0\0\x01\x05",
        FrameFault::BadField(13),
    ),
    (
        b"\0\0\0\x0c\x02\0\0\0\0\0\0\0\x01\x02\x10\x01",
        FrameFault::BadField(14),
    ),
    (b"\0\0\0\x02\x03\x09", FrameFault::BadField(5)),
    (b"\0\0\0\x09\x04\0\0\0\0\0\0\0\0", FrameFault::BadField(5)),
    (b"\0\0\0\x04\x04\0\0\0", FrameFault::BadLength(5)),
    (b"\0\0\0\x02\x05\0", FrameFault::BadLength(5)),
    (b"\0\0\0\x01\0", FrameFault::BadKind(4)),
    (b"\0\0\0\x01\x06", FrameFault::BadKind(4)),
    (b"\0\0\0\0", FrameFault::BadLength(0)),
    (b"\x08\0\0\x01", FrameFault::TooLong(0)),
];

#[test]
fn the_first_fault_is_told(rt: HostRuntime) -> Result<(), Fail> {
    for (bytes, fault) in REQUESTS {
        assert_eq!(rt; given(rt.alloc(), bytes, b"")?.1, Some(fault));
    }
    for (bytes, fault) in OTHERS {
        assert_eq!(rt; given(rt.alloc(), bytes, b"")?.1, Some(fault));
    }
    Ok(())
}

#[test]
fn frames_before_a_fault_are_given(rt: HostRuntime) -> Result<(), Fail> {
    let (frames, fault) = given(rt.alloc(), b"\0\0\0\x01\x05\0\0\0", b"\x02\x05\0")?;
    assert_eq!(rt; frames.as_slice(), FRAMES[11]);
    assert_eq!(rt; fault, Some(FrameFault::BadLength(10)));
    Ok(())
}

#[test]
fn the_longest_key_and_value_are_read(rt: HostRuntime) -> Result<(), Fail> {
    let mut bytes = Vec::from_slice(
        rt.alloc(),
        b"\0\0\x11\x16\x01\0\0\0\0\0\0\0\0\0\0\0\0\0\0\0\x01\x01\x01\0",
    )?;
    bytes.resize(280, 7)?;
    bytes.extend_from_slice(b"\x10\0")?;
    bytes.resize(4378, 7)?;
    let (frames, fault) = given(rt.alloc(), b"", &bytes)?;
    assert_eq!(rt; fault, None);
    assert_eq!(rt; frames.as_slice(), bytes.as_slice());
    Ok(())
}
