//! Streams of a small grammar, cut in many ways.

ghost use Rattle.std.specs.Prelude.{◌==◌, if◌then◌else◌, length, slice_index, Ok, Err};
ghost use Rattle.frame_fields.specs.Faults.{BadLength};

use crate::grammar::Grammar;
use crate::reader::Reader;
use frame_fields::fault::FrameFault;
use std::alloc::Global;
use std::test::Fail;

// Frames of kind 7 have one field of one byte.
#[derive(Drop)]
struct OneByte;

impl Grammar for OneByte {
    type Item = u8;

    ghost rules = { λ _. record { is_listed = λ kind. kind == 7; reads = λ kind at fields. (if length fields == 1 then Ok (slice_index fields 0) else Err (BadLength at)) } };

    fn is_listed(&self, kind: u8) -> bool {
        kind == 7
    }

    fn read(&self, _alloc: Global, _kind: u8, at: u64, fields: &[u8]) -> Result<u8, FrameFault> {
        match fields {
            [field] => Ok(*field),
            _ => Err(FrameFault::BadLength(at)),
        }
    }
}

// What is given for a stream: the items, the bytes that are held, and the fault with the count of the bytes that told it.
struct Line {
    stream: &'static [u8],
    items: &'static [u8],
    held: u64,
    fault: Option<(FrameFault, usize)>,
}

const LINES: [Line; 9] = [
    Line {
        stream: b"",
        items: b"",
        held: 0,
        fault: None,
    },
    Line {
        stream: b"\0\0\0\x02\x07A\0\0\0\x02\x07B",
        items: b"AB",
        held: 0,
        fault: None,
    },
    Line {
        stream: b"\0\0\0\x02\x07A\0\0\0\x02\x07",
        items: b"A",
        held: 5,
        fault: None,
    },
    Line {
        stream: b"\x08\0\0\0",
        items: b"",
        held: 4,
        fault: None,
    },
    Line {
        stream: b"\x08\0\0\x01\x07",
        items: b"",
        held: 0,
        fault: Some((FrameFault::TooLong(0), 4)),
    },
    Line {
        stream: b"\0\0\0\x02\x07A\0\0\0\0\x07",
        items: b"A",
        held: 0,
        fault: Some((FrameFault::BadLength(6), 10)),
    },
    Line {
        stream: b"\0\0\0\x02\x07A\0\0\0\x02\x08B",
        items: b"A",
        held: 0,
        fault: Some((FrameFault::BadKind(10), 11)),
    },
    Line {
        stream: b"\0\0\0\x02\x07A\0\0\0\x03\x07B\0\0",
        items: b"A",
        held: 0,
        fault: Some((FrameFault::BadLength(11), 13)),
    },
    Line {
        stream: b"\0\0\0\0\0\0\0\x02\x07A",
        items: b"",
        held: 0,
        fault: Some((FrameFault::BadLength(0), 4)),
    },
];

#[test]
fn a_stream_is_read_alike_cut_at_each_place(rt: HostRuntime) -> Result<(), Fail> {
    for line in &LINES {
        for at in 0..line.stream.len() + 1 {
            let (front, back) = line.stream.split_at(at);
            let mut reader = Reader::new(rt.alloc(), OneByte)?;
            let mut out = Vec::new(rt.alloc());
            let first = reader.feed(front, &mut out);
            assert_eq!(rt; first.err(), line.fault.filter(|f| f.1 <= at).map(|f| f.0));
            let second = reader.feed(back, &mut out);
            assert_eq!(rt; second.err(), line.fault.map(|f| f.0));
            assert_eq!(rt; out.as_slice(), line.items);
            assert_eq!(rt; reader.held(), line.held);
        }
    }
    Ok(())
}

#[test]
fn a_stream_is_read_alike_one_byte_a_call(rt: HostRuntime) -> Result<(), Fail> {
    for line in &LINES {
        let mut reader = Reader::new(rt.alloc(), OneByte)?;
        let mut out = Vec::new(rt.alloc());
        for at in 0..line.stream.len() {
            let fed = at + 1;
            let answer = reader.feed(&line.stream[at..fed], &mut out);
            assert_eq!(rt;
                answer.err(),
                line.fault.filter(|f| f.1 <= fed).map(|f| f.0)
            );
        }
        assert_eq!(rt; out.as_slice(), line.items);
        assert_eq!(rt; reader.held(), line.held);
    }
    Ok(())
}
