//! Runs that send as many bytes as they may, and more.

use super::tests::told;
use super::*;
use jp_types::memory::NoMemory;
use std::test::Fail;
use text_lines::texts::push_text;

/// Appends the first lines of nine replicas, up to the Prepared leader: 652 bytes of frames.
fn push_opening(input: &mut Vec<u8>) -> Result<(), NoMemory> {
    push_text(
        b"cluster 9 viewss 1\n\
        deliver 1 0\nprotocol 1\n\
        deliver 2 1\nprotocol 2\n\
        deliver 3 2\nprotocol 3\n\
        deliver 4 3\nprotocol 4\n\
        deliver 0 8\nprotocol 0\n\
        deliver 0 9\nprotocol 0\n\
        deliver 0 10\nprotocol 0\n\
        deliver 0 11\nprotocol 0\n",
        input,
    )
}

/// Appends a Put of client 1 with a value of so many bytes.
fn push_put(alloc: Global, number: u64, size: usize, input: &mut Vec<u8>) -> Result<(), Fail> {
    push_text(
        format!(in alloc; "request 0 1 {number} put 61 ")?.as_bytes(),
        input,
    )?;
    for _ in 0..size {
        push_text(b"78", input)?;
    }
    push_text(b"\nbatch 0\n", input)?;
    Ok(())
}

/// A schedule in which a batch of 65,536 bytes is proposed to eight replicas, and so many times again. Each time that
/// is 524,456 bytes of frames; the opening and the tick before have 820.
fn repeating(alloc: Global, times: u64) -> Result<Vec<u8>, Fail> {
    let mut input = Vec::new(alloc);
    push_opening(&mut input)?;
    for number in 1..=15 {
        push_put(alloc, number, 4074, &mut input)?;
    }
    push_put(alloc, 16, 4070, &mut input)?;
    push_text(b"tick 0\nbatch 0\nprotocol 0\nprotocol 0\n", &mut input)?;
    for _ in 0..times {
        push_text(b"retransmit 0\n", &mut input)?;
    }
    push_text(b"end\n", &mut input)?;
    Ok(input)
}

#[test]
fn tells_too_many_sent_bytes(rt: HostRuntime) -> Result<(), Fail> {
    let (status, _) = told(rt.alloc(), &repeating(rt.alloc(), 510)?)?;
    assert_eq!(rt; status, Status::Done);
    let (status, sink) = told(rt.alloc(), &repeating(rt.alloc(), 511)?)?;
    assert_eq!(rt; status, Status::TooLarge(3));
    assert_eq!(rt; sink.bytes(), b"jpaxos: too large 3\n".as_slice());
    Ok(())
}
