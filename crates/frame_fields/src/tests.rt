//! Fields as they are spelt and read.

use crate::fault::FrameFault;
use crate::fields::Fields;
use crate::spelling::{
    begin_frame, end_frame, push_byte, push_bytes, push_count, push_number, push_optional_number,
    push_reply, push_request,
};
use jp_types::memory::NoMemory;
use std::alloc::Global;
use std::test::Fail;

const NUMBERS: &[u8] = b"\0\0\0\x1b\x09\x02\0\0\x04\0\0\x01\0\0\0\0\0\0\0\x01\0\0\0\0\0\0\0\x03raw";

fn numbers(alloc: Global) -> Result<Vec<u8>, NoMemory> {
    let mut out = Vec::new(alloc);
    let place = begin_frame(&mut out, 9)?;
    push_byte(&mut out, 2)?;
    push_count(&mut out, 1024)?;
    push_number(&mut out, 1 << 48)?;
    push_optional_number(&mut out, None)?;
    push_optional_number(&mut out, Some(3))?;
    push_bytes(&mut out, b"raw")?;
    end_frame(&mut out, place);
    Ok(out)
}

#[test]
fn numbers_are_read_as_spelt(rt: HostRuntime) -> Result<(), Fail> {
    assert_eq!(rt; numbers(rt.alloc())?.as_slice(), NUMBERS);
    let mut fields = Fields::new(5, &NUMBERS[5..]);
    assert_eq!(rt; fields.number_within(1, 0, 2)?, 2);
    assert_eq!(rt; fields.number_within(4, 0, 1024)?, 1024);
    assert_eq!(rt; fields.counter()?, 1 << 48);
    assert_eq!(rt; fields.optional_counter()?, None);
    assert_eq!(rt; fields.optional_counter()?, Some(3));
    assert_eq!(rt; fields.bytes(3)?.len(), 3);
    assert_eq!(rt; fields.finish(7)?, 7);
    Ok(())
}

const REQUEST: &[u8] =
    b"\0\0\0\0\0\0\x03\xff\0\x01\0\0\0\0\0\0\x04\0\x01k\x01\0\x03old\0\0\x02\0\x01v";

#[test]
fn requests_and_replies_are_read_as_spelt(rt: HostRuntime) -> Result<(), Fail> {
    let mut fields = Fields::new(0, REQUEST);
    let request = fields.request(rt.alloc())?;
    let reply = fields.reply(rt.alloc())?;
    let mut out = Vec::new(rt.alloc());
    push_request(&mut out, &request)?;
    push_reply(&mut out, &reply)?;
    assert_eq!(rt; out.as_slice(), REQUEST);
    Ok(())
}

// The fault of a batch with one field of so many bytes.
fn fault_of_batch(bytes: &[u8], first: u64) -> Option<FrameFault> {
    let mut fields = Fields::new(first, bytes);
    let _tag = fields.number(1);
    fields.begin_batch();
    let fault = fields.bytes(bytes.len().saturating_sub(1)).err();
    fields.end_batch();
    fault
}

#[test]
fn a_batch_is_told_at_its_first_byte(rt: HostRuntime) -> Result<(), Fail> {
    let mut bytes = Vec::new(rt.alloc());
    bytes.resize(65537, 0)?;
    assert_eq!(rt; fault_of_batch(&bytes, 100), None);
    bytes.push(0)?;
    assert_eq!(rt;
        fault_of_batch(&bytes, 100),
        Some(FrameFault::BadField(101))
    );
    assert_eq!(rt;
        fault_of_batch(&bytes, u64::MAX),
        Some(FrameFault::BadField(u64::MAX))
    );
    Ok(())
}

#[test]
fn a_list_has_room_for_its_items_alone(rt: HostRuntime) -> Result<(), Fail> {
    let fields = Fields::new(0, &[0; 50]);
    assert_eq!(rt; fields.room(1024, 19), 2);
    assert_eq!(rt; fields.room(1, 19), 1);
    Ok(())
}
