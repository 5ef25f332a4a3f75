//! A long run: two replicas take snapshots, and a third one that lost all is given the newest.

ghost use Rattle.std.specs.Prelude.{◌≤◌};

use super::tests::{schedule_of, told};
use super::*;
use jp_types::memory::NoMemory;
use std::test::Fail;
use text_lines::texts::push_text;

/// How many Puts are decided.
const PUTS: u64 = 512;

/// How many keys are put.
const KEYS: u64 = 20;

/// The bytes of each value.
const VALUE_SIZE: usize = 4000;

/// Appends the value of each Put, as it is written.
fn push_value(text: &mut Vec<u8>) -> Result<(), NoMemory> {
    for _ in 0..VALUE_SIZE {
        push_text(b"78", text)?;
    }
    Ok(())
}

/// Appends the first lines, up to the Prepared leader.
fn push_opening(text: &mut Vec<u8>) -> Result<(), NoMemory> {
    push_text(
        b"cluster 3 epochss 1 = done; first 0; promise 0 0; send 0 1 prepare; send 1 2 prepare; first 1; first 2\n\
        deliver 1 0 = done\n\
        protocol 1 = done; promise 1 0; send 2 0 promise\n\
        deliver 0 2 = done\n\
        protocol 0 = done; prepared 0 0 0\n",
        text,
    )
}

/// Appends one Put, which replica 0 decides with replica 1, and both execute.
fn push_put(alloc: Global, number: u64, text: &mut Vec<u8>) -> Result<(), Fail>
    requires some { 1 ≤ number }
    requires few { number ≤ 512 }
{
    let instance = number - 1;
    let message = 3 + 6 * instance;
    let key = number % KEYS;
    push_text(
        format!(in alloc; "request 0 1 {number} put {key:02x} ")?.as_bytes(),
        text,
    )?;
    push_value(text)?;
    push_text(
        b" = done\nbatch 0 = done\ntick 0 = done\nbatch 0 = done\n",
        text,
    )?;
    let proposed = format!(in alloc;
        "protocol 0 = done; send {} 1 alive; send {} 2 alive\n\
        protocol 0 = done; launch 0 0 {instance} 1.{number}; vote 0 0 {instance}; send {} 1 propose; send {} 2 propose\n",
        message,
        message + 1,
        message + 2,
        message + 3
    )?;
    push_text(proposed.as_bytes(), text)?;
    let learned = format!(in alloc;
        "deliver 1 {} = done\n\
        protocol 1 = done; vote 1 0 {instance}; send {} 0 accept; send {} 2 accept; learn 1 {instance}\n\
        service 1 = done; execute 1 {instance} 1.{number}+ok\n\
        deliver 0 {} = done\n\
        protocol 0 = done; learn 0 {instance}\n\
        service 0 = done; execute 0 {instance} 1.{number}+ok\n",
        message + 2,
        message + 4,
        message + 5,
        message + 4
    )?;
    push_text(learned.as_bytes(), text)?;
    if number % 256 == 0 {
        push_text(b"protocol 1 = done\nprotocol 0 = done\n", text)?;
    }
    Ok(())
}

/// Appends the crash of replica 2, its return, and how it is given the snapshot.
fn push_return(text: &mut Vec<u8>) -> Result<(), NoMemory> {
    push_text(
        b"crash 2 = done; crash 2\n\
        start 2 = done; return 2 2; send 3075 0 recovery; send 3076 1 recovery\n\
        deliver 0 3075 = done\n\
        protocol 0 = done; answer 0 2 0 512; send 3077 2 answer\n\
        deliver 1 3076 = done\n\
        protocol 1 = done; answer 1 2 0 -; send 3078 2 answer\n\
        deliver 2 3077 = done\n\
        protocol 2 = done\n\
        deliver 2 3078 = done\n\
        protocol 2 = done\n\
        tick 2 = done\n\
        protocol 2 = done; send 3079 0 query\n\
        deliver 0 3079 = done\n\
        protocol 0 = done; send 3080 2 part; send 3081 2 part\n\
        deliver 2 3081 = done\n\
        protocol 2 = done\n\
        deliver 2 3080 = done\n\
        protocol 2 = done; install 2 512; rejoin 2 0\n\
        service 2 = done; restore 2 512\n\
        end = done\n",
        text,
    )
}

/// Appends how a replica ends: with all keys.
fn push_replica(alloc: Global, replica: u64, text: &mut Vec<u8>) -> Result<(), Fail> {
    push_text(
        format!(in alloc; "replica {replica} working 0 512")?.as_bytes(),
        text,
    )?;
    for key in 0..KEYS {
        push_text(format!(in alloc; " {key:02x}=")?.as_bytes(), text)?;
        push_value(text)?;
    }
    push_text(b"\n", text)?;
    Ok(())
}

#[test]
fn gives_a_snapshot_to_a_replica_that_returned(rt: HostRuntime) -> Result<(), Fail> {
    let mut text = Vec::new(rt.alloc());
    push_opening(&mut text)?;
    for number in 1..=PUTS {
        push_put(rt.alloc(), number, &mut text)?;
    }
    push_return(&mut text)?;
    for replica in 0..3 {
        push_replica(rt.alloc(), replica, &mut text)?;
    }
    let input = schedule_of(rt.alloc(), &text)?;
    let (status, sink) = told(rt.alloc(), &input)?;
    assert_eq!(rt; status, Status::Done);
    assert!(rt; sink.bytes() == text.as_slice());
    Ok(())
}
