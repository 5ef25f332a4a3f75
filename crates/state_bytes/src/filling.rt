//! A state of a given size, as a service comes to it: by batches of requests.

ghost use Rattle.std.specs.Prelude.{◌≤◌, ◌<◌, ◌+◌, ◌*◌};

use crate::fault::Fault;
use crate::size::Size;
use jp_types::batch::Batch;
use jp_types::command::{Command, Request};
use jp_types::memory::NoMemory;
use jp_types::octets::Octets;
use kv_service::state::State;
use std::alloc::Global;

/// How many clients send the requests, in turn.
const CLIENTS: u16 = 1_024;

/// How many requests a batch has at most. With values of the greatest length no more fit into a batch's 65,536 bytes, and
/// with shorter ones there are no more either, so that states of one count of keys take the same batches.
const REQUESTS: u16 = 15;

// The request that puts the key of this number.
fn put(alloc: Global, key: u16, value: &[u8]) -> Result<Request, NoMemory> {
    Ok(Request {
        client: u64::from(key % CLIENTS),
        number: 1 + u64::from(key / CLIENTS),
        command: Command::Put {
            key: Octets::from_slice(alloc, &key.to_be_bytes())?,
            value: Octets::from_slice(alloc, value)?,
        },
    })
}

// The batch of the requests that put these keys.
fn puts(alloc: Global, from: u16, end: u16, value: &[u8]) -> Result<Batch, NoMemory> {
    let mut batch = Batch::empty(alloc);
    for key in from..end {
        batch.push(put(alloc, key, value)?)?;
    }
    Ok(batch)
}

/// How many batches put all keys, where each but the last is full.
pub fn batches(size: Size) -> u16
    ensures all { size.keys ≤ result * 15 }
    ensures few { result * 15 < size.keys + 15 }
{
    size.keys.div_ceil(REQUESTS)
}

// Executes a batch, where so many were executed before it.
fn execute(state: &mut State, before: u16, batch: &Batch) -> Result<(), Fault> {
    if state.executed() != u64::from(before) {
        return Err(Fault::Executed);
    }
    let _outcomes = state.execute(batch)?;
    Ok(())
}

/// The state in which all keys are put.
pub fn filled(alloc: Global, size: Size) -> Result<State, Fault> {
    let value = vec![in alloc; b'v'; usize::from(size.length)].map_err(NoMemory::from)?;
    let mut state = State::new(alloc);
    for number in 0..batches(size) {
        let from = number * REQUESTS;
        let end = size.keys.min(from + REQUESTS);
        execute(&mut state, number, &puts(alloc, from, end, &value)?)?;
    }
    Ok(state)
}
