//! A state is turned into bytes and read back.

use crate::fault::Fault;
use crate::filling::{batches, filled};
use crate::size::Size;
use jp_types::octets::Octets;
use kv_service::state::State;
use std::alloc::Global;

// The bytes of a state of this size. The state is dropped with the call, so that it is not held beside the one that is
// read back.
fn written(alloc: Global, size: Size) -> Result<Octets, Fault> {
    let state = filled(alloc, size)?;
    Ok(state.to_bytes()?)
}

/// How many bytes a state of this size has, which are read back.
pub fn measured(alloc: Global, size: Size) -> Result<usize, Fault> {
    let bytes = written(alloc, size)?;
    let read = State::from_bytes(alloc, bytes.bytes())?;
    if read.executed() != u64::from(batches(size)) {
        return Err(Fault::Executed);
    }
    if read.store().count() != u64::from(size.keys) {
        return Err(Fault::NotRead);
    }
    Ok(bytes.bytes().len())
}
