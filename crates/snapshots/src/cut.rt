//! The bytes of a state, cut into parts.

ghost use Rattle.std.specs.Prelude.{◌≡◌, ◌<◌, ◌≤◌, length, vec_len, IfOk};
ghost use Rattle.kv_service.specs.Parts.{part_count};
ghost use Rattle.snapshots.specs.Cutting.{part_at, parts_of};

use jp_types::memory::NoMemory;
use jp_types::message::{Instance, SnapshotPart};
use jp_types::octets::Octets;
use std::alloc::Global;

/// How many bytes a part has, but for the last.
pub const PART_SIZE: usize = 65_536;

/// The greatest number of bytes that a state has.
pub const STATE_BYTES: usize = 268_435_456;

/// How many parts so many bytes have.
pub(crate) fn part_count(total: usize) -> usize
    ensures { result ≡ part_count total }
{
    total.div_ceil(PART_SIZE)
}

// The part at an offset, which lies within the bytes.
fn part_at(alloc: Global, upto: Instance, bytes: &[u8], at: usize) -> Result<SnapshotPart, NoMemory>
    requires few { length bytes.now ≤ STATE_BYTES }
    requires within { at < length bytes.now }
    ensures { IfOk result (λ part. part ≡ part_at upto bytes.now at) }
{
    let rest = &bytes[at..];
    Ok(SnapshotPart {
        upto,
        total: bytes.len() as u32,
        at: at as u32,
        bytes: Octets::from_slice(alloc, &rest[..PART_SIZE.min(rest.len())])?,
    })
}

/// The parts of the bytes of a state that has all instances below `upto`, in order. Where there are no bytes
/// there is no part.
pub fn parts(alloc: Global, upto: Instance, bytes: &[u8]) -> Result<Vec<SnapshotPart>, NoMemory>
    requires { length bytes.now ≤ STATE_BYTES }
    ensures { IfOk result (λ made. made.items ≡ parts_of upto bytes.now) }
{
    let mut made = Vec::with_capacity(alloc, part_count(bytes.len()))?;
    let mut at = 0;
    while at < bytes.len() {
        made.push(part_at(alloc, upto, bytes, at)?)?;
        at += PART_SIZE;
    }
    Ok(made)
}

#[cfg(test)]
pub(crate) mod tests {
    use super::*;
    use std::test::Fail;

    // So many bytes from a place on. Those beside each other differ.
    pub(crate) fn piece(alloc: Global, at: usize, count: usize) -> Result<Vec<u8>, NoMemory>
        ensures { IfOk result (λ bytes. vec_len bytes ≡ count) }
    {
        let mut bytes = Vec::with_capacity(alloc, count)?;
        for place in 0..count {
            bytes.push((at.saturating_add(place) % 251) as u8)?;
        }
        Ok(bytes)
    }

    fn cut(alloc: Global, total: usize) -> Result<Vec<SnapshotPart>, NoMemory> {
        let bytes = piece(alloc, 0, total.min(STATE_BYTES))?;
        parts(alloc, 512, &bytes)
    }

    // Whether a part has this total, offset and bytes.
    fn is_told(part: Option<&SnapshotPart>, total: u32, at: u32, bytes: &[u8]) -> bool {
        match part {
            Some(part) => {
                (part.upto, part.total, part.at) == (512, total, at) && part.bytes.bytes() == bytes
            }
            None => false,
        }
    }

    #[test]
    fn bytes_are_cut(rt: HostRuntime) -> Result<(), Fail> {
        let lines: [(u32, usize, usize, u32, usize); 5] = [
            (1, 1, 0, 0, 1),
            (65_536, 1, 0, 0, 65_536),
            (65_537, 2, 1, 65_536, 1),
            (80_133, 2, 0, 0, 65_536),
            (80_133, 2, 1, 65_536, 14_597),
        ];
        for (total, count, number, at, size) in lines {
            let made = cut(rt.alloc(), total as usize)?;
            let bytes = piece(rt.alloc(), at as usize, size)?;
            assert_eq!(rt; made.len(), count);
            assert!(rt; is_told(made.get(number), total, at, &bytes), "{total}");
        }
        Ok(())
    }
}
