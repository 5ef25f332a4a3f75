//! Disks in memory.

ghost use Rattle.std.specs.Prelude.{◌≡◌, ◌+◌, ◌≤◌, List, ℕ, Some, false, length, refl};
ghost use Rattle.std.proofs.Common.{rules};
ghost use Rattle.stable_store.specs.Disks.{overwritten};

use crate::disk::Disk;
use jp_types::fault::Failed;
use std::marker::Model;

/// Puts a piece in place of the bytes that are there.
pub(crate) fn overwrite(bytes: &mut Vec<u8>, at: usize, piece: &[u8])
    requires { at + length piece.now ≤ length bytes.old.items }
    ensures { bytes.new.items ≡ overwritten at piece.now bytes.old.items }
{
    bytes[at..at + piece.len()].copy_from_slice(piece);
}

/// A disk in memory that never fails. Each call is done at once, so a crash leaves what a read gives. It takes no memory
/// beyond its bytes, so it tells nothing of past moments: a clause that speaks of any moment of a call says of this disk only
/// what a crash after the call leaves.
#[derive(Debug, Drop)]
pub struct MemoryDisk {
    bytes: Vec<u8>,
}

impl Model for MemoryDisk {
    ghost use Rattle.std.specs.Prelude.{ℕ, List};

    ghost Value = { List ℕ };

    ghost view = { λ disk. disk.bytes.items };
}

impl MemoryDisk {
    /// A device of these bytes.
    pub fn new(bytes: Vec<u8>) -> MemoryDisk
        ensures { result ≡ bytes.items }
    {
        MemoryDisk { bytes }
    }

    pub fn bytes(&self) -> &[u8]
        ensures { result.now ≡ self.now }
    {
        &self.bytes
    }
}

impl Disk for MemoryDisk {
    ghost size = { λ disk. length disk };

    ghost seen = { λ disk. Some disk };

    ghost may_leave = { λ disk image. image ≡ disk };

    ghost moment = { λ _. 0 };

    ghost left_since = { λ disk _ image. image ≡ disk };

    ghost remembers = { false };

    ghost faults = { λ _. 0 };

    ghost whole = { λ disk bytes is. Prim.search rules };

    ghost seen_may_stay = { λ disk bytes is. Prim.search rules };

    ghost counts_now = { λ disk t image le now. now };

    ghost only_now = { λ disk image now. now };

    fn length(&mut self) -> Result<u64, Failed> {
        Ok(self.bytes.len() as u64)
    }

    fn read(&mut self, at: u64, room: &mut [u8]) -> Result<(), Failed> {
        let at = at as usize;
        room.copy_from_slice(&self.bytes[at..at + room.len()]);
        Ok(())
    }

    fn write_at(&mut self, at: u64, piece: &[u8]) -> Result<(), Failed> {
        overwrite(&mut self.bytes, at as usize, piece);
        Ok(())
    }

    fn sync(&mut self) -> Result<(), Failed> {
        Ok(())
    }
}
