//! A disk over a file of the system.

ghost use Rattle.std.specs.Prelude.{◌≡◌, ◌≤◌, ℕ, None, false, IfOk};
ghost use Rattle.jp_types.specs.Faults.{HasCause, Rose};
ghost use Rattle.std.proofs.Common.{rules};

use crate::cell::LENGTH;
use crate::disk::Disk;
use jp_types::fault::Failed;
use std::fs::{File, OpenOptions};
use std::io;
use std::marker::Model;
use std::os::unix::fs::FileExt;
use std::rt::Files;

/// A file of the system, of the length that it had when it was opened. It tells nothing of what it holds, and its failures
/// are counted.
#[derive(Drop)]
pub struct FileDisk {
    file: File,
    length: u64,
    faults: u64,
}

impl Model for FileDisk {
    ghost use Rattle.stable_store.specs.Files.{Opened};

    ghost Value = { Opened };

    ghost view = { λ disk. record { size = disk.length; faults = disk.faults } };
}

/// Opens a file, or makes one. A file without bytes becomes a fresh device, and is synced before anything else.
fn open_or_make<R: Files<File = File>>(rt: &R, path: &str) -> io::Result<(File, u64)> {
    let file = OpenOptions::new()
        .read(true)
        .write(true)
        .create(true)
        .truncate(false)
        .open(rt, path)?;
    let length = file.metadata()?.len();
    if length > 0 {
        return Ok((file, length));
    }
    file.set_len(LENGTH)?;
    file.sync_all()?;
    Ok((file, LENGTH))
}

impl FileDisk {
    /// Opens a file as a device. A missing or empty file is made a fresh device of 18 zero bytes.
    pub fn open<R: Files<File = File>>(rt: &R, path: &str) -> io::Result<FileDisk>
        ensures { IfOk result (λ disk. disk.faults ≡ 0) }
    {
        let (file, length) = open_or_make(rt, path)?;
        Ok(FileDisk {
            file,
            length,
            faults: 0,
        })
    }

    /// Counts a failure.
    fn failed(&mut self) -> Failed
        ensures rose { Rose self.old.faults self.new.faults }
        ensures later { self.old.faults ≤ self.new.faults }
        ensures size { self.new.size ≡ self.old.size }
    {
        self.faults = self.faults.saturating_add(1);
        Failed
    }

    /// Counts an answer that is a failure.
    fn counted<T: Drop>(&mut self, answer: io::Result<T>) -> Result<T, Failed>
        ensures cause { HasCause self.old.faults self.new.faults result }
        ensures size { self.new.size ≡ self.old.size }
    {
        match answer {
            Ok(value) => Ok(value),
            Err(_) => Err(self.failed()),
        }
    }
}

impl Disk for FileDisk {
    ghost size = { λ disk. disk.size };

    ghost seen = { λ _. None };

    ghost may_leave = { λ _ _. ⊥ };

    ghost moment = { λ _. 0 };

    ghost left_since = { λ _ _ _. ⊥ };

    ghost remembers = { false };

    ghost faults = { λ disk. disk.faults };

    ghost whole = { λ disk bytes is. Prim.search rules };

    ghost seen_may_stay = { λ disk bytes is. Prim.search rules };

    ghost counts_now = { λ disk t image le now. now };

    ghost only_now = { λ disk image now. now };

    /// Fails where the file no longer has the length that it had when it was opened.
    fn length(&mut self) -> Result<u64, Failed> {
        let answer = self.file.metadata();
        let found = self.counted(answer)?.len();
        if found != self.length {
            return Err(self.failed());
        }
        Ok(found)
    }

    fn read(&mut self, at: u64, room: &mut [u8]) -> Result<(), Failed> {
        let answer = self.file.read_exact_at(room, at);
        self.counted(answer)
    }

    fn write_at(&mut self, at: u64, piece: &[u8]) -> Result<(), Failed> {
        let answer = self.file.write_all_at(piece, at);
        self.counted(answer)
    }

    /// Syncs the bytes and the length.
    fn sync(&mut self) -> Result<(), Failed> {
        let answer = self.file.sync_all();
        self.counted(answer)
    }
}

#[cfg(test)]
mod tests {
    use super::*;
    use crate::cell::{Cell, CellFault};
    use crate::failing::FailingDisk;
    use jp_types::memory::NoMemory;
    use std::alloc::Global;
    use std::fs;
    use std::test::Fail;

    /// The byte of an open gate.
    const OPEN: u8 = 0xA5;

    /// The device whose first slot holds 5, and whose second is closed.
    const FIVE: [u8; 18] = [0, 0, 0, 0, 0, 0, 0, 5, OPEN, 0, 0, 0, 0, 0, 0, 0, 0, 0];

    /// The device whose slots hold 5 and 9.
    const FIVE_NINE: [u8; 18] = [0, 0, 0, 0, 0, 0, 0, 5, OPEN, 0, 0, 0, 0, 0, 0, 0, 9, OPEN];

    /// The bytes that a crash leaves, where a load and a save of 12 stop at a call.
    fn left(alloc: Global, start: &[u8], stop: u64, fill: u8) -> Result<Vec<u8>, NoMemory> {
        let mut disk = FailingDisk::new(start.to_vec(alloc)?, Vec::new(alloc), stop)?;
        if let Ok((mut cell, held)) = Cell::load(&mut disk) {
            if held.is_none_or(|kept| kept < 12) {
                let _stopped = cell.save(&mut disk, 12);
            }
        }
        Ok(disk.crash(fill))
    }

    #[test]
    fn outlives_its_disk(rt: HostRuntime) -> Result<(), Fail> {
        let path = "stable_store_outlives.cell";
        let _missing = fs::remove_file(&rt, path);
        let mut disk = FileDisk::open(&rt, path)?;
        assert_eq!(rt; fs::read(&rt, path)?.as_slice(), [0u8; 18].as_slice());
        if let Ok((mut cell, None)) = Cell::load(&mut disk) {
            assert_eq!(rt; cell.save(&mut disk, 5), Ok(()));
        }

        let mut again = FileDisk::open(&rt, path)?;
        assert!(rt; matches!(Cell::load(&mut again), Ok((_, Some(5)))));

        fs::write(&rt, path, [0u8; 17])?;
        assert!(rt; matches!(Cell::load(&mut again), Err(CellFault::Disk)));
        let mut short = FileDisk::open(&rt, path)?;
        assert!(rt; matches!(Cell::load(&mut short), Err(CellFault::Damaged(17))));
        fs::remove_file(&rt, path)?;
        Ok(())
    }

    /// The calls are 3 of the load, then a sync, or a write and a sync where the slot was open, for the closed gate, and a
    /// write and a sync each for the number and the open gate. The last but one opens the gate.
    #[test]
    fn a_file_has_the_old_number_or_the_new_one(rt: HostRuntime) -> Result<(), Fail> {
        let path = "stable_store_stops.cell";
        for (start, before, opens, calls) in [
            ([0; 18], None, 6, 8u64),
            (FIVE, Some(5), 6, 8),
            (FIVE_NINE, Some(9), 7, 9),
        ] {
            for stop in 0..=calls {
                for fill in [0, 0xFF, OPEN] {
                    fs::write(&rt, path, left(rt.alloc(), &start, stop, fill)?)?;
                    let mut disk = FileDisk::open(&rt, path)?;
                    let is_new = stop == calls || fill == OPEN && stop >= opens;
                    let held = if is_new { Some(12) } else { before };
                    let loaded = Cell::load(&mut disk).map(|made| made.1);
                    assert_eq!(rt; loaded, Ok(held), "{before:?}, stop at {stop}, {fill}");
                }
            }
        }
        fs::remove_file(&rt, path)?;
        Ok(())
    }
}
