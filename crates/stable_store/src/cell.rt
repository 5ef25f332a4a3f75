//! One growing number on a device of two slots.

ghost use Rattle.std.specs.Prelude.{◌≡◌, ◌≢◌, ◌<◌, ◌≤◌, ◌+◌, ◌*◌, ◌⊎◌, ◌∷◌, [], List, ℕ, Option, Some, None, Ok, Err, length, take, drop, option_map, IfOk, IfSome, OnOk, OnErr, if◌then◌else◌};
ghost use Rattle.std.specs.Int.{w64, to_be_bytes};
ghost use Rattle.jp_types.specs.Faults.{HasCause, Rose};
ghost use Rattle.stable_store.specs.Disks.{overwritten, TornFrom, IsSettled, LeavesOnly};
ghost use Rattle.stable_store.specs.Slots.{open_in, shut_in, written_in, Between, number_of, with_number, greater_of, held, next_slot, saved, stored, Loads, Stands};

use crate::disk::Disk;
use jp_types::fault::Failed;
use std::marker::Model;

/// Why a number was not loaded or saved.
#[derive(Clone, Copy, Debug, PartialEq, Eq)]
pub enum CellFault {
    /// A call of the disk failed.
    Disk,
    /// The device has this many bytes, and not 18.
    Damaged(u64),
}

impl From<Failed> for CellFault {
    ghost use Rattle.stable_store.specs.declared.cell.CellFault.TheVariants as cell_fault;

    ghost from_gives = { λ _ e. e ≡ cell_fault.Disk };

    fn from(_error: Failed) -> CellFault {
        CellFault::Disk
    }
}

/// One growing number on a device of 18 bytes: two slots, each of eight bytes, the greatest first, and a gate byte behind
/// them, which is open where it is 0xA5. The number held is the greatest of an open slot.
#[derive(Debug, Drop)]
pub struct Cell {
    first: Option<u64>,
    second: Option<u64>,
}

impl Model for Cell {
    ghost use Rattle.stable_store.specs.Slots.{Slots};

    ghost Value = { Slots };

    ghost view = { λ cell. record { first = cell.first; second = cell.second } };
}

/// How many bytes the device has.
pub const LENGTH: u64 = 18;

/// A gate byte that is open. Any other is closed.
const OPEN: u8 = 0xA5;

/// The gate byte that closes one.
const CLOSED: u8 = 0;

/// Writes a piece, and syncs.
fn put<D: Disk>(disk: &mut D, at: u64, piece: &[u8]) -> Result<(), Failed>
    requires { at + length piece.now ≤ D.size disk.old }
    ensures seen { OnOk result (D.seen disk.new ≡ option_map (overwritten at piece.now) (D.seen disk.old)) }
    ensures settled { OnOk result (IsSettled (D.seen disk.new) (D.may_leave disk.new)) }
    ensures any_moment { LeavesOnly D.moment D.left_since disk.old disk.new (TornFrom at (length piece.now) (D.may_leave disk.old)) }
    ensures size { D.size disk.new ≡ D.size disk.old }
    ensures cause { HasCause (D.faults disk.old) (D.faults disk.new) result }
{
    disk.write_at(at, piece)?;
    disk.sync()
}

/// Closes a gate that is open, and syncs.
fn shut<D: Disk>(disk: &mut D, gate: u64, is_open: bool) -> Result<(), Failed>
    requires { gate + 1 ≤ D.size disk.old }
    ensures seen { OnOk result (D.seen disk.new ≡ option_map (shut_in is_open gate) (D.seen disk.old)) }
    ensures settled { OnOk result (IsSettled (D.seen disk.new) (D.may_leave disk.new)) }
    ensures any_moment { LeavesOnly D.moment D.left_since disk.old disk.new (TornFrom gate (if is_open then 1 else 0) (D.may_leave disk.old)) }
    ensures size { D.size disk.new ≡ D.size disk.old }
    ensures cause { HasCause (D.faults disk.old) (D.faults disk.new) result }
{
    if is_open {
        put(disk, gate, &[CLOSED])
    } else {
        disk.sync()
    }
}

/// Saves a number in a slot, whose open number is given where it has one: closes its gate, writes the number and opens
/// the gate. Each part is on the device before the next begins, so a gate is never open over a number that is half written.
fn write_slot<D: Disk>(
    disk: &mut D,
    slot: u64,
    kept: Option<u64>,
    number: u64,
) -> Result<(), Failed>
    requires slot { slot ≤ 1 }
    requires size { D.size disk.old ≡ 18 }
    requires settled { IsSettled (D.seen disk.old) (D.may_leave disk.old) }
    requires kept { (bytes : List ℕ) → D.seen disk.old ≡ Some bytes → open_in slot bytes ≡ kept }
    ensures seen { OnOk result (D.seen disk.new ≡ option_map (written_in slot kept number) (D.seen disk.old)) }
    ensures settled { OnOk result (IsSettled (D.seen disk.new) (D.may_leave disk.new)) }
    ensures any_moment { LeavesOnly D.moment D.left_since disk.old disk.new (Between slot number (D.seen disk.old)) }
    ensures size { D.size disk.new ≡ D.size disk.old }
    ensures cause { HasCause (D.faults disk.old) (D.faults disk.new) result }
{
    let at = 9 * slot;
    let bytes = number.to_be_bytes();
    shut(disk, at + 8, kept.is_some())?;
    put(disk, at, &bytes)?;
    put(disk, at + 8, &[OPEN])
}

/// The number of a slot, where its gate is open.
#[tactic(auto, unfolding(crate::specs::Slots::number_in, crate::specs::Slots::gate_in))]
fn open_number(image: &[u8; 18], slot: usize) -> Option<u64>
    requires { slot ≤ 1 }
    ensures { result ≡ open_in slot image.now }
{
    let at = 9 * slot;
    if image[at + 8] != OPEN {
        return None;
    }
    let mut bytes = [0u8; 8];
    bytes.copy_from_slice(&image[at..at + 8]);
    Some(u64::from_be_bytes(bytes))
}

/// The greater of two numbers, where there are any.
fn greater_of(first: Option<u64>, second: Option<u64>) -> Option<u64>
    ensures { result ≡ greater_of first second }
{
    match (first, second) {
        (Some(a), Some(b)) => Some(a.max(b)),
        (None, other) => other,
        (other, None) => other,
    }
}

/// Fills the image from the device, after a sync.
fn read_settled<D: Disk>(disk: &mut D, image: &mut [u8; 18]) -> Result<(), CellFault>
    ensures read { OnOk result ((bytes : List ℕ) → D.seen disk.old ≡ Some bytes → image.new ≡ bytes) }
    ensures settled { OnOk result (IsSettled (D.seen disk.new) (D.may_leave disk.new)) }
    ensures whole { OnOk result (D.size disk.old ≡ 18) }
    ensures damaged { (count : ℕ) → result ≡ Err (CellFault.Damaged count) → (count ≡ D.size disk.old) × (D.size disk.old ≢ 18) }
    ensures fault { result ≡ Err CellFault.Disk → Rose (D.faults disk.old) (D.faults disk.new) }
    ensures later { D.faults disk.old ≤ D.faults disk.new }
    ensures any_moment { LeavesOnly D.moment D.left_since disk.old disk.new (D.may_leave disk.old) }
    ensures seen { D.seen disk.new ≡ D.seen disk.old }
    ensures size { D.size disk.new ≡ D.size disk.old }
{
    disk.sync()?;
    let length = disk.length()?;
    if length != LENGTH {
        return Err(CellFault::Damaged(length));
    }
    disk.read(0, image)?;
    Ok(())
}

impl Cell {
    /// Loads the number that a device holds: the greatest number of an open slot, or none where no slot is open.
    pub fn load<D: Disk>(disk: &mut D) -> Result<(Cell, Option<u64>), CellFault>
        ensures held { IfOk result (λ made. made.1 ≡ held made.0) }
        ensures read { IfOk result (λ made. (bytes : List ℕ) → D.seen disk.old ≡ Some bytes → Loads bytes made.1) }
        ensures loads { IfOk result (λ made. (image : List ℕ) → D.may_leave disk.new image → Loads image made.1) }
        ensures stands { IfOk result (λ made. Stands made.0 (D.size disk.new) (D.seen disk.new) (D.may_leave disk.new)) }

        // At each moment of the call an image that a crash may leave is one that it might have left as the call began.
        ensures any_moment { LeavesOnly D.moment D.left_since disk.old disk.new (D.may_leave disk.old) }

        // Where no call of the disk failed, Damaged comes exactly where the length is not 18.
        ensures whole { OnOk result (D.size disk.old ≡ 18) }
        ensures damaged { (count : ℕ) → result ≡ Err (CellFault.Damaged count) → (count ≡ D.size disk.old) × (D.size disk.old ≢ 18) }
        ensures fault { result ≡ Err CellFault.Disk → Rose (D.faults disk.old) (D.faults disk.new) }
        ensures later { D.faults disk.old ≤ D.faults disk.new }
        ensures seen { D.seen disk.new ≡ D.seen disk.old }
        ensures size { D.size disk.new ≡ D.size disk.old }
    {
        let mut image = [0u8; 18];
        read_settled(disk, &mut image)?;
        let cell = Cell {
            first: open_number(&image, 0),
            second: open_number(&image, 1),
        };
        let held = greater_of(cell.first, cell.second);
        Ok((cell, held))
    }

    /// Which slot the next save takes.
    fn next_slot(&self) -> u64
        ensures { result ≡ next_slot self.now }
    {
        match (self.first, self.second) {
            (None, _) => 0,
            (_, None) => 1,
            (Some(a), Some(b)) => u64::from(a > b),
        }
    }

    fn number_of(&self, slot: u64) -> Option<u64>
        ensures { result ≡ number_of slot self.now }
    {
        if slot == 0 { self.first } else { self.second }
    }

    fn put_number(&mut self, slot: u64, number: u64)
        ensures { self.new ≡ with_number slot number self.old }
    {
        if slot == 0 {
            self.first = Some(number);
        } else {
            self.second = Some(number);
        }
    }

    /// Saves a number above the one held. A stop at any moment leaves the number held before, or this one. After a failure
    /// the cell has to be loaded again.
    pub fn save<D: Disk>(&mut self, disk: &mut D, x: u64) -> Result<(), CellFault>
        requires above { IfSome (held self.old) (λ kept. kept < x) }
        requires stands { Stands self.old (D.size disk.old) (D.seen disk.old) (D.may_leave disk.old) }
        ensures slots { OnOk result (self.new ≡ saved x self.old) }
        ensures held { OnOk result (held self.new ≡ Some x) }
        ensures err { OnErr result (self.new ≡ self.old) }

        // At each moment of the call each image that a crash may leave loads the number held before, or this one.
        ensures any_moment { LeavesOnly D.moment D.left_since disk.old disk.new (λ image. Loads image (held self.old) ⊎ Loads image (Some x)) }
        ensures loads { OnOk result ((image : List ℕ) → D.may_leave disk.new image → Loads image (Some x)) }
        ensures bytes { OnOk result (D.seen disk.new ≡ option_map (stored x self.old) (D.seen disk.old)) }
        ensures stands { OnOk result (Stands self.new (D.size disk.new) (D.seen disk.new) (D.may_leave disk.new)) }
        ensures fault { OnErr result (result ≡ Err CellFault.Disk) }
        ensures cause { HasCause (D.faults disk.old) (D.faults disk.new) result }
        ensures size { D.size disk.new ≡ D.size disk.old }
    {
        let slot = self.next_slot();
        write_slot(disk, slot, self.number_of(slot), x)?;
        self.put_number(slot, x);
        Ok(())
    }
}

#[cfg(test)]
mod tests {
    use super::*;
    use crate::failing::FailingDisk;
    use crate::memory::MemoryDisk;
    use std::alloc::Global;
    use std::test::Fail;

    /// The device whose first slot holds 5, and whose second is closed.
    const FIVE: [u8; 18] = [0, 0, 0, 0, 0, 0, 0, 5, OPEN, 0, 0, 0, 0, 0, 0, 0, 0, 0];

    /// The device whose slots hold 5 and 9.
    const FIVE_NINE: [u8; 18] = [0, 0, 0, 0, 0, 0, 0, 5, OPEN, 0, 0, 0, 0, 0, 0, 0, 9, OPEN];

    /// Loads, and saves a number that is above what was held. Gives what was held.
    fn raise<D: Disk>(disk: &mut D, x: u64) -> Result<Option<u64>, CellFault> {
        let (mut cell, held) = Cell::load(disk)?;
        if held.is_none_or(|kept| kept < x) {
            cell.save(disk, x)?;
        }
        Ok(held)
    }

    /// What a device of these bytes holds.
    fn loaded(bytes: Vec<u8>) -> Result<Option<u64>, CellFault> {
        Ok(Cell::load(&mut MemoryDisk::new(bytes))?.1)
    }

    fn failing(
        alloc: Global,
        start: &[u8],
        calls: &[u64],
        stop: u64,
    ) -> Result<FailingDisk, jp_types::memory::NoMemory> {
        FailingDisk::new(start.to_vec(alloc)?, calls.to_vec(alloc)?, stop)
    }

    #[test]
    fn slots_take_turns(rt: HostRuntime) -> Result<(), Fail> {
        let mut disk = MemoryDisk::new([0; 18].to_vec(rt.alloc())?);
        for (x, held) in [(5, None), (9, Some(5)), (12, Some(9)), (12, Some(12))] {
            assert_eq!(rt; raise(&mut disk, x), Ok(held), "raised to {x}");
        }
        let mut bytes = FIVE_NINE;
        bytes[7] = 12;
        assert_eq!(rt; disk.bytes(), bytes.as_slice());
        assert_eq!(rt;
            loaded([0; 17].to_vec(rt.alloc())?),
            Err(CellFault::Damaged(17))
        );
        Ok(())
    }

    /// The calls are 3 of the load, then a write and a sync for each of the three parts of the save.
    #[test]
    fn a_stop_leaves_the_old_number_or_the_new_one(rt: HostRuntime) -> Result<(), Fail> {
        for (stop, shut, open) in [
            (0, 9, 9),
            (1, 9, 9),
            (2, 9, 9),
            (3, 9, 9),
            (4, 9, 9),
            (5, 9, 9),
            (6, 9, 9),
            (7, 9, 12),
            (8, 9, 12),
            (9, 12, 12),
        ] {
            for (fill, held) in [(0, shut), (0xFF, shut), (OPEN, open)] {
                let mut disk = failing(rt.alloc(), &FIVE_NINE, &[], stop)?;
                let raised = raise(&mut disk, 12);
                assert_eq!(rt; raised.is_err(), stop < 9, "stop at {stop}");
                assert_eq!(rt;
                    loaded(disk.crash(fill)),
                    Ok(Some(held)),
                    "stop at {stop}, {fill}"
                );
            }
        }
        Ok(())
    }

    /// The gate of the slot is closed, which takes a sync alone, so the calls are one fewer.
    #[test]
    fn a_stop_at_a_closed_slot_leaves_the_old_number_or_the_new_one(
        rt: HostRuntime,
    ) -> Result<(), Fail> {
        for (start, before) in [([0; 18], None), (FIVE, Some(5))] {
            for stop in 0..=8u64 {
                for fill in [0, 0xFF, OPEN] {
                    let mut disk = failing(rt.alloc(), &start, &[], stop)?;
                    assert_eq!(rt; raise(&mut disk, 12).is_err(), stop < 8, "stop at {stop}");
                    let is_new = stop == 8 || fill == OPEN && stop >= 6;
                    let held = if is_new { Some(12) } else { before };
                    assert_eq!(rt;
                        loaded(disk.crash(fill)),
                        Ok(held),
                        "stop at {stop}, {fill}"
                    );
                }
            }
        }
        Ok(())
    }

    #[test]
    fn a_failure_is_followed_by_a_load(rt: HostRuntime) -> Result<(), Fail> {
        for call in 0..9u64 {
            let mut disk = failing(rt.alloc(), &FIVE_NINE, &[call], u64::MAX)?;
            assert_eq!(rt;
                raise(&mut disk, 12),
                Err(CellFault::Disk),
                "failure at {call}"
            );
            let held = if call < 8 { 9 } else { 12 };
            assert_eq!(rt; raise(&mut disk, 13), Ok(Some(held)), "after {call}");
            assert_eq!(rt; loaded(disk.crash(0)), Ok(Some(13)), "at the end of {call}");
        }
        Ok(())
    }
}
