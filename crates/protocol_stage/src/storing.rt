//! Saving the number that the acts of a life tell to save.

ghost use Rattle.std.specs.Prelude.{◌≡◌, List, ℕ, Err, OnOk, OnErr, Some};
ghost use Rattle.jp_types.specs.Faults.{HasCause};
ghost use Rattle.stable_store.specs.Disks.{LeavesOnly};
ghost use Rattle.stable_store.specs.Slots.{Loads, Stands, held};
ghost use Rattle.protocol_stage.specs.Performing.{LoadsOneOf, is_above, raised_number, stored_after, stored_by};

use protocol_core::act::Act;
use stable_store::cell::{Cell, CellFault};
use stable_store::disk::Disk;

// The number on the disk, where it held this one, if any, and one is to be saved.
fn raised_number(stored: Option<u64>, saved: u64) -> u64
    ensures { result ≡ raised_number stored saved }
{
    match stored {
        Some(number) => number.max(saved),
        None => saved,
    }
}

// The number on the disk after an act.
fn stored_by(stored: Option<u64>, act: &Act) -> Option<u64>
    ensures { result ≡ stored_by stored act.now }
{
    match act {
        Act::Save(saved) => Some(raised_number(stored, *saved)),
        _ => stored,
    }
}

// The number on the disk after these acts.
fn stored_after(stored: Option<u64>, acts: &[Act]) -> Option<u64>
    ensures { result ≡ stored_after stored acts.now }
{
    let mut number = stored;
    for act in acts {
        number = stored_by(number, act);
    }
    number
}

fn is_above(stored: Option<u64>, number: u64) -> bool
    ensures { result ≡ is_above stored number }
{
    match stored {
        Some(stored) => stored < number,
        None => true,
    }
}

// Saves a number, where it is above the one that the disk holds.
fn save_above<D: Disk>(
    cell: &mut Cell,
    disk: &mut D,
    stored: Option<u64>,
    number: u64,
) -> Result<(), CellFault>
    requires held { held cell.old ≡ stored }
    requires stands { Stands cell.old (D.size disk.old) (D.seen disk.old) (D.may_leave disk.old) }
    ensures held { OnOk result (held cell.new ≡ Some (raised_number stored number)) }
    ensures stands { OnOk result (Stands cell.new (D.size disk.new) (D.seen disk.new) (D.may_leave disk.new)) }
    ensures loads { OnOk result ((image : List ℕ) → D.may_leave disk.new image → Loads image (Some (raised_number stored number))) }
    ensures any_moment { LeavesOnly D.moment D.left_since disk.old disk.new (LoadsOneOf stored (Some (raised_number stored number))) }
    ensures untouched { stored ≡ Some (raised_number stored number) → disk.new ≡ disk.old }
    ensures fault { OnErr result (result ≡ Err CellFault.Disk) }
    ensures cause { HasCause (D.faults disk.old) (D.faults disk.new) result }
    ensures size { D.size disk.new ≡ D.size disk.old }
{
    if !is_above(stored, number) {
        return Ok(());
    }
    cell.save(disk, number)
}

/// Saves what these acts tell to save, before any of them takes effect.
pub fn save_for<D: Disk>(
    cell: &mut Cell,
    disk: &mut D,
    stored: Option<u64>,
    acts: &[Act],
) -> Result<(), CellFault>
    requires held { held cell.old ≡ stored }
    requires stands { Stands cell.old (D.size disk.old) (D.seen disk.old) (D.may_leave disk.old) }
    ensures held { OnOk result (held cell.new ≡ stored_after stored acts.now) }
    ensures stands { OnOk result (Stands cell.new (D.size disk.new) (D.seen disk.new) (D.may_leave disk.new)) }
    ensures loads { OnOk result ((image : List ℕ) → D.may_leave disk.new image → Loads image (stored_after stored acts.now)) }
    ensures any_moment { LeavesOnly D.moment D.left_since disk.old disk.new (LoadsOneOf stored (stored_after stored acts.now)) }
    ensures untouched { stored ≡ stored_after stored acts.now → disk.new ≡ disk.old }
    ensures fault { OnErr result (result ≡ Err CellFault.Disk) }
    ensures cause { HasCause (D.faults disk.old) (D.faults disk.new) result }
    ensures size { D.size disk.new ≡ D.size disk.old }
{
    match stored_after(stored, acts) {
        Some(number) => save_above(cell, disk, stored, number),
        None => Ok(()),
    }
}
