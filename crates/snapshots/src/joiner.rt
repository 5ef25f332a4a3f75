//! Parts that came, joined to the whole.

ghost use Rattle.std.specs.Prelude.{◌≡◌, ◌≢◌, ◌+◌, ◌≤◌, true, false, length, nat_eq, flat_map, IfErr, IfOk, OnErr, OnOk};
ghost use Rattle.std.specs.List.{common_prefix_len};
ghost use Rattle.std.specs.Option.{option_copied};
ghost use Rattle.std.specs.Ordering.{nat_cmp};
ghost use Rattle.kv_service.specs.Entries;
ghost use Rattle.kv_service.specs.Parts.{takes_part, with_part};
ghost use Rattle.snapshots.specs.declared.joiner.PartFault.TheVariants as fault;
ghost use Rattle.snapshots.specs.Joining.{HoldsCuts, empty_joiner, first_difference, is_cut, part_fault, whole_of};

use crate::cut::{PART_SIZE, part_count};
use jp_types::memory::{Duplicate, NoMemory};
use jp_types::message::{Instance, SnapshotPart};
use jp_types::octets::Octets;
use std::alloc::Global;
use std::collections::BTreeMap;
use std::marker::Model;

/// Why a part was refused. The causes are looked for in this order, and the first one met is told.
#[derive(Clone, Copy, Debug, PartialEq, Eq)]
pub enum PartFault {
    /// The joiner's total, and the part's, which is another one.
    WrongTotal(u32, u32),
    /// The part's offset. It does not begin or end where the whole is cut.
    BadCut(u32),
    /// The place in the whole of the first byte that differs from the part held at the same offset.
    Differs(u32),
    NoMemory,
}

impl From<NoMemory> for PartFault {
    ghost from_gives = { λ _ f. f ≡ fault.NoMemory };

    fn from(_error: NoMemory) -> PartFault {
        PartFault::NoMemory
    }
}

/// The parts held of the bytes of one state, in the order of their offsets, until all are there.
#[derive(Drop)]
pub struct Joiner {
    alloc: Global,
    upto: Instance,
    total: u32,
    parts: BTreeMap<u32, Octets>,
}

impl Model for Joiner {
    ghost use Rattle.std.specs.Prelude.{ℕ, List, refl};
    ghost use Rattle.std.specs.Coded.{code_by, coded×, coded_ℕ, coded_list};
    ghost use Rattle.kv_service.specs.Parts.{Joiner as Parts};
    ghost use Rattle.snapshots.specs.Joining.{HoldsCuts};

    ghost Value = { Parts };

    ghost coded = { code_by (ℕ × (ℕ × List (ℕ × List ℕ))) (coded× coded_ℕ (coded× coded_ℕ (coded_list (coded× coded_ℕ (coded_list coded_ℕ))))) (λ j. (j.upto, (j.total, j.parts))) (λ p. record { upto = p.0; total = p.1.0; parts = p.1.1 }) (λ _. refl) };

    ghost view = { λ j. record { upto = j.upto; total = j.total; parts = j.parts.entries } };

    ghost invariant = { λ j. HoldsCuts j.total j.parts.entries };
}

impl Joiner {
    /// A joiner that holds no part. It takes memory for the parts alone, as they come, whatever total it is told; so nothing
    /// is wanting yet.
    pub fn new(alloc: Global, upto: Instance, total: u32) -> Result<Joiner, NoMemory>
        ensures { result ≡ Ok (empty_joiner upto total) }
    {
        Ok(Joiner {
            alloc,
            upto,
            total,
            parts: BTreeMap::new(alloc),
        })
    }

    /// All instances below it are in the state.
    pub fn upto(&self) -> Instance
        ensures { result ≡ self.now.upto }
    {
        self.upto
    }

    /// How many bytes the whole state has. The parts held are some of those that so many bytes are cut into.
    pub fn total(&self) -> u32
        ensures total { result ≡ self.now.total }
        ensures cuts { HoldsCuts self.now.total self.now.parts }
    {
        self.total
    }

    /// Takes a part of the state, and gives the whole bytes where all parts are held then. A part that is held may come
    /// again, and is answered in the same way. After a refusal, for want of memory too, the joiner is as before.
    pub fn put(&mut self, part: &SnapshotPart) -> Result<Option<Octets>, PartFault>
        requires { part.now.upto ≡ self.old.upto }
        ensures refused { (f : PartFault) → part_fault self.old part.now ≡ Some f → result ≡ Err f }
        ensures memory { part_fault self.old part.now ≡ None → IfErr result (λ f. f ≡ fault.NoMemory) }
        ensures passed { IfErr result (λ f. f ≢ fault.NoMemory → takes_part self.old part.now ≡ false) }
        ensures taken { OnOk result (takes_part self.old part.now ≡ true) }
        ensures whole { IfOk result (λ whole. whole ≡ whole_of (with_part self.old part.now)) }
        ensures ok { OnOk result (self.new ≡ with_part self.old part.now) }
        ensures err { OnErr result (self.new ≡ self.old) }
    {
        self.check(part)?;
        if self.parts.contains_key(&part.at) {
            Ok(self.whole()?)
        } else {
            Ok(self.add(part)?)
        }
    }

    // Refuses a part, or finds it to be one that the joiner takes.
    #[tactic(auto, using(crate::proofs::Refusing::not_taken, crate::proofs::Refusing::is_taken))]
    fn check(&self, part: &SnapshotPart) -> Result<(), PartFault>
        ensures refused { IfErr result (λ f. part_fault self.now part.now ≡ Some f) }
        ensures faultless { OnOk result (part_fault self.now part.now ≡ None) }
        ensures passed { OnErr result (takes_part self.now part.now ≡ false) }
        ensures taken { OnOk result (takes_part self.now part.now ≡ true) }
    {
        if part.total != self.total {
            return Err(PartFault::WrongTotal(self.total, part.total));
        }
        if !is_cut(self.total, part.at, part.bytes.bytes().len()) {
            return Err(PartFault::BadCut(part.at));
        }
        match first_difference(self.parts.get(&part.at), part) {
            Some(at) => Err(PartFault::Differs(at)),
            None => Ok(()),
        }
    }

    // Takes a part at an offset where none is held. Where memory is wanting for the whole, it goes out again.
    fn add(&mut self, part: &SnapshotPart) -> Result<Option<Octets>, NoMemory>
        requires cut { is_cut self.old.total part.now.at (length part.now.bytes) ≡ true }
        requires missing { Entries.get nat_cmp self.old.parts part.now.at ≡ None }
        ensures whole { IfOk result (λ whole. whole ≡ whole_of (with_part self.old part.now)) }
        ensures ok { OnOk result (self.new ≡ with_part self.old part.now) }
        ensures err { OnErr result (self.new ≡ self.old) }
    {
        self.parts.insert(part.at, part.bytes.copy()?)?;
        match self.whole() {
            Ok(whole) => Ok(whole),
            Err(error) => {
                self.parts.remove(&part.at);
                Err(error)
            }
        }
    }

    // The whole bytes, where all parts are held.
    fn whole(&self) -> Result<Option<Octets>, NoMemory>
        ensures { IfOk result (λ whole. whole ≡ whole_of self.now) }
    {
        if self.parts.len() == part_count(self.total as usize) {
            Ok(Some(joined(self.alloc, self.total, &self.parts)?))
        } else {
            Ok(None)
        }
    }
}

// Whether so many bytes at an offset are one of the parts of this total.
fn is_cut(total: u32, at: u32, count: usize) -> bool
    ensures { result ≡ is_cut total at count }
{
    let size = PART_SIZE as u32;
    at % size == 0 && at < total && count == size.min(total - at) as usize
}

// The place in the whole of the first byte that differs. The part ends within the whole, so that the place is one of it.
fn first_difference(held: Option<&Octets>, part: &SnapshotPart) -> Option<u32>
    requires { part.now.at + length part.now.bytes ≤ u32.MAX }
    ensures { result ≡ first_difference (option_copied held.entry) part.now }
{
    let held = held?.bytes();
    let bytes = part.bytes.bytes();
    if held == bytes {
        None
    } else {
        Some(part.at + common_prefix(held, bytes) as u32)
    }
}

// How many bytes are the same from the front on.
fn common_prefix(held: &[u8], bytes: &[u8]) -> usize
    ensures same { result ≡ common_prefix_len nat_eq held.now bytes.now }
    ensures within { result ≤ length bytes.now }
{
    let most = held.len().min(bytes.len());
    let mut same = 0;
    while same < most && held[same] == bytes[same] {
        same += 1;
    }
    same
}

// The bytes of all parts. There are as many as the total says, where all are held.
fn joined(alloc: Global, total: u32, parts: &BTreeMap<u32, Octets>) -> Result<Octets, NoMemory>
    ensures { IfOk result (λ whole. whole ≡ flat_map (λ part. part.1) parts.now.entries) }
{
    let mut whole = Vec::with_capacity(alloc, total as usize)?;
    for (_, part) in parts {
        whole.extend_from_slice(part.bytes())?;
    }
    Ok(Octets::from_vec(whole))
}

#[cfg(test)]
mod tests {
    use super::*;
    use crate::cut::parts;
    use crate::cut::tests::piece;
    use std::test::Fail;

    // What a joiner tells of so many of the bytes from a place on, with the length of the whole. The byte at `other` among
    // them is another one, where there is such a byte.
    fn put(
        alloc: Global,
        joiner: &mut Joiner,
        total: u32,
        at: u32,
        count: usize,
        other: usize,
    ) -> Result<Result<Option<usize>, PartFault>, NoMemory> {
        let mut bytes = piece(alloc, at as usize, count)?;
        if let Some(byte) = bytes.get_mut(other) {
            *byte = 255;
        }
        let part = SnapshotPart {
            upto: joiner.upto(),
            total,
            at,
            bytes: Octets::from_vec(bytes),
        };
        match joiner.put(&part) {
            Ok(Some(whole)) => Ok(Ok(Some(whole.bytes().len()))),
            Ok(None) => Ok(Ok(None)),
            Err(fault) => Ok(Err(fault)),
        }
    }

    #[test]
    fn parts_are_put(rt: HostRuntime) -> Result<(), Fail> {
        let mut joiner = Joiner::new(rt.alloc(), 512, 70_000)?;
        let differs = Err(PartFault::Differs(65_543));
        let wrong_total = Err(PartFault::WrongTotal(70_000, 70_001));
        let lines = [
            (70_000, 65_536, 4_464, 70_000, Ok(None)),
            (70_000, 65_536, 4_464, 70_000, Ok(None)),
            (70_000, 65_536, 4_464, 7, differs),
            (70_001, 65_536, 4_464, 7, wrong_total),
            (70_001, 100, 1, 70_000, wrong_total),
            (70_000, 100, 65_536, 70_000, Err(PartFault::BadCut(100))),
            (70_000, 65_536, 4_463, 7, Err(PartFault::BadCut(65_536))),
            (70_000, 131_072, 0, 70_000, Err(PartFault::BadCut(131_072))),
            (70_000, 0, 65_536, 70_000, Ok(Some(70_000))),
            (70_000, 0, 65_536, 70_000, Ok(Some(70_000))),
            (70_000, 65_536, 4_464, 7, differs),
        ];
        for (total, at, count, other, told) in lines {
            assert_eq!(rt;
                put(rt.alloc(), &mut joiner, total, at, count, other)?,
                told,
                "{at}"
            );
        }
        Ok(())
    }

    // Puts the parts from the last to the first, and gives the whole.
    fn joined_backwards(
        joiner: &mut Joiner,
        made: &[SnapshotPart],
    ) -> Result<Option<Octets>, PartFault> {
        let mut whole = None;
        for part in made.iter().rev() {
            if part.upto == joiner.upto() {
                whole = joiner.put(part)?;
            }
        }
        Ok(whole)
    }

    #[test]
    fn the_whole_is_given(rt: HostRuntime) -> Result<(), Fail> {
        let bytes = piece(rt.alloc(), 0, 80_133)?;
        let made = parts(rt.alloc(), 512, &bytes)?;
        let mut joiner = Joiner::new(rt.alloc(), 512, 80_133)?;
        let whole = joined_backwards(&mut joiner, &made);
        assert!(rt; matches!(&whole, Ok(Some(whole)) if whole.bytes() == bytes.as_slice()));
        assert_eq!(rt; (joiner.upto(), joiner.total()), (512, 80_133));
        Ok(())
    }
}
