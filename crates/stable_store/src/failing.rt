//! A disk in memory that fails, and that a crash may leave in each state in which it may leave a real one.

ghost use Rattle.std.specs.Prelude.{◌≡◌, ◌⊎◌, ◌+◌, ◌∷◌, [], ◌≤◌, ◌↔◌, ◌++◌, List, ℕ, Option, Some, true, length, take, drop, min, reverse, option_map, IsErr, IsOk, IfOk, OnOk, OnErr, ◌-◌, ◌^◌};
ghost use Rattle.std.specs.List.{Contains};
ghost use Rattle.std.proofs.Common.{rules, inl};
ghost use Rattle.jp_types.specs.Faults.{HasCause, Rose};
ghost use Rattle.jp_types.specs.Streams.{counted_up};
ghost use Rattle.stable_store.specs.Disks.{overwritten, Tears, TornFrom, IsSettled, Elapses};
ghost use Rattle.stable_store.specs.Failing.{MayLeave, LeftSince, Fails, Called, only_present, read_may_stay, filled, filled_all, noted, settled};

use crate::disk::Disk;
use crate::memory::overwrite;
use jp_types::fault::Failed;
use jp_types::listed::Listed;
use jp_types::memory::{Duplicate, NoMemory};
use std::marker::Model;
use std::mem;

/// A disk at one moment.
#[derive(Debug, Drop)]
struct Medium {
    /// What a read gives.
    bytes: Vec<u8>,
    /// What a read gave as the last sync ended.
    synced: Vec<u8>,
    /// Where something was written since, and how many bytes.
    written: Vec<(usize, usize)>,
}

impl Model for Medium {
    ghost use Rattle.std.specs.Prelude.{reverse};
    ghost use Rattle.stable_store.specs.Failing.{Moment};

    ghost Value = { Moment };

    ghost view = { λ m. record { bytes = m.bytes.items; synced = m.synced.items; written = reverse m.written.items } };
}

impl Medium {
    fn new(bytes: Vec<u8>) -> Result<Medium, NoMemory>
        ensures { IfOk result (λ made. made ≡ record { bytes = bytes.items; synced = bytes.items; written = [] }) }
    {
        let alloc = *bytes.allocator();
        let synced = bytes.clone()?;
        Ok(Medium {
            bytes,
            synced,
            written: Vec::new(alloc),
        })
    }

    /// After a write of so many bytes began: they are not there yet, and may be torn.
    fn noted(&self, at: usize, count: usize) -> Result<Medium, NoMemory>
        ensures { IfOk result (λ made. made ≡ noted at count self.now) }
    {
        let mut next = self.copy()?;
        next.written.push((at, count))?;
        Ok(next)
    }
}

impl Duplicate for Medium {
    fn copy(&self) -> Result<Medium, NoMemory> {
        Ok(Medium {
            bytes: self.bytes.clone()?,
            synced: self.synced.clone()?,
            written: self.written.clone()?,
        })
    }
}

/// A disk in memory whose calls of some numbers fail, counted from 0, and where from the call of one number on each fails,
/// as where the power goes. A crash may leave any bytes where something was written since the last sync. It remembers each
/// moment, for which it takes memory: a refused growth is a failure too.
#[derive(Debug, Drop)]
pub struct FailingDisk {
    present: Medium,
    past: Listed<Medium>,
    failing: Vec<u64>,
    stop: u64,
    calls: u64,
    faults: u64,
}

impl Model for FailingDisk {
    ghost use Rattle.stable_store.specs.Failing.{Failing};

    ghost Value = { Failing };

    ghost view = { λ d. record { present = d.present; past = d.past; failing = d.failing.items; stop = d.stop; calls = d.calls; faults = d.faults } };
}

/// Puts a byte wherever this range reaches.
fn tear(bytes: &mut Vec<u8>, at: usize, count: usize, fill: u8)
    ensures { bytes.new.items ≡ filled at count fill bytes.old.items }
{
    let from = at.min(bytes.len());
    let reach = count.min(bytes.len() - from);
    bytes[from..from + reach].fill(fill);
}

/// The same in each range, in order.
fn tear_all(bytes: &mut Vec<u8>, ranges: &[(usize, usize)], fill: u8)
    ensures { bytes.new.items ≡ filled_all fill (reverse ranges.now) bytes.old.items }
{
    for (at, count) in ranges {
        tear(bytes, *at, *count, fill);
    }
}

impl FailingDisk {
    /// A device of these bytes, all of them synced. With 2^64 - 1 for the stop there is none.
    pub fn new(bytes: Vec<u8>, failing: Vec<u64>, stop: u64) -> Result<FailingDisk, NoMemory>
        ensures { IfOk result (λ made. made ≡ record { present = record { bytes = bytes.items; synced = bytes.items; written = [] }; past = []; failing = failing.items; stop = stop; calls = 0; faults = 0 }) }
    {
        let past = Listed::empty(*bytes.allocator());
        Ok(FailingDisk {
            present: Medium::new(bytes)?,
            past,
            failing,
            stop,
            calls: 0,
            faults: 0,
        })
    }

    /// What a read gives.
    pub fn bytes(&self) -> &[u8]
        ensures { result.now ≡ self.now.present.bytes }
    {
        &self.present.bytes
    }

    /// The bytes that a crash may leave, where each byte that was written since the last sync has become this one.
    #[tactic(auto, using(crate::proofs::FillLemmas::filled_may_stay))]
    pub fn crash(self, fill: u8) -> Vec<u8>
        ensures image { result.items ≡ filled_all fill self.present.written self.present.synced }
        ensures allowed { MayLeave self.present result.items }
    {
        let Medium {
            synced: mut image,
            written,
            ..
        } = self.present;
        tear_all(&mut image, &written, fill);
        image
    }

    /// Counts a failure.
    fn failed(&mut self) -> Failed
        ensures counted { self.new ≡ record self.old { faults = counted_up self.old.faults } }
        ensures rose { Rose self.old.faults self.new.faults }
        ensures later { self.old.faults ≤ self.new.faults }
    {
        self.faults = self.faults.saturating_add(1);
        Failed
    }

    /// Counts a call, which may be one that fails.
    fn call(&mut self) -> Result<(), Failed>
        ensures fails { IsErr result ↔ Fails self.old }
        ensures ok { OnOk result (self.new ≡ record self.old { calls = counted_up self.old.calls }) }
        ensures err { OnErr result (self.new ≡ record self.old { calls = counted_up self.old.calls; faults = counted_up self.old.faults }) }
        ensures cause { HasCause self.old.faults self.new.faults result }
    {
        let call = self.calls;
        self.calls = self.calls.saturating_add(1);
        if call >= self.stop || self.failing.contains(&call) {
            return Err(self.failed());
        }
        Ok(())
    }

    /// Goes on to the next moment.
    fn go_on(&mut self, next: Medium) -> Result<(), NoMemory>
        ensures ok { OnOk result (self.new ≡ record self.old { present = next; past = self.old.past ++ self.old.present ∷ [] }) }
        ensures err { OnErr result (self.new ≡ self.old) }
    {
        self.past.push(self.present.copy()?)?;
        self.present = next;
        Ok(())
    }

    /// Notes that something is written, which may be torn from then on.
    fn begin_write(&mut self, at: usize, count: usize) -> Result<(), NoMemory>
        ensures ok { OnOk result (self.new ≡ record self.old { present = noted at count self.old.present; past = self.old.past ++ self.old.present ∷ [] }) }
        ensures err { OnErr result (self.new ≡ self.old) }
    {
        let next = self.present.noted(at, count)?;
        self.go_on(next)
    }

    /// What is written is what a read gives.
    fn put(&mut self, at: usize, piece: &[u8])
        requires { at + length piece.now ≤ length self.old.present.bytes }
        ensures { self.new ≡ record self.old { present = record self.old.present { bytes = overwritten at piece.now self.old.present.bytes } } }
    {
        overwrite(&mut self.present.bytes, at, piece);
    }

    /// All that a read gives is there to stay.
    fn settle(&mut self) -> Result<(), NoMemory>
        ensures ok { OnOk result (self.new ≡ record self.old { present = settled self.old.present; past = self.old.past ++ self.old.present ∷ [] }) }
        ensures err { OnErr result (self.new ≡ self.old) }
    {
        let next = Medium::new(self.present.bytes.clone()?)?;
        self.go_on(next)
    }
}

impl Disk for FailingDisk {
    ghost size = { λ disk. length disk.present.bytes };

    ghost seen = { λ disk. Some disk.present.bytes };

    ghost may_leave = { λ disk. MayLeave disk.present };

    ghost moment = { λ disk. length disk.past };

    ghost left_since = { LeftSince };

    ghost remembers = { true };

    ghost faults = { λ disk. disk.faults };

    ghost whole = { λ disk bytes is. Prim.search rules };

    ghost seen_may_stay = { λ disk bytes is. read_may_stay disk.present bytes is };

    ghost counts_now = { λ disk t image le now. inl now };

    ghost only_now = { only_present };

    fn length(&mut self) -> Result<u64, Failed>
        ensures value { IfOk result (λ count. count ≡ length self.old.present.bytes) }
        ensures size { length self.new.present.bytes ≡ length self.old.present.bytes }
        ensures seen { Some self.new.present.bytes ≡ Some self.old.present.bytes }
        ensures images { (image : List ℕ) → MayLeave self.new.present image ↔ MayLeave self.old.present image }
        ensures time { Elapses true (length self.old.past) (length self.new.past) (LeftSince self.old) (LeftSince self.new) (MayLeave self.new.present) }
        ensures cause { HasCause self.old.faults self.new.faults result }
        ensures fails { IsErr result ↔ Fails self.old }
        ensures calls { Called self.old self.new }
    {
        self.call()?;
        Ok(self.present.bytes.len() as u64)
    }

    fn read(&mut self, at: u64, room: &mut [u8]) -> Result<(), Failed>
        requires { at + length room.old ≤ length self.old.present.bytes }
        ensures bytes { OnOk result ((bytes : List ℕ) → Some self.old.present.bytes ≡ Some bytes → room.new ≡ take (length room.old) (drop at bytes)) }
        ensures size { length self.new.present.bytes ≡ length self.old.present.bytes }
        ensures seen { Some self.new.present.bytes ≡ Some self.old.present.bytes }
        ensures images { (image : List ℕ) → MayLeave self.new.present image ↔ MayLeave self.old.present image }
        ensures time { Elapses true (length self.old.past) (length self.new.past) (LeftSince self.old) (LeftSince self.new) (MayLeave self.new.present) }
        ensures cause { HasCause self.old.faults self.new.faults result }
        ensures fails { IsErr result ↔ Fails self.old }
        ensures calls { Called self.old self.new }
    {
        self.call()?;
        let at = at as usize;
        room.copy_from_slice(&self.present.bytes[at..at + room.len()]);
        Ok(())
    }

    /// A call that fails has begun to write, and leaves what a read gives.
    fn write_at(&mut self, at: u64, piece: &[u8]) -> Result<(), Failed>
        requires { at + length piece.now ≤ length self.old.present.bytes }
        ensures written { OnOk result (Some self.new.present.bytes ≡ option_map (overwritten at piece.now) (Some self.old.present.bytes)) }
        ensures torn { OnErr result (Tears at (length piece.now) (Some self.old.present.bytes) (Some self.new.present.bytes)) }
        ensures size { length self.new.present.bytes ≡ length self.old.present.bytes }
        ensures images { (image : List ℕ) → MayLeave self.new.present image → TornFrom at (length piece.now) (MayLeave self.old.present) image }
        ensures time { Elapses true (length self.old.past) (length self.new.past) (LeftSince self.old) (LeftSince self.new) (MayLeave self.new.present) }
        ensures cause { HasCause self.old.faults self.new.faults result }
        ensures fails { Fails self.old → IsErr result }
        ensures calls { Called self.old self.new }
        ensures range { OnOk result (self.new.present.written ≡ (at, length piece.now) ∷ self.old.present.written) }

        // The range of a call that is to fail counts as written, but where memory is wanted, which is one failure more.
        ensures begun { Fails self.old → (self.new.present ≡ noted at (length piece.now) self.old.present) ⊎ (self.new.faults ≡ counted_up (counted_up self.old.faults)) }
        ensures synced { self.new.present.synced ≡ self.old.present.synced }
    {
        let called = self.call();
        if self.begin_write(at as usize, piece.len()).is_err() {
            return Err(self.failed());
        }
        called?;
        self.put(at as usize, piece);
        Ok(())
    }

    fn sync(&mut self) -> Result<(), Failed>
        ensures settled { OnOk result (IsSettled (Some self.new.present.bytes) (MayLeave self.new.present)) }
        ensures size { length self.new.present.bytes ≡ length self.old.present.bytes }
        ensures seen { Some self.new.present.bytes ≡ Some self.old.present.bytes }
        ensures fewer { (image : List ℕ) → MayLeave self.new.present image → MayLeave self.old.present image }
        ensures failed { OnErr result ((image : List ℕ) → MayLeave self.old.present image → MayLeave self.new.present image) }
        ensures time { Elapses true (length self.old.past) (length self.new.past) (LeftSince self.old) (LeftSince self.new) (MayLeave self.new.present) }
        ensures cause { HasCause self.old.faults self.new.faults result }
        ensures fails { Fails self.old → IsErr result }
        ensures calls { Called self.old self.new }
    {
        self.call()?;
        if self.settle().is_err() {
            return Err(self.failed());
        }
        Ok(())
    }
}
