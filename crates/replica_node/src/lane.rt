//! The lanes between the stages.

ghost use Rattle.std.specs.Prelude.{◌≡◌, [], ◌≤◌, drop, length, not, IfOk};
ghost use Rattle.std.specs.List.{slice_get};
ghost use Rattle.std.specs.Option.{option_copied};
ghost use Rattle.replica_node.specs.Lane.{is_full, with_item};

use circular_buffer::HeapCircularBuffer;
use jp_types::memory::NoMemory;
use std::alloc::Global;
use std::marker::Model;

/// How many items a lane holds at most.
pub const PLACES: usize = 64;

/// A lane, seen as the list of its items, the front one first.
#[derive(Drop)]
pub struct Lane<T> {
    ring: HeapCircularBuffer<T>,
}

impl<T> Model for Lane<T> {
    ghost use Rattle.std.specs.Prelude.{◌≡◌, ◌≤◌, List, length};

    ghost Value = { List T };

    ghost view = { λ l. l.ring.items };

    ghost invariant = { λ l. (l.ring.capacity ≡ 64) × (length l.ring.items ≤ 64) };
}

impl<T> Lane<T> {
    pub fn new(alloc: Global) -> Result<Lane<T>, NoMemory>
        ensures { IfOk result (λ made. made ≡ []) }
    {
        Ok(Lane {
            ring: HeapCircularBuffer::with_capacity(alloc, PLACES)?,
        })
    }

    pub fn allocator(&self) -> &Global {
        self.ring.allocator()
    }

    pub fn len(&self) -> usize
        ensures len { result ≡ length self.now }
        ensures within { result ≤ 64 }
    {
        self.ring.len()
    }

    pub fn is_full(&self) -> bool
        ensures { result ≡ is_full self.now }
    {
        self.len() >= PLACES
    }

    pub fn front(&self) -> Option<&T>
        ensures { option_copied result ≡ slice_get self.now 0 }
    {
        self.ring.front()
    }

    pub fn take(&mut self) -> Option<T>
        ensures front { result ≡ slice_get self.old 0 }
        ensures rest { self.new ≡ drop 1 self.old }
    {
        self.ring.pop_front()
    }
}

impl<T: Drop> Lane<T> {
    /// Puts the item at the back. It is refused, and dropped, exactly where the lane is full.
    pub fn put(&mut self, item: T) -> bool
        ensures value { result ≡ not (is_full self.old) }
        ensures after { self.new ≡ with_item self.old item }
    {
        match self.ring.try_push_back(item) {
            Ok(()) => true,
            Err(_) => false,
        }
    }
}
