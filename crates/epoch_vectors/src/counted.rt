//! The replies that are held, one of each replica, and which of them are counted.

ghost use Rattle.std.specs.Prelude.{◌≡◌, ◌<◌, ◌≤◌, ℕ, List, length, IfOk};
ghost use Rattle.std.specs.Option.{option_map};
ghost use Rattle.jp_types.specs.Views.{count_below};
ghost use Rattle.jp_types.specs.ReplicaSets.{is_member};
ghost use Rattle.jp_types.specs.Vectors.{merged, raised, IsCrashConsistent};
ghost use Rattle.epoch_vectors.specs.Replies.{Replies, Covers, no_replies, reply_of, with_reply, is_counted, counted_set, counted_vectors, pair_of};

use crate::vector::entry;
use jp_types::memory::NoMemory;
use jp_types::message::{ReplicaId, Vector};
use jp_types::replica_set::ReplicaSet;
use std::alloc::Global;
use std::marker::Model;

/// At most one reply of each replica, with the vector that came with it.
#[derive(Debug, Drop)]
pub struct Counted<T> {
    held: Vec<Option<(Vector, T)>>,
}

impl<T> Model for Counted<T> {
    ghost use Rattle.std.specs.Prelude.{ℕ, ◌≤◌, List, Option, length};

    ghost Value = { List (Option (List ℕ × T)) };

    ghost view = { λ c. c.held.items };

    ghost invariant = { λ c. length c.held.items ≤ 9 };
}

impl<T: Drop> Counted<T> {
    /// Holds no reply of any of n replicas. All its memory is taken here.
    pub fn new(alloc: Global, n: u8) -> Result<Counted<T>, NoMemory>
        requires { n ≤ 9 }
        ensures { IfOk result (λ counted. counted ≡ no_replies n) }
    {
        let mut held = Vec::with_capacity(alloc, n as usize)?;
        for _ in 0..n {
            held.push(None)?;
        }
        Ok(Counted { held })
    }

    /// Holds this reply of a replica from now on, and hands back the one that it replaces.
    pub fn put(&mut self, from: ReplicaId, vector: Vector, value: T) -> Option<T>
        requires { from < length self.old }
        ensures before { result ≡ option_map (λ reply. reply.1) (reply_of self.old from) }
        ensures after { self.new ≡ with_reply self.old from vector value }
    {
        match self.held[from as usize].replace((vector, value)) {
            Some((_, before)) => Some(before),
            None => None,
        }
    }
}

impl<T> Counted<T> {
    /// How many replicas there are.
    pub fn replicas(&self) -> u8
        ensures value { result ≡ length self.now }
        ensures most { result ≤ 9 }
    {
        self.held.len() as u8
    }

    /// The reply of a replica that is held.
    pub fn held(&self, replica: ReplicaId) -> Option<(&Vector, &T)>
        ensures { pair_of result ≡ reply_of self.now replica }
    {
        match self.held.get(replica as usize) {
            Some(Some(reply)) => {
                let vector = &reply.0;
                let value = &reply.1;
                Some((vector, value))
            }
            _ => None,
        }
    }

    // Whether the reply of a replica is counted.
    fn is_counted(&self, own: &Vector, replica: ReplicaId) -> bool
        requires { replica < 9 }
        ensures { result ≡ is_counted own.now self.now replica }
    {
        match self.held(replica) {
            Some((vector, _)) => entry(vector, replica) == entry(own, replica),
            None => false,
        }
    }

    /// The replicas whose reply is of the epoch that the own vector has for them. A reply of an ended life of a replica
    /// is not counted from when a later life of it is known.
    pub fn counted(&self, own: &Vector) -> ReplicaSet
        ensures set { result ≡ counted_set own.now self.now }
        ensures members { (p : ℕ) → is_member result p ≡ is_counted own.now self.now p }
        ensures count { count_below 9 (is_member result) ≡ count_below (length self.now) (is_counted own.now self.now) }
    {
        let n = self.replicas();
        let mut set = ReplicaSet::none();
        for replica in 0..n {
            if self.is_counted(own, replica) {
                set = set.with(replica);
            }
        }
        set
    }
}

impl<T: Drop> Counted<T> {
    /// Holds no reply again.
    pub fn clear(&mut self)
        ensures { self.new ≡ no_replies (length self.old) }
    {
        for replica in 0..self.held.len() {
            self.held[replica] = None;
        }
    }
}

/// Where the own vector is at least that of each held reply, no counted reply has a later epoch for a replica than the
/// counted reply of that replica itself. The own vector is so at the start, and stays so as long as the vector of each reply
/// that is put is merged into it.
pub fn counted_is_crash_consistent<T>()
    ensures consistent { (own : List ℕ) (replies : Replies T) → length replies ≤ 9 → Covers own replies → IsCrashConsistent (counted_vectors own replies) }
    ensures none { (own : List ℕ) (n : ℕ) → Covers {A = T} own (no_replies n) }
    ensures put { (own : List ℕ) (replies : Replies T) (from : ℕ) (vector : List ℕ) (value : T) → Covers own replies → Covers (merged own vector) (with_reply replies from vector value) }
    ensures grown { (own : List ℕ) (replies : Replies T) (vector : List ℕ) → Covers own replies → Covers (merged own vector) replies }
    ensures raised { (own : List ℕ) (replies : Replies T) (p epoch : ℕ) → Covers own replies → Covers (raised own p epoch) replies }
{}

#[cfg(test)]
mod tests {
    use super::*;
    use std::test::Fail;

    #[test]
    fn counts_replies_of_known_epochs(rt: HostRuntime) -> Result<(), Fail> {
        let mut counted = Counted::new(rt.alloc(), 4)?;
        let own = [1, 2, 0, 4, 0, 0, 0, 0, 0];
        // whose reply, the epoch and the value that come with it, the value that it replaces, which replies are counted
        let puts = [
            (0u8, 1u64, 'a', None, [true, false, false, false]),
            (1, 1, 'b', None, [true, false, false, false]),
            (1, 2, 'c', Some('b'), [true, true, false, false]),
            (2, 0, 'd', None, [true, true, true, false]),
            (0, 2, 'e', Some('a'), [false, true, true, false]),
            (3, 3, 'f', None, [false, true, true, false]),
        ];
        for (from, epoch, value, before, want) in puts {
            assert!(rt; from < counted.replicas());
            let mut vector = [0; 9];
            vector[from as usize] = epoch;
            assert_eq!(rt; counted.put(from, vector, value), before, "put {value}");
            assert_eq!(rt; counted.held(from), Some((&vector, &value)));
            let set = counted.counted(&own);
            for replica in 0..4u8 {
                assert_eq!(rt;
                    set.has(replica),
                    want[replica as usize],
                    "{replica} after {value}"
                );
            }
        }
        assert_eq!(rt; counted.held(4), None);
        counted.clear();
        assert_eq!(rt; counted.replicas(), 4);
        assert_eq!(rt; counted.held(1), None);
        assert_eq!(rt; counted.counted(&own).count(), 0);
        Ok(())
    }
}
