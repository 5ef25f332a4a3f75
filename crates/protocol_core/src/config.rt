//! Which replica this is, of how many, and how it works.

ghost use Rattle.std.specs.Prelude.{◌≡◌, ◌≤◌, ◌<◌, ◌==◌, ◌+◌, ◌-◌, ◌%◌};
ghost use Rattle.jp_types.specs.Instances.{peer};
ghost use Rattle.jp_types.specs.Views.{leader, next_led};
ghost use Rattle.protocol_core.specs.Others.{others_below, queries_after};

use catch_up::query::peer;
use jp_types::message::{ReplicaId, View};
use jp_types::mode::Mode;
use jp_types::replica_set::ReplicaSet;
use jp_types::views::{NUMBER_LIMIT, leader, next_led};

/// The constants of one replica.
#[derive(Clone, Copy, Debug)]
pub struct Config {
    /// How many replicas there are.
    pub n: u8,
    pub me: ReplicaId,
    pub mode: Mode,
    /// How many instances may be undecided at a time.
    pub window: u8,
    ghost valid: { (3 ≤ n) × (n ≤ 9) × (me < n) × (1 ≤ window) × (window ≤ 64) },
}

impl Config {
    /// Whether a replica leads a view.
    pub fn leads(&self, replica: ReplicaId, view: View) -> bool
        ensures { result ≡ (leader self.now.n view == replica) }
    {
        leader(view, self.n) == replica
    }

    /// The least view above this one that the replica itself leads, if it is within the limit of numbers.
    pub fn next_led(&self, view: View) -> Option<View>
        ensures { result ≡ next_led self.now.n self.now.me view }
    {
        if view > NUMBER_LIMIT {
            return None;
        }
        next_led(view, self.me, self.n)
    }

    /// All other replicas.
    pub fn others(&self) -> ReplicaSet
        ensures { result ≡ others_below self.now.n self.now.me }
    {
        let mut set = ReplicaSet::none();
        for replica in 0..self.n {
            if replica != self.me {
                set = set.with(replica);
            }
        }
        set
    }

    /// Whom the next query goes to, where so many went out.
    pub fn peer(&self, queries: u8) -> ReplicaId
        ensures value { result ≡ peer self.now.me self.now.n queries }
        ensures below { result < 9 }
    {
        peer(self.me, self.n, queries as u64)
    }

    /// How many queries went out after one more, modulo `n - 1`.
    pub fn queries_after(&self, queries: u8) -> u8
        ensures { result ≡ queries_after self.now.n queries }
    {
        ((queries as u16 + 1) % (self.n as u16 - 1)) as u8
    }
}
