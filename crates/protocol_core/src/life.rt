//! The state of a life between a start and a crash.

ghost use Rattle.std.specs.Prelude.{◌≡◌, ◌==◌, []};
ghost use Rattle.jp_types.specs.Views.{leader};
ghost use Rattle.paxos_world.specs.Leading.{is_working};
ghost use Rattle.replica_log.specs.Log.{first_undecided};

use crate::config::Config;
use crate::queue::Queue;
use jp_types::batch::Batch;
use jp_types::message::{Instance, Mark, ReplicaId, Vector, View};
use jp_types::mode::Phase;
use jp_types::octets::Octets;
use proposer_core::proposer::Proposer;
use recovery::rejoiner::Rejoiner;
use replica_log::log::ReplicaLog;
use snapshots::joiner::Joiner;
use std::alloc::Global;

/// A snapshot that is held: all below the place is in its bytes.
#[derive(Debug, Drop)]
pub struct Snapshot {
    pub place: Instance,
    pub bytes: Octets,
    /// Whether it came from another replica, and not from the own service.
    pub installed: bool,
}

/// The state of a life.
#[derive(Drop)]
pub struct Life {
    pub config: Config,
    pub phase: Phase,
    pub mark: Mark,
    pub view: View,
    /// The number that the disk holds once the acts so far have taken effect.
    pub stable: u64,
    pub vector: Vector,
    pub log: ReplicaLog,
    pub proposer: Proposer,
    pub rejoiner: Rejoiner,
    /// All below it was heard of.
    pub horizon: Instance,
    /// Ticks since the leader was heard, up to 10.
    pub quiet: u8,
    /// The queries sent, modulo `n - 1`.
    pub queries: u8,
    /// The batches that wait to be proposed.
    pub waiting: Queue<Batch>,
    /// The newest snapshot.
    pub newest: Option<Snapshot>,
    /// The parts held of a snapshot that is on its way.
    pub joiner: Option<Joiner>,
    /// All below it was handed to the service.
    pub handed: Instance,
}

impl Life {
    pub fn alloc(&self) -> Global {
        *self.waiting.allocator()
    }

    /// Whether the life is Working.
    pub fn works(&self) -> bool
        ensures { result ≡ is_working self.now.phase }
    {
        self.phase == Phase::Working
    }

    /// Whether a replica leads a view.
    pub fn leads(&self, replica: ReplicaId, view: View) -> bool
        ensures { result ≡ (leader self.now.config.n view == replica) }
    {
        self.config.leads(replica, view)
    }

    /// Whether the life leads its view.
    pub fn leads_own(&self) -> bool
        ensures { result ≡ (leader self.now.config.n self.now.view == self.now.config.me) }
    {
        self.leads(self.config.me, self.view)
    }

    /// The least instance that is not known.
    pub fn first_undecided(&self) -> Instance
        ensures { result ≡ first_undecided self.now.log }
    {
        self.log.first_undecided()
    }

    /// The waiting batches are dropped.
    pub fn drop_waiting(&mut self)
        ensures { self.new ≡ record self.old { waiting = [] } }
    {
        self.waiting.clear();
    }
}
