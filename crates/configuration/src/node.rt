//! The configuration of a node.

ghost use Rattle.std.specs.Prelude.{◌≡◌};
ghost use Rattle.configuration.specs.Configuration.{read_node};
ghost use Rattle.configuration.specs.Telling.{Tells};

use crate::address::Address;
use crate::fault::ConfigFault;
use crate::reading::Lines;
use jp_types::listed::Listed;
use jp_types::message::ReplicaId;
use jp_types::mode::Mode;
use jp_types::octets::Octets;
use std::alloc::Global;

/// The configuration of a node, which is one replica of a cluster.
#[derive(Debug, Drop)]
pub struct NodeConfig {
    /// Which of the replicas this one is.
    pub id: ReplicaId,
    pub mode: Mode,
    /// How many instances may be undecided at a time, 1 to 64.
    pub window: u8,
    /// The path of the file that keeps the stable number.
    pub store: Octets,
    /// The number of the cluster, 1 to 2^48. Frames and the stable file name it.
    pub cluster: u64,
    /// Whether frames that name no cluster are read too.
    pub old: bool,
    /// The replicas, in order, 3 to 9 of them.
    pub replicas: Listed<Address>,
}

/// Reads the configuration of a node.
#[tactic(auto, unfolding(crate::specs::Configuration::read_node))]
pub fn read_node(alloc: Global, text: &[u8]) -> Result<NodeConfig, ConfigFault>
    ensures { Tells (λ config. config) result (read_node text.now) }
{
    let mut lines = Lines::new(text);
    lines.node(alloc)
}
