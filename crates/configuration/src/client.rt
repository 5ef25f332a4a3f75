//! The configuration of a client.

ghost use Rattle.std.specs.Prelude.{◌≡◌};
ghost use Rattle.configuration.specs.Configuration.{read_client};
ghost use Rattle.configuration.specs.Telling.{Tells};

use crate::address::Address;
use crate::fault::ConfigFault;
use crate::reading::Lines;
use jp_types::listed::Listed;
use std::alloc::Global;

/// The configuration of a client.
#[derive(Debug, Drop)]
pub struct ClientConfig {
    /// The client's number, at most 1,023.
    pub client: u64,
    /// The number of its first request, at least 1. It has to be above each number that the client ever used.
    pub first: u64,
    /// The replicas, in order.
    pub replicas: Listed<Address>,
}

/// Reads the configuration of a client.
#[tactic(auto, unfolding(crate::specs::Configuration::read_client))]
pub fn read_client(alloc: Global, text: &[u8]) -> Result<ClientConfig, ConfigFault>
    ensures { Tells (λ config. config) result (read_client text.now) }
{
    let mut lines = Lines::new(text);
    lines.client(alloc)
}
