//! What holds of the turns of a Protocol stage.

ghost use Rattle.kv_service.specs.Service.{start};
ghost use Rattle.turn_laws.specs.Limits.{IsState, StatesRead};
ghost use Rattle.turn_laws.specs.Nodes.{NodesAreLawful};

/// Each start of a replica is lawful, and so is each turn, decision and retransmission after it, whatever the other replicas do within what they may: the steps of the world are allowed where they come, and the acts send and show these steps.
pub fn turns_are_lawful()
    ensures { NodesAreLawful }
{}

/// The service's first state reads back from its bytes.
pub fn start_is_told()
    ensures { IsState start }
{}

/// A state that reads back from its bytes, each of which is a byte, still does after a batch of requests within the limits, where it had executed fewer than 2^48 instances.
pub fn states_read_back()
    ensures { StatesRead }
{}
