//! What is repeated, and by what it is cancelled.

use jp_types::message::Message;
use jp_types::replica_set::ReplicaSet;
use std::marker::Model;

/// A message, and the replicas that it goes to.
#[derive(Debug, Drop)]
pub struct Outgoing {
    pub to: ReplicaSet,
    pub message: Message,
}

/// The slot that a message was armed in, and the slot's generation since then. A cancel spends it.
#[derive(Debug, Drop)]
pub struct Armed {
    pub(crate) slot: u16,
    pub(crate) generation: u64,
}

impl Model for Armed {
    ghost use Rattle.std.specs.Prelude.{ℕ, refl};
    ghost use Rattle.std.specs.Coded.{code_by, coded×, coded_ℕ};
    ghost use Rattle.retransmitter.specs.Armed.{Armed as Name};

    ghost Value = { Name };

    ghost coded = { code_by (ℕ × ℕ) (coded× coded_ℕ coded_ℕ) (λ a. (a.slot, a.generation)) (λ p. record { slot = p.0; generation = p.1 }) (λ _. refl) };

    ghost view = { λ a. record { slot = a.slot; generation = a.generation } };
}

/// No slot was free for the message, which is handed back.
#[derive(Debug, Drop)]
pub struct Full(pub Outgoing);
