//! The steps of a run, as its text shows them.

use jp_types::batch::Batch;
use jp_types::message::{Instance, Mark, ReplicaId, View};
use kv_service::outcome::Outcomes;

/// A step as the text of a run shows it.
#[derive(Debug, Drop)]
pub enum Step {
    First {
        replica: ReplicaId,
    },
    Return {
        replica: ReplicaId,
        mark: Mark,
    },
    Crash {
        replica: ReplicaId,
    },
    Enter {
        replica: ReplicaId,
        view: View,
    },
    Promise {
        replica: ReplicaId,
        view: View,
    },
    Prepared {
        replica: ReplicaId,
        view: View,
        next: Instance,
    },
    Launch {
        replica: ReplicaId,
        view: View,
        instance: Instance,
        batch: Batch,
    },
    Vote {
        replica: ReplicaId,
        view: View,
        instance: Instance,
    },
    Learn {
        replica: ReplicaId,
        instance: Instance,
    },
    Answer {
        replica: ReplicaId,
        to: ReplicaId,
        view: View,
        next: Option<Instance>,
    },
    Rejoin {
        replica: ReplicaId,
        view: View,
    },
    Install {
        replica: ReplicaId,
        upto: Instance,
    },
    Execute {
        replica: ReplicaId,
        instance: Instance,
        outcomes: Outcomes,
    },
    Restore {
        replica: ReplicaId,
        upto: Instance,
    },
    Send {
        number: u64,
        to: ReplicaId,
        kind: u8,
    },
}
