//! The lines of a schedule, and the words that answer them.

use jp_types::command::Request;
use jp_types::memory::{Duplicate, NoMemory};
use jp_types::message::ReplicaId;
use jp_types::mode::Mode;

/// The constants of a run.
#[derive(Clone, Copy, Debug)]
pub struct Head {
    /// How many replicas there are.
    pub n: u8,
    pub mode: Mode,
    /// How many instances a leader may have undecided at once.
    pub window: u8,
}

/// One line of a schedule.
#[derive(Debug, Drop)]
pub enum Line {
    Cluster(Head),
    Request {
        replica: ReplicaId,
        request: Request,
    },
    Batch(ReplicaId),
    Tick(ReplicaId),
    Suspect(ReplicaId),
    /// `message` counts the messages sent so far, from 0.
    Deliver {
        replica: ReplicaId,
        message: u64,
    },
    Protocol(ReplicaId),
    Service(ReplicaId),
    Retransmit(ReplicaId),
    Crash(ReplicaId),
    Start(ReplicaId),
    End,
}

/// What answers a line. All but `Done` change nothing.
#[derive(Clone, Copy, Debug, PartialEq, Eq)]
pub enum Word {
    Done,
    Empty,
    Full,
    Down,
    Up,
    Unsent,
}

impl Duplicate for Line {
    fn copy(&self) -> Result<Line, NoMemory> {
        match self {
            Line::Cluster(head) => Ok(Line::Cluster(*head)),
            Line::Request { replica, request } => Ok(Line::Request {
                replica: *replica,
                request: request.copy()?,
            }),
            Line::Batch(replica) => Ok(Line::Batch(*replica)),
            Line::Tick(replica) => Ok(Line::Tick(*replica)),
            Line::Suspect(replica) => Ok(Line::Suspect(*replica)),
            Line::Deliver { replica, message } => Ok(Line::Deliver {
                replica: *replica,
                message: *message,
            }),
            Line::Protocol(replica) => Ok(Line::Protocol(*replica)),
            Line::Service(replica) => Ok(Line::Service(*replica)),
            Line::Retransmit(replica) => Ok(Line::Retransmit(*replica)),
            Line::Crash(replica) => Ok(Line::Crash(*replica)),
            Line::Start(replica) => Ok(Line::Start(*replica)),
            Line::End => Ok(Line::End),
        }
    }
}
