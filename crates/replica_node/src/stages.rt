//! The stages of a replica and the lanes between them.

ghost use Rattle.std.specs.Prelude.{◌≡◌, ◌≢◌, ◌≤◌, not, ◌&&◌, false, Some, Err, IfOk, OnOk};
ghost use Rattle.jp_types.specs.Faults.{Rose};
ghost use Rattle.jp_types.specs.declared.mode.Mode.TheVariants as mode;
ghost use Rattle.protocol_stage.specs.Performing.{LoadsOneOf};
ghost use Rattle.stable_store.specs.Disks.{LeavesOnly};
ghost use Rattle.replica_node.specs.Beginning.{IsFresh};
ghost use Rattle.replica_node.specs.Keeping.{Keeps, stable_after};
ghost use Rattle.replica_node.specs.Lanes.{is_full_at, is_kind_of, after_put};
ghost use Rattle.replica_node.specs.Steps.{StepsAt};

use crate::lane::Lane;
use crate::stage::{LaneItem, Stage};
use batcher::batcher::Batcher;
use batcher::fed::Fed;
use jp_types::listed::Listed;
use jp_types::memory::NoMemory;
use jp_types::message::ReplicaId;
use paxos_world::last::Last;
use protocol_core::act::Act;
use protocol_core::item::Item;
use protocol_stage::protocol::{Protocol, TurnFault};
use retransmitter::slots::Slots;
use service_manager::decision::Decision;
use service_manager::service::Service;
use stable_store::disk::Disk;
use std::alloc::Global;

/// What became of a step that did not fail.
#[derive(Debug, Drop)]
pub enum Taken {
    /// What the stage did, in order.
    Done(Listed<Act>),
    /// The lane of the stage is empty, or for the Retransmitter no message is repeated.
    Empty,
    /// The step would put an item in a lane that is full. Nothing was taken.
    Full,
}

/// The stages of a replica, and the lanes between them.
#[derive(Drop)]
pub struct Stages {
    /// Which replica this is.
    pub me: ReplicaId,
    pub protocol: Protocol<Slots>,
    pub batcher: Batcher,
    pub service: Service,
    /// The slot from which on the Retransmitter looks for a message to repeat.
    pub cursor: u16,
    /// What the Batcher takes.
    pub requests: Lane<Fed>,
    /// What the Protocol stage takes.
    pub dispatcher: Lane<Item>,
    /// What the Service stage takes.
    pub decisions: Lane<Decision>,
}

impl Stages {
    /// The stages round a Protocol stage that began.
    pub fn new(alloc: Global, me: ReplicaId, protocol: Protocol<Slots>) -> Result<Stages, NoMemory>
        ensures protocol { IfOk result (λ made. made.protocol ≡ protocol) }
        ensures fresh { IfOk result (λ made. IsFresh me made) }
    {
        Ok(Stages {
            me,
            protocol,
            batcher: Batcher::new(alloc),
            service: Service::new(alloc),
            cursor: 0,
            requests: Lane::new(alloc)?,
            dispatcher: Lane::new(alloc)?,
            decisions: Lane::new(alloc)?,
        })
    }

    pub(crate) fn alloc(&self) -> Global {
        *self.requests.allocator()
    }

    /// Whether the lane of a stage holds as many items as it can.
    pub fn full(&self, stage: Stage) -> bool
        ensures { result ≡ is_full_at self.now stage }
    {
        match stage {
            Stage::Batch => self.requests.is_full(),
            Stage::Protocol => self.dispatcher.is_full(),
            Stage::Service => self.decisions.is_full(),
            Stage::Retransmit => false,
        }
    }

    /// Puts an item in the lane of a stage. An item that the lane is not for is dropped.
    pub fn put(&mut self, stage: Stage, item: LaneItem) -> bool
        ensures value { result ≡ (is_kind_of stage item && not (is_full_at self.old stage)) }
        ensures after { self.new ≡ after_put self.old stage item }
    {
        match (stage, item) {
            (Stage::Batch, LaneItem::Fed(fed)) => self.requests.put(fed),
            (Stage::Protocol, LaneItem::Item(item)) => self.dispatcher.put(item),
            (Stage::Service, LaneItem::Decision(decision)) => self.decisions.put(decision),
            _ => false,
        }
    }

    /// What is left at the end of a run.
    pub fn finish(self) -> Last
        ensures { result ≡ record { phase = self.protocol.life.phase; view = self.protocol.life.view; state = self.service } }
    {
        Last {
            phase: self.protocol.phase(),
            view: self.protocol.view(),
            state: self.service.into_state(),
        }
    }

    /// One step of a stage. Only the Protocol stage touches the disk.
    pub fn step<D: Disk>(&mut self, stage: Stage, disk: &mut D) -> Result<Taken, TurnFault>
        requires up { self.old.protocol.down ≡ false }
        requires kept { Keeps self.old.protocol (D.size disk.old) (D.seen disk.old) (D.may_leave disk.old) }
        ensures taken { IfOk result (λ taken. StepsAt stage self.old taken self.new) }
        ensures up { OnOk result (self.new.protocol.down ≡ false) }
        ensures kept { OnOk result (Keeps self.new.protocol (D.size disk.new) (D.seen disk.new) (D.may_leave disk.new)) }
        ensures any_moment { LeavesOnly D.moment D.left_since disk.old disk.new (LoadsOneOf (Some self.old.protocol.life.stable) (Some (stable_after stage self.old))) }
        ensures epoch { self.old.protocol.life.config.mode ≡ mode.EpochSs → disk.new ≡ disk.old }
        ensures not_down { result ≢ Err TurnFault.Down }
        ensures store { result ≡ Err TurnFault.StoreFault → stage ≡ Stage.Protocol }
        ensures fault { result ≡ Err TurnFault.StoreFault → Rose (D.faults disk.old) (D.faults disk.new) }
        ensures later { D.faults disk.old ≤ D.faults disk.new }
        ensures size { D.size disk.new ≡ D.size disk.old }
        ensures untouched { stage ≢ Stage.Protocol → disk.new ≡ disk.old }
    {
        match stage {
            Stage::Batch => Ok(self.step_batch()?),
            Stage::Protocol => self.step_protocol(disk),
            Stage::Service => Ok(self.step_service()?),
            Stage::Retransmit => Ok(self.step_retransmit()?),
        }
    }
}
