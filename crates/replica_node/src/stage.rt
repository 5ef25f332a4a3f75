//! The stages of a replica, what is put in their lanes, and what a step answers.

use batcher::fed::Fed;
use jp_types::listed::Listed;
use protocol_core::act::Act;
use protocol_core::item::Item;
use service_manager::decision::Decision;

/// A stage of a replica.
#[derive(Clone, Copy, Debug, PartialEq, Eq)]
pub enum Stage {
    Batch,
    Protocol,
    Service,
    Retransmit,
}

/// What is put in the lane of a stage: a `Fed` for the Batcher, an `Item` for the Protocol stage, a `Decision` for the
/// Service stage. The Retransmitter has no lane.
#[derive(Debug, Drop)]
pub enum LaneItem {
    Fed(Fed),
    Item(Item),
    Decision(Decision),
}

/// The answer to one step of a stage.
#[derive(Debug, Drop)]
pub enum Stepped {
    /// What the stage did, in order: the steps that it shows, and the messages that it sends.
    Done(Listed<Act>),
    /// The lane of the stage is empty, or for the Retransmitter no message is repeated.
    Empty,
    /// The step would put an item in a lane that is full. Nothing was taken.
    Full,
    /// An earlier step answered `StoreFault` or `NoMemory`. Nothing changes any more.
    Down,
    /// A call of the disk failed.
    StoreFault,
    NoMemory,
}
