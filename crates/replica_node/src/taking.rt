//! A step of the Protocol stage.

ghost use Rattle.std.specs.Prelude.{◌≡◌, ◌≢◌, ◌+◌, ◌≤◌, ◌++◌, false, List, ℕ, Some, Err, length, IfOk, OnOk, OnErr};
ghost use Rattle.std.specs.List.{slice_get};
ghost use Rattle.jp_types.specs.Faults.{Rose};
ghost use Rattle.jp_types.specs.declared.mode.Mode.TheVariants as mode;
ghost use Rattle.protocol_core.specs.declared.act.Act.{Act};
ghost use Rattle.protocol_stage.specs.Performing.{LoadsOneOf};
ghost use Rattle.stable_store.specs.Disks.{LeavesOnly};
ghost use Rattle.replica_node.specs.declared.stages.Taken.TheVariants as taken_as;
ghost use Rattle.replica_node.specs.Lane.{places};
ghost use Rattle.replica_node.specs.Taking.{handed_by, handed_of, kept_by, kept_of, TakesItem, TakesFront};
ghost use Rattle.replica_node.specs.Keeping.{Keeps, stable_with};

use crate::lane::{Lane, PLACES};
use crate::stages::{Stages, Taken};
use jp_types::listed::Listed;
use jp_types::memory::NoMemory;
use protocol_core::act::Act;
use protocol_core::item::Item;
use protocol_stage::protocol::TurnFault;
use service_manager::decision::Decision;
use stable_store::disk::Disk;
use std::alloc::Global;

// A decision that is handed on is put in the lane, and any other act is kept.
fn hand_act(act: Act, lane: &mut Lane<Decision>, kept: &mut Listed<Act>) -> Result<(), NoMemory>
    requires room { length lane.old + length (handed_by act) ≤ places }
    ensures lane { OnOk result (lane.new ≡ lane.old ++ handed_by act) }
    ensures kept { OnOk result (kept.new ≡ kept.old ++ kept_by act) }
{
    match act {
        Act::Hand(decision) => {
            let _put = lane.put(decision);
            Ok(())
        }
        act => kept.push(act),
    }
}

// The decisions that are handed on are put in the lane in order. The other acts are given, in order.
#[tactic(auto, using(crate::proofs::HandedLemmas::room_left))]
fn hand_on(
    alloc: Global,
    acts: Listed<Act>,
    lane: &mut Lane<Decision>,
) -> Result<Listed<Act>, NoMemory>
    requires room { length lane.old + length (handed_of acts) ≤ places }
    ensures lane { OnOk result (lane.new ≡ lane.old ++ handed_of acts) }
    ensures kept { IfOk result (λ kept. kept ≡ kept_of acts) }
{
    let acts = acts.into_vec();
    let mut kept = Listed::empty(alloc);
    for act in acts {
        hand_act(act, lane, &mut kept)?;
    }
    Ok(kept)
}

impl Stages {
    // What the Protocol stage did with an item: its decisions go into the decision lane.
    fn hand_decisions(&mut self, acts: Listed<Act>) -> Result<Taken, TurnFault>
        requires room { length self.old.decisions + length (handed_of acts) ≤ places }
        ensures taken { IfOk result (λ taken. taken ≡ taken_as.Done (kept_of acts)) }
        ensures after { OnOk result (self.new ≡ record self.old { decisions = self.old.decisions ++ handed_of acts }) }
        ensures err { OnErr result (result ≡ Err TurnFault.NoMemory) }
    {
        let alloc = self.alloc();
        let kept = hand_on(alloc, acts, &mut self.decisions)?;
        Ok(Taken::Done(kept))
    }

    // The Protocol stage takes an item. It hands on no more decisions than the decision lane has places for.
    #[tactic(auto, using(crate::proofs::HandedLemmas::room_for_turn, crate::proofs::HandedLemmas::handed_outward))]
    fn take_item<D: Disk>(&mut self, item: Item, disk: &mut D) -> Result<Taken, TurnFault>
        requires up { self.old.protocol.down ≡ false }
        requires kept { Keeps self.old.protocol (D.size disk.old) (D.seen disk.old) (D.may_leave disk.old) }
        ensures taken { IfOk result (λ taken. (acts : List Act) × (taken ≡ taken_as.Done acts) × TakesItem self.old item acts self.new) }
        ensures kept { OnOk result (Keeps self.new.protocol (D.size disk.new) (D.seen disk.new) (D.may_leave disk.new)) }
        ensures any_moment { LeavesOnly D.moment D.left_since disk.old disk.new (LoadsOneOf (Some self.old.protocol.life.stable) (Some (stable_with self.old (Some item)))) }
        ensures epoch { self.old.protocol.life.config.mode ≡ mode.EpochSs → disk.new ≡ disk.old }
        ensures not_down { result ≢ Err TurnFault.Down }
        ensures fault { result ≡ Err TurnFault.StoreFault → Rose (D.faults disk.old) (D.faults disk.new) }
        ensures later { D.faults disk.old ≤ D.faults disk.new }
        ensures size { D.size disk.new ≡ D.size disk.old }
    {
        let room = PLACES - self.decisions.len();
        let acts = self.protocol.turn(item, room, disk)?;
        self.hand_decisions(acts)
    }

    /// The Protocol stage takes the front item of its lane.
    pub(crate) fn step_protocol<D: Disk>(&mut self, disk: &mut D) -> Result<Taken, TurnFault>
        requires up { self.old.protocol.down ≡ false }
        requires kept { Keeps self.old.protocol (D.size disk.old) (D.seen disk.old) (D.may_leave disk.old) }
        ensures taken { IfOk result (λ taken. TakesFront (slice_get self.old.dispatcher 0) self.old taken self.new) }
        ensures kept { OnOk result (Keeps self.new.protocol (D.size disk.new) (D.seen disk.new) (D.may_leave disk.new)) }
        ensures up { OnOk result (self.new.protocol.down ≡ false) }
        ensures any_moment { LeavesOnly D.moment D.left_since disk.old disk.new (LoadsOneOf (Some self.old.protocol.life.stable) (Some (stable_with self.old (slice_get self.old.dispatcher 0)))) }
        ensures epoch { self.old.protocol.life.config.mode ≡ mode.EpochSs → disk.new ≡ disk.old }
        ensures not_down { result ≢ Err TurnFault.Down }
        ensures fault { result ≡ Err TurnFault.StoreFault → Rose (D.faults disk.old) (D.faults disk.new) }
        ensures later { D.faults disk.old ≤ D.faults disk.new }
        ensures size { D.size disk.new ≡ D.size disk.old }
    {
        match self.dispatcher.take() {
            Some(item) => self.take_item(item, disk),
            None => Ok(Taken::Empty),
        }
    }
}
