//! A replica.

ghost use Rattle.std.specs.Prelude.{◌≡◌, ◌≢◌, ◌⊎◌, ◌≤◌, not, ◌&&◌, true, false, ℕ, List, Option, Some, Err, IfOk, OnOk, OnErr};
ghost use Rattle.jp_types.specs.Faults.{Rose};
ghost use Rattle.proposer_core.specs.Proposing.{next_of};
ghost use Rattle.protocol_stage.specs.declared.protocol.StartFault.TheVariants as fault;
ghost use Rattle.protocol_stage.specs.Performing.{LoadsOneOf};
ghost use Rattle.protocol_stage.specs.Running.{IsHeld, LoadsAtOpening};
ghost use Rattle.protocol_core.specs.Starting.{IsSpent};
ghost use Rattle.paxos_world.specs.Replica.{Running};
ghost use Rattle.jp_types.specs.declared.mode.Mode.TheVariants as mode;
ghost use Rattle.stable_store.specs.Disks.{LeavesOnly};
ghost use Rattle.replica_node.specs.Answers.{answer_of, answer_to};
ghost use Rattle.replica_node.specs.Beginning.{Begins};
ghost use Rattle.replica_node.specs.Following.{FollowsPut, FollowsStart, FollowsStep, MayStep, step_of};
ghost use Rattle.replica_node.specs.Keeping.{Keeps, stable_after};
ghost use Rattle.replica_node.specs.Lanes.{is_full_at, is_kind_of, after_put};
ghost use Rattle.replica_node.specs.Resembling.{Resembles};
ghost use Rattle.replica_node.specs.Steps.{Steps};

use crate::stage::{LaneItem, Stage, Stepped};
use crate::stages::{Stages, Taken};
use jp_types::listed::Listed;
use jp_types::message::{Instance, Mark, View};
use jp_types::mode::Phase;
use kv_service::state::State;
use paxos_world::last::Last;
use protocol_core::act::Act;
use protocol_core::config::Config;
use protocol_stage::protocol::{Protocol, StartFault, TurnFault};
use retransmitter::slots::Slots;
use stable_store::disk::Disk;
use std::alloc::Global;
use std::marker::Model;

/// The stages of a replica, and whether a step has failed.
#[derive(Drop)]
pub struct Replica {
    stages: Stages,
    down: bool,
}

impl Model for Replica {
    ghost use Rattle.std.specs.Prelude.{◌≡◌, Bool, false, refl};
    ghost use Rattle.std.specs.Coded.{code_by, coded×, coded_bool};
    ghost use Rattle.replica_node.specs.contracts.stages.Stages as of_stages;
    ghost use Rattle.replica_node.specs.declared.stages.Stages.{Stages};
    ghost use Rattle.replica_node.specs.Whole.{Whole};

    ghost Value = { Whole };

    ghost coded = { code_by (Stages × Bool) (coded× of_stages.the_row.coded coded_bool) (λ s. (s.stages, s.down)) (λ p. record { stages = p.0; down = p.1 }) (λ _. refl) };

    ghost view = { λ r. record { stages = r.stages; down = r.down } };

    ghost invariant = { λ r. r.down ≡ false → r.stages.protocol.down ≡ false };
}

// The answer to a step that did not fail.
fn answer_of(taken: Taken) -> Stepped
    ensures { result ≡ answer_of taken }
{
    match taken {
        Taken::Done(acts) => Stepped::Done(acts),
        Taken::Empty => Stepped::Empty,
        Taken::Full => Stepped::Full,
    }
}

// The answer to a step that failed.
fn answer_to(fault: TurnFault) -> Stepped
    ensures { result ≡ answer_to fault }
{
    match fault {
        TurnFault::NoMemory => Stepped::NoMemory,
        TurnFault::StoreFault => Stepped::StoreFault,
        TurnFault::Down => Stepped::Down,
    }
}

impl Replica {
    // Begins a life, by the functions of this crate.
    fn begin<D: Disk>(
        alloc: Global,
        config: &Config,
        disk: &mut D,
    ) -> Result<(Replica, Listed<Act>), StartFault>
        ensures ok { IfOk result (λ made. (stored : Option ℕ) × IsHeld (D.seen disk.old) stored × Begins config.now stored made.0 made.1) }
        ensures kept { IfOk result (λ made. Keeps made.0.stages.protocol (D.size disk.new) (D.seen disk.new) (D.may_leave disk.new)) }
        ensures any_moment { LeavesOnly D.moment D.left_since disk.old disk.new (λ image. D.may_leave disk.old image ⊎ ((stored : Option ℕ) × IsHeld (D.seen disk.old) stored × LoadsAtOpening config.now stored image)) }
        ensures whole { OnOk result (D.size disk.old ≡ 18) }
        ensures damaged { (count : ℕ) → result ≡ Err (fault.Damaged count) → (count ≡ D.size disk.old) × (D.size disk.old ≢ 18) }
        ensures spent { (number : ℕ) → result ≡ Err (fault.Spent number) → (D.size disk.old ≡ 18) × ((stored : Option ℕ) × IsHeld (D.seen disk.old) stored × IsSpent config.now stored number) }
        ensures fault { result ≡ Err fault.StoreFault → Rose (D.faults disk.old) (D.faults disk.new) }
        ensures later { D.faults disk.old ≤ D.faults disk.new }
        ensures size { D.size disk.new ≡ D.size disk.old }
    {
        let slots = Slots::new(alloc)?;
        let (protocol, acts) = Protocol::start(alloc, config, slots, disk)?;
        let stages = Stages::new(alloc, config.me, protocol)?;
        Ok((
            Replica {
                stages,
                down: false,
            },
            acts,
        ))
    }

    /// Begins the first life of a replica or a later one, by what its disk holds: the replica, and what it does first.
    pub fn start<D: Disk>(
        alloc: Global,
        config: &Config,
        disk: &mut D,
    ) -> Result<(Replica, Listed<Act>), StartFault>
        ensures ok { IfOk result (λ made. (stored : Option ℕ) × IsHeld (D.seen disk.old) stored × Begins config.now stored made.0 made.1) }
        ensures kept { IfOk result (λ made. Keeps made.0.stages.protocol (D.size disk.new) (D.seen disk.new) (D.may_leave disk.new)) }

        // It is the replica with which the model's life begins, and the acts are those of the model that leave it.
        ensures follows { IfOk result (λ made. (stored : Option ℕ) × IsHeld (D.seen disk.old) stored × Begins config.now stored made.0 made.1 × FollowsStart config.now stored made.0 made.1) }

        // At each moment of the call an image that a crash may leave is one that it might have left as the call began, or it
        // loads the number that the disk held, or the one that the life saves first.
        ensures any_moment { LeavesOnly D.moment D.left_since disk.old disk.new (λ image. D.may_leave disk.old image ⊎ ((stored : Option ℕ) × IsHeld (D.seen disk.old) stored × LoadsAtOpening config.now stored image)) }

        // Which answer comes, where no call of the disk failed.
        ensures whole { OnOk result (D.size disk.old ≡ 18) }
        ensures damaged { (count : ℕ) → result ≡ Err (fault.Damaged count) → (count ≡ D.size disk.old) × (D.size disk.old ≢ 18) }
        ensures spent { (number : ℕ) → result ≡ Err (fault.Spent number) → (D.size disk.old ≡ 18) × ((stored : Option ℕ) × IsHeld (D.seen disk.old) stored × IsSpent config.now stored number) }
        ensures fault { result ≡ Err fault.StoreFault → Rose (D.faults disk.old) (D.faults disk.new) }
        ensures later { D.faults disk.old ≤ D.faults disk.new }
        ensures size { D.size disk.new ≡ D.size disk.old }
    {
        Replica::begin(alloc, config, disk)
    }

    /// Whether the lane of a stage holds as many items as it can.
    pub fn full(&self, stage: Stage) -> bool
        ensures { result ≡ is_full_at self.now.stages stage }
    {
        self.stages.full(stage)
    }

    // Puts an item in the lane of a stage, by the functions of this crate.
    fn put_in(&mut self, stage: Stage, item: LaneItem) -> bool
        ensures value { result ≡ (is_kind_of stage item && not (is_full_at self.old.stages stage)) }
        ensures after { self.new ≡ record self.old { stages = after_put self.old.stages stage item } }
    {
        self.stages.put(stage, item)
    }

    /// Puts an item in the lane of a stage. An item that the lane is not for is dropped.
    pub fn put(&mut self, stage: Stage, item: LaneItem) -> bool
        ensures value { result ≡ (is_kind_of stage item && not (is_full_at self.old.stages stage)) }
        ensures after { self.new ≡ record self.old { stages = after_put self.old.stages stage item } }

        // A replica of the model stays one, with the item in its lane, where it may stand there.
        ensures follows { (a : Running) → Resembles a self.old → FollowsPut a stage item result self.new }
    {
        self.put_in(stage, item)
    }

    // One step of a stage, by the functions of this crate.
    fn take<D: Disk>(&mut self, stage: Stage, disk: &mut D) -> Stepped
        requires kept { self.old.down ≡ false → Keeps self.old.stages.protocol (D.size disk.old) (D.seen disk.old) (D.may_leave disk.old) }
        ensures steps { Steps stage self.old result self.new }
        ensures kept { self.new.down ≡ false → Keeps self.new.stages.protocol (D.size disk.new) (D.seen disk.new) (D.may_leave disk.new) }
        ensures any_moment { self.old.down ≡ false → LeavesOnly D.moment D.left_since disk.old disk.new (LoadsOneOf (Some self.old.stages.protocol.life.stable) (Some (stable_after stage self.old.stages))) }
        ensures epoch { self.old.stages.protocol.life.config.mode ≡ mode.EpochSs → disk.new ≡ disk.old }
        ensures fault { result ≡ Stepped.StoreFault → Rose (D.faults disk.old) (D.faults disk.new) }
        ensures later { D.faults disk.old ≤ D.faults disk.new }
        ensures size { D.size disk.new ≡ D.size disk.old }
        ensures untouched { stage ≢ Stage.Protocol → disk.new ≡ disk.old }
        ensures stays { self.old.down ≡ true → disk.new ≡ disk.old }
    {
        if self.down {
            return Stepped::Down;
        }
        match self.stages.step(stage, disk) {
            Ok(taken) => answer_of(taken),
            Err(fault) => {
                self.down = true;
                answer_to(fault)
            }
        }
    }

    /// One step of a stage. Only the Protocol stage touches the disk, which is given as the call before left it. After
    /// `StoreFault` or `NoMemory` the replica is down.
    pub fn step<D: Disk>(&mut self, stage: Stage, disk: &mut D) -> Stepped
        requires kept { self.old.down ≡ false → Keeps self.old.stages.protocol (D.size disk.old) (D.seen disk.old) (D.may_leave disk.old) }
        ensures steps { Steps stage self.old result self.new }
        ensures kept { self.new.down ≡ false → Keeps self.new.stages.protocol (D.size disk.new) (D.seen disk.new) (D.may_leave disk.new) }

        // At each moment of the call each image that a crash may leave loads the stable number before the step, or the one after.
        ensures any_moment { self.old.down ≡ false → LeavesOnly D.moment D.left_since disk.old disk.new (LoadsOneOf (Some self.old.stages.protocol.life.stable) (Some (stable_after stage self.old.stages))) }

        // A replica of the model takes the model's step.
        ensures follows { (a : Running) → Resembles a self.old → MayStep stage a → FollowsStep (step_of stage a) a result self.new }
        ensures epoch { self.old.stages.protocol.life.config.mode ≡ mode.EpochSs → disk.new ≡ disk.old }
        ensures fault { result ≡ Stepped.StoreFault → Rose (D.faults disk.old) (D.faults disk.new) }
        ensures later { D.faults disk.old ≤ D.faults disk.new }
        ensures size { D.size disk.new ≡ D.size disk.old }
        ensures untouched { stage ≢ Stage.Protocol → disk.new ≡ disk.old }
        ensures stays { self.old.down ≡ true → disk.new ≡ disk.old }
    {
        self.take(stage, disk)
    }

    pub fn phase(&self) -> Phase
        ensures { result ≡ self.now.stages.protocol.life.phase }
    {
        self.stages.protocol.phase()
    }

    pub fn view(&self) -> View
        ensures { result ≡ self.now.stages.protocol.life.view }
    {
        self.stages.protocol.view()
    }

    pub fn mark(&self) -> Mark
        ensures { result ≡ self.now.stages.protocol.life.mark }
    {
        self.stages.protocol.mark()
    }

    /// The next instance of a Prepared leader.
    pub fn next(&self) -> Option<Instance>
        ensures { result ≡ next_of self.now.stages.protocol.life.proposer.leading }
    {
        self.stages.protocol.next()
    }

    /// The state of the Service stage.
    pub fn state(&self) -> &State
        ensures { result.now ≡ self.now.stages.service }
    {
        self.stages.service.state()
    }

    /// What is left at the end of a run.
    pub fn finish(self) -> Last
        ensures { result ≡ record { phase = self.stages.protocol.life.phase; view = self.stages.protocol.life.view; state = self.stages.service } }
    {
        self.stages.finish()
    }
}
