//! The Service stage.

ghost use Rattle.std.specs.Prelude.{◌≡◌, ◌<◌, ◌^◌, ◌%◌, ◌==◌, [], false, if◌then◌else◌, IfOk, OnOk};
ghost use Rattle.kv_service.specs.Service.{execute, outcomes, start};
ghost use Rattle.kv_service.specs.StateBytes.{state_bytes};
ghost use Rattle.service_manager.specs.Serving.{makes_snapshot, outcomes_of, restores, snapshot_of, state_after};
ghost use Rattle.kv_service.specs.Dues.{is_due, snapshot_step};

use crate::decision::{Decision, Served};
use jp_types::batch::Batch;
use jp_types::memory::NoMemory;
use jp_types::message::Instance;
use jp_types::octets::Octets;
use jp_types::views::NUMBER_LIMIT;
use kv_service::outcome::Outcomes;
use kv_service::state::State;
use std::alloc::Global;
use std::marker::Model;

/// After how many executed instances a snapshot is taken.
pub const SNAPSHOT_STEP: u64 = 256;

/// The Service stage, which contracts see as its state.
#[derive(Debug, Drop)]
pub struct Service {
    alloc: Global,
    state: State,
}

impl Model for Service {
    ghost use Rattle.kv_service.specs.Service.{State};

    ghost Value = { State };

    ghost view = { λ s. s.state };
}

impl Service {
    /// A service that executed nothing.
    pub fn new(alloc: Global) -> Service
        ensures { result ≡ start }
    {
        Service {
            alloc,
            state: State::new(alloc),
        }
    }

    pub fn state(&self) -> &State
        ensures { result.now ≡ self.now }
    {
        &self.state
    }

    /// The state, where the service is given up.
    pub fn into_state(self) -> State
        ensures { result ≡ self }
    {
        self.state
    }

    /// Whether a turn with this decision would give a snapshot.
    pub fn snapshot_due(&self, d: &Decision) -> bool
        ensures { result ≡ makes_snapshot self.now d.now }
    {
        match d {
            Decision::Decided { instance, .. } => {
                self.is_due(*instance) && (*instance + 1) % SNAPSHOT_STEP == 0
            }
            Decision::Install { .. } => false,
        }
    }

    /// What the stage does with a decision. A batch whose instance is not the next one is passed over, and so is a state
    /// that is not ahead. After want of memory the service is of no use.
    pub fn turn(&mut self, d: Decision) -> Result<Served, NoMemory>
        ensures state { OnOk result (self.new ≡ state_after self.old d) }
        ensures outcomes { IfOk result (λ served. served.outcomes ≡ outcomes_of self.old d) }
        ensures restored { IfOk result (λ served. served.restored ≡ restores self.old d) }
        ensures snapshot { IfOk result (λ served. served.snapshot ≡ snapshot_of self.old d) }
    {
        match d {
            Decision::Decided { instance, batch } => self.decide(instance, &batch),
            Decision::Install { upto, state } => Ok(self.install(upto, state)),
        }
    }

    fn is_due(&self, instance: Instance) -> bool
        ensures { result ≡ is_due self.now instance }
    {
        instance == self.state.executed() && instance < NUMBER_LIMIT
    }

    // Nothing came of a decision.
    fn passed(&self) -> Served
        ensures outcomes { result.outcomes ≡ [] }
        ensures restored { result.restored ≡ false }
        ensures snapshot { result.snapshot ≡ None }
    {
        Served {
            outcomes: Outcomes::empty(self.alloc),
            restored: false,
            snapshot: None,
        }
    }

    #[tactic(auto, using(crate::proofs::Courses::snapshot_when_due))]
    fn decide(&mut self, instance: Instance, batch: &Batch) -> Result<Served, NoMemory>
        ensures state { OnOk result (self.new ≡ (if is_due self.old instance then execute self.old batch.now else self.old)) }
        ensures outcomes { IfOk result (λ served. served.outcomes ≡ (if is_due self.old instance then outcomes self.old batch.now else [])) }
        ensures restored { IfOk result (λ served. served.restored ≡ false) }
        ensures snapshot { IfOk result (λ served. served.snapshot ≡ snapshot_of self.old (Decision.Decided instance batch.now)) }
    {
        if self.is_due(instance) {
            self.execute(batch)
        } else {
            Ok(self.passed())
        }
    }

    fn execute(&mut self, batch: &Batch) -> Result<Served, NoMemory>
        requires { self.old.executed < 2 ^ 48 }
        ensures state { OnOk result (self.new ≡ execute self.old batch.now) }
        ensures outcomes { IfOk result (λ served. served.outcomes ≡ outcomes self.old batch.now) }
        ensures restored { IfOk result (λ served. served.restored ≡ false) }
        ensures snapshot { IfOk result (λ served. served.snapshot ≡ (if (execute self.old batch.now).executed % snapshot_step == 0 then Some (state_bytes (execute self.old batch.now)) else None)) }
    {
        let outcomes = self.state.execute(batch)?;
        let snapshot = self.snapshot()?;
        Ok(Served {
            outcomes,
            restored: false,
            snapshot,
        })
    }

    // The bytes of the state, where it is time for a snapshot.
    fn snapshot(&self) -> Result<Option<Octets>, NoMemory>
        ensures { IfOk result (λ snapshot. snapshot ≡ (if self.now.executed % snapshot_step == 0 then Some (state_bytes self.now) else None)) }
    {
        if self.state.executed() % SNAPSHOT_STEP == 0 {
            Ok(Some(self.state.to_bytes()?))
        } else {
            Ok(None)
        }
    }

    fn install(&mut self, upto: Instance, state: State) -> Served
        ensures state { self.new ≡ state_after self.old (Decision.Install upto state) }
        ensures outcomes { result.outcomes ≡ [] }
        ensures restored { result.restored ≡ restores self.old (Decision.Install upto state) }
        ensures snapshot { result.snapshot ≡ None }
    {
        let mut served = self.passed();
        if self.state.executed() < upto {
            self.state = state;
            served.restored = true;
        }
        served
    }
}

#[cfg(test)]
mod tests {
    use super::*;
    use std::test::Fail;

    fn empty_batch(alloc: Global, instance: Instance) -> Decision {
        Decision::Decided {
            instance,
            batch: Batch::empty(alloc),
        }
    }

    fn install(alloc: Global, upto: Instance) -> Decision {
        Decision::Install {
            upto,
            state: State::new(alloc),
        }
    }

    #[test]
    fn snapshots_come_every_256_batches(rt: HostRuntime) -> Result<(), Fail> {
        let mut service = Service::new(rt.alloc());
        for instance in 0..256 {
            let decision = empty_batch(rt.alloc(), instance);
            let due = service.snapshot_due(&decision);
            let served = service.turn(decision)?;
            assert_eq!(rt; served.snapshot.is_some(), instance == 255);
            assert_eq!(rt; due, instance == 255);
        }
        assert_eq!(rt; service.state().executed(), 256);
        Ok(())
    }

    #[test]
    fn what_is_not_ahead_is_passed_over(rt: HostRuntime) -> Result<(), Fail> {
        let mut service = Service::new(rt.alloc());
        let lines = [
            (empty_batch(rt.alloc(), 1), false, 0),
            (empty_batch(rt.alloc(), 0), false, 1),
            (empty_batch(rt.alloc(), 0), false, 1),
            (install(rt.alloc(), 1), false, 1),
            (install(rt.alloc(), 2), true, 0),
        ];
        for (decision, restored, executed) in lines {
            let served = service.turn(decision)?;
            assert_eq!(rt; served.restored, restored);
            assert_eq!(rt; service.state().executed(), executed);
        }
        assert_eq!(rt; service.into_state().executed(), 0);
        Ok(())
    }
}
