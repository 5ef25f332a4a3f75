//! A step of the Service stage.

ghost use Rattle.std.specs.Prelude.{◌≡◌, ◌&&◌, ◌∷◌, false, [], if◌then◌else◌, IfOk, OnOk, is_some};
ghost use Rattle.kv_service.specs.Dues.{is_due};
ghost use Rattle.paxos_world.specs.declared.step.Step.TheVariants as step_as;
ghost use Rattle.protocol_core.specs.declared.act.Act.TheVariants as act_as;
ghost use Rattle.service_manager.specs.declared.decision.Decision.TheVariants as decision_as;
ghost use Rattle.service_manager.specs.Serving.{makes_snapshot};
ghost use Rattle.replica_node.specs.Lane.{is_full};
ghost use Rattle.replica_node.specs.Serving.{is_service_blocked, with_snapshot, served_acts, decision_taken, service_step};

use crate::stages::{Stages, Taken};
use jp_types::batch::Batch;
use jp_types::listed::Listed;
use jp_types::memory::NoMemory;
use jp_types::message::Instance;
use jp_types::octets::Octets;
use jp_types::views::NUMBER_LIMIT;
use kv_service::outcome::Outcomes;
use kv_service::state::State;
use paxos_world::step::Step;
use protocol_core::act::Act;
use protocol_core::item::Item;
use service_manager::decision::Decision;

impl Stages {
    // Whether the front decision makes a snapshot for which the dispatcher lane has no place.
    fn is_service_blocked(&self) -> bool
        ensures { result ≡ is_service_blocked self.now }
    {
        match self.decisions.front() {
            Some(decision) => self.service.snapshot_due(decision) && self.dispatcher.is_full(),
            None => false,
        }
    }

    // Whether the batch of an instance is executed now, and not passed over.
    fn is_due(&self, instance: Instance) -> bool
        ensures { result ≡ is_due self.now.service instance }
    {
        instance == self.service.state().executed() && instance < NUMBER_LIMIT
    }

    // A snapshot of the service is put in the dispatcher lane, where one was taken.
    fn put_snapshot(&mut self, snapshot: Option<Octets>)
        requires { (is_some snapshot && is_full self.old.dispatcher) ≡ false }
        ensures { self.new ≡ record self.old { dispatcher = with_snapshot self.old.dispatcher self.old.service.executed snapshot } }
    {
        if let Some(bytes) = snapshot {
            let upto = self.service.state().executed();
            let _put = self.dispatcher.put(Item::Snapshot { upto, bytes });
        }
    }

    // The execution of an instance, where it took place.
    fn executed(
        &self,
        due: bool,
        instance: Instance,
        outcomes: Outcomes,
    ) -> Result<Listed<Act>, NoMemory>
        ensures { IfOk result (λ acts. acts ≡ (if due then act_as.Step (step_as.Execute self.now.me instance outcomes) ∷ [] else [])) }
    {
        let mut acts = Listed::empty(self.alloc());
        if due {
            acts.push(Act::Step(Step::Execute {
                replica: self.me,
                instance,
                outcomes,
            }))?;
        }
        Ok(acts)
    }

    // The taking over of a state, where it took place.
    fn restored(&self, restored: bool, upto: Instance) -> Result<Listed<Act>, NoMemory>
        ensures { IfOk result (λ acts. acts ≡ (if restored then act_as.Step (step_as.Restore self.now.me upto) ∷ [] else [])) }
    {
        let mut acts = Listed::empty(self.alloc());
        if restored {
            acts.push(Act::Step(Step::Restore {
                replica: self.me,
                upto,
            }))?;
        }
        Ok(acts)
    }

    // The Service stage takes the batch of an instance.
    fn take_batch(&mut self, instance: Instance, batch: Batch) -> Result<Listed<Act>, NoMemory>
        requires { (makes_snapshot self.old.service (decision_as.Decided instance batch) && is_full self.old.dispatcher) ≡ false }
        ensures acts { IfOk result (λ acts. acts ≡ served_acts self.old.me self.old.service (decision_as.Decided instance batch)) }
        ensures after { OnOk result (self.new ≡ decision_taken self.old (decision_as.Decided instance batch)) }
    {
        let due = self.is_due(instance);
        let served = self.service.turn(Decision::Decided { instance, batch })?;
        self.put_snapshot(served.snapshot);
        self.executed(due, instance, served.outcomes)
    }

    // The Service stage takes the state of another replica's service.
    fn take_state(&mut self, upto: Instance, state: State) -> Result<Listed<Act>, NoMemory>
        ensures acts { IfOk result (λ acts. acts ≡ served_acts self.old.me self.old.service (decision_as.Install upto state)) }
        ensures after { OnOk result (self.new ≡ decision_taken self.old (decision_as.Install upto state)) }
    {
        let served = self.service.turn(Decision::Install { upto, state })?;
        self.restored(served.restored, upto)
    }

    // The Service stage takes a decision.
    fn take_decision(&mut self, decision: Decision) -> Result<Listed<Act>, NoMemory>
        requires { (makes_snapshot self.old.service (decision) && is_full self.old.dispatcher) ≡ false }
        ensures acts { IfOk result (λ acts. acts ≡ served_acts self.old.me self.old.service (decision)) }
        ensures after { OnOk result (self.new ≡ decision_taken self.old (decision)) }
    {
        match decision {
            Decision::Decided { instance, batch } => self.take_batch(instance, batch),
            Decision::Install { upto, state } => self.take_state(upto, state),
        }
    }

    /// The Service stage takes the front decision of its lane. A snapshot goes into the dispatcher lane.
    pub(crate) fn step_service(&mut self) -> Result<Taken, NoMemory>
        ensures answer { IfOk result (λ taken. taken ≡ (service_step self.old).answer) }
        ensures after { OnOk result (self.new ≡ (service_step self.old).stages) }
    {
        if self.is_service_blocked() {
            return Ok(Taken::Full);
        }
        match self.decisions.take() {
            Some(decision) => Ok(Taken::Done(self.take_decision(decision)?)),
            None => Ok(Taken::Empty),
        }
    }
}
