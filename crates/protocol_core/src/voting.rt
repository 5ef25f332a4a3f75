//! Promises, votes, and what is learned by votes.

ghost use Rattle.std.specs.Prelude.{◌≡◌, ◌<◌, OnOk};
ghost use Rattle.protocol_core.specs.Turned.{Does};
ghost use Rattle.protocol_core.specs.Voting.{horizon_to, counts, promise_sent, promised_if, on_prepare, accept_of, vote_shown, vote_shown_if, learning_shown, learning_shown_if, proposal_taken, proposal_taken_if, proposal_followed, proposal_heard, on_propose, acceptance_taken, on_accept};

use crate::act::{Act, Topic};
use crate::life::Life;
use crate::sending::send_to_all;
use acceptor_core::promising::on_prepare;
use acceptor_core::voting::{on_accept, on_propose};
use jp_types::listed::Listed;
use jp_types::memory::NoMemory;
use jp_types::message::{Accept, Instance, Message, Prepare, PrepareOk, Propose, ReplicaId, View};
use paxos_world::step::Step;

impl Life {
    /// The horizon is at least this.
    pub fn horizon_to(&mut self, instance: Instance)
        ensures { self.new ≡ horizon_to self.old instance }
    {
        self.horizon = self.horizon.max(instance);
    }

    /// Whether the log counts a replica.
    pub fn counts(&self, replica: ReplicaId) -> bool
        ensures { result ≡ counts self.now.log replica }
    {
        replica < self.log.replicas()
    }

    // Sends a promise, where there is one.
    fn send_promise(
        &mut self,
        to: ReplicaId,
        promise: Option<PrepareOk>,
        acts: &mut Listed<Act>,
    ) -> Result<(), NoMemory>
        ensures { OnOk result (Does (promise_sent self.old to promise) self.new acts.old acts.new) }
    {
        match promise {
            Some(promise) => {
                acts.push(Act::Step(Step::Promise {
                    replica: self.config.me,
                    view: promise.view,
                }))?;
                acts.push(Act::Send {
                    to,
                    message: Message::PrepareOk(promise),
                })
            }
            None => Ok(()),
        }
    }

    // Promises the view of a Prepare, where it is the own one.
    fn promise_if(
        &mut self,
        from: ReplicaId,
        prepare: &Prepare,
        acts: &mut Listed<Act>,
    ) -> Result<(), NoMemory>
        ensures { OnOk result (Does (promised_if self.old from prepare.now) self.new acts.old acts.new) }
    {
        let promise = on_prepare(&self.log, self.view, &self.vector, prepare)?;
        self.send_promise(from, promise, acts)
    }

    /// Prepare: a Working life whose sender leads its view raises to it, and promises it where it is the own view now.
    pub fn on_prepare(
        &mut self,
        from: ReplicaId,
        prepare: &Prepare,
        acts: &mut Listed<Act>,
    ) -> Result<(), NoMemory>
        ensures { OnOk result (Does (on_prepare self.old from prepare.now) self.new acts.old acts.new) }
    {
        if self.works() && self.leads(from, prepare.view) {
            self.raise_up_to(prepare.view, acts)?;
            self.promise_if(from, prepare, acts)?;
        }
        Ok(())
    }

    // Shows a vote, and sends the Accept to all others.
    fn show_vote(
        &mut self,
        view: View,
        instance: Instance,
        acts: &mut Listed<Act>,
    ) -> Result<(), NoMemory>
        ensures { OnOk result (Does (vote_shown self.old view instance) self.new acts.old acts.new) }
    {
        acts.push(Act::Step(Step::Vote {
            replica: self.config.me,
            view,
            instance,
        }))?;
        send_to_all(&self.config, &accept_of(view, instance), acts)
    }

    // Shows a vote, where there was one.
    fn show_vote_if(
        &mut self,
        voted: bool,
        view: View,
        instance: Instance,
        acts: &mut Listed<Act>,
    ) -> Result<(), NoMemory>
        ensures { OnOk result (Does (vote_shown_if self.old voted view instance) self.new acts.old acts.new) }
    {
        if voted {
            self.show_vote(view, instance, acts)?;
        }
        Ok(())
    }

    /// Shows a learning. The own proposal for the instance is repeated no more.
    pub fn show_learning(
        &mut self,
        instance: Instance,
        acts: &mut Listed<Act>,
    ) -> Result<(), NoMemory>
        ensures { OnOk result (Does (learning_shown self.old instance) self.new acts.old acts.new) }
    {
        acts.push(Act::Step(Step::Learn {
            replica: self.config.me,
            instance,
        }))?;
        acts.push(Act::Cancel(Topic::Propose(instance)))
    }

    // Shows a learning, where there was one.
    fn show_learning_if(
        &mut self,
        learned: bool,
        instance: Instance,
        acts: &mut Listed<Act>,
    ) -> Result<(), NoMemory>
        ensures { OnOk result (Does (learning_shown_if self.old learned instance) self.new acts.old acts.new) }
    {
        if learned {
            self.show_learning(instance, acts)?;
        }
        Ok(())
    }

    // Takes a proposal, once the own view is raised.
    fn take_proposal(
        &mut self,
        from: ReplicaId,
        propose: Propose,
        acts: &mut Listed<Act>,
    ) -> Result<(), NoMemory>
        requires from { from < self.old.log.n }
        requires me { self.old.config.me < self.old.log.n }
        ensures { OnOk result (Does (proposal_taken self.old from propose) self.new acts.old acts.new) }
    {
        let (view, instance) = (propose.view, propose.instance);
        let working = self.works();
        let told = on_propose(
            &mut self.log,
            self.config.me,
            working,
            self.view,
            from,
            propose,
        )?;
        self.show_vote_if(told.voted, view, instance, acts)?;
        self.show_learning_if(told.learned, instance, acts)
    }

    // Takes a proposal, where the log counts its sender and the own replica.
    fn take_proposal_if(
        &mut self,
        from: ReplicaId,
        propose: Propose,
        acts: &mut Listed<Act>,
    ) -> Result<(), NoMemory>
        ensures { OnOk result (Does (proposal_taken_if self.old from propose) self.new acts.old acts.new) }
    {
        if self.counts(from) && self.counts(self.config.me) {
            self.take_proposal(from, propose, acts)?;
        }
        Ok(())
    }

    // Raises to the view of a proposal, and takes it.
    fn follow_proposal(
        &mut self,
        from: ReplicaId,
        propose: Propose,
        acts: &mut Listed<Act>,
    ) -> Result<(), NoMemory>
        ensures { OnOk result (Does (proposal_followed self.old from propose) self.new acts.old acts.new) }
    {
        self.raise_up_to(propose.view, acts)?;
        self.take_proposal_if(from, propose, acts)
    }

    // Hears of the instance of a proposal, and follows it.
    fn hear_proposal(
        &mut self,
        from: ReplicaId,
        propose: Propose,
        acts: &mut Listed<Act>,
    ) -> Result<(), NoMemory>
        ensures { OnOk result (Does (proposal_heard self.old from propose) self.new acts.old acts.new) }
    {
        self.horizon_to(propose.instance.saturating_add(1));
        self.follow_proposal(from, propose, acts)
    }

    /// Propose of its view's leader: it is heard of, raised to, noted, voted on, and may be learned by now.
    pub fn on_propose(
        &mut self,
        from: ReplicaId,
        propose: Propose,
        acts: &mut Listed<Act>,
    ) -> Result<(), NoMemory>
        ensures { OnOk result (Does (on_propose self.old from propose) self.new acts.old acts.new) }
    {
        if self.leads(from, propose.view) {
            self.hear_proposal(from, propose, acts)?;
        }
        Ok(())
    }

    // Takes an acceptance, where the log counts its sender.
    fn take_acceptance(
        &mut self,
        from: ReplicaId,
        accept: Accept,
        acts: &mut Listed<Act>,
    ) -> Result<(), NoMemory>
        ensures { OnOk result (Does (acceptance_taken self.old from accept) self.new acts.old acts.new) }
    {
        if self.counts(from) {
            let learned = on_accept(&mut self.log, from, accept)?;
            self.show_learning_if(learned, accept.instance, acts)?;
        }
        Ok(())
    }

    /// Accept: it is heard of and noted, and the instance may be learned by now.
    pub fn on_accept(
        &mut self,
        from: ReplicaId,
        accept: Accept,
        acts: &mut Listed<Act>,
    ) -> Result<(), NoMemory>
        ensures { OnOk result (Does (on_accept self.old from accept) self.new acts.old acts.new) }
    {
        self.horizon_to(accept.instance.saturating_add(1));
        self.take_acceptance(from, accept, acts)
    }
}

// The Accept of an instance.
fn accept_of(view: View, instance: Instance) -> Message
    ensures { result ≡ accept_of view instance }
{
    Message::Accept(Accept { view, instance })
}
