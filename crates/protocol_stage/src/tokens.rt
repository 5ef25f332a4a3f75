//! By what the armed messages of a life are cancelled.

ghost use Rattle.std.specs.Prelude.{◌≡◌, ◌==◌, OnOk, drop, position};
ghost use Rattle.std.specs.List.{slice_get};
ghost use Rattle.std.specs.Option.{option_map};
ghost use Rattle.protocol_stage.specs.Repeating.{keeping, newest, newest_propose, no_tokens, with_propose, without_newest, without_newest_propose};

use jp_types::memory::NoMemory;
use jp_types::message::Instance;
use protocol_core::act::Topic;
use retransmitter::outgoing::Armed;
use std::alloc::Global;
use std::collections::VecDeque;
use std::marker::Model;

/// What is kept of each armed message, by its topic. A message that found no slot leaves nothing to keep.
#[derive(Drop)]
pub struct Tokens {
    prepare: Option<Armed>,
    recovery: Option<Armed>,
    query: Option<Armed>,
    /// Of each armed proposal, the newest first.
    proposes: VecDeque<(Instance, Armed)>,
}

impl Model for Tokens {
    ghost use Rattle.protocol_stage.specs.Repeating.{Tokens as Name};

    ghost Value = { Name };

    ghost view = { λ t. record { prepare = t.prepare; recovery = t.recovery; query = t.query; proposes = t.proposes.items } };
}

impl Tokens {
    /// Nothing is armed.
    pub fn none(alloc: Global) -> Tokens
        ensures { result ≡ no_tokens }
    {
        Tokens {
            prepare: None,
            recovery: None,
            query: None,
            proposes: VecDeque::new(alloc),
        }
    }

    // Keeps by what a proposal for this instance is cancelled, if it was armed.
    fn keep_propose(&mut self, instance: Instance, armed: Option<Armed>) -> Result<(), NoMemory>
        ensures { OnOk result (self.new ≡ record self.old { proposes = with_propose instance armed self.old.proposes }) }
    {
        if let Some(armed) = armed {
            self.proposes.push_front((instance, armed))?;
        }
        Ok(())
    }

    /// Keeps by what the newest message of a topic is cancelled, if it was armed.
    pub fn keep(&mut self, topic: Topic, armed: Option<Armed>) -> Result<(), NoMemory>
        ensures { OnOk result (self.new ≡ keeping topic armed self.old) }
    {
        match topic {
            Topic::Prepare => self.prepare = armed,
            Topic::Recovery => self.recovery = armed,
            Topic::Query => self.query = armed,
            Topic::Propose(instance) => return self.keep_propose(instance, armed),
        }
        Ok(())
    }

    // Where the newest proposal for an instance stands.
    fn place_of(&self, instance: Instance) -> Option<usize>
        ensures { result ≡ position (λ a. a.0 == instance) self.now.proposes }
    {
        self.proposes.iter().position(|kept| kept.0 == instance)
    }

    // Takes out by what the newest proposal for an instance is cancelled.
    fn take_propose(&mut self, instance: Instance) -> Option<Armed>
        ensures taken { result ≡ newest_propose instance self.old.proposes }
        ensures rest { self.new ≡ record self.old { proposes = without_newest_propose instance self.old.proposes } }
    {
        let place = self.place_of(instance)?;
        let (_instance, armed) = self.proposes.remove(place)?;
        Some(armed)
    }

    /// Takes out by what the newest message of a topic is cancelled.
    pub fn take(&mut self, topic: Topic) -> Option<Armed>
        ensures taken { result ≡ newest topic self.old }
        ensures rest { self.new ≡ without_newest topic self.old }
    {
        match topic {
            Topic::Prepare => self.prepare.take(),
            Topic::Recovery => self.recovery.take(),
            Topic::Query => self.query.take(),
            Topic::Propose(instance) => self.take_propose(instance),
        }
    }

    /// Takes out by what the newest proposal is cancelled.
    pub fn take_newest_propose(&mut self) -> Option<Armed>
        ensures taken { result ≡ option_map (λ a. a.1) (slice_get self.old.proposes 0) }
        ensures rest { self.new ≡ record self.old { proposes = drop 1 self.old.proposes } }
    {
        let (_instance, armed) = self.proposes.pop_front()?;
        Some(armed)
    }
}
