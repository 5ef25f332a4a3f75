//! What a stage does with the acts of a life: it arms and cancels, and hands out the others.

ghost use Rattle.std.specs.Prelude.{◌≡◌, ◌++◌, ℕ, Option, IfOk, OnOk, is_some};
ghost use Rattle.std.specs.List.{slice_get};
ghost use Rattle.retransmitter.specs.Slots.{claim_of, lent_of, next_live, slots_in};
ghost use Rattle.protocol_stage.specs.Performing.{Repeats, RepeatsAfter, Takes, outward, outward_of};
ghost use Rattle.protocol_stage.specs.Repeating.{armed_for, armed_in, cancelled_for, newest, newest_cancelled, newest_propose_cancelled, unarmed, without_proposes};

use crate::tokens::Tokens;
use jp_types::listed::Listed;
use jp_types::memory::NoMemory;
use protocol_core::act::{Act, Topic};
use retransmitter::arms::Arms;
use retransmitter::outgoing::{Armed, Outgoing};
use retransmitter::slots::{Lent, Slots};
use std::alloc::Global;
use std::marker::Model;

/// What repeats the messages of a life, and by what each is cancelled.
#[derive(Drop)]
pub struct Repeating<A: Arms + Drop> {
    arms: A,
    tokens: Tokens,
}

impl<A: Arms + Drop> Model for Repeating<A> {
    ghost use Rattle.protocol_stage.specs.Repeating.{Repeating as Name};

    ghost Value = { Name };

    ghost view = { λ r. record { slots = A.slots r.arms; tokens = r.tokens } };
}

// Arms a message, and tells by what it is cancelled; `None` where it found no slot.
fn arm<A: Arms>(arms: &mut A, outgoing: Outgoing) -> Option<Armed>
    ensures { (k : Option ℕ) × Takes A.may_take (A.slots arms.old) k × (result ≡ armed_in (A.slots arms.old) k) × (A.slots arms.new ≡ slots_in (A.slots arms.old) outgoing k) }
{
    arms.arm(outgoing).ok()
}

impl<A: Arms + Drop> Repeating<A> {
    /// Nothing is armed yet.
    pub fn new(alloc: Global, arms: A) -> Repeating<A>
        ensures { result ≡ unarmed (A.slots arms) }
    {
        Repeating {
            arms,
            tokens: Tokens::none(alloc),
        }
    }

    // Repeats a message from now on, where a slot is free for it.
    fn arm(&mut self, topic: Topic, outgoing: Outgoing) -> Result<(), NoMemory>
        ensures { OnOk result ((k : Option ℕ) × Takes A.may_take self.old.slots k × (self.new ≡ armed_for topic outgoing k self.old)) }
    {
        let armed = arm(&mut self.arms, outgoing);
        self.tokens.keep(topic, armed)
    }

    // Repeats the newest message of a topic no more, if one is armed, and tells whether one was.
    fn cancel_newest(&mut self, topic: Topic) -> bool
        ensures was { result ≡ is_some (newest topic self.old.tokens) }
        ensures after { self.new ≡ newest_cancelled topic self.old }
    {
        match self.tokens.take(topic) {
            Some(armed) => {
                self.arms.cancel(armed);
                true
            }
            None => false,
        }
    }

    // Repeats no message of this topic.
    fn cancel(&mut self, topic: Topic)
        ensures { self.new ≡ cancelled_for topic self.old }
    {
        while self.cancel_newest(topic) {}
    }

    // Repeats the newest proposal no more, if one is armed, and tells whether one was.
    fn cancel_newest_propose(&mut self) -> bool
        ensures was { result ≡ is_some (slice_get self.old.tokens.proposes 0) }
        ensures after { self.new ≡ newest_propose_cancelled self.old }
    {
        match self.tokens.take_newest_propose() {
            Some(armed) => {
                self.arms.cancel(armed);
                true
            }
            None => false,
        }
    }

    // Repeats no proposal.
    fn cancel_proposes(&mut self)
        ensures { self.new ≡ without_proposes self.old }
    {
        while self.cancel_newest_propose() {}
    }

    // Performs one act: arms or cancels, or hands the act out.
    fn perform(&mut self, act: Act, out: &mut Listed<Act>) -> Result<(), NoMemory>
        ensures out { OnOk result (out.new ≡ out.old ++ outward_of act) }
        ensures repeated { OnOk result (RepeatsAfter A.may_take act self.old self.new) }
    {
        match act {
            Act::Step(step) => out.push(Act::Step(step)),
            Act::Send { to, message } => out.push(Act::Send { to, message }),
            Act::Hand(decision) => out.push(Act::Hand(decision)),
            Act::Save(_) => Ok(()),
            Act::Arm { topic, outgoing } => self.arm(topic, outgoing),
            Act::Cancel(topic) => {
                self.cancel(topic);
                Ok(())
            }
            Act::CancelProposes => {
                self.cancel_proposes();
                Ok(())
            }
        }
    }

    /// Performs acts whose number is saved. The answer is those that go out, in order.
    pub fn perform_all(&mut self, alloc: Global, acts: Listed<Act>) -> Result<Listed<Act>, NoMemory>
        ensures out { IfOk result (λ out. out ≡ outward acts) }
        ensures repeated { OnOk result (Repeats A.may_take acts self.old self.new) }
    {
        let mut out = Listed::empty(alloc);
        for act in acts.into_vec() {
            self.perform(act, &mut out)?;
        }
        Ok(out)
    }
}

impl Repeating<Slots> {
    /// The generation and the message of a slot, `None` exactly where it is not live.
    pub fn lent(&self, slot: u16) -> Option<Lent<'_>>
        ensures { lent_of result ≡ claim_of self.now.slots slot }
    {
        self.arms.lent(slot)
    }

    /// The first live slot from `cursor` on, going round over all slots.
    pub fn next_live(&self, cursor: u16) -> Option<u16>
        ensures { result ≡ next_live self.now.slots cursor }
    {
        self.arms.next_live(cursor)
    }
}
