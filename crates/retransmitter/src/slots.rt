//! The slots of a retransmitter that stands on one thread.

ghost use Rattle.std.specs.Prelude.{◌≡◌, ◌<◌, ◌==◌, if◌then◌else◌, IfOk, IfSome, length, is_some, suc, true};
ghost use Rattle.std.specs.Borrow.{sem};
ghost use Rattle.retransmitter.specs.Slots.{arm_answer, armed_at, cancelled, claim_of, free_slots, generation_at, is_free, least_free, lent_of, live_at, next_live, slot_at, slots_armed};
ghost use Rattle.retransmitter.specs.Lending.{KeepsSlots};

use crate::arms::Arms;
use crate::outgoing::{Armed, Full, Outgoing};
use crate::slot_set::SlotSet;
use jp_types::memory::NoMemory;
use std::alloc::Global;
use std::marker::Model;

/// How many slots there are.
pub const SLOTS: usize = 256;

/// A slot whose generation has come to this is not armed again.
const GENERATION_LIMIT: u64 = (1 << 62) - 1;

/// A place for one message that is repeated.
#[derive(Debug, Drop)]
pub struct Slot {
    /// How often a message was armed here.
    pub generation: u64,
    /// What is repeated, if the slot is live.
    pub live: Option<Outgoing>,
}

impl Slot {
    fn is_free(&self) -> bool
        ensures { result ≡ is_free self.now }
    {
        self.live.is_none() && self.generation < GENERATION_LIMIT
    }
}

// Ends what a slot repeats, where it has this generation. Whether the slot is free after that.
fn end(slot: &mut Slot, generation: u64) -> bool
    ensures slot { slot.new ≡ (if slot.old.generation == generation then record { generation = generation; live = None } else slot.old) }
    ensures free { result ≡ is_free slot.new }
{
    if slot.generation == generation {
        slot.live = None;
    }
    slot.is_free()
}

/// A live slot's generation and message.
#[derive(Clone, Copy, Debug)]
pub struct Lent<'a> {
    pub generation: u64,
    pub outgoing: &'a Outgoing,
}

/// 256 slots, of which an arm takes the least that is free, at the same few steps however many are live. Once they are
/// made, nothing takes memory.
#[derive(Debug, Drop)]
pub struct Slots {
    slots: Vec<Slot>,
    // The slots that are free, so that an arm looks at no other.
    free: SlotSet,
}

impl Model for Slots {
    ghost use Rattle.std.specs.Prelude.{List, length, ◌≡◌};
    ghost use Rattle.retransmitter.specs.declared.slots.Slot.{Slot};
    ghost use Rattle.retransmitter.specs.SlotSets.{HasFree};

    ghost Value = { List Slot };

    ghost view = { λ s. s.slots.items };

    ghost invariant = { λ s. (length s.slots.items ≡ 256) × HasFree s.free.words s.slots.items };
}

impl Slots {
    /// Free slots, none of which was armed yet.
    #[tactic(auto, unfolding(crate::specs::Slots::free_slots))]
    pub fn new(alloc: Global) -> Result<Slots, NoMemory>
        ensures { IfOk result (λ slots. slots ≡ free_slots) }
    {
        let mut slots = Vec::with_capacity(alloc, SLOTS)?;
        for _ in 0..SLOTS {
            slots.push(Slot {
                generation: 0,
                live: None,
            })?;
        }
        Ok(Slots {
            slots,
            free: SlotSet::all(),
        })
    }

    // The least slot that may be armed.
    fn least_free(&self) -> Option<u16>
        ensures least { result ≡ least_free self.now }
        ensures free { IfSome result (λ slot. is_free (slot_at self.now slot) ≡ true) }
    {
        let _ = &self.slots;
        self.free.least()
    }

    // Arms a message in a slot that is free.
    fn arm_at(&mut self, slot: u16, m: Outgoing) -> Armed
        requires inside { slot < length self.old }
        requires free { is_free (slot_at self.old slot) ≡ true }
        ensures armed { result ≡ record { slot = slot; generation = suc (generation_at self.old slot) } }
        ensures slots { self.new ≡ armed_at self.old slot m }
    {
        self.free.set(slot, false);
        let place = &mut self.slots[slot as usize];
        place.generation += 1;
        place.live = Some(m);
        Armed {
            slot,
            generation: place.generation,
        }
    }

    /// The generation and the message of a slot, `None` exactly where it is not live. No slot changes.
    pub fn claim(&mut self, slot: u16) -> Option<Lent<'_>>
        ensures* kept { sem 𝓛 (KeepsSlots self.entry) }
        ensures lent { lent_of result ≡ claim_of self.old slot }
    {
        self.lent(slot)
    }

    /// The same as a claim, over slots that are only read.
    pub fn lent(&self, slot: u16) -> Option<Lent<'_>>
        ensures { lent_of result ≡ claim_of self.now slot }
    {
        let slot = self.slots.get(slot as usize)?;
        let outgoing = slot.live.as_ref()?;
        Some(Lent {
            generation: slot.generation,
            outgoing,
        })
    }

    fn is_live(&self, slot: u16) -> bool
        ensures { result ≡ is_some (live_at self.now slot) }
    {
        self.lent(slot).is_some()
    }

    /// The first live slot from `cursor` on, going round over all slots.
    pub fn next_live(&self, cursor: u16) -> Option<u16>
        ensures { result ≡ next_live self.now cursor }
    {
        let mut slot = cursor;
        for _ in 0..SLOTS {
            if self.is_live(slot) {
                return Some(slot);
            }
            slot = ((slot as u32 + 1) % 256) as u16;
        }
        None
    }
}

impl Arms for Slots {
    ghost use Rattle.std.specs.Prelude.{◌≡◌, IfErr, IfOk, OnErr};
    ghost use Rattle.retransmitter.specs.Slots.{IsArmed, arm_answer, cancelled, least_free, slot_of, slots_armed};

    ghost slots = { λ s. s };

    ghost may_take = { λ slots k. k ≡ least_free slots };

    /// Takes the least slot that is free: one that is not live, unless it was armed 2^62 - 1 times.
    fn arm(&mut self, m: Outgoing) -> Result<Armed, Full>
        ensures answer { result ≡ arm_answer self.old m }
        ensures slots { self.new ≡ slots_armed self.old m }
        ensures armed { IfOk result (λ a. IsArmed self.old m a self.new) }
        ensures full { IfErr result (λ full. full.0 ≡ m) }
        ensures kept { OnErr result (self.new ≡ self.old) }
        ensures choice { slot_of result ≡ least_free self.old }
    {
        match self.least_free() {
            Some(slot) => Ok(self.arm_at(slot, m)),
            None => Err(Full(m)),
        }
    }

    fn cancel(&mut self, a: Armed)
        ensures { self.new ≡ cancelled self.old a }
    {
        if let Some(slot) = self.slots.get_mut(a.slot as usize) {
            let free = end(slot, a.generation);
            self.free.set(a.slot, free);
        }
    }
}

#[cfg(test)]
mod tests {
    use super::*;
    use jp_types::message::{Alive, Message};
    use jp_types::replica_set::ReplicaSet;
    use std::test::Fail;

    // Messages are told apart by their views.
    fn alive(view: u64) -> Outgoing {
        Outgoing {
            to: ReplicaSet::none().with(1),
            message: Message::Alive(Alive {
                view,
                first_undecided: 0,
            }),
        }
    }

    fn view_of(outgoing: &Outgoing) -> Option<u64> {
        match outgoing.message {
            Message::Alive(alive) => Some(alive.view),
            _ => None,
        }
    }

    fn claimed(slots: &mut Slots, slot: u16) -> Option<(u64, Option<u64>)>
        ensures { slots.new ≡ slots.old }
    {
        let lent = slots.claim(slot)?;
        Some((lent.generation, view_of(lent.outgoing)))
    }

    fn arm<A: Arms>(arms: &mut A, view: u64) -> Result<Armed, Full> {
        arms.arm(alive(view))
    }

    #[test]
    fn a_slot_is_armed_anew(rt: HostRuntime) -> Result<(), Fail> {
        let mut slots = Slots::new(rt.alloc())?;
        for (view, generation) in [(7, 1), (9, 2)] {
            assert_eq!(rt; slots.next_live(255), None);
            let Ok(armed) = arm(&mut slots, view) else {
                return Err(Fail::new("no slot was free"));
            };
            assert_eq!(rt; (armed.slot, armed.generation), (0, generation));
            assert_eq!(rt; claimed(&mut slots, 0), Some((generation, Some(view))));
            assert_eq!(rt; claimed(&mut slots, 256), None);
            assert_eq!(rt; slots.next_live(255), Some(0));
            slots.cancel(armed);
            assert_eq!(rt; claimed(&mut slots, 0), None);
        }
        Ok(())
    }

    #[test]
    fn slots_are_full_at_256(rt: HostRuntime) -> Result<(), Fail> {
        let mut slots = Slots::new(rt.alloc())?;
        for view in 0..256 {
            assert!(rt; arm(&mut slots, view).is_ok());
        }
        match arm(&mut slots, 256) {
            Ok(_) => assert!(rt; false),
            Err(full) => assert_eq!(rt; view_of(&full.0), Some(256)),
        }
        assert_eq!(rt; slots.next_live(255), Some(255));
        assert_eq!(rt; claimed(&mut slots, 255), Some((1, Some(255))));
        Ok(())
    }
}
