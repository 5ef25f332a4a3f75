//! The consumer's end of a lane.

ghost use Rattle.std.specs.Prelude.{◌≡◌, ◌<◌, ◌≤◌, ◌-◌, ◌↔◌, ◌++◌, ◌∷◌, [], true, false, if◌then◌else◌, IfSome, IfNone};
ghost use Rattle.stage_queues.specs.Lanes.{EmptyThen, IsFinished, IsOutletPass, TakesItemOf, after_take, all_items, count_running, ends, ends_in, items_in, outlet_pass, taken_of};

use crate::bell::Waiter;
use crate::lane::Bells;
use crate::pass::Pass;
use crate::taken::Taken;
use std::marker::Model;
use std::sync::Wait;

/// The consumer's end of a lane.
#[derive(Drop)]
pub struct Outlet<T: Drop> {
    pass: Pass<T>,
    /// How many producers' End was not taken yet.
    running: u8,
    bells: Bells,
}

impl<T: Drop> Model for Outlet<T> {
    ghost use Rattle.std.specs.Prelude.{◌≡◌};
    ghost use Rattle.stage_queues.specs.Lanes.{IsOutletPass, OutletSeen, count_running, taken_of};

    ghost Value = { OutletSeen T };

    ghost view = { λ o. record { lane = o.pass.lane; taken = taken_of o.pass } };

    ghost invariant = { λ o. IsOutletPass o.pass × (o.running ≡ count_running o.pass.lane.producers (taken_of o.pass)) };
}

impl<T: Drop> Outlet<T> {
    pub(crate) fn new(pass: Pass<T>, bells: Bells, producers: u8) -> Outlet<T>
        requires pass { IsOutletPass pass × (taken_of pass ≡ []) }
        requires producers { producers ≡ pass.lane.producers }
        ensures { result ≡ record { lane = pass.lane; taken = [] } }
    {
        Outlet {
            pass,
            running: producers,
            bells,
        }
    }

    /// Takes the oldest that is in the lane: its producer's number, and an item or End. None only where the lane was empty
    /// at a step of this call.
    pub fn take<R: Wait>(&mut self, rt: &R) -> Option<(u8, Taken<T>)>
        ensures some { IfSome result (λ element. self.new ≡ after_take self.old element) }
        ensures items { IfSome result (λ element. all_items self.new.taken ≡ all_items self.old.taken ++ items_in (element.1 ∷ [])) }
        ensures items_of { IfSome result (λ element. TakesItemOf self.old.taken element self.new.taken) }
        ensures of_a_producer { IfSome result (λ element. element.0 < self.old.lane.producers) }
        ensures nothing_after_end { IfSome result (λ element. ends element.0 self.old.taken ≡ false) }
        ensures none { IfNone result ((self.new ≡ self.old) × EmptyThen self.old.lane self.old.taken) }
        ensures lane { self.new.lane ≡ self.old.lane }
    {
        let element = self.pass.pop(rt)?;
        self.running = running_after(self.running, &element.1);
        self.bells.room.ring();
        Some(element)
    }

    /// The same, but where the lane is empty it waits: it spins, and then rests until something is put, 20 milliseconds at
    /// most. So a caller that gets None may look after something else and call again.
    pub fn take_waiting<R: Wait>(&mut self, rt: &R) -> Option<(u8, Taken<T>)>
        ensures some { IfSome result (λ element. self.new ≡ after_take self.old element) }
        ensures items { IfSome result (λ element. all_items self.new.taken ≡ all_items self.old.taken ++ items_in (element.1 ∷ [])) }
        ensures items_of { IfSome result (λ element. TakesItemOf self.old.taken element self.new.taken) }
        ensures of_a_producer { IfSome result (λ element. element.0 < self.old.lane.producers) }
        ensures nothing_after_end { IfSome result (λ element. ends element.0 self.old.taken ≡ false) }
        ensures none { IfNone result ((self.new ≡ self.old) × EmptyThen self.old.lane self.old.taken) }
        ensures lane { self.new.lane ≡ self.old.lane }
    {
        let mut waiter = Waiter::new();
        for _ in rt.forever() {
            match self.take(rt) {
                Some(element) => return Some(element),
                None if waiter.has_rested() => return None,
                None => waiter.pause(rt, &self.bells.elements),
            }
        }
        unreachable!()
    }

    /// Whether the End of each producer was taken, after which nothing comes.
    pub fn is_finished(&self) -> bool
        ensures { (result ≡ true) ↔ IsFinished self.now }
    {
        self.running == 0
    }

    /// This side's pass as it is now.
    pub fn pass(&self) -> &Pass<T>
        ensures { result.now ≡ outlet_pass self.now.lane self.now.taken }
    {
        &self.pass
    }

    /// Gives up the outlet, and hands back its pass.
    pub fn finish(self) -> Pass<T>
        ensures { result ≡ outlet_pass self.lane self.taken }
    {
        self.pass
    }
}

// How many producers are running after one of them put this.
fn running_after<T>(running: u8, put: &Taken<T>) -> u8
    requires { ends_in (put.now ∷ []) ≡ true → 1 ≤ running }
    ensures { result ≡ (if ends_in (put.now ∷ []) then running - 1 else running) }
{
    match put {
        Taken::Item(_) => running,
        Taken::End => running - 1,
    }
}
