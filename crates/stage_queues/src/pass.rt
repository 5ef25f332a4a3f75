//! What is known of one side of a lane, or of more sides of it once they are joined.

ghost use Rattle.std.specs.Prelude.{◌≡◌, ◌∷◌, [], ◌++◌, ◌-◌, ◌≤◌, ◌<◌, false, length, IfSome, IfOk, IsNone, MatchResult, MatchOption};
ghost use Rattle.stage_queues.specs.Lanes.{Agrees, AreWhole, Begins, EmptyThen, HeldThen, IsInletPass, IsOfOne, IsOutletPass, ends, full_log, inlet_pass, joined, log_of, outlet_pass, log_after, taken_of, told_log};

use crate::bell::{Bell, Waiter};
use crate::rule::{Answer, Counts, Joins, Keeps, Puts, Queue, Seat, Takes};
use crate::taken::Taken;
use std::alloc::Global;
use std::marker::{Brand, Model};
use std::sync::{Arc, Wait};

/// The queue's own pass for one side of a lane, or for several that were joined. A running program reads nothing of it.
#[derive(Drop)]
pub struct Pass<T: Drop> {
    pub(crate) queue: Arc<Queue<T>, Global>,
    pub(crate) seat: Seat<T>,
}

impl<T: Drop> Model for Pass<T> {
    ghost use Rattle.std.specs.Prelude.{◌≡◌};
    ghost use Rattle.std.specs.Arc.{arc_value};
    ghost use Rattle.crossbeam_queue.specs.Passes.{IsPassOf, ruled_capacity};
    ghost use Rattle.crossbeam_queue.specs.Passes as passes;
    ghost use Rattle.stage_queues.specs.Lanes.{PassSeen};
    ghost use Rattle.stage_queues.specs.Rule.{seen};

    ghost Value = { PassSeen T };

    ghost view = { λ p. seen p.seat.table_id (passes.view p.seat) };

    ghost invariant = { λ p. IsPassOf (arc_value p.queue) p.seat × ((passes.view p.seat).capacity ≡ ruled_capacity (arc_value p.queue)) };
}

impl<T: Drop> Pass<T> {
    /// Takes the other pass of this lane in. Where the consumer's is then among them, the two sides agree: what was taken
    /// and what the lane still holds are one list, in which the items of each producer are those that it put, in order.
    /// So what was taken of a producer begins what it put, and is all of it once its End was taken.
    pub fn join(&mut self, other: Pass<T>)
        requires lane { other.lane ≡ self.old.lane }
        ensures lists { self.new ≡ joined self.old other }
        ensures agree { Agrees self.new }
        ensures begins { Begins self.new }
        ensures whole { AreWhole self.new }
        ensures one { IsOfOne self.new }
    {
        let Pass { queue: _, seat } = other;
        self.queue.absorb::<Joins>(&mut self.seat, seat);
        self.queue.learn_as::<Joins>(&mut self.seat);
    }

    /// Pushes a element of this producer, and hands it back only where the lane was full at a step of this call.
    pub(crate) fn push<R: Wait>(
        &mut self,
        rt: &R,
        number: u8,
        element: Taken<T>,
    ) -> Result<(), Taken<T>>
        requires inlet { IsInletPass self.old × (number ≡ (log_of self.old).number) }
        ensures { MatchResult result
            (λ _. self.new ≡ inlet_pass self.old.lane (log_after element (log_of self.old)))
            (λ back. (back ≡ element) × (self.new ≡ self.old) × HeldThen self.old.lane (log_of self.old) self.old.lane.capacity) }
    {
        match self
            .queue
            .push_as::<Puts, R>(rt, &mut self.seat, (number, element))
        {
            Ok(()) => Ok(()),
            Err((_, back)) => Err(back),
        }
    }

    /// Tries until the element is in, and waits on the bell that is rung when there is room.
    pub(crate) fn push_waiting<R: Wait>(
        &mut self,
        rt: &R,
        number: u8,
        mut element: Taken<T>,
        room: &Bell,
    )
        requires inlet { IsInletPass self.old × (number ≡ (log_of self.old).number) }
        ensures { self.new ≡ inlet_pass self.old.lane (log_after element (log_of self.old)) }
    {
        let mut waiter = Waiter::new();
        for _ in rt.forever() {
            match self.push(rt, number, element) {
                Ok(()) => return,
                Err(back) => element = back,
            }
            waiter.pause(rt, room);
        }
        unreachable!()
    }

    /// Counts a put that was Full.
    pub(crate) fn count(&mut self)
        requires inlet { IsInletPass self.old }
        ensures { self.new ≡ inlet_pass self.old.lane (full_log (log_of self.old)) }
    {
        let _ = self.queue.another::<Counts>(&mut self.seat);
    }

    /// The room at a step of this call.
    pub(crate) fn room<R: Wait>(&mut self, rt: &R) -> usize
        requires inlet { IsInletPass self.old }
        ensures pass { self.new ≡ self.old }
        ensures room { (result ≤ self.old.lane.capacity) × HeldThen self.old.lane (log_of self.old) (self.old.lane.capacity - result) }
    {
        let capacity = self.queue.capacity();
        capacity - self.queue.len_as::<Puts, R>(rt, &mut self.seat)
    }

    fn keep_of<N: Answer>(&mut self, room: usize) -> usize
        requires inlet { IsInletPass self.old }
        requires answer { room ≡ N.room }
        ensures room { result ≡ room }
        ensures pass { self.new ≡ inlet_pass self.old.lane (told_log room (log_of self.old)) }
    {
        let _ = self.queue.another::<Keeps<N>>(&mut self.seat);
        room
    }

    /// Keeps the room that this producer was told.
    pub(crate) fn keep(&mut self, room: usize) -> usize
        requires inlet { IsInletPass self.old }
        ensures room { result ≡ room }
        ensures pass { self.new ≡ inlet_pass self.old.lane (told_log room (log_of self.old)) }
    {
        self.keep_of::<Brand>(room)
    }

    /// Pops a element. None only where the lane was empty at a step of this call.
    pub(crate) fn pop<R: Wait>(&mut self, rt: &R) -> Option<(u8, Taken<T>)>
        requires outlet { IsOutletPass self.old }
        ensures { MatchOption result
            ((self.new ≡ self.old) × EmptyThen self.old.lane (taken_of self.old))
            (λ element. (self.new ≡ outlet_pass self.old.lane (taken_of self.old ++ element ∷ [])) × (element.0 < self.old.lane.producers) × (ends element.0 (taken_of self.old) ≡ false)) }
    {
        self.queue.pop_as::<Takes, R>(rt, &mut self.seat)
    }
}
