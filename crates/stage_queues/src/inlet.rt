//! A producer's end of a lane.

ghost use Rattle.std.specs.Prelude.{◌≡◌, ◌∷◌, [], ◌-◌, ◌≤◌, IfErr, OnOk};
ghost use Rattle.stage_queues.specs.Lanes.{HeldThen, IsInletPass, after_full, after_put, after_room, ended_log, inlet_pass, log_of, new_inlet};

use crate::lane::Bells;
use crate::pass::Pass;
use crate::taken::{Full, Taken};
use std::marker::Model;
use std::sync::Wait;

/// A producer's end of a lane.
#[derive(Drop)]
pub struct Inlet<T: Drop> {
    pass: Pass<T>,
    number: u8,
    /// How many puts find room without fail, since only this producer puts. Such a put tries until it is in.
    spare: usize,
    bells: Bells,
}

impl<T: Drop> Model for Inlet<T> {
    ghost use Rattle.std.specs.Prelude.{◌≡◌};
    ghost use Rattle.stage_queues.specs.Lanes.{InletSeen, IsInletPass, log_of};

    ghost Value = { InletSeen T };

    ghost view = { λ i. record { lane = i.pass.lane; log = log_of i.pass; spare = i.spare } };

    ghost invariant = { λ i. IsInletPass i.pass × (i.number ≡ (log_of i.pass).number) };
}

impl<T: Drop> Inlet<T> {
    pub(crate) fn new(pass: Pass<T>, number: u8, bells: Bells) -> Inlet<T>
        requires pass { IsInletPass pass × (number ≡ (log_of pass).number) }
        ensures { result ≡ record { lane = pass.lane; log = log_of pass; spare = 0 } }
    {
        Inlet {
            pass,
            number,
            spare: 0,
            bells,
        }
    }

    /// Puts an item, or hands it back where the lane was full at a step of this call.
    pub fn put<R: Wait>(&mut self, rt: &R, x: T) -> Result<(), Full<T>>
        ensures ok { OnOk result (self.new ≡ after_put self.old x) }
        ensures full { IfErr result (λ full. (full.0 ≡ x) × (self.new ≡ after_full self.old)) }
        ensures only_where { IfErr result (λ _. (self.old.spare ≡ 0) × HeldThen self.old.lane self.old.log self.old.lane.capacity) }
        ensures lane { self.new.lane ≡ self.old.lane }
    {
        if self.spare > 0 {
            self.put_waiting(rt, x);
            return Ok(());
        }
        match self.pass.push(rt, self.number, Taken::Item(x)) {
            Ok(()) => {
                self.bells.elements.ring();
                Ok(())
            }
            Err(Taken::Item(x)) => {
                self.pass.count();
                Err(Full(x))
            }
            Err(Taken::End) => unreachable!(),
        }
    }

    /// How many more items the lane had room for at a step of this call. So many next puts are not Full, since no other
    /// producer puts.
    pub fn room<R: Wait>(&mut self, rt: &R) -> usize
        requires one { self.old.lane.producers ≡ 1 }
        ensures told { self.new ≡ after_room self.old result }
        ensures room { (result ≤ self.old.lane.capacity) × HeldThen self.old.lane self.old.log (self.old.lane.capacity - result) }
    {
        let room = self.pass.room(rt);
        self.spare = self.pass.keep(room);
        room
    }

    /// Tries until the item is in. While the lane is full, it rests in between.
    pub fn put_waiting<R: Wait>(&mut self, rt: &R, x: T)
        ensures { self.new ≡ after_put self.old x }
    {
        let bells = &self.bells;
        self.pass
            .push_waiting(rt, self.number, Taken::Item(x), &bells.room);
        bells.elements.ring();
        self.spare = self.spare.saturating_sub(1);
    }

    /// Puts End, this producer's last word, and hands back its pass. It waits for room as `put_waiting` does.
    pub fn end<R: Wait>(self, rt: &R) -> Pass<T>
        ensures { result ≡ inlet_pass self.lane (ended_log self.log) }
    {
        let Inlet {
            mut pass,
            number,
            spare: _,
            bells,
        } = self;
        pass.push_waiting(rt, number, Taken::End, &bells.room);
        bells.elements.ring();
        pass
    }

    /// This side's pass as it is now.
    pub fn pass(&self) -> &Pass<T>
        ensures { result.now ≡ inlet_pass self.now.lane self.now.log }
    {
        &self.pass
    }
}
