//! What is to come over a link in memory.

ghost use Rattle.std.specs.Prelude.{◌≡◌, ◌<◌, ◌≤◌, Ok, Some, length, drop, min};
ghost use Rattle.links.specs.Receiving.{FitsRoom, ReceiveConsumes};
ghost use Rattle.links.specs.Scripts.{arrival, bytes_or_end};

use crate::came::Came;
use jp_types::fault::Failed;
use std::collections::VecDeque;
use std::marker::Model;

/// Bytes that are to come, and how the receives bring them: so many, none, or the end. Behind the last turn come the bytes
/// that are left, and then the end.
#[derive(Debug, Drop)]
pub struct Arrivals {
    bytes: Vec<u8>,
    at: usize,
    turns: VecDeque<Came>,
}

impl Model for Arrivals {
    ghost use Rattle.std.specs.Prelude.{◌≤◌, drop, length};
    ghost use Rattle.links.specs.Scripts.{Coming};

    ghost Value = { Coming };

    ghost view = { λ a. record { bytes = drop a.at a.bytes.items; turns = a.turns.items } };

    ghost invariant = { λ a. a.at ≤ length a.bytes.items };
}

impl Arrivals {
    pub fn new(bytes: Vec<u8>, turns: Vec<Came>) -> Arrivals
        ensures { result ≡ record { bytes = bytes.items; turns = turns.items } }
    {
        Arrivals {
            bytes,
            at: 0,
            turns: VecDeque::from(turns),
        }
    }

    /// At most so many of the bytes that are left.
    fn bytes(&mut self, most: usize, room: &mut [u8]) -> Came
        requires { most ≤ length room.old }
        ensures answer { result ≡ bytes_or_end (min most (length self.old.bytes)) }
        ensures bytes { ReceiveConsumes {E = Failed} (Some self.old.bytes) (Some self.new.bytes) (Ok result) room.new }
        ensures turns { self.new.turns ≡ self.old.turns }
    {
        let rest = &self.bytes[self.at..];
        let count = most.min(rest.len());
        if count == 0 {
            return Came::Ended;
        }
        for i in 0..count {
            room[i] = rest[i];
        }
        self.at += count;
        Came::Bytes(count)
    }

    /// What the next receive brings.
    pub fn receive(&mut self, room: &mut [u8]) -> Came
        requires { 0 < length room.old }
        ensures answer { result ≡ arrival self.old.turns (length self.old.bytes) (length room.old) }
        ensures bound { FitsRoom result (length room.new) }
        ensures bytes { ReceiveConsumes {E = Failed} (Some self.old.bytes) (Some self.new.bytes) (Ok result) room.new }
        ensures turns { self.new.turns ≡ drop 1 self.old.turns }
    {
        let most = room.len();
        match self.turns.pop_front() {
            None => self.bytes(most, room),
            Some(Came::Bytes(count)) => self.bytes(count.min(most), room),
            Some(Came::Quiet) => Came::Quiet,
            Some(Came::Ended) => Came::Ended,
        }
    }
}
