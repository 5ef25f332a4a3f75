//! Links and peers in memory that never fail.

ghost use Rattle.std.specs.Prelude.{◌≡◌, ◌+◌, ◌-◌, ◌^◌, ◌<◌, List, ℕ, Option, Ok, Some, None, length, drop, min, IfOk, IfSome};
ghost use Rattle.std.specs.Option.{option_map};
ghost use Rattle.links.specs.Receiving.{FitsRoom, ReceiveConsumes, CountsQuiet, CountsEnded, CountsGiven};
ghost use Rattle.links.specs.Peers.{CountsNone};
ghost use Rattle.links.specs.Scripts.{arrival, none_received, next_accept, next_dial};

use crate::arrivals::Arrivals;
use crate::came::Came;
use crate::link::Link;
use crate::peer::{Door, Peer};
use crate::received::Receipts;
use jp_types::fault::Failed;
use std::alloc::Global;
use std::collections::VecDeque;
use std::marker::Model;

/// A link in memory that never fails. It takes no memory, so it holds nothing of what was sent that could be told, and
/// keeps only how many bytes that were.
#[derive(Drop)]
pub struct SteadyLink {
    coming: Arrivals,
    taken: u64,
    received: Receipts,
}

impl Model for SteadyLink {
    ghost use Rattle.links.specs.Scripts.{Steady};

    ghost Value = { Steady };

    ghost view = { λ l. record { coming = l.coming; taken = l.taken; received = l.received } };
}

impl SteadyLink {
    pub fn new(coming: Arrivals) -> SteadyLink
        ensures { result ≡ record { coming = coming; taken = 0; received = none_received } }
    {
        SteadyLink {
            coming,
            taken: 0,
            received: Receipts::new(),
        }
    }

    /// How many bytes were sent, or 2^64 - 1 where there were more.
    pub fn taken(&self) -> u64
        ensures { result ≡ self.now.taken }
    {
        self.taken
    }
}

impl Link for SteadyLink {
    ghost left = { λ l. Some l.coming.bytes };

    ghost sent = { λ _. None };

    ghost faults = { λ _. 0 };

    ghost quiets = { λ l. l.received.quiets };

    ghost endings = { λ l. l.received.endings };

    ghost given = { λ l. l.received.given };

    /// Takes a piece whole.
    fn send(&mut self, piece: &[u8]) -> Result<usize, Failed>
        ensures all { result ≡ Ok (length piece.now) }
        ensures taken { self.new.taken ≡ min (self.old.taken + length piece.now) (2 ^ 64 - 1) }
        ensures coming { self.new.coming ≡ self.old.coming }
        ensures received { self.new.received ≡ self.old.received }
    {
        self.taken = self.taken.saturating_add(piece.len() as u64);
        Ok(piece.len())
    }

    fn receive(&mut self, room: &mut [u8]) -> Result<Came, Failed>
        requires { 0 < length room.old }
        ensures answer { result ≡ Ok (arrival self.old.coming.turns (length self.old.coming.bytes) (length room.old)) }
        ensures bound { IfOk result (λ came. FitsRoom came (length room.new)) }
        ensures bytes { ReceiveConsumes (Some self.old.coming.bytes) (Some self.new.coming.bytes) result room.new }
        ensures turns { self.new.coming.turns ≡ drop 1 self.old.coming.turns }
        ensures taken { self.new.taken ≡ self.old.taken }
        ensures quiets { CountsQuiet self.old.received.quiets self.new.received.quiets result }
        ensures endings { CountsEnded self.old.received.endings self.new.received.endings result }
        ensures given { CountsGiven self.old.received.given self.new.received.given result }
    {
        let came = self.coming.receive(room);
        self.received.count(came);
        Ok(came)
    }
}

/// A peer in memory that never fails: the links that its dials and its accepts give, in order. Behind the last of them a
/// dial gives a link over which nothing comes, and an accept gives none.
#[derive(Drop)]
pub struct SteadyPeer {
    alloc: Global,
    dials: VecDeque<Arrivals>,
    accepts: VecDeque<Option<Arrivals>>,
    nones: u64,
}

impl Model for SteadyPeer {
    ghost use Rattle.links.specs.Scripts.{SteadyLinks};

    ghost Value = { SteadyLinks };

    ghost view = { λ p. record { dials = p.dials.items; accepts = p.accepts.items; nones = p.nones } };
}

impl SteadyPeer {
    pub fn new(alloc: Global, dials: Vec<Arrivals>, accepts: Vec<Option<Arrivals>>) -> SteadyPeer
        ensures { result ≡ record { dials = dials.items; accepts = accepts.items; nones = 0 } }
    {
        SteadyPeer {
            alloc,
            dials: VecDeque::from(dials),
            accepts: VecDeque::from(accepts),
            nones: 0,
        }
    }
}

impl Peer for SteadyPeer {
    type L = SteadyLink;

    ghost faults = { λ _. 0 };

    ghost nones = { λ p. p.nones };

    fn dial(&mut self) -> Result<SteadyLink, Failed>
        ensures link { result ≡ Ok (record { coming = next_dial self.old.dials; taken = 0; received = none_received }) }
        ensures dials { self.new.dials ≡ drop 1 self.old.dials }
        ensures accepts { self.new.accepts ≡ self.old.accepts }
        ensures nones { self.new.nones ≡ self.old.nones }
    {
        match self.dials.pop_front() {
            Some(coming) => Ok(SteadyLink::new(coming)),
            None => Ok(SteadyLink::new(Arrivals::new(Vec::new(self.alloc), Vec::new(self.alloc)))),
        }
    }

    fn accept(&mut self) -> Result<Option<SteadyLink>, Failed>
        ensures link { result ≡ Ok (option_map (λ coming. record { coming = coming; taken = 0; received = none_received }) (next_accept self.old.accepts)) }
        ensures accepts { self.new.accepts ≡ drop 1 self.old.accepts }
        ensures dials { self.new.dials ≡ self.old.dials }
        ensures nones { CountsNone self.old.nones self.new.nones result }
    {
        match self.accepts.pop_front() {
            Some(Some(coming)) => Ok(Some(SteadyLink::new(coming))),
            _ => {
                self.nones = self.nones.saturating_add(1);
                Ok(None)
            }
        }
    }
}

impl Door for SteadyPeer {
    fn rest(&mut self) {}
}

#[cfg(test)]
mod tests {
    use super::*;
    use std::test::Fail;

    #[test]
    fn gives_links_over_which_the_bytes_come(rt: HostRuntime) -> Result<(), Fail> {
        let alloc = rt.alloc();
        let turns = [Came::Bytes(2), Came::Quiet, Came::Ended].to_vec(alloc)?;
        let mut dials = Vec::new(alloc);
        dials.push(Arrivals::new([1, 2, 3].to_vec(alloc)?, turns))?;
        let mut peer = SteadyPeer::new(alloc, dials, Vec::new(alloc));
        let mut room = [0; 2];
        let mut link = peer.dial().map_err(|_| "dial")?;
        assert_eq!(rt; link.receive(&mut room), Ok(Came::Bytes(2)));
        assert_eq!(rt; room, [1, 2]);
        assert_eq!(rt; link.receive(&mut room), Ok(Came::Quiet));
        assert_eq!(rt; link.receive(&mut room), Ok(Came::Ended));
        assert_eq!(rt; link.receive(&mut room), Ok(Came::Bytes(1)));
        assert_eq!(rt; link.send(b"abc"), Ok(3));
        assert_eq!(rt; link.taken(), 3);
        assert!(rt; peer.accept().is_ok_and(|found| found.is_none()));
        peer.rest();
        Ok(())
    }
}
