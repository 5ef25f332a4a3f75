//! Links and peers in memory that fail at some calls, and tell what was sent.

ghost use Rattle.std.specs.Prelude.{◌≡◌, ◌↔◌, ◌⊎◌, ◌<◌, List, ℕ, Option, Ok, Some, None, [], ◌∷◌, length, drop, IfOk, IsErr, OnErr, OnOk};
ghost use Rattle.std.specs.Option.{option_map};
ghost use Rattle.std.specs.List.{Contains};
ghost use Rattle.std.specs.Io.{WritesAtMost};
ghost use Rattle.jp_types.specs.Faults.{HasCause};
ghost use Rattle.jp_types.specs.Streams.{counted_up};
ghost use Rattle.links.specs.Receiving.{FitsRoom, SendAppends, ReceiveConsumes, CountsQuiet, CountsEnded, CountsGiven};
ghost use Rattle.links.specs.Peers.{CountsNone};
ghost use Rattle.links.specs.Scripts.{arrival, taken, none_received, next_accept};

use crate::arrivals::Arrivals;
use crate::came::Came;
use crate::link::Link;
use crate::peer::{Door, Peer};
use crate::received::Receipts;
use jp_types::fault::Failed;
use std::alloc::Global;
use std::collections::VecDeque;
use std::marker::Model;

/// What a link in memory does: what its receives bring, how many bytes a send takes at most, where that is at least one,
/// and the numbers of the calls that fail, counted from 0.
#[derive(Debug, Drop)]
pub struct LinkScript {
    pub coming: Arrivals,
    pub most: usize,
    pub failing: Vec<u64>,
}

impl Model for LinkScript {
    ghost use Rattle.links.specs.Scripts.{Script};

    ghost Value = { Script };

    ghost view = { λ s. record { coming = s.coming; most = s.most; failing = s.failing.items } };
}

/// A link in memory, of which some calls fail. What was sent is told, and to hold it takes memory: a refused growth is a
/// failure too.
#[derive(Drop)]
pub struct ScriptedLink {
    script: LinkScript,
    sent: Vec<u8>,
    calls: u64,
    faults: u64,
    received: Receipts,
}

impl Model for ScriptedLink {
    ghost use Rattle.links.specs.Scripts.{Scripted};

    ghost Value = { Scripted };

    ghost view = { λ l. record { script = l.script; sent = l.sent.items; calls = l.calls; faults = l.faults; received = l.received } };
}

impl ScriptedLink {
    pub fn new(alloc: Global, script: LinkScript) -> ScriptedLink
        ensures { result ≡ record { script = script; sent = []; calls = 0; faults = 0; received = none_received } }
    {
        ScriptedLink {
            script,
            sent: Vec::new(alloc),
            calls: 0,
            faults: 0,
            received: Receipts::new(),
        }
    }

    /// What was sent so far.
    pub fn sent(&self) -> &[u8]
        ensures { result.now ≡ self.now.sent }
    {
        &self.sent
    }

    /// How many calls have failed.
    pub fn faults(&self) -> u64
        ensures { result ≡ self.now.faults }
    {
        self.faults
    }

    /// Counts a call, which fails where its number is among those that do.
    fn call(&mut self) -> Result<(), Failed>
        ensures fails { IsErr result ↔ Contains self.old.script.failing self.old.calls }
        ensures cause { HasCause self.old.faults self.new.faults result }
        ensures calls { self.new.calls ≡ counted_up self.old.calls }
        ensures script { self.new.script ≡ self.old.script }
        ensures sent { self.new.sent ≡ self.old.sent }
        ensures received { self.new.received ≡ self.old.received }
    {
        let call = self.calls;
        self.calls = self.calls.saturating_add(1);
        if self.script.failing.contains(&call) {
            self.faults = self.faults.saturating_add(1);
            return Err(Failed);
        }
        Ok(())
    }
}

impl Link for ScriptedLink {
    ghost left = { λ l. Some l.script.coming.bytes };

    ghost sent = { λ l. Some l.sent };

    ghost faults = { λ l. l.faults };

    ghost quiets = { λ l. l.received.quiets };

    ghost endings = { λ l. l.received.endings };

    ghost given = { λ l. l.received.given };

    fn send(&mut self, piece: &[u8]) -> Result<usize, Failed>
        ensures taken { IfOk result (λ count. count ≡ taken self.old.script.most (length piece.now)) }
        ensures bytes { SendAppends (Some self.old.sent) (Some self.new.sent) result piece.now }
        ensures script { self.new.script ≡ self.old.script }
        ensures received { self.new.received ≡ self.old.received }
        ensures cause { HasCause self.old.faults self.new.faults result }
        ensures fails { Contains self.old.script.failing self.old.calls → IsErr result }
        ensures calls { self.new.calls ≡ counted_up self.old.calls }
    {
        self.call()?;
        let count = piece.len().min(self.script.most.max(1));
        if self.sent.extend_from_slice(&piece[..count]).is_err() {
            self.faults = self.faults.saturating_add(1);
            return Err(Failed);
        }
        Ok(count)
    }

    fn receive(&mut self, room: &mut [u8]) -> Result<Came, Failed>
        requires { 0 < length room.old }
        ensures answer { IfOk result (λ came. came ≡ arrival self.old.script.coming.turns (length self.old.script.coming.bytes) (length room.old)) }
        ensures turns { OnOk result (self.new.script.coming.turns ≡ drop 1 self.old.script.coming.turns) }
        ensures kept { OnErr result (self.new.script ≡ self.old.script) }
        ensures failing { self.new.script.failing ≡ self.old.script.failing }
        ensures bound { IfOk result (λ came. FitsRoom came (length room.new)) }
        ensures bytes { ReceiveConsumes (Some self.old.script.coming.bytes) (Some self.new.script.coming.bytes) result room.new }
        ensures sent { self.new.sent ≡ self.old.sent }
        ensures cause { HasCause self.old.faults self.new.faults result }
        ensures quiets { CountsQuiet self.old.received.quiets self.new.received.quiets result }
        ensures endings { CountsEnded self.old.received.endings self.new.received.endings result }
        ensures given { CountsGiven self.old.received.given self.new.received.given result }
        ensures fails { IsErr result ↔ Contains self.old.script.failing self.old.calls }
        ensures calls { self.new.calls ≡ counted_up self.old.calls }
    {
        self.call()?;
        let came = self.script.coming.receive(room);
        self.received.count(came);
        Ok(came)
    }
}

/// A peer in memory, of which some calls fail: the links that its dials and its accepts give, in order. Behind the last of
/// them a dial fails and an accept gives none.
#[derive(Drop)]
pub struct ScriptedPeer {
    alloc: Global,
    dials: VecDeque<LinkScript>,
    accepts: VecDeque<Option<LinkScript>>,
    failing: Vec<u64>,
    calls: u64,
    faults: u64,
    nones: u64,
}

impl Model for ScriptedPeer {
    ghost use Rattle.links.specs.Scripts.{ScriptedLinks};

    ghost Value = { ScriptedLinks };

    ghost view = { λ p. record { dials = p.dials.items; accepts = p.accepts.items; failing = p.failing.items; calls = p.calls; faults = p.faults; nones = p.nones } };
}

impl ScriptedPeer {
    pub fn new(
        alloc: Global,
        dials: Vec<LinkScript>,
        accepts: Vec<Option<LinkScript>>,
        failing: Vec<u64>,
    ) -> ScriptedPeer
        ensures { result ≡ record { dials = dials.items; accepts = accepts.items; failing = failing.items; calls = 0; faults = 0; nones = 0 } }
    {
        ScriptedPeer {
            alloc,
            dials: VecDeque::from(dials),
            accepts: VecDeque::from(accepts),
            failing,
            calls: 0,
            faults: 0,
            nones: 0,
        }
    }

    /// How many calls have failed.
    pub fn faults(&self) -> u64
        ensures { result ≡ self.now.faults }
    {
        self.faults
    }

    /// Counts a call, which fails where its number is among those that do.
    fn call(&mut self) -> Result<(), Failed>
        ensures fails { IsErr result ↔ Contains self.old.failing self.old.calls }
        ensures cause { HasCause self.old.faults self.new.faults result }
        ensures rest { self.new ≡ record self.old { calls = counted_up self.old.calls; faults = self.new.faults } }
    {
        let call = self.calls;
        self.calls = self.calls.saturating_add(1);
        if self.failing.contains(&call) {
            self.faults = self.faults.saturating_add(1);
            return Err(Failed);
        }
        Ok(())
    }
}

impl Peer for ScriptedPeer {
    type L = ScriptedLink;

    ghost faults = { λ p. p.faults };

    ghost nones = { λ p. p.nones };

    fn dial(&mut self) -> Result<ScriptedLink, Failed>
        ensures link { IfOk result (λ link. link ≡ record { script = link.script; sent = []; calls = 0; faults = 0; received = none_received }) }
        ensures dials { IfOk result (λ link. self.old.dials ≡ link.script ∷ self.new.dials) }
        ensures kept { OnErr result (self.new.dials ≡ self.old.dials) }
        ensures accepts { self.new.accepts ≡ self.old.accepts }
        ensures fails { IsErr result ↔ Contains self.old.failing self.old.calls ⊎ self.old.dials ≡ [] }
        ensures cause { HasCause self.old.faults self.new.faults result }
        ensures nones { self.new.nones ≡ self.old.nones }
        ensures calls { self.new.calls ≡ counted_up self.old.calls }
        ensures failing { self.new.failing ≡ self.old.failing }
    {
        self.call()?;
        match self.dials.pop_front() {
            Some(script) => Ok(ScriptedLink::new(self.alloc, script)),
            None => {
                self.faults = self.faults.saturating_add(1);
                Err(Failed)
            }
        }
    }

    fn accept(&mut self) -> Result<Option<ScriptedLink>, Failed>
        ensures link { IfOk result (λ found. found ≡ option_map (λ script. record { script = script; sent = []; calls = 0; faults = 0; received = none_received }) (next_accept self.old.accepts)) }
        ensures accepts { OnOk result (self.new.accepts ≡ drop 1 self.old.accepts) }
        ensures kept { OnErr result (self.new.accepts ≡ self.old.accepts) }
        ensures dials { self.new.dials ≡ self.old.dials }
        ensures fails { IsErr result ↔ Contains self.old.failing self.old.calls }
        ensures cause { HasCause self.old.faults self.new.faults result }
        ensures nones { CountsNone self.old.nones self.new.nones result }
        ensures calls { self.new.calls ≡ counted_up self.old.calls }
        ensures failing { self.new.failing ≡ self.old.failing }
    {
        self.call()?;
        match self.accepts.pop_front() {
            Some(Some(script)) => Ok(Some(ScriptedLink::new(self.alloc, script))),
            _ => {
                self.nones = self.nones.saturating_add(1);
                Ok(None)
            }
        }
    }
}

impl Door for ScriptedPeer {
    fn rest(&mut self) {}
}

#[cfg(test)]
mod tests {
    use super::*;
    use std::test::Fail;

    /// A link over which 21 bytes come, ten and then the others, of which the third call fails.
    fn script(alloc: Global) -> Result<LinkScript, Fail> {
        let bytes = [7; 21].to_vec(alloc)?;
        let turns = [Came::Bytes(10), Came::Quiet, Came::Bytes(11)].to_vec(alloc)?;
        Ok(LinkScript {
            coming: Arrivals::new(bytes, turns),
            most: 2,
            failing: [2].to_vec(alloc)?,
        })
    }

    #[test]
    fn a_link_follows_its_script(rt: HostRuntime) -> Result<(), Fail> {
        let mut link = ScriptedLink::new(rt.alloc(), script(rt.alloc())?);
        let mut room = [0; 64];
        let mut small = [0; 4];
        assert_eq!(rt; link.receive(&mut room), Ok(Came::Bytes(10)));
        assert_eq!(rt; link.send(b"abc"), Ok(2));
        assert_eq!(rt; link.receive(&mut room), Err(Failed));
        assert_eq!(rt; link.receive(&mut room), Ok(Came::Quiet));
        assert_eq!(rt; link.receive(&mut small), Ok(Came::Bytes(4)));
        assert_eq!(rt; link.receive(&mut room), Ok(Came::Bytes(7)));
        assert_eq!(rt; link.receive(&mut room), Ok(Came::Ended));
        assert_eq!(rt; link.send(b"c"), Ok(1));
        assert_eq!(rt; link.sent(), b"abc".as_slice());
        assert_eq!(rt; link.faults(), 1);
        Ok(())
    }

    #[test]
    fn a_peer_gives_its_links_in_order(rt: HostRuntime) -> Result<(), Fail> {
        let alloc = rt.alloc();
        let mut dials = Vec::new(alloc);
        dials.push(script(alloc)?)?;
        let mut accepts = Vec::new(alloc);
        accepts.push(None)?;
        accepts.push(Some(script(alloc)?))?;
        let mut peer = ScriptedPeer::new(alloc, dials, accepts, [1].to_vec(alloc)?);
        assert!(rt; peer.dial().is_ok());
        assert!(rt; peer.accept().is_err());
        assert!(rt; peer.accept().is_ok_and(|found| found.is_none()));
        assert!(rt; peer.accept().is_ok_and(|found| found.is_some()));
        assert!(rt; peer.accept().is_ok_and(|found| found.is_none()));
        assert!(rt; peer.dial().is_err());
        assert_eq!(rt; peer.faults(), 2);
        peer.rest();
        Ok(())
    }
}
