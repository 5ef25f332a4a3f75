//! Sending messages to another replica.

ghost use Rattle.std.specs.Prelude.{◌≡◌, ◌≤◌, IfOk, IfSome, OnErr};
ghost use Rattle.std.specs.Option.{option_copied};
ghost use Rattle.jp_types.specs.Faults.{Rose};
ghost use Rattle.message_codec.specs.Spelling.{frame_bytes};
ghost use Rattle.replica_io.specs.declared.held.Held.TheVariants as state;
ghost use Rattle.replica_io.specs.Turns.{IsDown, Uses, link_of};
ghost use Rattle.replica_io.specs.Sending.{HasSent, SentOver, whole_after, lost_after};

use crate::held::Held;
use bytes::Bytes;
use jp_types::fault::Failed;
use jp_types::memory::NoMemory;
use jp_types::message::Message;
use links::link::{Link, send_all};
use links::peer::Peer;
use message_codec::writing::spell;
use std::alloc::Global;
use std::marker::Model;
use std::mem;

/// What became of a frame.
#[derive(Clone, Copy, Debug, PartialEq, Eq)]
pub enum Sent {
    /// It was sent whole.
    Whole,
    /// No link could be made, or the link failed after a beginning of it.
    Lost,
}

/// The link that stands, or else a new one.
fn link_to<P: Peer>(held: Held<P::L>, peer: &mut P) -> Result<P::L, Failed>
    ensures uses { IfOk result (λ link. Uses (record { left = P.L.left; sent = P.L.sent; faults = P.L.faults; quiets = P.L.quiets; endings = P.L.endings; given = P.L.given }) held link) }
    ensures err { OnErr result (IsDown held × Rose (P.faults peer.old) (P.faults peer.new)) }
    ensures peer { (IsDown held → ⊥) → peer.new ≡ peer.old }
    ensures later { P.faults peer.old ≤ P.faults peer.new }
    ensures nones { P.nones peer.new ≡ P.nones peer.old }
{
    match held {
        Held::Standing(link) => Ok(link),
        Held::Nothing | Held::GivenUp(_) => peer.dial(),
    }
}

/// Sends a frame over a link.
fn send_over<L: Link>(link: L, frame: &[u8]) -> (Held<L>, Sent)
    ensures { SentOver (record { left = L.left; sent = L.sent; faults = L.faults; quiets = L.quiets; endings = L.endings; given = L.given }) link result.0 frame.now result.1 }
{
    let mut link = link;
    match send_all(&mut link, frame) {
        Ok(()) => (Held::Standing(link), Sent::Whole),
        Err(_) => (Held::GivenUp(link), Sent::Lost),
    }
}

/// Sends a frame over the link that is held, or else a new one.
fn send_frame<P: Peer>(held: &mut Held<P::L>, peer: &mut P, frame: &[u8]) -> Sent
    ensures sent { HasSent (record { left = P.L.left; sent = P.L.sent; faults = P.L.faults; quiets = P.L.quiets; endings = P.L.endings; given = P.L.given }) (Rose (P.faults peer.old) (P.faults peer.new)) held.old held.new frame.now result }
    ensures peer { (IsDown held.old → ⊥) → peer.new ≡ peer.old }
    ensures later { P.faults peer.old ≤ P.faults peer.new }
    ensures nones { P.nones peer.new ≡ P.nones peer.old }
{
    match link_to(mem::replace(held, Held::Nothing), peer) {
        Ok(link) => {
            let (used, sent) = send_over(link, frame);
            *held = used;
            sent
        }
        Err(_) => Sent::Lost,
    }
}

/// Sends messages to another replica, over one link at a time.
#[derive(Drop)]
pub struct SendStage<P: Peer> {
    alloc: Global,
    cluster: u64,
    link: Held<P::L>,
    whole: u64,
    lost: u64,
}

impl<P: Peer> Model for SendStage<P> {
    ghost use Rattle.replica_io.specs.Sending.{Sending};

    ghost Value = { Sending P.L };

    ghost view = { λ s. record { cluster = s.cluster; link = s.link; whole = s.whole; lost = s.lost } };
}

impl<P: Peer> SendStage<P> {
    /// A stage without a link, in this cluster.
    pub fn new(alloc: Global, cluster: u64) -> SendStage<P>
        ensures { result ≡ record { cluster = cluster; link = state.Nothing; whole = 0; lost = 0 } }
    {
        SendStage {
            alloc,
            cluster,
            link: Held::Nothing,
            whole: 0,
            lost: 0,
        }
    }

    /// The link of the last turn, if there was one.
    pub fn link(&self) -> Option<&P::L>
        ensures { option_copied result ≡ link_of self.now.link }
    {
        self.link.link()
    }

    /// How many answers were Whole, and how many Lost. A tally at 2^64 - 1 stays.
    pub fn tally(&self) -> (u64, u64)
        ensures { result ≡ record { 0 = self.now.whole; 1 = self.now.lost } }
    {
        (self.whole, self.lost)
    }

    fn count(&mut self, sent: Sent)
        ensures { self.new ≡ record self.old { whole = whole_after sent self.old.whole; lost = lost_after sent self.old.lost } }
    {
        match sent {
            Sent::Whole => self.whole = self.whole.saturating_add(1),
            Sent::Lost => self.lost = self.lost.saturating_add(1),
        }
    }

    /// Sends a frame that is spelt already, as to several replicas. It dials where no link stands.
    pub fn turn_spelled(&mut self, peer: &mut P, frame: &Bytes) -> Sent
        ensures sent { HasSent (record { left = P.L.left; sent = P.L.sent; faults = P.L.faults; quiets = P.L.quiets; endings = P.L.endings; given = P.L.given }) (Rose (P.faults peer.old) (P.faults peer.new)) self.old.link self.new.link frame.now result }
        ensures peer { (IsDown self.old.link → ⊥) → peer.new ≡ peer.old }
        ensures later { P.faults peer.old ≤ P.faults peer.new }
        ensures nones { P.nones peer.new ≡ P.nones peer.old }
        ensures tally { self.new ≡ record self.old { link = self.new.link; whole = whole_after result self.old.whole; lost = lost_after result self.old.lost } }
    {
        let sent = send_frame(&mut self.link, peer, frame.as_slice());
        self.count(sent);
        sent
    }

    /// Sends a message. It dials where no link stands.
    ///
    /// # Errors
    ///
    /// A growth was refused before anything was sent, and nothing has changed.
    pub fn turn(&mut self, peer: &mut P, m: &Message) -> Result<Sent, NoMemory>
        ensures sent { IfOk result (λ sent. HasSent (record { left = P.L.left; sent = P.L.sent; faults = P.L.faults; quiets = P.L.quiets; endings = P.L.endings; given = P.L.given }) (Rose (P.faults peer.old) (P.faults peer.new)) self.old.link self.new.link (frame_bytes self.old.cluster m.now) sent) }
        ensures peer { (IsDown self.old.link → ⊥) → peer.new ≡ peer.old }
        ensures later { P.faults peer.old ≤ P.faults peer.new }
        ensures nones { P.nones peer.new ≡ P.nones peer.old }
        ensures tally { IfOk result (λ sent. self.new ≡ record self.old { link = self.new.link; whole = whole_after sent self.old.whole; lost = lost_after sent self.old.lost }) }
        ensures err { OnErr result ((self.new ≡ self.old) × (peer.new ≡ peer.old)) }
    {
        let frame = spell(self.alloc, m, self.cluster)?;
        Ok(self.turn_spelled(peer, &frame))
    }
}

#[cfg(test)]
mod tests {
    use super::*;
    use jp_types::message::Accept;
    use links::arrivals::Arrivals;
    use links::scripted::{LinkScript, ScriptedPeer};
    use std::test::Fail;

    // The frame of the message below in cluster 7.
    const FRAME: [u8; 29] = [
        0, 0, 0, 25, 132, 0, 0, 0, 0, 0, 0, 0, 7, 0, 0, 0, 0, 0, 0, 0, 1, 0, 0, 0, 0, 0, 0, 0, 2,
    ];

    /// Takes what another thread may be given.
    fn give_away<T: Send + Drop>(_value: T) {}

    fn message() -> Message {
        Message::Accept(Accept {
            view: 1,
            instance: 2,
        })
    }

    /// A link whose sends take ten bytes each, and of which this call fails.
    fn failing(alloc: Global, call: u64) -> Result<LinkScript, Fail> {
        Ok(LinkScript {
            coming: Arrivals::new(Vec::new(alloc), Vec::new(alloc)),
            most: 10,
            failing: [call].to_vec(alloc)?,
        })
    }

    #[test]
    fn a_frame_is_lost_by_a_failing_dial_or_send_alone(rt: HostRuntime) -> Result<(), Fail> {
        let alloc = rt.alloc();
        let mut dials = Vec::new(alloc);
        dials.push(failing(alloc, 4)?)?;
        dials.push(failing(alloc, 9)?)?;
        let mut peer = ScriptedPeer::new(alloc, dials, Vec::new(alloc), [0].to_vec(alloc)?);
        let mut stage = SendStage::new(alloc, 7);
        assert_eq!(rt; stage.turn(&mut peer, &message()), Ok(Sent::Lost));
        assert!(rt; stage.link().is_none());
        assert_eq!(rt; stage.turn(&mut peer, &message()), Ok(Sent::Whole));
        assert_eq!(rt; stage.turn(&mut peer, &message()), Ok(Sent::Lost));
        let used = stage.link().ok_or("no link")?;
        assert_eq!(rt; used.faults(), 1);
        assert_eq!(rt; used.sent().len(), 39);
        assert_eq!(rt; &used.sent()[29..], &FRAME[..10]);
        let frame = spell(alloc, &message(), 7)?;
        assert_eq!(rt; stage.turn_spelled(&mut peer, &frame), Sent::Whole);
        let used = stage.link().ok_or("no link")?;
        assert_eq!(rt; used.sent(), FRAME.as_slice());
        assert_eq!(rt; stage.tally(), (2, 2));
        assert_eq!(rt; peer.faults(), 1);
        give_away(stage);
        Ok(())
    }
}
