//! Receiving messages from another replica.

ghost use Rattle.std.specs.Prelude.{◌≡◌, ◌≢◌, ◌≤◌, ◌<◌, ◌++◌, ◌-◌, List, ℕ, [], Ok, Err, length, IfOk, IfSome, IfNone, OnErr, OnOk};
ghost use Rattle.std.specs.Option.{option_copied};
ghost use Rattle.jp_types.specs.Faults.{Rose};
ghost use Rattle.jp_types.specs.declared.message.Message.{Message};
ghost use Rattle.message_codec.specs.Frames.{rules};
ghost use Rattle.frame_stream.specs.Following.{Follows, HasBegun, HasFollowed, fresh};
ghost use Rattle.replica_io.specs.declared.held.Held.TheVariants as state;
ghost use Rattle.replica_io.specs.Turns.{IsDown, Uses, link_of};
ghost use Rattle.replica_io.specs.declared.receive.Got.TheVariants as got;
ghost use Rattle.replica_io.specs.Receiving.{IsFaulty, Receives, HasReceived, held_after, stands_after, begun, tallied};

use crate::held::Held;
use frame_fields::fault::FrameFault;
use jp_types::fault::Failed;
use jp_types::memory::NoMemory;
use jp_types::message::Message;
use links::came::Came;
use links::link::Link;
use links::peer::Peer;
use message_codec::reader::Reader;
use std::alloc::Global;
use std::marker::Model;
use std::mem;

/// What a turn of a receive stage did.
#[derive(Clone, Copy, Debug, PartialEq, Eq)]
pub enum Got {
    /// Bytes came, and so many messages were appended.
    Some(u64),
    /// No link was made, or nothing came over the link.
    Quiet,
    /// No link could be made, or the link was given up: it failed, it ended, or what came over it is no frame.
    Dropped,
}

/// Reads a piece of the stream.
fn read_piece(reader: &mut Reader, piece: &[u8], out: &mut Vec<Message>) -> Result<Got, NoMemory>
    ensures follows { OnOk result ((stream : List ℕ) (items : List Message) → Follows (rules reader.old.grammar.cluster reader.old.grammar.old) stream items reader.old → HasFollowed (rules reader.old.grammar.cluster reader.old.grammar.old) (stream ++ piece.now) items out.old.items out.new.items reader.new) }
    ensures begun { (stream : List ℕ) (items : List Message) → Follows (rules reader.old.grammar.cluster reader.old.grammar.old) stream items reader.old → HasBegun (rules reader.old.grammar.cluster reader.old.grammar.old) (stream ++ piece.now) items out.old.items out.new.items }
    ensures some { (count : ℕ) → result ≡ Ok (got.Some count) → count ≡ length out.new.items - length out.old.items }
    ensures quiet { result ≢ Ok got.Quiet }
    ensures dropped { result ≡ Ok got.Dropped → IsFaulty reader.new.fault }
    ensures grammar { reader.new.grammar ≡ reader.old.grammar }
{
    let before = out.len();
    match reader.feed(piece, out) {
        Ok(()) => Ok(Got::Some(out.len().saturating_sub(before) as u64)),
        Err(FrameFault::NoMemory) => Err(NoMemory),
        Err(_) => Ok(Got::Dropped),
    }
}

/// Receives once over a link, and reads what came.
fn receive_over<L: Link>(
    link: &mut L,
    reader: &mut Reader,
    room: &mut [u8],
    out: &mut Vec<Message>,
) -> Result<Got, NoMemory>
    requires { 0 < length room.old }
    ensures receives { Receives (record { left = L.left; sent = L.sent; faults = L.faults; quiets = L.quiets; endings = L.endings; given = L.given }) (rules reader.old.grammar.cluster reader.old.grammar.old) link.old link.new reader.old reader.new out.old.items out.new.items result }
    ensures grammar { reader.new.grammar ≡ reader.old.grammar }
{
    match link.receive(room) {
        Ok(Came::Bytes(count)) => read_piece(reader, &room[..count], out),
        Ok(Came::Quiet) => Ok(Got::Quiet),
        Ok(Came::Ended) => Ok(Got::Dropped),
        Err(_) => Ok(Got::Dropped),
    }
}

/// The link that stands, or else one that the other replica made, if there is one.
fn link_from<P: Peer>(held: Held<P::L>, peer: &mut P) -> Result<Option<P::L>, Failed>
    ensures uses { IfOk result (λ found. IfSome found (λ link. Uses (record { left = P.L.left; sent = P.L.sent; faults = P.L.faults; quiets = P.L.quiets; endings = P.L.endings; given = P.L.given }) held link)) }
    ensures none { IfOk result (λ found. IfNone found (IsDown held × Rose (P.nones peer.old) (P.nones peer.new))) }
    ensures err { OnErr result (IsDown held × Rose (P.faults peer.old) (P.faults peer.new)) }
    ensures peer { (IsDown held → ⊥) → peer.new ≡ peer.old }
    ensures later { P.faults peer.old ≤ P.faults peer.new }
    ensures later_none { P.nones peer.old ≤ P.nones peer.new }
{
    match held {
        Held::Standing(link) => Ok(Some(link)),
        Held::Nothing | Held::GivenUp(_) => peer.accept(),
    }
}

/// A link after an answer.
fn held_after<L: Drop>(link: L, answer: &Result<Got, NoMemory>) -> Held<L>
    ensures { result ≡ held_after link (stands_after answer.now) }
{
    match answer {
        Ok(Got::Some(_)) | Ok(Got::Quiet) => Held::Standing(link),
        Ok(Got::Dropped) | Err(_) => Held::GivenUp(link),
    }
}

/// How many bytes a turn receives at most.
pub const ROOM: usize = 65_536;

/// Receives messages from another replica, over one link at a time.
#[derive(Drop)]
pub struct ReceiveStage<P: Peer> {
    alloc: Global,
    cluster: u64,
    takes_old: bool,
    link: Held<P::L>,
    reader: Reader,
    room: Vec<u8>,
    appended: u64,
}

impl<P: Peer> Model for ReceiveStage<P> {
    ghost use Rattle.std.specs.Prelude.{◌≡◌, ◌<◌, length};
    ghost use Rattle.replica_io.specs.Receiving.{Receiving};
    ghost use Rattle.message_codec.specs.declared.reader.MessageFrames.{MessageFrames};

    ghost Value = { Receiving P.L MessageFrames };

    ghost view = { λ s. record { link = s.link; reader = s.reader; appended = s.appended } };

    ghost invariant = { λ s. (s.reader.grammar ≡ record { cluster = s.cluster; old = s.takes_old }) × (0 < length s.room.items) };
}

impl<P: Peer> ReceiveStage<P> {
    /// A stage without a link. It takes frames of this cluster, and those that name none where `old` says so.
    pub fn new(alloc: Global, cluster: u64, old: bool) -> Result<ReceiveStage<P>, NoMemory>
        ensures stage { IfOk result (λ stage. stage ≡ record { link = state.Nothing; reader = fresh (record { cluster = cluster; old = old }); appended = 0 }) }
        ensures follows { IfOk result (λ stage. Follows (rules cluster old) [] [] stage.reader) }
    {
        Ok(ReceiveStage {
            alloc,
            cluster,
            takes_old: old,
            link: Held::Nothing,
            reader: Reader::new(alloc, cluster, old)?,
            room: Vec::from_elem(alloc, 0, ROOM)?,
            appended: 0,
        })
    }

    /// The link of the last turn, if there was one.
    pub fn link(&self) -> Option<&P::L>
        ensures { option_copied result ≡ link_of self.now.link }
    {
        self.link.link()
    }

    /// How many messages were appended. A tally at 2^64 - 1 stays.
    pub fn tally(&self) -> u64
        ensures { result ≡ self.now.appended }
    {
        self.appended
    }

    /// A new reader where no link stands.
    fn begin(&mut self, held: &Held<P::L>) -> Result<(), NoMemory>
        ensures ok { OnOk result (self.new ≡ record self.old { reader = begun held.now self.old.reader }) }
        ensures err { OnErr result (IsDown held.now × (self.new ≡ self.old)) }
    {
        match held {
            Held::Standing(_) => Ok(()),
            Held::Nothing | Held::GivenUp(_) => {
                self.reader = Reader::new(self.alloc, self.cluster, self.takes_old)?;
                Ok(())
            }
        }
    }

    /// Receives once over a link.
    fn receive_from(&mut self, link: P::L, out: &mut Vec<Message>) -> Result<Got, NoMemory>
        ensures held { (after : P.L) × ((self.new.link ≡ held_after after (stands_after result)) × Receives (record { left = P.L.left; sent = P.L.sent; faults = P.L.faults; quiets = P.L.quiets; endings = P.L.endings; given = P.L.given }) (rules self.old.reader.grammar.cluster self.old.reader.grammar.old) link after self.old.reader self.new.reader out.old.items out.new.items result) }
        ensures grammar { self.new.reader.grammar ≡ self.old.reader.grammar }
        ensures appended { self.new.appended ≡ self.old.appended }
    {
        let mut link = link;
        let answer = receive_over(&mut link, &mut self.reader, &mut self.room, out);
        self.link = held_after(link, &answer);
        answer
    }

    /// Receives once over the link that stands, or else a new one.
    fn receive(&mut self, peer: &mut P, out: &mut Vec<Message>) -> Result<Got, NoMemory>
        ensures received { HasReceived (record { left = P.L.left; sent = P.L.sent; faults = P.L.faults; quiets = P.L.quiets; endings = P.L.endings; given = P.L.given }) (rules self.old.reader.grammar.cluster self.old.reader.grammar.old) (Rose (P.nones peer.old) (P.nones peer.new)) (Rose (P.faults peer.old) (P.faults peer.new)) self.old.link self.new.link self.old.reader self.new.reader out.old.items out.new.items result }
        ensures peer { (IsDown self.old.link → ⊥) → peer.new ≡ peer.old }
        ensures later { P.faults peer.old ≤ P.faults peer.new }
        ensures later_none { P.nones peer.old ≤ P.nones peer.new }
        ensures grammar { self.new.reader.grammar ≡ self.old.reader.grammar }
        ensures appended { self.new.appended ≡ self.old.appended }
    {
        let held = mem::replace(&mut self.link, Held::Nothing);
        self.begin(&held)?;
        match link_from(held, peer) {
            Ok(Some(link)) => self.receive_from(link, out),
            Ok(None) => Ok(Got::Quiet),
            Err(_) => Ok(Got::Dropped),
        }
    }

    /// Receives once over the link that stands, or else over one that the other replica made, and appends the messages that
    /// have come whole.
    ///
    /// # Errors
    ///
    /// A growth was refused. The link was given up, and the messages that were appended are some of the first that came.
    pub fn turn(&mut self, peer: &mut P, out: &mut Vec<Message>) -> Result<Got, NoMemory>
        ensures received { HasReceived (record { left = P.L.left; sent = P.L.sent; faults = P.L.faults; quiets = P.L.quiets; endings = P.L.endings; given = P.L.given }) (rules self.old.reader.grammar.cluster self.old.reader.grammar.old) (Rose (P.nones peer.old) (P.nones peer.new)) (Rose (P.faults peer.old) (P.faults peer.new)) self.old.link self.new.link self.old.reader self.new.reader out.old.items out.new.items result }
        ensures peer { (IsDown self.old.link → ⊥) → peer.new ≡ peer.old }
        ensures later { P.faults peer.old ≤ P.faults peer.new }
        ensures later_none { P.nones peer.old ≤ P.nones peer.new }
        ensures grammar { self.new.reader.grammar ≡ self.old.reader.grammar }
        ensures tally { self.new.appended ≡ tallied (length out.new.items - length out.old.items) self.old.appended }
    {
        let before = out.len();
        let answer = self.receive(peer, out);
        let more = out.len().saturating_sub(before);
        self.appended = self.appended.saturating_add(more as u64);
        answer
    }
}

#[cfg(test)]
mod tests {
    use super::*;
    use links::arrivals::Arrivals;
    use links::scripted::{LinkScript, ScriptedPeer};
    use std::test::Fail;

    // The frame of the first version of an Accept of instance 2 in view 1.
    const FRAME: [u8; 21] = [
        0, 0, 0, 17, 4, 0, 0, 0, 0, 0, 0, 0, 1, 0, 0, 0, 0, 0, 0, 0, 2,
    ];

    /// Takes what another thread may be given.
    fn give_away<T: Send + Drop>(_value: T) {}

    /// A link over which these bytes come, in these turns, and of which these calls fail.
    fn script(
        alloc: Global,
        bytes: &[u8],
        turns: &[Came],
        failing: &[u64],
    ) -> Result<LinkScript, Fail> {
        Ok(LinkScript {
            coming: Arrivals::new(bytes.to_vec(alloc)?, turns.to_vec(alloc)?),
            most: 1,
            failing: failing.to_vec(alloc)?,
        })
    }

    #[test]
    fn a_cut_frame_is_taken_once_it_is_whole(rt: HostRuntime) -> Result<(), Fail> {
        let alloc = rt.alloc();
        let cut = [Came::Bytes(10), Came::Bytes(11)];
        let mut accepts = Vec::new(alloc);
        accepts.push(Some(script(alloc, &FRAME, &cut, &[])?))?;
        let mut peer = ScriptedPeer::new(alloc, Vec::new(alloc), accepts, Vec::new(alloc));
        let mut stage = ReceiveStage::new(alloc, 7, true)?;
        let mut out = Vec::new(alloc);
        for answer in [Got::Some(0), Got::Some(1), Got::Dropped, Got::Quiet] {
            assert_eq!(rt; stage.turn(&mut peer, &mut out), Ok(answer));
        }
        assert_eq!(rt; stage.tally(), 1);
        let Some(Message::Accept(accept)) = out.pop() else {
            return Err("no Accept")?;
        };
        assert_eq!(rt; (accept.view, accept.instance), (1, 2));
        Ok(())
    }

    #[test]
    fn what_fails_ends_one_link_alone(rt: HostRuntime) -> Result<(), Fail> {
        let alloc = rt.alloc();
        let half = [Came::Bytes(10), Came::Ended];
        let mut accepts = Vec::new(alloc);
        // A link that fails, one that ends inside a frame, one that is no stream of frames, and one that is quiet at first.
        accepts.push(Some(script(alloc, &FRAME, &[], &[0])?))?;
        accepts.push(Some(script(alloc, &FRAME, &half, &[])?))?;
        accepts.push(Some(script(alloc, &[255; 9], &[], &[])?))?;
        accepts.push(Some(script(alloc, &FRAME, &[Came::Quiet], &[])?))?;
        let mut peer = ScriptedPeer::new(alloc, Vec::new(alloc), accepts, [1].to_vec(alloc)?);
        let mut stage = ReceiveStage::new(alloc, 7, true)?;
        let mut out = Vec::new(alloc);
        let answers = [
            Got::Dropped,
            Got::Dropped,
            Got::Some(0),
            Got::Dropped,
            Got::Dropped,
            Got::Quiet,
            Got::Some(1),
            Got::Dropped,
        ];
        for (turn, answer) in answers.iter().enumerate() {
            assert_eq!(rt; stage.turn(&mut peer, &mut out), Ok(*answer), "turn {turn}");
            // The first link was given up after a fault, and the second accept failed.
            if turn < 2 {
                let faults = stage.link().map(|link| link.faults());
                assert_eq!(rt; faults, if turn == 0 { Some(1) } else { None });
            }
        }
        assert_eq!(rt; stage.tally(), 1);
        assert_eq!(rt; peer.faults(), 1);
        give_away(stage);
        Ok(())
    }
}
