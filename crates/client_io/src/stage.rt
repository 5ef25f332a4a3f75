//! The stage of a replica that serves clients.

ghost use Rattle.std.specs.Prelude.{◌≡◌, ◌<◌, ◌⊎◌, ◌+◌, [], ◌++◌, List, ℕ, Option, true, false, ◌&&◌, not, length, Some, IfOk, OnOk, OnErr};
ghost use Rattle.std.specs.Option.{option_copied, option_map};
ghost use Rattle.jp_types.specs.Faults.{Rose};
ghost use Rattle.client_codec.specs.declared.frame.ClientFrame.TheVariants as frame_kind;
ghost use Rattle.client_io.specs.Doors.{Admits, Begins, Serves, ServesNext, Turned, answered, counted, has_room, heard_of, hinted, let_go, new_stage, settled, with_busy, with_told};
ghost use Rattle.client_io.specs.Sessions.{next_number, queued_for};
ghost use Rattle.client_io.specs.Links.{state_by};

use crate::desk::{Desk, Taken};
use crate::door_turn::{DoorTally, DoorTurn};
use crate::session::Session;
use crate::told::Told;
use client_codec::frame::{ClientFrame, write};
use jp_types::listed::Listed;
use jp_types::memory::NoMemory;
use jp_types::message::View;
use jp_types::numbered::Numbered;
use jp_types::views::leader;
use links::link::Link;
use links::peer::Peer;
use std::alloc::Global;
use std::collections::VecDeque;
use std::marker::Model;

/// How many sessions stand at most.
pub const SESSION_LIMIT: usize = 64;

/// How many bytes are received at once.
const ROOM: usize = 65_536;

/// A stage of a replica that serves the clients whose numbers leave its own when they are divided by four. It gives their
/// requests to put, and queues what they are answered.
#[derive(Drop)]
pub struct ClientStage<P: Peer> {
    n: u8,
    desk: Desk,
    sessions: VecDeque<Session<P::L>>,
    accepted: u64,
    gone: Option<P::L>,
    tally: DoorTally,
    room: Vec<u8>,
}

impl<P: Peer> Model for ClientStage<P> {
    ghost use Rattle.std.specs.Prelude.{◌<◌, length};
    ghost use Rattle.std.specs.Coded.{codes};
    ghost use Rattle.std.specs.Option.{option_map};
    ghost use Rattle.client_io.specs.contracts.desk.Desk as of_desk;
    ghost use Rattle.client_io.specs.Doors.{Stage};
    ghost use Rattle.client_io.specs.Links.{state_by};

    ghost Value = { Stage };

    ghost coded = { Prim.hlevel (codes, of_desk.the_row.coded) };

    ghost view = { λ s. record { n = s.n; desk = s.desk; sessions = s.sessions.items; accepted = s.accepted; gone = option_map (state_by P.L.left P.L.sent P.L.faults P.L.quiets P.L.endings P.L.given) s.gone; tally = s.tally } };

    ghost invariant = { λ s. (0 < s.n) × (0 < length s.room.items) };
}

// Queues bytes for the session of this number, if it stands.
fn queue_in<L: Link>(
    sessions: &mut VecDeque<Session<L>>,
    number: u64,
    bytes: &[u8],
) -> Result<(), NoMemory>
    ensures ok { OnOk result (sessions.new.items ≡ queued_for number bytes.now sessions.old.items) }
    ensures err { OnErr result (sessions.new.items ≡ sessions.old.items) }
{
    for i in 0..sessions.len() {
        if sessions[i].number() == number {
            return sessions[i].queue(bytes);
        }
    }
    Ok(())
}

// So many requests more, and Stop where it was taken.
fn counted(tally: DoorTally, taken: &Taken) -> DoorTally
    ensures { result ≡ counted taken.now tally }
{
    DoorTally {
        given: tally
            .given
            .saturating_add(taken.requests.as_slice().len() as u64),
        stop: tally.stop || taken.stop,
        ..tally
    }
}

// What a call of the door gives where this was taken.
fn turn_of(taken: Taken, idle: bool) -> DoorTurn
    ensures { result ≡ record { requests = taken.requests; stop = taken.stop; idle = idle } }
{
    DoorTurn {
        requests: taken.requests,
        stop: taken.stop,
        idle,
    }
}

impl<P: Peer> ClientStage<P> {
    /// Stage `k` of a replica of `n`, with no sessions. It takes the replica for one that does not lead, in view 0.
    pub fn new(alloc: Global, k: u8, n: u8) -> Result<ClientStage<P>, NoMemory>
        requires stage { k < 4 }
        requires some { 0 < n }
        ensures { IfOk result (λ made. made ≡ new_stage k n) }
    {
        Ok(ClientStage {
            n,
            desk: Desk {
                k,
                leading: false,
                leader: 0,
                homes: Numbered::new(alloc),
            },
            sessions: VecDeque::with_capacity(alloc, SESSION_LIMIT)?,
            accepted: 0,
            gone: None,
            tally: DoorTally {
                given: 0,
                busy: 0,
                told: 0,
                stop: false,
            },
            room: vec![in alloc; 0; ROOM]?,
        })
    }

    // Begins a session on a link.
    fn begin(&mut self, link: P::L) -> Result<(), NoMemory>
        ensures begins { OnOk result (Begins self.old (state_by P.L.left P.L.sent P.L.faults P.L.quiets P.L.endings P.L.given link) self.new) }
        ensures accepted { OnOk result (self.new.accepted ≡ next_number self.old.accepted) }
    {
        let session = Session::new(*self.sessions.allocator(), self.accepted, link)?;
        self.sessions.push_back(session)?;
        self.accepted = self.accepted.wrapping_add(1);
        Ok(())
    }

    // Asks for a link where there is room for one more session, and begins a session on it.
    fn admit(&mut self, peer: &mut P) -> Result<bool, NoMemory>
        ensures admits { IfOk result (λ came. Admits self.old came self.new) }
        ensures asked { OnOk result (has_room self.old ≡ true → (self.new.accepted ≡ next_number self.old.accepted) ⊎ (Rose (P.nones peer.old) (P.nones peer.new) ⊎ Rose (P.faults peer.old) (P.faults peer.new))) }
        ensures full { has_room self.old ≡ false → peer.new ≡ peer.old }
    {
        if self.sessions.len() >= SESSION_LIMIT {
            return Ok(false);
        }
        match peer.accept() {
            Ok(Some(link)) => {
                self.begin(link)?;
                Ok(true)
            }
            _ => Ok(false),
        }
    }

    // Puts the session that was served behind the others, or gives it up.
    fn settle(&mut self, session: Session<P::L>, kept: bool) -> Result<(), NoMemory>
        ensures settled { OnOk result (self.new ≡ settled kept session self.old) }
        ensures accepted { self.new.accepted ≡ self.old.accepted }
    {
        if kept {
            self.sessions.push_back(session)?;
        } else {
            self.gone = Some(session.into_link());
        }
        Ok(())
    }

    // Serves a session, which is not among the others.
    fn serve(&mut self, mut session: Session<P::L>, came: bool) -> Result<DoorTurn, NoMemory>
        ensures serves { IfOk result (λ turn. Serves self.old came session turn self.new) }
        ensures accepted { self.new.accepted ≡ self.old.accepted }
    {
        let served = session.serve(&mut self.desk, &mut self.room)?;
        self.tally = counted(self.tally, &served.taken);
        self.settle(session, served.kept)?;
        Ok(turn_of(served.taken, !came && served.idle))
    }

    // Serves the session in turn, if there is one.
    fn serve_next(&mut self, came: bool) -> Result<DoorTurn, NoMemory>
        ensures serves { IfOk result (λ turn. ServesNext self.old.sessions self.old came turn self.new) }
        ensures accepted { self.new.accepted ≡ self.old.accepted }
    {
        match self.sessions.pop_front() {
            Some(session) => self.serve(session, came),
            None => Ok(DoorTurn {
                requests: Listed::empty(*self.sessions.allocator()),
                stop: false,
                idle: !came,
            }),
        }
    }

    /// Accepts a link where fewer than 64 sessions stand, and then serves the session in turn: sends what is queued for it,
    /// receives once, and takes the frames that came. After `NoMemory` that session is given up.
    pub fn door(&mut self, peer: &mut P) -> Result<DoorTurn, NoMemory>
        ensures turned { IfOk result (λ turn. Turned self.old turn self.new) }

        // A link is asked for exactly where there is room: a session began, or none was there, or the call failed.
        ensures asked { OnOk result (has_room self.old ≡ true → (self.new.accepted ≡ next_number self.old.accepted) ⊎ (Rose (P.nones peer.old) (P.nones peer.new) ⊎ Rose (P.faults peer.old) (P.faults peer.new))) }
        ensures full { has_room self.old ≡ false → peer.new ≡ peer.old }
    {
        self.gone = None;
        let came = self.admit(peer)?;
        self.serve_next(came)
    }

    // Queues a frame for the session that sent the client's latest request, if it stands.
    fn answer(&mut self, client: u64, frame: &ClientFrame) -> Result<(), NoMemory>
        ensures ok { OnOk result (self.new ≡ answered client frame.now self.old) }
        ensures err { OnErr result (self.new ≡ self.old) }
    {
        let Some(number) = self.desk.homes.get(client) else {
            return Ok(());
        };
        let mut bytes = Vec::new(*self.sessions.allocator());
        write(frame, &mut bytes)?;
        queue_in(&mut self.sessions, *number, &bytes)
    }

    fn hint(&mut self, view: View, leading: bool)
        ensures { self.new ≡ hinted view leading self.old }
    {
        self.desk.leading = leading;
        self.desk.leader = leader(view, self.n);
    }

    /// Takes what the other stages tell: a reply, which is queued for the session that sent that client's latest request, or
    /// the view of the replica and whether it leads. Where memory is wanted, nothing changes.
    pub fn told(&mut self, told: Told) -> Result<(), NoMemory>
        ensures ok { OnOk result (self.new ≡ with_told (heard_of told self.old)) }
        ensures err { OnErr result (self.new ≡ self.old) }
    {
        match told {
            Told::Answer {
                client,
                number,
                reply,
            } => self.answer(client, &ClientFrame::Reply { number, reply })?,
            Told::Hint { view, leading } => self.hint(view, leading),
        }
        self.tally.told = self.tally.told.saturating_add(1);
        Ok(())
    }

    /// Queues Busy for the session that sent that client's latest request. To be called exactly where there was no room for
    /// this request. Where memory is wanted, nothing changes.
    pub fn busy(&mut self, client: u64, number: u64) -> Result<(), NoMemory>
        ensures ok { OnOk result (self.new ≡ with_busy (answered client (frame_kind.Busy number) self.old)) }
        ensures err { OnErr result (self.new ≡ self.old) }
    {
        self.answer(client, &ClientFrame::Busy { number })?;
        self.tally.busy = self.tally.busy.saturating_add(1);
        Ok(())
    }

    /// What the calls so far came to.
    pub fn tally(&self) -> DoorTally
        ensures { result ≡ self.now.tally }
    {
        self.tally
    }

    /// How many sessions stand.
    pub fn sessions(&self) -> usize
        ensures { result ≡ length self.now.sessions }
    {
        self.sessions.len()
    }

    /// The link that was given up in the last call of `door`, if one was.
    pub fn gone(&self) -> Option<&P::L>
        ensures { option_map (state_by P.L.left P.L.sent P.L.faults P.L.quiets P.L.endings P.L.given) (option_copied result) ≡ self.now.gone }
    {
        self.gone.as_ref()
    }
}
