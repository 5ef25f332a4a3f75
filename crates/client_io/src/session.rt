//! One session of a client.

ghost use Rattle.std.specs.Prelude.{◌≡◌, ◌<◌, length, IfOk, OnOk, OnErr};
ghost use Rattle.client_io.specs.Sessions.{Opens, is_silent, with_queued};
ghost use Rattle.client_io.specs.Links.{state_by};
ghost use Rattle.client_io.specs.Turning.{Flushes, FlushesSome, ReceivesOnce, Turns};
ghost use Rattle.client_io.specs.Serving.{IsServed, Takes};
ghost use Rattle.client_io.specs.Taking.{nothing_taken};

use crate::desk::{Desk, Taken};
use crate::hearing::{Heard, receive};
use client_codec::frame::ClientFrame;
use client_codec::reader::Reader;
use jp_types::fault::Failed;
use jp_types::memory::NoMemory;
use links::link::{Link, send_all};
use std::alloc::Global;
use std::marker::Model;

/// What serving a session once came to.
#[derive(Debug, Drop)]
pub(crate) struct Served {
    pub taken: Taken,
    /// Whether the session goes on.
    pub kept: bool,
    /// Whether nothing was queued for it, and nothing came.
    pub idle: bool,
}

impl Served {
    fn nothing(alloc: Global, kept: bool, idle: bool) -> Served
        ensures { result ≡ record { taken = nothing_taken; kept = kept; idle = idle } }
    {
        Served {
            taken: Taken::nothing(alloc),
            kept,
            idle,
        }
    }
}

/// A client's session: its link, the frames that come over it, and what is queued for it.
#[derive(Drop)]
pub(crate) struct Session<L: Link> {
    number: u64,
    link: L,
    reader: Reader,
    queued: Vec<u8>,
}

impl<L: Link> Model for Session<L> {
    ghost use Rattle.client_io.specs.Sessions.{Session as State};
    ghost use Rattle.client_io.specs.Links.{state_by};

    ghost Value = { State };

    ghost view = { λ s. record { number = s.number; link = state_by L.left L.sent L.faults L.quiets L.endings L.given s.link; reader = s.reader; queued = s.queued.items } };
}

impl<L: Link> Session<L> {
    pub fn new(alloc: Global, number: u64, link: L) -> Result<Session<L>, NoMemory>
        ensures { IfOk result (λ made. Opens number (state_by L.left L.sent L.faults L.quiets L.endings L.given link) made) }
    {
        Ok(Session {
            number,
            link,
            reader: Reader::new(alloc)?,
            queued: Vec::new(alloc),
        })
    }

    pub fn number(&self) -> u64
        ensures { result ≡ self.now.number }
    {
        self.number
    }

    pub fn is_silent(&self) -> bool
        ensures { result ≡ is_silent self.now }
    {
        self.queued.is_empty()
    }

    /// Queues bytes for the client.
    pub fn queue(&mut self, bytes: &[u8]) -> Result<(), NoMemory>
        ensures ok { OnOk result (self.new ≡ with_queued bytes.now self.old) }
        ensures err { OnErr result (self.new ≡ self.old) }
    {
        self.queued.extend_from_slice(bytes)?;
        Ok(())
    }

    // Sends what is queued.
    fn flush(&mut self) -> Result<(), Failed>
        ensures ok { OnOk result (Flushes self.old self.new) }
        ensures begun { OnErr result (FlushesSome self.old self.new) }
    {
        send_all(&mut self.link, &self.queued)?;
        self.queued.clear();
        Ok(())
    }

    // Receives once.
    fn receive(&mut self, room: &mut [u8]) -> Result<Heard, NoMemory>
        requires { 0 < length room.old }
        ensures { IfOk result (λ heard. ReceivesOnce self.old heard self.new) }
    {
        let alloc = *self.queued.allocator();
        receive(alloc, &mut self.link, &mut self.reader, room)
    }

    /// Sends what is queued, and then receives once.
    pub fn turn(&mut self, room: &mut [u8]) -> Result<Heard, NoMemory>
        requires { 0 < length room.old }
        ensures { IfOk result (λ heard. Turns self.old heard self.new) }
    {
        match self.flush() {
            Ok(()) => self.receive(room),
            Err(_) => Ok(Heard::Lost),
        }
    }

    // Takes the frames that came.
    fn take(&mut self, desk: &mut Desk, frames: Vec<ClientFrame>) -> Result<Taken, NoMemory>
        ensures { IfOk result (λ taken. Takes self.old desk.old frames.items taken self.new desk.new) }
    {
        desk.take_all(self.number, frames, &mut self.queued)
    }

    /// Serves the client once: sends what is queued, receives once, and takes the frames that came.
    pub fn serve(&mut self, desk: &mut Desk, room: &mut [u8]) -> Result<Served, NoMemory>
        requires { 0 < length room.old }
        ensures { IfOk result (λ served. IsServed self.old desk.old served self.new desk.new) }
    {
        let silent = self.is_silent();
        match self.turn(room)? {
            Heard::Quiet => Ok(Served::nothing(*self.queued.allocator(), true, silent)),
            Heard::Lost => Ok(Served::nothing(*self.queued.allocator(), false, false)),
            Heard::Frames { frames, sound, .. } => {
                let taken = self.take(desk, frames.into_vec())?;
                Ok(Served {
                    kept: sound && !taken.dropped,
                    taken,
                    idle: false,
                })
            }
        }
    }

    pub fn into_link(self) -> L
        ensures { state_by L.left L.sent L.faults L.quiets L.endings L.given result ≡ self.link }
    {
        self.link
    }
}
