//! One attempt at a request.

ghost use Rattle.std.specs.Prelude.{◌≡◌, ◌≢◌, ◌<◌, ◌≤◌, ◌+◌, ℕ, [], length, take, None, IfOk, OnOk, OnErr, MatchOption};
ghost use Rattle.std.specs.Io.KnownBytes.{Appends};
ghost use Rattle.jp_types.specs.declared.command.Request.{Request as Asked};
ghost use Rattle.client_codec.specs.declared.frame.ClientFrame.TheVariants as frame_kind;
ghost use Rattle.client_io.specs.Ends.{ended_or};
ghost use Rattle.client_io.specs.Links.{FollowsClient};
ghost use Rattle.client_codec.specs.Spelling.{frame_bytes};
ghost use Rattle.client_io.specs.Attempts.{Asks, Attempts, Waits, patience};
ghost use Rattle.client_io.specs.Links.{LinkState, state_by};

use crate::attempt_end::{Attempt, first_ending};
use crate::hearing::{Heard, receive};
use client_codec::frame::{ClientFrame, write};
use client_codec::reader::Reader;
use jp_types::command::Request;
use jp_types::memory::{Duplicate, NoMemory};
use links::link::{Link, send_all};
use std::alloc::Global;

/// How many receives in a row may bring nothing.
pub const QUIET_LIMIT: usize = 50;

/// How many bytes may come that bring no answer.
pub const BYTE_LIMIT: usize = 65_536;

/// How many bytes are received at once.
const ROOM: usize = 4096;

// Where no frame ended the attempt, bytes that are not sound do.
fn ended_or(found: Option<Attempt>, sound: bool) -> Option<Attempt>
    ensures { result ≡ ended_or found sound }
{
    match found {
        Some(end) => Some(end),
        None => { if sound { None } else { Some(Attempt::Ended) } }
    }
}

/// How far the answer to a request was waited for.
#[derive(Drop)]
struct Waiting {
    reader: Reader,
    /// How many bytes came.
    taken: usize,
    /// How many receives in a row brought nothing.
    waited: usize,
}

impl Waiting {
    // Receives once. The answer is how the attempt ended, if it did.
    fn turn<L: Link>(
        &mut self,
        alloc: Global,
        link: &mut L,
        room: &mut [u8],
        number: u64,
    ) -> Result<Option<Attempt>, NoMemory>
        requires some { 0 < length room.old }
        requires bytes { self.old.taken + length room.old ≤ BYTE_LIMIT }
        requires quiets { self.old.waited < QUIET_LIMIT }
        ensures waits { (before : LinkState) → Waits number before (state_by L.left L.sent L.faults L.quiets L.endings L.given link.old) self.old
            → IfOk result (λ end. MatchOption end (Waits number before (state_by L.left L.sent L.faults L.quiets L.endings L.given link.new) self.new) (Attempts number before (state_by L.left L.sent L.faults L.quiets L.endings L.given link.new))) }
        ensures nearer { IfOk result (λ end. end ≡ None → patience self.new < patience self.old) }
        ensures bytes { IfOk result (λ end. end ≡ None → self.new.taken ≤ BYTE_LIMIT) }
        ensures quiets { IfOk result (λ end. end ≡ None → self.new.waited ≤ QUIET_LIMIT) }
        ensures sent { L.sent link.new ≡ L.sent link.old }
    {
        match receive(alloc, link, &mut self.reader, room)? {
            Heard::Quiet => {
                self.waited += 1;
                Ok(None)
            }
            Heard::Lost => Ok(Some(Attempt::Ended)),
            Heard::Frames {
                frames,
                sound,
                count,
            } => {
                self.taken += count;
                self.waited = 0;
                Ok(ended_or(first_ending(frames.into_vec(), number), sound))
            }
        }
    }
}

// Waits for the answer to the request of this number, with a reader that was fed nothing.
fn wait_for_answer<L: Link>(
    alloc: Global,
    link: &mut L,
    reader: Reader,
    number: u64,
) -> Result<Attempt, NoMemory>
    requires { FollowsClient [] [] reader }
    ensures attempts { IfOk result (λ end. Attempts number (state_by L.left L.sent L.faults L.quiets L.endings L.given link.old) (state_by L.left L.sent L.faults L.quiets L.endings L.given link.new) end) }
    ensures sent { L.sent link.new ≡ L.sent link.old }
{
    let mut wait = Waiting {
        reader,
        taken: 0,
        waited: 0,
    };
    let mut room = [0u8; ROOM];
    'turns: while wait.waited < QUIET_LIMIT && wait.taken < BYTE_LIMIT {
        let most = (BYTE_LIMIT - wait.taken).min(ROOM);
        if let Some(end) = wait.turn(alloc, link, &mut room[..most], number)? {
            return Ok(end);
        }
    }
    Ok(Attempt::Ended)
}

// The frame that asks for a request.
fn spell(alloc: Global, request: &Request) -> Result<Vec<u8>, NoMemory>
    ensures { IfOk result (λ bytes. bytes.items ≡ frame_bytes (frame_kind.Request request.now)) }
{
    let mut bytes = Vec::new(alloc);
    write(&ClientFrame::Request(request.copy()?), &mut bytes)?;
    Ok(bytes)
}

/// Sends a request over a link, and waits for its answer: until 50 receives in a row brought nothing, 65,536 bytes
/// brought no answer, or the link is of no more use. After `NoMemory` the link is not to be used again.
pub fn attempt<L: Link>(alloc: Global, link: &mut L, request: &Request) -> Result<Attempt, NoMemory>
    ensures { IfOk result (λ end. Asks request.now (state_by L.left L.sent L.faults L.quiets L.endings L.given link.old) (state_by L.left L.sent L.faults L.quiets L.endings L.given link.new) end) }
{
    let bytes = spell(alloc, request)?;
    let reader = Reader::new(alloc)?;
    match send_all(link, &bytes) {
        Ok(()) => wait_for_answer(alloc, link, reader, request.number),
        Err(_) => Ok(Attempt::Ended),
    }
}
