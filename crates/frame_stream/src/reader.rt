//! A reader that is fed a stream of frames in pieces, and gives what each whole frame spells.

ghost use Rattle.std.specs.Prelude.{◌≡◌, ◌≢◌, ◌≤◌, ◌<◌, ◌++◌, [], List, ℕ, length, drop, IfOk, IfSome, IsSome, Err, Some};
ghost use Rattle.std.specs.Int.{from_be_bytes, w32};
ghost use Rattle.frame_fields.specs.declared.fault.FrameFault.TheVariants as told_fault;
ghost use Rattle.frame_stream.specs.Frames.{frame_of_kind, frame_of_length, next_frame};
ghost use Rattle.frame_stream.specs.Following.{Follows, HasBegun, HasFollowed, HasTaken, TellsNext, answer_of, fresh, kept_from, left_from};

use crate::grammar::Grammar;
use frame_fields::fault::FrameFault;
use jp_types::memory::NoMemory;
use std::alloc::Global;
use std::marker::Model;

/// The greatest length that a frame may tell. It counts the bytes behind the length.
pub const LONGEST: u32 = 134_217_728;

// How many bytes tell the length.
const LENGTH: usize = 4;

// How many bytes stand before the fields: the length and the kind.
const HEAD: usize = 5;

// The frame of this kind and length at the front of the bytes.
fn frame_of_kind<G: Grammar>(
    grammar: &G,
    alloc: Global,
    at: u64,
    len: u32,
    kind: u8,
    bytes: &[u8],
) -> Result<Option<(G::Item, usize)>, FrameFault>
    requires { 1 ≤ len }
    ensures next { TellsNext result (frame_of_kind (G.rules grammar.now) at len kind bytes.now) }
    ensures size { IfOk result (λ next. IfSome next (λ frame. (0 < frame.1) × (frame.1 ≤ length bytes.now))) }
{
    if !grammar.is_listed(kind) {
        return Err(FrameFault::BadKind(at.saturating_add(LENGTH as u64)));
    }
    let end = LENGTH + len as usize;
    if bytes.len() < end {
        return Ok(None);
    }
    let item = grammar.read(
        alloc,
        kind,
        at.saturating_add(HEAD as u64),
        &bytes[HEAD..end],
    )?;
    Ok(Some((item, end)))
}

// The frame of this length at the front of the bytes.
fn frame_of_length<G: Grammar>(
    grammar: &G,
    alloc: Global,
    at: u64,
    len: u32,
    bytes: &[u8],
) -> Result<Option<(G::Item, usize)>, FrameFault>
    ensures next { TellsNext result (frame_of_length (G.rules grammar.now) at len bytes.now) }
    ensures size { IfOk result (λ next. IfSome next (λ frame. (0 < frame.1) × (frame.1 ≤ length bytes.now))) }
{
    if len > LONGEST {
        return Err(FrameFault::TooLong(at));
    }
    if len == 0 {
        return Err(FrameFault::BadLength(at));
    }
    if bytes.len() < HEAD {
        return Ok(None);
    }
    frame_of_kind(grammar, alloc, at, len, bytes[LENGTH], bytes)
}

// What the frame at the front of the bytes spells, and its size; `None` where more bytes may go on with it.
#[tactic(auto, unfolding(crate::specs::Frames::next_frame))]
fn next_frame<G: Grammar>(
    grammar: &G,
    alloc: Global,
    at: u64,
    bytes: &[u8],
) -> Result<Option<(G::Item, usize)>, FrameFault>
    ensures next { TellsNext result (next_frame (G.rules grammar.now) at bytes.now) }
    ensures size { IfOk result (λ next. IfSome next (λ frame. (0 < frame.1) × (frame.1 ≤ length bytes.now))) }
{
    let Some(len) = bytes.first_chunk::<LENGTH>() else {
        return Ok(None);
    };
    frame_of_length(grammar, alloc, at, u32::from_be_bytes(*len), bytes)
}

// Reads the whole frames at the front of the bytes, and tells how many bytes they have. The place moves on with them.
fn read_frames<G: Grammar>(
    grammar: &G,
    alloc: Global,
    at: &mut u64,
    bytes: &[u8],
    out: &mut Vec<G::Item>,
) -> Result<usize, FrameFault>
    ensures taken { HasTaken (G.rules grammar.now) at.old bytes.now out.old.items out.new.items at.new (left_from bytes.now result) (kept_from result) }
    ensures within { IfOk result (λ start. start ≤ length bytes.now) }
{
    let mut start = 0;
    'frames: while let Some((item, size)) = next_frame(grammar, alloc, *at, &bytes[start..])? {
        out.push(item)?;
        start += size;
        *at = at.saturating_add(size as u64);
    }
    Ok(start)
}

// Takes so many bytes away from the front.
fn drop_front(bytes: &mut Vec<u8>, count: usize)
    requires { count ≤ length bytes.old.items }
    ensures { bytes.new.items ≡ drop count bytes.old.items }
{
    bytes.drain(..count);
}

/// A reader of a stream of frames, which is fed in pieces. It keeps the bytes of a frame that is not whole yet, and no room
/// for more than it was fed: a length alone reserves nothing. The first fault ends its reading.
#[derive(Drop)]
pub struct Reader<G> {
    grammar: G,
    at: u64,
    kept: Vec<u8>,
    fault: Option<FrameFault>,
}

impl<G> Model for Reader<G> {
    ghost use Rattle.frame_stream.specs.Following.{Progress};

    ghost Value = { Progress G };

    ghost view = { λ r. record { grammar = r.grammar; at = r.at; kept = r.kept.items; fault = r.fault } };
}

impl<G: Grammar> Reader<G> {
    /// A reader at the start of a stream.
    #[tactic(auto, unfolding(crate::specs::Frames::next_frame))]
    pub fn new(alloc: Global, grammar: G) -> Result<Reader<G>, NoMemory>
        ensures fresh { IfOk result (λ reader. reader ≡ fresh grammar) }
        ensures follows { Follows (G.rules grammar) [] [] (fresh grammar) }
    {
        Ok(Reader {
            grammar,
            at: 0,
            kept: Vec::new(alloc),
            fault: None,
        })
    }

    /// How many bytes were fed since the end of the last whole frame; 0 after a fault.
    pub fn held(&self) -> u64
        ensures { result ≡ length self.now.kept }
    {
        self.kept.len() as u64
    }

    // Reads a piece where nothing is kept from before, and keeps what is left of it.
    fn read_piece(&mut self, piece: &[u8], out: &mut Vec<G::Item>) -> Result<(), FrameFault>
        requires { self.old.kept ≡ [] }
        ensures taken { HasTaken (G.rules self.old.grammar) self.old.at piece.now out.old.items out.new.items self.new.at self.new.kept result }
        ensures grammar { self.new.grammar ≡ self.old.grammar }
        ensures fault { self.new.fault ≡ self.old.fault }
    {
        let alloc = *self.kept.allocator();
        let start = read_frames(&self.grammar, alloc, &mut self.at, piece, out)?;
        self.kept.extend_from_slice(&piece[start..])?;
        Ok(())
    }

    // Reads what is kept with the piece behind it.
    fn read_on(&mut self, piece: &[u8], out: &mut Vec<G::Item>) -> Result<(), FrameFault>
        ensures taken { HasTaken (G.rules self.old.grammar) self.old.at (self.old.kept ++ piece.now) out.old.items out.new.items self.new.at self.new.kept result }
        ensures grammar { self.new.grammar ≡ self.old.grammar }
        ensures fault { self.new.fault ≡ self.old.fault }
    {
        let alloc = *self.kept.allocator();
        self.kept.extend_from_slice(piece)?;
        let start = read_frames(&self.grammar, alloc, &mut self.at, &self.kept, out)?;
        drop_front(&mut self.kept, start);
        Ok(())
    }

    // Reads what is kept with the piece behind it. Where nothing is kept, the piece is read where it lies.
    fn take(&mut self, piece: &[u8], out: &mut Vec<G::Item>) -> Result<(), FrameFault>
        ensures taken { HasTaken (G.rules self.old.grammar) self.old.at (self.old.kept ++ piece.now) out.old.items out.new.items self.new.at self.new.kept result }
        ensures grammar { self.new.grammar ≡ self.old.grammar }
        ensures fault { self.new.fault ≡ self.old.fault }
    {
        if self.kept.is_empty() {
            self.read_piece(piece, out)
        } else {
            self.read_on(piece, out)
        }
    }

    // Reads no more, and lets go what is kept.
    fn stop(&mut self, fault: FrameFault)
        ensures { self.new ≡ record self.old { kept = []; fault = Some fault } }
    {
        self.kept = Vec::new(*self.kept.allocator());
        self.fault = Some(fault);
    }

    /// Takes the next piece of the stream, and puts what each frame spells that has now come whole behind the items that are
    /// there.
    ///
    /// # Errors
    ///
    /// The first fault of the stream, once what tells it has come; the items of the frames before it were put. From then on
    /// each call answers the same, and changes nothing. After `NoMemory`, which is answered again too, the items are those
    /// that were there and some of the further ones, in order, and the reader is of no more use.
    pub fn feed(&mut self, piece: &[u8], out: &mut Vec<G::Item>) -> Result<(), FrameFault>
        ensures answer { result ≡ answer_of self.new.fault }
        ensures follows { (stream : List ℕ) (items : List G.Item) → Follows (G.rules self.old.grammar) stream items self.old → result ≢ Err told_fault.NoMemory → HasFollowed (G.rules self.old.grammar) (stream ++ piece.now) items out.old.items out.new.items self.new }
        ensures begun { (stream : List ℕ) (items : List G.Item) → Follows (G.rules self.old.grammar) stream items self.old → HasBegun (G.rules self.old.grammar) (stream ++ piece.now) items out.old.items out.new.items }
        ensures stopped { IsSome self.old.fault → (self.new ≡ self.old) × (out.new.items ≡ out.old.items) }
        ensures grammar { self.new.grammar ≡ self.old.grammar }
    {
        if let Some(fault) = self.fault {
            return Err(fault);
        }
        match self.take(piece, out) {
            Ok(()) => Ok(()),
            Err(fault) => {
                self.stop(fault);
                Err(fault)
            }
        }
    }
}
