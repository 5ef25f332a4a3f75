//! A reader of the frames that a peer sends.

ghost use Rattle.std.specs.Prelude.{◌≡◌, ◌≢◌, ◌++◌, [], List, ℕ, length, IfOk, IsSome, Err};
ghost use Rattle.frame_fields.specs.declared.fault.FrameFault.TheVariants as fault;
ghost use Rattle.frame_stream.specs.Following.{Follows, HasBegun, HasFollowed, answer_of, fresh};
ghost use Rattle.jp_types.specs.declared.message.Message.{Message};
ghost use Rattle.message_codec.specs.Frames.{is_kind, is_listed, rules};

use crate::fields::read_message;
use crate::writing::VERSION_2;
use frame_fields::fault::FrameFault;
use frame_stream::grammar::Grammar;
use frame_stream::reader::Reader as Frames;
use jp_types::memory::NoMemory;
use jp_types::message::Message;
use std::alloc::Global;
use std::marker::Model;

/// The greatest kind of a message; the least is 1.
const KINDS: u8 = 10;

/// Which frames a reader reads.
#[derive(Clone, Copy, Debug, Drop)]
pub struct MessageFrames {
    /// The cluster that frames of version 2 have to name.
    pub cluster: u64,
    /// Whether frames of version 1 are read, which name no cluster.
    pub old: bool,
}

fn is_kind(kind: u8) -> bool
    ensures { result ≡ is_kind kind }
{
    0 < kind && kind <= KINDS
}

impl Grammar for MessageFrames {
    type Item = Message;

    ghost rules = { λ g. rules g.cluster g.old };

    fn is_listed(&self, kind: u8) -> bool {
        if kind < VERSION_2 {
            self.old && is_kind(kind)
        } else {
            is_kind(kind - VERSION_2)
        }
    }

    fn read(&self, alloc: Global, kind: u8, at: u64, fields: &[u8]) -> Result<Message, FrameFault> {
        read_message(alloc, self.cluster, kind, at, fields)
    }
}

/// A reader of the messages in a stream of frames, which is fed in pieces. It keeps the bytes of a frame that is not whole
/// yet, and no room for more than it was fed. The first fault ends its reading.
#[derive(Drop)]
pub struct Reader {
    frames: Frames<MessageFrames>,
}

impl Model for Reader {
    ghost use Rattle.frame_stream.specs.Following.{Progress};
    ghost use Rattle.message_codec.specs.declared.reader.MessageFrames.{MessageFrames};

    ghost Value = { Progress MessageFrames };

    ghost view = { λ r. r.frames };
}

impl Reader {
    /// A reader at the start of a stream, in this cluster. `old` says whether frames of version 1 are read too.
    pub fn new(alloc: Global, cluster: u64, old: bool) -> Result<Reader, NoMemory>
        ensures fresh { IfOk result (λ reader. reader ≡ fresh (record { cluster = cluster; old = old })) }
        ensures follows { IfOk result (λ reader. Follows (rules cluster old) [] [] reader) }
    {
        Ok(Reader {
            frames: Frames::new(alloc, MessageFrames { cluster, old })?,
        })
    }

    /// Takes the next piece of the stream, and puts each message whose frame has now come whole behind those that are there.
    ///
    /// # Errors
    ///
    /// The first fault of the stream, once what tells it has come; the messages before it were put. From then on each call
    /// answers the same, and changes nothing. After `NoMemory`, which is answered again too, the messages are those that were
    /// there and some of the further ones, in order, and the reader is of no more use.
    pub fn feed(&mut self, piece: &[u8], out: &mut Vec<Message>) -> Result<(), FrameFault>
        ensures answer { result ≡ answer_of self.new.fault }
        ensures follows { (stream : List ℕ) (messages : List Message) → Follows (rules self.old.grammar.cluster self.old.grammar.old) stream messages self.old → result ≢ Err fault.NoMemory → HasFollowed (rules self.old.grammar.cluster self.old.grammar.old) (stream ++ piece.now) messages out.old.items out.new.items self.new }
        ensures begun { (stream : List ℕ) (messages : List Message) → Follows (rules self.old.grammar.cluster self.old.grammar.old) stream messages self.old → HasBegun (rules self.old.grammar.cluster self.old.grammar.old) (stream ++ piece.now) messages out.old.items out.new.items }
        ensures stopped { IsSome self.old.fault → (self.new ≡ self.old) × (out.new.items ≡ out.old.items) }
        ensures grammar { self.new.grammar ≡ self.old.grammar }
    {
        self.frames.feed(piece, out)
    }

    /// How many bytes were fed since the end of the last whole frame; 0 after a fault.
    pub fn held(&self) -> u64
        ensures { result ≡ length self.now.kept }
    {
        self.frames.held()
    }
}
