//! A reader of a stream of frames between clients and replicas.

ghost use Rattle.std.specs.Prelude.{◌≡◌, ◌≢◌, ◌++◌, [], List, ℕ, length, IfOk, IsSome, Err};
ghost use Rattle.frame_fields.specs.declared.fault.FrameFault.TheVariants as told_fault;
ghost use Rattle.frame_stream.specs.Following.{Follows, HasBegun, HasFollowed, answer_of};
ghost use Rattle.client_codec.specs.declared.frame.ClientFrame.{ClientFrame as Frame};
ghost use Rattle.client_codec.specs.Frames.{client_rules};

use crate::frame::ClientFrame;
use crate::grammar::ClientGrammar;
use frame_fields::fault::FrameFault;
use frame_stream::reader::Reader as StreamReader;
use jp_types::memory::NoMemory;
use std::alloc::Global;
use std::marker::Model;

/// A reader of a stream of frames between a client and a replica, which is fed in pieces.
#[derive(Drop)]
pub struct Reader {
    frames: StreamReader<ClientGrammar>,
}

impl Model for Reader {
    ghost use Rattle.frame_stream.specs.Following.{Progress};
    ghost use Rattle.client_codec.specs.declared.grammar.ClientGrammar.{ClientGrammar};

    ghost Value = { Progress ClientGrammar };

    ghost view = { λ r. r.frames };
}

impl Reader {
    /// A reader at the start of a stream.
    pub fn new(alloc: Global) -> Result<Reader, NoMemory>
        ensures { IfOk result (λ reader. Follows client_rules [] [] reader) }
    {
        Ok(Reader {
            frames: StreamReader::new(alloc, ClientGrammar)?,
        })
    }

    /// How many bytes were fed since the end of the last whole frame; 0 after a fault.
    pub fn held(&self) -> u64
        ensures { result ≡ length self.now.kept }
    {
        self.frames.held()
    }

    /// Takes the next piece of the stream, and puts each frame that has now come whole behind those that are there.
    ///
    /// # Errors
    ///
    /// The first fault of the stream, once what tells it has come; the frames before it were put. From then on each call
    /// answers the same, and changes nothing. After `NoMemory`, which is answered again too, the frames are those that were
    /// there and some of the further ones, in order, and the reader is of no more use.
    pub fn feed(&mut self, piece: &[u8], out: &mut Vec<ClientFrame>) -> Result<(), FrameFault>
        ensures answer { result ≡ answer_of self.new.fault }
        ensures follows { (stream : List ℕ) (frames : List Frame) → Follows client_rules stream frames self.old → result ≢ Err told_fault.NoMemory → HasFollowed client_rules (stream ++ piece.now) frames out.old.items out.new.items self.new }
        ensures begun { (stream : List ℕ) (frames : List Frame) → Follows client_rules stream frames self.old → HasBegun client_rules (stream ++ piece.now) frames out.old.items out.new.items }
        ensures stopped { IsSome self.old.fault → (self.new ≡ self.old) × (out.new.items ≡ out.old.items) }
    {
        self.frames.feed(piece, out)
    }
}
