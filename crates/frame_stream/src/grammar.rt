//! What the frames of a stream may be.

ghost use Rattle.std.specs.Prelude.{◌≡◌, IsTrue};
ghost use Rattle.frame_fields.specs.Telling.{Tells};
ghost use Rattle.frame_stream.specs.Frames.{Rules};

use frame_fields::fault::FrameFault;
use std::alloc::Global;

/// Which kinds of frames there are, and what the fields of a frame of a kind spell.
pub trait Grammar {
    /// What a frame spells.
    type Item: Drop;

    /// The kinds that are listed, and what is read of the fields of each.
    ghost rules: { Self → Rules Self.Item };

    /// Whether there are frames of this kind.
    fn is_listed(&self, kind: u8) -> bool
        ensures { result ≡ (rules self.now).is_listed kind };

    /// Reads all the fields of a whole frame of a listed kind. The first of them is at the place `at` of the stream, and
    /// places are told as counted from there; from 2^64 - 1 on each place is told as that number.
    fn read(
        &self,
        alloc: Global,
        kind: u8,
        at: u64,
        fields: &[u8],
    ) -> Result<Self::Item, FrameFault>
        requires { IsTrue ((rules self.now).is_listed kind) }
        ensures { Tells (λ item. item) result ((rules self.now).reads kind at fields.now) };
}
