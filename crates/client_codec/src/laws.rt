//! What holds of streams of frames between clients and replicas. The functions here do nothing: their contracts say it.

ghost use Rattle.std.specs.Prelude.{ℕ, List};
ghost use Rattle.jp_types.specs.Limits.{AreBytes};
ghost use Rattle.frame_stream.specs.Frames.{Reads};
ghost use Rattle.frame_stream.specs.Following.{Follows, Progress};
ghost use Rattle.client_codec.specs.declared.frame.ClientFrame.{ClientFrame};
ghost use Rattle.client_codec.specs.declared.grammar.ClientGrammar.{ClientGrammar};
ghost use Rattle.client_codec.specs.Frames.{client_rules};
ghost use Rattle.client_codec.specs.Laws.{ReadsBack, WasSpelt, IsNoFrontOf, IsLongest};

/// A frame within its limits reads back as it is spelt, and bytes that read as a frame are its spelling.
pub fn frames_are_read_as_spelt()
    ensures reads_back { (f : ClientFrame) → ReadsBack f }
    ensures was_spelt { (f : ClientFrame) → WasSpelt f }
{}

/// No frame is the front of another, so a frame has one spelling.
pub fn no_frame_is_the_front_of_another()
    ensures { (f g : ClientFrame) → IsNoFrontOf f g }
{}

/// The frames that a reader gave for a stream are the longest list of frames whose spellings are at its front.
pub fn the_longest_list_is_given()
    ensures { (stream : List ℕ) (frames : List ClientFrame) (reader : Progress ClientGrammar) → AreBytes stream → Follows client_rules stream frames reader → (rest : List ℕ) × IsLongest frames stream rest }
{}
