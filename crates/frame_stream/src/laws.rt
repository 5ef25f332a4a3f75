//! What holds of each stream of frames, and of each reader of one. The functions here do nothing: their contracts say it.

ghost use Rattle.frame_stream.specs.Laws.{CuttingChangesNothing, GivesWhatIsRead, OneReading};

use crate::grammar::Grammar;

/// However a stream is cut into pieces, the readers that were fed it have given the same items, and have the same fault.
pub fn cutting_changes_nothing<G: Grammar>()
    ensures { CuttingChangesNothing G G.Item }
{}

/// Bytes are read as frames in one way: the items, and what is left behind the frames.
pub fn bytes_are_read_in_one_way<G: Grammar>()
    ensures { OneReading G.Item }
{}

/// What a reader has given is what is read of the stream that it was fed.
pub fn readers_give_what_is_read<G: Grammar>()
    ensures { GivesWhatIsRead G G.Item }
{}
