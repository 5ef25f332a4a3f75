//! What holds of the frames of messages. The functions here do nothing: their contracts say it.

ghost use Rattle.message_codec.specs.Laws.{FramesReadBack, FramesWereSpelt, MessagesAreAll, NoFrameBeginsAnother, NoOldFrameBeginsAnother};
ghost use Rattle.message_codec.specs.declared.reader.MessageFrames.{MessageFrames};

/// The frame of a message within its limits reads back, in either version.
pub fn frames_read_back()
    ensures { FramesReadBack }
{}

/// Bytes that read as a message are its frame, in one of the two versions.
pub fn frames_were_spelt()
    ensures { FramesWereSpelt }
{}

/// The messages that a reader gives are those of the longest list of frames with which its stream begins.
pub fn messages_are_all()
    ensures { MessagesAreAll MessageFrames }
{}

/// No frame begins another one, so one version, cluster and message have one spelling, and no two share it.
pub fn no_frame_begins_another()
    ensures new { NoFrameBeginsAnother }
    ensures old { NoOldFrameBeginsAnother }
{}
