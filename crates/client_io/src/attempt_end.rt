//! How an attempt at a request ends.

ghost use Rattle.std.specs.Prelude.{◌≡◌};
ghost use Rattle.client_io.specs.Ends.{ending, first_ending, next_ending};

use client_codec::frame::ClientFrame;
use jp_types::command::Reply;
use jp_types::message::ReplicaId;

/// How an attempt at a request ended.
#[derive(Debug, Drop)]
pub enum Attempt {
    Answered(Reply),
    /// The replica does not lead; this one did, by what it knew.
    Redirected(ReplicaId),
    /// The replica had no room for the request.
    Busy,
    /// No answer came.
    Ended,
}

// How a frame ends an attempt at the request of this number, if it does.
fn ending(frame: ClientFrame, number: u64) -> Option<Attempt>
    ensures { result ≡ ending number frame }
{
    match frame {
        ClientFrame::Reply {
            number: answered,
            reply,
        } if answered == number => Some(Attempt::Answered(reply)),
        ClientFrame::Redirect { replica } => Some(Attempt::Redirected(replica)),
        ClientFrame::Busy { number: answered } if answered == number => Some(Attempt::Busy),
        _ => None,
    }
}

// The next frame ends the attempt where none before it did.
fn next_ending(found: Option<Attempt>, frame: ClientFrame, number: u64) -> Option<Attempt>
    ensures { result ≡ next_ending number found frame }
{
    match found {
        Some(end) => Some(end),
        None => ending(frame, number),
    }
}

// How the first of the frames that ends the attempt ends it, if one does.
pub(crate) fn first_ending(frames: Vec<ClientFrame>, number: u64) -> Option<Attempt>
    ensures { result ≡ first_ending number frames.items }
{
    let mut found = None;
    for frame in frames {
        found = next_ending(found, frame, number);
    }
    found
}
