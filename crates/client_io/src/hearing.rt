//! What comes over a client's link, and what goes out over it.

ghost use Rattle.std.specs.Prelude.{◌≡◌, ◌<◌, length, IfOk};
ghost use Rattle.client_io.specs.Links.{state_by};
ghost use Rattle.client_io.specs.Hearing.{Brings, BringsAtMost, IsSound, ReadsPiece};

use client_codec::frame::ClientFrame;
use client_codec::reader::Reader;
use frame_fields::fault::FrameFault;
use jp_types::listed::Listed;
use jp_types::memory::NoMemory;
use links::came::Came;
use links::link::Link;
use std::alloc::Global;

/// What a receive brought.
#[derive(Debug, Drop)]
pub(crate) enum Heard {
    Quiet,
    /// The link failed or ended.
    Lost,
    /// Bytes came, and with them these frames, and then, where the bytes are not sound, a fault.
    Frames {
        frames: Listed<ClientFrame>,
        sound: bool,
        /// How many bytes came.
        count: usize,
    },
}

// Whether a reader that answers so has met no fault.
fn soundness(answer: Result<(), FrameFault>) -> Result<bool, NoMemory>
    ensures { IfOk result (λ sound. IsSound answer sound) }
{
    match answer {
        Ok(()) => Ok(true),
        Err(fault) => match fault {
            FrameFault::NoMemory => Err(NoMemory),
            _ => Ok(false),
        },
    }
}

// The frames that a piece brings.
fn read(alloc: Global, reader: &mut Reader, piece: &[u8]) -> Result<Heard, NoMemory>
    ensures { IfOk result (λ heard. ReadsPiece reader.old piece.now heard reader.new) }
{
    let mut frames = Vec::new(alloc);
    let sound = soundness(reader.feed(piece, &mut frames))?;
    Ok(Heard::Frames {
        frames: Listed::from_vec(frames),
        sound,
        count: piece.len(),
    })
}

/// Receives once, and reads the frames that came.
pub(crate) fn receive<L: Link>(
    alloc: Global,
    link: &mut L,
    reader: &mut Reader,
    room: &mut [u8],
) -> Result<Heard, NoMemory>
    requires { 0 < length room.old }
    ensures brings { IfOk result (λ heard. Brings heard (state_by L.left L.sent L.faults L.quiets L.endings L.given link.old) reader.old (state_by L.left L.sent L.faults L.quiets L.endings L.given link.new) reader.new) }
    ensures most { IfOk result (λ heard. BringsAtMost (length room.old) heard) }
    ensures sent { L.sent link.new ≡ L.sent link.old }
{
    match link.receive(room) {
        Ok(Came::Bytes(count)) => read(alloc, reader, &room[..count]),
        Ok(Came::Quiet) => Ok(Heard::Quiet),
        Ok(Came::Ended) | Err(_) => Ok(Heard::Lost),
    }
}
