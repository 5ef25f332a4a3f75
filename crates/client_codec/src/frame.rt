//! What clients and replicas send one another, and how it is spelt.

ghost use Rattle.std.specs.Prelude.{◌≡◌, ◌++◌, OnOk};
ghost use Rattle.client_codec.specs.Spelling.{kind_of, fields_bytes, frame_bytes};

use frame_fields::spelling::{
    begin_frame, end_frame, push_byte, push_number, push_reply, push_request,
};
use jp_types::command::{Reply as KvReply, Request as KvRequest};
use jp_types::memory::NoMemory;
use jp_types::message::ReplicaId;

/// A frame between a client and a replica.
#[derive(Debug, Drop)]
pub enum ClientFrame {
    /// A client asks.
    Request(KvRequest),
    /// The reply to the client's request of this number, which is 1 to 2^48.
    Reply { number: u64, reply: KvReply },
    /// The client is to ask this replica, which is 0 to 8.
    Redirect { replica: ReplicaId },
    /// The replica has no room for the request of this number, which is 1 to 2^48.
    Busy { number: u64 },
    /// The replica is to end its run.
    Stop,
}

/// Appends a frame. After `NoMemory` a part of it may stand there.
pub fn write(m: &ClientFrame, out: &mut Vec<u8>) -> Result<(), NoMemory>
    ensures { OnOk result (out.new.items ≡ out.old.items ++ frame_bytes m.now) }
{
    let place = begin_frame(out, kind_of(m))?;
    push_fields(m, out)?;
    end_frame(out, place);
    Ok(())
}

fn kind_of(m: &ClientFrame) -> u8
    ensures { result ≡ kind_of m.now }
{
    match m {
        ClientFrame::Request(_) => 1,
        ClientFrame::Reply { .. } => 2,
        ClientFrame::Redirect { .. } => 3,
        ClientFrame::Busy { .. } => 4,
        ClientFrame::Stop => 5,
    }
}

fn push_fields(m: &ClientFrame, out: &mut Vec<u8>) -> Result<(), NoMemory>
    ensures { OnOk result (out.new.items ≡ out.old.items ++ fields_bytes m.now) }
{
    match m {
        ClientFrame::Request(request) => push_request(out, request),
        ClientFrame::Reply { number, reply } => {
            push_number(out, *number)?;
            push_reply(out, reply)
        }
        ClientFrame::Redirect { replica } => push_byte(out, *replica),
        ClientFrame::Busy { number } => push_number(out, *number),
        ClientFrame::Stop => Ok(()),
    }
}
