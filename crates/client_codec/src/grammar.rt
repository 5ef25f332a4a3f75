//! The grammar of the frames between clients and replicas.

ghost use Rattle.std.specs.Prelude.{◌≡◌, ◌^◌, ◌<◌};
ghost use Rattle.frame_fields.specs.Telling.{Tells};
ghost use Rattle.client_codec.specs.Frames.{request_number, numbered_reply, fields_of_kind, client_rules};

use crate::frame::ClientFrame;
use frame_fields::fault::FrameFault;
use frame_fields::fields::Fields;
use frame_stream::grammar::Grammar;
use jp_types::message::ReplicaId;
use jp_types::views::NUMBER_LIMIT;
use std::alloc::Global;

/// The greatest number of a replica.
const REPLICA: u64 = 8;

/// The frames between clients and replicas.
#[derive(Debug, Drop)]
pub struct ClientGrammar;

impl Grammar for ClientGrammar {
    type Item = ClientFrame;

    ghost rules = { λ _. client_rules };

    fn is_listed(&self, kind: u8) -> bool {
        0 < kind && kind < 6
    }

    fn read(
        &self,
        alloc: Global,
        kind: u8,
        at: u64,
        bytes: &[u8],
    ) -> Result<ClientFrame, FrameFault> {
        let mut fields = Fields::new(at, bytes);
        let frame = read_kind(alloc, kind, &mut fields)?;
        fields.finish(frame)
    }
}

// The fields of a frame of a listed kind.
fn read_kind(alloc: Global, kind: u8, fields: &mut Fields) -> Result<ClientFrame, FrameFault>
    ensures { Tells (λ frame. (frame, fields.new)) result (fields_of_kind kind fields.old) }
{
    match kind {
        1 => Ok(ClientFrame::Request(fields.request(alloc)?)),
        2 => read_reply(alloc, fields),
        3 => Ok(ClientFrame::Redirect {
            replica: fields.number_within(1, 0, REPLICA)? as ReplicaId,
        }),
        4 => Ok(ClientFrame::Busy {
            number: read_number(fields)?,
        }),
        _ => Ok(ClientFrame::Stop),
    }
}

// A reply to the request of a number.
fn read_reply(alloc: Global, fields: &mut Fields) -> Result<ClientFrame, FrameFault>
    ensures { Tells (λ frame. (frame, fields.new)) result (numbered_reply fields.old) }
{
    let number = read_number(fields)?;
    let reply = fields.reply(alloc)?;
    Ok(ClientFrame::Reply { number, reply })
}

// The number of a request.
fn read_number(fields: &mut Fields) -> Result<u64, FrameFault>
    ensures { Tells (λ number. (number, fields.new)) result (request_number fields.old) }
{
    fields.number_within(8, 1, NUMBER_LIMIT)
}
