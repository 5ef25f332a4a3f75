//! What is done with the frames of a session.

ghost use Rattle.std.specs.Prelude.{◌≡◌, IfOk, OnOk};
ghost use Rattle.client_io.specs.Taking.{all_taken, frame_taken, gathered, next_taken, nothing_taken, request_taken};

use client_codec::frame::{ClientFrame, write};
use jp_types::command::Request;
use jp_types::listed::Listed;
use jp_types::memory::NoMemory;
use jp_types::message::ReplicaId;
use jp_types::numbered::Numbered;
use std::alloc::Global;

/// How many client stages a replica has. A stage serves the clients whose numbers leave its own when they are divided by
/// this one.
pub const STAGES: u8 = 4;

/// What a client stage takes the frames of its sessions by.
#[derive(Drop)]
pub(crate) struct Desk {
    /// Which client stage it is.
    pub k: u8,
    /// Whether the replica leads, by what was told last.
    pub leading: bool,
    /// The leader of the view that was told last.
    pub leader: ReplicaId,
    /// The session that sent each client's latest request.
    pub homes: Numbered<u64>,
}

/// What the frames of a session came to.
#[derive(Debug, Drop)]
pub(crate) struct Taken {
    /// The requests to put.
    pub requests: Listed<Request>,
    /// Whether one of the frames asks the replica to stop.
    pub stop: bool,
    /// Whether one of the frames is none that this stage takes.
    pub dropped: bool,
}

impl Desk {
    // A request is answered Redirect where the replica does not lead.
    fn take_request(
        &mut self,
        session: u64,
        request: Request,
        queued: &mut Vec<u8>,
        taken: &mut Taken,
    ) -> Result<(), NoMemory>
        ensures { OnOk result (gathered self.new queued.new.items taken.new ≡ request_taken session request (gathered self.old queued.old.items taken.old)) }
    {
        if request.client % u64::from(STAGES) != u64::from(self.k) {
            taken.dropped = true;
            return Ok(());
        }
        self.homes.insert(request.client, session)?;
        if self.leading {
            return taken.requests.push(request);
        }
        let replica = self.leader;
        write(&ClientFrame::Redirect { replica }, queued)
    }

    fn take_frame(
        &mut self,
        session: u64,
        frame: ClientFrame,
        queued: &mut Vec<u8>,
        taken: &mut Taken,
    ) -> Result<(), NoMemory>
        ensures { OnOk result (gathered self.new queued.new.items taken.new ≡ frame_taken session frame (gathered self.old queued.old.items taken.old)) }
    {
        match frame {
            ClientFrame::Request(request) => self.take_request(session, request, queued, taken),
            ClientFrame::Stop => {
                taken.stop = true;
                Ok(())
            }
            _ => {
                taken.dropped = true;
                Ok(())
            }
        }
    }

    // Behind a frame that this stage does not take, nothing is taken.
    fn take_next(
        &mut self,
        session: u64,
        frame: ClientFrame,
        queued: &mut Vec<u8>,
        taken: &mut Taken,
    ) -> Result<(), NoMemory>
        ensures { OnOk result (gathered self.new queued.new.items taken.new ≡ next_taken session (gathered self.old queued.old.items taken.old) frame) }
    {
        if taken.dropped {
            return Ok(());
        }
        self.take_frame(session, frame, queued, taken)
    }

    /// Takes the frames of a session in order, and queues what is answered at once.
    pub fn take_all(
        &mut self,
        session: u64,
        frames: Vec<ClientFrame>,
        queued: &mut Vec<u8>,
    ) -> Result<Taken, NoMemory>
        ensures { IfOk result (λ taken. gathered self.new queued.new.items taken ≡ all_taken session frames.items (gathered self.old queued.old.items nothing_taken)) }
    {
        let mut taken = Taken::nothing(*frames.allocator());
        for frame in frames {
            self.take_next(session, frame, queued, &mut taken)?;
        }
        Ok(taken)
    }
}

impl Taken {
    pub fn nothing(alloc: Global) -> Taken
        ensures { result ≡ nothing_taken }
    {
        Taken {
            requests: Listed::empty(alloc),
            stop: false,
            dropped: false,
        }
    }
}
