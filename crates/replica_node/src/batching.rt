//! A step of the Batcher.

ghost use Rattle.std.specs.Prelude.{◌≡◌, ◌&&◌, false, [], IfOk, OnOk, is_some};
ghost use Rattle.replica_node.specs.Batching.{is_batch_blocked, with_batch, fed_taken, batch_step};
ghost use Rattle.replica_node.specs.Lane.{is_full};
ghost use Rattle.batcher.specs.Cut.{is_closed_by};
ghost use Rattle.replica_node.specs.declared.stages.Taken.TheVariants as taken_as;

use crate::stages::{Stages, Taken};
use batcher::fed::Fed;
use jp_types::batch::Batch;
use jp_types::listed::Listed;
use jp_types::memory::NoMemory;
use protocol_core::item::Item;

impl Stages {
    // Whether the front item closes a batch for which the dispatcher lane has no place.
    fn is_batch_blocked(&self) -> bool
        ensures { result ≡ is_batch_blocked self.now }
    {
        match self.requests.front() {
            Some(fed) => self.batcher.closes(fed) && self.dispatcher.is_full(),
            None => false,
        }
    }

    // A batch that was closed is put in the dispatcher lane.
    fn dispatch(&mut self, closed: Option<Batch>)
        requires { (is_some closed && is_full self.old.dispatcher) ≡ false }
        ensures { self.new ≡ record self.old { dispatcher = with_batch self.old.dispatcher closed } }
    {
        if let Some(batch) = closed {
            let _put = self.dispatcher.put(Item::Batch(batch));
        }
    }

    // The Batcher takes an item.
    fn take_fed(&mut self, fed: Fed) -> Result<Taken, NoMemory>
        requires { (is_closed_by self.old.batcher fed && is_full self.old.dispatcher) ≡ false }
        ensures answer { IfOk result (λ taken. taken ≡ taken_as.Done []) }
        ensures after { OnOk result (self.new ≡ fed_taken self.old fed) }
    {
        let closed = self.batcher.turn(fed)?;
        self.dispatch(closed);
        Ok(Taken::Done(Listed::empty(self.alloc())))
    }

    /// The Batcher takes the front item of its lane. A batch that this closes goes into the dispatcher lane.
    pub(crate) fn step_batch(&mut self) -> Result<Taken, NoMemory>
        ensures answer { IfOk result (λ taken. taken ≡ (batch_step self.old).answer) }
        ensures after { OnOk result (self.new ≡ (batch_step self.old).stages) }
    {
        if self.is_batch_blocked() {
            return Ok(Taken::Full);
        }
        match self.requests.take() {
            Some(fed) => self.take_fed(fed),
            None => Ok(Taken::Empty),
        }
    }
}
