//! What the Batcher takes.

use jp_types::command::Request;

/// What the Batcher takes: a request, or a tick, which closes the batch that is being made.
#[derive(Debug, Drop)]
pub enum Fed {
    Request(Request),
    Tick,
}
