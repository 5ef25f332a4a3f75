//! The Batcher: one batch that is being made, and what closes it.

ghost use Rattle.std.specs.Prelude.{◌≡◌, ◌+◌, ◌||◌, false, [], suc, length, nat_lt, IfOk, OnErr, OnOk};
ghost use Rattle.jp_types.specs.Sizes.{batch_size, request_size};
ghost use Rattle.batcher.specs.Cut.{Fits, IsWithinLimits, byte_limit, closed_if, held_after, is_closed_by, request_limit};

use crate::fed::Fed;
use jp_types::batch::Batch;
use jp_types::command::Request;
use jp_types::memory::NoMemory;
use jp_types::size::request_size;
use std::alloc::Global;
use std::marker::Model;

/// How many bytes a batch has at most.
pub const BYTE_LIMIT: u64 = 65_536;

/// How many requests a batch has at most.
pub const REQUEST_LIMIT: usize = 1_024;

/// The size of a batch without requests: their count, in four bytes.
const EMPTY_SIZE: u64 = 4;

/// The batch that is being made.
#[derive(Debug, Drop)]
pub struct Batcher {
    alloc: Global,
    held: Batch,
    /// The size of the held batch, or 2^64 - 1 where that is more, so that nothing is counted anew.
    size: u64,
}

impl Model for Batcher {
    ghost use Rattle.std.specs.Prelude.{◌≡◌, ◌-◌, ◌^◌, List, min};
    ghost use Rattle.jp_types.specs.declared.command.Request.{Request};
    ghost use Rattle.jp_types.specs.Sizes.{batch_size};

    ghost Value = { List Request };

    ghost view = { λ b. b.held };

    ghost invariant = { λ b. b.size ≡ min (batch_size b.held) (2 ^ 64 - 1) };
}

impl Batcher {
    /// A Batcher that holds an empty batch.
    pub fn new(alloc: Global) -> Batcher
        ensures { result ≡ [] }
    {
        Batcher {
            alloc,
            held: Batch::empty(alloc),
            size: EMPTY_SIZE,
        }
    }

    /// Whether the held batch is closed by what comes next: it is not empty, and next comes a tick, or a request with
    /// which it would pass a limit.
    pub fn closes(&self, fed: &Fed) -> bool
        ensures { result ≡ is_closed_by self.now fed.now }
    {
        if self.held.requests().is_empty() {
            return false;
        }
        match fed {
            Fed::Tick => true,
            Fed::Request(request) => self.would_pass_a_limit(request),
        }
    }

    /// Takes what comes next, and gives the held batch where that closes it. A request is then held in the new one.
    /// After an error the request is dropped.
    pub fn turn(&mut self, fed: Fed) -> Result<Option<Batch>, NoMemory>
        ensures given { IfOk result (λ given. given ≡ closed_if (is_closed_by self.old fed) self.old) }
        ensures held { OnOk result (self.new ≡ held_after (is_closed_by self.old fed) self.old fed) }
        ensures err { OnErr result (self.new ≡ self.old) }
        ensures within { Fits fed → IsWithinLimits self.old → IsWithinLimits self.new }
    {
        if !self.closes(&fed) {
            self.hold(fed)?;
            return Ok(None);
        }
        let mut next = Batcher::new(self.alloc);
        next.hold(fed)?;
        Ok(Some(std::mem::replace(self, next).held))
    }

    // Whether the held batch would pass a limit with this request.
    fn would_pass_a_limit(&self, request: &Request) -> bool
        ensures { result ≡ (nat_lt byte_limit (batch_size self.now + request_size request.now) || nat_lt request_limit (suc (length self.now))) }
    {
        self.size.saturating_add(request_size(request)) > BYTE_LIMIT
            || self.held.requests().len() >= REQUEST_LIMIT
    }

    // Holds a request too. A tick changes nothing.
    fn hold(&mut self, fed: Fed) -> Result<(), NoMemory>
        ensures ok { OnOk result (self.new ≡ held_after false self.old fed) }
        ensures err { OnErr result (self.new ≡ self.old) }
    {
        match fed {
            Fed::Request(request) => {
                let size = self.size.saturating_add(request_size(&request));
                self.held.push(request)?;
                self.size = size;
                Ok(())
            }
            Fed::Tick => Ok(()),
        }
    }
}

#[cfg(test)]
mod tests {
    use super::*;
    use jp_types::command::Command;
    use jp_types::octets::Octets;
    use std::test::Fail;

    fn fed(alloc: Global, word: &str, size: usize) -> Result<Fed, NoMemory> {
        let key = Octets::from_slice(alloc, b"k")?;
        let bytes = [0x78u8; 4_096];
        let command = match word {
            "put" => Command::Put {
                key,
                value: Octets::from_slice(alloc, &bytes[..size.min(4_096)])?,
            },
            "get" => Command::Get { key },
            _ => return Ok(Fed::Tick),
        };
        Ok(Fed::Request(Request {
            client: 1,
            number: 1,
            command,
        }))
    }

    // How many requests the batch has that a turn gives.
    fn given(batcher: &mut Batcher, fed: Fed) -> Result<Option<usize>, NoMemory> {
        match batcher.turn(fed)? {
            Some(batch) => Ok(Some(batch.requests().len())),
            None => Ok(None),
        }
    }

    // A Batcher that took one thing so many times, and how often that closed a batch.
    fn filled(
        alloc: Global,
        word: &str,
        size: usize,
        times: u32,
    ) -> Result<(Batcher, u32), NoMemory> {
        let mut batcher = Batcher::new(alloc);
        let mut closed = 0u32;
        for _ in 0..times {
            if given(&mut batcher, fed(alloc, word, size)?)?.is_some() {
                closed = closed.saturating_add(1);
            }
        }
        Ok((batcher, closed))
    }

    #[test]
    fn limits_of_a_batch(rt: HostRuntime) -> Result<(), Fail> {
        let lines = [
            (("put", 4_074, 15), ("put", 4_070), None, Some(16)),
            (("put", 4_074, 15), ("put", 4_071), Some(15), Some(1)),
            (("get", 0, 1_023), ("get", 0), None, Some(1_024)),
            (("get", 0, 1_024), ("get", 0), Some(1_024), Some(1)),
            (("get", 0, 0), ("tick", 0), None, None),
            (("get", 0, 1), ("tick", 0), Some(1), None),
        ];
        for ((word, size, times), (last, last_size), closed, left) in lines {
            let (mut batcher, before) = filled(rt.alloc(), word, size, times)?;
            assert_eq!(rt; before, 0, "{word} {times}");
            let next = fed(rt.alloc(), last, last_size)?;
            assert_eq!(rt;
                batcher.closes(&next),
                closed.is_some(),
                "{last} {last_size}"
            );
            assert_eq!(rt; given(&mut batcher, next)?, closed, "{last} {last_size}");
            assert_eq!(rt; given(&mut batcher, Fed::Tick)?, left, "{last} {last_size}");
        }
        Ok(())
    }
}
