//! Reading the whole input.

ghost use Rattle.std.specs.Prelude.{◌≡◌, ◌<◌, ◌≤◌, ◌+◌, List, ℕ, Option, length, vec_len, true, false, Err, IfOk, IfSome};
ghost use Rattle.std.specs.Io.KnownBytes.{Consumes, IsAtEnd};
ghost use Rattle.jp_types.specs.Faults.{Rose};
ghost use Rattle.schedules.specs.Schedule.{is_too_long};
ghost use Rattle.jpaxos.specs.Taking.{TakesAtMost};

use jp_types::source::Source;
use std::alloc::Global;

/// The most bytes that an input may have.
pub const INPUT_LIMIT: usize = 67_108_864;

/// How many bytes are asked for at once.
const ROOM: usize = 8192;

/// Why an input was not read.
#[derive(Clone, Copy, Debug, PartialEq, Eq)]
pub enum Unread {
    /// It has more than `INPUT_LIMIT` bytes.
    TooLarge,
    Fault,
    NoMemory,
}

/// Reads once, and puts what came behind the bytes.
#[tactic(auto, using(crate::proofs::Takings::takes_read))]
fn read_more<S: Source>(
    source: &mut S,
    room: &mut [u8],
    bytes: &mut Vec<u8>,
) -> Result<usize, Unread>
    requires some { 0 < length room.old }
    requires room { vec_len bytes.old + length room.old ≤ INPUT_LIMIT + 1 }
    ensures count { IfOk result (λ count. vec_len bytes.new ≡ vec_len bytes.old + count) }
    ensures most { IfOk result (λ count. count ≤ length room.old) }
    ensures bytes { IfOk result (λ count. (start : Option (List ℕ)) → Consumes start (S.left source.old) bytes.old.items → Consumes start (S.left source.new) bytes.new.items) }
    ensures end { IfOk result (λ count. count ≡ 0 → IsAtEnd (S.left source.new)) }
    ensures taken { (start : Option (List ℕ)) → Consumes start (S.left source.old) bytes.old.items → TakesAtMost (INPUT_LIMIT + 1) start (S.left source.new) }
    ensures later { S.faults source.old ≤ S.faults source.new }
    ensures fault { result ≡ Err Unread.Fault → Rose (S.faults source.old) (S.faults source.new) }
    ensures large { result ≡ Err Unread.TooLarge → ⊥ }
{
    match source.read(room) {
        Ok(count) => match bytes.extend_from_slice(&room[..count]) {
            Ok(()) => Ok(count),
            Err(_) => Err(Unread::NoMemory),
        },
        Err(_) => Err(Unread::Fault),
    }
}

/// Reads all there is, at least one byte a turn, and at most one byte past the limit.
#[tactic(auto, using(crate::proofs::Takings::takes_so))]
pub fn read_all<S: Source>(alloc: Global, source: &mut S) -> Result<Vec<u8>, Unread>
    ensures all { IfOk result (λ bytes. IfSome (S.left source.old) (λ input. bytes.items ≡ input)) }
    ensures fits { IfOk result (λ bytes. is_too_long bytes.items ≡ false) }
    ensures end { IfOk result (λ bytes. IsAtEnd (S.left source.new)) }
    ensures taken { TakesAtMost (INPUT_LIMIT + 1) (S.left source.old) (S.left source.new) }
    ensures large { result ≡ Err Unread.TooLarge → IfSome (S.left source.old) (λ input. is_too_long input ≡ true) }
    ensures later { S.faults source.old ≤ S.faults source.new }
    ensures fault { result ≡ Err Unread.Fault → Rose (S.faults source.old) (S.faults source.new) }
{
    let mut bytes = Vec::new(alloc);
    let mut room = [0u8; ROOM];
    'turns: while bytes.len() <= INPUT_LIMIT {
        let most = (INPUT_LIMIT + 1 - bytes.len()).min(ROOM);
        if read_more(source, &mut room[..most], &mut bytes)? == 0 {
            return Ok(bytes);
        }
    }
    Err(Unread::TooLarge)
}
