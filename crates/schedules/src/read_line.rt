//! Lines of a schedule from the bytes that spell them.

ghost use Rattle.std.specs.Prelude.{◌≡◌, ◌∷◌, ◌&&◌, map, [], Ok, Err, IfOk, IfErr, not, false, bytes_eq, codes};
ghost use Rattle.std.specs.List.{list_all};
ghost use Rattle.std.specs.Int.{is_in_range};
ghost use Rattle.jp_types.specs.Words.{is_empty};
ghost use Rattle.jp_types.specs.Reading.{Reads};
ghost use Rattle.text_lines.specs.Lines.{as_text};
ghost use Rattle.schedules.specs.Schedule.{replica, head_of, request_of, deliver_of, end_of, line_by_words, first_by_words};
ghost use Rattle.schedules.specs.Reading.{lone_replica, line_of_life, line_of_retransmitter, line_of_stage, line_to_lane, line_of_text};

use crate::line::{Head, Line};
use jp_types::cause::Cause;
use jp_types::command::Request;
use jp_types::message::ReplicaId;
use jp_types::read_command::{LineFault, command_named};
use jp_types::words::number;
use std::alloc::Global;
use text_lines::lines::{mode, text_words};

/// A request's number is at most this.
const NUMBER_LIMIT: u64 = 281474976710656;

/// A message's number in a schedule is at most this.
const MESSAGE_LIMIT: u64 = 4294967295;

// ---- Operands

fn replica(n: u8, word: &[u8]) -> Result<ReplicaId, Cause>
    ensures { result ≡ replica n word.now }
{
    Ok(number(word, 0, u64::from(n).saturating_sub(1))? as u8)
}

// The one operand of a line that has a replica alone.
fn lone_replica(n: u8, operands: &[&[u8]]) -> Result<ReplicaId, Cause>
    ensures { result ≡ lone_replica n (map (λ word. word.now) operands.now) }
{
    match operands {
        [r] => replica(n, r),
        _ => Err(Cause::Operands),
    }
}

// ---- Lines by their first word

fn head(n: &[u8], m: &[u8], w: &[u8]) -> Result<Head, Cause>
    ensures { result ≡ head_of (n.now ∷ m.now ∷ w.now ∷ []) }
{
    let n = number(n, 3, 9)?;
    let mode = mode(m)?;
    let window = number(w, 1, 64)?;
    Ok(Head {
        n: n as u8,
        mode,
        window: window as u8,
    })
}

fn head_of(operands: &[&[u8]]) -> Result<Head, Cause>
    ensures { result ≡ head_of (map (λ word. word.now) operands.now) }
{
    match operands {
        [n, m, w] => head(n, m, w),
        _ => Err(Cause::Operands),
    }
}

fn request(
    alloc: Global,
    n: u8,
    r: &[u8],
    c: &[u8],
    s: &[u8],
    word: &[u8],
    rest: &[&[u8]],
) -> Result<Line, LineFault>
    ensures { Reads result (request_of n (r.now ∷ c.now ∷ s.now ∷ word.now ∷ map (λ word. word.now) rest.now)) }
{
    let replica = replica(n, r)?;
    let client = number(c, 0, 1023)?;
    let number = number(s, 1, NUMBER_LIMIT)?;
    let command = command_named(alloc, word, rest)?;
    Ok(Line::Request {
        replica,
        request: Request {
            client,
            number,
            command,
        },
    })
}

fn request_of(alloc: Global, n: u8, operands: &[&[u8]]) -> Result<Line, LineFault>
    ensures { Reads result (request_of n (map (λ word. word.now) operands.now)) }
{
    match operands {
        [r, c, s, word, rest @ ..] => request(alloc, n, r, c, s, word, rest),
        _ => Err(LineFault::Cause(Cause::Operands)),
    }
}

fn deliver(n: u8, r: &[u8], m: &[u8]) -> Result<Line, Cause>
    ensures { result ≡ deliver_of n (r.now ∷ m.now ∷ []) }
{
    let replica = replica(n, r)?;
    let message = number(m, 0, MESSAGE_LIMIT)?;
    Ok(Line::Deliver { replica, message })
}

fn deliver_of(n: u8, operands: &[&[u8]]) -> Result<Line, Cause>
    ensures { result ≡ deliver_of n (map (λ word. word.now) operands.now) }
{
    match operands {
        [r, m] => deliver(n, r, m),
        _ => Err(Cause::Operands),
    }
}

fn end_of(operands: &[&[u8]]) -> Result<Line, Cause>
    ensures { result ≡ end_of (map (λ word. word.now) operands.now) }
{
    match operands {
        [] => Ok(Line::End),
        _ => Err(Cause::Operands),
    }
}

// A line that ends a life, begins one, or ends the schedule.
fn line_of_life(n: u8, word: &[u8], operands: &[&[u8]]) -> Result<Line, Cause>
    ensures { result ≡ line_of_life n word.now (map (λ word. word.now) operands.now) }
{
    if word == b"crash".as_slice() {
        Ok(Line::Crash(lone_replica(n, operands)?))
    } else if word == b"start".as_slice() {
        Ok(Line::Start(lone_replica(n, operands)?))
    } else if word == b"end".as_slice() {
        end_of(operands)
    } else {
        Err(Cause::Unknown)
    }
}

// The line by which a message is repeated, or one of those above.
fn line_of_retransmitter(n: u8, word: &[u8], operands: &[&[u8]]) -> Result<Line, Cause>
    ensures { result ≡ line_of_retransmitter n word.now (map (λ word. word.now) operands.now) }
{
    if word == b"retransmit".as_slice() {
        Ok(Line::Retransmit(lone_replica(n, operands)?))
    } else {
        line_of_life(n, word, operands)
    }
}

// A line by which a stage takes an item, or one of those above.
fn line_of_stage(n: u8, word: &[u8], operands: &[&[u8]]) -> Result<Line, Cause>
    ensures { result ≡ line_of_stage n word.now (map (λ word. word.now) operands.now) }
{
    if word == b"protocol".as_slice() {
        Ok(Line::Protocol(lone_replica(n, operands)?))
    } else if word == b"service".as_slice() {
        Ok(Line::Service(lone_replica(n, operands)?))
    } else {
        line_of_retransmitter(n, word, operands)
    }
}

// Any line but `request`.
fn line_to_lane(n: u8, word: &[u8], operands: &[&[u8]]) -> Result<Line, Cause>
    ensures { result ≡ line_to_lane n word.now (map (λ word. word.now) operands.now) }
{
    if word == b"batch".as_slice() {
        Ok(Line::Batch(lone_replica(n, operands)?))
    } else if word == b"tick".as_slice() {
        Ok(Line::Tick(lone_replica(n, operands)?))
    } else if word == b"suspect".as_slice() {
        Ok(Line::Suspect(lone_replica(n, operands)?))
    } else if word == b"deliver".as_slice() {
        deliver_of(n, operands)
    } else {
        line_of_stage(n, word, operands)
    }
}

fn line_named(alloc: Global, n: u8, word: &[u8], operands: &[&[u8]]) -> Result<Line, LineFault>
    ensures { Reads result (line_by_words n (word.now ∷ map (λ word. word.now) operands.now)) }
{
    if word == b"request".as_slice() {
        return request_of(alloc, n, operands);
    }
    Ok(line_to_lane(n, word, operands)?)
}

// A line after the first, by its words.
fn line_by_words(alloc: Global, n: u8, words: &[&[u8]]) -> Result<Line, LineFault>
    ensures { Reads result (line_by_words n (map (λ word. word.now) words.now)) }
{
    match words {
        [] => Err(LineFault::Cause(Cause::Unknown)),
        [word, operands @ ..] => line_named(alloc, n, word, operands),
    }
}

// The first line, by its words.
fn first_by_words(words: &[&[u8]]) -> Result<Head, Cause>
    ensures { result ≡ first_by_words (map (λ word. word.now) words.now) }
{
    match words {
        [word, operands @ ..] if *word == b"cluster".as_slice() => head_of(operands),
        _ => Err(Cause::NoCluster),
    }
}

/// Reads the first line of a schedule; `ended` tells whether a line feed ends it.
#[tactic(auto, using(text_lines::proofs::Words::from_words))]
pub(crate) fn read_head(alloc: Global, text: &[u8], ended: bool) -> Result<Head, LineFault>
    ensures { Reads result (as_text (record { text = text.now; ended = ended }) first_by_words) }
{
    let words = text_words(alloc, text, ended)?;
    Ok(first_by_words(&words)?)
}

/// Reads a line after the first, among `n` replicas.
#[tactic(auto, using(text_lines::proofs::Words::from_words))]
pub(crate) fn read_after(alloc: Global, n: u8, text: &[u8], ended: bool) -> Result<Line, LineFault>
    ensures { Reads result (as_text (record { text = text.now; ended = ended }) (line_by_words n)) }
{
    let words = text_words(alloc, text, ended)?;
    line_by_words(alloc, n, &words)
}

/// Reads one line without its line feed: the first where there is no head yet, and else one that stands after it.
pub fn read_line(alloc: Global, text: &[u8], head: Option<Head>) -> Result<Line, LineFault>
    ensures { Reads result (line_of_text head text.now) }
{
    match head {
        None => Ok(Line::Cluster(read_head(alloc, text, true)?)),
        Some(head) => read_after(alloc, head.n, text, true),
    }
}

#[cfg(test)]
mod tests {
    use super::*;
    use std::test::Fail;

    #[test]
    fn reads_lines(rt: HostRuntime) -> Result<(), Fail> {
        let first = read_line(rt.alloc(), b"cluster 3 viewss 4", None)?;
        let Line::Cluster(head) = first else {
            return Err("no first line")?;
        };
        assert_eq!(rt; head.window, 4);
        let tick = read_line(rt.alloc(), b"tick 2", Some(head))?;
        assert!(rt; matches!(tick, Line::Tick(2)));
        let crash = read_line(rt.alloc(), b"crash 2", Some(head))?;
        assert!(rt; matches!(crash, Line::Crash(2)));
        let other = read_line(rt.alloc(), b"crash 3", Some(head)).err();
        assert_eq!(rt; other, Some(LineFault::Cause(Cause::Number)));
        Ok(())
    }
}
