//! Schedules, and the bytes that spell them.

ghost use Rattle.std.specs.Prelude.{◌≡◌, ◌↔◌, ◌≤◌, ◌<◌, ◌+◌, ◌-◌, ◌^◌, ℕ, List, [], length, true, Some, None, Ok, Err, IfOk, IfErr, IfSome, OnOk, ◌≢◌, false};
ghost use Rattle.jp_types.specs.declared.cause.Cause.{Cause};
ghost use Rattle.jp_types.specs.Reading.{Reads};
ghost use Rattle.schedules.specs.declared.line.Line.{Line};
ghost use Rattle.schedules.specs.declared.schedule.ScheduleFault.TheVariants as fault;
ghost use Rattle.text_lines.specs.Lines.{lines_of, as_text, first_raw, behind_first};
ghost use Rattle.schedules.specs.Schedule.{is_end, line_by_words, first_by_words, after_end, rest_of, schedule_of, read_schedule, has_too_many_lines};
ghost use Rattle.schedules.specs.Fitting.{IsFit};
ghost use Rattle.schedules.specs.Reading.{ReadsLines, fault_at, head_at, line_at, with_lines};

use crate::line::{Head, Line};
use crate::read_line::{read_after, read_head};
use jp_types::cause::Cause;
use jp_types::listed::Listed;
use jp_types::memory::NoMemory;
use jp_types::read_command::LineFault;
use std::alloc::Global;
use text_lines::lines::{behind_first, first_len, text_words};

/// A schedule: the constants of its first line, and the lines after it.
#[derive(Debug, Drop)]
pub struct Schedule {
    pub head: Head,
    /// The lines after the first, with `end` last.
    pub lines: Listed<Line>,
}

/// Why a schedule was not read.
#[derive(Clone, Copy, Debug, PartialEq, Eq)]
pub enum ScheduleFault {
    /// The first line that is wrong, counted from 1.
    Bad { line: u64, cause: Cause },
    /// There are more lines than a schedule may have.
    TooLarge,
    NoMemory,
}

impl From<NoMemory> for ScheduleFault {
    ghost from_gives = { λ _ f. f ≡ fault.NoMemory };

    fn from(_error: NoMemory) -> ScheduleFault {
        ScheduleFault::NoMemory
    }
}

/// How many lines a schedule may have.
pub const LINE_LIMIT: usize = 100000;

// What is told of a fault at a line.
fn fault_at(line: u64, fault: LineFault) -> ScheduleFault
    ensures { result ≡ fault_at line fault }
{
    match fault {
        LineFault::Cause(cause) => ScheduleFault::Bad { line, cause },
        LineFault::NoMemory => ScheduleFault::NoMemory,
    }
}

fn is_end(line: &Line) -> bool
    ensures { result ≡ is_end line.now }
{
    match line {
        Line::End => true,
        _ => false,
    }
}

// ---- Lines of an input

// Whether there are too many lines; a last piece without a line feed counts as one.
#[tactic(auto, using(text_lines::proofs::Feeds::lines_more))]
fn has_too_many_lines(input: &[u8]) -> bool
    ensures { result ≡ has_too_many_lines input.now }
{
    let mut rest = input;
    let mut count = 0;
    'lines: while !rest.is_empty() {
        if count == LINE_LIMIT {
            return true;
        }
        count += 1;
        rest = behind_first(rest);
    }
    false
}

// ---- Lines after the first

// The line that stands first in an input that is not empty.
fn first_line(alloc: Global, n: u8, input: &[u8]) -> Result<Line, LineFault>
    ensures { Reads result (as_text (first_raw input.now) (line_by_words n)) }
{
    let front = first_len(input);
    read_after(alloc, n, &input[..front], front < input.len())
}

// The line that stands first in an input, as line `line`.
#[tactic(auto, using(crate::proofs::Lines::fault_told))]
fn line_at(alloc: Global, n: u8, line: u64, input: &[u8]) -> Result<Line, ScheduleFault>
    ensures { ReadsLines result (line_at n line input.now) }
{
    if input.is_empty() {
        return Err(ScheduleFault::Bad {
            line,
            cause: Cause::NoEnd,
        });
    }
    match first_line(alloc, n, input) {
        Ok(read) => Ok(read),
        Err(fault) => Err(fault_at(line, fault)),
    }
}

// What is told of a line behind `end`.
#[tactic(auto, using(text_lines::proofs::Words::from_words))]
fn fault_behind_end(alloc: Global, input: &[u8]) -> LineFault
    ensures { Reads {A = List Line} (Err result) (as_text (first_raw input.now) (λ words. Err Cause.AfterEnd)) }
{
    let front = first_len(input);
    match text_words(alloc, &input[..front], front < input.len()) {
        Ok(_) => LineFault::Cause(Cause::AfterEnd),
        Err(fault) => fault,
    }
}

// Behind `end` no line stands.
#[tactic(auto, using(crate::proofs::Lines::after_told))]
fn after_end(alloc: Global, line: u64, input: &[u8]) -> Result<(), ScheduleFault>
    ensures ok { OnOk result (after_end line (lines_of input.now) ≡ Ok []) }
    ensures err { IfErr result (λ f. ReadsLines (Err f) (after_end line (lines_of input.now))) }
{
    if input.is_empty() {
        return Ok(());
    }
    Err(fault_at(line, fault_behind_end(alloc, input)))
}

// Reads the line that stands first in an input behind those that were read, and answers what stands behind it; `None`
// where it is the last.
#[tactic(auto, using(crate::proofs::Lines::going_on, crate::proofs::Lines::ended, crate::proofs::Lines::unread_told, crate::proofs::Lines::behind_told))]
fn read_one<'a>(
    alloc: Global,
    n: u8,
    line: u64,
    input: &'a [u8],
    lines: &mut Listed<Line>,
) -> Result<Option<&'a [u8]>, ScheduleFault>
    requires { line < 2 ^ 64 - 1 }
    ensures more { IfOk result (λ behind. IfSome behind
        (λ rest. with_lines n (line + 1) lines.new rest.now ≡ with_lines n line lines.old input.now)) }
    ensures shorter { IfOk result (λ behind. IfSome behind (λ rest. length rest.now < length input.now)) }
    ensures last { result ≡ Ok None → with_lines n line lines.old input.now ≡ Ok lines.new }
    ensures err { IfErr result (λ f. ReadsLines (Err f) (with_lines n line lines.old input.now)) }
{
    let read = line_at(alloc, n, line, input)?;
    let rest = behind_first(input);
    let is_last = is_end(&read);
    lines.push(read)?;
    if is_last {
        after_end(alloc, line + 1, rest)?;
        return Ok(None);
    }
    Ok(Some(rest))
}

// The lines after the first.
fn read_rest(alloc: Global, n: u8, input: &[u8]) -> Result<Listed<Line>, ScheduleFault>
    ensures { ReadsLines result (rest_of n 2 (lines_of input.now)) }
{
    let mut lines = Listed::empty(alloc);
    let mut rest = input;
    let mut line = 2;
    'lines: while let Some(behind) = read_one(alloc, n, line, rest, &mut lines)? {
        rest = behind;
        line += 1;
    }
    Ok(lines)
}

// ---- Schedules

// The first line of an input that is not empty.
fn first_head(alloc: Global, input: &[u8]) -> Result<Head, LineFault>
    ensures { Reads result (as_text (first_raw input.now) first_by_words) }
{
    let front = first_len(input);
    read_head(alloc, &input[..front], front < input.len())
}

// The first line of an input.
#[tactic(auto, using(crate::proofs::Lines::fault_told))]
fn head_at(alloc: Global, input: &[u8]) -> Result<Head, ScheduleFault>
    ensures { ReadsLines result (head_at input.now) }
{
    if input.is_empty() {
        return Err(ScheduleFault::Bad {
            line: 1,
            cause: Cause::NoCluster,
        });
    }
    match first_head(alloc, input) {
        Ok(head) => Ok(head),
        Err(fault) => Err(fault_at(1, fault)),
    }
}

#[tactic(auto, using(crate::proofs::Lines::schedule_first, crate::proofs::Lines::head_told, crate::proofs::Lines::rest_told))]
fn schedule_of(alloc: Global, input: &[u8]) -> Result<Schedule, ScheduleFault>
    ensures { ReadsLines result (schedule_of (lines_of input.now)) }
{
    let head = head_at(alloc, input)?;
    let lines = read_rest(alloc, head.n, behind_first(input))?;
    Ok(Schedule { head, lines })
}

/// Reads a schedule. Too many lines are told before any line that is wrong.
#[tactic(auto, unfolding(crate::specs::Schedule::read_schedule), using(crate::proofs::Fitting::read_fits))]
pub fn read_schedule(alloc: Global, input: &[u8]) -> Result<Schedule, ScheduleFault>
    ensures ok { IfOk result (λ s. read_schedule input.now ≡ Ok s) }
    ensures fit { IfOk result IsFit }
    ensures bad { (line : ℕ) (cause : Cause) → result ≡ Err (ScheduleFault.Bad line cause)
        → read_schedule input.now ≡ Err (record { line = line; cause = cause }) }
    ensures large { (result ≡ Err ScheduleFault.TooLarge) ↔ (has_too_many_lines input.now ≡ true) }
    ensures few { result ≢ Err ScheduleFault.TooLarge → has_too_many_lines input.now ≡ false }
{
    if has_too_many_lines(input) {
        return Err(ScheduleFault::TooLarge);
    }
    schedule_of(alloc, input)
}

#[cfg(test)]
mod tests {
    use super::*;
    use jp_types::mode::Mode;
    use std::test::Fail;

    const PLAIN_PATH: &str = "cluster 3 viewss 4\n\
        request 0 7 1 put 61 62\n\
        batch 0\n\
        tick 0\n\
        batch 0\n\
        deliver 1 0\n\
        protocol 1\n\
        deliver 0 2\n\
        protocol 0\n\
        protocol 0\n\
        protocol 0\n\
        deliver 1 5\n\
        protocol 1\n\
        service 1\n\
        deliver 0 7\n\
        protocol 0\n\
        service 0\n\
        deliver 2 6\n\
        protocol 2\n\
        service 2\n\
        end\n";

    #[test]
    fn reads_schedules(rt: HostRuntime) -> Result<(), Fail> {
        for (input, n, mode, window, lines) in [
            (PLAIN_PATH, 3, Mode::ViewSs, 4, 20),
            ("cluster 9 epochss 64\nend\n", 9, Mode::EpochSs, 64, 1),
            (
                "cluster 3 viewss 1\nrequest 2 1023 281474976710656 put 00ff -\nend\n",
                3,
                Mode::ViewSs,
                1,
                2,
            ),
            (
                "cluster 4 epochss 2\nsuspect 3\nretransmit 0\ncrash 1\nstart 1\n\
                request 0 0 1 cas 61 none 62\nrequest 0 0 2 del 61\ndeliver 3 4294967295\nend\n",
                4,
                Mode::EpochSs,
                2,
                8,
            ),
        ] {
            let read = read_schedule(rt.alloc(), input.as_bytes())?;
            assert_eq!(rt; read.head.n, n);
            assert_eq!(rt; read.head.mode, mode);
            assert_eq!(rt; read.head.window, window);
            assert_eq!(rt; read.lines.as_slice().len(), lines);
        }
        Ok(())
    }

    #[test]
    fn tells_bad_first_lines(rt: HostRuntime) {
        for (input, line, cause) in [
            ("", 1, Cause::NoCluster),
            ("\n", 1, Cause::Text),
            (" cluster\n", 1, Cause::Text),
            ("cluster 3 viewss 4", 1, Cause::Text),
            ("end\n", 1, Cause::NoCluster),
            ("cluster 3 viewss\n", 1, Cause::Operands),
            ("cluster 2 viewss 4\n", 1, Cause::Number),
            ("cluster 3 fullss 0\n", 1, Cause::BadMode),
            ("cluster 3 viewss 65\n", 1, Cause::Number),
            ("cluster 10 epochss 4\n", 1, Cause::Number),
            ("cluster 3 viewss 4\n", 2, Cause::NoEnd),
            ("cluster 9 epochss 64\n", 2, Cause::NoEnd),
        ] {
            let fault = read_schedule(rt.alloc(), input.as_bytes()).err();
            assert_eq!(rt; fault, Some(ScheduleFault::Bad { line, cause }), "{input}");
        }
    }

    #[test]
    fn tells_bad_later_lines(rt: HostRuntime) -> Result<(), Fail> {
        for (lines, line, cause) in [
            ("cluster 3 viewss 4\n", 2, Cause::Unknown),
            ("jump 1\n", 2, Cause::Unknown),
            ("end 1\n", 2, Cause::Operands),
            ("request 0 7 1\n", 2, Cause::Operands),
            ("request 0 7 0 get 61\n", 2, Cause::Number),
            ("request 3 7 1 get 61\n", 2, Cause::Number),
            ("request 0 1024 1 jump\n", 2, Cause::Number),
            ("request 0 7 01 get 61\n", 2, Cause::Number),
            (
                "request 0 7 18446744073709551617 get 61\n",
                2,
                Cause::Number,
            ),
            ("request 0 7 1 jump\n", 2, Cause::BadCommand),
            ("request 0 7 1 get\n", 2, Cause::BadCommand),
            ("request 0 7 1 get 6\n", 2, Cause::Bytes),
            ("request 0 7 1 get 6A\n", 2, Cause::Bytes),
            ("request 0 7 1 get -\n", 2, Cause::Bytes),
            ("request 0 7 1 cas 61 62\n", 2, Cause::BadCommand),
            ("request 0 7 1 cas 61 62 6\n", 2, Cause::Bytes),
            ("suspect 1\n", 3, Cause::NoEnd),
            ("suspect 3\n", 2, Cause::Number),
            ("crash 1\nstart\n", 3, Cause::Operands),
            ("retransmit 0 0\n", 2, Cause::Operands),
            ("deliver 0 4294967295\n", 3, Cause::NoEnd),
            ("deliver 0 4294967296\n", 2, Cause::Number),
            ("tick  1\nend\n", 2, Cause::Text),
            ("tick 1\nend", 3, Cause::Text),
            ("end\ntick 1\n", 3, Cause::AfterEnd),
            ("end\n\n", 3, Cause::Text),
        ] {
            let mut input = Vec::from_slice(rt.alloc(), b"cluster 3 viewss 4\n")?;
            input.extend_from_slice(lines.as_bytes())?;
            let fault = read_schedule(rt.alloc(), &input).err();
            assert_eq!(rt; fault, Some(ScheduleFault::Bad { line, cause }), "{lines}");
        }
        Ok(())
    }

    #[test]
    fn tells_too_many_lines(rt: HostRuntime) -> Result<(), Fail> {
        let mut input = vec![in rt.alloc(); b'\n'; LINE_LIMIT]?;
        let bad = read_schedule(rt.alloc(), &input).err();
        assert_eq!(rt;
            bad,
            Some(ScheduleFault::Bad {
                line: 1,
                cause: Cause::Text
            })
        );
        input.push(b' ')?;
        let large = read_schedule(rt.alloc(), &input).err();
        assert_eq!(rt; large, Some(ScheduleFault::TooLarge));
        Ok(())
    }
}
