//! The program `jpaxos`: runs a cluster by the schedule on standard input, or by one that is drawn, and writes the text or
//! the summary of the run to standard output.
#![tactic(auto)]

mod answer;
mod command;
mod input;
mod top;
mod watching;

use jp_types::cause::Cause;
use jp_types::sink::Writing;
use jp_types::source::Reading;
use jp_types::status::Status;
use std::env;
use std::io::ErrorKind;
use std::process::ExitCode;
use top::jpaxos_top;
use watching::{Watch, Watched};

/// The words after the program's name, `None` for want of memory. Where a word is no text they are told as none, so
/// that they are no command.
fn words(rt: &HostRuntime) -> Option<Vec<String>> {
    let mut words = Vec::new(rt.alloc());
    match env::args(rt) {
        Ok(given) => {
            for word in given.skip(1) {
                words.push(word).ok()?;
            }
            Some(words)
        }
        Err(error) if error.kind() == ErrorKind::InvalidData => Some(words),
        Err(_) => None,
    }
}

/// What a person is told of a status without a line of the input.
fn complaint(status: Status) -> Option<&'static str> {
    match status {
        Status::Usage => Some(
            "jpaxos: expected `cluster` alone, or `gen SEED N STEPS` with a SEED of at most 18446744073709551615, an N from 3 to 9 and STEPS of at most 99998",
        ),
        Status::TooLarge(1) => Some("jpaxos: the schedule has more than 67108864 bytes"),
        Status::TooLarge(2) => Some("jpaxos: the schedule has more than 100000 lines"),
        Status::TooLarge(_) => Some(
            "jpaxos: the messages that the run of the schedule sends have more than 268435456 bytes",
        ),
        Status::ReadFault => Some("jpaxos: standard input could not be read"),
        Status::WriteFault => Some("jpaxos: standard output could not be written"),
        Status::NoMemory => Some("jpaxos: out of memory"),
        _ => None,
    }
}

/// What was expected of a line that has this cause, where the characters of the input were watched.
fn expected(cause: Cause, watch: Watch) -> &'static str {
    match cause {
        Cause::NoCluster => "the first line is to be `cluster N MODE WINDOW`",
        Cause::Unknown => {
            "expected one of request, batch, tick, suspect, deliver, protocol, service, retransmit, crash, start, end"
        }
        Cause::Operands => {
            "too few or too many words: expected `cluster N MODE WINDOW`, `request R C S COMMAND`, `deliver R M`, `end`, or another word with R alone"
        }
        Cause::Number => {
            "a number is not decimal without leading zeros, or is out of its range: N is 3 to 9, WINDOW 1 to 64, R below N, C at most 1023, S 1 to 281474976710656, M at most 4294967295"
        }
        Cause::BadMode => "the mode is to be `viewss` or `epochss`",
        Cause::Bytes => {
            "a key or a value is to be lower-case hexadecimal digits in pairs, or `-` for no bytes: a key has 1 to 256 bytes, a value at most 4096"
        }
        Cause::BadCommand => {
            "expected one of the commands `put K V`, `get K`, `del K`, `cas K OLD V`"
        }
        Cause::NoEnd => "the schedule is to end with the line `end`",
        Cause::AfterEnd => "nothing is to stand behind the line `end`",
        Cause::Text => watch.told(),
    }
}

/// Tells a person, on standard error, why there is no text of a run.
fn complain(rt: &HostRuntime, status: Status, watch: Watch) {
    if let Status::BadSchedule { line, cause } = status {
        let text = expected(cause, watch);
        let _ = eprintln!(rt; "jpaxos: line {line}: {text}");
    } else if let Some(text) = complaint(status) {
        let _ = eprintln!(rt; "{text}");
    }
}

/// The exit status, with the complaint on standard error where there is one.
fn ended(rt: &HostRuntime, status: Status, watch: Watch) -> ExitCode {
    complain(rt, status, watch);
    ExitCode::from(status.number())
}

fn main(rt: HostRuntime) -> ExitCode {
    let Some(words) = words(&rt) else {
        return ended(&rt, Status::NoMemory, Watch::new());
    };
    let mut source = Watched::new(Reading::new(rt.stdin()));
    let mut sink = Writing::new(rt.stdout());
    let status = jpaxos_top(rt.alloc(), &words, &mut source, &mut sink);
    ended(&rt, status, source.watch())
}
