//! What an input is answered.

ghost use Rattle.std.specs.Prelude.{◌≡◌, ◌≤◌, ℕ, List, true, false, IfOk};
ghost use Rattle.jp_types.specs.declared.status.Status.TheVariants.{Done, BadSchedule, TooLarge};
ghost use Rattle.schedules.specs.Fitting.{IsFit};
ghost use Rattle.schedules.specs.Schedule.{is_too_long};
ghost use Rattle.jpaxos.specs.Answers.{IsAnswer, IsDrawnAnswer, IsRunAnswer};
ghost use Rattle.jpaxos.specs.Words as words;

use cluster::generator::generate_run;
use cluster::stepper::{RunFault, run_schedule};
use jp_types::cause::Cause;
use jp_types::memory::NoMemory;
use jp_types::octets::Octets;
use jp_types::status::Status;
use schedules::schedule::{Schedule, ScheduleFault, read_schedule};
use schedules::summary::summary;
use schedules::text::show;
use std::alloc::Global;
use text_lines::texts::{push_byte, push_named, push_text};

/// A status, and the text that is written with it.
#[derive(Debug, Drop)]
pub struct Answer {
    pub status: Status,
    pub text: Octets,
}

/// The usage line, which is written where the words are no command.
pub fn usage(alloc: Global) -> Result<Octets, NoMemory>
    ensures { IfOk result (λ text. text ≡ words.usage_line) }
{
    let mut text = Vec::new(alloc);
    push_text(
        b"usage: jpaxos cluster | gen SEED N STEPS | serve FILE | client FILE",
        &mut text,
    )?;
    push_byte(b'\n', &mut text)?;
    Ok(Octets::from_vec(text))
}

/// The line that tells which limit is passed: 1 for bytes, 2 for lines, 3 for sent bytes.
fn too_large(alloc: Global, kind: u8) -> Result<Answer, NoMemory>
    ensures status { IfOk result (λ answer. answer.status ≡ TooLarge kind) }
    ensures text { IfOk result (λ answer. answer.text ≡ words.refusal (TooLarge kind)) }
{
    let mut text = Vec::new(alloc);
    push_named(b"jpaxos: too large", &[kind as u64], &mut text)?;
    push_byte(b'\n', &mut text)?;
    Ok(Answer {
        status: Status::TooLarge(kind),
        text: Octets::from_vec(text),
    })
}

/// The answer to an input with too many bytes.
pub fn too_many_bytes(alloc: Global) -> Result<Answer, NoMemory>
    ensures status { IfOk result (λ answer. answer.status ≡ TooLarge 1) }
    ensures answer { IfOk result (λ answer. (input : List ℕ) → is_too_long input ≡ true → IsAnswer input answer.text answer.status) }
{
    too_large(alloc, 1)
}

/// The answer to an input whose first bad line is this one.
fn bad_schedule(alloc: Global, line: u64, cause: Cause) -> Result<Answer, NoMemory>
    ensures status { IfOk result (λ answer. answer.status ≡ BadSchedule line cause) }
    ensures text { IfOk result (λ answer. answer.text ≡ words.refusal (BadSchedule line cause)) }
{
    let mut text = Vec::new(alloc);
    push_named(b"jpaxos: schedule line", &[line], &mut text)?;
    push_named(b" cause", &[cause.number() as u64], &mut text)?;
    push_byte(b'\n', &mut text)?;
    Ok(Answer {
        status: Status::BadSchedule { line, cause },
        text: Octets::from_vec(text),
    })
}

/// The answer to a schedule: the text of its run.
#[tactic(auto, using(crate::proofs::Answering::sends_past))]
fn run_text(alloc: Global, schedule: &Schedule) -> Result<Answer, NoMemory>
    requires { IsFit schedule.now }
    ensures { IfOk result (λ answer. IsRunAnswer schedule.now answer.text answer.status) }
{
    match run_schedule(alloc, schedule) {
        Ok(run) => Ok(Answer {
            status: Status::Done,
            text: show(alloc, &run)?,
        }),
        Err(RunFault::TooLarge) => too_large(alloc, 3),
        Err(RunFault::NoMemory) => Err(NoMemory),
    }
}

/// The answer to an input within the limit of bytes.
#[tactic(auto, using(crate::proofs::Answering::run_answers))]
pub fn answer_to(alloc: Global, input: &[u8]) -> Result<Answer, NoMemory>
    requires { is_too_long input.now ≡ false }
    ensures { IfOk result (λ answer. IsAnswer input.now answer.text answer.status) }
{
    match read_schedule(alloc, input) {
        Ok(schedule) => run_text(alloc, &schedule),
        Err(ScheduleFault::Bad { line, cause }) => bad_schedule(alloc, line, cause),
        Err(ScheduleFault::TooLarge) => too_large(alloc, 2),
        Err(ScheduleFault::NoMemory) => Err(NoMemory),
    }
}

/// The answer to a seed, a count of replicas and a count of lines: the summary of the run of the schedule that they draw.
pub fn answer_drawn(alloc: Global, seed: u64, n: u8, steps: u32) -> Result<Answer, NoMemory>
    requires some { 3 ≤ n }
    requires few { n ≤ 9 }
    requires steps { steps ≤ 99998 }
    ensures { IfOk result (λ answer. IsDrawnAnswer seed n steps answer.text answer.status) }
{
    match generate_run(alloc, seed, n, steps) {
        Ok((_, run)) => Ok(Answer {
            status: Status::Done,
            text: summary(alloc, &run, seed)?,
        }),
        Err(RunFault::TooLarge) => too_large(alloc, 3),
        Err(RunFault::NoMemory) => Err(NoMemory),
    }
}
