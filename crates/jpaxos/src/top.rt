//! The calls that the program makes.

ghost use Rattle.std.specs.Prelude.{◌≡◌, ◌≢◌, ◌≤◌, ◌+◌, ◌⊎◌, ℕ, List, Some, map, take, string_bytes};
ghost use Rattle.std.specs.Io.KnownBytes.{Appends, IsAtEnd};
ghost use Rattle.jp_types.specs.Faults.{Rose};
ghost use Rattle.jpaxos.specs.Answers.{Answers, AnswersDrawn, AnswersObserved, BeginsAnswer, BeginsDrawn, IsClusterStatus, IsDrawnStatus, IsRunnable, IsTold, IsUsageStatus};
ghost use Rattle.jpaxos.specs.Taking.{TakesAtMost};
ghost use Rattle.jpaxos.specs.Words.{IsCluster, IsGen, IsNoCommand, usage_line};

use crate::answer::{Answer, answer_drawn, answer_to, too_many_bytes, usage};
use crate::command::{Command, command_of};
use crate::input::{INPUT_LIMIT, Unread, read_all};
use jp_types::sink::{Sink, write_all};
use jp_types::source::Source;
use jp_types::status::Status;
use std::alloc::Global;

/// Writes an answer, and gives its status where it was written whole.
fn tell<K: Sink>(sink: &mut K, answer: &Answer) -> Status
    ensures told { result ≢ Status.WriteFault → (result ≡ answer.now.status) × Appends (K.held sink.old) (K.held sink.new) answer.now.text }
    ensures write { result ≡ Status.WriteFault → answer.now.status ≢ Status.WriteFault → Rose (K.faults sink.old) (K.faults sink.new) }
    ensures begun { result ≡ Status.WriteFault → answer.now.status ≢ Status.WriteFault → (count : ℕ) × Appends (K.held sink.old) (K.held sink.new) (take count answer.now.text) }
{
    match write_all(sink, answer.text.bytes()) {
        Ok(()) => answer.status,
        Err(_) => Status::WriteFault,
    }
}

/// The same as `run_cluster`, whose last clause follows from these.
fn answer_cluster<S: Source, K: Sink>(alloc: Global, source: &mut S, sink: &mut K) -> Status
    ensures status { IsClusterStatus result }
    ensures told { IsTold result → Answers (S.left source.old) (K.held sink.old) (K.held sink.new) result }
    ensures end { IsTold result → result ≢ Status.TooLarge 1 → IsAtEnd (S.left source.new) }
    ensures taken { TakesAtMost (INPUT_LIMIT + 1) (S.left source.old) (S.left source.new) }
    ensures read { result ≡ Status.ReadFault → Rose (S.faults source.old) (S.faults source.new) }
    ensures unread { result ≡ Status.ReadFault → K.held sink.new ≡ K.held sink.old }
    ensures write { result ≡ Status.WriteFault → Rose (K.faults sink.old) (K.faults sink.new) }
    ensures begun { result ≡ Status.WriteFault → BeginsAnswer (S.left source.old) (K.held sink.old) (K.held sink.new) }
    ensures memory { result ≡ Status.NoMemory → K.held sink.new ≡ K.held sink.old }
{
    let input = match read_all(alloc, source) {
        Ok(input) => input,
        Err(Unread::TooLarge) => {
            return match too_many_bytes(alloc) {
                Ok(answer) => tell(sink, &answer),
                Err(_) => Status::NoMemory,
            };
        }
        Err(Unread::Fault) => return Status::ReadFault,
        Err(Unread::NoMemory) => return Status::NoMemory,
    };
    match answer_to(alloc, &input) {
        Ok(answer) => tell(sink, &answer),
        Err(_) => Status::NoMemory,
    }
}

/// Reads a schedule from the source, runs it, and writes the text of its run. What is told at Done is the text of the run of
/// exactly the schedule that was read, of which the laws of `Headline` hold.
#[tactic(auto, using(crate::proofs::Answering::is_complete, crate::proofs::Answering::is_observed))]
pub fn run_cluster<S: Source, K: Sink>(alloc: Global, source: &mut S, sink: &mut K) -> Status
    ensures status { IsClusterStatus result }

    // A run, or a refusal of the input, is told whole, and nothing else is written.
    ensures told { IsTold result → Answers (S.left source.old) (K.held sink.old) (K.held sink.new) result }

    // At Done the text is that of a run that has `Observed`, which speaks of no more than what the text shows.
    ensures observed { result ≡ Status.Done → AnswersObserved (S.left source.old) (K.held sink.old) (K.held sink.new) }

    // The input was read to its end, but where it has too many bytes, and then to one past the limit.
    ensures end { IsTold result → result ≢ Status.TooLarge 1 → IsAtEnd (S.left source.new) }
    ensures taken { TakesAtMost (INPUT_LIMIT + 1) (S.left source.old) (S.left source.new) }

    ensures read { result ≡ Status.ReadFault → Rose (S.faults source.old) (S.faults source.new) }
    ensures unread { result ≡ Status.ReadFault → K.held sink.new ≡ K.held sink.old }
    ensures write { result ≡ Status.WriteFault → Rose (K.faults sink.old) (K.faults sink.new) }
    ensures begun { result ≡ Status.WriteFault → BeginsAnswer (S.left source.old) (K.held sink.old) (K.held sink.new) }
    ensures memory { result ≡ Status.NoMemory → K.held sink.new ≡ K.held sink.old }

    // An input within the sizes that spells a schedule is run where nothing fails, but that memory may be wanted.
    ensures complete { (input : List ℕ) → S.left source.old ≡ Some input → IsRunnable input
        → ¬ Rose (S.faults source.old) (S.faults source.new) → ¬ Rose (K.faults sink.old) (K.faults sink.new)
        → (result ≡ Status.Done) ⊎ (result ≡ Status.NoMemory) }
{
    answer_cluster(alloc, source, sink)
}

/// Draws a schedule of `n` replicas by the seed, with so many lines between the first and the last, runs it, and writes
/// the summary of its run.
pub fn run_gen<K: Sink>(alloc: Global, seed: u64, n: u8, steps: u32, sink: &mut K) -> Status
    requires some { 3 ≤ n }
    requires few { n ≤ 9 }
    requires steps { steps ≤ 99998 }
    ensures status { IsDrawnStatus result }
    ensures told { IsTold result → AnswersDrawn seed n steps (K.held sink.old) (K.held sink.new) result }
    ensures write { result ≡ Status.WriteFault → Rose (K.faults sink.old) (K.faults sink.new) }
    ensures begun { result ≡ Status.WriteFault → BeginsDrawn seed n steps (K.held sink.old) (K.held sink.new) }
    ensures memory { result ≡ Status.NoMemory → K.held sink.new ≡ K.held sink.old }
{
    match answer_drawn(alloc, seed, n, steps) {
        Ok(answer) => tell(sink, &answer),
        Err(_) => Status::NoMemory,
    }
}

/// Writes the usage line.
fn tell_usage<K: Sink>(alloc: Global, sink: &mut K) -> Status
    ensures status { IsUsageStatus result }
    ensures told { result ≡ Status.Usage → Appends (K.held sink.old) (K.held sink.new) usage_line }
    ensures write { result ≡ Status.WriteFault → Rose (K.faults sink.old) (K.faults sink.new) }
    ensures begun { result ≡ Status.WriteFault → (count : ℕ) × Appends (K.held sink.old) (K.held sink.new) (take count usage_line) }
    ensures memory { result ≡ Status.NoMemory → K.held sink.new ≡ K.held sink.old }
{
    match usage(alloc) {
        Ok(text) => match write_all(sink, text.bytes()) {
            Ok(()) => Status::Usage,
            Err(_) => Status::WriteFault,
        },
        Err(_) => Status::NoMemory,
    }
}

/// Runs the command that the words after the program's name spell.
pub fn jpaxos_top<S: Source, K: Sink>(
    alloc: Global,
    words: &[String],
    source: &mut S,
    sink: &mut K,
) -> Status
    // Words that are no command are answered Usage, with the usage line.
    ensures usage { result ≡ Status.Usage → IsNoCommand (map string_bytes words.now) }
    ensures usage_status { IsNoCommand (map string_bytes words.now) → IsUsageStatus result }
    ensures usage_told { result ≡ Status.Usage → Appends (K.held sink.old) (K.held sink.new) usage_line }
    ensures usage_reads { IsNoCommand (map string_bytes words.now) → S.left source.new ≡ S.left source.old }
    ensures usage_begun { result ≡ Status.WriteFault → IsNoCommand (map string_bytes words.now) → (count : ℕ) × Appends (K.held sink.old) (K.held sink.new) (take count usage_line) }

    // The word `cluster` is answered as `run_cluster` answers.
    ensures cluster_status { IsCluster (map string_bytes words.now) → IsClusterStatus result }
    ensures cluster_told { IsTold result → IsCluster (map string_bytes words.now) → Answers (S.left source.old) (K.held sink.old) (K.held sink.new) result }
    ensures cluster_observed { result ≡ Status.Done → IsCluster (map string_bytes words.now) → AnswersObserved (S.left source.old) (K.held sink.old) (K.held sink.new) }
    ensures cluster_end { IsTold result → result ≢ Status.TooLarge 1 → IsCluster (map string_bytes words.now) → IsAtEnd (S.left source.new) }
    ensures cluster_taken { IsCluster (map string_bytes words.now) → TakesAtMost (INPUT_LIMIT + 1) (S.left source.old) (S.left source.new) }
    ensures cluster_begun { result ≡ Status.WriteFault → IsCluster (map string_bytes words.now) → BeginsAnswer (S.left source.old) (K.held sink.old) (K.held sink.new) }

    ensures cluster_complete { (input : List ℕ) → IsCluster (map string_bytes words.now) → S.left source.old ≡ Some input → IsRunnable input
        → ¬ Rose (S.faults source.old) (S.faults source.new) → ¬ Rose (K.faults sink.old) (K.faults sink.new)
        → (result ≡ Status.Done) ⊎ (result ≡ Status.NoMemory) }

    // The word `gen` with its operands is answered as `run_gen` answers, and nothing is read.
    ensures gen_status { (seed n steps : ℕ) → IsGen (map string_bytes words.now) seed n steps → IsDrawnStatus result }
    ensures gen_told { (seed n steps : ℕ) → IsTold result → IsGen (map string_bytes words.now) seed n steps → AnswersDrawn seed n steps (K.held sink.old) (K.held sink.new) result }
    ensures gen_reads { (seed n steps : ℕ) → IsGen (map string_bytes words.now) seed n steps → S.left source.new ≡ S.left source.old }
    ensures gen_begun { (seed n steps : ℕ) → result ≡ Status.WriteFault → IsGen (map string_bytes words.now) seed n steps → BeginsDrawn seed n steps (K.held sink.old) (K.held sink.new) }

    ensures read { result ≡ Status.ReadFault → Rose (S.faults source.old) (S.faults source.new) }
    ensures unread { result ≡ Status.ReadFault → K.held sink.new ≡ K.held sink.old }
    ensures write { result ≡ Status.WriteFault → Rose (K.faults sink.old) (K.faults sink.new) }
    ensures memory { result ≡ Status.NoMemory → K.held sink.new ≡ K.held sink.old }
{
    match command_of(words) {
        Some(Command::Cluster) => run_cluster(alloc, source, sink),
        Some(Command::Gen { seed, n, steps }) => run_gen(alloc, seed, n, steps, sink),
        None => tell_usage(alloc, sink),
    }
}

#[cfg(test)]
mod sent_bytes;
#[cfg(test)]
mod snapshot_run;
#[cfg(test)]
mod tests;
#[cfg(test)]
mod texts;
