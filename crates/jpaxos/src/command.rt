//! The commands that the words of the command line spell.

ghost use Rattle.std.specs.Prelude.{◌≡◌, ◌≤◌, ◌∷◌, [], map, string_bytes, IfOk, IfSome};
ghost use Rattle.jpaxos.specs.Words.{IsInRange, cluster_of, drawn_by, gen_of, command_of};

use jp_types::cause::Cause;
use jp_types::words::number;

/// The most lines that a schedule drawn by `gen` has between its first and its last.
pub const STEP_LIMIT: u64 = 99_998;

/// A command of the program.
#[derive(Clone, Copy, Debug, PartialEq, Eq)]
pub enum Command {
    Cluster,
    Gen { seed: u64, n: u8, steps: u32 },
}

// The command `cluster` has no operands.
fn cluster_of(operands: &[String]) -> Option<Command>
    ensures value { result ≡ cluster_of (map string_bytes operands.now) }
    ensures range { IfSome result IsInRange }
{
    match operands {
        [] => Some(Command::Cluster),
        _ => None,
    }
}

// The command `gen` by its operands, where each is in its range.
#[tactic(auto, unfolding(crate::specs::Words::drawn_by))]
fn drawn_by(seed: &[u8], n: &[u8], steps: &[u8]) -> Result<Command, Cause>
    ensures value { result ≡ drawn_by seed.now n.now steps.now }
    ensures range { IfOk result IsInRange }
{
    let seed = number(seed, 0, u64::MAX)?;
    let n = number(n, 3, 9)?;
    let steps = number(steps, 0, STEP_LIMIT)?;
    Ok(Command::Gen {
        seed,
        n: n as u8,
        steps: steps as u32,
    })
}

// The operands of `gen`.
fn gen_of(operands: &[String]) -> Option<Command>
    ensures value { result ≡ gen_of (map string_bytes operands.now) }
    ensures range { IfSome result IsInRange }
{
    match operands {
        [seed, n, steps] => drawn_by(seed.as_bytes(), n.as_bytes(), steps.as_bytes()).ok(),
        _ => None,
    }
}

// The command that a word and its operands spell.
fn command_named(word: &[u8], operands: &[String]) -> Option<Command>
    ensures value { result ≡ command_of (word.now ∷ map string_bytes operands.now) }
    ensures range { IfSome result IsInRange }
{
    if word == b"cluster".as_slice() {
        cluster_of(operands)
    } else if word == b"gen".as_slice() {
        gen_of(operands)
    } else {
        None
    }
}

/// The command that the words after the program's name spell.
pub fn command_of(words: &[String]) -> Option<Command>
    ensures value { result ≡ command_of (map string_bytes words.now) }
    ensures range { IfSome result IsInRange }
{
    match words {
        [] => None,
        [word, operands @ ..] => command_named(word.as_bytes(), operands),
    }
}
