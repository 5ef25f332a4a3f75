//! The summary of a run: its sizes, how often each answer word came, and what each replica ends with.

ghost use Rattle.std.specs.Prelude.{◌≡◌, ◌-◌, [], ◌∷◌, ◌++◌, length, IfOk, OnOk, option_copied, codes, count_by};
ghost use Rattle.schedules.specs.Text.{show_phase as phase_text};
ghost use Rattle.text_lines.specs.Texts.{numbers, spaced};
ghost use Rattle.schedules.specs.Generator.{
  is_word,
  word_count,
  is_send,
  send_count,
  counts_text,
  last_summary,
  replica_summaries,
  summary as run_summary,
};

use crate::event::{Event, Run};
use crate::line::Word;
use crate::text::show_phase;
use jp_types::memory::NoMemory;
use jp_types::octets::Octets;
use paxos_world::last::Last;
use paxos_world::step::Step;
use std::alloc::Global;
use text_lines::texts::{push_byte, push_named, push_numbers, push_text, push_wide_decimal};

/// The summary of the run of a schedule that a seed drew. The words and messages are those of all its events; the steps
/// are its lines but the first and the last.
#[tactic(auto, unfolding(crate::specs::Generator::summary))]
pub fn summary(alloc: Global, run: &Run, seed: u64) -> Result<Octets, NoMemory>
    ensures { IfOk result (λ text. text ≡ run_summary run.now seed) }
{
    let mut out = Vec::new(alloc);
    push_sizes(run, seed, &mut out)?;
    push_counts(run.events.as_slice(), &mut out)?;
    push_messages(run.events.as_slice(), &mut out)?;
    push_replicas(run.last.as_slice(), &mut out)?;
    Ok(Octets::from_vec(out))
}

// The line of the seed, the count of replicas and the count of lines.
fn push_sizes(run: &Run, seed: u64, out: &mut Vec<u8>) -> Result<(), NoMemory>
    ensures { OnOk result (out.new.items ≡ out.old.items ++ (codes "seed" ++ numbers (seed ∷ []) ++ codes " replicas"
        ++ numbers (length run.now.last ∷ []) ++ codes " steps" ++ numbers ((length run.now.events - 2) ∷ []) ++ 10 ∷ [])) }
{
    let steps = run.events.as_slice().len().saturating_sub(2);
    push_named(b"seed", &[seed], out)?;
    push_named(b" replicas", &[run.last.as_slice().len() as u64], out)?;
    push_named(b" steps", &[steps as u64], out)?;
    push_byte(b'\n', out)
}

// ---- Answer words

fn is_word(word: Word, other: Word) -> bool
    ensures { result ≡ is_word word other }
{
    word == other
}

// How many events have an answer word.
fn word_count(word: Word, events: &[Event]) -> u64
    ensures { result ≡ word_count word events.now }
{
    events
        .iter()
        .filter(|event| is_word(word, event.word))
        .count() as u64
}

// The line of the answer words.
fn push_counts(events: &[Event], out: &mut Vec<u8>) -> Result<(), NoMemory>
    ensures { OnOk result (out.new.items ≡ out.old.items ++ (counts_text events.now ++ 10 ∷ [])) }
{
    push_named(b"done", &[word_count(Word::Done, events)], out)?;
    push_named(b" empty", &[word_count(Word::Empty, events)], out)?;
    push_named(b" full", &[word_count(Word::Full, events)], out)?;
    push_named(b" down", &[word_count(Word::Down, events)], out)?;
    push_named(b" up", &[word_count(Word::Up, events)], out)?;
    push_named(b" unsent", &[word_count(Word::Unsent, events)], out)?;
    push_byte(b'\n', out)
}

// ---- Messages

fn is_send(step: &Step) -> bool
    ensures { result ≡ is_send step.now }
{
    matches!(
        step,
        Step::Send {
            number: _,
            to: _,
            kind: _
        }
    )
}

// How many messages these steps send.
fn sends_in(steps: &[Step]) -> usize
    ensures { result ≡ count_by is_send steps.now }
{
    let mut count = 0usize;
    for step in steps {
        if is_send(step) {
            count += 1;
        }
    }
    count
}

// How many messages these events send. No list has 2^64 items, so the sum has at most 128 bits.
fn send_count(events: &[Event]) -> u128
    ensures { result ≡ send_count events.now }
{
    let mut count = 0u128;
    for event in events {
        count += sends_in(event.steps.as_slice()) as u128;
    }
    count
}

// The line of the messages.
fn push_messages(events: &[Event], out: &mut Vec<u8>) -> Result<(), NoMemory>
    ensures { OnOk result (out.new.items ≡ out.old.items ++ (codes "messages" ++ numbers (send_count events.now ∷ []) ++ 10 ∷ [])) }
{
    push_text(b"messages ", out)?;
    push_wide_decimal(send_count(events), out)?;
    push_byte(b'\n', out)
}

// ---- Replicas

// How a replica that is up ends: its phase, its view, the executed number and the count of its keys.
fn push_up(last: &Last, out: &mut Vec<u8>) -> Result<(), NoMemory>
    ensures { OnOk result (out.new.items ≡ out.old.items ++ last_summary (Some last.now)) }
{
    let keys = last.state.store().pairs().len() as u64;
    out.push(b' ')?;
    show_phase(last.phase, out)?;
    push_numbers(&[last.view, last.state.executed(), keys], out)
}

// How a replica ends.
fn push_last(last: Option<&Last>, out: &mut Vec<u8>) -> Result<(), NoMemory>
    ensures { OnOk result (out.new.items ≡ out.old.items ++ last_summary (option_copied last.entry)) }
{
    match last {
        Some(last) => push_up(last, out),
        None => push_text(b" down", out),
    }
}

// The line of a replica.
fn push_replica(replica: u64, last: Option<&Last>, out: &mut Vec<u8>) -> Result<(), NoMemory>
    ensures { OnOk result (out.new.items ≡ out.old.items ++ replica_summaries replica (option_copied last.entry ∷ [])) }
{
    push_named(b"replica", &[replica], out)?;
    push_last(last, out)?;
    push_byte(b'\n', out)
}

fn push_replicas(all: &[Option<Last>], out: &mut Vec<u8>) -> Result<(), NoMemory>
    ensures { OnOk result (out.new.items ≡ out.old.items ++ replica_summaries 0 all.now) }
{
    for (replica, last) in all.iter().enumerate() {
        push_replica(replica as u64, last.as_ref(), out)?;
    }
    Ok(())
}
