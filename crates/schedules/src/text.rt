//! The text of a run.

ghost use Rattle.std.specs.Prelude.{◌≡◌, [], ◌∷◌, ◌++◌, flat_map, OnOk, IfOk, option_copied, codes};
ghost use Rattle.schedules.specs.Text.{
  show as run_text,
  show_event as event_text,
  show_step as step_text,
  show_last as last_text,
  show_replicas,
  show_phase as phase_text,
};
ghost use Rattle.text_lines.specs.Texts.{show_bytes as bytes_text, hex};

use crate::event::{Event, Run};
use crate::show_line::{show_line, show_word};
use crate::show_step::show_step;
use jp_types::memory::NoMemory;
use jp_types::message::ReplicaId;
use jp_types::mode::Phase;
use jp_types::octets::Octets;
use paxos_world::last::Last;
use paxos_world::step::Step;
use std::alloc::Global;
use text_lines::texts::{push_hex, push_named, push_numbers, push_text, show_bytes};

/// The text of a run: its events, and then each replica.
#[tactic(auto, unfolding(crate::specs::Text::show))]
pub fn show(alloc: Global, run: &Run) -> Result<Octets, NoMemory>
    ensures { IfOk result (λ text. text ≡ run_text run.now) }
{
    let mut out = Vec::new(alloc);
    push_events(run.events.as_slice(), &mut out)?;
    push_replicas(run.last.as_slice(), &mut out)?;
    Ok(Octets::from_vec(out))
}

fn push_events(events: &[Event], out: &mut Vec<u8>) -> Result<(), NoMemory>
    ensures { OnOk result (out.new.items ≡ out.old.items ++ flat_map event_text events.now) }
{
    for event in events {
        show_event(event, out)?;
    }
    Ok(())
}

fn push_replicas(all: &[Option<Last>], out: &mut Vec<u8>) -> Result<(), NoMemory>
    ensures { OnOk result (out.new.items ≡ out.old.items ++ show_replicas 0 all.now) }
{
    for (replica, last) in all.iter().enumerate() {
        push_replica(replica as u64, last.as_ref(), out)?;
    }
    Ok(())
}

/// Appends an event: its line, its answer word, its steps, and a line feed. After an `Err`, `out` may end in a part of it.
pub fn show_event(event: &Event, out: &mut Vec<u8>) -> Result<(), NoMemory>
    ensures { OnOk result (out.new.items ≡ out.old.items ++ event_text event.now) }
{
    show_line(&event.line, out)?;
    push_text(b" = ", out)?;
    show_word(event.word, out)?;
    push_steps(event.steps.as_slice(), out)?;
    push_text(b"\n", out)
}

fn push_steps(steps: &[Step], out: &mut Vec<u8>) -> Result<(), NoMemory>
    ensures { OnOk result (out.new.items ≡ out.old.items ++ flat_map (λ step. codes "; " ++ step_text step) steps.now) }
{
    for step in steps {
        push_text(b"; ", out)?;
        show_step(step, out)?;
    }
    Ok(())
}

/// Appends the line of what a replica ends with, `None` where it is down. After an `Err`, `out` may end in a part of it.
pub fn show_last(replica: ReplicaId, last: Option<&Last>, out: &mut Vec<u8>) -> Result<(), NoMemory>
    ensures { OnOk result (out.new.items ≡ out.old.items ++ show_replicas replica (option_copied last.entry ∷ [])) }
{
    push_replica(u64::from(replica), last, out)
}

fn push_replica(replica: u64, last: Option<&Last>, out: &mut Vec<u8>) -> Result<(), NoMemory>
    ensures { OnOk result (out.new.items ≡ out.old.items ++ show_replicas replica (option_copied last.entry ∷ [])) }
{
    push_named(b"replica", &[replica], out)?;
    push_last(last, out)?;
    push_text(b"\n", out)
}

fn push_last(last: Option<&Last>, out: &mut Vec<u8>) -> Result<(), NoMemory>
    ensures { OnOk result (out.new.items ≡ out.old.items ++ last_text (option_copied last.entry)) }
{
    match last {
        Some(last) => push_up(last, out),
        None => push_text(b" down", out),
    }
}

/// Appends what a replica that is up ends with.
fn push_up(last: &Last, out: &mut Vec<u8>) -> Result<(), NoMemory>
    ensures { OnOk result (out.new.items ≡ out.old.items ++ last_text (Some last.now)) }
{
    out.push(b' ')?;
    show_phase(last.phase, out)?;
    push_numbers(&[last.view, last.state.executed()], out)?;
    push_pairs(last.state.store().pairs(), out)
}

/// Appends the word of a phase.
pub(crate) fn show_phase(phase: Phase, out: &mut Vec<u8>) -> Result<(), NoMemory>
    ensures { OnOk result (out.new.items ≡ out.old.items ++ phase_text phase) }
{
    match phase {
        Phase::Working => push_text(b"working", out),
        Phase::Recovering => push_text(b"recovering", out),
    }
}

fn push_pairs(pairs: &[(Octets, Octets)], out: &mut Vec<u8>) -> Result<(), NoMemory>
    ensures { OnOk result (out.new.items
        ≡ out.old.items ++ flat_map (λ pair. 32 ∷ hex pair.0 ++ codes "=" ++ bytes_text pair.1) pairs.now) }
{
    for pair in pairs {
        out.push(b' ')?;
        push_hex(pair.0.bytes(), out)?;
        out.push(b'=')?;
        show_bytes(pair.1.bytes(), out)?;
    }
    Ok(())
}

#[cfg(test)]
mod tests;
