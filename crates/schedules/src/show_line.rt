//! Lines of a schedule and their answer words as text.

ghost use Rattle.std.specs.Prelude.{◌≡◌, [], ◌∷◌, ◌++◌, OnOk, option_copied};
ghost use Rattle.schedules.specs.Text.{
  show_line as line_text,
  show_command as command_text,
  show_old as old_text,
  show_mode as mode_text,
  show_word as word_text,
};
ghost use Rattle.text_lines.specs.Texts.{show_bytes as bytes_text, spaced};

use crate::line::{Head, Line, Word};
use jp_types::command::{Command, Request};
use jp_types::memory::NoMemory;
use jp_types::message::ReplicaId;
use jp_types::mode::Mode;
use jp_types::octets::Octets;
use text_lines::texts::{push_named, push_number_at, push_numbers, push_text, show_bytes};

/// Appends a line as it stands in the schedule, without its line feed. After an `Err`, `out` may end in a part of it.
pub fn show_line(line: &Line, out: &mut Vec<u8>) -> Result<(), NoMemory>
    ensures { OnOk result (out.new.items ≡ out.old.items ++ line_text line.now) }
{
    match line {
        Line::Cluster(head) => show_cluster(head, out),
        Line::Request { replica, request } => show_request(*replica, request, out),
        Line::Batch(replica) => push_named(b"batch", &[u64::from(*replica)], out),
        Line::Tick(replica) => push_named(b"tick", &[u64::from(*replica)], out),
        Line::Suspect(replica) => push_named(b"suspect", &[u64::from(*replica)], out),
        Line::Deliver { replica, message } => push_number_at(b"deliver", *replica, *message, out),
        Line::Protocol(replica) => push_named(b"protocol", &[u64::from(*replica)], out),
        Line::Service(replica) => push_named(b"service", &[u64::from(*replica)], out),
        Line::Retransmit(replica) => push_named(b"retransmit", &[u64::from(*replica)], out),
        Line::Crash(replica) => push_named(b"crash", &[u64::from(*replica)], out),
        Line::Start(replica) => push_named(b"start", &[u64::from(*replica)], out),
        Line::End => push_text(b"end", out),
    }
}

fn show_cluster(head: &Head, out: &mut Vec<u8>) -> Result<(), NoMemory>
    ensures { OnOk result (out.new.items ≡ out.old.items ++ line_text (Line.Cluster head.now)) }
{
    push_named(b"cluster", &[u64::from(head.n)], out)?;
    out.push(b' ')?;
    show_mode(head.mode, out)?;
    push_numbers(&[u64::from(head.window)], out)
}

fn show_mode(mode: Mode, out: &mut Vec<u8>) -> Result<(), NoMemory>
    ensures { OnOk result (out.new.items ≡ out.old.items ++ mode_text mode) }
{
    match mode {
        Mode::ViewSs => push_text(b"viewss", out),
        Mode::EpochSs => push_text(b"epochss", out),
    }
}

fn show_request(replica: ReplicaId, request: &Request, out: &mut Vec<u8>) -> Result<(), NoMemory>
    ensures { OnOk result (out.new.items ≡ out.old.items ++ line_text (Line.Request replica request.now)) }
{
    push_named(
        b"request",
        &[u64::from(replica), request.client, request.number],
        out,
    )?;
    out.push(b' ')?;
    show_command(&request.command, out)
}

fn show_command(command: &Command, out: &mut Vec<u8>) -> Result<(), NoMemory>
    ensures { OnOk result (out.new.items ≡ out.old.items ++ command_text command.now) }
{
    match command {
        Command::Put { key, value } => {
            push_text(b"put", out)?;
            push_bytes(key, out)?;
            push_bytes(value, out)
        }
        Command::Get { key } => {
            push_text(b"get", out)?;
            push_bytes(key, out)
        }
        Command::Del { key } => {
            push_text(b"del", out)?;
            push_bytes(key, out)
        }
        Command::Cas { key, old, new } => {
            push_text(b"cas", out)?;
            push_bytes(key, out)?;
            out.push(b' ')?;
            show_old(old.as_ref(), out)?;
            push_bytes(new, out)
        }
    }
}

/// Appends a key or a value with a space before it.
fn push_bytes(bytes: &Octets, out: &mut Vec<u8>) -> Result<(), NoMemory>
    ensures { OnOk result (out.new.items ≡ out.old.items ++ spaced (bytes_text bytes.now ∷ [])) }
{
    out.push(b' ')?;
    show_bytes(bytes.bytes(), out)
}

/// Appends the value that `cas` expects, or `none`.
fn show_old(old: Option<&Octets>, out: &mut Vec<u8>) -> Result<(), NoMemory>
    ensures { OnOk result (out.new.items ≡ out.old.items ++ old_text (option_copied old.entry)) }
{
    match old {
        Some(value) => show_bytes(value.bytes(), out),
        None => push_text(b"none", out),
    }
}

/// Appends an answer word.
pub fn show_word(word: Word, out: &mut Vec<u8>) -> Result<(), NoMemory>
    ensures { OnOk result (out.new.items ≡ out.old.items ++ word_text word) }
{
    match word {
        Word::Done => push_text(b"done", out),
        Word::Empty => push_text(b"empty", out),
        Word::Full => push_text(b"full", out),
        Word::Down => push_text(b"down", out),
        Word::Up => push_text(b"up", out),
        Word::Unsent => push_text(b"unsent", out),
    }
}
