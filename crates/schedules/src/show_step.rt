//! Steps as text.

ghost use Rattle.std.specs.Prelude.{◌≡◌, ◌++◌, OnOk, option_copied, flat_map, codes, ◌∷◌};
ghost use Rattle.schedules.specs.Text.{
  show_step as step_text,
  show_batch as batch_text,
  show_outcome as outcome_text,
  reply_text,
  kind_text,
  kind_word,
  pair_text,
  show_next as next_text,
};

use jp_types::batch::Batch;
use jp_types::command::{Reply, Request};
use jp_types::memory::NoMemory;
use jp_types::message::{Instance, ReplicaId, View};
use kv_service::outcome::{Kind, Outcome, Outcomes};
use paxos_world::step::Step;
use text_lines::texts::{push_decimal, push_named, push_number_at, push_text, show_reply};

/// Appends a step. After an `Err`, `out` may end in a part of it.
pub fn show_step(step: &Step, out: &mut Vec<u8>) -> Result<(), NoMemory>
    ensures { OnOk result (out.new.items ≡ out.old.items ++ step_text step.now) }
{
    match step {
        Step::First { replica } => push_named(b"first", &[u64::from(*replica)], out),
        Step::Return { replica, mark } => push_number_at(b"return", *replica, *mark, out),
        Step::Crash { replica } => push_named(b"crash", &[u64::from(*replica)], out),
        Step::Enter { replica, view } => push_number_at(b"enter", *replica, *view, out),
        Step::Promise { replica, view } => push_number_at(b"promise", *replica, *view, out),
        Step::Prepared {
            replica,
            view,
            next,
        } => push_named(b"prepared", &[u64::from(*replica), *view, *next], out),
        Step::Launch {
            replica,
            view,
            instance,
            batch,
        } => show_launch(*replica, *view, *instance, batch, out),
        Step::Vote {
            replica,
            view,
            instance,
        } => push_named(b"vote", &[u64::from(*replica), *view, *instance], out),
        Step::Learn { replica, instance } => push_number_at(b"learn", *replica, *instance, out),
        Step::Answer {
            replica,
            to,
            view,
            next,
        } => show_answer(*replica, *to, *view, *next, out),
        Step::Rejoin { replica, view } => push_number_at(b"rejoin", *replica, *view, out),
        Step::Install { replica, upto } => push_number_at(b"install", *replica, *upto, out),
        Step::Execute {
            replica,
            instance,
            outcomes,
        } => show_execute(*replica, *instance, outcomes, out),
        Step::Restore { replica, upto } => push_number_at(b"restore", *replica, *upto, out),
        Step::Send { number, to, kind } => show_send(*number, *to, *kind, out),
    }
}

fn show_launch(
    replica: ReplicaId,
    view: View,
    instance: Instance,
    batch: &Batch,
    out: &mut Vec<u8>,
) -> Result<(), NoMemory>
    ensures { OnOk result (out.new.items ≡ out.old.items ++ step_text (Step.Launch replica view instance batch.now)) }
{
    push_named(b"launch", &[u64::from(replica), view, instance], out)?;
    out.push(b' ')?;
    show_batch(batch.requests(), out)
}

fn show_answer(
    replica: ReplicaId,
    to: ReplicaId,
    view: View,
    next: Option<Instance>,
    out: &mut Vec<u8>,
) -> Result<(), NoMemory>
    ensures { OnOk result (out.new.items ≡ out.old.items ++ step_text (Step.Answer replica to view next)) }
{
    push_named(b"answer", &[u64::from(replica), u64::from(to), view], out)?;
    out.push(b' ')?;
    show_next(next, out)
}

fn show_execute(
    replica: ReplicaId,
    instance: Instance,
    outcomes: &Outcomes,
    out: &mut Vec<u8>,
) -> Result<(), NoMemory>
    ensures { OnOk result (out.new.items ≡ out.old.items ++ step_text (Step.Execute replica instance outcomes.now)) }
{
    push_number_at(b"execute", replica, instance, out)?;
    push_outcomes(outcomes.as_slice(), out)
}

fn show_send(number: u64, to: ReplicaId, kind: u8, out: &mut Vec<u8>) -> Result<(), NoMemory>
    ensures { OnOk result (out.new.items ≡ out.old.items ++ step_text (Step.Send number to kind)) }
{
    push_named(b"send", &[number, u64::from(to)], out)?;
    out.push(b' ')?;
    push_text(kind_name(kind), out)
}

/// Appends the requests of a batch, or `-`.
fn show_batch(requests: &[Request], out: &mut Vec<u8>) -> Result<(), NoMemory>
    ensures { OnOk result (out.new.items ≡ out.old.items ++ batch_text requests.now) }
{
    let Some((first, more)) = requests.split_first() else {
        return push_text(b"-", out);
    };
    push_pair(first.client, first.number, out)?;
    push_more(more, out)
}

/// Appends requests, each with a comma before it.
fn push_more(requests: &[Request], out: &mut Vec<u8>) -> Result<(), NoMemory>
    ensures { OnOk result (out.new.items
        ≡ out.old.items ++ flat_map (λ q. codes "," ++ pair_text q.client q.number) requests.now) }
{
    for request in requests {
        push_text(b",", out)?;
        push_pair(request.client, request.number, out)?;
    }
    Ok(())
}

/// Appends an instance, or `-`.
fn show_next(next: Option<Instance>, out: &mut Vec<u8>) -> Result<(), NoMemory>
    ensures { OnOk result (out.new.items ≡ out.old.items ++ next_text next) }
{
    match next {
        Some(next) => push_decimal(next, out),
        None => push_text(b"-", out),
    }
}

// Appends a client and the number of its request.
fn push_pair(client: u64, number: u64, out: &mut Vec<u8>) -> Result<(), NoMemory>
    ensures { OnOk result (out.new.items ≡ out.old.items ++ pair_text client number) }
{
    push_decimal(client, out)?;
    out.push(b'.')?;
    push_decimal(number, out)
}

/// Appends outcomes, each with a space before it.
fn push_outcomes(outcomes: &[Outcome], out: &mut Vec<u8>) -> Result<(), NoMemory>
    ensures { OnOk result (out.new.items ≡ out.old.items ++ flat_map (λ o. 32 ∷ outcome_text o) outcomes.now) }
{
    for outcome in outcomes {
        out.push(b' ')?;
        show_outcome(outcome, out)?;
    }
    Ok(())
}

fn show_outcome(outcome: &Outcome, out: &mut Vec<u8>) -> Result<(), NoMemory>
    ensures { OnOk result (out.new.items ≡ out.old.items ++ outcome_text outcome.now) }
{
    push_pair(outcome.client, outcome.number, out)?;
    show_kind(outcome.kind, outcome.reply.as_ref(), out)
}

/// Appends how a request was taken, and the reply where there is one to tell.
fn show_kind(kind: Kind, reply: Option<&Reply>, out: &mut Vec<u8>) -> Result<(), NoMemory>
    ensures { OnOk result (out.new.items ≡ out.old.items ++ kind_text kind (option_copied reply.entry)) }
{
    match kind {
        Kind::First => {
            push_text(b"+", out)?;
            push_reply(reply, out)
        }
        Kind::Repeated => {
            push_text(b"=", out)?;
            push_reply(reply, out)
        }
        Kind::Passed => push_text(b"~", out),
    }
}

fn push_reply(reply: Option<&Reply>, out: &mut Vec<u8>) -> Result<(), NoMemory>
    ensures { OnOk result (out.new.items ≡ out.old.items ++ reply_text (option_copied reply.entry)) }
{
    match reply {
        Some(reply) => show_reply(reply, out),
        None => Ok(()),
    }
}

/// The word of a message's kind.
fn kind_name(kind: u8) -> &'static [u8]
    ensures { result.now ≡ kind_word kind }
{
    match kind {
        1 => b"prepare",
        2 => b"promise",
        3 => b"propose",
        4 => b"accept",
        5 => b"recovery",
        6 => b"answer",
        7 => b"query",
        8 => b"batches",
        9 => b"part",
        _ => b"alive",
    }
}
