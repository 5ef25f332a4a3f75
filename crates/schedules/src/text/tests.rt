//! The bytes that each form of line, word, step and replica is written as.

use super::*;
use crate::line::{Head, Line, Word};
use jp_types::batch::Batch;
use jp_types::command::{Command, Reply, Request};
use jp_types::listed::Listed;
use jp_types::mode::Mode;
use kv_service::outcome::{Kind, Outcome};
use std::test::Fail;

#[test]
fn words_are_written(rt: HostRuntime) -> Result<(), Fail> {
    let table = [
        (Word::Done, "done"),
        (Word::Empty, "empty"),
        (Word::Full, "full"),
        (Word::Down, "down"),
        (Word::Up, "up"),
        (Word::Unsent, "unsent"),
    ];
    for (word, want) in table {
        let mut out = Vec::new(rt.alloc());
        show_word(word, &mut out)?;
        assert_eq!(rt; out.as_slice(), want.as_bytes(), "{want}");
    }
    Ok(())
}

fn head(n: u8, mode: Mode, window: u8) -> Line {
    Line::Cluster(Head { n, mode, window })
}

#[test]
fn lines_are_written(rt: HostRuntime) -> Result<(), Fail> {
    let table = [
        (head(3, Mode::ViewSs, 8), "cluster 3 viewss 8"),
        (head(9, Mode::EpochSs, 64), "cluster 9 epochss 64"),
        (Line::Batch(0), "batch 0"),
        (Line::Tick(1), "tick 1"),
        (Line::Suspect(2), "suspect 2"),
        (
            Line::Deliver {
                replica: 8,
                message: 4_294_967_295,
            },
            "deliver 8 4294967295",
        ),
        (Line::Protocol(3), "protocol 3"),
        (Line::Service(4), "service 4"),
        (Line::Retransmit(5), "retransmit 5"),
        (Line::Crash(6), "crash 6"),
        (Line::Start(7), "start 7"),
        (Line::End, "end"),
    ];
    for (line, want) in &table {
        let mut out = Vec::new(rt.alloc());
        show_line(line, &mut out)?;
        assert_eq!(rt; out.as_slice(), want.as_bytes(), "{want}");
    }
    Ok(())
}

fn put(alloc: Global, key: &[u8], value: &[u8]) -> Result<Command, NoMemory> {
    Ok(Command::Put {
        key: Octets::from_slice(alloc, key)?,
        value: Octets::from_slice(alloc, value)?,
    })
}

fn get(alloc: Global, key: &[u8]) -> Result<Command, NoMemory> {
    Ok(Command::Get {
        key: Octets::from_slice(alloc, key)?,
    })
}

fn del(alloc: Global, key: &[u8]) -> Result<Command, NoMemory> {
    Ok(Command::Del {
        key: Octets::from_slice(alloc, key)?,
    })
}

fn cas(alloc: Global, key: &[u8], old: Option<&[u8]>, new: &[u8]) -> Result<Command, NoMemory> {
    let old = match old {
        Some(old) => Some(Octets::from_slice(alloc, old)?),
        None => None,
    };
    Ok(Command::Cas {
        key: Octets::from_slice(alloc, key)?,
        old,
        new: Octets::from_slice(alloc, new)?,
    })
}

#[test]
fn requests_are_written(rt: HostRuntime) -> Result<(), Fail> {
    let alloc = rt.alloc();
    let table = [
        (
            put(alloc, b"k", b"v"),
            "request 2 1023 281474976710656 put 6b 76",
        ),
        (
            put(alloc, &[0, 9, 10], b""),
            "request 2 1023 281474976710656 put 00090a -",
        ),
        (
            get(alloc, &[171, 255]),
            "request 2 1023 281474976710656 get abff",
        ),
        (del(alloc, b"k"), "request 2 1023 281474976710656 del 6b"),
        (
            cas(alloc, b"k", None, b"v"),
            "request 2 1023 281474976710656 cas 6b none 76",
        ),
        (
            cas(alloc, b"k", Some(b""), b"v"),
            "request 2 1023 281474976710656 cas 6b - 76",
        ),
        (
            cas(alloc, b"k", Some(b"v"), b""),
            "request 2 1023 281474976710656 cas 6b 76 -",
        ),
    ];
    for (command, want) in table {
        let request = Request {
            client: 1023,
            number: 281_474_976_710_656,
            command: command?,
        };
        let mut out = Vec::new(alloc);
        show_line(
            &Line::Request {
                replica: 2,
                request,
            },
            &mut out,
        )?;
        assert_eq!(rt; out.as_slice(), want.as_bytes(), "{want}");
    }
    Ok(())
}

#[test]
fn steps_are_written(rt: HostRuntime) -> Result<(), Fail> {
    let table = [
        (Step::First { replica: 0 }, "first 0"),
        (
            Step::Return {
                replica: 1,
                mark: 7,
            },
            "return 1 7",
        ),
        (Step::Crash { replica: 2 }, "crash 2"),
        (
            Step::Enter {
                replica: 3,
                view: 10,
            },
            "enter 3 10",
        ),
        (
            Step::Promise {
                replica: 4,
                view: 99,
            },
            "promise 4 99",
        ),
        (
            Step::Prepared {
                replica: 5,
                view: 100,
                next: 0,
            },
            "prepared 5 100 0",
        ),
        (
            Step::Vote {
                replica: 6,
                view: 281_474_976_710_656,
                instance: 1,
            },
            "vote 6 281474976710656 1",
        ),
        (
            Step::Learn {
                replica: 7,
                instance: 18_446_744_073_709_551_615,
            },
            "learn 7 18446744073709551615",
        ),
        (
            Step::Answer {
                replica: 0,
                to: 1,
                view: 2,
                next: Some(3),
            },
            "answer 0 1 2 3",
        ),
        (
            Step::Answer {
                replica: 0,
                to: 1,
                view: 2,
                next: None,
            },
            "answer 0 1 2 -",
        ),
        (
            Step::Rejoin {
                replica: 8,
                view: 5,
            },
            "rejoin 8 5",
        ),
        (
            Step::Install {
                replica: 0,
                upto: 256,
            },
            "install 0 256",
        ),
        (
            Step::Restore {
                replica: 0,
                upto: 512,
            },
            "restore 0 512",
        ),
        (
            Step::Launch {
                replica: 0,
                view: 3,
                instance: 4,
                batch: Batch::empty(rt.alloc()),
            },
            "launch 0 3 4 -",
        ),
        (
            Step::Execute {
                replica: 1,
                instance: 4,
                outcomes: Listed::empty(rt.alloc()),
            },
            "execute 1 4",
        ),
    ];
    for (step, want) in &table {
        let mut out = Vec::new(rt.alloc());
        show_step(step, &mut out)?;
        assert_eq!(rt; out.as_slice(), want.as_bytes(), "{want}");
    }
    Ok(())
}

#[test]
fn kinds_of_messages_are_written(rt: HostRuntime) -> Result<(), Fail> {
    let table = [
        (1, "send 40 2 prepare"),
        (2, "send 40 2 promise"),
        (3, "send 40 2 propose"),
        (4, "send 40 2 accept"),
        (5, "send 40 2 recovery"),
        (6, "send 40 2 answer"),
        (7, "send 40 2 query"),
        (8, "send 40 2 batches"),
        (9, "send 40 2 part"),
        (10, "send 40 2 alive"),
    ];
    for (kind, want) in table {
        let mut out = Vec::new(rt.alloc());
        show_step(
            &Step::Send {
                number: 40,
                to: 2,
                kind,
            },
            &mut out,
        )?;
        assert_eq!(rt; out.as_slice(), want.as_bytes(), "{want}");
    }
    Ok(())
}

fn value(alloc: Global, bytes: &[u8]) -> Result<Option<Reply>, NoMemory> {
    Ok(Some(Reply::Value(Octets::from_slice(alloc, bytes)?)))
}

#[test]
fn outcomes_are_written(rt: HostRuntime) -> Result<(), Fail> {
    let alloc = rt.alloc();
    let table = [
        (Kind::First, Ok(Some(Reply::Done)), "execute 0 9 7.15+ok"),
        (Kind::First, value(alloc, b"v"), "execute 0 9 7.15+value:76"),
        (Kind::First, Ok(Some(Reply::NoKey)), "execute 0 9 7.15+none"),
        (
            Kind::First,
            Ok(Some(Reply::NoRoom)),
            "execute 0 9 7.15+full",
        ),
        (Kind::Repeated, Ok(Some(Reply::Done)), "execute 0 9 7.15=ok"),
        (
            Kind::Repeated,
            value(alloc, b""),
            "execute 0 9 7.15=value:-",
        ),
        (
            Kind::Repeated,
            Ok(Some(Reply::NoKey)),
            "execute 0 9 7.15=none",
        ),
        (
            Kind::Repeated,
            Ok(Some(Reply::NoRoom)),
            "execute 0 9 7.15=full",
        ),
        (Kind::Passed, Ok(None), "execute 0 9 7.15~"),
    ];
    for (kind, reply, want) in table {
        let mut outcomes = Listed::empty(alloc);
        outcomes.push(Outcome {
            client: 7,
            number: 15,
            kind,
            reply: reply?,
        })?;
        let mut out = Vec::new(alloc);
        show_step(
            &Step::Execute {
                replica: 0,
                instance: 9,
                outcomes,
            },
            &mut out,
        )?;
        assert_eq!(rt; out.as_slice(), want.as_bytes(), "{want}");
    }
    Ok(())
}

/// A service executed a batch of two requests, which a leader launched.
fn service_event(alloc: Global) -> Result<Event, NoMemory> {
    let mut batch = Batch::empty(alloc);
    batch.push(Request {
        client: 1,
        number: 2,
        command: get(alloc, b"k")?,
    })?;
    batch.push(Request {
        client: 30,
        number: 4,
        command: get(alloc, b"k")?,
    })?;
    let mut outcomes = Listed::empty(alloc);
    outcomes.push(Outcome {
        client: 1,
        number: 2,
        kind: Kind::First,
        reply: value(alloc, b"v")?,
    })?;
    outcomes.push(Outcome {
        client: 30,
        number: 4,
        kind: Kind::Passed,
        reply: None,
    })?;
    let mut steps = Listed::empty(alloc);
    steps.push(Step::Launch {
        replica: 0,
        view: 0,
        instance: 5,
        batch,
    })?;
    steps.push(Step::Execute {
        replica: 0,
        instance: 5,
        outcomes,
    })?;
    Ok(Event {
        line: Line::Service(0),
        word: Word::Done,
        steps,
    })
}

#[test]
fn runs_are_written(rt: HostRuntime) -> Result<(), Fail> {
    let alloc = rt.alloc();
    let mut events = Listed::empty(alloc);
    events.push(service_event(alloc)?)?;
    events.push(Event {
        line: Line::End,
        word: Word::Done,
        steps: Listed::empty(alloc),
    })?;
    let mut last = Listed::empty(alloc);
    last.push(None)?;
    last.push(None)?;
    let text = show(alloc, &Run { events, last })?;
    let want =
        "service 0 = done; launch 0 0 5 1.2,30.4; execute 0 5 1.2+value:76 30.4~\nend = done\nreplica 0 down\nreplica 1 down\n";
    assert_eq!(rt; text.bytes(), want.as_bytes());

    let mut line = Vec::new(alloc);
    show_last(1, None, &mut line)?;
    assert_eq!(rt; line.as_slice(), b"replica 1 down\n".as_slice());
    Ok(())
}
