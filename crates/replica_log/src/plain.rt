//! The log call by call beside a plain list of what is held of each instance.

use crate::fault::LogFault;
use crate::log::ReplicaLog;
use jp_types::batch::Batch;
use jp_types::command::{Command, Request};
use jp_types::memory::NoMemory;
use jp_types::message::Entry;
use jp_types::octets::Octets;
use std::alloc::Global;
use std::test::Fail;

/// A batch that is told apart from others by a number.
pub fn batch(alloc: Global, number: u64) -> Result<Batch, NoMemory> {
    let mut batch = Batch::empty(alloc);
    batch.push(Request {
        client: 7,
        number,
        command: Command::Get {
            key: Octets::from_slice(alloc, b"a")?,
        },
    })?;
    Ok(batch)
}

pub fn number_of(batch: &Batch) -> u64 {
    batch.requests().first().map_or(0, |request| request.number)
}

/// An entry of a report, with its batch's number.
pub fn told(entry: &Entry) -> (u64, Option<u64>, u64) {
    (entry.instance, entry.vote, number_of(&entry.batch))
}

const REPLICAS: u8 = 5;

const CELLS: u64 = 8192;

// What is held of an instance. A tally has its view, who accepted, and its batch.
#[derive(Clone, Copy)]
struct Cell {
    known: Option<u64>,
    vote: Option<(u64, u64)>,
    tally: Option<(u64, [bool; 5], Option<u64>)>,
}

const EMPTY: Cell = Cell {
    known: None,
    vote: None,
    tally: None,
};

#[derive(Drop)]
struct Plain {
    base: u64,
    cells: Vec<Cell>,
}

// What is called, of which instance, and with what.
#[derive(Clone, Copy)]
struct Call {
    kind: u64,
    instance: u64,
    view: u64,
    from: u8,
    number: u64,
}

impl Plain {
    fn new(alloc: Global) -> Result<Plain, NoMemory> {
        let mut cells = Vec::new(alloc);
        for _ in 0..CELLS {
            cells.push(EMPTY)?;
        }
        Ok(Plain { base: 0, cells })
    }

    fn cell(&self, instance: u64) -> Cell {
        if instance < self.base {
            return EMPTY;
        }
        match self.cells.get(instance as usize) {
            Some(cell) => *cell,
            None => EMPTY,
        }
    }

    fn set(&mut self, instance: u64, cell: Cell) {
        if let Some(place) = self.cells.get_mut(instance as usize) {
            *place = cell;
        }
    }

    fn is_known(&self, instance: u64) -> bool {
        instance < self.base || self.cell(instance).known.is_some()
    }

    fn first_undecided(&self) -> u64 {
        let mut instance = self.base;
        for _ in 0..CELLS {
            if !self.is_known(instance) {
                return instance;
            }
            instance = instance.saturating_add(1);
        }
        instance
    }

    fn fault(&self, instance: u64) -> Option<LogFault> {
        let end = self.base.saturating_add(1024);
        if instance < self.base {
            Some(LogFault::BelowBase(self.base))
        } else if instance >= end {
            Some(LogFault::PastSpan(end))
        } else {
            None
        }
    }

    fn vote(&mut self, call: Call) -> Result<bool, LogFault> {
        if let Some(fault) = self.fault(call.instance) {
            return Err(fault);
        }
        let mut cell = self.cell(call.instance);
        cell.vote = Some((call.view, call.number));
        self.set(call.instance, cell);
        Ok(true)
    }

    fn note(&mut self, call: Call) -> Result<bool, LogFault> {
        if let Some(fault) = self.fault(call.instance) {
            return Err(fault);
        }
        let mut cell = self.cell(call.instance);
        let tally = noted(cell.tally, call);
        cell.tally = Some(tally);
        self.set(call.instance, cell);
        let count = tally.1.iter().filter(|accepted| **accepted).count();
        Ok(count >= 3 && tally.2.is_some())
    }

    fn learn(&mut self, call: Call) -> Result<bool, LogFault> {
        if self.is_known(call.instance) {
            return Ok(false);
        }
        if let Some(fault) = self.fault(call.instance) {
            return Err(fault);
        }
        let mut cell = self.cell(call.instance);
        cell.known = Some(call.number);
        cell.tally = None;
        self.set(call.instance, cell);
        Ok(true)
    }

    fn report(&self, alloc: Global, first: u64) -> Result<Vec<(u64, Option<u64>, u64)>, NoMemory> {
        let mut report = Vec::new(alloc);
        for instance in 0..CELLS {
            let cell = self.cell(instance);
            let entry = match (cell.known, cell.vote) {
                (Some(number), _) => Some((instance, None, number)),
                (None, Some((view, number))) => Some((instance, Some(view), number)),
                (None, None) => None,
            };
            if let Some(entry) = entry.filter(|_| first <= instance) {
                report.push(entry)?;
            }
        }
        Ok(report)
    }
}

// Each third note has no batch.
fn batch_in(call: Call) -> Option<u64> {
    if call.number % 3 == 0 {
        None
    } else {
        Some(call.number)
    }
}

fn noted(old: Option<(u64, [bool; 5], Option<u64>)>, call: Call) -> (u64, [bool; 5], Option<u64>) {
    let mut tally = match old {
        Some(tally) if tally.0 >= call.view => tally,
        _ => (call.view, [false; 5], None),
    };
    if tally.0 == call.view {
        if let Some(place) = tally.1.get_mut(call.from as usize) {
            *place = true;
        }
        tally.2 = batch_in(call).or(tally.2);
    }
    tally
}

// Near the base and the first undecided instances, or near the end of the span.
fn call_of(base: u64, number: u64) -> Call {
    let near = base.saturating_sub(2).saturating_add(number / 16 % 16);
    let is_far = number / 256 % 8 == 0;
    Call {
        kind: number % 16,
        instance: if is_far {
            near.saturating_add(1016)
        } else {
            near
        },
        view: number / 2048 % 3,
        from: (number / 8192 % 5) as u8,
        number: number / 65_536 % 1000,
    }
}

// Makes a call to both, where its conditions hold.
fn answers(
    alloc: Global,
    log: &mut ReplicaLog,
    plain: &mut Plain,
    call: Call,
) -> Result<(Result<bool, LogFault>, Result<bool, LogFault>), NoMemory> {
    let batch_of = |number| batch(alloc, number);
    match call.kind {
        0..3 => {
            let voted = log.vote(call.instance, call.view, batch_of(call.number)?);
            Ok((voted.map(|_| true), plain.vote(call)))
        }
        3..10 if !log.is_known(call.instance) && call.from < log.replicas() => {
            let noted = match batch_in(call) {
                Some(number) => Some(batch_of(number)?),
                None => None,
            };
            let full = log.note(call.instance, call.view, call.from, noted);
            Ok((full, plain.note(call)))
        }
        10..14 => {
            let learned = log.learn(call.instance, batch_of(call.number)?);
            Ok((learned, plain.learn(call)))
        }
        _ => {
            move_base(log, plain, call);
            Ok((Ok(true), Ok(true)))
        }
    }
}

fn move_base(log: &mut ReplicaLog, plain: &mut Plain, call: Call) {
    let to = call.instance;
    let first = log.first_undecided();
    if call.kind == 14 && log.base() <= to && to <= first {
        log.cut(to);
        plain.base = to;
    }
    if call.kind == 15 && first < to && to < first.saturating_add(16) && to <= 1 << 48 {
        log.jump(to);
        plain.base = to;
    }
}

// Whether both hold the same of an instance, and have the same base and first undecided instance.
fn agree(log: &ReplicaLog, plain: &Plain, instance: u64) -> bool {
    let cell = plain.cell(instance);
    let tallied = cell.tally.and_then(|tally| tally.2);
    log.base() == plain.base
        && log.first_undecided() == plain.first_undecided()
        && log.known(instance).map(number_of) == cell.known
        && log.voted(instance).map(|vote| (vote.0, number_of(vote.1))) == cell.vote
        && log.tallied(instance).map(number_of) == tallied
}

#[test]
fn agrees_with_a_plain_list(rt: HostRuntime) -> Result<(), Fail> {
    let alloc = rt.alloc();
    let mut log = ReplicaLog::new(alloc, REPLICAS)?;
    let mut plain = Plain::new(alloc)?;
    let mut seed = 1u64;
    for turn in 0..12_000 {
        seed = seed
            .wrapping_mul(6_364_136_223_846_793_005)
            .wrapping_add(1_442_695_040_888_963_407);
        let call = call_of(plain.base, seed >> 20);
        let (answer, want) = answers(alloc, &mut log, &mut plain, call)?;
        assert_eq!(rt; answer, want, "answer of call {turn}");
        assert!(rt; agree(&log, &plain, call.instance), "call {turn}");
        if turn % 1024 == 0 {
            let report = log.report(call.instance)?;
            let want = plain.report(alloc, call.instance)?;
            assert_eq!(rt;
                report.as_slice().len(),
                want.len(),
                "report at call {turn}"
            );
            for (entry, want) in report.as_slice().iter().zip(&want) {
                assert_eq!(rt; told(entry), *want, "report at call {turn}");
            }
        }
    }
    assert!(rt; plain.base > 2048);
    Ok(())
}
