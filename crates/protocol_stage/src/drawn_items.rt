//! Items as other replicas, the Batcher, the service and a clock might put them, for tests: well-formed ones, with numbers
//! that a seed determines.

use jp_types::batch::Batch;
use jp_types::command::{Command, Request};
use jp_types::listed::Listed;
use jp_types::memory::NoMemory;
use jp_types::message::{
    Accept, Alive, CatchUpQuery, CatchUpReply, Entry, Instance, Message, Prepare, PrepareOk,
    Propose, Recovery, RecoveryAnswer, ReplicaId, Report, SnapshotPart, Vector,
};
use jp_types::octets::Octets;
use jp_types::views::NUMBER_LIMIT;
use kv_service::state::State;
use protocol_core::item::Item;
use std::alloc::Global;

/// A batch of one request.
pub fn batch(alloc: Global, number: u64) -> Result<Batch, NoMemory> {
    let mut batch = Batch::empty(alloc);
    let key = Octets::from_slice(alloc, b"k")?;
    batch.push(Request {
        client: 1,
        number,
        command: Command::Get { key },
    })?;
    Ok(batch)
}

/// Numbers that a seed determines.
#[derive(Drop)]
pub struct Draws {
    x: u64,
    alloc: Global,
}

impl Draws {
    pub fn new(alloc: Global, seed: u64) -> Draws {
        Draws { x: seed, alloc }
    }

    /// A number below k.
    fn below(&mut self, k: u64) -> u64 {
        self.x = self
            .x
            .wrapping_mul(6_364_136_223_846_793_005)
            .wrapping_add(1_442_695_040_888_963_407);
        (self.x >> 33) % k.max(1)
    }

    /// A view, an instance or a mark: mostly a small one.
    fn number(&mut self) -> u64 {
        match self.below(16) {
            0 => NUMBER_LIMIT - self.below(3).min(2),
            1 => self.below(2_000),
            _ => self.below(9),
        }
    }

    fn option(&mut self) -> Option<u64> {
        if self.below(2) == 0 {
            None
        } else {
            Some(self.number())
        }
    }

    fn vector(&mut self) -> Vector {
        let mut vector = [0; 9];
        for entry in &mut vector {
            *entry = self.below(4);
        }
        vector
    }

    fn batch(&mut self) -> Result<Batch, NoMemory> {
        match self.below(3) {
            0 => Ok(Batch::empty(self.alloc)),
            number => batch(self.alloc, number),
        }
    }

    /// Up to three entries, in ascending order.
    fn report(&mut self) -> Result<Report, NoMemory> {
        let mut report = Report::empty(self.alloc);
        let mut instance = self.below(6);
        for _ in 0..self.below(4) {
            report.push(Entry {
                instance,
                vote: self.option(),
                batch: self.batch()?,
            })?;
            instance = instance.saturating_add(1 + self.below(3).min(2));
        }
        Ok(report)
    }

    fn batches(&mut self) -> Result<Listed<Batch>, NoMemory> {
        let mut batches = Listed::empty(self.alloc);
        for _ in 0..=self.below(8) {
            batches.push(self.batch()?)?;
        }
        Ok(batches)
    }

    /// The bytes of the state of a service that has executed up to three batches.
    fn state(&mut self) -> Result<(Instance, Octets), NoMemory> {
        let upto = self.below(4);
        let mut state = State::new(self.alloc);
        for _ in 0..upto {
            let batch = self.batch()?;
            if state.executed() < NUMBER_LIMIT {
                state.execute(&batch)?;
            }
        }
        Ok((upto, state.to_bytes()?))
    }

    /// A whole snapshot, or what is no part of one.
    fn part(&mut self) -> Result<SnapshotPart, NoMemory> {
        let (upto, bytes) = self.state()?;
        let total = bytes.bytes().len().min(65_536) as u32;
        let at = if self.below(3) == 0 {
            self.below(40).min(40) as u32
        } else {
            0
        };
        Ok(SnapshotPart {
            upto,
            total,
            at,
            bytes,
        })
    }

    fn prepare_ok(&mut self) -> Result<PrepareOk, NoMemory> {
        Ok(PrepareOk {
            view: self.number(),
            mark: self.below(3),
            vector: self.vector(),
            low: self.below(3),
            report: self.report()?,
        })
    }

    fn answer(&mut self) -> RecoveryAnswer {
        RecoveryAnswer {
            mark: self.below(4),
            view: self.number(),
            vector: self.vector(),
            next: self.option(),
        }
    }

    fn small_message(&mut self, kind: u64) -> Message {
        let (view, instance) = (self.number(), self.number());
        match kind {
            0 => Message::Prepare(Prepare {
                view,
                first: instance,
                mark: self.below(4),
            }),
            1 => Message::Accept(Accept { view, instance }),
            2 => Message::Recovery(Recovery { mark: view }),
            3 => Message::RecoveryAnswer(self.answer()),
            4 => Message::CatchUpQuery(CatchUpQuery { first: instance }),
            _ => Message::Alive(Alive {
                view,
                first_undecided: instance,
            }),
        }
    }

    fn message(&mut self) -> Result<Message, NoMemory> {
        let (view, instance) = (self.number(), self.number());
        match self.below(10) {
            0 => Ok(Message::PrepareOk(self.prepare_ok()?)),
            1 => Ok(Message::Propose(Propose {
                view,
                instance,
                batch: self.batch()?,
            })),
            2 => Ok(Message::CatchUpReply(CatchUpReply {
                first: instance,
                batches: self.batches()?,
            })),
            3 => Ok(Message::SnapshotPart(self.part()?)),
            kind => Ok(self.small_message(kind - 4)),
        }
    }

    /// What a replica takes: mostly a message of another one.
    pub fn item(&mut self, me: ReplicaId) -> Result<Item, NoMemory> {
        match self.below(20) {
            0 => Ok(Item::Suspect),
            1 | 2 => Ok(Item::Tick),
            3 | 4 => Ok(Item::Batch(self.batch()?)),
            5 => {
                let (upto, bytes) = self.state()?;
                Ok(Item::Snapshot { upto, bytes })
            }
            _ => {
                let from = (me.min(2) + 1 + self.below(2).min(1) as u8) % 3;
                let message = self.message()?;
                Ok(Item::Message { from, message })
            }
        }
    }
}
