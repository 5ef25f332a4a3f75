//! A machine of a run: a disk, and the replica that is up on it.

ghost use Rattle.std.specs.Prelude.{◌≡◌, ◌≢◌, [], true, length, if◌then◌else◌, IfOk, IfErr, OnErr};
ghost use Rattle.std.specs.Option.{option_copied, option_map};
ghost use Rattle.replica_node.specs.Beginning.{Begins};
ghost use Rattle.replica_node.specs.Lanes.{is_kind_of};
ghost use Rattle.replica_node.specs.Steps.{Steps};
ghost use Rattle.stable_store.specs.Slots.{Loads};
ghost use Rattle.cluster.specs.Machines.{
  after_tick,
  disk_length,
  fresh_machine,
  is_answered,
  IsAnswered,
  is_away_by,
  IsWanting,
  KeepsDisk,
  last_of,
  NotBegun,
  StartsOn,
  stored_on,
  StepsIf,
  with_lane_item,
  word_for_item,
  word_for_tick,
};
ghost use Rattle.cluster.specs.Machine.{IsSound};

use batcher::fed::Fed;
use jp_types::listed::Listed;
use jp_types::memory::NoMemory;
use jp_types::mode::Phase;
use paxos_world::last::Last;
use protocol_core::act::Act;
use protocol_core::config::Config;
use protocol_core::item::Item;
use protocol_stage::protocol::StartFault;
use replica_node::replica::Replica;
use replica_node::stage::{LaneItem, Stage, Stepped};
use schedules::line::Word;
use stable_store::memory::MemoryDisk;
use std::alloc::Global;
use std::marker::Model;

/// How many bytes a disk has.
const DISK_LENGTH: usize = 18;

/// A disk, which outlives the lives of its replica, and what is up on it, if the replica is up.
#[derive(Drop)]
pub struct Machine {
    disk: MemoryDisk,
    running: Option<Replica>,
}

impl Model for Machine {
    ghost use Rattle.std.specs.Prelude.{ℕ, List, Option, refl};
    ghost use Rattle.std.specs.Coded.{code_by, coded×, coded_list, coded_option, coded_ℕ};
    ghost use Rattle.replica_node.specs.contracts.replica.Replica as of_replica;
    ghost use Rattle.replica_node.specs.Whole.{Whole};
    ghost use Rattle.cluster.specs.Machine.{IsSound, Machine};

    ghost Value = { Machine };

    ghost coded = { code_by (List ℕ × Option Whole) (coded× (coded_list coded_ℕ) (coded_option of_replica.the_row.coded)) (λ m. (m.disk, m.running)) (λ p. record { disk = p.0; running = p.1 }) (λ _. refl) };

    ghost view = { λ m. record { disk = m.disk; running = m.running } };

    ghost invariant = { λ m. IsSound m.disk m.running };
}

/// What was done on a machine: the word that answers it, and the acts in order.
#[derive(Drop)]
pub struct Answer {
    pub word: Word,
    pub acts: Listed<Act>,
}

impl Machine {
    /// A machine before its replica's first start: its disk has zero bytes.
    pub fn fresh(alloc: Global) -> Result<Machine, NoMemory>
        ensures { IfOk result (λ machine. machine ≡ fresh_machine) }
    {
        Ok(Machine {
            disk: MemoryDisk::new(vec![in alloc; 0u8; DISK_LENGTH]?),
            running: None,
        })
    }

    /// The word that would answer an item for the lane of a stage.
    pub fn room(&self, stage: Stage) -> Word
        ensures { result ≡ word_for_item self.now.running stage }
    {
        match &self.running {
            Some(replica) => word_for(!replica.full(stage)),
            None => Word::Down,
        }
    }

    /// Puts an item in the lane of a stage.
    pub fn put(&mut self, stage: Stage, item: LaneItem) -> Word
        requires { is_kind_of stage item ≡ true }
        ensures word { result ≡ word_for_item self.old.running stage }
        ensures after { self.new ≡ record self.old { running = option_map (with_lane_item stage item) self.old.running } }
    {
        match &mut self.running {
            Some(replica) => word_for(replica.put(stage, item)),
            None => Word::Down,
        }
    }

    /// A tick goes into the request lane and the dispatcher lane, or into neither.
    pub fn tick(&mut self) -> Word
        ensures word { result ≡ word_for_tick self.old.running }
        ensures after { self.new ≡ record self.old { running = after_tick self.old.running } }
    {
        match &mut self.running {
            Some(replica) => tick(replica),
            None => Word::Down,
        }
    }

    /// One step of a stage.
    pub fn step(&mut self, alloc: Global, stage: Stage) -> Result<Answer, NoMemory>
        ensures { IfOk result (λ did. StepsIf stage self.old self.old.running did.word did.acts self.new) }
    {
        let Some(replica) = &mut self.running else {
            return Ok(without_acts(alloc, Word::Down));
        };
        let stepped = step_over(replica, stage, &mut self.disk);
        answer_of(alloc, stepped)
    }

    /// Ends the life. The disk stays.
    pub fn crash(&mut self)
        ensures { self.new ≡ record self.old { running = None } }
    {
        self.running = None;
    }

    /// Begins the next life, where the replica is down. Where the disk holds the last number that there is, none begins.
    pub fn start(&mut self, alloc: Global, config: &Config) -> Result<Answer, NoMemory>
        ensures { IfOk result (λ did. StartsOn config.now self.old self.old.running did.word did.acts self.new) }
    {
        if self.running.is_some() {
            return Ok(without_acts(alloc, Word::Up));
        }
        self.begin(alloc, config)
    }

    // Begins the next life.
    #[tactic(auto, using(crate::proofs::MachineLemmas::life_begins))]
    fn begin(&mut self, alloc: Global, config: &Config) -> Result<Answer, NoMemory>
        requires { self.old.running ≡ None }
        ensures { IfOk result (λ did. StartsOn config.now self.old None did.word did.acts self.new) }
    {
        match start_over(alloc, config, &mut self.disk) {
            Ok((replica, acts)) => {
                self.running = Some(replica);
                Ok(Answer {
                    word: Word::Done,
                    acts,
                })
            }
            Err(StartFault::Spent(_)) => Ok(without_acts(alloc, Word::Down)),
            Err(_) => Err(NoMemory),
        }
    }

    /// Whether the replica is down or Recovering.
    pub fn is_away(&self) -> bool
        ensures { result ≡ is_away_by self.now.running }
    {
        match &self.running {
            Some(replica) => replica.phase() == Phase::Recovering,
            None => true,
        }
    }

    /// The replica that is up, if one is.
    pub fn replica(&self) -> Option<&Replica>
        ensures { option_copied result ≡ self.now.running }
    {
        self.running.as_ref()
    }

    /// What the replica ends with, `None` where it is down.
    pub fn finish(self) -> Option<Last>
        ensures { result ≡ last_of self.running }
    {
        let Machine { disk: _, running } = self;
        match running {
            Some(replica) => Some(replica.finish()),
            None => None,
        }
    }
}

// One step of a stage over a disk in memory, no call of which fails.
fn step_over(replica: &mut Replica, stage: Stage, disk: &mut MemoryDisk) -> Stepped
    requires { IsSound disk.old (Some replica.old) }
    ensures does { Steps stage replica.old result replica.new }
    ensures keeps { is_answered result ≡ true → KeepsDisk stage disk.old replica.new disk.new }
    ensures sound { IsSound disk.new (Some replica.new) }
    ensures no_fault { result ≢ Stepped.StoreFault }
{
    replica.step(stage, disk)
}

// The next life over a disk in memory, no call of which fails, and which is not damaged.
fn start_over(
    alloc: Global,
    config: &Config,
    disk: &mut MemoryDisk,
) -> Result<(Replica, Listed<Act>), StartFault>
    requires { length disk.old ≡ disk_length }
    ensures begins { IfOk result (λ begun. Begins config.now (stored_on disk.old) begun.0 begun.1) }
    ensures loads { IfOk result (λ begun. Loads disk.new (Some begun.0.stages.protocol.life.stable)) }
    ensures sound { IfOk result (λ begun. IsSound disk.new (Some begun.0)) }
    ensures length { length disk.new ≡ disk_length }
    ensures err { IfErr result (λ fault. NotBegun config.now disk.old fault disk.new) }
{
    Replica::start(alloc, config, disk)
}

// Nothing was done.
fn without_acts(alloc: Global, word: Word) -> Answer
    ensures { result ≡ record { word = word; acts = [] } }
{
    Answer {
        word,
        acts: Listed::empty(alloc),
    }
}

// What a step did that found no fault of the disk. Memory is wanted, or was at an earlier step, where there is no answer.
fn answer_of(alloc: Global, stepped: Stepped) -> Result<Answer, NoMemory>
    requires { stepped ≢ Stepped.StoreFault }
    ensures ok { IfOk result (λ did. IsAnswered stepped did.word did.acts) }
    ensures err { OnErr result (IsWanting stepped) }
{
    match stepped {
        Stepped::Done(acts) => Ok(Answer {
            word: Word::Done,
            acts,
        }),
        Stepped::Empty => Ok(without_acts(alloc, Word::Empty)),
        Stepped::Full => Ok(without_acts(alloc, Word::Full)),
        Stepped::Down | Stepped::StoreFault | Stepped::NoMemory => Err(NoMemory),
    }
}

// The word for an item that was put in a lane, or found it full.
fn word_for(put: bool) -> Word
    ensures { result ≡ (if put then Word.Done else Word.Full) }
{
    if put { Word::Done } else { Word::Full }
}

// Puts a tick in both lanes of a replica, where both have room.
fn tick(replica: &mut Replica) -> Word
    ensures word { result ≡ word_for_tick (Some replica.old) }
    ensures after { Some replica.new ≡ after_tick (Some replica.old) }
{
    if replica.full(Stage::Batch) || replica.full(Stage::Protocol) {
        return Word::Full;
    }
    let fed = replica.put(Stage::Batch, LaneItem::Fed(Fed::Tick));
    let item = replica.put(Stage::Protocol, LaneItem::Item(Item::Tick));
    word_for(fed && item)
}
