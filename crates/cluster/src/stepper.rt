//! Runs a schedule line by line.

ghost use Rattle.std.specs.Prelude.{◌≡◌, ◌<◌, ◌≤◌, ◌++◌, ◌∷◌, [], ◌==◌, true, length, if◌then◌else◌, replicate, count_by, IfOk, OnOk, OnErr};
ghost use Rattle.std.specs.List.{slice_get};
ghost use Rattle.std.specs.Option.{option_copied};
ghost use Rattle.protocol_core.specs.declared.config.Config.{Config};
ghost use Rattle.replica_node.specs.Lanes.{is_kind_of};
ghost use Rattle.cluster.specs.declared.stepper.RunFault.TheVariants as fault;
ghost use Rattle.cluster.specs.Frames.{addressed, frame_bytes, frame_limit, sent_by, shown_by};
ghost use Rattle.schedules.specs.Heads.{IsHead};
ghost use Rattle.schedules.specs.Lines.{HasLines};
ghost use Rattle.cluster.specs.Machines.{is_away_by, word_for_item};
ghost use Rattle.cluster.specs.Runs.{OpensPast, PassesAt, Runs, RunsPast};
ghost use Rattle.cluster.specs.Standing.{FollowsFirst, FollowsLine};
ghost use Rattle.cluster.specs.Stepping.{
  AtUp,
  ComesOf,
  crashes,
  Delivers,
  fresh,
  Happens,
  IsConfigAt,
  lasts_of,
  Opens,
  Puts,
  replica_at,
  Starts,
  Takes,
  ticks,
  up_on,
};

use crate::machine::{Answer, Machine};
use crate::sent::{Sent, SentMessages};
use batcher::fed::Fed;
use jp_types::command::Request;
use jp_types::listed::Listed;
use jp_types::memory::{Duplicate, NoMemory};
use jp_types::message::ReplicaId;
use paxos_world::last::Last;
use paxos_world::step::Step;
use protocol_core::config::Config;
use protocol_core::item::Item;
use replica_node::replica::Replica;
use replica_node::stage::{LaneItem, Stage};
use schedules::event::{Event, Run};
use schedules::line::{Head, Line, Word};
use schedules::schedule::Schedule;
use std::alloc::Global;
use std::marker::Model;

/// Why a run was not finished.
#[derive(Clone, Copy, Debug, PartialEq, Eq)]
pub enum RunFault {
    /// The frames sent have more bytes than those of a run may have.
    TooLarge,
    NoMemory,
}

impl From<NoMemory> for RunFault {
    ghost from_gives = { λ _ f. f ≡ fault.NoMemory };

    fn from(_error: NoMemory) -> RunFault {
        RunFault::NoMemory
    }
}

/// The machines of a run, and every message that was ever sent, numbered from 0.
#[derive(Drop)]
pub struct Stepper {
    head: Head,
    machines: Vec<Machine>,
    sent: SentMessages,
}

impl Model for Stepper {
    ghost use Rattle.std.specs.Prelude.{◌≡◌, List, length, refl};
    ghost use Rattle.std.specs.Coded.{code_by, coded×, coded_list};
    ghost use Rattle.schedules.specs.contracts.line.Head as of_head;
    ghost use Rattle.cluster.specs.contracts.machine.Machine as of_machine;
    ghost use Rattle.cluster.specs.contracts.sent.Sent as of_sent;
    ghost use Rattle.schedules.specs.declared.line.Head.{Head};
    ghost use Rattle.cluster.specs.declared.sent.Sent.{Sent};
    ghost use Rattle.schedules.specs.Heads.{IsHead};
    ghost use Rattle.cluster.specs.Machine.{Machine};
    ghost use Rattle.cluster.specs.Stepping.{Stepping};

    ghost Value = { Stepping };

    ghost coded = { code_by (Head × (List Machine × List Sent)) (coded× of_head.the_row.coded (coded× (coded_list of_machine.the_row.coded) (coded_list of_sent.the_row.coded))) (λ s. (s.head, (s.machines, s.sent))) (λ p. record { head = p.0; machines = p.1.0; sent = p.1.1 }) (λ _. refl) };

    ghost view = { λ s. record { head = s.head; machines = s.machines.items; sent = s.sent } };

    ghost invariant = { λ s. IsHead s.head × (length s.machines.items ≡ s.head.n) };
}

/// What comes of a line: the word that answers it, and the steps that it shows.
#[derive(Drop)]
struct Shown {
    word: Word,
    steps: Listed<Step>,
}

// A word that answers a line which shows nothing.
fn without_steps(alloc: Global, word: Word) -> Shown
    ensures { result ≡ record { word = word; steps = [] } }
{
    Shown {
        word,
        steps: Listed::empty(alloc),
    }
}

// The constants of a replica.
fn config_of(head: &Head, me: ReplicaId) -> Config
    requires head { IsHead head.now }
    requires me { me < head.now.n }
    ensures { IsConfigAt head.now me result }
{
    Config {
        n: head.n,
        me,
        mode: head.mode,
        window: head.window,
    }
}

// Appends steps to those that are there.
fn append(steps: &mut Listed<Step>, more: Listed<Step>) -> Result<(), NoMemory>
    ensures { OnOk result (steps.new ≡ steps.old ++ more) }
{
    for step in more.into_vec() {
        steps.push(step)?;
    }
    Ok(())
}

impl Stepper {
    /// Makes the first starts of all replicas, in order. The event is that of the schedule's first line.
    pub fn start(alloc: Global, head: &Head) -> Result<(Stepper, Event), RunFault>
        requires { IsHead head.now }
        ensures opens { IfOk result (λ made. Opens head.now made.1 made.0) }

        // The event is the model's, and the run stands where the model's does.
        ensures follows { IfOk result (λ made. FollowsFirst head.now made.1 made.0) }
        ensures within { IfOk result (λ made. frame_bytes made.0.sent ≤ frame_limit) }
        ensures large { result ≡ Err RunFault.TooLarge → OpensPast head.now }
    {
        Stepper::begin(alloc, head)
    }

    // The first starts of all replicas, where they do not send too much.
    fn begin(alloc: Global, head: &Head) -> Result<(Stepper, Event), RunFault>
        requires { IsHead head.now }
        ensures opens { IfOk result (λ made. Opens head.now made.1 made.0) }
        ensures within { IfOk result (λ made. frame_bytes made.0.sent ≤ frame_limit) }
        ensures large { result ≡ Err RunFault.TooLarge → OpensPast head.now }
    {
        let (stepper, event) = Stepper::open(alloc, head)?;
        stepper.check_frames()?;
        Ok((stepper, event))
    }

    // The first starts of all replicas, whatever they send.
    fn open(alloc: Global, head: &Head) -> Result<(Stepper, Event), NoMemory>
        requires { IsHead head.now }
        ensures { IfOk result (λ made. Opens head.now made.1 made.0) }
    {
        let mut stepper = Stepper::fresh(alloc, head)?;
        let mut steps = Listed::empty(alloc);
        for me in 0..head.n {
            let shown = stepper.start_replica(me)?;
            append(&mut steps, shown.steps)?;
        }
        let event = Event {
            line: Line::Cluster(*head),
            word: Word::Done,
            steps,
        };
        Ok((stepper, event))
    }

    // The machines before the first starts.
    fn fresh(alloc: Global, head: &Head) -> Result<Stepper, NoMemory>
        requires { IsHead head.now }
        ensures { IfOk result (λ stepper. stepper ≡ fresh head.now) }
    {
        let mut machines = Vec::with_capacity(alloc, usize::from(head.n))?;
        for _ in 0..head.n {
            machines.push(Machine::fresh(alloc)?)?;
        }
        Ok(Stepper {
            head: *head,
            machines,
            sent: SentMessages::none(alloc),
        })
    }

    /// One line after the first. After an error the run is of no use.
    pub fn event(&mut self, line: &Line) -> Result<Event, RunFault>
        ensures happens { IfOk result (λ event. Happens self.old line.now event self.new) }

        // Where the run stands behind some lines of a schedule, the event is the model's, and it stands behind this line too.
        ensures follows { IfOk result (λ event. FollowsLine self.old line.now event self.new) }
        ensures within { OnOk result (frame_bytes self.new.sent ≤ frame_limit) }
        ensures large { result ≡ Err RunFault.TooLarge → PassesAt line.now self.old }
    {
        self.take(line)
    }

    // One line after the first, where it does not send too much.
    fn take(&mut self, line: &Line) -> Result<Event, RunFault>
        ensures happens { IfOk result (λ event. Happens self.old line.now event self.new) }
        ensures head { IsHead self.old.head }
        ensures within { OnOk result (frame_bytes self.new.sent ≤ frame_limit) }
        ensures large { result ≡ Err RunFault.TooLarge → PassesAt line.now self.old }
    {
        // A field that is read tells the invariant: the constants are within their limits.
        let _head = &self.head;
        let event = self.happen(line)?;
        self.check_frames()?;
        Ok(event)
    }

    // One line after the first, whatever it sends.
    fn happen(&mut self, line: &Line) -> Result<Event, NoMemory>
        ensures { IfOk result (λ event. Happens self.old line.now event self.new) }
    {
        let Shown { word, steps } = self.answer(line)?;
        Ok(Event {
            line: line.copy()?,
            word,
            steps,
        })
    }

    // Refuses a run whose frames pass the limit.
    fn check_frames(&self) -> Result<(), RunFault>
        ensures ok { OnOk result (frame_bytes self.now.sent ≤ frame_limit) }
        ensures err { OnErr result (frame_limit < frame_bytes self.now.sent) }
    {
        if self.sent.pass_limit() {
            Err(RunFault::TooLarge)
        } else {
            Ok(())
        }
    }

    fn alloc(&self) -> Global {
        *self.machines.allocator()
    }

    // What comes of a line, by its form.
    fn answer(&mut self, line: &Line) -> Result<Shown, NoMemory>
        ensures { IfOk result (λ shown. ComesOf line.now self.old (record { word = shown.word; steps = shown.steps; after = self.new })) }
    {
        match line {
            Line::Cluster(_) | Line::End => Ok(without_steps(self.alloc(), Word::Done)),
            Line::Request { replica, request } => self.request(*replica, request),
            Line::Tick(replica) => Ok(self.tick(*replica)),
            Line::Suspect(replica) => Ok(self.suspect(*replica)),
            Line::Deliver { replica, message } => self.deliver(*replica, *message),
            Line::Batch(replica) => self.step(*replica, Stage::Batch),
            Line::Protocol(replica) => self.step(*replica, Stage::Protocol),
            Line::Service(replica) => self.step(*replica, Stage::Service),
            Line::Retransmit(replica) => self.step(*replica, Stage::Retransmit),
            Line::Crash(replica) => self.crash(*replica),
            Line::Start(replica) => self.start_replica(*replica),
        }
    }

    // The word that would answer an item for the lane of a stage.
    fn room(&self, replica: ReplicaId, stage: Stage) -> Word
        ensures { result ≡ word_for_item (replica_at self.now replica) stage }
    {
        match self.machines.get(replica as usize) {
            Some(machine) => machine.room(stage),
            None => Word::Down,
        }
    }

    // Puts an item in a lane of a replica.
    fn put(&mut self, replica: ReplicaId, stage: Stage, item: LaneItem) -> Shown
        requires { is_kind_of stage item ≡ true }
        ensures { Puts stage item self.old replica (record { word = result.word; steps = result.steps; after = self.new }) }
    {
        let alloc = self.alloc();
        let Some(machine) = self.machines.get_mut(replica as usize) else {
            return without_steps(alloc, Word::Down);
        };
        let word = machine.put(stage, item);
        without_steps(alloc, word)
    }

    // Puts a request in the request lane. It is copied only where the lane has room.
    fn request(&mut self, replica: ReplicaId, request: &Request) -> Result<Shown, NoMemory>
        ensures { IfOk result (λ shown. Puts Stage.Batch (LaneItem.Fed (Fed.Request request.now)) self.old replica (record { word = shown.word; steps = shown.steps; after = self.new })) }
    {
        let word = self.room(replica, Stage::Batch);
        if word != Word::Done {
            return Ok(without_steps(self.alloc(), word));
        }
        let fed = Fed::Request(request.copy()?);
        Ok(self.put(replica, Stage::Batch, LaneItem::Fed(fed)))
    }

    // Puts a suspicion in the dispatcher lane.
    fn suspect(&mut self, replica: ReplicaId) -> Shown
        ensures { Puts Stage.Protocol (LaneItem.Item Item.Suspect) self.old replica (record { word = result.word; steps = result.steps; after = self.new }) }
    {
        self.put(replica, Stage::Protocol, LaneItem::Item(Item::Suspect))
    }

    // A tick goes into both lanes of a replica, or into neither.
    fn tick(&mut self, replica: ReplicaId) -> Shown
        ensures { AtUp (λ m a o. o ≡ ticks self.old replica m a) self.old replica (record { word = result.word; steps = result.steps; after = self.new }) }
    {
        let alloc = self.alloc();
        let Some(machine) = self.machines.get_mut(replica as usize) else {
            return without_steps(alloc, Word::Down);
        };
        let word = machine.tick();
        without_steps(alloc, word)
    }

    // Puts a message that was sent in the dispatcher lane of its addressee. It is copied only where the lane has room.
    fn deliver(&mut self, replica: ReplicaId, number: u64) -> Result<Shown, NoMemory>
        ensures { IfOk result (λ shown. Delivers (addressed replica (slice_get self.old.sent number)) self.old replica (record { word = shown.word; steps = shown.steps; after = self.new })) }
    {
        let Some(sent) = self.sent.addressed(number, replica) else {
            return Ok(without_steps(self.alloc(), Word::Unsent));
        };
        let word = self.room(replica, Stage::Protocol);
        if word != Word::Done {
            return Ok(without_steps(self.alloc(), word));
        }
        let item = sent.item()?;
        Ok(self.put(replica, Stage::Protocol, LaneItem::Item(item)))
    }

    // Shows what a replica did, and keeps what it sent.
    fn show(&mut self, replica: ReplicaId, did: Answer) -> Result<Shown, NoMemory>
        ensures shown { IfOk result (λ shown. shown ≡ record { word = did.word; steps = shown_by (length self.old.sent) did.acts }) }
        ensures after { OnOk result (self.new ≡ record self.old { sent = self.old.sent ++ sent_by replica did.acts }) }
    {
        let alloc = self.alloc();
        let steps = self.sent.show_all(alloc, replica, did.acts)?;
        Ok(Shown {
            word: did.word,
            steps,
        })
    }

    // One step of a stage of a replica.
    fn step(&mut self, replica: ReplicaId, stage: Stage) -> Result<Shown, NoMemory>
        ensures { IfOk result (λ shown. Takes stage self.old replica (record { word = shown.word; steps = shown.steps; after = self.new })) }
    {
        let alloc = self.alloc();
        let Some(machine) = self.machines.get_mut(replica as usize) else {
            return Ok(without_steps(alloc, Word::Down));
        };
        let did = machine.step(alloc, stage)?;
        self.show(replica, did)
    }

    // Ends the life of a replica that is up.
    fn crash(&mut self, replica: ReplicaId) -> Result<Shown, NoMemory>
        ensures { IfOk result (λ shown. AtUp (λ m a o. o ≡ crashes self.old replica m a) self.old replica (record { word = shown.word; steps = shown.steps; after = self.new })) }
    {
        let alloc = self.alloc();
        if self.replica(replica).is_none() {
            return Ok(without_steps(alloc, Word::Down));
        }
        if let Some(machine) = self.machines.get_mut(replica as usize) {
            machine.crash();
        }
        let mut steps = Listed::empty(alloc);
        steps.push(Step::Crash { replica })?;
        Ok(Shown {
            word: Word::Done,
            steps,
        })
    }

    // Begins the next life of a replica.
    fn start_replica(&mut self, replica: ReplicaId) -> Result<Shown, NoMemory>
        ensures { IfOk result (λ shown. Starts self.old replica (record { word = shown.word; steps = shown.steps; after = self.new })) }
    {
        let alloc = self.alloc();
        if replica >= self.head.n {
            return Ok(without_steps(alloc, Word::Up));
        }
        let config = config_of(&self.head, replica);
        let Some(machine) = self.machines.get_mut(replica as usize) else {
            return Ok(without_steps(alloc, Word::Up));
        };
        let did = machine.start(alloc, &config)?;
        self.show(replica, did)
    }

    /// The constants of the run.
    pub fn head(&self) -> Head
        ensures head { result ≡ self.now.head }
        ensures within { IsHead result }
    {
        self.head
    }

    /// Every message that was sent, numbered from 0.
    pub fn sent(&self) -> &[Sent]
        ensures { result.now ≡ self.now.sent }
    {
        self.sent.as_slice()
    }

    /// How many replicas are down or Recovering.
    pub fn away_count(&self) -> usize
        ensures { result ≡ count_by (λ m. is_away_by m.running) self.now.machines }
    {
        let mut count = 0usize;
        for machine in &self.machines {
            if machine.is_away() {
                count += 1;
            }
        }
        count
    }

    /// The replica of a number; `None` exactly where it is down.
    pub fn replica(&self, replica: ReplicaId) -> Option<&Replica>
        ensures { option_copied result ≡ replica_at self.now replica }
    {
        self.machines.get(replica as usize)?.replica()
    }

    /// What each replica ends with, `None` for one that is down.
    pub fn finish(self) -> Result<Listed<Option<Last>>, NoMemory>
        ensures { IfOk result (λ last. last ≡ lasts_of self.machines) }
    {
        let mut last = Listed::empty(*self.machines.allocator());
        for machine in self.machines {
            last.push(machine.finish())?;
        }
        Ok(last)
    }
}

/// Runs a schedule whole.
pub fn run_schedule(alloc: Global, schedule: &Schedule) -> Result<Run, RunFault>
    requires { IsHead schedule.now.head }
    ensures runs { IfOk result (λ run. Runs schedule.now run) }
    ensures lines { IfOk result (λ run. HasLines schedule.now run) }
    ensures large { result ≡ Err RunFault.TooLarge → RunsPast schedule.now }
{
    let (mut stepper, first) = Stepper::start(alloc, &schedule.head)?;
    let mut events = Listed::empty(alloc);
    events.push(first)?;
    for line in schedule.lines.as_slice() {
        events.push(stepper.event(line)?)?;
    }
    let last = stepper.finish()?;
    Ok(Run { events, last })
}

#[cfg(test)]
mod tests;
