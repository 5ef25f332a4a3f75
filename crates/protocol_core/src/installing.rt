//! Snapshots: of other replicas, in parts, and of the own service.

ghost use Rattle.std.specs.Prelude.{◌≡◌, ◌<◌, ◌≤◌, true, IfOk, IfSome, OnOk};
ghost use Rattle.jp_types.specs.Views.{number_limit};
ghost use Rattle.kv_service.specs.StateReading.{state_in};
ghost use Rattle.replica_log.specs.Log.{first_undecided};
ghost use Rattle.snapshots.specs.Joining.{part_fault};
ghost use Rattle.protocol_core.specs.CatchingUp.{is_joining_above, is_wanted, joiner_for, after_part, joined_by, is_state_at, installed, installed_if, joined, part_put, on_part, place_of, is_taken, on_snapshot};
ghost use Rattle.protocol_core.specs.Turned.{Does};

use crate::act::{Act, Topic};
use crate::life::{Life, Snapshot};
use jp_types::listed::Listed;
use jp_types::memory::NoMemory;
use jp_types::message::{Instance, SnapshotPart};
use jp_types::octets::Octets;
use kv_service::fault::StateFault;
use kv_service::state::State;
use paxos_world::step::Step;
use snapshots::joiner::{Joiner, PartFault};
use std::alloc::Global;

impl Life {
    // Installs a snapshot of another replica.
    fn install(
        &mut self,
        upto: Instance,
        bytes: Octets,
        acts: &mut Listed<Act>,
    ) -> Result<(), NoMemory>
        requires beyond { first_undecided self.old.log < upto }
        requires limit { upto ≤ number_limit }
        ensures { OnOk result (Does (installed self.old upto bytes) self.new acts.old acts.new) }
    {
        self.log.jump(upto);
        self.newest = Some(Snapshot {
            place: upto,
            bytes,
            installed: true,
        });
        acts.push(Act::Cancel(Topic::Query))?;
        acts.push(Act::Step(Step::Install {
            replica: self.config.me,
            upto,
        }))
    }

    // Installs joined bytes, where they are a state of this place. Other bytes are dropped.
    fn install_if(
        &mut self,
        upto: Instance,
        bytes: Octets,
        acts: &mut Listed<Act>,
    ) -> Result<(), NoMemory>
        requires { first_undecided self.old.log < upto }
        ensures { OnOk result (Does (installed_if self.old upto bytes) self.new acts.old acts.new) }
    {
        if is_state_at(self.alloc(), upto, &bytes)? {
            self.install(upto, bytes, acts)?;
        }
        Ok(())
    }

    // Keeps a joiner while it lacks parts. The whole bytes take its place.
    fn join(
        &mut self,
        upto: Instance,
        joiner: Joiner,
        bytes: Option<Octets>,
        acts: &mut Listed<Act>,
    ) -> Result<(), NoMemory>
        requires { first_undecided self.old.log < upto }
        ensures { OnOk result (Does (joined self.old upto joiner bytes) self.new acts.old acts.new) }
    {
        match bytes {
            Some(bytes) => {
                self.joiner = None;
                self.install_if(upto, bytes, acts)
            }
            None => {
                self.joiner = Some(joiner);
                Ok(())
            }
        }
    }

    // Puts a part into its joiner.
    fn put_part(&mut self, part: &SnapshotPart, acts: &mut Listed<Act>) -> Result<(), NoMemory>
        requires { first_undecided self.old.log < part.now.upto }
        ensures { OnOk result (Does (part_put self.old (joiner_for self.old.joiner part.now) part.now) self.new acts.old acts.new) }
    {
        let mut joiner = joiner_for(self.alloc(), self.joiner.take(), part)?;
        let bytes = put(&mut joiner, part)?;
        self.join(part.upto, joiner, bytes, acts)
    }

    /// A part of a snapshot: it is passed over where its place is not above the first undecided instance, or is below the
    /// joiner's.
    pub fn on_part(&mut self, part: &SnapshotPart, acts: &mut Listed<Act>) -> Result<(), NoMemory>
        ensures { OnOk result (Does (on_part self.old part.now) self.new acts.old acts.new) }
    {
        if self.first_undecided() < part.upto && !is_joining_above(&self.joiner, part.upto) {
            self.put_part(part, acts)?;
        }
        Ok(())
    }

    /// A snapshot of the own service: where its place is above the newest one's and all below it is known, the log is cut
    /// below the newest one's place, and it is the newest.
    pub fn on_snapshot(&mut self, upto: Instance, bytes: Octets)
        ensures { self.new ≡ on_snapshot self.old upto bytes }
    {
        let place = place_of(&self.newest);
        if self.log.base() <= place && place < upto && upto <= self.first_undecided() {
            self.log.cut(place);
            self.newest = Some(Snapshot {
                place: upto,
                bytes,
                installed: false,
            });
        }
    }
}

/// The state that bytes hold, if they hold one.
pub fn state_in(alloc: Global, bytes: &Octets) -> Result<Option<State>, NoMemory>
    ensures value { IfOk result (λ state. state ≡ state_in bytes.now) }
    ensures within { IfOk result (λ found. IfSome found (λ state. state.executed ≤ number_limit)) }
{
    match State::from_bytes(alloc, bytes.bytes()) {
        Ok(state) => Ok(Some(state)),
        Err(StateFault::NoMemory) => Err(NoMemory),
        Err(_) => Ok(None),
    }
}

// Whether bytes hold a state that has executed all below this place and nothing else.
fn is_state_at(alloc: Global, upto: Instance, bytes: &Octets) -> Result<bool, NoMemory>
    ensures value { IfOk result (λ is. is ≡ is_state_at upto (state_in bytes.now)) }
    ensures within { result ≡ Ok true → upto ≤ number_limit }
{
    match state_in(alloc, bytes)? {
        Some(state) => Ok(state.executed() == upto),
        None => Ok(false),
    }
}

// The place of the newest snapshot, and 0 where there is none.
fn place_of(newest: &Option<Snapshot>) -> Instance
    ensures { result ≡ place_of newest.now }
{
    match newest {
        Some(snapshot) => snapshot.place,
        None => 0,
    }
}

// Whether there is a joiner for a higher place.
fn is_joining_above(joiner: &Option<Joiner>, upto: Instance) -> bool
    ensures { result ≡ is_joining_above joiner.now upto }
{
    match joiner {
        Some(joiner) => upto < joiner.upto(),
        None => false,
    }
}

// The joiner that a part goes to: the held one, where that is of the part's place, and else a new one.
fn joiner_for(alloc: Global, held: Option<Joiner>, part: &SnapshotPart) -> Result<Joiner, NoMemory>
    ensures value { IfOk result (λ joiner. joiner ≡ joiner_for held part.now) }
    ensures place { IfOk result (λ joiner. part.now.upto ≡ joiner.upto) }
{
    match held {
        Some(joiner) if joiner.upto() == part.upto => Ok(joiner),
        _ => Joiner::new(alloc, part.upto, part.total),
    }
}

// Puts a part into its joiner, and gives the whole bytes where it holds all parts then. A part that is refused changes
// nothing.
fn put(joiner: &mut Joiner, part: &SnapshotPart) -> Result<Option<Octets>, NoMemory>
    requires { part.now.upto ≡ joiner.old.upto }
    ensures whole { IfOk result (λ bytes. bytes ≡ joined_by (part_fault joiner.old part.now) joiner.old part.now) }
    ensures after { OnOk result (joiner.new ≡ after_part (part_fault joiner.old part.now) joiner.old part.now) }
{
    match joiner.put(part) {
        Ok(bytes) => Ok(bytes),
        Err(PartFault::NoMemory) => Err(NoMemory),
        Err(_) => Ok(None),
    }
}
