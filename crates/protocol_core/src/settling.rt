//! Settling, at the end of each turn: rejoining, becoming Prepared, proposing what waits, and handing on.

ghost use Rattle.std.specs.Prelude.{◌≡◌, drop, if◌then◌else◌, is_some, IfOk, OnOk};
ghost use Rattle.std.specs.List.{slice_get};
ghost use Rattle.std.specs.Option.{option_copied, option_zip};
ghost use Rattle.protocol_core.specs.Settling.{rejoin_due, rejoin_saved, rejoin_shown, rejoined_in, settled_rejoin, learned_as_told, launched_as_adopted, launched_each, prepared_shown, prepared_with, adoption_due, with_adoption, settled_prepared, open_place, with_waiting, settled_waiting, install_above, install_handing, decided_handing, next_handing, handed_on, settled_handing, settled};
ghost use Rattle.protocol_core.specs.Turned.{Does};

use crate::act::{Act, Topic};
use crate::installing::state_in;
use crate::life::{Life, Snapshot};
use jp_types::batch::Batch;
use jp_types::listed::Listed;
use jp_types::memory::{Duplicate, NoMemory};
use jp_types::message::{Instance, View};
use jp_types::mode::{Mode, Phase};
use paxos_world::step::Step;
use proposer_core::adoption::{Adopted, Launch};
use replica_log::log::ReplicaLog;
use service_manager::decision::Decision;
use std::alloc::Global;

impl Life {
    // The view in which the life rejoins, where it is Recovering and the condition holds.
    fn rejoin_due(&self) -> Option<View>
        ensures { result ≡ rejoin_due self.now }
    {
        if self.phase == Phase::Recovering {
            self.rejoiner.rejoins(&self.vector, self.first_undecided())
        } else {
            None
        }
    }

    // In ViewSS a view above the mark is saved before the life is Working in it.
    fn save_rejoin(&mut self, view: View, acts: &mut Listed<Act>) -> Result<(), NoMemory>
        ensures { OnOk result (Does (rejoin_saved self.old view) self.new acts.old acts.new) }
    {
        if self.config.mode == Mode::ViewSs && self.mark < view {
            self.stable = view;
            acts.push(Act::Save(view))?;
        }
        Ok(())
    }

    // The life is Working in this view. Its recovery is asked for no more.
    fn show_rejoin(&mut self, view: View, acts: &mut Listed<Act>) -> Result<(), NoMemory>
        ensures { OnOk result (Does (rejoin_shown view self.old) self.new acts.old acts.new) }
    {
        self.view = view;
        self.phase = Phase::Working;
        self.quiet = 0;
        acts.push(Act::Cancel(Topic::Recovery))?;
        acts.push(Act::Step(Step::Rejoin {
            replica: self.config.me,
            view,
        }))
    }

    // Rejoins in a view, if there is one.
    fn rejoin_in(&mut self, view: Option<View>, acts: &mut Listed<Act>) -> Result<(), NoMemory>
        ensures { OnOk result (Does (rejoined_in self.old view) self.new acts.old acts.new) }
    {
        match view {
            Some(view) => {
                self.save_rejoin(view, acts)?;
                self.show_rejoin(view, acts)
            }
            None => Ok(()),
        }
    }

    // Rejoins, where the condition holds.
    fn settle_rejoin(&mut self, acts: &mut Listed<Act>) -> Result<(), NoMemory>
        ensures { OnOk result (Does (settled_rejoin self.old) self.new acts.old acts.new) }
    {
        let view = self.rejoin_due();
        self.rejoin_in(view, acts)
    }

    // Learns a batch that a promise told as decided.
    fn learn_as_told(&mut self, launch: &Launch, acts: &mut Listed<Act>) -> Result<(), NoMemory>
        ensures { OnOk result (Does (learned_as_told self.old launch.now) self.new acts.old acts.new) }
    {
        if launch.decided {
            self.learn_if_open(launch.instance, &launch.batch, acts)?;
        }
        Ok(())
    }

    // Launches an instance with its adopted batch.
    fn launch_as_adopted(&mut self, launch: &Launch, acts: &mut Listed<Act>) -> Result<(), NoMemory>
        ensures { OnOk result (Does (launched_as_adopted self.old launch.now) self.new acts.old acts.new) }
    {
        self.learn_as_told(launch, acts)?;
        self.launch(launch.instance, launch.batch.copy()?, acts)
    }

    // Launches the adopted batches, in order.
    fn launch_each(&mut self, launches: &[Launch], acts: &mut Listed<Act>) -> Result<(), NoMemory>
        ensures { OnOk result (Does (launched_each launches.now self.old) self.new acts.old acts.new) }
    {
        for launch in launches {
            self.launch_as_adopted(launch, acts)?;
        }
        Ok(())
    }

    // Shows that the life is Prepared. Its Prepare is repeated no more.
    fn show_prepared(&mut self, next: Instance, acts: &mut Listed<Act>) -> Result<(), NoMemory>
        ensures { OnOk result (Does (prepared_shown self.old next) self.new acts.old acts.new) }
    {
        acts.push(Act::Cancel(Topic::Prepare))?;
        acts.push(Act::Step(Step::Prepared {
            replica: self.config.me,
            view: self.view,
            next,
        }))
    }

    // Launches what the proposer adopted, if it did.
    fn prepare_with(
        &mut self,
        adopted: Option<Adopted>,
        acts: &mut Listed<Act>,
    ) -> Result<(), NoMemory>
        ensures { OnOk result (Does (prepared_with self.old adopted) self.new acts.old acts.new) }
    {
        match adopted {
            Some(adopted) => {
                self.show_prepared(adopted.next, acts)?;
                self.launch_each(adopted.launches.as_slice(), acts)
            }
            None => Ok(()),
        }
    }

    // What the proposer adopts, where it becomes Prepared.
    fn adopt(&mut self) -> Result<Option<Adopted>, NoMemory>
        ensures adopted { IfOk result (λ adopted. adopted ≡ adoption_due self.old) }
        ensures after { OnOk result (self.new ≡ with_adoption self.old) }
    {
        self.proposer.adopt(&self.log, &self.vector)
    }

    // Becomes Prepared, where the condition holds.
    fn settle_prepared(&mut self, acts: &mut Listed<Act>) -> Result<(), NoMemory>
        ensures { OnOk result (Does (settled_prepared self.old) self.new acts.old acts.new) }
    {
        let adopted = self.adopt()?;
        self.prepare_with(adopted, acts)
    }

    // Gives up the next place. The proposer keeps no batch, so that an empty one serves for the offer.
    fn give_place(&mut self)
        ensures { self.new ≡ with_waiting self.old self.old.waiting }
    {
        let batch = Batch::empty(self.alloc());
        let _place = self.proposer.offer(&self.log, batch);
    }

    // Takes the front waiting batch, where there is a place for it.
    fn take_front(&mut self) -> Option<(Instance, Batch)>
        ensures front { result ≡ option_zip (open_place self.old) (slice_get self.old.waiting 0) }
        ensures after { self.new ≡ (if is_some result then with_waiting self.old (drop 1 self.old.waiting) else self.old) }
    {
        let place = self.proposer.place(&self.log)?;
        let batch = self.waiting.pop()?;
        self.give_place();
        Some((place, batch))
    }

    // Launches the waiting batches in order, while there is a place for the next one.
    fn settle_waiting(&mut self, acts: &mut Listed<Act>) -> Result<(), NoMemory>
        ensures { OnOk result (Does (settled_waiting self.old) self.new acts.old acts.new) }
    {
        'places: while let Some((place, batch)) = self.take_front() {
            self.launch(place, batch, acts)?;
        }
        Ok(())
    }

    // The next decision to hand on, and what is handed on after it: the installed state, where that is above what was
    // handed on, or else the next known batch.
    fn next_handing(&self) -> Result<Option<(Decision, Instance)>, NoMemory>
        ensures { IfOk result (λ handing. handing ≡ next_handing self.now) }
    {
        match install_above(&self.newest, self.handed) {
            Some(snapshot) => install_handing(self.alloc(), snapshot),
            None => decided_handing(&self.log, self.handed),
        }
    }

    // Hands a decision on.
    fn hand(
        &mut self,
        handing: (Decision, Instance),
        acts: &mut Listed<Act>,
    ) -> Result<(), NoMemory>
        ensures { OnOk result (Does (handed_on self.old handing) self.new acts.old acts.new) }
    {
        self.handed = handing.1;
        acts.push(Act::Hand(handing.0))
    }

    // Hands on at most so many decisions.
    fn settle_handing(&mut self, room: usize, acts: &mut Listed<Act>) -> Result<(), NoMemory>
        ensures { OnOk result (Does (settled_handing room self.old) self.new acts.old acts.new) }
    {
        let mut left = room;
        'decisions: while left > 0 {
            let Some(handing) = self.next_handing()? else {
                return Ok(());
            };
            self.hand(handing, acts)?;
            left -= 1;
        }
        Ok(())
    }

    /// Settles: what the life does by itself once an item was taken. It hands on at most `room` decisions.
    pub fn settle(&mut self, room: usize, acts: &mut Listed<Act>) -> Result<(), NoMemory>
        ensures { OnOk result (Does (settled self.old room) self.new acts.old acts.new) }
    {
        self.settle_rejoin(acts)?;
        self.settle_prepared(acts)?;
        self.settle_waiting(acts)?;
        self.settle_handing(room, acts)
    }
}

// The newest snapshot, if it came from another replica and its place is above what was handed on.
fn install_above(newest: &Option<Snapshot>, handed: Instance) -> Option<&Snapshot>
    ensures { option_copied result ≡ install_above newest.now handed }
{
    match newest {
        Some(snapshot) if snapshot.installed && handed < snapshot.place => Some(snapshot),
        _ => None,
    }
}

// The state of a snapshot, to be installed.
fn install_handing(
    alloc: Global,
    snapshot: &Snapshot,
) -> Result<Option<(Decision, Instance)>, NoMemory>
    ensures { IfOk result (λ handing. handing ≡ install_handing snapshot.now) }
{
    let upto = snapshot.place;
    match state_in(alloc, &snapshot.bytes)? {
        Some(state) => Ok(Some((Decision::Install { upto, state }, upto))),
        None => Ok(None),
    }
}

// The known batch of an instance. What is known lies in span, so that it is no last number.
fn decided_handing(
    log: &ReplicaLog,
    instance: Instance,
) -> Result<Option<(Decision, Instance)>, NoMemory>
    ensures { IfOk result (λ handing. handing ≡ decided_handing log.now instance) }
{
    let _end = log.span_end();
    match log.known(instance) {
        Some(batch) => {
            let batch = batch.copy()?;
            Ok(Some((Decision::Decided { instance, batch }, instance + 1)))
        }
        None => Ok(None),
    }
}
