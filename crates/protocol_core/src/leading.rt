//! Leading a view: raising to it, and phase 1.

ghost use Rattle.std.specs.Prelude.{◌≡◌, OnOk};
ghost use Rattle.protocol_core.specs.Leading.{prepare_of, begun_from, phase_1_begun, saved_view, entered, led_or_dropped, raised_to, raised_up_to, raised_if, suspected};
ghost use Rattle.protocol_core.specs.Turned.{Does};

use crate::act::{Act, Topic};
use crate::life::Life;
use crate::sending::send_and_arm;
use jp_types::listed::Listed;
use jp_types::memory::NoMemory;
use jp_types::message::{Instance, Message, View};
use jp_types::mode::Mode;
use paxos_world::step::Step;

impl Life {
    // Begins phase 1 in the own view, from an instance on.
    fn begin_from(&mut self, first: Instance, acts: &mut Listed<Act>) -> Result<(), NoMemory>
        ensures { OnOk result (Does (begun_from self.old first) self.new acts.old acts.new) }
    {
        let prepare = self.proposer.start(self.view, first, self.mark);
        acts.push(Act::Step(Step::Promise {
            replica: self.config.me,
            view: self.view,
        }))?;
        send_and_arm(
            &self.config,
            Topic::Prepare,
            Message::Prepare(prepare),
            acts,
        )
    }

    /// Begins phase 1 in the own view, from the first undecided instance on.
    pub fn begin_phase_1(&mut self, acts: &mut Listed<Act>) -> Result<(), NoMemory>
        ensures { OnOk result (Does (phase_1_begun self.old) self.new acts.old acts.new) }
    {
        let first = self.first_undecided();
        self.begin_from(first, acts)
    }

    // In ViewSS a view is saved before any message of it goes out.
    fn save_view(&mut self, view: View, acts: &mut Listed<Act>) -> Result<(), NoMemory>
        ensures { OnOk result (Does (saved_view self.old view) self.new acts.old acts.new) }
    {
        if self.config.mode == Mode::ViewSs && self.stable < view {
            self.stable = view;
            acts.push(Act::Save(view))?;
        }
        Ok(())
    }

    // Enters a view, leading nothing yet. What was repeated in the one before is cancelled.
    fn enter(&mut self, view: View, acts: &mut Listed<Act>) -> Result<(), NoMemory>
        ensures { OnOk result (Does (entered self.old view) self.new acts.old acts.new) }
    {
        self.view = view;
        self.proposer.leave();
        self.quiet = 0;
        acts.push(Act::Step(Step::Enter {
            replica: self.config.me,
            view,
        }))?;
        acts.push(Act::Cancel(Topic::Prepare))?;
        acts.push(Act::CancelProposes)
    }

    // The leader of the own view begins phase 1, and any other drops what waits.
    fn lead_or_drop(&mut self, acts: &mut Listed<Act>) -> Result<(), NoMemory>
        ensures { OnOk result (Does (led_or_dropped self.old) self.new acts.old acts.new) }
    {
        if self.leads_own() {
            self.begin_phase_1(acts)
        } else {
            self.drop_waiting();
            Ok(())
        }
    }

    // Raises to a view that is above the own one.
    fn raise_to(&mut self, view: View, acts: &mut Listed<Act>) -> Result<(), NoMemory>
        ensures { OnOk result (Does (raised_to self.old view) self.new acts.old acts.new) }
    {
        self.save_view(view, acts)?;
        self.enter(view, acts)?;
        self.lead_or_drop(acts)
    }

    /// A Working life whose view is below this one is raised to it.
    pub fn raise_up_to(&mut self, view: View, acts: &mut Listed<Act>) -> Result<(), NoMemory>
        ensures { OnOk result (Does (raised_up_to self.old view) self.new acts.old acts.new) }
    {
        if self.works() && self.view < view {
            self.raise_to(view, acts)?;
        }
        Ok(())
    }

    // Raises to a view, if there is one.
    fn raise_if(&mut self, view: Option<View>, acts: &mut Listed<Act>) -> Result<(), NoMemory>
        ensures { OnOk result (Does (raised_if self.old view) self.new acts.old acts.new) }
    {
        match view {
            Some(view) => self.raise_to(view, acts),
            None => Ok(()),
        }
    }

    /// Suspects the leader: a Working life is raised to the next view that it leads.
    pub fn suspect(&mut self, acts: &mut Listed<Act>) -> Result<(), NoMemory>
        ensures { OnOk result (Does (suspected self.old) self.new acts.old acts.new) }
    {
        if self.works() {
            let view = self.config.next_led(self.view);
            self.raise_if(view, acts)?;
        }
        Ok(())
    }
}
