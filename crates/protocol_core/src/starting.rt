//! How a life begins.

ghost use Rattle.std.specs.Prelude.{◌≡◌, ◌↔◌, ℕ, Some, Err, IfOk, OnOk};
ghost use Rattle.protocol_core.specs.declared.starting.StartFault.TheVariants as fault;
ghost use Rattle.protocol_core.specs.Starting.{new_life, led, recovery_of, opened_in, opened, opening, IsSpent};
ghost use Rattle.protocol_core.specs.Turned.{Does};

use crate::act::{Act, Topic};
use crate::config::Config;
use crate::life::Life;
use crate::queue::Queue;
use crate::sending::send_and_arm;
use jp_types::listed::Listed;
use jp_types::memory::NoMemory;
use jp_types::message::{Mark, Message, Recovery};
use jp_types::mode::Phase;
use paxos_world::step::Step;
use proposer_core::proposer::Proposer;
use recovery::begin::{Started, begin};
use recovery::rejoiner::Rejoiner;
use replica_log::log::ReplicaLog;
use std::alloc::Global;

/// Why no life begins.
#[derive(Clone, Copy, Debug, PartialEq, Eq)]
pub enum StartFault {
    /// The disk holds this number, and the next one to save would pass the limit: the replica can't start again.
    Spent(u64),
    NoMemory,
}

impl From<NoMemory> for StartFault {
    ghost from_gives = { λ _ f. f ≡ fault.NoMemory };

    fn from(_error: NoMemory) -> StartFault {
        StartFault::NoMemory
    }
}

impl Life {
    // A life that begins so.
    fn new(alloc: Global, config: Config, started: &Started) -> Result<Life, NoMemory>
        ensures { IfOk result (λ life. life ≡ new_life config started.now) }
    {
        Ok(Life {
            config,
            phase: started.phase,
            mark: started.mark,
            view: started.view,
            stable: started.mark,
            vector: started.vector,
            log: ReplicaLog::new(alloc, config.n)?,
            proposer: Proposer::new(alloc, config.n, config.me, config.window)?,
            rejoiner: Rejoiner::new(alloc, config.n, started.mark)?,
            horizon: 0,
            quiet: 0,
            queries: 0,
            waiting: Queue::new(alloc),
            newest: None,
            joiner: None,
            handed: 0,
        })
    }

    // The leader of the own view begins phase 1.
    fn lead(&mut self, acts: &mut Listed<Act>) -> Result<(), NoMemory>
        ensures { OnOk result (Does (led self.old) self.new acts.old acts.new) }
    {
        if self.leads_own() {
            self.begin_phase_1(acts)?;
        }
        Ok(())
    }

    // What the life does first.
    fn open(&mut self, acts: &mut Listed<Act>) -> Result<(), NoMemory>
        ensures { OnOk result (Does (opened_in self.old.phase self.old) self.new acts.old acts.new) }
    {
        match self.phase {
            Phase::Working => {
                acts.push(Act::Step(Step::First {
                    replica: self.config.me,
                }))?;
                self.lead(acts)
            }
            Phase::Recovering => {
                acts.push(Act::Step(Step::Return {
                    replica: self.config.me,
                    mark: self.mark,
                }))?;
                send_and_arm(&self.config, Topic::Recovery, recovery_of(self.mark), acts)
            }
        }
    }
}

// The Recovery of a life.
fn recovery_of(mark: Mark) -> Message
    ensures { result ≡ recovery_of mark }
{
    Message::Recovery(Recovery { mark })
}

// The life that begins so, and what it does first. Its mark is saved before anything is sent.
fn open(alloc: Global, config: Config, started: &Started) -> Result<(Life, Listed<Act>), NoMemory>
    ensures { IfOk result (λ made. (made.0 ≡ (opened config started.now).life) × (made.1 ≡ (opened config started.now).acts)) }
{
    let mut life = Life::new(alloc, config, started)?;
    let mut acts = Listed::empty(alloc);
    acts.push(Act::Save(started.mark))?;
    life.open(&mut acts)?;
    Ok((life, acts))
}

/// Begins a life of a replica whose disk holds this number, if any: the life, and what it does first.
pub fn start(
    alloc: Global,
    config: Config,
    stored: Option<u64>,
) -> Result<(Life, Listed<Act>), StartFault>
    ensures ok { IfOk result (λ made. opening config stored ≡ Some (record { life = made.0; acts = made.1 })) }
    ensures spent { (number : ℕ) → (result ≡ Err (fault.Spent number)) ↔ IsSpent config stored number }
{
    match begin(config.mode, config.me, config.n, stored) {
        Some(started) => Ok(open(alloc, config, &started)?),
        None => Err(StartFault::Spent(stored.unwrap_or(0))),
    }
}

#[cfg(test)]
mod tests {
    use super::*;
    use jp_types::message::{ReplicaId, View};
    use jp_types::mode::Mode;
    use jp_types::views::NUMBER_LIMIT;

    // The mark and the view of a life that begins, and how many acts it begins with.
    fn told(
        alloc: Global,
        mode: Mode,
        me: ReplicaId,
        stored: Option<u64>,
    ) -> Result<(Mark, View, usize), StartFault> {
        let config = Config {
            n: 3,
            me: me.min(2),
            mode,
            window: 8,
        };
        let (life, acts) = start(alloc, config, stored)?;
        Ok((life.mark, life.view, acts.as_slice().len()))
    }

    #[test]
    fn lives_begin(rt: HostRuntime) {
        let (view, epoch) = (Mode::ViewSs, Mode::EpochSs);
        let spent = Err(StartFault::Spent(NUMBER_LIMIT));
        // a mode, a replica of three, the number on its disk; the mark, the view and how many acts there are
        let lines = [
            (view, 0u8, None, Ok((0u64, 0u64, 6usize))),
            (epoch, 1, None, Ok((1, 0, 2))),
            (view, 1, Some(0), Ok((2, 2, 5))),
            (epoch, 0, Some(1), Ok((2, 0, 5))),
            (epoch, 2, Some(NUMBER_LIMIT), spent),
            (view, 2, Some(NUMBER_LIMIT), spent),
        ];
        for (mode, me, stored, want) in lines {
            assert_eq!(rt;
                told(rt.alloc(), mode, me, stored),
                want,
                "{me} after {stored:?}"
            );
        }
    }
}
