//! The turn of a life: what it does with each item.

ghost use Rattle.std.specs.Prelude.{◌≡◌, IfOk, OnOk};
ghost use Rattle.protocol_core.specs.Turning.{alive_of, suspected_if_quiet, tick_counted, on_tick_working, on_tick_if_working, on_tick, may_wait, on_batch, on_item, turn};
ghost use Rattle.protocol_core.specs.Turned.{Does};

use crate::act::Act;
use crate::item::Item;
use crate::life::Life;
use crate::sending::send_to_all;
use jp_types::batch::Batch;
use jp_types::listed::Listed;
use jp_types::memory::NoMemory;
use jp_types::message::{Alive, Message};

/// After how many ticks without a message of its leader a life suspects it.
pub const QUIET_LIMIT: u8 = 10;

/// How many batches may wait.
pub const WAITING_LIMIT: usize = 64;

impl Life {
    // The leader's word that it is alive.
    fn alive_of(&self) -> Message
        ensures { result ≡ alive_of self.now }
    {
        Message::Alive(Alive {
            view: self.view,
            first_undecided: self.first_undecided(),
        })
    }

    // Suspects the leader, where it was quiet for so many ticks.
    fn suspect_if_quiet(&mut self, acts: &mut Listed<Act>) -> Result<(), NoMemory>
        ensures { OnOk result (Does (suspected_if_quiet self.old) self.new acts.old acts.new) }
    {
        if self.quiet == QUIET_LIMIT {
            self.suspect(acts)?;
        }
        Ok(())
    }

    // One more tick without the leader.
    fn count_tick(&mut self, acts: &mut Listed<Act>) -> Result<(), NoMemory>
        ensures { OnOk result (Does (tick_counted self.old) self.new acts.old acts.new) }
    {
        if self.quiet < QUIET_LIMIT {
            self.quiet += 1;
            self.suspect_if_quiet(acts)?;
        }
        Ok(())
    }

    // A leader says that it is alive, and another Working life counts the tick.
    fn on_tick_working(&mut self, acts: &mut Listed<Act>) -> Result<(), NoMemory>
        ensures { OnOk result (Does (on_tick_working self.old) self.new acts.old acts.new) }
    {
        if self.leads_own() {
            send_to_all(&self.config, &self.alive_of(), acts)
        } else {
            self.count_tick(acts)
        }
    }

    // What a Working life does with a tick.
    fn on_tick_if_working(&mut self, acts: &mut Listed<Act>) -> Result<(), NoMemory>
        ensures { OnOk result (Does (on_tick_if_working self.old) self.new acts.old acts.new) }
    {
        if self.works() {
            self.on_tick_working(acts)?;
        }
        Ok(())
    }

    // A tick: what a Working life does, and then a query where one is due.
    fn on_tick(&mut self, acts: &mut Listed<Act>) -> Result<(), NoMemory>
        ensures { OnOk result (Does (on_tick self.old) self.new acts.old acts.new) }
    {
        self.on_tick_if_working(acts)?;
        self.query_if_due(acts)
    }

    // Whether a closed batch may wait.
    fn may_wait(&self) -> bool
        ensures { result ≡ may_wait self.now }
    {
        self.works() && self.proposer.is_leading() && self.waiting.len() < WAITING_LIMIT
    }

    // A closed batch waits, or is dropped.
    fn on_batch(&mut self, batch: Batch) -> Result<(), NoMemory>
        ensures { OnOk result (self.new ≡ on_batch self.old batch) }
    {
        if self.may_wait() {
            self.waiting.push(batch)?;
        }
        Ok(())
    }

    // What is done with an item.
    fn on_item(&mut self, item: Item, acts: &mut Listed<Act>) -> Result<(), NoMemory>
        ensures { OnOk result (Does (on_item self.old item) self.new acts.old acts.new) }
    {
        match item {
            Item::Message { from, message } => self.on_message(from, message, acts),
            Item::Batch(batch) => self.on_batch(batch),
            Item::Tick => self.on_tick(acts),
            Item::Suspect => self.suspect(acts),
            Item::Snapshot { upto, bytes } => {
                self.on_snapshot(upto, bytes);
                Ok(())
            }
        }
    }

    // The item, and then settling.
    fn take(&mut self, item: Item, room: usize, acts: &mut Listed<Act>) -> Result<(), NoMemory>
        ensures { OnOk result (Does (turn self.old item room) self.new acts.old acts.new) }
    {
        self.on_item(item, acts)?;
        self.settle(room, acts)
    }

    /// A turn: what is done with the item, and then settling, which hands on at most `room` decisions. The answer is what
    /// the life does, in order. After an error the life is to be dropped.
    pub fn turn(&mut self, item: Item, room: usize) -> Result<Listed<Act>, NoMemory>
        ensures life { OnOk result (self.new ≡ (turn self.old item room).life) }
        ensures acts { IfOk result (λ acts. acts ≡ (turn self.old item room).acts) }
    {
        let mut acts = Listed::empty(self.alloc());
        self.take(item, room, &mut acts)?;
        Ok(acts)
    }
}

#[cfg(test)]
mod tests {
    use super::*;
    use crate::config::Config;
    use crate::starting::start;
    use jp_types::command::{Command, Request};
    use jp_types::memory::Duplicate;
    use jp_types::message::{Recovery, ReplicaId};
    use jp_types::mode::{Mode, Phase};
    use jp_types::octets::Octets;
    use kv_service::state::State;
    use std::alloc::Global;
    use std::collections::VecDeque;
    use std::test::Fail;

    #[derive(Drop)]
    struct Sent {
        from: ReplicaId,
        to: ReplicaId,
        message: Message,
    }

    // Three lives, the messages on their way between them, and how many decisions each replica was handed.
    #[derive(Drop)]
    struct Net {
        alloc: Global,
        mode: Mode,
        lives: Vec<Life>,
        sent: VecDeque<Sent>,
        handed: [u64; 3],
    }

    fn config(mode: Mode, me: ReplicaId) -> Config {
        Config {
            n: 3,
            me: me.min(2),
            mode,
            window: 4,
        }
    }

    impl Net {
        fn new(alloc: Global, mode: Mode) -> Result<Net, Fail> {
            let mut net = Net {
                alloc,
                mode,
                lives: Vec::new(alloc),
                sent: VecDeque::new(alloc),
                handed: [0; 3],
            };
            for me in 0u8..3 {
                let (life, acts) = started(alloc, config(mode, me), None)?;
                net.lives.push(life)?;
                net.keep(me, acts)?;
            }
            Ok(net)
        }

        // The messages of a life are on their way, and its decisions are counted.
        fn keep(&mut self, from: ReplicaId, acts: Listed<Act>) -> Result<(), Fail> {
            for act in acts.into_vec() {
                match act {
                    Act::Send { to, message } => {
                        self.sent.push_back(Sent { from, to, message })?;
                    }
                    Act::Hand(_) => self.count(from),
                    _ => {}
                }
            }
            Ok(())
        }

        fn count(&mut self, at: ReplicaId) {
            if let Some(handed) = self.handed.get_mut(at as usize) {
                *handed = handed.saturating_add(1);
            }
        }

        fn turn(&mut self, at: ReplicaId, item: Item) -> Result<(), Fail> {
            if let Some(life) = self.lives.get_mut(at as usize) {
                let acts = life.turn(item, 64)?;
                self.keep(at, acts)?;
            }
            Ok(())
        }

        // A turn, and then all messages come.
        fn take(&mut self, at: ReplicaId, item: Item) -> Result<(), Fail> {
            self.turn(at, item)?;
            for _ in 0..200 {
                let Some(sent) = self.sent.pop_front() else {
                    return Ok(());
                };
                let (from, message) = (sent.from, sent.message);
                self.turn(sent.to, Item::Message { from, message })?;
            }
            Ok(())
        }

        // The last replica starts anew, and asks the others a second time.
        fn restart(&mut self) -> Result<(), Fail> {
            let (life, acts) = started(self.alloc, config(self.mode, 2), Some(1))?;
            let mark = life.mark;
            self.lives.pop();
            self.lives.push(life)?;
            self.keep(2, acts)?;
            self.take(2, Item::Tick)?;
            for at in 0u8..2 {
                let message = Message::Recovery(Recovery { mark });
                self.turn(at, Item::Message { from: 2, message })?;
            }
            self.take(2, Item::Tick)
        }
    }

    fn started(
        alloc: Global,
        config: Config,
        stored: Option<u64>,
    ) -> Result<(Life, Listed<Act>), Fail> {
        match start(alloc, config, stored) {
            Ok(opened) => Ok(opened),
            Err(_) => Err("a life starts".into()),
        }
    }

    fn batch(alloc: Global, number: u64) -> Result<Batch, NoMemory> {
        let mut batch = Batch::empty(alloc);
        let key = Octets::from_slice(alloc, b"k")?;
        batch.push(Request {
            client: 1,
            number,
            command: Command::Get { key },
        })?;
        Ok(batch)
    }

    #[test]
    fn lives_agree_and_come_back(rt: HostRuntime) -> Result<(), Fail> {
        let alloc = rt.alloc();
        // the mode, whether the logs are cut, and how many decisions the life that comes back is handed
        let lines = [(Mode::ViewSs, false, 2u64), (Mode::EpochSs, true, 1)];
        for (mode, cut, again) in lines {
            let mut net = Net::new(alloc, mode)?;
            let mut state = State::new(alloc);
            net.take(0, Item::Tick)?;
            for leader in 0u8..2 {
                let batch = batch(alloc, leader as u64 + 1)?;
                assert!(rt; state.executed() < 2);
                state.execute(&batch)?;
                net.take(leader, Item::Suspect)?;
                net.take(leader, Item::Batch(batch))?;
                for at in 0u8..2 {
                    if cut {
                        let upto = state.executed();
                        let bytes = state.to_bytes()?;
                        net.take(at, Item::Snapshot { upto, bytes })?;
                    }
                }
            }
            assert_eq!(rt; net.handed, [2, 2, 2], "{mode:?}");
            net.handed = [0; 3];
            net.restart()?;
            assert_eq!(rt; net.handed, [0, 0, again], "{mode:?}");
            assert!(rt;
                net.lives.iter().all(|life| life.phase == Phase::Working),
                "{mode:?}"
            );
        }
        Ok(())
    }
}
