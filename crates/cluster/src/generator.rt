//! Schedules that are drawn by a seed, each line with the run's state at that point.

ghost use Rattle.std.specs.Prelude.{◌≡◌, ◌<◌, ◌≤◌, ◌^◌, ◌-◌, ℕ, suc, length, replicate, slice_index, slice_set, IfOk, IfSome, OnOk};
ghost use Rattle.cluster.specs.Drawing.{
  after_draw,
  AreLookedAt,
  delivers_again,
  delivers_next,
  drawn_head,
  ends_or_begins,
  first_drawing,
  IsBeingDrawn,
  IsDrawn,
  IsDrawnPast,
  late_line,
  line_for,
  MadeBelow,
  message_from,
  next_line,
  requests,
  Serves,
  suspects_or_ticks,
};
ghost use Rattle.cluster.specs.Frames.{frame_bytes, frame_limit};
ghost use Rattle.schedules.specs.Generator.{drawn, mode_of_seed, next_word};
ghost use Rattle.schedules.specs.Heads.{IsHead};
ghost use Rattle.cluster.specs.Runs.{OpensPast, PassesAt, Runs, RunsLine};
ghost use Rattle.cluster.specs.Stepping.{replica_at};

use crate::sent::Sent;
use crate::stepper::{RunFault, Stepper};
use jp_types::command::{Command, Request};
use jp_types::listed::Listed;
use jp_types::memory::NoMemory;
use jp_types::message::ReplicaId;
use jp_types::mode::Mode;
use jp_types::octets::Octets;
use jp_types::views::majority;
use schedules::event::{Event, Run};
use schedules::line::{Head, Line};
use schedules::schedule::Schedule;
use std::alloc::Global;
use std::marker::Model;

/// How many clients make requests.
const CLIENTS: u64 = 8;

/// How many instances a leader of a drawn schedule may have undecided at once.
const WINDOW: u8 = 8;

// ---- Draws

// The word after a draw.
#[tactic(auto, using(crate::proofs::DrawingLemmas::word_wraps))]
fn next_word(word: u64) -> u64
    ensures { result ≡ next_word word }
{
    word.wrapping_mul(6364136223846793005)
        .wrapping_add(1442695040888963407)
}

// What a word gives for a draw below a number. Below 0 it gives all its bits.
#[tactic(auto, using(crate::proofs::DrawingLemmas::drawn_below_none))]
fn drawn(word: u64, below: u64) -> u64
    ensures value { result ≡ drawn word below }
    ensures within { 0 < below → result < below }
{
    let bits = word >> 33;
    if below == 0 { bits } else { bits % below }
}

// EpochSS for an odd seed, else ViewSS.
fn mode_of_seed(seed: u64) -> Mode
    ensures { result ≡ mode_of_seed seed }
{
    if seed % 2 == 1 {
        Mode::EpochSs
    } else {
        Mode::ViewSs
    }
}

// The constants of the schedule that a seed draws.
fn drawn_head(seed: u64, n: u8) -> Head
    ensures { result ≡ drawn_head seed n }
{
    Head {
        n,
        mode: mode_of_seed(seed),
        window: WINDOW,
    }
}

// The number of the first message to a replica from a number on.
fn message_from(sent: &[Sent], from: u64, replica: ReplicaId) -> Option<u64>
    requires { from ≤ length sent.now }
    ensures value { result ≡ message_from replica from sent.now }
    ensures within { IfSome result (λ number. number < length sent.now) }
{
    let mut number = from;
    for message in &sent[from as usize..] {
        if message.to == replica {
            return Some(number);
        }
        number += 1;
    }
    None
}

// ---- The generator

/// What is drawn from, and what the lines so far decide of the next ones.
#[derive(Drop)]
struct Generator {
    alloc: Global,
    /// The word of 64 bits that draws are made from.
    word: u64,
    /// Of each replica, the number from which on messages to it are delivered next.
    from: Vec<u64>,
    /// Of each replica, how many messages were looked at for it, so that none is looked at twice. Of those from `from` on,
    /// none goes to it.
    seen: Vec<u64>,
    /// Of each client, how many requests it made.
    made: Vec<u64>,
}

impl Model for Generator {
    ghost use Rattle.std.specs.Prelude.{◌≡◌, length};
    ghost use Rattle.cluster.specs.Drawing.{Generating};

    ghost Value = { Generating };

    ghost view = { λ g. record { drawing = record { word = g.word; from = g.from.items; made = g.made.items }; seen = g.seen.items } };

    ghost invariant = { λ g. (length g.made.items ≡ 8) × (length g.seen.items ≡ length g.from.items) };
}

impl Generator {
    fn new(alloc: Global, seed: u64, n: u8) -> Result<Generator, NoMemory>
        ensures { IfOk result (λ g. g ≡ record { drawing = first_drawing seed n; seen = replicate n 0 }) }
    {
        Ok(Generator {
            alloc,
            word: seed,
            from: vec![in alloc; 0u64; usize::from(n)]?,
            seen: vec![in alloc; 0u64; usize::from(n)]?,
            made: vec![in alloc; 0u64; CLIENTS as usize]?,
        })
    }

    // A draw below a number.
    fn draw(&mut self, below: u64) -> u64
        ensures value { result ≡ drawn (after_draw self.old.drawing).word below }
        ensures within { 0 < below → result < below }
        ensures after { self.new ≡ record self.old { drawing = after_draw self.old.drawing } }
    {
        self.word = next_word(self.word);
        drawn(self.word, below)
    }

    // The next message to a replica is delivered, or where there is none its Protocol stage turns.
    fn deliver_next(&mut self, replica: ReplicaId, sent: &[Sent]) -> Line
        requires replica { replica < length self.old.seen }
        requires looked { AreLookedAt self.old sent.now }
        ensures line { (result, self.new.drawing) ≡ delivers_next (message_from replica (slice_index self.old.drawing.from replica) sent.now) replica self.old.drawing }
        ensures looked { AreLookedAt self.new sent.now }
        ensures replicas { length self.new.seen ≡ length self.old.seen }
    {
        let at = replica as usize;
        match message_from(sent, self.seen[at], replica) {
            Some(message) => {
                self.from[at] = message + 1;
                self.seen[at] = message + 1;
                Line::Deliver { replica, message }
            }
            None => {
                self.seen[at] = sent.len() as u64;
                Line::Protocol(replica)
            }
        }
    }

    // One request more of a client: its number.
    fn next_number(&mut self, client: u64) -> u64
        requires client { client < 8 }
        requires room { MadeBelow (2 ^ 64 - 1) self.old }
        ensures number { result ≡ suc (slice_index self.old.drawing.made client) }
        ensures after { self.new ≡ record self.old { drawing = record self.old.drawing { made = slice_set self.old.drawing.made client result } } }
    {
        let made = &mut self.made[client as usize];
        *made += 1;
        *made
    }

    // A request of a client: its next number, and a Put of a byte below 16.
    fn request(&mut self, replica: ReplicaId) -> Result<Line, NoMemory>
        requires { MadeBelow (2 ^ 64 - 1) self.old }
        ensures line { IfOk result (λ line. (line, self.new.drawing) ≡ requests replica self.old.drawing) }
        ensures seen { self.new.seen ≡ self.old.seen }
    {
        let client = self.draw(CLIENTS);
        let key = self.draw(16) as u8;
        let value = self.draw(256) as u8;
        let number = self.next_number(client);
        let command = Command::Put {
            key: Octets::from_slice(self.alloc, &[key])?,
            value: Octets::from_slice(self.alloc, &[value])?,
        };
        Ok(Line::Request {
            replica,
            request: Request {
                client,
                number,
                command,
            },
        })
    }

    // Any message is delivered once more.
    fn deliver_again(&mut self, sent: &[Sent]) -> Line
        ensures line { (result, self.new.drawing) ≡ delivers_again sent.now self.old.drawing }
        ensures seen { self.new.seen ≡ self.old.seen }
    {
        let message = self.draw(sent.len() as u64);
        let replica = match sent.get(message as usize) {
            Some(sent) => sent.to,
            None => 0,
        };
        Line::Deliver { replica, message }
    }

    // A suspicion, or more often a tick.
    fn suspect_or_tick(&mut self, replica: ReplicaId) -> Line
        ensures line { (result, self.new.drawing) ≡ suspects_or_ticks replica self.old.drawing }
        ensures seen { self.new.seen ≡ self.old.seen }
    {
        if self.draw(10) == 0 {
            Line::Suspect(replica)
        } else {
            Line::Tick(replica)
        }
    }

    // The line for a draw of 85 or more.
    fn late_line(&mut self, draw: u64, replica: ReplicaId, stepper: &Stepper) -> Line
        ensures line { (result, self.new.drawing) ≡ late_line draw replica stepper.now self.old.drawing }
        ensures seen { self.new.seen ≡ self.old.seen }
    {
        if draw < 93 {
            Line::Batch(replica)
        } else if draw < 95 {
            Line::Tick(replica)
        } else if draw < 97 {
            Line::Retransmit(replica)
        } else if draw == 97 {
            self.deliver_again(stepper.sent())
        } else if draw == 98 {
            end_or_begin(replica, stepper)
        } else {
            self.suspect_or_tick(replica)
        }
    }

    // The line for a draw below 100.
    fn line_for(
        &mut self,
        draw: u64,
        replica: ReplicaId,
        stepper: &Stepper,
    ) -> Result<Line, NoMemory>
        requires replica { replica < stepper.now.head.n }
        requires serves { Serves stepper.now self.old }
        requires room { MadeBelow (2 ^ 64 - 1) self.old }
        ensures line { IfOk result (λ line. (line, self.new.drawing) ≡ line_for draw replica stepper.now self.old.drawing) }
        ensures serves { OnOk result (Serves stepper.now self.new) }
    {
        if draw < 30 {
            Ok(self.deliver_next(replica, stepper.sent()))
        } else if draw < 70 {
            Ok(Line::Protocol(replica))
        } else if draw < 80 {
            Ok(Line::Service(replica))
        } else if draw < 85 {
            self.request(replica)
        } else {
            Ok(self.late_line(draw, replica, stepper))
        }
    }

    // The next line, by the run so far.
    fn next_line(&mut self, stepper: &Stepper) -> Result<Line, NoMemory>
        requires serves { Serves stepper.now self.old }
        requires room { MadeBelow (2 ^ 64 - 1) self.old }
        ensures line { IfOk result (λ line. (line, self.new.drawing) ≡ next_line stepper.now self.old.drawing) }
        ensures serves { OnOk result (Serves stepper.now self.new) }
    {
        let draw = self.draw(100);
        let replica = self.draw(u64::from(stepper.head().n)) as ReplicaId;
        self.line_for(draw, replica, stepper)
    }
}

// A replica that is down starts; one that is up crashes, where fewer than `n` less a majority are down or Recovering;
// else its Protocol stage turns.
fn end_or_begin(replica: ReplicaId, stepper: &Stepper) -> Line
    ensures { result ≡ ends_or_begins (replica_at stepper.now replica) replica stepper.now }
{
    let n = stepper.head().n;
    if stepper.replica(replica).is_none() {
        Line::Start(replica)
    } else if stepper.away_count() < usize::from(n - majority(n)) {
        Line::Crash(replica)
    } else {
        Line::Protocol(replica)
    }
}

// ---- Schedules

/// A schedule that is being drawn, and its run so far.
#[derive(Drop)]
struct DrawnRun {
    generator: Generator,
    stepper: Stepper,
    lines: Listed<Line>,
    events: Listed<Event>,
}

impl DrawnRun {
    // Before the first line is drawn.
    fn new(alloc: Global, seed: u64, head: &Head) -> Result<DrawnRun, RunFault>
        requires within { IsHead head.now }
        requires head { head.now ≡ drawn_head seed head.now.n }
        ensures ok { IfOk result (λ d. IsBeingDrawn seed head.now.n 0 d.generator d.stepper d.lines d.events) }
        ensures within { IfOk result (λ d. frame_bytes d.stepper.sent ≤ frame_limit) }
        ensures large { result ≡ Err RunFault.TooLarge → OpensPast head.now }
    {
        let generator = Generator::new(alloc, seed, head.n)?;
        let (stepper, first) = Stepper::start(alloc, head)?;
        let mut events = Listed::empty(alloc);
        events.push(first)?;
        Ok(DrawnRun {
            generator,
            stepper,
            lines: Listed::empty(alloc),
            events,
        })
    }

    // Runs a line, and keeps it.
    fn run(&mut self, line: Line) -> Result<(), RunFault>
        ensures ok { OnOk result (RunsLine line self.old.stepper self.old.lines self.old.events self.new.stepper self.new.lines self.new.events) }
        ensures within { OnOk result (frame_bytes self.new.stepper.sent ≤ frame_limit) }
        ensures generator { self.new.generator ≡ self.old.generator }
        ensures large { result ≡ Err RunFault.TooLarge → PassesAt line self.old.stepper }
    {
        let event = self.stepper.event(&line)?;
        self.events.push(event)?;
        self.lines.push(line)?;
        Ok(())
    }

    // One line more.
    fn draw_line(&mut self) -> Result<(), RunFault>
        requires serves { Serves self.old.stepper self.old.generator }
        requires room { MadeBelow (2 ^ 64 - 1) self.old.generator }
        ensures ok { OnOk result (RunsLine (next_line self.old.stepper self.old.generator.drawing).0 self.old.stepper self.old.lines self.old.events self.new.stepper self.new.lines self.new.events) }
        ensures within { OnOk result (frame_bytes self.new.stepper.sent ≤ frame_limit) }
        ensures drawing { OnOk result (self.new.generator.drawing ≡ (next_line self.old.stepper self.old.generator.drawing).1) }
        ensures serves { OnOk result (Serves self.old.stepper self.new.generator) }
        ensures large { result ≡ Err RunFault.TooLarge → PassesAt (next_line self.old.stepper self.old.generator.drawing).0 self.old.stepper }
    {
        let line = self.generator.next_line(&self.stepper)?;
        self.run(line)
    }
}

/// The schedule that a seed draws for `n` replicas, with so many lines between the first and the last, and its run.
pub fn generate_run(
    alloc: Global,
    seed: u64,
    n: u8,
    steps: u32,
) -> Result<(Schedule, Run), RunFault>
    requires some { 3 ≤ n }
    requires few { n ≤ 9 }
    ensures drawn { IfOk result (λ made. IsDrawn seed n steps made.0 made.1) }
    ensures runs { IfOk result (λ made. Runs made.0 made.1) }
    ensures large { result ≡ Err RunFault.TooLarge → IsDrawnPast seed n steps }
{
    let head = drawn_head(seed, n);
    let mut drawn = DrawnRun::new(alloc, seed, &head)?;
    for _ in 0..steps {
        drawn.draw_line()?;
    }
    drawn.run(Line::End)?;
    let last = drawn.stepper.finish()?;
    let schedule = Schedule {
        head,
        lines: drawn.lines,
    };
    let run = Run {
        events: drawn.events,
        last,
    };
    Ok((schedule, run))
}

/// The schedule that a seed draws for `n` replicas, with so many lines between the first and the last.
pub fn generate(alloc: Global, seed: u64, n: u8, steps: u32) -> Result<Schedule, RunFault>
    requires some { 3 ≤ n }
    requires few { n ≤ 9 }
    ensures drawn { IfOk result (λ schedule. (run : Run) × IsDrawn seed n steps schedule run) }
    ensures large { result ≡ Err RunFault.TooLarge → IsDrawnPast seed n steps }
{
    let (schedule, _run) = generate_run(alloc, seed, n, steps)?;
    Ok(schedule)
}

#[cfg(test)]
mod tests {
    use super::*;
    use schedules::summary::summary;
    use schedules::text::show;
    use std::test::Fail;

    // The summary of the run that a seed draws, for 3 to 9 replicas, and the text of the run of its schedule.
    fn told(alloc: Global, seed: u64, n: u8, steps: u32) -> Result<(Octets, Octets), Fail> {
        let (_schedule, run) = generate_run(alloc, seed, n.max(3).min(9), steps)?;
        Ok((summary(alloc, &run, seed)?, show(alloc, &run)?))
    }

    const ODD: &str = "seed 7 replicas 5 steps 300\n\
        done 77 empty 189 full 0 down 36 up 0 unsent 0\n\
        messages 17\n\
        replica 0 down\n\
        replica 1 working 0 0 0\n\
        replica 2 working 0 0 0\n\
        replica 3 working 0 0 0\n\
        replica 4 working 0 0 0\n";

    const EVEN: &str = "seed 10 replicas 3 steps 500\n\
        done 67 empty 249 full 0 down 186 up 0 unsent 0\n\
        messages 13\n\
        replica 0 down\n\
        replica 1 working 1 0 0\n\
        replica 2 working 1 0 0\n";

    const NONE: &str = "seed 4 replicas 4 steps 0\n\
        done 2 empty 0 full 0 down 0 up 0 unsent 0\n\
        messages 3\n\
        replica 0 working 0 0 0\n\
        replica 1 working 0 0 0\n\
        replica 2 working 0 0 0\n\
        replica 3 working 0 0 0\n";

    #[test]
    fn summaries_of_drawn_runs(rt: HostRuntime) -> Result<(), Fail> {
        for (seed, n, steps, summary) in [(7, 5, 300, ODD), (10, 3, 500, EVEN), (4, 4, 0, NONE)] {
            let (told, _text) = told(rt.alloc(), seed, n, steps)?;
            assert_eq!(rt; std::str::from_utf8(told.bytes())?, summary);
        }
        Ok(())
    }

    #[test]
    fn a_seed_draws_one_run(rt: HostRuntime) -> Result<(), Fail> {
        let (first, text) = told(rt.alloc(), 7, 5, 200)?;
        let (again, other) = told(rt.alloc(), 7, 5, 200)?;
        assert_eq!(rt; first.bytes(), again.bytes());
        assert_eq!(rt; text.bytes(), other.bytes());
        Ok(())
    }
}
