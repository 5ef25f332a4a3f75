//! The answers to a life that recovers.

ghost use Rattle.std.specs.Prelude.{◌≡◌, ◌↔◌, ◌<◌, ◌≤◌, ◌==◌, ℕ, if◌then◌else◌, IfOk, length};
ghost use Rattle.jp_types.specs.Vectors.{is_less_answer, merged};
ghost use Rattle.epoch_vectors.specs.Replies.{Covers, reply_of, pair_of};
ghost use Rattle.recovery.specs.Rejoining.{replicas, asking, is_better, after_answer, counted_answer, view_of_answer, highest_answered, is_next_known, is_leader_ready, is_answered_enough, rejoin_view, MayRejoin};

use epoch_vectors::counted::Counted;
use epoch_vectors::vector::{entry, merge};
use jp_types::memory::NoMemory;
use jp_types::message::{Instance, Mark, Recovery, RecoveryAnswer, ReplicaId, Vector, View};
use jp_types::views::{leader, majority};
use std::alloc::Global;
use std::marker::Model;

/// What a replica in this view answers to one that recovers. `next` is there exactly where it is the prepared leader of the
/// view.
pub fn answer(view: View, vector: &Vector, next: Option<Instance>, m: &Recovery) -> RecoveryAnswer
    ensures { result ≡ record { mark = m.now.mark; view = view; vector = vector.now; next = next } }
{
    let vector = *vector;
    RecoveryAnswer {
        mark: m.mark,
        view,
        vector,
        next,
    }
}

// Whether an answer of a replica is less than another: by epoch, then view, then presence of `next`.
fn is_less(replica: ReplicaId, a: &RecoveryAnswer, b: &RecoveryAnswer) -> bool
    requires { replica < 9 }
    ensures { result ≡ is_less_answer replica a.now b.now }
{
    let epoch = entry(&a.vector, replica);
    let other = entry(&b.vector, replica);
    epoch < other
        || (epoch == other
            && (a.view < b.view || (a.view == b.view && (a.next.is_none() && b.next.is_some()))))
}

// Whether there is a `next` and all instances below it are known.
fn is_next_known(next: Option<Instance>, first_undecided: Instance) -> bool
    ensures { result ≡ is_next_known next first_undecided }
{
    match next {
        Some(next) => next <= first_undecided,
        None => false,
    }
}

/// A life that recovers, and the answers to it.
#[derive(Debug, Drop)]
pub struct Rejoiner {
    mark: Mark,
    answers: Counted<RecoveryAnswer>,
}

impl Model for Rejoiner {
    ghost use Rattle.std.specs.Prelude.{◌≤◌, length};
    ghost use Rattle.recovery.specs.Rejoining.{Rejoining};

    ghost Value = { Rejoining };

    ghost view = { λ r. record { mark = r.mark; answers = r.answers } };

    ghost invariant = { λ r. (3 ≤ length r.answers) × (length r.answers ≤ 9) };
}

impl Rejoiner {
    /// A life of one of n replicas that asks with this mark, and has no answer yet.
    pub fn new(alloc: Global, n: u8, mark: Mark) -> Result<Rejoiner, NoMemory>
        requires least { 3 ≤ n }
        requires most { n ≤ 9 }
        ensures { IfOk result (λ rejoiner. rejoiner ≡ asking n mark) }
    {
        Ok(Rejoiner {
            mark,
            answers: Counted::new(alloc, n)?,
        })
    }

    /// How many replicas there are.
    pub fn replicas(&self) -> u8
        ensures { result ≡ replicas self.now }
    {
        self.answers.replicas()
    }

    // Whether an answer is to take the place of what is held of its replica.
    fn is_better(&self, from: ReplicaId, m: &RecoveryAnswer) -> bool
        requires { from < replicas self.now }
        ensures { result ≡ is_better from (reply_of self.now.answers from) m.now }
    {
        match self.answers.held(from) {
            Some((_, held)) => is_less(from, held, m),
            None => true,
        }
    }

    /// Takes an answer, which changes the own vector too. Says whether it is an answer to this life; one to another changes
    /// nothing.
    pub fn on_answer(&mut self, own: &mut Vector, from: ReplicaId, m: RecoveryAnswer) -> bool
        requires { from < replicas self.old }
        ensures told { result ≡ (m.mark == self.old.mark) }
        ensures own { own.new ≡ (if result then merged own.old m.vector else own.old) }
        ensures after { self.new ≡ (if result then after_answer self.old from m else self.old) }
        ensures replicas { replicas self.new ≡ replicas self.old }

        // The own vector stays at least that of each held answer.
        ensures covers { Covers own.old self.old.answers → Covers own.new self.new.answers }
    {
        if m.mark != self.mark {
            return false;
        }
        merge(own, &m.vector);
        if self.is_better(from, &m) {
            let vector = m.vector;
            self.answers.put(from, vector, m);
        }
        true
    }

    // The answer of a replica, where it is counted.
    fn counted_answer(&self, own: &Vector, replica: ReplicaId) -> Option<(&Vector, &RecoveryAnswer)>
        requires { replica < 9 }
        ensures { pair_of result ≡ counted_answer own.now self.now replica }
    {
        let held = self.answers.held(replica)?;
        if entry(held.0, replica) == entry(own, replica) {
            Some(held)
        } else {
            None
        }
    }

    // The view of a replica's answer, where it is counted.
    fn counted_view(&self, own: &Vector, replica: ReplicaId) -> View
        requires { replica < 9 }
        ensures { result ≡ view_of_answer (counted_answer own.now self.now replica) }
    {
        match self.counted_answer(own, replica) {
            Some((_, answer)) => answer.view,
            None => 0,
        }
    }

    // The highest view of the counted answers.
    fn highest_answered(&self, own: &Vector) -> View
        ensures { result ≡ highest_answered (replicas self.now) own.now self.now }
    {
        let mut highest: View = 0;
        for replica in 0..self.answers.replicas() {
            highest = highest.max(self.counted_view(own, replica));
        }
        highest
    }

    // Whether the answer of a view's leader is counted, is at that view, and has a `next` below which all is known.
    fn is_leader_ready(
        &self,
        own: &Vector,
        leader: ReplicaId,
        view: View,
        first_undecided: Instance,
    ) -> bool
        requires { leader < 9 }
        ensures { result ≡ is_leader_ready (counted_answer own.now self.now leader) view first_undecided }
    {
        match self.counted_answer(own, leader) {
            Some((_, answer)) => {
                answer.view == view && is_next_known(answer.next, first_undecided)
            }
            None => false,
        }
    }

    // Whether the answers of a majority are counted.
    fn is_answered_enough(&self, own: &Vector) -> bool
        ensures { result ≡ is_answered_enough own.now self.now }
    {
        majority(self.answers.replicas()) <= self.answers.counted(own).count()
    }

    // The highest view of the answers, where a majority answered and that view's leader is ready.
    fn rejoin_view(&self, own: &Vector, first_undecided: Instance) -> Option<View>
        ensures view { result ≡ rejoin_view own.now self.now first_undecided }
        ensures some { 3 ≤ replicas self.now }
    {
        let view = self.highest_answered(own);
        let leader = leader(view, self.answers.replicas());
        if self.is_answered_enough(own)
            && self.is_leader_ready(own, leader, view, first_undecided)
        {
            Some(view)
        } else {
            None
        }
    }

    /// The view in which the life rejoins, where it does: a majority answered, and all is known that was decided before the
    /// leader of the highest view among them was prepared.
    pub fn rejoins(&self, own: &Vector, first_undecided: Instance) -> Option<View>
        ensures view { result ≡ rejoin_view own.now self.now first_undecided }

        // There is a view exactly where the life may rejoin in it.
        ensures may { (view : ℕ) → (result ≡ Some view) ↔ MayRejoin own.now self.now first_undecided view }
    {
        self.rejoin_view(own, first_undecided)
    }
}

#[cfg(test)]
mod tests {
    use super::*;
    use std::test::Fail;

    // Takes an answer. Says whether it is one to this life, and the view in which the life rejoins after it.
    fn take(
        rejoiner: &mut Rejoiner,
        own: &mut Vector,
        from: ReplicaId,
        m: RecoveryAnswer,
        first_undecided: Instance,
    ) -> (bool, Option<View>)
        requires { from < replicas rejoiner.old }
        ensures { replicas rejoiner.new ≡ replicas rejoiner.old }
    {
        let told = rejoiner.on_answer(own, from, m);
        (told, rejoiner.rejoins(own, first_undecided))
    }

    #[test]
    fn rejoins_when_the_highest_leader_is_prepared(rt: HostRuntime) -> Result<(), Fail> {
        let mut rejoiner = Rejoiner::new(rt.alloc(), 3, 3)?;
        let mut own = [0; 9];
        // an answer's sender, mark, view and `next`, the first undecided instance, whether it is to this life, the view
        let answers = [
            (0u8, 1u64, 1u64, None, 0u64, false, None),
            (0, 3, 3, None, 0, true, None),
            (1, 3, 3, None, 0, true, None),
            (0, 3, 3, Some(5u64), 4, true, None),
            (0, 3, 3, Some(5), 5, true, Some(3)),
            (0, 3, 3, None, 5, true, Some(3)),
            (0, 3, 2, Some(0), 5, true, Some(3)),
            (1, 3, 4, None, 5, true, None),
            (1, 3, 4, Some(6), 6, true, Some(4)),
        ];
        for (from, mark, view, next, undecided, told, want) in answers {
            assert!(rt; from < rejoiner.answers.replicas());
            let m = answer(view, &[0; 9], next, &Recovery { mark });
            assert_eq!(rt;
                take(&mut rejoiner, &mut own, from, m, undecided),
                (told, want),
                "{from} at {view} with {undecided}"
            );
        }
        Ok(())
    }

    #[test]
    fn counts_no_answer_of_an_ended_life(rt: HostRuntime) -> Result<(), Fail> {
        let mut rejoiner = Rejoiner::new(rt.alloc(), 7, 2)?;
        let mut own = [0, 0, 0, 0, 0, 0, 2, 0, 0];
        // an answer's sender, vector and `next`, and the view
        let answers = [
            (1u8, [0u64, 1, 0, 0, 0, 0, 2, 0, 0], None, None),
            (0, [1, 2, 0, 0, 0, 0, 2, 0, 0], Some(0), None),
            (2, [0, 2, 1, 0, 0, 0, 2, 0, 0], None, None),
            (3, [0, 2, 0, 1, 0, 0, 2, 0, 0], None, None),
            (4, [0, 2, 0, 0, 1, 0, 2, 0, 0], None, Some(0)),
        ];
        for (from, vector, next, want) in answers {
            assert!(rt; from < rejoiner.answers.replicas());
            let m = answer(0, &vector, next, &Recovery { mark: 2 });
            assert_eq!(rt;
                take(&mut rejoiner, &mut own, from, m, 0),
                (true, want),
                "{from}"
            );
        }
        assert_eq!(rt; own, [1, 2, 1, 1, 1, 0, 2, 0, 0]);
        Ok(())
    }
}
