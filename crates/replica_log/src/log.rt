//! What a replica holds of the instances in span: votes, tallies and known batches.

ghost use Rattle.std.specs.Prelude.{◌≡◌, ℕ, ◌+◌, ◌<◌, ◌≤◌, min, true, false, not, ◌++◌, filter, option_to_list, IfOk, OnErr, OnOk, nat_le};
ghost use Rattle.std.specs.FinMap as map;
ghost use Rattle.std.specs.Option.{option_copied};
ghost use Rattle.jp_types.specs.Views.{number_limit};
ghost use Rattle.jp_types.specs.Instances.{span};
ghost use Rattle.jp_types.specs.Reports.{entry_by};
ghost use Rattle.replica_log.specs.Log.{above, after_learn, AnswersBy, batch_of, first_undecided, is_full, is_in_span, is_known, new_log, report_from, span_end, span_fault, vote_behind, with_note, with_vote};

use crate::fault::LogFault;
use crate::tally::{Tally, add, forget};
use jp_types::batch::Batch;
use jp_types::listed::Listed;
use jp_types::memory::{Duplicate, NoMemory};
use jp_types::message::{Entry, Instance, ReplicaId, Report, View};
use jp_types::numbered::Numbered;
use jp_types::views::NUMBER_LIMIT;
use std::alloc::Global;
use std::marker::Model;

/// How many instances a log spans.
pub const SPAN: u64 = 1024;

/// What a replica holds of the instances in span. All instances below the base are known and dropped.
#[derive(Drop)]
pub struct ReplicaLog {
    alloc: Global,
    n: u8,
    base: Instance,
    undecided: Instance,
    votes: Numbered<(View, Batch)>,
    known: Numbered<Batch>,
    tallies: Numbered<Tally>,
}

impl Model for ReplicaLog {
    ghost use Rattle.std.specs.Prelude.{◌≡◌, ℕ, refl};
    ghost use Rattle.std.specs.Ordering.{nat_cmp};
    ghost use Rattle.std.specs.Coded.{code_by, coded×, coded_ℕ};
    ghost use Rattle.std.specs.FinMap as map;
    ghost use Rattle.jp_types.specs.Instances.{Batch as OfBatch};
    ghost use Rattle.jp_types.specs.contracts.batch.Batch as of_batch;
    ghost use Rattle.replica_log.specs.declared.tally.Tally.{Tally as OfTally};
    ghost use Rattle.replica_log.specs.contracts.tally.Tally as of_tally;
    ghost use Rattle.replica_log.specs.Log.{Log};
    ghost use Rattle.replica_log.specs.Soundness.{IsSound};

    ghost Value = { Log };

    ghost coded = { code_by (ℕ × (ℕ × (map.FinMap nat_cmp (ℕ × OfBatch) × (map.FinMap nat_cmp OfBatch × map.FinMap nat_cmp OfTally)))) (coded× coded_ℕ (coded× coded_ℕ (coded× (map.code coded_ℕ (coded× coded_ℕ of_batch.the_row.coded)) (coded× (map.code coded_ℕ of_batch.the_row.coded) (map.code coded_ℕ of_tally.the_row.coded))))) (λ l. (l.n, (l.base, (l.votes, (l.known, l.tallies))))) (λ p. record { n = p.0; base = p.1.0; votes = p.1.1.0; known = p.1.1.1.0; tallies = p.1.1.1.1 }) (λ _. refl) };

    ghost view = { λ l. record { n = l.n; base = l.base; votes = l.votes; known = l.known; tallies = l.tallies } };

    ghost invariant = { λ l. IsSound (record { n = l.n; base = l.base; votes = l.votes; known = l.known; tallies = l.tallies }) l.undecided };
}

impl ReplicaLog {
    /// The log of one of n replicas, with base 0.
    pub fn new(alloc: Global, n: u8) -> Result<ReplicaLog, NoMemory>
        requires least { 3 ≤ n }
        requires most { n ≤ 9 }
        ensures { IfOk result (λ log. log ≡ new_log n) }
    {
        Ok(ReplicaLog {
            alloc,
            n,
            base: 0,
            undecided: 0,
            votes: Numbered::new(alloc),
            known: Numbered::new(alloc),
            tallies: Numbered::new(alloc),
        })
    }

    /// How many replicas there are.
    pub fn replicas(&self) -> u8
        ensures value { result ≡ self.now.n }
        ensures least { 3 ≤ result }
        ensures most { result ≤ 9 }
    {
        self.n
    }

    /// All instances below it are known and dropped.
    pub fn base(&self) -> Instance
        ensures value { result ≡ self.now.base }
        ensures limit { result ≤ number_limit }
    {
        self.base
    }

    /// One more than the last instance in span.
    pub fn span_end(&self) -> Instance
        ensures value { result ≡ span_end self.now }
        ensures base { self.now.base ≤ result }
        ensures limit { result ≤ number_limit }
    {
        span_end(self.base)
    }

    pub fn is_in_span(&self, instance: Instance) -> bool
        ensures { result ≡ is_in_span self.now instance }
    {
        self.base <= instance && instance < self.span_end()
    }

    /// Below the base each instance is known.
    pub fn is_known(&self, instance: Instance) -> bool
        ensures value { result ≡ is_known self.now instance }
        ensures below { is_known self.now instance ≡ true → instance < span_end self.now }
    {
        instance < self.base || self.known.has(instance)
    }

    /// The known batch of an instance; `None` where it is not known, or below the base.
    pub fn known(&self, instance: Instance) -> Option<&Batch>
        ensures value { option_copied result ≡ map.get self.now.known instance }
        ensures span { map.contains_key self.now.known instance ≡ true → is_in_span self.now instance ≡ true }
    {
        self.known.get(instance)
    }

    /// The vote on an instance; `None` where there is none, or below the base.
    pub fn voted(&self, instance: Instance) -> Option<(View, &Batch)>
        ensures value { vote_behind result ≡ map.get self.now.votes instance }
        ensures span { map.contains_key self.now.votes instance ≡ true → is_in_span self.now instance ≡ true }
    {
        match self.votes.get(instance) {
            Some(vote) => Some((vote.0, &vote.1)),
            None => None,
        }
    }

    /// The batch in the tally of an instance.
    pub fn tallied(&self, instance: Instance) -> Option<&Batch>
        ensures value { option_copied result ≡ batch_of (map.get self.now.tallies instance) }
        ensures span { map.contains_key self.now.tallies instance ≡ true → is_in_span self.now instance ≡ true }
        ensures unknown { map.contains_key self.now.tallies instance ≡ true → is_known self.now instance ≡ false }
    {
        match self.tallies.get(instance) {
            Some(tally) => tally.batch.as_ref(),
            None => None,
        }
    }

    /// Whether the tally of an instance has a batch and a majority, so that the instance can be learned.
    pub fn is_full(&self, instance: Instance) -> bool
        ensures { result ≡ is_full self.now.n (map.get self.now.tallies instance) }
    {
        match self.tallies.get(instance) {
            Some(tally) => tally.batch.is_some() && tally.has_majority(self.n),
            None => false,
        }
    }

    /// The least instance that is not known.
    pub fn first_undecided(&self) -> Instance
        ensures value { result ≡ first_undecided self.now }
        ensures base { self.now.base ≤ result }
        ensures span { result ≤ span_end self.now }
        ensures unknown { is_known self.now result ≡ false }
        ensures known { (i : ℕ) → i < result → is_known self.now i ≡ true }
    {
        self.undecided
    }

    fn span_fault(&self, instance: Instance) -> Option<LogFault>
        ensures fault { result ≡ span_fault self.now instance }
    {
        if instance < self.base {
            return Some(LogFault::BelowBase(self.base));
        }
        let end = self.span_end();
        if instance < end {
            None
        } else {
            Some(LogFault::PastSpan(end))
        }
    }

    /// Sets the vote on an instance.
    pub fn vote(&mut self, instance: Instance, view: View, batch: Batch) -> Result<(), LogFault>
        ensures answer { AnswersBy (span_fault self.old instance) result }
        ensures ok { OnOk result (self.new ≡ with_vote self.old instance view batch) }
        ensures err { OnErr result (self.new ≡ self.old) }
    {
        match self.span_fault(instance) {
            Some(fault) => Err(fault),
            None => {
                self.votes.insert(instance, (view, batch))?;
                Ok(())
            }
        }
    }

    /// Notes in the tally of an instance that a replica accepted it in a view, with the batch where this says it, and
    /// answers whether the tally now has a batch and a majority. A higher view starts the tally anew, a lower one is
    /// passed over.
    pub fn note(
        &mut self,
        instance: Instance,
        view: View,
        from: ReplicaId,
        batch: Option<Batch>,
    ) -> Result<bool, LogFault>
        requires unknown { is_known self.old instance ≡ false }
        requires replica { from < self.old.n }
        ensures answer { AnswersBy (span_fault self.old instance) result }
        ensures ok { OnOk result (self.new ≡ with_note self.old instance view from batch) }
        ensures full { IfOk result (λ full. full ≡ is_full self.new.n (map.get self.new.tallies instance)) }
        ensures err { OnErr result (self.new ≡ self.old) }
    {
        match self.span_fault(instance) {
            Some(fault) => Err(fault),
            None => {
                add(&mut self.tallies, instance, view, from, batch)?;
                Ok(self.is_full(instance))
            }
        }
    }

    /// Makes an instance known and drops its tally. It answers whether the instance was not known; where it was, nothing
    /// changes.
    pub fn learn(&mut self, instance: Instance, batch: Batch) -> Result<bool, LogFault>
        ensures known { is_known self.old instance ≡ true → result ≡ Ok false }
        ensures answer { is_known self.old instance ≡ false → AnswersBy (span_fault self.old instance) result }
        ensures first { IfOk result (λ first. first ≡ not (is_known self.old instance)) }
        ensures ok { OnOk result (self.new ≡ after_learn self.old instance batch) }
        ensures err { OnErr result (self.new ≡ self.old) }
    {
        if self.is_known(instance) {
            return Ok(false);
        }
        match self.span_fault(instance) {
            Some(fault) => Err(fault),
            None => {
                self.known.insert(instance, batch)?;
                forget(&mut self.tallies, instance);
                self.undecided = first_unknown(&self.known, self.undecided, span_end(self.base));
                Ok(true)
            }
        }
    }

    /// Each instance from `first` and from the base on that is known, or else voted.
    pub fn report(&self, first: Instance) -> Result<Report, NoMemory>
        ensures { IfOk result (λ report. report ≡ report_from self.now first) }
    {
        let mut report = Listed::empty(self.alloc);
        for offset in 0..SPAN {
            self.report_at(self.base + offset, first, &mut report)?;
        }
        Ok(report)
    }

    // Appends what the report from `first` says of an instance.
    fn report_at(
        &self,
        instance: Instance,
        first: Instance,
        report: &mut Report,
    ) -> Result<(), NoMemory>
        ensures { OnOk result (report.new ≡ report.old ++ filter (λ e. nat_le first e.instance) (entry_by instance (map.get self.now.known instance) (map.get self.now.votes instance))) }
    {
        if first <= instance {
            if let Some(entry) = self.entry(instance)? {
                report.push(entry)?;
            }
        }
        Ok(())
    }

    // What a report says of an instance.
    fn entry(&self, instance: Instance) -> Result<Option<Entry>, NoMemory>
        ensures { IfOk result (λ entry. option_to_list entry ≡ entry_by instance (map.get self.now.known instance) (map.get self.now.votes instance)) }
    {
        if let Some(batch) = self.known.get(instance) {
            return Ok(Some(Entry {
                instance,
                vote: None,
                batch: batch.copy()?,
            }));
        }
        match self.votes.get(instance) {
            Some(vote) => Ok(Some(Entry {
                instance,
                vote: Some(vote.0),
                batch: vote.1.copy()?,
            })),
            None => Ok(None),
        }
    }

    /// Moves the base, and drops all below it.
    pub fn cut(&mut self, below: Instance)
        requires base { self.old.base ≤ below }
        requires undecided { below ≤ first_undecided self.old }
        ensures { self.new ≡ above self.old below }
    {
        self.base = below;
        self.votes.drop_below(below);
        self.known.drop_below(below);
        self.tallies.drop_below(below);
    }

    /// Moves the base past instances that are not known here, and drops all below it.
    pub fn jump(&mut self, to: Instance)
        requires beyond { first_undecided self.old < to }
        requires limit { to ≤ number_limit }
        ensures { self.new ≡ above self.old to }
    {
        self.base = to;
        self.votes.drop_below(to);
        self.known.drop_below(to);
        self.tallies.drop_below(to);
        self.undecided = first_unknown(&self.known, to, span_end(to));
    }
}

// One more than the last instance in span, from the base.
fn span_end(base: Instance) -> Instance
    ensures { result ≡ min (base + span) number_limit }
{
    base.saturating_add(SPAN).min(NUMBER_LIMIT)
}

// The first instance from `first` on that is not known, up to `end`.
fn first_unknown(known: &Numbered<Batch>, first: Instance, end: Instance) -> Instance
    requires { first ≤ end }
    ensures low { first ≤ result }
    ensures high { result ≤ end }
    ensures known { (i : ℕ) → first ≤ i → i < result → map.contains_key known.now i ≡ true }
    ensures unknown { result < end → map.contains_key known.now result ≡ false }
{
    let mut instance = first;
    while instance < end && known.has(instance) {
        instance += 1;
    }
    instance
}

#[cfg(test)]
mod tests {
    use super::*;
    use crate::plain::{batch, told};
    use std::test::Fail;

    #[test]
    fn log_of_a_fresh_replica(rt: HostRuntime) -> Result<(), Fail> {
        let alloc = rt.alloc();
        let mut log = ReplicaLog::new(alloc, 3)?;
        for (instance, answer) in [(1023, Ok(())), (1024, Err(LogFault::PastSpan(1024)))] {
            assert_eq!(rt; log.vote(instance, 0, batch(alloc, 7)?), answer);
        }
        for instance in 0..5 {
            assert_eq!(rt; log.learn(instance, batch(alloc, instance)?), Ok(true));
        }
        assert!(rt; log.base() <= 3 && 3 <= log.first_undecided());
        log.cut(3);
        assert_eq!(rt;
            log.vote(2, 0, batch(alloc, 7)?),
            Err(LogFault::BelowBase(3))
        );
        assert_eq!(rt; log.learn(4, batch(alloc, 7)?), Ok(false));
        let lines = [(3, None, 3), (4, None, 4), (1023, Some(0), 7)];
        let report = log.report(0)?;
        assert_eq!(rt; report.as_slice().len(), lines.len());
        for (entry, line) in report.as_slice().iter().zip(lines) {
            assert_eq!(rt; told(entry), line);
        }
        Ok(())
    }
}
