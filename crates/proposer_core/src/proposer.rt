//! The proposer of a replica.

ghost use Rattle.std.specs.Prelude.{◌≡◌, ◌≤◌, ◌<◌, IfOk, OnErr};
ghost use Rattle.proposer_core.specs.declared.leading.Leading.TheVariants as leads;
ghost use Rattle.proposer_core.specs.Proposing.{new_proposer, with_leading, is_leading, view_of, next_of, takes, is_better, after_promise, vector_after, with_promise};
ghost use Rattle.proposer_core.specs.Adoption.{adopted, adopted_by, after_adoption, prepared_at};
ghost use Rattle.proposer_core.specs.Window.{limit, offered, place_below, after_offer};
ghost use Rattle.epoch_vectors.specs.Replies.{counted_set, reply_of};

use crate::adopting::adoption;
use crate::adoption::Adopted;
use crate::leading::Leading;
use crate::not_now::NotNow;
use crate::promise::Promise;
use epoch_vectors::counted::Counted;
use epoch_vectors::vector::{entry, merge};
use jp_types::batch::Batch;
use jp_types::memory::NoMemory;
use jp_types::message::{Instance, Mark, Prepare, PrepareOk, ReplicaId, Vector, View};
use replica_log::log::ReplicaLog;
use std::alloc::Global;
use std::marker::Model;

/// The proposer of a replica: which view it leads, if any, and the promises that it holds in phase 1 of it.
#[derive(Drop)]
pub struct Proposer {
    alloc: Global,
    n: u8,
    me: ReplicaId,
    // How many instances may be undecided at once.
    window: u8,
    leading: Leading,
    held: Counted<Promise>,
}

impl Model for Proposer {
    ghost use Rattle.std.specs.Prelude.{◌≡◌, ◌≤◌, length};
    ghost use Rattle.proposer_core.specs.Proposing as proposing;

    ghost Value = { proposing.Proposer };

    ghost view = { λ p. record { n = p.n; me = p.me; window = p.window; leading = p.leading; held = p.held } };

    ghost invariant = { λ p. (p.n ≤ 9) × (length p.held ≡ p.n) };
}

impl Proposer {
    /// Leads nothing. There are n replicas, 9 at most, and `me` is one of them. All its memory is taken here.
    pub fn new(alloc: Global, n: u8, me: ReplicaId, window: u8) -> Result<Proposer, NoMemory>
        requires { n ≤ 9 }
        ensures { IfOk result (λ made. made ≡ new_proposer n me window) }
    {
        Ok(Proposer {
            alloc,
            n,
            me,
            window,
            leading: Leading::No,
            held: Counted::new(alloc, n)?,
        })
    }

    /// How many replicas there are.
    pub fn replicas(&self) -> u8
        ensures value { result ≡ self.now.n }
        ensures most { result ≤ 9 }
    {
        self.n
    }

    // Leads so from now on. No promise is held any more.
    fn lead(&mut self, leading: Leading)
        ensures { self.new ≡ with_leading self.old leading }
    {
        self.leading = leading;
        self.held.clear();
    }

    /// Leads nothing again.
    pub fn leave(&mut self)
        ensures { self.new ≡ with_leading self.old leads.No }
    {
        self.lead(Leading::No);
    }

    /// Begins phase 1 of a view, which the replica leads. The answer is for all other replicas.
    pub fn start(&mut self, view: View, first: Instance, mark: Mark) -> Prepare
        ensures message { result ≡ record { view = view; first = first; mark = mark } }
        ensures after { self.new ≡ with_leading self.old (leads.Preparing view first mark) }
    {
        self.lead(Leading::Preparing { view, first, mark });
        Prepare { view, first, mark }
    }

    // Prepared from now on in the view of the phase 1 that is under way.
    fn lead_from(&mut self, next: Instance)
        ensures { self.new ≡ with_leading self.old (prepared_at self.old.leading next) }
    {
        let leading = self.leading.prepared(next);
        self.lead(leading);
    }

    // Whether a promise is better than the one of that replica that is held, if one is.
    fn is_better(&self, from: ReplicaId, promise: &PrepareOk) -> bool
        requires { from < 9 }
        ensures { result ≡ is_better from (reply_of self.now.held from) promise.now }
    {
        match self.held.held(from) {
            Some((vector, _)) => entry(vector, from) < entry(&promise.vector, from),
            None => true,
        }
    }

    // Holds the promise of a replica from now on.
    fn hold(&mut self, from: ReplicaId, promise: PrepareOk)
        requires { from < self.old.n }
        ensures { self.new ≡ with_promise self.old from promise }
    {
        let vector = promise.vector;
        let _before = self.held.put(from, vector, Promise::new(promise));
    }

    /// Takes a promise. Its vector is merged into the own one, and it is held where it is better than the one that is held
    /// of its sender: of two lives of the sender, the later one's. Whether it is held now.
    pub fn on_prepare_ok(&mut self, own: &mut Vector, from: ReplicaId, promise: PrepareOk) -> bool
        requires { from < self.old.n }
        ensures held { result ≡ takes self.old from promise }
        ensures after { self.new ≡ after_promise self.old from promise }
        ensures vector { own.new ≡ vector_after self.old own.old promise }
    {
        if !self.leading.is_awaited(&promise) {
            return false;
        }
        merge(own, &promise.vector);
        if !self.is_better(from, &promise) {
            return false;
        }
        self.hold(from, promise);
        true
    }

    // What is adopted, where the replica becomes Prepared.
    fn adopted(&self, log: &ReplicaLog, own: &Vector) -> Result<Option<Adopted>, NoMemory>
        ensures { IfOk result (λ adopted. adopted ≡ adopted_by self.now.leading self.now (counted_set own.now self.now.held) log.now) }
    {
        match self.leading {
            Leading::Preparing { first, .. } => {
                let counted = self.held.counted(own);
                adoption(self.alloc, &self.held, counted, self.n, self.me, log, first)
            }
            _ => Ok(None),
        }
    }

    /// Becomes Prepared, where the replica is in phase 1 and a majority promised, every instance that a counted promise
    /// leaves out is known, and what was reported lies in the log's span. The answer is what it then proposes, in order;
    /// a launch that is `decided` is also to be learned. The promises are held no more.
    pub fn adopt(&mut self, log: &ReplicaLog, own: &Vector) -> Result<Option<Adopted>, NoMemory>
        ensures adopted { IfOk result (λ answer. answer ≡ adopted self.old log.now own.now) }
        ensures after { IfOk result (λ answer. self.new ≡ after_adoption self.old answer) }
        ensures err { OnErr result (self.new ≡ self.old) }
    {
        match self.adopted(log, own)? {
            Some(adopted) => {
                self.lead_from(adopted.next);
                Ok(Some(adopted))
            }
            None => Ok(None),
        }
    }

    // One more than the last instance in which a batch has its place now.
    fn limit(&self, log: &ReplicaLog) -> Instance
        ensures { result ≡ limit self.now log.now }
    {
        (log.first_undecided() + self.window as u64).min(log.span_end())
    }

    /// Gives the batch its place, which is the next instance below the end of the window and of the log's span. A batch
    /// without a place is handed back.
    pub fn offer(&mut self, log: &ReplicaLog, batch: Batch) -> Result<Instance, (NotNow, Batch)>
        ensures place { result ≡ offered self.old log.now batch }
        ensures after { self.new ≡ after_offer self.old log.now }
    {
        let Leading::Prepared { view, next } = self.leading else {
            return Err((NotNow::NotLeader, batch));
        };
        let limit = self.limit(log);
        if next >= limit {
            return Err((NotNow::Waiting(limit), batch));
        }
        self.leading = Leading::Prepared {
            view,
            next: next + 1,
        };
        Ok(next)
    }

    /// The place that a batch has if it is offered now, so that a caller need not give one up to learn it.
    pub fn place(&self, log: &ReplicaLog) -> Option<Instance>
        ensures { result ≡ place_below self.now.leading (limit self.now log.now) }
    {
        match self.leading {
            Leading::Prepared { next, .. } if next < self.limit(log) => Some(next),
            _ => None,
        }
    }

    /// Whether it leads a view, and how far it is.
    pub fn leading(&self) -> Leading
        ensures { result ≡ self.now.leading }
    {
        self.leading
    }

    /// The instance for the next batch that is offered, where it is Prepared.
    pub fn next(&self) -> Option<Instance>
        ensures { result ≡ next_of self.now.leading }
    {
        self.leading.next()
    }

    /// The view that it leads, in phase 1 of it or Prepared.
    pub fn view(&self) -> Option<View>
        ensures { result ≡ view_of self.now.leading }
    {
        self.leading.view()
    }

    /// Whether it is in phase 1 of a view or Prepared in it.
    pub fn is_leading(&self) -> bool
        ensures { result ≡ is_leading self.now.leading }
    {
        self.leading.view().is_some()
    }
}

#[cfg(test)]
mod tests {
    use super::*;
    use jp_types::command::{Command, Request};
    use jp_types::listed::Listed;
    use jp_types::message::Entry;
    use jp_types::octets::Octets;
    use std::test::Fail;

    // A batch of one request of a client, by which it is told apart.
    fn batch_of(alloc: Global, client: u64) -> Result<Batch, NoMemory> {
        let key = Octets::from_slice(alloc, b"key")?;
        let mut batch = Batch::empty(alloc);
        batch.push(Request {
            client,
            number: 1,
            command: Command::Get { key },
        })?;
        Ok(batch)
    }

    fn client_of(batch: &Batch) -> Option<u64> {
        batch.requests().first().map(|request| request.client)
    }

    // A promise in view 15 to the life with mark 9, whose report has these instances, views of votes and clients.
    fn promise(
        alloc: Global,
        vector: Vector,
        low: Instance,
        entries: &[(Instance, Option<View>, u64)],
    ) -> Result<PrepareOk, NoMemory> {
        let mut report = Listed::empty(alloc);
        for (instance, vote, client) in entries {
            report.push(Entry {
                instance: *instance,
                vote: *vote,
                batch: batch_of(alloc, *client)?,
            })?;
        }
        Ok(PrepareOk {
            view: 15,
            mark: 9,
            vector,
            low,
            report,
        })
    }

    // What an offer of a client's batch answers: its place, or why it has none and whose batch comes back.
    fn told(
        proposer: &mut Proposer,
        log: &ReplicaLog,
        batch: Batch,
    ) -> Result<Instance, (NotNow, Option<u64>)> {
        match proposer.offer(log, batch) {
            Ok(place) => Ok(place),
            Err((why, batch)) => Err((why, client_of(&batch))),
        }
    }

    #[test]
    fn offers_in_the_window(rt: HostRuntime) -> Result<(), Fail> {
        let log = ReplicaLog::new(rt.alloc(), 3)?;
        let mut proposer = Proposer::new(rt.alloc(), 3, 0, 1)?;
        let not_leader = Err((NotNow::NotLeader, Some(7)));
        assert_eq!(rt;
            told(&mut proposer, &log, batch_of(rt.alloc(), 7)?),
            not_leader
        );
        proposer.start(15, 0, 9);
        assert_eq!(rt;
            told(&mut proposer, &log, batch_of(rt.alloc(), 7)?),
            not_leader
        );
        let mut own = [0; 9];
        assert!(rt; 1 < proposer.replicas());
        assert!(rt; proposer.on_prepare_ok(&mut own, 1, promise(rt.alloc(), [0; 9], 0, &[])?));
        assert!(rt; proposer.adopt(&log, &own)?.is_some());
        assert_eq!(rt; proposer.view(), Some(15));
        let offers = [(1u64, Ok(0u64)), (2, Err((NotNow::Waiting(1), Some(2))))];
        for (client, want) in offers {
            assert_eq!(rt;
                told(&mut proposer, &log, batch_of(rt.alloc(), client)?),
                want
            );
            assert_eq!(rt; proposer.next(), Some(1));
        }
        proposer.leave();
        assert!(rt; !proposer.is_leading());
        Ok(())
    }

    #[test]
    fn counts_promises_of_the_latest_lives(rt: HostRuntime) -> Result<(), Fail> {
        let mut log = ReplicaLog::new(rt.alloc(), 5)?;
        let mut proposer = Proposer::new(rt.alloc(), 5, 0, 1)?;
        let mut own = [9, 0, 0, 0, 0, 0, 0, 0, 0];
        proposer.start(15, 0, 9);
        // whose promise, its view and mark, its epochs of replicas 1 and 2, its `low`, and whether it is held
        let promises = [
            (1u8, 15u64, 9u64, 1u64, 0u64, 0u64, true),
            (2, 20, 9, 2, 1, 0, false),
            (2, 15, 8, 2, 1, 0, false),
            (1, 15, 9, 1, 0, 1, false),
            // a later life of replica 1 is known, so its promise is not counted
            (2, 15, 9, 2, 1, 0, true),
            // it counts as the third, but what lies below its `low` is not known
            (3, 15, 9, 0, 0, 1, true),
        ];
        for (from, view, mark, first, second, low, want) in promises {
            let vector = [0, first, second, 0, 0, 0, 0, 0, 0];
            let mut sent = promise(rt.alloc(), vector, low, &[])?;
            sent.view = view;
            sent.mark = mark;
            assert!(rt; from < proposer.replicas());
            assert_eq!(rt;
                proposer.on_prepare_ok(&mut own, from, sent),
                want,
                "{from}"
            );
            assert!(rt; proposer.adopt(&log, &own)?.is_none(), "{from}");
        }
        assert_eq!(rt; own, [9, 2, 1, 0, 0, 0, 0, 0, 0]);
        assert!(rt; log.learn(0, batch_of(rt.alloc(), 7)?)?);
        assert!(rt; proposer.adopt(&log, &own)?.is_some());
        assert_eq!(rt; proposer.next(), Some(1));
        Ok(())
    }

    #[test]
    fn adopts_what_may_be_decided(rt: HostRuntime) -> Result<(), Fail> {
        let mut log = ReplicaLog::new(rt.alloc(), 3)?;
        assert!(rt; log.learn(0, batch_of(rt.alloc(), 10)?)?);
        log.vote(1, 1, batch_of(rt.alloc(), 11)?)?;
        log.vote(4, 2, batch_of(rt.alloc(), 14)?)?;
        let reports = [
            [(1u64, Some(2u64), 21u64), (3, None, 23), (4, Some(2), 24)],
            [(1, Some(1), 31), (3, Some(5), 33), (4, Some(1), 34)],
        ];
        let mut proposer = Proposer::new(rt.alloc(), 3, 0, 1)?;
        let mut own = [0; 9];
        proposer.start(15, 0, 9);
        for from in 1..3u8 {
            let sent = promise(rt.alloc(), [0; 9], 0, &reports[from as usize - 1])?;
            assert!(rt; from < proposer.replicas());
            assert!(rt; proposer.on_prepare_ok(&mut own, from, sent));
        }
        let adopted = proposer.adopt(&log, &own)?.ok_or("not prepared")?;
        assert_eq!(rt; adopted.next, 5);
        // the own known batch, the vote of the highest view, a gap, a decided batch, and of two votes of one view the own
        let wants = [
            (0u64, Some(10u64), false),
            (1, Some(21), false),
            (2, None, false),
            (3, Some(23), true),
            (4, Some(14), false),
        ];
        let launches = adopted.launches.as_slice();
        assert_eq!(rt; launches.len(), wants.len());
        for (launch, want) in launches.iter().zip(wants) {
            let told = (launch.instance, client_of(&launch.batch), launch.decided);
            assert_eq!(rt; told, want);
        }
        Ok(())
    }
}
