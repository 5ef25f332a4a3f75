//! Votes on proposals, and what others accepted.

ghost use Rattle.std.specs.Prelude.{◌≡◌, ◌<◌, None, is_some, IfOk, OnOk};
ghost use Rattle.acceptor_core.specs.Learning.{KeepsSpan, after_accept, after_note, after_proposal, after_vote_if, learned_with, noted_proposal, votes_on};

use crate::learning::{learn_check, note, note_proposal, vote};
use jp_types::memory::NoMemory;
use jp_types::message::{Accept, Propose, ReplicaId, View};
use replica_log::log::ReplicaLog;

/// What a proposal led to.
#[derive(Clone, Copy, Debug, PartialEq, Eq)]
pub struct Voted {
    /// The replica voted on it, and owes all others an Accept.
    pub voted: bool,
    /// Its instance became known by it.
    pub learned: bool,
}

// Votes on a proposal, where the replica may.
fn vote_if(log: &mut ReplicaLog, votes: bool, me: ReplicaId, m: Propose) -> Result<(), NoMemory>
    requires { me < log.old.n }
    ensures after { OnOk result (log.new ≡ after_vote_if votes log.old me m) }
    ensures span { OnOk result (KeepsSpan log.old log.new) }
{
    if !votes {
        return Ok(());
    }
    vote(log, m.instance, m.view, m.batch)?;
    note(log, m.instance, m.view, me)
}

/// Takes a proposal of the leader of its view, in this order: the leader's acceptance is noted; a Working replica votes
/// where the proposal is of its view and in span; and the instance is learned where its tally has its batch and a
/// majority. The caller has raised its view to the proposal's, where it is Working. After an error the log may have part
/// of the change, and is to be dropped.
pub fn on_propose(
    log: &mut ReplicaLog,
    me: ReplicaId,
    working: bool,
    view: View,
    from: ReplicaId,
    m: Propose,
) -> Result<Voted, NoMemory>
    requires me { me < log.old.n }
    requires from { from < log.old.n }
    ensures voted { IfOk result (λ told. told.voted ≡ votes_on log.old working view m) }
    ensures learned { IfOk result (λ told. told.learned ≡ is_some (learned_with (noted_proposal log.old me working view from m) m.instance)) }
    ensures after { OnOk result (log.new ≡ after_proposal log.old me working view from m) }
    ensures span { OnOk result (KeepsSpan log.old log.new) }
{
    let instance = m.instance;
    let voted = working && view == m.view && log.is_in_span(instance);
    note_proposal(log, instance, m.view, from, &m.batch)?;
    vote_if(log, voted, me, m)?;
    let learned = learn_check(log, instance)?;
    Ok(Voted { voted, learned })
}

/// Takes another replica's acceptance: it is noted, and the instance is learned where its tally has its batch and a
/// majority. Tells whether it was learned now. After an error the log may have part of the change, and is to be dropped.
pub fn on_accept(log: &mut ReplicaLog, from: ReplicaId, m: Accept) -> Result<bool, NoMemory>
    requires { from < log.old.n }
    ensures learned { IfOk result (λ learned. learned ≡ is_some (learned_with (after_note log.old m.instance m.view from None) m.instance)) }
    ensures after { OnOk result (log.new ≡ after_accept log.old from m) }
    ensures span { OnOk result (KeepsSpan log.old log.new) }
{
    note(log, m.instance, m.view, from)?;
    learn_check(log, m.instance)
}

#[cfg(test)]
mod tests {
    use super::*;
    use jp_types::batch::Batch;
    use jp_types::command::{Command, Request};
    use jp_types::message::Instance;
    use jp_types::octets::Octets;
    use jp_types::views::leader;
    use std::alloc::Global;
    use std::test::Fail;

    // A batch that tells the view in which it was proposed.
    fn batch(alloc: Global, view: View) -> Result<Batch, NoMemory> {
        let mut batch = Batch::empty(alloc);
        let key = Octets::from_slice(alloc, b"k")?;
        batch.push(Request {
            client: 1,
            number: view,
            command: Command::Get { key },
        })?;
        Ok(batch)
    }

    // The view that a batch tells.
    fn told(batch: Option<&Batch>) -> Option<View> {
        Some(batch?.requests().first()?.number)
    }

    // What a proposal leads to at replica 1.
    fn proposed(
        alloc: Global,
        log: &mut ReplicaLog,
        own: Option<View>,
        view: View,
        instance: Instance,
    ) -> Result<(bool, bool), NoMemory> {
        let n = log.replicas();
        let batch = batch(alloc, view)?;
        let m = Propose {
            view,
            instance,
            batch,
        };
        let voted = on_propose(
            log,
            1,
            own.is_some(),
            own.unwrap_or(view),
            leader(view, n),
            m,
        )?;
        Ok((voted.voted, voted.learned))
    }

    // Whether an instance is learned by an acceptance.
    fn accepted(
        log: &mut ReplicaLog,
        from: ReplicaId,
        view: View,
        instance: Instance,
    ) -> Result<bool, NoMemory> {
        let last = log.replicas() - 1;
        on_accept(log, from.min(last), Accept { view, instance })
    }

    #[test]
    fn proposals_in_a_fresh_log(rt: HostRuntime) -> Result<(), Fail> {
        let lines = [
            (3u8, Some(0u64), 0u64, 0u64, (true, true)),
            (3, Some(2), 2, 1_023, (true, true)),
            (3, Some(0), 0, 1_024, (false, false)),
            (3, Some(1), 0, 0, (false, false)),
            (3, None, 0, 0, (false, false)),
            (4, Some(0), 0, 0, (true, false)),
        ];
        for (n, own, view, instance, want) in lines {
            assert!(rt; 3 <= n && n <= 9);
            let mut log = ReplicaLog::new(rt.alloc(), n)?;
            let told = proposed(rt.alloc(), &mut log, own, view, instance)?;
            assert_eq!(rt; told, want, "{n} {view} {instance}");
            assert_eq!(rt;
                log.voted(instance).is_some(),
                want.0,
                "{n} {view} {instance}"
            );
            assert_eq!(rt;
                log.known(instance).is_some(),
                want.1,
                "{n} {view} {instance}"
            );
        }
        Ok(())
    }

    #[test]
    fn majorities_of_five(rt: HostRuntime) -> Result<(), Fail> {
        let mut log = ReplicaLog::new(rt.alloc(), 5)?;
        assert_eq!(rt;
            proposed(rt.alloc(), &mut log, Some(0), 0, 7)?,
            (true, false)
        );
        let lines = [
            // A replica counts once, and the leader's proposal is its acceptance.
            (0u8, 0u64, false),
            // A higher view takes the tally over, and a lower one is passed over.
            (2, 5, false),
            (3, 0, false),
            (4, 0, false),
            // A majority without its batch learns nothing.
            (3, 5, false),
            (4, 5, false),
        ];
        for (from, view, want) in lines {
            assert_eq!(rt; accepted(&mut log, from, view, 7)?, want, "{from} {view}");
        }
        assert_eq!(rt; proposed(rt.alloc(), &mut log, None, 5, 7)?, (false, true));
        assert_eq!(rt; told(log.known(7)), Some(5));
        assert_eq!(rt; accepted(&mut log, 2, 5, 8)?, false);
        Ok(())
    }

    #[test]
    fn votes_on_known_instances(rt: HostRuntime) -> Result<(), Fail> {
        let mut log = ReplicaLog::new(rt.alloc(), 3)?;
        for instance in 0u64..2 {
            let told = proposed(rt.alloc(), &mut log, Some(0), 0, instance)?;
            assert_eq!(rt; told, (true, true), "{instance}");
        }
        assert!(rt; log.base() <= 1 && 1 <= log.first_undecided());
        log.cut(1);
        let lines = [(0u64, (false, false)), (1, (true, false))];
        for (instance, want) in lines {
            let told = proposed(rt.alloc(), &mut log, Some(3), 3, instance)?;
            assert_eq!(rt; told, want, "{instance}");
            assert!(rt; log.tallied(instance).is_none(), "{instance}");
        }
        assert_eq!(rt; told(log.known(1)), Some(0));
        Ok(())
    }
}
