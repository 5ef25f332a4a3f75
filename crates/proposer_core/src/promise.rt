//! A promise that is held.

ghost use Rattle.std.specs.Prelude.{◌≡◌, ◌^◌, ◌-◌, min};
ghost use Rattle.std.specs.Option.{option_copied};
ghost use Rattle.jp_types.specs.Reports.{decided_in, vote_in, report_end};
ghost use Rattle.replica_log.specs.Log as log;

use crate::report::{ascends, decided_in, decided_search, report_end, vote_in, vote_search};
use jp_types::batch::Batch;
use jp_types::message::{Instance, PrepareOk, View};
use std::marker::Model;

/// A promise, as it was sent.
#[derive(Debug, Drop)]
pub struct Promise {
    sent: PrepareOk,
    // Whether its report ascends, so that an instance can be searched for. A report that does not is read whole.
    is_ascending: bool,
}

impl Model for Promise {
    ghost use Rattle.std.specs.Prelude.{◌≡◌, true, None};
    ghost use Rattle.jp_types.specs.declared.message.PrepareOk.{PrepareOk};
    ghost use Rattle.proposer_core.specs.Ascending.{ascends_above};

    ghost Value = { PrepareOk };

    ghost view = { λ p. p.sent };

    ghost invariant = { λ p. p.is_ascending ≡ true → ascends_above None p.sent.report ≡ true };
}

impl Promise {
    pub fn new(sent: PrepareOk) -> Promise
        ensures { result ≡ sent }
    {
        let is_ascending = ascends(sent.report.as_slice());
        Promise { sent, is_ascending }
    }

    /// All instances below it are known to the sender and dropped from its log.
    pub fn low(&self) -> Instance
        ensures { result ≡ self.now.low }
    {
        self.sent.low
    }

    /// One more than the highest instance in its report, as far as a number goes, and 0 where that is empty.
    pub fn end(&self) -> Instance
        ensures { result ≡ min (report_end self.now.report) (2 ^ 64 - 1) }
    {
        report_end(self.sent.report.as_slice())
    }

    /// The decided batch of an instance in its report.
    pub fn decided(&self, instance: Instance) -> Option<&Batch>
        ensures { option_copied result ≡ decided_in instance self.now.report }
    {
        let report = self.sent.report.as_slice();
        if self.is_ascending {
            decided_search(report, instance)
        } else {
            decided_in(instance, report)
        }
    }

    /// The vote on an instance in its report.
    pub fn vote(&self, instance: Instance) -> Option<(View, &Batch)>
        ensures { log.vote_behind result ≡ vote_in instance self.now.report }
    {
        let report = self.sent.report.as_slice();
        if self.is_ascending {
            vote_search(report, instance)
        } else {
            vote_in(instance, report)
        }
    }
}
