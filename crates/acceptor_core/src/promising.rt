//! Promises of phase 1.

ghost use Rattle.std.specs.Prelude.{◌≡◌, IfOk};
ghost use Rattle.acceptor_core.specs.Promising.{promised};

use jp_types::memory::NoMemory;
use jp_types::message::{Prepare, PrepareOk, Vector, View};
use replica_log::log::ReplicaLog;

/// The promise that answers a Prepare in the own view: the vector, the base of the log, and what the log has from the
/// Prepare's first instance on. There is none where the Prepare is of another view.
pub fn on_prepare(
    log: &ReplicaLog,
    view: View,
    vector: &Vector,
    m: &Prepare,
) -> Result<Option<PrepareOk>, NoMemory>
    ensures { IfOk result (λ promise. promise ≡ promised log.now view vector.now m.now) }
{
    if m.view != view {
        return Ok(None);
    }
    Ok(Some(PrepareOk {
        view,
        mark: m.mark,
        vector: *vector,
        low: log.base(),
        report: log.report(m.first)?,
    }))
}

#[cfg(test)]
mod tests {
    use super::*;
    use jp_types::batch::Batch;
    use std::test::Fail;

    #[test]
    fn promises_its_own_view_alone(rt: HostRuntime) -> Result<(), Fail> {
        let mut log = ReplicaLog::new(rt.alloc(), 3)?;
        for instance in 3u64..6 {
            let voted = log.vote(instance, 1, Batch::empty(rt.alloc()));
            assert!(rt; voted.is_ok());
        }
        let lines = [
            (1u64, Some((1u64, 9u64, 0u64, 2usize))),
            (0, None),
            (2, None),
        ];
        for (view, want) in lines {
            let m = Prepare {
                view,
                first: 4,
                mark: 9,
            };
            let told = match on_prepare(&log, 1, &[7; 9], &m)? {
                Some(ok) => Some((ok.view, ok.mark, ok.low, ok.report.as_slice().len())),
                None => None,
            };
            assert_eq!(rt; told, want, "{view}");
        }
        Ok(())
    }
}
