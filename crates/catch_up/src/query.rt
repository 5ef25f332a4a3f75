//! Queries: whether one is due, and to whom it goes.

ghost use Rattle.std.specs.Prelude.{◌≡◌, ◌≢◌, ◌<◌, ◌≤◌, nat_lt};
ghost use Rattle.jp_types.specs.Instances.{peer};

use jp_types::message::{Instance, ReplicaId};

/// Whether a query is due: something was heard of an instance that is not known, where all that was heard of lies below
/// the horizon.
pub fn due(first_undecided: Instance, horizon: Instance) -> bool
    ensures { result ≡ nat_lt first_undecided horizon }
{
    first_undecided < horizon
}

/// The replica to which the next query goes, where so many went out. The others take turns, from the next one on.
pub fn peer(me: ReplicaId, n: u8, queries: u64) -> ReplicaId
    requires least { 3 ≤ n }
    requires most { n ≤ 9 }
    requires me { me < n }
    ensures value { result ≡ peer me n queries }
    ensures below { result < n }
    ensures other { result ≢ me }
{
    let turn = (queries % (n as u64 - 1)) as u8;
    (me + 1 + turn) % n
}

#[cfg(test)]
mod tests {
    use super::*;

    #[test]
    fn others_take_turns(rt: HostRuntime) {
        let lines = [
            (0u8, 3u8, 0u64, 1u8),
            (0, 3, 1, 2),
            (0, 3, 2, 1),
            (1, 3, 0, 2),
            (1, 3, 1, 0),
            (8, 9, 7, 7),
            (8, 9, 8, 0),
            (4, 5, u64::MAX, 3),
        ];
        for (me, n, queries, want) in lines {
            assert!(rt; 3 <= n && n <= 9 && me < n);
            assert_eq!(rt; peer(me, n, queries), want, "{me} {n} {queries}");
        }
        assert!(rt; due(3, 4));
        assert!(rt; !due(4, 4));
    }
}
