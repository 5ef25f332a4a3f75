//! Vectors of epochs grow, entry by entry.

ghost use Rattle.std.specs.Prelude.{◌≡◌, ◌<◌};
ghost use Rattle.jp_types.specs.Vectors.{entry, merged, raised};

use jp_types::message::{ReplicaId, Vector};

/// The vector's entry for a replica: its latest epoch that is known.
pub fn entry(vector: &Vector, replica: ReplicaId) -> u64
    requires { replica < 9 }
    ensures { result ≡ entry vector.now replica }
{
    vector[replica as usize]
}

/// Raises each entry to at least that of the other vector.
pub fn merge(vector: &mut Vector, other: &Vector)
    ensures { vector.new ≡ merged vector.old other.now }
{
    for replica in 0..9 {
        vector[replica] = vector[replica].max(other[replica]);
    }
}

/// Raises the entry for a replica to at least this epoch.
pub fn raise(vector: &mut Vector, replica: ReplicaId, epoch: u64)
    requires { replica < 9 }
    ensures { vector.new ≡ raised vector.old replica epoch }
{
    let own = &mut vector[replica as usize];
    *own = (*own).max(epoch);
}

#[cfg(test)]
mod tests {
    use super::*;

    #[test]
    fn grow_and_never_fall(rt: HostRuntime) {
        // a vector, another, the merged one
        let merges = [
            ([0u64; 9], [0u64; 9], [0u64; 9]),
            (
                [1, 0, 3, 0, 5, 0, 7, 0, 9],
                [0, 2, 3, 4, 4, 6, 8, 1, 1],
                [1, 2, 3, 4, 5, 6, 8, 1, 9],
            ),
            (
                [1 << 48, 0, 0, 0, 0, 0, 0, 0, 1],
                [1, 0, 0, 0, 0, 0, 0, 0, 1 << 48],
                [1 << 48, 0, 0, 0, 0, 0, 0, 0, 1 << 48],
            ),
        ];
        for (mut vector, other, want) in merges {
            merge(&mut vector, &other);
            assert_eq!(rt; vector, want);
        }
        for (replica, epoch, want) in [
            (0u8, 1u64, 1u64),
            (3, 4, 4),
            (3, 3, 4),
            (8, 2, 9),
            (8, 10, 10),
        ] {
            let mut vector = [0, 0, 0, 4, 0, 0, 0, 0, 9];
            assert!(rt; replica < 9);
            raise(&mut vector, replica, epoch);
            assert_eq!(rt; entry(&vector, replica), want, "of {replica} after {epoch}");
        }
    }
}
