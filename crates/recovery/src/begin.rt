//! How a life begins, from what its replica's disk holds.

ghost use Rattle.std.specs.Prelude.{◌≡◌, ◌<◌, ◌≤◌, IfSome};
ghost use Rattle.jp_types.specs.declared.mode.Phase.TheVariants.{Working};
ghost use Rattle.jp_types.specs.Marks.{first_mark, view_at_return, return_mark};
ghost use Rattle.jp_types.specs.Views.{number_limit};
ghost use Rattle.recovery.specs.Beginning.{begun, first_vector, started};

use epoch_vectors::vector::raise;
use jp_types::message::{Mark, ReplicaId, Vector, View};
use jp_types::mode::{Mode, Phase};
use jp_types::views::{NUMBER_LIMIT, next_not_led};

/// A life as it begins.
#[derive(Clone, Copy, Debug, PartialEq, Eq)]
pub struct Started {
    /// Also the number to save before anything is sent.
    pub mark: Mark,
    pub phase: Phase,
    pub view: View,
    pub vector: Vector,
}

// The mark of a later start: of a replica that finds a stable number.
fn return_mark(mode: Mode, me: ReplicaId, n: u8, stored: u64) -> Option<Mark>
    requires least { 3 ≤ n }
    requires most { n ≤ 9 }
    requires me { me < n }
    ensures value { result ≡ return_mark mode n me stored }
    ensures above { IfSome result (λ mark. stored < mark) }
    ensures within { IfSome result (λ mark. mark ≤ number_limit) }
{
    if stored >= NUMBER_LIMIT {
        return None;
    }
    match mode {
        Mode::ViewSs => next_not_led(stored, me, n),
        Mode::EpochSs => Some(stored + 1),
    }
}

// The vector of a life that begins.
fn first_vector(mode: Mode, me: ReplicaId, mark: Mark) -> Vector
    requires { me < 9 }
    ensures { result ≡ first_vector mode me mark }
{
    let mut vector = [0; 9];
    if mode == Mode::EpochSs {
        raise(&mut vector, me, mark);
    }
    vector
}

// The view of a later start.
fn view_at_return(mode: Mode, mark: Mark) -> View
    ensures { result ≡ view_at_return mode mark }
{
    match mode {
        Mode::ViewSs => mark,
        Mode::EpochSs => 0,
    }
}

// The first life of a replica. In view 0 each can take part at once.
fn first_start(mode: Mode, me: ReplicaId) -> Started
    requires { me < 9 }
    ensures value { result ≡ started mode me (first_mark mode) Working 0 }
    ensures within { result.mark ≤ 1 }
{
    let mark = match mode {
        Mode::ViewSs => 0,
        Mode::EpochSs => 1,
    };
    let vector = first_vector(mode, me, mark);
    Started {
        mark,
        phase: Phase::Working,
        view: 0,
        vector,
    }
}

/// The life that begins where the disk holds this number. `None` where the number to save would pass the limit: the replica
/// can't start again.
pub fn begin(mode: Mode, me: ReplicaId, n: u8, stored: Option<u64>) -> Option<Started>
    requires least { 3 ≤ n }
    requires most { n ≤ 9 }
    requires me { me < n }
    ensures value { result ≡ begun mode me n stored }
    ensures above { IfSome result (λ life. IfSome stored (λ number. number < life.mark)) }
    ensures within { IfSome result (λ life. life.mark ≤ number_limit) }
{
    let Some(stored) = stored else {
        return Some(first_start(mode, me));
    };
    let mark = return_mark(mode, me, n, stored)?;
    let vector = first_vector(mode, me, mark);
    Some(Started {
        mark,
        phase: Phase::Recovering,
        view: view_at_return(mode, mark),
        vector,
    })
}

#[cfg(test)]
mod tests {
    use super::*;

    #[test]
    fn begins_from_what_the_disk_holds(rt: HostRuntime) {
        let last = NUMBER_LIMIT;
        let (view, epoch) = (Mode::ViewSs, Mode::EpochSs);
        let (recovering, working) = (Phase::Recovering, Phase::Working);
        // a mode, a replica of three, the number on its disk; the mark, the phase, the view and the own entry
        let starts = [
            (view, 0u8, None, Some((0u64, working, 0u64, 0u64))),
            (epoch, 2, None, Some((1, working, 0, 1))),
            (view, 2, Some(0), Some((1, recovering, 1, 0))),
            (view, 2, Some(1), Some((3, recovering, 3, 0))),
            (epoch, 2, Some(1), Some((2, recovering, 0, 2))),
            (view, 0, Some(last - 1), Some((last, recovering, last, 0))),
            (view, 1, Some(last - 1), None),
            (view, 2, Some(281_474_976_710_656), None),
            (view, 2, Some(u64::MAX), None),
            (epoch, 0, Some(last - 1), Some((last, recovering, 0, last))),
            (epoch, 0, Some(last), None),
            (epoch, 0, Some(u64::MAX), None),
        ];
        for (mode, me, stored, want) in starts {
            assert!(rt; me < 3);
            let life = begin(mode, me, 3, stored);
            let told = life.map(|life| (
                life.mark,
                life.phase,
                life.view,
                life.vector[me as usize],
            ));
            assert_eq!(rt; told, want, "{me} after {stored:?}");
        }
    }
}
