//! The lane's rule over the queue, and the kinds of step that move a pass.

use crate::side::Side;
use crate::taken::Taken;
use crossbeam_queue::protocol::{Join, Lesson, Outcome, Protocol, Split};
use crossbeam_queue::{Pass, RuledArrayQueue};
use std::marker::{Brand, PhantomData};

pub type Queue<T> = RuledArrayQueue<(u8, Taken<T>), Side<T>, InOrder>;

pub type Seat<T> = Pass<(u8, Taken<T>), Side<T>>;

/// Each producer's items come out in its order, whatever the others do.
pub struct InOrder;

impl<T> Protocol<(u8, Taken<T>), Side<T>> for InOrder {
    ghost use Rattle.stage_queues.specs.Rule.{Kept, first_side};

    ghost holds = { Kept };

    ghost first = { first_side };
}

/// A push, and a push that is refused as full.
pub struct Puts;

impl<T> Outcome<(u8, Taken<T>), Side<T>> for Puts {
    ghost use Rattle.std.specs.Prelude.{◌≡◌};
    ghost use Rattle.stage_queues.specs.Rule.{after_element};

    ghost then = { λ v element w. w ≡ after_element v element };
}

impl<T> Lesson<(u8, Taken<T>), Side<T>> for Puts {
    ghost use Rattle.stage_queues.specs.Rule.{Told};

    ghost fact = { Told };
}

/// A pop, and a pop that finds the lane empty.
pub struct Takes;

impl<T> Outcome<(u8, Taken<T>), Side<T>> for Takes {
    ghost use Rattle.stage_queues.specs.Rule.{Took};

    ghost then = { Took };
}

impl<T> Lesson<(u8, Taken<T>), Side<T>> for Takes {
    ghost use Rattle.stage_queues.specs.Rule.{Agreed};

    ghost fact = { Agreed };
}

/// The size of a lane that is being made.
pub trait Size {
    ghost use Rattle.std.specs.Prelude.{ℕ};

    ghost capacity: { ℕ };

    ghost producers: { ℕ };
}

impl Size for Brand {
    ghost capacity = { 0 };

    ghost producers = { 0 };
}

/// The first pass learns the size of its lane.
pub struct Opens<N> {
    size: PhantomData<N>,
}

impl<T, N: Size> Split<Side<T>> for Opens<N> {
    ghost use Rattle.stage_queues.specs.Rule.{opened, idle};

    ghost left = { opened N.capacity N.producers };

    ghost right = { λ v. idle };
}

/// The consumer's pass makes the next producer's.
pub struct Makes;

impl<T> Split<Side<T>> for Makes {
    ghost use Rattle.stage_queues.specs.Rule.{one_more, next_inlet};

    ghost left = { one_more };

    ghost right = { next_inlet };
}

/// A producer's pass counts a put that was Full.
pub struct Counts;

impl<T> Split<Side<T>> for Counts {
    ghost use Rattle.stage_queues.specs.Rule.{counted, idle};

    ghost left = { counted };

    ghost right = { λ v. idle };
}

/// What a producer was told of the room.
pub trait Answer {
    ghost use Rattle.std.specs.Prelude.{ℕ};

    ghost room: { ℕ };
}

impl Answer for Brand {
    ghost room = { 0 };
}

/// A producer's pass keeps what it was told of the room.
pub struct Keeps<N> {
    answer: PhantomData<N>,
}

impl<T, N: Answer> Split<Side<T>> for Keeps<N> {
    ghost use Rattle.stage_queues.specs.Rule.{told, idle};

    ghost left = { told N.room };

    ghost right = { λ v. idle };
}

/// Two passes become one.
pub struct Joins;

impl<T> Join<Side<T>> for Joins {
    ghost use Rattle.stage_queues.specs.Rule.{both_sides, idle};

    ghost both = { both_sides };

    ghost spent = { idle };
}

impl<T> Lesson<(u8, Taken<T>), Side<T>> for Joins {
    ghost use Rattle.stage_queues.specs.Rule.{Agreed};

    ghost fact = { Agreed };
}
