//! How a lane is made.

ghost use Rattle.std.specs.Prelude.{◌≡◌, ◌≤◌, ◌<◌, ℕ, [], Some, slice_get, length, IfOk};
ghost use Rattle.std.specs.Arc.{arc_value};
ghost use Rattle.crossbeam_queue.specs.Passes.{IsPassOf, ruled_capacity, view};
ghost use Rattle.stage_queues.specs.Lanes.{new_inlet};
ghost use Rattle.stage_queues.specs.Rule.{first_side, inlets_of, lane_at, consumer_side};

use crate::bell::Bell;
use crate::inlet::Inlet;
use crate::outlet::Outlet;
use crate::pass::Pass;
use crate::rule::{Makes, Opens, Queue, Seat, Size};
use jp_types::memory::NoMemory;
use std::alloc::Global;
use std::marker::Brand;
use std::sync::Arc;

/// A lane of this capacity: an end for each producer, whose numbers count from 0, and the consumer's end.
pub fn lane<T: Drop>(
    alloc: Global,
    capacity: usize,
    producers: u8,
) -> Result<(Vec<Inlet<T>>, Outlet<T>), NoMemory>
    requires capacity { 1 ≤ capacity }
    requires producers { (1 ≤ producers) × (producers ≤ 16) }
    ensures size { IfOk result (λ ends. (ends.1.lane.capacity ≡ capacity) × (ends.1.lane.producers ≡ producers)) }
    ensures count { IfOk result (λ ends. length ends.0.items ≡ producers) }
    ensures inlets { IfOk result (λ ends. (p : ℕ) → p < producers → slice_get ends.0.items p ≡ Some (new_inlet ends.1.lane p)) }
    ensures outlet { IfOk result (λ ends. ends.1.taken ≡ []) }
{
    let bell = Arc::new(alloc, Bell::new())?;
    lane_with_bell(alloc, capacity, producers, &bell)
}

/// The same, where each put and each End rings this bell. So a consumer of several lanes waits for all of them at once.
pub fn lane_with_bell<T: Drop>(
    alloc: Global,
    capacity: usize,
    producers: u8,
    bell: &Arc<Bell, Global>,
) -> Result<(Vec<Inlet<T>>, Outlet<T>), NoMemory>
    requires capacity { 1 ≤ capacity }
    requires producers { (1 ≤ producers) × (producers ≤ 16) }
    ensures size { IfOk result (λ ends. (ends.1.lane.capacity ≡ capacity) × (ends.1.lane.producers ≡ producers)) }
    ensures count { IfOk result (λ ends. length ends.0.items ≡ producers) }
    ensures inlets { IfOk result (λ ends. (p : ℕ) → p < producers → slice_get ends.0.items p ≡ Some (new_inlet ends.1.lane p)) }
    ensures outlet { IfOk result (λ ends. ends.1.taken ≡ []) }
{
    let (queue, seat) = Queue::ruled(alloc, capacity)?;
    let queue = Arc::new(alloc, queue)?;
    let bells = Bells {
        elements: Arc::try_clone(bell)?,
        room: Arc::new(alloc, Bell::new())?,
    };
    let seat = opened::<T, Brand>(&queue, seat, capacity, producers);
    let (inlets, seat) = inlets(alloc, &queue, &bells, seat, producers)?;
    let outlet = Outlet::new(Pass { queue, seat }, bells, producers);
    Ok((inlets, outlet))
}

/// The bells of a lane. The one is rung after a put and after an End, the other after a take.
#[derive(Drop)]
pub(crate) struct Bells {
    pub(crate) elements: Arc<Bell, Global>,
    pub(crate) room: Arc<Bell, Global>,
}

impl Bells {
    fn share(&self) -> Result<Bells, NoMemory> {
        Ok(Bells {
            elements: Arc::try_clone(&self.elements)?,
            room: Arc::try_clone(&self.room)?,
        })
    }
}

// The first pass of the queue becomes that of the consumer of an opened lane.
fn opened<T: Drop, N: Size>(
    queue: &Arc<Queue<T>, Global>,
    mut seat: Seat<T>,
    capacity: usize,
    producers: u8,
) -> Seat<T>
    requires size { (capacity ≡ N.capacity) × (producers ≡ N.producers) }
    requires seat { IsPassOf (arc_value queue.now) seat × (view seat ≡ first_side) }
    ensures seat { IsPassOf (arc_value queue.now) result × (view result ≡ consumer_side capacity producers (Some 0) []) }
{
    let _ = queue.another::<Opens<N>>(&mut seat);
    seat
}

// The ends of all producers.
fn inlets<T: Drop>(
    alloc: Global,
    queue: &Arc<Queue<T>, Global>,
    bells: &Bells,
    mut seat: Seat<T>,
    producers: u8,
) -> Result<(Vec<Inlet<T>>, Seat<T>), NoMemory>
    requires seat { IsPassOf (arc_value queue.now) seat × (view seat ≡ consumer_side (ruled_capacity (arc_value queue.now)) producers (Some 0) []) }
    ensures seat { IfOk result (λ made. IsPassOf (arc_value queue.now) made.1 × (view made.1 ≡ consumer_side (ruled_capacity (arc_value queue.now)) producers (Some producers) [])) }
    ensures inlets { IfOk result (λ made. made.0.items ≡ inlets_of (lane_at seat.table_id (ruled_capacity (arc_value queue.now)) producers) producers) }
{
    let mut made = Vec::new(alloc);
    for number in 0..producers {
        let theirs = queue.another::<Makes>(&mut seat);
        let pass = Pass {
            queue: Arc::try_clone(queue)?,
            seat: theirs,
        };
        made.push(Inlet::new(pass, number, bells.share()?))?;
    }
    Ok((made, seat))
}
