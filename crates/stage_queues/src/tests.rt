use crate::bell::{Bell, Waiter};
use crate::inlet::Inlet;
use crate::lane::{lane, lane_with_bell};
use crate::outlet::Outlet;
use crate::taken::{Full, Taken};
use std::sync::{Arc, Wait};
use std::test::*;
use std::thread;

const ITEMS: u32 = 100_000;

#[test]
fn a_lane_of_two(rt: HostRuntime) -> Result<(), Fail> {
    let (mut inlets, mut outlet) = lane::<u8>(rt.alloc(), 2, 1)?;
    let mut inlet = inlets.remove(0);
    assert_eq!(rt; outlet.take_waiting(&rt), None);
    assert_eq!(rt; inlet.room(&rt), 2);
    assert_eq!(rt; inlet.put(&rt, 1), Ok(()));
    assert_eq!(rt; inlet.put(&rt, 2), Ok(()));
    assert_eq!(rt; inlet.put(&rt, 3), Err(Full(3)));
    assert_eq!(rt; inlet.room(&rt), 0);
    assert_eq!(rt; outlet.take(&rt), Some((0, Taken::Item(1))));
    assert_eq!(rt; inlet.put(&rt, 3), Ok(()));
    assert_eq!(rt; outlet.take(&rt), Some((0, Taken::Item(2))));
    let _ = inlet.pass();
    let _ = inlet.end(&rt);
    assert_eq!(rt; outlet.take(&rt), Some((0, Taken::Item(3))));
    assert_eq!(rt; outlet.is_finished(), false);
    assert_eq!(rt; outlet.take_waiting(&rt), Some((0, Taken::End)));
    assert_eq!(rt; outlet.is_finished(), true);
    assert_eq!(rt; outlet.take(&rt), None);
    let _ = outlet.pass();
    Ok(())
}

#[test]
fn passes_join(rt: HostRuntime) -> Result<(), Fail> {
    let (mut inlets, mut outlet) = lane::<u8>(rt.alloc(), 1, 1)?;
    let mut pass = inlets.remove(0).end(&rt);
    assert_eq!(rt; outlet.take(&rt), Some((0, Taken::End)));
    pass.join(outlet.finish());
    Ok(())
}

// Puts 0 and so on to ITEMS - 1 and then End, by turns with and without waiting.
fn put_numbers<R: Wait>(rt: &R, mut inlet: Inlet<u32>) {
    for number in 0..ITEMS {
        if number % 2 == 0 || inlet.put(rt, number).is_err() {
            inlet.put_waiting(rt, number);
        }
    }
    let _ = inlet.end(rt);
}

// Whether the numbers of each producer come in its order and then its End.
fn come_in_order<R: Wait>(rt: &R, mut outlet: Outlet<u32>) -> bool {
    let mut next = [0u32; 4];
    for _ in rt.forever() {
        if outlet.is_finished() {
            return true;
        }
        let Some((number, taken)) = outlet.take_waiting(rt) else {
            continue;
        };
        match next.get_mut(usize::from(number)) {
            Some(n) if *n < ITEMS && taken == Taken::Item(*n) => *n += 1,
            Some(n) if *n == ITEMS && taken == Taken::End => {}
            _ => return false,
        }
    }
    unreachable!()
}

#[test]
fn two_threads(rt: HostRuntime) -> Result<(), Fail> {
    let (mut inlets, outlet) = lane::<u32>(rt.alloc(), 16, 1)?;
    let inlet = inlets.remove(0);
    let (_, came) = thread::join(
        &rt,
        move || put_numbers(&rt, inlet),
        move || come_in_order(&rt, outlet),
    );
    assert_eq!(rt; came, true);
    Ok(())
}

#[test]
fn four_producers(rt: HostRuntime) -> Result<(), Fail> {
    let (mut inlets, outlet) = lane::<u32>(rt.alloc(), 16, 4)?;
    let fourth = inlets.remove(3);
    let third = inlets.remove(2);
    let second = inlets.remove(1);
    let first = inlets.remove(0);
    let (_, (_, (_, (_, came)))) = thread::join(
        &rt,
        move || put_numbers(&rt, first),
        move || {
            thread::join(
                &rt,
                move || put_numbers(&rt, second),
                move || {
                    thread::join(
                        &rt,
                        move || put_numbers(&rt, third),
                        move || {
                            thread::join(
                                &rt,
                                move || put_numbers(&rt, fourth),
                                move || come_in_order(&rt, outlet),
                            )
                        },
                    )
                },
            )
        },
    );
    assert_eq!(rt; came, true);
    Ok(())
}

// The sum of all items of two lanes, which ring one bell.
fn sum_of_both<R: Wait>(rt: &R, bell: &Bell, mut lanes: [Outlet<u32>; 2]) -> u64 {
    let mut sum = 0u64;
    let mut waiter = Waiter::new();
    for _ in rt.forever() {
        let mut found = false;
        for outlet in &mut lanes {
            if let Some((_, taken)) = outlet.take(rt) {
                found = true;
                if let Taken::Item(item) = taken {
                    sum = sum.wrapping_add(u64::from(item));
                }
            }
        }
        if lanes[0].is_finished() && lanes[1].is_finished() {
            return sum;
        }
        if found {
            waiter = Waiter::new();
        } else {
            waiter.pause(rt, bell);
        }
    }
    unreachable!()
}

#[test]
fn two_lanes_of_one_bell(rt: HostRuntime) -> Result<(), Fail> {
    let bell = Arc::new(rt.alloc(), Bell::new())?;
    let (mut inlets, urgent) = lane_with_bell::<u32>(rt.alloc(), 4, 1, &bell)?;
    let first = inlets.remove(0);
    let (mut inlets, bulk) = lane_with_bell::<u32>(rt.alloc(), 4, 1, &bell)?;
    let second = inlets.remove(0);
    let (_, sum) = thread::join(
        &rt,
        move || {
            put_numbers(&rt, first);
            put_numbers(&rt, second);
        },
        move || sum_of_both(&rt, &bell, [urgent, bulk]),
    );
    assert_eq!(rt; sum, 9_999_900_000);
    Ok(())
}
