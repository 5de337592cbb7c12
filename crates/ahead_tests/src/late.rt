//! Ends that are late: a call waits for the other end however long that takes.

use crate::ends::joins;
use crate::{fans, links};
use ruled_lanes::{Gatherer, Taker, fan_in};
use std::rt::Clock;
use std::sync::Wait;
use std::test::*;
use std::thread;
use std::time::Duration;
use test_tools::same;

/// Sleeps for two seconds, which is long after all attempts of a call.
fn be_late(rt: &impl Clock) {
    thread::sleep(rt, Duration::from_secs(2));
}

/// The number taken of a link, or 0.
fn taken(rt: &impl Wait, mut taker: Taker<u32>) -> u32 {
    taker.take(rt).unwrap_or(0)
}

/// The number taken of a fan, or 0.
fn gathered(rt: &impl Wait, mut gatherer: Gatherer<u32>) -> u32 {
    match gatherer.take(rt) {
        Ok((_lane, item)) => item,
        Err(_) => 0,
    }
}

/// A take waits for a giver that is two seconds late.
#[test]
fn takes_wait_for_late_givers(rt: HostRuntime) {
    let (mut giver, taker) = ruled_lanes::link(rt.alloc(), 1).expect(&rt, "memory");
    let (mut givers, gatherer) = fan_in(rt.alloc(), 1).expect(&rt, "memory");
    let of_link = thread::spawn(&rt, move || taken(&rt, taker)).expect(&rt, "a thread");
    let of_fan = thread::spawn(&rt, move || gathered(&rt, gatherer)).expect(&rt, "a thread");
    be_late(&rt);
    same!(&rt, giver.give(&rt, 7u32), Ok(()));
    same!(&rt, givers[3].give(&rt, 8u32), Ok(()));
    joins(&rt, of_link, 7, 7);
    joins(&rt, of_fan, 8, 8);
}

/// There is room for the first number, and the second one waits.
#[test]
fn gives_wait_for_late_takers(rt: HostRuntime) {
    let (giver, taker) = ruled_lanes::link(rt.alloc(), 1).expect(&rt, "memory");
    let (mut givers, mut gatherer) = fan_in(rt.alloc(), 1).expect(&rt, "memory");
    let last = givers.pop().expect(&rt, "a giver");
    let to_link = thread::spawn(&rt, move || links::give_below(&rt, giver, 2));
    let to_fan = thread::spawn(&rt, move || fans::give_below(&rt, last, 2));
    be_late(&rt);
    links::take_below(&rt, taker, 2);
    same!(&rt, gatherer.take(&rt), Ok((7, 0)));
    same!(&rt, gatherer.take(&rt), Ok((7, 1)));
    joins(&rt, to_link.expect(&rt, "a thread"), 2, 2);
    joins(&rt, to_fan.expect(&rt, "a thread"), 2, 2);
}
