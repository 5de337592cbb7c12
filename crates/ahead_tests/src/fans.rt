//! Fans: ends that are gone, givers that wait, all lanes at once.
ghost use Rattle.std.specs.Prelude.{◌≤◌};
ghost use Rattle.ruled_lanes.specs.declared.channel.TheConstants.{MAX_CAPACITY};

use crate::ends::{answer, joins};
use ruled_lanes::{Gatherer, LANES, LaneGiver, MAX_CAPACITY, Memory, fan_in};
use std::alloc::Global;
use std::process::Abort;
use std::sync::Wait;
use std::test::*;
use std::thread;
use std::thread::{JoinHandle, Threads};
use test_tools::same;

/// A refused allocation is a fault, and a second call makes the fan. Items arrive in order with their lanes, and then
/// no more arrive once all givers are gone.
#[test]
fn refused_memory_is_told(rt: HostRuntime) {
    let (mut givers, mut gatherer) = match fan_in(rt.alloc(), 8) {
        Ok(ends) => ends,
        Err(Memory) => fan_in(rt.alloc(), 8).expect(&rt, "memory"),
    };
    let items = [(0, 10), (2, 20), (0, 11)];
    for (lane, item) in items {
        same!(&rt, givers[lane].give(&rt, item), Ok(()));
    }
    drop(givers);
    for (lane, item) in items {
        same!(&rt, gatherer.take(&rt), Ok((lane as u32, item)));
    }
    same!(&rt, answer(gatherer.take(&rt)), Err(()));
}

/// Items arrive in order with their lanes, and then the gatherer takes all givers in.
#[test]
fn all_givers_are_taken_in(rt: HostRuntime) {
    let (mut givers, mut gatherer) = fan_in(rt.alloc(), 8).expect(&rt, "memory");
    same!(&rt, givers[0].give(&rt, 10), Ok(()));
    same!(&rt, givers[2].give(&rt, 20), Ok(()));
    same!(&rt, givers[0].give(&rt, 11), Ok(()));
    same!(&rt, gatherer.take(&rt), Ok((0, 10)));
    same!(&rt, gatherer.take(&rt), Ok((2, 20)));
    same!(&rt, gatherer.take(&rt), Ok((0, 11)));
    gatherer.settle(&rt, givers);
}

/// Items are returned to their givers if the gatherer is gone.
#[test]
fn the_gatherer_is_gone(rt: HostRuntime) {
    let (mut givers, gatherer) = fan_in(rt.alloc(), 4).expect(&rt, "memory");
    drop(gatherer);
    for giver in &mut givers {
        same!(&rt, answer(giver.give(&rt, 7u32)), Err(7));
    }
}

/// Gives the numbers below `count`, until one is refused; returns that one, or `count`.
pub(crate) fn give_below(rt: &impl Wait, mut giver: LaneGiver<u32>, count: u32) -> u32 {
    for item in 0..count {
        if let Err(closed) = giver.give(rt, item) {
            return closed.into_inner();
        }
    }
    count
}

/// Starts a thread for each giver, which gives the numbers below `count`.
fn start<R: Threads + Wait + Abort + Copy + Send + 'static>(
    rt: R,
    alloc: Global,
    givers: Vec<LaneGiver<u32>>,
    count: u32,
) -> Vec<JoinHandle<u32>> {
    let mut children = Vec::new(alloc);
    for giver in givers {
        let child = thread::spawn(&rt, move || give_below(&rt, giver, count));
        let pushed = children.push(child.expect(&rt, "a thread"));
        pushed.expect(&rt, "memory");
    }
    children
}

const LANE_COUNT: usize = LANES as usize;

/// Takes 250 numbers of each lane, each lane's in order, and then no more arrive.
fn take_all<R: Wait + Abort>(rt: &R, mut gatherer: Gatherer<u32>) {
    let mut next = [0u32; LANE_COUNT];
    for _ in 0..LANES * 250 {
        let (lane, item) = gatherer.take(rt).expect(rt, "an item");
        let due = &mut next[lane as usize];
        same!(rt, item, *due);
        *due = due.saturating_add(1);
    }
    same!(rt, next, [250; LANE_COUNT]);
    same!(rt, answer(gatherer.take(rt)), Err(()));
}

/// Each lane gives from a thread of its own, and the numbers of each arrive in order.
fn gather_through<R: Threads + Wait + Abort + Copy + Send + 'static>(
    rt: R,
    alloc: Global,
    capacity: u32,
)
    requires capacity { (1 ≤ capacity) × (capacity ≤ MAX_CAPACITY) }
{
    let (givers, gatherer) = fan_in(alloc, capacity).expect(&rt, "memory");
    let children = start(rt, alloc, givers, 250);
    take_all(&rt, gatherer);
    for child in children {
        joins(&rt, child, 250, 250);
    }
}

/// All lanes can give at once, and the items of each arrive in order.
#[test]
fn all_lanes_give_at_once(rt: HostRuntime) {
    for capacity in [1, 3, MAX_CAPACITY] {
        gather_through(rt, rt.alloc(), capacity);
    }
}

/// Givers that wait for room are refused when the gatherer is dropped.
#[test]
fn givers_that_wait_are_refused(rt: HostRuntime) {
    let (givers, mut gatherer) = fan_in(rt.alloc(), 1).expect(&rt, "memory");
    let children = start(rt, rt.alloc(), givers, 1000);
    let (_, item) = gatherer.take(&rt).expect(&rt, "an item");
    same!(&rt, item, 0);
    drop(gatherer);
    for child in children {
        joins(&rt, child, 0, 2);
    }
}
