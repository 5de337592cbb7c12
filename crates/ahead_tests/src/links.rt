//! Links: ends that are gone, a giver that waits, messages in order.
ghost use Rattle.std.specs.Prelude.{◌≤◌};
ghost use Rattle.ruled_lanes.specs.declared.channel.TheConstants.{MAX_CAPACITY};

use crate::ends::{answer, joins};
use ruled_lanes::{Giver, MAX_CAPACITY, Memory, Taker, link};
use std::alloc::Global;
use std::process::Abort;
use std::sync::Wait;
use std::test::*;
use std::thread;
use std::thread::Threads;
use test_tools::same;

/// Takes the numbers below `count`, and then no more arrive.
pub(crate) fn take_below<R: Wait + Abort>(rt: &R, mut taker: Taker<u32>, count: u32) {
    for item in 0..count {
        same!(rt, taker.take(rt), Ok(item));
    }
    same!(rt, answer(taker.take(rt)), Err(()));
}

/// Gives the numbers below `count`, until one is refused; returns that one, or `count`.
pub(crate) fn give_below(rt: &impl Wait, mut giver: Giver<u32>, count: u32) -> u32 {
    for item in 0..count {
        if let Err(closed) = giver.give(rt, item) {
            return closed.into_inner();
        }
    }
    count
}

/// Messages arrive after their giver is gone, and then no more.
#[test]
fn the_giver_is_gone(rt: HostRuntime) {
    let (giver, taker) = link(rt.alloc(), 4).expect(&rt, "memory");
    same!(&rt, give_below(&rt, giver, 3), 3);
    take_below(&rt, taker, 3);
}

/// A message is returned to its giver if the taker is gone.
#[test]
fn the_taker_is_gone(rt: HostRuntime) {
    let (mut giver, taker) = link(rt.alloc(), 4).expect(&rt, "memory");
    drop(taker);
    same!(&rt, answer(giver.give(&rt, 7u32)), Err(7));
}

/// A thousand numbers go from one thread to another.
fn pass_through<R: Threads + Wait + Abort + Copy + Send + 'static>(
    rt: R,
    alloc: Global,
    capacity: u32,
)
    requires capacity { (1 ≤ capacity) × (capacity ≤ MAX_CAPACITY) }
{
    let (giver, taker) = link(alloc, capacity).expect(&rt, "memory");
    let child = thread::spawn(&rt, move || give_below(&rt, giver, 1000)).expect(&rt, "a thread");
    take_below(&rt, taker, 1000);
    joins(&rt, child, 1000, 1000);
}

/// A giver that waits for room is refused when the taker is dropped.
#[test]
fn a_giver_that_waits_is_refused(rt: HostRuntime) {
    let (giver, mut taker) = link(rt.alloc(), 1).expect(&rt, "memory");
    let child = thread::spawn(&rt, move || give_below(&rt, giver, 1000)).expect(&rt, "a thread");
    same!(&rt, taker.take(&rt), Ok(0));
    drop(taker);
    joins(&rt, child, 1, 2);
}

/// A thousand messages arrive in order between two threads.
#[test]
fn a_thousand_in_order(rt: HostRuntime) {
    for capacity in [1, 2, MAX_CAPACITY] {
        pass_through(rt, rt.alloc(), capacity);
    }
}

/// A refused allocation is a fault, and a second call makes the link.
#[test]
fn refused_memory_is_told(rt: HostRuntime) {
    let (mut giver, mut taker) = match link(rt.alloc(), 2) {
        Ok(ends) => ends,
        Err(Memory) => link(rt.alloc(), 2).expect(&rt, "memory"),
    };
    same!(&rt, giver.give(&rt, 5u32), Ok(()));
    same!(&rt, taker.take(&rt), Ok(5));
}

/// The errors of links have their messages.
#[test]
fn messages(rt: HostRuntime) {
    let (mut giver, taker) = link(rt.alloc(), 1).expect(&rt, "memory");
    drop(taker);
    let closed = giver.give(&rt, 3u32).expect_err(&rt, "no taker");
    let told = format!(in rt.alloc(); "{closed} {closed:?} {Memory}");
    let told = told.expect(&rt, "memory");
    let wanted = "the other end of the channel is gone Closed(..) out of memory";
    same!(&rt, told.as_str(), wanted);
}
