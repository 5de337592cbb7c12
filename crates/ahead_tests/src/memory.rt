//! Calls that allocate nothing. `checks/refuse-allocations` refuses each allocation of these tests in turn: all of them
//! are in the calls that make the ends, and a refused one ends the test.

use ruled_lanes::{Tickets, fan_in, link};
use std::test::*;
use test_tools::same;

/// The calls on a link allocate nothing.
#[test]
fn a_link_takes_no_memory(rt: HostRuntime) {
    if let Ok((mut giver, mut taker)) = link(rt.alloc(), 2) {
        same!(&rt, giver.give(&rt, 5u32), Ok(()));
        same!(&rt, giver.give(&rt, 6), Ok(()));
        same!(&rt, taker.take(&rt), Ok(5));
        taker.settle(&rt, giver);
    }
}

/// The calls on a fan allocate nothing.
#[test]
fn a_fan_takes_no_memory(rt: HostRuntime) {
    if let Ok((mut givers, mut gatherer)) = fan_in(rt.alloc(), 2) {
        same!(&rt, givers[1].lane(), 1);
        same!(&rt, givers[1].give(&rt, 5u32), Ok(()));
        same!(&rt, givers[7].give(&rt, 6), Ok(()));
        same!(&rt, gatherer.take(&rt), Ok((1, 5)));
        gatherer.settle(&rt, givers);
    }
}

/// The calls on tickets allocate nothing.
#[test]
fn tickets_take_no_memory(rt: HostRuntime) {
    if let Ok((tickets, mut seats)) = Tickets::new(rt.alloc(), 1, 1) {
        same!(&rt, tickets.draw(&mut seats[0]), Some(0));
        same!(&rt, tickets.draw(&mut seats[0]), None);
        same!(&rt, tickets.close(seats), 2);
    }
}
