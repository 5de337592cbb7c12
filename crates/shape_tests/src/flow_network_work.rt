//! How much work the solver does on the networks of planes, and least shapes of hundreds of darts.

ghost use Rattle.std.specs.Prelude.{◌≤◌};
ghost use Rattle.ortho_rep.specs.Representation.{HasDarts};

use crate::ortho_rep_shapes::expect_least;
use faces::Plane;
use flow_network::FaceNet;
use min_cost_flow::{Arc, Cap, Network, SolveFault, solve};
use ortho_rep::{Shape, least_shape};
use std::alloc::{AllocError, Global};
use std::process::Abort;
use test_tools::records::{EDGE, OCTAHEDRON, TRIANGLE, longest_cycle};
use test_tools::{plane_in, same};

/// The number of units supplied in a network.
fn supplied_in(network: &Network) -> u64 {
    let mut units = 0u64;
    for supply in network.supplies() {
        units = units.wrapping_add(u64::from(supply.max(&0).unsigned_abs()));
    }
    units
}

/// The numbers of searches and looks that the solver makes.
fn work_of(alloc: Global, network: &Network) -> Result<(u64, u64), SolveFault> {
    let solved = solve(alloc, network)?;
    Ok((u64::from(solved.searches()), solved.looks()))
}

/// Checks the units supplied and the arcs of a network, and the work of the solver. There is at most one search for
/// each unit, and at most twice as many looks in a search as there are arcs; there is at least one search and one look.
fn expect_work(rt: &impl Abort, alloc: Global, network: &Network, supplied: u64, arcs: u64) {
    let counts = (supplied_in(network), network.arc_count() as u64);
    same!(rt, counts, (supplied, arcs));
    let (searches, looks) = work_of(alloc, network).expect(rt, "a flow");
    expect_between(rt, searches, supplied);
    expect_between(rt, looks, supplied.wrapping_mul(2).wrapping_mul(arcs));
}

/// Checks that a number is at least 1 and at most this.
fn expect_between(rt: &impl Abort, number: u64, most: u64) {
    assert!(rt; 1 <= number && number <= most, "{number} of {most}");
}

/// Checks the work of the solver on the network of a plane.
fn expect_plane_work(rt: &impl Abort, alloc: Global, bytes: &[u8], supplied: u64, arcs: u64) {
    let plane = plane_in(alloc, bytes).expect(rt, "a plane");
    let net = FaceNet::build(alloc, &plane).expect(rt, "memory");
    expect_work(rt, alloc, net.network(), supplied, arcs);
}

/// Three nodes in a row by free arcs, of which the first carries one unit, and a dear arc past them.
const FREE_WAY: [Arc; 3] = [
    Arc {
        from: 0,
        to: 2,
        cap: Cap::Any,
        cost: 1,
    },
    Arc {
        from: 0,
        to: 1,
        cap: Cap::AtMost(1),
        cost: 0,
    },
    Arc {
        from: 1,
        to: 2,
        cap: Cap::Any,
        cost: 0,
    },
];

/// A network in which two units have a way without cost.
fn free_way(rt: &impl Abort, alloc: Global) -> Network {
    let supplies = [2, 0, -2].to_vec(alloc).expect(rt, "memory");
    let arcs = FREE_WAY.to_vec(alloc).expect(rt, "memory");
    Network::new(supplies, arcs).expect(rt, "a network")
}

/// The searches and looks of the solver are bounded by the units and arcs of the network.
#[test]
fn little_work(rt: HostRuntime) {
    let alloc = rt.alloc();
    expect_work(&rt, alloc, &free_way(&rt, alloc), 2, 3);
    let cycle = longest_cycle(alloc).expect(&rt, "memory");
    for (bytes, supplied, arcs) in [
        (EDGE, 6, 4),
        (TRIANGLE, 7, 12),
        (OCTAHEDRON, 7, 48),
        (&cycle, 510, 1020),
    ] {
        expect_plane_work(&rt, alloc, bytes, supplied, arcs);
    }
}

/// Two cycles of this many vertices, each vertex of the inner one joined to one of the outer one and the next.
fn antiprism(alloc: Global, count: u8) -> Result<Vec<u8>, AllocError>
    requires { count ≤ 60 }
{
    let mut bytes = Vec::new(alloc);
    bytes.push(2 * count)?;
    for place in 0..count {
        let next = if place + 1 == count { 1 } else { place + 2 };
        let last = if place == 0 { count } else { place };
        bytes.extend_from_slice(&[next, last, count + last, count + place + 1, 0])?;
    }
    for place in 0..count {
        let next = if place + 1 == count { 1 } else { place + 2 };
        let last = if place == 0 { count } else { place };
        bytes.extend_from_slice(&[count + next, next, place + 1, count + last, 0])?;
    }
    Ok(bytes)
}

/// An antiprism of 128 darts and one of 400 need the bends that LEMON's network simplex found.
#[test]
fn hundreds_of_darts(rt: HostRuntime) {
    for (count, bends) in [(16, 36), (50, 104)] {
        let bytes = antiprism(rt.alloc(), count).expect(&rt, "memory");
        expect_least(&rt, rt.alloc(), &bytes, bends);
    }
}

/// The most turns that a dart has.
fn most_turns(plane: &Plane, shape: &Shape) -> usize
    requires { HasDarts plane.now shape.now }
{
    let mut most = 0;
    for dart in 0..plane.graph().darts() {
        most = shape.turns(dart).len().max(most);
    }
    most
}

/// The most bends of an edge in a least shape of these bytes.
fn most_bends(rt: &impl Abort, alloc: Global, bytes: &[u8]) -> usize {
    let plane = plane_in(alloc, bytes).expect(rt, "a plane");
    let (shape, _prices) = least_shape(alloc, &plane).expect(rt, "memory");
    most_turns(&plane, &shape)
}

/// The octahedron has no drawing with at most two bends an edge.
#[test]
fn an_edge_bends_three_times(rt: HostRuntime) {
    let most = most_bends(&rt, rt.alloc(), OCTAHEDRON);
    assert!(rt; 3 <= most, "{most} bends");
}
