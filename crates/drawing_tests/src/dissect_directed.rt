//! Directions worked out by hand, and refused allocations.

use crate::planes::bent_triangle_in;
use dissect::{DirectionSearch, directions_in};
use faces::Plane;
use ortho_rep::{Shape, Turn, is_shape};
use std::alloc::{AllocError, Global};
use std::process::Abort;
use test_tools::records::{EDGE, TRIANGLE};
use test_tools::{plane_in, same, shape_in};

/// The directions of a shape, by the second call if the first one runs out of memory.
fn headings_at_last(rt: &impl Abort, alloc: Global, plane: &Plane, shape: &Shape) -> Vec<u8> {
    assert!(rt; is_shape(plane, shape));
    let found = match directions_in(plane, shape, DirectionSearch::empty(alloc)) {
        Ok(found) => found,
        Err(AllocError) => directions_in(plane, shape, DirectionSearch::empty(alloc)).expect(
            rt, "memory",
        ),
    };
    found.directions
}

/// Whether a shape of the plane of these bytes has these directions; `None` if memory runs out for the plane.
fn has_headings(
    rt: &impl Abort,
    alloc: Global,
    record: &[u8],
    shape: &Shape,
    want: &[u8],
) -> Option<bool> {
    let plane = plane_in(alloc, record)?;
    Some(headings_at_last(rt, alloc, &plane, shape).as_slice() == want)
}

const L: Turn = Turn::Left;

const R: Turn = Turn::Right;

/// Strings of an edge, and the directions of its darts.
const EDGES: [([&[Turn]; 2], [u8; 2]); 4] = [
    ([&[], &[]], [0, 2]),
    ([&[L], &[R]], [0, 1]),
    ([&[R], &[L]], [0, 3]),
    ([&[L, L, R, L], &[R, L, R, R]], [0, 0]),
];

/// The directions of the darts of an edge are those worked out by hand.
#[test]
fn worked_out_by_hand(rt: HostRuntime) {
    for (strings, want) in EDGES {
        let shape = shape_in(rt.alloc(), &[4, 4], &strings).expect(&rt, "a shape");
        let found = has_headings(&rt, rt.alloc(), EDGE, &shape, &want);
        same!(&rt, found, Some(true));
    }
}

/// If memory runs out, the answer says so, and the plane and the shape stay as they were.
/// The edge of the triangle from 1 to 3 bends once.
#[test]
fn refused_allocations(rt: HostRuntime) {
    let Some(shape) = bent_triangle_in(rt.alloc()) else {
        return;
    };
    let want = [0, 0, 3, 2, 1, 1];
    let found = has_headings(&rt, rt.alloc(), TRIANGLE, &shape, &want);
    same!(&rt, found.unwrap_or(true), true);
}
