//! A drawing worked out by hand, and refused allocations.

use crate::planes::{bent_triangle_in, spiral_in};
use dissect::{
    DartTable, DirectionSearch, NO_DART, directions_in, lesser_darts_of, normalize_into,
};
use faces::Plane;
use ortho_rep::{Shape, is_shape};
use std::alloc::{AllocError, Global};
use std::fmt::Debug;
use std::process::Abort;
use test_tools::records::{EDGE, TRIANGLE};
use test_tools::{plane_in, same};

/// The drawing of a shape, which is an orthogonal representation.
fn bend_of(
    rt: &impl Abort,
    alloc: Global,
    plane: &Plane,
    shape: &Shape,
) -> Result<DartTable, AllocError> {
    assert!(rt; is_shape(plane, shape));
    let found = directions_in(plane, shape, DirectionSearch::empty(alloc))?;
    let edges = lesser_darts_of(plane, Vec::new(alloc))?;
    normalize_into(
        DartTable::empty(alloc),
        plane,
        shape,
        &found.directions,
        &edges,
    )
}

/// Checks that a list begins with these elements.
fn begins<T: PartialEq + Debug>(rt: &impl Abort, list: &[T], want: &[T]) {
    assert!(rt; list.starts_with(want));
}

/// Checks the numbers of the edge with one bend: dart 2 is in front of dart 0, and dart 3 in front of dart 1.
fn expect_bent_edge(rt: &impl Abort, table: &DartTable) {
    same!(
        rt,
        (table.darts, table.vertices, table.next.len()),
        (4, 3, 48),
    );
    for (list, want) in [
        (&table.next, [3, 2, 0, 1]),
        (&table.prev, [2, 3, 1, 0]),
        (&table.reverse_dart, [3, 2, 1, 0]),
        (&table.head, [1, 0, 2, 2]),
        (&table.before, [2, 3, NO_DART, NO_DART]),
    ] {
        begins(rt, list, &want);
    }
    begins(rt, &table.direction, &[0, 1, 3, 2]);
    begins(rt, &table.angle, &[4, 4, 1, 3]);
}

/// The drawing of a shape of an edge.
fn bent_edge(rt: &impl Abort, alloc: Global, shape: &Shape) -> DartTable {
    let plane = plane_in(alloc, EDGE).expect(rt, "a plane");
    bend_of(rt, alloc, &plane, shape).expect(rt, "memory")
}

/// The drawing of an edge with one bend is the one worked out by hand.
#[test]
fn edge_with_one_bend(rt: HostRuntime) {
    let shape = spiral_in(rt.alloc(), 1).expect(&rt, "a shape");
    expect_bent_edge(&rt, &bent_edge(&rt, rt.alloc(), &shape));
}

/// The number of darts of the drawing of a shape, by the second call if the first one runs out of memory.
fn darts_at_last(
    rt: &impl Abort,
    alloc: Global,
    plane: &Plane,
    shape: &Shape,
) -> Result<u32, AllocError> {
    match bend_of(rt, alloc, plane, shape) {
        Ok(table) => Ok(table.darts),
        Err(AllocError) => Ok(bend_of(rt, alloc, plane, shape)?.darts),
    }
}

/// If memory runs out, the answer says so, and the plane and the shape stay as they were.
#[test]
fn refused_allocations(rt: HostRuntime) {
    let Some(plane) = plane_in(rt.alloc(), TRIANGLE) else {
        return;
    };
    if let Some(shape) = bent_triangle_in(rt.alloc()) {
        same!(&rt, darts_at_last(&rt, rt.alloc(), &plane, &shape), Ok(8));
    }
}
