//! Dissections and coordinates that may run out of memory. `checks/refuse-allocations` refuses each allocation of these
//! tests in turn: a second call answers as without the refusal. If a refusal comes before the call, the test ends.

use crate::planes::{bent_triangle_in, boxes_of};
use compact::{CompactFault, compact};
use dissect::Boxes;
use faces::Plane;
use ortho_rep::{Points, Shape};
use std::alloc::{AllocError, Global};
use std::process::Abort;
use test_tools::records::TRIANGLE;
use test_tools::{plane_in, same};

/// Whether two dissections have the same vertices and darts.
fn have_same_darts(one: &Boxes, other: &Boxes) -> bool {
    if one.vertices() != other.vertices() || one.darts() != other.darts() {
        return false;
    }
    for dart in 0..one.darts() {
        let ends = (one.tail(dart), one.head(dart)) == (other.tail(dart), other.head(dart));
        let next = (one.next(dart), one.before(dart)) == (other.next(dart), other.before(dart));
        let reverse = one.reverse(dart) == other.reverse(dart);
        if !ends || !next || !reverse || one.direction(dart) != other.direction(dart) {
            return false;
        }
    }
    true
}

/// Whether the vertices and edges of the plane are the same in two dissections, and edges run along the same darts.
fn have_same_plane(one: &Boxes, other: &Boxes) -> bool {
    if one.old_vertices() != other.old_vertices() || one.edges() != other.edges() {
        return false;
    }
    for before in 0..one.old_vertices() {
        if one.old(before + 1) != other.old(before + 1) {
            return false;
        }
    }
    for edge in 0..one.edges() {
        if one.path(edge) != other.path(edge) {
            return false;
        }
    }
    true
}

/// Whether two dissections are the same.
pub(crate) fn are_same(one: &Boxes, other: &Boxes) -> bool {
    have_same_darts(one, other) && have_same_plane(one, other)
}

/// The boxes of a shape, by the second call if the first one runs out of memory.
fn dissected_at_last(rt: &impl Abort, alloc: Global, plane: &Plane, shape: &Shape) -> Boxes {
    match boxes_of(rt, alloc, plane, shape) {
        Ok(boxes) => boxes,
        Err(AllocError) => boxes_of(rt, alloc, plane, shape).expect(rt, "memory"),
    }
}

/// The boxes of the triangle, by the second call if the first one runs out of memory; `None` if memory runs out before.
fn boxes_at_last(rt: &impl Abort, alloc: Global) -> Option<Boxes> {
    let plane = plane_in(alloc, TRIANGLE)?;
    let shape = bent_triangle_in(alloc)?;
    Some(dissected_at_last(rt, alloc, &plane, &shape))
}

/// Whether two dissections are the same, or one of them is missing.
fn are_same_if_any(one: Option<&Boxes>, other: Option<&Boxes>) -> bool {
    match (one, other) {
        (Some(one), Some(other)) => are_same(one, other),
        _ => true,
    }
}

/// The boxes of the triangle are the same at two calls, one of which may run out of memory.
#[test]
fn dissections(rt: HostRuntime) {
    // At most one allocation is refused.
    let first = boxes_at_last(&rt, rt.alloc());
    let second = boxes_at_last(&rt, rt.alloc());
    same!(&rt, are_same_if_any(first.as_ref(), second.as_ref()), true);
}

/// The points of boxes, by the second call if the first one runs out of memory.
fn points_at_last(rt: &impl Abort, alloc: Global, boxes: &Boxes) -> Points {
    match compact(alloc, boxes) {
        Ok(points) => points,
        Err(fault) => {
            same!(rt, fault, CompactFault::Memory);
            compact(alloc, boxes).expect(rt, "points")
        }
    }
}

/// Whether two drawings have the same points.
pub(crate) fn are_alike(one: &Points, other: &Points) -> bool {
    if one.vertex_count() != other.vertex_count() || one.edge_count() != other.edge_count() {
        return false;
    }
    for edge in 0..one.edge_count().min(1000) as u16 {
        if one.corners(edge) != other.corners(edge) {
            return false;
        }
    }
    one.vertices() == other.vertices()
}

/// Checks that the points of boxes are the same at two calls, in one of which an allocation may be refused.
fn expect_points(rt: &impl Abort, alloc: Global, boxes: &Boxes) {
    let points = points_at_last(rt, alloc, boxes);
    let again = points_at_last(rt, alloc, boxes);
    same!(rt, are_alike(&points, &again), true);
}

/// The points of the triangle are the same at two calls, one of which may run out of memory.
#[test]
fn coordinates(rt: HostRuntime) {
    if let Some(boxes) = boxes_at_last(&rt, rt.alloc()) {
        expect_points(&rt, rt.alloc(), &boxes);
    }
}
