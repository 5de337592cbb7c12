//! Planes, shapes and drawings that the tests share.

use compact::compact;
use dissect::{Boxes, dissect};
use drawing_check::{Scratch, check_in};
use faces::Plane;
use ortho_rep::{Points, Shape, Turn, is_shape, least_shape};
use std::alloc::{AllocError, Global};
use std::process::Abort;
use test_tools::{ONE_BEND, same, shape_in};

/// A least shape of a plane, where memory suffices.
pub(crate) fn shape_of(rt: &impl Abort, alloc: Global, plane: &Plane) -> Shape {
    let (shape, _prices) = least_shape(alloc, plane).expect(rt, "a least shape");
    shape
}

/// The shape of a single edge that turns to the left this many times, if there is memory.
pub(crate) fn spiral_in(alloc: Global, turns: usize) -> Option<Shape> {
    let left = vec![in alloc; Turn::Left; turns].ok()?;
    let right = vec![in alloc; Turn::Right; turns].ok()?;
    shape_in(alloc, &[4, 4], &[&left, &right])
}

/// The shape of the triangle whose edge from 1 to 3 turns once, if there is memory.
pub(crate) fn bent_triangle_in(alloc: Global) -> Option<Shape> {
    shape_in(alloc, ONE_BEND.angles, ONE_BEND.strings)
}

/// The boxes of a shape.
pub(crate) fn boxes_of(
    rt: &impl Abort,
    alloc: Global,
    plane: &Plane,
    shape: &Shape,
) -> Result<Boxes, AllocError> {
    assert!(rt; is_shape(plane, shape));
    dissect(alloc, plane, shape)
}

/// Checks that the points draw the shape, with reused buffers.
pub(crate) fn expect_drawing(
    rt: &impl Abort,
    alloc: Global,
    lent: &mut Scratch,
    plane: &Plane,
    shape: &Shape,
    points: Points,
) {
    assert!(rt; is_shape(plane, shape));
    assert!(rt; points.vertex_count() == usize::from(plane.graph().vertices()));
    assert!(rt; points.edge_count() == usize::from(plane.graph().edges()));
    let fault = match check_in(alloc, lent, plane, shape, points) {
        Ok(_) => None,
        Err((fault, _)) => Some(fault),
    };
    same!(rt, fault, None);
}

/// The points of a shape that is cut into boxes.
pub(crate) fn points_of(rt: &impl Abort, alloc: Global, plane: &Plane, shape: &Shape) -> Points {
    let boxes = boxes_of(rt, alloc, plane, shape).expect(rt, "boxes");
    compact(alloc, &boxes).expect(rt, "points")
}

/// Cuts the shape into boxes, and checks its drawing.
pub(crate) fn draw(rt: &impl Abort, alloc: Global, plane: &Plane, shape: &Shape) {
    let points = points_of(rt, alloc, plane, shape);
    expect_drawing(rt, alloc, &mut Scratch::empty(alloc), plane, shape, points);
}
