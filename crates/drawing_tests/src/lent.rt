//! Shapes that are drawn one after another with the same buffers: each drawing is the same as with new buffers.

use crate::planes::{bent_triangle_in, boxes_of, expect_drawing, spiral_in};
use crate::refused::{are_alike, are_same};
use compact::{compact, compact_in};
use dissect::{Boxes, dissect_in};
use faces::Plane;
use ortho_rep::{Points, Shape, is_shape};
use std::alloc::Global;
use std::process::Abort;
use test_tools::records::{EDGE, TRIANGLE};
use test_tools::{plane_in, same};

/// The buffers that all drawings reuse.
#[derive(Drop)]
struct Lent {
    boxes: dissect::Scratch,
    points: compact::Scratch,
    checks: drawing_check::Scratch,
}

/// The boxes of a shape, made with reused buffers, and checked to be those with new ones.
fn boxes_in(
    rt: &impl Abort,
    alloc: Global,
    lent: &mut dissect::Scratch,
    plane: &Plane,
    shape: &Shape,
) -> Boxes {
    assert!(rt; is_shape(plane, shape));
    let boxes = dissect_in(alloc, lent, plane, shape).expect(rt, "memory");
    let own = boxes_of(rt, alloc, plane, shape).expect(rt, "memory");
    same!(rt, are_same(&boxes, &own), true);
    boxes
}

/// The points of boxes, made with reused buffers, and checked to be those with new ones.
fn points_in(rt: &impl Abort, alloc: Global, lent: &mut compact::Scratch, boxes: &Boxes) -> Points {
    let points = compact_in(alloc, lent, boxes).expect(rt, "points");
    let own = compact(alloc, boxes).expect(rt, "points");
    same!(rt, are_alike(&points, &own), true);
    points
}

/// Draws a shape of a plane with reused buffers.
fn draw_shape_in(rt: &impl Abort, alloc: Global, lent: &mut Lent, plane: &Plane, shape: &Shape) {
    let boxes = boxes_in(rt, alloc, &mut lent.boxes, plane, shape);
    let points = points_in(rt, alloc, &mut lent.points, &boxes);
    boxes.give_back(&mut lent.boxes);
    expect_drawing(rt, alloc, &mut lent.checks, plane, shape, points);
}

/// Draws a shape of the plane of these bytes with reused buffers.
fn draw_in(rt: &impl Abort, alloc: Global, lent: &mut Lent, bytes: &[u8], shape: Option<Shape>) {
    let shape = shape.expect(rt, "a shape");
    let plane = plane_in(alloc, bytes).expect(rt, "a plane");
    draw_shape_in(rt, alloc, lent, &plane, &shape);
}

/// Shapes of several sizes are drawn with the same buffers.
#[test]
fn drawings_in_lent_memory(rt: HostRuntime) {
    let alloc = rt.alloc();
    let mut lent = Lent {
        boxes: dissect::Scratch::empty(alloc),
        points: compact::Scratch::empty(alloc),
        checks: drawing_check::Scratch::empty(alloc),
    };
    draw_in(&rt, alloc, &mut lent, TRIANGLE, bent_triangle_in(alloc));
    for turns in [0, 20] {
        draw_in(&rt, alloc, &mut lent, EDGE, spiral_in(alloc, turns));
    }
    draw_in(&rt, alloc, &mut lent, TRIANGLE, bent_triangle_in(alloc));
}
