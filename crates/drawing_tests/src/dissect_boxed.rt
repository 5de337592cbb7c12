//! The boxes of the single edge and the triangle, dart by dart.

use crate::planes::{bent_triangle_in, boxes_of, spiral_in};
use dissect::Boxes;
use ortho_rep::Shape;
use std::alloc::Global;
use std::process::Abort;
use test_tools::records::{EDGE, TRIANGLE};
use test_tools::{plane_in, same};

/// The darts of a straight edge.
fn expect_edge(rt: &impl Abort, boxes: &Boxes) {
    assert!(rt; boxes.edges() == 1 && boxes.darts() > 1);
    let tails = [boxes.tail(0), boxes.tail(1)];
    same!(
        rt,
        (tails, [boxes.head(0), boxes.head(1)]),
        ([0, 1], [1, 0]),
    );
    same!(rt, boxes.path(0), [0].as_slice());
}

/// The paths of the triangle's edges, of which the one from 1 to 3 turns to the left in front of dart 1.
fn expect_triangle(rt: &impl Abort, boxes: &Boxes) {
    assert!(rt; boxes.edges() == 3 && boxes.darts() > 5);
    same!(rt, boxes.path(0), [0].as_slice());
    same!(rt, boxes.path(2), [2].as_slice());
    for dart in [0, 2, 3, 5] {
        same!(rt, boxes.before(dart), None);
    }
    expect_turn(
        rt,
        boxes,
        boxes.before(1).expect(rt, "a turn of the edge from 1 to 3"),
    );
}

/// The edge from 1 to 3 runs along this dart, turns to the left, and runs along dart 1.
fn expect_turn(rt: &impl Abort, boxes: &Boxes, front: u32) {
    assert!(rt; boxes.edges() > 1 && boxes.darts() > 1 && front < boxes.darts());
    same!(rt, boxes.path(1), [front, 1].as_slice());
    same!(rt, boxes.direction(1), boxes.direction(front).left());
    same!(
        rt,
        (boxes.before(front), boxes.head(front) > 2),
        (None, true),
    );
}

/// The boxes of a shape of the plane of these bytes.
pub(crate) fn boxes_in(
    rt: &impl Abort,
    alloc: Global,
    bytes: &[u8],
    shape: Option<Shape>,
) -> Boxes {
    let shape = shape.expect(rt, "a shape");
    let plane = plane_in(alloc, bytes).expect(rt, "a plane");
    boxes_of(rt, alloc, &plane, &shape).expect(rt, "memory")
}

/// The boxes of a straight edge and of the triangle are those worked out by hand.
#[test]
fn boxes_by_hand(rt: HostRuntime) {
    let alloc = rt.alloc();
    expect_edge(&rt, &boxes_in(&rt, alloc, EDGE, spiral_in(alloc, 0)));
    expect_triangle(
        &rt,
        &boxes_in(&rt, alloc, TRIANGLE, bent_triangle_in(alloc)),
    );
}
