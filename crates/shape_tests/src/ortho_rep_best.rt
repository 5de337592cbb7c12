//! Least shapes where the outer face is chosen too.

use crate::ortho_rep_shapes::answers;
use faces::{Choice, Plane};
use ortho_rep::{best_shape, least_shape};
use std::alloc::Global;
use std::process::Abort;
use test_tools::records::{
    CAPPED_CUBE, CUBE, EDGE, LONGER_CUBE, OCTAHEDRON, SIX, SQUARE, STAR, TETRAHEDRON, TRIANGLE,
    longest_cycle,
};
use test_tools::{plane_in, same};

/// One on 7 vertices.
const SEVEN: [u8; 24] = [
    7, 4, 7, 5, 0, 5, 7, 6, 0, 7, 0, 6, 1, 0, 1, 2, 0, 2, 4, 0, 1, 2, 3, 0,
];

/// Another on 7 vertices.
const SEVEN_WITH_FIVE_FACES: [u8; 28] = [
    7, 4, 7, 5, 6, 0, 5, 6, 0, 6, 7, 0, 7, 1, 0, 1, 7, 2, 0, 1, 2, 3, 0, 3, 5, 1, 4, 0,
];

/// How many bends are needed with the outer face that the plane has.
fn bends_as_it_is(rt: &impl Abort, alloc: Global, plane: &Plane) -> u32 {
    let (shape, _prices) = least_shape(alloc, plane).expect(rt, "memory");
    shape.bends()
}

/// How many bends are needed with the best outer face. The shape passes both tests with its prices.
fn bends_at_best(rt: &impl Abort, alloc: Global, plane: &mut Plane) -> u32 {
    let (shape, prices) = best_shape(alloc, plane).expect(rt, "memory");
    same!(rt, answers(plane, &shape, &prices), (true, true));
    shape.bends()
}

/// How many bends are needed with the first outer face and with the best one, and which face that is.
fn bends_of(rt: &impl Abort, alloc: Global, bytes: &[u8]) -> (u32, u32, u16) {
    let mut plane = plane_in(alloc, bytes).expect(rt, "a plane");
    let first = bends_as_it_is(rt, alloc, &plane);
    let best = bends_at_best(rt, alloc, &mut plane);
    (first, best, plane.outer())
}

/// Graphs for which another face is better, and others, whose faces are all alike, or which have one face: both numbers
/// of bends and the best face.
const BEST: [(&[u8], (u32, u32, u16)); 9] = [
    (CAPPED_CUBE, (10, 8, 2)),
    (LONGER_CUBE, (9, 8, 2)),
    (EDGE, (0, 0, 0)),
    (TRIANGLE, (1, 1, 0)),
    (STAR, (0, 0, 0)),
    (SQUARE, (0, 0, 0)),
    (TETRAHEDRON, (4, 4, 0)),
    (OCTAHEDRON, (12, 12, 0)),
    (CUBE, (4, 4, 0)),
];

/// The best outer face and both numbers of bends are those of the table.
#[test]
fn best_faces(rt: HostRuntime) {
    for (bytes, want) in BEST {
        same!(&rt, bends_of(&rt, rt.alloc(), bytes), want);
    }
    let bytes = longest_cycle(rt.alloc()).expect(&rt, "memory");
    same!(&rt, bends_of(&rt, rt.alloc(), &bytes), (0, 0, 0));
}

/// Bends that LEMON's network simplex found, with the first outer face and with the best one.
const OF_AN_ORACLE: [(&[u8], u32, u32); 3] = [
    (SIX, 6, 5),
    (&SEVEN, 2, 1),
    (&SEVEN_WITH_FIVE_FACES, 5, 4),
];

/// The bends with the first and the best outer face are those that LEMON found.
#[test]
fn bends_of_an_oracle(rt: HostRuntime) {
    for (bytes, first, best) in OF_AN_ORACLE {
        let (one, other, _face) = bends_of(&rt, rt.alloc(), bytes);
        same!(&rt, (one, other), (first, best));
    }
}

/// Another face can be made the outer one, and the number of faces stays.
#[test]
fn a_face_turned_out(rt: HostRuntime) {
    let mut plane = plane_in(rt.alloc(), LONGER_CUBE).expect(&rt, "a plane");
    same!(&rt, (plane.outer(), plane.face_count()), (0, 9));
    if 2 < plane.face_count() {
        plane.set_outer(2);
    }
    same!(&rt, (plane.outer(), plane.face_count()), (2, 9));
}

/// The default outer face is the first one.
#[test]
fn choices(rt: HostRuntime) {
    same!(&rt, Choice::default(), Choice::First);
}
