//! Drawings by hand, each with the first condition that it breaks, and refused allocations.

use drawing_check::{CheckFault, Drawing, check};
use faces::Plane;
use ortho_rep::{Points, Shape, Turn, is_shape};
use std::alloc::Global;
use std::process::Abort;
use test_tools::{L, Place, R, plane_in, points_in, records, same};

/// The record of a plane, and the angles and strings of a shape of it.
pub(crate) struct Figure {
    pub(crate) record: &'static [u8],
    pub(crate) angles: &'static [u8],
    pub(crate) strings: &'static [&'static [Turn]],
}

/// The strings of four edges without bends.
const STRAIGHT: [&[Turn]; 8] = [&[]; 8];

const EDGE: Figure = Figure {
    record: records::EDGE,
    angles: &[4, 4],
    strings: &[&[], &[]],
};

/// The edge that turns to the left three times.
pub(crate) const BENT_EDGE: Figure = Figure {
    record: records::EDGE,
    angles: &[4, 4],
    strings: &[&[L, L, L], &[R, R, R]],
};

/// The triangle with one bend, on the edge from 1 to 3.
pub(crate) const TRIANGLE: Figure = Figure {
    record: records::TRIANGLE,
    angles: &[3, 1, 3, 1, 3, 1],
    strings: &[&[], &[L], &[], &[], &[R], &[]],
};

/// The path 1, 2, 3, 4, 5, which turns to the left at each vertex.
pub(crate) const PATH: Figure = Figure {
    record: records::PATH,
    angles: &[1, 4, 1, 3, 1, 3, 4, 3],
    strings: &STRAIGHT,
};

pub(crate) const SQUARE: Figure = Figure {
    record: records::SQUARE,
    angles: &[3, 1, 3, 1, 3, 1, 3, 1],
    strings: &STRAIGHT,
};

pub(crate) const STAR: Figure = Figure {
    record: records::STAR,
    angles: &[4, 4, 4, 4, 1, 1, 1, 1],
    strings: &STRAIGHT,
};

/// The corners of four edges without bends.
pub(crate) const FOUR: [&[Place]; 4] = [&[]; 4];

/// The shape of a figure; `None` if memory runs out.
pub(crate) fn shape_in(alloc: Global, figure: &Figure) -> Option<Shape> {
    test_tools::shape_in(alloc, figure.angles, figure.strings)
}

/// The result of `check`, once its conditions are seen to hold.
pub(crate) fn answer(
    rt: &impl Abort,
    alloc: Global,
    plane: &Plane,
    shape: &Shape,
    points: Points,
) -> Result<Drawing, (CheckFault, Points)> {
    assert!(rt; is_shape(plane, shape));
    assert!(rt; points.vertex_count() == usize::from(plane.graph().vertices()));
    assert!(rt; points.edge_count() == usize::from(plane.graph().edges()));
    check(alloc, plane, shape, points)
}

/// The fault that `check` finds, if any, and the one that a second call finds with the points returned.
fn faults_of(
    rt: &impl Abort,
    alloc: Global,
    plane: &Plane,
    shape: &Shape,
    points: Points,
) -> [Option<CheckFault>; 2] {
    match answer(rt, alloc, plane, shape, points) {
        Ok(_) => [None, None],
        Err((fault, points)) => {
            let again = answer(rt, alloc, plane, shape, points).err();
            [Some(fault), again.map(|it| it.0)]
        }
    }
}

/// The faults that both calls find for points at these places; `None` if memory runs out before.
pub(crate) fn faults_at(
    rt: &impl Abort,
    alloc: Global,
    figure: &Figure,
    vertices: &[Place],
    corners: &[&[Place]],
) -> Option<[Option<CheckFault>; 2]> {
    let plane = plane_in(alloc, figure.record)?;
    let shape = shape_in(alloc, figure)?;
    let points = points_in(alloc, vertices, corners).ok()?;
    Some(faults_of(rt, alloc, &plane, &shape, points))
}

/// Figures, the places of their vertices and corners, and the first condition that the points there break.
const DRAWINGS: [(&Figure, &[Place], &[&[Place]], Option<CheckFault>); 15] = [
    (
        &TRIANGLE,
        &[(0, 0), (0, 1), (1, 1)],
        &[&[], &[(1, 0)], &[]],
        None,
    ),
    (
        &TRIANGLE,
        &[(0, 0), (0, 1), (1, 1)],
        &[&[], &[(2, 0)], &[]],
        Some(CheckFault::NotAxis),
    ),
    (
        &TRIANGLE,
        &[(0, 0), (1, 0), (1, 1)],
        &[&[], &[(0, 1)], &[]],
        Some(CheckFault::WrongTurn),
    ),
    (
        &TRIANGLE,
        &[(65535, 0), (65535, 1), (65536, 1)],
        &[&[], &[(65536, 0)], &[]],
        Some(CheckFault::OutOfGrid),
    ),
    (
        &TRIANGLE,
        &[(65534, 0), (65534, 1), (65535, 1)],
        &[&[], &[(65535, 0)], &[]],
        None,
    ),
    // A vertex on an edge, a vertex on a vertex, an edge across an edge, and a path that meets itself nowhere.
    (
        &PATH,
        &[(0, 0), (2, 0), (2, 1), (1, 1), (1, 0)],
        &FOUR,
        Some(CheckFault::Meet),
    ),
    (
        &PATH,
        &[(0, 0), (2, 0), (2, 2), (0, 2), (0, 0)],
        &FOUR,
        Some(CheckFault::Meet),
    ),
    (
        &PATH,
        &[(0, 1), (3, 1), (3, 3), (1, 3), (1, 0)],
        &FOUR,
        Some(CheckFault::Meet),
    ),
    (
        &PATH,
        &[(0, 0), (3, 0), (3, 3), (1, 3), (1, 1)],
        &FOUR,
        None,
    ),
    // The other way round: a square, and two leaves of a star.
    (&SQUARE, &[(2, 2), (2, 7), (7, 7), (7, 2)], &FOUR, None),
    (
        &SQUARE,
        &[(2, 2), (7, 2), (7, 7), (2, 7)],
        &FOUR,
        Some(CheckFault::WrongTurn),
    ),
    (
        &STAR,
        &[(5, 5), (5, 8), (9, 5), (5, 1), (1, 5)],
        &FOUR,
        None,
    ),
    (
        &STAR,
        &[(5, 5), (9, 5), (5, 8), (5, 1), (1, 5)],
        &FOUR,
        Some(CheckFault::WrongTurn),
    ),
    // A corner at which the edge does not turn, and one corner too few.
    (
        &EDGE,
        &[(0, 0), (2, 0)],
        &[&[(1, 0)]],
        Some(CheckFault::WrongTurn),
    ),
    (
        &BENT_EDGE,
        &[(0, 0), (1, 1)],
        &[&[(3, 0), (3, 1)]],
        Some(CheckFault::WrongTurn),
    ),
];

/// Each drawing has the first fault that was found by hand, also at a second call.
#[test]
fn drawings_by_hand(rt: HostRuntime) {
    for (figure, vertices, corners, fault) in DRAWINGS {
        let found = faults_at(&rt, rt.alloc(), figure, vertices, corners);
        same!(&rt, found, Some([fault; 2]));
    }
}

/// If memory runs out, the points come back, and a second call accepts them.
/// To be run with each allocation refused in turn, too.
#[test]
fn refused_memory_gives_the_points_back(rt: HostRuntime) {
    let vertices = [(0, 0), (3, 0), (3, 3), (1, 3), (1, 1)];
    let Some(found) = faults_at(&rt, rt.alloc(), &PATH, &vertices, &FOUR) else {
        return;
    };
    if found[0].is_some() {
        same!(&rt, found, [Some(CheckFault::Memory), None]);
    }
}

/// Places of the path's vertices, and the first condition that they break.
const FAULTS: [(&[Place], CheckFault); 3] = [
    (
        &[(0, 0), (65536, 0), (65536, 3), (1, 3), (1, 1)],
        CheckFault::OutOfGrid,
    ),
    (
        &[(0, 0), (3, 1), (3, 3), (1, 3), (1, 1)],
        CheckFault::NotAxis,
    ),
    (
        &[(0, 0), (3, 0), (3, 3), (5, 3), (5, 1)],
        CheckFault::WrongTurn,
    ),
];

/// The first three conditions are checked without taking memory.
#[test]
fn three_conditions_need_no_memory(rt: HostRuntime) {
    for (vertices, fault) in FAULTS {
        let Some(found) = faults_at(&rt, rt.alloc(), &PATH, vertices, &FOUR) else {
            return;
        };
        same!(&rt, found, [Some(fault); 2]);
    }
}
