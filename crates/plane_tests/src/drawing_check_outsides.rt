//! Which face lies outside drawings by hand.

use crate::drawing_check_faults::{FOUR, Figure, PATH, SQUARE, STAR, TRIANGLE, answer, shape_in};
use drawing_check::outside_is_outer;
use faces::Plane;
use ortho_rep::Turn;
use std::alloc::Global;
use std::process::Abort;
use test_tools::{Place, plane_in, points_in, same};

const STRAIGHT: [&[Turn]; 20] = [&[]; 20];

/// The corners of ten edges without bends.
const TEN: [&[Place]; 10] = [&[]; 10];

/// A square with a vertex more on its left side, and a square inside that an edge joins to it.
const NESTED: Figure = Figure {
    record: &NESTED_RECORD,
    angles: &[3, 1, 1, 2, 1, 1, 3, 1, 3, 3, 1, 3, 1, 1, 2, 1, 1, 3, 3, 1],
    strings: &STRAIGHT,
};

const NESTED_RECORD: [u8; 30] = [
    9, 5, 6, 2, 0, 1, 3, 0, 4, 2, 0, 5, 3, 0, 4, 1, 0, 9, 7, 1, 0, 6, 8, 0, 9, 7, 0, 8, 6, 0,
];

const NESTED_PLACES: [Place; 9] = [
    (0, 1),
    (0, 0),
    (3, 0),
    (3, 3),
    (0, 3),
    (1, 1),
    (2, 1),
    (2, 2),
    (1, 2),
];

/// A hexagon and a square inside, which share vertex 1.
const BLOCKS: Figure = Figure {
    record: &BLOCKS_RECORD,
    angles: &[3, 1, 1, 3, 3, 1, 3, 1, 3, 1, 3, 1, 1, 1, 1, 1, 1, 3, 3, 1],
    strings: &STRAIGHT,
};

const BLOCKS_RECORD: [u8; 30] = [
    9, 9, 7, 6, 2, 0, 3, 1, 0, 4, 2, 0, 5, 3, 0, 6, 4, 0, 1, 5, 0, 8, 1, 0, 9, 7, 0, 8, 1, 0,
];

const BLOCKS_PLACES: [Place; 9] = [
    (2, 2),
    (0, 2),
    (0, 5),
    (5, 5),
    (5, 0),
    (2, 0),
    (3, 2),
    (3, 3),
    (2, 3),
];

/// A drawing by hand: a figure with its outer face, the places of its vertices and of its corners.
struct Drawn {
    figure: &'static Figure,
    outer: u16,
    places: &'static [Place],
    corners: &'static [&'static [Place]],
}

const NESTED_DRAWN: Drawn = Drawn {
    figure: &NESTED,
    outer: 0,
    places: &NESTED_PLACES,
    corners: &TEN,
};

const BLOCKS_DRAWN: Drawn = Drawn {
    figure: &BLOCKS,
    outer: 2,
    places: &BLOCKS_PLACES,
    corners: &TEN,
};

const TRIANGLE_DRAWN: Drawn = Drawn {
    figure: &TRIANGLE,
    outer: 0,
    places: &[(0, 0), (0, 1), (1, 1)],
    corners: &[&[], &[(1, 0)], &[]],
};

/// The square that is as wide as the grid.
const SQUARE_DRAWN: Drawn = Drawn {
    figure: &SQUARE,
    outer: 0,
    places: &[(0, 0), (0, 65_535), (65_535, 65_535), (65_535, 0)],
    corners: &FOUR,
};

const STAR_DRAWN: Drawn = Drawn {
    figure: &STAR,
    outer: 0,
    places: &[(5, 5), (5, 8), (9, 5), (5, 1), (1, 5)],
    corners: &FOUR,
};

const PATH_DRAWN: Drawn = Drawn {
    figure: &PATH,
    outer: 0,
    places: &[(0, 0), (3, 0), (3, 3), (1, 3), (1, 1)],
    corners: &FOUR,
};

/// The plane of a record with this outer face.
fn plane_with(rt: &impl Abort, alloc: Global, record: &[u8], outer: u16) -> Option<Plane> {
    let mut plane = plane_in(alloc, record)?;
    assert!(rt; outer < plane.face_count());
    plane.set_outer(outer);
    Some(plane)
}

/// Whether the outer face lies on the west of a drawing, if it is this face of the drawing's own plane.
fn outside(rt: &impl Abort, alloc: Global, drawn: &Drawn, outer: u16) -> Option<bool> {
    let plane = plane_with(rt, alloc, drawn.figure.record, drawn.outer)?;
    let shape = shape_in(alloc, drawn.figure)?;
    let points = points_in(alloc, drawn.places, drawn.corners).ok()?;
    let drawing = answer(rt, alloc, &plane, &shape, points).ok()?;
    let other = plane_with(rt, alloc, drawn.figure.record, outer)?;
    assert!(rt; drawing.points().vertex_count() == usize::from(other.graph().vertices()));
    assert!(rt; drawing.points().edge_count() == usize::from(other.graph().edges()));
    Some(outside_is_outer(&other, &drawing))
}

/// Drawings, and whether face 0, 1, and so on lies outside.
const OUTSIDES: [(&Drawn, &[bool]); 6] = [
    (&NESTED_DRAWN, &[true, false, false]),
    (&BLOCKS_DRAWN, &[false, false, true]),
    (&TRIANGLE_DRAWN, &[true, false]),
    (&SQUARE_DRAWN, &[true, false]),
    (&STAR_DRAWN, &[true]),
    (&PATH_DRAWN, &[true]),
];

/// The face outside each drawing is the one found by hand.
#[test]
fn outsides_by_hand(rt: HostRuntime) {
    for (drawn, due) in OUTSIDES {
        for outer in 0..3u16 {
            if let Some(is_outer) = due.get(usize::from(outer)) {
                let found = outside(&rt, rt.alloc(), drawn, outer);
                same!(&rt, found, Some(*is_outer));
            }
        }
    }
}
