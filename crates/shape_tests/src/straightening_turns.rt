//! Shapes made straighter, compared with the least number of turning vertices of degree 2, which was found by hand.

ghost use Rattle.ortho_rep.specs.Representation.{HasDarts, IsShape, IsLeast};
ghost use Rattle.ortho_rep.specs.Prices.{IsProof};

use crate::ortho_rep_shapes::answers;
use faces::Plane;
use ortho_rep::{Prices, Shape, certify, is_shape, least_shape};
use std::alloc::{AllocError, Global};
use std::process::Abort;
use straightening::{Scratch, straighten_in};
use test_tools::records::{EDGE, PATH, TRIANGLE};
use test_tools::{Case, L, R, plane_in, prices_in, same, shape_in};

/// The number of turning vertices of degree 2, the bends, and the answers of both tests.
pub(crate) type Figures = (u16, u32, (bool, bool));

/// The number of turning vertices of degree 2: they alone have an angle of three right angles.
fn count_turning(plane: &Plane, shape: &Shape) -> u16
    requires { HasDarts plane.now shape.now }
{
    let mut count = 0u16;
    for dart in 0..plane.graph().darts() {
        if shape.angle(dart) == 3 {
            count = count.saturating_add(1);
        }
    }
    count
}

/// The figures of a shape.
pub(crate) fn figures(plane: &Plane, shape: &Shape, prices: &Prices) -> Figures
    requires { IsShape plane.now shape.now }
{
    (
        count_turning(plane, shape),
        shape.bends(),
        answers(plane, shape, prices),
    )
}

/// The number of turning vertices of degree 2 of this record, after its least shape is straightened. The straightened
/// shape must have as many bends as before, and pass both tests.
fn turning_of(rt: &impl Abort, alloc: Global, scratch: &mut Scratch, record: &[u8]) -> u16 {
    let plane = plane_in(alloc, record).expect(rt, "a plane");
    let (shape, prices) = least_shape(alloc, &plane).expect(rt, "memory");
    let found = straightened(alloc, scratch, &plane, shape, &prices);
    let ((_, bends, _), (turning, kept, right)) = found.expect(rt, "memory");
    same!(rt, (kept, right), (bends, (true, true)));
    turning
}

/// A cycle of five vertices. Without a bend, four of them turn.
const CYCLE: [u8; 16] = [5, 2, 5, 0, 3, 1, 0, 4, 2, 0, 5, 3, 0, 1, 4, 0];

/// Four paths of two edges from a vertex.
const SPIDER: [u8; 26] = [
    9, 2, 4, 6, 8, 0, 1, 3, 0, 2, 0, 1, 5, 0, 4, 0, 1, 7, 0, 6, 0, 1, 9, 0, 8, 0,
];

/// Two vertices with three paths between them, by two vertices, one and two. The outer face has both vertices and
/// four of degree 2 on its cycle, and without bends these four turn; the fifth need not.
const THETA: [u8; 24] = [
    7, 6, 5, 3, 0, 4, 5, 7, 0, 1, 4, 0, 3, 2, 0, 1, 2, 0, 1, 7, 0, 6, 2, 0,
];

/// Planes of several sizes, from large to small and back, and how many vertices turn.
const TURNING: [(&[u8], u16); 8] = [
    (&SPIDER, 0),
    (&THETA, 4),
    (PATH, 0),
    (&CYCLE, 4),
    (TRIANGLE, 3),
    (EDGE, 0),
    (&THETA, 4),
    (&SPIDER, 0),
];

/// Straightened shapes have the fewest turning vertices; one scratch serves all.
#[test]
fn fewest_turning(rt: HostRuntime) {
    let mut scratch = Scratch::new();
    for (record, turning) in TURNING {
        let found = turning_of(&rt, rt.alloc(), &mut scratch, record);
        same!(&rt, found, turning);
    }
}

/// Three paths of two edges between the vertices 4 and 5, and two bends, both on the edge from 1 to 5. All three
/// vertices of degree 2 turn, but only two have to: those of the outer face, which needs two bends beside them. The
/// one between the inner faces goes straight once a bend has moved from the one edge to another.
const BENT: Case<'static> = Case {
    record: &[5, 4, 5, 0, 5, 4, 0, 4, 5, 0, 2, 3, 1, 0, 1, 3, 2, 0],
    angles: &[2, 1, 2, 1, 1, 1, 3, 1, 1, 3, 3, 1],
    strings: &[
        &[],
        &[L, L],
        &[],
        &[],
        &[],
        &[],
        &[],
        &[],
        &[],
        &[R, R],
        &[],
        &[],
    ],
    vertices: &[1, 1, 0, 1, 1],
    faces: &[1, 0, 0],
};

/// The figures of a least shape, and those of the straighter one.
fn straightened(
    alloc: Global,
    scratch: &mut Scratch,
    plane: &Plane,
    shape: Shape,
    prices: &Prices,
) -> Result<(Figures, Figures), AllocError>
    requires shape { IsShape plane.now shape }
    requires least { IsLeast plane.now shape }
    requires proof { IsProof plane.now shape prices.now }
{
    let before = figures(plane, &shape, prices);
    let straight = straighten_in(alloc, scratch, plane, shape, prices)?;
    Ok((before, figures(plane, &straight, prices)))
}

/// The figures of the shape of a case, which must be a least one, and those of the straighter one.
fn figures_of(
    rt: &impl Abort,
    alloc: Global,
    scratch: &mut Scratch,
    case: &Case<'_>,
) -> (Figures, Figures) {
    let plane = plane_in(alloc, case.record).expect(rt, "a plane");
    let shape = shape_in(alloc, case.angles, case.strings).expect(rt, "a shape");
    let prices = prices_in(alloc, case).expect(rt, "memory");
    assert!(rt; is_shape(&plane, &shape) && certify(&plane, &shape, &prices));
    straightened(alloc, scratch, &plane, shape, &prices).expect(rt, "memory")
}

const HEXAGON: [u8; 19] = [6, 2, 6, 0, 3, 1, 0, 4, 2, 0, 5, 3, 0, 6, 4, 0, 1, 5, 0];

/// A cycle of six vertices as a rectangle: four of them turn, as they have to.
const RECTANGLE: Case<'static> = Case {
    record: &HEXAGON,
    angles: &[3, 2, 2, 1, 3, 1, 3, 2, 2, 1, 3, 1],
    strings: &[&[], &[], &[], &[], &[], &[], &[], &[], &[], &[], &[], &[]],
    vertices: &[0, 0, 0, 0, 0, 0],
    faces: &[0, 0],
};

/// The same in the shape of an L: all six turn. Of its inward corner and an outward one both can go straight.
const ANGLED: Case<'static> = Case {
    angles: &[3, 1, 3, 3, 3, 1, 3, 1, 3, 1, 1, 1],
    ..RECTANGLE
};

/// Cases, how many vertices of degree 2 turn before and after, and bends.
const MOVED: [(Case<'static>, u16, u16, u32); 3] = [
    (RECTANGLE, 4, 4, 0),
    (BENT, 3, 2, 2),
    (ANGLED, 6, 4, 0),
];

/// Cases are made as straight as they can be, with one scratch.
/// What the search for the rectangle leaves in the scratch would mislead the search for the bends after it.
#[test]
fn units_move(rt: HostRuntime) {
    let right = (true, true);
    let mut scratch = Scratch::new();
    for (case, before, after, bends) in MOVED {
        let found = figures_of(&rt, rt.alloc(), &mut scratch, &case);
        same!(&rt, found, ((before, bends, right), (after, bends, right)));
    }
}
