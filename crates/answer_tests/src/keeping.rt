//! Least shapes among those that keep edges straight, and the best outer face among those that are not barred, compared
//! with bends that were found by hand or by another program.

use embedding::MAX_DARTS;
use faces::Plane;
use flow_network::{Given, has_mark};
use ortho_rep::{
    Scratch, SolveFault, best_shape_keeping, certify_keeping, is_shape, least_shape_keeping_in,
};
use std::alloc::{AllocError, Global};
use std::process::Abort;
use test_tools::records::{
    CAPPED_CUBE, CUBE, EDGE, OCTAHEDRON, SIX, SQUARE, TETRAHEDRON, TRIANGLE,
};
use test_tools::{Case, L, ONE_BEND, R, plane_in, prices_in, same, shape_in};

/// Three rows of three vertices.
const GRID: [u8; 34] = [
    9, 2, 4, 0, 3, 5, 1, 0, 6, 2, 0, 1, 5, 7, 0, 2, 6, 8, 4, 0, 3, 9, 5, 0, 4, 8, 0, 5, 9, 7, 0, 6,
    8, 0,
];

/// All edges.
const ALL: [bool; MAX_DARTS] = [true; MAX_DARTS];

/// The bends of a least shape, whether it is one, and whether its prices prove it so among those that keep the edges
/// straight.
type Figures = (u32, (bool, bool));

/// No turns for each edge one of whose darts is marked.
fn turns_of(
    alloc: Global,
    plane: &Plane,
    straight: &[bool],
) -> Result<Vec<Option<i32>>, AllocError> {
    let graph = plane.graph();
    let mut turns = Vec::new(alloc);
    for dart in 0..graph.darts() {
        let is_straight = has_mark(straight, dart) || has_mark(straight, graph.reverse(dart));
        turns.push(if is_straight { Some(0) } else { None })?;
    }
    Ok(turns)
}

/// These turns as what is given, if they can be given.
fn given_of(turns: &[Option<i32>]) -> Given<'_> {
    if Given::can_be(&[], turns) {
        Given::new(&[], turns)
    } else {
        Given::nothing()
    }
}

/// The figures of a least shape that keeps the edges of marked darts straight.
fn figures_keeping(alloc: Global, plane: &Plane, straight: &[bool]) -> Result<Figures, SolveFault> {
    let mut scratch = Scratch::empty(alloc);
    let turns = turns_of(alloc, plane, straight)?;
    let given = given_of(&turns);
    let (shape, prices) = least_shape_keeping_in(alloc, &mut scratch, plane, &given)?;
    let proved = certify_keeping(plane, &given, &shape, &prices);
    Ok((shape.bends(), (is_shape(plane, &shape), proved)))
}

/// Checks that this many bends are needed, or that there is no shape.
fn expect_bends(
    rt: &impl Abort,
    alloc: Global,
    record: &[u8],
    straight: &[bool],
    bends: Option<u32>,
) {
    let plane = plane_in(alloc, record).expect(rt, "a plane");
    let want = bends.map_or(
        Err(SolveFault::Infeasible),
        |bends| Ok((bends, (true, true))),
    );
    same!(rt, figures_keeping(alloc, &plane, straight), want);
}

/// Records, marks, and how many bends are needed; `None` if there is no shape.
///
/// A grid needs no bend, nor does a square. A triangle without bends would turn three times at most; with one edge
/// free it needs the bend there, whichever that is. No face of three darts goes without a bend, and a cube needs four.
const BENDS: [(&[u8], &[bool], Option<u32>); 12] = [
    (&GRID, &[], Some(0)),
    (&GRID, &ALL, Some(0)),
    (SQUARE, &[true], Some(0)),
    (SQUARE, &ALL, Some(0)),
    (TRIANGLE, &[], Some(1)),
    (TRIANGLE, &[true], Some(1)),
    (TRIANGLE, &[true, true], Some(1)),
    (TRIANGLE, &[false, true, true], Some(1)),
    (TRIANGLE, &ALL, None),
    (TETRAHEDRON, &ALL, None),
    (OCTAHEDRON, &ALL, None),
    (CUBE, &ALL, None),
];

/// Shapes that keep edges straight have the bends found by hand.
#[test]
fn bends_by_hand(rt: HostRuntime) {
    for (record, straight, bends) in BENDS {
        expect_bends(&rt, rt.alloc(), record, straight, bends);
    }
}

/// Records, marks, and bends that networkx's network simplex found.
const OF_AN_ORACLE: [(&[u8], &[bool], Option<u32>); 12] = [
    (TETRAHEDRON, &[true], Some(5)),
    (TETRAHEDRON, &[true, true, true], Some(6)),
    (TETRAHEDRON, &[true; 5], None),
    (OCTAHEDRON, &[true], Some(14)),
    (OCTAHEDRON, &[true; 4], Some(18)),
    (OCTAHEDRON, &[true; 5], Some(22)),
    (CUBE, &[true], Some(4)),
    (CUBE, &[true; 4], Some(6)),
    (CAPPED_CUBE, &[true; 3], Some(11)),
    (CAPPED_CUBE, &[true; 5], Some(14)),
    (SIX, &[true, true], Some(8)),
    (SIX, &[true; 5], None),
];

/// Shapes that keep edges straight have the bends that networkx found.
#[test]
fn bends_of_an_oracle(rt: HostRuntime) {
    for (record, straight, bends) in OF_AN_ORACLE {
        expect_bends(&rt, rt.alloc(), record, straight, bends);
    }
}

/// Bends, the outer face, whether it is a shape, and whether its prices prove it least among those that keep the edges
/// straight.
type Best = (u32, u16, (bool, bool));

/// These figures of a shape with the best outer face among those that are not barred.
fn best_keeping(
    alloc: Global,
    plane: &mut Plane,
    straight: &[bool],
    barred: &[bool],
) -> Result<Best, SolveFault> {
    let turns = turns_of(alloc, plane, straight)?;
    let given = given_of(&turns);
    let (shape, prices) = best_shape_keeping(alloc, plane, &given, barred)?;
    let proved = certify_keeping(plane, &given, &shape, &prices);
    let tests = (is_shape(plane, &shape), proved);
    Ok((shape.bends(), plane.outer(), tests))
}

/// A record, marks of darts, and marks of faces.
type Asked = (&'static [u8], &'static [bool], &'static [bool]);

/// A record and its marks, and the bends and the face that networkx's network simplex found over all faces; `None` if
/// there is no shape.
const BEST_OF_AN_ORACLE: [(Asked, Option<(u32, u16)>); 16] = [
    ((&GRID, &ALL, &[]), Some((0, 0))),
    ((&GRID, &ALL, &[true]), None),
    ((&GRID, &[], &[true]), Some((4, 1))),
    ((&GRID, &[true; 5], &[true, true]), Some((4, 2))),
    ((CAPPED_CUBE, &[], &[]), Some((8, 2))),
    ((CAPPED_CUBE, &[], &[false, false, true]), Some((10, 0))),
    ((CAPPED_CUBE, &[true; 3], &[true, true]), Some((10, 2))),
    ((CAPPED_CUBE, &[true; 5], &[]), Some((10, 4))),
    ((SIX, &[true], &[]), Some((5, 2))),
    ((SIX, &[true], &[false, false, true]), Some((7, 0))),
    ((SIX, &[true; 3], &[]), Some((7, 3))),
    ((TETRAHEDRON, &[true; 3], &[]), Some((4, 3))),
    (
        (TETRAHEDRON, &[true; 3], &[false, false, false, true]),
        Some((6, 0)),
    ),
    ((TRIANGLE, &[], &[true]), Some((1, 1))),
    ((TRIANGLE, &[], &[true, true]), None),
    ((TRIANGLE, &ALL, &[]), None),
];

/// The best outer face that is not barred, and its bends, are those that networkx found.
#[test]
fn best_faces_of_an_oracle(rt: HostRuntime) {
    for ((record, straight, barred), found) in BEST_OF_AN_ORACLE {
        let mut plane = plane_in(rt.alloc(), record).expect(&rt, "a plane");
        let want = found.map_or(Err(SolveFault::Infeasible), |(bends, face)| {
            Ok((bends, face, (true, true)))
        });
        let got = best_keeping(rt.alloc(), &mut plane, straight, barred);
        same!(&rt, got, want);
    }
}

/// An edge that turns to the left and then to the right.
const STEP: Case<'static> = Case {
    record: EDGE,
    angles: &[4, 4],
    strings: &[&[L, R], &[L, R]],
    vertices: &[0, 0],
    faces: &[0],
};

/// Cases, marks, and whether the prices prove the shape least among those that keep these edges straight.
const PROVED: [(Case<'static>, &[bool], bool); 7] = [
    (ONE_BEND, &[], true),
    (ONE_BEND, &[true], true),
    (ONE_BEND, &[false, true], false),
    (ONE_BEND, &[false, false, false, false, true], false),
    (
        ONE_BEND,
        &[true, false, false, false, false, true, true],
        true,
    ),
    (ONE_BEND, &ALL, false),
    (STEP, &[true], false),
];

/// Prices prove a shape least among those that keep edges straight exactly if this was found by hand.
#[test]
fn prices_by_hand(rt: HostRuntime) {
    for (case, straight, proved) in PROVED {
        let plane = plane_in(rt.alloc(), case.record).expect(&rt, "a plane");
        let shape = shape_in(rt.alloc(), case.angles, case.strings).expect(&rt, "a shape");
        let prices = prices_in(rt.alloc(), &case).expect(&rt, "memory");
        let turns = turns_of(rt.alloc(), &plane, straight).expect(&rt, "memory");
        let found = certify_keeping(&plane, &given_of(&turns), &shape, &prices);
        same!(&rt, (is_shape(&plane, &shape), found), (true, proved));
    }
}
