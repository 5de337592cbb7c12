//! Compaction by visibility: drawings by hand, known graphs, reused buffers, and refused allocations.

use crate::families::{ANTIPRISM, PRISM, grid, rings};
use crate::planes::{expect_drawing, points_of, shape_of, spiral_in};
use faces::Plane;
use ortho_rep::{Point, Points, Shape};
use std::alloc::{AllocError, Global};
use std::process::Abort;
use test_tools::records::{EDGE, OCTAHEDRON, PATH, TRIANGLE};
use test_tools::{Place, plane_in, points_in, same};
use visibility::{Scratch, compact_by_visibility_in};

/// The points of vertices, and the corners of edges.
type Figure = (&'static [Place], &'static [&'static [Place]]);

const PATH_OF_3: [u8; 8] = [3, 2, 0, 1, 3, 0, 2, 0];

/// A box, and on its sides and within it paths of two edges from the left and the right side and from the top. Its
/// vertices, clockwise around each other, are
///
/// ```text
/// 5    6--------5--------4
/// 4    7        |        |
/// 3    8        |        |
/// 2    9        15       |
/// 1    10-11-12 16 14-13-3
/// 0    1-----------------2
/// ```
///
/// The upper path is in no other's way on levels 3 and 4, and then is as short as it can be: 2. Only with it there the box
/// can be 5 wide, and not less for the four vertices between its sides on level 1.
const BOX_OF_PATHS: [u8; 49] = [
    16, 10, 2, 0, 3, 1, 0, 4, 2, 13, 0, 3, 5, 0, 4, 15, 6, 0, 5, 7, 0, 6, 8, 0, 7, 9, 0, 8, 10, 0,
    9, 11, 1, 0, 12, 10, 0, 11, 0, 3, 14, 0, 13, 0, 5, 16, 0, 15, 0,
];

/// The corners of its edges: none.
const STRAIGHT: [&[Place]; 16] = [&[]; 16];

/// The box, 6 wide.
const BOXED: Figure = (
    &[
        (0, 0),
        (6, 0),
        (6, 1),
        (6, 5),
        (3, 5),
        (0, 5),
        (0, 4),
        (0, 3),
        (0, 2),
        (0, 1),
        (1, 1),
        (2, 1),
        (5, 1),
        (4, 1),
        (3, 2),
        (3, 1),
    ],
    &STRAIGHT,
);

/// The least length of its edges: twice 5 for the width, twice 5 for the height, and 2 for each path.
const BOX_LENGTH: u32 = 26;

/// The corners of four edges: none.
const NONE: [&[Place]; 4] = [&[]; 4];

/// Drawings by hand, and what compaction makes of them.
const BY_HAND: [(&[u8], Figure, Figure); 5] = [
    (
        EDGE,
        (&[(0, 0), (5, 0)], &[&[]]),
        (&[(0, 0), (1, 0)], &[&[]]),
    ),
    (
        EDGE,
        (&[(1, 0), (5, 4)], &[&[(3, 0), (3, 4)]]),
        (&[(0, 0), (2, 1)], &[&[(1, 0), (1, 1)]]),
    ),
    (
        &PATH_OF_3,
        (&[(0, 0), (0, 5), (4, 5)], &[&[], &[]]),
        (&[(0, 0), (0, 1), (1, 1)], &[&[], &[]]),
    ),
    // Vertex 5 sees no other segment to its left, and comes above vertex 2.
    (
        PATH,
        (&[(0, 0), (0, 3), (2, 3), (2, 5), (1, 5)], &NONE),
        (&[(0, 0), (0, 1), (1, 1), (1, 2), (0, 2)], &NONE),
    ),
    // Vertex 5 falls no further, and is pulled to where its edge is shorter.
    (
        PATH,
        (&[(0, 0), (1, 0), (2, 0), (2, 1), (0, 1)], &NONE),
        (&[(0, 0), (1, 0), (2, 0), (2, 1), (1, 1)], &NONE),
    ),
];

/// Drawings whose edges compaction leaves as long as they are.
const AS_SHORT: [(&[u8], Figure); 2] = [
    (EDGE, (&[(7, 3), (7, 4)], &[&[]])),
    (
        TRIANGLE,
        (&[(1, 2), (2, 2), (1, 1)], &[&[], &[], &[(2, 1)]]),
    ),
];

/// What compaction makes of points, as many as the plane has.
fn compacted(
    rt: &impl Abort,
    alloc: Global,
    lent: &mut Scratch,
    plane: &Plane,
    points: &Points,
) -> Result<Option<Points>, AllocError> {
    assert!(rt; points.vertex_count() == usize::from(plane.graph().vertices()));
    assert!(rt; points.edge_count() == usize::from(plane.graph().edges()));
    compact_by_visibility_in(alloc, lent, plane, points)
}

/// Whether these points are at these places.
fn are_at(points: &[Point], places: &[Place]) -> bool {
    points.len() == places.len()
        && points
            .iter()
            .zip(places.iter())
            .all(|(point, place)| (point.x, point.y) == *place)
}

/// Whether these points are those of a figure.
fn is_figure(points: &Points, figure: Figure) -> bool {
    let (vertices, edges) = figure;
    if points.edge_count() != edges.len() || !are_at(points.vertices(), vertices) {
        return false;
    }
    for edge in 0..points.edge_count().min(1000) as u16 {
        if !are_at(points.corners(edge), edges[usize::from(edge)]) {
            return false;
        }
    }
    true
}

/// Whether the points found are those of a figure, or there are to be none.
fn is_wanted(found: Option<&Points>, want: Option<Figure>) -> bool {
    match (found, want) {
        (Some(points), Some(figure)) => is_figure(points, figure),
        (None, None) => true,
        _ => false,
    }
}

/// What compaction makes of a figure.
fn figure_of(
    rt: &impl Abort,
    alloc: Global,
    lent: &mut Scratch,
    bytes: &[u8],
    figure: Figure,
) -> Option<Points> {
    let plane = plane_in(alloc, bytes).expect(rt, "a plane");
    let points = points_in(alloc, figure.0, figure.1).expect(rt, "memory");
    compacted(rt, alloc, lent, &plane, &points).expect(rt, "memory")
}

/// Compaction shortens drawings as was found by hand.
#[test]
fn figures_by_hand(rt: HostRuntime) {
    let alloc = rt.alloc();
    let mut lent = Scratch::empty(alloc);
    for (bytes, figure, want) in BY_HAND {
        let found = figure_of(&rt, alloc, &mut lent, bytes, figure);
        same!(&rt, is_wanted(found.as_ref(), Some(want)), true);
    }
    for (bytes, figure) in AS_SHORT {
        let found = figure_of(&rt, alloc, &mut lent, bytes, figure);
        same!(&rt, is_wanted(found.as_ref(), None), true);
    }
}

/// How far apart two points are, along the axes.
fn distance(from: Point, to: Point) -> u32 {
    let along_x = from.x.abs_diff(to.x);
    along_x.wrapping_add(from.y.abs_diff(to.y))
}

/// The total length of all edges.
fn length_of(plane: &Plane, points: &Points) -> u32 {
    let graph = plane.graph();
    let mut length: u32 = 0;
    let mut edge: u16 = 0;
    for dart in 0..graph.darts() {
        let reverse = graph.reverse(dart);
        if dart < reverse && usize::from(edge) < points.edge_count() {
            let mut from = vertex_of(points, graph.head(reverse));
            for corner in points.corners(edge) {
                length = length.wrapping_add(distance(from, *corner));
                from = *corner;
            }
            let end = vertex_of(points, graph.head(dart));
            length = length.wrapping_add(distance(from, end));
            edge = edge.wrapping_add(1);
        }
    }
    length
}

/// The point of a vertex, or the origin if there is none.
fn vertex_of(points: &Points, vertex: u16) -> Point {
    match points.vertices().get(usize::from(vertex).wrapping_sub(1)) {
        Some(point) => *point,
        None => Point { x: 0, y: 0 },
    }
}

/// A box is shortened along both axes.
/// First the path from the top becomes shorter, and then the box narrower, by segments that move together.
#[test]
fn boxes_are_shortened_along_both_axes(rt: HostRuntime) {
    let alloc = rt.alloc();
    let mut lent = Scratch::empty(alloc);
    let plane = plane_in(alloc, &BOX_OF_PATHS).expect(&rt, "a plane");
    let points = points_in(alloc, BOXED.0, BOXED.1).expect(&rt, "memory");
    let found = compacted(&rt, alloc, &mut lent, &plane, &points).expect(&rt, "memory");
    let shortest = found.expect(&rt, "shorter edges");
    same!(&rt, length_of(&plane, &shortest), BOX_LENGTH);
}

/// The buffers that the tests reuse.
#[derive(Drop)]
struct Lent {
    compaction: Scratch,
    checks: drawing_check::Scratch,
}

/// Checks that the points that compaction finds, if any, draw the shape with shorter edges; returns whether there are
/// any.
fn expect_shorter(
    rt: &impl Abort,
    alloc: Global,
    lent: &mut Lent,
    plane: &Plane,
    shape: &Shape,
) -> bool {
    let points = points_of(rt, alloc, plane, shape);
    let found = compacted(rt, alloc, &mut lent.compaction, plane, &points);
    let Some(shorter) = found.expect(rt, "memory") else {
        return false;
    };
    let is_shorter = length_of(plane, &shorter) < length_of(plane, &points);
    same!(rt, is_shorter, true);
    expect_drawing(rt, alloc, &mut lent.checks, plane, shape, shorter);
    true
}

/// Checks the points that compaction finds for a least shape of these bytes; returns whether there are any.
fn expect_compacted(rt: &impl Abort, alloc: Global, lent: &mut Lent, bytes: &[u8]) -> bool {
    let plane = plane_in(alloc, bytes).expect(rt, "a plane");
    let shape = shape_of(rt, alloc, &plane);
    expect_shorter(rt, alloc, lent, &plane, &shape)
}

/// Trees. Each has vertices of degree 2 or 3, at which a drawing without bends turns, and so winds itself up.
const TREES: [&[u8]; 3] = [
    &[
        8, 2, 5, 3, 4, 0, 1, 7, 0, 1, 6, 0, 1, 0, 8, 1, 0, 3, 0, 2, 0, 5, 0,
    ],
    &[
        12, 9, 6, 2, 3, 0, 8, 4, 1, 0, 11, 1, 0, 10, 5, 2, 0, 4, 12, 7, 0, 1, 0, 5, 0, 2, 0, 1, 0,
        4, 0, 3, 0, 5, 0,
    ],
    &[
        20, 3, 5, 8, 2, 0, 1, 7, 4, 0, 1, 14, 0, 6, 2, 0, 9, 11, 1, 12, 0, 10, 4, 0, 2, 0, 15, 1,
        0, 5, 0, 6, 0, 5, 0, 5, 16, 13, 0, 17, 12, 19, 0, 3, 18, 0, 20, 8, 0, 12, 0, 13, 0, 14, 0,
        13, 0, 15, 0,
    ],
];

/// Checks the points that compaction finds for prisms and antiprisms.
fn expect_rings(rt: &impl Abort, alloc: Global, lent: &mut Lent) {
    for count in 4..=12 {
        for named in [&PRISM, &ANTIPRISM] {
            let bytes = rings(alloc, named, count).expect(rt, "memory");
            let _found = expect_compacted(rt, alloc, lent, &bytes);
        }
    }
}

/// Checks the points that compaction finds for a spiral.
fn expect_spiral(rt: &impl Abort, alloc: Global, lent: &mut Lent) {
    let spiral = spiral_in(alloc, 300).expect(rt, "a shape");
    let plane = plane_in(alloc, EDGE).expect(rt, "a plane");
    let _found = expect_shorter(rt, alloc, lent, &plane, &spiral);
}

/// What compaction finds for known graphs draws them with shorter edges.
#[test]
fn known_graphs_are_compacted(rt: HostRuntime) {
    let alloc = rt.alloc();
    let mut lent = Lent {
        compaction: Scratch::empty(alloc),
        checks: drawing_check::Scratch::empty(alloc),
    };
    for bytes in TREES {
        same!(&rt, expect_compacted(&rt, alloc, &mut lent, bytes), true);
    }
    expect_rings(&rt, alloc, &mut lent);
    let _found = expect_compacted(&rt, alloc, &mut lent, OCTAHEDRON);
    // All edges of a grid have length 1.
    let bytes = grid(alloc, 5, 6).expect(&rt, "memory");
    same!(&rt, expect_compacted(&rt, alloc, &mut lent, &bytes), false);
    expect_spiral(&rt, alloc, &mut lent);
}

/// What the first of two calls of compaction finds, or the second one if the first runs out of memory.
fn compacted_at_last(
    rt: &impl Abort,
    alloc: Global,
    plane: &Plane,
    points: &Points,
) -> Option<Points> {
    let mut lent = Scratch::empty(alloc);
    match compacted(rt, alloc, &mut lent, plane, points) {
        Ok(found) => found,
        Err(AllocError) => compacted(rt, alloc, &mut lent, plane, points).expect(rt, "memory"),
    }
}

/// What compaction finds for a figure of the edge, by the second call if the first one runs out of memory; `None` if
/// memory runs out before.
fn edge_at_last(rt: &impl Abort, alloc: Global, figure: Figure) -> Option<Option<Points>> {
    let points = points_in(alloc, figure.0, figure.1).ok()?;
    let plane = plane_in(alloc, EDGE)?;
    Some(compacted_at_last(rt, alloc, &plane, &points))
}

/// The number of corners of the stairs: enough that there are segments that fall and are set apart.
const STAIRS: u32 = 40;

/// The corner with this number of an edge that goes up stairs of this size, first to the right.
fn stair(number: u32, size: u32) -> Point {
    let step = number / 2;
    let rise = step.saturating_add(number % 2);
    Point {
        x: step.saturating_add(1).saturating_mul(size),
        y: rise.saturating_mul(size),
    }
}

/// The end of stairs of this size.
fn landing(size: u32) -> Point {
    Point {
        x: (STAIRS / 2 + 1).saturating_mul(size),
        y: (STAIRS / 2).saturating_mul(size),
    }
}

/// The points of the edge up stairs of this size.
fn stairs(alloc: Global, size: u32) -> Result<Points, AllocError> {
    let mut vertices = Vec::new(alloc);
    vertices.push(Point { x: 0, y: 0 })?;
    vertices.push(landing(size))?;
    let mut corners = Vec::new(alloc);
    for number in 0..STAIRS {
        corners.push(stair(number, size))?;
    }
    let mut lists = Vec::new(alloc);
    lists.push(corners)?;
    Ok(Points::new(vertices, lists))
}

/// Whether these points are those of stairs of size 1.
fn are_small_stairs(points: &Points) -> bool {
    if points.vertices().get(1) != Some(&landing(1)) || points.edge_count() == 0 {
        return false;
    }
    let corners = points.corners(0);
    for number in 0..STAIRS {
        if corners.get(number as usize) != Some(&stair(number, 1)) {
            return false;
        }
    }
    true
}

/// What compaction finds for stairs of size 3, by the second call if the first one runs out of memory; `None` if it
/// runs out before.
fn stairs_at_last(rt: &impl Abort, alloc: Global) -> Option<Option<Points>> {
    let points = stairs(alloc, 3).ok()?;
    let plane = plane_in(alloc, EDGE)?;
    Some(compacted_at_last(rt, alloc, &plane, &points))
}

/// If memory runs out, a second call with the same buffers answers as without the refusal.
/// `checks/refuse-allocations` refuses each allocation of this test in turn. If a refusal comes before the call, the
/// test ends.
#[test]
fn refused_allocations(rt: HostRuntime) {
    let (_, figure, want) = BY_HAND[1];
    if let Some(found) = edge_at_last(&rt, rt.alloc(), figure) {
        same!(&rt, is_wanted(found.as_ref(), Some(want)), true);
    }
    if let Some(found) = stairs_at_last(&rt, rt.alloc()) {
        same!(&rt, found.as_ref().is_some_and(are_small_stairs), true);
    }
}
