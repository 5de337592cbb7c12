//! The results of one walk over all edges: what is seen of the path of each, and the points that are met, by vertices
//! and by paths, as rectangles that cover them.
ghost use Rattle.std.specs.Prelude.{◌≡◌, ◌∷◌, ◌++◌, [], map, OnOk, ◌↔◌, length, IsTrue, All, ℕ, ◌<◌, ◌≤◌};
ghost use Rattle.drawing_check.specs.Walks.{toward, step_from};
ghost use Rattle.drawing_check.specs.Routes.{path_of, direction_at};
ghost use Rattle.drawing_check.specs.Shown.{rectangle_between, strips};
ghost use Rattle.drawing_check.specs.Paths.{point_of, path_along, paths};
ghost use Rattle.drawing_check.specs.Draws.{direction_between, direction_of, IsInGrid, IsOnAxes, IsTurning, AreInGrid, AreOnAxes, leaving, HasPoints};
ghost use Rattle.std.specs.List.{flat_map};
ghost use Rattle.faces.specs.Planes.{darts};
ghost use Rattle.ortho_rep.specs.Shapes.{turns_at};
ghost use Rattle.ortho_rep.specs.Representation.{HasDarts};
ghost use Rattle.ortho_rep.specs.Edges.{lesser_darts};

use crate::route::{
    Route, all_in_grid, direction_from, is_axial, is_on_axes, is_turning, route_of,
};
use faces::Plane;
use geometry::{Direction, Rectangle};
use ortho_rep::{Point, Points, Shape, Turn};
use std::alloc::AllocError;

/// Replaces the items of `rectangles` by a rectangle of one point for each vertex, in the order of vertices, and
/// reserves room for `edges` more. `AllocError` if there is no memory; `rectangles` is then empty.
pub(crate) fn list_vertices(
    rectangles: &mut Vec<Rectangle>,
    points: &Points,
    edges: u16,
) -> Result<(), AllocError>
    ensures { OnOk result (rectangles.new.items ≡ map (λ q. rectangle_between q q) points.now.vertices) }
{
    let vertices = points.vertices();
    rectangles.clear();
    rectangles.reserve(vertices.len() + usize::from(edges))?;
    for point in vertices {
        rectangles.push(spanned(*point, *point))?;
    }
    Ok(())
}

/// Appends to `rectangles` what a path covers between its ends: a strip for each part, in order, with the corner at its
/// end, and none for a last part of one step. `AllocError` if there is no memory; the strips appended until then stay.
pub(crate) fn add_route(
    rectangles: &mut Vec<Rectangle>,
    route: &Route<'_>,
) -> Result<(), AllocError>
    ensures { OnOk result (rectangles.new.items ≡ rectangles.old.items ++ strips (path_of route.now)) }
{
    let mut from = route.start;
    for corner in route.corners {
        rectangles.push(spanned(first_step(from, *corner), *corner))?;
        from = *corner;
    }
    add_last(rectangles, from, route.end)
}

/// Appends to `rectangles` the rectangle that covers the last part of a path, from `from` to `end`, without these two
/// points; nothing if the part is one step. `AllocError` if there is no memory; `rectangles` is then unchanged.
pub(crate) fn add_last(
    rectangles: &mut Vec<Rectangle>,
    from: Point,
    end: Point,
) -> Result<(), AllocError>
    ensures { OnOk result (rectangles.new.items ≡ rectangles.old.items ++ strips (from ∷ end ∷ [])) }
{
    let first = first_step(from, end);
    if first != end {
        rectangles.push(spanned(first, first_step(end, from)))?;
    }
    Ok(())
}

/// The least rectangle that covers both points.
fn spanned(a: Point, b: Point) -> Rectangle
    ensures { result ≡ rectangle_between a b }
{
    Rectangle {
        left: a.x.min(b.x),
        right: a.x.max(b.x),
        bottom: a.y.min(b.y),
        top: a.y.max(b.y),
    }
}

/// The point that is one step from `from` on the way to `to`: each coordinate that differs changes by 1.
fn first_step(from: Point, to: Point) -> Point
    ensures { result ≡ step_from from to 1 }
{
    Point {
        x: one_toward(from.x, to.x),
        y: one_toward(from.y, to.y),
    }
}

/// The number one step from `from` toward `to`, or `from` if they are equal.
fn one_toward(from: u32, to: u32) -> u32
    ensures { result ≡ toward from to 1 }
{
    if from < to {
        return from + 1;
    }
    if to < from {
        return from - 1;
    }
    from
}

/// What was seen of a path.
#[derive(Drop)]
pub(crate) struct PathSeen {
    /// Whether all corners lie in the grid.
    pub(crate) in_grid: bool,
    /// Whether each part is parallel to an axis.
    pub(crate) on_axes: bool,
    /// Whether there are as many corners as turns, and each corner is its turn.
    pub(crate) turning: bool,
    /// Whether there was memory for the rectangles of this path and of all before it.
    pub(crate) listed: bool,
    /// The directions in which the path leaves its start, and its end on the way back.
    pub(crate) out: Direction,
    pub(crate) back: Direction,
}

/// Whether both are true, computed without a branch.
pub(crate) fn both(one: bool, other: bool) -> bool
    ensures { IsTrue result ↔ (IsTrue one × IsTrue other) }
{
    one & other
}

/// Appends the rectangles of a path to `rectangles` if `listed` says that those of all paths before it are there, and
/// returns whether all are there now: false if `listed` is false, where nothing changes, or out of memory, where some
/// may be appended.
fn list_route(rectangles: &mut Vec<Rectangle>, listed: bool, route: &Route<'_>) -> bool
    ensures before { IsTrue result → IsTrue listed }
    ensures added { IsTrue result
        → rectangles.new.items ≡ rectangles.old.items ++ strips (path_of route.now) }
{
    listed && add_route(rectangles, route).is_ok()
}

/// Appends the rectangle of a path without corners, if it has one, to `rectangles` if `listed` says that those of all
/// paths before it are there, and returns whether all are there now: false if `listed` is false or out of memory;
/// nothing changes then.
fn list_straight(rectangles: &mut Vec<Rectangle>, listed: bool, start: Point, end: Point) -> bool
    ensures before { IsTrue result → IsTrue listed }
    ensures added { IsTrue result
        → rectangles.new.items ≡ rectangles.old.items ++ strips (start ∷ end ∷ []) }
{
    listed && add_last(rectangles, start, end).is_ok()
}

/// The results of the tests of a path, and the directions in which it leaves its two ends. Appends its rectangles to
/// `rectangles` if `listed` says that those of all paths before it are there; in the result `listed` is false if it was
/// already or if memory runs out, where some may be appended.
pub(crate) fn examine_route(
    route: &Route<'_>,
    turns: &[Turn],
    rectangles: &mut Vec<Rectangle>,
    listed: bool,
) -> PathSeen
    ensures in_grid { IsTrue result.in_grid ↔ All IsInGrid route.now.corners.now }
    ensures on_axes { IsTrue result.on_axes ↔ IsOnAxes (path_of route.now) }
    ensures turning { IsTrue result.turning ↔ IsTurning (path_of route.now) turns.now }
    ensures before { IsTrue result.listed → IsTrue listed }
    ensures added { IsTrue result.listed
        → rectangles.new.items ≡ rectangles.old.items ++ strips (path_of route.now) }
    ensures out { result.out ≡ direction_of (path_of route.now) 0 }
    ensures back { result.back
        ≡ direction_between route.now.end (point_of (path_of route.now) (length route.now.corners.now)) }
{
    if route.corners.is_empty() {
        return examine_straight(route, turns, rectangles, listed);
    }
    let corners = route.corners.len();
    PathSeen {
        in_grid: all_in_grid(route.corners),
        on_axes: is_on_axes(route),
        turning: is_turning(route, turns),
        listed: list_route(rectangles, listed, route),
        out: direction_from(route.start, route.point_at(1)),
        back: direction_from(route.end, route.point_at(corners)),
    }
}

/// The results of the tests of a path without corners, and the directions in which it leaves its two ends. Appends its
/// rectangle, if it has one, to `rectangles` if `listed` is true; in the result `listed` is false if it was already or
/// if memory runs out. The path must have no corners.
fn examine_straight(
    route: &Route<'_>,
    turns: &[Turn],
    rectangles: &mut Vec<Rectangle>,
    listed: bool,
) -> PathSeen
    requires { length route.now.corners.now ≡ 0 }
    ensures in_grid { IsTrue result.in_grid ↔ All IsInGrid route.now.corners.now }
    ensures on_axes { IsTrue result.on_axes ↔ IsOnAxes (path_of route.now) }
    ensures turning { IsTrue result.turning ↔ IsTurning (path_of route.now) turns.now }
    ensures before { IsTrue result.listed → IsTrue listed }
    ensures added { IsTrue result.listed
        → rectangles.new.items ≡ rectangles.old.items ++ strips (path_of route.now) }
    ensures out { result.out ≡ direction_of (path_of route.now) 0 }
    ensures back { result.back
        ≡ direction_between route.now.end (point_of (path_of route.now) (length route.now.corners.now)) }
{
    PathSeen {
        in_grid: true,
        on_axes: is_axial(route.start, route.end),
        turning: turns.is_empty(),
        listed: list_straight(rectangles, listed, route.start, route.end),
        out: direction_from(route.start, route.end),
        back: direction_from(route.end, route.start),
    }
}

/// What was seen of all edges.
#[derive(Drop)]
pub(crate) struct EdgesSeen {
    /// Whether all vertices and all corners lie in the grid.
    pub(crate) in_grid: bool,
    /// Whether each part of each path is parallel to an axis.
    pub(crate) on_axes: bool,
    /// Whether each edge has as many corners as turns, and each corner is its turn.
    pub(crate) turning: bool,
    /// Whether there was memory for the rectangles of all vertices and all paths.
    pub(crate) listed: bool,
}

/// Returns which of three tests hold for all edges, in grid, on axes and turning, and in `listed` whether memory
/// sufficed. Replaces the items of `rectangles` by those of all vertices and paths, or by some of them if memory runs
/// out, and overwrites `directions` with the direction in which each dart leaves its tail.
pub(crate) fn scan_edges(
    plane: &Plane,
    shape: &Shape,
    points: &Points,
    rectangles: &mut Vec<Rectangle>,
    directions: &mut [Direction],
) -> EdgesSeen
    requires lengths { HasDarts plane.now shape.now }
    requires points { HasPoints plane.now points.now }
    requires room { darts plane.now ≤ length directions.old }
    ensures in_grid { IsTrue result.in_grid ↔ AreInGrid points.now }
    ensures on_axes { IsTrue result.on_axes ↔ AreOnAxes (paths plane.now points.now) }
    ensures turning { IsTrue result.turning
        ↔ All (λ d. IsTurning (path_along plane.now points.now d) (turns_at shape.now d))
        (lesser_darts plane.now) }
    ensures listed { IsTrue result.listed
        → rectangles.new.items ≡ map (λ q. rectangle_between q q) points.now.vertices
        ++ flat_map strips (paths plane.now points.now) }
    ensures room { darts plane.now ≤ length directions.new }
    ensures leaving { (d : ℕ) → d < darts plane.now
        → direction_at directions.new d ≡ leaving plane.now points.now d }
{
    let graph = plane.graph();
    let mut listed = list_vertices(rectangles, points, graph.edges()).is_ok();
    let mut in_grid = all_in_grid(points.vertices());
    let mut on_axes = true;
    let mut turning = true;
    let mut edge = 0;
    for dart in 0..graph.darts() {
        let reverse = graph.reverse(dart);
        if dart < reverse {
            let route = route_of(plane, points, dart, reverse, edge);
            let path = examine_route(&route, shape.turns(dart), rectangles, listed);
            in_grid = both(in_grid, path.in_grid);
            on_axes = both(on_axes, path.on_axes);
            turning = both(turning, path.turning);
            listed = path.listed;
            directions[usize::from(dart)] = path.out;
            directions[usize::from(reverse)] = path.back;
            edge += 1;
        }
    }
    EdgesSeen {
        in_grid,
        on_axes,
        turning,
        listed,
    }
}
