//! The path of an edge, seen in place: whether its parts are parallel to an axis, whether its points lie in the grid,
//! and whether the turns at corners and the angles at vertices are those of a shape.
ghost use Rattle.std.specs.Prelude.{◌≡◌, ℕ, ◌<◌, length, IsTrue, ◌↔◌, All, ◌≤◌};
ghost use Rattle.faces.specs.Planes.{darts, reverse_dart};
ghost use Rattle.ortho_rep.specs.Points.{corners_at};
ghost use Rattle.ortho_rep.specs.Edges.{is_lesser, edge_number};
ghost use Rattle.drawing_check.specs.Paths.{path_along, point_of};
ghost use Rattle.drawing_check.specs.Routes.{path_of, HeadsTurn};
ghost use Rattle.drawing_check.specs.Draws.{HasPoints, IsAxis, IsOnAxes, IsInGrid, direction_between, turned, IsTurning};
ghost use Rattle.drawing_check.specs.Walks.{distance};
ghost use Rattle.ortho_rep.specs.Representation.{HasDarts};

use crate::edges::EdgesSeen;
use faces::Plane;
use geometry::Direction;
use ortho_rep::{MAX_COORDINATE, Point, Points, Shape, Turn};

/// The Manhattan distance between two points: how many steps lead from one to the other, along both axes.
pub fn distance(from: Point, to: Point) -> u64
    ensures { result ≡ distance from to }
{
    u64::from(from.x.abs_diff(to.x)) + u64::from(from.y.abs_diff(to.y))
}

/// The path of an edge along its lesser dart: from one end by the corners to the other.
#[derive(Clone, Copy)]
pub struct Route<'a> {
    pub start: Point,
    pub corners: &'a [Point],
    pub end: Point,
}

impl Route<'_> {
    /// Point k of the path: its start for 0, then its corners, and then its end.
    #[inline]
    pub fn point_at(&self, k: usize) -> Point
        requires { k < length (path_of self.now) }
        ensures { result ≡ point_of (path_of self.now) k }
    {
        if k == 0 {
            return self.start;
        }
        if k <= self.corners.len() {
            return self.corners[k - 1];
        }
        self.end
    }
}

/// The path of the edge with the number `edge`, from the tail of its lesser dart `dart` by the corners to the head;
/// `reverse` must be the reverse of `dart`. The corners are borrowed from `points`.
#[inline]
pub fn route_of<'a>(
    plane: &Plane,
    points: &'a Points,
    dart: u16,
    reverse: u16,
    edge: u16,
) -> Route<'a>
    requires inside { dart < darts plane.now }
    requires lesser { IsTrue (is_lesser plane.now dart) }
    requires reverse { reverse ≡ reverse_dart plane.now dart }
    requires number { edge ≡ edge_number plane.now dart }
    requires points { HasPoints plane.now points.now }
    ensures path { path_of result ≡ path_along plane.now points.now dart }
    ensures corners { result.corners.now ≡ corners_at points.now edge }
{
    let graph = plane.graph();
    Route {
        start: points.vertex(graph.head(reverse)),
        corners: points.corners(edge),
        end: points.vertex(graph.head(dart)),
    }
}

/// Whether each part of a path, from one point to the next, is parallel to an axis; false if a part has length 0.
pub(crate) fn is_on_axes(route: &Route<'_>) -> bool
    ensures { IsTrue result ↔ IsOnAxes (path_of route.now) }
{
    for k in 0..route.corners.len() + 1 {
        if !is_axial(route.point_at(k), route.point_at(k + 1)) {
            return false;
        }
    }
    true
}

/// Whether two points differ in exactly one coordinate.
pub fn is_axial(a: Point, b: Point) -> bool
    ensures { IsTrue result ↔ IsAxis a b }
{
    (a.x == b.x) != (a.y == b.y)
}

/// Whether both coordinates of all points of a list are at most 65,535; true for an empty list.
pub(crate) fn all_in_grid(points: &[Point]) -> bool
    ensures { IsTrue result ↔ All IsInGrid points.now }
{
    points
        .iter()
        .all(|p| p.x <= MAX_COORDINATE && p.y <= MAX_COORDINATE)
}

/// Whether all corners are the shape's, as `seen` says, and so is the angle at the head of each dart, if the darts
/// leave their tails in these directions.
pub(crate) fn turn_as_said(
    plane: &Plane,
    shape: &Shape,
    seen: &EdgesSeen,
    directions: &[Direction],
) -> bool
    requires lengths { HasDarts plane.now shape.now }
    requires size { darts plane.now ≤ length directions.now }
    ensures { IsTrue result
        ↔ (IsTrue seen.now.turning × HeadsTurn plane.now shape.now directions.now) }
{
    seen.turning && heads_turn(plane, shape, directions)
}

/// Whether a path has as many corners as there are turns, and turns at each corner as the turn in its place says.
pub(crate) fn is_turning(route: &Route<'_>, turns: &[Turn]) -> bool
    ensures { IsTrue result ↔ IsTurning (path_of route.now) turns.now }
{
    if route.corners.len() != turns.len() {
        return false;
    }
    let mut heading = direction_from(route.start, route.point_at(1));
    for (k, turn) in turns.iter().enumerate() {
        let onward = direction_from(route.point_at(k + 1), route.point_at(k + 2));
        if onward != turn_from(heading, *turn) {
            return false;
        }
        heading = onward;
    }
    true
}

/// Whether the angle at the head of each dart is that of the shape, if the darts leave their tails in these
/// directions.
fn heads_turn(plane: &Plane, shape: &Shape, directions: &[Direction]) -> bool
    requires lengths { HasDarts plane.now shape.now }
    requires size { darts plane.now ≤ length directions.now }
    ensures { IsTrue result ↔ HeadsTurn plane.now shape.now directions.now }
{
    let graph = plane.graph();
    for dart in 0..graph.darts() {
        let back = directions[usize::from(graph.reverse(dart))];
        let onward = directions[usize::from(plane.next(dart))];
        if back != onward.left_quarters(shape.angle(dart)) {
            return false;
        }
    }
    true
}

/// The direction in which `to` lies from `from`: east or west if they differ in x, otherwise north or south; south if
/// they are equal. Both candidates are computed before one is selected, since a branch on a direction cannot be
/// predicted.
#[inline]
pub fn direction_from(from: Point, to: Point) -> Direction
    ensures { result ≡ direction_between from to }
{
    let along_x = if from.x < to.x {
        Direction::East
    } else {
        Direction::West
    };
    let along_y = if from.y < to.y {
        Direction::North
    } else {
        Direction::South
    };
    if from.x == to.x { along_y } else { along_x }
}

/// The direction after a walk in `direction` makes this quarter turn.
fn turn_from(direction: Direction, turn: Turn) -> Direction
    ensures { result ≡ turned turn direction }
{
    match turn {
        Turn::Left => direction.left(),
        Turn::Right => direction.right(),
    }
}
