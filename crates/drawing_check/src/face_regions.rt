//! Whether the faces are the regions of a drawing. Its westmost upright part determines whether the outer face lies
//! outside at one place. By a law, the contract of a function that does nothing, each face is then a region.
ghost use Rattle.std.specs.Prelude.{◌≡◌, ◌<◌, ◌↔◌, IsTrue, ℕ, length};
ghost use Rattle.faces.specs.Planes.{darts, reverse_dart, face_at, PlaneModel, IsPlane, vertices};
ghost use Rattle.ortho_rep.specs.Shapes.{ShapeModel};
ghost use Rattle.ortho_rep.specs.Representation.{IsShape};
ghost use Rattle.ortho_rep.specs.Edges.{edge_number, is_lesser};
ghost use Rattle.drawing_check.specs.Draws.{Draws, HasPoints};
ghost use Rattle.drawing_check.specs.Regions.{HasRegions, PassesNorth};
ghost use Rattle.drawing_check.specs.Routes.{path_of};
ghost use Rattle.drawing_check.specs.Westmost.{further_west, west_with_part, west_with_path, west_with_edge, westmost_below, face_on_west};
ghost use Rattle.ortho_rep.specs.Points.{PointsModel};
ghost use Rattle.drawing_check.specs.Outside.{IsWestmost, IsLevel};

use crate::{Drawing, Route, route_of};
use faces::Plane;
use ortho_rep::{Point, Points};

/// A part of an edge that goes north or south: the coordinate of its line, and the face on the west of it.
#[derive(Clone, Copy)]
struct Upright {
    line: u32,
    face: u16,
}

/// The faces on both sides of an edge, met along its lesser dart.
#[derive(Clone, Copy)]
struct Sides {
    left: u16,
    right: u16,
}

/// Whether the regions of a drawing of a shape of this plane are the plane's faces. The answer means nothing for points
/// that draw no shape of the plane.
///
/// They are if the outer face lies on the west of the westmost upright part: all else follows from the shape. It takes
/// O(s) time for s parts of edges, and allocates nothing.
pub fn outside_is_outer(plane: &Plane, drawing: &Drawing) -> bool
    requires points { HasPoints plane.now drawing.now }
    ensures { (shape : ShapeModel) → IsShape plane.now shape → Draws plane.now shape drawing.now
        → IsTrue result ↔ HasRegions plane.now drawing.now }
{
    // Only the proof needs this: `graph` says that the plane is one.
    let _graph = plane.graph();
    let face = westmost_face(plane, drawing.points());
    face == plane.outer()
}

/// The number of the face on the west of the westmost upright part of all edges, the first one met if several lie
/// furthest west; the face of dart 0 if all parts are level.
fn westmost_face(plane: &Plane, points: &Points) -> u16
    requires points { HasPoints plane.now points.now }
    ensures { result ≡ face_on_west (westmost_below plane.now points.now (darts plane.now)) (face_at plane.now 0) }
{
    // Only the proof needs this: `graph` says that there is a dart.
    let _graph = plane.graph();
    match westmost(plane, points) {
        Some(part) => part.face,
        None => plane.face_of(0),
    }
}

/// The westmost upright part of all edges, with the face on the west of it, the first one met if several lie furthest
/// west; `None` if all parts are level.
fn westmost(plane: &Plane, points: &Points) -> Option<Upright>
    requires points { HasPoints plane.now points.now }
    ensures { result ≡ westmost_below plane.now points.now (darts plane.now) }
{
    let graph = plane.graph();
    let mut west = None;
    let mut edge = 0;
    for dart in 0..graph.darts() {
        let reverse = graph.reverse(dart);
        if dart < reverse {
            west = west_with_edge(west, plane, points, dart, reverse, edge);
            edge += 1;
        }
    }
    west
}

/// The westmost of `west` and the upright parts of an edge, given by its lesser dart, that dart's reverse and its
/// number: the first one met, `west` before all, if several lie furthest west; `None` if there is none.
fn west_with_edge(
    west: Option<Upright>,
    plane: &Plane,
    points: &Points,
    dart: u16,
    reverse: u16,
    edge: u16,
) -> Option<Upright>
    requires inside { dart < darts plane.now }
    requires lesser { IsTrue (is_lesser plane.now dart) }
    requires reverse { reverse ≡ reverse_dart plane.now dart }
    requires number { edge ≡ edge_number plane.now dart }
    requires points { HasPoints plane.now points.now }
    ensures { result ≡ west_with_edge plane.now points.now west dart }
{
    // Only the proof needs this: `graph` says where darts end.
    let _graph = plane.graph();
    let route = route_of(plane, points, dart, reverse, edge);
    let sides = Sides {
        left: plane.face_of(dart),
        right: plane.face_of(reverse),
    };
    west_with_path(west, &route, &sides)
}

/// The westmost of `west` and the upright parts of a path between the faces `sides`: the first one met, `west` before
/// all, if several lie furthest west; `None` if there is none.
fn west_with_path(west: Option<Upright>, route: &Route<'_>, sides: &Sides) -> Option<Upright>
    ensures { result ≡ west_with_path sides.now.left sides.now.right west (path_of route.now) }
{
    let mut so_far = west;
    let mut from = route.start;
    for corner in route.corners {
        so_far = west_with_part(so_far, from, *corner, sides);
        from = *corner;
    }
    west_with_part(so_far, from, route.end, sides)
}

/// The westmost of `west` and the part from one point to another, if that is upright, `west` if both lie on one line.
/// If the part is level, `west`, which may be `None`.
fn west_with_part(west: Option<Upright>, from: Point, to: Point, sides: &Sides) -> Option<Upright>
    ensures { result ≡ west_with_part sides.now.left sides.now.right west from to }
{
    if from.x != to.x {
        return west;
    }
    let face = if from.y < to.y {
        sides.left
    } else {
        sides.right
    };
    further_west(west, Upright { line: from.x, face })
}

/// The part that lies further west, `west` if both lie on one line, and `part` if `west` is `None`; the result is never
/// `None`.
fn further_west(west: Option<Upright>, part: Upright) -> Option<Upright>
    ensures { result ≡ further_west west part }
{
    let Some(first) = west else {
        return Some(part);
    };
    if part.line < first.line {
        return Some(part);
    }
    Some(first)
}

// Points that draw a shape have its faces as regions, if the outer face lies outside at one place.
//
// The proof needs no theorem on curves. Walk each dart in steps of length 1. For a face f and a cell let the
// **level** be 1 if f is the outer face, else 0, less how often the darts of f go north to the west of the cell, in
// its row, and more how often they go south. From a cell to the one east of it the level changes by what passes
// between them. It does so from a cell to the one north of it, too: at the end of each dart of f another one starts,
// so as many come to each point as leave it.
//
// No point is used twice, so at most one edge passes between two cells. There the levels change by 1 for the faces on
// its sides, and for no other face. So if they are right on one side of a step, 1 for the face and 0 for each other
// one, they are so on the other side. They stay right from a step to the next one, since no step leaves their point
// in between: at a vertex the angles, each of a quarter at least, sum to four quarters. Darts are connected, so if
// the levels are right at one step they are at all, and between edges nothing changes. So each cell is in the face of
// which the level is 1.
//
// West of all edges the level is 1 for the outer face alone, so it is right at the first dart in a row from the west,
// just where that dart has the outer face on the west.

/// Theorem: the regions of a drawing of a shape are its faces if and only if a certain dart has the outer face on its
/// left.
///
/// It is any dart that goes north with no dart to the west of it in some row that it crosses. If all parts of
/// edges are level, it is any dart at all.
pub fn one_dart_decides_regions()
    ensures westmost { (p : PlaneModel) (shape : ShapeModel) (points : PointsModel) → IsPlane p → IsShape p shape
        → length points.vertices ≡ vertices p → Draws p shape points
        → (d x y : ℕ) → PassesNorth p points d x y → IsWestmost p points x y → HasRegions p points ↔ (face_at p d ≡ p.outer) }
    ensures level { (p : PlaneModel) (shape : ShapeModel) (points : PointsModel) → IsPlane p → IsShape p shape
        → length points.vertices ≡ vertices p → Draws p shape points
        → (d : ℕ) → d < darts p → IsLevel p points → HasRegions p points ↔ (face_at p d ≡ p.outer) }
{}
