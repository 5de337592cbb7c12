//! What points must satisfy: how many points and corners there are, whether they lie in the grid, whether the parts of
//! paths are parallel to an axis, and whether the edges at each vertex leave it in the order of the record, so that the
//! angles at it make one round. The outer face is the one that turns once to the right.
ghost use Rattle.std.specs.Prelude.{OnOk, OnErr, IfErr, ◌↔◌, IsTrue, All, ◌≡◌, ◌+◌, ◌≤◌, ◌<◌, ℕ, length, replicate, slice_index, ◌≢◌, IfOk, negsuc, pos, ◌-ℤ◌};
ghost use Rattle.referee.specs.Drawings.{HasBoundedPoints};
ghost use Rattle.referee.specs.Faults.{IsFirstFailure, IsCornerFault, IsAxisFault, AreOrdered, IsDisorderFault};
ghost use Rattle.drawing_check.specs.Draws.{IsInGrid, AreInGrid, IsOnAxes, AreOnAxes};
ghost use Rattle.drawing_check.specs.Paths.{paths};
ghost use Rattle.drawing_check.specs.Routes.{path_of};
ghost use Rattle.faces.specs.Planes.{vertices};
ghost use Rattle.ortho_rep.specs.Shapes.{angle_at, turns_at};
ghost use Rattle.ortho_rep.specs.Representation.{HasDarts, angles_around, turning_around};

use crate::judge::Fault;
use drawing_check::{Route, is_axial, route_of};
use faces::Plane;
use ortho_rep::{MAX_COORDINATE, MAX_TURNS, Point, Points, Shape, add_angles, add_turns};

/// Checks that there is a point for each vertex, and for each edge a list of at most 1,000,000 corners. The error is
/// the first of `Vertices`, `Edges` and `Long`, which names the least edge with more.
pub(crate) fn check_counts(plane: &Plane, points: &Points) -> Result<(), Fault>
    ensures whole { OnOk result (HasBoundedPoints plane.now points.now) }
    ensures refused { OnErr result (¬ HasBoundedPoints plane.now points.now) }
    ensures first { IfErr result (IsFirstFailure plane.now points.now) }
{
    let graph = plane.graph();
    if points.vertex_count() != usize::from(graph.vertices()) {
        return Err(Fault::Vertices);
    }
    if points.edge_count() != usize::from(graph.edges()) {
        return Err(Fault::Edges);
    }
    for edge in 0..graph.edges() {
        if points.corners(edge).len() > MAX_TURNS {
            return Err(Fault::Long { edge });
        }
    }
    Ok(())
}

/// Checks that all points lie in the grid, those of vertices first, then the corners, edge by edge. The error names the
/// first that does not: `VertexOutOfGrid` or `CornerOutOfGrid`.
pub(crate) fn check_grid(plane: &Plane, points: &Points) -> Result<(), Fault>
    requires { HasBoundedPoints plane.now points.now }
    ensures inside { OnOk result (AreInGrid points.now) }
    ensures refused { OnErr result (¬ AreInGrid points.now) }
    ensures first { IfErr result (IsFirstFailure plane.now points.now) }
{
    check_vertices(plane, points)?;
    check_corners(plane, points)
}

/// Checks that the points of all vertices lie in the grid. The error `VertexOutOfGrid` names the least vertex that does
/// not, counted from 1.
fn check_vertices(plane: &Plane, points: &Points) -> Result<(), Fault>
    requires { HasBoundedPoints plane.now points.now }
    ensures inside { OnOk result (All IsInGrid points.now.vertices) }
    ensures refused { OnErr result (¬ All IsInGrid points.now.vertices) }
    ensures first { IfErr result (IsFirstFailure plane.now points.now) }
{
    for place in 0..plane.graph().vertices() {
        let vertex = place + 1;
        if !is_in_grid(points.vertex(vertex)) {
            return Err(Fault::VertexOutOfGrid { vertex });
        }
    }
    Ok(())
}

/// Checks that all corners lie in the grid, edge by edge. The error `CornerOutOfGrid` names the first that does not.
fn check_corners(plane: &Plane, points: &Points) -> Result<(), Fault>
    requires { HasBoundedPoints plane.now points.now }
    ensures inside { OnOk result (All (All IsInGrid) points.now.corners) }
    ensures refused { OnErr result (¬ All (All IsInGrid) points.now.corners) }
    ensures first { IfErr result (λ fault. All IsInGrid points.now.vertices → IsFirstFailure plane.now points.now fault) }
{
    for edge in 0..plane.graph().edges() {
        check_edge_corners(points.corners(edge), edge)?;
    }
    Ok(())
}

/// Checks that the corners of the edge with this number lie in the grid. The error `CornerOutOfGrid` names the edge and
/// the first corner that does not, counted from 0.
fn check_edge_corners(corners: &[Point], edge: u16) -> Result<(), Fault>
    ensures inside { OnOk result (All IsInGrid corners.now) }
    ensures refused { OnErr result (¬ All IsInGrid corners.now) }
    ensures first { IfErr result (IsCornerFault corners.now edge) }
{
    for (corner, point) in corners.iter().enumerate() {
        if !is_in_grid(*point) {
            return Err(Fault::CornerOutOfGrid { edge, corner });
        }
    }
    Ok(())
}

/// Whether both coordinates are at most 65,535.
fn is_in_grid(point: Point) -> bool
    ensures { IsTrue result ↔ IsInGrid point }
{
    point.x <= MAX_COORDINATE && point.y <= MAX_COORDINATE
}

/// Checks that each part of each path is parallel to an axis, edge by edge. The error `NotAxis` names the edge and the
/// first part that is not, both counted from 0.
pub(crate) fn check_axes(plane: &Plane, points: &Points) -> Result<(), Fault>
    requires { HasBoundedPoints plane.now points.now }
    ensures on_axes { OnOk result (AreOnAxes (paths plane.now points.now)) }
    ensures refused { OnErr result (¬ AreOnAxes (paths plane.now points.now)) }
    ensures first { IfErr result (λ fault. AreInGrid points.now → IsFirstFailure plane.now points.now fault) }
{
    let graph = plane.graph();
    let mut edge = 0;
    for dart in 0..graph.darts() {
        let reverse = graph.reverse(dart);
        if dart < reverse {
            let route = route_of(plane, points, dart, reverse, edge);
            check_route(&route, edge)?;
            edge += 1;
        }
    }
    Ok(())
}

/// Checks that each part of the path of this edge is parallel to an axis. The error `NotAxis` names the edge and the
/// first part that is not, counted from 0.
fn check_route(route: &Route<'_>, edge: u16) -> Result<(), Fault>
    ensures on_axes { OnOk result (IsOnAxes (path_of route.now)) }
    ensures refused { OnErr result (¬ IsOnAxes (path_of route.now)) }
    ensures first { IfErr result (IsAxisFault (path_of route.now) edge) }
{
    for part in 0..route.corners.len() + 1 {
        if !is_axial(route.point_at(part), route.point_at(part + 1)) {
            return Err(Fault::NotAxis { edge, part });
        }
    }
    Ok(())
}

/// Checks that the angles round each vertex sum to four quarters. The error `Embedding` names the least vertex where
/// they do not. The angles are added up in `sums`, all 0 at first, with one item more than vertices: item v is for
/// vertex v.
pub(crate) fn check_angle_sums(plane: &Plane, shape: &Shape, sums: &mut [u32]) -> Result<(), Fault>
    requires darts { HasDarts plane.now shape.now }
    requires clear { sums.old ≡ replicate (vertices plane.now + 1) 0 }
    ensures ordered { OnOk result (AreOrdered plane.now shape.now) }
    ensures first { IfErr result (IsDisorderFault plane.now shape.now) }
{
    let vertices = plane.graph().vertices();
    add_angles(plane, shape, sums);
    for place in 0..vertices {
        if sums[usize::from(place) + 1] != 4 {
            return Err(Fault::Embedding { vertex: place + 1 });
        }
    }
    Ok(())
}

/// The least face whose darts turn once to the right, by four more quarter turns than to the left; the error `Outer` if
/// there is none. The turns of each face are added up in `left_sums` and `right_sums`, which must be all 0.
pub(crate) fn find_outer(
    plane: &Plane,
    shape: &Shape,
    left_sums: &mut [u64],
    right_sums: &mut [u64],
) -> Result<u16, Fault>
    requires darts { HasDarts plane.now shape.now }
    requires clear_left_sums { left_sums.old ≡ replicate plane.now.faces 0 }
    requires clear_right_sums { right_sums.old ≡ replicate plane.now.faces 0 }
    ensures named { IfOk result (λ outer. outer < plane.now.faces) }
    ensures turns { IfOk result (λ outer. turning_around plane.now (angle_at shape.now) (turns_at shape.now) outer ≡ negsuc 3) }
    ensures kind { IfErr result (λ fault. fault ≡ Fault.Outer) }
    ensures none { OnErr result ((f : ℕ) → f < plane.now.faces → turning_around plane.now (angle_at shape.now) (turns_at shape.now) f ≢ negsuc 3) }
{
    let faces = plane.face_count();
    add_turns(plane, shape, left_sums, right_sums);
    for face in 0..faces {
        let place = usize::from(face);
        if turns_right(left_sums[place], right_sums[place]) {
            return Ok(face);
        }
    }
    Err(Fault::Outer)
}

/// Whether there are exactly four more quarter turns to the right than to the left: one whole turn to the right.
fn turns_right(lefts: u64, rights: u64) -> bool
    ensures { IsTrue result ↔ ((pos lefts -ℤ pos rights) ≡ negsuc 3) }
{
    rights >= 4 && rights - 4 == lefts
}
