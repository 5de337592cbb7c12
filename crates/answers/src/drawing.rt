//! How a shape is drawn, how long the edges of a drawing are, and how far it reaches.
ghost use Rattle.std.specs.Prelude.{◌≡◌, ◌≤◌, ◌↔◌, All, IfSome, IsTrue, length, IfOk};
ghost use Rattle.drawing_check.specs.Draws.{HasPoints, Draws};
ghost use Rattle.drawing_check.specs.Routes.{path_of};
ghost use Rattle.reports.specs.Lengths.{edge_length, path_length, IsNear, IsNoLonger, IsQuick};
ghost use Rattle.ortho_rep.specs.Points.{AreBelow, IsBelow};
ghost use Rattle.ortho_rep.specs.Representation.{IsLeast, IsShape};
ghost use Rattle.compact.specs.Monotone.{AreDirectionsOf};
ghost use Rattle.drawing_check.specs.Regions.{HasRegions};
ghost use Rattle.reports.specs.Drawn.{IsDrawn};
ghost use Rattle.answers.specs.Drawings.{IsDrawing};

use crate::holder::Shell;
use crate::shaped_plane::ShapedPlane;
use common::DrawingKind;
use compact::{BoxesScratch, CompactFault, compact_in, dissect_along};
use drawing_check::{CheckFault, Drawing, Route, check_in, distance, outside_is_outer, route_of};
use faces::Plane;
use lanes::ReturnQueue;
use ortho_rep::{Point, Points, Shape};
use reports::Cause;
use std::alloc::{AllocError, Global};
use std::sync::Wait;
use visibility::compact_by_visibility_in;

/// Whether the edges of the plane, drawn by `points`, are together no longer than drawn by `others`; false if one of
/// the two lengths takes more than 64 bits.
pub(crate) fn is_no_longer(plane: &Plane, points: &Points, others: &Points) -> bool
    requires points { HasPoints plane.now points.now }
    requires others { HasPoints plane.now others.now }
    ensures { IsTrue result → edge_length plane.now points.now ≤ edge_length plane.now others.now }
{
    match (edge_length(plane, points), edge_length(plane, others)) {
        (Some(length), Some(other_length)) => length <= other_length,
        _ => false,
    }
}

/// The length of all edges of the plane together, drawn by `points`, in steps of the grid; `None` if it takes more than
/// 64 bits.
fn edge_length(plane: &Plane, points: &Points) -> Option<u64>
    requires points { HasPoints plane.now points.now }
    ensures { IfSome result (λ found. found ≡ edge_length plane.now points.now) }
{
    let graph = plane.graph();
    let mut length = 0u64;
    let mut edge = 0;
    for dart in 0..graph.darts() {
        let reverse = graph.reverse(dart);
        if dart < reverse {
            let route = route_of(plane, points, dart, reverse, edge);
            let more = path_length(&route)?;
            length = length.checked_add(more)?;
            edge += 1;
        }
    }
    Some(length)
}

/// The length of the path of one edge, from its start along its corners to its end, in steps of the grid; `None` if it
/// takes more than 64 bits.
fn path_length(route: &Route<'_>) -> Option<u64>
    ensures { IfSome result (λ found. found ≡ path_length (path_of route.now)) }
{
    let mut length = 0u64;
    let mut from = route.start;
    for corner in route.corners {
        length = length.checked_add(distance(from, *corner))?;
        from = *corner;
    }
    length.checked_add(distance(from, route.end))
}

/// Whether both coordinates of each vertex and of each corner are less than `limit`; `edges` must be the number of all
/// edges.
pub(crate) fn are_below(points: &Points, edges: u16, limit: u32) -> bool
    requires { edges ≡ length points.now.corners }
    ensures { IsTrue result ↔ AreBelow limit points.now }
{
    if !all_below(points.vertices(), limit) {
        return false;
    }
    for edge in 0..edges {
        if !all_below(points.corners(edge), limit) {
            return false;
        }
    }
    true
}

/// Whether both coordinates of each point of `points` are less than `limit`; true if there are no points.
fn all_below(points: &[Point], limit: u32) -> bool
    ensures { IsTrue result ↔ All (IsBelow limit) points.now }
{
    points
        .iter()
        .all(|point| point.x < limit && point.y < limit)
}

/// The buffers of the stage that draws shapes, reused for the next shape.
#[derive(Drop)]
pub struct DrawScratch {
    boxes: BoxesScratch,
    points: compact::Scratch,
    compaction: visibility::Scratch,
    check: drawing_check::Scratch,
    // the holder of the shaped plane that was taken last
    pub(crate) shell: Option<Shell<ShapedPlane>>,
    pub(crate) back: ReturnQueue<Shell<ShapedPlane>>,
}

impl DrawScratch {
    /// An empty scratch, without queues on which buffers return. It allocates nothing.
    pub fn empty(alloc: Global) -> DrawScratch {
        DrawScratch {
            boxes: BoxesScratch::empty(alloc),
            points: compact::Scratch::empty(alloc),
            compaction: visibility::Scratch::empty(alloc),
            check: drawing_check::Scratch::empty(alloc),
            shell: None,
            back: ReturnQueue::none(),
        }
    }

    /// Consumes a shaped plane and its points: keeps the list of the points for the next points, and puts the shaped
    /// plane into the holder kept here, in which its lists will return to an earlier stage. Without a holder it is
    /// dropped.
    pub fn take_back(&mut self, shaped_plane: ShapedPlane, points: Points) {
        self.points.take_back(points);
        self.take_back_shaped(shaped_plane);
    }

    /// Consumes a shaped plane that is no longer needed: puts it into the holder kept here, in which its lists will
    /// return to an earlier stage. Without a holder it is dropped.
    pub fn take_back_shaped(&mut self, shaped_plane: ShapedPlane) {
        if let Some(shell) = &mut self.shell {
            shell.refill(shaped_plane);
        }
    }

    /// Sends the holder of the shaped plane that was taken last, with what was put back into it, to the stage before,
    /// if it is still here. It never waits; without a queue, or if the queue is full, the holder is dropped.
    pub(crate) fn send_back<R: Wait>(&mut self, rt: &R) {
        if let Some(shell) = self.shell.take() {
            self.back.send(rt, shell);
        }
    }
}

/// Returns the drawing of `shape`, of the kind `drawing_kind` and checked to draw it, or (`Ok(Err(..))`) the cause why
/// there is none. Works in the buffers of `scratch`; `AllocError` if memory runs out, and buffers may then be gone.
/// `directions` must be those in which the darts of `shape` arrive at their heads.
///
/// For a short drawing the points are compacted. The compacted points are returned only if their edges are together no
/// longer than before, no coordinate is as great as the number of boxes' vertices, they are checked to draw the shape,
/// and their regions are the faces. Otherwise the points before are.
pub(crate) fn draw(
    alloc: Global,
    scratch: &mut DrawScratch,
    plane: &Plane,
    shape: &Shape,
    directions: &[u8],
    drawing_kind: DrawingKind,
) -> Result<Result<Drawing, Cause>, AllocError>
    requires shape { IsShape plane.now shape.now }
    requires directions { AreDirectionsOf plane.now shape.now directions.now }
    ensures drawn { IfOk result (IsDrawn plane.now shape.now) }
    ensures quick { drawing_kind ≡ DrawingKind.Quick
        → IfOk result (λ drawn. IfOk drawn (IsQuick plane.now shape.now)) }
    ensures no_longer { IfOk result (λ drawn. IfOk drawn (IsNoLonger plane.now shape.now)) }
    ensures near { IfOk result (λ drawn. IfOk drawn (IsNear plane.now shape.now)) }
{
    // Only the proof needs this: `graph` says that the plane is one.
    let _graph = plane.graph();
    let boxes = dissect_along(alloc, &mut scratch.boxes, plane, shape, directions)?;
    let points = match compact_in(alloc, &mut scratch.points, &boxes) {
        Ok(points) => points,
        Err(CompactFault::Wide) => return Ok(Err(Cause::Wide)),
        Err(CompactFault::Memory) => return Err(AllocError),
    };
    let limit = boxes.vertices();
    boxes.give_back(&mut scratch.boxes);
    if drawing_kind == DrawingKind::Short {
        match shorter_drawing(alloc, scratch, plane, shape, &points, limit) {
            Ok(Some(shorter)) => return Ok(Ok(shorter)),
            Ok(None) => {}
            Err(AllocError) => return Err(AllocError),
        }
    }
    match check_in(alloc, &mut scratch.check, plane, shape, points) {
        Ok(drawing) => Ok(Ok(drawing)),
        Err((CheckFault::OutOfGrid, _)) => Ok(Err(Cause::OutOfGrid)),
        Err((CheckFault::NotAxis, _)) => Ok(Err(Cause::NotAxis)),
        Err((CheckFault::WrongTurn, _)) => Ok(Err(Cause::WrongTurn)),
        Err((CheckFault::Meet, _)) => Ok(Err(Cause::Meet)),
        Err((CheckFault::Memory, _)) => Err(AllocError),
    }
}

/// Returns points that draw the shaped plane, in a drawing of the kind `drawing_kind`; there are such points, since its
/// shape must have the fewest bends. Works in the buffers of `scratch`; `AllocError` if memory runs out, and buffers
/// may then be gone.
///
/// Those of a quick drawing are the least points of its boxes. That they draw the shape is proved, so they are not
/// checked.
pub(crate) fn points_of(
    alloc: Global,
    scratch: &mut DrawScratch,
    shaped_plane: &ShapedPlane,
    drawing_kind: DrawingKind,
) -> Result<Points, AllocError>
    requires { IsLeast shaped_plane.now.plane shaped_plane.now.shape }
    ensures drawn { IfOk result (IsDrawing shaped_plane.now.plane shaped_plane.now.shape) }
    ensures quick { drawing_kind ≡ DrawingKind.Quick
        → IfOk result (IsQuick shaped_plane.now.plane shaped_plane.now.shape) }
{
    let plane = &shaped_plane.plane;
    let shape = &shaped_plane.shape;
    let directions = &shaped_plane.directions;
    // Only the proof needs this: `graph` says that the plane is one.
    let _graph = plane.graph();
    match drawing_kind {
        DrawingKind::Quick => {
            let boxes = dissect_along(alloc, &mut scratch.boxes, plane, shape, directions)?;
            match compact_in(alloc, &mut scratch.points, &boxes) {
                Ok(points) => {
                    boxes.give_back(&mut scratch.boxes);
                    Ok(points)
                }
                Err(CompactFault::Wide) => unreachable!(),
                Err(CompactFault::Memory) => Err(AllocError),
            }
        }
        DrawingKind::Short => match draw(alloc, scratch, plane, shape, directions, drawing_kind)? {
            Ok(drawing) => Ok(drawing.into_points()),
            Err(_) => unreachable!(),
        },
    }
}

/// The drawing that compaction makes of `points`, if its edges are together no longer, all its coordinates are less
/// than `limit`, it is checked to draw the shape, and its regions are the faces; otherwise `None`. Works in the buffers
/// of `scratch`; `AllocError` if memory runs out, and buffers may then be gone.
fn shorter_drawing(
    alloc: Global,
    scratch: &mut DrawScratch,
    plane: &Plane,
    shape: &Shape,
    points: &Points,
    limit: u32,
) -> Result<Option<Drawing>, AllocError>
    requires shape { IsShape plane.now shape.now }
    requires points { HasPoints plane.now points.now }
    ensures points { IfOk result (λ found. IfSome found (HasPoints plane.now)) }
    ensures draws { IfOk result (λ found. IfSome found (Draws plane.now shape.now)) }
    ensures regions { IfOk result (λ found. IfSome found (HasRegions plane.now)) }
    ensures no_longer { IfOk result (λ found. IfSome found (λ drawing.
        edge_length plane.now drawing ≤ edge_length plane.now points.now)) }
    ensures below { IfOk result (λ found. IfSome found (AreBelow limit)) }
{
    let Some(shorter) = compact_by_visibility_in(alloc, &mut scratch.compaction, plane, points)?
    else {
        return Ok(None);
    };
    let is_near = are_below(&shorter, plane.graph().edges(), limit);
    if !is_near || !is_no_longer(plane, &shorter, points) {
        return Ok(None);
    }
    let drawing = match check_in(alloc, &mut scratch.check, plane, shape, shorter) {
        Ok(drawing) => drawing,
        Err((CheckFault::Memory, _)) => return Err(AllocError),
        Err(_) => return Ok(None),
    };
    if !outside_is_outer(plane, &drawing) {
        return Ok(None);
    }
    Ok(Some(drawing))
}
