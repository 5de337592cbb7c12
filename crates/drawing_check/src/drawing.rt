//! The check of a drawing, by a sweep over rectangles (Shamos and Hoey 1976), what it makes, and why points draw no
//! shape. Buffers for checks are reused.
ghost use Rattle.std.specs.Prelude.{◌≡◌, [], ◌≤◌, length, IfOk, IfErr, IfNone, IfSome, Some};
ghost use Rattle.faces.specs.Planes.{darts};
ghost use Rattle.ortho_rep.specs.Representation.{HasDarts, IsShape};
ghost use Rattle.drawing_check.specs.Draws.{Draws, HasPoints};
ghost use Rattle.drawing_check.specs.Faults.{IsFirstFault, KeepsFirstThree, IsTaken, IsRefused};

use crate::edges::scan_edges;
use crate::route::turn_as_said;
use embedding::MAX_DARTS;
use faces::Plane;
use geometry::{Direction, Rectangle, all_apart_in};
use ortho_rep::{Points, Shape};
use std::alloc::Global;
use std::marker::Model;
use thiserror::Error;

/// The first condition of a drawing that fails; the variants are in the order in which they are checked.
#[derive(Clone, Copy, Debug, PartialEq, Eq, Error)]
pub enum CheckFault {
    /// Some coordinate is above 65,535.
    #[error("a coordinate is above 65535")]
    OutOfGrid,
    /// Two consecutive points of a path are equal, or differ in both coordinates.
    #[error("a segment of an edge has length 0 or is not parallel to an axis")]
    NotAxis,
    /// An edge has more or fewer corners than turns, or a corner or an angle at a vertex is not the shape's.
    #[error("a corner or an angle differs from the representation")]
    WrongTurn,
    /// Two paths meet, or a path meets itself or a vertex that is not its end, or two vertices are at one point.
    #[error("edges or vertices overlap")]
    Meet,
    /// Memory ran out. All conditions hold except perhaps the last one, `Meet`.
    #[error("out of memory")]
    Memory,
}

/// The buffers of a check, reused for the next drawing. Their contents between two calls do not matter.
#[derive(Drop)]
pub struct Scratch {
    pub(crate) rectangles: Vec<Rectangle>,
    pub(crate) table: Vec<u64>,
}

impl Scratch {
    /// An empty scratch. It allocates nothing.
    pub fn empty(alloc: Global) -> Scratch
        ensures { result.table.items ≡ [] }
    {
        Scratch {
            rectangles: Vec::new(alloc),
            table: Vec::new(alloc),
        }
    }
}

/// The maximum number of darts that are few: a list of this many directions is quickly made.
const FEW_DARTS: usize = 128;

/// Points that `check` has found to draw a shape of a plane. In contracts it is the points.
#[derive(Debug, Drop)]
pub struct Drawing {
    points: Points,
}

impl Model for Drawing {
    ghost use Rattle.ortho_rep.specs.Points.{PointsModel};

    ghost Value = { PointsModel };

    ghost view = { λ a. a.points };
}

impl Drawing {
    /// The points of the drawing, of vertices and of corners, unchanged. It allocates nothing.
    pub fn points(&self) -> &Points
        ensures { result.now ≡ self.now }
    {
        &self.points
    }

    /// Consumes the drawing and returns its points. It allocates nothing.
    pub fn into_points(self) -> Points
        ensures { result ≡ self }
    {
        self.points
    }
}

/// The points as a drawing, if they draw the shape; otherwise the first condition that fails, in the order of
/// `CheckFault`, or `Memory` if memory runs out while all but the last hold, and, second, the points unchanged.
///
/// The conditions are, in order: every coordinate is at most 65,535; consecutive points of an edge's path differ in
/// exactly one coordinate; each edge has as many corners as turns, each corner turns as its string says, and at the
/// head of each dart the direction changes as its angle says; no grid point is used twice, by vertices and between the
/// ends of paths. The first three are checked even if memory runs out: `Memory` is returned only if they hold.
///
/// The points are compared as rectangles, one for each vertex and at most one for each part. For s of them it takes O(s
/// log s) time, and 16 bytes of memory each, sorted in place unless they lie in few rows and columns; besides, a table
/// of at most 64 bytes each, or a dictionary of the active ones of a sweep.
///
/// # Errors
///
/// The first condition that fails, or `Memory` if memory runs out for the rectangles, the table or the dictionary; with
/// it the points.
pub fn check(
    alloc: Global,
    plane: &Plane,
    shape: &Shape,
    points: Points,
) -> Result<Drawing, (CheckFault, Points)>
    requires shape { IsShape plane.now shape.now }
    requires points { HasPoints plane.now points }
    ensures taken { IfOk result (IsTaken plane.now shape.now points) }
    ensures refused { IfErr result (λ refused. IsRefused plane.now shape.now points refused.0 refused.1) }
{
    let mut scratch = Scratch::empty(alloc);
    check_in(alloc, &mut scratch, plane, shape, points)
}

/// The points as a drawing, or the first condition that fails, or `Memory`, with the points unchanged, exactly as
/// [`check`]. It overwrites the buffers of `scratch`, and allocates only if they are too small, and for the dictionary.
///
/// # Errors
///
/// As `check`.
pub fn check_in(
    alloc: Global,
    scratch: &mut Scratch,
    plane: &Plane,
    shape: &Shape,
    points: Points,
) -> Result<Drawing, (CheckFault, Points)>
    requires shape { IsShape plane.now shape.now }
    requires points { HasPoints plane.now points }
    ensures taken { IfOk result (IsTaken plane.now shape.now points) }
    ensures refused { IfErr result (λ refused. IsRefused plane.now shape.now points refused.0 refused.1) }
{
    match find_fault(alloc, scratch, plane, shape, &points) {
        None => Ok(Drawing { points }),
        Some(fault) => Err((fault, points)),
    }
}

/// The first condition that fails, in the order of `CheckFault`, or `Memory` if memory runs out while all but the last
/// hold; `None` if the points draw the shape. It overwrites the buffers of `scratch`. The directions of darts are in a
/// short list if that is enough.
fn find_fault(
    alloc: Global,
    scratch: &mut Scratch,
    plane: &Plane,
    shape: &Shape,
    points: &Points,
) -> Option<CheckFault>
    requires lengths { HasDarts plane.now shape.now }
    requires points { HasPoints plane.now points.now }
    ensures draws { IfNone result (Draws plane.now shape.now points.now) }
    ensures fault { IfSome result (IsFirstFault plane.now shape.now points.now) }
    ensures memory { result ≡ Some CheckFault.Memory
        → KeepsFirstThree plane.now shape.now points.now }
{
    if usize::from(plane.graph().darts()) > FEW_DARTS {
        return fault_of_many(alloc, scratch, plane, shape, points);
    }
    let mut directions = [Direction::East; FEW_DARTS];
    first_fault(alloc, scratch, plane, shape, points, &mut directions)
}

/// As `find_fault`, but with a list of directions long enough for any plane: the first condition that fails, or
/// `Memory`, and `None` if the points draw the shape. It overwrites the buffers of `scratch`. It is a function of its
/// own, since a function pays at entry for the size of its lists.
#[inline(never)]
fn fault_of_many(
    alloc: Global,
    scratch: &mut Scratch,
    plane: &Plane,
    shape: &Shape,
    points: &Points,
) -> Option<CheckFault>
    requires lengths { HasDarts plane.now shape.now }
    requires points { HasPoints plane.now points.now }
    ensures draws { IfNone result (Draws plane.now shape.now points.now) }
    ensures fault { IfSome result (IsFirstFault plane.now shape.now points.now) }
    ensures memory { result ≡ Some CheckFault.Memory
        → KeepsFirstThree plane.now shape.now points.now }
{
    // Only the proof needs this: `graph` says how many darts there are at most.
    let _graph = plane.graph();
    let mut directions = [Direction::East; MAX_DARTS];
    first_fault(alloc, scratch, plane, shape, points, &mut directions)
}

/// The first condition that fails, or `Memory` if memory runs out while all but the last hold; `None` if the points
/// draw the shape. It overwrites the buffers of `scratch`, and `directions` with the direction in which each dart
/// leaves its tail.
fn first_fault(
    alloc: Global,
    scratch: &mut Scratch,
    plane: &Plane,
    shape: &Shape,
    points: &Points,
    directions: &mut [Direction],
) -> Option<CheckFault>
    requires lengths { HasDarts plane.now shape.now }
    requires points { HasPoints plane.now points.now }
    requires room { darts plane.now ≤ length directions.old }
    ensures draws { IfNone result (Draws plane.now shape.now points.now) }
    ensures fault { IfSome result (IsFirstFault plane.now shape.now points.now) }
    ensures memory { result ≡ Some CheckFault.Memory
        → KeepsFirstThree plane.now shape.now points.now }
{
    // Only the proof needs this: `graph` says where darts end.
    let _graph = plane.graph();
    let seen = scan_edges(plane, shape, points, &mut scratch.rectangles, directions);
    if !seen.in_grid {
        return Some(CheckFault::OutOfGrid);
    }
    if !seen.on_axes {
        return Some(CheckFault::NotAxis);
    }
    if !turn_as_said(plane, shape, &seen, directions) {
        return Some(CheckFault::WrongTurn);
    }
    if !seen.listed {
        return Some(CheckFault::Memory);
    }
    match all_apart_in(alloc, &mut scratch.rectangles, &mut scratch.table) {
        Ok(true) => None,
        Ok(false) => Some(CheckFault::Meet),
        Err(_) => Some(CheckFault::Memory),
    }
}
