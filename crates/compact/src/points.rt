//! Compaction by longest paths (Lengauer 1990): points for the vertices and the corners of a plane, and why a
//! dissection gets no coordinates. Buffers are reused.
ghost use Rattle.std.specs.Prelude.{◌≡◌, [], ◌≢◌, ◌<◌, ◌↔◌, ◌++◌, IsTrue, All, length, map, slice_index, OnOk, ◌≤◌, IfOk, IfErr};
ghost use Rattle.compact.specs.declared.points.CompactFault.TheVariants.{Memory};
ghost use Rattle.dissect.specs.Paths.{turn_to};
ghost use Rattle.dissect.specs.Boxes.{dart_map};
ghost use Rattle.compact.specs.Monotone.{point_at, vertices_along, AreLeastPoints, AreCorners, IsCompactFault};
ghost use Rattle.std.specs.List.{range_with_len};
ghost use Rattle.common.specs.Slices.{slices_at, AreStarts};

use crate::axis::{Constraint, least_coordinates};
use crate::longest_paths::neighbours_of;
use common::emptied;
use dissect::Boxes;
use ortho_rep::{Point, Points};
use std::alloc::{AllocError, Global};
use std::mem;
use thiserror::Error;

/// The reason why no coordinates were returned.
#[derive(Clone, Copy, Debug, PartialEq, Eq, Error)]
pub enum CompactFault {
    /// No coordinates that grow along the darts are all at most 65,535.
    #[error("the drawing does not fit coordinates up to 65535")]
    Wide,
    /// Memory ran out, which says nothing of the boxes.
    #[error("out of memory")]
    Memory,
}

impl From<AllocError> for CompactFault {
    ghost from_gives = { λ _ fault. fault ≡ Memory };

    /// Converts an `AllocError` to the fault `Memory`. It never fails, and allocates nothing.
    fn from(_refused: AllocError) -> CompactFault {
        CompactFault::Memory
    }
}

/// The buffers of `compact_in`, reused for the next dissection. Their contents between two calls do not matter.
///
/// The points take their list with them. If it is returned before the next ones are found, these allocate no list
/// unless they have more vertices, edges or corners; if it is not, they allocate one for just what it holds.
#[derive(Drop)]
pub struct Scratch {
    pub(crate) around: Vec<u32>,
    pub(crate) x: Vec<u16>,
    pub(crate) y: Vec<u16>,
    pub(crate) segments: Vec<u32>,
    pub(crate) constraints: Vec<Constraint>,
    pub(crate) points: Vec<Point>,
    pub(crate) corners: Vec<Point>,
    pub(crate) starts: Vec<usize>,
}

impl Scratch {
    /// An empty scratch. It allocates nothing.
    pub fn empty(alloc: Global) -> Scratch
        ensures { result.around.items ≡ [] }
    {
        Scratch {
            around: Vec::new(alloc),
            x: Vec::new(alloc),
            y: Vec::new(alloc),
            segments: Vec::new(alloc),
            constraints: Vec::new(alloc),
            points: Vec::new(alloc),
            corners: Vec::new(alloc),
            starts: Vec::new(alloc),
        }
    }

    /// Consumes `points`, and keeps the buffer of their list in the scratch for the next points, in place of the one
    /// there, which is freed. It allocates nothing.
    pub fn take_back(&mut self, points: Points) {
        self.points = points.into_list();
    }
}

/// The point of a vertex, numbered from 0: its x is the item of `x` at the place `vertex`, its y that of `y`.
pub fn point_of(x: &[u16], y: &[u16], vertex: u32) -> Point
    requires x_in { vertex < length x.now }
    requires y_in { vertex < length y.now }
    ensures { result ≡ point_at (λ v. slice_index x.now v) (λ v. slice_index y.now v) vertex }
{
    Point {
        x: u32::from(x[vertex as usize]),
        y: u32::from(y[vertex as usize]),
    }
}

/// Whether the walk along an edge turns between its dart `before` and the next one, `dart`: whether their directions
/// differ.
fn is_turn(boxes: &Boxes, before: u32, dart: u32) -> bool
    requires before { before < boxes.now.darts }
    requires dart { dart < boxes.now.darts }
    ensures { IsTrue result ↔ (turn_to (dart_map boxes.now) before dart ≢ 0) }
{
    boxes.direction(before) != boxes.direction(dart)
}

/// Appends to `corners` the points at which the walk along the darts of `path` turns, in walking order: the head of
/// each dart from which the next one goes in another direction. `AllocError` if there is no memory; the points appended
/// until then stay.
///
/// `x` and `y` are the coordinates of the vertices of `boxes`. One step for each dart.
pub fn push_corners(
    corners: &mut Vec<Point>,
    boxes: &Boxes,
    x: &[u16],
    y: &[u16],
    path: &[u32],
) -> Result<(), AllocError>
    requires x_in { length x.now ≡ boxes.now.vertices }
    requires y_in { length y.now ≡ boxes.now.vertices }
    requires inside { All (λ dart. dart < boxes.now.darts) path.now }
    ensures { OnOk result (corners.new.items
        ≡ corners.old.items ++ map (point_at (λ v. slice_index x.now v) (λ v. slice_index y.now v)) (vertices_along (dart_map boxes.now) path.now)) }
{
    for k in 1..path.len() {
        let before = path[k - 1];
        if is_turn(boxes, before, path[k]) {
            corners.push(point_of(x, y, boxes.head(before)))?;
        }
    }
    Ok(())
}

/// The points of the plane's vertices, in their order, in the buffer of `lent`, with room for at least `room` points in
/// all. `AllocError` if there is no memory; `lent` is then gone.
fn vertex_points(
    lent: Vec<Point>,
    room: usize,
    boxes: &Boxes,
    x: &[u16],
    y: &[u16],
) -> Result<Vec<Point>, AllocError>
    requires enough { boxes.now.old ≤ room }
    requires x_in { length x.now ≡ boxes.now.vertices }
    requires y_in { length y.now ≡ boxes.now.vertices }
    ensures { IfOk result (λ points. points.items
        ≡ map (point_at (λ v. slice_index x.now v) (λ v. slice_index y.now v)) (range_with_len 0 boxes.now.old)) }
{
    let mut points = emptied(lent, room)?;
    for vertex in 0..u32::from(boxes.old_vertices()) {
        points.push_reserved(point_of(x, y, vertex));
    }
    Ok(points)
}

/// Returns the corner points of all edges in one list, one edge after another, and, second, the places where those of
/// each edge start, and finally where the last ones end. They are in the buffers of `corners` and `starts`.
/// `AllocError` if there is no memory; both are then gone.
fn list_corners(
    mut corners: Vec<Point>,
    starts: Vec<usize>,
    boxes: &Boxes,
    x: &[u16],
    y: &[u16],
) -> Result<(Vec<Point>, Vec<usize>), AllocError>
    requires x_in { length x.now ≡ boxes.now.vertices }
    requires y_in { length y.now ≡ boxes.now.vertices }
    ensures places { IfOk result (λ found. AreStarts found.1.items found.0.items) }
    ensures count { IfOk result (λ found. length (slices_at found.1.items found.0.items) ≡ length boxes.now.edges) }
    ensures corners { IfOk result (λ found. AreCorners boxes.now (λ v. slice_index x.now v) (λ v. slice_index y.now v)
        (length boxes.now.edges) (slices_at found.1.items found.0.items)) }
{
    corners.clear();
    let mut starts = emptied(starts, usize::from(boxes.edges()) + 1)?;
    starts.push(0)?;
    for edge in 0..boxes.edges() {
        push_corners(&mut corners, boxes, x, y, boxes.path(edge))?;
        starts.push_reserved(corners.len());
    }
    Ok((corners, starts))
}

/// The points of the plane's vertices and of its edges' corners: the least coordinates, 0 to 65,535, that grow along
/// the darts of `boxes`. `Wide` if those would exceed 65,535, `Memory` if memory runs out.
///
/// x grows to the east and y to the north. Edges run along the axes between their ends and corners.
///
/// The coordinates are the lengths of longest paths in the two constraint graphs of the dissection (Tamassia 1987).
/// They are found segment by segment, a segment being the vertices that darts across the axis join. In boxes this takes
/// time linear in the darts. If some constraint is not satisfied then, as if the grid is too small, the end of each
/// constraint that is not satisfied is raised, in rounds. The points are in one list.
///
/// # Errors
///
/// `Wide` if no coordinates that grow along the darts are all at most 65,535; `Memory` if memory runs out for the
/// neighbours, the coordinates, the segments, the constraints or the points.
pub fn compact(alloc: Global, boxes: &Boxes) -> Result<Points, CompactFault>
    ensures least { IfOk result (AreLeastPoints boxes.now) }
    ensures fault { IfErr result (IsCompactFault boxes.now) }
{
    let mut scratch = Scratch::empty(alloc);
    compact_in(alloc, &mut scratch, boxes)
}

/// The least points for the plane in `boxes`, exactly as [`compact`], or its fault `Wide` or `Memory`. It overwrites
/// the buffers of `scratch`, and allocates only if they are too small. After a fault some of them are gone.
///
/// The points take their list with them; [`Scratch::take_back`] takes it back.
///
/// # Errors
///
/// `Wide` and `Memory` as `compact`; buffers of the scratch are then gone.
pub fn compact_in(
    alloc: Global,
    scratch: &mut Scratch,
    boxes: &Boxes,
) -> Result<Points, CompactFault>
    ensures least { IfOk result (AreLeastPoints boxes.now) }
    ensures fault { IfErr result (IsCompactFault boxes.now) }
{
    let around = mem::replace(&mut scratch.around, Vec::new(alloc));
    let x = mem::replace(&mut scratch.x, Vec::new(alloc));
    let y = mem::replace(&mut scratch.y, Vec::new(alloc));
    let points = mem::replace(&mut scratch.points, Vec::new(alloc));
    let corners = mem::replace(&mut scratch.corners, Vec::new(alloc));
    let starts = mem::replace(&mut scratch.starts, Vec::new(alloc));
    let around = neighbours_of(boxes, around)?;
    let segments = &mut scratch.segments;
    let constraints = &mut scratch.constraints;
    let (x, y) = least_coordinates(boxes, &around, x, y, segments, constraints)?;
    let (corners, starts) = list_corners(corners, starts, boxes, &x, &y)?;
    let room = usize::from(boxes.old_vertices()) + corners.len() + usize::from(boxes.edges());
    let vertices = vertex_points(points, room, boxes, &x, &y)?;
    let points = Points::concatenated(vertices, &corners, &starts)?;
    scratch.around = around;
    scratch.x = x;
    scratch.y = y;
    scratch.corners = corners;
    scratch.starts = starts;
    Ok(points)
}
