//! Lists that C lends, and how points, a shape, prices and counts are written into them.
ghost use Rattle.std.specs.Prelude.{◌≡◌, IfSome, ◌<◌, ◌≤◌, ◌↔◌, IsTrue, ◌+◌, ◌++◌, ◌^◌, length, map, take, All};
ghost use Rattle.planarbend_c.specs.Found.{AreCounts, IsDrawnIfAsked, corners_drawn, finding_of, HavePointRoom, HaveRoom, HoldsStarts, all_corners, grid_point, turns_counted};
ghost use Rattle.planarbend_c.specs.Held.{contents, HasRoom, Holds, IsSameAfter};
ghost use Rattle.drawing_check.specs.Draws.{IsInGrid};
ghost use Rattle.ortho_rep.specs.declared.turn_strings.TheConstants.{MAX_TURNS};
ghost use Rattle.ortho_rep.specs.Representation.{HasDarts};
ghost use Rattle.ortho_rep.specs.Prices.{HasPrices};

use crate::request::Layout;
use faces::Plane;
use ortho_rep::{Point, Points, Prices, Shape, Turn, count_lefts};

/// The numbers of vertices, edges, faces, bends and corners, and the number of the outer face.
#[repr(C)]
#[derive(Clone, Copy)]
pub struct Counts {
    pub vertices: u32,
    pub edges: u32,
    pub faces: u32,
    /// The fewest for this embedding with this outer face.
    pub bends: u32,
    pub outer_face: u32,
    /// The points at which edges of the drawing turn; 0 without a drawing.
    pub corners: u32,
}

/// The counts of a layout, with 0 corners if it has no drawing; `None` if the number of corners takes more than 32
/// bits.
pub(crate) fn counts_of(layout: &Layout) -> Option<Counts>
    requires { IsDrawnIfAsked layout.now.laid.plane layout.now.laid.shape layout.now.drawing }
    ensures { IfSome result (AreCounts (finding_of layout.now)) }
{
    let corners = corners_of(layout)?;
    let plane = &layout.laid.plane;
    let graph = plane.graph();
    Some(Counts {
        vertices: u32::from(graph.vertices()),
        edges: u32::from(graph.edges()),
        faces: u32::from(plane.face_count()),
        bends: layout.laid.shape.bends(),
        outer_face: u32::from(plane.outer()),
        corners,
    })
}

/// The number of corners in the drawing of a layout, or 0 without a drawing; `None` if it takes more than 32 bits.
fn corners_of(layout: &Layout) -> Option<u32>
    requires { IsDrawnIfAsked layout.now.laid.plane layout.now.laid.shape layout.now.drawing }
    ensures { IfSome result (λ count. count ≡ corners_drawn layout.now.drawing) }
{
    match &layout.drawing {
        Some(points) => corner_count(layout.laid.plane.graph().edges(), points),
        None => Some(0),
    }
}

/// A point of the grid: x grows to the east, y to the north.
#[repr(C)]
#[derive(Clone, Copy)]
pub struct GridPoint {
    pub x: u16,
    pub y: u16,
}

/// The numbers of left and right quarter turns of a dart. One of the two is 0.
#[repr(C)]
#[derive(Clone, Copy)]
pub struct DartTurns {
    pub left: u32,
    pub right: u32,
}

/// The output lists of a call.
///
/// One of length 0 is left out, and the entries of a longer one after those written are unchanged.
#[repr(C)]
pub struct Lists<'a> {
    /// Of each dart its angle, in right angles.
    pub angles: &'a mut [u8],
    /// Of each dart its turns.
    pub turns: &'a mut [DartTurns],
    pub vertex_prices: &'a mut [i32],
    pub face_prices: &'a mut [i32],
    /// Of each vertex its point.
    pub points: &'a mut [GridPoint],
    /// Of each edge how many corners the edges before it have, and at last how many all have.
    pub corner_starts: &'a mut [u32],
    /// The corners of all edges, one edge after another, each along its lesser dart.
    pub corners: &'a mut [GridPoint],
}

impl Lists<'_> {
    /// Whether each list has room for what `counts` counts, or is left out (length 0); those of points, corner starts
    /// and corners matter only if `drawn` is true.
    pub(crate) fn have_room(&self, counts: &Counts, drawn: bool) -> bool
        ensures { IsTrue result ↔ HaveRoom drawn counts.now (contents self.now) }
    {
        let darts = 2 * counts.edges as usize;
        has_room(self.angles.len(), darts)
            && has_room(self.turns.len(), darts)
            && has_room(self.vertex_prices.len(), counts.vertices as usize)
            && has_room(self.face_prices.len(), counts.faces as usize)
            && (!drawn || self.have_point_room(counts))
    }

    /// Whether each list of points, corner starts and corners has room for what `counts` counts, or is left out (length
    /// 0).
    fn have_point_room(&self, counts: &Counts) -> bool
        ensures { IsTrue result ↔ HavePointRoom counts.now (contents self.now) }
    {
        has_room(self.points.len(), counts.vertices as usize)
            && has_room(self.corner_starts.len(), counts.edges as usize + 1)
            && has_room(self.corners.len(), counts.corners as usize)
    }
}

/// Whether a list of length `length` has room for `count` items, or is left out (length 0).
fn has_room(length: usize, count: usize) -> bool
    ensures { IsTrue result ↔ (0 < length → count ≤ length) }
{
    length == 0 || count <= length
}

/// Writes `points` to `out`, in order from its beginning; nothing if `out` is empty. Otherwise `out` must have room for
/// all; entries after them stay unchanged.
pub(crate) fn put_points(out: &mut [GridPoint], points: &[Point])
    requires grid { All IsInGrid points.now }
    requires room { HasRoom out.old (length points.now) }
    ensures held { Holds out.new (map grid_point points.now) }
    ensures rest { IsSameAfter (length points.now) out.old out.new }
{
    if out.is_empty() {
        return;
    }
    for (place, point) in points.iter().enumerate() {
        out[place] = grid_point(*point);
    }
}

/// The same point with coordinates of 16 bits; it must be in the grid.
fn grid_point(point: Point) -> GridPoint
    requires { IsInGrid point }
    ensures { result ≡ grid_point point }
{
    GridPoint {
        x: point.x as u16,
        y: point.y as u16,
    }
}

/// The number of corners of all `edges` edges together; `None` if it takes more than 32 bits.
pub(crate) fn corner_count(edges: u16, points: &Points) -> Option<u32>
    requires { edges ≡ length points.now.corners }
    ensures { IfSome result (λ count. count ≡ length (all_corners points.now.corners)) }
{
    let mut count = 0usize;
    for edge in 0..edges {
        count = count.checked_add(points.corners(edge).len())?;
    }
    u32::try_from(count).ok()
}

/// Writes `edges` + 1 entries to `out`: for each edge, how many corners the edges before it have, and at last how many
/// all have; nothing if `out` is empty. Otherwise `out` must have room for all; entries after them stay unchanged.
pub(crate) fn put_corner_starts(out: &mut [u32], edges: u16, points: &Points)
    requires edges { edges ≡ length points.now.corners }
    requires few { length (all_corners points.now.corners) < 2 ^ 32 }
    requires room { HasRoom out.old (edges + 1) }
    ensures held { HoldsStarts out.new points.now.corners }
    ensures rest { IsSameAfter (edges + 1) out.old out.new }
{
    if out.is_empty() {
        return;
    }
    let mut start = 0;
    out[0] = 0;
    for edge in 0..edges {
        start += points.corners(edge).len() as u32;
        out[usize::from(edge) + 1] = start;
    }
}

/// Writes the corners of all edges to `out`, one edge after another; nothing if `out` is empty. Otherwise `out` must
/// have room for all; entries after them stay unchanged.
pub(crate) fn put_corners(out: &mut [GridPoint], edges: u16, points: &Points)
    requires edges { edges ≡ length points.now.corners }
    requires grid { All (All IsInGrid) points.now.corners }
    requires room { HasRoom out.old (length (all_corners points.now.corners)) }
    ensures held { Holds out.new (all_corners points.now.corners) }
    ensures rest { IsSameAfter (length (all_corners points.now.corners)) out.old out.new }
{
    if out.is_empty() {
        return;
    }
    let mut start = 0;
    for edge in 0..edges {
        let corners = points.corners(edge);
        put_corners_at(out, start, corners);
        start += corners.len();
    }
}

/// Writes the corners of one edge to `out`, from the index `start` on; `out` must have room for them, and its other
/// entries stay unchanged.
fn put_corners_at(out: &mut [GridPoint], start: usize, corners: &[Point])
    requires grid { All IsInGrid corners.now }
    requires room { start + length corners.now ≤ length out.old }
    ensures put { take (start + length corners.now) out.new ≡ take start out.old ++ map grid_point corners.now }
    ensures rest { IsSameAfter (start + length corners.now) out.old out.new }
{
    for (place, corner) in corners.iter().enumerate() {
        out[start + place] = grid_point(*corner);
    }
}

/// Writes the angle of each dart, in right angles, to `out`, in the order of darts; nothing if `out` is empty.
/// Otherwise `out` must have room for all; entries after them stay unchanged.
pub(crate) fn put_angles(out: &mut [u8], plane: &Plane, shape: &Shape)
    requires darts { HasDarts plane.now shape.now }
    requires room { HasRoom out.old (length shape.now.angles) }
    ensures held { Holds out.new shape.now.angles }
    ensures rest { IsSameAfter (length shape.now.angles) out.old out.new }
{
    if out.is_empty() {
        return;
    }
    for dart in 0..plane.graph().darts() {
        out[usize::from(dart)] = shape.angle(dart);
    }
}

/// Writes to `out` how many left and right turns each dart has, in the order of darts; nothing if `out` is empty.
/// Otherwise `out` must have room for all; entries after them stay unchanged.
pub(crate) fn put_turns(out: &mut [DartTurns], plane: &Plane, shape: &Shape)
    requires darts { HasDarts plane.now shape.now }
    requires room { HasRoom out.old (length shape.now.strings) }
    ensures held { Holds out.new (map turns_counted shape.now.strings) }
    ensures rest { IsSameAfter (length shape.now.strings) out.old out.new }
{
    if out.is_empty() {
        return;
    }
    for dart in 0..plane.graph().darts() {
        out[usize::from(dart)] = turns_counted(shape.turns(dart));
    }
}

/// The number of left turns and that of right turns in `turns`.
fn turns_counted(turns: &[Turn]) -> DartTurns
    requires { length turns.now ≤ MAX_TURNS }
    ensures { result ≡ turns_counted turns.now }
{
    let left = count_lefts(turns);
    DartTurns {
        left: left as u32,
        right: (turns.len() - left) as u32,
    }
}

/// Writes the price of each vertex to `out`, that of vertex v at place v - 1; nothing if `out` is empty. Otherwise
/// `out` must have room for all; entries after them stay unchanged.
pub(crate) fn put_vertex_prices(out: &mut [i32], plane: &Plane, prices: &Prices)
    requires prices { HasPrices plane.now prices.now }
    requires room { HasRoom out.old (length prices.now.vertices) }
    ensures held { Holds out.new prices.now.vertices }
    ensures rest { IsSameAfter (length prices.now.vertices) out.old out.new }
{
    if out.is_empty() {
        return;
    }
    for place in 0..plane.graph().vertices() {
        out[usize::from(place)] = prices.vertex(place + 1);
    }
}

/// Writes the price of each face to `out`, in the order of faces; nothing if `out` is empty. Otherwise `out` must have
/// room for all; entries after them stay unchanged.
pub(crate) fn put_face_prices(out: &mut [i32], plane: &Plane, prices: &Prices)
    requires prices { HasPrices plane.now prices.now }
    requires room { HasRoom out.old (length prices.now.faces) }
    ensures held { Holds out.new prices.now.faces }
    ensures rest { IsSameAfter (length prices.now.faces) out.old out.new }
{
    if out.is_empty() {
        return;
    }
    for face in 0..plane.face_count() {
        out[usize::from(face)] = prices.face(face);
    }
}
