//! The segments of a drawing, listed edge by edge: the vertices that edges without corners join, and where segments
//! begin and end.
ghost use Rattle.std.specs.Prelude.{◌≡◌, ◌<◌, ◌+◌, [], vec_len, OnOk, ℕ, List, length, IfOk, IfSome, ◌≤◌, All};
ghost use Rattle.visibility.specs.Axes.{AreFew, AreListed, HaveEnds, KeepEnds};
ghost use Rattle.drawing_check.specs.Draws.{HasPoints};
ghost use Rattle.visibility.specs.Crossing.{AreCrossed};

use crate::compaction::Lists;
use crate::segments::{Segment, SegmentFault, Segments, segment_of};
use faces::Plane;
use ortho_rep::{Point, Points};
use std::alloc::{AllocError, Global};

/// The vertices to which straight edges along one axis lead from a vertex; 0 if there is none.
#[derive(Clone, Copy, Debug)]
struct LineNeighbours {
    ahead: u16,
    back: u16,
}

/// No straight edges lead from a vertex.
const ALONE: LineNeighbours = LineNeighbours { ahead: 0, back: 0 };

/// The straight edges along one axis.
#[derive(Drop)]
pub(crate) struct StraightEdges {
    /// For each vertex, by its number, those beside it.
    beside: Vec<LineNeighbours>,
}

impl StraightEdges {
    /// No vertices and no edges; nothing is allocated.
    pub(crate) fn empty(alloc: Global) -> StraightEdges
        ensures { result.beside.items ≡ [] }
    {
        StraightEdges {
            beside: Vec::new(alloc),
        }
    }

    /// Removes all edges, and makes an entry for each of `vertices` vertices, numbered from 1. `AllocError` if there is
    /// no memory for the entries; the old edges are then gone, too.
    pub(crate) fn begin(&mut self, vertices: u16) -> Result<(), AllocError>
        ensures { OnOk result (vec_len self.new.beside ≡ vertices + 1) }
    {
        self.beside.clear();
        self.beside.resize(usize::from(vertices) + 1, ALONE)
    }

    /// Adds the straight edge between the vertex `tail`, at the coordinate `from`, and the vertex `head`, at `to`. It
    /// leads ahead from the vertex with the lesser coordinate, and replaces the edges that led ahead from there and
    /// back from the other.
    pub(crate) fn connect(&mut self, tail: u16, from: u32, head: u16, to: u32)
        requires tail { tail < vec_len self.old.beside }
        requires head { head < vec_len self.old.beside }
        ensures count { vec_len self.new.beside ≡ vec_len self.old.beside }
    {
        if from < to {
            self.lead(tail, head);
        } else {
            self.lead(head, tail);
        }
    }

    /// Adds the straight edge that leads ahead from the lower vertex `low` to the higher one `high`; it replaces the
    /// edges that led ahead from `low` and back from `high`.
    fn lead(&mut self, low: u16, high: u16)
        requires low { low < vec_len self.old.beside }
        requires high { high < vec_len self.old.beside }
        ensures count { vec_len self.new.beside ≡ vec_len self.old.beside }
    {
        self.beside[usize::from(low)].ahead = high;
        self.beside[usize::from(high)].back = low;
    }

    /// Whether a straight edge leads to `vertex` from a vertex with a lesser coordinate.
    pub(crate) fn has_lower_neighbour(&self, vertex: u16) -> bool
        requires { vertex < vec_len self.now.beside }
    {
        self.beside[usize::from(vertex)].back != 0
    }

    /// The vertex to which the straight edge ahead of `vertex` leads; 0 if there is none.
    pub(crate) fn ahead(&self, vertex: u16) -> u16
        requires { vertex < vec_len self.now.beside }
    {
        self.beside[usize::from(vertex)].ahead
    }
}

/// Sets for each segment of `along` the segments of `other` on which it begins and ends, counts it at these in `other`,
/// and lists `along` by coordinates. `TooLarge` if an end is on no segment, or 65,535 begin or end on one already;
/// `Memory` if there is no memory for the lists. Both leave `along` and `other` partly changed.
pub(crate) fn find_ends(along: &mut Segments, other: &mut Segments) -> Result<(), SegmentFault>
    requires few { AreFew along.old.segments.items }
    ensures listed { OnOk result (AreListed along.new.segments.items along.new.firsts.items) }
    ensures ends { OnOk result (HaveEnds along.new.segments.items (vec_len other.new.segments)) }
    ensures count { vec_len along.new.segments ≡ vec_len along.old.segments }
    ensures other_few { AreFew other.old.segments.items → AreFew other.new.segments.items }
    ensures other_listed { AreListed other.old.segments.items other.old.firsts.items → AreListed other.new.segments.items other.new.firsts.items }
    ensures other_ends { KeepEnds other.old.segments.items other.new.segments.items }
    ensures other_count { vec_len other.new.segments ≡ vec_len other.old.segments }
{
    let segments = along.segments.as_mut_slice();
    set_ends(segments, other.segments.as_mut_slice(), other.of.as_slice())?;
    Ok(along.list_anew()?)
}

/// Sets for each of `segments` the indices in `others` of the segments on which it begins and ends, as `of` gives them
/// for its end places, and counts it at these in `others`. `TooLarge` if a place is on no segment, or 65,535 begin or
/// end on one already: `segments` and `others` are then changed in part.
fn set_ends(
    segments: &mut [Segment],
    others: &mut [Segment],
    of: &[u16],
) -> Result<(), SegmentFault>
    requires few { AreFew segments.old }
    ensures few { AreFew segments.new }
    ensures ends { OnOk result (HaveEnds segments.new (length others.new)) }
    ensures other_few { AreFew others.old → AreFew others.new }
    ensures other_listed { (firsts : List ℕ) → AreListed others.old firsts → AreListed others.new firsts }
    ensures other_ends { KeepEnds others.old others.new }
{
    let count = others.len();
    for place in 0..segments.len() {
        let segment = &mut segments[place];
        let ends = ends_of(segment, of, count);
        let (first, last) = ends.ok_or(SegmentFault::TooLarge)?;
        segment.begins_on = first;
        segment.ends_on = last;
        count_ends(others, first, last)?;
    }
    Ok(())
}

/// The indices of the two segments on which `segment` begins and ends, in this order, as `of` gives them for its end
/// places; `None` if a place is not in `of`, or an index is not below `count`.
fn ends_of(segment: &Segment, of: &[u16], count: usize) -> Option<(u16, u16)>
    ensures { IfSome result (λ ends. (ends.0 < count) × (ends.1 < count)) }
{
    let first = segment_of(of, usize::from(segment.begins_on), count)?;
    let last = segment_of(of, usize::from(segment.ends_on), count)?;
    Some((first, last))
}

/// Adds 1 to the number of segments that begin on the one with the index `first`, and to that of those that end on
/// `last`, in `segments`. `TooLarge` if one of the two is 65,535 already; nothing changes then.
fn count_ends(segments: &mut [Segment], first: u16, last: u16) -> Result<(), SegmentFault>
    requires first { first < length segments.old }
    requires last { last < length segments.old }
    ensures few { AreFew segments.old → AreFew segments.new }
    ensures listed { (firsts : List ℕ) → AreListed segments.old firsts → AreListed segments.new firsts }
    ensures ends { KeepEnds segments.old segments.new }
{
    // No invariant says how many have been counted before.
    let begun = segments[usize::from(first)].begun.checked_add(1);
    let ended = segments[usize::from(last)].ended.checked_add(1);
    let (Some(begun), Some(ended)) = (begun, ended) else {
        return Err(SegmentFault::TooLarge);
    };
    segments[usize::from(first)].begun = begun;
    segments[usize::from(last)].ended = ended;
    Ok(())
}

/// An edge that has corners, by its number and the places of its ends.
#[derive(Clone, Copy, Debug)]
pub(crate) struct Bent {
    edge: u16,
    tail: u16,
    head: u16,
    /// The point of its tail.
    from: Point,
    /// The point of its head.
    to: Point,
    /// Whether it leaves its tail along the segment that has one x.
    vertical: bool,
}

/// The maximum number of vertices and corners.
const MAX_PLACES: usize = 65_535;

/// Fills `lists` anew with the segments of a drawing along both axes, their ends, and its bent edges; the other buffers
/// in it stay. `TooLarge` if the lists cannot hold them, or a vertex or corner is on no segment; `Memory` if there is
/// no memory for them. Both leave these lists incomplete.
pub(crate) fn list_segments(
    lists: &mut Lists,
    plane: &Plane,
    points: &Points,
) -> Result<(), SegmentFault>
    requires points { HasPoints plane.now points.now }
    ensures { OnOk result (AreCrossed lists.new.x lists.new.y) }
{
    let vertices = plane.graph().vertices();
    lists.x.begin(vertices)?;
    lists.y.begin(vertices)?;
    lists.bent.clear();
    list_edges(lists, plane, points)?;
    let x = &mut lists.x;
    let y = &mut lists.y;
    list_straight(vertices, points, x, y)?;
    list_bent(lists.bent.as_slice(), points, x, y)?;
    find_ends(x, y)?;
    find_ends(y, x)
}

/// Adds each edge without corners to the straight edges of its axis in `lists`, and appends each other one, in order,
/// to `lists.bent`. `AllocError` if there is no memory for `lists.bent`; edges added earlier stay.
fn list_edges(lists: &mut Lists, plane: &Plane, points: &Points) -> Result<(), AllocError>
    requires points { HasPoints plane.now points.now }
    requires x_edges { length points.now.vertices < vec_len lists.old.x.edges.beside }
    requires y_edges { length points.now.vertices < vec_len lists.old.y.edges.beside }
    requires bent { All (λ b. b.edge < length points.now.corners) lists.old.bent.items }
    ensures x { lists.new.x.segments ≡ lists.old.x.segments }
    ensures y { lists.new.y.segments ≡ lists.old.y.segments }
    ensures x_of { lists.new.x.of ≡ lists.old.x.of }
    ensures y_of { lists.new.y.of ≡ lists.old.y.of }
    ensures x_edges { vec_len lists.new.x.edges.beside ≡ vec_len lists.old.x.edges.beside }
    ensures y_edges { vec_len lists.new.y.edges.beside ≡ vec_len lists.old.y.edges.beside }
    ensures bent { OnOk result (All (λ b. b.edge < length points.now.corners) lists.new.bent.items) }
{
    let graph = plane.graph();
    let mut edge = 0;
    for dart in 0..graph.darts() {
        let reverse = graph.reverse(dart);
        if dart < reverse {
            list_edge(lists, points, edge, graph.head(reverse), graph.head(dart))?;
            edge += 1;
        }
    }
    Ok(())
}

/// Adds the edge `edge` between the vertices `tail` and `head` to the straight edges of its axis in `lists` if it has
/// no corner, and otherwise appends it to `lists.bent`. `AllocError` if there is no memory for that, and nothing
/// changes.
fn list_edge(
    lists: &mut Lists,
    points: &Points,
    edge: u16,
    tail: u16,
    head: u16,
) -> Result<(), AllocError>
    requires edge { edge < length points.now.corners }
    requires starts { 0 < tail }
    requires tail { tail ≤ length points.now.vertices }
    requires ends { 0 < head }
    requires head { head ≤ length points.now.vertices }
    requires x_edges { length points.now.vertices < vec_len lists.old.x.edges.beside }
    requires y_edges { length points.now.vertices < vec_len lists.old.y.edges.beside }
    requires bent { All (λ b. b.edge < length points.now.corners) lists.old.bent.items }
    ensures x { lists.new.x.segments ≡ lists.old.x.segments }
    ensures y { lists.new.y.segments ≡ lists.old.y.segments }
    ensures x_of { lists.new.x.of ≡ lists.old.x.of }
    ensures y_of { lists.new.y.of ≡ lists.old.y.of }
    ensures x_edges { vec_len lists.new.x.edges.beside ≡ vec_len lists.old.x.edges.beside }
    ensures y_edges { vec_len lists.new.y.edges.beside ≡ vec_len lists.old.y.edges.beside }
    ensures bent { OnOk result (All (λ b. b.edge < length points.now.corners) lists.new.bent.items) }
{
    let from = points.vertex(tail);
    let to = points.vertex(head);
    if let Some(first) = points.corners(edge).first() {
        lists.bent.push(Bent {
            edge,
            tail: tail - 1,
            head: head - 1,
            from,
            to,
            vertical: first.x == from.x,
        })?;
    } else if from.x == to.x {
        lists.x.edges.connect(tail, from.y, head, to.y);
    } else {
        lists.y.edges.connect(tail, from.x, head, to.x);
    }
    Ok(())
}

/// Adds the segments of the first `count` vertices and the straight edges between them to `x` and `y`. `TooLarge` if
/// there are too many segments, a coordinate is above `MAX_COORDINATE`, or an edge leads to a vertex with no place;
/// `Memory` if there is no memory for them. Segments added earlier stay.
fn list_straight(
    count: u16,
    points: &Points,
    x: &mut Segments,
    y: &mut Segments,
) -> Result<(), SegmentFault>
    requires count { count ≤ length points.now.vertices }
    requires x_of { vec_len x.old.of ≡ count }
    requires y_of { vec_len y.old.of ≡ count }
    requires x_edges { count < vec_len x.old.edges.beside }
    requires y_edges { count < vec_len y.old.edges.beside }
    requires x { AreFew x.old.segments.items }
    requires y { AreFew y.old.segments.items }
    ensures x { AreFew x.new.segments.items }
    ensures y { AreFew y.new.segments.items }
{
    for place in 0..count {
        let point = points.vertex(place + 1);
        x.add_straight(place + 1, point.x)?;
        y.add_straight(place + 1, point.y)?;
    }
    Ok(())
}

/// Adds the corners of the edges `bent`, and the segments between them, to `x` and `y`. `TooLarge` if there are too
/// many, a coordinate is above `MAX_COORDINATE`, or an end of an edge is on no segment; `Memory` if there is no memory
/// for them. What was added earlier stays.
fn list_bent(
    bent: &[Bent],
    points: &Points,
    x: &mut Segments,
    y: &mut Segments,
) -> Result<(), SegmentFault>
    requires edges { All (λ b. b.edge < length points.now.corners) bent.now }
    requires x { AreFew x.old.segments.items }
    requires y { AreFew y.old.segments.items }
    ensures x { AreFew x.new.segments.items }
    ensures y { AreFew y.new.segments.items }
{
    for edge in bent {
        list_corners(points.corners(edge.edge), *edge, x, y)?;
    }
    Ok(())
}

/// Adds the corners of the edge `bent` to the segments of `x` and `y` on which they lie, which begin or end there, and
/// a new segment between each two corners. `TooLarge` if there are too many, a coordinate is above `MAX_COORDINATE`, or
/// an end of the edge is on no segment; `Memory` if there is no memory. Part of the edge may then be added.
fn list_corners(
    corners: &[Point],
    bent: Bent,
    x: &mut Segments,
    y: &mut Segments,
) -> Result<(), SegmentFault>
    requires x { AreFew x.old.segments.items }
    requires y { AreFew y.old.segments.items }
    ensures x { AreFew x.new.segments.items }
    ensures y { AreFew y.new.segments.items }
{
    let tail = if bent.vertical {
        x.segment_at(bent.tail)
    } else {
        y.segment_at(bent.tail)
    };
    let mut segment = tail.ok_or(SegmentFault::TooLarge)?;
    let mut vertical = bent.vertical;
    let mut from = bent.from;
    let mut place = 0;
    for index in 0..corners.len() {
        let corner = corners[index];
        if x.of.len() >= MAX_PLACES {
            return Err(SegmentFault::TooLarge);
        }
        place = x.of.len() as u16;
        let end = (index + 1 == corners.len()).then_some(bent.head);
        segment = if vertical {
            add_corner(x, segment, y, (from.y, corner.y), place, end)?
        } else {
            add_corner(y, segment, x, (from.x, corner.x), place, end)?
        };
        vertical = !vertical;
        from = corner;
    }
    if vertical {
        x.extend(segment, place, bent.to.y < from.y)
    } else {
        y.extend(segment, place, bent.to.x < from.x)
    }
}

/// Adds the corner at `place`, to which an edge runs along `segment` of `from_segments` between the coordinates `run`.
/// Returns the segment of `to_segments` along which it leaves: that at the place `end`, or a new one if `None`.
/// `TooLarge` if there are too many or `end` is on none; `Memory` if there is no memory. The segments may have changed.
fn add_corner(
    from_segments: &mut Segments,
    segment: u16,
    to_segments: &mut Segments,
    run: (u32, u32),
    place: u16,
    end: Option<u16>,
) -> Result<u16, SegmentFault>
    requires from { AreFew from_segments.old.segments.items }
    requires to { AreFew to_segments.old.segments.items }
    requires segment { segment < vec_len from_segments.old.segments }
    ensures from { AreFew from_segments.new.segments.items }
    ensures to { AreFew to_segments.new.segments.items }
    ensures next { IfOk result (λ next. next < vec_len to_segments.new.segments) }
{
    let (from, to) = run;
    from_segments.extend(segment, place, from < to)?;
    let next = match end {
        Some(vertex) => to_segments
            .segment_at(vertex)
            .ok_or(SegmentFault::TooLarge)?,
        None => to_segments.add(to, place, place, 0)?,
    };
    from_segments.of.push(segment)?;
    to_segments.of.push(next)?;
    Ok(next)
}
