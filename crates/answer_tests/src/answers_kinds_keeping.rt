//! The kind of drawing that is asked for is made, with conditions and without.

ghost use Rattle.ortho_rep.specs.Representation.{IsLeast};

use answers::{RecordScratch, ShapedPlane};
use common::{Choice, DrawingKind};
use conditions::{Conditions, TurnsAlong};
use faces::Plane;
use ortho_rep::{Point, Points};
use std::alloc::{AllocError, Global};
use std::process::Abort;
use test_tools::{record_of, same};

/// How far apart two points are, along the axes.
fn distance(from: Point, to: Point) -> u32 {
    let along_x = from.x.abs_diff(to.x);
    along_x.wrapping_add(from.y.abs_diff(to.y))
}

/// The point of a vertex, or the origin if there is none.
fn vertex_of(points: &Points, vertex: u16) -> Point {
    match points.vertices().get(usize::from(vertex).wrapping_sub(1)) {
        Some(point) => *point,
        None => Point { x: 0, y: 0 },
    }
}

/// The total length of all edges.
fn length_of(plane: &Plane, points: &Points) -> u32 {
    let graph = plane.graph();
    let mut length: u32 = 0;
    let mut edge: u16 = 0;
    for dart in 0..graph.darts() {
        let reverse = graph.reverse(dart);
        if dart < reverse && usize::from(edge) < points.edge_count() {
            let mut from = vertex_of(points, graph.head(reverse));
            for corner in points.corners(edge) {
                length = length.wrapping_add(distance(from, *corner));
                from = *corner;
            }
            let end = vertex_of(points, graph.head(dart));
            length = length.wrapping_add(distance(from, end));
            edge = edge.wrapping_add(1);
        }
    }
    length
}

/// The total length of the edges in a drawing of this kind that keeps edges straight.
fn length_keeping(
    rt: &impl Abort,
    alloc: Global,
    bytes: &[u8],
    turns: &[TurnsAlong],
    kind: DrawingKind,
) -> Option<u32> {
    let rec = record_of(alloc, bytes).expect(rt, "a record");
    let mut scratch = RecordScratch::empty(alloc);
    let conditions = Conditions {
        turns,
        angles: &[],
        inner: &[],
    };
    let plane = scratch.embed(alloc, &rec).ok()?;
    let made = scratch.shape_keeping(alloc, plane, &conditions, Choice::First, kind);
    let kept = made.ok()?;
    let drawing = scratch.draw_keeping(alloc, &kept).ok()?;
    Some(length_of(&kept.plane, drawing.points()))
}

/// The plane of a record with a shape for a drawing of this kind, without conditions.
fn shaped(rt: &impl Abort, alloc: Global, bytes: &[u8], kind: DrawingKind) -> ShapedPlane
    ensures { IsLeast result.plane result.shape }
{
    let rec = record_of(alloc, bytes).expect(rt, "a record");
    let mut scratch = RecordScratch::empty(alloc);
    let plane = scratch.embed(alloc, &rec);
    let made = scratch.shape(alloc, plane, Choice::First, kind);
    made.expect(rt, "a plane")
}

/// The total length of the edges in a drawing of it.
fn length_drawn(rt: &impl Abort, alloc: Global, shaped_plane: &ShapedPlane) -> u32
    requires { IsLeast shaped_plane.now.plane shaped_plane.now.shape }
{
    let mut scratch = RecordScratch::empty(alloc);
    let points = scratch.points(alloc, shaped_plane);
    length_of(&shaped_plane.plane, &points.expect(rt, "memory"))
}

/// The total length of the edges in a drawing of this kind of a record.
fn length(rt: &impl Abort, alloc: Global, bytes: &[u8], kind: DrawingKind) -> u32 {
    length_drawn(rt, alloc, &shaped(rt, alloc, bytes, kind))
}

/// A path of this many vertices, at least 2.
fn path(alloc: Global, count: u8) -> Result<Vec<u8>, AllocError> {
    let mut bytes = Vec::new(alloc);
    bytes.push(count)?;
    for place in 0..count {
        if place > 0 {
            bytes.push(place)?;
        }
        if count - place >= 2 {
            bytes.push(place.wrapping_add(2))?;
        }
        bytes.push(0)?;
    }
    Ok(bytes)
}

/// The darts of a path of this many vertices, from its first one on.
fn along_path(alloc: Global, count: u16) -> Result<Vec<TurnsAlong>, AllocError> {
    let mut list = Vec::new(alloc);
    for from in 1..count {
        list.push(TurnsAlong {
            from,
            to: from.wrapping_add(1),
            turns: 0,
        })?;
    }
    Ok(list)
}

/// A short drawing of a path is a straight line, each edge of length 1. A quick one is wound up, and longer.
#[test]
fn paths_are_short_or_quick(rt: HostRuntime) {
    let alloc = rt.alloc();
    for count in [5, 40, 255] {
        let bytes = path(alloc, count).expect(&rt, "memory");
        let short = length(&rt, alloc, &bytes, DrawingKind::Short);
        same!(&rt, short, u32::from(count) - 1);
        let quick = length(&rt, alloc, &bytes, DrawingKind::Quick);
        same!(&rt, short < quick, true);
    }
}

/// A short drawing of the turns of a wound up path has shorter edges than a quick drawing of them.
#[test]
fn one_shape_is_drawn_as_its_plane_says(rt: HostRuntime) {
    let alloc = rt.alloc();
    let bytes = path(alloc, 40).expect(&rt, "memory");
    let mut shaped_plane = shaped(&rt, alloc, &bytes, DrawingKind::Quick);
    let quick = length_drawn(&rt, alloc, &shaped_plane);
    shaped_plane.drawing_kind = DrawingKind::Short;
    let short = length_drawn(&rt, alloc, &shaped_plane);
    same!(&rt, short < quick, true);
}

/// Under conditions a short drawing of a path has the turns of the quick one, but shorter edges.
#[test]
fn kept_paths_are_short_or_quick(rt: HostRuntime) {
    let alloc = rt.alloc();
    for count in [5, 40, 255] {
        let bytes = path(alloc, count).expect(&rt, "memory");
        let straight = along_path(alloc, u16::from(count)).expect(&rt, "memory");
        let short = length_keeping(&rt, alloc, &bytes, &straight, DrawingKind::Short);
        let quick = length_keeping(&rt, alloc, &bytes, &straight, DrawingKind::Quick);
        let short = short.expect(&rt, "a drawing");
        let quick = quick.expect(&rt, "a drawing");
        same!(&rt, short < quick, true);
    }
}
