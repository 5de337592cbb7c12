//! The two kinds of drawings, stage by stage, of trees, whose drawings have no bends.

use crate::answers_records::staged;
use answers::Answer;
use common::{Choice, DrawingKind};
use faces::Plane;
use ortho_rep::Point;
use std::alloc::{AllocError, Global};
use std::process::Abort;
use test_tools::{record_of, same};

/// The point of a vertex, or the origin if there is none.
fn place_of(places: &[Point], vertex: u16) -> Point {
    match places.get(usize::from(vertex).wrapping_sub(1)) {
        Some(place) => *place,
        None => Point { x: 0, y: 0 },
    }
}

/// Twice the total length of the edges of a drawing without bends: each dart counts.
fn twice_the_length(plane: &Plane, places: &[Point]) -> u32 {
    let graph = plane.graph();
    let mut length: u32 = 0;
    for dart in 0..graph.darts() {
        let from = place_of(places, graph.tail(dart));
        let to = place_of(places, graph.head(dart));
        length = length.wrapping_add(from.x.abs_diff(to.x));
        length = length.wrapping_add(from.y.abs_diff(to.y));
    }
    length
}

/// The number of bends of a drawing, and twice the total length of its edges.
fn figures(answer: &Answer) -> Option<(u32, u32)> {
    match answer {
        Answer::Laid {
            plane,
            shape,
            drawing: Ok(drawing),
            ..
        } => {
            let places = drawing.points().vertices();
            Some((shape.bends(), twice_the_length(plane, places)))
        }
        _ => None,
    }
}

/// The figures of the drawing of this kind of these bytes.
fn figures_of(
    rt: &impl Abort,
    alloc: Global,
    bytes: &[u8],
    drawing_kind: DrawingKind,
) -> Option<(u32, u32)> {
    let rec = record_of(alloc, bytes).expect(rt, "a record");
    let entry = staged(alloc, rec, Choice::First, drawing_kind);
    figures(&entry.answer)
}

/// Checks that twice the length of the short drawing of a tree is this, and that the quick one is longer, if it is to
/// be.
fn check(rt: &impl Abort, alloc: Global, bytes: &[u8], twice: u32, quick_is_longer: bool) {
    let short = figures_of(rt, alloc, bytes, DrawingKind::Short);
    same!(rt, short, Some((0, twice)));
    let quick = figures_of(rt, alloc, bytes, DrawingKind::Quick);
    let is_longer = quick.is_some_and(|(bends, length)| bends == 0 && length > twice);
    same!(rt, is_longer || !quick_is_longer, true);
}

/// A path of this many vertices, at least 2.
fn path(alloc: Global, count: u8) -> Result<Vec<u8>, AllocError> {
    let mut bytes = Vec::new(alloc);
    bytes.push(count)?;
    for place in 0..count {
        if place > 0 {
            bytes.push(place)?;
        }
        if count - place >= 2 {
            bytes.push(place.wrapping_add(2))?;
        }
        bytes.push(0)?;
    }
    Ok(bytes)
}

/// The short drawing of a path is a straight line, in which each edge has length 1.
/// The quick drawing of a long path is wound up.
#[test]
fn short_paths_are_straight(rt: HostRuntime) {
    for count in [2, 3, 10, 40, 255] {
        let bytes = path(rt.alloc(), count).expect(&rt, "memory");
        let twice = 2 * (u32::from(count) - 1);
        check(&rt, rt.alloc(), &bytes, twice, count >= 10);
    }
}

/// Checks that the answer is a short drawing of a path of four, or that memory ran out; returns whether it is a
/// drawing.
fn is_path_of_four(rt: &impl Abort, answer: &Answer) -> bool {
    if let Answer::NoMemory = answer {
        return false;
    }
    same!(rt, figures(answer), Some((0, 6)));
    true
}

/// Whether the answer to the record of that path is a short drawing; true if memory runs out for the record itself.
fn answers_path_of_four(rt: &impl Abort, alloc: Global) -> bool {
    match record_of(alloc, &[4, 2, 0, 1, 3, 0, 2, 4, 0, 3, 0]) {
        Some(rec) => {
            let entry = staged(alloc, rec, Choice::First, DrawingKind::Short);
            is_path_of_four(rt, &entry.answer)
        }
        None => true,
    }
}

/// If memory runs out, the answer says so, and a second call answers as without the refusal.
/// `checks/refuse-allocations` refuses each allocation of this test in turn.
#[test]
fn refused_allocations(rt: HostRuntime) {
    if !answers_path_of_four(&rt, rt.alloc()) {
        same!(&rt, answers_path_of_four(&rt, rt.alloc()), true);
    }
}

/// A tree without vertices of degree 2: its shape is the same in both drawings, and the quick one is longer.
const TREE: [u8; 29] = [
    10, 2, 3, 4, 0, 1, 5, 6, 0, 1, 7, 8, 0, 1, 9, 10, 0, 2, 0, 2, 0, 3, 0, 3, 0, 4, 0, 4, 0,
];

/// The short drawing of a tree is shorter than the quick one.
#[test]
fn short_drawings_are_shorter(rt: HostRuntime) {
    check(&rt, rt.alloc(), &TREE, 18, true);
}
