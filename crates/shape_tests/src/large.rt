//! Least shapes of planes of 1,200 vertices, whose fewest bends are known.

use crate::ortho_rep_shapes::answers;
use embedding::{Graph, WideRecord};
use faces::Plane;
use ortho_rep::best_shape;
use std::alloc::{AllocError, Global};
use std::process::Abort;
use test_tools::same;

/// How many triangles there are, of 3 vertices each.
const TRIANGLES: u16 = 400;

const VERTICES: u16 = 3 * TRIANGLES;

/// Appends a list of neighbours, those that are vertices alone, and its end.
fn add_list(entries: &mut Vec<u16>, list: [u16; 4]) -> Result<(), AllocError> {
    for vertex in list {
        if vertex > 0 && vertex <= VERTICES {
            entries.push(vertex)?;
        }
    }
    entries.push(0)?;
    Ok(())
}

/// Triangles that are joined to a chain by edges. Each needs a bend, since it has but three corners; if one of them is
/// the outer face, three.
fn chain(alloc: Global) -> Result<Vec<u16>, AllocError> {
    let mut entries = Vec::new(alloc);
    entries.push(VERTICES)?;
    for triangle in 0..TRIANGLES {
        let last = 3 * triangle;
        let (left, right, top) = (last + 1, last + 2, last + 3);
        add_list(&mut entries, [last.saturating_sub(1), top, right, 0])?;
        add_list(&mut entries, [left, top, right + 2, 0])?;
        add_list(&mut entries, [left, right, 0, 0])?;
    }
    Ok(entries)
}

/// Triangles within one another, each corner joined to that of the next one. Whichever face is outside, four right angles
/// go from each triangle to the next one towards it, each over an edge that bends for it.
fn nested(alloc: Global) -> Result<Vec<u16>, AllocError> {
    let mut entries = Vec::new(alloc);
    entries.push(VERTICES)?;
    for triangle in 0..TRIANGLES {
        let last = 3 * triangle;
        for corner in 0..3u16 {
            let vertex = last + corner + 1;
            let next = last + (corner + 1) % 3 + 1;
            let previous = last + (corner + 2) % 3 + 1;
            add_list(
                &mut entries,
                [vertex + 3, previous, vertex.saturating_sub(3), next],
            )?;
        }
    }
    Ok(entries)
}

/// The plane of a wide record; `None` if the entries are not one of a plane, or memory ran out.
fn plane_of(alloc: Global, entries: Vec<u16>) -> Option<Plane> {
    let record = WideRecord::new(entries).ok()?;
    let graph = Graph::read_wide(alloc, &record).ok()?;
    Plane::trace(alloc, graph).ok()
}

/// How many bends are needed with the best outer face. The shape passes both tests with its prices.
fn best_bends(rt: &impl Abort, alloc: Global, entries: Vec<u16>) -> u32 {
    let mut plane = plane_of(alloc, entries).expect(rt, "a plane");
    let (shape, prices) = best_shape(alloc, &mut plane).expect(rt, "memory");
    same!(rt, answers(&plane, &shape, &prices), (true, true));
    shape.bends()
}

/// A chain needs a bend for each triangle.
#[test]
fn chains(rt: HostRuntime) {
    let entries = chain(rt.alloc()).expect(&rt, "memory");
    same!(&rt, best_bends(&rt, rt.alloc(), entries), 400);
}

/// Nested triangles need four bends between each two.
#[test]
fn nested_triangles(rt: HostRuntime) {
    let entries = nested(rt.alloc()).expect(&rt, "memory");
    same!(&rt, best_bends(&rt, rt.alloc(), entries), 1_596);
}
