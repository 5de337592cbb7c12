//! Graphs whose fewest bends are known: they are read, shaped, dissected and drawn.

ghost use Rattle.std.specs.Prelude.{◌<◌};

use crate::planes::{draw, shape_of};
use std::alloc::{AllocError, Global};
use std::process::Abort;
use test_tools::records::{EDGE, OCTAHEDRON, TETRAHEDRON, TRIANGLE};
use test_tools::{plane_in, same};

/// A grid of this many rows and columns, at most 255 vertices. Neighbours to the north, east, south and west.
pub(crate) fn grid(alloc: Global, rows: u8, columns: u8) -> Result<Vec<u8>, AllocError>
    requires columns { 0 < columns }
{
    let mut bytes = Vec::new(alloc);
    let count = rows.wrapping_mul(columns);
    bytes.push(count)?;
    for place in 0..count {
        let vertex = place + 1;
        if vertex > columns {
            bytes.push(vertex - columns)?;
        }
        if vertex % columns != 0 {
            bytes.push(vertex.wrapping_add(1))?;
        }
        if count - vertex >= columns {
            bytes.push(vertex + columns)?;
        }
        if place % columns != 0 {
            bytes.push(place)?;
        }
        bytes.push(0)?;
    }
    Ok(bytes)
}

/// A neighbour of a vertex on rings of vertices: on which ring, and how far around, minus one.
type Beside = (u8, u8);

/// One ring.
const CYCLE: [&[Beside]; 1] = [&[(0, 2), (0, 0)]];

/// Two rings, each vertex of the outer one joined to that of the inner one.
pub(crate) const PRISM: [&[Beside]; 2] = [&[(0, 2), (0, 0), (1, 1)], &[(1, 2), (0, 1), (1, 0)]];

/// Two rings, each vertex of the inner one joined to one of the outer one and the next.
pub(crate) const ANTIPRISM: [&[Beside]; 2] = [
    &[(0, 2), (0, 0), (1, 0), (1, 1)],
    &[(1, 2), (0, 2), (0, 1), (1, 0)],
];

/// The number of a neighbour of the vertex at a place of a ring with this many vertices.
fn number(beside: Beside, place: u8, count: u8) -> u8 {
    let (ring, round) = beside;
    let reached = if round == 0 && place == 0 {
        count
    } else if round == 2 && place.wrapping_add(1) == count {
        1
    } else {
        place.wrapping_add(round)
    };
    ring.wrapping_mul(count).wrapping_add(reached)
}

/// One or two rings of this many vertices, each with the neighbours that its ring names, at most 255 in all.
pub(crate) fn rings(alloc: Global, rings: &[&[Beside]], count: u8) -> Result<Vec<u8>, AllocError> {
    let mut bytes = Vec::new(alloc);
    bytes.push(if rings.len() == 1 {
        count
    } else {
        count.wrapping_mul(2)
    })?;
    for ring in rings {
        for place in 0..count {
            for beside in *ring {
                bytes.push(number(*beside, place, count))?;
            }
            bytes.push(0)?;
        }
    }
    Ok(bytes)
}

/// Checks that a least shape of these bytes has this many bends, and is drawn.
fn expect_drawn(rt: &impl Abort, alloc: Global, bytes: &[u8], bends: u32) {
    let plane = plane_in(alloc, bytes).expect(rt, "a plane");
    let shape = shape_of(rt, alloc, &plane);
    same!(rt, shape.bends(), bends);
    draw(rt, alloc, &plane, &shape);
}

/// The single edge, the triangle, the complete graph on 4 vertices, the octahedron, and stars.
const SOLIDS: [(&[u8], u32); 7] = [
    (EDGE, 0),
    (TRIANGLE, 1),
    (TETRAHEDRON, 4),
    (OCTAHEDRON, 12),
    (&[3, 2, 3, 0, 1, 0, 1, 0], 0),
    (&[4, 2, 3, 4, 0, 1, 0, 1, 0, 1, 0], 0),
    (&[5, 2, 3, 4, 5, 0, 1, 0, 1, 0, 1, 0, 1, 0], 0),
];

/// Known graphs are drawn with their fewest bends.
#[test]
fn solids_with_bends(rt: HostRuntime) {
    for (bytes, bends) in SOLIDS {
        expect_drawn(&rt, rt.alloc(), bytes, bends);
    }
}

/// Paths of 2 to 40 vertices and grids of 2 to 6 rows and columns are drawn without bends.
#[test]
fn grids_without_bends(rt: HostRuntime) {
    for (columns, most) in [(1, 40), (2, 6), (3, 6), (4, 6), (5, 6), (6, 6)] {
        for rows in 2..=most {
            let bytes = grid(rt.alloc(), rows, columns).expect(&rt, "memory");
            expect_drawn(&rt, rt.alloc(), &bytes, 0);
        }
    }
}

/// Rings, the least and the greatest number of vertices of each, and the fewest bends: the first number, plus the
/// second one for each vertex of a ring.
const RINGS: [(&[&[Beside]], [u8; 2], [u32; 2]); 6] = [
    (&CYCLE, [3, 3], [1, 0]),
    (&CYCLE, [4, 40], [0, 0]),
    (&CYCLE, [255, 255], [0, 0]),
    (&PRISM, [3, 12], [4, 0]),
    (&ANTIPRISM, [3, 3], [12, 0]),
    (&ANTIPRISM, [4, 12], [4, 2]),
];

/// Rings of vertices are drawn with their fewest bends.
#[test]
fn rings_with_bends(rt: HostRuntime) {
    for (named, [least, most], [bends, more]) in RINGS {
        for count in least..=most {
            let bytes = rings(rt.alloc(), named, count).expect(&rt, "memory");
            let bends = bends.wrapping_add(more.wrapping_mul(u32::from(count)));
            expect_drawn(&rt, rt.alloc(), &bytes, bends);
        }
    }
}
