//! Known graphs, as the bytes of their records: the number of vertices, and of each vertex its neighbours, clockwise, and 0.

use std::alloc::{AllocError, Global};

/// The 15 bytes with which a file begins.
pub const HEADER: &[u8] = b">>planar_code<<";

/// A single edge.
pub const EDGE: &[u8] = &[2, 2, 0, 1, 0];

/// A triangle.
pub const TRIANGLE: &[u8] = &[3, 2, 3, 0, 3, 1, 0, 1, 2, 0];

/// The path 1, 2, 3, 4, 5.
pub const PATH: &[u8] = &[5, 2, 0, 1, 3, 0, 2, 4, 0, 3, 5, 0, 4, 0];

/// Vertex 1 joined to four others.
pub const STAR: &[u8] = &[5, 2, 3, 4, 5, 0, 1, 0, 1, 0, 1, 0, 1, 0];

/// A cycle of four.
pub const SQUARE: &[u8] = &[4, 2, 4, 0, 3, 1, 0, 4, 2, 0, 1, 3, 0];

/// All six edges between four vertices.
pub const TETRAHEDRON: &[u8] = &[4, 3, 4, 2, 0, 1, 4, 3, 0, 2, 4, 1, 0, 3, 2, 1, 0];

/// The tetrahedron with the last list reversed: it has two faces, of 3 and 9 darts, and lies on a torus.
pub const TETRAHEDRON_ON_A_TORUS: &[u8] = &[4, 3, 4, 2, 0, 1, 4, 3, 0, 2, 4, 1, 0, 1, 2, 3, 0];

pub const OCTAHEDRON: &[u8] = &[
    6, 2, 3, 4, 5, 0, 6, 3, 1, 5, 0, 2, 6, 4, 1, 0, 1, 3, 6, 5, 0, 2, 1, 4, 6, 0, 2, 5, 4, 3, 0,
];

pub const CUBE: &[u8] = &[
    8, 2, 5, 4, 0, 3, 6, 1, 0, 4, 7, 2, 0, 1, 8, 3, 0, 1, 6, 8, 0, 2, 7, 5, 0, 3, 8, 6, 0, 4, 5, 7,
    0,
];

/// A cube with a ninth vertex that is joined to all corners of one face.
pub const CAPPED_CUBE: &[u8] = &[
    9, 5, 4, 2, 0, 3, 6, 1, 0, 4, 7, 2, 0, 1, 8, 3, 0, 1, 6, 9, 8, 0, 2, 7, 9, 5, 0, 3, 8, 9, 6, 0,
    4, 5, 9, 7, 0, 5, 6, 7, 8, 0,
];

/// The capped cube with a tenth vertex on the edge from 1 to 5.
///
/// The face with the fewest bends is not among those with the most darts.
pub const LONGER_CUBE: &[u8] = &[
    10, 10, 4, 2, 0, 3, 6, 1, 0, 4, 7, 2, 0, 1, 8, 3, 0, 10, 6, 9, 8, 0, 2, 7, 9, 5, 0, 3, 8, 9, 6,
    0, 4, 5, 9, 7, 0, 5, 6, 7, 8, 0, 1, 5, 0,
];

/// One of all planar graphs of maximum degree at most 4 on 6 vertices, as nauty's `geng` and `planarg` list them.
pub const SIX: &[u8] = &[
    6, 4, 5, 6, 0, 5, 4, 6, 0, 6, 0, 6, 2, 5, 1, 0, 1, 4, 2, 0, 3, 1, 2, 4, 0,
];

/// The longest cycle that a record can hold.
pub fn longest_cycle(alloc: Global) -> Result<Vec<u8>, AllocError> {
    let mut bytes = Vec::new(alloc);
    bytes.push(255)?;
    for vertex in 1..=255u8 {
        let after = if vertex == 255 { 1 } else { vertex + 1 };
        let before = if vertex == 1 { 255 } else { vertex - 1 };
        bytes.extend_from_slice(&[after, before, 0])?;
    }
    Ok(bytes)
}
