//! Certificates made by hand, and lists that are not certificates.
use crate::made::{Drawn, is_certified};
use test_tools::same;

/// Three vertices on a line, drawn far apart.
const LINE: Drawn<'static> = Drawn {
    segments: &[(0, 3, 3), (5, 3, 3), (9, 3, 3)],
    wires: &[(0, 1), (1, 2)],
};

/// A box with two vertices on its lower side, and in it a leaf of its right side, drawn too far to the left:
///
/// ```text
/// level 4   0-----------4
///           |           |
/// level 2   |  3--------|
///           |           |
/// level 0   0--1-----2--4
/// ```
///
/// Below a width of 3 the vertices of the lower side do not keep their order, so its least length is 3 + 1 + 3.
const BOX: Drawn<'static> = Drawn {
    segments: &[(0, 0, 4), (1, 0, 0), (3, 0, 0), (1, 2, 2), (4, 0, 4)],
    wires: &[(0, 1), (1, 2), (2, 4), (3, 4), (0, 4)],
};

/// The box without its upper side.
const OPEN_BOX: Drawn<'static> = Drawn {
    segments: &[(0, 0, 4), (1, 0, 0), (3, 0, 0), (1, 2, 2), (4, 0, 4)],
    wires: &[(0, 1), (1, 2), (2, 4), (3, 4)],
};

/// The lower side holds the upper one apart too; the leaf's wire holds itself.
const BOX_WEIGHTS: &[(u16, u16, u32)] = &[(0, 1, 2), (1, 2, 2), (2, 4, 2), (3, 4, 1), (0, 3, 0)];

/// Coordinates, weights, and whether they are a certificate of the box.
const OF_BOX: [(&[u16], &[(u16, u16, u32)], bool); 13] = [
    (&[0, 1, 2, 2, 3], BOX_WEIGHTS, true),
    // the same coordinates, shifted
    (&[7, 8, 9, 9, 10], BOX_WEIGHTS, true),
    // other points: the leaf where it was, the box as wide as it was
    (&[0, 1, 2, 1, 3], BOX_WEIGHTS, false),
    (&[0, 1, 3, 3, 4], BOX_WEIGHTS, false),
    // shorter, but not in order: the leaf on the right side, a vertex on the corner
    (&[0, 1, 2, 3, 3], BOX_WEIGHTS, false),
    (&[0, 1, 1, 1, 2], BOX_WEIGHTS, false),
    // the leaf's wire does not count
    (&[0, 1, 2, 2, 3], &[(0, 1, 2), (1, 2, 2), (2, 4, 2)], false),
    // the cut from the left side to the leaf counts as a wire
    (
        &[0, 1, 2, 2, 3],
        &[(0, 1, 2), (1, 2, 2), (2, 4, 2), (3, 4, 1), (0, 3, 1)],
        false,
    ),
    // the right sum, out of balance
    (
        &[0, 1, 2, 2, 3],
        &[(0, 1, 3), (1, 2, 2), (2, 4, 1), (3, 4, 1)],
        false,
    ),
    // a pair the wrong way, one on no level, and one without a segment
    (
        &[0, 1, 2, 2, 3],
        &[(0, 1, 2), (1, 2, 2), (2, 4, 2), (3, 4, 1), (4, 3, 0)],
        false,
    ),
    (
        &[0, 1, 2, 2, 3],
        &[(0, 1, 2), (1, 2, 2), (2, 4, 2), (3, 4, 1), (1, 3, 0)],
        false,
    ),
    (
        &[0, 1, 2, 2, 3],
        &[(0, 1, 2), (1, 2, 2), (2, 4, 2), (3, 4, 1), (0, 5, 0)],
        false,
    ),
    // none
    (&[0, 1, 2, 2, 3], &[], false),
];

/// Only the shortest coordinates of a line are certified.
#[test]
fn rows_on_a_line_close_up(rt: HostRuntime) {
    let weights = [(0, 1, 1), (1, 2, 1)];
    for (coordinates, wanted) in [([0, 1, 2], true), ([0, 5, 9], false), ([0, 1, 3], false)] {
        let found = is_certified(rt.alloc(), LINE, &coordinates, &weights);
        same!(&rt, found, Ok(wanted));
    }
}

/// Only right coordinates and weights certify the box.
#[test]
fn a_box_is_held_apart_by_one_side(rt: HostRuntime) {
    for (coordinates, weights, wanted) in OF_BOX {
        let found = is_certified(rt.alloc(), BOX, coordinates, weights);
        same!(&rt, found, Ok(wanted));
    }
}

/// Weights that certify one drawing do not certify another.
#[test]
fn weights_are_of_one_drawing(rt: HostRuntime) {
    let lighter = [(0, 1, 1), (1, 2, 1), (2, 4, 1), (3, 4, 1)];
    for (weights, wanted) in [(BOX_WEIGHTS, false), (lighter.as_slice(), true)] {
        let found = is_certified(rt.alloc(), OPEN_BOX, &[0, 1, 2, 2, 3], weights);
        same!(&rt, found, Ok(wanted));
    }
}
