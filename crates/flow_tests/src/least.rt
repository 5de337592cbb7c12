//! Segments whose least length is known by hand.
use crate::made::{Drawn, segments_of, wires_of};
use least_length::{Scratch, Wire, find_shorter, write_if_shorter};
use std::alloc::{AllocError, Global};
use test_tools::same;

/// Drawings, segments in the order of their coordinates, and the least length of each, if it has a greater one.
const DRAWINGS: [(Drawn<'static>, Option<u32>); 10] = [
    // nothing, and a segment alone
    (
        Drawn {
            segments: &[],
            wires: &[],
        },
        None,
    ),
    (
        Drawn {
            segments: &[(7, 0, 3)],
            wires: &[],
        },
        None,
    ),
    // three on a line
    (
        Drawn {
            segments: &[(0, 3, 3), (5, 3, 3), (9, 3, 3)],
            wires: &[(0, 1), (1, 2)],
        },
        Some(2),
    ),
    // leaves of a line, before it and after it, on levels of their own
    (
        Drawn {
            segments: &[(0, 0, 4), (5, 0, 0), (7, 2, 2), (9, 4, 4)],
            wires: &[(0, 1), (0, 2), (0, 3)],
        },
        Some(3),
    ),
    (
        Drawn {
            segments: &[(0, 0, 0), (1, 2, 2), (2, 4, 4), (9, 0, 4)],
            wires: &[(0, 3), (1, 3), (2, 3)],
        },
        Some(3),
    ),
    // a box of width 3 by its lower side, and a leaf of its right side: 3 + 1 + 3
    (
        Drawn {
            segments: &[(0, 0, 4), (1, 0, 0), (1, 2, 2), (3, 0, 0), (4, 0, 4)],
            wires: &[(0, 1), (1, 3), (3, 4), (2, 4), (0, 4)],
        },
        Some(7),
    ),
    // the same box with a leaf of each side: 3 + 1 + 1 + 3
    (
        Drawn {
            segments: &[
                (0, 0, 6),
                (1, 0, 0),
                (1, 4, 4),
                (3, 0, 0),
                (3, 2, 2),
                (9, 0, 6),
            ],
            wires: &[(0, 1), (1, 3), (3, 5), (2, 5), (0, 4), (0, 5)],
        },
        Some(8),
    ),
    // a box of width 5, and in it a line with two wires to its left and one to its right: 5 + 1 + 1 + 4
    (
        Drawn {
            segments: &[
                (0, 0, 4),
                (1, 0, 0),
                (2, 0, 0),
                (3, 0, 0),
                (3, 2, 4),
                (4, 0, 0),
                (5, 0, 4),
            ],
            wires: &[
                (0, 1),
                (1, 2),
                (2, 3),
                (3, 5),
                (5, 6),
                (0, 4),
                (0, 4),
                (4, 6),
            ],
        },
        Some(11),
    ),
    // the same box with one wire to its left and two to its right: 5 + 4 + 1 + 1
    (
        Drawn {
            segments: &[
                (0, 0, 4),
                (1, 0, 0),
                (1, 2, 4),
                (2, 0, 0),
                (3, 0, 0),
                (4, 0, 0),
                (5, 0, 4),
            ],
            wires: &[
                (0, 1),
                (1, 3),
                (3, 4),
                (4, 5),
                (5, 6),
                (0, 2),
                (2, 6),
                (2, 6),
            ],
        },
        Some(11),
    ),
    // not in the order of their coordinates
    (
        Drawn {
            segments: &[(5, 3, 3), (0, 3, 3)],
            wires: &[(1, 0)],
        },
        None,
    ),
];

/// The least total length of the wires, or `None` if they are no longer as they are.
fn least_length_of(alloc: Global, drawn: Drawn<'_>) -> Result<Option<u32>, AllocError> {
    let segments = segments_of(alloc, drawn.segments)?;
    let wires = wires_of(alloc, &segments, drawn.wires)?;
    let (mut scratch, mut coordinates) = (Scratch::empty(alloc), Vec::new(alloc));
    let mut looks = u64::MAX;
    if !find_shorter(
        &mut scratch,
        &segments,
        &wires,
        &mut looks,
        &mut coordinates,
    )? {
        return Ok(None);
    }
    Ok(Some(length_of(&wires, &coordinates)))
}

/// The total length of wires.
pub(crate) fn length_of(wires: &[Wire], coordinates: &[u16]) -> u32 {
    let mut total: u32 = 0;
    for wire in wires {
        let from = coordinates
            .get(usize::from(wire.from))
            .copied()
            .unwrap_or(0);
        let to = coordinates.get(usize::from(wire.to)).copied().unwrap_or(0);
        total = total.saturating_add(u32::from(from.abs_diff(to)));
    }
    total
}

/// Three segments on a line. The search goes over the first one, which moves to the second; over these two, which move to
/// the third; and over all three.
const LINE: Drawn<'static> = Drawn {
    segments: &[(0, 3, 3), (5, 3, 3), (9, 3, 3)],
    wires: &[(0, 1), (1, 2)],
};

/// What a search with some looks finds: whether it ends, the total length with the coordinates that it came to, if that is
/// less, and how many looks are left.
type Found = (bool, Option<u32>, u64);

/// What a search with this many looks finds.
fn found_within(alloc: Global, drawn: Drawn<'_>, looks: u64) -> Result<Found, AllocError> {
    let segments = segments_of(alloc, drawn.segments)?;
    let wires = wires_of(alloc, &segments, drawn.wires)?;
    let (mut scratch, mut coordinates) = (Scratch::empty(alloc), Vec::new(alloc));
    let mut left = looks;
    let ends = find_shorter(&mut scratch, &segments, &wires, &mut left, &mut coordinates)?;
    if !ends && !write_if_shorter(&mut scratch, &segments, &wires, &mut coordinates)? {
        return Ok((ends, None, left));
    }
    Ok((ends, Some(length_of(&wires, &coordinates)), left))
}

/// A search that takes six looks needs them all. If there are fewer, it takes those, and the segments that moved until then
/// stay where they are.
#[test]
fn searches_take_their_looks(rt: HostRuntime) {
    for (looks, wanted) in [
        (0, (false, None, 0)),
        (2, (false, Some(5), 0)),
        (5, (false, Some(2), 0)),
        (6, (true, Some(2), 0)),
        (100, (true, Some(2), 94)),
    ] {
        same!(&rt, found_within(rt.alloc(), LINE, looks), Ok(wanted));
    }
}

/// The least lengths are those found by hand.
#[test]
fn least_lengths_are_those_by_hand(rt: HostRuntime) {
    for (drawn, wanted) in DRAWINGS {
        same!(&rt, least_length_of(rt.alloc(), drawn), Ok(wanted));
    }
}
