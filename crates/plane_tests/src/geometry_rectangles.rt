//! Rectangles by hand, and refused allocations.

ghost use Rattle.std.specs.Prelude.{◌↔◌, IsTrue, All};
ghost use Rattle.geometry.specs.Rectangles.{IsNonempty};

use geometry::{Rectangle, all_apart_in};
use std::alloc::{AllocError, Global};
use std::process::Abort;
use test_tools::same;

/// Whether no rectangle is empty.
fn are_filled(rectangles: &[Rectangle]) -> bool
    ensures { IsTrue result ↔ All IsNonempty rectangles.now }
{
    rectangles
        .iter()
        .all(|r| r.left <= r.right && r.bottom <= r.top)
}

/// A rectangle from its left and right columns and its bottom and top rows, moved right and up by these numbers of
/// columns and rows, or as far as possible.
fn rectangle(sides: [u32; 4], by: [u32; 2]) -> Rectangle {
    let [left, right, bottom, top] = sides;
    let [across, up] = by;
    Rectangle {
        left: left.saturating_add(across),
        right: right.saturating_add(across),
        bottom: bottom.saturating_add(up),
        top: top.saturating_add(up),
    }
}

/// Whether three rectangles are apart, moved by these numbers of columns and rows.
fn answer(
    rt: &impl Abort,
    alloc: Global,
    sides: [[u32; 4]; 3],
    by: [u32; 2],
) -> Result<bool, AllocError> {
    let mut list = Vec::new(alloc);
    for one in sides {
        list.push(rectangle(one, by))?;
    }
    assert!(rt; are_filled(&list));
    all_apart_in(alloc, &mut list, &mut Vec::new(alloc))
}

const FAR: u32 = u32::MAX;

/// Rectangles, and whether they are apart.
const CASES: [([[u32; 4]; 3], bool); 8] = [
    ([[0, 0, 0, 0], [1, 1, 0, 0], [0, 0, 1, 1]], true),
    ([[0, 0, 0, 0], [5, 5, 5, 5], [0, 0, 0, 0]], false),
    ([[0, 4, 2, 2], [2, 2, 0, 4], [9, 9, 9, 9]], false),
    ([[0, 4, 2, 2], [5, 5, 0, 4], [0, 4, 3, 3]], true),
    ([[0, 4, 2, 2], [4, 6, 2, 2], [0, 4, 3, 3]], false),
    ([[0, 9, 0, 9], [4, 4, 4, 4], [20, 20, 0, 9]], false),
    ([[7, 9, 0, 3], [0, 6, 0, 3], [0, 9, 4, 4]], true),
    (
        [[0, FAR, FAR, FAR], [FAR, FAR, 0, FAR], [3, 3, 3, 3]],
        false,
    ),
];

/// Checks an answer; returns 1 if memory ran out for it, otherwise 0.
fn count_lacking(rt: &impl Abort, found: Result<bool, AllocError>, apart: bool) -> u8 {
    match found {
        Ok(found) => {
            same!(rt, found, apart);
            0
        }
        Err(AllocError) => 1,
    }
}

/// Rectangles that are apart are told from others, by bits, by a table and by a map.
/// All but the last are in few rows and columns, which are flagged by bits. Moved a thousand columns to the right they
/// go into a table, and moved a thousand rows up into a map. To be run with each allocation refused in turn, too: one
/// answer is then missing, and the others are right.
#[test]
fn tells_what_is_apart(rt: HostRuntime) {
    let mut lacking = 0u8;
    for (sides, apart) in CASES {
        for by in [[0, 0], [1000, 0], [0, 1000]] {
            let found = answer(&rt, rt.alloc(), sides, by);
            lacking = lacking.saturating_add(count_lacking(&rt, found, apart));
        }
    }
    assert!(rt; lacking <= 1);
}
