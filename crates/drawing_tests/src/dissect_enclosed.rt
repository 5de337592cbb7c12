//! One straight edge in its rectangle.

ghost use Rattle.std.specs.Prelude.{◌≡◌, ◌+◌, ◌*◌, ◌≤◌, IfOk, slice_index, vec_len};
ghost use Rattle.dissect.specs.FaceNumbers.{HasTurns};
ghost use Rattle.dissect.specs.Tables.{room, dart_map_of};
ghost use Rattle.dissect.specs.DartMaps.{IsSound, reflex_turns};

use dissect::{DartTable, Faces, NO_DART, refine_in};
use std::alloc::{AllocError, Global};
use std::process::Abort;
use test_tools::same;

const TABLE_ROOM: usize = 42;

/// A list of the first number, followed by the other number.
fn numbers(alloc: Global, first: u32, others: u32) -> Result<Vec<u32>, AllocError>
    ensures size { IfOk result (λ v. vec_len v ≡ 42) }
    ensures first { IfOk result (λ v. slice_index v.items 0 ≡ first) }
    ensures second { IfOk result (λ v. slice_index v.items 1 ≡ others) }
{
    let mut list = vec![in alloc; others; TABLE_ROOM]?;
    list[0] = first;
    Ok(list)
}

/// A list of the first small number, followed by the other one.
fn small_numbers(alloc: Global, first: u8, others: u8) -> Result<Vec<u8>, AllocError>
    ensures size { IfOk result (λ v. vec_len v ≡ 42) }
    ensures first { IfOk result (λ v. slice_index v.items 0 ≡ first) }
    ensures second { IfOk result (λ v. slice_index v.items 1 ≡ others) }
{
    let mut list = vec![in alloc; others; TABLE_ROOM]?;
    list[0] = first;
    Ok(list)
}

/// An edge to the east, from the vertex 0 to the vertex 1, and its reverse.
fn edge(alloc: Global) -> Result<DartTable, AllocError>
    ensures sound { IfOk result (λ t. IsSound (dart_map_of t)) }
    ensures turns { IfOk result (λ t. HasTurns (dart_map_of t) (λ _. 0) 0) }
    ensures darts { IfOk result (λ t. t.darts ≡ 2) }
    ensures space { IfOk result (λ t. t.darts + 4 * reflex_turns (dart_map_of t) + 24 ≤ room t) }
{
    let next = numbers(alloc, 1, 0)?;
    let prev = numbers(alloc, 1, 0)?;
    let reverse_dart = numbers(alloc, 1, 0)?;
    let head = numbers(alloc, 1, 0)?;
    let before = numbers(alloc, NO_DART, NO_DART)?;
    let direction = small_numbers(alloc, 0, 2)?;
    let angle = small_numbers(alloc, 4, 4)?;
    Ok(DartTable {
        next,
        prev,
        reverse_dart,
        head,
        before,
        direction,
        angle,
        darts: 2,
        vertices: 2,
    })
}

/// How many angles have this width.
fn count_of(angles: &[u8], width: u8) -> usize {
    angles.iter().filter(|angle| **angle == width).count()
}

/// Checks the table of four boxes around an edge.
fn expect_boxes(rt: &impl Abort, table: &DartTable) {
    same!(rt, (table.vertices, table.darts), (10, 26));
    let angles = &table.angle.as_slice()[..table.darts as usize];
    same!(rt, (count_of(angles, 1), count_of(angles, 3)), (16, 4));
}

/// If memory runs out, the edge is left as it was, and a second call encloses it.
/// Four boxes lie around the edge: below and above it, and beyond each of its ends. To be run with each allocation
/// refused in turn, too.
#[test]
fn refused_memory_leaves_the_edge(rt: HostRuntime) {
    let alloc = rt.alloc();
    let Ok(mut table) = edge(alloc) else {
        return;
    };
    if refine_in(&mut table, 0, Faces::empty(alloc)).is_err() {
        same!(&rt, (table.darts, table.vertices), (2, 2));
        assert!(rt; refine_in(&mut table, 0, Faces::empty(alloc)).is_ok());
    }
    expect_boxes(&rt, &table);
}
