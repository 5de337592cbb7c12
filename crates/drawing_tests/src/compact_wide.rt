//! The longest spirals: the grid has no room for one of 140,000 turns.

use crate::dissect_boxed::boxes_in;
use crate::planes::spiral_in;
use compact::{CompactFault, compact};
use test_tools::records::EDGE;
use test_tools::same;

/// A spiral of 140,000 turns does not fit into the grid.
#[test]
fn long_spiral_is_too_wide(rt: HostRuntime) {
    let alloc = rt.alloc();
    let boxes = boxes_in(&rt, alloc, EDGE, spiral_in(alloc, 140_000));
    same!(&rt, compact(alloc, &boxes).err(), Some(CompactFault::Wide));
}
