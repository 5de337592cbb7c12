//! Drawings by hand that are right, and what is wrong with others.

use crate::reports::expect_verdict;
use std::test::Fail;
use test_tools::records::{EDGE, TRIANGLE};

/// Vertex 1 joined to 2, 3 and 4, in this order clockwise.
const STAR: &[u8] = &[4, 2, 3, 4, 0, 1, 0, 1, 0, 1, 0];

/// The path of 1, 2, 3 and 4.
const PATH: &[u8] = &[4, 2, 0, 1, 3, 0, 2, 4, 0, 3, 0];

/// Drawings that are right: the bytes of the record, the line, and the verdict, with the bends and how few are possible.
const RIGHT: [(&[u8], &str, &str); 9] = [
    (
        EDGE,
        "{\"points\":{\"vertices\":[[0,0],[5,0]],\"corners\":[[]]}}",
        "ok bends=0 fewest=0",
    ),
    (
        EDGE,
        "{\"points\":{\"vertices\":[[0,0],[5,0]],\"corners\":[[[0,1],[5,1]]]},\"bends\":2}",
        "ok bends=2 fewest=0",
    ),
    // From vertex 1 the edge goes north, turns right twice and ends to the south.
    (
        EDGE,
        "{\"points\":{\"vertices\":[[0,0],[5,0]],\"corners\":[[[0,1],[5,1]]]},\"angles\":[4,4],\"turns\":[\"RR\",\"LL\"]}",
        "ok bends=2 fewest=0",
    ),
    (
        TRIANGLE,
        "{\"points\":{\"vertices\":[[0,1],[1,1],[0,0]],\"corners\":[[],[],[[1,0]]]},\"outer\":0}",
        "ok bends=1 fewest=1",
    ),
    // A quarter turn of it.
    (
        TRIANGLE,
        "{\"points\":{\"vertices\":[[0,0],[0,1],[1,0]],\"corners\":[[],[],[[1,1]]]},\"outer\":0}",
        "ok bends=1 fewest=1",
    ),
    // Its mirror image: each vertex has two neighbours, so the outer face is the other one.
    (
        TRIANGLE,
        "{\"points\":{\"vertices\":[[1,1],[0,1],[1,0]],\"corners\":[[],[],[[0,0]]]},\"outer\":1}",
        "ok bends=1 fewest=1",
    ),
    // Twice as large.
    (
        TRIANGLE,
        "{\"points\":{\"vertices\":[[0,2],[2,2],[0,0]],\"corners\":[[],[],[[2,0]]]},\"name\":7}",
        "ok bends=1 fewest=1",
    ),
    (
        STAR,
        "{\"points\":{\"vertices\":[[1,1],[1,2],[2,1],[1,0]],\"corners\":[[],[],[]]}}",
        "ok bends=0 fewest=0",
    ),
    (
        PATH,
        "{\"points\":{\"vertices\":[[0,1],[3,1],[3,3],[2,3]],\"corners\":[[],[],[]]}}",
        "ok bends=0 fewest=0",
    ),
];

/// Drawings that are wrong, and their verdicts.
const WRONG: [(&[u8], &str, &str); 10] = [
    (
        TRIANGLE,
        "{\"points\":{\"vertices\":[[0,1],[1,1],[0,0]],\"corners\":[[],[],[]]}}",
        "drawn=axes edge=2 part=0",
    ),
    // The mirror image of a star.
    (
        STAR,
        "{\"points\":{\"vertices\":[[1,1],[1,2],[0,1],[1,0]],\"corners\":[[],[],[]]}}",
        "embedding vertex=1",
    ),
    // Edge 2 crosses edge 0 at (1,1).
    (
        PATH,
        "{\"points\":{\"vertices\":[[0,1],[3,1],[3,3],[1,0]],\"corners\":[[],[],[[1,3]]]}}",
        "drawn=meet",
    ),
    (
        EDGE,
        "{\"points\":{\"vertices\":[[0,0],[5,0]],\"corners\":[[[2,0]]]}}",
        "drawn=turn edge=0 corner=0",
    ),
    (
        EDGE,
        "{\"points\":{\"vertices\":[[0,0],[65536,0]],\"corners\":[[]]}}",
        "drawn=grid vertex=2",
    ),
    (
        EDGE,
        "{\"points\":{\"vertices\":[[0,0],[5,0]],\"corners\":[[[0,65536],[5,65536]]]}}",
        "drawn=grid edge=0 corner=0",
    ),
    (
        EDGE,
        "{\"points\":{\"vertices\":[[0,0]],\"corners\":[[]]}}",
        "drawn=vertices",
    ),
    (
        EDGE,
        "{\"points\":{\"vertices\":[[0,0],[5,0]],\"corners\":[]}}",
        "drawn=edges",
    ),
    (
        EDGE,
        "{\"points\":{\"vertices\":[[0,0],[0,0]],\"corners\":[[]]}}",
        "drawn=axes edge=0 part=0",
    ),
    // Both edges of vertex 2 leave it to the west.
    (
        PATH,
        "{\"points\":{\"vertices\":[[0,0],[3,0],[1,0],[1,3]],\"corners\":[[],[],[]]}}",
        "embedding vertex=2",
    ),
];

/// Right drawings are `ok` with their bends.
#[test]
fn right_drawings_are_ok(rt: HostRuntime) -> Result<(), Fail> {
    for (record, line, verdict) in RIGHT.iter() {
        expect_verdict(&rt, *record, line.as_bytes(), *verdict)?;
    }
    Ok(())
}

/// Wrong drawings have the verdict with their fault.
#[test]
fn wrong_drawings_are_told(rt: HostRuntime) -> Result<(), Fail> {
    for (record, line, verdict) in WRONG.iter() {
        expect_verdict(&rt, *record, line.as_bytes(), *verdict)?;
    }
    Ok(())
}
