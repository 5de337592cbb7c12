//! Drawings of the longest cycle, and what is wrong with others.

use crate::reports::expect_verdict;
use std::alloc::{AllocError, Global};
use std::process::Abort;
use std::sync::Wait;
use std::test::Fail;
use test_tools::records::longest_cycle;

/// How a line of the cycle ends: the points of the vertices from 255 on, and the lists of the edge from 1 to 255 (edge 1)
/// and of the edges from 254 on. Vertices 1 to 254 are at (0,2), (2,2), .., (506,2), and all other edges have no corner.
type Ends = (&'static str, &'static str, &'static str);

/// The edge from 1 to 255 leads round the others, at the greatest distance from them.
const RIGHT: Ends = (",[508,2]", "[[0,65535],[508,65535]]", ",[]");

/// Drawings with a fault at one of the last places, and their verdicts.
const WRONG: [(Ends, &str); 14] = [
    (("", "[[0,4],[508,4]]", ",[]"), "drawn=vertices"),
    (
        (",[508,2],[510,2]", "[[0,4],[508,4]]", ",[]"),
        "drawn=vertices",
    ),
    ((",[508,2]", "[[0,4],[508,4]]", ""), "drawn=edges"),
    ((",[508,2]", "[[0,4],[508,4]]", ",[],[]"), "drawn=edges"),
    (
        (",[508,65536]", "[[0,65536],[508,4]]", ",[]"),
        "drawn=grid vertex=255",
    ),
    (
        (",[508,2]", "[[0,4],[65536,4]]", ",[[65536,2]]"),
        "drawn=grid edge=1 corner=1",
    ),
    (
        (",[508,2]", "[[1,4],[508,4]]", ",[[507,3],[508,65536]]"),
        "drawn=grid edge=254 corner=1",
    ),
    (
        (",[508,3]", "[[0,4],[508,4]]", ",[]"),
        "drawn=axes edge=254 part=0",
    ),
    // Edge 1 goes straight on at its corner 0, which is looked at later.
    (
        (",[508,2]", "[[0,3],[0,4],[507,4]]", ",[]"),
        "drawn=axes edge=1 part=3",
    ),
    (
        (",[508,2]", "[[0,4],[508,4],[508,3]]", ",[[507,2]]"),
        "drawn=turn edge=1 corner=2",
    ),
    (
        (",[508,2]", "[[0,4],[508,4]]", ",[[506,1],[508,1],[508,0]]"),
        "drawn=turn edge=254 corner=2",
    ),
    // Both edges of vertex 255 leave it to the west.
    (
        (",[508,2]", "[[0,4],[507,4],[507,2]]", ",[]"),
        "embedding vertex=255",
    ),
    // A figure of eight: edge 1 crosses the others at vertex 51, from above to below.
    (
        (",[508,2]", "[[0,0],[100,0],[100,4],[508,4]]", ",[]"),
        "outer",
    ),
    // Edge 1 crosses the others at vertex 51, and again at vertex 101.
    (
        (
            ",[508,2]",
            "[[0,4],[100,4],[100,1],[200,1],[200,4],[508,4]]",
            ",[]",
        ),
        "drawn=meet",
    ),
];

/// The line of the cycle that ends so.
fn line_of(alloc: Global, ends: Ends) -> Result<String, AllocError> {
    let mut line = String::from_str(alloc, "{\"points\":{\"vertices\":[[0,2]")?;
    for place in 1..254_u32 {
        let point = format!(in alloc; ",[{},2]", 2 * place)?;
        line.push_str(point.as_str())?;
    }
    line.push_str(ends.0)?;
    line.push_str("],\"corners\":[[],")?;
    line.push_str(ends.1)?;
    for _ in 2..254_u32 {
        line.push_str(",[]")?;
    }
    line.push_str(ends.2)?;
    line.push_str("]}}")?;
    Ok(line)
}

/// Checks that this is the verdict on the longest cycle and the line that ends so.
fn expect_at<R: AllocGlobal + Wait + Abort>(
    rt: &R,
    ends: Ends,
    verdict: &str,
) -> Result<(), AllocError> {
    let record = longest_cycle(rt.alloc())?;
    let line = line_of(rt.alloc(), ends)?;
    expect_verdict(rt, record.as_slice(), line.as_str().as_bytes(), verdict)
}

/// A drawing of the longest cycle with two bends is right; four of its vertices could be corners, so none is needed.
#[test]
fn the_longest_cycle_is_ok(rt: HostRuntime) -> Result<(), Fail> {
    expect_at(&rt, RIGHT, "ok bends=2 fewest=0")?;
    Ok(())
}

/// Each fault is told with its place among the last of the longest cycle.
#[test]
fn faults_of_the_longest_cycle_are_told(rt: HostRuntime) -> Result<(), Fail> {
    for (ends, verdict) in WRONG.iter() {
        expect_at(&rt, *ends, *verdict)?;
    }
    Ok(())
}
