//! The longest line.

use crate::reports::expect_verdict;
use std::alloc::{AllocError, Global};
use test_tools::records::EDGE;

/// The bytes of the longest line, without its end.
const LONGEST: usize = 4_000_000;

/// The corners of the line's only edge: with them it has 601,000 bytes, 58 with one corner and 6 for each further one.
const CORNERS: usize = 100_158;

/// What fills up the line.
const BLANKS: [u8; 1000] = [b' '; 1000];

/// The longest line: an edge with all its corners at (7,9), but for the last, which has one number, and spaces.
fn longest_line(alloc: Global) -> Result<Vec<u8>, AllocError> {
    let mut line = Vec::new(alloc);
    line.extend_from_slice(b"{\"points\":{\"vertices\":[[0,0],[5,0]],\"corners\":[[")?;
    for _ in 1..CORNERS {
        line.extend_from_slice(b"[7,9],")?;
    }
    line.extend_from_slice(b"[ 89]")?;
    for _ in 0..3399 {
        line.extend_from_slice(&BLANKS)?;
    }
    line.extend_from_slice(b"]]}} ")?;
    Ok(line)
}

/// The longest line is read to its end, where the only wrong point is.
#[test]
fn the_longest_line_is_read(rt: HostRuntime) -> Result<(), AllocError> {
    let line = longest_line(rt.alloc())?;
    assert!(rt; line.len() == LONGEST);
    expect_verdict(&rt, EDGE, line.as_slice(), "line=points")
}
