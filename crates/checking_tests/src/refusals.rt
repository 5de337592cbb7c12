//! Lines and records that are refused, and claims that do not hold.

use crate::reports::expect_verdict;
use std::test::Fail;
use test_tools::records::EDGE;

/// Lines of an edge, and their verdicts.
const LINES: [(&str, &str); 24] = [
    ("", "line=malformed"),
    ("7", "line=malformed"),
    ("{\"points\":", "line=malformed"),
    ("{}", "line=points"),
    ("[]", "line=malformed"),
    ("{\"points\":null}", "line=points"),
    ("{\"points\":{\"vertices\":[]}}", "line=points"),
    (
        "{\"points\":{\"vertices\":[[1,2,3]],\"corners\":[]}}",
        "line=points",
    ),
    (
        "{\"points\":{\"vertices\":[[4294967296,2]],\"corners\":[]}}",
        "line=range",
    ),
    (
        "{\"points\":{\"vertices\":[],\"corners\":[[[1,\"2\"]]]}}",
        "line=range",
    ),
    (
        "{\"points\":{\"vertices\":[[0,0],[5]],\"corners\":[[]]}}",
        "line=points",
    ),
    (
        "{\"points\":{\"vertices\":[[0,0],[5,0.5]],\"corners\":[[]]}}",
        "line=range",
    ),
    (
        "{\"points\":{\"vertices\":[[0,0],[5,0]],\"corners\":[[]]},\"angles\":3}",
        "line=angles",
    ),
    (
        "{\"points\":{\"vertices\":[[0,0],[5,0]],\"corners\":[[]]},\"angles\":[256]}",
        "line=range",
    ),
    (
        "{\"points\":{\"vertices\":[[0,0],[5,0]],\"corners\":[[]]},\"turns\":[\"X\",\"\"]}",
        "line=turns",
    ),
    (
        "{\"points\":{\"vertices\":[[0,0],[5,0]],\"corners\":[[]]},\"prices\":{}}",
        "line=prices",
    ),
    (
        "{\"points\":{\"vertices\":[[0,0],[5,0]],\"corners\":[[]]},\"bends\":-1}",
        "line=range",
    ),
    (
        "{\"points\":{\"vertices\":[[0,0],[5,0]],\"corners\":[[]]},\"turns\":\"R\"}",
        "line=turns",
    ),
    (
        "{\"points\":{\"vertices\":[[0,0],[5,0]],\"corners\":[[]]},\"bends\":\"1\"}",
        "line=range",
    ),
    // A fault of the format is reported before a fault of the points.
    (
        "{\"points\":{\"vertices\":[[0,0]],\"corners\":[[]]},\"outer\":65536}",
        "line=range",
    ),
    (
        "{\"points\":{\"vertices\":[[0,0],[5,0]],\"corners\":[[]]},\"bends\":1,\"angles\":[4,3]}",
        "claim=angles",
    ),
    (
        "{\"points\":{\"vertices\":[[0,0],[5,0]],\"corners\":[[]]},\"angles\":[4,4],\"turns\":[\"L\",\"R\"]}",
        "claim=turns",
    ),
    (
        "{\"points\":{\"vertices\":[[0,0],[5,0]],\"corners\":[[]]},\"turns\":[\"\",\"\"],\"bends\":1}",
        "claim=bends",
    ),
    (
        "{\"points\":{\"vertices\":[[0,0],[5,0]],\"corners\":[[]]},\"bends\":0,\"outer\":1}",
        "claim=outer",
    ),
];

/// The line of an edge that is right.
const RIGHT: &str = "{\"points\":{\"vertices\":[[0,0],[5,0]],\"corners\":[[]]}}";

/// Records that break a rule, and their verdicts.
const RECORDS: [(&[u8], &str); 4] = [
    (&[1, 1, 0], "refused loop"),
    (&[1, 0], "refused edgeless"),
    (&[2, 3, 0, 1, 0], "refused range"),
    (&[3, 2, 0, 1, 0, 0], "refused disconnected"),
];

/// Lines with a fault have the verdict that names it.
#[test]
fn lines_are_refused(rt: HostRuntime) -> Result<(), Fail> {
    for (line, verdict) in LINES.iter() {
        // An empty text has no line, and an empty line is ended by a byte 0A.
        let mut text = line.as_bytes().to_vec(rt.alloc())?;
        text.extend_from_slice(b"\n")?;
        expect_verdict(&rt, EDGE, text.as_slice(), *verdict)?;
    }
    Ok(())
}

/// Records that break a rule are refused with it.
#[test]
fn records_are_refused(rt: HostRuntime) -> Result<(), Fail> {
    for (record, verdict) in RECORDS.iter() {
        expect_verdict(&rt, *record, RIGHT.as_bytes(), *verdict)?;
    }
    Ok(())
}

/// The line of an end belongs to no record.
#[test]
fn ends_are_left_out(rt: HostRuntime) -> Result<(), Fail> {
    let mut text = b"{\"end\":\"complete\",\"file\":1,\"graphs\":2}\n".to_vec(rt.alloc())?;
    text.extend_from_slice(RIGHT.as_bytes())?;
    expect_verdict(&rt, EDGE, text.as_slice(), "ok bends=0 fewest=0")?;
    Ok(())
}
