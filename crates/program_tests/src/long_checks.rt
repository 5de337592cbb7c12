//! Long runs of `check`: many records, many lines without a record, and lines of the greatest length. The reports are
//! written by hand, as `docs/CHECK.md` defines them.

use crate::shared::{expect_report, make_file, run};
use std::alloc::{AllocError, Global};
use test_tools::records::{EDGE, HEADER};

/// The number of records.
const RECORDS: usize = 1200;

/// The number of lines after those of the records.
const SURPLUS: usize = 1100;

/// The greatest length of a line.
const LONGEST: usize = 4_000_000;

/// A drawing of the edge, without the last byte of its line.
const DRAWING: &[u8] = b"{\"points\":{\"vertices\":[[0,0],[5,0]],\"corners\":[[]]}";

/// The header, and this many records of the edge.
fn edges(alloc: Global, count: usize) -> Result<Vec<u8>, AllocError> {
    let mut bytes = HEADER.to_vec(alloc)?;
    for _ in 0..count {
        bytes.extend_from_slice(EDGE)?;
    }
    Ok(bytes)
}

/// This many lines of this length, each with a drawing of the edge.
fn drawings(alloc: Global, count: usize, len: usize) -> Result<Vec<u8>, AllocError> {
    let mut lines = Vec::new(alloc);
    for _ in 0..count {
        lines.extend_from_slice(DRAWING)?;
        for _ in DRAWING.len() + 1..len {
            lines.push(b' ')?;
        }
        lines.extend_from_slice(b"}\n")?;
    }
    Ok(lines)
}

/// The report on as many drawings of the edge as there are records.
fn all_ok(alloc: Global) -> Result<String, AllocError> {
    let mut report = String::new(alloc);
    for number in 1..=RECORDS {
        report.push_str(format!(in alloc; "graph {number} ok bends=0 fewest=0\n")?.as_str())?;
    }
    report.push_str(format!(in alloc;
        "end complete graphs={RECORDS} surplus={SURPLUS}\n"
    )?.as_str())?;
    Ok(report)
}

/// Records and lines after the thousandth are judged and counted as those before it.
#[test]
fn judges_more_than_a_thousand_lines(rt: HostRuntime) {
    let alloc = rt.alloc();
    let graphs = edges(alloc, RECORDS).expect(&rt, "memory");
    let lines = drawings(alloc, RECORDS + SURPLUS, 0).expect(&rt, "memory");
    make_file(&rt, "many.pc", &[graphs.as_slice()]);
    make_file(&rt, "many.jsonl", &[lines.as_slice()]);
    let report = all_ok(alloc).expect(&rt, "memory");
    expect_report(
        &rt,
        &run(&rt, "check many.pc many.jsonl"),
        report.as_bytes(),
        4,
    );
}

/// A line of the greatest length is judged, and a longer one is malformed.
#[test]
fn judges_lines_of_four_million_bytes(rt: HostRuntime) {
    let alloc = rt.alloc();
    let graphs = edges(alloc, 2).expect(&rt, "memory");
    let longest = drawings(alloc, 1, LONGEST).expect(&rt, "memory");
    let longer = drawings(alloc, 1, LONGEST + 1).expect(&rt, "memory");
    make_file(&rt, "two.pc", &[graphs.as_slice()]);
    make_file(&rt, "long.jsonl", &[longest.as_slice(), longer.as_slice()]);
    let report = b"graph 1 ok bends=0 fewest=0\n\
        graph 2 line=malformed\n\
        end complete graphs=2 surplus=0\n";
    expect_report(&rt, &run(&rt, "check two.pc long.jsonl"), report, 4);
}
