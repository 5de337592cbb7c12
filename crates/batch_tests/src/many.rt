//! Runs over many files. How long the reports are is counted from the description of the report.
ghost use Rattle.std.specs.Prelude.{◌≤◌};
ghost use Rattle.ruled_lanes.specs.declared.channel.TheConstants.{MAX_CAPACITY};

use crate::shared::{opener_of, report_of, text_of_lanes};
use collector::{
    Choice, Form, IoSink, MAX_LANES, MemOpener, OpenGate, run_batch, run_plain, write_json,
};
use ruled_lanes::MAX_CAPACITY;
use std::alloc::{AllocError, Global};
use std::process::Abort;
use std::sync::Wait;
use std::thread::Threads;
use test_tools::same;

const TRIANGLE: &[u8] = b">>planar_code<<\x03\x02\x03\x00\x03\x01\x00\x01\x02\x00";

/// This many files of one triangle each.
fn triangles(alloc: Global, count: u32) -> Result<MemOpener, AllocError> {
    let mut files = Vec::new(alloc);
    for _ in 0..count {
        files.push(TRIANGLE.to_vec(alloc)?)?;
    }
    Ok(MemOpener::new(files, 1))
}

/// The report of a run on one thread.
fn report_of_plain(alloc: Global, opener: &MemOpener, files: u32) -> Option<Vec<u8>> {
    let batch = run_plain(alloc, opener, files, Choice::First).ok()?;
    report_of(alloc, &batch).ok()
}

/// The report of a run over lanes.
fn report_of_lanes<R: AllocGlobal + Threads + Wait + Sync>(
    rt: &R,
    opener: &MemOpener,
    files: u32,
    lanes: u32,
    capacity: u32,
) -> Option<Vec<u8>>
    requires capacity { (1 ≤ capacity) × (capacity ≤ MAX_CAPACITY) }
{
    let alloc = rt.alloc();
    let choice = Choice::First;
    let batch = run_batch(rt, alloc, opener, files, lanes, capacity, choice, &OpenGate).ok()?;
    report_of(alloc, &batch).ok()
}

/// Checks that the report of a run over lanes is this one.
fn check_lanes<R: AllocGlobal + Threads + Wait + Sync + Abort>(
    rt: &R,
    opener: &MemOpener,
    files: u32,
    lanes: u32,
    capacity: u32,
    report: &[u8],
)
    requires capacity { (1 ≤ capacity) × (capacity ≤ MAX_CAPACITY) }
{
    let found = report_of_lanes(rt, opener, files, lanes, capacity).expect(rt, "a report");
    assert!(rt; found.as_slice() == report, "{lanes}");
}

/// The report of 64 files is the same on one thread and over any number of lanes.
#[test]
fn reports_64_files_the_same_over_lanes(rt: HostRuntime) {
    let opener = triangles(rt.alloc(), 64).expect(&rt, "memory");
    let report = report_of_plain(rt.alloc(), &opener, 64).expect(&rt, "a report");
    same!(&rt, report.len(), 4_535);
    for lanes in 1..=MAX_LANES {
        for capacity in [1, MAX_CAPACITY] {
            check_lanes(&rt, &opener, 64, lanes, capacity, report.as_slice());
        }
    }
}

/// An edge, the complete graph on four vertices with a rotation of another surface, two separate edges, a triangle, and
/// a record that is cut off.
const MIXED: &[u8] = b">>planar_code<<\x02\x02\x00\x01\x00\
    \x04\x03\x04\x02\x00\x01\x04\x03\x00\x02\x04\x01\x00\x01\x02\x03\x00\
    \x04\x02\x00\x01\x00\x04\x00\x03\x00\
    \x03\x02\x03\x00\x03\x01\x00\x01\x02\x00\
    \x02\x00";

const OF_MIXED: &[u8] = b"file 1\n\
    graph 1 ok n=2 m=1 f=1 bends=0 drawn=yes\n\
    graph 2 refused genus\n\
    graph 3 refused disconnected\n\
    graph 4 ok n=3 m=3 f=2 bends=1 drawn=yes\n\
    end truncated graphs=4\n";

/// One file over four lanes, read two bytes at a time, has its report.
#[test]
fn reports_one_file_over_four_lanes(rt: HostRuntime) {
    let opener = opener_of(rt.alloc(), &[MIXED], 2).expect(&rt, "memory");
    check_lanes(&rt, &opener, 1, 4, 1, OF_MIXED);
}

/// This many files, in turn of one triangle, of graphs of several kinds, and without a header.
fn different(alloc: Global, count: u32) -> Result<MemOpener, AllocError> {
    let kinds: [&[u8]; 3] = [TRIANGLE, MIXED, b"planar_code"];
    let mut files = Vec::new(alloc);
    for place in 0..count {
        files.push(kinds[(place % 3) as usize].to_vec(alloc)?)?;
    }
    Ok(MemOpener::new(files, 7))
}

/// The JSON lines of the books of a run on one thread.
fn lines_of_books(alloc: Global, opener: &MemOpener, files: u32) -> Option<Vec<u8>> {
    let batch = run_plain(alloc, opener, files, Choice::First).ok()?;
    let mut sink = IoSink::new(Vec::new(alloc));
    write_json(alloc, &batch, &mut sink).ok()?;
    Some(sink.into_writer())
}

/// JSON Lines of quick drawings, streamed over any number of lanes, are those of the books of one thread.
#[test]
fn json_lines_are_those_of_books(rt: HostRuntime) {
    let opener = different(rt.alloc(), 48).expect(&rt, "memory");
    let due = lines_of_books(rt.alloc(), &opener, 48).expect(&rt, "lines");
    let lines = due.as_slice().split(|byte| *byte == b'\n').count();
    same!(&rt, lines, 16 * 2 + 16 * 5 + 16 + 1);
    let (choice, form) = (Choice::First, Form::Json);
    for lanes in 1..=MAX_LANES {
        let found = text_of_lanes(&rt, &opener, 48, lanes, choice, form, &OpenGate);
        let found = found.expect(&rt, "a text");
        same!(&rt, found.as_slice() == due.as_slice(), true);
    }
}

/// The report of 256 files is the same on one thread and over eight lanes.
#[test]
fn reports_256_files_the_same_over_eight_lanes(rt: HostRuntime) {
    let opener = triangles(rt.alloc(), 256).expect(&rt, "memory");
    let report = report_of_plain(rt.alloc(), &opener, 256).expect(&rt, "a report");
    same!(&rt, report.len(), 18_324);
    check_lanes(&rt, &opener, 256, 8, 1, report.as_slice());
}
