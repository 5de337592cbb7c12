//! Runs over sources in memory, sources that fail, and writers that take little. The bytes and the
//! texts come from the description of the format and of the report.
ghost use Rattle.std.specs.Prelude.{◌<◌, ◌≤◌};
ghost use Rattle.ruled_lanes.specs.declared.channel.TheConstants.{MAX_CAPACITY};

use collector::run_frames;
use planar_code::Ending;
use std::process::Abort;
use std::sync::Wait;
use std::sync::atomic::{AtomicU32, Ordering};
use std::thread::Threads;
use streams::{BatchFault, Frames, IoSink, Mark, MemTap, WriteFault, write_frames};
use test_tools::{Failing, Narrow, same};

const EDGES: &[u8] = b">>planar_code<<\x02\x02\x00\x01\x00\x02\x02\x00\x01\x00";

const BOTH: &[u8] = b">>planar_code<<\x02\x02\x00\x01\x00\x03\x02\x03\x00\x03\x01\x00\x01\x02\x00";

/// What is found in these bytes, read in pieces of at most this many, over a link of this capacity.
fn found_in<R: AllocGlobal + Threads + Wait + Sync>(
    rt: &R,
    capacity: u32,
    bytes: &[u8],
    most: usize,
) -> Option<Frames>
    requires capacity { (1 ≤ capacity) × (capacity ≤ MAX_CAPACITY) }
    requires most { 0 < most }
{
    let source = MemTap::new(bytes.to_vec(rt.alloc()).ok()?, most);
    run_frames(rt, rt.alloc(), source, capacity).ok()
}

/// Reads these bytes in pieces of several sizes, over links of several capacities, and checks the report of what was
/// found.
fn check<R: AllocGlobal + Threads + Wait + Sync + Abort>(rt: &R, bytes: &[u8], report: &str) {
    for capacity in [1, 2, 64] {
        for most in [1, 2, 7, 65_536] {
            let found = found_in(rt, capacity, bytes, most).expect(rt, "an answer");
            let narrow = Narrow::new(80, 80, true);
            check_writer(rt, &found, narrow, Ok(()), report.as_bytes());
        }
    }
}

const ENDINGS: [(&[u8], &str); 7] = [
    (b"", "end header records=0\n"),
    (b">>planar_code<", "end header records=0\n"),
    (b">>planar_codeX", "end header records=0\n"),
    (b">>planar_code<<", "end complete records=0\n"),
    (
        BOTH,
        "record 1 n=2 bytes=5\nrecord 2 n=3 bytes=10\nend complete records=2\n",
    ),
    (
        b">>planar_code<<\x02\x02\x00\x01\x00\x02\x02\x00\x01",
        "record 1 n=2 bytes=5\nend truncated records=1\n",
    ),
    (
        b">>planar_code<<\x02\x02\x00\x01\x00\x00\x02",
        "record 1 n=2 bytes=5\nend large records=1\n",
    ),
];

/// The report does not depend on the size of the pieces read or on the capacity of the link.
#[test]
fn finds_the_same_in_pieces_of_every_size(rt: HostRuntime) {
    for (bytes, report) in ENDINGS {
        check(&rt, bytes, report);
    }
    let mut long = [1u8; 271];
    long[..15].copy_from_slice(b">>planar_code<<");
    long[15] = 255;
    check(&rt, &long[..270], "end truncated records=0\n");
    check(&rt, &long, "end oversize records=0\n");
}

/// The number of records found in these bytes if the source fails at a read, the mark, and the number of reads.
fn found_before<R: AllocGlobal + Threads + Wait + Sync>(
    rt: &R,
    bytes: &'static [u8],
    fails_at: u32,
) -> Option<(usize, Mark, u32)> {
    let reads = AtomicU32::new(0);
    let source = Failing {
        bytes,
        fails_at,
        reads: &reads,
    };
    let found = run_frames(rt, rt.alloc(), source, 1).ok()?;
    let count = found.records().len();
    Some((count, found.mark(), reads.load(Ordering::SeqCst)))
}

/// The records that were read before a failing read are kept.
#[test]
fn keeps_what_came_before_a_failing_read(rt: HostRuntime) {
    for fails_at in 0..26u32 {
        let count = if fails_at < 20 { 0 } else { fails_at / 5 - 3 };
        let found = found_before(&rt, EDGES, fails_at);
        let wanted = (count as usize, Mark::Io, fails_at + 1);
        same!(&rt, found, Some(wanted));
    }
}

/// A source is read once for each byte up to the faulty one, and not again.
#[test]
fn reads_once_up_to_a_fault(rt: HostRuntime) {
    let bytes = b">>planar_code<<\x02\x02\x00\x01\x00\x00\x02\x02\x00\x01\x00";
    let found = found_before(&rt, bytes, 21);
    same!(&rt, found, Some((1, Mark::Ended(Ending::Large), 21)));
}

/// Writes what was found into a writer, and checks the result and what is written.
fn check_writer(
    rt: &impl Abort,
    found: &Frames,
    narrow: Narrow,
    answer: Result<(), WriteFault>,
    text: &[u8],
) {
    let mut sink = IoSink::new(narrow);
    same!(rt, write_frames(found, &mut sink), answer);
    let written = sink.into_writer();
    same!(rt, written.text(), text);
}

const OF_AN_EDGE: &[u8] = b"record 1 n=2 bytes=5\nend complete records=1\n";

/// Checks that a writer that takes this many bytes a write holds a beginning if it fails or takes nothing, and
/// otherwise the whole text.
fn check_most(rt: &impl Abort, found: &Frames, most: usize) {
    for fails in [false, true] {
        for room in 0..OF_AN_EDGE.len() {
            let narrow = Narrow::new(room, most, fails);
            let fault = Err(WriteFault::Write);
            check_writer(rt, found, narrow, fault, &OF_AN_EDGE[..room]);
        }
    }
    let narrow = Narrow::new(OF_AN_EDGE.len(), most, true);
    check_writer(rt, found, narrow, Ok(()), OF_AN_EDGE);
}

/// A writer that fails holds a beginning of the text.
#[test]
fn writes_a_beginning_before_a_fault(rt: HostRuntime) {
    let found = found_in(&rt, 1, &EDGES[..20], 9).expect(&rt, "an answer");
    for most in [1, 10, 64] {
        check_most(&rt, &found, most);
    }
}

/// Checks that the mark says that memory ran out after a beginning of two records, or that the file has both.
fn check_records(rt: &impl Abort, found: &Frames) {
    match found.mark() {
        Mark::Ended(Ending::Memory) => assert!(rt; found.records().len() < 2),
        mark => same!(
            rt,
            (mark, found.records().len()),
            (Mark::Ended(Ending::Complete), 2),
        ),
    }
    check_lines(rt, found);
}

/// Checks that the report is written without taking memory.
fn check_lines(rt: &impl Abort, found: &Frames) {
    let mut sink = IoSink::new(Narrow::new(80, 80, true));
    same!(rt, write_frames(found, &mut sink), Ok(()));
    same!(rt, sink.into_writer().text().ends_with(b"\n"), true);
}

/// With each allocation refused in turn, a run ends in a mark or a fault that says that memory ran out.
/// If it ran out while a thread was started or an end was dropped, the fault may name that instead.
#[test]
fn names_want_of_memory(rt: HostRuntime) {
    let Ok(bytes) = BOTH.to_vec(rt.alloc()) else {
        return;
    };
    match run_frames(&rt, rt.alloc(), MemTap::new(bytes, 4), 1) {
        Ok(found) => check_records(&rt, &found),
        Err(fault) => assert!(rt;
            fault != BatchFault::TooManyFiles && fault != BatchFault::BadLanes
        ),
    }
}
