//! Failing sources, files that do not open, and narrow writers: what came before a failure stays.

use crate::reported::{EDGES, Files, QUICK, REPORT, THREE, written};
use collector::{
    Batch, BatchFault, Choice, IoSink, OpenFault, OpenGate, WriteFault, run_batch, run_plain,
    write_report,
};
use std::process::Abort;
use std::sync::Wait;
use std::thread::Threads;
use test_tools::{Narrow, same};

/// Writes the report of a batch to a writer with this much room; returns how that ended, and the writer.
fn report_in(
    batch: &Batch,
    room: usize,
    most: usize,
    fails: bool,
) -> (Result<(), WriteFault>, Narrow) {
    let mut sink = IoSink::new(Narrow::new(room, most, fails));
    let ended = write_report(batch, &mut sink);
    (ended, sink.into_writer())
}

/// Checks the report of runs over this many files: of books on one thread and over two lanes, and as streamed output.
fn check<R: AllocGlobal + Threads + Wait + Sync + Abort>(
    rt: &R,
    opener: &Files,
    files: u32,
    report: &[u8],
) {
    let (alloc, choice) = (rt.alloc(), Choice::First);
    let plain = run_plain(alloc, opener, files, choice).expect(rt, "a batch");
    same!(rt, report_in(&plain, 211, 211, true).1.text(), report);
    let lanes = run_batch(rt, alloc, opener, files, 2, 1, choice, &OpenGate).expect(rt, "a batch");
    same!(rt, report_in(&lanes, 211, 211, true).1.text(), report);
    let room = (211, 211);
    let (_, text) = written(rt, opener, files, 2, QUICK, &OpenGate, room);
    same!(rt, text.text(), report);
}

/// The reports of these two edges after a failing read: no record came before it, or one, or both.
const OF_EDGES: [&[u8]; 3] = [
    b"file 1\nend io graphs=0\n",
    b"file 1\ngraph 1 ok n=2 m=1 f=1 bends=0 drawn=yes\nend io graphs=1\n",
    b"file 1\ngraph 1 ok n=2 m=1 f=1 bends=0 drawn=yes\ngraph 2 ok n=2 m=1 f=1 bends=0 drawn=yes\nend io graphs=2\n",
];

/// The records that were read before a failing read are reported.
#[test]
fn records_before_a_failing_read_stay(rt: HostRuntime) {
    for reads in 0..=25 {
        let opener = Files {
            files: &[EDGES],
            fault: None,
            reads,
        };
        let whole = match reads {
            0..20 => 0,
            20..25 => 1,
            _ => 2,
        };
        check(&rt, &opener, 1, OF_EDGES[whole]);
    }
}

const WITHOUT_THE_SECOND: [&[u8]; 2] = [
    b"file 1\ngraph 1 ok n=3 m=3 f=2 bends=1 drawn=yes\ngraph 2 ok n=3 m=3 f=2 bends=1 drawn=yes\nend complete graphs=2\n\
    file 2\nend io graphs=0\nfile 3\nend complete graphs=0\n",
    b"file 1\ngraph 1 ok n=3 m=3 f=2 bends=1 drawn=yes\ngraph 2 ok n=3 m=3 f=2 bends=1 drawn=yes\nend complete graphs=2\n\
    file 2\nend memory graphs=0\nfile 3\nend complete graphs=0\n",
];

/// Files after a refused one are reported, and so are the records before a fault.
/// The read that would fail is the one after the faulty byte.
#[test]
fn other_files_than_a_refused_one_stay(rt: HostRuntime) {
    let large = Files {
        files: &[b">>planar_code<<\x02\x02\x00\x01\x00\x00"],
        fault: None,
        reads: 21,
    };
    let of_large = b"file 1\ngraph 1 ok n=2 m=1 f=1 bends=0 drawn=yes\nend large graphs=1\n";
    check(&rt, &large, 1, of_large);
    let faults = [OpenFault::Io, OpenFault::Memory];
    for (fault, report) in faults.into_iter().zip(WITHOUT_THE_SECOND) {
        let opener = Files {
            fault: Some(fault),
            ..THREE
        };
        check(&rt, &opener, 3, report);
    }
}

/// Checks that the writer took all of the report, or the first `room` bytes before it failed.
fn check_writer(rt: &impl Abort, batch: &Batch, room: usize, most: usize, fails: bool) {
    let (ended, writer) = report_in(batch, room, most, fails);
    same!(rt, writer.text(), &REPORT[..room.min(211)]);
    same!(rt, ended.is_ok(), room >= 211);
}

/// A writer that fails, or takes nothing more, holds a beginning of the report.
/// Writers of every room are tried, some of which take one byte a write; those with enough room take every number of
/// bytes a write.
#[test]
fn a_beginning_is_written_before_a_fault(rt: HostRuntime) {
    let batch = run_plain(rt.alloc(), &THREE, 3, Choice::First).expect(&rt, "a batch");
    for room in 0..=211 {
        check_writer(&rt, &batch, room, usize::MAX, true);
        check_writer(&rt, &batch, room, usize::MAX, false);
        check_writer(&rt, &batch, room, 1, true);
        check_writer(&rt, &batch, 211, room + 1, true);
    }
}

/// Writing a report takes no memory, nor does refusing bad numbers.
/// `checks/refuse-allocations` refuses each allocation of this test in turn.
#[test]
fn reports_take_no_memory(rt: HostRuntime) {
    let (alloc, choice) = (rt.alloc(), Choice::First);
    let many = run_plain(alloc, &THREE, 257, choice).err();
    same!(&rt, many, Some(BatchFault::TooManyFiles));
    let lanes = run_batch(&rt, alloc, &THREE, 3, 9, 1, choice, &OpenGate).err();
    same!(&rt, lanes, Some(BatchFault::BadLanes));
    if let Ok(batch) = run_plain(alloc, &THREE, 3, choice) {
        let (ended, writer) = report_in(&batch, 211, 211, true);
        same!(&rt, ended, Ok(()));
        same!(&rt, writer.text().starts_with(b"file 1\n"), true);
    }
}
