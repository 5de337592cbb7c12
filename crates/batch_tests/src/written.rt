//! Reports of files in memory. The bytes, the sizes and the texts come from the description of the format
//! and of the report.

use crate::shared::{OF_THREE, THREE_FILES, check_report, check_three, opener_of, plain_batch};
use collector::{
    BatchFault, Cause, Choice, IoSink, MemOpener, ReportLine, WriteFault, run_plain, write_report,
};
use std::alloc::{AllocError, Global};
use std::process::Abort;
use test_tools::records::{
    CUBE, EDGE, HEADER, OCTAHEDRON, SQUARE, STAR, TETRAHEDRON, TETRAHEDRON_ON_A_TORUS, TRIANGLE,
    longest_cycle,
};
use test_tools::{Narrow, same};

/// Records, each with what its line says after the number. The bends of the octahedron, which has six
/// vertices, are the distances of its inner faces from the outer one: 1, 1, 1, 2, 2, 2 and 3.
const RECORDS: [(&[u8], &str); 17] = [
    (EDGE, "ok n=2 m=1 f=1 bends=0 drawn=yes"),
    (b"\x01\x00", "refused edgeless"),
    (b"\x02\x00\x00", "refused edgeless"),
    (TRIANGLE, "ok n=3 m=3 f=2 bends=1 drawn=yes"),
    (TETRAHEDRON, "ok n=4 m=6 f=4 bends=4 drawn=yes"),
    (TETRAHEDRON_ON_A_TORUS, "refused genus"),
    (OCTAHEDRON, "ok n=6 m=12 f=8 bends=12 drawn=yes"),
    (STAR, "ok n=5 m=4 f=1 bends=0 drawn=yes"),
    (
        b"\x06\x02\x03\x04\x05\x06\x00\x01\x00\x01\x00\x01\x00\x01\x00\x01\x00",
        "refused degree",
    ),
    (b"\x02\x03\x00\x01\x00", "refused range"),
    (b"\x02\x02\x00\x00", "refused asymmetric"),
    (b"\x02\x01\x00\x00", "refused loop"),
    (b"\x02\x02\x02\x00\x01\x01\x00", "refused multi"),
    (
        b"\x04\x02\x00\x01\x00\x04\x00\x03\x00",
        "refused disconnected",
    ),
    // A neighbour is out of range, and a vertex is its own neighbour.
    (b"\x02\x03\x00\x02\x00", "refused range"),
    (SQUARE, "ok n=4 m=4 f=2 bends=0 drawn=yes"),
    (CUBE, "ok n=8 m=12 f=6 bends=4 drawn=yes"),
];

/// These parts, one after another.
fn joined(alloc: Global, parts: &[&[u8]]) -> Result<Vec<u8>, AllocError> {
    let mut bytes = Vec::new(alloc);
    for part in parts {
        bytes.extend_from_slice(part)?;
    }
    Ok(bytes)
}

/// Reads these files, a byte or all at a time, and checks the report.
fn check_files<R: AllocGlobal + Abort>(rt: &R, files: &[&[u8]], report: &[u8]) {
    for most in [1, 65_536] {
        let batch = plain_batch(rt.alloc(), files, most, Choice::First).expect(rt, "a batch");
        check_report(rt, &batch, report);
    }
}

/// Reads one file, and checks the lines after its first.
fn check_file<R: AllocGlobal + Abort>(rt: &R, parts: &[&[u8]], lines: &str) {
    let bytes = joined(rt.alloc(), parts).expect(rt, "memory");
    let report = joined(rt.alloc(), &[b"file 1\n", lines.as_bytes()]).expect(rt, "memory");
    check_files(rt, &[bytes.as_slice()], report.as_slice());
}

/// Reads a file of one record, and checks what the record's line says after the number.
fn check_record<R: AllocGlobal + Abort>(rt: &R, bytes: &[u8], said: &str) {
    let bytes = joined(rt.alloc(), &[HEADER, bytes]).expect(rt, "memory");
    let report = joined(
        rt.alloc(),
        &[
            b"file 1\ngraph 1 ",
            said.as_bytes(),
            b"\nend complete graphs=1\n",
        ],
    )
    .expect(rt, "memory");
    check_files(rt, &[bytes.as_slice()], report.as_slice());
}

/// The line of a graph has its sizes or the rule that it breaks.
#[test]
fn tells_sizes_and_rules(rt: HostRuntime) {
    for (bytes, said) in RECORDS {
        check_record(&rt, bytes, said);
    }
}

/// A cycle of 255 vertices is drawn without bends.
#[test]
fn draws_a_cycle_of_most_vertices(rt: HostRuntime) {
    let bytes = longest_cycle(rt.alloc()).expect(&rt, "memory");
    let lines = "graph 1 ok n=255 m=255 f=2 bends=0 drawn=yes\nend complete graphs=1\n";
    check_file(&rt, &[HEADER, bytes.as_slice()], lines);
}

/// Parts of a file, and the lines after the first.
const ENDINGS: [(&[&[u8]], &str); 5] = [
    (&[], "end header graphs=0\n"),
    (&[b">>planar_code<"], "end header graphs=0\n"),
    (&[HEADER], "end complete graphs=0\n"),
    (
        &[HEADER, EDGE, b"\x02\x02\x00\x01"],
        "graph 1 ok n=2 m=1 f=1 bends=0 drawn=yes\nend truncated graphs=1\n",
    ),
    (
        &[HEADER, EDGE, b"\x00"],
        "graph 1 ok n=2 m=1 f=1 bends=0 drawn=yes\nend large graphs=1\n",
    ),
];

/// The last line of a file has its mark and its number of graphs.
#[test]
fn tells_how_a_file_ended(rt: HostRuntime) {
    for (parts, lines) in ENDINGS {
        check_file(&rt, parts, lines);
    }
    let entries = [1u8; 255];
    let cut = [HEADER, &[255], &entries[..254]];
    check_file(&rt, &cut, "end truncated graphs=0\n");
    let long = [HEADER, &[255], &entries];
    check_file(&rt, &long, "end oversize graphs=0\n");
}

/// The report has all files in their order.
#[test]
fn tells_of_all_files_in_order(rt: HostRuntime) {
    check_files(&rt, &THREE_FILES, OF_THREE.as_bytes());
    check_files(&rt, &[], b"");
}

/// The part of the report of three files that fits into ten bytes, and the result.
fn narrow_report(alloc: Global) -> Option<(Narrow, Result<(), WriteFault>)> {
    let batch = plain_batch(alloc, &THREE_FILES, 65_536, Choice::First)?;
    let mut sink = IoSink::new(Narrow::new(10, usize::MAX, true));
    let found = write_report(&batch, &mut sink);
    Some((sink.into_writer(), found))
}

/// A writer that fails holds a beginning of the report.
#[test]
fn writes_a_beginning_before_a_fault(rt: HostRuntime) {
    let (narrow, found) = narrow_report(rt.alloc()).expect(&rt, "a batch");
    same!(&rt, found, Err(WriteFault::Write));
    same!(&rt, narrow.text(), b"file 1\ngra".as_slice());
}

/// The number of books of a run over this many files that do not open, or its fault.
fn books_of_run(alloc: Global, files: u32) -> Result<u32, BatchFault> {
    let opener = MemOpener::new(Vec::new(alloc), 1);
    let batch = run_plain(alloc, &opener, files, Choice::Best)?;
    Ok(batch.files())
}

/// A run takes 256 files, and refuses 257.
#[test]
fn takes_at_most_256_files(rt: HostRuntime) {
    same!(
        &rt,
        books_of_run(rt.alloc(), 257),
        Err(BatchFault::TooManyFiles),
    );
    same!(&rt, books_of_run(rt.alloc(), 256), Ok(256));
}

/// A file that does not open has the mark `io`.
#[test]
fn marks_a_file_that_does_not_open(rt: HostRuntime) {
    let opener = opener_of(rt.alloc(), &[HEADER], 1).expect(&rt, "memory");
    let batch = run_plain(rt.alloc(), &opener, 2, Choice::First).expect(&rt, "a batch");
    let report = b"file 1\nend complete graphs=0\nfile 2\nend io graphs=0\n";
    check_report(&rt, &batch, report);
}

/// Checks the text of a cause.
fn check_cause<R: Abort>(rt: &R, cause: Cause, text: &str) {
    let mut line = ReportLine::new();
    line.push_cause(cause);
    same!(rt, line.as_slice(), text.as_bytes());
}

/// The line of a graph that is not drawn names the cause.
#[test]
fn names_each_cause(rt: HostRuntime) {
    let cases = [
        (Cause::Wide, " drawn=no cause=wide"),
        (Cause::OutOfGrid, " drawn=no cause=outofgrid"),
        (Cause::NotAxis, " drawn=no cause=notaxis"),
        (Cause::WrongTurn, " drawn=no cause=wrongturn"),
        (Cause::Meet, " drawn=no cause=meet"),
    ];
    for (cause, text) in cases {
        check_cause(&rt, cause, text);
    }
}

/// With each allocation refused in turn, at most one entry or the end of one file says that memory ran out.
/// All else is unchanged, or there is no batch.
#[test]
fn names_want_of_memory(rt: HostRuntime) {
    let Ok(opener) = opener_of(rt.alloc(), &THREE_FILES, 4) else {
        return;
    };
    match run_plain(rt.alloc(), &opener, 3, Choice::First) {
        Ok(batch) => {
            let _entries = check_three(&rt, &batch);
        }
        Err(fault) => same!(&rt, fault, BatchFault::Memory),
    }
}
