//! Runs of `frames` on files that the tests write. The bytes and the texts come from the description of the
//! format and of the report.

use crate::shared::{
    Case, Ran, Row, check_failed_write, check_rows, check_said, check_wants, expect_texts,
    make_file, run, run_narrow, words_for,
};
use commands::{Fault, Reason, write_fault};
use std::alloc::{AllocError, Global};
use std::fs;
use std::process::Abort;
use streams::{BatchFault, IoSink, WriteFault};
use test_tools::records::{EDGE, HEADER, TRIANGLE};
use test_tools::{Narrow, same};

/// Parts of a file, the report and the status.
const FILES: [(&[&[u8]], &str, u8); 10] = [
    (&[], "end header records=0\n", 3),
    (&[b">>planar_code<"], "end header records=0\n", 3),
    (&[b">>planar_codeX"], "end header records=0\n", 3),
    (&[HEADER], "end complete records=0\n", 0),
    (
        &[HEADER, EDGE, TRIANGLE],
        "record 1 n=2 bytes=5\nrecord 2 n=3 bytes=10\nend complete records=2\n",
        0,
    ),
    (
        &[HEADER, EDGE, &[2, 2, 0, 1]],
        "record 1 n=2 bytes=5\nend truncated records=1\n",
        3,
    ),
    (
        &[HEADER, EDGE, &[0]],
        "record 1 n=2 bytes=5\nend large records=1\n",
        3,
    ),
    (
        &[HEADER, EDGE, &[0, 2]],
        "record 1 n=2 bytes=5\nend large records=1\n",
        3,
    ),
    (&[HEADER, &[255], &[1; 254]], "end truncated records=0\n", 3),
    (&[HEADER, &[255], &[1; 255]], "end oversize records=0\n", 3),
];

/// The report has a line for each record, and one for the end of the file.
#[test]
fn reports_records_and_the_ending(rt: HostRuntime) {
    for (parts, report, status) in FILES {
        make_file(&rt, "case.pc", parts);
        check_rows(&rt, &[("frames case.pc", report, status)]);
    }
}

/// The header and a million records of one vertex.
fn million_records(alloc: Global) -> Result<Vec<u8>, AllocError> {
    let mut bytes = HEADER.to_vec(alloc)?;
    for _ in 0..1_000_000 {
        bytes.extend_from_slice(&[1, 0])?;
    }
    Ok(bytes)
}

/// The end of a run's report, and its status.
fn expect_end(rt: &impl Abort, ran: &Ran<Vec<u8>>, end: &[u8], status: u8) {
    let is_end = ran.out.as_slice().ends_with(end);
    same!(rt, (is_end, ran.status), (true, status));
}

/// A file may have a million records, and reading stops at a byte after them.
#[test]
fn stops_after_a_million_records(rt: HostRuntime) {
    let bytes = million_records(rt.alloc()).expect(&rt, "memory");
    make_file(&rt, "million.pc", &[bytes.as_slice()]);
    let complete = b"\nrecord 1000000 n=1 bytes=2\nend complete records=1000000\n";
    expect_end(&rt, &run(&rt, "frames million.pc"), complete, 0);
    make_file(&rt, "million.pc", &[bytes.as_slice(), &[1]]);
    let many = b"\nrecord 1000000 n=1 bytes=2\nend many records=1000000\n";
    expect_end(&rt, &run(&rt, "frames million.pc"), many, 3);
}

const UNREAD: &str = "end io records=0\n";

const CANNOT_BE_READ: [Row; 3] = [
    ("frames frames_folder", UNREAD, 3),
    ("frames missing.pc", UNREAD, 3),
    ("frames frames_folder/missing.pc", UNREAD, 3),
];

/// A file that cannot be read has the mark `io`.
#[test]
fn marks_what_cannot_be_read(rt: HostRuntime) {
    fs::create_dir_all(&rt, "frames_folder").expect(&rt, "a folder");
    check_rows(&rt, &CANNOT_BE_READ);
}

/// Command lines that are refused, and a part of the message for each.
const REFUSED: [(&str, &str); 4] = [
    ("", "Usage: planarbend <COMMAND>\n"),
    ("bend", "error: unrecognized subcommand 'bend'\n"),
    ("frames", "were not provided:\n  <FILE>\n"),
    ("frames a b", "unexpected argument 'b' found\n"),
];

const ONE: &str = "Example:\n  planarbend frames examples/two.pc\n";

const ALL: &str = "Examples:\n  planarbend layout examples/two.pc\n";

/// Ways to ask for help, and a part of its text.
const HELP: [(&str, &str); 4] = [
    ("frames --help", ONE),
    ("help frames", ONE),
    ("--help frames", ALL),
    ("--help layout", ALL),
];

/// Invalid command lines of `frames` are refused with status 2, and its help is shown.
#[test]
fn answers_command_lines(rt: HostRuntime) {
    check_said(&rt, &REFUSED, 2);
    check_said(&rt, &HELP, 0);
}

const REPORT: &str = "record 1 n=2 bytes=5\nend complete records=1\n";

/// `frames` on a file of one edge.
const ONE_EDGE: Case = Case {
    line: "frames case.pc",
    file: "case.pc",
    parts: &[HEADER, EDGE],
    report: REPORT,
    wants: &[b"end memory records=0\n"],
    may_begin: false,
};

/// A failed write of the report leaves a beginning of it, and the fault is printed.
#[test]
fn names_a_failed_write(rt: HostRuntime) {
    let words = words_for(&rt, &ONE_EDGE).expect(&rt, "a file");
    for room in 0..REPORT.len() {
        check_failed_write(&rt, words.as_slice(), &REPORT.as_bytes()[..room]);
    }
    let ran = run_narrow(&rt, words.as_slice(), 64, 0);
    expect_texts(&rt, &ran, 0, REPORT.as_bytes(), b"");
    same!(&rt, run_narrow(&rt, words.as_slice(), 0, 0).status, 1);
}

const MEMORY: &[u8] = b"planarbend: out of memory\n";

/// Each fault, its line and its status.
const FAULTS: [(Fault, &[u8], u8); 10] = [
    (Fault::Memory, MEMORY, 1),
    (
        Fault::NotText(2),
        b"planarbend: argument 2 is not valid UTF-8, as the name of a file must be\n",
        2,
    ),
    (
        Fault::BadWaiting,
        b"planarbend: waiting must be 1 to 65536\n",
        2,
    ),
    (
        Fault::Run(BatchFault::TooManyFiles),
        b"planarbend: more than 256 files\n",
        2,
    ),
    (
        Fault::Run(BatchFault::BadLanes),
        b"planarbend: lanes must be 1 to 8\n",
        2,
    ),
    (Fault::Run(BatchFault::Memory), MEMORY, 1),
    (
        Fault::Run(BatchFault::LaneLost),
        b"planarbend: internal error: a worker thread disconnected\n",
        1,
    ),
    (
        Fault::Run(BatchFault::Thread),
        b"planarbend: cannot start a thread\n",
        1,
    ),
    (
        Fault::Write(WriteFault::Write),
        b"planarbend: cannot write output\n",
        1,
    ),
    (Fault::Write(WriteFault::Memory), MEMORY, 1),
];

/// The line of a fault.
fn line_of(fault: Fault) -> Narrow {
    let mut err = IoSink::new(Narrow::new(80, usize::MAX, true));
    write_fault(fault, Reason::UNKNOWN, &mut err);
    err.into_writer()
}

/// Each fault has its line and its status.
#[test]
fn tells_each_fault_in_a_line(rt: HostRuntime) {
    for (fault, line, status) in FAULTS {
        same!(&rt, line_of(fault).text(), line);
        same!(&rt, fault.status(), status);
    }
}

/// With each allocation refused in turn, `frames` writes its report or says what ran out of memory.
#[test]
fn names_want_of_memory(rt: HostRuntime) {
    check_wants(&rt, &ONE_EDGE);
}
