//! Streamed output: its bytes, narrow writers, and refused allocations.

use crate::reported::{QUICK, REPORT, SHORT, THREE, written};
use collector::{BatchFault, MAX_LANES, OpenGate, Style};
use commands::Fault;
use std::process::Abort;
use std::sync::Wait;
use std::thread::Threads;
use streams::WriteFault;
use test_tools::same;

/// Checks that the writer took all of the report of three files, or the first `room` bytes before it failed.
/// The run has this many lanes and this style.
fn check_writer<R: AllocGlobal + Threads + Wait + Sync + Abort>(
    rt: &R,
    lanes: u32,
    style: Style,
    room: usize,
    most: usize,
) {
    let (ended, writer) = written(rt, &THREE, 3, lanes, style, &OpenGate, (room, most));
    same!(rt, writer.text(), &REPORT[..room.min(211)]);
    let due = if room < 211 {
        Err(Fault::Write(WriteFault::Write))
    } else {
        Ok(3)
    };
    same!(rt, ended, due);
}

/// The report has the files in their order over any number of lanes, whichever drawings are made.
#[test]
fn files_come_in_their_order(rt: HostRuntime) {
    for lanes in 1..=MAX_LANES {
        check_writer(&rt, lanes, QUICK, 211, 211);
        check_writer(&rt, lanes, SHORT, 211, 211);
    }
}

/// A writer that fails during streamed output holds a beginning of the report.
#[test]
fn a_beginning_is_written_before_a_fault(rt: HostRuntime) {
    for room in [0, 1, 2, 7, 100, 209, 210, 211] {
        check_writer(&rt, 1, QUICK, room, usize::MAX);
        check_writer(&rt, 2, QUICK, room, usize::MAX);
        check_writer(&rt, 2, QUICK, room, 1);
    }
}

/// Bad numbers of files and lanes are refused without taking memory.
#[test]
fn bad_numbers_take_no_memory(rt: HostRuntime) {
    let cases = [
        (257, 0, BatchFault::TooManyFiles),
        (256, 0, BatchFault::BadLanes),
        (256, 9, BatchFault::BadLanes),
    ];
    for (files, lanes, fault) in cases {
        let (ended, writer) = written(&rt, &THREE, files, lanes, SHORT, &OpenGate, (211, 211));
        same!(&rt, ended, Err(Fault::Run(fault)));
        same!(&rt, writer.text().len(), 0);
    }
}

/// How often (0 or 1) a whole line says that memory ran out, given the line that is due; `None` if it is neither.
fn wants_of(line: &[u8], due: &[u8]) -> Option<usize> {
    if line == due {
        return Some(0);
    }
    let is_want = line.starts_with(b"graph ") && line.ends_with(b" memory");
    (is_want && due.starts_with(b"graph ")).then_some(1)
}

/// Whether a text has the lines of the report, except for at most one place that says that memory ran out.
/// This is the line of a graph, or the end of a file after a beginning of its graphs. The text may be cut off.
fn is_allowed(text: &[u8]) -> bool {
    let mut due = REPORT.split(|byte| *byte == b'\n');
    let mut wants: usize = 0;
    for line in text.split(|byte| *byte == b'\n') {
        let is_early_end = line.starts_with(b"end memory graphs=");
        let next = if is_early_end {
            due.find(|other| other.starts_with(b"end "))
        } else {
            due.next()
        };
        let Some(other) = next else {
            return false;
        };
        match wants_of(line, other) {
            Some(more) => wants = wants.saturating_add(more),
            None if is_early_end => wants = wants.saturating_add(1),
            None => return other.starts_with(line) && wants <= 1,
        }
    }
    wants <= 1
}

/// If memory runs out, the run names it, or its report does in at most one line.
/// The report may be cut off. Short drawings take all memory that quick ones take, and more.
/// `checks/refuse-allocations` refuses each allocation of this test in turn.
#[test]
fn names_want_of_memory(rt: HostRuntime) {
    let (ended, writer) = written(&rt, &THREE, 3, 2, SHORT, &OpenGate, (211, 211));
    let named = match ended {
        Ok(status) => status == 3,
        Err(Fault::Run(fault)) => fault == BatchFault::Memory || fault == BatchFault::Thread,
        Err(_) => false,
    };
    same!(&rt, (named, is_allowed(writer.text())), (true, true));
}
