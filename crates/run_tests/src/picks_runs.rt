//! Runs that pick and count: their bytes and tables, over any number of lanes. The bytes come from the description of the
//! format.
ghost use Rattle.std.specs.Prelude.{false};
ghost use Rattle.ruled_lanes.specs.declared.channel.TheConstants.{LANES};
ghost use Rattle.std.specs.Prelude.{◌<◌, ◌≤◌};

use crate::picks_rows::{ALL, selection_of};
use crate::reported::{Files, THREE};
use collector::{
    Choice, Flaws, IoSink, MAX_LANES, OpenGate, count_files, pick_files, status_of_flaws,
};
use graph_facts::{Columns, Selection, write_counts};
use lanes::{Pauses, Run, RunFault};
use planar_code::Ending;
use std::process::Abort;
use std::sync::Wait;
use std::thread::Threads;
use streams::{Mark, SinkFault};
use test_tools::{Narrow, same};

/// What is lacking in each of three files, one after another: their marks, and their numbers of unanswered records.
type Lacking = [(Mark, u32); 3];

const COMPLETE: Mark = Mark::Ended(Ending::Complete);

/// What is lacking in `THREE`.
const CUT: Lacking = [
    (COMPLETE, 0),
    (Mark::Ended(Ending::Truncated), 0),
    (COMPLETE, 0),
];

/// Two triangles and an edge, after the header.
const PICKED: &[u8] =
    b">>planar_code<<\x03\x02\x03\x00\x03\x01\x00\x01\x02\x00\x03\x02\x03\x00\x03\x01\x00\x01\x02\x00\x02\x02\x00\x01\x00";

/// Checks what is picked of `THREE`, with room for this many bytes in the writer.
fn check_picked<R: AllocGlobal + Threads + Wait + Sync + Abort>(
    rt: &R,
    lanes: u32,
    selection: Selection,
    room: usize,
    picked: &[u8],
)
    requires some { 0 < lanes }
    requires few { lanes ≤ LANES }
{
    let pauses = Pauses::none();
    let run = Run {
        rt,
        alloc: rt.alloc(),
        opener: &THREE,
        pauses: &pauses,
        gate: &OpenGate,
        files: 3,
        lanes,
        capacity: 1,
        choice: Choice::First,
    };
    let mut sink = IoSink::new(Narrow::new(room, usize::MAX, true));
    let ended = pick_files(&run, selection, 1, &mut sink);
    let writer = sink.into_writer();
    same!(rt, writer.text(), &picked[..room.min(picked.len())]);
    match ended {
        Ok(flaws) => {
            same!(rt, room < picked.len(), false);
            same!(rt, status_of_flaws(flaws.as_slice()), 3);
            check_flaws(rt, flaws.as_slice(), &CUT);
        }
        Err(fault) => {
            same!(rt, room < picked.len(), true);
            same!(rt, fault, RunFault::Refused(SinkFault));
        }
    }
}

/// Checks what is lacking in each file.
fn check_flaws<R: Abort>(rt: &R, flaws: &[Flaws], due: &Lacking) {
    same!(rt, flaws.len(), 3);
    for (got, want) in flaws.iter().zip(due) {
        same!(rt, got.mark, want.0);
        same!(rt, got.unanswered, want.1);
        same!(rt, got.first, 0);
    }
}

/// Without a condition all records are picked, and none of the others; with one on bends the edge, and of the others the
/// triangles. A writer that fails has a beginning of that.
#[test]
fn records_are_picked_in_order(rt: HostRuntime) {
    let (header, triangles, edge) = (&PICKED[..15], &PICKED[..35], &PICKED[35..]);
    let mut only_edge = [0; 20];
    only_edge[..15].copy_from_slice(header);
    only_edge[15..].copy_from_slice(edge);
    for lanes in 1..=MAX_LANES {
        check_picked(&rt, lanes, ALL, usize::MAX, PICKED);
        check_picked(
            &rt,
            lanes,
            Selection {
                others: true,
                ..ALL
            },
            usize::MAX,
            header,
        );
        let straight = selection_of(Some(0), None);
        check_picked(&rt, lanes, straight, usize::MAX, &only_edge);
        check_picked(
            &rt,
            lanes,
            Selection {
                others: true,
                ..straight
            },
            usize::MAX,
            triangles,
        );
        for room in [0, 14, 15, 16, 39] {
            check_picked(&rt, lanes, ALL, room, PICKED);
        }
    }
}

/// The text of the table of the chosen graphs of `THREE`.
fn check_counted<R: AllocGlobal + Threads + Wait + Sync + Abort>(
    rt: &R,
    lanes: u32,
    selection: Selection,
    columns: Columns,
    table: &[u8],
)
    requires some { 0 < lanes }
    requires few { lanes ≤ LANES }
{
    let pauses = Pauses::none();
    let run = Run {
        rt,
        alloc: rt.alloc(),
        opener: &THREE,
        pauses: &pauses,
        gate: &OpenGate,
        files: 3,
        lanes,
        capacity: 1,
        choice: Choice::First,
    };
    let counted = count_files(&run, selection, columns).expect(rt, "a table");
    check_flaws(rt, counted.flaws.as_slice(), &CUT);
    let mut sink = IoSink::new(Narrow::new(usize::MAX, usize::MAX, true));
    write_counts(&counted.counts, &mut sink).expect(rt, "room");
    same!(rt, sink.into_writer().text(), table);
}

/// Each chosen graph is counted once, in ascending lines; without columns only the total is printed.
#[test]
fn graphs_are_counted(rt: HostRuntime) {
    let none = Columns {
        vertices: false,
        edges: false,
        faces: false,
        bends: false,
        rule: false,
    };
    let all = Columns {
        vertices: true,
        edges: true,
        faces: true,
        bends: true,
        rule: true,
    };
    for lanes in 1..=MAX_LANES {
        check_counted(&rt, lanes, ALL, none, b"total graphs=3\n");
        let table =
            b"n=2 m=1 f=1 bends=0 rule=none graphs=1\nn=3 m=3 f=2 bends=1 rule=none graphs=2\ntotal graphs=3\n";
        check_counted(&rt, lanes, ALL, all, table);
        let few = selection_of(Some(0), None);
        check_counted(
            &rt,
            lanes,
            few,
            Columns {
                vertices: true,
                ..none
            },
            b"n=2 graphs=1\ntotal graphs=1\n",
        );
    }
}
