//! Runs over lanes, with gates that count calls or hold them up, and an opener that counts its sources.
//! The bytes and the texts come from the descriptions of the format and of the report.
ghost use Rattle.std.specs.Prelude.{◌<◌, ◌≤◌, false, None};
ghost use Rattle.lanes.specs.Opening.{Silent};

use crate::shared::{
    CUT, OF_THREE, THREE_FILES, TRIANGLES, WAYS, Way, check_report, check_three, lanes_report,
    opener_of, plain_batch,
};
use collector::{
    Batch, BatchFault, Choice, Gate, MAX_LANES, MemOpener, MemTap, OpenFault, OpenGate, Opener,
    Stage, Tap, TapFault, run_batch,
};
use std::alloc::{AllocError, Global};
use std::fmt::Write;
use std::process::Abort;
use std::sync::Wait;
use std::sync::atomic::{AtomicBool, AtomicU32, Ordering};
use std::thread::Threads;
use test_tools::records::{CAPPED_CUBE, HEADER};
use test_tools::{same, wait_for_count};

const EDGELESS: &[u8] = b">>planar_code<<\x01\x00";

const EDGE: &[u8] = b">>planar_code<<\x02\x02\x00\x01\x00";

const LARGE: &[u8] = b">>planar_code<<\x02\x02\x00\x01\x00\x00\x02";

const OF_TRIANGLES: &str = "file 1\ngraph 1 ok n=3 m=3 f=2 bends=1 drawn=yes\n\
    graph 2 ok n=3 m=3 f=2 bends=1 drawn=yes\nend complete graphs=2\n";

const OF_FOUR: &str = "file 1\ngraph 1 ok n=3 m=3 f=2 bends=1 drawn=yes\n\
    graph 2 ok n=3 m=3 f=2 bends=1 drawn=yes\nend complete graphs=2\n\
    file 2\ngraph 1 ok n=2 m=1 f=1 bends=0 drawn=yes\nend truncated graphs=1\n\
    file 3\nend complete graphs=0\n\
    file 4\ngraph 1 refused edgeless\nend complete graphs=1\n";

const OF_EDGES: &str = "file 1\ngraph 1 ok n=2 m=1 f=1 bends=0 drawn=yes\nend complete graphs=1\n\
    file 2\ngraph 1 ok n=2 m=1 f=1 bends=0 drawn=yes\nend complete graphs=1\n";

const OF_FAULTS: &str = "file 1\ngraph 1 ok n=3 m=3 f=2 bends=1 drawn=yes\n\
    graph 2 ok n=3 m=3 f=2 bends=1 drawn=yes\nend complete graphs=2\n\
    file 2\ngraph 1 ok n=2 m=1 f=1 bends=0 drawn=yes\nend truncated graphs=1\n\
    file 3\nend header graphs=0\n\
    file 4\ngraph 1 ok n=2 m=1 f=1 bends=0 drawn=yes\nend large graphs=1\n\
    file 5\nend io graphs=0\nfile 6\nend io graphs=0\n";

/// Runs the files over lanes with a gate, and checks the report.
fn check<R: AllocGlobal + Threads + Wait + Sync + Abort, G: Gate>(
    rt: &R,
    way: Way,
    files: &[&[u8]],
    lanes: u32,
    gate: &G,
    report: &str,
) {
    check_chosen(rt, way, files, lanes, Choice::First, gate, report);
}

/// Runs the files over lanes with a gate, under a choice of the outer face, and checks the report.
fn check_chosen<R: AllocGlobal + Threads + Wait + Sync + Abort, G: Gate>(
    rt: &R,
    way: Way,
    files: &[&[u8]],
    lanes: u32,
    choice: Choice,
    gate: &G,
    report: &str,
) {
    let text = lanes_report(rt, way, files, lanes, choice, gate).expect(rt, "a report");
    same!(rt, text.as_slice(), report.as_bytes());
}

/// Runs the files on one thread, and checks the report.
fn check_plain<R: AllocGlobal + Abort>(rt: &R, files: &[&[u8]], choice: Choice, report: &str) {
    let batch = plain_batch(rt.alloc(), files, 1, choice).expect(rt, "a batch");
    check_report(rt, &batch, report.as_bytes());
}

/// The report is the same on one thread and over any number of lanes.
#[test]
fn reports_the_same_over_lanes(rt: HostRuntime) {
    for lanes in 1..=MAX_LANES {
        for way in WAYS {
            check(&rt, way, &THREE_FILES, lanes, &OpenGate, OF_THREE);
        }
    }
    check_plain(&rt, &THREE_FILES, Choice::First, OF_THREE);
}

/// The report is the same under either choice of the outer face: no face of an edge or a triangle is better than the
/// widest.
#[test]
fn reports_the_same_under_either_choice(rt: HostRuntime) {
    let (files, best) = (THREE_FILES, Choice::Best);
    for lanes in 1..=4 {
        for way in WAYS {
            check_chosen(&rt, way, &files, lanes, best, &OpenGate, OF_THREE);
        }
    }
    check_plain(&rt, &files, best, OF_THREE);
}

const CAPPED_BY_FIRST: &str = "file 1\n\
    graph 1 ok n=9 m=16 f=9 bends=10 drawn=yes\n\
    end complete graphs=1\n";

const CAPPED_BY_BEST: &str = "file 1\n\
    graph 1 ok n=9 m=16 f=9 bends=8 drawn=yes\n\
    end complete graphs=1\n";

/// The best outer face is chosen if it needs fewer bends than the widest one.
/// For a capped cube this is the face opposite to its cap; the widest face with the least dart needs two more bends.
#[test]
fn chooses_the_outer_face(rt: HostRuntime) {
    let file = [HEADER, CAPPED_CUBE].concat(rt.alloc());
    let file = file.expect(&rt, "memory");
    let files = [file.as_slice()];
    for (choice, report) in [
        (Choice::First, CAPPED_BY_FIRST),
        (Choice::Best, CAPPED_BY_BEST),
    ] {
        for way in WAYS {
            check_chosen(&rt, way, &files, 1, choice, &OpenGate, report);
        }
    }
}

/// Counts the calls of each stage.
#[derive(Drop)]
struct Counts {
    read: AtomicU32,
    embed: AtomicU32,
    shape: AtomicU32,
    draw: AtomicU32,
}

impl Counts {
    /// Counts of nothing.
    fn new() -> Counts {
        Counts {
            read: AtomicU32::new(0),
            embed: AtomicU32::new(0),
            shape: AtomicU32::new(0),
            draw: AtomicU32::new(0),
        }
    }

    /// How often a stage has passed its gate.
    fn of(&self, stage: Stage) -> &AtomicU32 {
        match stage {
            Stage::Read => &self.read,
            Stage::Embed => &self.embed,
            Stage::Shape => &self.shape,
            Stage::Draw => &self.draw,
        }
    }

    /// How often a stage has passed its gate.
    fn passed(&self, stage: Stage) -> u32 {
        self.of(stage).load(Ordering::SeqCst)
    }
}

impl Gate for Counts {
    fn pass(&self, _lane: u32, stage: Stage, _ordinal: u32) {
        self.of(stage).fetch_add(1, Ordering::SeqCst);
    }
}

/// Checks that each stage passes the gate this many times over these files.
fn check_counts<R: AllocGlobal + Threads + Wait + Sync + Abort>(
    rt: &R,
    files: &[&[u8]],
    report: &str,
    count: usize,
) {
    for way in WAYS {
        let counts = Counts::new();
        check(rt, way, files, 1, &counts, report);
        check_passed(rt, &counts, count);
    }
}

/// Each stage passes the gate once for each record.
#[test]
fn each_stage_passes_the_gate_once_a_record(rt: HostRuntime) {
    check_counts(&rt, &THREE_FILES, OF_THREE, 3);
    check_counts(&rt, &[TRIANGLES, CUT, HEADER, EDGELESS], OF_FOUR, 4);
}

/// The fault of a run over this many files that do not open and this many lanes, if any.
fn fault_of<R: AllocGlobal + Threads + Wait + Sync>(
    rt: &R,
    files: u32,
    lanes: u32,
) -> Option<BatchFault> {
    let opener = MemOpener::new(Vec::new(rt.alloc()), 1);
    run_batch(
        rt,
        rt.alloc(),
        &opener,
        files,
        lanes,
        1,
        Choice::Best,
        &OpenGate,
    )
    .err()
}

/// More than 256 files are refused, and otherwise 0 or more than 8 lanes.
#[test]
fn refuses_bad_numbers(rt: HostRuntime) {
    same!(&rt, fault_of(&rt, 257, 0), Some(BatchFault::TooManyFiles));
    same!(&rt, fault_of(&rt, 256, 9), Some(BatchFault::BadLanes));
    same!(&rt, fault_of(&rt, 256, 0), Some(BatchFault::BadLanes));
}

/// The report of no files is empty.
#[test]
fn no_files_have_an_empty_report(rt: HostRuntime) {
    for lanes in 1..=MAX_LANES {
        for way in WAYS {
            check(&rt, way, &[], lanes, &OpenGate, "");
        }
    }
}

/// Two calls, each of which is held up until the other is made.
#[derive(Drop)]
struct Meeting {
    first: AtomicU32,
    second: AtomicU32,
    ran_out: AtomicBool,
}

impl Meeting {
    /// Neither call was made.
    fn new() -> Meeting {
        Meeting {
            first: AtomicU32::new(0),
            second: AtomicU32::new(0),
            ran_out: AtomicBool::new(false),
        }
    }

    /// Makes the first call, and waits for the second one.
    fn come_first(&self) {
        self.first.fetch_add(1, Ordering::SeqCst);
        wait_for_count(&self.second, 1, &self.ran_out);
    }

    /// Makes the second call, and waits for the first one.
    fn come_second(&self) {
        self.second.fetch_add(1, Ordering::SeqCst);
        wait_for_count(&self.first, 1, &self.ran_out);
    }

    /// Whether both calls were made, and neither waited too long.
    fn took_place(&self) -> bool {
        let both = self
            .first
            .load(Ordering::SeqCst)
            .min(self.second.load(Ordering::SeqCst));
        both > 0 && !self.ran_out.load(Ordering::SeqCst)
    }
}

/// Holds the second stage at the first record and the first stage at the second one, until both are there.
#[derive(Drop)]
struct HoldsStages {
    meeting: Meeting,
}

impl Gate for HoldsStages {
    fn pass(&self, _lane: u32, stage: Stage, ordinal: u32) {
        match (stage, ordinal) {
            (Stage::Embed, 0) => self.meeting.come_first(),
            (Stage::Read, 1) => self.meeting.come_second(),
            _ => {}
        }
    }
}

/// Two stages of a lane work at once: the first one on the second record while the second one has the first record.
#[test]
fn gate_holds_stages(rt: HostRuntime) {
    for way in WAYS {
        let gate = HoldsStages {
            meeting: Meeting::new(),
        };
        check(&rt, way, &[TRIANGLES], 1, &gate, OF_TRIANGLES);
        same!(&rt, gate.meeting.took_place(), true);
    }
}

/// Holds the first stage of each of two lanes, until both are there.
#[derive(Drop)]
struct HoldsTwo {
    meeting: Meeting,
}

impl Gate for HoldsTwo {
    fn pass(&self, lane: u32, stage: Stage, _ordinal: u32) {
        match (lane, stage) {
            (0, Stage::Read) => self.meeting.come_first(),
            (_, Stage::Read) => self.meeting.come_second(),
            _ => {}
        }
    }
}

/// Two lanes read at once.
#[test]
fn gate_holds_two(rt: HostRuntime) {
    for way in WAYS {
        let gate = HoldsTwo {
            meeting: Meeting::new(),
        };
        check(&rt, way, &[EDGE, EDGE], 2, &gate, OF_EDGES);
        same!(&rt, gate.meeting.took_place(), true);
    }
}

/// Counts the calls of each of two lanes at the first stage, and holds the first call of one lane until the other has
/// made this many.
#[derive(Drop)]
struct HoldsFan {
    held: u32,
    calls: [AtomicU32; 2],
    ran_out: AtomicBool,
}

impl HoldsFan {
    /// A gate that holds this lane.
    fn of(held: u32) -> HoldsFan {
        HoldsFan {
            held,
            calls: [AtomicU32::new(0), AtomicU32::new(0)],
            ran_out: AtomicBool::new(false),
        }
    }
}

/// How often a lane has called.
fn calls_of(calls: &[AtomicU32; 2], lane: u32) -> &AtomicU32 {
    if lane == 0 { &calls[0] } else { &calls[1] }
}

/// The other of two lanes.
fn other_than(lane: u32) -> u32 {
    if lane == 0 { 1 } else { 0 }
}

impl Gate for HoldsFan {
    fn pass(&self, lane: u32, stage: Stage, _ordinal: u32) {
        if stage != Stage::Read {
            return;
        }
        let earlier = calls_of(&self.calls, lane).fetch_add(1, Ordering::SeqCst);
        if lane == self.held && earlier == 0 {
            wait_for_count(
                calls_of(&self.calls, other_than(self.held)),
                12,
                &self.ran_out,
            );
        }
    }
}

/// A file of this many records of two vertices with one edge.
fn edges(alloc: Global, count: u32) -> Result<Vec<u8>, AllocError> {
    let mut bytes = HEADER.to_vec(alloc)?;
    for _ in 0..count {
        bytes.extend_from_slice(b"\x02\x02\x00\x01\x00")?;
    }
    Ok(bytes)
}

/// The report of this many files of this many of these records.
fn report_of_edges(alloc: Global, files: u32, count: u32) -> Result<String, AllocError> {
    let mut report = String::new(alloc);
    for file in 1..=files {
        tell_edges(&mut report, file, count)?;
    }
    Ok(report)
}

/// Adds the lines of one file to the report.
fn tell_edges(report: &mut String, file: u32, count: u32) -> Result<(), AllocError> {
    writeln!(report, "file {file}")?;
    for graph in 1..=count {
        writeln!(report, "graph {graph} ok n=2 m=1 f=1 bends=0 drawn=yes")?;
    }
    writeln!(report, "end complete graphs={count}")
}

/// Runs two files of these bytes with one of two lanes held, and checks the report.
fn check_fan<R: AllocGlobal + Threads + Wait + Sync + Abort>(
    rt: &R,
    bytes: &[u8],
    held: u32,
    report: &str,
) {
    for way in WAYS {
        let gate = HoldsFan::of(held);
        check(rt, way, &[bytes, bytes], 2, &gate, report);
        same!(rt, gate.ran_out.load(Ordering::SeqCst), false);
    }
}

/// While one of two lanes is held, the other one gives all records of its file, whichever lane is held.
#[test]
fn gate_holds_fan(rt: HostRuntime) {
    let file = edges(rt.alloc(), 12).expect(&rt, "memory");
    let report = report_of_edges(rt.alloc(), 2, 12).expect(&rt, "memory");
    for held in 0..2 {
        check_fan(&rt, file.as_slice(), held, report.as_str());
    }
}

/// Holds the first call of the second lane at the first stage until the first lane has called there, and
/// that of the first lane until the second one has called twelve times.
#[derive(Drop)]
struct HoldsDeal {
    calls: [AtomicU32; 2],
    ran_out: AtomicBool,
}

impl Gate for HoldsDeal {
    fn pass(&self, lane: u32, stage: Stage, _ordinal: u32) {
        if stage != Stage::Read {
            return;
        }
        let earlier = calls_of(&self.calls, lane).fetch_add(1, Ordering::SeqCst);
        if earlier > 0 {
            return;
        }
        let least = if lane == 0 { 12 } else { 1 };
        wait_for_count(
            calls_of(&self.calls, other_than(lane)),
            least,
            &self.ran_out,
        );
    }
}

/// Runs four files of these bytes, of four records each, and checks the report and how often each lane has called.
fn check_deal<R: AllocGlobal + Threads + Wait + Sync + Abort>(
    rt: &R,
    way: Way,
    bytes: &[u8],
    report: &str,
) {
    let gate = HoldsDeal {
        calls: [AtomicU32::new(0), AtomicU32::new(0)],
        ran_out: AtomicBool::new(false),
    };
    check(rt, way, &[bytes, bytes, bytes, bytes], 2, &gate, report);
    same!(rt, gate.ran_out.load(Ordering::SeqCst), false);
    for (lane, calls) in [(0, 4), (1, 12)] {
        same!(
            rt,
            calls_of(&gate.calls, lane).load(Ordering::SeqCst),
            calls,
        );
    }
}

/// While one lane is held at its first file, the other draws all other files.
#[test]
fn gate_holds_deal(rt: HostRuntime) {
    let file = edges(rt.alloc(), 4).expect(&rt, "memory");
    let report = report_of_edges(rt.alloc(), 4, 4).expect(&rt, "memory");
    for way in WAYS {
        check_deal(&rt, way, file.as_slice(), report.as_str());
    }
}

/// A run over lanes with a gate, and the numbers of sources opened and dropped.
fn counted_run<R: AllocGlobal + Threads + Wait + Sync, G: Gate>(
    rt: &R,
    files: MemOpener,
    count: u32,
    lanes: u32,
    gate: &G,
) -> (Result<Batch, BatchFault>, (u32, u32)) {
    let (opened, dropped) = (AtomicU32::new(0), AtomicU32::new(0));
    let opener = Counting {
        files,
        opened: &opened,
        dropped: &dropped,
    };
    let run = run_batch(
        rt,
        rt.alloc(),
        &opener,
        count,
        lanes,
        1,
        Choice::First,
        gate,
    );
    (
        run,
        (
            opened.load(Ordering::SeqCst),
            dropped.load(Ordering::SeqCst),
        ),
    )
}

/// With each allocation refused in turn, one answer, one mark or the fault says that memory ran out, and all else is
/// unchanged.
/// If a thread could not be started for it, the fault names that instead. A lane's own fault arrives, so no lane is
/// called lost. Each record of a book has passed the gate once at each stage, whether or not memory ran out for it.
#[test]
fn names_want_of_memory(rt: HostRuntime) {
    let Ok(files) = opener_of(rt.alloc(), &THREE_FILES, 1) else {
        return;
    };
    let counts = Counts::new();
    let (run, (opened, dropped)) = counted_run(&rt, files, 3, 2, &counts);
    same!(&rt, opened, dropped);
    check_named(&rt, &counts, run);
}

/// Checks that a run has its books, or a fault that names memory or a thread.
fn check_named(rt: &impl Abort, counts: &Counts, run: Result<Batch, BatchFault>) {
    match run {
        Ok(batch) => check_passed(rt, counts, check_three(rt, &batch)),
        Err(fault) => assert!(rt; fault == BatchFault::Memory || fault == BatchFault::Thread),
    }
}

/// Checks that each stage has passed the gate this many times.
fn check_passed(rt: &impl Abort, counts: &Counts, count: usize) {
    for stage in [Stage::Read, Stage::Embed, Stage::Shape, Stage::Draw] {
        same!(rt, (stage, counts.passed(stage) as usize), (stage, count));
    }
}

/// The number of books of a run of three files over lanes, or its fault.
fn books_of_run<R: AllocGlobal + Threads + Wait + Sync>(
    rt: &R,
    opener: &MemOpener,
    lanes: u32,
) -> Result<u32, BatchFault> {
    let batch = run_batch(
        rt,
        rt.alloc(),
        opener,
        3,
        lanes,
        1,
        Choice::First,
        &OpenGate,
    )?;
    Ok(batch.files())
}

/// With the start of each thread refused in turn, a lane's own and those of its stages, the run ends with Ok or the
/// fault `Thread`.
#[test]
fn names_a_refused_thread(rt: HostRuntime) {
    let opener = opener_of(rt.alloc(), &THREE_FILES, 1).expect(&rt, "memory");
    for lanes in 1..=MAX_LANES {
        let found = books_of_run(&rt, &opener, lanes);
        assert!(rt;
            matches!(found, Ok(3) | Err(BatchFault::Thread)),
            "{found:?}"
        );
    }
}

/// Opens these files, and then one whose reads all fail. It counts the sources that it opened, and those that were
/// dropped.
#[derive(Drop)]
struct Counting<'a> {
    files: MemOpener,
    opened: &'a AtomicU32,
    dropped: &'a AtomicU32,
}

impl<'a> Opener for Counting<'a> {
    type Source = Counted<'a>;

    ghost meaning = { λ _ _. Silent };

    fn open(&self, alloc: Global, file: u32) -> Result<Counted<'a>, OpenFault> {
        let source = match self.files.open(alloc, file) {
            Ok(source) => Some(source),
            Err(OpenFault::Io) if file < 5 => None,
            Err(fault) => return Err(fault),
        };
        self.opened.fetch_add(1, Ordering::SeqCst);
        Ok(Counted {
            source,
            dropped: self.dropped,
        })
    }
}

/// A source that is counted when it is dropped; one without bytes fails at each read.
struct Counted<'a> {
    source: Option<MemTap>,
    dropped: &'a AtomicU32,
}

impl Drop for Counted<'_> {
    fn drop(self) {
        self.dropped.fetch_add(1, Ordering::SeqCst);
        let Self {
            source: _,
            dropped: _,
        } = self;
    }
}

impl Tap for Counted<'_> {
    ghost to_come = { λ _. None };

    ghost fails = { λ _. false };

    fn read(&mut self, buf: &mut [u8]) -> Result<usize, TapFault> {
        match &mut self.source {
            Some(source) => source.read(buf),
            None => Err(TapFault),
        }
    }
}

/// Runs six files over lanes: a whole one, a cut one, one with another beginning, one with a fault, one whose reads
/// fail and one that does not open. Checks the report and the number of sources dropped.
fn check_let_go<R: AllocGlobal + Threads + Wait + Sync + Abort>(rt: &R, lanes: u32) {
    let files = opener_of(rt.alloc(), &[TRIANGLES, CUT, b"planar_code", LARGE], 1).expect(
        rt, "memory",
    );
    let (run, counts) = counted_run(rt, files, 6, lanes, &OpenGate);
    same!(rt, counts, (5, 5));
    check_report(rt, &run.expect(rt, "a batch"), OF_FAULTS.as_bytes());
}

/// A run drops every source that it opened.
#[test]
fn lets_every_source_go(rt: HostRuntime) {
    for lanes in 1..=MAX_LANES {
        check_let_go(&rt, lanes);
    }
}
