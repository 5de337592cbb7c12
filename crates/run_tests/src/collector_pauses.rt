//! Output of runs in which the reading of later files pauses while too much of it waits. The bytes and the texts come
//! from the descriptions of the format and of the report.
ghost use Rattle.std.specs.Prelude.{false, None};
ghost use Rattle.lanes.specs.Opening.{Silent};

use crate::reported::QUICK;
use collector::{
    Choice, Gate, IoSink, MAX_LANES, OpenFault, OpenGate, Opener, Stage, Tap, TapFault,
};
use commands::{Fault, write_batch};
use std::alloc::{AllocError, Global};
use std::fmt::Write;
use std::process::Abort;
use std::sync::Wait;
use std::sync::atomic::{AtomicBool, AtomicU32, AtomicU64, Ordering};
use std::thread::Threads;
use std::time::Duration;
use streams::WriteFault;
use test_tools::records::{EDGE, HEADER};
use test_tools::{Narrow, same, wait_for_count};

/// How many records the first file has, and each later one.
const FIRST: u32 = 450;

const LATER: u32 = 30;

/// How many calls of its first stage a lane has made at most when it pauses, with room for one message between two
/// threads: as many records as the links, the fan and the stages hold, and the one that is read.
pub(crate) const AHEAD: u32 = 10;

/// A file of edges, read byte by byte. Files before the last one are read only after this many reads of the last one.
#[derive(Clone, Copy)]
struct Edges<'r> {
    files: u32,
    awaited: u32,
    reads_of_last: &'r AtomicU32,
    ran_out: &'r AtomicBool,
}

/// An open file of edges.
#[derive(Drop)]
struct EdgesTap<'r> {
    of: Edges<'r>,
    file: u32,
    at: u32,
    records: u32,
}

impl EdgesTap<'_> {
    /// The next byte, if there is one.
    fn next(&mut self) -> Option<u8> {
        let at = self.at as usize;
        let byte = if at < HEADER.len() {
            HEADER.get(at)
        } else if (at - HEADER.len()) / EDGE.len() < self.records as usize {
            EDGE.get((at - HEADER.len()) % EDGE.len())
        } else {
            None
        };
        self.at = self.at.saturating_add(1);
        byte.copied()
    }

    /// Waits until the last file was read often enough, and notes if a million turns were too few.
    fn wait(&self) {
        wait_for_count(self.of.reads_of_last, self.of.awaited, self.of.ran_out);
    }
}

impl Tap for EdgesTap<'_> {
    ghost to_come = { λ _. None };

    ghost fails = { λ _. false };

    fn read(&mut self, buf: &mut [u8]) -> Result<usize, TapFault> {
        if self.file.saturating_add(1) == self.of.files {
            self.of.reads_of_last.fetch_add(1, Ordering::SeqCst);
        } else if self.at == 0 {
            self.wait();
        }
        match (buf.first_mut(), self.next()) {
            (Some(place), Some(byte)) => {
                *place = byte;
                Ok(1)
            }
            _ => Ok(0),
        }
    }
}

impl<'r> Opener for Edges<'r> {
    type Source = EdgesTap<'r>;

    ghost meaning = { λ _ _. Silent };

    fn open(&self, _alloc: Global, file: u32) -> Result<EdgesTap<'r>, OpenFault> {
        if file >= self.files {
            return Err(OpenFault::Io);
        }
        Ok(EdgesTap {
            of: *self,
            file,
            at: 0,
            records: if file == 0 { FIRST } else { LATER },
        })
    }
}

/// How a run over this many files and lanes ended, with this limit of waiting output, and its text. Files before the
/// last one are read after `awaited` reads of the last one; whether that took too long is returned, too.
fn run<R: AllocGlobal + Threads + Wait + Sync, G: Gate>(
    rt: &R,
    (files, lanes, awaited): (u32, u32, u32),
    most: usize,
    gate: &G,
) -> (Result<u8, Fault>, Vec<u8>, bool) {
    let (reads_of_last, ran_out) = (AtomicU32::new(0), AtomicBool::new(false));
    let opener = Edges {
        files,
        awaited,
        reads_of_last: &reads_of_last,
        ran_out: &ran_out,
    };
    let mut sink = IoSink::new(Vec::new(rt.alloc()));
    let (alloc, choice) = (rt.alloc(), Choice::First);
    let ended = write_batch(
        rt, alloc, &opener, files, lanes, 1, most, choice, QUICK, gate, &mut sink,
    );
    (ended, sink.into_writer(), ran_out.load(Ordering::SeqCst))
}

/// Lets a hundredth of a second pass.
pub(crate) fn rest<R: Wait>(rt: &R) {
    AtomicU64::new(0).park_timeout(rt, 0, Duration::from_millis(10));
}

/// Waits until the sum of these counters has not changed for 0.3 seconds, thirty seconds at most.
pub(crate) fn settle<R: Wait>(rt: &R, counters: &[&AtomicU32]) {
    let (mut last, mut rests): (u32, u32) = (0, 0);
    for _ in 0..3_000 {
        let mut now: u32 = 0;
        for counter in counters {
            now = now.saturating_add(counter.load(Ordering::SeqCst));
        }
        rests = if now == last {
            rests.saturating_add(1)
        } else {
            0
        };
        if rests > 30 {
            return;
        }
        last = now;
        rest(rt);
    }
}

/// The report of this many files.
fn report(alloc: Global, files: u32) -> Result<String, AllocError> {
    let mut report = String::new(alloc);
    for file in 0..files {
        let records = if file == 0 { FIRST } else { LATER };
        tell_file(&mut report, file.saturating_add(1), records)?;
    }
    Ok(report)
}

/// Adds the lines of one file to a report.
pub(crate) fn tell_file(report: &mut String, file: u32, records: u32) -> Result<(), AllocError> {
    writeln!(report, "file {file}")?;
    tell_graphs(report, records)?;
    writeln!(report, "end complete graphs={records}")
}

/// Adds the lines of this many edges to a report.
pub(crate) fn tell_graphs(report: &mut String, records: u32) -> Result<(), AllocError> {
    for graph in 1..=records {
        writeln!(report, "graph {graph} ok n=2 m=1 f=1 bends=0 drawn=yes")?;
    }
    Ok(())
}

/// Checks that the text of a run is this one, and that no source waited too long.
fn check<R: AllocGlobal + Threads + Wait + Sync + Abort, G: Gate>(
    rt: &R,
    counts: (u32, u32, u32),
    most: usize,
    gate: &G,
    report: &str,
) {
    let (ended, text, ran_out) = run(rt, counts, most, gate);
    same!(rt, (ended, ran_out), (Ok(0), false));
    same!(rt, text.as_slice(), report.as_bytes());
}

/// The output is that of all files, however little of it may wait, and no source waits too long.
#[test]
fn pauses_change_no_text(rt: HostRuntime) {
    for files in [1, 9] {
        let report = report(rt.alloc(), files).expect(&rt, "memory");
        for lanes in [1, 3, MAX_LANES] {
            for most in [1, 40_000] {
                check(&rt, (files, lanes, 0), most, &OpenGate, report.as_str());
            }
        }
    }
}

/// The last file may come first: its lane has read three records when the others begin, and goes on.
/// If nothing may wait it has read one, since its first line lets it pause.
#[test]
fn the_last_file_may_come_first(rt: HostRuntime) {
    let report = report(rt.alloc(), 4).expect(&rt, "memory");
    for (awaited, most) in [(20, 0), (30, usize::MAX)] {
        check(&rt, (4, 4, awaited), most, &OpenGate, report.as_str());
    }
}

/// Counts the calls of first stages. Holds the call of the record at place 300, which only the first file has, until all
/// other lanes pause or have ended. From then on it holds calls of the record at place 25 until `met` lanes have made
/// one.
#[derive(Drop)]
struct HoldsFirst<'r, R> {
    rt: &'r R,
    met: u32,
    calls: AtomicU32,
    seen: AtomicU32,
    came: AtomicU32,
    ran_out: AtomicBool,
}

impl<'r, R: Wait> HoldsFirst<'r, R> {
    /// A gate that holds the first record until this many calls are made.
    fn until(rt: &'r R, met: u32) -> HoldsFirst<'r, R> {
        HoldsFirst {
            rt,
            met,
            calls: AtomicU32::new(0),
            seen: AtomicU32::new(0),
            came: AtomicU32::new(0),
            ran_out: AtomicBool::new(false),
        }
    }

    /// Waits until no more calls are made, and notes how many there were.
    fn hold(&self) {
        settle(self.rt, &[&self.calls]);
        self.seen
            .store(self.calls.load(Ordering::SeqCst), Ordering::SeqCst);
    }

    /// Notes a call; once the held record has gone on, waits for the others.
    fn meet(&self) {
        self.came.fetch_add(1, Ordering::SeqCst);
        if self.seen.load(Ordering::SeqCst) == 0 {
            return;
        }
        wait_for_count(&self.came, self.met, &self.ran_out);
    }
}

impl<R: Wait + Sync> Gate for HoldsFirst<'_, R> {
    fn pass(&self, _lane: u32, stage: Stage, ordinal: u32) {
        if stage != Stage::Read {
            return;
        }
        self.calls.fetch_add(1, Ordering::SeqCst);
        match ordinal {
            300 => self.hold(),
            25 => self.meet(),
            _ => {}
        }
    }
}

/// While the first file is held, the lanes of all others pause once a line waits, and go on afterwards.
#[test]
fn gate_holds_the_first_until_others_pause(rt: HostRuntime) {
    let report = report(rt.alloc(), 8).expect(&rt, "memory");
    for lanes in [2, 4, MAX_LANES] {
        let gate = HoldsFirst::until(&rt, 0);
        check(&rt, (8, lanes, 0), 1, &gate, report.as_str());
        let most = AHEAD.saturating_mul(lanes).saturating_add(301);
        same!(&rt, gate.seen.load(Ordering::SeqCst) <= most, true);
    }
}

/// When the first file has ended there is room again, and the lanes of both later files read at once.
/// The lines of each of them wait in one piece of 16,384 bytes, and no more than two pieces may wait.
#[test]
fn room_comes_where_a_file_ends(rt: HostRuntime) {
    let report = report(rt.alloc(), 3).expect(&rt, "memory");
    let gate = HoldsFirst::until(&rt, 3);
    check(&rt, (3, 3, 0), 32_768, &gate, report.as_str());
    same!(&rt, gate.ran_out.load(Ordering::SeqCst), false);
}

/// How a run over eight files and this many lanes ended, with a sink that takes a hundred bytes.
fn ended_in_a_narrow_sink<R: AllocGlobal + Threads + Wait + Sync>(
    rt: &R,
    lanes: u32,
) -> Result<u8, Fault> {
    let (reads_of_last, ran_out) = (AtomicU32::new(0), AtomicBool::new(false));
    let opener = Edges {
        files: 8,
        awaited: 0,
        reads_of_last: &reads_of_last,
        ran_out: &ran_out,
    };
    let gate = HoldsFirst::until(rt, 0);
    let mut sink = IoSink::new(Narrow::new(100, 100, true));
    let (alloc, choice) = (rt.alloc(), Choice::First);
    write_batch(
        rt, alloc, &opener, 8, lanes, 1, 1, choice, QUICK, &gate, &mut sink,
    )
}

/// A sink that fails while lanes pause ends the run. It is asked for more than it takes once the lines of some four hundred
/// records have come.
#[test]
fn a_sink_may_fail_while_lanes_pause(rt: HostRuntime) {
    for lanes in [2, 4, MAX_LANES] {
        same!(
            &rt,
            ended_in_a_narrow_sink(&rt, lanes),
            Err(Fault::Write(WriteFault::Write)),
        );
    }
}
