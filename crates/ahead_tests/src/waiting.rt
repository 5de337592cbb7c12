//! Answers leave while their source stays open: none waits for more records.
ghost use Rattle.std.specs.Prelude.{false, None};
ghost use Rattle.lanes.specs.Opening.{Silent};

use collector::{
    Choice, DrawingKind, Form, IoSink, OpenFault, OpenGate, Opener, Style, Tap, TapFault,
};
use commands::write_batch;
use std::alloc::Global;
use std::io;
use std::io::Write;
use std::sync::atomic::{AtomicBool, Ordering};
use std::sync::{Condvar, Mutex, Wait};
use std::time::{Clock, Duration};
use test_tools::records::{EDGE, HEADER};
use test_tools::same;

/// The number of reads. Each returns one record more than the one before, and the last more than two messages carry.
const READS: u32 = 40;

/// The number of lines of the text: of 820 records, a first and a last one, and the empty one behind it.
const LINES: usize = 823;

/// How long a source waits at most, in seconds. No source waits so long if all lines leave.
const PATIENCE: u64 = 40;

/// How many lines have left, and whether a source waited in vain for some.
#[derive(Drop)]
struct Lines {
    count: Mutex<u32>,
    more: Condvar,
    is_late: AtomicBool,
}

impl Lines {
    /// No lines, and none are late.
    fn none() -> Lines {
        Lines {
            count: Mutex::new(0),
            more: Condvar::new(),
            is_late: AtomicBool::new(false),
        }
    }

    /// Some more lines have left.
    fn add<R: Wait>(&self, rt: &R, lines: u32) {
        let mut count = self.count.lock(rt);
        *count = count.saturating_add(lines);
        self.more.notify_all();
    }

    /// Sleeps until this many lines have left. After one wait in vain there is no other.
    fn wait_for<R: Wait + Clock>(&self, rt: &R, least: u32) {
        if self.is_late.load(Ordering::SeqCst) {
            return;
        }
        let most = Duration::from_secs(PATIENCE);
        let count = self.count.lock(rt);
        let (_count, waited) = self
            .more
            .wait_timeout_while(rt, count, most, |count| *count < least);
        if waited.timed_out() {
            self.is_late.store(true, Ordering::SeqCst);
        }
    }
}

/// A source of edges. Before each read it waits until the line of each record that it returned has left.
#[derive(Drop)]
struct Edges<'r, R> {
    rt: &'r R,
    lines: &'r Lines,
    /// The number of reads so far, and of the records that they returned.
    reads: u32,
    records: u32,
}

impl<R: Wait + Clock> Edges<'_, R> {
    /// The number of bytes that a read puts into the buffer.
    fn fill(&mut self, buf: &mut [u8]) -> io::Result<usize> {
        let mut rest = buf;
        let room = rest.len();
        if self.reads == 0 {
            rest.write_all(HEADER)?;
        }
        self.reads = self.reads.saturating_add(1);
        for _ in 0..self.reads {
            rest.write_all(EDGE)?;
        }
        self.records = self.records.saturating_add(self.reads);
        Ok(room.saturating_sub(rest.len()))
    }
}

impl<R: Wait + Clock> Tap for Edges<'_, R> {
    ghost to_come = { λ _. None };

    ghost fails = { λ _. false };

    fn read(&mut self, buf: &mut [u8]) -> Result<usize, TapFault> {
        if self.reads > 0 {
            self.lines.wait_for(self.rt, self.records.saturating_add(1));
        }
        if self.reads == READS {
            return Ok(0);
        }
        match self.fill(buf) {
            Ok(count) => Ok(count.min(buf.len())),
            Err(_) => Err(TapFault),
        }
    }
}

/// Opens such a source.
#[derive(Drop)]
struct File<'r, R> {
    rt: &'r R,
    lines: &'r Lines,
}

impl<'r, R: Wait + Clock + Sync> Opener for File<'r, R> {
    type Source = Edges<'r, R>;

    ghost meaning = { λ _ _. Silent };

    fn open(&self, _alloc: Global, _file: u32) -> Result<Edges<'r, R>, OpenFault> {
        Ok(Edges {
            rt: self.rt,
            lines: self.lines,
            reads: 0,
            records: 0,
        })
    }
}

/// Takes a text, and tells how many lines have left.
#[derive(Drop)]
struct Told<'r, R> {
    rt: &'r R,
    lines: &'r Lines,
    text: Vec<u8>,
}

impl<R: Wait> Write for Told<'_, R> {
    fn write(&mut self, buf: &[u8]) -> io::Result<usize> {
        let mut lines = 0u32;
        for byte in buf {
            if *byte == b'\n' {
                lines = lines.saturating_add(1);
            }
        }
        let count = self.text.write(buf)?;
        self.lines.add(self.rt, lines);
        Ok(count)
    }

    fn flush(&mut self) -> io::Result<()> {
        Ok(())
    }
}

/// After each of 40 reads, which return 1 to 40 records, all lines leave while the next read waits.
#[test]
fn no_answer_waits_for_more_records(rt: HostRuntime) {
    let (alloc, lines) = (rt.alloc(), Lines::none());
    let file = File {
        rt: &rt,
        lines: &lines,
    };
    let mut sink = IoSink::new(Told {
        rt: &rt,
        lines: &lines,
        text: Vec::new(alloc),
    });
    let (form, drawing_kind) = (Form::Report, DrawingKind::Quick);
    let style = Style { form, drawing_kind };
    let ended = write_batch(
        &rt,
        alloc,
        &file,
        1,
        1,
        64,
        usize::MAX,
        Choice::First,
        style,
        &OpenGate,
        &mut sink,
    );
    same!(
        &rt,
        (ended, lines.is_late.load(Ordering::SeqCst)),
        (Ok(0), false)
    );
    let text = sink.into_writer().text;
    let end = b"graph 820 ok n=2 m=1 f=1 bends=0 drawn=yes\nend complete graphs=820\n";
    same!(&rt, text.as_slice().ends_with(end), true);
    let found = text.as_slice().split(|byte| *byte == b'\n').count();
    same!(&rt, found, LINES);
}
