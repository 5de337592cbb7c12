//! How far the parts of a run are ahead of one another: lines leave while their file is read, links and the fan hold as
//! many messages as they are made for, stages pass the gate before they hand a record on, and nothing is read after a
//! fault.
ghost use Rattle.std.specs.Prelude.{false, None};
ghost use Rattle.lanes.specs.Opening.{Silent};

use collector::{
    Choice, DrawingKind, Form, Gate, IoSink, OpenFault, Opener, Stage, Style, Tap, TapFault,
};
use commands::{Fault, write_batch};
use std::alloc::Global;
use std::io;
use std::io::Write;
use std::process::Abort;
use std::sync::Wait;
use std::sync::atomic::{AtomicBool, AtomicU32, Ordering};
use std::thread::Threads;
use test_tools::{same, wait_for_count};

/// What was seen of a run: how often each stage passed the gate, and how many lines the sink got; whether one part
/// waited too long for another; and whether something came too early or was done once more.
#[derive(Drop)]
struct Seen {
    read: AtomicU32,
    embed: AtomicU32,
    shape: AtomicU32,
    draw: AtomicU32,
    lines: AtomicU32,
    ran_out: AtomicBool,
    strayed: AtomicBool,
    /// Whether stages are held at a record, and the sink when it gets lines after those.
    is_held: bool,
}

impl Seen {
    /// Counts of nothing, of a run that is held or not.
    fn nothing(is_held: bool) -> Seen {
        Seen {
            read: AtomicU32::new(0),
            embed: AtomicU32::new(0),
            shape: AtomicU32::new(0),
            draw: AtomicU32::new(0),
            lines: AtomicU32::new(0),
            ran_out: AtomicBool::new(false),
            strayed: AtomicBool::new(false),
            is_held,
        }
    }

    /// Waits until a part was seen this often, and notes if a million turns were too few; then no part waits any more.
    fn wait_for(&self, part: &AtomicU32, least: u32) {
        if !self.ran_out.load(Ordering::SeqCst) {
            wait_for_count(part, least, &self.ran_out);
        }
    }

    /// Waits until the sink has this many lines, and notes if the next part was then seen more than `most` times. Lines
    /// that are buffered leave when none comes for a while.
    fn hold(&self, lines: u32, next: &AtomicU32, most: u32) {
        self.wait_for(&self.lines, lines);
        if next.load(Ordering::SeqCst) > most {
            self.strayed.store(true, Ordering::SeqCst);
        }
    }

    /// A stage passes the gate. At its first record it waits until the stage before it is `ahead` records ahead. At the
    /// record of this place it waits until the lines of all records before it have left, after the file's first line:
    /// if it had been handed on already, the next part would have got it by then.
    fn pass_at(
        &self,
        ordinal: u32,
        [own, before, next]: [&AtomicU32; 3],
        [ahead, place, most]: [u32; 3],
    ) {
        own.fetch_add(1, Ordering::SeqCst);
        if ordinal == 0 {
            self.wait_for(before, ahead);
        }
        if self.is_held && ordinal == place {
            self.hold(place.saturating_add(1), next, most);
        }
    }
}

impl Gate for Seen {
    fn pass(&self, _lane: u32, stage: Stage, ordinal: u32) {
        let (parts, numbers) = match stage {
            Stage::Read => ([&self.read, &self.read, &self.embed], [0, 100, 100]),
            Stage::Embed => ([&self.embed, &self.read, &self.shape], [60, 140, 140]),
            Stage::Shape => ([&self.shape, &self.embed, &self.draw], [60, 180, 180]),
            Stage::Draw => ([&self.draw, &self.shape, &self.lines], [60, 220, 221]),
        };
        self.pass_at(ordinal, parts, numbers);
    }
}

/// A source of 700 edges followed by a fault. It returns one edge a read, and waits before the last one until the sink
/// got a line.
#[derive(Drop)]
struct Edges<'s> {
    seen: &'s Seen,
    reads: u32,
}

impl Edges<'_> {
    /// What the next read returns, if there is to be one.
    fn next(&mut self) -> Option<&'static [u8]> {
        let read = self.reads;
        self.reads = read.saturating_add(1);
        if read == 700 {
            self.seen.wait_for(&self.seen.lines, 1);
        }
        match read {
            0 => Some(b">>planar_code<<"),
            1..701 => Some(b"\x02\x02\x00\x01\x00"),
            701 => Some(b"\x00"),
            _ => None,
        }
    }
}

impl Tap for Edges<'_> {
    ghost to_come = { λ _. None };

    ghost fails = { λ _. false };

    fn read(&mut self, buf: &mut [u8]) -> Result<usize, TapFault> {
        let piece = self.next().unwrap_or(b"");
        if piece.is_empty() || buf.len() < piece.len() {
            self.seen.strayed.store(true, Ordering::SeqCst);
            return Err(TapFault);
        }
        buf[..piece.len()].copy_from_slice(piece);
        Ok(piece.len())
    }
}

/// Opens one of these sources.
#[derive(Clone, Copy)]
struct Files<'s> {
    seen: &'s Seen,
}

impl<'s> Opener for Files<'s> {
    type Source = Edges<'s>;

    ghost meaning = { λ _ _. Silent };

    fn open(&self, _alloc: Global, _file: u32) -> Result<Edges<'s>, OpenFault> {
        Ok(Edges {
            seen: self.seen,
            reads: 0,
        })
    }
}

/// Takes a text. When it gets lines of records after those at which stages are held, it waits until as many more
/// records are drawn as the fan has room for, or all of them.
#[derive(Drop)]
struct Held<'s> {
    seen: &'s Seen,
    text: Vec<u8>,
}

impl Write for Held<'_> {
    fn write(&mut self, buf: &[u8]) -> io::Result<usize> {
        let mut more = 0u32;
        for byte in buf {
            if *byte == b'\n' {
                more = more.saturating_add(1);
            }
        }
        let lines = self
            .seen
            .lines
            .fetch_add(more, Ordering::SeqCst)
            .saturating_add(more);
        if self.seen.is_held && lines > 221 {
            let drawn = lines.saturating_add(57).min(700);
            self.seen.wait_for(&self.seen.draw, drawn);
        }
        self.text.write(buf)
    }

    fn flush(&mut self) -> io::Result<()> {
        Ok(())
    }
}

/// The output for the source in this form, over one lane whose links have room for 64, and how the run ended.
fn run<R: AllocGlobal + Threads + Wait + Sync>(
    rt: &R,
    seen: &Seen,
    form: Form,
) -> (Result<u8, Fault>, Vec<u8>) {
    let alloc = rt.alloc();
    let text = Vec::new(alloc);
    let mut sink = IoSink::new(Held { seen, text });
    let (files, choice) = (Files { seen }, Choice::First);
    let drawing_kind = DrawingKind::Quick;
    let style = Style { form, drawing_kind };
    let ended = write_batch(
        rt,
        alloc,
        &files,
        1,
        1,
        64,
        usize::MAX,
        choice,
        style,
        seen,
        &mut sink,
    );
    let Held { seen: _, text } = sink.into_writer();
    (ended, text)
}

/// Checks that the text has this many lines and this end, and that nothing came too late or too early.
fn check<R: AllocGlobal + Threads + Wait + Sync + Abort>(
    rt: &R,
    seen: &Seen,
    form: Form,
    lines: usize,
    ends: &[u8],
) {
    let (ended, text) = run(rt, seen, form);
    let ran_out = seen.ran_out.load(Ordering::SeqCst);
    same!(rt, (ended, ran_out), (Ok(3), false));
    same!(rt, seen.strayed.load(Ordering::SeqCst), false);
    same!(rt, text.as_slice().ends_with(ends), true);
    let found = text.as_slice().split(|byte| *byte == b'\n').count();
    same!(rt, found, lines);
}

/// Lines leave while their file is read, each stage passes the gate before it hands a record on, and each part is as
/// far ahead as there is room: while lines leave, the fan has room for 64 more, and the last stage has one.
#[test]
fn gate_sees_lines_leave(rt: HostRuntime) {
    let report = Seen::nothing(true);
    let ends = b"graph 700 ok n=2 m=1 f=1 bends=0 drawn=yes\nend large graphs=700\n";
    check(&rt, &report, Form::Report, 703, ends);
    let json = Seen::nothing(false);
    let ends = b"\n{\"end\":\"large\",\"file\":1,\"graphs\":700}\n";
    check(&rt, &json, Form::Json, 702, ends);
}
