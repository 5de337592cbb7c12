//! A run of the whole command, whose links have room for many messages.
ghost use Rattle.std.specs.Prelude.{false, None};
ghost use Rattle.lanes.specs.Opening.{Silent};

use collector::{IoSink, Tap, TapFault};
use commands::{Console, KeepsReason, NamedFiles, Reason, Refused, command};
use std::alloc::Global;
use std::sync::Wait;
use std::sync::atomic::{AtomicBool, AtomicU32, Ordering};
use std::test::Fail;
use std::thread::Threads;
use test_tools::records::{EDGE, HEADER};
use test_tools::{same, wait_for_count};

/// A source of this many edges, a read each, whose reads are counted.
#[derive(Drop)]
struct Edges<'r> {
    reads: &'r AtomicU32,
    left: u32,
    is_begun: bool,
}

impl Edges<'_> {
    /// What the next read returns.
    fn next(&mut self) -> &'static [u8] {
        if !self.is_begun {
            self.is_begun = true;
            return HEADER;
        }
        if self.left == 0 {
            return b"";
        }
        self.left -= 1;
        EDGE
    }
}

impl Tap for Edges<'_> {
    ghost to_come = { λ _. None };

    ghost fails = { λ _. false };

    fn read(&mut self, buf: &mut [u8]) -> Result<usize, TapFault> {
        self.reads.fetch_add(1, Ordering::SeqCst);
        let piece = self.next();
        if buf.len() < piece.len() {
            return Err(TapFault);
        }
        buf[..piece.len()].copy_from_slice(piece);
        Ok(piece.len())
    }
}

impl KeepsReason for Edges<'_> {
    fn reason(&self) -> Reason {
        Reason::UNKNOWN
    }
}

/// Opens sources of 400 edges, by any name.
#[derive(Clone, Copy)]
struct Input<'r> {
    reads: &'r AtomicU32,
}

impl<'r> NamedFiles for Input<'r> {
    type Source = Edges<'r>;

    ghost meaning = { λ _ _. Silent };

    fn open(&self, _alloc: Global, _name: &str) -> Result<Edges<'r>, Refused> {
        Ok(Edges {
            reads: self.reads,
            left: 400,
            is_begun: false,
        })
    }
}

/// A console that shows nothing. A run asks it for the time when it begins; when it is asked again, it waits until the
/// input was read 150 times, and notes if a million turns were too few.
#[derive(Drop)]
struct Held<'r> {
    is_begun: AtomicBool,
    reads: &'r AtomicU32,
    ran_out: AtomicBool,
}

impl Console for Held<'_> {
    ghost has_terminal = { λ _. false };

    fn out_is_terminal(&self) -> bool {
        false
    }

    fn is_terminal(&self) -> bool {
        false
    }

    fn time(&self) -> u64 {
        if !self.is_begun.swap(true, Ordering::SeqCst) {
            return 0;
        }
        wait_for_count(self.reads, 150, &self.ran_out);
        0
    }

    fn show(&self, _text: &[u8]) {}
}

/// Runs the command with these arguments, on these files; returns its status and what it wrote.
fn ran<R: AllocGlobal + Threads + Wait + Sync, N: NamedFiles, C: Console + Sync>(
    rt: &R,
    words: &[String],
    files: &N,
    console: &C,
) -> (u8, Vec<u8>) {
    let mut out = IoSink::new(Vec::new(rt.alloc()));
    let mut err = IoSink::new(Vec::new(rt.alloc()));
    let status = command(rt, words, files, console, &mut out, &mut err);
    (status, out.into_writer())
}

/// While the first graph is held in front of its drawing, more than a hundred others are read.
#[test]
fn links_hold_many_messages(rt: HostRuntime) -> Result<(), Fail> {
    let reads = AtomicU32::new(0);
    let console = Held {
        is_begun: AtomicBool::new(false),
        reads: &reads,
        ran_out: AtomicBool::new(false),
    };
    let input = Input { reads: &reads };
    let mut words = Vec::new(rt.alloc());
    for word in ["layout", "--progress", "--progress", "-"] {
        words.push(String::from_str(rt.alloc(), word)?)?;
    }
    let (status, text) = ran(&rt, words.as_slice(), &input, &console);
    same!(&rt, status, 0);
    same!(&rt, console.ran_out.load(Ordering::SeqCst), false);
    let end = b"graph 400 ok n=2 m=1 f=1 bends=0 drawn=yes\nend complete graphs=400\n";
    same!(&rt, text.as_slice().ends_with(end), true);
    Ok(())
}
