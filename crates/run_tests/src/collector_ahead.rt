//! How far later files are read while the first is held. The bytes and the texts come from the descriptions of the format
//! and of the report.
ghost use Rattle.std.specs.Prelude.{false, None};
ghost use Rattle.lanes.specs.Opening.{Silent};

use crate::collector_pauses::{AHEAD, rest, settle, tell_file};
use crate::reported::QUICK;
use collector::{Choice, IoSink, OpenFault, OpenGate, Opener, Tap, TapFault};
use commands::{Fault, write_batch};
use std::alloc::{AllocError, Global};
use std::sync::Wait;
use std::sync::atomic::{AtomicBool, AtomicU32, Ordering};
use std::thread::Threads;
use test_tools::records::{EDGE, HEADER};
use test_tools::same;

/// How many records each file has.
const RECORDS: [u32; 4] = [1, 3, 1_000, 1_000];

/// How many bytes may wait: four pieces of 16,384 bytes.
const MOST: usize = 65_536;

/// How many lines of edges fit in one piece and in two. The line of graph k has 40 bytes and the digits of k: 383 lines
/// fit in the first piece, 381 in the next one.
const IN_ONE: u32 = 383;

const IN_TWO: u32 = 764;

/// The record at which the third file waits for the last one: it is read this far only after the first file was read
/// on.
const FAR: u32 = 900;

/// What is seen of the third and the last file: how many of their records were begun, and how many before the first
/// file was read on.
#[derive(Drop)]
struct Seen {
    third: AtomicU32,
    last: AtomicU32,
    third_held: AtomicU32,
    last_held: AtomicU32,
    ran_out: AtomicBool,
}

/// Four files of edges. The first is held until the third was read far and no file is read any more.
#[derive(Drop)]
struct Held<'r, R> {
    rt: &'r R,
    seen: &'r Seen,
}

/// An open file of them.
#[derive(Drop)]
struct HeldTap<'r, R> {
    of: Held<'r, R>,
    file: u32,
    at: usize,
    records: u32,
}

impl<R: Wait> Held<'_, R> {
    /// Waits until more of the last file is read than while the first was held, and notes if thirty seconds were too
    /// few.
    fn meet(&self) {
        for _ in 0..3_000 {
            if self.seen.last.load(Ordering::SeqCst) > AHEAD.saturating_add(2) {
                return;
            }
            rest(self.rt);
        }
        self.seen.ran_out.store(true, Ordering::SeqCst);
    }

    /// Waits until a record after the first piece of the third file is begun, and then until no more are. Notes how
    /// many were begun, and whether thirty seconds were too few.
    fn hold(&self) {
        for _ in 0..3_000 {
            if self.seen.third.load(Ordering::SeqCst) > IN_ONE {
                break;
            }
            rest(self.rt);
        }
        let came = self.seen.third.load(Ordering::SeqCst) > IN_ONE;
        self.seen.ran_out.store(!came, Ordering::SeqCst);
        let (third, last) = (&self.seen.third, &self.seen.last);
        settle(self.rt, &[third, last]);
        let (third_held, last_held) = (&self.seen.third_held, &self.seen.last_held);
        third_held.store(third.load(Ordering::SeqCst), Ordering::SeqCst);
        last_held.store(last.load(Ordering::SeqCst), Ordering::SeqCst);
    }
}

impl<R: Wait> HeldTap<'_, R> {
    /// The next byte, if there is one.
    fn next(&self) -> Option<u8> {
        let byte = if self.at < HEADER.len() {
            HEADER.get(self.at)
        } else if (self.at - HEADER.len()) / EDGE.len() < self.records as usize {
            EDGE.get((self.at - HEADER.len()) % EDGE.len())
        } else {
            None
        };
        byte.copied()
    }

    /// Notes that a record is begun.
    fn begin(&self) {
        if self.at < HEADER.len() || (self.at - HEADER.len()) % EDGE.len() != 0 {
            return;
        }
        match self.file {
            2 => {
                if self.of.seen.third.fetch_add(1, Ordering::SeqCst) == FAR {
                    self.of.meet();
                }
            }
            3 => {
                self.of.seen.last.fetch_add(1, Ordering::SeqCst);
            }
            _ => {}
        }
    }
}

impl<R: Wait> Tap for HeldTap<'_, R> {
    ghost to_come = { λ _. None };

    ghost fails = { λ _. false };

    fn read(&mut self, buf: &mut [u8]) -> Result<usize, TapFault> {
        if self.file == 0 && self.at == 0 {
            self.of.hold();
        }
        match (buf.first_mut(), self.next()) {
            (Some(place), Some(byte)) => {
                self.begin();
                *place = byte;
                self.at = self.at.saturating_add(1);
                Ok(1)
            }
            _ => Ok(0),
        }
    }
}

impl<'r, R: Wait + Sync> Opener for Held<'r, R> {
    type Source = HeldTap<'r, R>;

    ghost meaning = { λ _ _. Silent };

    fn open(&self, _alloc: Global, file: u32) -> Result<HeldTap<'r, R>, OpenFault> {
        match RECORDS.get(file as usize) {
            Some(records) => Ok(HeldTap {
                of: Held {
                    rt: self.rt,
                    seen: self.seen,
                },
                file,
                at: 0,
                records: *records,
            }),
            None => Err(OpenFault::Io),
        }
    }
}

/// The report of the four files.
fn report(alloc: Global) -> Result<String, AllocError> {
    let mut report = String::new(alloc);
    let mut file: u32 = 0;
    for records in RECORDS {
        file = file.saturating_add(1);
        tell_file(&mut report, file, records)?;
    }
    Ok(report)
}

/// How a run over the four files and four lanes ended, and its text.
fn run<R: AllocGlobal + Threads + Wait + Sync>(
    rt: &R,
    seen: &Seen,
) -> (Result<u8, Fault>, Vec<u8>) {
    let opener = Held { rt, seen };
    let mut sink = IoSink::new(Vec::new(rt.alloc()));
    let (alloc, choice) = (rt.alloc(), Choice::First);
    let ended = write_batch(
        rt, alloc, &opener, 4, 4, 1, MOST, choice, QUICK, &OpenGate, &mut sink,
    );
    (ended, sink.into_writer())
}

/// While the first file is held, later files are read until four pieces of their lines wait.
/// The third file is the next one that has not ended, once the short second one has. It is read until one piece of the
/// second file waits, at most one of the last, and so its own second or third one. The last file pauses as soon as one
/// piece waits. Afterwards all go on, the last file beside the third, for which there is room again.
#[test]
fn later_files_are_read_until_so_much_waits(rt: HostRuntime) {
    let report = report(rt.alloc()).expect(&rt, "memory");
    let seen = Seen {
        third: AtomicU32::new(0),
        last: AtomicU32::new(0),
        third_held: AtomicU32::new(0),
        last_held: AtomicU32::new(0),
        ran_out: AtomicBool::new(false),
    };
    let (ended, text) = run(&rt, &seen);
    same!(
        &rt,
        (ended, seen.ran_out.load(Ordering::SeqCst)),
        (Ok(0), false),
    );
    same!(&rt, text.as_slice(), report.as_bytes());
    let (third, last) = (
        seen.third_held.load(Ordering::SeqCst),
        seen.last_held.load(Ordering::SeqCst),
    );
    let most = AHEAD.saturating_add(2);
    same!(&rt, third <= IN_TWO.saturating_add(most), true);
    same!(&rt, last <= most, true);
}
