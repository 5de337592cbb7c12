//! A source that returns no more bytes until all records that it returned are drawn. The bytes and the texts come from
//! the descriptions of the format and of the report.
ghost use Rattle.std.specs.Prelude.{◌≡◌, ◌≤◌};
ghost use Rattle.ruled_lanes.specs.declared.channel.TheConstants.{MAX_CAPACITY};
ghost use Rattle.lanes.specs.Opening.{Silent};

use crate::collector_pauses::tell_file;
use crate::reported::QUICK;
use collector::{Choice, Gate, IoSink, MemTap, OpenFault, Opener, Stage, Tap, TapFault};
use commands::write_batch;
use ruled_lanes::MAX_CAPACITY;
use std::alloc::{AllocError, Global};
use std::process::Abort;
use std::sync::Wait;
use std::sync::atomic::{AtomicBool, AtomicU32, Ordering};
use std::thread::Threads;
use test_tools::records::{EDGE, HEADER};
use test_tools::{same, wait_for_count};

/// The number of records of the file.
const RECORDS: u32 = 200;

/// Counts the drawn records, and notes whether a read waited too long for one.
#[derive(Drop)]
struct Drawn {
    count: AtomicU32,
    ran_out: AtomicBool,
}

impl Gate for Drawn {
    fn pass(&self, _lane: u32, stage: Stage, _ordinal: u32) {
        if stage == Stage::Draw {
            self.count.fetch_add(1, Ordering::SeqCst);
        }
    }
}

/// A file of edges. Before each read it waits until all records that it returned whole are being drawn.
#[derive(Drop)]
struct SlowTap<'d> {
    drawn: &'d Drawn,
    gave: usize,
    tap: MemTap,
}

impl Tap for SlowTap<'_> {
    ghost to_come = { λ t. ⟦<MemTap as Tap>⟧.to_come t.tap };

    ghost fails = { λ t. ⟦<MemTap as Tap>⟧.fails t.tap };

    fn read(&mut self, buf: &mut [u8]) -> Result<usize, TapFault> {
        let whole = self.gave.saturating_sub(HEADER.len()) / EDGE.len();
        let least = u32::try_from(whole).unwrap_or(u32::MAX);
        wait_for_count(&self.drawn.count, least, &self.drawn.ran_out);
        let count = self.tap.read(buf)?;
        self.gave = self.gave.saturating_add(count);
        Ok(count)
    }
}

/// Opens the file, of which a read returns at most this many bytes.
#[derive(Clone, Copy)]
struct Slow<'d> {
    drawn: &'d Drawn,
    most: usize,
}

/// The bytes of the file.
fn bytes_of_edges(alloc: Global) -> Result<Vec<u8>, AllocError> {
    let mut bytes = HEADER.to_vec(alloc)?;
    for _ in 0..RECORDS {
        bytes.extend_from_slice(EDGE)?;
    }
    Ok(bytes)
}

impl<'d> Opener for Slow<'d> {
    type Source = SlowTap<'d>;

    ghost meaning = { λ _ _. Silent };

    fn open(&self, alloc: Global, _file: u32) -> Result<SlowTap<'d>, OpenFault> {
        match bytes_of_edges(alloc) {
            Ok(bytes) => Ok(SlowTap {
                drawn: self.drawn,
                gave: 0,
                tap: MemTap::new(bytes, self.most.max(1)),
            }),
            Err(AllocError) => Err(OpenFault::Memory),
        }
    }
}

/// Checks that a run over the file writes its report and no read waits too long. A read returns at most this many
/// bytes.
fn check<R: AllocGlobal + Threads + Wait + Sync + Abort>(rt: &R, most: usize, capacity: u32)
    requires { (1 ≤ capacity) × (capacity ≤ MAX_CAPACITY) }
{
    let drawn = Drawn {
        count: AtomicU32::new(0),
        ran_out: AtomicBool::new(false),
    };
    let opener = Slow {
        drawn: &drawn,
        most,
    };
    let (alloc, choice) = (rt.alloc(), Choice::First);
    let mut sink = IoSink::new(Vec::new(alloc));
    let ended = write_batch(
        rt,
        alloc,
        &opener,
        1,
        1,
        capacity,
        usize::MAX,
        choice,
        QUICK,
        &drawn,
        &mut sink,
    );
    same!(rt, ended, Ok(0));
    same!(rt, drawn.ran_out.load(Ordering::SeqCst), false);
    let mut report = String::new(alloc);
    tell_file(&mut report, 1, RECORDS).expect(rt, "memory");
    same!(rt, sink.into_writer().as_slice(), report.as_bytes());
}

/// No record waits for the next read of its source.
/// A read completes no record, one, some, or more than a message carries.
#[test]
fn no_record_waits_for_its_source(rt: HostRuntime) {
    for most in [2, 5, 43, 512] {
        check(&rt, most, 1);
        check(&rt, most, MAX_CAPACITY);
    }
}
