//! Runs over random files, with random lanes, capacities and sizes of reads, whose stages are held up at random, to
//! books and to streamed output of which little may wait. Each report must be that of a run on one thread. All numbers
//! come from the seed, and none from the time.
ghost use Rattle.std.specs.Prelude.{◌<◌, ◌≤◌};

use crate::files::read_file;
use crate::runs::{report_of, report_over};
use anyhow::{Context, Result, bail, ensure};
use collector::{
    Choice, DrawingKind, Form, Gate, IoSink, MAX_CAPACITY, MAX_LANES, MemOpener, Stage, Style,
    run_plain,
};
use commands::write_batch;
use planar_code::{Ending, HEADER, Record};
use std::alloc::Global;
use std::rt::{Clock, Files};
use std::sync::Wait;
use std::sync::atomic::{AtomicU64, Ordering};
use std::thread;
use std::thread::Threads;
use std::time::Duration;
use test_tools::split;

/// What is added to the state of a generator at each step, an odd number near 2^64 over the golden ratio.
const STEP: u64 = 0x9E37_79B9_7F4A_7C15;

/// The generator SplitMix64. Threads may share it.
#[derive(Drop)]
struct Numbers {
    state: AtomicU64,
}

impl Numbers {
    /// The numbers that a seed gives.
    fn of(seed: u64) -> Numbers {
        Numbers {
            state: AtomicU64::new(seed),
        }
    }

    /// The next number.
    fn next(&self) -> u64 {
        let state = self
            .state
            .fetch_add(STEP, Ordering::SeqCst)
            .wrapping_add(STEP);
        let mixed = (state ^ (state >> 30)).wrapping_mul(0xBF58_476D_1CE4_E5B9);
        let mixed = (mixed ^ (mixed >> 27)).wrapping_mul(0x94D0_49BB_1331_11EB);
        mixed ^ (mixed >> 31)
    }

    /// The next number, from 0 to `most`.
    fn up_to(&self, most: u32) -> u32
        ensures { result ≤ most }
    {
        (self.next() % (u64::from(most) + 1)) as u32
    }

    /// The next number, from 1 to `most`: small ones come more often.
    fn small(&self, most: u32) -> u32
        requires { 1 ≤ most }
        ensures least { 1 ≤ result }
        ensures most { result ≤ most }
    {
        let bound = self.up_to(most - 1);
        self.up_to(bound) + 1
    }
}

/// A gate that lets most calls pass at once, and holds others up for some turns or a short sleep.
#[derive(Drop)]
struct Holding<'r, R> {
    rt: &'r R,
    numbers: Numbers,
}

impl<R: Clock + Sync> Gate for Holding<'_, R> {
    fn pass(&self, _lane: u32, _stage: Stage, _ordinal: u32) {
        match self.numbers.up_to(19) {
            0 => {
                let time = u64::from(self.numbers.up_to(300));
                thread::sleep(self.rt, Duration::from_micros(time));
            }
            1..=5 => {
                for _ in 0..self.numbers.up_to(40) {
                    thread::yield_now();
                }
            }
            _ => {}
        }
    }
}

/// Runs rounds over random files. The arguments are a seed, the number of rounds, and files of the graphs of which the
/// rounds' files are made.
pub fn run_random<R: Files + Print + AllocGlobal + Clock + Threads + Wait + Sync>(
    rt: &R,
    words: &[String],
) -> Result<()> {
    let [seed, rounds, names @ ..] = words else {
        bail!("a seed and a number of rounds are missing");
    };
    let records = all_records(rt, names)?;
    run_rounds(rt, seed.parse()?, rounds.parse()?, records.as_slice())
}

/// The records of all these files.
fn all_records<R: Files + AllocGlobal>(rt: &R, names: &[String]) -> Result<Vec<Record>> {
    let mut all = Vec::new(rt.alloc());
    for name in names {
        let bytes = read_file(rt, name.as_str())?;
        let (mut records, ending) = split(rt.alloc(), bytes.as_slice())?;
        ensure!(
            ending == Ending::Complete,
            "{name}: not the header and records"
        );
        all.append(&mut records)?;
    }
    Ok(all)
}

/// Runs the rounds, each with a generator of its own, and prints that all reports were alike.
fn run_rounds<R: Print + AllocGlobal + Clock + Threads + Wait + Sync>(
    rt: &R,
    seed: u64,
    rounds: u64,
    records: &[Record],
) -> Result<()> {
    for round in 0..rounds {
        let seed = seed.wrapping_add(round);
        let done = run_round(rt, &Numbers::of(seed), records);
        done.context(format_args!("seed {seed}"))?;
    }
    println!(rt; "{rounds} rounds over random files: the same reports over lanes")?;
    Ok(())
}

/// Runs over random files on one thread and over lanes: the reports must be the same.
fn run_round<R: AllocGlobal + Clock + Threads + Wait + Sync>(
    rt: &R,
    numbers: &Numbers,
    records: &[Record],
) -> Result<()> {
    let alloc = rt.alloc();
    let opener = random_files(alloc, numbers, records)?;
    // Files past those in memory do not open.
    let files = numbers.up_to(9);
    let choice = random_choice(numbers);
    let report = report_of(alloc, &run_plain(alloc, &opener, files, choice)?)?;
    let lanes = numbers.up_to(MAX_LANES - 1) + 1;
    let found = random_run(rt, numbers, &opener, files, lanes, choice)?;
    ensure!(found == report, "another report over {lanes} lanes");
    let text = random_text(rt, numbers, &opener, files, lanes, choice)?;
    ensure!(text == report, "another text over {lanes} lanes");
    Ok(())
}

/// The report of a run over lanes, with random room between two threads, which are held up at random.
fn random_run<R: AllocGlobal + Clock + Threads + Wait + Sync>(
    rt: &R,
    numbers: &Numbers,
    opener: &MemOpener,
    files: u32,
    lanes: u32,
    choice: Choice,
) -> Result<Vec<u8>> {
    let capacity = numbers.small(MAX_CAPACITY);
    let gate = Holding {
        rt,
        numbers: Numbers::of(numbers.next()),
    };
    report_over(rt, opener, files, lanes, capacity, choice, &gate)
}

/// The streamed output of a run over lanes, of which a random number of bytes may wait, mostly fewer than one line of
/// each file takes.
fn random_text<R: AllocGlobal + Clock + Threads + Wait + Sync>(
    rt: &R,
    numbers: &Numbers,
    opener: &MemOpener,
    files: u32,
    lanes: u32,
    choice: Choice,
) -> Result<Vec<u8>> {
    let capacity = numbers.small(MAX_CAPACITY);
    let most = numbers.up_to(100_000) as usize;
    let gate = Holding {
        rt,
        numbers: Numbers::of(numbers.next()),
    };
    let alloc = rt.alloc();
    let style = Style {
        form: Form::Report,
        drawing_kind: random_drawing(numbers),
    };
    let mut sink = IoSink::new(Vec::new(alloc));
    let ended = write_batch(
        rt, alloc, opener, files, lanes, capacity, most, choice, style, &gate, &mut sink,
    );
    match ended {
        Ok(_) => Ok(sink.into_writer()),
        Err(fault) => bail!("no text over {lanes} lanes: {fault:?}"),
    }
}

/// Either kind of drawings.
fn random_drawing(numbers: &Numbers) -> DrawingKind {
    if numbers.up_to(1) == 0 {
        DrawingKind::Short
    } else {
        DrawingKind::Quick
    }
}

/// Mostly the greatest outer face.
fn random_choice(numbers: &Numbers) -> Choice {
    if numbers.up_to(3) == 0 {
        Choice::Best
    } else {
        Choice::First
    }
}

/// Up to eight files in memory, which are read with a random size of reads.
fn random_files(alloc: Global, numbers: &Numbers, records: &[Record]) -> Result<MemOpener> {
    let mut files = Vec::new(alloc);
    for _ in 0..numbers.up_to(8) {
        files.push(random_file(alloc, numbers, records)?)?;
    }
    Ok(MemOpener::new(files, numbers.small(2_000) as usize))
}

/// The header and some of the records. One file in four is cut, or has another byte in one place.
fn random_file(alloc: Global, numbers: &Numbers, records: &[Record]) -> Result<Vec<u8>> {
    let mut bytes = HEADER.to_vec(alloc)?;
    for _ in 0..numbers.up_to(12) {
        let place = numbers.next() as usize % records.len().max(1);
        let record = records.get(place).context("no records")?;
        bytes.extend_from_slice(record.bytes())?;
    }
    damage(numbers, &mut bytes);
    Ok(bytes)
}

/// Cuts one of eight files, and changes a byte of another.
fn damage(numbers: &Numbers, bytes: &mut Vec<u8>) {
    let place = numbers.next() as usize % bytes.len().max(1);
    match numbers.up_to(7) {
        0 => bytes.truncate(place),
        1 => {
            if let Some(byte) = bytes.get_mut(place) {
                *byte = numbers.up_to(12) as u8;
            }
        }
        _ => {}
    }
}
