//! How long whole runs over files in memory take, on one thread and over lanes.

ghost use Rattle.std.specs.Prelude.{◌≤◌};

use crate::files::read_file;
use anyhow::{Result, bail};
use collector::{Batch, Choice, MAX_CAPACITY, MemOpener, OpenGate, run_batch, run_plain};
use std::rt::{Clock, Files};
use std::sync::Wait;
use std::thread::Threads;
use std::time::Instant;

/// How many bytes a read gives at most.
const MOST: usize = 65_536;

/// These files, read into memory.
fn read_files<R: Files + AllocGlobal>(rt: &R, names: &[String]) -> Result<MemOpener> {
    let mut files = Vec::with_capacity(rt.alloc(), names.len())?;
    for name in names {
        files.push(read_file(rt, name.as_str())?)?;
    }
    Ok(MemOpener::new(files, MOST))
}

/// Prints how many graphs these files have, and the nanoseconds of a run over them on this thread.
pub fn time_plain<R: Files + Print + AllocGlobal + Clock>(rt: &R, names: &[String]) -> Result<()> {
    let opener = read_files(rt, names)?;
    let count = u32::try_from(names.len())?;
    let start = Instant::now(rt)?;
    let batch = run_plain(rt.alloc(), &opener, count, Choice::First)?;
    tell(rt, &batch, start)
}

/// Prints these numbers for a run over lanes. The first two arguments are the number of lanes and the room of a link, 1 to 64
/// messages.
pub fn time_lanes<R: Files + Print + AllocGlobal + Clock + Threads + Wait + Sync>(
    rt: &R,
    words: &[String],
) -> Result<()> {
    let [lanes, capacity, names @ ..] = words else {
        bail!("numbers of lanes and messages are missing");
    };
    let lanes = lanes.parse()?;
    let capacity = capacity.parse::<u32>()?.clamp(1, MAX_CAPACITY);
    time_over(rt, names, lanes, capacity)
}

/// Prints these numbers for a run over so many lanes, with room for so many messages in a link.
fn time_over<R: Files + Print + AllocGlobal + Clock + Threads + Wait + Sync>(
    rt: &R,
    names: &[String],
    lanes: u32,
    capacity: u32,
) -> Result<()>
    requires least { 1 ≤ capacity }
    requires most { capacity ≤ 64 }
{
    let opener = read_files(rt, names)?;
    let count = u32::try_from(names.len())?;
    let start = Instant::now(rt)?;
    let batch = run_batch(
        rt,
        rt.alloc(),
        &opener,
        count,
        lanes,
        capacity,
        Choice::First,
        &OpenGate,
    )?;
    tell(rt, &batch, start)
}

/// Prints how many graphs there are, and the time since the start.
fn tell<R: Print + Clock>(rt: &R, batch: &Batch, start: Instant) -> Result<()> {
    let taken = Instant::now(rt)?.duration_since(start).as_nanos();
    let graphs = graphs_of(batch);
    println!(rt; "graphs={graphs} ns={taken}")?;
    Ok(())
}

/// How many records a batch has.
fn graphs_of(batch: &Batch) -> usize {
    let mut graphs: usize = 0;
    for file in 0..batch.files() {
        graphs = graphs.saturating_add(batch.book(file).entries().len());
    }
    graphs
}
