//! Reports of runs.

ghost use Rattle.std.specs.Prelude.{◌≤◌};

use anyhow::Result;
use collector::{Batch, Choice, Gate, IoSink, MemOpener, run_batch, write_report};
use std::alloc::Global;
use std::sync::Wait;
use std::thread::Threads;

/// The report of a run over lanes.
pub fn report_over<R: AllocGlobal + Threads + Wait + Sync, G: Gate>(
    rt: &R,
    opener: &MemOpener,
    files: u32,
    lanes: u32,
    capacity: u32,
    choice: Choice,
    gate: &G,
) -> Result<Vec<u8>>
    requires least { 1 ≤ capacity }
    requires most { capacity ≤ 64 }
{
    let alloc = rt.alloc();
    let batch = run_batch(rt, alloc, opener, files, lanes, capacity, choice, gate)?;
    report_of(alloc, &batch)
}

/// The report of a batch.
pub fn report_of(alloc: Global, batch: &Batch) -> Result<Vec<u8>> {
    let mut sink = IoSink::new(Vec::new(alloc));
    write_report(batch, &mut sink)?;
    Ok(sink.into_writer())
}
