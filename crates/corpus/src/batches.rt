//! Runs over whole files, on one thread and over lanes: their reports must be the same.

use crate::files::read_files;
use crate::readback::test_lines;
use crate::run_texts::compare_texts;
use crate::runs::{report_of, report_over};
use anyhow::{Context, Result, ensure};
use collector::{Choice, MAX_LANES, MemOpener, OpenGate, run_plain};
use std::alloc::Global;
use std::io;
use std::io::Write;
use std::rt::Files;
use std::sync::Wait;
use std::thread::Threads;

/// How many messages may wait between two threads.
const CAPACITIES: [u32; 2] = [1, 16];

/// Compares runs over files with the widest outer face, and over files with the best one.
///
/// The former are the files before the word `best`, the latter those after it.
pub fn compare_choices<R: Files + Print + AllocGlobal + Threads + Wait + Sync>(
    rt: &R,
    words: &[String],
) -> Result<()> {
    let mut lists = words.split(|word| word.as_str() == "best");
    compare_runs(rt, lists.next().unwrap_or(&[]), Choice::First)?;
    compare_runs(rt, lists.next().unwrap_or(&[]), Choice::Best)
}

/// Prints the report of each file by itself. The report of all files at once must be these one after
/// another, but for the files' numbers.
fn compare_runs<R: Files + Print + AllocGlobal + Threads + Wait + Sync>(
    rt: &R,
    names: &[String],
    choice: Choice,
) -> Result<()> {
    let mut joined = Vec::new(rt.alloc());
    for (place, name) in names.chunks(1).enumerate() {
        let report = report_of_runs(rt, name, choice)?;
        io::writer(rt).write_all(report.as_slice())?;
        put_report(rt.alloc(), &mut joined, place as u64 + 1, report.as_slice())?;
    }
    let report = report_of_runs(rt, names, choice)?;
    ensure!(report == joined, "another report of all files at once");
    compare_texts(rt, names, choice)
}

/// Appends the report of one file to those of others, under this number.
fn put_report(alloc: Global, joined: &mut Vec<u8>, number: u64, report: &[u8]) -> Result<()> {
    let lines = report.strip_prefix(b"file 1\n");
    joined.extend_from_slice(format!(in alloc; "file {number}\n")?.as_bytes())?;
    joined.extend_from_slice(lines.context("a report without its first line")?)?;
    Ok(())
}

/// The report of these files, which must be the same over lanes. Their JSON lines are tested, too.
fn report_of_runs<R: Files + AllocGlobal + Threads + Wait + Sync>(
    rt: &R,
    names: &[String],
    choice: Choice,
) -> Result<Vec<u8>> {
    let opener = read_files(rt, names)?;
    let count = u32::try_from(names.len())?;
    let report = plain_report(rt.alloc(), &opener, count, choice)?;
    for lanes in 1..=MAX_LANES {
        let same = is_same_over(rt, &opener, count, lanes, choice, report.as_slice())?;
        ensure!(same, "another report over lanes");
    }
    Ok(report)
}

/// The report of a run on one thread. Its JSON lines are tested first.
fn plain_report(alloc: Global, opener: &MemOpener, files: u32, choice: Choice) -> Result<Vec<u8>> {
    let batch = run_plain(alloc, opener, files, choice)?;
    test_lines(alloc, &batch)?;
    report_of(alloc, &batch)
}

/// Whether runs over this many lanes give this report, with links of each capacity.
fn is_same_over<R: AllocGlobal + Threads + Wait + Sync>(
    rt: &R,
    opener: &MemOpener,
    files: u32,
    lanes: u32,
    choice: Choice,
    report: &[u8],
) -> Result<bool> {
    for capacity in CAPACITIES {
        let found = report_over(rt, opener, files, lanes, capacity, choice, &OpenGate)?;
        if found.as_slice() != report {
            return Ok(false);
        }
    }
    Ok(true)
}
