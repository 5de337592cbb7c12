//! Files read in pieces, beside the plain splitter.
ghost use Rattle.std.specs.Prelude.{◌<◌};

use crate::files::read_file;
use anyhow::{Result, ensure};
use collector::{Frames, Mark, MemTap, run_frames};
use planar_code::{Ending, Record};
use std::rt::Files;
use std::sync::Wait;
use std::thread::Threads;
use test_tools::split;

/// How many bytes a read gives at most.
const SIZES: [usize; 4] = [1, 2, 7, 65_536];

/// Checks that a file read in pieces gives the same records as the whole file.
pub fn compare<R: Files + Print + AllocGlobal + Threads + Wait + Sync>(
    rt: &R,
    name: &str,
) -> Result<()> {
    let bytes = read_file(rt, name)?;
    let (records, ending) = split(rt.alloc(), bytes.as_slice())?;
    for most in SIZES {
        let found = read_in_pieces(rt, bytes.as_slice(), most)?;
        let same = is_same(&found, records.as_slice(), ending);
        ensure!(same, "another answer in pieces");
    }
    tell(rt, name, records.len(), ending)
}

/// What a run finds that reads the bytes in pieces.
fn read_in_pieces<R: AllocGlobal + Threads + Wait + Sync>(
    rt: &R,
    bytes: &[u8],
    most: usize,
) -> Result<Frames>
    requires { 0 < most }
{
    let source = MemTap::new(bytes.to_vec(rt.alloc())?, most);
    Ok(run_frames(rt, rt.alloc(), source, 16)?)
}

/// Prints how many records a file has, and how it ends.
fn tell<R: Print>(rt: &R, name: &str, count: usize, ending: Ending) -> Result<()> {
    println!(rt; "{name}: {count} records and {ending:?}, in pieces of 1, 2, 7 and 65536 bytes")?;
    Ok(())
}

/// Whether a run found these records and this ending.
fn is_same(found: &Frames, records: &[Record], ending: Ending) -> bool {
    found.mark() == Mark::Ended(ending)
        && found.records().len() == records.len()
        && found
            .records()
            .iter()
            .zip(records)
            .all(|(a, b)| a.bytes() == b.bytes())
}
