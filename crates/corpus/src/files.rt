//! Files, and files in memory.

use anyhow::{Context, Result};
use collector::MemOpener;
use std::fs;
use std::rt::Files;

/// How many bytes a read gives at most.
const MOST: usize = 65_536;

/// The bytes of a file.
pub fn read_file<R: Files + AllocGlobal>(rt: &R, name: &str) -> Result<Vec<u8>> {
    fs::read(rt, name).context(format_args!("{name}"))
}

/// These files, read into memory.
pub fn read_files<R: Files + AllocGlobal>(rt: &R, names: &[String]) -> Result<MemOpener> {
    let mut files = Vec::with_capacity(rt.alloc(), names.len())?;
    for name in names {
        files.push(read_file(rt, name.as_str())?)?;
    }
    Ok(MemOpener::new(files, MOST))
}
