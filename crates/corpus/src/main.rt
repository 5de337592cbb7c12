//! Tries the layers of the library on files of other tools. After the word `pieces` each file that is named is read in
//! pieces of several sizes, and what is found is compared with what the plain splitter finds in the whole file.
//!
//! Each file after the word `short` is laid out with short drawings, twice in one run over lanes; the lines are tested,
//! and what they show must be within bounds. Of a file after `growing` the graphs of its first edges are laid out, of
//! one edge, two and so on up to all.
//!
//! All arguments after `batches` are files; those after the word `best` are laid out with the best outer face. The
//! report of each is printed, and compared with that of runs over lanes, as is the report of all files at once; the
//! JSON lines of each are read back and tested. Both kinds of streamed output of all files at once must be those of
//! books. An error is printed after the output for the files before.
//!
//! Two commands are for scripts of checks/. After `stress`, a seed and a number of rounds come files, of whose graphs
//! random files are made and run over lanes that are held up at random. After `again` come files: each graph goes
//! through the calls of each layer, and a call that runs out of memory is made again.
#![tactic(auto)]

mod again;
mod batches;
mod figures;
mod files;
mod growing;
mod pieces;
mod readback;
mod run_texts;
mod runs;
mod shapes;
mod short;
mod stress;

use again::ask_again;
use anyhow::Result;
use batches::compare_choices;
use growing::compare_growing;
use pieces::compare;
use short::compare_short;
use std::env;
use std::rt::Files;
use std::sync::Wait;
use std::thread::Threads;
use stress::run_random;

/// Does the task that the first word names, or compares the pieces of files.
fn main(rt: HostRuntime) -> Result<()> {
    let words = env::args(&rt)?.skip(1).collect::<Vec<String>>(rt.alloc())?;
    let mut task = "pieces";
    for (place, word) in words.iter().enumerate() {
        match word.as_str() {
            "pieces" | "short" | "growing" => task = word.as_str(),
            "batches" => return compare_choices(&rt, &words[place + 1..]),
            "stress" => return run_random(&rt, &words[place + 1..]),
            "again" => return ask_again(&rt, &words[place + 1..]),
            name => try_file(&rt, task, name)?,
        }
    }
    Ok(())
}

/// Tries a file as the word before it says.
fn try_file<R: Files + Print + AllocGlobal + Threads + Wait + Sync>(
    rt: &R,
    task: &str,
    name: &str,
) -> Result<()> {
    match task {
        "short" => compare_short(rt, name),
        "growing" => compare_growing(rt, name),
        _ => compare(rt, name),
    }
}
