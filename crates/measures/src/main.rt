//! Times how long the layers of the library take on files of planar_code, for the scripts of bench/.
//!
//! - `planes FILE..` reads each graph, traces its faces, and prints a line for each.
//! - `stages ROUNDS FILE..` prints for each file the nanoseconds of each stage from a record to a checked drawing, and
//!   `best ROUNDS FILE..` those of a least shape and of the best outer face: the sum over the graphs, of which each
//!   counts by the least of its rounds. With 0 rounds it runs all of it once, and prints no times.
//! - `plain FILE..` and `lanes LANES ROOM FILE..` print the nanoseconds of a whole run over these files in memory, on
//!   one thread, and over lanes whose links have room for `ROOM` messages.
//! - `snake ROUNDS PARTS..` prints the least nanoseconds of the check of a drawing of one edge with about `PARTS` parts.
#![tactic(auto)]

mod best;
mod files;
mod planes;
mod runs;
mod snake;
mod stages;

use anyhow::{Result, bail};
use best::tell_best;
use planes::tell_planes;
use runs::{time_lanes, time_plain};
use snake::tell_snake;
use stages::tell_stages;
use std::env;
use std::rt::{Clock, Files};
use std::sync::Wait;
use std::thread::Threads;

/// Runs the command that the first word names.
fn main(rt: HostRuntime) -> Result<()> {
    let words = env::args(&rt)?.skip(1).collect::<Vec<String>>(rt.alloc())?;
    let [command, rest @ ..] = words.as_slice() else {
        bail!("no command");
    };
    run(&rt, command.as_str(), rest)
}

/// Runs a command with these arguments.
fn run<R: Files + Print + AllocGlobal + Clock + Threads + Wait + Sync>(
    rt: &R,
    command: &str,
    words: &[String],
) -> Result<()> {
    match command {
        "plain" => time_plain(rt, words),
        "lanes" => time_lanes(rt, words),
        "planes" => {
            for name in words {
                tell_planes(rt, name.as_str())?;
            }
            Ok(())
        }
        _ => run_rounds(rt, command, words),
    }
}

/// Runs a command whose arguments hold a number of rounds.
fn run_rounds<R: Files + Print + AllocGlobal + Clock>(
    rt: &R,
    command: &str,
    words: &[String],
) -> Result<()> {
    let [first, rest @ ..] = words else {
        bail!("a number is missing");
    };
    let number = first.parse::<u32>()?;
    for word in rest {
        match command {
            "stages" => tell_stages(rt, number, word.as_str())?,
            "best" => tell_best(rt, number, word.as_str())?,
            "snake" => tell_snake(rt, number, word.parse()?)?,
            _ => bail!("no such command: {command}"),
        }
    }
    Ok(())
}
