//! Graphs that grow by an edge each, from one edge to all those of a record: of every number of edges, vertices and faces up
//! to its own.

use crate::files::read_file;
use crate::readback::{test_lines, test_text};
use crate::run_texts::text_over;
use crate::runs::report_of;
use crate::short::SHORT;
use anyhow::{Context, Result, ensure};
use collector::{Choice, DrawingKind, Form, MemOpener, Style, run_plain};
use std::alloc::{AllocError, Global};
use std::io;
use std::io::Write;
use std::rt::Files;
use std::sync::Wait;
use std::thread::Threads;

const HEADER: &[u8] = b">>planar_code<<";

/// How many bytes a read gives at most.
const MOST: usize = 65_536;

/// Over how many lanes the graphs are laid out.
const LANES: u32 = 3;

/// Lays out all graphs that grow to the one of a file, tests the line of each, and prints their report, which must be the
/// same with short drawings.
pub fn compare_growing<R: Files + Print + AllocGlobal + Threads + Wait + Sync>(
    rt: &R,
    name: &str,
) -> Result<()> {
    let bytes = read_file(rt, name)?;
    let record = bytes.as_slice().strip_prefix(HEADER);
    let file = growing(rt.alloc(), record.context("a file without its header")?)?;
    let mut files = Vec::with_capacity(rt.alloc(), 1)?;
    files.push(file)?;
    let opener = MemOpener::new(files, MOST);
    let batch = run_plain(rt.alloc(), &opener, 1, Choice::First)?;
    test_lines(rt.alloc(), &batch)?;
    let report = report_of(rt.alloc(), &batch)?;
    io::writer(rt).write_all(report.as_slice())?;
    let style = Style {
        form: Form::Report,
        drawing_kind: DrawingKind::Short,
    };
    let text = text_over(rt, &opener, 1, LANES, Choice::First, style)?;
    ensure!(text == report, "another report of short drawings");
    let lines = text_over(rt, &opener, 1, LANES, Choice::First, SHORT)?;
    test_text(rt.alloc(), &batch, lines.as_slice())?;
    Ok(())
}

/// A file of the graphs of the first edges of a record, of one, two and so on up to all, in the order of their greater
/// ends, and of their lesser ends where these are the same.
fn growing(alloc: Global, record: &[u8]) -> Result<Vec<u8>, AllocError> {
    let mut file = HEADER.to_vec(alloc)?;
    let lists = match record.split_first() {
        Some((_, lists)) => lists,
        None => &[],
    };
    let mut last: u8 = 0;
    for around in lists.split(|byte| *byte == 0) {
        last = last.saturating_add(1);
        for most in 1..last {
            if around.contains(&most) {
                push_first(&mut file, lists, last, most)?;
            }
        }
    }
    Ok(file)
}

/// Puts a record of the vertices up to this one, and of the edges up to the one from it to that other one.
fn push_first(file: &mut Vec<u8>, lists: &[u8], last: u8, most: u8) -> Result<(), AllocError> {
    file.push(last)?;
    let mut vertex: u8 = 1;
    for (place, around) in lists.split(|byte| *byte == 0).enumerate() {
        if place >= usize::from(last) {
            break;
        }
        for other in around {
            let (lesser, greater) = (vertex.min(*other), vertex.max(*other));
            if greater < last || greater == last && lesser <= most {
                file.push(*other)?;
            }
        }
        file.push(0)?;
        vertex = vertex.saturating_add(1);
    }
    Ok(())
}
