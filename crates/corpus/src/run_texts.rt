//! Streamed output of runs over lanes: it must be that of the books of one thread.

use crate::files::read_files;
use anyhow::{Result, ensure};
use collector::{
    Batch, Choice, DrawingKind, Form, IoSink, MemOpener, OpenGate, Style, run_plain, write_json,
    write_report,
};
use commands::write_batch;
use std::alloc::Global;
use std::rt::Files;
use std::sync::Wait;
use std::thread::Threads;

/// How many messages may wait between two threads.
const CAPACITY: u32 = 16;

/// Reading of later files pauses while this many bytes of their lines wait.
const WAITING: usize = 100_000;

/// The number of lanes.
const LANES: u32 = 3;

/// Compares the texts of these files in both formats.
pub fn compare_texts<R: Files + AllocGlobal + Threads + Wait + Sync>(
    rt: &R,
    names: &[String],
    choice: Choice,
) -> Result<()> {
    let opener = read_files(rt, names)?;
    let count = u32::try_from(names.len())?;
    let batch = run_plain(rt.alloc(), &opener, count, choice)?;
    for form in [Form::Report, Form::Json] {
        let due = text_of(rt.alloc(), &batch, form)?;
        // Drawings of books are the quick ones.
        let drawing_kind = DrawingKind::Quick;
        let style = Style { form, drawing_kind };
        let text = text_over(rt, &opener, count, LANES, choice, style)?;
        ensure!(text == due, "another text over lanes");
    }
    Ok(())
}

/// The output for a batch in this form.
fn text_of(alloc: Global, batch: &Batch, form: Form) -> Result<Vec<u8>> {
    let mut sink = IoSink::new(Vec::new(alloc));
    match form {
        Form::Report => write_report(batch, &mut sink)?,
        Form::Json => write_json(alloc, batch, &mut sink)?,
    }
    Ok(sink.into_writer())
}

/// The streamed output, in this style, of a run over this many files and lanes.
pub fn text_over<R: AllocGlobal + Threads + Wait + Sync>(
    rt: &R,
    opener: &MemOpener,
    files: u32,
    lanes: u32,
    choice: Choice,
    style: Style,
) -> Result<Vec<u8>> {
    let alloc = rt.alloc();
    let mut sink = IoSink::new(Vec::new(alloc));
    let ended = write_batch(
        rt, alloc, opener, files, lanes, CAPACITY, WAITING, choice, style, &OpenGate, &mut sink,
    );
    ensure!(ended.is_ok(), "no text over lanes");
    Ok(sink.into_writer())
}
