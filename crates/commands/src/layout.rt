//! The command `layout`: a run whose output is streamed.
ghost use Rattle.std.specs.Prelude.{◌≡◌, ◌<◌, ◌≤◌, ◌⊎◌, false, IfOk, IfErr, OnOk, OnErr, ◌↔◌, Err, vec_len};
ghost use Rattle.ruled_lanes.specs.declared.channel.TheConstants.{LANES, MAX_CAPACITY};
ghost use Rattle.reports.specs.declared.book.TheConstants.{MAX_FILES};
ghost use Rattle.collector.specs.Whole.{IsAllWritten, IsBegun};
ghost use Rattle.commands.specs.TextRuns.{HasFailedBy, IsStreamed};
ghost use Rattle.streams.specs.declared.output.BatchFault.{BatchFault};
ghost use Rattle.command_line.specs.Refusals.{IsMisuse};
ghost use Rattle.named_sources.specs.Naming.{meanings_in};
ghost use Rattle.commands.specs.Statuses.{IsTextOfBooks, IsBegunTextOfBooks, IsTooMuch};

use crate::runs::{NamedRun, bytes_of, checked_file_count};
use collector::{Lines, Texts, line_lanes};
use command_line::{Console, Fault, LayoutRequest};
use common::Choice;
use file_order::{KnownFiles, Pace};
use lanes::{Gate, Opener, Pauses, Run, RunFault, run_lanes};
use named_sources::NamedFiles;
use reports::Style;
use std::alloc::Global;
use std::marker::Brand;
use std::sync::Wait;
use std::thread::Threads;
use streams::{Sink, SinkFault};

/// Answers the records of `files` files of `opener`, streams the text to `sink`, and returns the exit status, 0 or 3.
/// `TooManyFiles` above 256, else `BadLanes` unless `lanes` is 1 to 8: nothing is written. `Write` if `sink` failed,
/// `Memory` without memory, `LaneLost` or `Thread` if a thread is lost or does not start: a prefix is written.
///
/// Each record is answered under this choice of the outer face. The text is that of the files' books in the format of
/// this style, as `write_report` and `write_json` write books, and is written while the files are read. JSON lines have
/// drawings of the style's kind; the report shows no coordinates, and its lines are of quick ones. It returns the exit
/// status of the whole text: 0 if each file ended complete and memory ran out for no record's answer or line, and
/// otherwise 3.
///
/// Files go over `lanes` lanes as in `run_batch`, and are written in order: the lines of the first file that has not
/// ended go to the sink as they arrive, and those of later files are buffered. The layout of a record is freed once its
/// line is made. If the buffered lines hold `waiting` bytes of memory or more, the reading of later files pauses until
/// there is room again or they become first; what lanes have read by then still arrives and is buffered too.
///
/// # Errors
///
/// `TooManyFiles` exactly if there are more than `MAX_FILES`; `BadLanes` exactly if there are no lanes or more than
/// `LANES`, and no more files than that; nothing is then written. `Write` exactly if the sink has then failed.
/// `Memory`: no memory for links, the fan, tickets, buffers, lists of lanes or lines. `LaneLost`: an end of a link or
/// of the fan was gone, or the text received a message that no lane gives. `Thread`: a thread could not be started. In
/// each case what was written is a prefix of this: the text of books of the first files, of which any may end `memory`,
/// and the lines of the next file so far, which has no last line. If no bytes of a file are known, as of a real one,
/// records and mark are those of some bytes.
pub fn write_batch<'r, R: Threads + Wait + Sync, O: Opener, G: Gate, S: Sink>(
    rt: &'r R,
    alloc: Global,
    opener: &'r O,
    files: u32,
    lanes: u32,
    capacity: u32,
    waiting: usize,
    choice: Choice,
    style: Style,
    gate: &'r G,
    sink: &mut S,
) -> Result<u8, Fault>
    requires least { 1 ≤ capacity }
    requires most { capacity ≤ MAX_CAPACITY }
    requires stands { S.failed sink.old ≡ false }
    ensures { IsStreamed choice (O.meaning opener.now) style.form files lanes S.taken S.failed sink.old sink.new result }
{
    checked_file_count(files as usize, lanes)?;
    let pauses = Pauses::none();
    let run = Run {
        rt,
        alloc,
        opener,
        pauses: &pauses,
        gate,
        files,
        lanes,
        capacity,
        choice,
    };
    Ok(write_text(&run, style, waiting, sink)?)
}

/// Runs the lanes on threads, streams the text in this style to `sink`, and returns the exit status, 0 or 3; from
/// `waiting` buffered bytes on, later files pause. `Refused` if `sink` failed, `Memory` if there is no memory,
/// `LaneLost` if a link's end was gone, `Thread` if a thread cannot start: `sink` then has a prefix of the text.
pub(crate) fn write_text<R: Threads + Wait + Sync, O: Opener, G: Gate, S: Sink>(
    run: &Run<'_, R, O, G>,
    style: Style,
    waiting: usize,
    sink: &mut S,
) -> Result<u8, RunFault<SinkFault>>
    requires stands { S.failed sink.old ≡ false }
    requires few_files { run.now.files ≤ MAX_FILES }
    requires some { 0 < run.now.lanes }
    requires few { run.now.lanes ≤ LANES }
    ensures written { IfOk result (IsAllWritten run.now.choice (O.meaning run.now.opener.now) style.form run.now.files (S.taken sink.old) (S.taken sink.new)) }
    ensures begun { OnErr result ∥ IsBegun run.now.choice (O.meaning run.now.opener.now) style.form run.now.files (S.taken sink.old) (S.taken sink.new) ∥₁ }
    ensures status { IfOk result (λ status. (status ≡ 0) ⊎ (status ≡ 3)) }
    ensures stands { OnOk result (S.failed sink.new ≡ false) }
    ensures failed { IfErr result (HasFailedBy (S.failed sink.new)) }
{
    let pace = Pace {
        pauses: run.pauses,
        most: waiting,
    };
    write_files::<Brand, _, _, _, _>(run, style, pace, sink)
}

/// Runs the lanes on threads, streams the text in this style and at this pace to `sink`, and returns the exit status, 0
/// or 3. `Refused` if `sink` failed, `Memory` if there is no memory, `LaneLost` if a link's end was gone, `Thread` if a
/// thread cannot start: `sink` then has a prefix of the text.
///
/// The type `J` represents what the files mean.
fn write_files<J: KnownFiles + Send + Sync, R: Threads + Wait + Sync, O: Opener, G: Gate, S: Sink>(
    run: &Run<'_, R, O, G>,
    style: Style,
    pace: Pace<'_>,
    sink: &mut S,
) -> Result<u8, RunFault<SinkFault>>
    requires stands { S.failed sink.old ≡ false }
    requires few_files { run.now.files ≤ MAX_FILES }
    requires some { 0 < run.now.lanes }
    requires few { run.now.lanes ≤ LANES }
    requires same_meaning { J.meaning ≡ O.meaning run.now.opener.now }
    ensures written { IfOk result (IsAllWritten run.now.choice (O.meaning run.now.opener.now) style.form run.now.files (S.taken sink.old) (S.taken sink.new)) }
    ensures begun { OnErr result ∥ IsBegun run.now.choice (O.meaning run.now.opener.now) style.form run.now.files (S.taken sink.old) (S.taken sink.new) ∥₁ }
    ensures status { IfOk result (λ status. (status ≡ 0) ⊎ (status ≡ 3)) }
    ensures stands { OnOk result (S.failed sink.new ≡ false) }
    ensures failed { IfErr result (HasFailedBy (S.failed sink.new)) }
{
    let lines = Lines::new(run.alloc, style.form, run.choice, run.files)?;
    let texts = Texts::new(run.alloc, sink, lines, pace);
    let lanes = line_lanes::<J>(style);
    let mut ran = Ok(());
    let texts = run_lanes(run, &lanes, texts, &mut ran);
    match ran {
        Ok(()) => match texts.finish() {
            Ok(status) => Ok(status),
            Err(_) => Err(RunFault::Refused(SinkFault)),
        },
        Err(fault) => {
            drop_texts(texts);
            Err(fault)
        }
    }
}

/// Drops `texts` with what it has buffered, and writes nothing more to its sink.
fn drop_texts<S: Sink>(texts: Texts<'_, S, Lines>)
    ensures { texts.exit.0.now ≡ texts.entry.sink.now }
{
    let Texts { .. } = texts;
}

/// Answers the records of the files of `asked`, writes the text to `out` and lines about files to `err`, and returns
/// the status, 0 or 3. `TooManyFiles` above 256, else `BadLanes` unless 1 to 8: nothing is written. `Memory`, `Write`
/// if `out` failed, or `LaneLost` or `Thread`, if a thread is lost or does not start: `out` has a prefix.
///
/// It shows the progress on `console`. After an error it writes nothing to `err`.
///
/// The text is written while the files are read. `files` opens the files that are named. Later files pause once
/// `waiting` megabytes of their text are buffered.
///
/// # Errors
///
/// `TooManyFiles` exactly if there are more than `MAX_FILES` files, and `BadLanes` exactly if there are no more than
/// that and no lanes or more than `LANES`; nothing is then written. Otherwise the fault of a run or of the writing;
/// then a prefix of the text is written: that of books of the first files, of which any may end `memory`, and the lines
/// of the next one, which has no last line. If no bytes of a file are known, as of a real one, they are those of some
/// bytes.
pub(crate) fn layout<
    R: AllocGlobal + Threads + Wait + Sync,
    N: NamedFiles,
    C: Console + Sync,
    S: Sink,
    E: Sink,
>(
    rt: &R,
    asked: &LayoutRequest<'_>,
    files: &N,
    console: &C,
    out: &mut S,
    err: &mut E,
) -> Result<u8, Fault>
    requires out_is_intact { S.failed out.old ≡ false }
    requires err_is_intact { E.failed err.old ≡ false }
    ensures written { IfOk result (IsTextOfBooks asked.now.run.choice asked.now.style.form (meanings_in (N.meaning files.now) asked.now.run.names.items)
        (vec_len asked.now.run.names) (S.taken out.old) (S.taken out.new) (S.failed out.new)) }
    ensures begun { OnErr result ((out.new ≡ out.old) ⊎ IsBegunTextOfBooks asked.now.run.choice asked.now.style.form
        (meanings_in (N.meaning files.now) asked.now.run.names.items) (vec_len asked.now.run.names) (S.taken out.old) (S.taken out.new)) }
    ensures too_many { (MAX_FILES < vec_len asked.now.run.names) ↔ (result ≡ Err (Fault.Run BatchFault.TooManyFiles)) }
    ensures bad_lanes { (((asked.now.run.lanes ≡ 0) ⊎ (LANES < asked.now.run.lanes)) × (vec_len asked.now.run.names ≤ MAX_FILES))
        ↔ (result ≡ Err (Fault.Run BatchFault.BadLanes)) }
    ensures refused { IfErr result (λ fault. IsMisuse fault → out.new ≡ out.old) }
    ensures refusable { IfErr result (λ fault. IsMisuse fault → IsTooMuch (vec_len asked.now.run.names) asked.now.run.lanes) }
    ensures intact { OnErr result (E.failed err.new ≡ false) }
{
    let named = NamedRun::new(rt, &asked.run, files, console)?;
    let opener = named.opener();
    let run = named.run_with(&opener);
    let outcome = write_text(&run, asked.style, bytes_of(asked.waiting), out);
    named.meter.finish();
    let status = outcome?;
    named.notes.write(rt.alloc(), named.names, err);
    Ok(status)
}
