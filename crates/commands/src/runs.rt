//! Runs over the files that a request names, and lines on standard error about files of which something is lacking.
ghost use Rattle.std.specs.Prelude.{◌≡◌, ◌<◌, ◌≤◌, ◌⊎◌, ◌↔◌, Err, IfOk, IfErr, vec_len, false, true, map, OnErr, OnOk};
ghost use Rattle.streams.specs.declared.output.BatchFault.{BatchFault};
ghost use Rattle.reports.specs.declared.book.TheConstants.{MAX_FILES};
ghost use Rattle.ruled_lanes.specs.declared.channel.TheConstants.{LANES};
ghost use Rattle.command_line.specs.Refusals.{IsMisuse};
ghost use Rattle.commands.specs.Statuses.{IsTooMuch};
ghost use Rattle.std.specs.Io.KnownBytes.{Appends};
ghost use Rattle.commands.specs.FlawLines.{IsTold, lines_of_file, memory_line, incomplete_line};

use collector::Flaws;
use command_line::{Console, Fault, Meter, RunRequest};
use common::Choice;
use itoa::Buffer;
use lanes::{Pauses, Run};
use named_sources::{FileNotes, FileOpener};
use planar_code::Ending;
use reports::MAX_FILES;
use ruled_lanes::{LANES, MAX_CAPACITY};
use std::alloc::Global;
use streams::{BatchFault, Mark, Sink, WriteFault, mark_word, put_all};

/// The number of bytes of a megabyte.
const MEGABYTE: usize = 1_000_000;

/// The number of bytes of `megabytes` megabytes, each of 1,000,000 bytes, or `usize::MAX` if there are more.
pub(crate) fn bytes_of(megabytes: u32) -> usize {
    (megabytes as usize).saturating_mul(MEGABYTE)
}

/// Checks that a run may have so many files and lanes, and returns `files` as a number of 32 bits. `TooManyFiles`
/// exactly if `files` is above `MAX_FILES` (256); otherwise `BadLanes` exactly if `lanes` is not 1 to `LANES` (8).
///
/// # Errors
///
/// `TooManyFiles` exactly if there are more than `MAX_FILES`; `BadLanes` exactly if there are no more than that and no
/// lanes or more than `LANES`. There is no other error.
pub(crate) fn checked_file_count(files: usize, lanes: u32) -> Result<u32, Fault>
    ensures count { IfOk result (λ count. count ≡ files) }
    ensures few { IfOk result (λ _. files ≤ MAX_FILES) }
    ensures some_lanes { IfOk result (λ _. 0 < lanes) }
    ensures few_lanes { IfOk result (λ _. lanes ≤ LANES) }
    ensures too_many { (MAX_FILES < files) ↔ (result ≡ Err (Fault.Run BatchFault.TooManyFiles)) }
    ensures bad_lanes { (((lanes ≡ 0) ⊎ (LANES < lanes)) × (files ≤ MAX_FILES)) ↔ (result ≡ Err (Fault.Run BatchFault.BadLanes)) }
    ensures refused { IfErr result (λ _. IsTooMuch files lanes) }
{
    if files > MAX_FILES as usize {
        return Err(Fault::Run(BatchFault::TooManyFiles));
    }
    if lanes == 0 || lanes > LANES {
        return Err(Fault::Run(BatchFault::BadLanes));
    }
    Ok(files as u32)
}

/// A run over the files that a request names, with its meter and the notes on its files.
#[derive(Drop)]
pub(crate) struct NamedRun<'a, R, N, C> {
    rt: &'a R,
    files: &'a N,
    pub(crate) names: &'a [&'a str],
    /// The number of names.
    count: u32,
    lanes: u32,
    choice: Choice,
    pub(crate) notes: FileNotes,
    pub(crate) meter: Meter<'a, C>,
    pauses: Pauses,
}

impl<'a, R: AllocGlobal, N, C: Console> NamedRun<'a, R, N, C> {
    /// The run that `asked` describes, whose time begins now; it opens no file and shows nothing yet. `TooManyFiles` if
    /// there are more than 256 files; otherwise `BadLanes` if there are not 1 to 8 lanes; otherwise `Memory` if there
    /// is no memory for notes.
    ///
    /// `files` opens the files, and the console shows the progress.
    ///
    /// # Errors
    ///
    /// Those of `checked_file_count`; otherwise `Memory` if there is no memory for notes.
    pub(crate) fn new(
        rt: &'a R,
        asked: &'a RunRequest<'a>,
        files: &'a N,
        console: &'a C,
    ) -> Result<NamedRun<'a, R, N, C>, Fault>
        ensures files { IfOk result (λ run. run.files.now ≡ files.now) }
        ensures names { IfOk result (λ run. run.names.now ≡ asked.now.names.items) }
        ensures count { IfOk result (λ run. run.count ≡ vec_len asked.now.names) }
        ensures lanes { IfOk result (λ run. run.lanes ≡ asked.now.lanes) }
        ensures choice { IfOk result (λ run. run.choice ≡ asked.now.choice) }
        ensures few { IfOk result (λ run. run.count ≤ MAX_FILES) }
        ensures some_lanes { IfOk result (λ run. 0 < run.lanes) }
        ensures few_lanes { IfOk result (λ run. run.lanes ≤ LANES) }
        ensures too_many { (MAX_FILES < vec_len asked.now.names) ↔ (result ≡ Err (Fault.Run BatchFault.TooManyFiles)) }
        ensures bad_lanes { (((asked.now.lanes ≡ 0) ⊎ (LANES < asked.now.lanes)) × (vec_len asked.now.names ≤ MAX_FILES))
            ↔ (result ≡ Err (Fault.Run BatchFault.BadLanes)) }
        ensures refusable { IfErr result (λ fault. IsMisuse fault → IsTooMuch (vec_len asked.now.names) asked.now.lanes) }
    {
        let names = asked.names.as_slice();
        let count = checked_file_count(names.len(), asked.lanes)?;
        Ok(NamedRun {
            rt,
            files,
            names,
            count,
            lanes: asked.lanes,
            choice: asked.choice,
            notes: FileNotes::new(rt.alloc(), names.len())?,
            meter: Meter::new(console, asked.progress, names.len()),
            pauses: Pauses::none(),
        })
    }

    /// The opener of the run's files; it opens none yet. For each file that it tries to open, it adds 1 to the meter's
    /// count, and it notes why a file fails.
    pub(crate) fn opener(&self) -> FileOpener<'_, '_, N>
        ensures files { result.files.now ≡ self.now.files.now }
        ensures names { result.names.now ≡ self.now.names.now }
    {
        FileOpener {
            files: self.files,
            names: self.names,
            opened: self.meter.opened(),
            notes: &self.notes,
        }
    }

    /// The description of the run for the lanes, with `opener` for its files and the run's meter as the gate; it starts
    /// nothing and opens no file.
    pub(crate) fn run_with<'s>(
        &'s self,
        opener: &'s FileOpener<'s, 's, N>,
    ) -> Run<'s, R, FileOpener<'s, 's, N>, Meter<'a, C>>
        ensures opener { result.opener.now ≡ opener.now }
        ensures files { result.files ≡ self.now.count }
        ensures lanes { result.lanes ≡ self.now.lanes }
        ensures choice { result.choice ≡ self.now.choice }
    {
        Run {
            rt: self.rt,
            alloc: self.rt.alloc(),
            opener,
            pauses: &self.pauses,
            gate: &self.meter,
            files: self.count,
            lanes: self.lanes,
            capacity: MAX_CAPACITY,
            choice: self.choice,
        }
    }
}

/// Writes to `err`, for each of `names` in order, a line if the file did not end complete, with the reason if `notes`
/// has it, and a line if memory ran out for graphs of it. Ends where `flaws` ends, or at a failed write, which it does
/// not report. Without memory for a reason, the line has none.
pub(crate) fn write_flaws<E: Sink>(
    alloc: Global,
    names: &[&str],
    flaws: &[Flaws],
    notes: &FileNotes,
    err: &mut E,
)
    requires { E.failed err.old ≡ false }
    ensures { E.failed err.new ≡ false
        → IsTold (map (λ name. name.now) names.now) flaws.now (E.taken err.old) (E.taken err.new) }
{
    let mut file = 0;
    for name in names {
        let Some(lacking) = flaws.get(file) else {
            return;
        };
        let why = notes.why(alloc, file);
        match write_file(name, lacking, why.as_str(), err) {
            Ok(()) => file += 1,
            Err(_) => return,
        }
    }
}

/// Writes to `err` a line that the file `name` did not end complete, with the reason `why`, and a line if memory ran
/// out for graphs of it; nothing if `flaws` has neither. `Write` exactly if `err` then failed; it then has a prefix.
///
/// # Errors
///
/// `Write` exactly if the sink has then failed. There is no other error, here and below.
fn write_file<E: Sink>(name: &str, flaws: &Flaws, why: &str, err: &mut E) -> Result<(), WriteFault>
    requires { E.failed err.old ≡ false }
    ensures added { OnOk result (Appends (E.taken err.old) (E.taken err.new) (lines_of_file name.now flaws.now why.now)) }
    ensures stands { OnOk result (E.failed err.new ≡ false) }
    ensures failed { OnErr result (E.failed err.new ≡ true) }
{
    write_incomplete(name, flaws.mark, why, err)?;
    write_memory(name, flaws, err)
}

/// Writes to `err` one line that the file `name` did not end complete, with the word for `mark` and the reason `why`,
/// which may be empty; nothing if `mark` is complete. `Write` exactly if `err` then failed; it then has a prefix of the
/// line.
fn write_incomplete<E: Sink>(
    name: &str,
    mark: Mark,
    why: &str,
    err: &mut E,
) -> Result<(), WriteFault>
    requires { E.failed err.old ≡ false }
    ensures added { OnOk result (Appends (E.taken err.old) (E.taken err.new) (incomplete_line name.now mark why.now)) }
    ensures stands { OnOk result (E.failed err.new ≡ false) }
    ensures failed { OnErr result (E.failed err.new ≡ true) }
{
    if mark == Mark::Ended(Ending::Complete) {
        return Ok(());
    }
    put_all(err, b"planarbend: ")?;
    put_all(err, name.as_bytes())?;
    put_all(err, b": not complete (")?;
    put_all(err, mark_word(mark).as_bytes())?;
    put_all(err, b")")?;
    put_all(err, why.as_bytes())?;
    put_all(err, b"\n")
}

/// Writes to `err` one line with the number of graphs of the file `name` for which memory ran out, and the first one,
/// from 1; nothing if there are none. `Write` exactly if `err` then failed; it then has a prefix of the line.
fn write_memory<E: Sink>(name: &str, flaws: &Flaws, err: &mut E) -> Result<(), WriteFault>
    requires { E.failed err.old ≡ false }
    ensures added { OnOk result (Appends (E.taken err.old) (E.taken err.new) (memory_line name.now flaws.now)) }
    ensures stands { OnOk result (E.failed err.new ≡ false) }
    ensures failed { OnErr result (E.failed err.new ≡ true) }
{
    if flaws.unanswered == 0 {
        return Ok(());
    }
    let mut count = Buffer::new();
    let mut first = Buffer::new();
    let count = count.format(flaws.unanswered);
    let first = first.format(u64::from(flaws.first) + 1);
    put_all(err, b"planarbend: ")?;
    put_all(err, name.as_bytes())?;
    put_all(err, b": graphs for which memory ran out: ")?;
    put_all(err, count.as_bytes())?;
    put_all(err, b", the first is graph ")?;
    put_all(err, first.as_bytes())?;
    put_all(err, b"\n")
}
