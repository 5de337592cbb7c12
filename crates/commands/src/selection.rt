//! The commands that select graphs: `pick` and `count`.
ghost use Rattle.std.specs.Prelude.{◌≡◌, ◌<◌, ◌≤◌, ◌⊎◌, ◌↔◌, false, true, Err, IfOk, IfErr, OnErr, vec_len, OnOk};
ghost use Rattle.streams.specs.declared.output.BatchFault.{BatchFault};
ghost use Rattle.command_line.specs.Refusals.{IsMisuse};
ghost use Rattle.ruled_lanes.specs.declared.channel.TheConstants.{LANES};
ghost use Rattle.reports.specs.declared.book.TheConstants.{MAX_FILES};
ghost use Rattle.commands.specs.Statuses.{IsTextOfPicked, IsBegunTextOfPicked, IsTooMuch, error_output, AreCountsBegun, AreCountsWritten, IsTextOfCounted, IsBegunTextOfCounted};

use crate::runs::{NamedRun, bytes_of, write_flaws};
use collector::{Flaws, count_files, pick_files, status_of_flaws};
use command_line::{Console, CountRequest, Fault, PickRequest};
use graph_facts::write_counts;
use lanes::{Gate, Opener, Run};
use named_sources::NamedFiles;
use std::sync::Wait;
use std::thread::Threads;
use streams::Sink;

/// Writes to `out` the header and the records of the files of `asked` that it selects, and lines about files to `err`;
/// returns the status, 0 or 3. `Terminal` if the output is one, else `TooManyFiles` above 256, else `BadLanes` unless 1
/// to 8: nothing is written. `Memory`, `Write` if `out` failed, or `LaneLost` or `Thread`: `out` has a prefix.
///
/// It reads the files on the threads of lanes, and shows the progress on `console`. `LaneLost`: a thread was lost.
/// `Thread`: a thread could not be started. After an error it writes nothing to `err`.
///
/// The records are written while the files are read. `files` opens the files that are named. Later files pause once
/// `waiting` megabytes of their records are buffered.
///
/// # Errors
///
/// `Terminal` if the output is a terminal. Otherwise `TooManyFiles` exactly if there are more than `MAX_FILES` files,
/// and `BadLanes` exactly if there are no more than that and no lanes or more than `LANES`; nothing is then written.
/// Otherwise the fault of a run or of the writing; then a prefix is written of what would be, if each file may end
/// `memory`.
pub(crate) fn pick<
    R: AllocGlobal + Threads + Wait + Sync,
    N: NamedFiles,
    C: Console + Sync,
    S: Sink,
    E: Sink,
>(
    rt: &R,
    asked: &PickRequest<'_>,
    files: &N,
    console: &C,
    out: &mut S,
    err: &mut E,
) -> Result<u8, Fault>
    requires out_is_intact { S.failed out.old ≡ false }
    requires err_is_intact { E.failed err.old ≡ false }
    ensures written { IfOk result (IsTextOfPicked (N.meaning files.now) asked.now (error_output (E.taken err.old) (E.taken err.new) (E.failed err.new))
        (S.taken out.old) (S.taken out.new) (S.failed out.new)) }
    ensures begun { OnErr result ((out.new ≡ out.old) ⊎ IsBegunTextOfPicked (N.meaning files.now) asked.now (S.taken out.old) (S.taken out.new)) }
    ensures for_terminal { C.has_terminal console.now ≡ true → result ≡ Err Fault.Terminal }
    ensures unopened { C.has_terminal console.now ≡ true → out.new ≡ out.old }
    ensures too_many { C.has_terminal console.now ≡ false
        → (MAX_FILES < vec_len asked.now.run.names) ↔ (result ≡ Err (Fault.Run BatchFault.TooManyFiles)) }
    ensures bad_lanes { C.has_terminal console.now ≡ false
        → (((asked.now.run.lanes ≡ 0) ⊎ (LANES < asked.now.run.lanes)) × (vec_len asked.now.run.names ≤ MAX_FILES))
        ↔ (result ≡ Err (Fault.Run BatchFault.BadLanes)) }
    ensures refused { IfErr result (λ fault. IsMisuse fault → out.new ≡ out.old) }
    ensures refusable { IfErr result (λ fault. IsMisuse fault
        → (C.has_terminal console.now ≡ true) ⊎ IsTooMuch (vec_len asked.now.run.names) asked.now.run.lanes) }
    ensures intact { OnErr result (E.failed err.new ≡ false) }
{
    if console.out_is_terminal() {
        return Err(Fault::Terminal);
    }
    let named = NamedRun::new(rt, &asked.run, files, console)?;
    let opener = named.opener();
    let run = named.run_with(&opener);
    let outcome = pick_files(&run, asked.selection, bytes_of(asked.waiting), out);
    named.meter.finish();
    let flaws = outcome?;
    let flaws = flaws.as_slice();
    write_flaws(rt.alloc(), named.names, flaws, &named.notes, err);
    Ok(status_of_flaws(flaws))
}

/// Writes to `out` the table of the graphs of the files of `asked` that it selects, and lines about files to `err`;
/// returns the status, 0 or 3. `TooManyFiles` above 256, else `BadLanes` unless 1 to 8; `Memory`; `LaneLost` or
/// `Thread`, if a thread is lost or does not start: nothing is written. `Write` if `out` failed: it has a prefix.
///
/// It reads the files on the threads of lanes first, and shows the progress on `console`. After an error it writes
/// nothing to `err`.
///
/// `files` opens the files that are named.
///
/// # Errors
///
/// `TooManyFiles` exactly if there are more than `MAX_FILES` files, and `BadLanes` exactly if there are no more than
/// that and no lanes or more than `LANES`. Otherwise the fault of the run; or `Write`, and then a prefix of the table
/// is written. In all other cases nothing is.
pub(crate) fn count<
    R: AllocGlobal + Threads + Wait + Sync,
    N: NamedFiles,
    C: Console + Sync,
    S: Sink,
    E: Sink,
>(
    rt: &R,
    asked: &CountRequest<'_>,
    files: &N,
    console: &C,
    out: &mut S,
    err: &mut E,
) -> Result<u8, Fault>
    requires out_is_intact { S.failed out.old ≡ false }
    requires err_is_intact { E.failed err.old ≡ false }
    ensures written { IfOk result (IsTextOfCounted (N.meaning files.now) asked.now (error_output (E.taken err.old) (E.taken err.new) (E.failed err.new))
        (S.taken out.old) (S.taken out.new) (S.failed out.new)) }
    ensures begun { OnErr result ((out.new ≡ out.old) ⊎ IsBegunTextOfCounted (N.meaning files.now) asked.now (S.taken out.old) (S.taken out.new)) }
    ensures unwritten { OnErr result (S.failed out.new ≡ false → out.new ≡ out.old) }
    ensures too_many { (MAX_FILES < vec_len asked.now.run.names) ↔ (result ≡ Err (Fault.Run BatchFault.TooManyFiles)) }
    ensures bad_lanes { (((asked.now.run.lanes ≡ 0) ⊎ (LANES < asked.now.run.lanes)) × (vec_len asked.now.run.names ≤ MAX_FILES))
        ↔ (result ≡ Err (Fault.Run BatchFault.BadLanes)) }
    ensures refused { IfErr result (λ fault. IsMisuse fault → out.new ≡ out.old) }
    ensures refusable { IfErr result (λ fault. IsMisuse fault → IsTooMuch (vec_len asked.now.run.names) asked.now.run.lanes) }
    ensures intact { OnErr result (E.failed err.new ≡ false) }
{
    let named = NamedRun::new(rt, &asked.run, files, console)?;
    let opener = named.opener();
    let run = named.run_with(&opener);
    let outcome = write_table(&run, asked, out);
    named.meter.finish();
    let flaws = outcome?;
    let flaws = flaws.as_slice();
    write_flaws(rt.alloc(), named.names, flaws, &named.notes, err);
    Ok(status_of_flaws(flaws))
}

/// Reads the run's files on threads, then writes to `out` the table of the graphs that `asked` selects, and returns the
/// flaws of each file, in order. `Memory`, or `LaneLost` or `Thread` if a thread was lost or did not start: `out` stays
/// as it is. `Write` exactly if `out` then failed: it has a prefix of the table.
fn write_table<R: Threads + Wait + Sync, O: Opener, G: Gate, S: Sink>(
    run: &Run<'_, R, O, G>,
    asked: &CountRequest<'_>,
    out: &mut S,
) -> Result<Vec<Flaws>, Fault>
    requires stands { S.failed out.old ≡ false }
    requires few_files { run.now.files ≤ MAX_FILES }
    requires some { 0 < run.now.lanes }
    requires few { run.now.lanes ≤ LANES }
    ensures written { IfOk result (λ flaws. AreCountsWritten asked.now.selection asked.now.columns run.now.choice
        (O.meaning run.now.opener.now) run.now.files (S.taken out.old) (S.taken out.new) flaws.items) }
    ensures stands { OnOk result (S.failed out.new ≡ false) }
    ensures begun { OnErr result ((out.new ≡ out.old) ⊎ AreCountsBegun asked.now.selection asked.now.columns run.now.choice
        (O.meaning run.now.opener.now) run.now.files (S.taken out.old) (S.taken out.new)) }
    ensures unwritten { OnErr result (S.failed out.new ≡ false → out.new ≡ out.old) }
    ensures asked_well { IfErr result (λ fault. ¬ IsMisuse fault) }
{
    let counted = count_files(run, asked.selection, asked.columns)?;
    write_counts(&counted.counts, out)?;
    Ok(counted.flaws)
}
