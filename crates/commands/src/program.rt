//! The program as a function of its arguments, a whole run of it, its version and the commands `check` and `frames`.
ghost use Rattle.std.specs.Prelude.{◌≡◌, ◌⊎◌, ◌↔◌, true, false, IfOk, IfErr, OnErr, ◌≤◌, List, String};
ghost use Rattle.streams.specs.declared.output.WriteFault.{WriteFault};
ghost use Rattle.command_line.specs.Refusals.{IsMisuse};
ghost use Rattle.commands.specs.Statuses.{IsTextOfChecked, IsBegunTextOfChecked, IsTextOfRecords, IsDone, IsDoneFor, IsBegunTextOfRecords, IsBegunToBeDone, IsJudged, IsJudgedFor, IsHelped, IsOfRecords, IsPrinted, IsRefusable, error_output, version_text, IsOutcome};
ghost use Rattle.clap.specs.Words.{kind_of};
ghost use Rattle.clap.specs.declared.error.kind.ErrorKind.{ErrorKind};
ghost use Rattle.command_line.specs.declared.reading.Keyword.{Keyword};
ghost use Rattle.command_line.specs.declared.request.Request.{Request};
ghost use Rattle.command_line.specs.Requests.{IsAskedBy, asks_in};
ghost use Rattle.std.specs.Process.{exit_status};
ghost use Rattle.std.specs.declared.alloc.Global.{Global};

use crate::layout::layout;
use crate::selection::{count, pick};
use checking::{CheckOptions, check_files};
use clap::Error;
use clap::error::ErrorKind;
use command_line::{
    CheckRequest, Console, Fault, Keyword, ParseFault, Request, asks, help_text, parse, write_fault,
};
use named_sources::{FileNotes, KeepsReason, NamedFiles, Reason, open_source};
use reports::status_of;
use std::alloc::{AllocError, Global};
use std::env::{Env, FillError};
use std::process::ExitCode;
use std::sync::Wait;
use std::thread::Threads;
use streams::{Sink, WriteFault, piece_buffer, put_all, write_frames_of};

/// The output of `--version`: the program's version, and the toolchain that it was written for.
///
/// The toolchain is given by the kit's number and its logic, as `rt version` prints them.
pub const VERSION: &str = "planarbend 2.0.0\ntoolchain rattle-kit-13 logic dac8208d650f15bf\n";

/// Writes to `out` the verdicts that `asked` asks for, and then to `err` lines about the two files; returns the exit
/// status, 0, 3 or 4. `Memory` if memory runs out for the run, and `Write` exactly if `out` failed: `out` then has a
/// prefix of the text, and `err` stays as it is. Ignores a failed write to `err`.
///
/// It checks the drawings in one file of the graphs in another one.
///
/// # Errors
///
/// `Memory` if memory ran out for the run, and `Write` exactly if the output has then failed; a prefix of the text is
/// then written.
pub fn check<R: AllocGlobal + Wait, N: NamedFiles, S: Sink, E: Sink>(
    rt: &R,
    asked: CheckRequest<'_>,
    files: &N,
    out: &mut S,
    err: &mut E,
) -> Result<u8, Fault>
    requires out_is_intact { S.failed out.old ≡ false }
    requires err_is_intact { E.failed err.old ≡ false }
    ensures written { IfOk result (IsTextOfChecked (N.meaning files.now) asked.entry
        (S.taken out.old) (S.taken out.new) (S.failed out.new)) }
    ensures failed { IfErr result (λ fault. ¬ IsMisuse fault) }
    ensures write { IfErr result (λ fault. (fault ≡ Fault.Write WriteFault.Write) ↔ (S.failed out.new ≡ true)) }
    ensures begun { OnErr result ((out.new ≡ out.old)
        ⊎ IsBegunTextOfChecked (N.meaning files.now) asked.entry (S.taken out.old) (S.taken out.new)) }
    ensures intact { OnErr result (E.failed err.new ≡ false) }
{
    let notes = FileNotes::new(rt.alloc(), 2)?;
    let graphs = open_source(files, rt.alloc(), asked.graphs, notes.note(0))?;
    let lines = open_source(files, rt.alloc(), asked.lines, notes.note(1))?;
    let how = CheckOptions {
        form: asked.form,
        faces: asked.faces,
    };
    let checked = check_files(rt, graphs, lines, how, out)?;
    notes.end(0, checked.mark);
    notes.write(rt.alloc(), &[asked.graphs, asked.lines], err);
    Ok(checked.status)
}

/// Does what `words`, the arguments after the program's name, ask for, with output to `out` and messages to `err`, and
/// returns the exit status: 0, 3 or 4 if the text in `out` is whole; 2 if the words are refused or there are none, with
/// `out` unchanged; 1 if memory, a write or the run failed, with a prefix of the text in `out`.
///
/// `files` opens the files that are named, and standard input by its name. Output is written to `out`. The message of a
/// fault, the help if there are no words, and a line for each file that fails or is not planar_code are written to
/// `err`; `pick` and `count` write one for each file that does not end complete, and one if memory ran out for graphs
/// of it. A failure of these writes to `err` changes nothing, nor does the progress that `console` shows.
///
/// The status is 0 for the version and for help, 2 for a command line that is refused, and 1 if there is no whole text.
/// For any other whole text it is 3 if a file did not end complete, the lines of `check` could not be read, or memory
/// ran out for a graph; otherwise 4 if a verdict of `check` is not ok or a line has no graph; otherwise 0.
pub fn command<
    R: AllocGlobal + Threads + Wait + Sync,
    N: NamedFiles,
    C: Console + Sync,
    S: Sink + KeepsReason,
    E: Sink,
>(rt: &R, words: &[String], files: &N, console: &C, out: &mut S, err: &mut E) -> u8
    requires out_is_intact { S.failed out.old ≡ false }
    requires err_is_intact { E.failed err.old ≡ false }
    ensures in_range { result ≤ 4 }
    ensures failed_write { S.failed out.new ≡ true → result ≡ 1 }

    // If the command line is refused, nothing is written, and each request that the arguments ask for is one of too many
    // files, or of no lanes or too many, or of records on a terminal.
    ensures refused { result ≡ 2 → out.new ≡ out.old }
    ensures refusable { result ≡ 2 → (request : Request) → IsAskedBy words.now request → IsRefusable (C.has_terminal console.now) request }

    // Each such request is refused, unless memory for the arguments ran out.
    ensures too_much { (request : Request) → IsAskedBy words.now request → IsRefusable (C.has_terminal console.now) request
        → (out.new ≡ out.old) × ((result ≡ 1) ⊎ (result ≡ 2)) }

    // No records are written to a terminal.
    ensures for_terminal { C.has_terminal console.now ≡ true → asks_in Keyword.Pick words.now ≡ true
        → asks_in Keyword.Help words.now ≡ false → (out.new ≡ out.old) × ((result ≡ 1) ⊎ (result ≡ 2)) }

    // If the first argument is `--version`, the version is printed.
    ensures version { asks_in Keyword.Version words.now ≡ true
        → IsPrinted version_text (S.taken out.old) (S.taken out.new) (S.failed out.new) result }

    // If help is asked for, and not the version, the help for the command that the arguments name is printed; or nothing,
    // if the arguments are refused or memory ran out.
    ensures help { asks_in Keyword.Version words.now ≡ false → asks_in Keyword.Help words.now ≡ true
        → IsHelped words.now (S.taken out.old) (S.taken out.new) (S.failed out.new) result
        ⊎ ((out.new ≡ out.old) × ((result ≡ 1) ⊎ (result ≡ 2))) }

    // With status 0 and 3 the output is the version, or help, or the text of all files that the arguments name, as they
    // ask for it, each of what the file with its name gives. Arguments that ask for help ask for no such text.
    ensures done { (result ≡ 0) ⊎ (result ≡ 3)
        → IsDoneFor (N.meaning files.now) words.now (error_output (E.taken err.old) (E.taken err.new) (E.failed err.new))
        (S.taken out.old) (S.taken out.new) (S.failed out.new) result }

    // Status 4 is that of `check` alone: the text of the verdicts on the two files that the arguments name is whole, and
    // some drawing is not ok, or a line has no graph.
    ensures judged { result ≡ 4
        → IsJudgedFor (N.meaning files.now) words.now (S.taken out.old) (S.taken out.new) (S.failed out.new) }

    // With status 1, if neither the version nor help is asked for, nothing is written, or a prefix of the text that the
    // arguments ask for.
    ensures begun { result ≡ 1 → asks_in Keyword.Version words.now ≡ false → asks_in Keyword.Help words.now ≡ false
        → (out.new ≡ out.old)
        ⊎ ((request : Request) × IsAskedBy words.now request
        × IsBegunToBeDone (N.meaning files.now) request (S.taken out.old) (S.taken out.new)) }
{
    if asks(Keyword::Version, words) {
        return show(VERSION, out, err);
    }
    match parse(rt.alloc(), words) {
        Ok(request) => perform(rt, request, files, console, out, err),
        Err(ParseFault::Help) => show(help_text(words), out, err),
        Err(ParseFault::Memory) => end_by(Fault::Memory, Reason::UNKNOWN, err),
        Err(ParseFault::BadWaiting) => end_by(Fault::BadWaiting, Reason::UNKNOWN, err),
        Err(ParseFault::NoArguments) => {
            let _ = put_all(err, help_text(words).as_bytes());
            2
        }
        Err(ParseFault::Told(error)) => refuse(rt.alloc(), &error, err),
    }
}

/// Does what `request` asks for, with output to `out` and messages to `err`, and returns the exit status: 0, 3 or 4 if
/// the text in `out` is whole; 2 if there are too many files, a bad number of lanes, or records for a terminal, with
/// `out` unchanged; 1 if memory, a write or the run failed, with a prefix of the text in `out`.
fn perform<
    R: AllocGlobal + Threads + Wait + Sync,
    N: NamedFiles,
    C: Console + Sync,
    S: Sink + KeepsReason,
    E: Sink,
>(rt: &R, request: Request, files: &N, console: &C, out: &mut S, err: &mut E) -> u8
    requires out_is_intact { S.failed out.old ≡ false }
    requires err_is_intact { E.failed err.old ≡ false }
    ensures in_range { result ≤ 4 }
    ensures failed_write { S.failed out.new ≡ true → result ≡ 1 }
    ensures refused { result ≡ 2 → out.new ≡ out.old }
    ensures refusable { result ≡ 2 → IsRefusable (C.has_terminal console.now) request.entry }
    ensures too_much { IsRefusable (C.has_terminal console.now) request.entry → result ≡ 2 }
    ensures for_terminal { C.has_terminal console.now ≡ true → IsOfRecords request.entry
        → (out.new ≡ out.old) × (result ≡ 2) }
    ensures done { (result ≡ 0) ⊎ (result ≡ 3)
        → IsDone (N.meaning files.now) request.entry (error_output (E.taken err.old) (E.taken err.new) (E.failed err.new))
        (S.taken out.old) (S.taken out.new) (S.failed out.new) result }
    ensures judged { result ≡ 4
        → IsJudged (N.meaning files.now) request.entry (S.taken out.old) (S.taken out.new) (S.failed out.new) }
    ensures begun { result ≡ 1
        → (out.new ≡ out.old)
        ⊎ IsBegunToBeDone (N.meaning files.now) request.entry (S.taken out.old) (S.taken out.new) }
{
    let outcome = match request {
        Request::Frames { name } => frames(rt, name, files, out, err),
        Request::Layout(asked) => layout(rt, &asked, files, console, out, err),
        Request::Check(asked) => check(rt, asked, files, out, err),
        Request::Pick(asked) => pick(rt, &asked, files, console, out, err),
        Request::Count(asked) => count(rt, &asked, files, console, out, err),
    };
    match outcome {
        Ok(status) => status,
        Err(fault) => end_by(fault, out.reason(), err),
    }
}

/// Writes the message of `fault` to `err`, or nothing if the reader of the output has closed it, and returns the
/// fault's exit status, 1 or 2. `reason` is why the output failed, if it did. Ignores a failed write to `err`.
fn end_by<E: Sink>(fault: Fault, reason: Reason, err: &mut E) -> u8
    requires { E.failed err.old ≡ false }
    ensures refused { IsMisuse fault → result ≡ 2 }
    ensures failed { ¬ IsMisuse fault → result ≡ 1 }
{
    write_fault(fault, reason, err);
    fault.status()
}

/// Writes to `out` a line for each record of the file `name` and one for how it ends, and then to `err` any line about
/// the file; returns the exit status, 0 if it ends complete, else 3. `Memory` if there is no memory for the buffers or
/// to open the file: `out` stays as it is. `Write` if `out` failed: it has a prefix. `err` then gets nothing.
fn frames<R: AllocGlobal, N: NamedFiles, S: Sink, E: Sink>(
    rt: &R,
    name: &str,
    files: &N,
    out: &mut S,
    err: &mut E,
) -> Result<u8, Fault>
    requires out_is_intact { S.failed out.old ≡ false }
    requires err_is_intact { E.failed err.old ≡ false }
    ensures written { IfOk result (IsTextOfRecords (N.meaning files.now name.now)
        (S.taken out.old) (S.taken out.new) (S.failed out.new)) }
    ensures failed { IfErr result (λ fault. ¬ IsMisuse fault) }
    ensures begun { OnErr result ((out.new ≡ out.old)
        ⊎ IsBegunTextOfRecords (N.meaning files.now name.now) (S.taken out.old) (S.taken out.new)) }
    ensures intact { OnErr result (E.failed err.new ≡ false) }
{
    let notes = FileNotes::new(rt.alloc(), 1)?;
    let source = open_source(files, rt.alloc(), name, notes.note(0))?;
    let mut buffer = piece_buffer(rt.alloc())?;
    let mark = write_frames_of(source, rt.alloc(), buffer.as_mut_slice(), out)?;
    notes.end(0, mark);
    notes.write(rt.alloc(), &[name], err);
    Ok(status_of(mark))
}

/// Writes to `err` the message of `error`, why the command line is refused, and returns the exit status 2. If `error`
/// says that memory ran out, or it runs out for the message, writes that instead, and returns 1. Ignores a failed
/// write.
fn refuse<E: Sink>(alloc: Global, error: &Error, err: &mut E) -> u8
    requires { E.failed err.old ≡ false }
    ensures in_range { (result ≡ 1) ⊎ (result ≡ 2) }
    ensures memory { kind_of error.now ≡ ErrorKind.OutOfMemory → result ≡ 1 }
{
    if error.kind() == ErrorKind::OutOfMemory {
        return end_by(Fault::Memory, Reason::UNKNOWN, err);
    }
    match error.to_string(alloc) {
        Ok(text) => {
            let _ = put_all(err, text.as_bytes());
            2
        }
        Err(_) => end_by(Fault::Memory, Reason::UNKNOWN, err),
    }
}

/// Writes `text`, the version or help, to `out`, and returns the exit status 0. If the write fails, `out` has a prefix
/// of `text`, and it returns 1 and writes that to `err`, unless the reader of `out` has closed it.
fn show<S: Sink + KeepsReason, E: Sink>(text: &str, out: &mut S, err: &mut E) -> u8
    requires out_is_intact { S.failed out.old ≡ false }
    requires err_is_intact { E.failed err.old ≡ false }
    ensures { IsPrinted text.now (S.taken out.old) (S.taken out.new) (S.failed out.new) result }
{
    match put_all(out, text.as_bytes()) {
        Ok(()) => 0,
        Err(fault) => end_by(Fault::Write(fault), out.reason(), err),
    }
}

/// The maximum number of bytes of an argument on Linux, with the 0 after it.
const LONGEST: usize = 131_072;

/// Reads the arguments of the process, does what they ask for as `command` does, with output to `out` and messages to
/// `err`, and returns the exit status, 0 to 4. If one is not UTF-8 (status 2) or memory for the arguments runs out (1),
/// writes that to `err` and leaves `out` as it is.
///
/// `files` opens the files that are named, and standard input by its name. If an argument is not valid UTF-8 or memory
/// for the arguments runs out, the message of that fault is written to `err`, and the status is that of the fault.
pub fn run<
    R: Env + AllocGlobal + Threads + Wait + Sync,
    N: NamedFiles,
    C: Console + Sync,
    S: Sink + KeepsReason,
    E: Sink,
>(rt: &R, files: &N, console: &C, out: &mut S, err: &mut E) -> ExitCode
    requires out_is_intact { S.failed out.old ≡ false }
    requires err_is_intact { E.failed err.old ≡ false }
    ensures in_range { exit_status result ≤ 4 }

    // For some arguments all that `command` promises holds; or the arguments could not be read, and nothing is written.
    ensures outcome { ((words : List (String Global))
        × IsOutcome (N.meaning files.now) words (C.has_terminal console.now)
        (error_output (E.taken err.old) (E.taken err.new) (E.failed err.new)) S.taken S.failed out.old out.new (exit_status result))
        ⊎ (((exit_status result ≡ 1) ⊎ (exit_status result ≡ 2)) × (out.new ≡ out.old)) }
{
    match arguments(rt) {
        Ok(words) => ExitCode::from(command(rt, words.as_slice(), files, console, out, err)),
        Err(fault) => {
            write_fault(fault, Reason::UNKNOWN, err);
            ExitCode::from(fault.status())
        }
    }
}

/// The arguments of the process after the program's name, in order; empty if there are none. `NotText` with the number,
/// from 1, of the first that is not UTF-8; `Memory` if there is no memory for them, or one is longer than 131,072
/// bytes.
///
/// # Errors
///
/// `NotText` if one is not UTF-8, with its number, and `Memory` if there is no memory for them.
fn arguments<R: Env + AllocGlobal>(rt: &R) -> Result<Vec<String>, Fault> {
    let mut words = Vec::new(rt.alloc());
    let mut buffer = Vec::new(rt.alloc());
    buffer.resize(LONGEST, 0)?;
    for argument in 1..u32::MAX {
        match rt.arg(argument as usize, buffer.as_mut_slice()) {
            Ok(len) => {
                let Ok(word) = str::from_utf8(&buffer[..len]) else {
                    return Err(Fault::NotText(argument));
                };
                let word = String::from_str(rt.alloc(), word)?;
                if words.push(word).is_err() {
                    return Err(Fault::Memory);
                }
            }
            Err(FillError::NotPresent) => break,
            Err(FillError::TooLong) => return Err(Fault::Memory),
        }
    }
    Ok(words)
}
