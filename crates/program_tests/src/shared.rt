//! Runs of the whole command, which the tests share.
ghost use Rattle.std.specs.Prelude.{false};

use commands::{Console, SystemFiles, command};
use std::alloc::{AllocError, Global};
use std::io::{Read, Write};
use std::process::Abort;
use std::rt::Files;
use std::sync::Wait;
use std::thread::Threads;
use std::{fs, io};
use streams::IoSink;
use test_tools::{Narrow, same};

/// The output of a run to its two writers, and its exit status.
#[derive(Drop)]
pub struct Ran<W> {
    pub status: u8,
    pub out: W,
    pub err: W,
}

/// A standard input with these bytes, of which a read returns at most 7.
#[derive(Clone, Copy)]
pub struct Input<'a> {
    pub bytes: &'a [u8],
}

impl Read for Input<'_> {
    fn read(&mut self, buf: &mut [u8]) -> io::Result<usize> {
        let count = self.bytes.len().min(7).min(buf.len());
        buf[..count].copy_from_slice(&self.bytes[..count]);
        self.bytes = &self.bytes[count..];
        Ok(count)
    }
}

/// A console that shows nothing.
#[derive(Clone, Copy)]
pub struct NoConsole;

impl Console for NoConsole {
    ghost has_terminal = { λ _. false };

    fn out_is_terminal(&self) -> bool {
        false
    }

    fn is_terminal(&self) -> bool {
        false
    }

    fn time(&self) -> u64 {
        0
    }

    fn show(&self, _text: &[u8]) {}
}

/// Runs the command with these arguments, on this standard input or a closed one, with this console and these writers.
pub fn run_into<R: Files + AllocGlobal + Threads + Wait + Sync, C: Console + Sync, W: Write>(
    rt: &R,
    words: &[String],
    input: Option<Input<'_>>,
    console: &C,
    out: W,
    err: W,
) -> Ran<W>
where
    R::File: Send,
    R::Dir: Send,
{
    let mut out = IoSink::new(out);
    let mut err = IoSink::new(err);
    let files = SystemFiles { rt, input };
    let status = command(rt, words, &files, console, &mut out, &mut err);
    Ran {
        status,
        out: out.into_writer(),
        err: err.into_writer(),
    }
}

/// The arguments of a command line, which blanks separate.
pub fn words_of(alloc: Global, line: &str) -> Result<Vec<String>, AllocError> {
    let mut list = Vec::new(alloc);
    for word in line.split_whitespace() {
        list.push(String::from_str(alloc, word)?)?;
    }
    Ok(list)
}

/// Runs the command with these arguments, on this standard input and with this console.
pub fn run_words<R: Files + AllocGlobal + Threads + Wait + Sync, C: Console + Sync>(
    rt: &R,
    words: &[String],
    input: Option<Input<'_>>,
    console: &C,
) -> Ran<Vec<u8>>
where
    R::File: Send,
    R::Dir: Send,
{
    let (out, err) = (Vec::new(rt.alloc()), Vec::new(rt.alloc()));
    run_into(rt, words, input, console, out, err)
}

/// Runs a command line, on this standard input and with this console.
pub fn run_on<R: Files + AllocGlobal + Threads + Wait + Sync + Abort, C: Console + Sync>(
    rt: &R,
    line: &str,
    input: Option<Input<'_>>,
    console: &C,
) -> Ran<Vec<u8>>
where
    R::File: Send,
    R::Dir: Send,
{
    let words = words_of(rt.alloc(), line).expect(rt, "memory");
    run_words(rt, words.as_slice(), input, console)
}

/// Runs a command line, with a closed standard input and a console that shows nothing.
pub fn run<R: Files + AllocGlobal + Threads + Wait + Sync + Abort>(
    rt: &R,
    line: &str,
) -> Ran<Vec<u8>>
where
    R::File: Send,
    R::Dir: Send,
{
    run_on(rt, line, None, &NoConsole)
}

/// Runs the command with these arguments, with room for only `out` and `err` bytes in its writers.
pub fn run_narrow<R: Files + AllocGlobal + Threads + Wait + Sync>(
    rt: &R,
    words: &[String],
    out: usize,
    err: usize,
) -> Ran<Narrow>
where
    R::File: Send,
    R::Dir: Send,
{
    let (out, err) = (
        Narrow::new(out, usize::MAX, true),
        Narrow::new(err, usize::MAX, true),
    );
    run_into(rt, words, None, &NoConsole, out, err)
}

/// Checks that a run wrote this report, with this status. With status 0 it wrote nothing else.
pub fn expect_report(rt: &impl Abort, ran: &Ran<Vec<u8>>, report: &[u8], status: u8) {
    same!(rt, ran.out.as_slice(), report);
    same!(rt, ran.status, status);
    same!(rt, status == 0 && !ran.err.is_empty(), false);
}

/// A command line, its report and its status.
pub type Row<'a> = (&'a str, &'a str, u8);

/// Runs the command line of each row, and checks the report and the status.
pub fn check_rows<R: Files + AllocGlobal + Threads + Wait + Sync + Abort>(rt: &R, rows: &[Row])
where
    R::File: Send,
    R::Dir: Send,
{
    for (line, report, status) in rows {
        expect_report(rt, &run(rt, line), report.as_bytes(), *status);
    }
}

/// Runs command lines with this status, and checks that the output of each contains a text.
///
/// The output is the report if the status is 0, and otherwise that of the other writer.
pub fn check_said<R: Files + AllocGlobal + Threads + Wait + Sync + Abort>(
    rt: &R,
    rows: &[(&str, &str)],
    status: u8,
)
where
    R::File: Send,
    R::Dir: Send,
{
    for (line, text) in rows {
        expect_said(rt, &run(rt, line), text, status);
    }
}

/// Checks that a run has this status, and that its output contains this part.
fn expect_said(rt: &impl Abort, ran: &Ran<Vec<u8>>, part: &str, status: u8) {
    let (said, other) = if status == 0 {
        (ran.out.as_slice(), ran.err.len())
    } else {
        (ran.err.as_slice(), ran.out.len())
    };
    assert!(rt; holds(said, part.as_bytes()), "{part}");
    same!(rt, (ran.status, other), (status, 0));
}

/// Whether `text` contains `part`.
pub fn holds(text: &[u8], part: &[u8]) -> bool {
    text.windows(part.len().max(1)).any(|window| window == part)
}

/// Checks that with room for this prefix of the output only, the prefix is written and the fault is returned.
pub fn check_failed_write<R: Files + AllocGlobal + Threads + Wait + Sync + Abort>(
    rt: &R,
    words: &[String],
    begins: &[u8],
)
where
    R::File: Send,
    R::Dir: Send,
{
    let ran = run_narrow(rt, words, begins.len(), 64);
    expect_texts(rt, &ran, 1, begins, b"planarbend: cannot write output\n");
}

/// Checks that a run wrote these texts into two narrow writers, with this status.
pub fn expect_texts(rt: &impl Abort, ran: &Ran<Narrow>, status: u8, out: &[u8], err: &[u8]) {
    same!(rt, ran.status, status);
    same!(rt, ran.out.text(), out);
    same!(rt, ran.err.text(), err);
}

/// A command line on a file that is made for it, and its report.
pub struct Case {
    pub line: &'static str,
    pub file: &'static str,
    pub parts: &'static [&'static [u8]],
    pub report: &'static str,
    /// The possible outputs if memory runs out for the file or its graph.
    pub wants: &'static [&'static [u8]],
    /// Whether some of the report may be written before memory runs out for the run.
    pub may_begin: bool,
}

/// Makes the file of a case; returns the arguments of its command line.
pub fn words_for<R: Files + AllocGlobal>(rt: &R, case: &Case) -> io::Result<Vec<String>> {
    write_parts(rt, case.file, case.parts)?;
    Ok(words_of(rt.alloc(), case.line)?)
}

/// Runs the command line of a case with each allocation refused in turn.
///
/// It checks that the run gives the whole report, or an answer that names the lack of memory.
pub fn check_wants<R: Files + AllocGlobal + Threads + Wait + Sync + Abort>(rt: &R, case: &Case)
where
    R::File: Send,
    R::Dir: Send,
{
    let Ok(words) = words_for(rt, case) else {
        return;
    };
    let ran = run_narrow(rt, words.as_slice(), 128, 64);
    let allowed = is_allowed(case, ran.status, ran.out.text(), ran.err.text());
    same!(rt, allowed, true);
}

/// Whether a run wrote the whole report of a case, or said what ran out of memory.
fn is_allowed(case: &Case, status: u8, out: &[u8], err: &[u8]) -> bool {
    match status {
        0 => out == case.report.as_bytes() && err.is_empty(),
        1 => {
            let begins = case.may_begin && case.report.as_bytes().starts_with(out);
            (begins || out.is_empty()) && names_no_run(err)
        }
        3 => case.wants.iter().any(|want| *want == out) && err.is_empty(),
        _ => false,
    }
}

/// Whether the line says that the run itself ran out of memory. If a thread is started or an end is dropped at that
/// point, the line may name that instead.
fn names_no_run(line: &[u8]) -> bool {
    line == b"planarbend: out of memory\n".as_slice()
        || line == b"planarbend: cannot start a thread\n".as_slice()
        || line == b"planarbend: internal error: a worker thread disconnected\n".as_slice()
}

/// Writes a file with these parts.
pub fn write_parts<R: Files + AllocGlobal>(rt: &R, name: &str, parts: &[&[u8]]) -> io::Result<()> {
    fs::write(rt, name, parts.concat(rt.alloc())?.as_slice())
}

/// Makes a file with these parts.
pub fn make_file<R: Files + AllocGlobal + Abort>(rt: &R, name: &str, parts: &[&[u8]]) {
    write_parts(rt, name, parts).expect(rt, "a file");
}
