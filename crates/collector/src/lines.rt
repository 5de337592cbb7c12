//! The lines of a run in each format, and a line of text between the stage that makes it and the sink. Files and places
//! in a file are counted from 0 here, and from 1 in the text.
ghost use Rattle.std.specs.Prelude.{◌≡◌, IfOk, ◌+◌, ◌^◌, ◌≤◌, OnErr};
ghost use Rattle.reports.specs.declared.answer.Answer.{Answer};
ghost use Rattle.reports.specs.declared.answer.Entry.{Entry};
ghost use Rattle.reports.specs.Answered.{IsAnswer};
ghost use Rattle.collector.specs.FormLines.{line_in, preamble_in, end_in};

use reports::{Answer, Form, ReportLine};
use smallvec::SmallVec;
use std::alloc::{AllocError, Global};
use std::marker::Model;
use streams::Mark;

/// The number of bytes that a line holds without allocation: few lines of a report have more.
const SHORT_TEXT: usize = 48;

/// The text of one line. A short one is stored in the value itself, and a longer one on the heap.
#[derive(Drop)]
pub struct Line {
    text: SmallVec<u8, SHORT_TEXT>,
}

impl Model for Line {
    ghost use Rattle.std.specs.Prelude.{ℕ, List};

    ghost Value = { List ℕ };

    ghost view = { λ l. l.text.items };
}

impl Line {
    /// The line whose text is `text`, with any newline in it. It needs no new memory: it keeps that of `text`, or if
    /// this has a capacity of at most 48 bytes, stores the text in the value itself.
    pub(crate) fn of(text: Vec<u8>) -> Line
        ensures { result ≡ text.items }
    {
        Line {
            text: SmallVec::from_vec(text),
        }
    }

    /// All bytes of the text, in order, with any newline that was given.
    pub fn as_slice(&self) -> &[u8]
        ensures value { result.now ≡ self.now }
    {
        self.text.as_slice()
    }

    /// A line with a copy of `text`, which is on the heap only if it has more than 48 bytes; `AllocError` if there is
    /// then no memory for it.
    pub(crate) fn copied(alloc: Global, text: &[u8]) -> Result<Line, AllocError>
        ensures { IfOk result (λ line. line ≡ text.now) }
    {
        Ok(Line {
            text: SmallVec::from_slice(alloc, text)?,
        })
    }
}

/// The output line in format `form`, with a newline at its end, of `answer` to record `ordinal` of file `file`, both
/// counted from 0. `AllocError` if there is no memory for it (a line of a report with at most 48 bytes needs none), or
/// in JSON if `file` + 1 does not fit in 32 bits.
pub(crate) fn answer_line(
    alloc: Global,
    form: Form,
    file: u32,
    ordinal: u32,
    answer: &Answer,
) -> Result<Line, AllocError>
    requires { IsAnswer answer.now }
    ensures { IfOk result (λ line. (entry : Entry) → entry.file ≡ file → entry.ordinal ≡ ordinal
        → entry.answer ≡ answer.now → line ≡ line_in form entry) }
{
    let graph = u64::from(ordinal) + 1;
    match form {
        Form::Report => Line::copied(alloc, ReportLine::of_graph(graph, answer).as_slice()),
        Form::Json => {
            let text = reports::answer_line(alloc, file_number(file)?, graph, answer)?;
            Ok(Line::of(text))
        }
    }
}

/// The output line in format `form`, with a newline (byte 0A) at its end, of an entry that has no answer because memory
/// ran out. `AllocError` if there is no memory for the line, or in JSON if `file` + 1 does not fit in 32 bits.
///
/// `file` and `ordinal` are the entry's file and its place there, from 0. It takes a few allocations.
///
/// # Errors
///
/// `AllocError` if there is no memory for the line; in JSON also if the number of the file, counted from 1, does not
/// fit in 32 bits.
pub fn out_of_memory_text(
    alloc: Global,
    form: Form,
    file: u32,
    ordinal: u32,
) -> Result<Vec<u8>, AllocError>
    ensures { IfOk result (λ text. (entry : Entry) → entry.file ≡ file → entry.ordinal ≡ ordinal
        → entry.answer ≡ Answer.NoMemory → text.items ≡ line_in form entry) }
{
    let graph = u64::from(ordinal) + 1;
    match form {
        Form::Report => {
            let line = ReportLine::of_graph(graph, &Answer::NoMemory);
            Vec::from_slice(alloc, line.as_slice())
        }
        Form::Json => reports::out_of_memory_line(alloc, file_number(file)?, graph),
    }
}

/// The line before the graphs of file `file`, counted from 0, in format `form`: in a report the file's first line, with
/// a newline at its end, and in JSON an empty text. It is in the returned value, and not on the heap.
pub fn preamble_line(form: Form, file: u32) -> ReportLine
    ensures { result ≡ preamble_in form (file + 1) }
{
    match form {
        Form::Report => ReportLine::of_file(u64::from(file) + 1),
        Form::Json => ReportLine::new(),
    }
}

/// The last line of file `file`, counted from 0, in format `form`, with a newline at its end: it shows `mark` and the
/// number of entries, `count`. `AllocError` if there is no memory for the line, or in JSON if `file` + 1 does not fit
/// in 32 bits.
///
/// # Errors
///
/// `AllocError` if there is no memory for the line; in JSON also if the number of the file, counted from 1, does not
/// fit in 32 bits.
pub fn end_text(
    alloc: Global,
    form: Form,
    file: u32,
    mark: Mark,
    count: u32,
) -> Result<Vec<u8>, AllocError>
    ensures { IfOk result (λ text. text.items ≡ end_in form (file + 1) mark count) }
{
    let graphs = u64::from(count);
    match form {
        Form::Report => Vec::from_slice(alloc, ReportLine::of_end(mark, graphs).as_slice()),
        Form::Json => reports::end_line(alloc, file_number(file)?, mark, graphs),
    }
}

/// The number of the file with index `file`, counted from 1: `file` + 1. `AllocError` if that does not fit in 32 bits,
/// which is the case for no file of a run; there is no other error, since nothing is allocated.
///
/// # Errors
///
/// `AllocError` if it does not fit. No file of a run has such a number.
pub(crate) fn file_number(file: u32) -> Result<u32, AllocError>
    ensures number { IfOk result (λ number. number ≡ file + 1) }
    ensures fits { OnErr result (2 ^ 32 ≤ file + 1) }
{
    match file.checked_add(1) {
        Some(number) => Ok(number),
        None => Err(AllocError),
    }
}
