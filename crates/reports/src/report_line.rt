//! The text of a report: a line while it is built, the content of each line, and all lines.
ghost use Rattle.std.specs.Prelude.{◌≡◌, ◌+◌, ◌≤◌, ◌++◌, [], length, decimal, Ok as Drawn, false};
ghost use Rattle.reports.specs.declared.report_line.TheConstants.{LONGEST, ANSWER, SIZES, DRAWN};
ghost use Rattle.ortho_rep.specs.Points.{PointsModel};
ghost use Rattle.ortho_rep.specs.Prices.{PricesModel};
ghost use Rattle.reports.specs.declared.answer.Answer.TheVariants.{Laid};
ghost use Rattle.reports.specs.Report.{file_line, end_line, graph_line, answer_text, sizes_text, drawn_text, cause_text, report_text, book_text, entry_line, numbered_texts};
ghost use Rattle.streams.specs.Sink.{Writes, StaysInTransit};

use crate::{Answer, Batch, Book, Cause, Entry};
use drawing_check::Drawing;
use faces::Plane;
use itoa::Buffer;
use ortho_rep::Shape;
use std::marker::Model;
use streams::{Mark, Sink, TextBuffer, WriteFault, mark_word};

/// The maximum length of a line of a report, in bytes.
pub const LONGEST: usize = 384;

/// The text of one line of a report. It is stored in the value itself, without allocation.
#[derive(Drop)]
pub struct ReportLine {
    bytes: [u8; LONGEST],
    len: usize,
}

impl Model for ReportLine {
    ghost use Rattle.std.specs.Prelude.{ℕ, List, ◌≤◌, take};
    ghost use Rattle.reports.specs.declared.report_line.TheConstants.{LONGEST};

    ghost Value = { List ℕ };

    ghost view = { λ l. take l.len l.bytes };

    ghost invariant = { λ l. l.len ≤ LONGEST };
}

impl ReportLine {
    /// An empty line.
    pub fn new() -> ReportLine
        ensures { result ≡ [] }
    {
        ReportLine {
            bytes: [0; LONGEST],
            len: 0,
        }
    }

    /// The bytes of the line, at most `LONGEST`.
    pub fn as_slice(&self) -> &[u8]
        ensures value { result.now ≡ self.now }
        ensures short { length self.now ≤ LONGEST }
    {
        &self.bytes[..self.len]
    }

    /// Appends `text` to the line, which must not become longer than `LONGEST` bytes.
    pub(crate) fn push(&mut self, text: &[u8])
        requires { length self.old + length text.now ≤ LONGEST }
        ensures { self.new ≡ self.old ++ text.now }
    {
        let end = self.len + text.len();
        self.bytes[self.len..end].copy_from_slice(text);
        self.len = end;
    }

    /// Appends a number in decimal; 40 bytes must be free in the line, whatever the number.
    pub(crate) fn push_number(&mut self, number: u64)
        requires { length self.old + 40 ≤ LONGEST }
        ensures text { self.new ≡ self.old ++ decimal number }
        ensures short { length self.new ≤ length self.old + 40 }
    {
        let mut buffer = Buffer::new();
        self.push(buffer.format(number).as_bytes());
    }
}

/// The maximum number of bytes that an answer adds.
const ANSWER: usize = 300;

/// The maximum number of bytes that the sizes of a graph add.
const SIZES: usize = 200;

/// The maximum number of bytes that the end of a graph's line adds: whether there is a drawing, or why there is none.
const DRAWN: usize = 40;

impl ReportLine {
    /// The first line of a file in a report, with its newline: `file` and the number of the file.
    pub fn of_file(number: u64) -> ReportLine
        ensures { result ≡ file_line number }
    {
        let mut line = ReportLine::new();
        line.push(b"file ");
        line.push_number(number);
        line.push(b"\n");
        line
    }

    /// The line of a graph in a report, with its newline: `graph`, this number, and the text of this answer.
    pub fn of_graph(number: u64, answer: &Answer) -> ReportLine
        ensures { result ≡ graph_line number answer.now }
    {
        let mut line = ReportLine::new();
        line.push(b"graph ");
        line.push_number(number);
        line.push_answer(answer);
        line.push(b"\n");
        line
    }

    /// The line of a graph that is drawn, with its newline: `graph`, this number, `ok`, the sizes of the plane, the
    /// bends of the shape, and that it is drawn.
    pub fn of_drawn(number: u64, plane: &Plane, shape: &Shape) -> ReportLine
        ensures { (prices : PricesModel) (points : PointsModel) → result ≡ graph_line number (Laid plane.now shape.now prices (Drawn points)) }
    {
        let mut line = ReportLine::new();
        line.push(b"graph ");
        line.push_number(number);
        line.push(b" ok");
        line.push_sizes(plane, shape);
        line.push(b" drawn=yes\n");
        line
    }

    /// The last line of a file in a report, with its newline: `end`, the word of its mark, and the number of entries.
    pub fn of_end(mark: Mark, count: u64) -> ReportLine
        ensures { result ≡ end_line mark count }
    {
        let mut line = ReportLine::new();
        line.push(b"end ");
        line.push(mark_word(mark).as_bytes());
        line.push(b" graphs=");
        line.push_number(count);
        line.push(b"\n");
        line
    }

    /// Appends the text of an answer to the line: `ok`, the sizes and whether there is a drawing; `refused` and the
    /// word of the broken rule; or `memory` if that is the answer. `ANSWER` bytes must be free.
    fn push_answer(&mut self, answer: &Answer)
        requires { length self.old + ANSWER ≤ LONGEST }
        ensures text { self.new ≡ self.old ++ answer_text answer.now }
        ensures short { length self.new ≤ length self.old + ANSWER }
    {
        match answer {
            Answer::Laid {
                plane,
                shape,
                drawing,
                prices: _,
            } => {
                self.push(b" ok");
                self.push_sizes(plane, shape);
                self.push_drawn(drawing);
            }
            Answer::Refused(rule) => {
                self.push(b" refused ");
                self.push(rule.word().as_bytes());
            }
            Answer::NoMemory => self.push(b" memory"),
        }
    }

    /// Appends the numbers of vertices, edges, faces and bends to the line, after ` n=`, ` m=`, ` f=` and ` bends=`.
    /// `SIZES` bytes must be free.
    fn push_sizes(&mut self, plane: &Plane, shape: &Shape)
        requires { length self.old + SIZES ≤ LONGEST }
        ensures text { self.new ≡ self.old ++ sizes_text plane.now shape.now }
        ensures short { length self.new ≤ length self.old + SIZES }
    {
        self.push(b" n=");
        self.push_number(u64::from(plane.graph().vertices()));
        self.push(b" m=");
        self.push_number(u64::from(plane.graph().edges()));
        self.push(b" f=");
        self.push_number(u64::from(plane.face_count()));
        self.push(b" bends=");
        self.push_number(u64::from(shape.bends()));
    }

    /// Appends ` drawn=yes` to the line if there is a drawing, and otherwise ` drawn=no cause=WORD`, with the word of
    /// the cause. `DRAWN` bytes must be free.
    fn push_drawn(&mut self, drawing: &Result<Drawing, Cause>)
        requires { length self.old + DRAWN ≤ LONGEST }
        ensures text { self.new ≡ self.old ++ drawn_text drawing.now }
        ensures short { length self.new ≤ length self.old + DRAWN }
    {
        match drawing {
            Ok(_) => self.push(b" drawn=yes"),
            Err(cause) => self.push_cause(*cause),
        }
    }

    /// Appends ` drawn=no cause=WORD` to the line, with the word of this cause. `DRAWN` bytes must be free.
    pub fn push_cause(&mut self, cause: Cause)
        requires { length self.old + DRAWN ≤ LONGEST }
        ensures text { self.new ≡ self.old ++ cause_text cause }
        ensures short { length self.new ≤ length self.old + DRAWN }
    {
        self.push(b" drawn=no cause=");
        self.push(cause.word().as_bytes());
    }
}

/// Writes the report of a batch to `sink`: for each file a line with its number, a line for each entry and a line for
/// its mark. `Write`, the only error, exactly if `sink` has then failed; it has then taken a prefix of the report.
///
/// It allocates nothing: lines are collected in a fixed buffer.
///
/// # Errors
///
/// `Write` exactly if the sink has then failed; it has then taken a prefix of the report. There is no other error.
pub fn write_report<S: Sink>(batch: &Batch, sink: &mut S) -> Result<(), WriteFault>
    requires { S.failed sink.old ≡ false }
    ensures { Writes (S.taken sink.old) (S.taken sink.new) (S.failed sink.new) (report_text batch.now) result }
{
    let mut lines = TextBuffer::new();
    for file in 0..batch.files() {
        add_book(&mut lines, sink, file + 1, batch.book(file))?;
    }
    lines.flush(sink)
}

/// Appends the report lines of a book to `lines`, written to `sink` each time it is nearly full; `number` is the number
/// of the file. `Write`, the only error, exactly if `sink` has then failed; it has then taken a prefix of the text in
/// `lines` and the new one.
fn add_book<S: Sink>(
    lines: &mut TextBuffer,
    sink: &mut S,
    number: u32,
    book: &Book,
) -> Result<(), WriteFault>
    requires { S.failed sink.old ≡ false }
    ensures { StaysInTransit (S.taken sink.old) lines.old (S.taken sink.new) lines.new
        (S.failed sink.new) (book_text number book.now) result }
{
    let entries = book.entries();
    add_line(lines, sink, &ReportLine::of_file(u64::from(number)))?;
    add_entries(lines, sink, entries)?;
    let end = ReportLine::of_end(book.mark(), entries.len() as u64);
    add_line(lines, sink, &end)
}

/// Appends the report line of each entry to `lines`, written to `sink` each time it is nearly full; entries are
/// numbered from 1. `Write`, the only error, exactly if `sink` has then failed; it has then taken a prefix of the text
/// in `lines` and the new one.
fn add_entries<S: Sink>(
    lines: &mut TextBuffer,
    sink: &mut S,
    entries: &[Entry],
) -> Result<(), WriteFault>
    requires { S.failed sink.old ≡ false }
    ensures { StaysInTransit (S.taken sink.old) lines.old (S.taken sink.new) lines.new
        (S.failed sink.new) (numbered_texts entry_line 1 entries.now) result }
{
    for (index, entry) in entries.iter().enumerate() {
        add_line(
            lines,
            sink,
            &ReportLine::of_graph(index as u64 + 1, &entry.answer),
        )?;
    }
    Ok(())
}

/// Appends a line to `lines`, which is first written to `sink` if it is nearly full. `Write`, the only error, exactly
/// if `sink` has then failed; it has then taken a prefix of the text in `lines` and the new one.
fn add_line<S: Sink>(
    lines: &mut TextBuffer,
    sink: &mut S,
    line: &ReportLine,
) -> Result<(), WriteFault>
    requires { S.failed sink.old ≡ false }
    ensures { StaysInTransit (S.taken sink.old) lines.old (S.taken sink.new) lines.new
        (S.failed sink.new) line.now result }
{
    lines.put(sink, line.as_slice())
}
