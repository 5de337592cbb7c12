//! The lines of JSON output, and the text of a batch as such lines.
ghost use Rattle.std.specs.Prelude.{◌≡◌, IfOk, false};
ghost use Rattle.ortho_rep.specs.Representation.{HasDarts};
ghost use Rattle.ortho_rep.specs.Prices.{HasPrices};
ghost use Rattle.reports.specs.declared.answer.Answer.TheVariants.{NoMemory, Refused};
ghost use Rattle.reports.specs.Json.{end_json, json_text, book_json, entry_json};
ghost use Rattle.reports.specs.LineData.{answer_data, laid_data, line_of, points_in};
ghost use Rattle.reports.specs.Answered.{IsAnswer};
ghost use Rattle.reports.specs.Writing.{WritesOrLacks, StaysOrLacks};
ghost use Rattle.reports.specs.Report.{numbered_texts};

use crate::json_objects::{
    put_drawing, put_first, put_last, put_number, put_place, put_prices, put_sizes,
};
use crate::json_text::put_bytes;
use crate::{Answer, Batch, Book, Cause, Entry};
use drawing_check::Drawing;
use embedding::Rule;
use faces::Plane;
use ortho_rep::{Points, Prices, Shape};
use std::alloc::{AllocError, Global};
use streams::{Mark, Sink, TextBuffer, WriteFault, mark_word};

/// The initial capacity of a short line, in bytes.
const SHORT_ROOM: usize = 96;

/// The initial capacity of the line of a laid-out graph, in bytes, besides that for each dart.
const LAID_ROOM: usize = 256;

/// The initial capacity for each dart, in bytes: an angle, turns, prices and points.
const DART_ROOM: usize = 16;

/// The JSON line of an entry, with a newline (byte 0A) at its end; `file` and `graph` are the numbers to print,
/// whatever the indices in the entry. `AllocError` if there is no memory for the line.
///
/// It takes a few allocations.
///
/// # Errors
///
/// `AllocError` if there is no memory for the line.
pub fn entry_line(
    alloc: Global,
    file: u32,
    graph: u64,
    entry: &Entry,
) -> Result<Vec<u8>, AllocError>
    ensures { IfOk result (λ line. line.items ≡ line_of (answer_data file graph entry.now.answer)) }
{
    answer_line(alloc, file, graph, &entry.answer)
}

/// The JSON line of an answer to some record, with a newline (byte 0A) at its end; `file` and `graph` are the numbers
/// to print. `AllocError` if there is no memory for the line.
///
/// It takes a few allocations.
///
/// # Errors
///
/// `AllocError` if there is no memory for the line.
pub fn answer_line(
    alloc: Global,
    file: u32,
    graph: u64,
    answer: &Answer,
) -> Result<Vec<u8>, AllocError>
    requires { IsAnswer answer.now }
    ensures { IfOk result (λ line. line.items ≡ line_of (answer_data file graph answer.now)) }
{
    match answer {
        Answer::Laid {
            plane,
            shape,
            prices,
            drawing,
        } => laid_line(
            alloc,
            file,
            graph,
            LaidGraph {
                plane,
                shape,
                prices,
                drawing: points_of(drawing),
            },
        ),
        Answer::Refused(rule) => refused_line(alloc, file, graph, *rule),
        Answer::NoMemory => out_of_memory_line(alloc, file, graph),
    }
}

/// The points of a drawing, or as the error the cause why there is none.
fn points_of(drawing: &Result<Drawing, Cause>) -> Result<&Points, Cause>
    ensures { points_in result ≡ drawing.now }
{
    match drawing {
        Ok(drawing) => Ok(drawing.points()),
        Err(cause) => Err(*cause),
    }
}

/// The JSON line of a graph that has no answer because memory ran out, with a newline (byte 0A) at its end; `file` and
/// `graph` are the numbers to print. `AllocError` if there is no memory for this line.
///
/// It takes a few allocations.
///
/// # Errors
///
/// `AllocError` if there is no memory for the line.
pub fn out_of_memory_line(alloc: Global, file: u32, graph: u64) -> Result<Vec<u8>, AllocError>
    ensures { IfOk result (λ line. line.items ≡ line_of (answer_data file graph NoMemory)) }
{
    let mut out = Vec::with_capacity(alloc, SHORT_ROOM)?;
    put_number(&mut out, b"{\"file\":", u64::from(file))?;
    put_number(&mut out, b",\"graph\":", graph)?;
    put_bytes(&mut out, b",\"status\":\"memory\"}\n")?;
    Ok(out)
}

/// The JSON line of a graph whose record breaks `rule`, with a newline (byte 0A) at its end; `file` and `graph` are the
/// numbers to print. `AllocError` if there is no memory for the line.
fn refused_line(alloc: Global, file: u32, graph: u64, rule: Rule) -> Result<Vec<u8>, AllocError>
    ensures { IfOk result (λ line. line.items ≡ line_of (answer_data file graph (Refused rule))) }
{
    let mut out = Vec::with_capacity(alloc, SHORT_ROOM)?;
    put_number(&mut out, b"{\"file\":", u64::from(file))?;
    put_number(&mut out, b",\"graph\":", graph)?;
    put_bytes(&mut out, b",\"rule\":\"")?;
    put_bytes(&mut out, rule.word().as_bytes())?;
    put_bytes(&mut out, b"\",\"status\":\"refused\"}\n")?;
    Ok(out)
}

/// The data of the JSON line of a graph that breaks no rule.
#[derive(Clone, Copy)]
pub struct LaidGraph<'a> {
    pub plane: &'a Plane,
    /// An orthogonal representation of the plane.
    pub shape: &'a Shape,
    pub prices: &'a Prices,
    /// The points of a drawing, or the cause why there is none.
    pub drawing: Result<&'a Points, Cause>,
}

/// The JSON line of a graph that breaks no rule, with a newline (byte 0A) at its end; `file` and `graph` are the
/// numbers to print. `AllocError` if there is no memory for the line.
///
/// It takes a few allocations.
///
/// # Errors
///
/// `AllocError` if there is no memory for the line.
pub fn laid_line(
    alloc: Global,
    file: u32,
    graph: u64,
    laid: LaidGraph<'_>,
) -> Result<Vec<u8>, AllocError>
    requires darts { HasDarts laid.plane.now laid.shape.now }
    requires prices { HasPrices laid.plane.now laid.prices.now }
    ensures { IfOk result (λ line.
        line.items ≡ line_of (laid_data file graph laid.entry.plane.now laid.entry.shape.now laid.entry.prices.now (points_in laid.entry.drawing))) }
{
    let room = LAID_ROOM + DART_ROOM * usize::from(laid.plane.graph().darts());
    let mut out = Vec::with_capacity(alloc, room)?;
    put_first(&mut out, laid.plane, laid.shape, laid.drawing)?;
    put_place(&mut out, file, graph)?;
    put_sizes(&mut out, laid.plane)?;
    put_drawing(&mut out, laid.plane.graph().edges(), laid.drawing)?;
    put_prices(&mut out, laid.plane, laid.prices)?;
    put_last(&mut out, laid.shape)?;
    out.push(b'\n')?;
    Ok(out)
}

/// The JSON line of the end of a file, with a newline (byte 0A) at its end: the word of its mark and its number of
/// graphs; `file` is the number to print. `AllocError` if there is no memory for the line.
///
/// It takes a few allocations.
///
/// # Errors
///
/// `AllocError` if there is no memory for the line.
pub fn end_line(alloc: Global, file: u32, mark: Mark, graphs: u64) -> Result<Vec<u8>, AllocError>
    ensures { IfOk result (λ line. line.items ≡ end_json file mark graphs) }
{
    let mut out = Vec::with_capacity(alloc, SHORT_ROOM)?;
    put_bytes(&mut out, b"{\"end\":\"")?;
    put_bytes(&mut out, mark_word(mark).as_bytes())?;
    put_number(&mut out, b"\",\"file\":", u64::from(file))?;
    put_number(&mut out, b",\"graphs\":", graphs)?;
    put_bytes(&mut out, b"}\n")?;
    Ok(out)
}

/// Writes a batch to `sink` as JSON lines: for each file a line for each entry and one for its mark. `Write` exactly if
/// `sink` has then failed, `Memory` if there is no memory for a line; `sink` has then taken a prefix of the text.
///
/// Each line is the text of a JSON object without spaces. Files and entries are numbered from 1. The lines are
/// buffered, so that short ones need few writes.
///
/// A line is completed before it is written. It takes a few allocations, which are freed before the next line.
///
/// # Errors
///
/// `Write` exactly if the sink has then failed, and `Memory` if there was no memory for a line. The sink has then taken
/// a prefix of the text.
pub fn write_json<S: Sink>(alloc: Global, batch: &Batch, sink: &mut S) -> Result<(), WriteFault>
    requires { S.failed sink.old ≡ false }
    ensures { WritesOrLacks (S.taken sink.old) (S.taken sink.new) (S.failed sink.new) (json_text batch.now) result }
{
    let mut lines = TextBuffer::new();
    for file in 0..batch.files() {
        add_book(alloc, &mut lines, sink, file + 1, batch.book(file))?;
    }
    lines.flush(sink)
}

/// Appends the JSON lines of a book to `lines`, written to `sink` each time it is nearly full; `file` is the number to
/// print. `Write` exactly if `sink` has then failed, `Memory` if there is no memory for a line; `sink` has then taken a
/// prefix of the text in `lines` and the new one.
fn add_book<S: Sink>(
    alloc: Global,
    lines: &mut TextBuffer,
    sink: &mut S,
    file: u32,
    book: &Book,
) -> Result<(), WriteFault>
    requires { S.failed sink.old ≡ false }
    ensures { StaysOrLacks (S.taken sink.old) lines.old (S.taken sink.new) lines.new
        (S.failed sink.new) (book_json file book.now) result }
{
    let entries = book.entries();
    add_entries(alloc, lines, sink, file, entries)?;
    add_end(alloc, lines, sink, file, book.mark(), entries.len() as u64)
}

/// Appends the JSON line of each entry to `lines`, written to `sink` each time it is nearly full; entries are numbered
/// from 1. `Write` exactly if `sink` has then failed, `Memory` if there is no memory for a line; `sink` has then taken
/// a prefix of the text in `lines` and the new one.
fn add_entries<S: Sink>(
    alloc: Global,
    lines: &mut TextBuffer,
    sink: &mut S,
    file: u32,
    entries: &[Entry],
) -> Result<(), WriteFault>
    requires { S.failed sink.old ≡ false }
    ensures { StaysOrLacks (S.taken sink.old) lines.old (S.taken sink.new) lines.new
        (S.failed sink.new) (numbered_texts (entry_json file) 1 entries.now) result }
{
    for (index, entry) in entries.iter().enumerate() {
        add_entry(alloc, lines, sink, file, index as u64 + 1, entry)?;
    }
    Ok(())
}

/// Appends the JSON line of one entry to `lines`, written to `sink` each time it is nearly full; `file` and `graph` are
/// the numbers to print. `Write` exactly if `sink` has then failed, `Memory` if there is no memory for a line; `sink`
/// has then taken a prefix of the text in `lines` and the new one.
fn add_entry<S: Sink>(
    alloc: Global,
    lines: &mut TextBuffer,
    sink: &mut S,
    file: u32,
    graph: u64,
    entry: &Entry,
) -> Result<(), WriteFault>
    requires { S.failed sink.old ≡ false }
    ensures { StaysOrLacks (S.taken sink.old) lines.old (S.taken sink.new) lines.new
        (S.failed sink.new) (entry_json file graph entry.now) result }
{
    match entry_line(alloc, file, graph, entry) {
        Ok(line) => lines.put(sink, line.as_slice()),
        Err(_) => Err(WriteFault::Memory),
    }
}

/// Appends the JSON line of a file's end, with its mark and `count` of graphs, to `lines`, written to `sink` each time
/// it is nearly full. `Write` exactly if `sink` has then failed, `Memory` if there is no memory for a line; `sink` has
/// then taken a prefix of the text in `lines` and the new one.
fn add_end<S: Sink>(
    alloc: Global,
    lines: &mut TextBuffer,
    sink: &mut S,
    file: u32,
    mark: Mark,
    count: u64,
) -> Result<(), WriteFault>
    requires { S.failed sink.old ≡ false }
    ensures { StaysOrLacks (S.taken sink.old) lines.old (S.taken sink.new) lines.new
        (S.failed sink.new) (end_json file mark count) result }
{
    match end_line(alloc, file, mark, count) {
        Ok(line) => lines.put(sink, line.as_slice()),
        Err(_) => Err(WriteFault::Memory),
    }
}
