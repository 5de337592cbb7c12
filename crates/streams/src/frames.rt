//! The records that were read from one source and how the source ended, and the text output for them. Also the formats
//! of output texts.
ghost use Rattle.std.specs.Prelude.{◌≡◌, ◌+◌, ◌<◌, ◌≤◌, ◌^◌, ℕ, List, [], true, false, length, ◌++◌, IfOk, IfErr, OnOk, OnErr, ⊤};
ghost use Rattle.std.proofs.Common.{refl, ◌∙◌};
ghost use Rattle.std.specs.Io.KnownBytes.{Appends};
ghost use Rattle.streams.specs.Sink.{Writes, AppendsPrefix, StaysInTransit};
ghost use Rattle.streams.specs.Text.{frames_text, record_line, record_lines, frames_end_line, word_of};
ghost use Rattle.streams.specs.Reading.{IsFoundIn};
ghost use Rattle.streams.specs.FrameLines.{WritesFound, BeginsFound, lines_none, lines_on, lines_refused};
ghost use Rattle.streams.specs.declared.output.WriteFault.{WriteFault};
ghost use Rattle.streams.specs.declared.frames.Mark.{Mark};
ghost use Rattle.planar_code.specs.declared.partial_record.Ending.{Ending};
ghost use Rattle.streams.specs.declared.output.TheConstants.{LINE, ROOM};

use crate::output::{Sink, TextBuffer, WriteFault};
use crate::source::{Receiver, SourceEnd, Tap, read_source};
use planar_code::{Ending, Record};
use std::alloc::Global;
use std::marker::Model;

/// The format of an output text: the report or JSON lines.
#[derive(Clone, Copy, Debug, PartialEq, Eq)]
pub enum Form {
    /// The report: a line of words and numbers for each item.
    Report,
    /// A JSON object for each item, on a line of its own.
    Json,
}

/// The way in which a source ended.
#[derive(Clone, Copy, Debug, PartialEq, Eq)]
pub enum Mark {
    /// Its bytes were read to their end, or to the first fault in them, with this ending.
    ///
    /// It is `Memory` if memory ran out while they were divided into records or the file was opened.
    Ended(Ending),
    /// A read failed at a place where more bytes could have come, or the file could not be opened.
    Io,
}

/// The records of one source, in order, and its mark.
#[derive(Drop)]
pub struct Frames {
    records: Vec<Record>,
    mark: Mark,
}

impl Model for Frames {
    ghost use Rattle.streams.specs.FramesModel.{FramesModel};

    ghost Value = { FramesModel };

    ghost view = { λ f. record { records = f.records.items; mark = f.mark } };
}

impl Frames {
    ghost use Rattle.std.specs.Prelude.{◌≡◌};

    /// The `Frames` of a source with these records, in order, and this mark.
    pub fn new(records: Vec<Record>, mark: Mark) -> Frames
        ensures records { result.records ≡ records.items }
        ensures mark { result.mark ≡ mark }
    {
        Frames { records, mark }
    }

    /// The records in the order of the source.
    pub fn records(&self) -> &[Record]
        ensures { result.now ≡ self.now.records }
    {
        self.records.as_slice()
    }

    /// How the source ended: the mark of these frames.
    pub fn mark(&self) -> Mark
        ensures { result ≡ self.now.mark }
    {
        self.mark
    }
}

/// Writes to `sink` a line for each record of `frames`, in order, and one for the mark, through a fixed buffer.
/// `Write`, the only error, if `sink` fails: it then has a prefix of this text.
///
/// It allocates nothing: lines are collected in a fixed buffer.
///
/// # Errors
///
/// `Write` exactly if the sink has then failed; a prefix of the text was then added. There is no other error.
pub fn write_frames<S: Sink>(frames: &Frames, sink: &mut S) -> Result<(), WriteFault>
    requires { S.failed sink.old ≡ false }
    ensures { Writes (S.taken sink.old) (S.taken sink.new) (S.failed sink.new) (frames_text frames.now) result }
{
    let mut lines = TextBuffer::new();
    let records = frames.records();
    write_records(&mut lines, sink, 0, records)?;
    write_mark(&mut lines, sink, frames.mark(), records.len() as u64)
}

/// Reads `source`, piece by piece into `buffer`, and writes to `sink` a line for each record and one for the mark;
/// returns the mark, which says too if the source failed or memory ran out. `Write`, the only error, if `sink` fails:
/// it then has a prefix of the text.
///
/// The line of a record is written before the next read of the source.
///
/// # Errors
///
/// `Write` exactly if the sink has then failed; a prefix of the text of the records and a mark was then added. There is
/// no other error.
pub fn write_frames_of<T: Tap, S: Sink>(
    source: T,
    alloc: Global,
    buffer: &mut [u8],
    sink: &mut S,
) -> Result<Mark, WriteFault>
    requires room { 0 < length buffer.old }
    requires stands { S.failed sink.old ≡ false }
    ensures written { IfOk result (WritesFound (T.to_come source) (T.fails source) (S.taken sink.old) (S.taken sink.new)) }
    ensures stands { OnOk result (S.failed sink.new ≡ false) }
    ensures begun { OnErr result (BeginsFound (T.to_come source) (T.fails source) (S.taken sink.old) (S.taken sink.new)) }
    ensures failed { IfErr result (λ fault. (fault ≡ WriteFault.Write) × (S.failed sink.new ≡ true)) }
{
    let mut lines = TextBuffer::new();
    let end = write_records_of(source, alloc, buffer, &mut lines, sink)?;
    write_mark(&mut lines, sink, end.mark, u64::from(end.count))?;
    Ok(end.mark)
}

/// Reads `source`, piece by piece into `buffer`, and writes the lines of its records to `sink` through `lines`, which
/// must be empty and is empty again; returns their number and the mark, which says if memory ran out. `Write`, the only
/// error, if `sink` fails: it then has a prefix of the lines, and `lines` keeps the text that it was to write.
fn write_records_of<T: Tap, S: Sink>(
    source: T,
    alloc: Global,
    buffer: &mut [u8],
    lines: &mut TextBuffer,
    sink: &mut S,
) -> Result<SourceEnd, WriteFault>
    requires room { 0 < length buffer.old }
    requires empty { lines.old ≡ [] }
    requires stands { S.failed sink.old ≡ false }
    ensures found { IfOk result (λ end. (records : List (List ℕ))
        × Appends (S.taken sink.old) (S.taken sink.new) (record_lines 1 records)
        × (end.count ≡ length records) × IsFoundIn (T.to_come source) (T.fails source) records end.mark) }
    ensures empty { OnOk result (lines.new ≡ []) }
    ensures stands { OnOk result (S.failed sink.new ≡ false) }
    ensures begun { IfErr result (λ fault. (records : List (List ℕ))
        × ((fault ≡ WriteFault.Write) × (S.failed sink.new ≡ true)
        × AppendsPrefix (S.taken sink.old) (S.taken sink.new) (record_lines 1 records))
        × IsFoundIn (T.to_come source) (T.fails source) records (Mark.Ended Ending.Memory)) }
{
    let mut receiver = RecordLines { lines, sink };
    read_source(source, alloc, buffer, &mut receiver)
}

/// A receiver of the records of a source that writes their lines, which it collects in a buffer.
#[derive(Drop)]
struct RecordLines<'s, S> {
    lines: &'s mut TextBuffer,
    sink: &'s mut S,
}

impl<S: Sink> Receiver for RecordLines<'_, S> {
    type Refusal = WriteFault;

    ghost received = { λ first records x y. Appends (S.taken x.sink.now) (S.taken y.sink.now) (record_lines (first + 1) records) };

    ghost refused = { λ first records x y fault. (fault ≡ WriteFault.Write) × (S.failed y.sink.now ≡ true)
        × AppendsPrefix (S.taken x.sink.now) (S.taken y.sink.now) (record_lines (first + 1) records) };

    ghost stays = { λ x y. (x.lines.ghost_name ≡ y.lines.ghost_name) × (x.sink.ghost_name ≡ y.sink.ghost_name) };

    ghost ready = { λ x. (x.lines.now ≡ []) × (S.failed x.sink.now ≡ false) };

    ghost accepts = { λ _ _ _. ⊤ };

    /// Writes the lines of `records`, numbered from `first` + 1, to the sink, and empties `records`. `Write`, the only
    /// error, if the sink fails: it then has a prefix of these lines, and `records` stays as it is.
    fn receive(
        &mut self,
        _alloc: Global,
        first: u32,
        records: &mut Vec<Record>,
    ) -> Result<(), WriteFault> {
        write_records(self.lines, self.sink, u64::from(first), records.as_slice())?;
        records.clear();
        Ok(())
    }

    ghost received_none = { λ x. lines_none (S.taken x.sink.now) };

    ghost received_on = { λ records others x y z p q. lines_on records others _ _ _ p q };

    ghost refused_on = { λ records others x y z fault p q. (q.0, q.1, lines_refused records others _ _ _ p q.2) };

    ghost accepts_on = { λ _ _ _ _ _ _. tt };

    ghost stays_itself = { λ x. (refl, refl) };

    ghost stays_on = { λ x y z p q. (p.0 ∙ q.0, p.1 ∙ q.1) };
}

/// Writes the lines of `records`, numbered from `first` + 1, to `sink`, through the fixed buffer `lines`, which must be
/// empty and is empty again. `Write`, the only error, if `sink` fails: it then has a prefix of the lines, and `lines`
/// keeps the text that it was to write.
fn write_records<S: Sink>(
    lines: &mut TextBuffer,
    sink: &mut S,
    first: u64,
    records: &[Record],
) -> Result<(), WriteFault>
    requires empty { lines.old ≡ [] }
    requires stands { S.failed sink.old ≡ false }
    requires few { first + length records.now < 2 ^ 64 }
    ensures writes { Writes (S.taken sink.old) (S.taken sink.new) (S.failed sink.new) (record_lines (first + 1) records.now) result }
    ensures empty { OnOk result (lines.new ≡ []) }
{
    for (index, rec) in records.iter().enumerate() {
        write_record(lines, sink, first + 1 + index as u64, rec)?;
    }
    lines.flush(sink)
}

/// Writes the line of `mark`, with the number `count` of records, to `sink`, through the fixed buffer `lines`, which
/// must be empty and is empty again. `Write`, the only error, if `sink` fails: it then has a prefix of the line, and
/// `lines` keeps it.
fn write_mark<S: Sink>(
    lines: &mut TextBuffer,
    sink: &mut S,
    mark: Mark,
    count: u64,
) -> Result<(), WriteFault>
    requires empty { lines.old ≡ [] }
    requires stands { S.failed sink.old ≡ false }
    ensures { Writes (S.taken sink.old) (S.taken sink.new) (S.failed sink.new) (frames_end_line mark count) result }
{
    push_end(lines, mark, count);
    lines.flush(sink)
}

/// Appends the line of `rec`, with the number `number`, to the fixed buffer `lines`; if fewer than `LINE` bytes are
/// free there, first writes the whole buffer to `sink` and empties it. `Write`, the only error, if `sink` fails: it
/// then has a prefix of the buffered text, and `lines` stays as it is.
fn write_record<S: Sink>(
    lines: &mut TextBuffer,
    sink: &mut S,
    number: u64,
    rec: &Record,
) -> Result<(), WriteFault>
    requires { S.failed sink.old ≡ false }
    ensures { StaysInTransit (S.taken sink.old) lines.old (S.taken sink.new) lines.new
        (S.failed sink.new) (record_line number rec.now) result }
{
    lines.make_room(sink)?;
    push_record(lines, number, rec);
    Ok(())
}

/// Appends the line of `rec`, with the number `number`, to the fixed buffer `lines`, in which `LINE` bytes must be
/// free.
fn push_record(lines: &mut TextBuffer, number: u64, rec: &Record)
    requires { length lines.old + LINE ≤ ROOM }
    ensures { lines.new ≡ lines.old ++ record_line number rec.now }
{
    lines.push(b"record ");
    lines.push_number(number);
    lines.push(b" n=");
    lines.push_number(u64::from(rec.order()));
    lines.push(b" bytes=");
    lines.push_number(rec.bytes().len() as u64);
    lines.push(b"\n");
}

/// Appends the line of `mark`, with the number `count` of records, to the fixed buffer `lines`, in which `LINE` bytes
/// must be free.
fn push_end(lines: &mut TextBuffer, mark: Mark, count: u64)
    requires { length lines.old + LINE ≤ ROOM }
    ensures { lines.new ≡ lines.old ++ frames_end_line mark count }
{
    lines.push(b"end ");
    lines.push(mark_word(mark).as_bytes());
    lines.push(b" records=");
    lines.push_number(count);
    lines.push(b"\n");
}

/// The word for `mark` in text output, such as `complete` or `io`; at most 9 bytes long.
pub fn mark_word(mark: Mark) -> &'static str
    ensures word { result.now ≡ word_of mark }
    ensures short { length result.now ≤ 9 }
{
    match mark {
        Mark::Ended(Ending::Complete) => "complete",
        Mark::Ended(Ending::Truncated) => "truncated",
        Mark::Ended(Ending::Header) => "header",
        Mark::Ended(Ending::Large) => "large",
        Mark::Ended(Ending::Oversize) => "oversize",
        Mark::Ended(Ending::Many) => "many",
        Mark::Ended(Ending::Memory) => "memory",
        Mark::Io => "io",
    }
}
