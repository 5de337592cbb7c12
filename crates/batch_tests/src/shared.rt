//! Files in memory and the reports of batches, which the tests share.

ghost use Rattle.std.specs.Prelude.{◌<◌};

use collector::{
    Answer, Batch, Book, Choice, DrawingKind, Ending, Form, Gate, IoSink, Mark, MemOpener, Style,
    WriteFault, run_batch, run_plain, write_report,
};
use commands::write_batch;
use std::alloc::{AllocError, Global};
use std::process::Abort;
use std::sync::Wait;
use std::thread::Threads;
use test_tools::records::HEADER;
use test_tools::same;

pub(crate) const TRIANGLES: &[u8] =
    b">>planar_code<<\x03\x02\x03\x00\x03\x01\x00\x01\x02\x00\x03\x02\x03\x00\x03\x01\x00\x01\x02\x00";

pub(crate) const CUT: &[u8] = b">>planar_code<<\x02\x02\x00\x01\x00\x02\x02\x00\x01";

/// Two triangles; an edge and a record that is cut; no record.
pub(crate) const THREE_FILES: [&[u8]; 3] = [TRIANGLES, CUT, HEADER];

/// The report of these three files.
pub(crate) const OF_THREE: &str = "file 1\ngraph 1 ok n=3 m=3 f=2 bends=1 drawn=yes\n\
    graph 2 ok n=3 m=3 f=2 bends=1 drawn=yes\nend complete graphs=2\n\
    file 2\ngraph 1 ok n=2 m=1 f=1 bends=0 drawn=yes\nend truncated graphs=1\n\
    file 3\nend complete graphs=0\n";

/// Copies of these files.
pub(crate) fn copies(alloc: Global, files: &[&[u8]]) -> Result<Vec<Vec<u8>>, AllocError> {
    let mut lists = Vec::new(alloc);
    for bytes in files {
        lists.push(bytes.to_vec(alloc)?)?;
    }
    Ok(lists)
}

/// An opener of these files, of which a read returns at most this many bytes.
pub(crate) fn opener_of(
    alloc: Global,
    files: &[&[u8]],
    most: usize,
) -> Result<MemOpener, AllocError>
    requires { 0 < most }
{
    Ok(MemOpener::new(copies(alloc, files)?, most))
}

/// The number of these files.
pub(crate) fn count_of(files: &[&[u8]]) -> Option<u32> {
    u32::try_from(files.len()).ok()
}

/// A batch of these files, read on one thread.
pub(crate) fn plain_batch(
    alloc: Global,
    files: &[&[u8]],
    most: usize,
    choice: Choice,
) -> Option<Batch>
    requires { 0 < most }
{
    let count = count_of(files)?;
    let opener = opener_of(alloc, files, most).ok()?;
    run_plain(alloc, &opener, count, choice).ok()
}

/// A batch of these files, read one byte at a time over lanes.
pub(crate) fn lanes_batch<R: AllocGlobal + Threads + Wait + Sync, G: Gate>(
    rt: &R,
    files: &[&[u8]],
    lanes: u32,
    choice: Choice,
    gate: &G,
) -> Option<Batch> {
    let count = count_of(files)?;
    let opener = opener_of(rt.alloc(), files, 1).ok()?;
    run_batch(rt, rt.alloc(), &opener, count, lanes, 1, choice, gate).ok()
}

/// The two ways to get the report of a run over lanes.
#[derive(Clone, Copy)]
pub(crate) enum Way {
    /// From its books.
    Books,
    /// As streamed output.
    Text,
}

/// Both ways.
pub(crate) const WAYS: [Way; 2] = [Way::Books, Way::Text];

/// The report of these files, read one byte at a time over lanes.
pub(crate) fn lanes_report<R: AllocGlobal + Threads + Wait + Sync, G: Gate>(
    rt: &R,
    way: Way,
    files: &[&[u8]],
    lanes: u32,
    choice: Choice,
    gate: &G,
) -> Option<Vec<u8>> {
    match way {
        Way::Books => {
            let batch = lanes_batch(rt, files, lanes, choice, gate)?;
            report_of(rt.alloc(), &batch).ok()
        }
        Way::Text => lanes_text(rt, files, lanes, choice, gate),
    }
}

/// The streamed output of a run over these files.
fn lanes_text<R: AllocGlobal + Threads + Wait + Sync, G: Gate>(
    rt: &R,
    files: &[&[u8]],
    lanes: u32,
    choice: Choice,
    gate: &G,
) -> Option<Vec<u8>> {
    let count = count_of(files)?;
    let opener = opener_of(rt.alloc(), files, 1).ok()?;
    text_of_lanes(rt, &opener, count, lanes, choice, Form::Report, gate)
}

/// The streamed output, in this form and of quick drawings, of a run over this many files of an opener.
pub(crate) fn text_of_lanes<R: AllocGlobal + Threads + Wait + Sync, G: Gate>(
    rt: &R,
    opener: &MemOpener,
    files: u32,
    lanes: u32,
    choice: Choice,
    form: Form,
    gate: &G,
) -> Option<Vec<u8>> {
    let (alloc, drawing_kind) = (rt.alloc(), DrawingKind::Quick);
    let style = Style { form, drawing_kind };
    let mut sink = IoSink::new(Vec::new(alloc));
    let ended = write_batch(
        rt,
        alloc,
        opener,
        files,
        lanes,
        1,
        usize::MAX,
        choice,
        style,
        gate,
        &mut sink,
    );
    match ended {
        Ok(_) => Some(sink.into_writer()),
        Err(_) => None,
    }
}

/// The report of a batch.
pub(crate) fn report_of(alloc: Global, batch: &Batch) -> Result<Vec<u8>, WriteFault> {
    let mut sink = IoSink::new(Vec::new(alloc));
    write_report(batch, &mut sink)?;
    Ok(sink.into_writer())
}

/// Checks that the report of a batch is this text.
pub(crate) fn check_report<R: AllocGlobal + Abort>(rt: &R, batch: &Batch, report: &[u8]) {
    let text = report_of(rt.alloc(), batch).expect(rt, "a report");
    same!(rt, text.as_slice(), report);
}

/// The numbers of vertices, edges, faces and bends of a drawn record.
type Sizes = (u32, u32, u32, u32);

/// Returns 1 if an answer says that memory ran out. Otherwise checks that it is a drawing of these sizes, and returns
/// 0.
fn wants_of(rt: &impl Abort, answer: &Answer, sizes: Sizes) -> usize {
    let found = match answer {
        Answer::Laid {
            plane,
            shape,
            drawing,
            prices: _,
        } => {
            let graph = plane.graph();
            let found = (
                u32::from(graph.vertices()),
                u32::from(graph.edges()),
                u32::from(plane.face_count()),
                shape.bends(),
            );
            drawing.is_ok().then_some(found)
        }
        Answer::Refused(_) => None,
        Answer::NoMemory => return 1,
    };
    same!(rt, found, Some(sizes));
    0
}

/// How often a book says that memory ran out, by an answer or by its mark, and how many entries it has. Checks that the
/// book otherwise has these records and this mark.
fn wants_in(rt: &impl Abort, book: &Book, records: &[Sizes], mark: Mark) -> (usize, usize) {
    let entries = book.entries();
    let mut wants: usize = 0;
    for (entry, sizes) in entries.iter().zip(records) {
        wants = wants.saturating_add(wants_of(rt, &entry.answer, *sizes));
    }
    if book.mark() == mark {
        same!(rt, entries.len(), records.len());
    } else {
        same!(rt, book.mark(), Mark::Ended(Ending::Memory));
        same!(rt, entries.len() <= records.len(), true);
        wants = wants.saturating_add(1);
    }
    (wants, entries.len())
}

/// Checks that the books are those of the three files, except for at most one place that says that memory ran out.
/// Returns how many entries they have.
pub(crate) fn check_three(rt: &impl Abort, batch: &Batch) -> usize {
    assert!(rt; batch.files() == 3);
    let complete = Mark::Ended(Ending::Complete);
    let triangle = (3, 3, 2, 1);
    let first = wants_in(rt, batch.book(0), &[triangle, triangle], complete);
    let cut = Mark::Ended(Ending::Truncated);
    let second = wants_in(rt, batch.book(1), &[(2, 1, 1, 0)], cut);
    let third = wants_in(rt, batch.book(2), &[], complete);
    let wants = first.0.saturating_add(second.0).saturating_add(third.0);
    same!(rt, wants <= 1, true);
    first.1.saturating_add(second.1).saturating_add(third.1)
}
