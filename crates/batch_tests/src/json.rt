//! JSON lines of files in memory. The bytes, the texts and the beginnings and ends of lines come from the
//! descriptions of the format and of the lines.

use crate::shared::plain_batch;
use collector::{Batch, Choice, IoSink, WriteFault, write_json};
use std::alloc::Global;
use std::process::Abort;
use test_tools::{Narrow, same};

const EDGE: &[u8] = b">>planar_code<<\x02\x02\x00\x01\x00";

/// The complete graph on four vertices with a rotation of another surface, and vertices without edges.
const REFUSED: &[u8] =
    b">>planar_code<<\x04\x03\x04\x02\x00\x01\x04\x03\x00\x02\x04\x01\x00\x01\x02\x03\x00\x01\x00";

const THREE_FILES: [&[u8]; 3] = [
    b">>planar_code<<\x03\x02\x03\x00\x03\x01\x00\x01\x02\x00\x03\x02\x03\x00\x03\x01\x00\x01\x02\x00",
    b">>planar_code<<\x02\x02\x00\x01\x00\x01\x00\x02\x02\x00\x01",
    b">>planar_code<<",
];

/// The batch of these files, each read at once.
fn batch_of(alloc: Global, files: &[&[u8]]) -> Option<Batch> {
    plain_batch(alloc, files, 65_536, Choice::First)
}

/// The JSON lines of a batch.
fn text_of(alloc: Global, batch: &Batch) -> Result<Vec<u8>, WriteFault> {
    let mut sink = IoSink::new(Vec::new(alloc));
    write_json(alloc, batch, &mut sink)?;
    Ok(sink.into_writer())
}

/// The lines of these files.
fn lines_of(rt: &impl Abort, alloc: Global, files: &[&[u8]]) -> Vec<u8> {
    let batch = batch_of(alloc, files).expect(rt, "a batch");
    text_of(alloc, &batch).expect(rt, "lines")
}

/// The JSON lines of refused graphs and of ends of files are as in the description.
#[test]
fn shows_refused_graphs_and_ends(rt: HostRuntime) {
    let lines = lines_of(&rt, rt.alloc(), &[b"", REFUSED, b">>planar_code<<"]);
    let text = "{\"end\":\"header\",\"file\":1,\"graphs\":0}\n\
        {\"file\":2,\"graph\":1,\"rule\":\"genus\",\"status\":\"refused\"}\n\
        {\"file\":2,\"graph\":2,\"rule\":\"edgeless\",\"status\":\"refused\"}\n\
        {\"end\":\"complete\",\"file\":2,\"graphs\":2}\n\
        {\"end\":\"complete\",\"file\":3,\"graphs\":0}\n";
    same!(&rt, lines.as_slice(), text.as_bytes());
    same!(&rt, lines_of(&rt, rt.alloc(), &[]).len(), 0);
}

/// The JSON line of a single edge begins and ends as in the description.
#[test]
fn shows_a_single_edge(rt: HostRuntime) {
    let text = lines_of(&rt, rt.alloc(), &[EDGE]);
    let begins =
        b"{\"angles\":[4,4],\"bends\":0,\"drawn\":\"yes\",\"f\":1,\"file\":1,\"graph\":1,\"m\":1,\"n\":2,\"points\":{";
    let ends =
        b"\"status\":\"ok\",\"turns\":[\"\",\"\"]}\n{\"end\":\"complete\",\"file\":1,\"graphs\":1}\n";
    let text = text.as_slice();
    same!(
        &rt,
        (text.starts_with(begins), text.ends_with(ends)),
        (true, true),
    );
}

/// Writes into a writer with this much room, and checks the result and what is written of the text.
fn check_room<R: AllocGlobal + Abort>(
    rt: &R,
    batch: &Batch,
    text: &[u8],
    (room, most): (usize, usize),
    answer: Result<(), WriteFault>,
) {
    let mut sink = IoSink::new(Narrow::new(room, most, true));
    same!(rt, write_json(rt.alloc(), batch, &mut sink), answer);
    let written = sink.into_writer();
    same!(rt, written.text(), &text[..room.min(text.len())]);
}

/// Checks that a writer that fails after this many bytes holds just these, and that one that takes a byte a call holds
/// all.
fn check_rooms<R: AllocGlobal + Abort>(rt: &R, batch: &Batch, text: &[u8]) {
    assert!(rt; text.len() <= 2048);
    for room in 0..text.len() {
        check_room(rt, batch, text, (room, 100), Err(WriteFault::Write));
    }
    check_room(rt, batch, text, (2048, 1), Ok(()));
}

/// A writer that fails holds a beginning of the JSON lines.
#[test]
fn writes_a_beginning_before_a_fault(rt: HostRuntime) {
    let batch = batch_of(rt.alloc(), &THREE_FILES).expect(&rt, "a batch");
    let text = text_of(rt.alloc(), &batch).expect(&rt, "lines");
    check_rooms(&rt, &batch, text.as_slice());
}

/// What is written of a batch into a writer that takes at most 100 bytes a call, and the result.
fn narrow_text(alloc: Global, batch: &Batch) -> (Narrow, Result<(), WriteFault>) {
    let mut sink = IoSink::new(Narrow::new(2048, 100, true));
    let found = write_json(alloc, batch, &mut sink);
    (sink.into_writer(), found)
}

/// Writes a batch twice: whether one text is whole, and the other one as well, or a beginning whose result says that
/// memory ran out.
fn is_written(alloc: Global, batch: &Batch) -> bool {
    let (first, found) = narrow_text(alloc, batch);
    let (second, again) = narrow_text(alloc, batch);
    are_allowed(first.text(), found, second.text(), again)
}

/// With each allocation refused in turn, one of two calls writes a beginning of the text and says that memory ran out.
/// The other one writes the whole text. Both do if none of their allocations was refused.
#[test]
fn names_want_of_memory(rt: HostRuntime) {
    if let Some(batch) = batch_of(rt.alloc(), &THREE_FILES) {
        same!(&rt, is_written(rt.alloc(), &batch), true);
    }
}

/// Whether two texts are the same, or one is a beginning of the other and its result says that memory ran out.
fn are_allowed(
    first: &[u8],
    found: Result<(), WriteFault>,
    second: &[u8],
    again: Result<(), WriteFault>,
) -> bool {
    match (found, again) {
        (Ok(()), Ok(())) => first == second,
        (Err(WriteFault::Memory), Ok(())) => second.starts_with(first),
        (Ok(()), Err(WriteFault::Memory)) => first.starts_with(second),
        _ => false,
    }
}
