//! Notes on the files of a run while they are read: why a file failed, how it ended and its first bytes. By these the
//! format of a file is recognised that is not planar_code in the one-byte form.
ghost use Rattle.std.specs.Prelude.{◌≡◌, false, OnOk};
ghost use Rattle.named_sources.specs.Reasons.{IsWhy};

use crate::reason::{Reason, ShortLine};
use planar_code::{Ending, HEADER};
use std::alloc::{AllocError, Global};
use std::fmt::Write;
use std::sync::atomic::{AtomicU8, AtomicU64, Ordering};
use streams::{Mark, Sink, WriteFault, put_all};

/// The number that encodes a mark of a file that may not be planar_code: 1 to 4 for `Header`, `Large`, `Oversize` and
/// `Truncated`; 0 for any other mark.
pub(crate) fn number_of(mark: Mark) -> u64 {
    match mark {
        Mark::Ended(Ending::Header) => 1,
        Mark::Ended(Ending::Large) => 2,
        Mark::Ended(Ending::Oversize) => 3,
        Mark::Ended(Ending::Truncated) => 4,
        _ => 0,
    }
}

/// The ending that a number of `number_of` encodes: `Header`, `Large`, `Oversize` and `Truncated` for 1 to 4; `None`
/// for any other number.
pub(crate) fn ending_of(number: u64) -> Option<Ending> {
    match number {
        1 => Some(Ending::Header),
        2 => Some(Ending::Large),
        3 => Some(Ending::Oversize),
        4 => Some(Ending::Truncated),
        _ => None,
    }
}

/// The first bytes of known formats, and the hint for each.
const KINDS: [(&[u8], &str); 14] = [
    (b"\x1f\x8b", "gzip-compressed: use zcat"),
    (b"\xfd7zXZ\0", "xz-compressed: use xzcat"),
    (b"\x28\xb5\x2f\xfd", "zstd-compressed: use zstdcat"),
    (b"BZh", "bzip2-compressed: use bzcat"),
    (b"PK\x03\x04", "a zip archive: use unzip -p"),
    (b">>planar_code le", TWO_BYTES),
    (b">>planar_code be", TWO_BYTES),
    (b">>edge_code", "edge_code, not planar_code"),
    (b">>double_code", "double_code, not planar_code"),
    (b">>graph6<<", GRAPH6),
    (b">>sparse6<<", SPARSE6),
    (b">>digraph6<<", "digraph6, not planar_code"),
    (b":", SPARSE6),
    (b";", SPARSE6),
];

const TWO_BYTES: &str = "two-byte form: at most 255 vertices here";

const GRAPH6: &str = "graph6: use planarg -p";

const SPARSE6: &str = "sparse6: use planarg -p";

/// A hint, in words, at the format of a file that ended with `ending` and begins with the bytes `front`; `None` if the
/// format is not recognised, which cannot be for the ending `Header`.
pub(crate) fn hint_of(ending: Ending, front: &[u8]) -> Option<&'static str> {
    match ending {
        Ending::Header => Some(hint_without_header(front)),
        _ => hint_after_header(ending, front.get(HEADER.len()..)?),
    }
}

/// A hint, in words, at the format of a file that begins with the bytes `front`, and not with the header; if the format
/// is not recognised, the hint says that the header is missing.
fn hint_without_header(front: &[u8]) -> &'static str {
    for (begins, hint) in KINDS {
        if front.starts_with(begins) {
            return hint;
        }
    }
    if front.is_empty() {
        "empty file"
    } else if HEADER.starts_with(front) {
        "the header >>planar_code<< is cut short"
    } else if is_graph6(front) {
        GRAPH6
    } else if is_text(front) {
        "text, not planar_code"
    } else {
        "not planar_code: the header >>planar_code<< is missing"
    }
}

/// A hint, in words, at what the bytes `body` after the header are in place of records in the one-byte form: a line
/// end, else the two-byte form if `ending` is `Large`, else text; `None` if they are none of these.
fn hint_after_header(ending: Ending, body: &[u8]) -> Option<&'static str> {
    if begins_with_line_end(body) {
        Some("a line end follows the header: remove it")
    } else if ending == Ending::Large {
        Some(TWO_BYTES)
    } else if is_text(body) {
        Some("text follows the header")
    } else {
        None
    }
}

/// Whether the bytes `body` after the header begin with a line end (`\n`, or `\r` and `\n`) that cannot be the number
/// of vertices, 10 or 13, with which a graph begins.
fn begins_with_line_end(body: &[u8]) -> bool {
    match body {
        [b'\n', lists @ ..] => is_no_graph(10, lists),
        [b'\r', lists @ ..] => lists.first() == Some(&b'\n') && is_no_graph(13, lists),
        _ => false,
    }
}

/// Whether `bytes` cannot begin the lists of a simple graph with `vertices` vertices: in a list that a 0 ends, an entry
/// is too great, is the vertex itself, occurs twice, or is a neighbour whose own list is known and lacks the vertex.
fn is_no_graph(vertices: u8, bytes: &[u8]) -> bool {
    let known = bytes.iter().filter(|byte| **byte == 0).count();
    for vertex in 1..=vertices {
        if vertex as usize > known {
            return false;
        }
        let list = list_of(bytes, vertex);
        for entry in list {
            let twice = list.iter().filter(|other| **other == *entry).count() > 1;
            let lacks = *entry as usize <= known && !list_of(bytes, *entry).contains(&vertex);
            if *entry > vertices || twice || lacks || *entry == vertex {
                return true;
            }
        }
    }
    false
}

/// The entries of list number `vertex`, counted from 1, in `bytes`, in which a 0 ends each list, but the last may lack
/// it; empty if there is no such list. The number 0 means the first list too.
fn list_of(bytes: &[u8], vertex: u8) -> &[u8] {
    let mut lists = bytes.split(|byte| *byte == 0);
    lists
        .nth((vertex as usize).saturating_sub(1))
        .unwrap_or(&[])
}

/// Whether `front` begins with a line of graph6: bytes from 63 to 126, the first of them for the number of vertices,
/// and as many more as their pairs need, or fewer if `front` has no line end; any number after a first byte 126. False
/// if `front` is empty.
fn is_graph6(front: &[u8]) -> bool {
    let Some(first) = front.first() else {
        return false;
    };
    let line = line_of(front);
    if !line.iter().all(|byte| (63..=126).contains(byte)) {
        return false;
    }
    if *first == 126 {
        return true;
    }
    let vertices = first.saturating_sub(63) as usize;
    let bytes = (vertices * vertices.saturating_sub(1) / 2).div_ceil(6);
    line.len() == bytes + 1 || (line.len() == front.len() && line.len() <= bytes)
}

/// The bytes of `front` before its first line end `\n`, without white space at their end; if there is no line end, all
/// of `front`, with such white space.
fn line_of(front: &[u8]) -> &[u8] {
    match front.iter().position(|byte| *byte == b'\n') {
        Some(end) => front[..end].trim_ascii_end(),
        None => front,
    }
}

/// Whether `bytes` look like text: more than three, each printable or white space in ASCII, or 128 or more.
fn is_text(bytes: &[u8]) -> bool {
    bytes.len() > 3
        && bytes.iter().all(|byte| byte.is_ascii_graphic()
            || byte.is_ascii_whitespace()
            || *byte >= 128)
}

/// The number of a file's first bytes that are noted.
pub(crate) const FRONT: usize = 96;

/// Notes on one file while it is read: why it failed, its first bytes, and how it ended. Any thread may write them.
#[derive(Drop)]
pub struct FileNote {
    /// The reason why it was not opened or a read of it failed, encoded as by `code_of`, or 0.
    failure: AtomicU64,
    /// How it ended, if it is not planar_code, encoded as by `number_of`, or 0.
    ending: AtomicU64,
    /// Its first bytes.
    front: Vec<AtomicU8>,
    /// The number of bytes in `front`.
    len: AtomicU64,
}

impl FileNote {
    /// A note in which nothing is noted yet. `AllocError` if there is no memory for the first bytes of the file.
    fn new(alloc: Global) -> Result<FileNote, AllocError> {
        let mut front = Vec::with_capacity(alloc, FRONT)?;
        for _ in 0..FRONT {
            front.push(AtomicU8::new(0))?;
        }
        Ok(FileNote {
            failure: AtomicU64::new(0),
            ending: AtomicU64::new(0),
            front,
            len: AtomicU64::new(0),
        })
    }

    /// Notes that the file was not opened, or that a read of it failed, for `reason`, which replaces an earlier one.
    pub(crate) fn keep_failure(&self, reason: Reason) {
        self.failure.store(code_of(reason), Ordering::SeqCst);
    }

    /// Notes `bytes` as those that follow the first `place` bytes of the file, which were noted before; only the first
    /// `FRONT` bytes of a file are kept, in memory that the note already has.
    pub(crate) fn keep_front(&self, place: usize, bytes: &[u8]) {
        let mut end = place;
        for byte in bytes.iter().take(FRONT) {
            let Some(slot) = self.front.get(end) else {
                break;
            };
            slot.store(*byte, Ordering::SeqCst);
            end = end.saturating_add(1);
        }
        self.len.store(end as u64, Ordering::SeqCst);
    }

    /// Notes how the file ended, in place of what was noted of that so far: the ending of `mark` if `number_of` encodes
    /// it, and otherwise nothing.
    fn end(&self, mark: Mark) {
        self.ending.store(number_of(mark), Ordering::SeqCst);
    }

    /// A copy of the noted first bytes of the file, at most `FRONT`; `AllocError` if there is no memory for it.
    fn front(&self, alloc: Global) -> Result<Vec<u8>, AllocError> {
        let len = self.len.load(Ordering::SeqCst);
        let mut bytes = Vec::with_capacity(alloc, FRONT)?;
        for slot in &self.front {
            if (bytes.len() as u64) < len {
                bytes.push(slot.load(Ordering::SeqCst))?;
            }
        }
        Ok(bytes)
    }

    /// A hint, in words, at the format of the file, if by its end it may not be planar_code and the format is
    /// recognised; `None` otherwise, or if memory ran out.
    fn hint(&self, alloc: Global) -> Option<&'static str> {
        let ending = ending_of(self.ending.load(Ordering::SeqCst))?;
        let front = self.front(alloc).ok()?;
        hint_of(ending, front.as_slice())
    }

    /// Why the file failed, or else what format it has, in one line that begins with `: ` and has no line end; empty if
    /// neither is known, if the text is not of one line, or if memory ran out for the format.
    fn why(&self, alloc: Global) -> ShortLine
        ensures { IsWhy result.bytes }
    {
        let mut why = ShortLine::new();
        if let Some(reason) = reason_of(self.failure.load(Ordering::SeqCst)) {
            let _ = write!(why, ": {reason}");
        } else if let Some(hint) = self.hint(alloc) {
            let _ = write!(why, ": {hint}");
        }
        let text = why.as_str().as_bytes();
        let is_one_line = text.starts_with(b": ") && !text.contains(&b'\n');
        if is_one_line { why } else { ShortLine::new() }
    }
}

/// The number that encodes `reason`: 1 if it has no error code, else 2 more than the code without its sign.
fn code_of(reason: Reason) -> u64 {
    match reason.code {
        Some(code) => u64::from(code.unsigned_abs()) + 2,
        None => 1,
    }
}

/// The reason that a number of `code_of` encodes; `None` for 0, and an unknown reason if the code is too great.
fn reason_of(number: u64) -> Option<Reason> {
    match number.checked_sub(1)? {
        0 => Some(Reason::UNKNOWN),
        above => Some(Reason {
            code: i32::try_from(above - 1).ok(),
        }),
    }
}

/// A [`FileNote`] for each file of a run, from which messages about files that failed are written.
#[derive(Drop)]
pub struct FileNotes {
    notes: Vec<FileNote>,
}

impl FileNotes {
    /// A note in which nothing is noted yet for each of the files 0 to `files` - 1. `AllocError` if there is no memory
    /// for them.
    pub fn new(alloc: Global, files: usize) -> Result<FileNotes, AllocError> {
        let mut notes = Vec::with_capacity(alloc, files)?;
        for _ in 0..files {
            notes.push(FileNote::new(alloc)?)?;
        }
        Ok(FileNotes { notes })
    }

    /// The note on the file with number `file`, from 0; `None` if there is no such file.
    pub fn note(&self, file: u32) -> Option<&FileNote> {
        self.notes.get(file as usize)
    }

    /// Stores in the note of file `file`, from 0, that the file ended with `mark`, in place of an earlier mark; does
    /// nothing if there is no such file.
    pub fn end(&self, file: u32, mark: Mark) {
        if let Some(note) = self.note(file) {
            note.end(mark);
        }
    }

    /// Why the file with number `file`, from 0, failed, or else what format it has, in one line that begins with `: `
    /// and has no line end; empty if neither is known, if there is no such file, or if memory ran out for the format.
    pub fn why(&self, alloc: Global, file: usize) -> ShortLine
        ensures { IsWhy result.bytes }
    {
        match self.notes.get(file) {
            Some(note) => note.why(alloc),
            None => ShortLine::new(),
        }
    }

    /// Writes to `err` a line with its name, from `names`, for each file that failed, or that is not planar_code and
    /// has a recognised format, in order. There is no error: once a write fails it writes no more, and if memory runs
    /// out for the format of a file, its line is left out.
    ///
    /// The line of a file that was not opened or not read to its end says why, with the system's reason; that of one
    /// that is not planar_code says what it looks like. After a failed write `err` may have a part of a line.
    pub fn write<E: Sink>(&self, alloc: Global, names: &[&str], err: &mut E)
        requires { E.failed err.old ≡ false }
    {
        for (name, note) in names.iter().zip(&self.notes) {
            if write_note(alloc, name, note, err).is_err() {
                return;
            }
        }
    }
}

/// Writes to `err` the line that says why the file with this name failed or what format it has; writes nothing if
/// neither is known, or if memory runs out for the format. `Write`, the only error, if `err` fails: it then has a part
/// of the line.
///
/// # Errors
///
/// `Write` if the sink has failed.
fn write_note<E: Sink>(
    alloc: Global,
    name: &str,
    note: &FileNote,
    err: &mut E,
) -> Result<(), WriteFault>
    requires { E.failed err.old ≡ false }
    ensures { OnOk result (E.failed err.new ≡ false) }
{
    let why = note.why(alloc);
    if why.as_str().is_empty() {
        return Ok(());
    }
    put_all(err, b"planarbend: ")?;
    put_all(err, name.as_bytes())?;
    put_all(err, why.as_str().as_bytes())?;
    put_all(err, b"\n")
}
