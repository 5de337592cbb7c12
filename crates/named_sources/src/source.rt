//! Files as sources of a run, by their names and by their places in a list of names; standard input by its name, and
//! standard streams that are closed; and sinks over writers that keep the reason of a failed write.
ghost use Rattle.std.specs.Prelude.{◌≡◌, ℕ, List, IfOk, ◌↔◌, Some, [], true, slice_get, false};
ghost use Rattle.named_sources.specs.Naming.{is_input, meanings_in};
ghost use Rattle.lanes.specs.Opening.{Meaning, Opens, Silent};
ghost use Rattle.named_sources.specs.Refused.{by_fault};
ghost use Rattle.named_sources.specs.Sources.{noted_to_come, noted_fails, IsKnownAs};

use crate::file_notes::{FileNote, FileNotes};
use crate::reason::{KeepsReason, ReadTap, Reason};
use either::{Either, Left, Right};
use lanes::{OpenFault, Opener};
use std::alloc::{AllocError, Global};
use std::fs;
use std::io::{ErrorKind, Read, Write};
use std::os::fd::AsFd;
use std::rt::Files;
use std::sync::atomic::{AtomicU64, Ordering};
use streams::{Mark, Sink, SinkFault, Tap, TapFault};

/// The file name that means standard input.
pub const INPUT: &str = "-";

/// Whether the file name `name` means standard input: it is then exactly `-`.
pub fn is_input(name: &str) -> bool
    ensures { result ≡ is_input name.now }
{
    name == INPUT
}

/// Whether a standard stream is open: it duplicates the stream's file descriptor and closes the copy. False also if the
/// descriptor cannot be duplicated for another reason.
fn is_open<F: AsFd>(stream: &F) -> bool {
    stream.as_fd().try_clone_to_owned().is_ok()
}

/// Returns `stream`, or `None` if it is closed now or its file descriptor cannot be duplicated; to be called before any
/// file is opened.
pub fn if_open<F: AsFd + Copy>(stream: F) -> Option<F> {
    is_open(&stream).then_some(stream)
}

/// Opens the folder `/` in place of this standard stream if it is closed or its file descriptor cannot be duplicated,
/// and returns it; `None` if the stream is open or the folder could not be opened, for example for lack of memory.
///
/// It has a closed stream's file descriptor, if the standard streams with lower ones are open or have a folder too; no
/// file can then get it by chance, as long as the folder is held. Every read and write of a folder fails.
pub fn place_holder<R: Files, F: AsFd + Copy>(rt: &R, stream: F) -> Option<R::File> {
    if is_open(&stream) {
        return None;
    }
    fs::open(rt, "/").ok()
}

/// The reason why a file was not opened: the fault of the run, and the system's reason.
#[derive(Clone, Copy, Debug, PartialEq, Eq)]
pub struct Refused {
    pub fault: OpenFault,
    pub reason: Reason,
}

/// Opens files by their names, from any thread.
///
/// In proofs it may be known of each name whether a file of this name opens, and then which bytes it gives and whether
/// it fails after the last of them. Of the files of a system nothing is known.
pub trait NamedFiles: Sync {
    /// An open file, which keeps the reason of a failed read.
    type Source: Tap + KeepsReason + Send;

    ghost meaning: { Self → List ℕ → Meaning };

    /// Opens the file with the name `name`, at its beginning. An error has the system's reason, and a fault: `Io` if
    /// the file could not be opened, `Memory` if memory ran out.
    ///
    /// # Errors
    ///
    /// The fault is `Io` if the file could not be opened, `Memory` if memory ran out. The reason is the system's.
    fn open(&self, alloc: Global, name: &str) -> Result<Self::Source, Refused>
        ensures { Opens Self.Source.to_come Self.Source.fails (meaning self.now name.now) (by_fault result) };
}

/// The files of the system, and under the name `-` standard input. Nothing is known of their bytes.
#[derive(Drop)]
pub struct SystemFiles<'r, R, I> {
    pub rt: &'r R,
    /// Standard input, if it was open when the program began.
    pub input: Option<I>,
}

impl<R: Files + Sync, I: Read + Copy + Send + Sync> NamedFiles for SystemFiles<'_, R, I>
where
    R::File: Send,
    R::Dir: Send,
{
    ghost use Rattle.named_sources.specs.Readers.{reader_of, IsReaderOf};

    type Source = ReadTap<Either<R::File, I>>;

    ghost meaning = { λ _ _. Silent };

    /// Opens the file with the name `name`, or standard input if that is `-`. An error has the system's reason, and a
    /// fault: `Memory` if memory ran out, else `Io`, also if standard input was closed when the program began.
    ///
    /// The contract of all named files, and that standard input is read exactly for its name.
    fn open(&self, _alloc: Global, name: &str) -> Result<ReadTap<Either<R::File, I>>, Refused>
        ensures reader { IfOk result (λ source. IsReaderOf (is_input name.now) self.now.input (reader_of source)) }
    {
        if is_input(name) {
            return match self.input {
                Some(input) => Ok(ReadTap::new(Right(input))),
                None => Err(Refused {
                    fault: OpenFault::Io,
                    reason: CLOSED,
                }),
            };
        }
        match fs::open(self.rt, name) {
            Ok(file) => Ok(ReadTap::new(Left(file))),
            Err(error) => Err(Refused {
                fault: open_fault(error.kind()),
                reason: Reason::of(error),
            }),
        }
    }
}

/// The reason why standard input is not opened: it was closed when the program began, so its file descriptor is bad
/// (`EBADF`).
const CLOSED: Reason = Reason { code: Some(9) };

/// A source whose first bytes and whose failure are noted. If the file could not be opened, every read fails.
#[derive(Drop)]
pub struct NotedSource<'r, F> {
    /// The open file.
    source: Option<F>,
    note: Option<&'r FileNote>,
    /// The number of bytes read of it.
    place: usize,
}

impl<'r, F: Tap> NotedSource<'r, F> {
    /// The open file `source`, of which nothing was read yet, as a source that writes to `note` its first bytes and the
    /// reason of a failed read, if there is a note.
    pub(crate) fn new(source: F, note: Option<&'r FileNote>) -> NotedSource<'r, F>
        ensures to_come { noted_to_come F.to_come result ≡ F.to_come source }
        ensures fails { noted_fails F.fails result ≡ F.fails source }
    {
        NotedSource {
            source: Some(source),
            note,
            place: 0,
        }
    }

    /// A source whose every read fails, for a file that could not be opened; writes `reason` to `note`, if there is a
    /// note.
    fn unopened(reason: Reason, note: Option<&'r FileNote>) -> NotedSource<'r, F>
        ensures to_come { noted_to_come F.to_come result ≡ Some [] }
        ensures fails { noted_fails F.fails result ≡ true }
    {
        if let Some(note) = note {
            note.keep_failure(reason);
        }
        NotedSource {
            source: None,
            note,
            place: 0,
        }
    }
}

impl<F: Tap + KeepsReason> Tap for NotedSource<'_, F> {
    ghost to_come = { noted_to_come F.to_come };

    ghost fails = { noted_fails F.fails };

    /// Reads the next bytes into the beginning of `buf`, notes those among the file's first bytes, and returns how many
    /// it read. If `buf` is not empty, 0 is the end. `TapFault` if the file was not opened, or if the read failed: its
    /// reason is then noted, and `buf` may hold any bytes. Without a note it notes nothing.
    fn read(&mut self, buf: &mut [u8]) -> Result<usize, TapFault> {
        let note = self.note;
        let Some(source) = &mut self.source else {
            return Err(TapFault);
        };
        match source.read(buf) {
            Ok(count) => {
                if let Some(note) = note {
                    note.keep_front(self.place, &buf[..count]);
                }
                self.place = self.place.saturating_add(count);
                Ok(count)
            }
            Err(fault) => {
                if let Some(note) = note {
                    note.keep_failure(source.reason());
                }
                Err(fault)
            }
        }
    }
}

/// Opens the file with the name `name`. A file that could not be opened is no error, but a source whose every read
/// fails, and the reason is written to `note`, if there is a note. `AllocError` if memory ran out while it was opened;
/// nothing is noted then.
///
/// # Errors
///
/// `AllocError` if memory ran out while it was opened. There is no other error.
pub fn open_source<'r, N: NamedFiles>(
    files: &N,
    alloc: Global,
    name: &str,
    note: Option<&'r FileNote>,
) -> Result<NotedSource<'r, N::Source>, AllocError>
    ensures known { IfOk result (IsKnownAs N.Source.to_come N.Source.fails (N.meaning files.now name.now)) }
{
    match files.open(alloc, name) {
        Ok(file) => Ok(NotedSource::new(file, note)),
        Err(
            Refused {
                fault: OpenFault::Memory,
                ..
            },
        ) => Err(AllocError),
        Err(
            Refused {
                fault: OpenFault::Io,
                reason,
            },
        ) => Ok(NotedSource::unopened(reason, note)),
    }
}

/// The fault of a file that was not opened, for a system error of this kind: `Memory` for `OutOfMemory`, and `Io` for
/// any other. It only converts, and cannot fail.
pub(crate) fn open_fault(kind: ErrorKind) -> OpenFault
    ensures memory { (result ≡ OpenFault.Memory) ↔ (kind ≡ ErrorKind.OutOfMemory) }
{
    match kind {
        ErrorKind::OutOfMemory => OpenFault::Memory,
        _ => OpenFault::Io,
    }
}

/// An opener of the files in a list of file names; a file's number is the index of its name.
///
/// A name may be listed more than once. A number past the list is not opened. Each call of `open` for a name is counted
/// in `opened`, even if it is refused. How each file begins and ends, and why it fails, is written to `notes`.
///
/// In contracts what is known of a file is what `files` says of its name.
#[derive(Drop)]
pub struct FileOpener<'r, 'n, N> {
    pub files: &'r N,
    pub names: &'n [&'n str],
    pub opened: &'r AtomicU64,
    pub notes: &'r FileNotes,
}

impl<'n, N> FileOpener<'_, 'n, N> {
    /// The name of the file with number `file`, from 0; `None` past the end of the list.
    fn name(&self, file: u32) -> Option<&'n str>
        ensures { result ≡ slice_get self.now.names.now file }
    {
        self.names.get(file as usize).copied()
    }
}

impl<'r, N: NamedFiles> Opener for FileOpener<'r, '_, N> {
    type Source = NotedSource<'r, N::Source>;

    ghost meaning = { λ o. meanings_in (N.meaning o.files.now) o.names.now };

    /// Opens the file with number `file`, from 0, adds 1 to `opened`, also if the opening fails, and writes the reason
    /// of a failure to the file's note. `Io` if it could not be opened, or if there is no such number, which is not
    /// counted; `Memory` if memory ran out.
    fn open(&self, alloc: Global, file: u32) -> Result<NotedSource<'r, N::Source>, OpenFault> {
        let Some(name) = self.name(file) else {
            return Err(OpenFault::Io);
        };
        self.opened.fetch_add(1, Ordering::SeqCst);
        let note = self.notes.note(file);
        match self.files.open(alloc, name) {
            Ok(source) => Ok(NotedSource::new(source, note)),
            Err(refused) => {
                if let Some(note) = note {
                    note.keep_failure(refused.reason);
                }
                Err(refused.fault)
            }
        }
    }

    /// Stores in the note of file `file`, from 0, that the file ended with `mark`; does nothing if there is no such
    /// file.
    fn ended(&self, file: u32, mark: Mark) {
        self.notes.end(file, mark);
    }
}

/// A sink over a writer of std that keeps the reason of a failed write, and otherwise behaves as `IoSink`.
///
/// It fails if a write fails or takes nothing of a nonempty piece.
#[derive(Drop)]
pub struct OutputSink<W> {
    writer: W,
    failed: bool,
    reason: Reason,
}

impl<W: Write> OutputSink<W> {
    /// A sink over `writer`, which has not failed yet and keeps no reason yet. What the writer contains already counts
    /// as taken.
    pub fn new(writer: W) -> OutputSink<W>
        ensures taken { ⟦<OutputSink<W> as Sink>⟧.taken result ≡ W.contents writer }
        ensures intact { ⟦<OutputSink<W> as Sink>⟧.failed result ≡ false }
    {
        OutputSink {
            writer,
            failed: false,
            reason: Reason::UNKNOWN,
        }
    }
}

impl<W: Write> Sink for OutputSink<W> {
    ghost taken = { λ s. W.contents s.writer };

    ghost failed = { λ s. s.failed };

    /// Writes the first bytes of `piece` and returns how many: at least one of a nonempty piece. `SinkFault` if the
    /// write fails, and then its reason is kept, or if it takes nothing of a nonempty piece: nothing is written, and
    /// the sink has then failed.
    fn put(&mut self, piece: &[u8]) -> Result<usize, SinkFault> {
        match self.writer.write(piece) {
            Ok(count) if count > 0 || piece.is_empty() => Ok(count),
            Ok(_) => {
                self.failed = true;
                Err(SinkFault)
            }
            Err(error) => {
                self.failed = true;
                self.reason = Reason::of(error);
                Err(SinkFault)
            }
        }
    }
}

impl<W: Write> KeepsReason for OutputSink<W> {
    /// The reason of the last write that failed; `UNKNOWN` if none failed or the system gave no error code. A write
    /// that took nothing has no reason, and leaves the last one.
    fn reason(&self) -> Reason {
        self.reason
    }
}
