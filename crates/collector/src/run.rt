//! A run over lanes that gives books, and one on the caller's thread, which reads and answers one file after another.
ghost use Rattle.std.specs.Prelude.{⊤, map, ◌≡◌, ◌<◌, ◌≤◌, ◌⊎◌, ◌↔◌, Err, IfOk, IfErr, length};
ghost use Rattle.lanes.specs.Notes.{Item};
ghost use Rattle.reports.specs.Abouts.{about_of};
ghost use Rattle.reports.specs.declared.book.TheConstants.{MAX_FILES};
ghost use Rattle.reports.specs.Books.{IsBook};
ghost use Rattle.reports.specs.AllBooks.{AreAllBooks};
ghost use Rattle.collector.specs.DrawnBooks.{AreDrawnBooks};
ghost use Rattle.ruled_lanes.specs.declared.channel.TheConstants.{LANES, MAX_CAPACITY};

use answers::{Answering, KeepEntries, answer};
use common::{Choice, DrawingKind};
use lanes::{Drafts, Gate, Opener, Pauses, RecordSink, Run, RunFault, read_file, run_lanes};
use planar_code::Record;
use reports::{Batch, Book, Entry, MAX_FILES, books_of};
use ruled_lanes::LANES;
use std::alloc::{AllocError, Global};
use std::sync::Wait;
use std::thread::Threads;
use streams::{BatchFault, piece_buffer};

/// A `RecordSink` that answers each record and keeps the entries, in order.
#[derive(Drop)]
pub struct Entries {
    pub entries: Vec<Entry>,
}

impl RecordSink for Entries {
    type Refusal = AllocError;

    ghost kept = { λ e. map (λ entry. Item (about_of entry)) e.entries.items };

    ghost stays = { λ _ _. ⊤ };

    ghost accepts = { λ _ _ _ _. ⊤ };

    /// Answers `rec` on this thread, and appends its entry, with `file`, `ordinal` and `choice`, to `entries`; if
    /// memory runs out for the answer, the entry says so. `AllocError` if there is no memory to append the entry; then
    /// `entries` is as it was.
    fn keep(
        &mut self,
        alloc: Global,
        file: u32,
        ordinal: u32,
        rec: Record,
        choice: Choice,
    ) -> Result<(), AllocError> {
        self.entries
            .push(answer(alloc, file, ordinal, rec, choice))?;
        Ok(())
    }

    /// Does nothing, and always returns `Ok`: the entries stay here until the file is read.
    fn pass_on(&mut self, _file: u32) -> Result<(), AllocError> {
        Ok(())
    }

    ghost accepts_on = { λ _ _ _ _ _ _ _. tt };

    ghost stays_itself = { λ _. tt };

    ghost stays_on = { λ _ _ _ _ _. tt };
}

/// Answers all records of the first `files` files on this thread; returns a book for each file, in order.
/// `TooManyFiles` exactly if there are more than `MAX_FILES` (256); `Memory` if there is no memory for the read buffer,
/// the entries or the books. If it runs out for one file or one answer, its book says so.
///
/// Each record is answered under this choice of the outer face. The mark of a book says how its file ended, also if it
/// could not be opened, failed, or memory ran out.
///
/// # Errors
///
/// `TooManyFiles` exactly if there are more than `MAX_FILES`; `Memory` if there was no memory for the buffer that files
/// are read into, for the entries or for the books. There is no other error.
pub fn run_plain<O: Opener>(
    alloc: Global,
    opener: &O,
    files: u32,
    choice: Choice,
) -> Result<Batch, BatchFault>
    ensures books { IfOk result (AreAllBooks choice (O.meaning opener.now) files) }
    ensures drawn { IfOk result AreDrawnBooks }
    ensures too_many { (MAX_FILES < files) ↔ (result ≡ Err BatchFault.TooManyFiles) }
    ensures no_other { IfErr result (λ fault.
        (fault ≡ BatchFault.TooManyFiles) ⊎ (fault ≡ BatchFault.Memory)) }
{
    if files > MAX_FILES {
        return Err(BatchFault::TooManyFiles);
    }
    match books_on_this_thread(alloc, opener, files, choice) {
        Ok(batch) => Ok(batch),
        Err(AllocError) => Err(BatchFault::Memory),
    }
}

/// Reads the first `files` files on this thread, and answers their records; returns a book for each file, in order.
/// `AllocError` if there is no memory for the read buffer, the entries or the books; no book is then returned. If it
/// runs out for one file or one answer, its book says so.
fn books_on_this_thread<O: Opener>(
    alloc: Global,
    opener: &O,
    files: u32,
    choice: Choice,
) -> Result<Batch, AllocError>
    requires { files ≤ MAX_FILES }
    ensures { IfOk result (AreAllBooks choice (O.meaning opener.now) files) }
{
    let mut buffer = piece_buffer(alloc)?;
    let mut books = Vec::with_capacity(alloc, files as usize)?;
    for file in 0..files {
        books.push(read_book(alloc, opener, file, choice, buffer.as_mut_slice())?)?;
    }
    Ok(Batch::new(books))
}

/// Reads file `file` on this thread, through `buffer`, and answers its records; returns its book: an entry for each
/// record, in order, and its mark, which says if it could not be read. `AllocError` if there is no memory for the list
/// of entries. The bytes of `buffer` change, and its length, which must not be 0, stays.
fn read_book<O: Opener>(
    alloc: Global,
    opener: &O,
    file: u32,
    choice: Choice,
    buffer: &mut [u8],
) -> Result<Book, AllocError>
    requires { 0 < length buffer.old }
    ensures book { IfOk result (IsBook choice (O.meaning opener.now file) file) }
    ensures buffer { length buffer.new ≡ length buffer.old }
{
    let mut entries = Entries {
        entries: Vec::new(alloc),
    };
    let end = read_file(opener, alloc, file, choice, buffer, &mut entries)?;
    Ok(Book::new(entries.entries, end.mark))
}

/// The maximum number of lanes of a run.
pub const MAX_LANES: u32 = LANES;

// The texts of faults and of the help contain these numbers.
const _: () = prove!(MAX_FILES == 256);

const _: () = prove!(MAX_LANES == 8);

/// Answers all records of the first `files` files on `lanes` lanes of four threads each; returns a book for each file,
/// in order. `TooManyFiles` if they are more than 256; otherwise `BadLanes` if `lanes` is 0 or above 8; `Memory` if
/// there is no memory for the run, `LaneLost` if an end of a link is gone, `Thread` if a thread cannot be started.
///
/// Each record is answered under this choice of the outer face. The mark of a book says how its file ended, also if it
/// could not be opened, failed, or memory ran out.
///
/// One thread of a lane reads the file, one reads graphs and traces faces, one finds shapes, one draws. A lane takes
/// the next file when it is free. At most `capacity` messages wait between two stages, and as many between all lanes
/// and the calling thread.
///
/// Each stage passes the gate once for each record: the read stage before it gives it, each later one before it works
/// on it.
///
/// # Errors
///
/// `TooManyFiles` exactly if there are more than `MAX_FILES`; `BadLanes` exactly if there are no lanes or more than
/// `MAX_LANES`, and at most `MAX_FILES` files. `Memory`: no memory for links, the fan, tickets, buffers, lists of
/// lanes, entries or books. `LaneLost`: an end of a link or of the fan was gone. `Thread`: a thread could not be
/// started.
pub fn run_batch<R: Threads + Wait + Sync, O: Opener, G: Gate>(
    rt: &R,
    alloc: Global,
    opener: &O,
    files: u32,
    lanes: u32,
    capacity: u32,
    choice: Choice,
    gate: &G,
) -> Result<Batch, BatchFault>
    requires least { 1 ≤ capacity }
    requires most { capacity ≤ MAX_CAPACITY }
    ensures books { IfOk result (AreAllBooks choice (O.meaning opener.now) files) }
    ensures drawn { IfOk result AreDrawnBooks }
    ensures too_many { (MAX_FILES < files) ↔ (result ≡ Err BatchFault.TooManyFiles) }
    ensures bad_lanes { (((lanes ≡ 0) ⊎ (LANES < lanes)) × (files ≤ MAX_FILES)) ↔ (result ≡ Err BatchFault.BadLanes) }
{
    if files > MAX_FILES {
        return Err(BatchFault::TooManyFiles);
    }
    if lanes == 0 || lanes > MAX_LANES {
        return Err(BatchFault::BadLanes);
    }
    let Ok(drafts) = Drafts::<Entry>::new(alloc, files) else {
        return Err(BatchFault::Memory);
    };
    let pauses = Pauses::none();
    let run = Run {
        rt,
        alloc,
        opener,
        pauses: &pauses,
        gate,
        files,
        lanes,
        capacity,
        choice,
    };
    let kind = Answering {
        purpose: KeepEntries,
        drawing_kind: DrawingKind::Quick,
    };
    let mut ran = Ok(());
    let drafts = run_lanes(&run, &kind, drafts, &mut ran);
    match ran {
        Ok(()) => {}
        Err(RunFault::Memory) => return Err(BatchFault::Memory),
        Err(RunFault::LaneLost) => return Err(BatchFault::LaneLost),
        Err(RunFault::Thread) => return Err(BatchFault::Thread),
    }
    match books_of(alloc, drafts.into_ready()) {
        Ok(batch) => Ok(batch),
        Err(_) => Err(BatchFault::Memory),
    }
}
