//! The parameters of a run of lanes, which all its lanes share: the source of its files, as files in memory; a hook
//! that the stages call once for each record; and backpressure by the first file whose reading pauses.
ghost use Rattle.std.specs.Prelude.{ℕ, ◌≡◌, ◌<◌, ◌≤◌, false, vec_len, IfOk};
ghost use Rattle.lanes.specs.Opening.{Meaning, Opens, Unopened, Opened};
ghost use Rattle.lanes.specs.MemFiles.{meaning_in, bytes_at};
ghost use Rattle.ruled_lanes.specs.declared.channel.TheConstants.{MAX_CAPACITY};

use common::Choice;
use ruled_lanes::Tickets;
use std::alloc::Global;
use std::sync::Wait;
use std::sync::atomic::{AtomicU64, Ordering};
use streams::{Mark, MemTap, Tap};

/// The reason why a file was not opened.
#[derive(Clone, Copy, Debug, PartialEq, Eq)]
pub enum OpenFault {
    /// The file could not be opened.
    Io,
    /// Memory ran out while the file was opened.
    Memory,
}

/// Opens files by their numbers, from any thread.
///
/// In proofs it may be known of each file whether it opens, and then which bytes it gives and whether it fails after
/// the last of them. Of real files nothing is known.
pub trait Opener: Sync {
    /// An open file.
    type Source: Tap + Send;

    ghost meaning: { Self → ℕ → Meaning };

    /// Opens the file with number `file`, from 0, at its beginning. `Io` if it could not be opened or there is none,
    /// `Memory` if memory ran out.
    ///
    /// # Errors
    ///
    /// `Io` if it could not be opened, `Memory` if memory ran out.
    fn open(&self, alloc: Global, file: u32) -> Result<Self::Source, OpenFault>
        ensures { Opens Self.Source.to_come Self.Source.fails (meaning self.now file) result };

    /// Called with the mark of each file that a run over lanes has read or could not open. It does nothing by default,
    /// and has no influence on results.
    fn ended(&self, _file: u32, _mark: Mark) {}
}

/// An opener of files in memory, whose reads never fail.
///
/// The file with a number is the list of bytes with that index. A read returns at most a chosen number of bytes. A
/// number past the lists does not open.
#[derive(Drop)]
pub struct MemOpener {
    files: Vec<Vec<u8>>,
    most: usize,
    ghost moves: { 0 < most },
}

impl MemOpener {
    ghost use Rattle.lanes.specs.MemReads.{most_of};

    /// An opener by which file k has the bytes at index k of `files`; past the end of `files` no file opens. A read
    /// returns at most `most` bytes.
    pub fn new(files: Vec<Vec<u8>>, most: usize) -> MemOpener
        requires { 0 < most }
        ensures opens { (k : ℕ) → k < vec_len files
            → ⟦<MemOpener as Opener>⟧.meaning result k ≡ Opened (bytes_at files.items k) false }
        ensures others { (k : ℕ) → vec_len files ≤ k
            → ⟦<MemOpener as Opener>⟧.meaning result k ≡ Unopened }
        ensures chosen { most_of result ≡ most }
    {
        MemOpener { files, most }
    }
}

impl Opener for MemOpener {
    ghost use Rattle.streams.specs.Memory as taps;
    ghost use Rattle.lanes.specs.MemReads.{most_of};

    type Source = MemTap;

    ghost meaning = { λ o k. meaning_in o.files.items k };

    /// Opens a copy of the bytes of file `file`, from 0, at their beginning. `Io` if there is no such file, `Memory` if
    /// there is no memory for the copy.
    ///
    /// The contract of every opener, and that no read returns more bytes than chosen.
    fn open(&self, alloc: Global, file: u32) -> Result<MemTap, OpenFault>
        ensures opens { Opens ⟦<MemTap as Tap>⟧.to_come ⟦<MemTap as Tap>⟧.fails
            (⟦<MemOpener as Opener>⟧.meaning self.now file) result }
        ensures most { IfOk result (λ source. taps.most_of source ≡ most_of self.now) }
    {
        let Some(bytes) = self.files.get(file as usize) else {
            return Err(OpenFault::Io);
        };
        match Vec::from_slice(alloc, bytes) {
            Ok(copy) => Ok(MemTap::new(copy, self.most)),
            Err(_) => Err(OpenFault::Memory),
        }
    }
}

/// One of the four stages of a lane.
#[derive(Clone, Copy, Debug, PartialEq, Eq)]
pub enum Stage {
    /// Reads the files and divides them into records.
    Read,
    /// Reads a record's graph and traces its faces.
    Embed,
    /// Computes an orthogonal representation with the fewest bends.
    Shape,
    /// Draws the orthogonal representation.
    Draw,
}

/// A hook that each stage of a lane calls for each record, and that may delay the stage.
///
/// It is called on the stage's thread before the stage works on the record; the first stage calls it before it gives
/// the record. It has no influence on results.
pub trait Gate: Sync {
    /// Called once for each record by each stage of a lane, with the lane's number and the record's place in its file,
    /// both from 0. It may block to delay the stage, and cannot fail.
    fn pass(&self, lane: u32, stage: Stage, ordinal: u32);
}

/// A gate that never delays a stage.
#[derive(Clone, Copy, Debug)]
pub struct OpenGate;

impl Gate for OpenGate {
    /// Does nothing and returns at once.
    fn pass(&self, _lane: u32, _stage: Stage, _ordinal: u32) {}
}

/// A value that is no file's number.
const NO_FILE: u64 = u32::MAX as u64;

/// An atomic word that all read stages share: the number of the first file whose reading is paused.
///
/// One thread writes it. A pause has no influence on what is read.
#[derive(Drop)]
pub struct Pauses {
    first: AtomicU64,
}

impl Pauses {
    /// Pauses in which no file is paused.
    pub fn none() -> Pauses {
        Pauses {
            first: AtomicU64::new(NO_FILE),
        }
    }

    /// Pauses the reading of all files after `file`, and lets `file` and those before it go on, whatever was paused so
    /// far; wakes the threads that sleep in `wait` if this changes anything.
    pub fn pause_after(&self, file: u32) {
        self.set(u64::from(file) + 1);
    }

    /// Lets all files go on, and wakes the threads that sleep in `wait`; does nothing if no file is paused.
    pub fn lift(&self) {
        self.set(NO_FILE);
    }

    /// Blocks this thread as long as `file` is paused; returns at once if it is not. The thread sleeps until the first
    /// paused file changes.
    pub fn wait<R: Wait>(&self, rt: &R, file: u32) {
        for _ in rt.forever() {
            let first = self.first.load(Ordering::SeqCst);
            if u64::from(file) < first {
                return;
            }
            self.first.park(rt, first as u32);
        }
    }

    /// Stores `first` as the number of the first paused file (`NO_FILE`: none is paused); if this changes it, wakes all
    /// threads that sleep in `wait`.
    fn set(&self, first: u64) {
        if self.first.load(Ordering::SeqCst) != first {
            self.first.store(first, Ordering::SeqCst);
            self.first.wake_all();
        }
    }
}

/// The parameters of a run: runtime, opener, gate, numbers of files, lanes and messages, and choice of outer faces.
#[derive(Drop)]
pub struct Run<'r, R, O, G> {
    /// The runtime, which starts threads and lets them wait.
    pub rt: &'r R,
    /// The allocator.
    pub alloc: Global,
    /// The opener of the files.
    pub opener: &'r O,
    /// The pauses of the files' reading.
    pub pauses: &'r Pauses,
    /// The gate that each stage passes once for each record.
    pub gate: &'r G,
    /// The number of files to read.
    pub files: u32,
    /// The number of lanes that read them.
    pub lanes: u32,
    /// The number of messages for which each link and the fan have room.
    pub capacity: u32,
    /// The rule by which the outer face of each plane is chosen.
    pub choice: Choice,
    ghost least: { 1 ≤ capacity },
    ghost most: { capacity ≤ MAX_CAPACITY },
}

/// The values that all lanes of a run share: the run, the tickets that deal its files, and the kind of the lanes.
#[derive(Drop)]
pub struct Shared<'s, R, O, G, L> {
    pub run: &'s Run<'s, R, O, G>,
    pub tickets: &'s Tickets,
    pub kind: &'s L,
}
