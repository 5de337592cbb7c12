//! A reorder buffer for the texts of files, which go to a sink file after file: what is known in advance of the files
//! of a run, and which files pause while too much is buffered.
ghost use Rattle.std.specs.Prelude.{ℕ, ◌≡◌, ◌+◌, ◌<◌, ◌≤◌, ◌↔◌, [], None, false, true, IfOk, IfErr, IfSome, OnOk, OnErr, IsSome, IsTrue, length, slice_index_or};
ghost use Rattle.std.proofs.Props.{props};
ghost use Rattle.lanes.specs.Opening.{Meaning, Silent, IsEndAt};
ghost use Rattle.std.specs.Io.KnownBytes.{Appends};
ghost use Rattle.streams.specs.declared.output.TheConstants.{ROOM};
ghost use Rattle.streams.specs.Sink.{AppendsPrefix};
ghost use Rattle.file_order.specs.declared.chunks.Waiting.{Waiting};
ghost use Rattle.file_order.specs.FileOrder.{HasEnd, IsAddFault, IsBegun, StaysAt, at_once, for_later};
ghost use Rattle.file_order.specs.Waits.{ChangesAt, GetsMark, IsNext, IsTaken, IsUnmarked, TakesIn};
ghost use Rattle.file_order.specs.Writing.{GoesOn, IsPartlyAdded, IsRefused, TellsFailure};

use crate::chunks::{Chunks, Waiting, new_waiting};
use lanes::{Pauses, RunFault};
use planar_code::MAX_RECORDS;
use std::alloc::{AllocError, Global};
use std::marker::{Brand, Model, PhantomData};
use std::mem;
use streams::{Mark, Sink, SinkFault, SourceEnd, TextBuffer};

/// What is known in advance of each file of a run, its meaning. It exists only in proofs.
pub trait KnownFiles {
    ghost meaning: { ℕ → Meaning };
}

// A call that passes `Brand` chooses what the files mean.
impl KnownFiles for Brand {
    ghost meaning = { λ _. Silent };
}

/// The end of a file, with the guarantee that it fits the meaning that `J` gives the file.
///
/// A file of which `J` means this by its number has this many records and this mark.
#[derive(Drop)]
pub struct KnownEnd<J: KnownFiles> {
    /// The index of the file, from 0.
    pub file: u32,
    /// The number of its records that were read.
    pub count: u32,
    /// Its mark.
    pub mark: Mark,
    pub known_files: PhantomData<J>,
    pub ghost is_end: { ∥ IsEndAt (J.meaning file) count mark ∥₁ } by { Prim.hlevel props },
}

/// The `KnownEnd` of file `file`, with the number of records and the mark of `end`, which must fit the meaning that `J`
/// gives the file.
pub fn known_end<J: KnownFiles>(file: u32, end: SourceEnd) -> KnownEnd<J>
    requires { IsEndAt (J.meaning file) end.count end.mark }
{
    KnownEnd {
        file,
        count: end.count,
        mark: end.mark,
        known_files: PhantomData,
    }
}

/// The fraction (1 / `QUARTER`) of the limit from which on only the next file that has not ended goes on beside the
/// current file. With it two lanes work for most of a run; a single limit for all files would leave one lane working
/// alone.
const QUARTER: usize = 4;

/// A limit on the buffered text of later files, and the pauses by which their reading is held to it.
#[derive(Drop)]
pub struct Pace<'p> {
    pub pauses: &'p Pauses,
    /// The number of bytes of buffered text from which on the reading of all files after the current file pauses.
    pub most: usize,
}

impl Pace<'_> {
    /// Pauses the files after file `current` if `held`, the bytes of buffered text, is at least the limit; those after
    /// the next file in `waiting` that has not ended if it is at least a quarter of it; otherwise lifts all pauses.
    /// This replaces earlier pauses.
    pub(crate) fn keep(&self, held: usize, current: u32, waiting: &[Waiting]) {
        if held >= self.most {
            self.pauses.pause_after(current);
        } else if held >= self.most / QUARTER {
            self.pauses.pause_after(next_unended(current, waiting));
        } else {
            self.pauses.lift();
        }
    }
}

/// The index of the first file after file `current` that has not ended, by its state in `waiting`; a number past the
/// last file if all of these have ended.
fn next_unended(current: u32, waiting: &[Waiting]) -> u32 {
    for file in current.saturating_add(1)..u32::MAX {
        let place = file as usize;
        if place >= waiting.len() || waiting[place].mark.is_none() {
            return file;
        }
    }
    u32::MAX
}

/// A reorder buffer for the texts of the files of a run, since entries of several files arrive mixed.
///
/// A text of the current file, the first that has not ended, is copied once, into a fixed buffer, and is not allocated;
/// the texts of each later file are buffered until it is current.
#[derive(Drop)]
pub struct FileOrder {
    /// The text in transit to the sink. It is on the heap, since a `FileOrder` is moved from call to call.
    buffer: Box<TextBuffer>,
    /// The first file that has not ended.
    current: u32,
    /// What has arrived of each file.
    waiting: Vec<Waiting>,
    /// The number of bytes of memory that buffered texts hold.
    held: usize,
}

impl Model for FileOrder {
    ghost use Rattle.file_order.specs.FileOrder.{OrderModel};

    ghost Value = { OrderModel };

    ghost view = { λ o. record { buffer = o.buffer.value; current = o.current; waiting = o.waiting.items } };
}

impl FileOrder {
    /// An empty reorder buffer for the texts of `files` files; file 0 is current. `first` waits in its fixed buffer to
    /// go to the sink before them; nothing is written yet. `AllocError` if there is no memory for the fixed buffer or
    /// for a list of this many files. `first` has at most `ROOM` bytes.
    ///
    /// # Errors
    ///
    /// `AllocError` if there is no memory for the buffer or to keep this many files.
    pub fn new(alloc: Global, files: u32, first: &[u8]) -> Result<FileOrder, AllocError>
        requires { length first.now ≤ ROOM }
        ensures { IfOk result (IsBegun files first.now) }
    {
        let mut buffer = Box::new(alloc, TextBuffer::new())?;
        buffer.push(first);
        let waiting = new_waiting(alloc, files)?;
        Ok(FileOrder {
            buffer,
            current: 0,
            waiting,
            held: 0,
        })
    }

    /// The index, from 0, of the current file, the first that `go_on` has not passed, even if its end is stored; past
    /// the last file if all are passed. Text of earlier files may still be in transit.
    pub fn current(&self) -> u32
        ensures { result ≡ self.now.current }
    {
        self.current
    }

    /// Pauses later files or lets them go on, by `pace` and how much text is buffered here; lets all go on if `goes_on`
    /// is false, since after a refused message no more is taken in. Nothing changes here.
    pub fn keep_pace(&self, pace: &Pace<'_>, goes_on: bool) {
        if goes_on {
            pace.keep(self.held, self.current, self.waiting.as_slice());
        } else {
            pace.pauses.lift();
        }
    }

    /// Whether file `file` is the current file or a later one of the run.
    fn is_current_or_later(&self, file: u32) -> bool
        ensures { IsTrue result ↔ ((self.now.current ≤ file) × (file < length self.now.waiting)) }
    {
        self.current <= file && (file as usize) < self.waiting.len()
    }

    /// Whether the next entry of file `file` is the one at place `ordinal`, from 0: false if the file has ended or is
    /// not to come (it is before the current file, or none of the run), or if `ordinal` is `MAX_RECORDS` or more.
    pub fn is_next(&self, file: u32, ordinal: u32) -> bool
        ensures open { IsTrue result → (self.now.current ≤ file) × (file < length self.now.waiting) }
        ensures next { IsTrue result → (other : Waiting) → IsNext ordinal (slice_index_or self.now.waiting file other) }
        ensures due { self.now.current ≤ file → file < length self.now.waiting
            → ((other : Waiting) → IsNext ordinal (slice_index_or self.now.waiting file other)) → IsTrue result }
    {
        if !self.is_current_or_later(file) {
            return false;
        }
        let here = &self.waiting[file as usize];
        here.mark.is_none() && here.count == ordinal && ordinal < MAX_RECORDS
    }

    /// Counts one more entry of file `file`; sends `text` on to `sink` through the fixed buffer, or buffers it if the
    /// file is not current. `Refused` exactly if `sink` fails, `Memory` if there is no memory to buffer it: the entry
    /// is then counted, too. `LaneLost`, and nothing changes, if 2^32 - 1 entries of the file are counted.
    ///
    /// # Errors
    ///
    /// `Refused` exactly if the sink has then failed; `Memory` only if the file is not current, and there is no memory
    /// to buffer its text; `LaneLost` only if 2^32 - 1 entries of the file are counted already.
    pub fn add<S: Sink>(
        &mut self,
        alloc: Global,
        sink: &mut S,
        file: u32,
        text: &[u8],
    ) -> Result<(), RunFault<SinkFault>>
        requires stands { S.failed sink.old ≡ false }
        requires below { file < length self.old.waiting }
        ensures goes_on { OnOk result (GoesOn (S.taken sink.old) self.old.buffer (S.taken sink.new) self.new.buffer (at_once self.old.current file text.now)) }
        ensures kept { OnOk result (ChangesAt file (TakesIn (for_later self.old.current file text.now)) self.old.waiting self.new.waiting) }
        ensures partial { OnErr result (IsPartlyAdded (S.taken sink.old) self.old.buffer (S.taken sink.new) (at_once self.old.current file text.now)) }
        ensures stands { TellsFailure (S.failed sink.new) result }
        ensures cause { IfErr result (λ fault. (other : Waiting) → IsAddFault self.old.current file (slice_index_or self.old.waiting file other) fault) }
        ensures same { StaysAt self.old self.new }
    {
        let here = &mut self.waiting[file as usize];
        let Some(count) = here.count.checked_add(1) else {
            return Err(RunFault::LaneLost);
        };
        here.count = count;
        if file == self.current {
            return Ok(self.buffer.put(sink, text)?);
        }
        let more = here.lines.push(alloc, text)?;
        self.held = self.held.saturating_add(more);
        Ok(())
    }

    /// Stores `mark` as the mark of file `file`, and writes nothing; the current file stays current. `LaneLost`, and
    /// nothing changes, if the file has ended already, is before the current file or none of the run, or if `known` has
    /// another file, another mark or another number of entries.
    ///
    /// # Errors
    ///
    /// `LaneLost` if it has ended, or if `known` is not its end with this mark after the entries that have arrived.
    /// There is no other error.
    pub fn store_mark<J: KnownFiles>(
        &mut self,
        file: u32,
        mark: Mark,
        known: KnownEnd<J>,
    ) -> Result<(), RunFault<SinkFault>>
        ensures open { OnOk result ((self.old.current ≤ file) × (file < length self.old.waiting)) }
        ensures kept { OnOk result (ChangesAt file (GetsMark known.count mark) self.old.waiting self.new.waiting) }
        ensures due { known.file ≡ file → known.mark ≡ mark → self.old.current ≤ file → file < length self.old.waiting
            → ((other : Waiting) → IsUnmarked known.count (slice_index_or self.old.waiting file other)) → result ≡ Ok tt }
        ensures is_end { OnOk result ∥ IsEndAt (J.meaning file) known.count mark ∥₁ }
        ensures astray { IfErr result (λ fault. fault ≡ RunFault.LaneLost) }
        ensures same { self.new ≡ record self.old { waiting = self.new.waiting } }
        ensures count { length self.new.waiting ≡ length self.old.waiting }
    {
        if known.file != file || known.mark != mark || !self.is_current_or_later(file) {
            return Err(RunFault::LaneLost);
        }
        let here = &mut self.waiting[file as usize];
        if here.mark.is_some() || here.count != known.count {
            return Err(RunFault::LaneLost);
        }
        here.mark = Some(mark);
        Ok(())
    }

    /// The end of the current file, its mark and the number of its entries, if it has ended; `None` if it has not, or
    /// if the run has no more files.
    pub fn current_end(&self) -> Option<SourceEnd>
        ensures below { IsSome result → self.now.current < length self.now.waiting }
        ensures ended { IfSome result (λ end. (other : Waiting) → HasEnd end (slice_index_or self.now.waiting self.now.current other)) }
        ensures unended { result ≡ None → (other : Waiting) → self.now.current < length self.now.waiting
            → (slice_index_or self.now.waiting self.now.current other).mark ≡ None }
    {
        let here = self.waiting.get(self.current as usize)?;
        let mark = here.mark?;
        Some(SourceEnd {
            count: here.count,
            mark,
        })
    }

    /// Makes the next file the current file, and returns whether it is one of the run; writes nothing. `LaneLost`, and
    /// nothing changes, if its index does not fit in 32 bits.
    ///
    /// # Errors
    ///
    /// `LaneLost` if there is no number for it.
    pub fn go_on(&mut self) -> Result<bool, RunFault<SinkFault>>
        ensures next { OnOk result (self.new ≡ record self.old { current = self.old.current + 1 }) }
        ensures more { IfOk result (λ more. IsTrue more ↔ (self.old.current + 1 < length self.old.waiting)) }
        ensures stays { OnErr result (self.new ≡ self.old) }
        ensures astray { IfErr result (λ fault. fault ≡ RunFault.LaneLost) }
    {
        match self.current.checked_add(1) {
            Some(next) => {
                self.current = next;
                Ok((next as usize) < self.waiting.len())
            }
            None => Err(RunFault::LaneLost),
        }
    }

    /// Sends the buffered lines of the current file on to `sink`, through the fixed buffer, in which the last ones may
    /// stay, and frees their memory. `Refused` exactly if `sink` fails, which has then taken a prefix of the text; the
    /// lines are then freed, too. The current file must be one of the run.
    ///
    /// # Errors
    ///
    /// `Refused` exactly if the sink has then failed. There is no other error.
    pub fn drain<S: Sink>(&mut self, alloc: Global, sink: &mut S) -> Result<(), RunFault<SinkFault>>
        requires stands { S.failed sink.old ≡ false }
        requires below { self.old.current < length self.old.waiting }
        ensures goes_on { OnOk result ((other : Waiting) → GoesOn (S.taken sink.old) self.old.buffer (S.taken sink.new) self.new.buffer
            (slice_index_or self.old.waiting self.old.current other).lines) }
        ensures partial { OnErr result ((other : Waiting) → IsPartlyAdded (S.taken sink.old) self.old.buffer (S.taken sink.new)
            (slice_index_or self.old.waiting self.old.current other).lines) }
        ensures stands { TellsFailure (S.failed sink.new) result }
        ensures refused { IfErr result IsRefused }
        ensures taken { ChangesAt self.old.current IsTaken self.old.waiting self.new.waiting }
        ensures current { self.new.current ≡ self.old.current }
    {
        let here = &mut self.waiting[self.current as usize];
        let lines = mem::replace(&mut here.lines, Chunks::new(alloc));
        self.held = self.held.saturating_sub(lines.size());
        lines.put(&mut self.buffer, sink)
    }

    /// Appends `text` to the text in transit to `sink`; it is written when the fixed buffer is nearly full, or by
    /// `flush`. No entry is counted. `Refused` exactly if `sink` fails, which has then taken a prefix of the text in
    /// transit.
    ///
    /// # Errors
    ///
    /// `Refused` exactly if the sink has then failed. There is no other error.
    pub fn put<S: Sink>(&mut self, sink: &mut S, text: &[u8]) -> Result<(), RunFault<SinkFault>>
        requires { S.failed sink.old ≡ false }
        ensures goes_on { OnOk result (GoesOn (S.taken sink.old) self.old.buffer (S.taken sink.new) self.new.buffer text.now) }
        ensures partial { OnErr result (IsPartlyAdded (S.taken sink.old) self.old.buffer (S.taken sink.new) text.now) }
        ensures stands { TellsFailure (S.failed sink.new) result }
        ensures refused { IfErr result IsRefused }
        ensures same { self.new ≡ record self.old { buffer = self.new.buffer } }
    {
        Ok(self.buffer.put(sink, text)?)
    }

    /// Whether all text in transit has reached the sink: the fixed buffer is empty. Texts that are buffered for later
    /// files do not count.
    pub fn is_flushed(&self) -> bool
        ensures { IsTrue result ↔ (self.now.buffer ≡ []) }
    {
        self.buffer.is_empty()
    }

    /// Writes the text in transit to `sink`, and empties the fixed buffer; texts buffered for later files stay there.
    /// `Refused` exactly if `sink` fails, which has then taken a prefix of the text in transit.
    ///
    /// # Errors
    ///
    /// `Refused` exactly if the sink has then failed. There is no other error.
    pub fn flush<S: Sink>(&mut self, sink: &mut S) -> Result<(), RunFault<SinkFault>>
        requires { S.failed sink.old ≡ false }
        ensures put { OnOk result (Appends (S.taken sink.old) (S.taken sink.new) self.old.buffer) }
        ensures partial { OnErr result (AppendsPrefix (S.taken sink.old) (S.taken sink.new) self.old.buffer) }
        ensures flushed { OnOk result (self.new ≡ record self.old { buffer = [] }) }
        ensures failed { OnErr result (S.failed sink.new ≡ true) }
        ensures stands { TellsFailure (S.failed sink.new) result }
        ensures refused { IfErr result IsRefused }
        ensures same { StaysAt self.old self.new }
    {
        Ok(self.buffer.flush(sink)?)
    }
}
