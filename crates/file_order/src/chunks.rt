//! Text that grows without being moved, in chunks, and so the buffered lines of files that are not current yet. It is
//! written to a sink through a buffer.
ghost use Rattle.std.specs.Prelude.{◌≡◌, false, IfErr, OnOk, OnErr, ◌++◌, [], IfOk, All, length};
ghost use Rattle.file_order.specs.Writing.{GoesOn, IsPartlyAdded, IsRefused, TellsFailure};
ghost use Rattle.file_order.specs.Waits.{IsNothing};

use lanes::RunFault;
use std::alloc::{AllocError, Global};
use std::marker::Model;
use std::mem;
use streams::{Mark, Sink, SinkFault, TextBuffer};

/// The minimum capacity of a chunk, in bytes.
const CHUNK: usize = 16_384;

/// A buffer of text in chunks, which are never moved and mostly have one size.
///
/// It holds exactly as much memory as `size` says, and memory that one piece of text frees fits another.
#[derive(Drop)]
pub struct Chunks {
    /// The chunks before the last.
    full: Vec<Vec<u8>>,
    /// The last chunk.
    last: Vec<u8>,
    /// The total capacity of all chunks, in bytes.
    size: usize,
}

impl Model for Chunks {
    ghost use Rattle.std.specs.Prelude.{◌++◌, ℕ, List};
    ghost use Rattle.file_order.specs.Concatenated.{concatenated};

    ghost Value = { List ℕ };

    ghost view = { λ p. concatenated p.full.items ++ p.last.items };
}

impl Chunks {
    /// An empty text. It allocates nothing.
    pub(crate) fn new(alloc: Global) -> Chunks
        ensures { result ≡ [] }
    {
        Chunks {
            full: Vec::new(alloc),
            last: Vec::new(alloc),
            size: 0,
        }
    }

    /// The memory that the text holds, in bytes: the capacity of all its chunks, and not the length of the text.
    pub(crate) fn size(&self) -> usize {
        self.size
    }

    /// Appends `text`, undivided, and returns how many bytes of memory were allocated for it: 0 if it fits in the last
    /// chunk, otherwise the capacity of a new chunk. `AllocError` if there is no memory for it; then nothing changes.
    ///
    /// # Errors
    ///
    /// `AllocError` if there is no memory for it. Then nothing changes.
    pub(crate) fn push(&mut self, alloc: Global, text: &[u8]) -> Result<usize, AllocError>
        ensures added { OnOk result (self.new ≡ self.old ++ text.now) }
        ensures stays { OnErr result (self.new ≡ self.old) }
    {
        if self.last.len() + text.len() <= self.last.capacity() {
            self.last.extend_from_slice(text)?;
            return Ok(0);
        }
        let room = text.len().max(CHUNK);
        let mut chunk = Vec::with_capacity(alloc, room)?;
        chunk.extend_from_slice(text)?;
        self.full.reserve(1)?;
        self.full.push_reserved(mem::replace(&mut self.last, chunk));
        self.size = self.size.saturating_add(room);
        Ok(room)
    }

    /// Appends the text to `buffer`, which is written to `sink` each time it is nearly full; the end of the text stays
    /// in `buffer`. This text stays as it is. `Refused` exactly if `sink` fails, which has then taken a prefix of what
    /// was in `buffer` and this text.
    ///
    /// # Errors
    ///
    /// `Refused` exactly if the sink has then failed. There is no other error.
    pub(crate) fn put<S: Sink>(
        &self,
        buffer: &mut TextBuffer,
        sink: &mut S,
    ) -> Result<(), RunFault<SinkFault>>
        requires { S.failed sink.old ≡ false }
        ensures put { OnOk result (GoesOn (S.taken sink.old) buffer.old (S.taken sink.new) buffer.new self.now) }
        ensures partial { OnErr result (IsPartlyAdded (S.taken sink.old) buffer.old (S.taken sink.new) self.now) }
        ensures stands { TellsFailure (S.failed sink.new) result }
        ensures refused { IfErr result IsRefused }
    {
        for chunk in &self.full {
            buffer.put(sink, chunk.as_slice())?;
        }
        Ok(buffer.put(sink, self.last.as_slice())?)
    }
}

/// The buffered lines and the state of a file that has not been written completely.
#[derive(Drop)]
pub struct Waiting {
    /// The lines of its entries, while it is not current.
    pub lines: Chunks,
    /// The number of its entries that have arrived.
    pub count: u32,
    /// Its mark, once it has ended.
    pub mark: Option<Mark>,
}

/// A new list with the state of each of `files` files, in order, of which nothing has arrived: no lines, a count of 0,
/// no mark. `AllocError` if there is no memory for the list.
pub(crate) fn new_waiting(alloc: Global, files: u32) -> Result<Vec<Waiting>, AllocError>
    ensures count { IfOk result (λ waiting. length waiting.items ≡ files) }
    ensures empty { IfOk result (λ waiting. All IsNothing waiting.items) }
{
    let mut waiting = Vec::with_capacity(alloc, files as usize)?;
    for _ in 0..files {
        waiting.push(Waiting {
            lines: Chunks::new(alloc),
            count: 0,
            mark: None,
        })?;
    }
    Ok(waiting)
}
