//! Sinks for text, and a buffer of fixed size before a sink, with which many short lines need few writes. Also the
//! reasons why a run has no result, and why text is not written completely.
ghost use Rattle.std.specs.Prelude.{◌≡◌, ◌<◌, ◌≤◌, ℕ, Bool, true, false, Option, List, length, take, IfOk, OnOk, OnErr, ◌↔◌, ◌+◌, ◌^◌, [], ◌++◌, decimal, IsTrue};
ghost use Rattle.std.specs.Io.KnownBytes.{Appends, Keeps};
ghost use Rattle.streams.specs.Sink.{Writes, StaysInTransit};
ghost use Rattle.streams.specs.declared.output.TheConstants.{LINE, ROOM};

use itoa::Buffer;
use std::io::Write;
use std::marker::Model;
use thiserror::Error;

/// The reason why a run has no result. Its message is what the program prints after its own name.
#[derive(Clone, Copy, Debug, PartialEq, Eq, Error)]
pub enum BatchFault {
    /// More than 256 files were named.
    #[error("more than 256 files")]
    TooManyFiles,
    /// The number of lanes is not 1 to 8.
    #[error("lanes must be 1 to 8")]
    BadLanes,
    /// Memory ran out for the run itself. If it runs out for a record of a file, that file's mark says so.
    #[error("out of memory")]
    Memory,
    /// A worker disconnected before its last message, or a message arrived that no lane sends.
    #[error("a lane was lost")]
    LaneLost,
    /// A thread could not be started.
    #[error("a thread could not be run")]
    Thread,
}

/// The reason why text was not written completely. What was written is then a prefix of it.
#[derive(Clone, Copy, Debug, PartialEq, Eq, Error)]
pub enum WriteFault {
    /// The sink has failed.
    #[error("write failed")]
    Write,
    /// Memory ran out while the text was made.
    #[error("out of memory")]
    Memory,
}

/// The error that a write failed. It carries no data.
#[derive(Clone, Copy, Debug, PartialEq, Eq)]
pub struct SinkFault;

/// A byte sink that takes text piece by piece, and not always a whole piece at once.
///
/// In proofs a sink has the bytes that it took, if they are known, and whether it has failed.
pub trait Sink {
    ghost taken: { Self → Option (List ℕ) };

    ghost failed: { Self → Bool };

    /// Takes the first bytes of `piece` and returns how many: at least one of a nonempty piece. `SinkFault` if it takes
    /// no more: nothing of `piece` is taken, and the sink has then failed.
    ///
    /// # Errors
    ///
    /// `SinkFault` if it takes no more.
    fn put(&mut self, piece: &[u8]) -> Result<usize, SinkFault>
        ensures bound { IfOk result (λ n. n ≤ length piece.now) }
        ensures moves { IfOk result (λ n. 0 < length piece.now → 0 < n) }
        ensures takes { IfOk result (λ n. Appends (taken self.old) (taken self.new) (take n piece.now)) }
        ensures stays { OnOk result (failed self.new ≡ failed self.old) }

        ensures fault { OnErr result (Keeps (taken self.old) (taken self.new)) }
        ensures fails { OnErr result (failed self.new ≡ true) };
}

/// A sink over a writer of std. It fails if a write fails or takes nothing of a nonempty piece.
#[derive(Drop)]
pub struct IoSink<W> {
    writer: W,
    failed: bool,
}

impl<W: Write> IoSink<W> {
    /// A sink over `writer`, which has not failed yet. What the writer contains already counts as taken.
    pub fn new(writer: W) -> IoSink<W>
        ensures taken { ⟦<IoSink<W> as Sink>⟧.taken result ≡ W.contents writer }
        ensures intact { ⟦<IoSink<W> as Sink>⟧.failed result ≡ false }
    {
        IoSink {
            writer,
            failed: false,
        }
    }

    /// Consumes the sink and returns its writer, which contains all that the sink took.
    pub fn into_writer(self) -> W
        ensures { W.contents result ≡ ⟦<IoSink<W> as Sink>⟧.taken self }
    {
        let IoSink { writer, failed: _ } = self;
        writer
    }
}

impl<W: Write> Sink for IoSink<W> {
    ghost taken = { λ s. W.contents s.writer };

    ghost failed = { λ s. s.failed };

    /// Writes the first bytes of `piece` to the writer and returns how many: at least one of a nonempty piece.
    /// `SinkFault` if the write fails or takes nothing of a nonempty piece: nothing is written, and the sink has then
    /// failed.
    fn put(&mut self, piece: &[u8]) -> Result<usize, SinkFault> {
        match self.writer.write(piece) {
            Ok(count) if count > 0 || piece.is_empty() => Ok(count),
            _ => {
                self.failed = true;
                Err(SinkFault)
            }
        }
    }
}

/// The capacity of a `TextBuffer`, in bytes.
pub const ROOM: usize = 16_384;

/// The minimum number of free bytes after `make_room`, and the maximum length of the pieces that `put` appends.
pub const LINE: usize = 512;

/// A fixed-size buffer of text that is still to be written to a sink.
#[derive(Drop)]
pub struct TextBuffer {
    bytes: [u8; ROOM],
    len: usize,
}

impl Model for TextBuffer {
    ghost Value = { List ℕ };

    ghost view = { λ g. take g.len g.bytes };

    ghost invariant = { λ g. g.len ≤ ROOM };
}

impl TextBuffer {
    /// An empty buffer with space for `ROOM` bytes, which are part of the value itself.
    pub fn new() -> TextBuffer
        ensures { result ≡ [] }
    {
        TextBuffer {
            bytes: [0; ROOM],
            len: 0,
        }
    }

    /// Whether the buffer is empty.
    pub fn is_empty(&self) -> bool
        ensures { IsTrue result ↔ (self.now ≡ []) }
    {
        self.len == 0
    }

    /// Appends `text` to the buffer, in which as many bytes must be free.
    pub fn push(&mut self, text: &[u8])
        requires { length self.old + length text.now ≤ ROOM }
        ensures { self.new ≡ self.old ++ text.now }
    {
        let end = self.len + text.len();
        self.bytes[self.len..end].copy_from_slice(text);
        self.len = end;
    }

    /// Appends `number` in decimal to the buffer, in which 40 bytes must be free.
    pub fn push_number(&mut self, number: u64)
        requires { length self.old + 40 ≤ ROOM }
        ensures text { self.new ≡ self.old ++ decimal number }
        ensures short { length self.new ≤ length self.old + 40 }
    {
        let mut buffer = Buffer::new();
        self.push(buffer.format(number).as_bytes());
    }

    /// Makes sure that `LINE` bytes are free: if fewer are, writes the whole buffer to `sink` and empties it. `Write`,
    /// the only error, if `sink` fails: it then has a prefix of the buffered text, and the buffer keeps its bytes.
    ///
    /// # Errors
    ///
    /// `Write` exactly if the sink has then failed; a prefix of the buffered text was then added. There is no other
    /// error.
    pub fn make_room<S: Sink>(&mut self, sink: &mut S) -> Result<(), WriteFault>
        requires { S.failed sink.old ≡ false }
        ensures writes { StaysInTransit (S.taken sink.old) self.old (S.taken sink.new) self.new
            (S.failed sink.new) [] result }
        ensures room { OnOk result (length self.new + LINE ≤ ROOM) }
    {
        if self.len <= ROOM - LINE {
            return Ok(());
        }
        self.flush(sink)
    }

    /// Appends `text`, of any length, in pieces of at most `LINE` bytes; before a piece for which fewer than `LINE`
    /// bytes are free, writes the whole buffer to `sink`. `Write`, the only error, if `sink` fails: it then has a
    /// prefix of the buffered text and `text`, and the rest of `text` is not appended.
    ///
    /// # Errors
    ///
    /// `Write` exactly if the sink has then failed; a prefix of the text in transit was then added. There is no other
    /// error.
    pub fn put<S: Sink>(&mut self, sink: &mut S, text: &[u8]) -> Result<(), WriteFault>
        requires { S.failed sink.old ≡ false }
        ensures { StaysInTransit (S.taken sink.old) self.old (S.taken sink.new) self.new
            (S.failed sink.new) text.now result }
    {
        let mut from = 0;
        while from < text.len() {
            if self.len > ROOM - LINE {
                self.flush(sink)?;
            }
            let end = text.len().min(from + LINE);
            self.push(&text[from..end]);
            from = end;
        }
        Ok(())
    }

    /// Writes the whole buffer to `sink` and empties it. `Write`, the only error, if `sink` fails: it then has a prefix
    /// of the buffered text, and the buffer keeps all its bytes.
    ///
    /// # Errors
    ///
    /// `Write` exactly if the sink has then failed; a prefix of the buffered text was then added. There is no other
    /// error.
    pub fn flush<S: Sink>(&mut self, sink: &mut S) -> Result<(), WriteFault>
        requires { S.failed sink.old ≡ false }
        ensures writes { Writes (S.taken sink.old) (S.taken sink.new) (S.failed sink.new) self.old result }
        ensures empty { OnOk result (self.new ≡ []) }
    {
        put_all(sink, &self.bytes[..self.len])?;
        self.len = 0;
        Ok(())
    }
}

/// Writes all of `text` to `sink`, by several writes if it takes only part at once. `Write`, the only error, if `sink`
/// fails: it then has a prefix of `text`.
///
/// # Errors
///
/// `Write` exactly if the sink has then failed; a prefix of the text was then added. There is no other error.
pub fn put_all<S: Sink>(sink: &mut S, text: &[u8]) -> Result<(), WriteFault>
    requires { S.failed sink.old ≡ false }
    ensures { Writes (S.taken sink.old) (S.taken sink.new) (S.failed sink.new) text.now result }
{
    let mut at = 0;
    while at < text.len() {
        match sink.put(&text[at..]) {
            Ok(count) => at += count,
            Err(_) => return Err(WriteFault::Write),
        }
    }
    Ok(())
}
