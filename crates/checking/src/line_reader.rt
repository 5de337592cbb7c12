//! The lines of a source, one after another, and bytes that were read of it and belong to no line yet.
ghost use Rattle.std.specs.Prelude.{◌≡◌, ◌≢◌, ◌+◌, ◌≤◌, ◌<◌, ℕ, List, [], ◌∷◌, ◌++◌, All, length, take, drop, IfOk, IfSome, IfNone, true, false, Bool, Option};
ghost use Rattle.std.specs.Io.KnownBytes.{Consumes};
ghost use Rattle.streams.specs.Tap.{IsAtItsEnd, IsAtItsFailure};
ghost use Rattle.checking.specs.Lines.{IsNoEnd, Adds, IsRefilled, HasGiven, GivesNext, StaysClosed, IsWhole, IsLast, rest_in, state_in, line_in, fails_in};
ghost use Rattle.checking.specs.declared.line_reader.SourceState.{SourceState};

use crate::line_buffer::LineBuffer;
use std::alloc::{AllocError, Global};
use std::marker::Model;
use std::sync::Wait;
use streams::{Tap, piece_buffer};

/// Bytes that were read of a source and belong to no line yet: part of the last piece.
#[derive(Drop)]
pub(crate) struct ReadBuffer {
    piece: Vec<u8>,
    at: usize,
    end: usize,
}

impl Model for ReadBuffer {
    ghost use Rattle.std.specs.Prelude.{ℕ, List, slice_range, ◌≤◌, ◌<◌, vec_len};

    ghost Value = { List ℕ };

    ghost view = { λ h. slice_range h.piece.items h.at h.end };

    ghost invariant = { λ h. (0 < vec_len h.piece) × (h.at ≤ h.end) × (h.end ≤ vec_len h.piece) };
}

/// The index of the first byte 0A (a newline) in `bytes`; `None` if there is no such byte.
fn line_end(bytes: &[u8]) -> Option<usize>
    ensures some { IfSome result (λ k. k < length bytes.now) }
    ensures ended { IfSome result (λ k. bytes.now ≡ take k bytes.now ++ 10 ∷ drop (k + 1) bytes.now) }
    ensures before { IfSome result (λ k. IsNoEnd (take k bytes.now)) }
    ensures none { IfNone result (IsNoEnd bytes.now) }
{
    for (i, byte) in bytes.iter().enumerate() {
        if *byte == b'\n' {
            return Some(i);
        }
    }
    None
}

impl ReadBuffer {
    /// An empty buffer, with memory for one piece of a source; `AllocError` if there is no memory for it.
    ///
    /// # Errors
    ///
    /// `AllocError` if there is no memory for a piece.
    pub(crate) fn new(alloc: Global) -> Result<ReadBuffer, AllocError>
        ensures { IfOk result (λ held. held ≡ []) }
    {
        Ok(ReadBuffer {
            piece: piece_buffer(alloc)?,
            at: 0,
            end: 0,
        })
    }

    /// Moves the bytes before the first byte 0A to the end of `line`, removes that byte too, and returns true; if there
    /// is none, moves all bytes and returns false. If `line` would exceed `MAX_LINE` bytes, the bytes are dropped and
    /// `line` is marked as too long.
    pub(crate) fn move_to(&mut self, line: &mut LineBuffer) -> bool
        ensures ended { result ≡ true → ((part : List ℕ) × IsNoEnd part × (self.old ≡ part ++ 10 ∷ self.new)
            × Adds part line.old.bytes.items line.old.long line.new.bytes.items line.new.long) }
        ensures open { result ≡ false → (self.new ≡ []) × IsNoEnd self.old
            × Adds self.old line.old.bytes.items line.old.long line.new.bytes.items line.new.long }
    {
        let bytes = &self.piece[self.at..self.end];
        match line_end(bytes) {
            Some(count) => {
                line.add(&bytes[..count]);
                self.at += count + 1;
                true
            }
            None => {
                line.add(bytes);
                self.at = self.end;
                false
            }
        }
    }

    /// Reads the next piece of `source` into the buffer, which must be empty, in the memory that it has. Returns `Open`
    /// if there were bytes, `Ended` if the source has ended, `Failed` if the read failed; the buffer is then still
    /// empty.
    pub(crate) fn refill<T: Tap>(&mut self, source: &mut T) -> SourceState
        requires { self.old ≡ [] }
        ensures { IsRefilled (T.to_come source.old) (T.fails source.old) (T.to_come source.new) (T.fails source.new) self.new result }
    {
        self.at = 0;
        self.end = 0;
        match source.read(self.piece.as_mut_slice()) {
            Ok(0) => SourceState::Ended,
            Ok(count) => {
                self.end = count;
                SourceState::Open
            }
            Err(_) => SourceState::Failed,
        }
    }
}

/// Whether a source may give more bytes.
#[derive(Clone, Copy, Debug, PartialEq, Eq)]
pub(crate) enum SourceState {
    /// It may give more bytes.
    Open,
    /// It has ended.
    Ended,
    /// A read failed.
    Failed,
}

/// The outcome of reading the next line.
#[derive(Clone, Copy, Debug, PartialEq, Eq)]
pub(crate) enum LineOutcome {
    /// A line of at most `MAX_LINE` bytes was read: `Lines::line` returns it.
    Line,
    /// A line of more than `MAX_LINE` bytes was read, and its bytes dropped.
    TooLong,
    /// There are no more lines: the source has ended.
    End,
    /// A read failed before the line ended, and no more lines are read.
    Failed,
}

/// A reader of the lines of a source, in fixed memory.
///
/// A line is ended by one byte 0A, which is no part of it, or by the end of the source, if it is not empty.
#[derive(Drop)]
pub(crate) struct Lines<T> {
    source: T,
    held: ReadBuffer,
    line: LineBuffer,
    state: SourceState,
}

impl<T: Tap> Lines<T> {
    /// A reader at the beginning of `source`, with memory for one piece of it and for the longest line. `AllocError` if
    /// there is no memory for them; `source` is then dropped.
    ///
    /// # Errors
    ///
    /// `AllocError` if there is no memory for them.
    pub(crate) fn new(alloc: Global, source: T) -> Result<Lines<T>, AllocError>
        ensures { IfOk result (λ lines. HasGiven (T.to_come source) (T.fails source) (state_in lines)
            (rest_in T.to_come lines) (fails_in T.fails lines) []) }
    {
        Ok(Lines {
            source,
            held: ReadBuffer::new(alloc)?,
            line: LineBuffer::new(alloc)?,
            state: SourceState::Open,
        })
    }

    /// Reads the next line into the memory of the reader, and returns `Line`, `TooLong` if the line exceeds `MAX_LINE`
    /// bytes, `End` if there are no more lines, or `Failed` if a read failed. Once it has returned `End` or `Failed`,
    /// it reads nothing and returns the same again.
    ///
    /// Once the source has ended or a read has failed, it is read no more.
    pub(crate) fn next<R: Wait>(&mut self, rt: &R) -> LineOutcome
        ensures gives { (known : Option (List ℕ)) (fails : Bool) (given : List (List ℕ))
            → HasGiven known fails (state_in self.old) (rest_in T.to_come self.old) (fails_in T.fails self.old) given
            → GivesNext known fails (state_in self.new) (rest_in T.to_come self.new) (fails_in T.fails self.new) given
            (line_in self.new) result }
        ensures closed { StaysClosed (state_in self.old) result }
    {
        match self.state {
            SourceState::Open => self.read_on(rt),
            SourceState::Ended => LineOutcome::End,
            SourceState::Failed => LineOutcome::Failed,
        }
    }

    /// The bytes of the line that `next` read last, without the byte 0A at its end. They are a whole line only if
    /// `next` returned `Line`; before the first call they are empty.
    pub(crate) fn line(&self) -> &[u8]
        ensures { result.now ≡ line_in self.now }
    {
        self.line.bytes.as_slice()
    }

    /// Reads the next line into the memory of the reader, and returns `Line`, `TooLong`, `End` or `Failed` as `next`
    /// does. The source must have neither ended nor failed before the call.
    fn read_on<R: Wait>(&mut self, rt: &R) -> LineOutcome
        requires { state_in self.old ≡ SourceState.Open }
        ensures { (known : Option (List ℕ)) (fails : Bool) (given : List (List ℕ))
            → HasGiven known fails SourceState.Open (rest_in T.to_come self.old) (fails_in T.fails self.old) given
            → GivesNext known fails (state_in self.new) (rest_in T.to_come self.new) (fails_in T.fails self.new) given
            (line_in self.new) result }
    {
        self.line.clear();
        for _ in rt.forever() {
            if self.held.move_to(&mut self.line) {
                return ended_line(&self.line);
            }
            self.state = self.held.refill(&mut self.source);
            match self.state {
                SourceState::Open => {}
                SourceState::Ended => return last_line(&self.line),
                SourceState::Failed => return LineOutcome::Failed,
            }
        }
        unreachable!()
    }
}

/// The outcome for a line that byte 0A ended: `TooLong` if the line is marked as too long, otherwise `Line`, also if it
/// is empty.
fn ended_line(line: &LineBuffer) -> LineOutcome
    ensures { IsWhole line.now.long result }
{
    if line.long {
        LineOutcome::TooLong
    } else {
        LineOutcome::Line
    }
}

/// The outcome for the bytes after the last byte 0A of a source that has ended: `End` if there are none, `TooLong` if
/// they are marked as too long, otherwise `Line`.
fn last_line(line: &LineBuffer) -> LineOutcome
    ensures { IsLast line.now.bytes.items line.now.long result }
{
    if !line.long && line.bytes.is_empty() {
        return LineOutcome::End;
    }
    ended_line(line)
}
