//! The reasons why the system refuses a call, and readers as sources of a run. Also short lines of text, built without
//! allocation.
ghost use Rattle.std.specs.Prelude.{◌≡◌, ◌<◌, ◌≤◌, length, take, None, false, IfOk, OnOk, OnErr};
ghost use Rattle.std.specs.Io.KnownBytes.{Consumes, IsAtEnd, Keeps};
ghost use Rattle.streams.specs.Tap.{IsAtItsEnd, IsAtItsFailure};

use arrayvec::ArrayString;
use std::fmt::{Display, Formatter, Write};
use std::io::{Error, Read};
use std::{fmt, io};
use streams::{IoSink, Tap, TapFault};

/// A short line of text, stored in the value itself. A piece of text that does not fit is left out.
pub type ShortLine = ArrayString<128>;

/// The system's error code for a failed call, if it gave one. It is displayed as the system's message.
#[derive(Clone, Copy, Debug, PartialEq, Eq)]
pub struct Reason {
    pub code: Option<i32>,
}

impl Reason {
    /// An unknown reason.
    pub const UNKNOWN: Reason = Reason { code: None };

    /// The reason that a system error carries: its error code, or `UNKNOWN` if it has none.
    pub fn of(error: Error) -> Reason {
        Reason {
            code: error.raw_os_error(),
        }
    }
}

impl Display for Reason {
    /// Writes to `f` the system's message for the error code, without the number that std appends, or `unknown error`
    /// if there is no code. `Error` if `f` refuses the text.
    fn fmt<W: fmt::Write>(&self, f: &mut Formatter<W>) -> fmt::Result {
        let Some(code) = self.code else {
            return f.write_str("unknown error");
        };
        let mut line = ShortLine::new();
        let _ = write!(line, "{}", Error::from_raw_os_error(code));
        // The system's text, without the number that std appends.
        match line.as_str().split_once(" (os error ") {
            Some((front, _)) => f.write_str(front),
            None => f.write_str(line.as_str()),
        }
    }
}

// It keeps no reason.
impl<W: io::Write> KeepsReason for IoSink<W> {
    /// Always `UNKNOWN`: this sink keeps no reason.
    fn reason(&self) -> Reason {
        Reason::UNKNOWN
    }
}

/// A source or a sink that keeps the reason of a failed read or write.
pub trait KeepsReason {
    /// The reason of the last read or write that failed; `UNKNOWN` if none failed or its reason is not known.
    fn reason(&self) -> Reason;
}

/// A reader as a source of a run, which keeps the reason of a failed read.
///
/// Nothing is known of its bytes in advance, as any read may fail. It gives the bytes that the reader gives, and ends
/// where the reader does.
#[derive(Drop)]
pub struct ReadTap<R> {
    reader: R,
    reason: Reason,
}

impl<R> KeepsReason for ReadTap<R> {
    /// The reason of the last read that failed; `UNKNOWN` if none failed or the system gave no error code.
    fn reason(&self) -> Reason {
        self.reason
    }
}

impl<R: Read> ReadTap<R> {
    ghost use Rattle.named_sources.specs.Readers.{reader_of};

    /// A source over `reader`, of which nothing was read yet; no reason is kept yet.
    pub(crate) fn new(reader: R) -> ReadTap<R>
        ensures { reader_of result ≡ reader }
    {
        ReadTap {
            reader,
            reason: Reason::UNKNOWN,
        }
    }
}

impl<R: Read + Drop> Tap for ReadTap<R> {
    ghost use Rattle.named_sources.specs.Readers.{remaining_in};

    ghost to_come = { λ _. None };

    ghost fails = { λ _. false };

    /// Reads the next bytes of the reader into the beginning of `buf` and returns how many. If `buf` is not empty, 0 is
    /// the end. `TapFault` if the read failed: its reason is kept, and `buf` may then hold any bytes.
    ///
    /// The contract of every tap; and the bytes given are removed from those that are left of the reader. No bytes are
    /// given only at its end, and if a read fails, none are lost.
    fn read(&mut self, buf: &mut [u8]) -> Result<usize, TapFault>
        ensures bound { IfOk result (λ n. n ≤ length buf.new) }
        ensures given { IfOk result (λ n. Consumes (⟦<ReadTap<R> as Tap>⟧.to_come self.old)
            (⟦<ReadTap<R> as Tap>⟧.to_come self.new) (take n buf.new)) }
        ensures ended { IfOk result (λ n. n ≡ 0 → 0 < length buf.new
            → IsAtItsEnd (⟦<ReadTap<R> as Tap>⟧.to_come self.old) (⟦<ReadTap<R> as Tap>⟧.fails self.old)) }
        ensures failed { OnErr result
            (IsAtItsFailure (⟦<ReadTap<R> as Tap>⟧.to_come self.old) (⟦<ReadTap<R> as Tap>⟧.fails self.old)) }
        ensures stays { OnOk result (⟦<ReadTap<R> as Tap>⟧.fails self.new ≡ ⟦<ReadTap<R> as Tap>⟧.fails self.old) }
        ensures passes { IfOk result (λ n. Consumes (remaining_in R.remaining self.old) (remaining_in R.remaining self.new)
            (take n buf.new)) }
        ensures end_of_reader { IfOk result (λ n. n ≡ 0 → 0 < length buf.new → IsAtEnd (remaining_in R.remaining self.new)) }
        ensures none_lost { OnErr result (Keeps (remaining_in R.remaining self.old) (remaining_in R.remaining self.new)) }
    {
        match self.reader.read(buf) {
            Ok(count) => Ok(count),
            Err(error) => {
                self.reason = Reason::of(error);
                Err(TapFault)
            }
        }
    }
}
