//! Standard error as a console, and output that shares its terminal.

use crate::progress::Console;
use std::io;
use std::io::{IsTerminal, Write};
use std::rt::Clock;
use std::sync::{Mutex, Wait};

/// The content of the last line of a terminal.
#[derive(Clone, Copy, Debug, PartialEq, Eq)]
enum LastLine {
    /// Nothing.
    Empty,
    /// A line of progress, which may be overwritten.
    Progress,
    /// The beginning of a line of text.
    Text,
}

/// A console on standard error, with a clock.
#[derive(Drop)]
pub struct ErrorConsole<R, E> {
    rt: R,
    err: E,
    /// Whether the program's output is a terminal.
    out_is_terminal: bool,
    last: Mutex<LastLine>,
}

impl<R: Clock + Wait, E: io::Write + IsTerminal + Copy> ErrorConsole<R, E> {
    /// A console on the standard error `err`, with the clock of `rt`, on which nothing is shown yet. `out_is_terminal`
    /// says whether the program's output is a terminal.
    pub fn new(rt: R, err: E, out_is_terminal: bool) -> ErrorConsole<R, E> {
        ErrorConsole {
            rt,
            err,
            out_is_terminal,
            last: Mutex::new(LastLine::Empty),
        }
    }
}

impl<R: Clock + Wait, E: io::Write + IsTerminal + Copy> Console for ErrorConsole<R, E> {
    ghost has_terminal = { λ c. c.out_is_terminal };

    /// Whether the program's output is a terminal, as it was said to `new`.
    fn out_is_terminal(&self) -> bool {
        self.out_is_terminal
    }

    /// Whether standard error is a terminal.
    fn is_terminal(&self) -> bool {
        self.err.is_terminal()
    }

    /// The value of the monotonic clock, in milliseconds and at most `u64::MAX`; 0 if the clock cannot be read.
    fn time(&self) -> u64 {
        match self.rt.monotonic() {
            Ok(time) => u64::try_from(time.as_millis()).unwrap_or(u64::MAX),
            Err(_) => 0,
        }
    }

    /// Writes `text` to standard error, and ignores a failed write. Does nothing if the terminal's last line is the
    /// beginning of a line of output, which must not be overwritten.
    fn show(&self, text: &[u8]) {
        let mut last = self.last.lock(&self.rt);
        if *last == LastLine::Text {
            return;
        }
        let mut err = self.err;
        let _ = err.write_all(text);
        *last = if text.ends_with(b"\n") {
            LastLine::Empty
        } else {
            LastLine::Progress
        };
    }
}

/// A writer that shares the terminal of a console: the console's line is cleared before text is written.
#[derive(Drop)]
pub struct SharedTerminal<'c, W, R, E> {
    writer: W,
    console: &'c ErrorConsole<R, E>,
    is_shared: bool,
}

impl<'c, W: io::Write, R: Clock + Wait, E: io::Write + IsTerminal + Copy> SharedTerminal<
    'c,
    W,
    R,
    E,
> {
    /// A writer to the program's output `writer`. It shares the terminal of `console` if the output and standard error
    /// are both terminals.
    pub fn new(writer: W, console: &'c ErrorConsole<R, E>) -> SharedTerminal<'c, W, R, E> {
        SharedTerminal {
            writer,
            console,
            is_shared: console.out_is_terminal && console.is_terminal(),
        }
    }
}

impl<W: io::Write, R: Clock + Wait, E: io::Write + IsTerminal + Copy> io::Write
    for SharedTerminal<'_, W, R, E> {
    ghost contents = { λ w. W.contents w.writer };

    /// Writes the first bytes of `buf`, perhaps not all, to the output; returns their number or the error. On a shared
    /// terminal, first clears the console's line of progress, which stays cleared after an error; if it writes bytes of
    /// which the last ends no line, the console shows nothing until a later write ends a line or writes no byte.
    fn write(&mut self, buf: &[u8]) -> io::Result<usize> {
        if !self.is_shared {
            return self.writer.write(buf);
        }
        let mut last = self.console.last.lock(&self.console.rt);
        if *last == LastLine::Progress {
            let mut err = self.console.err;
            let _ = err.write_all(b"\r\x1b[K");
            *last = LastLine::Empty;
        }
        let outcome = self.writer.write(buf);
        if let Ok(count) = &outcome {
            let text = &buf[..*count];
            *last = if text.is_empty() || text.ends_with(b"\n") {
                LastLine::Empty
            } else {
                LastLine::Text
            };
        }
        outcome
    }

    /// Flushes the output, and returns the error of that if it fails. The console stays as it is.
    fn flush(&mut self) -> io::Result<()> {
        self.writer.flush()
    }
}
