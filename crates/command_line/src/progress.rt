//! Progress output of a run.
ghost use Rattle.std.specs.Prelude.{◌≡◌, Bool};

use lanes::{Gate, Stage};
use named_sources::ShortLine;
use std::fmt;
use std::fmt::Write;
use std::sync::atomic::{AtomicU64, Ordering};

/// The minimum time between two lines, in milliseconds. The last line does not wait.
const INTERVAL: u64 = 250;

/// Where progress is shown.
#[derive(Clone, Copy, Debug, PartialEq, Eq)]
pub enum Progress {
    /// Nowhere: nothing is shown.
    Nowhere,
    /// On a terminal, in one line that is overwritten.
    OnTerminal,
    /// On a terminal as `OnTerminal`, and elsewhere in separate lines.
    Everywhere,
}

impl Progress {
    /// The progress setting for an option that is given `count` times: `Nowhere` for 0, `OnTerminal` for 1, and
    /// `Everywhere` for more.
    pub fn of_count(count: usize) -> Progress {
        match count {
            0 => Progress::Nowhere,
            1 => Progress::OnTerminal,
            _ => Progress::Everywhere,
        }
    }
}

/// An output for lines of progress, usable from any thread, with a clock.
///
/// In proofs it is known of it whether the program's output, which is another one, is a terminal.
pub trait Console {
    ghost has_terminal: { Self → Bool };

    /// Whether the program's output, which is not this console, is a terminal.
    fn out_is_terminal(&self) -> bool
        ensures { result ≡ has_terminal self.now };

    /// Whether this console is a terminal, so that its last line can be overwritten.
    fn is_terminal(&self) -> bool;

    /// The time since some fixed start, in milliseconds, or 0 if the clock cannot be read.
    fn time(&self) -> u64;

    /// Writes `text` to the console. Ignores a failed write, and returns nothing.
    fn show(&self, text: &[u8]);
}

/// How lines are shown on a console.
#[derive(Clone, Copy, Debug, PartialEq, Eq)]
enum ConsoleMode {
    Hidden,
    WrittenOver,
    Apart,
}

impl ConsoleMode {
    /// How lines are shown on `console`: `Hidden` for `Nowhere`; otherwise `WrittenOver` if it is a terminal; otherwise
    /// `Hidden` for `OnTerminal` and `Apart` for `Everywhere`.
    fn of<C: Console>(progress: Progress, console: &C) -> ConsoleMode {
        match progress {
            Progress::Nowhere => ConsoleMode::Hidden,
            _ if console.is_terminal() => ConsoleMode::WrittenOver,
            Progress::OnTerminal => ConsoleMode::Hidden,
            Progress::Everywhere => ConsoleMode::Apart,
        }
    }
}

/// Counts the graphs of a run at the gate of its last stage, and shows the progress of the run.
///
/// It shows it at most four times a second, and once more at the end of the run.
#[derive(Drop)]
pub struct Meter<'c, C> {
    console: &'c C,
    mode: ConsoleMode,
    files: usize,
    /// The start of the run, by the console's clock.
    start: u64,
    /// The number of files that were opened, or could not be.
    opened: AtomicU64,
    /// The number of graphs that reached the last stage.
    graphs: AtomicU64,
    /// The time of the last line, in milliseconds since the start.
    last_told: AtomicU64,
}

impl<'c, C: Console> Meter<'c, C> {
    /// A meter of a run over `files` files, whose time begins now. Its counts are 0, and it shows nothing yet. It shows
    /// progress on `console` as `progress` and the kind of console allow.
    pub fn new(console: &'c C, progress: Progress, files: usize) -> Meter<'c, C> {
        Meter {
            console,
            mode: ConsoleMode::of(progress, console),
            files,
            start: console.time(),
            opened: AtomicU64::new(0),
            graphs: AtomicU64::new(0),
            last_told: AtomicU64::new(0),
        }
    }

    /// The counter of the files that were opened or could not be opened, at first 0. The meter only reads it: who opens
    /// the files must add 1 for each.
    pub fn opened(&self) -> &AtomicU64 {
        &self.opened
    }

    /// Shows the final counts and rate on the console, without waiting for the time of the next line, and ends the
    /// line. Does nothing if progress is hidden or no file was opened or tried.
    pub fn finish(&self) {
        if self.mode != ConsoleMode::Hidden && self.opened.load(Ordering::SeqCst) > 0 {
            self.tell(self.time(), "\n");
        }
    }

    /// The duration of the run so far, in milliseconds by the console's clock; 0 if the clock is now before the start
    /// or cannot be read.
    fn time(&self) -> u64 {
        self.console.time().saturating_sub(self.start)
    }

    /// Shows the counts and the rate, and stores the time of that, if 250 milliseconds have passed since the last time
    /// or, before the first one, since the start of the run. Otherwise, or if another thread shows them now, does
    /// nothing.
    fn tell_in_time(&self) {
        let last_told = self.last_told.load(Ordering::SeqCst);
        let time = self.time();
        if time < last_told.saturating_add(INTERVAL) {
            return;
        }
        let stored_time = self
            .last_told
            .compare_exchange(last_told, time, Ordering::SeqCst, Ordering::SeqCst);
        if stored_time.is_ok() {
            let end = if self.mode == ConsoleMode::Apart {
                "\n"
            } else {
                ""
            };
            self.tell(time, end);
        }
    }

    /// Writes to the console the number of files opened, the number of graphs, and the graphs per second over `time`
    /// milliseconds, in one line with `end` at its end; on a terminal, over the line before. Ignores a failed write. A
    /// `time` of 0 counts as 1.
    fn tell(&self, time: u64, end: &str) {
        let opened = self.opened.load(Ordering::SeqCst);
        let graphs = self.graphs.load(Ordering::SeqCst);
        let rate = graphs.saturating_mul(1000) / time.max(1);
        // The spaces cover the rest of a longer line.
        let (front, back) = match self.mode {
            ConsoleMode::WrittenOver => ("\r", "   "),
            _ => ("", ""),
        };
        let mut line = ShortLine::new();
        let _ = write!(line, "{front}file {opened} of {}: ", self.files);
        let _ = write_grouped(&mut line, graphs);
        let _ = write!(line, " graphs, ");
        let _ = write_grouped(&mut line, rate);
        let _ = write!(line, "/s{back}{end}");
        self.console.show(line.as_str().as_bytes());
    }
}

/// Appends `number` to `line` in decimal digits, with a comma before each further group of three. `fmt::Error` if
/// `line`, which does not grow, is full; it may then have the first of these groups.
fn write_grouped(line: &mut ShortLine, number: u64) -> fmt::Result {
    let mut begun = false;
    let mut power: u64 = 1_000_000_000_000_000_000;
    for _ in 0..7 {
        let group = number.checked_div(power).unwrap_or(0) % 1000;
        if begun {
            write!(line, ",{group:03}")?;
        } else if group > 0 || power == 1 {
            write!(line, "{group}")?;
            begun = true;
        }
        power /= 1000;
    }
    Ok(())
}

impl<C: Console + Sync> Gate for Meter<'_, C> {
    /// For the stage `Draw`, adds 1 to the number of graphs and shows the progress if it is time for that. Does nothing
    /// for any other stage, or if progress is hidden. The lane and the record's place do not matter.
    fn pass(&self, _lane: u32, stage: Stage, _ordinal: u32) {
        if stage == Stage::Draw && self.mode != ConsoleMode::Hidden {
            self.graphs.fetch_add(1, Ordering::SeqCst);
            self.tell_in_time();
        }
    }
}
