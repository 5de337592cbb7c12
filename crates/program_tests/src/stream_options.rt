//! Standard input as a file, and lines of progress. The bytes and the texts come from the description of the format,
//! of the report and of the lines.
ghost use Rattle.std.specs.Prelude.{false};

use crate::layouts::{EDGELESS, UNREAD};
use crate::shared::{
    Input, NoConsole, Row, check_rows, check_said, expect_report, make_file, run_on,
};
use commands::{Console, Gate, Meter, Progress, Stage, is_input};
use std::process::Abort;
use std::rt::Files;
use std::sync::Wait;
use std::sync::atomic::{AtomicU64, Ordering};
use std::thread::Threads;
use test_tools::records::{EDGE, HEADER, TRIANGLE};
use test_tools::same;

/// Runs the command line of each row on a standard input with these parts, and checks the report and the status.
pub fn check_on<R: Files + AllocGlobal + Threads + Wait + Sync + Abort>(
    rt: &R,
    parts: &[&[u8]],
    rows: &[Row],
)
where
    R::File: Send,
    R::Dir: Send,
{
    for (line, report, status) in rows {
        let bytes = parts.concat(rt.alloc()).expect(rt, "memory");
        let input = Input { bytes: &bytes };
        let ran = run_on(rt, line, Some(input), &NoConsole);
        expect_report(rt, &ran, report.as_bytes(), *status);
    }
}

const BOTH: &str = "file 1\n\
    graph 1 ok n=2 m=1 f=1 bends=0 drawn=yes\n\
    graph 2 ok n=3 m=3 f=2 bends=1 drawn=yes\n\
    end complete graphs=2\n";

const OF_BOTH: [Row; 4] = [
    ("layout -", BOTH, 0),
    ("layout -- -", BOTH, 0),
    ("layout --lanes=8 -", BOTH, 0),
    (
        "frames -",
        "record 1 n=2 bytes=5\nrecord 2 n=3 bytes=10\nend complete records=2\n",
        0,
    ),
];

const CUT: &str = "record 1 n=2 bytes=5\nend truncated records=1\n";

/// Parts of standard input, and a row.
const INPUTS: [(&[&[u8]], Row); 3] = [
    (&[HEADER, &[1, 0]], ("layout --json -", EDGELESS, 0)),
    (&[], ("layout -", "file 1\nend header graphs=0\n", 3)),
    (&[HEADER, EDGE, &[2, 2, 0, 1]], ("frames -- -", CUT, 3)),
];

/// The argument `-` reads standard input as a file.
#[test]
fn reads_standard_input(rt: HostRuntime) {
    check_on(&rt, &[HEADER, EDGE, TRIANGLE], &OF_BOTH);
    for (parts, row) in INPUTS {
        check_on(&rt, parts, &[row]);
    }
    check_rows(&rt, &[("layout -", UNREAD, 3)]);
    check_rows(&rt, &[("frames -", "end io records=0\n", 3)]);
}

/// Standard input has its place among other files, of which `./-` is the one of that name.
const BESIDE_FILES: [Row; 2] = [
    (
        "layout - ./-",
        "file 1\n\
        graph 1 ok n=2 m=1 f=1 bends=0 drawn=yes\n\
        end complete graphs=1\n\
        file 2\n\
        graph 1 ok n=3 m=3 f=2 bends=1 drawn=yes\n\
        end complete graphs=1\n",
        0,
    ),
    (
        "layout --lanes 2 ./- -- -",
        "file 1\n\
        graph 1 ok n=3 m=3 f=2 bends=1 drawn=yes\n\
        end complete graphs=1\n\
        file 2\n\
        graph 1 ok n=2 m=1 f=1 bends=0 drawn=yes\n\
        end complete graphs=1\n",
        0,
    ),
];

/// Standard input has its place among files, and `./-` is a file.
#[test]
fn reads_standard_input_beside_files(rt: HostRuntime) {
    make_file(&rt, "-", &[HEADER, TRIANGLE]);
    check_on(&rt, &[HEADER, EDGE], &BESIDE_FILES);
    for name in ["-", "./-", "--", "", "- ", "a-"] {
        same!(&rt, is_input(name), name == "-");
    }
}

const TWICE: &str = "error: '-' (standard input) may be given only once\n";

const READ_TWICE: [(&str, &str); 5] = [
    ("layout - -", TWICE),
    ("layout - a --lanes 2 -", TWICE),
    ("layout - -- -", TWICE),
    ("layout -- - - -", TWICE),
    ("frames - -", "unexpected argument '-' found\n"),
];

/// Standard input that is named twice is refused.
#[test]
fn reads_standard_input_once(rt: HostRuntime) {
    check_said(&rt, &READ_TWICE, 2);
}

/// A console whose clock advances by a fixed number of milliseconds at each look, and which compares what it is to show
/// with what is expected.
#[derive(Drop)]
struct Ticking<'a> {
    terminal: bool,
    step: u64,
    wanted: &'a [&'a str],
    looks: AtomicU64,
    shown: AtomicU64,
    others: AtomicU64,
}

impl<'a> Ticking<'a> {
    /// A clock that moves by a step at each look, and the texts that are expected.
    fn new(terminal: bool, step: u64, wanted: &'a [&'a str]) -> Ticking<'a> {
        Ticking {
            terminal,
            step,
            wanted,
            looks: AtomicU64::new(0),
            shown: AtomicU64::new(0),
            others: AtomicU64::new(0),
        }
    }

    /// The number of texts shown, and how many of them were not expected.
    fn counts(&self) -> (u64, u64) {
        (
            self.shown.load(Ordering::SeqCst),
            self.others.load(Ordering::SeqCst),
        )
    }
}

impl Console for Ticking<'_> {
    ghost has_terminal = { λ _. false };

    fn out_is_terminal(&self) -> bool {
        false
    }

    fn is_terminal(&self) -> bool {
        self.terminal
    }

    fn time(&self) -> u64 {
        self.looks
            .fetch_add(1, Ordering::SeqCst)
            .wrapping_mul(self.step)
    }

    fn show(&self, text: &[u8]) {
        let place = self.shown.fetch_add(1, Ordering::SeqCst);
        let wanted = self.wanted.get(place as usize);
        if !wanted.is_some_and(|wanted| wanted.as_bytes() == text) {
            self.others.fetch_add(1, Ordering::SeqCst);
        }
    }
}

/// Runs a command line on a standard input of five graphs, while 100 milliseconds pass between two looks at the clock.
/// All expected texts are shown, and no others.
fn check_told<R: Files + AllocGlobal + Threads + Wait + Sync + Abort>(
    rt: &R,
    line: &str,
    terminal: bool,
    wanted: &[&str],
)
where
    R::File: Send,
    R::Dir: Send,
{
    let five = [HEADER, EDGE, EDGE, EDGE, EDGE, EDGE];
    let bytes = five.concat(rt.alloc()).expect(rt, "memory");
    let console = Ticking::new(terminal, 100, wanted);
    let input = Input { bytes: &bytes };
    let ran = run_on(rt, line, Some(input), &console);
    let ends = b"\nend complete graphs=5\n";
    same!(rt, ran.out.as_slice().ends_with(ends), true);
    same!(rt, (ran.status, ran.err.len()), (0, 0));
    same!(rt, console.counts(), (wanted.len() as u64, 0));
}

const OVER: [&str; 2] = [
    "\rfile 1 of 1: 3 graphs, 10/s   ",
    "\rfile 1 of 1: 5 graphs, 8/s   \n",
];

const APART: [&str; 2] = [
    "file 1 of 1: 3 graphs, 10/s\n",
    "file 1 of 1: 5 graphs, 8/s\n",
];

/// A command line, whether there is a terminal, and the expected texts.
const TOLD: [(&str, bool, &[&str]); 5] = [
    ("layout -", true, &[]),
    ("layout - --progress", true, &OVER),
    ("layout - --progress", false, &[]),
    ("layout --progress - --progress", true, &OVER),
    ("layout --progress - --progress", false, &APART),
];

/// Progress is shown if `--progress` is given and there is a terminal, or if it is given twice.
#[test]
fn tells_how_far_it_is(rt: HostRuntime) {
    for (line, terminal, wanted) in TOLD {
        check_told(&rt, line, terminal, wanted);
    }
    let refused = "unexpected argument '--progress' found";
    check_said(&rt, &[("frames --progress a", refused)], 2);
}

/// The number of lines written for this many graphs, between which this many milliseconds pass.
fn lines_of(graphs: u32, step: u64) -> u64 {
    let console = Ticking::new(false, step, &[]);
    let meter = Meter::new(&console, Progress::Everywhere, 1);
    for graph in 0..graphs {
        meter.pass(0, Stage::Read, graph);
        meter.pass(0, Stage::Draw, graph);
    }
    console.counts().0
}

/// At most four lines of progress are written in a second.
#[test]
fn tells_at_most_four_lines_a_second(rt: HostRuntime) {
    for (graphs, step, lines) in [
        (1000, 1, 4),
        (40, 25, 4),
        (10, 100, 3),
        (10, 300, 10),
        (10, 0, 0),
    ] {
        same!(&rt, lines_of(graphs, step), lines);
    }
}

/// The number of texts shown for a run of this many graphs in which no time passes, and how many of them differ from
/// this one.
fn last_line_of(graphs: u32, wanted: &str) -> (u64, u64) {
    let texts = [wanted];
    let console = Ticking::new(false, 0, &texts);
    let meter = Meter::new(&console, Progress::Everywhere, 2);
    meter.opened().fetch_add(2, Ordering::SeqCst);
    for graph in 0..graphs {
        meter.pass(0, Stage::Draw, graph);
    }
    meter.finish();
    console.counts()
}

/// The last line of progress counts each graph.
#[test]
fn counts_each_graph(rt: HostRuntime) {
    for (graphs, wanted) in [
        (0, "file 2 of 2: 0 graphs, 0/s\n"),
        (999, "file 2 of 2: 999 graphs, 999,000/s\n"),
        (2345, "file 2 of 2: 2,345 graphs, 2,345,000/s\n"),
    ] {
        same!(&rt, last_line_of(graphs, wanted), (1, 0));
    }
}
