//! The commands `pick` and `count`: the records and the numbers of the graphs that they select.
ghost use Rattle.std.specs.Prelude.{true};

use crate::shared::{Row, check_rows, check_said, expect_report, make_file, run, run_on};
use commands::Console;
use std::alloc::{AllocError, Global};
use std::process::Abort;
use std::rt::Files;
use std::sync::Wait;
use std::thread::Threads;
use test_tools::records::{EDGE, HEADER, SQUARE, TETRAHEDRON_ON_A_TORUS, TRIANGLE};
use test_tools::same;

/// A vertex that is its own neighbour.
const LOOP: &[u8] = &[1, 1, 0];

/// A triangle needs a bend; an edge and a cycle of four need none.
const ALL: &[&[u8]] = &[EDGE, TRIANGLE, LOOP, SQUARE, TETRAHEDRON_ON_A_TORUS];

const REFUSED: &[&[u8]] = &[LOOP, TETRAHEDRON_ON_A_TORUS];

/// Options, and the records that they select of those in `ALL`.
const PICKED: [(&str, &[&[u8]]); 22] = [
    ("", ALL),
    ("--not", &[]),
    ("--bends 0", &[EDGE, SQUARE]),
    ("--bends=1", &[TRIANGLE]),
    ("--bends :0", &[EDGE, SQUARE]),
    ("--bends 1:", &[TRIANGLE]),
    ("--bends 0: --not", REFUSED),
    ("--vertices 3", &[TRIANGLE]),
    ("--vertices 2:3", &[EDGE, TRIANGLE]),
    ("--vertices :1", &[LOOP]),
    (
        "--edges 0:",
        &[EDGE, TRIANGLE, SQUARE, TETRAHEDRON_ON_A_TORUS],
    ),
    ("--edges=3:4", &[TRIANGLE, SQUARE]),
    ("--edges 6", &[TETRAHEDRON_ON_A_TORUS]),
    ("--faces 2", &[TRIANGLE, SQUARE]),
    ("--faces=0:1", &[EDGE]),
    ("--not --faces 0:4294967295", REFUSED),
    ("--rule none", &[EDGE, TRIANGLE, SQUARE]),
    ("--rule none --not", REFUSED),
    ("--rule=loop", &[LOOP]),
    ("--rule genus --vertices 4", &[TETRAHEDRON_ON_A_TORUS]),
    ("--rule range", &[]),
    (
        "--bends 0 --vertices 3: --lanes 8 --waiting 1 --outer best",
        &[SQUARE],
    ),
];

/// The header and these records.
fn file_of(alloc: Global, records: &[&[u8]]) -> Result<Vec<u8>, AllocError> {
    let mut bytes = Vec::from_slice(alloc, HEADER)?;
    for record in records {
        bytes.extend_from_slice(record)?;
    }
    Ok(bytes)
}

/// A command line of words, with a blank after each.
fn line_of(alloc: Global, words: &[&str]) -> Result<String, AllocError> {
    let mut line = String::new(alloc);
    for word in words {
        line.push_str(word)?;
        line.push_str(" ")?;
    }
    Ok(line)
}

/// Writes the records of `ALL` to the file `all.pc`.
fn make_all<R: Files + AllocGlobal + Abort>(rt: &R) {
    let parts = [HEADER, EDGE, TRIANGLE, LOOP, SQUARE, TETRAHEDRON_ON_A_TORUS];
    make_file(rt, "all.pc", &parts);
}

/// Checks which records `pick` writes with these options.
fn check_picked<R: Files + AllocGlobal + Threads + Wait + Sync + Abort>(
    rt: &R,
    options: &str,
    records: &[&[u8]],
)
where
    R::File: Send,
    R::Dir: Send,
{
    let line = line_of(rt.alloc(), &["pick", options, "all.pc"]).expect(rt, "memory");
    let bytes = file_of(rt.alloc(), records).expect(rt, "memory");
    expect_report(rt, &run(rt, line.as_str()), bytes.as_slice(), 0);
}

/// The records that meet all conditions are written after one header, or the others.
#[test]
fn picks_the_records_of_the_selected_graphs(rt: HostRuntime) {
    make_all(&rt);
    for (options, records) in PICKED {
        check_picked(&rt, options, records);
    }
}

/// The records of several files follow one another after one header, with any number of lanes.
#[test]
fn picks_from_several_files_in_order(rt: HostRuntime) {
    make_all(&rt);
    make_file(&rt, "edge.pc", &[HEADER, EDGE]);
    let picked = file_of(rt.alloc(), &[EDGE, EDGE, TRIANGLE, SQUARE, EDGE]).expect(&rt, "memory");
    for lanes in ["1", "2", "8"] {
        let words = ["pick --rule none --lanes", lanes, "edge.pc all.pc edge.pc"];
        let line = line_of(rt.alloc(), &words).expect(&rt, "memory");
        expect_report(&rt, &run(&rt, line.as_str()), picked.as_slice(), 0);
    }
}

const BY_ALL: &str = "n=1 m=- f=- bends=- rule=loop graphs=1\n\
    n=2 m=1 f=1 bends=0 rule=none graphs=1\n\
    n=3 m=3 f=2 bends=1 rule=none graphs=1\n\
    n=4 m=4 f=2 bends=0 rule=none graphs=1\n\
    n=4 m=6 f=- bends=- rule=genus graphs=1\n\
    total graphs=5\n";

const COUNTED: [Row; 5] = [
    ("count --by n,m,f,bends,rule all.pc", BY_ALL, 0),
    ("count --by rule,bends,f,m,n all.pc", BY_ALL, 0),
    (
        "count --by=bends all.pc all.pc --rule none",
        "bends=0 graphs=4\nbends=1 graphs=2\ntotal graphs=6\n",
        0,
    ),
    (
        "count --not --bends 0 all.pc --lanes=2 --by rule",
        "rule=none graphs=1\nrule=loop graphs=1\nrule=genus graphs=1\ntotal graphs=3\n",
        0,
    ),
    ("count --vertices 9 --by n all.pc", "total graphs=0\n", 0),
];

/// The table has the combinations in order, and the total.
#[test]
fn counts_the_selected_graphs(rt: HostRuntime) {
    make_all(&rt);
    check_rows(&rt, &COUNTED);
}

const EMPTY: &str =
    "error: invalid value '5:3' for '--bends <RANGE>': the range is empty: its first number is above \
    its last one\n";

const NO_RANGE: &str =
    "error: invalid value ':' for '--faces <RANGE>': a range is A:B, A:, :B or A, with numbers from \
    0 to 4294967295\n";

const NO_COLUMNS: &str =
    "error: invalid value 'n,n' for '--by <COLUMNS>': the columns are some of n,m,f,bends,rule, \
    each at most once\n";

const REFUSED_LINES: [(&str, &str); 14] = [
    ("pick --bends 5:3 all.pc", EMPTY),
    ("count all.pc --faces :", NO_RANGE),
    ("count --by n,n all.pc", NO_COLUMNS),
    ("count --by= all.pc", "for '--by <COLUMNS>'"),
    (
        "pick --vertices 4294967296 all.pc",
        "for '--vertices <RANGE>'",
    ),
    ("pick --edges x all.pc", "for '--edges <RANGE>'"),
    (
        "pick --rule round all.pc",
        "[possible values: none, range, loop",
    ),
    (
        "pick --bends 1 --bends=1 all.pc",
        "cannot be used multiple times",
    ),
    ("pick --not all.pc --not", "cannot be used multiple times"),
    ("pick --by n all.pc", "unexpected argument '--by' found"),
    (
        "count --waiting 1 all.pc",
        "unexpected argument '--waiting' found",
    ),
    ("pick --json all.pc", "unexpected argument '--json' found"),
    (
        "pick --lanes 0 all.pc",
        "planarbend: lanes must be 1 to 8\n",
    ),
    ("pick --bends 1", "were not provided:\n  <FILE>...\n"),
];

/// Values that are no ranges, rules or columns are refused, and so are the options of other commands.
#[test]
fn refuses_other_values(rt: HostRuntime) {
    make_all(&rt);
    check_said(&rt, &REFUSED_LINES, 2);
    check_said(
        &rt,
        &[("pick --waiting 0 all.pc", "waiting must be 1 to 65536\n")],
        2,
    );
}

/// A file that does not end complete is told on standard error, and its records take part.
#[test]
fn tells_which_file_is_not_complete(rt: HostRuntime) {
    make_all(&rt);
    make_file(&rt, "cut.pc", &[HEADER, EDGE, &[3, 2]]);
    let ran = run(&rt, "pick --vertices 2 cut.pc all.pc none.pc");
    let bytes = file_of(rt.alloc(), &[EDGE, EDGE]).expect(&rt, "memory");
    expect_report(&rt, &ran, bytes.as_slice(), 3);
    let told = "planarbend: cut.pc: not complete (truncated)\n\
        planarbend: none.pc: not complete (io): No such file or directory\n";
    same!(&rt, ran.err.as_slice(), told.as_bytes());
    let ran = run(&rt, "count --vertices 2 cut.pc all.pc none.pc --by m");
    expect_report(&rt, &ran, b"m=1 graphs=2\ntotal graphs=2\n", 3);
    same!(&rt, ran.err.as_slice(), told.as_bytes());
}

/// A console of a program whose output is a terminal.
#[derive(Clone, Copy)]
struct OnTerminal;

impl Console for OnTerminal {
    ghost has_terminal = { λ _. true };

    fn out_is_terminal(&self) -> bool {
        true
    }

    fn is_terminal(&self) -> bool {
        false
    }

    fn time(&self) -> u64 {
        0
    }

    fn show(&self, _text: &[u8]) {}
}

/// No records are written to a terminal; a table is.
#[test]
fn writes_no_records_to_a_terminal(rt: HostRuntime) {
    make_all(&rt);
    let ran = run_on(&rt, "pick all.pc", None, &OnTerminal);
    expect_report(&rt, &ran, b"", 2);
    let told =
        "planarbend: pick writes bytes, not text: redirect standard output to a file or a pipe\n";
    same!(&rt, ran.err.as_slice(), told.as_bytes());
    let ran = run_on(&rt, "count --by n --vertices 2 all.pc", None, &OnTerminal);
    expect_report(&rt, &ran, b"n=2 graphs=1\ntotal graphs=1\n", 0);
}
