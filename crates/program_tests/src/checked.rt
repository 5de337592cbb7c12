//! Runs of `check` on files that the tests write. The verdicts are found by hand, as `docs/CHECK.md` defines them.

use crate::shared::{
    Row, check_failed_write, check_rows, check_said, expect_report, make_file, run, words_of,
};
use crate::stream_options::check_on;
use std::process::Abort;
use std::rt::Files;
use std::sync::Wait;
use std::thread::Threads;
use test_tools::records::{EDGE, HEADER, TRIANGLE};
use test_tools::same;

/// The edge in one piece, and the triangle with one corner on the edge from vertex 2 to vertex 3.
const GOOD: &[u8] = b"{\"points\":{\"vertices\":[[0,0],[5,0]],\"corners\":[[]]}}\n\
    {\"points\":{\"vertices\":[[0,1],[1,1],[0,0]],\"corners\":[[],[],[[1,0]]]}}\n";

const GOOD_REPORT: &str = "graph 1 ok bends=0 fewest=0\n\
    graph 2 ok bends=1 fewest=1\n\
    end complete graphs=2 surplus=0\n";

const GOOD_JSON: &str = "{\"graph\":1,\"ok\":true,\"bends\":0,\"fewest\":0}\n\
    {\"graph\":2,\"ok\":true,\"bends\":1,\"fewest\":1}\n\
    {\"end\":\"complete\",\"graphs\":2,\"surplus\":0}\n";

/// The edge with two bends too many, and the triangle without its corner.
const OTHER: &[u8] = b"{\"points\":{\"vertices\":[[0,0],[2,1]],\"corners\":[[[1,0],[1,1]]]}}\n\
    {\"points\":{\"vertices\":[[0,1],[1,1],[0,0]],\"corners\":[[],[],[]]}}\n";

const OTHER_REPORT: &str = "graph 1 ok bends=2 fewest=0\n\
    graph 2 drawn=axes edge=2 part=0\n\
    end complete graphs=2 surplus=0\n";

const OTHER_JSON: &str = "{\"graph\":1,\"ok\":true,\"bends\":2,\"fewest\":0}\n\
    {\"graph\":2,\"ok\":false,\"fault\":\"drawn=axes\",\"edge\":2,\"part\":0}\n\
    {\"end\":\"complete\",\"graphs\":2,\"surplus\":0}\n";

const ONE_REPORT: &str = "graph 1 ok bends=2 fewest=0\nend complete graphs=1 surplus=1\n";

const MISSING_LINES: &str = "graph 1 line=missing\n\
    graph 2 line=missing\n\
    end complete graphs=2 surplus=0\n";

const UNREAD_LINES: &str = "graph 1 line=unread\n\
    graph 2 line=unread\n\
    end complete graphs=2 surplus=0\n";

const UNREAD_GRAPHS: &str = "end io graphs=0 surplus=0\n";

/// The files of these tests.
const FILES: [(&str, &[&[u8]]); 9] = [
    ("check.pc", &[HEADER, EDGE, TRIANGLE]),
    ("check_cut.pc", &[HEADER, EDGE, &[3, 2]]),
    ("check_one.pc", &[HEADER, EDGE]),
    ("check_lone.pc", &[HEADER, &[1, 0]]),
    ("good.jsonl", &[GOOD]),
    (
        "good_end.jsonl",
        &[GOOD, b"{\"end\":\"complete\",\"file\":1,\"graphs\":2}\n"],
    ),
    ("other.jsonl", &[OTHER]),
    ("text.jsonl", &[b"not JSON\n{\"points\":[]}"]),
    ("none.jsonl", &[]),
];

/// Makes all files that are checked.
fn make_files<R: Files + AllocGlobal + Abort>(rt: &R) {
    for (name, parts) in FILES {
        make_file(rt, name, parts);
    }
}

const VERDICTS: [Row; 16] = [
    ("check check.pc good.jsonl", GOOD_REPORT, 0),
    ("check check.pc good_end.jsonl", GOOD_REPORT, 0),
    ("check --faces check.pc good.jsonl", GOOD_REPORT, 0),
    ("check --json check.pc good.jsonl", GOOD_JSON, 0),
    ("check check.pc --json good.jsonl --faces", GOOD_JSON, 0),
    ("check -- check.pc good.jsonl", GOOD_REPORT, 0),
    ("check check.pc -- good.jsonl", GOOD_REPORT, 0),
    ("check check.pc other.jsonl", OTHER_REPORT, 4),
    ("check --json check.pc other.jsonl", OTHER_JSON, 4),
    ("check check_one.pc other.jsonl", ONE_REPORT, 4),
    ("check check.pc none.jsonl", MISSING_LINES, 4),
    (
        "check check.pc text.jsonl",
        "graph 1 line=malformed\ngraph 2 line=points\nend complete graphs=2 surplus=0\n",
        4,
    ),
    (
        "check check_lone.pc none.jsonl",
        "graph 1 refused edgeless\nend complete graphs=1 surplus=0\n",
        4,
    ),
    (
        "check --json check_lone.pc none.jsonl",
        "{\"graph\":1,\"ok\":false,\"fault\":\"refused edgeless\"}\n\
        {\"end\":\"complete\",\"graphs\":1,\"surplus\":0}\n",
        4,
    ),
    (
        "check check_cut.pc none.jsonl",
        "graph 1 line=missing\nend truncated graphs=1 surplus=0\n",
        3,
    ),
    (
        "check --json check_cut.pc none.jsonl",
        "{\"graph\":1,\"ok\":false,\"fault\":\"line=missing\"}\n\
        {\"end\":\"truncated\",\"graphs\":1,\"surplus\":0}\n",
        3,
    ),
];

/// The command `check` gives the verdict on each line, and its report and status.
#[test]
fn judges_each_line(rt: HostRuntime) {
    make_files(&rt);
    check_rows(&rt, &VERDICTS);
}

/// A row, and what is written to standard error.
type Unread<'a> = (Row<'a>, &'a str);

const UNREAD: [Unread; 6] = [
    (
        ("check gone.pc none.jsonl", UNREAD_GRAPHS, 3),
        "planarbend: gone.pc: No such file or directory\n",
    ),
    (
        ("check check.pc gone.jsonl", UNREAD_LINES, 3),
        "planarbend: gone.jsonl: No such file or directory\n",
    ),
    (
        ("check gone.pc gone.jsonl", UNREAD_GRAPHS, 3),
        "planarbend: gone.pc: No such file or directory\n\
        planarbend: gone.jsonl: No such file or directory\n",
    ),
    // A standard input that is closed.
    (
        ("check - none.jsonl", UNREAD_GRAPHS, 3),
        "planarbend: -: Bad file descriptor\n",
    ),
    (
        ("check check.pc -", UNREAD_LINES, 3),
        "planarbend: -: Bad file descriptor\n",
    ),
    (
        (
            "check good.jsonl none.jsonl",
            "end header graphs=0 surplus=0\n",
            3,
        ),
        "planarbend: good.jsonl: text, not planar_code\n",
    ),
];

/// Runs a command line, and checks all that it writes.
fn check_unread<R: Files + AllocGlobal + Threads + Wait + Sync + Abort>(rt: &R, unread: Unread)
where
    R::File: Send,
    R::Dir: Send,
{
    let ((line, report, status), said) = unread;
    let ran = run(rt, line);
    expect_report(rt, &ran, report.as_bytes(), status);
    same!(rt, ran.err.as_slice(), said.as_bytes());
}

/// A file that cannot be read is named on standard error.
#[test]
fn names_what_cannot_be_read(rt: HostRuntime) {
    make_files(&rt);
    for unread in UNREAD {
        check_unread(&rt, unread);
    }
}

const GRAPHS_FROM_INPUT: [Row; 3] = [
    ("check - good.jsonl", GOOD_REPORT, 0),
    ("check -- - other.jsonl", OTHER_REPORT, 4),
    ("check --json - good.jsonl", GOOD_JSON, 0),
];

const LINES_FROM_INPUT: [Row; 3] = [
    ("check check.pc -", GOOD_REPORT, 0),
    ("check -- check.pc -", GOOD_REPORT, 0),
    ("check check.pc - --json", GOOD_JSON, 0),
];

/// Either the graphs or the lines can come from standard input.
#[test]
fn reads_either_file_from_standard_input(rt: HostRuntime) {
    make_files(&rt);
    check_on(&rt, &[HEADER, EDGE, TRIANGLE], &GRAPHS_FROM_INPUT);
    check_on(&rt, &[GOOD], &LINES_FROM_INPUT);
}

const TWICE: &str = "error: '-' (standard input) may be given only once\n";

/// Command lines that are refused, and a part of the message for each.
const REFUSED: [(&str, &str); 14] = [
    ("check", "were not provided:\n  <GRAPHS>\n  <LINES>\n"),
    ("check a", "were not provided:\n  <LINES>\n"),
    ("check --json --faces a", "were not provided:\n  <LINES>\n"),
    ("check a b c", "unexpected argument 'c' found\n"),
    ("check a b -- c", "unexpected argument 'c' found\n"),
    ("check - -", TWICE),
    ("check -- - -", TWICE),
    ("check --lanes 2 a b", "unexpected argument '--lanes' found"),
    (
        "check --waiting=1 a b",
        "unexpected argument '--waiting' found",
    ),
    (
        "check a b --outer best",
        "unexpected argument '--outer' found",
    ),
    (
        "check --drawing quick a b",
        "unexpected argument '--drawing' found",
    ),
    (
        "check a b --progress",
        "unexpected argument '--progress' found",
    ),
    ("layout --faces a", "unexpected argument '--faces' found"),
    ("frames --faces a", "unexpected argument '--faces' found"),
];

const EXAMPLE: &str =
    "  planarbend layout --json examples/two.pc | planarbend check examples/two.pc -\n";

/// Ways to ask for help, and a part of its text.
const HELP: [(&str, &str); 4] = [
    ("check --help", EXAMPLE),
    ("check -h a b", EXAMPLE),
    ("help check", EXAMPLE),
    ("help", "  check   Check drawings"),
];

/// Invalid command lines of `check` are refused with status 2, and its help is shown.
#[test]
fn refuses_other_command_lines(rt: HostRuntime) {
    check_said(&rt, &REFUSED, 2);
    check_said(&rt, &HELP, 0);
}

/// A failed write of the report leaves a beginning of it, and the fault is printed.
#[test]
fn names_a_failed_write(rt: HostRuntime) {
    make_files(&rt);
    let words = words_of(rt.alloc(), "check check.pc good.jsonl").expect(&rt, "memory");
    for room in [0, 10, GOOD_REPORT.len() - 1] {
        check_failed_write(&rt, words.as_slice(), &GOOD_REPORT.as_bytes()[..room]);
    }
}
