//! Runs of `layout` on files that the tests write. The bytes and the texts come from the description of
//! the format and of the report.

use crate::shared::{
    Case, NoConsole, Ran, Row, check_failed_write, check_rows, check_said, check_wants,
    expect_report, holds, make_file, run, run_into, words_for,
};
use std::alloc::{AllocError, Global};
use std::fs;
use std::process::Abort;
use std::rt::Files;
use std::sync::Wait;
use std::thread::Threads;
use test_tools::records::{
    CAPPED_CUBE, EDGE, HEADER, LONGER_CUBE, OCTAHEDRON, STAR, TETRAHEDRON, TETRAHEDRON_ON_A_TORUS,
    TRIANGLE, longest_cycle,
};
use test_tools::same;

/// The report of an edge and a triangle in two files.
const TWICE: &str = "file 1\n\
    graph 1 ok n=2 m=1 f=1 bends=0 drawn=yes\n\
    graph 2 ok n=3 m=3 f=2 bends=1 drawn=yes\n\
    end complete graphs=2\n\
    file 2\n\
    graph 1 ok n=2 m=1 f=1 bends=0 drawn=yes\n\
    graph 2 ok n=3 m=3 f=2 bends=1 drawn=yes\n\
    end complete graphs=2\n";

/// `layout` under either choice of the outer face, which changes nothing in most reports.
const BY_CHOICE: [&str; 2] = ["layout --outer first body", "layout --outer best body"];

/// Runs `layout` on a file of the header and this body, and checks the report.
fn check_body<R: Files + AllocGlobal + Threads + Wait + Sync + Abort>(
    rt: &R,
    body: &[u8],
    report: &[u8],
    status: u8,
)
where
    R::File: Send,
    R::Dir: Send,
{
    make_file(rt, "body", &[HEADER, body]);
    for line in BY_CHOICE {
        expect_report(rt, &run(rt, line), report, status);
    }
}

/// Runs `layout` on a file of one record, and checks the rest of the record's line after the number.
fn check_record<R: Files + AllocGlobal + Threads + Wait + Sync + Abort>(
    rt: &R,
    record: &[u8],
    said: &str,
)
where
    R::File: Send,
    R::Dir: Send,
{
    let (before, behind) = (b"file 1\ngraph 1 ", b"\nend complete graphs=1\n");
    let parts = [before.as_slice(), said.as_bytes(), behind];
    let report = parts.concat(rt.alloc()).expect(rt, "memory");
    check_body(rt, record, report.as_slice(), 0);
}

/// Known graphs with their fewest bends, and graphs that break a rule, which does not change the status.
const RECORDS: [(&[u8], &str); 12] = [
    (TRIANGLE, "ok n=3 m=3 f=2 bends=1 drawn=yes"),
    (TETRAHEDRON, "ok n=4 m=6 f=4 bends=4 drawn=yes"),
    (OCTAHEDRON, "ok n=6 m=12 f=8 bends=12 drawn=yes"),
    (STAR, "ok n=5 m=4 f=1 bends=0 drawn=yes"),
    (&[2, 0, 0], "refused edgeless"),
    (TETRAHEDRON_ON_A_TORUS, "refused genus"),
    (
        &[6, 2, 3, 4, 5, 6, 0, 1, 0, 1, 0, 1, 0, 1, 0, 1, 0],
        "refused degree",
    ),
    (&[2, 3, 0, 1, 0], "refused range"),
    (&[2, 2, 0, 0], "refused asymmetric"),
    (&[2, 1, 0, 0], "refused loop"),
    (&[2, 2, 2, 0, 1, 1, 0], "refused multi"),
    (&[4, 2, 0, 1, 0, 4, 0, 3, 0], "refused disconnected"),
];

/// Bodies of files with their reports and status: a graph after a refused one, and files that go on after their records
/// as no file may.
const BODIES: [(&[u8], &str, u8); 3] = [
    (
        &[1, 0, 2, 2, 0, 1, 0],
        "file 1\ngraph 1 refused edgeless\ngraph 2 ok n=2 m=1 f=1 bends=0 drawn=yes\n\
        end complete graphs=2\n",
        0,
    ),
    (
        &[2, 2, 0, 1, 0, 0],
        "file 1\ngraph 1 ok n=2 m=1 f=1 bends=0 drawn=yes\nend large graphs=1\n",
        3,
    ),
    (
        &[2, 2, 0, 1, 0, 2, 2, 0, 1],
        "file 1\ngraph 1 ok n=2 m=1 f=1 bends=0 drawn=yes\nend truncated graphs=1\n",
        3,
    ),
];

/// The report has a line for each graph, and one for the end of the file.
#[test]
fn reports_each_graph_and_the_ending(rt: HostRuntime) {
    for (record, said) in RECORDS {
        check_record(&rt, record, said);
    }
    for (body, report, status) in BODIES {
        check_body(&rt, body, report.as_bytes(), status);
    }
}

const FIRST: &str = "file 1\n\
    graph 1 ok n=9 m=16 f=9 bends=10 drawn=yes\n\
    graph 2 ok n=10 m=17 f=9 bends=9 drawn=yes\n\
    end complete graphs=2\n";

const BEST: &str = "file 1\n\
    graph 1 ok n=9 m=16 f=9 bends=8 drawn=yes\n\
    graph 2 ok n=10 m=17 f=9 bends=8 drawn=yes\n\
    end complete graphs=2\n";

/// A list that is too long is marked, and a file cut in it is marked as cut.
#[test]
fn marks_lists_that_are_too_long(rt: HostRuntime) {
    let mut long = [1; 256];
    long[0] = 255;
    check_body(&rt, &long[..255], b"file 1\nend truncated graphs=0\n", 3);
    check_body(&rt, &long, b"file 1\nend oversize graphs=0\n", 3);
}

/// A cycle of 255 vertices is drawn without bends.
#[test]
fn reports_a_cycle_of_most_vertices(rt: HostRuntime) {
    let body = longest_cycle(rt.alloc()).expect(&rt, "memory");
    check_record(&rt, body.as_slice(), "ok n=255 m=255 f=2 bends=0 drawn=yes");
}

/// The report of a file that could not be read.
pub const UNREAD: &str = "file 1\nend io graphs=0\n";

/// A folder and a missing file have the mark `io`.
#[test]
fn marks_files_that_cannot_be_read(rt: HostRuntime) {
    fs::create_dir_all(&rt, "layout_folder").expect(&rt, "a folder");
    check_rows(&rt, &[("layout layout_folder", UNREAD, 3)]);
    check_rows(&rt, &[("layout missing.pc", UNREAD, 3)]);
}

const MISSING_LAST: &str = "file 1\n\
    graph 1 ok n=2 m=1 f=1 bends=0 drawn=yes\n\
    graph 2 ok n=3 m=3 f=2 bends=1 drawn=yes\n\
    end complete graphs=2\n\
    file 2\n\
    end io graphs=0\n";

const MISSING_FIRST: &str = "file 1\n\
    end io graphs=0\n\
    file 2\n\
    graph 1 ok n=2 m=1 f=1 bends=0 drawn=yes\n\
    graph 2 ok n=3 m=3 f=2 bends=1 drawn=yes\n\
    end complete graphs=2\n";

const APART: &str = "file 1\n\
    graph 1 ok n=3 m=3 f=2 bends=1 drawn=yes\n\
    graph 2 ok n=3 m=3 f=2 bends=1 drawn=yes\n\
    end complete graphs=2\n\
    file 2\n\
    graph 1 ok n=2 m=1 f=1 bends=0 drawn=yes\n\
    end truncated graphs=1\n\
    file 3\n\
    end complete graphs=0\n";

/// The JSON lines of a file of one vertex.
pub const EDGELESS: &str = "{\"file\":1,\"graph\":1,\"rule\":\"edgeless\",\"status\":\"refused\"}\n\
    {\"end\":\"complete\",\"file\":1,\"graphs\":1}\n";

const TORUS: &str = "{\"file\":1,\"graph\":1,\"rule\":\"genus\",\"status\":\"refused\"}\n\
    {\"end\":\"complete\",\"file\":1,\"graphs\":1}\n";

const EMPTY: &str = "{\"end\":\"header\",\"file\":1,\"graphs\":0}\n";

/// The report of a file that ends in its header, or after it.
const NO_HEADER: &str = "file 1\nend header graphs=0\n";

const NO_RECORD: &str = "file 1\nend complete graphs=0\n";

/// The record of a graph that is not planar as embedded.
/// Files and their parts.
const FILES: [(&str, &[&[u8]]); 9] = [
    ("two.pc", &[HEADER, EDGE, TRIANGLE]),
    ("cubes.pc", &[HEADER, CAPPED_CUBE, LONGER_CUBE]),
    ("triangles.pc", &[HEADER, TRIANGLE, TRIANGLE]),
    ("cut.pc", &[HEADER, EDGE, &[2, 2, 0, 1]]),
    ("empty.pc", &[]),
    ("front.pc", &[b">>planar_code<"]),
    ("header.pc", &[HEADER]),
    ("edgeless.pc", &[HEADER, &[1, 0]]),
    ("torus.pc", &[HEADER, TETRAHEDRON_ON_A_TORUS]),
];

const REPORTS: [Row; 24] = [
    ("layout two.pc two.pc", TWICE, 0),
    // Graphs that need fewer bends with an outer face other than the widest one.
    ("layout cubes.pc", FIRST, 0),
    ("layout --outer first cubes.pc", FIRST, 0),
    ("layout --outer best cubes.pc", BEST, 0),
    ("layout cubes.pc --lanes=2 --outer=best", BEST, 0),
    // Of two files, one of which is missing, the other is laid out, or has its end if it is only the header.
    ("layout --lanes 1 two.pc missing.pc", MISSING_LAST, 3),
    ("layout --lanes 2 two.pc missing.pc", MISSING_LAST, 3),
    ("layout --lanes 1 missing.pc two.pc", MISSING_FIRST, 3),
    ("layout --lanes 2 missing.pc two.pc", MISSING_FIRST, 3),
    (
        "layout missing.pc header.pc",
        "file 1\nend io graphs=0\nfile 2\nend complete graphs=0\n",
        3,
    ),
    // Files without records end by their header, under either choice of the outer face.
    ("layout --outer=first empty.pc", NO_HEADER, 3),
    ("layout --outer=best empty.pc", NO_HEADER, 3),
    ("layout --outer=first front.pc", NO_HEADER, 3),
    ("layout --outer=best front.pc", NO_HEADER, 3),
    ("layout --outer=first header.pc", NO_RECORD, 0),
    ("layout --outer=best header.pc", NO_RECORD, 0),
    // Files that differ are reported in the order in which they are named, however many lanes there are.
    ("layout --lanes 1 triangles.pc cut.pc header.pc", APART, 3),
    ("layout --lanes 2 triangles.pc cut.pc header.pc", APART, 3),
    ("layout --lanes 3 triangles.pc cut.pc header.pc", APART, 3),
    ("layout --lanes 4 triangles.pc cut.pc header.pc", APART, 3),
    ("layout --lanes 8 triangles.pc cut.pc header.pc", APART, 3),
    // The JSON lines of files in which no graph is laid out.
    ("layout --json empty.pc", EMPTY, 3),
    ("layout --json edgeless.pc", EDGELESS, 0),
    ("layout torus.pc --json", TORUS, 0),
];

/// Files are reported one by one, several at once, and if some are missing.
#[test]
fn reports_files(rt: HostRuntime) {
    for (name, parts) in FILES {
        make_file(&rt, name, parts);
    }
    check_rows(&rt, &REPORTS);
}

/// The JSON line of a single edge has its parts before and after its points and prices.
#[test]
fn shows_an_edge_as_json(rt: HostRuntime) {
    make_file(&rt, "json_edge.pc", &[HEADER, EDGE]);
    let ran = run(&rt, "layout --json --lanes 2 json_edge.pc");
    let begins =
        b"{\"angles\":[4,4],\"bends\":0,\"drawn\":\"yes\",\"f\":1,\"file\":1,\"graph\":1,\"m\":1,\"n\":2,\"points\":{";
    let ends =
        b"\"status\":\"ok\",\"turns\":[\"\",\"\"]}\n{\"end\":\"complete\",\"file\":1,\"graphs\":1}\n";
    let text = ran.out.as_slice();
    same!(
        &rt,
        (text.starts_with(begins), text.ends_with(ends)),
        (true, true),
    );
    same!(&rt, (ran.status, ran.err.len()), (0, 0));
}

/// A path of ten vertices.
const PATH: &[u8] = &[
    10, 2, 0, 1, 3, 0, 2, 4, 0, 3, 5, 0, 4, 6, 0, 5, 7, 0, 6, 8, 0, 7, 9, 0, 8, 10, 0, 9, 0,
];

/// The beginning of the JSON line of that path, if no vertex turns.
const STRAIGHT: &[u8] =
    b"{\"angles\":[2,4,2,2,2,2,2,2,2,2,2,2,2,2,2,2,4,2],\"bends\":0,\"drawn\":\"yes\",\"f\":1,\"file\":1,";

/// A run's text is that of the path, drawn in one line or not.
fn expect_path(rt: &impl Abort, ran: &Ran<Vec<u8>>, is_straight: bool) {
    let text = ran.out.as_slice();
    same!(rt, holds(text, b"],\"bends\":0,\"drawn\":\"yes\","), true);
    same!(rt, text.starts_with(STRAIGHT), is_straight);
    same!(rt, (ran.status, ran.err.len()), (0, 0));
}

const PATHS: [(&str, bool); 4] = [
    ("layout --json path.pc", true),
    ("layout --drawing=short --json path.pc", true),
    ("layout --drawing=quick --json path.pc", false),
    ("layout --json path.pc --drawing quick", false),
];

/// A path is drawn in one line if that is short, and the quick drawing winds it up.
#[test]
fn draws_a_path_as_asked(rt: HostRuntime) {
    make_file(&rt, "path.pc", &[HEADER, PATH]);
    for (line, is_straight) in PATHS {
        expect_path(&rt, &run(&rt, line), is_straight);
    }
}

/// Command lines that are refused, and a part of the message for each.
const REFUSED: [(&str, &str); 16] = [
    ("layout", "were not provided:\n  <FILE>...\n"),
    ("layout --lanes x a", "planarbend: lanes must be 1 to 8\n"),
    (
        "layout --outer widest a",
        "invalid value 'widest' for '--outer <CHOICE>'\n  [possible values: first, best]\n",
    ),
    (
        "frames --outer best a",
        "unexpected argument '--outer' found",
    ),
    (
        "layout --drawing x a",
        "invalid value 'x' for '--drawing <KIND>'\n  [possible values: short, quick]\n",
    ),
    ("frames --json a", "unexpected argument '--json' found"),
    ("layout --lanes 0 a", "planarbend: lanes must be 1 to 8\n"),
    ("layout --lanes 9 a", "planarbend: lanes must be 1 to 8\n"),
    ("layout --lanes -1 a", "planarbend: lanes must be 1 to 8\n"),
    (
        "layout a --lanes=4294967296",
        "planarbend: lanes must be 1 to 8\n",
    ),
    ("layout --waiting 0 a", BAD_WAITING),
    ("layout --waiting=65537 a", BAD_WAITING),
    ("layout --waiting x a", BAD_WAITING),
    ("layout a --waiting -1", BAD_WAITING),
    ("layout --waiting 1.5 a", BAD_WAITING),
    ("layout --drawing short a", "error: --drawing needs --json"),
];

const BAD_WAITING: &str = "planarbend: waiting must be 1 to 65536\n";

/// A command line with this many files.
fn line_of(alloc: Global, files: u32) -> Result<String, AllocError> {
    let mut line = String::from_str(alloc, "layout")?;
    for _ in 0..files {
        line.push_str(" a")?;
    }
    Ok(line)
}

/// Invalid command lines of `layout` are refused with status 2, and its help shows a pipe.
#[test]
fn refuses_other_command_lines(rt: HostRuntime) {
    check_said(&rt, &REFUSED, 2);
    let line = line_of(rt.alloc(), 257).expect(&rt, "memory");
    let many = "planarbend: more than 256 files\n";
    check_said(&rt, &[(line.as_str(), many)], 2);
    let pipe = "  geng -c -D4 8 | planarg -p | planarbend layout -\n";
    check_said(&rt, &[("layout --help", pipe)], 0);
}

/// The report of an edge.
pub const REPORT: &str = "file 1\n\
    graph 1 ok n=2 m=1 f=1 bends=0 drawn=yes\n\
    end complete graphs=1\n";

/// The report of a file of one edge.
const ONE_EDGE: Case = Case {
    line: "layout case.pc",
    file: "case.pc",
    parts: &[HEADER, EDGE],
    report: REPORT,
    wants: &[
        b"file 1\nend memory graphs=0\n",
        b"file 1\ngraph 1 memory\nend complete graphs=1\n",
    ],
    may_begin: false,
};

/// A run whose output refuses each write ends with status 1.
/// This output is a file that was opened for reading.
#[test]
fn ends_where_the_output_refuses(rt: HostRuntime) {
    let words = words_for(&rt, &ONE_EDGE).expect(&rt, "a file");
    let out = fs::open(&rt, "case.pc").expect(&rt, "a file");
    let err = fs::open(&rt, "case.pc").expect(&rt, "a file");
    let ran = run_into(&rt, words.as_slice(), None, &NoConsole, out, err);
    same!(&rt, ran.status, 1);
}

/// A failed write of the report leaves a beginning of it, and the fault is printed.
#[test]
fn names_a_failed_write(rt: HostRuntime) {
    let words = words_for(&rt, &ONE_EDGE).expect(&rt, "a file");
    for room in [0, 10, REPORT.len() - 1] {
        check_failed_write(&rt, words.as_slice(), &REPORT.as_bytes()[..room]);
    }
}

/// With each allocation refused in turn, `layout` writes its report or says what ran out of memory.
#[test]
fn names_want_of_memory(rt: HostRuntime) {
    check_wants(&rt, &ONE_EDGE);
}

/// The JSON lines of a file of one vertex, which are allocated.
const ONE_VERTEX: Case = Case {
    line: "layout --json json_case.pc",
    file: "json_case.pc",
    parts: &[HEADER, &[1, 0]],
    report: EDGELESS,
    wants: &[
        b"{\"end\":\"memory\",\"file\":1,\"graphs\":0}\n",
        b"{\"file\":1,\"graph\":1,\"status\":\"memory\"}\n{\"end\":\"complete\",\"file\":1,\"graphs\":1}\n",
    ],
    may_begin: true,
};

/// With each allocation refused in turn, `layout --json` writes its lines or says what ran out of memory.
#[test]
fn json_names_want_of_memory(rt: HostRuntime) {
    check_wants(&rt, &ONE_VERTEX);
}
