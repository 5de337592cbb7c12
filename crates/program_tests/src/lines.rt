//! The requests of command lines, argument by argument.

use crate::layouts::{REPORT, UNREAD};
use crate::shared::{Row, check_failed_write, check_rows, check_said, make_file, words_of};
use test_tools::records::{EDGE, HEADER, TRIANGLE};

const VERSION: &str = "planarbend 2.0.0\ntoolchain rattle-kit-13 logic dac8208d650f15bf\n";

/// The option `--version` prints the version if it comes first.
#[test]
fn prints_the_version(rt: HostRuntime) {
    check_rows(&rt, &[("--version", VERSION, 0)]);
    check_rows(&rt, &[("--version layout missing.pc", VERSION, 0)]);
    let refused = "unexpected argument '--version' found";
    check_said(&rt, &[("layout --version missing.pc", refused)], 2);
    check_said(&rt, &[("--help", "--version")], 0);
}

/// An output with too little room takes a prefix of the version.
#[test]
fn names_a_failed_write_of_the_version(rt: HostRuntime) {
    let words = words_of(rt.alloc(), "--version").expect(&rt, "memory");
    for room in [0, 10, VERSION.len() - 1] {
        check_failed_write(&rt, words.as_slice(), &VERSION.as_bytes()[..room]);
    }
}

/// The report of a triangle and an edge in two files.
const TWO: &str = "file 1\n\
    graph 1 ok n=3 m=3 f=2 bends=1 drawn=yes\n\
    end complete graphs=1\n\
    file 2\n\
    graph 1 ok n=2 m=1 f=1 bends=0 drawn=yes\n\
    end complete graphs=1\n";

/// Files keep their order among options, wherever these are, and the values of options are files elsewhere.
const AMONG_OPTIONS: [Row; 7] = [
    ("layout best edge.pc", TWO, 0),
    ("layout --outer=first best --lanes 2 edge.pc", TWO, 0),
    ("layout best --lanes=1 --outer best edge.pc", TWO, 0),
    ("layout best --waiting 1 edge.pc --lanes=2", TWO, 0),
    ("layout best -- edge.pc", TWO, 0),
    ("layout short", REPORT, 0),
    ("layout best --waiting=65536 --lanes 8 edge.pc", TWO, 0),
];

const TWICE: &str = "cannot be used multiple times";

const NEEDS_JSON: &str = "error: --drawing needs --json: the report has no drawings\n";

const NO_FILE: &str = "were not provided:\n  <FILE>...\n";

const REFUSED: [(&str, &str); 5] = [
    ("layout best --waiting 65536 edge.pc --waiting=1", TWICE),
    ("layout --drawing=short --drawing=quick short", TWICE),
    ("layout --drawing short", NO_FILE),
    ("layout --drawing quick short", NEEDS_JSON),
    ("layout short --drawing=short", NEEDS_JSON),
];

/// Options may stand between files, and their values are not taken as files.
#[test]
fn takes_options_out_of_the_files(rt: HostRuntime) {
    make_file(&rt, "edge.pc", &[HEADER, EDGE]);
    make_file(&rt, "best", &[HEADER, TRIANGLE]);
    make_file(&rt, "short", &[HEADER, EDGE]);
    check_rows(&rt, &AMONG_OPTIONS);
    check_said(&rt, &REFUSED, 2);
}

/// After `--` all arguments are files, and `help` is one after `layout`.
const BEHIND_DASHES: [Row; 10] = [
    ("layout -- --json", UNREAD, 3),
    ("layout -- --help", UNREAD, 3),
    ("layout -- -h", UNREAD, 3),
    ("layout -- --version", UNREAD, 3),
    ("layout -- --outer=best", UNREAD, 3),
    ("layout -- --drawing=short", UNREAD, 3),
    ("layout -- --", UNREAD, 3),
    ("layout help", UNREAD, 3),
    ("frames -- --help", "end io records=0\n", 3),
    (
        "layout --json -- --json",
        "{\"end\":\"io\",\"file\":1,\"graphs\":0}\n",
        3,
    ),
];

/// All arguments after `--` are files.
#[test]
fn takes_words_behind_dashes_as_files(rt: HostRuntime) {
    check_rows(&rt, &BEHIND_DASHES);
}
