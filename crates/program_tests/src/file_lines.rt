//! The lines on standard error that say what is wrong with a file, each compared whole. Hints at formats come from the
//! descriptions of the formats, and reasons from the system.

use crate::shared::{make_file, run};
use std::fs;
use std::process::Abort;
use std::rt::Files;
use std::sync::Wait;
use std::thread::Threads;
use test_tools::records::{EDGE, HEADER, TRIANGLE};
use test_tools::same;

/// A command line, and all that it writes to standard error.
type Line<'a> = (&'a str, &'a str);

/// Runs command lines with this status, and checks what they write to standard error.
fn check_lines<R: Files + AllocGlobal + Threads + Wait + Sync + Abort>(
    rt: &R,
    lines: &[Line],
    status: u8,
)
where
    R::File: Send,
    R::Dir: Send,
{
    for (line, said) in lines {
        let ran = run(rt, line);
        same!(rt, ran.err.as_slice(), said.as_bytes());
        same!(rt, ran.status, status);
    }
}

const MISSING: &str = "planarbend: gone.pc: No such file or directory\n";

const REASONS: [Line; 7] = [
    ("layout gone.pc", MISSING),
    ("layout --json gone.pc", MISSING),
    ("frames gone.pc", MISSING),
    (
        "layout lines_folder",
        "planarbend: lines_folder: Is a directory\n",
    ),
    (
        "frames lines_folder",
        "planarbend: lines_folder: Is a directory\n",
    ),
    (
        "frames good.pc/x",
        "planarbend: good.pc/x: Not a directory\n",
    ),
    // A standard input that is closed.
    ("layout -", "planarbend: -: Bad file descriptor\n"),
];

const IN_ORDER: &str = "planarbend: b: No such file or directory\n\
    planarbend: lines_folder: Is a directory\n\
    planarbend: a: No such file or directory\n\
    planarbend: b: No such file or directory\n\
    planarbend: short.pc: empty file\n";

/// One line for each file that fails, in the order of the files, however many lanes there are.
const SEVERAL: [Line; 2] = [
    ("layout b good.pc lines_folder a b short.pc", IN_ORDER),
    (
        "layout --lanes 8 b good.pc lines_folder a good.pc b short.pc",
        IN_ORDER,
    ),
];

/// Each file that cannot be read has a line on standard error with the system's reason.
#[test]
fn names_files_that_cannot_be_read(rt: HostRuntime) {
    fs::create_dir_all(&rt, "lines_folder").expect(&rt, "a folder");
    make_file(&rt, "good.pc", &[HEADER, EDGE]);
    make_file(&rt, "short.pc", &[]);
    check_lines(&rt, &REASONS, 3);
    check_lines(&rt, &SEVERAL, 3);
}

/// Parts of a file, and the hint for it.
type Kind<'a> = (&'a [&'a [u8]], &'a str);

const TWO_BYTES: &str = "planarbend: kind: two-byte form: at most 255 vertices here\n";

const GRAPH6: &str = "planarbend: kind: graph6: use planarg -p\n";

const SPARSE6: &str = "planarbend: kind: sparse6: use planarg -p\n";

const TEXT: &str = "planarbend: kind: text, not planar_code\n";

const LINE_END: &str = "planarbend: kind: a line end follows the header: remove it\n";

const NO_HEADER: &str =
    "planarbend: kind: not planar_code: the header >>planar_code<< is missing\n";

const KINDS: [Kind; 24] = [
    (
        &[b"\x1f\x8b\x08\0"],
        "planarbend: kind: gzip-compressed: use zcat\n",
    ),
    (
        &[b"\xfd7zXZ\0\0"],
        "planarbend: kind: xz-compressed: use xzcat\n",
    ),
    (
        &[b"\x28\xb5\x2f\xfd\x04"],
        "planarbend: kind: zstd-compressed: use zstdcat\n",
    ),
    (
        &[b"BZh91AY"],
        "planarbend: kind: bzip2-compressed: use bzcat\n",
    ),
    (
        &[b">>edge_code<<\x0a"],
        "planarbend: kind: edge_code, not planar_code\n",
    ),
    (&[b">>planar_code le<<"], TWO_BYTES),
    (&[b">>planar_code be<<\0\x03"], TWO_BYTES),
    (&[HEADER, b"\0\x01\x2c\0\x02"], TWO_BYTES),
    (&[HEADER, EDGE, b"\0\x01"], TWO_BYTES),
    // The complete graph on four vertices, the path on five, and the empty graph on 62.
    (&[b"C~\n"], GRAPH6),
    (&[b"DhC\r\n"], GRAPH6),
    (&[b">>graph6<<C~\n"], GRAPH6),
    (&[b"}", &[63; 200]], GRAPH6),
    (&[b":Cca\n"], SPARSE6),
    (&[b">>sparse6<<:Cca\n"], SPARSE6),
    (&[], "planarbend: kind: empty file\n"),
    (
        &[b">>planar_c"],
        "planarbend: kind: the header >>planar_code<< is cut short\n",
    ),
    (&[b"graph g { a -- b }\n"], TEXT),
    (&[b"Hello\n"], TEXT),
    (&[b"1 2\n2 3\n"], TEXT),
    (&[&[3, 2, 3, 0, 3, 1, 0, 1, 2, 0]], NO_HEADER),
    (&[HEADER, b"\n", TRIANGLE, TRIANGLE], LINE_END),
    (&[HEADER, b"\n", EDGE, EDGE, EDGE], LINE_END),
    (
        &[HEADER, b"1 2\n2 3\n"],
        "planarbend: kind: text follows the header\n",
    ),
];

/// A path of ten vertices.
const PATH: &[u8] = &[
    10, 2, 0, 1, 3, 0, 2, 4, 0, 3, 5, 0, 4, 6, 0, 5, 7, 0, 6, 8, 0, 7, 9, 0, 8, 10, 0, 9, 0,
];

/// Files without a hint: they are cut, but are planar_code as far as they go.
const CUT: [&[&[u8]]; 3] = [
    &[HEADER, EDGE, &[2, 2, 0]],
    &[HEADER, PATH, &[10, 2]],
    &[HEADER, &[10, 2, 0, 1, 3, 0, 2]],
];

/// Valid files, for which no line is written.
const VALID: [&[&[u8]]; 4] = [
    &[HEADER],
    &[HEADER, EDGE],
    &[HEADER, PATH],
    &[HEADER, PATH, TRIANGLE, PATH],
];

/// Checks the hint for a file with these parts, and the status.
fn check_kind<R: Files + AllocGlobal + Threads + Wait + Sync + Abort>(
    rt: &R,
    parts: &[&[u8]],
    said: &str,
    status: u8,
)
where
    R::File: Send,
    R::Dir: Send,
{
    make_file(rt, "kind", parts);
    check_lines(rt, &[("layout kind", said), ("frames kind", said)], status);
}

/// A file in another format has a line with a hint at that format; other files have none.
#[test]
fn says_what_a_file_looks_like(rt: HostRuntime) {
    for (parts, said) in KINDS {
        check_kind(&rt, parts, said, 3);
    }
    for parts in CUT {
        check_kind(&rt, parts, "", 3);
    }
    for parts in VALID {
        check_kind(&rt, parts, "", 0);
    }
}
