//! Every combination of options, with 1, 21 and 256 files: each is taken, and each file is laid out in its place.

use crate::shared::{expect_report, make_file, run};
use std::alloc::{AllocError, Global};
use std::process::Abort;
use std::rt::Files;
use std::sync::Wait;
use std::thread::Threads;
use streams::Form;
use test_tools::records::{EDGE, HEADER, TRIANGLE};
use test_tools::same;

const LANES: [&str; 2] = ["", " --lanes 8"];

const OUTER: [&str; 2] = ["", " --outer best"];

const FORMS: [(&str, Form); 4] = [
    ("", Form::Report),
    (" --json", Form::Json),
    (" --json --drawing short", Form::Json),
    (" --drawing=quick --json", Form::Json),
];

const WAITING: [&str; 2] = ["", " --waiting 1"];

const PROGRESS: [&str; 2] = ["", " --progress"];

/// The end of the output for 1, 21 and 256 files, in the report and in JSON lines.
const ENDS: [(u32, &str, &str); 3] = [
    (
        1,
        "file 1\ngraph 1 ok n=2 m=1 f=1 bends=0 drawn=yes\nend complete graphs=1\n",
        "{\"end\":\"complete\",\"file\":1,\"graphs\":1}\n",
    ),
    (
        21,
        "file 21\ngraph 1 ok n=2 m=1 f=1 bends=0 drawn=yes\nend complete graphs=1\n",
        "{\"end\":\"complete\",\"file\":21,\"graphs\":1}\n",
    ),
    (
        256,
        "file 256\ngraph 1 ok n=2 m=1 f=1 bends=0 drawn=yes\nend complete graphs=1\n",
        "{\"end\":\"complete\",\"file\":256,\"graphs\":1}\n",
    ),
];

/// A command line with these options and this many files.
fn line_of(alloc: Global, options: &[&str], files: u32) -> Result<String, AllocError> {
    let mut line = String::from_str(alloc, "layout")?;
    for option in options {
        line.push_str(option)?;
    }
    for _ in 0..files {
        line.push_str(" all.pc")?;
    }
    Ok(line)
}

/// Runs a command line with these options and each number of files.
fn check_options<R: Files + AllocGlobal + Threads + Wait + Sync + Abort>(
    rt: &R,
    options: &[&str],
    form: Form,
)
where
    R::File: Send,
    R::Dir: Send,
{
    for (files, report, json) in ENDS {
        let line = line_of(rt.alloc(), options, files).expect(rt, "memory");
        let ran = run(rt, line.as_str());
        let end = match form {
            Form::Report => report,
            Form::Json => json,
        };
        same!(rt, ran.out.as_slice().ends_with(end.as_bytes()), true);
        same!(rt, (ran.status, ran.err.len()), (0, 0));
    }
}

/// Every combination of options is taken, with 1, 21 and 256 files.
#[test]
fn takes_each_combination_of_options(rt: HostRuntime) {
    make_file(&rt, "all.pc", &[HEADER, EDGE]);
    for lanes in LANES {
        for outer in OUTER {
            for (with_form, form) in FORMS {
                for waiting in WAITING {
                    for progress in PROGRESS {
                        let options = [lanes, outer, with_form, waiting, progress];
                        check_options(&rt, &options, form);
                    }
                }
            }
        }
    }
}

/// A name of this many bytes.
fn name_of(alloc: Global, length: u32) -> Result<String, AllocError> {
    let mut name = String::new(alloc);
    for _ in 0..length {
        name.push_str("n")?;
    }
    Ok(name)
}

/// The command line `frames` of a file with this name.
fn frames_of(alloc: Global, name: &str) -> Result<String, AllocError> {
    let mut line = String::from_str(alloc, "frames ")?;
    line.push_str(name)?;
    Ok(line)
}

/// A file has a triangle if its name has an even number of bytes, and otherwise an edge; that is what is read of it.
fn check_name<R: Files + AllocGlobal + Threads + Wait + Sync + Abort>(rt: &R, length: u32)
where
    R::File: Send,
    R::Dir: Send,
{
    let name = name_of(rt.alloc(), length).expect(rt, "memory");
    let (record, said) = if length % 2 == 0 {
        (TRIANGLE, "record 1 n=3 bytes=10\nend complete records=1\n")
    } else {
        (EDGE, "record 1 n=2 bytes=5\nend complete records=1\n")
    };
    make_file(rt, name.as_str(), &[HEADER, record]);
    let line = frames_of(rt.alloc(), name.as_str()).expect(rt, "memory");
    expect_report(rt, &run(rt, line.as_str()), said.as_bytes(), 0);
}

/// Files with names of 1 to 255 bytes are opened.
#[test]
fn opens_names_of_each_length(rt: HostRuntime) {
    for length in 1..=255 {
        check_name(&rt, length);
    }
}
