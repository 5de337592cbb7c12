//! Runs of `layout` in several lanes, which must open their files in parallel.

use crate::shared::{NoConsole, make_file, run_words, words_of};
use std::alloc::{Allocator, Global};
use std::fs::{Metadata, OpenOptions};
use std::io;
use std::process::Abort;
use std::rt::Files;
use std::sync::Wait;
use std::sync::atomic::{AtomicBool, AtomicU32, Ordering};
use std::thread::Threads;
use test_tools::records::{EDGE, HEADER};
use test_tools::{same, wait_for_count};

/// A runtime on which the open of a file waits until a given number are asked for.
#[derive(Drop)]
struct Crowd<'r, R> {
    rt: &'r R,
    wanted: u32,
    asked: AtomicU32,
    ran_out: AtomicBool,
}

impl<R> Crowd<'_, R> {
    /// Waits for the others, and notes if a million turns were too few.
    fn wait(&self) {
        self.asked.fetch_add(1, Ordering::SeqCst);
        wait_for_count(&self.asked, self.wanted, &self.ran_out);
    }
}

impl<R: Alloc> Alloc for Crowd<'_, R> {
    type A = R::A;

    fn alloc(&self) -> R::A {
        self.rt.alloc()
    }
}

impl<R: Wait> Wait for Crowd<'_, R> {}

impl<R: Threads> Threads for Crowd<'_, R> {}

impl<R: Files> Files for Crowd<'_, R> {
    type File = R::File;

    type Dir = R::Dir;

    fn open_file(&self, how: &OpenOptions, path: &str) -> io::Result<R::File> {
        self.wait();
        self.rt.open_file(how, path)
    }

    fn open_dir(&self, path: &str) -> io::Result<R::Dir> {
        self.rt.open_dir(path)
    }

    fn metadata(&self, path: &str) -> io::Result<Metadata> {
        self.rt.metadata(path)
    }

    fn symlink_metadata(&self, path: &str) -> io::Result<Metadata> {
        self.rt.symlink_metadata(path)
    }

    fn copy(&self, from: &str, to: &str) -> io::Result<u64> {
        self.rt.copy(from, to)
    }

    fn rename(&self, from: &str, to: &str) -> io::Result<()> {
        self.rt.rename(from, to)
    }

    fn remove_file(&self, path: &str) -> io::Result<()> {
        self.rt.remove_file(path)
    }

    fn create_dir(&self, path: &str) -> io::Result<()> {
        self.rt.create_dir(path)
    }

    fn remove_dir(&self, path: &str) -> io::Result<()> {
        self.rt.remove_dir(path)
    }

    fn remove_dir_all<B: Allocator>(&self, alloc: B, path: &str) -> io::Result<()> {
        self.rt.remove_dir_all(alloc, path)
    }
}

/// Runs a command line where the open of each file waits until `wanted` are asked for.
fn check_lanes<R: Files + AllocGlobal + Threads + Wait + Sync + Abort>(
    rt: &R,
    line: &str,
    wanted: u32,
)
where
    R::File: Send,
    R::Dir: Send,
{
    let crowd = Crowd {
        rt,
        wanted,
        asked: AtomicU32::new(0),
        ran_out: AtomicBool::new(false),
    };
    let words = words_of(rt.alloc(), line).expect(rt, "memory");
    let status = run_words(&crowd, words.as_slice(), None, &NoConsole).status;
    let ran_out = crowd.ran_out.load(Ordering::SeqCst);
    same!(rt, (status, ran_out), (0, false));
}

/// Command lines, and the number of lanes that they ask for.
const LANES: [(&str, u32); 5] = [
    (
        "layout --lanes 1 lane lane lane lane lane lane lane lane",
        1,
    ),
    (
        "layout --lanes 2 lane lane lane lane lane lane lane lane",
        2,
    ),
    (
        "layout --lanes 3 lane lane lane lane lane lane lane lane",
        3,
    ),
    (
        "layout --lanes 4 lane lane lane lane lane lane lane lane",
        4,
    ),
    (
        "layout --lanes 8 lane lane lane lane lane lane lane lane",
        8,
    ),
];

/// As many lanes as `--lanes` says open files at once: with eight files, the open of each waits for those of the others
/// in that many lanes.
#[test]
fn works_in_as_many_lanes_as_are_asked_for(rt: HostRuntime) {
    make_file(&rt, "lane", &[HEADER, EDGE]);
    for (line, wanted) in LANES {
        check_lanes(&rt, line, wanted);
    }
}
