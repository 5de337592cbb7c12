//! Lines of sources in memory, in reads of one byte and of many, and of one that fails.

use crate::reports::expect_report;
use std::alloc::{AllocError, Global};
use std::test::Fail;
use streams::{MemTap, Tap, TapFault};
use test_tools::records::EDGE;

/// The line of an edge that is right.
const RIGHT: &[u8] = b"{\"points\":{\"vertices\":[[0,0],[5,0]],\"corners\":[[]]}}";

/// The number of blanks with which that line, of 52 bytes, has the greatest length: 4,000,000 bytes.
const BLANKS: usize = 3_999_948;

/// A source that returns what another one returns, and fails where that one ends.
#[derive(Drop)]
struct FailsAtEnd {
    source: MemTap,
}

impl Tap for FailsAtEnd {
    ghost use Rattle.std.specs.Prelude.{None, true};

    ghost to_come = { λ _. None };

    ghost fails = { λ _. true };

    fn read(&mut self, buf: &mut [u8]) -> Result<usize, TapFault> {
        match self.source.read(buf) {
            Ok(0) => Err(TapFault),
            Ok(count) => Ok(count),
            Err(fault) => Err(fault),
        }
    }
}

/// A text in these parts.
fn text_of(alloc: Global, parts: &[&[u8]]) -> Result<Vec<u8>, AllocError> {
    let mut text = Vec::new(alloc);
    for part in parts {
        text.extend_from_slice(*part)?;
    }
    Ok(text)
}

/// Three edges.
fn three_edges(alloc: Global) -> Result<Vec<u8>, AllocError> {
    text_of(alloc, &[EDGE, EDGE, EDGE])
}

/// Lines are the same in reads of every size, also an empty line and a last one without an end.
#[test]
fn lines_come_in_order(rt: HostRuntime) -> Result<(), Fail> {
    let edges = three_edges(rt.alloc())?;
    for most in [1, 2, 3, 65_536] {
        let text = text_of(rt.alloc(), &[RIGHT, b"\n\n", RIGHT])?;
        expect_report(
            &rt,
            edges.as_slice(),
            MemTap::new(text, most.max(1)),
            "graph 1 ok bends=0 fewest=0\n\
            graph 2 line=malformed\n\
            graph 3 ok bends=0 fewest=0\n\
            end complete graphs=3 surplus=0\n",
        );
    }
    Ok(())
}

/// No line follows the last line feed, and an empty text has no line.
#[test]
fn nothing_follows_the_last_end(rt: HostRuntime) -> Result<(), Fail> {
    let text = text_of(rt.alloc(), &[RIGHT, b"\n"])?;
    expect_report(
        &rt,
        EDGE,
        MemTap::new(text, 65_536),
        "graph 1 ok bends=0 fewest=0\nend complete graphs=1 surplus=0\n",
    );
    expect_report(
        &rt,
        EDGE,
        MemTap::new(Vec::new(rt.alloc()), 65_536),
        "graph 1 line=missing\nend complete graphs=1 surplus=0\n",
    );
    Ok(())
}

/// A failed read is told, and the line begun before it is not read.
#[test]
fn a_failed_read_ends_no_line(rt: HostRuntime) -> Result<(), Fail> {
    let edges = three_edges(rt.alloc())?;
    let text = text_of(rt.alloc(), &[RIGHT, b"\n", RIGHT])?;
    let source = MemTap::new(text, 4);
    expect_report(
        &rt,
        edges.as_slice(),
        FailsAtEnd { source },
        "graph 1 ok bends=0 fewest=0\n\
        graph 2 line=unread\n\
        graph 3 line=unread\n\
        end complete graphs=3 surplus=0\n",
    );
    Ok(())
}

/// A line of the greatest length is read whole, and a longer one is malformed.
#[test]
fn lines_of_four_million_bytes_are_whole(rt: HostRuntime) -> Result<(), Fail> {
    let edges = three_edges(rt.alloc())?;
    let blanks = vec![in rt.alloc(); b' '; BLANKS]?;
    let parts = [
        RIGHT,
        blanks.as_slice(),
        b"\n",
        RIGHT,
        blanks.as_slice(),
        b" \n",
        RIGHT,
    ];
    let text = text_of(rt.alloc(), &parts)?;
    expect_report(
        &rt,
        edges.as_slice(),
        MemTap::new(text, 65_536),
        "graph 1 ok bends=0 fewest=0\n\
        graph 2 line=malformed\n\
        graph 3 ok bends=0 fewest=0\n\
        end complete graphs=3 surplus=0\n",
    );
    Ok(())
}
