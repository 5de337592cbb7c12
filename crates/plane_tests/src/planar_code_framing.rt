//! Streams whose records and endings are known, the limit of a million records, and refused allocations.

use planar_code::{Ending, FeedFault, Framer, HEADER};
use std::alloc::Global;
use std::process::Abort;
use test_tools::records::TRIANGLE;
use test_tools::{frame, same, split};

/// The number of records that the framer finds in a text, and how the text ends.
fn framed(rt: &impl Abort, alloc: Global, text: &[u8]) -> (usize, Ending) {
    let piece = text.to_vec(alloc).expect(rt, "memory");
    let pieces = vec![in alloc; piece].expect(rt, "memory");
    let (records, ending) = frame(alloc, pieces.as_slice()).expect(rt, "memory");
    (records.len(), ending)
}

/// The number of records that the plain splitter finds in a text, and how the text ends.
fn divided(rt: &impl Abort, alloc: Global, text: &[u8]) -> (usize, Ending) {
    let (records, ending) = split(alloc, text).expect(rt, "memory");
    (records.len(), ending)
}

/// Checks that both find this many records and this ending.
fn expect(rt: &impl Abort, alloc: Global, text: &[u8], want: (usize, Ending)) {
    same!(rt, framed(rt, alloc, text), want);
    same!(rt, divided(rt, alloc, text), want);
}

/// Texts, how many records they have, and how they end.
const TEXTS: [(&[u8], usize, Ending); 9] = [
    (b"", 0, Ending::Header),
    (b">>planar_code<", 0, Ending::Header),
    (b">>planar_codeX\x01\x00", 0, Ending::Header),
    (b">>planar_code<<", 0, Ending::Complete),
    (b">>planar_code<<\x02\x02\x00", 0, Ending::Truncated),
    (b">>planar_code<<\x02\x02\x00\x01\x00", 1, Ending::Complete),
    (
        b">>planar_code<<\x02\x02\x00\x01\x00\x02\x02",
        1,
        Ending::Truncated,
    ),
    (
        b">>planar_code<<\x02\x02\x00\x01\x00\x00\x02",
        1,
        Ending::Large,
    ),
    (b">>planar_code<<\x01\x00\x02\x00\x00", 2, Ending::Complete),
];

/// The framer and the splitter find the records of each text and how it ends.
#[test]
fn tells_the_endings(rt: HostRuntime) {
    for (text, count, ending) in TEXTS {
        expect(&rt, rt.alloc(), text, (count, ending));
    }
}

/// A file of one triangle is cut after each byte: in the header, right after it, in the record, and not at all.
#[test]
fn a_triangle_is_cut_anywhere(rt: HostRuntime) {
    let text = [HEADER.as_slice(), TRIANGLE].concat(rt.alloc());
    let text = text.expect(&rt, "memory");
    same!(&rt, text.len(), 25);
    for count in 0..=text.len() {
        let want = match count {
            0..15 => (0, Ending::Header),
            15 => (0, Ending::Complete),
            25 => (1, Ending::Complete),
            _ => (0, Ending::Truncated),
        };
        expect(&rt, rt.alloc(), &text[..count], want);
    }
}

/// A piece, the result of feeding it, and the number of records by then.
type Feed<'a> = (&'a [u8], Result<(), FeedFault>, usize);

/// Feeds these pieces to one framer, and checks the results and the ending.
fn expect_feeds(rt: &impl Abort, alloc: Global, feeds: &[Feed<'_>], ending: Ending) {
    let mut framer = Framer::new(alloc).expect(rt, "memory");
    let mut out = Vec::new(alloc);
    for (piece, answer, count) in feeds {
        same!(rt, framer.feed(alloc, piece, &mut out), *answer);
        same!(rt, out.len(), *count);
    }
    same!(rt, framer.finish(), ending);
}

/// Pieces that end in the header and in a record; a piece with another header, and one after it; a record that is kept
/// before a fault in the same piece.
const FEEDS: [(&[Feed<'static>], Ending); 3] = [
    (
        &[
            (b">>planar_c", Ok(()), 0),
            (b"ode<<\x02\x02", Ok(()), 0),
            (b"\x00\x01\x00", Ok(()), 1),
        ],
        Ending::Complete,
    ),
    (
        &[
            (b">>planar_codeX", Err(FeedFault::Header), 0),
            (b"\x02\x02\x00\x01\x00", Err(FeedFault::Header), 0),
        ],
        Ending::Header,
    ),
    (
        &[(
            b">>planar_code<<\x02\x02\x00\x01\x00\x00\x02",
            Err(FeedFault::Large),
            1,
        )],
        Ending::Large,
    ),
];

/// Each piece that is fed has its own result.
#[test]
fn pieces_are_answered_one_by_one(rt: HostRuntime) {
    for (feeds, ending) in FEEDS {
        expect_feeds(&rt, rt.alloc(), feeds, ending);
    }
}

/// Checks that a million records of one vertex followed by these bytes are a million records with this ending.
fn expect_a_million(rt: &impl Abort, alloc: Global, bytes: &[u8], ending: Ending) {
    let mut text = HEADER.to_vec(alloc).expect(rt, "memory");
    for _ in 0..1_000_000 {
        text.extend_from_slice(&[1, 0]).expect(rt, "memory");
    }
    text.extend_from_slice(bytes).expect(rt, "memory");
    expect(rt, alloc, &text, (1_000_000, ending));
}

/// What follows a million records: nothing, a byte 0, a record that is begun, and a whole one.
const BEHIND_A_MILLION: [(&[u8], Ending); 4] = [
    (&[], Ending::Complete),
    (&[0], Ending::Many),
    (&[7], Ending::Many),
    (&[1, 0], Ending::Many),
];

/// A stream may have a million records, and no byte may follow them.
#[test]
fn a_million_records_are_most(rt: HostRuntime) {
    for (bytes, ending) in BEHIND_A_MILLION {
        expect_a_million(&rt, rt.alloc(), bytes, ending);
    }
}

/// If memory runs out, the feed says so, and a beginning of the records stays.
#[test]
fn names_a_want_of_memory(rt: HostRuntime) {
    let alloc = rt.alloc();
    let Ok(mut framer) = Framer::new(alloc) else {
        return;
    };
    let mut out = Vec::new(alloc);
    same!(&rt, framer.feed(alloc, &HEADER, &mut out), Ok(()));
    match framer.feed(alloc, &[1, 0, 2, 0, 0], &mut out) {
        Ok(()) => same!(&rt, (out.len(), framer.finish()), (2, Ending::Complete)),
        Err(fault) => {
            let again = framer.feed(alloc, &[1, 0], &mut out);
            same!(
                &rt,
                (fault, again),
                (FeedFault::Memory, Err(FeedFault::Memory)),
            );
            assert!(rt; out.len() < 2);
            same!(&rt, framer.finish(), Ending::Memory);
        }
    }
}

/// Pieces that complete no record take no memory, nor does the end of a stream.
#[test]
fn begun_records_take_no_memory(rt: HostRuntime) {
    let alloc = rt.alloc();
    let Ok(mut framer) = Framer::new(alloc) else {
        return;
    };
    let mut out = Vec::new(alloc);
    for piece in [&HEADER[..9], &HEADER[9..], &[255], &[1; 254]] {
        same!(&rt, framer.feed(alloc, piece, &mut out), Ok(()));
    }
    same!(&rt, (out.len(), framer.finish()), (0, Ending::Truncated));
}
