//! Files that are cut after each byte and fed in two pieces, compared with a plain reading of the whole.

use planar_code::{Ending, Framer, HEADER, Record};
use std::alloc::Global;
use std::process::Abort;
use test_tools::records::{EDGE, OCTAHEDRON, STAR, TETRAHEDRON, TETRAHEDRON_ON_A_TORUS, TRIANGLE};
use test_tools::same;

/// The end of the record that begins here, or else how the text ends.
fn end_of_record(text: &[u8], start: usize) -> Result<usize, Ending> {
    let (mut lists, mut entries) = (0u32, 0u32);
    for (place, byte) in text.iter().enumerate().skip(start) {
        if place == start {
            lists = u32::from(*byte);
        } else if *byte == 0 {
            lists = lists.saturating_sub(1);
            entries = 0;
        } else {
            entries = entries.saturating_add(1);
        }
        match (lists, entries) {
            (0, _) if place == start => return Err(Ending::Large),
            (0, _) => return Ok(place.saturating_add(1)),
            (_, 255) => return Err(Ending::Oversize),
            _ => {}
        }
    }
    Err(Ending::Truncated)
}

/// The ends of the records of a text, and how the text ends.
fn read_plainly(rt: &impl Abort, alloc: Global, text: &[u8]) -> (Vec<usize>, Ending) {
    let mut ends = Vec::new(alloc);
    let mut start = HEADER.len();
    if !text.starts_with(&HEADER) {
        return (ends, Ending::Header);
    }
    for _ in text {
        if start == text.len() {
            break;
        }
        match end_of_record(text, start) {
            Ok(end) => start = end,
            Err(ending) => return (ends, ending),
        }
        ends.push(start).expect(rt, "memory");
    }
    (ends, Ending::Complete)
}

/// The records of a text that is fed in two pieces, and how it ends.
fn feed_both(rt: &impl Abort, alloc: Global, one: &[u8], two: &[u8]) -> (Vec<Record>, Ending) {
    let mut framer = Framer::new(alloc).expect(rt, "memory");
    let mut records = Vec::new(alloc);
    let _ = framer.feed(alloc, one, &mut records);
    let _ = framer.feed(alloc, two, &mut records);
    (records, framer.finish())
}

/// Checks that the records are the parts of the text that end in these places.
fn are_parts(rt: &impl Abort, records: &[Record], text: &[u8], ends: &[usize]) {
    same!(rt, records.len(), ends.len());
    let mut start = HEADER.len();
    for (record, end) in records.iter().zip(ends) {
        same!(rt, Some(record.bytes()), text.get(start..*end));
        start = *end;
    }
}

/// Feeds a text in two pieces, divided in each place, and compares with the plain reading.
fn divide(rt: &impl Abort, alloc: Global, text: &[u8]) {
    let (ends, ending) = read_plainly(rt, alloc, text);
    for place in 0..=text.len() {
        let (one, two) = text.split_at(place);
        let (records, found) = feed_both(rt, alloc, one, two);
        same!(rt, found, ending);
        are_parts(rt, records.as_slice(), text, ends.as_slice());
    }
}

/// Cuts the header and these bytes after each byte.
fn cut(rt: &impl Abort, alloc: Global, bytes: &[u8]) {
    let text = [HEADER.as_slice(), bytes]
        .concat(alloc)
        .expect(rt, "memory");
    for count in 0..=text.len() {
        divide(rt, alloc, &text[..count]);
    }
}

/// Graphs, records that break a rule, and bytes that end badly.
const FILES: [&[u8]; 17] = [
    EDGE,
    &[1, 0],
    &[2, 0, 0],
    TRIANGLE,
    TETRAHEDRON,
    TETRAHEDRON_ON_A_TORUS,
    OCTAHEDRON,
    STAR,
    &[6, 2, 3, 4, 5, 6, 0, 1, 0, 1, 0, 1, 0, 1, 0, 1, 0],
    &[2, 3, 0, 1, 0],
    &[2, 2, 0, 0],
    &[2, 1, 0, 0],
    &[2, 2, 2, 0, 1, 1, 0],
    &[4, 2, 0, 1, 0, 4, 0, 3, 0],
    &[2, 2, 0, 1, 0, 2, 2, 0, 1],
    &[2, 2, 0, 1, 0, 0],
    &[2, 2, 0, 1, 0, 3, 2, 3, 0, 3, 1, 0, 1, 2, 0],
];

/// A file that is cut after any byte and fed in two pieces has the records and the ending of the plain reading.
#[test]
fn files_are_cut_anywhere(rt: HostRuntime) {
    for bytes in FILES {
        cut(&rt, rt.alloc(), bytes);
    }
}

/// A record whose first list has 255 entries is at fault at its last byte, and cut before that.
/// It has the greatest number of vertices.
#[test]
fn a_long_list_is_cut_anywhere(rt: HostRuntime) {
    let mut bytes = [1; 256];
    bytes[0] = 255;
    cut(&rt, rt.alloc(), &bytes);
}
