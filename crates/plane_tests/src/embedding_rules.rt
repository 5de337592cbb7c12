//! Each of the eight rules, by records that break it first.

use embedding::{Graph, ReadFault, Rule, broken_rule};
use faces::{Plane, TraceFault};
use std::alloc::{AllocError, Global};
use test_tools::records::{EDGE, TETRAHEDRON, TETRAHEDRON_ON_A_TORUS};
use test_tools::{read, record_of, same};

/// The rule that the faces of a graph break, if any.
fn broken_by_faces(alloc: Global, graph: Graph) -> Result<Option<Rule>, AllocError> {
    match Plane::trace(alloc, graph) {
        Ok(_) => Ok(None),
        Err(TraceFault::Genus(_)) => Ok(Some(Rule::Genus)),
        Err(TraceFault::Memory(_)) => Err(AllocError),
    }
}

/// The rule that a record is refused with, if any; an error if memory runs out.
fn broken(alloc: Global, bytes: &[u8]) -> Result<Option<Rule>, AllocError> {
    match read(alloc, bytes) {
        Ok(graph) => broken_by_faces(alloc, graph),
        Err(ReadFault::Rule(rule)) => Ok(Some(rule)),
        Err(ReadFault::Memory) => Err(AllocError),
    }
}

/// Records, and the rule that each breaks first, if any.
pub(crate) const RECORDS: [(&[u8], Option<Rule>); 16] = [
    (EDGE, None),
    (TETRAHEDRON, None),
    (&[2, 3, 0, 1, 0], Some(Rule::Range)),
    (&[2, 1, 0, 0], Some(Rule::Loop)),
    (&[2, 2, 2, 0, 1, 1, 0], Some(Rule::Multi)),
    (&[2, 2, 0, 0], Some(Rule::Asymmetric)),
    (&[1, 0], Some(Rule::Edgeless)),
    (&[2, 0, 0], Some(Rule::Edgeless)),
    (
        &[6, 2, 3, 4, 5, 6, 0, 1, 0, 1, 0, 1, 0, 1, 0, 1, 0],
        Some(Rule::Degree),
    ),
    (&[4, 2, 0, 1, 0, 4, 0, 3, 0], Some(Rule::Disconnected)),
    (TETRAHEDRON_ON_A_TORUS, Some(Rule::Genus)),
    // These break later rules too.
    (&[4, 9, 1, 1, 3, 3, 0, 0, 0, 0], Some(Rule::Range)),
    (&[4, 1, 2, 2, 3, 3, 0, 0, 0, 0], Some(Rule::Loop)),
    (&[4, 2, 2, 3, 3, 4, 0, 0, 0, 0], Some(Rule::Multi)),
    (
        &[7, 2, 3, 4, 5, 6, 0, 0, 0, 0, 0, 0, 0],
        Some(Rule::Asymmetric),
    ),
    (
        &[7, 2, 3, 4, 5, 6, 0, 1, 0, 1, 0, 1, 0, 1, 0, 1, 0, 0],
        Some(Rule::Degree),
    ),
];

/// Each record is refused with the first rule that it breaks.
#[test]
fn each_rule_is_named(rt: HostRuntime) {
    for (bytes, rule) in RECORDS {
        same!(&rt, broken(rt.alloc(), bytes), Ok(rule));
    }
}

/// The first rule that each record breaks is found without a graph, too.
/// `checks/refuse-allocations` tests that this takes no memory.
#[test]
fn rules_are_found_in_no_memory(rt: HostRuntime) {
    for (bytes, rule) in RECORDS {
        let record = record_of(rt.alloc(), bytes).expect(&rt, "a record");
        same!(&rt, broken_rule(&record), rule);
    }
}

/// The vertex in this column and this row of a grid.
fn vertex_at(columns: u8, column: u8, row: u8) -> u8 {
    row.wrapping_mul(columns)
        .wrapping_add(column)
        .wrapping_add(1)
}

/// The places before and after a place, round a circle of this many.
fn around(place: u8, count: u8) -> (u8, u8) {
    let last = count.wrapping_sub(1);
    let before = if place == 0 {
        last
    } else {
        place.wrapping_sub(1)
    };
    let after = if place == last {
        0
    } else {
        place.wrapping_add(1)
    };
    (before, after)
}

/// The record of a grid on a torus: the neighbours of a vertex are those to its east, south, west and north.
fn torus(alloc: Global, columns: u8, rows: u8) -> Result<Vec<u8>, AllocError> {
    let mut bytes = Vec::new(alloc);
    bytes.push(columns.wrapping_mul(rows))?;
    for row in 0..rows {
        for column in 0..columns {
            let (west, east) = around(column, columns);
            let (north, south) = around(row, rows);
            bytes.push(vertex_at(columns, east, row))?;
            bytes.push(vertex_at(columns, column, south))?;
            bytes.push(vertex_at(columns, west, row))?;
            bytes.push(vertex_at(columns, column, north))?;
            bytes.push(0)?;
        }
    }
    Ok(bytes)
}

/// A grid on a torus breaks the last rule, since it has as many faces as vertices.
/// This one has as many edges as a graph can have.
#[test]
fn a_large_torus_breaks_the_last_rule(rt: HostRuntime) {
    let bytes = torus(rt.alloc(), 15, 17).expect(&rt, "memory");
    let record = record_of(rt.alloc(), &bytes).expect(&rt, "a record");
    same!(&rt, broken_rule(&record), Some(Rule::Genus));
    same!(&rt, broken(rt.alloc(), &bytes), Ok(Some(Rule::Genus)));
}

/// The record of the complete graph on 255 vertices, which is the longest record.
fn complete(alloc: Global) -> Result<Vec<u8>, AllocError> {
    let mut bytes = Vec::new(alloc);
    bytes.push(255)?;
    for vertex in 1..=255u8 {
        for other in 1..=255u8 {
            if other != vertex {
                bytes.push(other)?;
            }
        }
        bytes.push(0)?;
    }
    Ok(bytes)
}

/// The longest record has lists that are too long.
#[test]
fn the_longest_record_breaks_the_sixth_rule(rt: HostRuntime) {
    let bytes = complete(rt.alloc()).expect(&rt, "memory");
    let record = record_of(rt.alloc(), &bytes).expect(&rt, "a record");
    same!(&rt, broken_rule(&record), Some(Rule::Degree));
    same!(&rt, broken(rt.alloc(), &bytes), Ok(Some(Rule::Degree)));
}

/// Each rule has its word.
#[test]
fn rules_have_their_words(rt: HostRuntime) {
    let words = [
        (Rule::Range, "range"),
        (Rule::Loop, "loop"),
        (Rule::Multi, "multi"),
        (Rule::Asymmetric, "asymmetric"),
        (Rule::Edgeless, "edgeless"),
        (Rule::Degree, "degree"),
        (Rule::Disconnected, "disconnected"),
        (Rule::Genus, "genus"),
    ];
    for (rule, word) in words {
        same!(&rt, rule.word(), word);
    }
}
