//! Graphs of more than 255 vertices, which come from wide records.

use crate::embedding_rules::RECORDS;
use common::MAX_VERTICES;
use embedding::{Graph, MAX_DARTS, MAX_EDGES, ReadFault, Rule, WideRecord, broken_wide_rule};
use faces::{MAX_FACES, Plane, TraceFault};
use std::alloc::{AllocError, Global};
use std::process::Abort;
use test_tools::same;

/// The wide record that these entries are.
fn wide(rt: &impl Abort, entries: Vec<u16>) -> WideRecord {
    WideRecord::new(entries).ok().expect(rt, "a wide record")
}

/// The rule that a wide record is refused with, if any; an error if memory runs out.
fn broken(alloc: Global, record: &WideRecord) -> Result<Option<Rule>, AllocError> {
    match Graph::read_wide(alloc, record) {
        Ok(graph) => match Plane::trace(alloc, graph) {
            Ok(_) => Ok(None),
            Err(TraceFault::Genus(_)) => Ok(Some(Rule::Genus)),
            Err(TraceFault::Memory(_)) => Err(AllocError),
        },
        Err(ReadFault::Rule(rule)) => Ok(Some(rule)),
        Err(ReadFault::Memory) => Err(AllocError),
    }
}

/// Checks that a wide record breaks this rule first, if any, with a graph and without.
fn expect_broken(rt: &impl Abort, alloc: Global, entries: Vec<u16>, rule: Option<Rule>) {
    let record = wide(rt, entries);
    same!(rt, broken_wide_rule(&record), rule);
    same!(rt, broken(alloc, &record), Ok(rule));
}

/// Bytes as entries of 16 bits.
fn widened(alloc: Global, bytes: &[u8]) -> Result<Vec<u16>, AllocError> {
    bytes.iter().map(|byte| u16::from(*byte)).collect(alloc)
}

/// As a wide record, each record is refused with the same rule.
#[test]
fn each_rule_is_named_of_wide_records(rt: HostRuntime) {
    for (bytes, rule) in RECORDS {
        let entries = widened(rt.alloc(), bytes).expect(&rt, "memory");
        expect_broken(&rt, rt.alloc(), entries, rule);
    }
}

/// The number of vertices of a path.
const LONG: u16 = 300;

/// The entries of a path of 300 vertices, but that the list of its last vertex has these entries.
fn path(alloc: Global, last: &[u16]) -> Result<Vec<u16>, AllocError> {
    let mut entries = Vec::new(alloc);
    entries.push(LONG)?;
    entries.push(2)?;
    for vertex in 2..LONG {
        entries.push(0)?;
        entries.push(vertex.wrapping_sub(1))?;
        entries.push(vertex.wrapping_add(1))?;
    }
    entries.push(0)?;
    entries.extend_from_slice(last)?;
    entries.push(0)?;
    Ok(entries)
}

/// The list of the last vertex of a path, and the rule that the path then breaks first, if any.
const LAST_LISTS: [(&[u16], Option<Rule>); 6] = [
    (&[299], None),
    (&[299, 301], Some(Rule::Range)),
    (&[299, 300], Some(Rule::Loop)),
    (&[299, 299], Some(Rule::Multi)),
    (&[299, 1], Some(Rule::Asymmetric)),
    (&[], Some(Rule::Asymmetric)),
];

/// A path of 300 vertices whose last list is wrong is refused with the rule that it breaks.
#[test]
fn rules_are_found_past_255_vertices(rt: HostRuntime) {
    for (last, rule) in LAST_LISTS {
        let entries = path(rt.alloc(), last).expect(&rt, "memory");
        expect_broken(&rt, rt.alloc(), entries, rule);
    }
}

/// The entries of this many vertices with empty lists.
fn lone_vertices(alloc: Global, count: u16) -> Result<Vec<u16>, AllocError> {
    let mut entries = Vec::new(alloc);
    entries.push(count)?;
    for _ in 0..count {
        entries.push(0)?;
    }
    Ok(entries)
}

/// The entries of a star: vertex 1 is joined to all others.
fn star(alloc: Global) -> Result<Vec<u16>, AllocError> {
    let mut entries = Vec::new(alloc);
    entries.push(LONG)?;
    for vertex in 2..LONG {
        entries.push(vertex)?;
    }
    entries.push(LONG)?;
    entries.push(0)?;
    for _ in 1..LONG {
        entries.push(1)?;
        entries.push(0)?;
    }
    Ok(entries)
}

/// The entries of 150 edges that share no vertex.
fn pairs(alloc: Global) -> Result<Vec<u16>, AllocError> {
    let mut entries = Vec::new(alloc);
    entries.push(LONG)?;
    for vertex in 1..LONG {
        let next = vertex.wrapping_add(1);
        entries.push(if vertex % 2 == 1 {
            next
        } else {
            vertex.wrapping_sub(1)
        })?;
        entries.push(0)?;
    }
    entries.push(LONG.wrapping_sub(1))?;
    entries.push(0)?;
    Ok(entries)
}

/// Graphs of 300 vertices that break rules 5 to 7 are refused with them.
#[test]
fn later_rules_are_found_past_255_vertices(rt: HostRuntime) {
    let none = lone_vertices(rt.alloc(), LONG).expect(&rt, "memory");
    expect_broken(&rt, rt.alloc(), none, Some(Rule::Edgeless));
    let many = star(rt.alloc()).expect(&rt, "memory");
    expect_broken(&rt, rt.alloc(), many, Some(Rule::Degree));
    let apart = pairs(rt.alloc()).expect(&rt, "memory");
    expect_broken(&rt, rt.alloc(), apart, Some(Rule::Disconnected));
}

/// The number after a number, and the one before it, round a circle from `first` of this many.
fn beside(place: u16, first: u16, count: u16) -> (u16, u16) {
    let last = first.wrapping_add(count).wrapping_sub(1);
    let after = if place == last {
        first
    } else {
        place.wrapping_add(1)
    };
    let before = if place == first {
        last
    } else {
        place.wrapping_sub(1)
    };
    (after, before)
}

/// Adds the list of a vertex with four neighbours.
fn push_list(entries: &mut Vec<u16>, list: [u16; 4]) -> Result<(), AllocError> {
    entries.extend_from_slice(&list)?;
    entries.push(0)?;
    Ok(())
}

/// How many vertices a circle of the antiprism has.
const SIDES: u16 = 600;

/// The entries of the antiprism of 1,200 vertices, each of degree 4: a circle of 600 within another one, joined by a
/// zigzag. Vertices 1 to 600 are the outer circle, clockwise. Vertex 601 is inside of 1 and 2, and so on.
fn antiprism(alloc: Global) -> Result<Vec<u16>, AllocError> {
    let mut entries = Vec::new(alloc);
    entries.push(SIDES.wrapping_mul(2))?;
    for outer in 1..SIDES.wrapping_add(1) {
        let (after, before) = beside(outer, 1, SIDES);
        let inner = outer.wrapping_add(SIDES);
        push_list(
            &mut entries,
            [after, inner, before.wrapping_add(SIDES), before],
        )?;
    }
    for outer in 1..SIDES.wrapping_add(1) {
        let (next, _) = beside(outer, 1, SIDES);
        let (after, before) = beside(outer.wrapping_add(SIDES), SIDES.wrapping_add(1), SIDES);
        push_list(&mut entries, [after, before, outer, next])?;
    }
    Ok(entries)
}

/// The antiprism of 1,200 vertices has as many edges and faces as a plane can have: 1,200 triangles and two faces of
/// 600 darts, one of which is the outer face.
#[test]
fn the_largest_plane_is_traced(rt: HostRuntime) {
    let record = wide(&rt, antiprism(rt.alloc()).expect(&rt, "memory"));
    let graph = Graph::read_wide(rt.alloc(), &record)
        .ok()
        .expect(&rt, "a graph");
    same!(&rt, usize::from(graph.vertices()), MAX_VERTICES);
    same!(&rt, usize::from(graph.edges()), MAX_EDGES);
    same!(&rt, usize::from(graph.darts()), MAX_DARTS);
    same!(&rt, graph.neighbours(1200), [601, 1199, 600, 1].as_slice());
    let plane = Plane::trace(rt.alloc(), graph).ok().expect(&rt, "a plane");
    same!(&rt, usize::from(plane.face_count()), MAX_FACES);
    same!(&rt, plane.degree(plane.outer()), SIDES);
    same!(&rt, broken_wide_rule(&record), None);
}

/// Four neighbours of each vertex of a grid of 30 columns and 40 rows on a torus: east, south, west, north.
fn torus(alloc: Global) -> Result<Vec<u16>, AllocError> {
    let mut entries = Vec::new(alloc);
    entries.push(1200)?;
    for row in 0..40u16 {
        let (below, above) = beside(row, 0, 40);
        for column in 0..30u16 {
            let (east, west) = beside(column, 0, 30);
            let list = [
                at(row, east),
                at(below, column),
                at(row, west),
                at(above, column),
            ];
            push_list(&mut entries, list)?;
        }
    }
    Ok(entries)
}

/// The vertex in this row and this column of the torus.
fn at(row: u16, column: u16) -> u16 {
    row.wrapping_mul(30).wrapping_add(column).wrapping_add(1)
}

/// A grid on a torus has as many faces as vertices.
#[test]
fn a_wide_torus_breaks_the_last_rule(rt: HostRuntime) {
    let entries = torus(rt.alloc()).expect(&rt, "memory");
    expect_broken(&rt, rt.alloc(), entries, Some(Rule::Genus));
}
