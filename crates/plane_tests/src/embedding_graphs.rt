//! Records whose graphs were found by hand, and refused allocations.

use embedding::{Graph, ReadFault, Rule};
use planar_code::ParseFault;
use std::alloc::Global;
use std::process::Abort;
use test_tools::records::{EDGE, OCTAHEDRON, STAR, TETRAHEDRON, TRIANGLE};
use test_tools::{record_of, same};

/// The faults of records and graphs have their messages.
#[test]
fn faults_have_messages(rt: HostRuntime) {
    let rule = ReadFault::Rule(Rule::Multi);
    let text = format!(in rt.alloc(); "{rule}, {}, {}", ReadFault::Memory, ParseFault::Long);
    let want = "the graph breaks rule multi, out of memory, more bytes follow the record";
    same!(&rt, text.expect(&rt, "memory").as_str(), want);
}

/// Checks that a graph with this many edges was read, or that memory ran out; returns whether it was read.
fn is_read(rt: &impl Abort, graph: Result<Graph, ReadFault>, edges: u16) -> bool {
    match graph {
        Ok(graph) => {
            same!(rt, graph.edges(), edges);
            true
        }
        Err(fault) => {
            same!(rt, fault, ReadFault::Memory);
            false
        }
    }
}

/// Reads a record twice. If an allocation of one reading is refused, the other reading succeeds.
fn read_twice(rt: &impl Abort, alloc: Global, bytes: &[u8], edges: u16) {
    let Some(record) = record_of(alloc, bytes) else {
        return;
    };
    let first = is_read(rt, Graph::read(alloc, &record), edges);
    let second = is_read(rt, Graph::read(alloc, &record), edges);
    assert!(rt; first || second);
}

/// If memory runs out, the fault says so, and a second reading succeeds.
/// To be run with each allocation refused in turn.
#[test]
fn refused_memory_is_told(rt: HostRuntime) {
    read_twice(&rt, rt.alloc(), EDGE, 1);
    read_twice(&rt, rt.alloc(), TRIANGLE, 3);
    read_twice(&rt, rt.alloc(), TETRAHEDRON, 6);
    read_twice(&rt, rt.alloc(), OCTAHEDRON, 12);
    read_twice(&rt, rt.alloc(), STAR, 4);
}

/// A record that breaks a rule is refused with it, without taking memory.
#[test]
fn broken_rules_take_no_memory(rt: HostRuntime) {
    let Some(record) = record_of(rt.alloc(), &[2, 2, 2, 0, 1, 1, 0]) else {
        return;
    };
    let fault = Graph::read(rt.alloc(), &record).err();
    same!(&rt, fault, Some(ReadFault::Rule(Rule::Multi)));
}

/// Each dart of the triangle: its tail, its head, its reverse and the one after it.
const DARTS: [(u16, u16, u16, u16); 6] = [
    (1, 2, 3, 1),
    (1, 3, 4, 0),
    (2, 3, 5, 3),
    (2, 1, 0, 2),
    (3, 1, 1, 5),
    (3, 2, 2, 4),
];

/// The numbers of the triangle and of its darts.
fn expect_triangle(rt: &impl Abort, graph: &Graph) {
    assert!(rt; graph.vertices() == 3 && graph.darts() == 6);
    same!(
        rt,
        (graph.edges(), graph.lesser_darts().nth(2)),
        (3, Some(2)),
    );
    same!(rt, graph.neighbours(2), [3, 1].as_slice());
    for dart in 0..graph.darts() {
        let ends = (graph.tail(dart), graph.head(dart));
        let found = (ends.0, ends.1, graph.reverse(dart), graph.after(dart));
        same!(rt, Some(found), DARTS.get(usize::from(dart)).copied());
    }
}

/// Reading off records and graphs takes no memory.
#[test]
fn readers_take_no_memory(rt: HostRuntime) {
    let Some(record) = record_of(rt.alloc(), TRIANGLE) else {
        return;
    };
    same!(&rt, (record.order(), record.bytes()), (3, TRIANGLE),);
    if let Ok(graph) = Graph::read(rt.alloc(), &record) {
        expect_triangle(&rt, &graph);
    }
}
