//! Records whose planes were worked out by hand, and refused allocations.

use embedding::Graph;
use faces::{Plane, TraceFault};
use std::alloc::Global;
use std::process::Abort;
use test_tools::records::{
    CUBE, EDGE, OCTAHEDRON, PATH, STAR, TETRAHEDRON, TETRAHEDRON_ON_A_TORUS, TRIANGLE,
};
use test_tools::{plane_in, read, same};

/// The numbers of vertices, edges and faces, the outer face, and its degree.
fn counts(plane: &Plane) -> (u16, u16, u16, u16, u16) {
    (
        plane.graph().vertices(),
        plane.graph().edges(),
        plane.face_count(),
        plane.outer(),
        plane.degree(plane.outer()),
    )
}

/// The counts of the plane of a record; `None` if memory runs out or the graph is not planar as embedded.
fn counts_of(alloc: Global, bytes: &[u8]) -> Option<(u16, u16, u16, u16, u16)> {
    let plane = plane_in(alloc, bytes)?;
    Some(counts(&plane))
}

/// Known planes have their numbers of vertices, edges and faces, and their outer face.
#[test]
fn known_planes_have_their_counts(rt: HostRuntime) {
    let known = [
        (EDGE, (2, 1, 1, 0, 2)),
        (PATH, (5, 4, 1, 0, 8)),
        (TETRAHEDRON, (4, 6, 4, 0, 3)),
        (OCTAHEDRON, (6, 12, 8, 0, 3)),
        (STAR, (5, 4, 1, 0, 8)),
        (CUBE, (8, 12, 6, 0, 4)),
    ];
    for (bytes, want) in known {
        same!(&rt, counts_of(rt.alloc(), bytes), Some(want));
    }
}

/// The plane of a graph, by the second call if the first one runs out of memory.
fn plane_at_last(rt: &impl Abort, alloc: Global, graph: Graph) -> Plane {
    let graph = match Plane::trace(alloc, graph) {
        Ok(plane) => return plane,
        Err(TraceFault::Memory(graph)) => graph,
        Err(TraceFault::Genus(graph)) => graph,
    };
    Plane::trace(alloc, graph).ok().expect(rt, "a plane")
}

/// If memory runs out, the graph comes back, and a second call finds its plane.
/// To be run with each allocation refused in turn. A refusal before the walk ends the test.
#[test]
fn memory_hands_the_graph_back(rt: HostRuntime) {
    if let Ok(graph) = read(rt.alloc(), TRIANGLE) {
        expect_triangle(&rt, plane_at_last(&rt, rt.alloc(), graph));
    }
}

/// The dart after each dart of the triangle.
const NEXTS: [u16; 6] = [2, 5, 4, 1, 0, 3];

/// The darts and faces of the triangle, of which the other one can be made the outer one. None of it takes memory.
fn expect_triangle(rt: &impl Abort, mut plane: Plane) {
    same!(rt, counts(&plane), (3, 3, 2, 0, 3));
    for dart in 0..plane.graph().darts() {
        let next = NEXTS.get(usize::from(dart)).copied();
        same!(rt, Some(plane.next(dart)), next);
        same!(rt, plane.face_of(dart), dart % 2);
    }
    assert!(rt; plane.face_count() == 2);
    plane.set_outer(1);
    same!(rt, (plane.outer(), plane.degree(1)), (1, 3));
}

/// A graph that is not planar as embedded is refused without taking memory.
#[test]
fn tori_take_no_memory(rt: HostRuntime) {
    let Ok(graph) = read(rt.alloc(), TETRAHEDRON_ON_A_TORUS) else {
        return;
    };
    match Plane::trace(rt.alloc(), graph) {
        Err(TraceFault::Genus(graph)) => same!(&rt, graph.edges(), 6),
        _ => assert!(rt; false),
    }
}
