//! Calls that may run out of memory. `checks/refuse-allocations` refuses each allocation of these tests in turn: what a
//! call borrowed is then as it was, and a second call answers as without the refusal. If a refusal comes before the
//! call, the test ends.

ghost use Rattle.std.specs.Prelude.{IfOk};
ghost use Rattle.flow_network.specs.FaceNet.{IsFaceNetOf};
ghost use Rattle.ortho_rep.specs.Representation.{IsShape};

use crate::ortho_rep_shapes::answers;
use crate::straightening_turns::{Figures, figures};
use faces::Plane;
use flow_network::FaceNet;
use min_cost_flow::{Arc, Cap, Network, SolveFault, WarmStart, solve};
use ortho_rep::{Prices, Shape, Turn, best_shape, least_shape};
use planar_code::{Ending, Record};
use std::alloc::{AllocError, Global};
use std::process::Abort;
use straightening::{Scratch, straighten_in};
use test_tools::records::{CAPPED_CUBE, PATH, TRIANGLE};
use test_tools::{frame, plane_in, same, split, strings_in};

/// A stream of two records.
const STREAM: &[u8] = b">>planar_code<<\x01\x00\x02\x00\x00";

/// Checks that these are the two records, and that the stream is complete.
fn expect_records(rt: &impl Abort, (records, ending): (Vec<Record>, Ending)) {
    same!(rt, (records.len(), ending), (2, Ending::Complete));
}

/// The records of the whole stream, by the second call if the first one runs out of memory.
fn split_at_last(rt: &impl Abort, alloc: Global) -> (Vec<Record>, Ending) {
    match split(alloc, STREAM) {
        Ok(whole) => whole,
        Err(AllocError) => split(alloc, STREAM).expect(rt, "memory"),
    }
}

/// The records of a stream in pieces, by the second call if the first one runs out of memory.
fn frame_at_last(rt: &impl Abort, alloc: Global, pieces: &[Vec<u8>]) -> (Vec<Record>, Ending) {
    match frame(alloc, pieces) {
        Ok(whole) => whole,
        Err(AllocError) => frame(alloc, pieces).expect(rt, "memory"),
    }
}

/// The stream as one piece.
fn pieces_in(alloc: Global) -> Option<Vec<Vec<u8>>> {
    let piece = STREAM.to_vec(alloc).ok()?;
    vec![in alloc; piece].ok()
}

/// Streams are split and framed at the second call if the first one runs out of memory.
#[test]
fn streams(rt: HostRuntime) {
    expect_records(&rt, split_at_last(&rt, rt.alloc()));
    if let Some(pieces) = pieces_in(rt.alloc()) {
        expect_records(&rt, frame_at_last(&rt, rt.alloc(), pieces.as_slice()));
    }
}

/// The one arc of a network, which costs 1 a unit.
const ARC: Arc = Arc {
    from: 0,
    to: 1,
    cap: Cap::Any,
    cost: 1,
};

/// A network of two nodes, three units from one to the other, and one arc; `None` if memory runs out for its lists.
/// Making the network of the lists takes no memory.
fn one_arc(rt: &impl Abort, alloc: Global) -> Option<Network> {
    let supplies = [3, -3].to_vec(alloc).ok()?;
    let arcs = [ARC].to_vec(alloc).ok()?;
    Some(Network::new(supplies, arcs).expect(rt, "a network"))
}

/// Checks what is read off the network of one arc.
fn expect_one_arc(rt: &impl Abort, network: &Network) {
    assert_eq!(rt; (network.node_count(), network.arc_count()), (2, 1));
    same!(rt, network.supplies(), [3, -3].as_slice());
    same!(rt, network.arcs(), [ARC].as_slice());
}

/// Checks the solution of that network, by the second call if the first one runs out of memory.
fn expect_solution(rt: &impl Abort, alloc: Global, network: &Network) {
    assert!(rt; network.node_count() == 2 && network.arc_count() == 1);
    let solved = match solve(alloc, network) {
        Ok(solved) => solved,
        Err(fault) => {
            same!(rt, fault, SolveFault::Memory);
            solve(alloc, network).expect(rt, "a flow")
        }
    };
    let potentials = (solved.potential(0), solved.potential(1));
    same!(rt, (solved.flow(0), potentials), (3, (-1, 0)));
    let counts = (solved.searches() > 0, solved.looks() > 0);
    same!(rt, counts, (true, true));
}

/// A network is solved at the second call if the first one runs out of memory.
#[test]
fn flows(rt: HostRuntime) {
    if let Some(network) = one_arc(&rt, rt.alloc()) {
        expect_solution(&rt, rt.alloc(), &network);
        expect_one_arc(&rt, &network);
    }
}

/// The warm start of a network, by the second call if the first one runs out of memory.
fn stand_at_last(rt: &impl Abort, alloc: Global, network: &Network) -> WarmStart {
    match WarmStart::new(alloc, network) {
        Ok(warm_start) => warm_start,
        Err(fault) => {
            same!(rt, fault, SolveFault::Memory);
            WarmStart::new(alloc, network).expect(rt, "a flow")
        }
    }
}

/// Checks the solution that is read off it, likewise.
fn expect_read_off(rt: &impl Abort, alloc: Global, warm_start: &WarmStart) {
    assert!(rt; warm_start.network().arc_count() == 1);
    let solved = match warm_start.solved(alloc) {
        Ok(solved) => solved,
        Err(AllocError) => warm_start.solved(alloc).expect(rt, "memory"),
    };
    same!(rt, solved.flow(0), 3);
}

/// Checks the warm start of a network, and the solution that is read off it.
fn expect_standing(rt: &impl Abort, alloc: Global, network: &Network) {
    let warm_start = stand_at_last(rt, alloc, network);
    same!(rt, warm_start.least_cost().0, 3);
    same!(rt, warm_start.network().supplies(), network.supplies());
    expect_read_off(rt, alloc, &warm_start);
}

/// A warm start is made at the second call if the first one runs out of memory.
#[test]
fn standing_flows(rt: HostRuntime) {
    if let Some(network) = one_arc(&rt, rt.alloc()) {
        expect_standing(&rt, rt.alloc(), &network);
    }
}

/// Checks the supplies and the numbers of a triangle's network: three vertices of two darts, the outer face 0 and the
/// inner face 1 of three darts each.
fn expect_network(rt: &impl Abort, net: &FaceNet) {
    let network = net.network();
    same!(rt, network.supplies(), [2, 2, 2, -7, 1].as_slice());
    same!(rt, network.arc_count(), 12);
    same!(rt, (net.corner_arc(1), net.crossing_arc(1)), (1, 7));
    same!(rt, (net.vertex_node(3), net.face_node(1)), (2, 4));
}

/// Checks the supplies after the other face was made the outer one.
fn expect_other_face(rt: &impl Abort, plane: &Plane, mut net: FaceNet)
    requires { IsFaceNetOf plane.now net }
{
    assert!(rt; plane.face_count() > 1);
    net.set_outer(plane, 1);
    let network = net.network();
    same!(rt, network.supplies(), [2, 2, 2, 1, -7].as_slice());
}

/// The network of a plane, by the second call if the first one runs out of memory.
fn network_at_last(rt: &impl Abort, alloc: Global, plane: &Plane) -> FaceNet
    ensures { IsFaceNetOf plane.now result }
{
    match FaceNet::build(alloc, plane) {
        Ok(net) => net,
        Err(AllocError) => FaceNet::build(alloc, plane).expect(rt, "memory"),
    }
}

/// The network of the triangle is built at the second call if the first one runs out of memory.
#[test]
fn networks(rt: HostRuntime) {
    let Some(plane) = plane_in(rt.alloc(), TRIANGLE) else {
        return;
    };
    let net = network_at_last(&rt, rt.alloc(), &plane);
    expect_network(&rt, &net);
    expect_other_face(&rt, &plane, net);
}

/// Checks that a least shape of a plane has one bend, by the second call if the first one runs out of memory.
fn expect_least(rt: &impl Abort, alloc: Global, plane: &Plane) {
    let (shape, prices) = match least_shape(alloc, plane) {
        Ok(found) => found,
        Err(AllocError) => least_shape(alloc, plane).expect(rt, "memory"),
    };
    same!(rt, shape.bends(), 1);
    same!(rt, answers(plane, &shape, &prices), (true, true));
}

/// A least shape is found at the second call if the first one runs out of memory.
#[test]
fn least_shapes(rt: HostRuntime) {
    if let Some(plane) = plane_in(rt.alloc(), TRIANGLE) {
        expect_least(&rt, rt.alloc(), &plane);
    }
}

/// The number of bends of a best shape of a plane, by the second call if the first one runs out of memory.
fn best_bends(rt: &impl Abort, alloc: Global, plane: &mut Plane) -> u32 {
    let (shape, _prices) = match best_shape(alloc, plane) {
        Ok(found) => found,
        Err(AllocError) => {
            same!(rt, plane.outer(), 0);
            best_shape(alloc, plane).expect(rt, "memory")
        }
    };
    shape.bends()
}

/// A best shape is found at the second call if the first one runs out of memory.
#[test]
fn best_shapes(rt: HostRuntime) {
    if let Some(mut plane) = plane_in(rt.alloc(), CAPPED_CUBE) {
        same!(&rt, best_bends(&rt, rt.alloc(), &mut plane), 8);
        same!(&rt, plane.outer(), 2);
    }
}

/// A least shape that was made straighter, and its prices.
fn straight_in(
    alloc: Global,
    scratch: &mut Scratch,
    plane: &Plane,
) -> Result<(Shape, Prices), AllocError>
    ensures { IfOk result (λ found. IsShape plane.now found.0) }
{
    let (shape, prices) = least_shape(alloc, plane)?;
    let straight = straighten_in(alloc, scratch, plane, shape, &prices)?;
    Ok((straight, prices))
}

/// The figures of a least shape that was made straighter, by the second call if the first one runs out of memory.
fn straight_figures(rt: &impl Abort, alloc: Global, plane: &Plane) -> Figures {
    let mut scratch = Scratch::new();
    let (shape, prices) = match straight_in(alloc, &mut scratch, plane) {
        Ok(found) => found,
        Err(AllocError) => straight_in(alloc, &mut scratch, plane).expect(rt, "memory"),
    };
    figures(plane, &shape, &prices)
}

/// A shape is made straighter at the second call if the first one runs out of memory.
#[test]
fn straight_shapes(rt: HostRuntime) {
    if let Some(plane) = plane_in(rt.alloc(), PATH) {
        let found = straight_figures(&rt, rt.alloc(), &plane);
        same!(&rt, found, (0, 0, (true, true)));
    }
}

/// Checks what is read off the shape of these strings.
fn expect_strings(rt: &impl Abort, shape: &Shape) {
    assert_eq!(rt; (shape.angle_count(), shape.string_count()), (3, 2));
    same!(rt, (shape.angle(0), shape.bends()), (7, 1));
    same!(rt, shape.turns(0), [Turn::Left, Turn::Right].as_slice());
}

/// Shapes that are made of lists, and what is read off them, take no memory.
#[test]
fn lists_of_shapes(rt: HostRuntime) {
    let strings = strings_in(rt.alloc(), &[&[Turn::Left, Turn::Right], &[]]);
    let (Ok(strings), Ok(angles)) = (strings, [7, 0, 1].to_vec(rt.alloc())) else {
        return;
    };
    assert!(rt; Shape::have_few_turns(&strings));
    expect_strings(&rt, &Shape::new(angles, strings));
}

/// Checks what is read off prices of two vertices and one face.
fn expect_prices(rt: &impl Abort, prices: &Prices) {
    assert_eq!(rt; (prices.vertex_count(), prices.face_count()), (2, 1));
    same!(rt, (prices.vertex(2), prices.face(0)), (6, 7));
}

/// Prices that are made of lists, and what is read off them, take no memory.
#[test]
fn lists_of_prices(rt: HostRuntime) {
    let (Ok(vertices), Ok(faces)) = ([-5, 6].to_vec(rt.alloc()), [7].to_vec(rt.alloc())) else {
        return;
    };
    expect_prices(&rt, &Prices::new(vertices, faces));
}
