//! Conditions of every size, up to both darts of all edges of graphs with 255 vertices, and more.

ghost use Rattle.std.specs.Prelude.{◌<◌};

use common::Choice;
use conditions::{Conditions, DartEnds, KeepFault, TurnsAlong, shape_keeping_in};
use faces::Plane;
use ortho_rep::Scratch;
use std::alloc::{AllocError, Global};
use std::process::Abort;
use test_tools::records::SQUARE;
use test_tools::{plane_in, same};

/// A grid of this many rows and columns, at most 255 vertices. Neighbours to the north, east, south and west.
pub(crate) fn grid(alloc: Global, rows: u8, columns: u8) -> Result<Vec<u8>, AllocError>
    requires columns { 0 < columns }
{
    let mut bytes = Vec::new(alloc);
    let count = rows.wrapping_mul(columns);
    bytes.push(count)?;
    for place in 0..count {
        let vertex = place + 1;
        if vertex > columns {
            bytes.push(vertex - columns)?;
        }
        if vertex % columns != 0 {
            bytes.push(vertex.wrapping_add(1))?;
        }
        if count - vertex >= columns {
            bytes.push(vertex + columns)?;
        }
        if place % columns != 0 {
            bytes.push(place)?;
        }
        bytes.push(0)?;
    }
    Ok(bytes)
}

/// A neighbour of a vertex on rings of vertices: on which ring, and how far around, minus one.
type Beside = (u8, u8);

/// The edges of a prism, where two are neighbours if they follow each other around a corner of a face. Its rings are the
/// edges of one end, the edges from end to end, and the edges of the other end.
///
/// Each vertex has four neighbours. Two faces have as many darts as the prism has sides; around them are triangles, and
/// between these are squares.
const PRISM_EDGES: [[Beside; 4]; 3] = [
    [(0, 2), (0, 0), (1, 1), (1, 2)],
    [(0, 1), (0, 0), (2, 0), (2, 1)],
    [(2, 2), (1, 2), (1, 1), (2, 0)],
];

/// The sides of the prism: the graph of its edges has 255 vertices.
const SIDES: u8 = 85;

/// The number of a neighbour of the vertex at a place of a ring with `SIDES` vertices.
fn number(beside: Beside, place: u8) -> u8 {
    let (ring, round) = beside;
    let reached = if round == 0 && place == 0 {
        SIDES
    } else if round == 2 && place.wrapping_add(1) == SIDES {
        1
    } else {
        place.wrapping_add(round)
    };
    ring.wrapping_mul(SIDES).wrapping_add(reached)
}

/// The record of the graph of the prism's edges: 255 vertices, 510 edges, 257 faces.
fn prism_edges(alloc: Global) -> Result<Vec<u8>, AllocError> {
    let mut bytes = Vec::new(alloc);
    bytes.push(255)?;
    for ring in PRISM_EDGES {
        for place in 0..SIDES {
            for beside in ring {
                bytes.push(number(beside, place))?;
            }
            bytes.push(0)?;
        }
    }
    Ok(bytes)
}

/// All darts of a plane, except those with this face on their left.
fn darts_but(alloc: Global, plane: &Plane, face: Option<u16>) -> Result<Vec<DartEnds>, AllocError> {
    let graph = plane.graph();
    let mut list = Vec::new(alloc);
    for dart in 0..graph.darts() {
        if Some(plane.face_of(dart)) != face {
            list.push(DartEnds {
                from: graph.tail(dart),
                to: graph.head(dart),
            })?;
        }
    }
    Ok(list)
}

/// No turns along the darts of a list.
fn straight_along(alloc: Global, list: &[DartEnds]) -> Result<Vec<TurnsAlong>, AllocError> {
    let mut turns = Vec::new(alloc);
    for ends in list.iter() {
        turns.push(TurnsAlong {
            from: ends.from,
            to: ends.to,
            turns: 0,
        })?;
    }
    Ok(turns)
}

/// The number of bends and the number of darts of the outer face, or the reason why there is no shape.
type Told = Result<(u32, u16), &'static str>;

/// What is found of a plane under conditions.
fn told(
    alloc: Global,
    plane: &mut Plane,
    straight: &[TurnsAlong],
    inner: &[DartEnds],
    choice: Choice,
) -> Told {
    let mut scratch = Scratch::empty(alloc);
    let conditions = Conditions {
        turns: straight,
        angles: &[],
        inner,
    };
    match shape_keeping_in(alloc, &mut scratch, plane, &conditions, choice) {
        Ok((shape, _)) => Ok((shape.bends(), plane.degree(plane.outer()))),
        Err(KeepFault::NoAngle) => Err("no angle"),
        Err(KeepFault::NoEdge) => Err("no edge"),
        Err(KeepFault::Conflict) => Err("conflict"),
        Err(KeepFault::TooManyTurns) => Err("too many turns"),
        Err(KeepFault::NoOuter) => Err("no outer face"),
        Err(KeepFault::NoShape(_)) => Err("no shape"),
        Err(KeepFault::Memory) => Err("memory"),
    }
}

/// A grid of 255 vertices is drawn with all edges straight and with all faces inside but the one with 60 darts.
/// With all faces inside there is no outer face.
#[test]
fn both_darts_of_all_edges_of_a_grid(rt: HostRuntime) {
    let alloc = rt.alloc();
    let bytes = grid(alloc, 15, 17).expect(&rt, "memory");
    let mut plane = plane_in(alloc, &bytes).expect(&rt, "a plane");
    let all = darts_but(alloc, &plane, None).expect(&rt, "memory");
    let straight = straight_along(alloc, &all).expect(&rt, "memory");
    let outer = Some(plane.outer());
    let inner = darts_but(alloc, &plane, outer).expect(&rt, "memory");
    same!(&rt, (all.len(), inner.len()), (956, 896));
    for choice in [Choice::First, Choice::Best] {
        let found = told(alloc, &mut plane, &straight, &inner, choice);
        same!(&rt, found, Ok((0, 60)));
        let found = told(alloc, &mut plane, &straight, &all, choice);
        same!(&rt, found, Err("no outer face"));
    }
}

/// In a graph whose vertices all have four neighbours each angle is a right one, so triangles have bends.
///
/// Of the 170 triangles each turns once too little. The inner face of 85 darts turns 81 times too often, the outer one 89
/// times; each is beside 85 triangles. So 166 turns cross one edge, and four cross three edges from one side of the prism
/// to the other.
#[test]
fn all_edges_of_a_graph_with_510(rt: HostRuntime) {
    let alloc = rt.alloc();
    let bytes = prism_edges(alloc).expect(&rt, "memory");
    let mut plane = plane_in(alloc, &bytes).expect(&rt, "a plane");
    let all = darts_but(alloc, &plane, None).expect(&rt, "memory");
    let straight = straight_along(alloc, &all).expect(&rt, "memory");
    let outer = Some(plane.outer());
    let inner = darts_but(alloc, &plane, outer).expect(&rt, "memory");
    same!(&rt, (all.len(), inner.len()), (1020, 935));
    let found = told(alloc, &mut plane, &[], &inner, Choice::First);
    same!(&rt, found, Ok((178, 85)));
    let found = told(alloc, &mut plane, &[], &inner, Choice::Best);
    same!(&rt, found, Ok((178, 85)));
    let found = told(alloc, &mut plane, &straight, &inner, Choice::First);
    same!(&rt, found, Err("no shape"));
    let found = told(alloc, &mut plane, &straight, &inner, Choice::Best);
    same!(&rt, found, Err("no shape"));
    let found = told(alloc, &mut plane, &straight, &all, Choice::First);
    same!(&rt, found, Err("no outer face"));
}

/// The square's darts, as often as asked for: with all edges straight it has no bends, however often they are named.
#[test]
fn each_number_of_conditions(rt: HostRuntime) {
    let alloc = rt.alloc();
    let mut plane = plane_in(alloc, SQUARE).expect(&rt, "a plane");
    let all = darts_but(alloc, &plane, None).expect(&rt, "memory");
    let straight = straight_along(alloc, &all).expect(&rt, "memory");
    let outer = Some(plane.outer());
    let inner = darts_but(alloc, &plane, outer).expect(&rt, "memory");
    let mut straight_list = Vec::new(alloc);
    let mut inner_list = Vec::new(alloc);
    for _ in 0..140 {
        straight_list
            .extend_from_slice(&straight)
            .expect(&rt, "memory");
        inner_list.extend_from_slice(&inner).expect(&rt, "memory");
    }
    same!(&rt, (straight_list.len(), inner_list.len()), (1120, 560));
    for count in 0..=1120usize {
        let straight = straight_list.get(..count).expect(&rt, "a list");
        let inner = inner_list.get(..count / 2).expect(&rt, "a list");
        let found = told(alloc, &mut plane, straight, inner, Choice::First);
        same!(&rt, found, Ok((0, 4)));
    }
}
