//! What drawings show: bends, how long edges are, and vertices of degree 2 that turn.

use faces::Plane;
use ortho_rep::{Point, Points, Shape};

/// The angle, in right angles, that no vertex has but one of degree 2 that turns, and it has it once.
const REFLEX: u8 = 3;

/// The number of drawings, and in all of them the number of bends, the length of the edges, and the number of vertices
/// of degree 2 that turn.
#[derive(Clone, Copy, PartialEq, Eq, Debug)]
pub struct Figures {
    pub graphs: u32,
    pub bends: u32,
    pub length: u32,
    pub turning: u32,
}

impl Figures {
    /// The figures of no drawing.
    pub fn none() -> Figures {
        Figures {
            graphs: 0,
            bends: 0,
            length: 0,
            turning: 0,
        }
    }

    /// The sum of both.
    pub fn with(self, other: Figures) -> Figures {
        Figures {
            graphs: self.graphs.wrapping_add(other.graphs),
            bends: self.bends.wrapping_add(other.bends),
            length: self.length.wrapping_add(other.length),
            turning: self.turning.wrapping_add(other.turning),
        }
    }
}

/// The figures of one drawing.
pub fn figures_of(plane: &Plane, shape: &Shape, points: &Points) -> Figures {
    Figures {
        graphs: 1,
        bends: shape.bends(),
        length: length_of(plane, points),
        turning: turning_of(plane, shape),
    }
}

/// How many vertices of degree 2 turn.
fn turning_of(plane: &Plane, shape: &Shape) -> u32 {
    let mut count: u32 = 0;
    for dart in 0..plane.graph().darts() {
        if usize::from(dart) < shape.angle_count() && shape.angle(dart) == REFLEX {
            count = count.wrapping_add(1);
        }
    }
    count
}

/// The total length of all edges.
fn length_of(plane: &Plane, points: &Points) -> u32 {
    let graph = plane.graph();
    let mut length: u32 = 0;
    let mut edge: u16 = 0;
    for dart in 0..graph.darts() {
        if dart < graph.reverse(dart) && usize::from(edge) < points.edge_count() {
            let from = place_of(points, graph.tail(dart));
            let to = place_of(points, graph.head(dart));
            length = length.wrapping_add(length_between(from, points.corners(edge), to));
            edge = edge.wrapping_add(1);
        }
    }
    length
}

/// How long the path from a point to another one is, by these corners.
fn length_between(from: Point, corners: &[Point], to: Point) -> u32 {
    let mut length: u32 = 0;
    let mut at = from;
    for corner in corners {
        length = length.wrapping_add(distance(at, *corner));
        at = *corner;
    }
    length.wrapping_add(distance(at, to))
}

/// How far two points are from each other along both axes.
fn distance(from: Point, to: Point) -> u32 {
    from.x.abs_diff(to.x).wrapping_add(from.y.abs_diff(to.y))
}

/// The point of a vertex, or the origin if there is none.
fn place_of(points: &Points, vertex: u16) -> Point {
    match points.vertices().get(usize::from(vertex).wrapping_sub(1)) {
        Some(place) => *place,
        None => Point { x: 0, y: 0 },
    }
}
