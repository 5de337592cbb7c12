//! Prices of vertices and faces, and whether they prove a shape least: complementary slackness (Ahuja, Magnanti and
//! Orlin, Network Flows, 1993, section 9.3).
ghost use Rattle.std.specs.Prelude.{◌≡◌, ◌<◌, ◌≤◌, length, ◌↔◌, pos, ◌+ℤ◌, ◌-ℤ◌, IsTrue};
ghost use Rattle.ortho_rep.specs.Prices.{vertex_price, face_price, IsAnglePriced, AreTurnsPriced, IsAngleKept, AreTurnsKept, IsPricedAt, ProveKeeping, HasPrices, IsProof, IsProofKeeping};
ghost use Rattle.faces.specs.Planes.{darts};
ghost use Rattle.ortho_rep.specs.Shapes.{angle_at, turns_at};
ghost use Rattle.ortho_rep.specs.Representation.{Rep, HasDarts, IsShape, IsLeast};
ghost use Rattle.ortho_rep.specs.Keeping.{one_way, IsLeastKeeping};

use crate::representation::has_darts;
use crate::shape::{Scratch, Shape};
use crate::turn_strings::{Turn, count_lefts};
use faces::Plane;
use flow_network::Given;
use std::marker::Model;

/// The dual prices: an integer for each vertex and each face of a plane. In contracts it is the two lists.
///
/// If they agree with a representation, they prove it least: `certify` is the test. No accessor allocates, and each
/// takes constant time.
#[derive(Debug, Drop)]
pub struct Prices {
    vertices: Vec<i32>,
    faces: Vec<i32>,
}

impl Model for Prices {
    ghost use Rattle.ortho_rep.specs.Prices.{PricesModel};

    ghost Value = { PricesModel };

    ghost view = { λ a. record { vertices = a.vertices.items; faces = a.faces.items } };
}

impl Prices {
    /// The prices with these lists: `vertices[v - 1]` is that of vertex v, `faces[f]` that of face f. Nothing is
    /// checked.
    ///
    /// It allocates nothing.
    pub fn new(vertices: Vec<i32>, faces: Vec<i32>) -> Prices
        ensures { result ≡ record { vertices = vertices.items; faces = faces.items } }
    {
        Prices { vertices, faces }
    }

    /// Moves the two lists of these prices to `scratch`, to be reused; the lists that were there are dropped. It
    /// allocates nothing.
    pub fn give_back(self, scratch: &mut Scratch) {
        scratch.lists.vertex_prices = self.vertices;
        scratch.lists.face_prices = self.faces;
    }

    /// The number of vertices that have a price.
    pub fn vertex_count(&self) -> usize
        ensures { result ≡ length self.now.vertices }
    {
        self.vertices.len()
    }

    /// The number of faces that have a price.
    pub fn face_count(&self) -> usize
        ensures { result ≡ length self.now.faces }
    {
        self.faces.len()
    }

    /// The price of a vertex, numbered from 1.
    pub fn vertex(&self, vertex: u16) -> i32
        requires some { 0 < vertex }
        requires within { vertex ≤ length self.now.vertices }
        ensures { result ≡ vertex_price self.now vertex }
    {
        self.vertices[usize::from(vertex) - 1]
    }

    /// The price of a face, numbered from 0.
    pub fn face(&self, face: u16) -> i32
        requires { face < length self.now.faces }
        ensures { result ≡ face_price self.now face }
    {
        self.faces[usize::from(face)]
    }
}

/// Whether the prices prove that the shape, if `is_shape` accepts it, has the fewest bends (complementary slackness).
/// False also if a list does not have the plane's length; `is_shape` itself is not called.
///
/// All four lists must have the plane's lengths, and each dart's angle and turns must agree with the prices of its
/// head, of its face and of the face across. It does not matter who made the shape and its prices. It allocates
/// nothing; linear in the turns and the darts.
pub fn certify(plane: &Plane, shape: &Shape, prices: &Prices) -> bool
    ensures exact { IsTrue result ↔ IsProof plane.now shape.now prices.now }
    ensures least { IsTrue result → IsShape plane.now shape.now → IsLeast plane.now shape.now }
{
    certify_keeping(plane, &Given::nothing(), shape, prices)
}

/// Whether the prices prove that the shape, if `is_shape` accepts it, has the fewest bends of all that keep what is
/// given. False also if it does not keep that, or a list does not have the plane's length; `is_shape` itself is not
/// called.
///
/// What is given must be as it is given, and the prices must agree with all other angles and turns of the shape. For an
/// angle or turns that are given the prices there say nothing.
pub fn certify_keeping(plane: &Plane, given: &Given<'_>, shape: &Shape, prices: &Prices) -> bool
    ensures exact { IsTrue result ↔ IsProofKeeping plane.now given.now shape.now prices.now }
    ensures least { IsTrue result → IsShape plane.now shape.now → IsLeastKeeping plane.now given.now shape.now }
{
    has_darts(plane, shape) && has_prices(plane, prices) && are_priced(plane, given, shape, prices)
}

/// Whether there is a price for each vertex and each face of the plane, and no more.
fn has_prices(plane: &Plane, prices: &Prices) -> bool
    ensures { IsTrue result ↔ HasPrices plane.now prices.now }
{
    prices.vertex_count() == usize::from(plane.graph().vertices())
        && prices.face_count() == usize::from(plane.face_count())
}

/// Whether the angle and the turns of each dart are as given, or agree with the prices where none are given.
fn are_priced(plane: &Plane, given: &Given<'_>, shape: &Shape, prices: &Prices) -> bool
    requires darts { HasDarts plane.now shape.now }
    requires prices { HasPrices plane.now prices.now }
    ensures exact { IsTrue result ↔ ProveKeeping plane.now given.now (angle_at shape.now) (turns_at shape.now) (vertex_price prices.now) (face_price prices.now) }
    ensures least { IsTrue result → Rep plane.now (angle_at shape.now) (turns_at shape.now) → IsLeastKeeping plane.now given.now shape.now }
{
    for dart in 0..plane.graph().darts() {
        if !is_priced_at(plane, given, shape, prices, dart) {
            return false;
        }
    }
    true
}

/// Whether the angle of a dart is as given, or agrees with the prices if none is given, and so its turns.
fn is_priced_at(plane: &Plane, given: &Given<'_>, shape: &Shape, prices: &Prices, dart: u16) -> bool
    requires within { dart < darts plane.now }
    requires darts { HasDarts plane.now shape.now }
    requires prices { HasPrices plane.now prices.now }
    ensures { IsTrue result ↔ IsPricedAt plane.now given.now (angle_at shape.now) (turns_at shape.now) (vertex_price prices.now) (face_price prices.now) dart }
{
    let graph = plane.graph();
    let vertex = prices.vertex(graph.head(dart));
    let face = prices.face(plane.face_of(dart));
    let across = prices.face(plane.face_of(graph.reverse(dart)));
    is_angle_kept(given.angle(dart), shape.angle(dart), vertex, face)
        && are_turns_kept(given.turns(plane, dart), shape.turns(dart), face, across)
}

/// Whether `angle` is the given one or, if `given` is `None`, agrees with the prices of its vertex and its face.
fn is_angle_kept(given: Option<u8>, angle: u8, vertex: i32, face: i32) -> bool
    ensures { IsTrue result ↔ IsAngleKept given angle vertex face }
{
    match given {
        Some(asked) => angle == asked,
        None => angle_agrees(angle, vertex, face),
    }
}

/// Whether `turns` are exactly those given, all to one side, or, if `given` is `None`, agree with the prices of their
/// face and of the face across.
fn are_turns_kept(given: Option<i32>, turns: &[Turn], face: i32, across: i32) -> bool
    ensures { IsTrue result ↔ AreTurnsKept given turns.now face across }
{
    match given {
        Some(asked) => are_one_way(turns, asked),
        None => crossing_agrees(turns, face, across),
    }
}

/// Whether the turns are exactly `lefts` left turns, or `-lefts` right turns if `lefts` is negative; for 0, whether
/// there are no turns.
fn are_one_way(turns: &[Turn], lefts: i32) -> bool
    ensures { IsTrue result ↔ (turns.now ≡ one_way lefts) }
{
    let count = lefts.unsigned_abs() as usize;
    if turns.len() != count {
        return false;
    }
    let made = count_lefts(turns);
    if lefts < 0 { made == 0 } else { made == count }
}

/// Whether an angle agrees with the prices of its vertex and its face: that of the face is at most that of the vertex
/// for angles up to 1, equal to it for 2 and 3, and at least as high for 4 and more.
fn angle_agrees(angle: u8, vertex: i32, face: i32) -> bool
    ensures { IsTrue result ↔ IsAnglePriced angle vertex face }
{
    match angle {
        0 | 1 => face <= vertex,
        2 | 3 => face == vertex,
        _ => vertex <= face,
    }
}

/// Whether turns along a dart agree with the prices of its face and of the face across: their reduced cost is 0 if
/// there is a left turn, and at least 0 if there is none.
fn crossing_agrees(turns: &[Turn], face: i32, across: i32) -> bool
    ensures { IsTrue result ↔ AreTurnsPriced turns.now face across }
{
    let reduced_cost = reduced_cost(face, across);
    if count_lefts(turns) == 0 {
        reduced_cost >= 0
    } else {
        reduced_cost == 0
    }
}

/// The reduced cost of a unit from a face to the face across: 1, plus the price of the face, less that of the one
/// across.
fn reduced_cost(face: i32, across: i32) -> i64
    ensures { result ≡ (pos 1 +ℤ face -ℤ across) }
{
    1 + i64::from(face) - i64::from(across)
}
