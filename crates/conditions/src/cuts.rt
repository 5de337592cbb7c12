//! Cuts of a plane: sets of vertices and faces that turn more than can leave them, so that no representation keeps what
//! is given (Gale 1957, Tamassia 1987). Also why no shape that keeps the conditions was returned.
ghost use Rattle.std.specs.Prelude.{◌≡◌, ◌+◌, ◌-◌, ◌<◌, ◌≤◌, ℕ, pos, ◌<ℤ◌, Bool, List, true, false, IfOk, IfSome, IfNone, length};
ghost use Rattle.faces.specs.Planes.{PlaneModel, IsPlane, darts, vertices, head};
ghost use Rattle.flow_network.specs.Marks.{is_marked};
ghost use Rattle.flow_network.specs.Given.{GivenModel};
ghost use Rattle.flow_network.specs.FaceNet.{vertex_has_to_turn};
ghost use Rattle.min_cost_flow.specs.Overfull.{is_in};
ghost use Rattle.ortho_rep.specs.declared.turn_strings.Turn.{Turn};
ghost use Rattle.ortho_rep.specs.Representation.{Rep};
ghost use Rattle.ortho_rep.specs.Keeping.{Keeps, HasNoneKeeping};
ghost use Rattle.conditions.specs.Cut.{ShowsNone, HasFacesIn, HasFaceOut, IsLeftOut};

use common::emptied;
use faces::Plane;
use flow_network::{FaceNet, Given, has_mark, vertex_supply};
use min_cost_flow::overfull_in;
use std::alloc::{AllocError, Global};
use thiserror::Error;

/// A set of vertices and faces, stored as a mark for each.
///
/// With a vertex, the face of each of its angles that are not given is in the set, since a right angle can go to each;
/// with a face, each face across an edge whose turns are not given, since a bend can. So what they have to turn stays
/// among them, and if that is more than 0, there is no representation. With k for each given angle and t for each given
/// number of left turns, a vertex has to turn 4 right angles less its degree and less the sum of k - 1; an inner face 4
/// less its degree, more the sum of k - 1 and less the sum of t; the outer face the same with -4.
#[derive(Debug, Drop)]
pub struct Cut {
    /// A mark for each vertex: place v - 1 is that of vertex v.
    pub vertices: Vec<bool>,
    /// A mark for each face.
    pub faces: Vec<bool>,
}

/// Returns a cut that proves that no representation keeps what is given, or `None` if some representation does;
/// `AllocError` if there is no memory for the network, its flow or the set.
///
/// The cut is a set of vertices and faces that turn more than can leave it.
///
/// # Errors
///
/// `AllocError` if there is no memory for the network, its flow or the set.
pub fn violated_cut(
    alloc: Global,
    plane: &Plane,
    given: &Given<'_>,
) -> Result<Option<Cut>, AllocError>
    ensures shown { IfOk result (λ found. IfSome found (λ cut. ShowsNone plane.now given.now cut.vertices.items cut.faces.items)) }
    ensures none { IfOk result (λ found. IfNone found ((a : ℕ → ℕ) × (s : ℕ → List Turn) × Rep plane.now a s × Keeps plane.now given.now a s)) }
{
    // Only the proof needs these: they say that the plane is one, and how much can be given.
    let _graph = plane.graph();
    let _is_nothing = given.is_nothing();
    let mut lists = flow_network::Scratch::empty(alloc);
    let net = FaceNet::build_keeping_in(alloc, &mut lists, plane, given)?;
    let mut solver = min_cost_flow::Scratch::empty(alloc);
    let Some(nodes) = overfull_in(alloc, &mut solver, net.network())? else {
        return Ok(None);
    };
    let faces = face_marks(alloc, plane, &nodes)?;
    let vertices = vertex_marks(alloc, plane, given, &faces)?;
    Ok(Some(Cut { vertices, faces }))
}

/// Returns the marks of the faces, by face, from `nodes`, which has the marks of all vertices first and then those of
/// all faces; `AllocError` if there is no memory for them.
fn face_marks(alloc: Global, plane: &Plane, nodes: &[bool]) -> Result<Vec<bool>, AllocError>
    requires { length nodes.now ≡ vertices plane.now + plane.now.faces }
    ensures size { IfOk result (λ faces. length faces.items ≡ plane.now.faces) }
    ensures each { IfOk result (λ faces. (f : ℕ) → f < plane.now.faces → is_marked faces.items f ≡ is_in nodes.now (vertices plane.now + f)) }
{
    let first = usize::from(plane.graph().vertices());
    let mut faces = emptied(Vec::new(alloc), usize::from(plane.face_count()))?;
    for face in 0..plane.face_count() {
        faces.push(nodes[first + usize::from(face)])?;
    }
    Ok(faces)
}

/// Returns a mark for each vertex, that of vertex v at place v - 1: true if it has something to turn, and all its
/// angles that are not given lie in faces that `faces` marks; `AllocError` if there is no memory for them. It goes over
/// all darts of the plane for each vertex.
fn vertex_marks(
    alloc: Global,
    plane: &Plane,
    given: &Given<'_>,
    faces: &[bool],
) -> Result<Vec<bool>, AllocError>
    ensures size { IfOk result (λ marks. length marks.items ≡ vertices plane.now) }
    ensures some { IfOk result (λ marks. (k : ℕ) → is_marked marks.items k ≡ true → pos 0 <ℤ vertex_has_to_turn plane.now given.now (k + 1)) }
    ensures inside { IfOk result (λ marks. (k : ℕ) → is_marked marks.items k ≡ true → HasFacesIn plane.now given.now faces.now (k + 1)) }
    ensures outside { IfOk result (λ marks. (k : ℕ) → k < vertices plane.now → is_marked marks.items k ≡ false → IsLeftOut plane.now given.now faces.now (k + 1)) }
{
    let vertices = plane.graph().vertices();
    let mut marks = emptied(Vec::new(alloc), usize::from(vertices))?;
    for place in 0..vertices {
        marks.push(lies_in_cut(plane, given, faces, place + 1))?;
    }
    Ok(marks)
}

/// Whether the vertex `vertex`, numbered from 1, has something to turn, and all its angles that are not given lie in
/// faces that `faces` marks. It goes over all darts of the plane.
fn lies_in_cut(plane: &Plane, given: &Given<'_>, faces: &[bool], vertex: u16) -> bool
    requires some { 0 < vertex }
    requires within { vertex ≤ vertices plane.now }
    ensures some { result ≡ true → pos 0 <ℤ vertex_has_to_turn plane.now given.now vertex }
    ensures inside { result ≡ true → HasFacesIn plane.now given.now faces.now vertex }
    ensures outside { result ≡ false → IsLeftOut plane.now given.now faces.now vertex }
{
    if vertex_supply(plane, given, vertex) <= 0 {
        return false;
    }
    has_faces_in(plane, given, faces, vertex)
}

/// Whether `faces` marks each face in which the vertex `vertex` has an angle that is not given; true if there is no
/// such angle. It looks at all darts of the plane.
fn has_faces_in(plane: &Plane, given: &Given<'_>, faces: &[bool], vertex: u16) -> bool
    ensures inside { result ≡ true → HasFacesIn plane.now given.now faces.now vertex }
    ensures outside { result ≡ false → HasFaceOut plane.now given.now faces.now vertex }
{
    let graph = plane.graph();
    for dart in 0..graph.darts() {
        let is_free = graph.head(dart) == vertex && given.angle(dart).is_none();
        if is_free && !has_mark(faces, plane.face_of(dart)) {
            return false;
        }
    }
    true
}

/// Theorem: if a set of vertices and faces turns more than can leave it, no representation keeps what is given.
pub fn cut_shows_none()
    ensures { (p : PlaneModel) (given : GivenModel) (vertices faces : List Bool) → IsPlane p → ShowsNone p given vertices faces → HasNoneKeeping p given }
{}

/// The reason why no shape that keeps the conditions was returned.
#[derive(Debug, Drop, Error)]
pub enum KeepFault {
    /// An angle is not 1 to 4 right angles.
    #[error("an angle is not 1 to 4 right angles")]
    NoAngle,
    /// Two vertices that name an edge or a face are not adjacent.
    #[error("two vertices are not adjacent")]
    NoEdge,
    /// Two conditions on one angle, or on one edge, differ.
    #[error("two conditions on one angle or one edge differ")]
    Conflict,
    /// All edges together have more than `MAX_GIVEN_TURNS` turns that are asked for.
    #[error("more turns are asked for than edges can be given")]
    TooManyTurns,
    /// All faces are to stay inside, so none can be the outer face.
    #[error("all faces must be inner, so none can be the outer face")]
    NoOuter,
    /// No shape with a chosen outer face keeps the angles and turns.
    #[error("no orthogonal representation has these angles and turns")]
    NoShape(Unkept),
    /// An allocation was refused.
    #[error("out of memory")]
    Memory,
}

impl From<AllocError> for KeepFault {
    ghost use Rattle.std.specs.Prelude.{◌≡◌};
    ghost use Rattle.conditions.specs.declared.cuts.KeepFault.TheVariants.{Memory};

    ghost from_gives = { λ _ fault. fault ≡ Memory };

    /// The fault `Memory`, in place of a refused allocation.
    fn from(_refused: AllocError) -> KeepFault {
        KeepFault::Memory
    }
}

/// A proof that no shape with a certain outer face keeps what is given: a cut that turns more than can leave it.
#[derive(Debug, Drop)]
pub struct Unkept {
    /// The outer face: of those that may be outside the one with the most darts, among equals the one with the least
    /// number.
    pub outer: u16,
    /// The vertices and faces that turn more than can leave them.
    pub cut: Cut,
}
