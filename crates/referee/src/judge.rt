//! The verdict on points: whether they draw an embedding, what is wrong with them first, and how few bends the
//! embedding needs. Buffers are reused.
ghost use Rattle.std.specs.Prelude.{◌≡◌, ◌+◌, OnOk, replicate, IfOk, ◌≢◌, IfErr};
ghost use Rattle.referee.specs.declared.judge.Fault.TheVariants.{Memory};
ghost use Rattle.faces.specs.Planes.{vertices, with_outer};
ghost use Rattle.ortho_rep.specs.Best.{HasRep, NeedsBends};
ghost use Rattle.referee.specs.Drawings.{IsDrawnBy, IsDrawn};
ghost use Rattle.referee.specs.Faults.{IsFirstFailure};

use crate::conditions::{check_angle_sums, check_axes, check_counts, check_grid, find_outer};
use crate::shape::shape_of;
use drawing_check::{CheckFault, Drawing, check_in};
use faces::Plane;
use geometry::Direction;
use ortho_rep::{Points, Shape, is_shape, least_shape_in};
use std::alloc::{AllocError, Global};
use thiserror::Error;

/// The first condition of a drawing that fails, in the order of the variants, at the first place where it fails: the
/// least vertex; or the least edge, and on it the least corner or part.
///
/// Edges are numbered from 0 in the order of their lesser darts. The path of an edge leads from the tail of its lesser
/// dart, point 0, by its corners to the head.
#[derive(Clone, Copy, Debug, PartialEq, Eq, Error)]
pub enum Fault {
    /// There is not one point for each vertex.
    #[error("the number of points differs from the number of vertices")]
    Vertices,
    /// There is not one list of corners for each edge.
    #[error("the number of corner lists differs from the number of edges")]
    Edges,
    /// An edge has more than 1,000,000 corners.
    #[error("edge {edge} has more than 1,000,000 corners")]
    Long { edge: u16 },
    /// A coordinate of a vertex is above 65,535.
    #[error("vertex {vertex} has a coordinate above 65535")]
    VertexOutOfGrid { vertex: u16 },
    /// A coordinate of a corner is above 65,535. Corners are numbered from 0.
    #[error("corner {corner} of edge {edge} has a coordinate above 65535")]
    CornerOutOfGrid { edge: u16, corner: usize },
    /// The points with the numbers `part` and `part + 1` of an edge's path are equal, or differ in both coordinates.
    #[error("segment {part} of edge {edge} has length 0 or is not parallel to an axis")]
    NotAxis { edge: u16, part: usize },
    /// The edge does not turn at this corner by a quarter: it goes straight on, or back.
    #[error("edge {edge} does not turn at corner {corner}")]
    NoTurn { edge: u16, corner: usize },
    /// The edges at this vertex do not leave it in the clockwise order of the record.
    #[error("the edges at vertex {vertex} are not in the clockwise order of the record")]
    Embedding { vertex: u16 },
    /// No face can be the outer one: with each choice, some face does not turn as it must.
    #[error("no face can be the outer face")]
    Outer,
    /// Two edges meet, or an edge meets itself or a vertex that is not its end, or two vertices are at one point.
    #[error("edges or vertices overlap")]
    Meet,
    /// Memory ran out; this says nothing of the points.
    #[error("out of memory")]
    Memory,
}

impl From<AllocError> for Fault {
    ghost from_gives = { λ _ fault. fault ≡ Memory };

    /// Converts an `AllocError` to the fault `Memory`. It never fails, and allocates nothing.
    fn from(_refused: AllocError) -> Fault {
        Fault::Memory
    }
}

/// The buffers of `judge_in`, reused for the next drawing. Their contents between two calls do not matter.
#[derive(Drop)]
pub struct Scratch {
    pub(crate) drawings: drawing_check::Scratch,
    pub(crate) shapes: ortho_rep::Scratch,
    /// The directions in which the darts leave their tails.
    pub(crate) directions: Vec<Direction>,
    pub(crate) sums: Sums,
}

impl Scratch {
    /// An empty scratch. It allocates nothing.
    pub fn empty(alloc: Global) -> Scratch {
        Scratch {
            drawings: drawing_check::Scratch::empty(alloc),
            shapes: ortho_rep::Scratch::empty(alloc),
            directions: Vec::new(alloc),
            sums: Sums::empty(alloc),
        }
    }
}

/// The sums of angles and of turns round the vertices and the faces of a plane.
#[derive(Drop)]
pub(crate) struct Sums {
    /// For each vertex, from place 1 on, the angles that arrive there.
    pub(crate) vertices: Vec<u32>,
    /// For each face, what its darts turn to the left, and what they turn to the right.
    pub(crate) lefts: Vec<u64>,
    pub(crate) rights: Vec<u64>,
}

impl Sums {
    /// Empty lists of sums. It allocates nothing.
    fn empty(alloc: Global) -> Sums {
        Sums {
            vertices: Vec::new(alloc),
            lefts: Vec::new(alloc),
            rights: Vec::new(alloc),
        }
    }

    /// Makes each sum 0, with lists as long as `plane` needs: one item for each face, and one more than vertices.
    /// `AllocError` if there is no memory; some lists may then be too short.
    pub(crate) fn reset_for(&mut self, plane: &Plane) -> Result<(), AllocError>
        ensures vertices { OnOk result (self.new.vertices.items ≡ replicate (vertices plane.now + 1) 0) }
        ensures lefts { OnOk result (self.new.lefts.items ≡ replicate plane.now.faces 0) }
        ensures rights { OnOk result (self.new.rights.items ≡ replicate plane.now.faces 0) }
    {
        let vertices = usize::from(plane.graph().vertices());
        let faces = usize::from(plane.face_count());
        self.vertices.clear();
        self.vertices.resize(vertices + 1, 0)?;
        self.lefts.clear();
        self.lefts.resize(faces, 0)?;
        self.rights.clear();
        self.rights.resize(faces, 0)
    }
}

/// The minimum number of bends of an orthogonal representation of this plane with its outer face. It computes such a
/// representation, and overwrites the buffers of `scratch`. `AllocError` if there is no memory; some of the buffers may
/// then be gone.
///
/// # Errors
///
/// `AllocError` if there is no memory for the flow that gives it.
pub fn fewest_in(alloc: Global, scratch: &mut Scratch, plane: &Plane) -> Result<u32, AllocError>
    ensures some { IfOk result (HasRep plane.now) }
    ensures fewest { IfOk result (NeedsBends plane.now) }
{
    let (shape, prices) = least_shape_in(alloc, &mut scratch.shapes, plane)?;
    let bends = shape.bends();
    shape.give_back(&mut scratch.shapes);
    prices.give_back(&mut scratch.shapes);
    Ok(bends)
}

/// Points that draw an embedding, and the orthogonal representation that they draw.
#[derive(Debug, Drop)]
pub struct Judged {
    pub shape: Shape,
    pub drawing: Drawing,
}

/// Consumes `points` and returns their drawing and shape if they draw the embedding of `plane`, whose outer face
/// becomes that of the drawing. If not, the first fault, or `Memory` if memory runs out; the outer face of `plane` may
/// have changed then, too. The buffers of `scratch` are overwritten.
///
/// The points determine the outer face of the drawing, which becomes that of the plane, and the representation.
///
/// # Errors
///
/// The first condition that fails, at the first place where it fails; then the points draw no representation of the
/// embedding. `Memory` says nothing of the points.
pub fn judge_in(
    alloc: Global,
    scratch: &mut Scratch,
    plane: &mut Plane,
    points: Points,
) -> Result<Judged, Fault>
    ensures same_plane { plane.new ≡ with_outer plane.old plane.new.outer }
    ensures drawn { IfOk result (λ judged. IsDrawnBy plane.new judged.drawing judged.shape) }
    ensures refused { IfErr result (λ fault. fault ≢ Fault.Memory → ¬ IsDrawn plane.old points) }
    ensures first { IfErr result (λ fault. fault ≢ Fault.Memory → IsFirstFailure plane.old points fault) }
    ensures same_points { IfOk result (λ judged. judged.drawing ≡ points) }
{
    // Only the proof needs this: `graph` says where darts end.
    let _graph = plane.graph();
    check_counts(plane, &points)?;
    check_grid(plane, &points)?;
    check_axes(plane, &points)?;
    let shape = shape_of(alloc, &mut scratch.directions, plane, &points)?;
    let sums = &mut scratch.sums;
    sums.reset_for(plane)?;
    check_angle_sums(plane, &shape, sums.vertices.as_mut_slice())?;
    let outer = find_outer(
        plane,
        &shape,
        sums.lefts.as_mut_slice(),
        sums.rights.as_mut_slice(),
    )?;
    plane.set_outer(outer);
    if !is_shape(plane, &shape) {
        return Err(Fault::Outer);
    }
    match check_in(alloc, &mut scratch.drawings, plane, &shape, points) {
        Ok(drawing) => Ok(Judged { shape, drawing }),
        Err((fault, _)) => Err(fault_of_check(fault)),
    }
}

/// The fault `Memory` if `fault` says that memory ran out, and otherwise `Meet`: no other condition can fail if the
/// shape is that of the points. It allocates nothing.
fn fault_of_check(fault: CheckFault) -> Fault
    ensures real { result ≢ Fault.Memory → fault ≢ CheckFault.Memory }
    ensures kind { result ≢ Fault.Memory → result ≡ Fault.Meet }
{
    match fault {
        CheckFault::Memory => Fault::Memory,
        _ => Fault::Meet,
    }
}
