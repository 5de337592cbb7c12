//! Making a shape straighter by cycles of reduced cost 0 (Ahuja, Magnanti and Orlin, Network Flows, 1993, section
//! 9.3).

ghost use Rattle.std.specs.Prelude.{◌≡◌, ◌<◌, ◌≤◌, IfOk, IsTrue, length};
ghost use Rattle.faces.specs.Planes.{darts};
ghost use Rattle.ortho_rep.specs.Shapes.{turns_at};
ghost use Rattle.ortho_rep.specs.Representation.{HasDarts, IsShape, IsLeast, bends_of};
ghost use Rattle.ortho_rep.specs.Prices.{HasPrices, IsProof};
ghost use Rattle.straightening.specs.Reflex.{reflex_angles};

use crate::search::{FaceSearch, PathEnds, ShapeFlow, clockwise, is_tight_angle};
use faces::Plane;
use ortho_rep::{Prices, Shape, certify, is_shape};
use std::alloc::{AllocError, Global};
use std::boxed::Box;

/// The buffers of `straighten_in`, reused for the next shape. Their contents between two calls do not matter.
///
/// It allocates nothing until a shape has a vertex that may be made straight, and 24 KB from then on.
#[derive(Drop)]
pub struct Scratch {
    workspace: Option<Box<Workspace>>,
}

impl Scratch {
    /// An empty scratch. It allocates nothing.
    pub fn new() -> Scratch {
        Scratch { workspace: None }
    }
}

/// The lists in which a shape is straightened.
#[derive(Drop)]
struct Workspace {
    flow: ShapeFlow,
    search: FaceSearch,
}

impl Workspace {
    /// Returns a new workspace on the heap, in which nothing was straightened; `AllocError` if there is no memory for
    /// it. Only this function's stack frame holds it while it is made.
    #[inline(never)]
    fn boxed(alloc: Global) -> Result<Box<Workspace>, AllocError> {
        let workspace = Workspace {
            flow: ShapeFlow::new(),
            search: FaceSearch::new(),
        };
        Ok(Box::new(alloc, workspace)?)
    }
}

/// The reflex angle at a vertex of degree 2 that turns. No other vertex has it.
const REFLEX: u8 = 3;

/// Returns a least shape, with as many bends as the given one, and with no more reflex angles: the given one if no
/// better one is found. Works in `scratch`, which gets its buffers when first needed; `AllocError` if there is no
/// memory for them or the new shape, and the given shape is then dropped.
///
/// The same prices prove it least. At a vertex of degree 2 that turns, one angle is of three right angles and the other
/// of one. Such vertices are made straight one after another: a unit goes from the reflex angle to the right angle, and
/// back from the face of the right angle to that of the reflex angle, if there is a path of residual arcs whose reduced
/// cost is 0 by the prices (a flow of least cost stays one along a cycle of such arcs, by complementary slackness). On
/// that path no vertex of degree 2 begins to turn. The result of these moves is returned only if `is_shape` and
/// `certify` accept it and it has fewer reflex angles. Otherwise the given shape is returned: after one look at each
/// angle if no reflex angle may give a unit to the right angle. How few vertices turn in the end is measured and not
/// proved.
///
/// # Errors
///
/// `AllocError` if there is no memory for the new shape or the buffers; the given shape is then dropped.
pub fn straighten_in(
    alloc: Global,
    scratch: &mut Scratch,
    plane: &Plane,
    shape: Shape,
    prices: &Prices,
) -> Result<Shape, AllocError>
    requires shape { IsShape plane.now shape }
    requires least { IsLeast plane.now shape }
    requires proof { IsProof plane.now shape prices.now }
    ensures shape { IfOk result (λ made. IsShape plane.now made) }
    ensures least { IfOk result (λ made. IsLeast plane.now made) }
    ensures proof { IfOk result (λ made. IsProof plane.now made prices.now) }
    ensures straighter { IfOk result (λ made. reflex_angles made ≤ reflex_angles shape) }
    ensures bends { IfOk result (λ made. bends_of (length made.strings) (turns_at made) ≡ bends_of (length shape.strings) (turns_at shape)) }
{
    let Some(first) = first_movable(plane, &shape, prices) else {
        return Ok(shape);
    };
    let mut workspace = match scratch.workspace.take() {
        Some(workspace) => workspace,
        None => Workspace::boxed(alloc)?,
    };
    let made = straighten_shape(alloc, &mut workspace, plane, shape, prices, first);
    scratch.workspace = Some(workspace);
    made
}

/// Returns a least shape with as many bends as `shape` and no more reflex angles, found in the lists of `workspace`:
/// `shape` itself if no better one is found. Only vertices at the heads of dart `first` and later darts are made
/// straight. `AllocError` if there is no memory for the new shape; `shape` is then dropped.
fn straighten_shape(
    alloc: Global,
    workspace: &mut Workspace,
    plane: &Plane,
    shape: Shape,
    prices: &Prices,
    first: u16,
) -> Result<Shape, AllocError>
    requires shape { IsShape plane.now shape }
    requires least { IsLeast plane.now shape }
    requires proof { IsProof plane.now shape prices.now }
    ensures shape { IfOk result (λ made. IsShape plane.now made) }
    ensures least { IfOk result (λ made. IsLeast plane.now made) }
    ensures proof { IfOk result (λ made. IsProof plane.now made prices.now) }
    ensures straighter { IfOk result (λ made. reflex_angles made ≤ reflex_angles shape) }
    ensures bends { IfOk result (λ made. bends_of (length made.strings) (turns_at made) ≡ bends_of (length shape.strings) (turns_at shape)) }
{
    let Workspace { flow, search } = workspace;
    flow.load(plane, &shape);
    search.clear(plane);
    if !straighten_from(flow, search, plane, prices, first) {
        return Ok(shape);
    }
    let made = flow.shape(alloc, plane)?;
    let holds = is_shape(plane, &made) && certify(plane, &made, prices);
    if holds && count_reflex(plane, &made) < count_reflex(plane, &shape) {
        Ok(made)
    } else {
        Ok(shape)
    }
}

/// The first dart with a reflex angle that may give a unit to the right angle of its vertex; `None` if there is none.
fn first_movable(plane: &Plane, shape: &Shape, prices: &Prices) -> Option<u16>
    requires darts { HasDarts plane.now shape.now }
    requires prices { HasPrices plane.now prices.now }
{
    for dart in 0..plane.graph().darts() {
        if shape.angle(dart) == REFLEX && is_movable(plane, prices, dart) {
            return Some(dart);
        }
    }
    None
}

/// The number of reflex angles, those of three right angles, in `shape`.
fn count_reflex(plane: &Plane, shape: &Shape) -> u16
    requires { HasDarts plane.now shape.now }
    ensures { result ≡ reflex_angles shape.now }
{
    let mut count = 0;
    for dart in 0..plane.graph().darts() {
        if shape.angle(dart) == REFLEX {
            count += 1;
        }
    }
    count
}

/// Makes straight in `flow` each vertex of degree 2 where it can, at the heads of dart `first` and later darts, and
/// returns whether it did anywhere. It finds paths with `search`, which must be cleared for this plane before.
fn straighten_from(
    flow: &mut ShapeFlow,
    search: &mut FaceSearch,
    plane: &Plane,
    prices: &Prices,
    first: u16,
) -> bool
    requires { HasPrices plane.now prices.now }
{
    let mut moved = false;
    for dart in first..plane.graph().darts() {
        if flow.angle(dart) != REFLEX || !is_movable(plane, prices, dart) {
            continue;
        }
        moved |= straighten_one(flow, search, plane, prices, dart);
    }
    moved
}

/// Makes the vertex at the head of dart `reflex`, which has a reflex angle, straight in `flow` if its two angles are in
/// one face or `search` finds a path back, and returns whether it did; if not, `flow` stays unchanged.
fn straighten_one(
    flow: &mut ShapeFlow,
    search: &mut FaceSearch,
    plane: &Plane,
    prices: &Prices,
    reflex: u16,
) -> bool
    requires prices { HasPrices plane.now prices.now }
    requires within { reflex < darts plane.now }
{
    let clockwise_dart = clockwise(plane, reflex);
    if plane.face_of(reflex) != plane.face_of(clockwise_dart) {
        let back = PathEnds {
            from: clockwise_dart,
            to: reflex,
        };
        if !search.find_path(plane, prices, flow, back) {
            return false;
        }
        search.send(plane, flow, back);
    }
    flow.send(plane, reflex, clockwise_dart);
    true
}

/// Whether a unit may go from the angle of dart `reflex`, a reflex angle at a vertex of degree 2, to the right angle
/// there while the prices stay a proof.
fn is_movable(plane: &Plane, prices: &Prices, reflex: u16) -> bool
    requires prices { HasPrices plane.now prices.now }
    requires within { reflex < darts plane.now }
{
    is_tight_angle(plane, prices, reflex) && is_tight_angle(plane, prices, clockwise(plane, reflex))
}
