//! The best outer face: one flow moved over faces depth first, with bounds by weak duality (Ahuja, Magnanti and Orlin,
//! Network Flows, 1993, section 9.4).

ghost use Rattle.std.specs.Prelude.{◌≡◌, ◌<◌, ◌≤◌, ◌⊎◌, ℕ, pos, ◌+ℤ◌, ◌-ℤ◌, ◌*ℤ◌, ◌≤ℤ◌, ◌^◌, IsTrue, IsFalse, OnOk, IfOk, IfSome, OnErr, length};
ghost use Rattle.faces.specs.Planes.{darts, with_outer};
ghost use Rattle.min_cost_flow.specs.SolverState.{IsShown};
ghost use Rattle.ortho_rep.specs.Representation.{IsShape, IsLeast};
ghost use Rattle.ortho_rep.specs.Prices.{IsProof};
ghost use Rattle.ortho_rep.specs.Best.{HasRep, NeedsBends, IsBest};
ghost use Rattle.ortho_rep.specs.Tries.{IsMoving, IsIncumbent, IsNoWorse, IsNoBetter, AreBounds, HasRoom};

use crate::certificate::Prices;
use crate::distances::raise_bounds;
use crate::least::shape_in;
use crate::shape::{Shape, ShapeLists};
use common::filled;
use faces::Plane;
use flow_network::{FaceNet, Given};
use min_cost_flow::{SolveFault, WarmStart};
use std::alloc::{AllocError, Global};

/// In a plane with no more faces, it is quicker to try a face than to measure distances from it.
const FEW_FACES: u16 = 64;

/// The best face so far, and how many bends are needed with it as the outer one.
#[derive(Clone, Copy)]
pub(crate) struct Incumbent {
    pub(crate) face: u16,
    pub(crate) bends: u64,
}

impl Incumbent {
    /// Whether `face`, with this many bends, is better than the best face so far: it needs fewer bends, or as many and
    /// has a lesser number.
    fn loses_to(&self, bends: u64, face: u16) -> bool
        ensures yes { IsTrue result → bends ≤ self.now.bends }
        ensures first { IsTrue result → bends ≡ self.now.bends → face < self.now.face }
        ensures no { IsFalse result → self.now.bends ≤ bends }
        ensures last { IsFalse result → bends ≡ self.now.bends → self.now.face ≤ face }
    {
        bends < self.bends || bends == self.bends && face < self.face
    }
}

/// Makes the best face the outer face of `plane`: the one with the fewest bends, and of several the one with the least
/// number. Returns a least shape with it and prices that prove it. `AllocError` if there is no memory; `plane` is then
/// unchanged.
///
/// The best face minimises bends, and has the least number among equals. Each face is tried, except those for which the
/// potentials of an earlier one, or in a large plane the distances from it, prove that they are no better. Faces are
/// tried on a walk across edges, so that each move of the outer face is short.
///
/// # Errors
///
/// `AllocError` if there is no memory for a network, its flow, the bounds of faces, the shape or the prices. The plane
/// is then unchanged.
pub fn best_shape(alloc: Global, plane: &mut Plane) -> Result<(Shape, Prices), AllocError>
    ensures outer_moved { OnOk result (plane.new ≡ with_outer plane.old plane.new.outer) }
    ensures best { OnOk result (IsBest plane.new) }
    ensures shape { IfOk result (λ found. IsShape plane.new found.0) }
    ensures least { IfOk result (λ found. IsLeast plane.new found.0) }
    ensures proof { IfOk result (λ found. IsProof plane.new found.0 found.1) }
    ensures unchanged { OnErr result (plane.new ≡ plane.old) }
{
    let outer = plane.outer();
    match best_found(alloc, plane) {
        Ok(found) => Ok(found),
        Err(AllocError) => {
            plane.set_outer(outer);
            Err(AllocError)
        }
    }
}

/// Makes the best face the outer face of `plane`; returns a least shape with it, and prices that prove it. `AllocError`
/// if there is no memory; some face that was tried may then be left as the outer one.
fn best_found(alloc: Global, plane: &mut Plane) -> Result<(Shape, Prices), AllocError>
    ensures outer_moved { plane.new ≡ with_outer plane.old plane.new.outer }
    ensures best { OnOk result (IsBest plane.new) }
    ensures shape { IfOk result (λ found. IsShape plane.new found.0) }
    ensures least { IfOk result (λ found. IsLeast plane.new found.0) }
    ensures proof { IfOk result (λ found. IsProof plane.new found.0 found.1) }
{
    let moving = begin(alloc, plane)?;
    let (moving, incumbent) = best_incumbent(alloc, plane, moving)?;
    let moving = move_outer(moving, plane, incumbent.face);
    plane.set_outer(incumbent.face);
    let solved = moving.warm_start.solved(alloc)?;
    let mut lists = ShapeLists::empty(alloc);
    let nothing = Given::nothing();
    shape_in(alloc, &mut lists, plane, &nothing, &moving.net, &solved)
}

/// A flow of least cost in the network of a plane, which goes on from one outer face to another.
#[derive(Drop)]
struct Moving {
    net: FaceNet,
    warm_start: WarmStart,
}

/// The network of a plane with its current outer face, and a flow of least cost in it. `AllocError` if there is no
/// memory for them.
fn begin(alloc: Global, plane: &Plane) -> Result<Moving, AllocError>
    ensures { IfOk result (IsMoving plane.now) }
{
    let net = FaceNet::build(alloc, plane)?;
    match WarmStart::new(alloc, net.network()) {
        Ok(warm_start) => Ok(Moving { net, warm_start }),
        Err(SolveFault::Memory) => Err(AllocError),
        Err(SolveFault::Infeasible) => unreachable!(),
    }
}

/// Returns `moving` with its outer face moved from that of `plane` to `face`, and its flow updated to least cost;
/// `plane` itself is unchanged. It allocates nothing.
///
/// The deficit of the old outer face is eight units less, and that of the new one eight more.
fn move_outer(moving: Moving, plane: &Plane, face: u16) -> Moving
    requires moving { IsMoving plane.now moving }
    requires face { face < plane.now.faces }
    ensures { IsMoving (with_outer plane.now face) result }
{
    // Only the proof needs this: `graph` says that the plane is one.
    let _graph = plane.graph();
    let Moving {
        mut net,
        warm_start,
    } = moving;
    let from = net.face_node(plane.outer());
    let to = net.face_node(face);
    net.set_outer(plane, face);
    match warm_start.shift(from, to, 8) {
        Some(warm_start) => Moving { net, warm_start },
        None => unreachable!(),
    }
}

/// Finds the best outer face: returns the flow for the face tried last, which is left as the outer one of `plane`, and
/// the best face with its bends. `AllocError` if there is no memory; `moving` is then gone, and `plane` unchanged.
fn best_incumbent(
    alloc: Global,
    plane: &mut Plane,
    moving: Moving,
) -> Result<(Moving, Incumbent), AllocError>
    requires moving { IsMoving plane.old moving }
    ensures outer_moved { plane.new ≡ with_outer plane.old plane.new.outer }
    ensures moving { IfOk result (λ found. IsMoving plane.new found.0) }
    ensures named { IfOk result (λ found. found.1.face < plane.old.faces) }
    ensures best { IfOk result (λ found. IsBest (with_outer plane.old found.1.face)) }
{
    let faces = usize::from(plane.face_count());
    let mut bounds = filled(Vec::new(alloc), faces, 0)?;
    try_faces(alloc, plane, moving, &mut bounds)
}

/// Finds the best outer face: returns the flow for the face tried last, left as the outer one of `plane`, and the best
/// face with its bends. Raises `bounds`, lower bounds on the bends with each face as the outer one. `AllocError` if
/// there is no memory; `moving` is then gone, `plane` unchanged, and `bounds` holds lower bounds still.
fn try_faces(
    alloc: Global,
    plane: &mut Plane,
    moving: Moving,
    bounds: &mut [u64],
) -> Result<(Moving, Incumbent), AllocError>
    requires moving { IsMoving plane.old moving }
    requires room { plane.old.faces ≤ length bounds.old }
    requires bounds { AreBounds plane.old bounds.old }
    ensures outer_moved { plane.new ≡ with_outer plane.old plane.new.outer }
    ensures moving { IfOk result (λ found. IsMoving plane.new found.0) }
    ensures named { IfOk result (λ found. found.1.face < plane.old.faces) }
    ensures best { IfOk result (λ found. IsBest (with_outer plane.old found.1.face)) }
{
    let mut walk = Walk::new(alloc, plane)?;
    let bends = bends_and_bounds(plane, &moving, bounds);
    let face = plane.outer();
    let mut incumbent = Incumbent { face, bends };
    let faces = plane.face_count();
    if faces > FEW_FACES {
        raise_bounds(alloc, plane, bounds)?;
    }
    let mut moving = tour(plane, moving, &mut incumbent, bounds, &mut walk);
    for face in 0..faces {
        moving = visit(plane, moving, &mut incumbent, bounds, face);
    }
    Ok((moving, incumbent))
}

/// Where a tour has been.
#[derive(Drop)]
struct Walk {
    // by face: whether it has come to it
    seen: Vec<bool>,
    // by dart: whether it crossed its edge to a face that it had not seen
    tree_darts: Vec<bool>,
}

impl Walk {
    /// The walk of a tour that begins at the outer face and has seen no other. `AllocError` if there is no memory for
    /// its two lists.
    fn new(alloc: Global, plane: &Plane) -> Result<Walk, AllocError>
        ensures { IfOk result (HasRoom plane.now) }
    {
        let mut seen = filled(Vec::new(alloc), usize::from(plane.face_count()), false)?;
        seen[usize::from(plane.outer())] = true;
        let tree_darts = filled(Vec::new(alloc), usize::from(plane.graph().darts()), false)?;
        Ok(Walk { seen, tree_darts })
    }
}

/// Tries faces in depth-first order over shared edges, so that each move is short, and returns the moved flow. The face
/// tried last is left as the outer one of `plane`; `incumbent` becomes the best face so far, `bounds` rise, and `walk`
/// marks the faces that it comes to and the edges that it crosses.
///
/// Which faces it comes to is not proved: no result rests on it.
///
/// It walks round the outer face, and crosses each edge to a face that it has not visited yet. It walks round
/// each face that it enters this way, and goes back across the edge by which it came.
fn tour(
    plane: &mut Plane,
    moving: Moving,
    incumbent: &mut Incumbent,
    bounds: &mut [u64],
    walk: &mut Walk,
) -> Moving
    requires moving { IsMoving plane.old moving }
    requires incumbent { IsIncumbent plane.old incumbent.old }
    requires room { plane.old.faces ≤ length bounds.old }
    requires bounds { AreBounds plane.old bounds.old }
    requires walk { HasRoom plane.old walk.old }
    ensures outer_moved { plane.new ≡ with_outer plane.old plane.new.outer }
    ensures moving { IsMoving plane.new result }
    ensures incumbent { IsIncumbent plane.new incumbent.new }
    ensures bounds { AreBounds plane.new bounds.new }
{
    let darts = plane.graph().darts();
    let mut dart = plane.least_dart(plane.outer());
    let mut moving = moving;
    for _step in 0..darts {
        let (next, face) = next_of_tour(plane, dart, walk);
        dart = next;
        if let Some(face) = face {
            moving = visit(plane, moving, incumbent, bounds, face);
        }
    }
    moving
}

/// Takes one step of the tour: returns the next dart, and the face across `dart` if `walk` had not seen it, else
/// `None`. If it had not, `walk` marks that face as seen and the edge as crossed. After a dart of a crossed edge comes
/// the dart after its reverse.
fn next_of_tour(plane: &Plane, dart: u16, walk: &mut Walk) -> (u16, Option<u16>)
    requires dart { dart < darts plane.now }
    requires walk { HasRoom plane.now walk.old }
    ensures walk { HasRoom plane.now walk.new }
    ensures next { result.0 < darts plane.now }
    ensures face { IfSome result.1 (λ face. face < plane.now.faces) }
{
    let across = plane.graph().reverse(dart);
    let face = plane.face_of(across);
    let mut found = None;
    if !walk.seen[usize::from(face)] {
        walk.seen[usize::from(face)] = true;
        walk.tree_darts[usize::from(dart)] = true;
        walk.tree_darts[usize::from(across)] = true;
        found = Some(face);
    }
    let from = if walk.tree_darts[usize::from(dart)] {
        across
    } else {
        dart
    };
    (plane.next(from), found)
}

/// Tries `face` as the outer one and returns the flow for the outer face: `face` stays the outer one of `plane`,
/// `incumbent` becomes `face` if that is better, and `bounds` rise. If the face's bound proves that it is no better
/// than `incumbent`, it is not tried, and nothing changes.
fn visit(
    plane: &mut Plane,
    moving: Moving,
    incumbent: &mut Incumbent,
    bounds: &mut [u64],
    face: u16,
) -> Moving
    requires face { face < plane.old.faces }
    requires moving { IsMoving plane.old moving }
    requires incumbent { IsIncumbent plane.old incumbent.old }
    requires room { plane.old.faces ≤ length bounds.old }
    requires bounds { AreBounds plane.old bounds.old }
    ensures outer_moved { plane.new ≡ with_outer plane.old plane.new.outer }
    ensures moving { IsMoving plane.new result }
    ensures incumbent { IsIncumbent plane.new incumbent.new }
    ensures bounds { AreBounds plane.new bounds.new }
    ensures no_worse { IsNoWorse incumbent.new incumbent.old }
    ensures tried { IsNoBetter plane.new incumbent.new.bends incumbent.new.face face }
{
    if !incumbent.loses_to(bounds[usize::from(face)], face) {
        return moving;
    }
    let moving = move_outer(moving, plane, face);
    plane.set_outer(face);
    let bends = bends_and_bounds(plane, &moving, bounds);
    if incumbent.loses_to(bends, face) {
        *incumbent = Incumbent { face, bends };
    }
    moving
}

/// Returns the number of bends that the plane's outer face needs, the cost of the flow. Raises each entry of `bounds`
/// to what the potentials prove for that face as the outer one, where that is more.
fn bends_and_bounds(plane: &Plane, moving: &Moving, bounds: &mut [u64]) -> u64
    requires moving { IsMoving plane.now moving.now }
    requires room { plane.now.faces ≤ length bounds.old }
    requires bounds { AreBounds plane.now bounds.old }
    ensures bounds { AreBounds plane.now bounds.new }
    ensures some { HasRep plane.now result }
    ensures needs { NeedsBends plane.now result }
{
    // Only the proof needs this: `graph` says that the plane is one.
    let _graph = plane.graph();
    let (bends, potentials) = moving.warm_start.least_cost();
    for face in 0..plane.face_count() {
        let place = usize::from(face);
        bounds[place] = bounds[place].max(bound(plane, moving, bends, potentials, face));
    }
    bends
}

/// How many bends are needed at least with `face` as the outer one, as `potentials`, by node, prove; `bends` are those
/// that the current outer face needs.
fn bound(plane: &Plane, moving: &Moving, bends: u64, potentials: &[i32], face: u16) -> u64
    requires moving { IsMoving plane.now moving.now }
    requires shown { IsShown moving.now.warm_start bends potentials.now }
    requires few { bends < 2 ^ 48 }
    requires named { face < plane.now.faces }
    ensures { NeedsBends (with_outer plane.now face) result }
{
    // Only the proof needs this: `graph` says that the plane is one.
    let _graph = plane.graph();
    let own = potentials[moving.net.face_node(plane.outer()) as usize];
    let other = potentials[moving.net.face_node(face) as usize];
    moved_bound(bends, own, other)
}

/// `bends`, plus eight for each unit by which `other` is above `own`, or minus eight for each unit by which it is
/// below, but at least 0.
fn moved_bound(bends: u64, own: i32, other: i32) -> u64
    requires few { bends < 2 ^ 48 }
    ensures { (result ≡ 0) ⊎ (pos result ≡ pos bends +ℤ pos 8 *ℤ (other -ℤ own)) }
{
    if own <= other {
        bends + 8 * gap(own, other)
    } else {
        bends.saturating_sub(8 * gap(other, own))
    }
}

/// By how much the potential `high` is above the potential `low`, which is no greater.
fn gap(low: i32, high: i32) -> u64
    requires { low ≤ℤ high }
    ensures value { pos result ≡ high -ℤ low }
    ensures few { result < 2 ^ 32 }
{
    (i64::from(high) - i64::from(low)) as u64
}
