//! Orthogonal representations with the fewest bends (least shapes), by a flow of least cost (Tamassia 1987), also among
//! those that keep what is given.

ghost use Rattle.std.specs.Prelude.{◌≡◌, ◌+◌, ◌<◌, ◌≤◌, ◌++◌, nat_abs, None, OnOk, IfOk, IfErr, length, map, replicate, slice_index, slice_index_or, vec_len, ◌^◌};
ghost use Rattle.faces.specs.Planes.{darts, vertices, reverse_dart};
ghost use Rattle.min_cost_flow.specs.Flow.{Solves, amounts, at_nodes};
ghost use Rattle.flow_network.specs.Given.{CanBeGiven, nothing_given, turns_given};
ghost use Rattle.flow_network.specs.declared.given_shape.TheConstants.{MAX_GIVEN_TURNS};
ghost use Rattle.flow_network.specs.FaceNet.{IsKeepingNetOf};
ghost use Rattle.ortho_rep.specs.declared.turn_strings.TheConstants.{MAX_REPEATS};
ghost use Rattle.ortho_rep.specs.OfFlow.{lefts_then_rights, angles_of, strings_of};
ghost use Rattle.ortho_rep.specs.Repeats.{turns_in, AreRepeats, HaveShapes};
ghost use Rattle.ortho_rep.specs.Representation.{IsShape, IsLeast};
ghost use Rattle.ortho_rep.specs.Keeping.{one_way, IsLeastKeeping, HasNoneKeeping};
ghost use Rattle.ortho_rep.specs.Prices.{IsProof, IsProofKeeping};

use crate::certificate::Prices;
use crate::shape::{Scratch, Shape, ShapeLists};
use crate::turn_strings::{DartShape, Turn};
use common::emptied;
use faces::Plane;
use flow_network::{FaceNet, Given};
use min_cost_flow::{SolveFault, Solved, solve_in};
use std::alloc::{AllocError, Global};
use std::mem;

/// An orthogonal representation of the plane with the fewest bends, and prices that prove it. `AllocError` if there is
/// no memory for the network, its flow, the shape or the prices.
///
/// It is a flow of least cost in the plane's network, and the prices are its potentials (Tamassia 1987): a corner arc
/// carries a dart's angle less one, a crossing arc its left turns.
///
/// # Errors
///
/// `AllocError` if there is no memory for the network, its flow, the shape or the prices.
pub fn least_shape(alloc: Global, plane: &Plane) -> Result<(Shape, Prices), AllocError>
    ensures shape { IfOk result (λ found. IsShape plane.now found.0) }
    ensures least { IfOk result (λ found. IsLeast plane.now found.0) }
    ensures proof { IfOk result (λ found. IsProof plane.now found.0 found.1) }
{
    let mut scratch = Scratch::empty(alloc);
    least_shape_in(alloc, &mut scratch, plane)
}

/// An orthogonal representation with the fewest bends, and its prices, exactly as [`least_shape`], in the buffers of
/// `scratch`, of which both take lists with them. `AllocError` if there is no memory; buffers of `scratch` may then be
/// lost, and it can be used again.
///
/// The shape and the prices take their lists with them; [`Shape::give_back`] and [`Prices::give_back`] return them.
///
/// # Errors
///
/// As those of [`least_shape`].
pub fn least_shape_in(
    alloc: Global,
    scratch: &mut Scratch,
    plane: &Plane,
) -> Result<(Shape, Prices), AllocError>
    ensures shape { IfOk result (λ found. IsShape plane.now found.0) }
    ensures least { IfOk result (λ found. IsLeast plane.now found.0) }
    ensures proof { IfOk result (λ found. IsProof plane.now found.0 found.1) }
{
    match least_shape_keeping_in(alloc, scratch, plane, &Given::nothing()) {
        Ok(solution) => Ok(solution),
        Err(SolveFault::Memory) => Err(AllocError),
        Err(SolveFault::Infeasible) => unreachable!(),
    }
}

/// An orthogonal representation of fewest bends among those that keep what is given, and prices that prove it, in the
/// buffers of `scratch`. `Infeasible` if none keeps it, `Memory` if there is no memory; buffers of `scratch` may then
/// be lost, and it can be used again.
///
/// It is [`least_shape`] with each given angle and the given turns of each edge as they are, whatever a unit there
/// would gain. It reuses the scratch, as [`least_shape_in`]; after an error some of that may be lost, and the next call
/// allocates it anew.
///
/// # Errors
///
/// `Infeasible` exactly if no representation keeps what is given, memory aside, and `Memory` if memory runs out
/// for the network, its flow, the shape or the prices.
pub fn least_shape_keeping_in(
    alloc: Global,
    scratch: &mut Scratch,
    plane: &Plane,
    given: &Given<'_>,
) -> Result<(Shape, Prices), SolveFault>
    ensures shape { IfOk result (λ found. IsShape plane.now found.0) }
    ensures least { IfOk result (λ found. IsLeastKeeping plane.now given.now found.0) }
    ensures proof { IfOk result (λ found. IsProofKeeping plane.now given.now found.0 found.1) }
    ensures none { IfErr result (λ fault. fault ≡ SolveFault.Infeasible → HasNoneKeeping plane.now given.now) }
    ensures always { given.now ≡ nothing_given → IfErr result (λ fault. fault ≡ SolveFault.Memory) }
{
    // Only the proof needs these: `graph` says that the plane is one, `is_nothing` that the lists can be given.
    let _graph = plane.graph();
    let _nothing = given.is_nothing();
    let net = FaceNet::build_keeping_in(alloc, &mut scratch.net, plane, given)?;
    let solved = solve_in(alloc, &mut scratch.solver, net.network())?;
    let made = shape_in(alloc, &mut scratch.lists, plane, given, &net, &solved)?;
    solved.give_back(&mut scratch.solver);
    net.give_back(&mut scratch.net);
    Ok(made)
}

/// The representation that a flow of least cost and what is given determine, and its prices, in the three buffers of
/// `lists`, which they take with them. `AllocError` if a buffer is too small and there is no memory; that buffer and
/// those taken before are then gone.
pub(crate) fn shape_in(
    alloc: Global,
    lists: &mut ShapeLists,
    plane: &Plane,
    given: &Given<'_>,
    net: &FaceNet,
    solved: &Solved,
) -> Result<(Shape, Prices), AllocError>
    requires net { IsKeepingNetOf plane.now given.now net.now }
    requires solves { Solves net.now.network solved.now }
    ensures shape { IfOk result (λ found. IsShape plane.now found.0) }
    ensures least { IfOk result (λ found. IsLeastKeeping plane.now given.now found.0) }
    ensures proof { IfOk result (λ found. IsProofKeeping plane.now given.now found.0 found.1) }
{
    // Only the proof needs this: `is_nothing` says that the lists can be given.
    let _nothing = given.is_nothing();
    let vertices = plane.graph().vertices();
    let lent = mem::replace(&mut lists.darts, Vec::new(alloc));
    let darts = darts_in(lent, plane, given, net, solved)?;
    let (of_vertices, of_faces) = solved.potentials().split_at(usize::from(vertices));
    let lent = mem::replace(&mut lists.vertex_prices, Vec::new(alloc));
    let vertex_prices = copy_into(lent, of_vertices)?;
    let lent = mem::replace(&mut lists.face_prices, Vec::new(alloc));
    let face_prices = copy_into(lent, of_faces)?;
    let shape = Shape::of_darts(darts);
    let prices = Prices::new(vertex_prices, face_prices);
    Ok((shape, prices))
}

/// The number of units that the crossing arc of a dart carries.
fn crossing_flow(net: &FaceNet, solved: &Solved, dart: u16) -> u32
    requires { net.now.darts + dart < length solved.now.flow }
    ensures { result ≡ amounts solved.now.flow (net.now.darts + dart) }
{
    solved.flow(net.crossing_arc(dart))
}

/// The angle and the turns of each dart, by a flow of least cost and what is given, in the buffer of `lent`, whose
/// contents are lost. `AllocError` if that is too small and there is no memory; it is then gone.
fn darts_in(
    lent: Vec<DartShape>,
    plane: &Plane,
    given: &Given<'_>,
    net: &FaceNet,
    solved: &Solved,
) -> Result<Vec<DartShape>, AllocError>
    requires can { CanBeGiven given.now.angles given.now.turns }
    requires net { IsKeepingNetOf plane.now given.now net.now }
    requires solves { Solves net.now.network solved.now }
    ensures repeats { IfOk result (λ found. AreRepeats found.items) }
    ensures flow { IfOk result (λ found. HaveShapes (angles_of given.now (amounts solved.now.flow))
        (strings_of plane.now given.now (amounts solved.now.flow)) (darts plane.now) found.items) }
{
    if given.is_nothing() {
        return darts_with(lent, plane, &Given::nothing(), net, solved);
    }
    darts_with(lent, plane, given, net, solved)
}

/// The angle and the turns of each dart, as `darts_in`, in the buffer of `lent`; `AllocError` if that is too small and
/// there is no memory, and it is then gone. Inlined, so that no list is read where nothing is given.
#[inline(always)]
fn darts_with(
    lent: Vec<DartShape>,
    plane: &Plane,
    given: &Given<'_>,
    net: &FaceNet,
    solved: &Solved,
) -> Result<Vec<DartShape>, AllocError>
    requires can { CanBeGiven given.now.angles given.now.turns }
    requires net { IsKeepingNetOf plane.now given.now net.now }
    requires solves { Solves net.now.network solved.now }
    ensures repeats { IfOk result (λ found. AreRepeats found.items) }
    ensures flow { IfOk result (λ found. HaveShapes (angles_of given.now (amounts solved.now.flow))
        (strings_of plane.now given.now (amounts solved.now.flow)) (darts plane.now) found.items) }
{
    let darts = plane.graph().darts();
    let mut found = emptied(lent, usize::from(darts))?;
    for dart in 0..darts {
        let angle = dart_angle(plane, given, net, solved, dart);
        let (turn, count) = dart_turns(plane, given, net, solved, dart);
        found.push(DartShape { angle, turn, count })?;
    }
    Ok(found)
}

/// The angle of a dart in right angles: what is given, or else one right angle and what its corner arc carries.
fn dart_angle(plane: &Plane, given: &Given<'_>, net: &FaceNet, solved: &Solved, dart: u16) -> u8
    requires net { IsKeepingNetOf plane.now given.now net.now }
    requires solves { Solves net.now.network solved.now }
    requires within { dart < darts plane.now }
    ensures { result ≡ angles_of given.now (amounts solved.now.flow) dart }
{
    match given.angle(dart) {
        Some(angle) => angle,
        None => solved.flow(net.corner_arc(dart)) as u8 + 1,
    }
}

/// Which way a dart turns, and how often: what is given, or else what crosses its edge. If it does not turn, the number
/// is 0, and the side means nothing.
fn dart_turns(
    plane: &Plane,
    given: &Given<'_>,
    net: &FaceNet,
    solved: &Solved,
    dart: u16,
) -> (Turn, u16)
    requires can { CanBeGiven given.now.angles given.now.turns }
    requires net { IsKeepingNetOf plane.now given.now net.now }
    requires solves { Solves net.now.network solved.now }
    requires within { dart < darts plane.now }
    ensures turns { replicate result.1 result.0 ≡ strings_of plane.now given.now (amounts solved.now.flow) dart }
    ensures short { result.1 ≤ MAX_REPEATS }
{
    match given.turns(plane, dart) {
        Some(turns) => given_turns(turns),
        None => flow_turns(plane, given, net, solved, dart),
    }
}

/// Which way a dart turns whose turns are not given, and how often; `Right` and 0 if it does not turn. No least flow
/// crosses an edge both ways, so all are left turns or all are right turns.
fn flow_turns(
    plane: &Plane,
    given: &Given<'_>,
    net: &FaceNet,
    solved: &Solved,
    dart: u16,
) -> (Turn, u16)
    requires can { CanBeGiven given.now.angles given.now.turns }
    requires net { IsKeepingNetOf plane.now given.now net.now }
    requires solves { Solves net.now.network solved.now }
    requires within { dart < darts plane.now }
    requires free { turns_given plane.now given.now dart ≡ None }
    ensures turns { replicate result.1 result.0 ≡ lefts_then_rights (amounts solved.now.flow (darts plane.now + dart))
        (amounts solved.now.flow (darts plane.now + reverse_dart plane.now dart)) }
    ensures short { result.1 ≤ MAX_REPEATS }
{
    let graph = plane.graph();
    let lefts = crossing_flow(net, solved, dart);
    if lefts > 0 {
        return (Turn::Left, lefts as u16);
    }
    let rights = crossing_flow(net, solved, graph.reverse(dart));
    (Turn::Right, rights as u16)
}

/// Which way given turns go, and how many they are: `Right` for a negative number, else `Left`, also for 0.
fn given_turns(turns: i32) -> (Turn, u16)
    requires { nat_abs turns ≤ MAX_GIVEN_TURNS }
    ensures turns { replicate result.1 result.0 ≡ one_way turns }
    ensures short { result.1 ≤ MAX_REPEATS }
{
    if turns < 0 {
        (Turn::Right, turns.unsigned_abs() as u16)
    } else {
        (Turn::Left, turns.unsigned_abs() as u16)
    }
}

/// A copy of `numbers` in the buffer of `lent`, whose contents are lost. `AllocError` if that is too small and there is
/// no memory; it is then gone.
fn copy_into(lent: Vec<i32>, numbers: &[i32]) -> Result<Vec<i32>, AllocError>
    ensures { IfOk result (λ copy. copy.items ≡ numbers.now) }
{
    let mut copy = emptied(lent, numbers.len())?;
    copy.extend_from_slice(numbers)?;
    Ok(copy)
}
