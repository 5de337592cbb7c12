//! The best outer face among those that are not barred, with what is given kept: each is tried.

ghost use Rattle.std.specs.Prelude.{◌≡◌, ◌<◌, OnOk, IfOk, IfErr, OnErr};
ghost use Rattle.faces.specs.Planes.{with_outer};
ghost use Rattle.ortho_rep.specs.Representation.{IsShape};
ghost use Rattle.ortho_rep.specs.Keeping.{IsLeastKeeping};
ghost use Rattle.ortho_rep.specs.Prices.{IsProofKeeping};
ghost use Rattle.ortho_rep.specs.BestKeeping.{IsBestKeeping, HasNoFace, IsTriedBefore, IsCounted, better_of};

use crate::best::Incumbent;
use crate::certificate::Prices;
use crate::least::least_shape_keeping_in;
use crate::shape::{Scratch, Shape};
use faces::Plane;
use flow_network::{Given, has_mark};
use min_cost_flow::SolveFault;
use std::alloc::{AllocError, Global};

/// Makes the best face that is not barred the outer one of `plane`; returns a least shape that keeps what is given, and
/// prices that prove it. `Infeasible` if no such face has a shape that keeps what is given, `Memory` if there is no
/// memory; `plane` is then unchanged.
///
/// The best face minimises the bends of such shapes, and has the least number among equals. `barred` has a place for
/// each face; places past its end count as false. Each face is tried by a flow of its own.
///
/// # Errors
///
/// `Infeasible` exactly if, memory aside, no face that is not barred has a shape that keeps what is given;
/// `Memory` if memory runs out for the network, its flow, the shape or the prices. The plane is then unchanged.
pub fn best_shape_keeping(
    alloc: Global,
    plane: &mut Plane,
    given: &Given<'_>,
    barred: &[bool],
) -> Result<(Shape, Prices), SolveFault>
    ensures outer_moved { OnOk result (plane.new ≡ with_outer plane.old plane.new.outer) }
    ensures best { OnOk result (IsBestKeeping plane.new given.now barred.now) }
    ensures shape { IfOk result (λ found. IsShape plane.new found.0) }
    ensures least { IfOk result (λ found. IsLeastKeeping plane.new given.now found.0) }
    ensures proof { IfOk result (λ found. IsProofKeeping plane.new given.now found.0 found.1) }
    ensures none { IfErr result (λ fault. fault ≡ SolveFault.Infeasible → HasNoFace plane.old given.now barred.now) }
    ensures unchanged { OnErr result (plane.new ≡ plane.old) }
{
    let outer = plane.outer();
    let mut scratch = Scratch::empty(alloc);
    match best_found(alloc, &mut scratch, plane, given, barred) {
        Ok(solution) => Ok(solution),
        Err(fault) => {
            plane.set_outer(outer);
            Err(fault)
        }
    }
}

/// Makes the best face that is not barred the outer one of `plane`; returns a least shape that keeps what is given, and
/// its prices, in the buffers of `scratch`. `Infeasible` if there is none, `Memory` if there is no memory; then some
/// face that was tried may be left as the outer one, and buffers of `scratch` may be lost.
fn best_found(
    alloc: Global,
    scratch: &mut Scratch,
    plane: &mut Plane,
    given: &Given<'_>,
    barred: &[bool],
) -> Result<(Shape, Prices), SolveFault>
    ensures outer_moved { plane.new ≡ with_outer plane.old plane.new.outer }
    ensures best { OnOk result (IsBestKeeping plane.new given.now barred.now) }
    ensures shape { IfOk result (λ found. IsShape plane.new found.0) }
    ensures least { IfOk result (λ found. IsLeastKeeping plane.new given.now found.0) }
    ensures proof { IfOk result (λ found. IsProofKeeping plane.new given.now found.0 found.1) }
    ensures none { IfErr result (λ fault. fault ≡ SolveFault.Infeasible → HasNoFace plane.old given.now barred.now) }
{
    match best_face(alloc, scratch, plane, given, barred)? {
        Some(incumbent) => {
            plane.set_outer(incumbent.face);
            least_shape_keeping_in(alloc, scratch, plane, given)
        }
        None => Err(SolveFault::Infeasible),
    }
}

/// Tries each face that is not barred as the outer one of `plane`, and returns the best with its bends; `None` if with
/// none of them a shape keeps what is given. The face tried last is left as the outer one. It uses the buffers of
/// `scratch`, some of which may be lost in each case. `AllocError` if there is no memory.
fn best_face(
    alloc: Global,
    scratch: &mut Scratch,
    plane: &mut Plane,
    given: &Given<'_>,
    barred: &[bool],
) -> Result<Option<Incumbent>, AllocError>
    ensures outer_moved { plane.new ≡ with_outer plane.old plane.new.outer }
    ensures tried { IfOk result (IsTriedBefore plane.old given.now barred.now plane.old.faces) }
{
    let mut best = None;
    for face in 0..plane.face_count() {
        if has_mark(barred, face) {
            continue;
        }
        let bends = bends_with(alloc, scratch, plane, given, face)?;
        best = better(best, face, bends);
    }
    Ok(best)
}

/// Makes `face` the outer one of `plane`, and returns the fewest bends of a shape that keeps what is given; `None` if
/// there is no such shape. It uses the buffers of `scratch`; `AllocError` if there is no memory. In each case `face`
/// stays the outer one; if no bends are returned, buffers of `scratch` may be lost.
fn bends_with(
    alloc: Global,
    scratch: &mut Scratch,
    plane: &mut Plane,
    given: &Given<'_>,
    face: u16,
) -> Result<Option<u64>, AllocError>
    requires { face < plane.old.faces }
    ensures outer_moved { plane.new ≡ with_outer plane.old face }
    ensures counted { IfOk result (IsCounted plane.new given.now) }
{
    plane.set_outer(face);
    match least_shape_keeping_in(alloc, scratch, plane, given) {
        Ok((shape, prices)) => {
            let bends = u64::from(shape.bends());
            shape.give_back(scratch);
            prices.give_back(scratch);
            Ok(Some(bends))
        }
        Err(SolveFault::Infeasible) => Ok(None),
        Err(SolveFault::Memory) => Err(AllocError),
    }
}

/// `best` or `face`, whichever has fewer bends, and `best` if both have as many. `None` stands for no shape: as `best`
/// or as `bends` it loses to any number of bends, and if both are `None`, so is the result.
fn better(best: Option<Incumbent>, face: u16, bends: Option<u64>) -> Option<Incumbent>
    ensures { result ≡ better_of best face bends }
{
    let Some(bends) = bends else {
        return best;
    };
    match best {
        Some(incumbent) if incumbent.bends <= bends => best,
        _ => Some(Incumbent { face, bends }),
    }
}
