//! The chosen outer face among those that may be outside, and a least shape that keeps what is given.

ghost use Rattle.std.specs.Prelude.{◌≡◌, ◌+◌, ◌<◌, Bool, List, OnOk, IfOk, IfErr, IfSome};
ghost use Rattle.faces.specs.Planes.{with_outer};
ghost use Rattle.ortho_rep.specs.Representation.{IsShape};
ghost use Rattle.ortho_rep.specs.Keeping.{IsLeastKeeping, HasNoneKeeping};
ghost use Rattle.ortho_rep.specs.Prices.{IsProofKeeping};
ghost use Rattle.ortho_rep.specs.BestKeeping.{IsOpen};
ghost use Rattle.common.specs.declared.parameters.Choice.{Choice};
ghost use Rattle.conditions.specs.Asked.{IsAsked};
ghost use Rattle.conditions.specs.Chosen.{IsGreatestSoFar, IsGreatestOpen, IsChosenKeeping, HasNoChosen, IsKept, IsKeepFault, IsToldOf};

use crate::conditions::{Conditions, angles_of, are_all_adjacent, are_angles, barred_of, turns_of};
use crate::cuts::{KeepFault, Unkept, violated_cut};
use common::Choice;
use faces::Plane;
use flow_network::{Given, has_mark};
use ortho_rep::{Prices, Scratch, Shape, SolveFault, best_shape_keeping, least_shape_keeping_in};
use std::alloc::{AllocError, Global};
use std::marker::Model;

/// Makes the chosen face the outer one of `plane`, and returns a shape with the fewest bends that keeps the conditions,
/// with prices that prove it; works in `scratch`. An error says what is wrong with the conditions, or that no shape
/// keeps them, or is `Memory` if memory runs out; the outer face of `plane` may have changed even then.
///
/// `First` is the face with the most darts of those that may be outside; `Best` the one with which the fewest bends are
/// needed to keep what is given; among equals both are the one with the least number, which has the least dart.
///
/// # Errors
///
/// `NoAngle` exactly if an angle is not 1 to 4; otherwise `NoEdge` exactly if two vertices that are named are not
/// adjacent; otherwise `Conflict` exactly if two conditions on one angle or one edge differ; otherwise `TooManyTurns`
/// exactly if all edges together are to have more than `MAX_GIVEN_TURNS` turns; otherwise `NoOuter` exactly if no face
/// may be outside; otherwise `NoShape` exactly if no shape with a chosen face keeps what is given; all of this memory
/// aside. `NoShape` has vertices and faces that show it for the face with the most darts of those that may be outside.
/// `Memory` if memory runs out. The outer face may have changed.
pub fn shape_keeping_in(
    alloc: Global,
    scratch: &mut Scratch,
    plane: &mut Plane,
    conditions: &Conditions<'_>,
    choice: Choice,
) -> Result<(Shape, Prices), KeepFault>
    ensures outer_moved { plane.new ≡ with_outer plane.old plane.new.outer }
    ensures kept { IfOk result (λ found. IsKept conditions.now choice plane.new found.0 found.1) }
    ensures fault { IfErr result (IsKeepFault conditions.now choice plane.old) }
{
    let by_darts = conditions_by_darts(alloc, plane, conditions)?;
    match chosen_shape(alloc, scratch, plane, choice, &by_darts) {
        Ok(solution) => Ok(solution),
        Err(SolveFault::Infeasible) => Err(no_shape_fault(alloc, plane, &by_darts)),
        Err(SolveFault::Memory) => Err(KeepFault::Memory),
    }
}

/// Makes `by_darts.greatest` the outer face of `plane`, and returns `NoShape` with this face and a cut that proves that
/// no shape keeps what is given; returns `Memory` if memory runs out, and the outer face stays changed.
fn no_shape_fault(alloc: Global, plane: &mut Plane, by_darts: &DartConditions) -> KeepFault
    requires face { by_darts.now.greatest < plane.old.faces }
    requires none { HasNoneKeeping (with_outer plane.old by_darts.now.greatest) by_darts.now.given }
    ensures outer_moved { plane.new ≡ with_outer plane.old plane.new.outer }
    ensures shown { IsToldOf plane.old by_darts.now.given by_darts.now.greatest result }
{
    plane.set_outer(by_darts.greatest);
    match violated_cut(alloc, plane, &by_darts.given()) {
        Ok(Some(cut)) => KeepFault::NoShape(Unkept {
            outer: by_darts.greatest,
            cut,
        }),
        Ok(None) => unreachable!(),
        Err(AllocError) => KeepFault::Memory,
    }
}

/// Conditions by darts and faces: what is given of the darts of a plane, marks of its faces, and the greatest face that
/// is not marked.
#[derive(Drop)]
struct DartConditions {
    angles: Vec<Option<u8>>,
    turns: Vec<Option<i32>>,
    barred: Vec<bool>,
    greatest: u16,
}

impl Model for DartConditions {
    ghost use Rattle.flow_network.specs.Given.{CanBeGiven};
    ghost use Rattle.conditions.specs.DartConditions.{DartConditionsModel};

    ghost Value = { DartConditionsModel };

    ghost view = { λ m. record { given = record { angles = m.angles.items; turns = m.turns.items }; barred = m.barred.items; greatest = m.greatest } };

    ghost invariant = { λ m. CanBeGiven m.angles.items m.turns.items };
}

impl DartConditions {
    /// The angles and turns that a shape is to keep, by darts; borrows the two lists.
    fn given(&self) -> Given<'_>
        ensures { result ≡ self.now.given }
    {
        Given::new(&self.angles, &self.turns)
    }
}

/// Returns the conditions by darts and faces of the plane, with the face with the most darts that may be outside. The
/// error is the first that applies of `NoAngle`, `NoEdge`, `Conflict` (of angles, then of turns), `TooManyTurns` and
/// `NoOuter`, or `Memory` if memory runs out before.
fn conditions_by_darts(
    alloc: Global,
    plane: &Plane,
    conditions: &Conditions<'_>,
) -> Result<DartConditions, KeepFault>
    ensures asked { IfOk result (λ by_darts. IsAsked plane.now conditions.now by_darts.given by_darts.barred) }
    ensures greatest { IfOk result (λ by_darts. IsGreatestOpen plane.now by_darts.barred by_darts.greatest) }
    ensures fault { IfErr result (λ fault. (choice : Choice) → IsKeepFault conditions.now choice plane.now fault) }
{
    // Only the proof needs this: `graph` says that the plane is one.
    let _graph = plane.graph();
    if !are_angles(conditions) {
        return Err(KeepFault::NoAngle);
    }
    if !are_all_adjacent(plane, conditions) {
        return Err(KeepFault::NoEdge);
    }
    let angles = angles_of(alloc, plane, conditions.angles)?;
    let turns = turns_of(alloc, plane, conditions.turns)?;
    if !Given::can_be(&angles, &turns) {
        return Err(KeepFault::TooManyTurns);
    }
    let barred = barred_of(alloc, plane, conditions.inner)?;
    match greatest_open(plane, &barred) {
        Some(greatest) => Ok(DartConditions {
            angles,
            turns,
            barred,
            greatest,
        }),
        None => Err(KeepFault::NoOuter),
    }
}

/// Makes the chosen face the outer one of `plane`, and returns a least shape with it that keeps what is given, and its
/// prices; works in `scratch`. `Infeasible` if there is none, `Memory` if memory runs out; the outer face of `plane`
/// may have changed even then.
fn chosen_shape(
    alloc: Global,
    scratch: &mut Scratch,
    plane: &mut Plane,
    choice: Choice,
    by_darts: &DartConditions,
) -> Result<(Shape, Prices), SolveFault>
    requires { IsGreatestOpen plane.old by_darts.now.barred by_darts.now.greatest }
    ensures outer_moved { plane.new ≡ with_outer plane.old plane.new.outer }
    ensures chosen { OnOk result (IsChosenKeeping choice plane.new by_darts.now.given by_darts.now.barred) }
    ensures shape { IfOk result (λ found. IsShape plane.new found.0) }
    ensures least { IfOk result (λ found. IsLeastKeeping plane.new by_darts.now.given found.0) }
    ensures proof { IfOk result (λ found. IsProofKeeping plane.new by_darts.now.given found.0 found.1) }
    ensures none { IfErr result (λ fault. fault ≡ SolveFault.Infeasible
        → HasNoChosen choice plane.old by_darts.now.given by_darts.now.barred) }
    ensures none_there { IfErr result (λ fault. fault ≡ SolveFault.Infeasible
        → HasNoneKeeping (with_outer plane.old by_darts.now.greatest) by_darts.now.given) }
{
    match choice {
        Choice::First => {
            plane.set_outer(by_darts.greatest);
            least_shape_keeping_in(alloc, scratch, plane, &by_darts.given())
        }
        Choice::Best => best_shape_keeping(alloc, plane, &by_darts.given(), &by_darts.barred),
    }
}

/// The number of the face with the most darts of those that `barred` does not mark, among equals the least number;
/// `None` if all are marked. Faces past the end of `barred` count as not marked.
fn greatest_open(plane: &Plane, barred: &[bool]) -> Option<u16>
    ensures { IsGreatestSoFar plane.now barred.now plane.now.faces result }
{
    let mut best = None;
    for face in 0..plane.face_count() {
        if !has_mark(barred, face) {
            best = greater(plane, best, face);
        }
    }
    best
}

/// Returns `best` if it has at least as many darts as `face`; otherwise, or if `best` is `None`, returns `face`. The
/// result is never `None`.
fn greater(plane: &Plane, best: Option<u16>, face: u16) -> Option<u16>
    requires face { face < plane.now.faces }
    requires best { IfSome best (λ so_far. so_far < plane.now.faces) }
    ensures { (barred : List Bool) → IsOpen barred face → IsGreatestSoFar plane.now barred face best
        → IsGreatestSoFar plane.now barred (face + 1) result }
{
    if let Some(so_far) = best {
        if plane.degree(face) <= plane.degree(so_far) {
            return Some(so_far);
        }
    }
    Some(face)
}
