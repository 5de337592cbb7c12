//! The shape that points have: the directions in which darts leave their tails, the turns of edges, as their corners
//! have them, and the angles at vertices.
ghost use Rattle.std.specs.Prelude.{◌≡◌, ◌≤◌, ◌<◌, ℕ, length, ◌≢◌, ◌⊎◌, ◌∷◌, ◌++◌, [], List, OnOk, IsTrue, false, vec_len, All, IfOk, IfErr, IfSome, IfNone, slice_index_or, slice_index};
ghost use Rattle.faces.specs.Planes.{darts, reverse_dart, next};
ghost use Rattle.drawing_check.specs.Draws.{leaving, turned, IsTurning, TurnAsSaid};
ghost use Rattle.drawing_check.specs.Routes.{direction_at, path_of};
ghost use Rattle.referee.specs.Drawings.{HasBoundedPoints};
ghost use Rattle.geometry.specs.Directions.{opposite_of, left_quarters};
ghost use Rattle.ortho_rep.specs.declared.turn_strings.TheConstants.{MAX_TURNS};
ghost use Rattle.ortho_rep.specs.declared.turn_strings.Turn.{Turn};
ghost use Rattle.ortho_rep.specs.Turns.{opposite, mirrored};
ghost use Rattle.ortho_rep.specs.Storage.{lists_in};
ghost use Rattle.ortho_rep.specs.Shapes.{ShapeModel};
ghost use Rattle.ortho_rep.specs.Edges.{is_lesser, edge_number};
ghost use Rattle.drawing_check.specs.Paths.{path_along};
ghost use Rattle.referee.specs.Faults.{AreOnGridLines, IsTurnFault, IsFirstFailure};
ghost use Rattle.referee.specs.Taken.{IsTaken};

use crate::judge::Fault;
use drawing_check::{Route, direction_from, route_of};
use faces::Plane;
use geometry::Direction;
use ortho_rep::{Points, Shape, Turn};
use std::alloc::{AllocError, Global};

/// Writes the direction in which each dart leaves its tail over the items of `directions`, at the place of the dart's
/// number. There must be at least as many items as darts; those after them stay.
pub(crate) fn list_directions(plane: &Plane, points: &Points, directions: &mut [Direction])
    requires whole { HasBoundedPoints plane.now points.now }
    requires room { darts plane.now ≤ length directions.old }
    ensures room { darts plane.now ≤ length directions.new }
    ensures leaving { (d : ℕ) → d < darts plane.now
        → direction_at directions.new d ≡ leaving plane.now points.now d }
{
    let graph = plane.graph();
    let mut edge = 0;
    for dart in 0..graph.darts() {
        let reverse = graph.reverse(dart);
        if dart < reverse {
            let route = route_of(plane, points, dart, reverse, edge);
            let corners = route.corners.len();
            directions[usize::from(dart)] = direction_from(route.start, route.point_at(1));
            directions[usize::from(reverse)] = direction_from(route.end, route.point_at(corners));
            edge += 1;
        }
    }
}

/// The turns of all darts, in order, a new list for each. The fault `NoTurn` names the first corner, edge by edge,
/// where a path does not turn; `Memory` if memory runs out.
pub(crate) fn list_turns(
    alloc: Global,
    plane: &Plane,
    points: &Points,
) -> Result<Vec<Vec<Turn>>, Fault>
    requires { HasBoundedPoints plane.now points.now }
    ensures count { IfOk result (λ strings. vec_len strings ≡ darts plane.now) }
    ensures short { IfOk result (λ strings. All (λ string. vec_len string ≤ MAX_TURNS) strings.items) }
    ensures turning { IfOk result (λ strings. (d : ℕ) → d < darts plane.now → IsTrue (is_lesser plane.now d)
        → IsTurning (path_along plane.now points.now d) (slice_index_or (lists_in strings.items) d [])) }
    ensures mirrored { IfOk result (λ strings. (d : ℕ) → d < darts plane.now
        → slice_index_or (lists_in strings.items) (reverse_dart plane.now d) [] ≡ mirrored (slice_index_or (lists_in strings.items) d [])) }
    ensures refused { IfErr result (λ fault. fault ≢ Fault.Memory → (shape : ShapeModel) → ¬ TurnAsSaid plane.now shape points.now) }
    ensures first { IfErr result (λ fault. fault ≢ Fault.Memory
        → AreOnGridLines plane.now points.now → IsFirstFailure plane.now points.now fault) }
{
    let graph = plane.graph();
    let mut strings = Vec::with_capacity(alloc, usize::from(graph.darts()))?;
    let mut edge = 0;
    for dart in 0..graph.darts() {
        let string = string_of(alloc, plane, points, dart, edge, &strings)?;
        add(&mut strings, string)?;
        if dart < graph.reverse(dart) {
            edge += 1;
        }
    }
    Ok(strings)
}

/// The turns of a dart as a new list: read from its path or, if `strings` has those of its reverse, mirrored from them.
/// The fault `NoTurn` names the first corner where the path does not turn; `Memory` if memory runs out.
fn string_of(
    alloc: Global,
    plane: &Plane,
    points: &Points,
    dart: u16,
    edge: u16,
    strings: &[Vec<Turn>],
) -> Result<Vec<Turn>, Fault>
    requires inside { dart < darts plane.now }
    requires whole { HasBoundedPoints plane.now points.now }
    requires number { edge ≡ edge_number plane.now dart }
    requires count { length strings.now ≡ dart }
    requires few { All (λ string. vec_len string ≤ MAX_TURNS) strings.now }
    ensures short { IfOk result (λ string. vec_len string ≤ MAX_TURNS) }
    ensures turning { IfOk result (λ string. IsTrue (is_lesser plane.now dart)
        → IsTurning (path_along plane.now points.now dart) string.items) }
    ensures mirrored { IfOk result (λ string. is_lesser plane.now dart ≡ false
        → string.items ≡ mirrored (slice_index_or (lists_in strings.now) (reverse_dart plane.now dart) [])) }
    ensures refused { IfErr result (λ fault. fault ≢ Fault.Memory → (shape : ShapeModel) → ¬ TurnAsSaid plane.now shape points.now) }
    ensures first { IfErr result (λ fault. fault ≢ Fault.Memory → IsTurnFault (path_along plane.now points.now dart) edge fault) }
    ensures lesser { IfErr result (λ fault. fault ≢ Fault.Memory → IsTrue (is_lesser plane.now dart)) }
{
    let reverse = plane.graph().reverse(dart);
    if dart < reverse {
        let route = route_of(plane, points, dart, reverse, edge);
        let turns = turns_along(alloc, &route, edge)?;
        return Ok(turns);
    }
    let string = mirror(alloc, strings[usize::from(reverse)].as_slice())?;
    Ok(string)
}

/// The turns at the corners of the path of this edge, in walking order, as a new list. The fault `NoTurn` names the
/// edge and the first corner where the path does not turn; `Memory` if memory runs out.
fn turns_along(alloc: Global, route: &Route<'_>, edge: u16) -> Result<Vec<Turn>, Fault>
    requires { length route.now.corners.now ≤ MAX_TURNS }
    ensures turning { IfOk result (λ turns. IsTurning (path_of route.now) turns.items) }
    ensures short { IfOk result (λ turns. vec_len turns ≤ MAX_TURNS) }
    ensures refused { IfErr result (λ fault. fault ≢ Fault.Memory → (turns : List Turn) → ¬ IsTurning (path_of route.now) turns) }
    ensures first { IfErr result (λ fault. fault ≢ Fault.Memory → IsTurnFault (path_of route.now) edge fault) }
{
    let mut turns = Vec::with_capacity(alloc, route.corners.len())?;
    let mut heading = direction_from(route.start, route.point_at(1));
    for corner in 0..route.corners.len() {
        let onward = direction_from(route.point_at(corner + 1), route.point_at(corner + 2));
        match turn_between(heading, onward) {
            None => return Err(Fault::NoTurn { edge, corner }),
            Some(turn) => add(&mut turns, turn)?,
        }
        heading = onward;
    }
    Ok(turns)
}

/// The quarter turn from the direction `heading` to the direction `onward`; `None` if they are the same or opposite.
fn turn_between(heading: Direction, onward: Direction) -> Option<Turn>
    ensures some { IfSome result (λ turn. onward ≡ turned turn heading) }
    ensures none { IfNone result ((turn : Turn) → onward ≢ turned turn heading) }
    ensures straight { IfNone result ((onward ≡ heading) ⊎ (onward ≡ opposite_of heading)) }
{
    if onward == heading.left() {
        return Some(Turn::Left);
    }
    if onward == heading.right() {
        return Some(Turn::Right);
    }
    None
}

/// A new list of these turns, read backwards with left and right exchanged. `AllocError` if there is no memory.
fn mirror(alloc: Global, turns: &[Turn]) -> Result<Vec<Turn>, AllocError>
    ensures mirrored { IfOk result (λ back. back.items ≡ mirrored turns.now) }
    ensures count { IfOk result (λ back. vec_len back ≡ length turns.now) }
{
    let mut back = Vec::with_capacity(alloc, turns.len())?;
    for k in 0..turns.len() {
        add(&mut back, opposite(turns[turns.len() - 1 - k]))?;
    }
    Ok(back)
}

/// The turn to the other side: right for left, and left for right.
fn opposite(turn: Turn) -> Turn
    ensures { result ≡ opposite turn }
{
    match turn {
        Turn::Left => Turn::Right,
        Turn::Right => Turn::Left,
    }
}

/// Appends `item` to `list`. `AllocError` if there is no memory; `list` is then unchanged, and `item` is dropped.
pub(crate) fn add<T: Drop>(list: &mut Vec<T>, item: T) -> Result<(), AllocError>
    ensures { OnOk result (list.new.items ≡ list.old.items ++ item ∷ []) }
{
    list.push(item)?;
    Ok(())
}

/// The shape of these points, in new lists. The fault `NoTurn` names the first corner, edge by edge, where a path does
/// not turn; `Memory` if memory runs out. Overwrites `directions` with the direction in which each dart leaves its
/// tail; after a fault its items mean nothing.
pub(crate) fn shape_of(
    alloc: Global,
    directions: &mut Vec<Direction>,
    plane: &Plane,
    points: &Points,
) -> Result<Shape, Fault>
    requires { HasBoundedPoints plane.now points.now }
    ensures taken { IfOk result (IsTaken plane.now points.now) }
    ensures refused { IfErr result (λ fault. fault ≢ Fault.Memory → (shape : ShapeModel) → ¬ TurnAsSaid plane.now shape points.now) }
    ensures first { IfErr result (λ fault. fault ≢ Fault.Memory
        → AreOnGridLines plane.now points.now → IsFirstFailure plane.now points.now fault) }
{
    let graph = plane.graph();
    directions.clear();
    directions.resize(usize::from(graph.darts()), Direction::East)?;
    let directions = directions.as_mut_slice();
    let strings = list_turns(alloc, plane, points)?;
    list_directions(plane, points, directions);
    let angles = list_angles(alloc, plane, directions)?;
    Ok(Shape::new(angles, strings))
}

/// A new list of the angles at the heads of all darts, in order, in right angles from 1 to 4, if the darts leave their
/// tails in these directions. `AllocError` if there is no memory.
fn list_angles(
    alloc: Global,
    plane: &Plane,
    directions: &[Direction],
) -> Result<Vec<u8>, AllocError>
    requires { darts plane.now ≤ length directions.now }
    ensures count { IfOk result (λ angles. length angles.items ≡ darts plane.now) }
    ensures some { IfOk result (λ angles. (d : ℕ) → d < darts plane.now → 1 ≤ slice_index angles.items d) }
    ensures few { IfOk result (λ angles. (d : ℕ) → d < darts plane.now → slice_index angles.items d ≤ 4) }
    ensures heads { IfOk result (λ angles. (d : ℕ) → d < darts plane.now → direction_at directions.now (reverse_dart plane.now d) ≡ left_quarters (slice_index angles.items d) (direction_at directions.now (next plane.now d))) }
{
    let graph = plane.graph();
    let mut angles = Vec::with_capacity(alloc, usize::from(graph.darts()))?;
    for dart in 0..graph.darts() {
        let back = directions[usize::from(graph.reverse(dart))];
        let onward = directions[usize::from(plane.next(dart))];
        add(&mut angles, angle_between(onward, back))?;
    }
    Ok(angles)
}

/// How many quarter turns to the left of `from` the direction `to` is: 1 to 3, or 4 if they are the same.
fn angle_between(from: Direction, to: Direction) -> u8
    ensures value { to ≡ left_quarters result from }
    ensures some { 1 ≤ result }
    ensures few { result ≤ 4 }
{
    (to.quarters() + 3 - from.quarters()) % 4 + 1
}
