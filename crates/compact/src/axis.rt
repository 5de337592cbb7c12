//! The constraint graph of a dissection along an axis (Lengauer 1990), longest paths by rounds over all constraints
//! (Bellman 1958), and the least coordinates of the vertices along the axis.
ghost use Rattle.std.specs.Prelude.{◌≡◌, ℕ, ◌+◌, ◌<◌, ◌≤◌, ◌↔◌, IsTrue, IsFalse, length, replicate, slice_index, All, ◌≢◌, ◌*◌, Some, None, IfOk, IfErr, OnOk};
ghost use Rattle.ortho_rep.specs.declared.grid_points.TheConstants.{MAX_COORDINATE};
ghost use Rattle.compact.specs.Constraints.{Satisfies, AreInRange, IsLow, AreWide, IsRelaxed, AreRelaxed};
ghost use Rattle.compact.specs.Monotone.{IsAlong, AreAlong, AreLeastOnAxis, IsAxisFault, IsCompactFault, growth};
ghost use Rattle.compact.specs.Neighbours.{neighbour, AreNeighbours, HasNeighbours, AreUnder};
ghost use Rattle.dissect.specs.DartMaps.{IsSound};
ghost use Rattle.geometry.specs.Directions.{quarters};
ghost use Rattle.dissect.specs.Boxes.{dart_map};

use crate::longest_paths::{Neighbours, raise_to_longest_paths};
use crate::points::CompactFault;
use common::filled;
use dissect::Boxes;
use geometry::Direction;
use ortho_rep::MAX_COORDINATE;
use std::alloc::AllocError;

/// A constraint: the coordinate of `to` is at least that of `from` plus `least`.
#[derive(Clone, Copy, Debug)]
pub struct Constraint {
    pub from: u32,
    pub to: u32,
    pub least: u8,
}

/// The outcome of relaxing constraints.
#[derive(Clone, Copy, Debug)]
pub enum Relaxation {
    /// Each constraint is satisfied.
    Satisfied,
    /// Some coordinate was raised.
    Raised,
    /// Some coordinate would exceed 65,535.
    Wide,
}

/// Raises the item of `coordinates` at which `constraint` ends to the least that satisfies the constraint, and returns
/// `Raised`; returns `Satisfied`, and changes nothing, if it is satisfied already. `Wide` means that the constraint
/// needs more than 65,535; nothing changes then.
fn relax(constraint: Constraint, coordinates: &mut [u16]) -> Relaxation
    requires from { constraint.from < length coordinates.old }
    requires to { constraint.to < length coordinates.old }
    requires least { constraint.least ≤ 1 }
    ensures relaxed { IsRelaxed constraint coordinates.old coordinates.new result }
    ensures length { length coordinates.new ≡ length coordinates.old }
{
    let need = u32::from(coordinates[constraint.from as usize]) + u32::from(constraint.least);
    if need > MAX_COORDINATE {
        return Relaxation::Wide;
    }
    if u32::from(coordinates[constraint.to as usize]) >= need {
        return Relaxation::Satisfied;
    }
    coordinates[constraint.to as usize] = need as u16;
    Relaxation::Raised
}

/// Raises items of `coordinates`, constraint by constraint in order, where one is not satisfied; returns `Raised` if it
/// raised any, otherwise `Satisfied`. At the first constraint that needs more than 65,535 it stops and returns `Wide`;
/// what it raised until then stays raised.
fn relax_all(constraints: &[Constraint], coordinates: &mut [u16]) -> Relaxation
    requires inside { AreInRange (length coordinates.old) constraints.now }
    requires low { IsLow constraints.now (length coordinates.old) (λ v. slice_index coordinates.old v) }
    ensures relaxed { AreRelaxed constraints.now coordinates.old coordinates.new result }
    ensures low { IsLow constraints.now (length coordinates.old) (λ v. slice_index coordinates.new v) }
    ensures length { length coordinates.new ≡ length coordinates.old }
{
    let mut found = Relaxation::Satisfied;
    for constraint in constraints {
        match relax(*constraint, coordinates) {
            Relaxation::Satisfied => {}
            Relaxation::Raised => found = Relaxation::Raised,
            Relaxation::Wide => return Relaxation::Wide,
        }
    }
    found
}

/// Raises `coordinates`, nowhere above any that satisfy the constraints, to the least that satisfy all of them, each at
/// most 65,535, and returns true. False if all that satisfy them exceed 65,535 somewhere; `coordinates` may then be
/// raised in part.
///
/// The least coordinates are the lengths of longest paths. Each round is linear in the constraints. If no cycle has a
/// constraint of 1 it needs at most as many rounds as a path without repeats has constraints, and one more, though no
/// clause says so.
pub fn relax_in_rounds(constraints: &[Constraint], coordinates: &mut [u16]) -> bool
    requires inside { AreInRange (length coordinates.old) constraints.now }
    requires low { IsLow constraints.now (length coordinates.old) (λ v. slice_index coordinates.old v) }
    ensures keeps { IsTrue result → Satisfies constraints.now (λ v. slice_index coordinates.new v) }
    ensures least { IsTrue result → IsLow constraints.now (length coordinates.old) (λ v. slice_index coordinates.new v) }
    ensures small { (v : ℕ) → v < length coordinates.new → slice_index coordinates.new v ≤ MAX_COORDINATE }
    ensures wide { IsFalse result → AreWide constraints.now (length coordinates.old) }
    ensures length { length coordinates.new ≡ length coordinates.old }
{
    'rounds: loop {
        match relax_all(constraints, coordinates) {
            Relaxation::Satisfied => return true,
            Relaxation::Raised => {}
            Relaxation::Wide => return false,
        }
    }
}

/// One of the two axes along which coordinates are computed.
#[derive(Clone, Copy, Debug)]
pub enum Axis {
    /// x, which grows to the east.
    X,
    /// y, which grows to the north.
    Y,
}

/// How much the coordinate along `axis` of a dart's head is at least above that of its tail, for a dart that runs in
/// `direction`: `Some(1)` along the axis, `Some(0)` across it, and `None` against it, where the reverse of the dart
/// says it.
fn least_difference(axis: Axis, direction: Direction) -> Option<u8>
    ensures forward { quarters direction ≡ growth axis → result ≡ Some 1 }
    ensures back { quarters direction ≡ growth axis + 2 → result ≡ None }
    ensures across { quarters direction ≢ growth axis → quarters direction ≢ growth axis + 2 → result ≡ Some 0 }
{
    match (axis, direction) {
        (Axis::X, Direction::East) | (Axis::Y, Direction::North) => Some(1),
        (Axis::X, Direction::West) | (Axis::Y, Direction::South) => None,
        (Axis::X, Direction::North | Direction::South)
        | (Axis::Y, Direction::East | Direction::West) => Some(0),
    }
}

/// Replaces the items of `constraints` by those along `axis`: from tail to head, one for each dart of `boxes` that does
/// not run against the axis, in the order of darts. `AllocError` if there is no memory; `constraints` is then empty.
fn constraints_along(
    boxes: &Boxes,
    axis: Axis,
    constraints: &mut Vec<Constraint>,
) -> Result<(), AllocError>
    ensures { OnOk result (AreAlong (dart_map boxes.now) (growth axis) boxes.now.darts constraints.new.items) }
{
    constraints.clear();
    constraints.reserve(boxes.darts() as usize)?;
    for dart in 0..boxes.darts() {
        if let Some(least) = least_difference(axis, boxes.direction(dart)) {
            let from = boxes.head(boxes.reverse(dart));
            let to = boxes.head(dart);
            constraints.push(Constraint { from, to, least })?;
        }
    }
    Ok(())
}

/// Whether the arc from `vertex` to its neighbour `to` is satisfied: the item of `along` grows by at least 1, and that
/// of `across` stays the same. True if `to` is no vertex, that is, not below the number of items.
///
/// The vertex itself then takes the place of the next one, so that no branch depends on whether there is
/// one, which cannot be predicted.
fn is_arc_satisfied(along: &[u16], across: &[u16], vertex: usize, to: u32) -> bool
    requires vertex { vertex < length along.now }
    requires count { length across.now ≡ length along.now }
    ensures grows { IsTrue result → to < length along.now → slice_index along.now vertex + 1 ≤ slice_index along.now to }
    ensures equal { IsTrue result → to < length along.now → slice_index across.now to ≡ slice_index across.now vertex }
{
    let is_there = (to as usize) < along.len();
    let end = if is_there { to as usize } else { vertex };
    let least = u32::from(is_there);
    let grows = u32::from(along[vertex]) + least <= u32::from(along[end]);
    grows & (across[vertex] == across[end])
}

/// Whether `x` grows by at least 1 along each dart to the east and is equal at both ends of each dart to the north, and
/// `y` the other way round. It looks only at the neighbours to the east and to the north in `around`, since the other
/// darts go back along the same edges.
fn are_along(boxes: &Boxes, around: &[u32], x: &[u16], y: &[u16]) -> bool
    requires all_neighbours { HasNeighbours (dart_map boxes.now) around.now boxes.now.darts }
    requires around { length around.now ≡ 4 * boxes.now.vertices }
    requires x_count { length x.now ≡ boxes.now.vertices }
    requires y_count { length y.now ≡ boxes.now.vertices }
    ensures x_along { IsTrue result → IsAlong (dart_map boxes.now) 0 (λ v. slice_index x.now v) }
    ensures y_along { IsTrue result → IsAlong (dart_map boxes.now) 1 (λ v. slice_index y.now v) }
    ensures x_small { (v : ℕ) → v < length x.now → slice_index x.now v ≤ MAX_COORDINATE }
    ensures y_small { (v : ℕ) → v < length y.now → slice_index y.now v ≤ MAX_COORDINATE }
{
    for vertex in 0..boxes.vertices() as usize {
        let east = around[4 * vertex];
        let north = around[4 * vertex + 1];
        if !(is_arc_satisfied(x, y, vertex, east) & is_arc_satisfied(y, x, vertex, north)) {
            return false;
        }
    }
    true
}

/// Returns a coordinate for each vertex, in the buffer of `coordinates`, nowhere above any that grow along the darts of
/// `axis`. `segments` is the stack of the search: it is overwritten, and grown if it has fewer items than there are
/// vertices. `AllocError` if there is no memory for either; `coordinates` is then gone.
///
/// The coordinates are the lengths of longest paths, found segment by segment. `around` has the neighbours of each
/// vertex. Linear in the vertices, if all faces are boxes. It is inlined, so that the directions of an axis are
/// constants.
#[inline(always)]
fn lower_bounds_along(
    boxes: &Boxes,
    around: &[u32],
    axis: Axis,
    coordinates: Vec<u16>,
    segments: &mut Vec<u32>,
) -> Result<Vec<u16>, AllocError>
    requires neighbours { AreNeighbours (dart_map boxes.now) around.now boxes.now.vertices }
    requires around { length around.now ≡ 4 * boxes.now.vertices }
    ensures sound { IfOk result (λ _. IsSound (dart_map boxes.now)) }
    ensures count { IfOk result (λ coordinates. length coordinates.items ≡ boxes.now.vertices) }
    ensures under { IfOk result (λ coordinates. (y : ℕ → ℕ) → IsAlong (dart_map boxes.now) (growth axis) y → AreUnder boxes.now.vertices coordinates.items y) }
{
    let mut coordinates = filled(coordinates, boxes.vertices() as usize, 0)?;
    if segments.len() < coordinates.len() {
        segments.resize(coordinates.len(), 0)?;
    }
    raise_to_longest_paths(
        segments.as_mut_slice(),
        Neighbours::along(around, axis),
        u32::from(boxes.old_vertices()),
        &mut coordinates,
    );
    Ok(coordinates)
}

/// Raises `coordinates`, nowhere above any that grow along the darts of `axis`, to the least that grow along them, and
/// returns them. `Wide` if one would exceed 65,535, `Memory` if there is no memory for `constraints`, which is
/// overwritten; either fault drops `coordinates`.
fn relaxed_along(
    boxes: &Boxes,
    axis: Axis,
    mut coordinates: Vec<u16>,
    constraints: &mut Vec<Constraint>,
) -> Result<Vec<u16>, CompactFault>
    requires sound { IsSound (dart_map boxes.now) }
    requires count { length coordinates.items ≡ boxes.now.vertices }
    requires under { (y : ℕ → ℕ) → IsAlong (dart_map boxes.now) (growth axis) y → AreUnder boxes.now.vertices coordinates.items y }
    ensures along { IfOk result (λ coordinates. AreLeastOnAxis boxes.now (growth axis) coordinates.items) }
    ensures fault { IfErr result (IsAxisFault boxes.now (growth axis)) }
{
    constraints_along(boxes, axis, constraints)?;
    let all_satisfied = relax_in_rounds(constraints, &mut coordinates);
    if !all_satisfied {
        return Err(CompactFault::Wide);
    }
    Ok(coordinates)
}

/// Returns the x and, second, the y coordinates of the vertices, in their order: the least that grow along the darts,
/// in the buffers of `x` and `y`. `Wide` if one would exceed 65,535, `Memory` if there is no memory; either fault drops
/// `x` and `y`. `segments` and `constraints` are only buffers and are overwritten.
///
/// `around` has the neighbours of each vertex. `constraints` is used only if coordinates found by segments do not grow
/// everywhere.
pub fn least_coordinates(
    boxes: &Boxes,
    around: &[u32],
    x: Vec<u16>,
    y: Vec<u16>,
    segments: &mut Vec<u32>,
    constraints: &mut Vec<Constraint>,
) -> Result<(Vec<u16>, Vec<u16>), CompactFault>
    requires neighbours { AreNeighbours (dart_map boxes.now) around.now boxes.now.vertices }
    requires all_neighbours { HasNeighbours (dart_map boxes.now) around.now boxes.now.darts }
    requires around { length around.now ≡ 4 * boxes.now.vertices }
    ensures sound { IfOk result (λ _. IsSound (dart_map boxes.now)) }
    ensures x { IfOk result (λ found. AreLeastOnAxis boxes.now 0 found.0.items) }
    ensures y { IfOk result (λ found. AreLeastOnAxis boxes.now 1 found.1.items) }
    ensures fault { IfErr result (IsCompactFault boxes.now) }
{
    let x = lower_bounds_along(boxes, around, Axis::X, x, segments)?;
    let y = lower_bounds_along(boxes, around, Axis::Y, y, segments)?;
    if are_along(boxes, around, &x, &y) {
        return Ok((x, y));
    }
    let least_x = relaxed_along(boxes, Axis::X, x, constraints)?;
    let least_y = relaxed_along(boxes, Axis::Y, y, constraints)?;
    Ok((least_x, least_y))
}
