//! What is asked of a layout, by names of vertices; which faces are meant by pairs of vertices; and what is asked of
//! the darts of a plane, as lists of what is given.
ghost use Rattle.std.specs.Prelude.{◌≡◌, ◌<◌, ◌↔◌, true, false, if◌then◌else◌, IsTrue, IfOk, length, replicate, slice_set, ◌⊎◌, ◌≤◌, ◌^◌, neg_ℤ, nat_abs, IsFalse, IfErr, All};
ghost use Rattle.faces.specs.Planes.{darts};
ghost use Rattle.conditions.specs.Asked.{Names, IsAmong, IsDart, AreBarred, HasAngles, AreDarts, AnglesDiffer, TurnsDiffer};
ghost use Rattle.conditions.specs.Asking.{AreAngles, AreTurns, AreFew, lesser_of, along_lesser, IsPut, HoldsOther};

use crate::cuts::KeepFault;
use common::filled;
use faces::Plane;
use std::alloc::{AllocError, Global};

/// A dart, given by the vertex that it comes from and the one that it goes to. Vertices are numbered from 1.
#[repr(C)]
#[derive(Clone, Copy, Debug)]
pub struct DartEnds {
    /// The vertex that the dart comes from.
    pub from: u16,
    /// The vertex that it goes to.
    pub to: u16,
}

/// An angle that is asked for at the head of a dart, between it and the next dart of the face on its left.
#[repr(C)]
#[derive(Clone, Copy, Debug)]
pub struct AngleAt {
    /// The vertex that the dart comes from.
    pub from: u16,
    /// The vertex that it goes to, where the angle is.
    pub to: u16,
    /// How many right angles it is, 1 to 4.
    pub angle: u16,
}

/// Turns that are asked for along a dart, all of them the same way.
#[repr(C)]
#[derive(Clone, Copy, Debug)]
pub struct TurnsAlong {
    /// The vertex that the dart comes from.
    pub from: u16,
    /// The vertex that it goes to.
    pub to: u16,
    /// How often it turns to the left, or as a negative number to the right. An edge with 0 turns is straight.
    pub turns: i16,
}

/// The conditions that a layout must keep.
///
/// The same may be asked for more than once, of an edge also along both its darts: t turns along the one are -t along
/// the other.
#[repr(C)]
#[derive(Clone, Copy)]
pub struct Conditions<'a> {
    /// Turns along edges. All edges that are named have together at most `MAX_GIVEN_TURNS`.
    pub turns: &'a [TurnsAlong],
    /// Angles.
    pub angles: &'a [AngleAt],
    /// The faces that stay inside, each by a dart that has it on its left.
    pub inner: &'a [DartEnds],
}

/// Whether the dart `dart` leads from the vertex `from` to the vertex `to`.
pub(crate) fn has_ends(plane: &Plane, dart: u16, from: u16, to: u16) -> bool
    requires { dart < darts plane.now }
    ensures { IsTrue result ↔ Names plane.now dart from to }
{
    let graph = plane.graph();
    from == graph.tail(dart) && to == graph.head(dart)
}

/// Whether some dart leads from the vertex `from` to the vertex `to`. Linear in the darts of the plane.
pub(crate) fn is_dart(plane: &Plane, from: u16, to: u16) -> bool
    ensures { IsTrue result ↔ IsDart plane.now from to }
{
    for dart in 0..plane.graph().darts() {
        if has_ends(plane, dart, from, to) {
            return true;
        }
    }
    false
}

/// Whether the dart `dart` has the two ends that some entry of `list` names.
fn is_among(plane: &Plane, list: &[DartEnds], dart: u16) -> bool
    requires { dart < darts plane.now }
    ensures { IsTrue result ↔ IsAmong plane.now list.now dart }
{
    list.iter()
        .any(|ends| has_ends(plane, dart, ends.from, ends.to))
}

/// Returns a mark for each face: true if the face is on the left of a dart of `list`; `AllocError` if there is no
/// memory for the marks. Entries that name no dart mark nothing. It goes over `list` for each dart of the plane.
pub(crate) fn barred_of(
    alloc: Global,
    plane: &Plane,
    list: &[DartEnds],
) -> Result<Vec<bool>, AllocError>
    ensures { IfOk result (λ barred. AreBarred plane.now list.now barred.items) }
{
    let mut barred = filled(Vec::new(alloc), usize::from(plane.face_count()), false)?;
    mark_faces(plane, list, &mut barred);
    Ok(barred)
}

/// Sets in `barred` the marks of the faces on the left of the darts of `list`; before the call all its marks must be
/// unset, and there is one for each face.
fn mark_faces(plane: &Plane, list: &[DartEnds], barred: &mut [bool])
    requires { barred.old ≡ replicate plane.now.faces false }
    ensures { AreBarred plane.now list.now barred.new }
{
    for dart in 0..plane.graph().darts() {
        let face = plane.face_of(dart);
        mark_if(barred, usize::from(face), is_among(plane, list, dart));
    }
}

/// Sets `marks[place]` to true if `yes` is true, and otherwise leaves `marks` as it is; `place` must be in `marks`.
fn mark_if(marks: &mut [bool], place: usize, yes: bool)
    requires { place < length marks.old }
    ensures { marks.new ≡ (if yes then slice_set marks.old place true else marks.old) }
{
    if yes {
        marks[place] = true;
    }
}

/// Whether each asked angle is 1 to 4 right angles; true if no angle is asked for.
pub(crate) fn are_angles(conditions: &Conditions<'_>) -> bool
    ensures { IsTrue result ↔ HasAngles conditions.now }
{
    conditions
        .angles
        .iter()
        .all(|asked| 1 <= asked.angle && asked.angle <= 4)
}

/// Whether the two vertices of each condition, on turns, angles or inner faces, are adjacent; true if there are no
/// conditions. Linear in the darts of the plane for each condition.
pub(crate) fn are_all_adjacent(plane: &Plane, conditions: &Conditions<'_>) -> bool
    ensures { IsTrue result ↔ AreDarts plane.now conditions.now }
{
    conditions
        .turns
        .iter()
        .all(|asked| is_dart(plane, asked.from, asked.to))
        && conditions
            .angles
            .iter()
            .all(|asked| is_dart(plane, asked.from, asked.to))
        && conditions
            .inner
            .iter()
            .all(|ends| is_dart(plane, ends.from, ends.to))
}

/// The number of the dart that leads from the vertex `from` to the vertex `to`; there must be one. Linear in the darts
/// of the plane.
fn dart_of(plane: &Plane, from: u16, to: u16) -> u16
    requires { IsDart plane.now from to }
    ensures inside { result < darts plane.now }
    ensures named { Names plane.now result from to }
{
    for dart in 0..plane.graph().darts() {
        if has_ends(plane, dart, from, to) {
            return dart;
        }
    }
    unreachable!()
}

/// Returns a list with an entry for each dart: the angle that is asked for at its head, in right angles, or `None`.
/// `Conflict` if angles that differ are asked for at one dart; `Memory` if memory runs out. It goes over the darts for
/// each entry of `list`.
///
/// # Errors
///
/// `Conflict` exactly if, memory aside, angles that differ are asked for at one dart; `Memory` if memory runs out.
pub(crate) fn angles_of(
    alloc: Global,
    plane: &Plane,
    list: &[AngleAt],
) -> Result<Vec<Option<u8>>, KeepFault>
    requires angles { All (λ asked. (1 ≤ asked.angle) × (asked.angle ≤ 4)) list.now }
    requires darts { All (λ asked. IsDart plane.now asked.from asked.to) list.now }
    ensures angles { IfOk result (λ found. AreAngles plane.now list.now found.items) }
    ensures fault { IfErr result (λ fault. (fault ≡ KeepFault.Memory) ⊎ ((fault ≡ KeepFault.Conflict) × AnglesDiffer plane.now list.now)) }
{
    let darts = plane.graph().darts();
    let mut found = filled(Vec::new(alloc), usize::from(darts), None)?;
    for asked in list {
        let dart = dart_of(plane, asked.from, asked.to);
        if !put_angle(&mut found, dart, asked.angle as u8) {
            return Err(KeepFault::Conflict);
        }
    }
    Ok(found)
}

/// Sets `found[dart]` to `angle` if it is `None`, and returns true; returns true also if it is `angle` already, and
/// false if it is another angle, which stays.
fn put_angle(found: &mut [Option<u8>], dart: u16, angle: u8) -> bool
    requires { dart < length found.old }
    ensures put { IsTrue result → IsPut dart angle found.old found.new }
    ensures other { IsFalse result → HoldsOther dart angle found.old }
{
    let place = usize::from(dart);
    if let Some(held) = found[place] {
        return held == angle;
    }
    found[place] = Some(angle);
    true
}

/// Returns a list with an entry for each dart: for the lesser dart of an edge the left turns that are asked for along
/// it (right ones are negative) or `None`; for the other dart `None`. `Conflict` if turns that differ are asked for
/// along one edge; `Memory` if memory runs out.
///
/// It goes over the darts for each entry of `list`.
///
/// # Errors
///
/// `Conflict` exactly if, memory aside, turns that differ are asked for along one edge; `Memory` if memory runs out.
pub(crate) fn turns_of(
    alloc: Global,
    plane: &Plane,
    list: &[TurnsAlong],
) -> Result<Vec<Option<i32>>, KeepFault>
    requires { All (λ asked. IsDart plane.now asked.from asked.to) list.now }
    ensures turns { IfOk result (λ found. AreTurns plane.now list.now found.items) }
    ensures fault { IfErr result (λ fault. (fault ≡ KeepFault.Memory) ⊎ ((fault ≡ KeepFault.Conflict) × TurnsDiffer plane.now list.now)) }
{
    let darts = plane.graph().darts();
    let mut found = filled(Vec::new(alloc), usize::from(darts), None)?;
    for asked in list {
        let dart = dart_of(plane, asked.from, asked.to);
        if !put_along(plane, &mut found, dart, asked.turns) {
            return Err(KeepFault::Conflict);
        }
    }
    Ok(found)
}

/// Sets in `found` the turns along `dart`, as turns along the lesser dart of its edge at that place, if there is
/// `None`, and returns true; returns true also if they are there already, and false if other turns are there, which
/// stay.
fn put_along(plane: &Plane, found: &mut [Option<i32>], dart: u16, turns: i16) -> bool
    requires size { length found.old ≡ darts plane.now }
    requires few { All AreFew found.old }
    requires dart { dart < darts plane.now }
    ensures few { All AreFew found.new }
    ensures put { IsTrue result → IsPut (lesser_of plane.now dart) (along_lesser plane.now dart turns) found.old found.new }
    ensures other { IsFalse result → HoldsOther (lesser_of plane.now dart) (along_lesser plane.now dart turns) found.old }
{
    let reverse = plane.graph().reverse(dart);
    if dart < reverse {
        put_turns(found, dart, widened(turns))
    } else {
        put_turns(found, reverse, reversed(turns))
    }
}

/// The same number of turns, as a number of 32 bits.
fn widened(turns: i16) -> i32
    ensures value { result ≡ turns }
    ensures few { nat_abs result ≤ 2 ^ 15 }
{
    i32::from(turns)
}

/// The number of turns along the reverse of a dart that has `turns`: the same with the other sign, as a number of 32
/// bits.
fn reversed(turns: i16) -> i32
    ensures value { result ≡ neg_ℤ turns }
    ensures few { nat_abs result ≤ 2 ^ 15 }
{
    -i32::from(turns)
}

/// Sets `found[dart]` to `turns` if it is `None`, and returns true; returns true also if it is `turns` already, and
/// false if it is another number, which stays.
fn put_turns(found: &mut [Option<i32>], dart: u16, turns: i32) -> bool
    requires dart { dart < length found.old }
    requires few { All AreFew found.old }
    requires turns { nat_abs turns ≤ 2 ^ 15 }
    ensures few { All AreFew found.new }
    ensures put { IsTrue result → IsPut dart turns found.old found.new }
    ensures other { IsFalse result → HoldsOther dart turns found.old }
{
    let place = usize::from(dart);
    if let Some(held) = found[place] {
        return held == turns;
    }
    found[place] = Some(turns);
    true
}
