//! Whether a shape is an orthogonal representation of a plane, by the conditions of Tamassia (1987).

ghost use Rattle.std.specs.Prelude.{◌≡◌, ◌≤◌, ◌<◌, ◌+◌, ◌^◌, ◌↔◌, ℕ, IsTrue, length, replicate, slice_index, pos, negsuc, ◌-ℤ◌, if◌then◌else◌};
ghost use Rattle.faces.specs.Planes.{darts, vertices, reverse_dart};
ghost use Rattle.ortho_rep.specs.Shapes.{angle_at, turns_at};
ghost use Rattle.ortho_rep.specs.Turns.{mirrored};
ghost use Rattle.ortho_rep.specs.Representation.{HasDarts, IsShape, angles_around, turning_around, whole_turn};

use crate::shape::Shape;
use crate::turn_strings::{count_lefts, mirrors};
use faces::{MAX_FACES, Plane};

// A sum for each vertex and one more, or for each face. All of them are set before, so small planes get few.
const FEW_SUMS: usize = 64;

const MORE_SUMS: usize = 257;

const MOST_SUMS: usize = MAX_FACES;

/// Whether the shape is an orthogonal representation of the plane with its outer face. False also if it does not have
/// exactly one angle and one string for each dart.
///
/// It must also have an angle and a string for each dart and for nothing else. It allocates nothing; linear in the
/// turns, darts, vertices and faces.
pub fn is_shape(plane: &Plane, shape: &Shape) -> bool
    ensures { IsTrue result ↔ IsShape plane.now shape.now }
{
    has_darts(plane, shape)
        && has_angles(plane, shape)
        && has_mirrored_strings(plane, shape)
        && has_whole_sums(plane, shape)
}

/// Whether the shape has an angle and a string for each dart of the plane, and no more.
pub(crate) fn has_darts(plane: &Plane, shape: &Shape) -> bool
    ensures { IsTrue result ↔ HasDarts plane.now shape.now }
{
    let darts = usize::from(plane.graph().darts());
    shape.angle_count() == darts && shape.string_count() == darts
}

/// Whether the angle of each dart is 1 to 4 right angles.
fn has_angles(plane: &Plane, shape: &Shape) -> bool
    requires { HasDarts plane.now shape.now }
    ensures { IsTrue result ↔ ((d : ℕ) → d < darts plane.now
        → (1 ≤ angle_at shape.now d) × (angle_at shape.now d ≤ 4)) }
{
    for dart in 0..plane.graph().darts() {
        let angle = shape.angle(dart);
        if angle < 1 || angle > 4 {
            return false;
        }
    }
    true
}

/// Whether the string of each dart's reverse is the dart's own, read backwards with left and right exchanged.
fn has_mirrored_strings(plane: &Plane, shape: &Shape) -> bool
    requires { HasDarts plane.now shape.now }
    ensures { IsTrue result ↔ ((d : ℕ) → d < darts plane.now
        → turns_at shape.now (reverse_dart plane.now d) ≡ mirrored (turns_at shape.now d)) }
{
    for dart in 0..plane.graph().darts() {
        let reverse = plane.graph().reverse(dart);
        if !mirrors(shape.turns(dart), shape.turns(reverse)) {
            return false;
        }
    }
    true
}

/// Whether the angles round each vertex sum to 4, and the darts of each inner face, with its angles, make one whole
/// turn to the left, those of the outer face one to the right.
fn has_whole_sums(plane: &Plane, shape: &Shape) -> bool
    requires { HasDarts plane.now shape.now }
    ensures { IsTrue result ↔ (((v : ℕ) → 1 ≤ v → v ≤ vertices plane.now
        → angles_around plane.now (angle_at shape.now) v ≡ 4)
        × ((f : ℕ) → f < plane.now.faces
        → turning_around plane.now (angle_at shape.now) (turns_at shape.now) f
        ≡ whole_turn plane.now f)) }
{
    let sums = plane.face_count().max(plane.graph().vertices() + 1);
    if usize::from(sums) <= FEW_SUMS {
        angles_sum_to_four::<FEW_SUMS>(plane, shape) && faces_turn_once::<FEW_SUMS>(plane, shape)
    } else if usize::from(sums) <= MORE_SUMS {
        angles_sum_to_four::<MORE_SUMS>(plane, shape) && faces_turn_once::<MORE_SUMS>(plane, shape)
    } else {
        angles_sum_to_four::<MOST_SUMS>(plane, shape) && faces_turn_once::<MOST_SUMS>(plane, shape)
    }
}

/// Whether the angles round each vertex sum to 4. N, the size of its array of sums, must exceed the number of vertices.
#[inline(never)]
fn angles_sum_to_four<const N: usize>(plane: &Plane, shape: &Shape) -> bool
    requires darts { HasDarts plane.now shape.now }
    requires room { vertices plane.now < N }
    requires few { N < 2 ^ 16 }
    ensures { IsTrue result ↔ ((v : ℕ) → 1 ≤ v → v ≤ vertices plane.now
        → angles_around plane.now (angle_at shape.now) v ≡ 4) }
{
    let vertices = plane.graph().vertices();
    let mut sums = [0; N];
    add_angles(plane, shape, &mut sums);
    for place in 0..vertices {
        if sums[usize::from(place) + 1] != 4 {
            return false;
        }
    }
    true
}

/// Adds to `sums[v]` the angles of the darts that arrive at vertex v, in right angles, for each vertex, numbered from
/// 1. All sums must be 0 before; that at place 0 stays 0.
pub fn add_angles(plane: &Plane, shape: &Shape, sums: &mut [u32])
    requires darts { HasDarts plane.now shape.now }
    requires room { vertices plane.now < length sums.old }
    requires clear { sums.old ≡ replicate (length sums.old) 0 }
    ensures { (v : ℕ) → v ≤ vertices plane.now
        → slice_index sums.new v ≡ angles_around plane.now (angle_at shape.now) v }
{
    let graph = plane.graph();
    for dart in 0..graph.darts() {
        sums[usize::from(graph.head(dart))] += u32::from(shape.angle(dart));
    }
}

/// Whether the darts of each inner face, with its angles, make one whole turn to the left, and those of the outer face
/// one to the right. N, the size of its two arrays of sums, must be at least the number of faces.
#[inline(never)]
fn faces_turn_once<const N: usize>(plane: &Plane, shape: &Shape) -> bool
    requires darts { HasDarts plane.now shape.now }
    requires room { plane.now.faces ≤ N }
    requires few { N < 2 ^ 16 }
    ensures { IsTrue result ↔ ((f : ℕ) → f < plane.now.faces
        → turning_around plane.now (angle_at shape.now) (turns_at shape.now) f
        ≡ whole_turn plane.now f) }
{
    let faces = plane.face_count();
    let mut left_sums = [0; N];
    let mut right_sums = [0; N];
    add_turns(plane, shape, &mut left_sums, &mut right_sums);
    for face in 0..faces {
        let place = usize::from(face);
        if !turns_once(left_sums[place], right_sums[place], face == plane.outer()) {
            return false;
        }
    }
    true
}

/// Whether `left_sum` is four more than `right_sum`, or four less for the outer face: one whole turn round a face.
fn turns_once(left_sum: u64, right_sum: u64, is_outer: bool) -> bool
    ensures { IsTrue result ↔ ((pos left_sum -ℤ pos right_sum) ≡ (if is_outer then negsuc 3 else pos 4)) }
{
    if is_outer {
        right_sum >= 4 && right_sum - 4 == left_sum
    } else {
        left_sum >= 4 && left_sum - 4 == right_sum
    }
}

/// Adds to `left_sums` and `right_sums` for each face two numbers whose difference, left less right, is the number of
/// quarter turns to the left of its darts, angles included. All sums must be 0 before.
pub fn add_turns(plane: &Plane, shape: &Shape, left_sums: &mut [u64], right_sums: &mut [u64])
    requires darts { HasDarts plane.now shape.now }
    requires left_sum_room { plane.now.faces ≤ length left_sums.old }
    requires right_sum_room { plane.now.faces ≤ length right_sums.old }
    requires clear_left_sums { left_sums.old ≡ replicate (length left_sums.old) 0 }
    requires clear_right_sums { right_sums.old ≡ replicate (length right_sums.old) 0 }
    ensures { (f : ℕ) → f < plane.now.faces
        → turning_around plane.now (angle_at shape.now) (turns_at shape.now) f
        ≡ (pos (slice_index left_sums.new f) -ℤ pos (slice_index right_sums.new f)) }
{
    for dart in 0..plane.graph().darts() {
        let face = usize::from(plane.face_of(dart));
        let turns = shape.turns(dart);
        let lefts = count_lefts(turns);
        left_sums[face] += 2 + lefts as u64;
        right_sums[face] += u64::from(shape.angle(dart)) + (turns.len() - lefts) as u64;
    }
}
