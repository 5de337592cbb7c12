//! What is given of a shape: angles at the heads of darts, and turns along edges. Also marks of darts and of faces.
ghost use Rattle.std.specs.Prelude.{◌≡◌, ◌<◌, ◌≤◌, ◌↔◌, pos, nat_abs, IsTrue, Option, None, All, length, slice_index_or};
ghost use Rattle.flow_network.specs.Marks.{is_marked};
ghost use Rattle.faces.specs.Planes.{darts};
ghost use Rattle.flow_network.specs.declared.given_shape.TheConstants.{MAX_GIVEN_TURNS};
ghost use Rattle.flow_network.specs.Given.{nothing_given, angle_given, turns_given, walked_back, beyond_first, lefts_given, turns_in_all, IsAngle, CanBeGiven};

use common::MAX_VERTICES;
use faces::Plane;
use std::marker::Model;

/// Whether entry `number` of `marks`, the marks of darts or of faces, is true; false past the end of the list.
pub fn has_mark(marks: &[bool], number: u16) -> bool
    ensures { result ≡ is_marked marks.now number }
{
    let place = usize::from(number);
    place < marks.len() && marks[place]
}

/// How many turns all edges together may have that are given. No least shape of a graph has more bends.
pub const MAX_GIVEN_TURNS: usize = 6 * MAX_VERTICES + 4;

/// Angles and turns that a shape is to keep, in two lists that are borrowed.
///
/// Place d of each list belongs to dart d, and past the end of a list nothing is given. An angle lies at the head of
/// its dart and is 1 to 4 right angles. Turns are counted to the left, and a negative number is of turns to the right.
/// Those of an edge stand at its lesser dart; what stands at the other one is not read.
#[derive(Debug, Drop)]
pub struct Given<'a> {
    angles: &'a [Option<u8>],
    turns: &'a [Option<i32>],
}

impl<'a> Model for Given<'a> {
    ghost use Rattle.flow_network.specs.Given.{GivenModel, CanBeGiven};

    ghost Value = { GivenModel };

    ghost view = { λ g. record { angles = g.angles.now; turns = g.turns.now } };

    ghost invariant = { λ g. CanBeGiven g.angles.now g.turns.now };
}

impl<'a> Given<'a> {
    /// Two empty lists: no angle and no turns are given. It allocates nothing.
    pub fn nothing() -> Given<'a>
        ensures { result ≡ nothing_given }
    {
        Given {
            angles: &[],
            turns: &[],
        }
    }

    /// Whether `new` can take these lists: each angle that is given is 1 to 4, and the absolute values of all turns
    /// that are given add up to at most `MAX_GIVEN_TURNS`. Entries that are `None` do not count.
    pub fn can_be(angles: &[Option<u8>], turns: &[Option<i32>]) -> bool
        ensures { IsTrue result ↔ CanBeGiven angles.now turns.now }
    {
        angles.iter().all(|angle| is_angle(*angle)) && are_few(turns)
    }

    /// The angles and turns that these two borrowed lists give, each indexed by dart. They are not checked: `can_be`
    /// must hold of them. It allocates nothing.
    pub fn new(angles: &'a [Option<u8>], turns: &'a [Option<i32>]) -> Given<'a>
        requires { CanBeGiven angles.now turns.now }
        ensures { result ≡ record { angles = angles.now; turns = turns.now } }
    {
        Given { angles, turns }
    }

    /// Whether both lists are empty; false for a list with entries, even if all of them are `None`.
    pub fn is_nothing(&self) -> bool
        ensures nothing { IsTrue result ↔ (self.now ≡ nothing_given) }
        ensures can { CanBeGiven self.now.angles self.now.turns }
    {
        self.angles.is_empty() && self.turns.is_empty()
    }

    /// The angle that is given at the head of a dart, 1 to 4 right angles; `None` if none is given, also past the end
    /// of the list.
    pub fn angle(&self, dart: u16) -> Option<u8>
        ensures value { result ≡ angle_given self.now dart }
        ensures angle { IsAngle result }
    {
        let place = usize::from(dart);
        if place < self.angles.len() {
            self.angles[place]
        } else {
            None
        }
    }

    /// The left turns that are given along a dart, negative for right turns: the entry of the lesser dart of its edge,
    /// negated for the greater dart; `None` if none are given, also past the end of the list.
    pub fn turns(&self, plane: &Plane, dart: u16) -> Option<i32>
        requires { dart < darts plane.now }
        ensures value { result ≡ turns_given plane.now self.now dart }
        ensures few { nat_abs (lefts_given result) ≤ MAX_GIVEN_TURNS }
    {
        if self.turns.is_empty() {
            return None;
        }
        self.turns_of_edge(plane, dart)
    }

    /// The left turns that are given along a dart, negative for right turns: the entry of the lesser dart of its edge,
    /// negated for the greater dart; `None` if none are given, also past the end of the list.
    fn turns_of_edge(&self, plane: &Plane, dart: u16) -> Option<i32>
        requires { dart < darts plane.now }
        ensures value { result ≡ turns_given plane.now self.now dart }
        ensures few { nat_abs (lefts_given result) ≤ MAX_GIVEN_TURNS }
    {
        let reverse = plane.graph().reverse(dart);
        if dart < reverse {
            self.turns_in_list(dart)
        } else {
            back(self.turns_in_list(reverse))
        }
    }

    /// The entry of this dart itself, not of the lesser dart of its edge, in the list of turns; `None` also past the
    /// end of the list.
    fn turns_in_list(&self, dart: u16) -> Option<i32>
        ensures value { result ≡ slice_index_or self.now.turns dart None }
        ensures few { nat_abs (lefts_given result) ≤ MAX_GIVEN_TURNS }
    {
        let place = usize::from(dart);
        if place < self.turns.len() {
            self.turns[place]
        } else {
            None
        }
    }
}

/// The same turns along the reverse dart: the negated number, or `None` for `None`.
fn back(turns: Option<i32>) -> Option<i32>
    requires { nat_abs (lefts_given turns) ≤ MAX_GIVEN_TURNS }
    ensures { result ≡ walked_back turns }
{
    match turns {
        Some(turns) => Some(-turns),
        None => None,
    }
}

/// Whether `angle` is `None` or 1 to 4 right angles.
fn is_angle(angle: Option<u8>) -> bool
    ensures { IsTrue result ↔ IsAngle angle }
{
    matches!(angle, None | Some(1..=4))
}

/// Whether the absolute values of all entries that are not `None` add up to at most `MAX_GIVEN_TURNS`. Linear in the
/// list.
fn are_few(turns: &[Option<i32>]) -> bool
    ensures { IsTrue result ↔ (turns_in_all turns.now ≤ MAX_GIVEN_TURNS) }
{
    let mut sum = 0;
    for place in 0..turns.len() {
        sum += lefts(turns[place]).unsigned_abs();
        if sum > MAX_GIVEN_TURNS as u32 {
            return false;
        }
    }
    true
}

/// How many right angles beyond the first a given angle has: the angle less 1; 0 for `None`.
pub(crate) fn beyond(angle: Option<u8>) -> i32
    requires { IsAngle angle }
    ensures { result ≡ pos (beyond_first angle) }
{
    match angle {
        Some(angle) => i32::from(angle) - 1,
        None => 0,
    }
}

/// The given number of left turns, negative for right turns; 0 for `None`.
pub(crate) fn lefts(turns: Option<i32>) -> i32
    ensures { result ≡ lefts_given turns }
{
    match turns {
        Some(turns) => turns,
        None => 0,
    }
}
