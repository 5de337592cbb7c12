//! Quarter turns and strings of them: darts that turn to one side only, and the strings of all darts.
ghost use Rattle.std.specs.Prelude.{◌≡◌, ◌≤◌, ◌↔◌, IsTrue, length, replicate};
ghost use Rattle.ortho_rep.specs.declared.turn_strings.TheConstants.{MAX_REPEATS};
ghost use Rattle.ortho_rep.specs.Turns.{lefts, mirrored};

use common::MAX_VERTICES;

/// A quarter turn of an edge, as seen when walking along a dart.
#[derive(Clone, Copy, Debug, PartialEq, Eq)]
pub enum Turn {
    Left,
    Right,
}

// A turn takes one byte.
const _: () = prove!(size_of::<Turn>() == 1);

/// The maximum number of turns of a `DartShape`. No string of a least shape is longer.
pub const MAX_REPEATS: usize = 24 * MAX_VERTICES + 24;

static LEFTS: [Turn; MAX_REPEATS] = [Turn::Left; MAX_REPEATS];

static RIGHTS: [Turn; MAX_REPEATS] = [Turn::Right; MAX_REPEATS];

/// A list of `count` turns, each of them `turn`, borrowed from a constant list.
pub(crate) fn repeat(turn: Turn, count: u16) -> &'static [Turn]
    requires { count ≤ MAX_REPEATS }
    ensures { result.now ≡ replicate count turn }
{
    match turn {
        Turn::Left => &LEFTS[..usize::from(count)],
        Turn::Right => &RIGHTS[..usize::from(count)],
    }
}

/// The number of left turns among these turns. Linear in the turns.
pub fn count_lefts(turns: &[Turn]) -> usize
    ensures count { result ≡ lefts turns.now }
    ensures few { result ≤ length turns.now }
{
    turns.iter().filter(|turn| **turn == Turn::Left).count()
}

/// Whether `reverse` is `turns`, read backwards with left and right exchanged.
pub(crate) fn mirrors(turns: &[Turn], reverse: &[Turn]) -> bool
    ensures { IsTrue result ↔ (reverse.now ≡ mirrored turns.now) }
{
    if turns.len() != reverse.len() {
        return false;
    }
    for (i, turn) in turns.iter().enumerate() {
        // Of two turns that differ each is the opposite of the other.
        if *turn == reverse[reverse.len() - 1 - i] {
            return false;
        }
    }
    true
}

/// The shape of a dart whose turns all go to one side: its angle in right angles, the side, and the number of turns.
#[derive(Clone, Copy, Debug)]
pub struct DartShape {
    pub angle: u8,
    pub turn: Turn,
    pub count: u16,
}

// It takes four bytes.
const _: () = prove!(size_of::<DartShape>() == 4);

/// The maximum number of turns of a string.
pub const MAX_TURNS: usize = 1_000_000;
