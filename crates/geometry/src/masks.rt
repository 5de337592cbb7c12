//! Flags on a grid of few columns: for each row a machine word with a bit for each column. The rectangles need no
//! order. It is linear in the rows of the table and the rows of all rectangles.

ghost use Rattle.std.specs.Prelude.{◌≡◌, ◌≢◌, ◌+◌, ◌-◌, ◌^◌, ◌<◌, ◌≤◌, ◌↔◌, ℕ, IsTrue, IfOk, All, AllPairs, length, slice_index, SomeIndex, EachIndex};
ghost use Rattle.std.specs.Bool.{OnTrue, OnFalse};
ghost use Rattle.std.specs.Int.Bits.{bit_and, bit_or};
ghost use Rattle.geometry.specs.declared.masks.TheConstants.{COLUMNS};
ghost use Rattle.geometry.specs.Rectangles.{IsNonempty, AreApart};
ghost use Rattle.geometry.specs.Masks.{Flags, IsMet};

use crate::plane_sweep::Rectangle;
use std::alloc::AllocError;

/// The number of columns of a row.
pub(crate) const COLUMNS: u32 = 63;

/// Whether no two of the rectangles, all left of column `COLUMNS` and below row `height`, have a point in common. The
/// flags overwrite `table`, which is grown if it has fewer than `height` items. `AllocError` if there is no memory for
/// that.
pub(crate) fn flag_all(
    rectangles: &[Rectangle],
    height: usize,
    table: &mut Vec<u64>,
) -> Result<bool, AllocError>
    requires filled { All IsNonempty rectangles.now }
    requires narrow { All (λ r. r.right < COLUMNS) rectangles.now }
    requires low { All (λ r. r.top < height) rectangles.now }
    ensures { IfOk result (λ apart. IsTrue apart ↔ AllPairs AreApart rectangles.now) }
{
    if table.len() < height {
        table.resize(height, 0)?;
    }
    let flags = &mut table[..height];
    flags.fill(0);
    for rectangle in rectangles {
        if !flag(flags, *rectangle) {
            return Ok(false);
        }
    }
    Ok(true)
}

/// Flags the points of the rectangle `new` in `table`, and returns true; false if one of them is flagged already: the
/// rows of the rectangle below that point are then flagged, and all others stay as they were.
fn flag(table: &mut [u64], new: Rectangle) -> bool
    requires filled { IsNonempty new }
    requires narrow { new.right < COLUMNS }
    requires low { new.top < length table.old }
    ensures flags { OnTrue result (Flags table.old table.new new) }
    ensures met { OnFalse result (IsMet table.old new) }
{
    let mask = mask_of(new.left, new.right);
    let rows = &mut table[new.bottom as usize..=new.top as usize];
    add_mask(rows, mask)
}

/// The word in which the bits of the columns `left` to `right`, both included, are set, and no others.
fn mask_of(left: u32, right: u32) -> u64
    requires filled { left ≤ right }
    requires narrow { right < COLUMNS }
    ensures { result ≡ 2 ^ (right + 1) - 2 ^ left }
{
    (1u64 << (right + 1)) - (1u64 << left)
}

/// Sets the bits of `mask` in each item of `rows` in turn, and returns true; stops and returns false at an item that
/// already has one of these bits, with those before it changed. Both are done in one pass, since the end of a loop over
/// few rows is hard to predict.
fn add_mask(rows: &mut [u64], mask: u64) -> bool
    ensures free { OnTrue result (EachIndex rows.old (λ y. bit_and (slice_index rows.old y) mask ≡ 0)) }
    ensures met { OnFalse result (SomeIndex rows.old (λ y. bit_and (slice_index rows.old y) mask ≢ 0)) }
    ensures count { length rows.new ≡ length rows.old }
    ensures each { OnTrue result ((y : ℕ) → y < length rows.old
        → slice_index rows.new y ≡ bit_or (slice_index rows.old y) mask) }
{
    for row in rows.iter_mut() {
        if *row & mask != 0 {
            return false;
        }
        *row |= mask;
    }
    true
}
