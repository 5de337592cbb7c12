//! Whether any two rectangles of grid points meet, by a sweep from left to right (Shamos and Hoey 1976). If all lie in
//! few rows and columns, their points are flagged by bits instead. If they have few rows, the frontier of the sweep is
//! a table: for each row, the first column right of all that were met, in time linear in the rows of the table and of
//! all rectangles. Otherwise a dictionary has the active rectangles by their bottom rows, and each new one is compared
//! only with its neighbour below its top row: O(log n) time for each of n rectangles, however many rows they have.
ghost use Rattle.std.specs.Prelude.{◌<◌, ◌≤◌, ◌↔◌, IsTrue, IfOk, IfSome, All, AllPairs, ◌≡◌, length, slice_index, SomeIndex, EachIndex, ℕ, None, Some, IsSome, IfNone};
ghost use Rattle.std.specs.Bool.{OnTrue, OnFalse};
ghost use Rattle.std.specs.List.Sorted.{IsNonDecreasingBy};
ghost use Rattle.geometry.specs.declared.masks.TheConstants.{COLUMNS};
ghost use Rattle.geometry.specs.Rectangles.{IsNonempty, AreApart};
ghost use Rattle.geometry.specs.Frontier.{MovesPast, IsBeyond};
ghost use Rattle.std.specs.Ordering.{nat_cmp};
ghost use Rattle.std.specs.BTreeMap.{get};
ghost use Rattle.geometry.specs.Dictionary.{IsSweepDictionary, Clears, IsFree, IsMet};

use crate::masks;
use std::alloc::{AllocError, Global};
use std::collections::BTreeMap;

/// A rectangle of grid points: all (x, y) with `left <= x <= right` and `bottom <= y <= top`.
#[derive(Clone, Copy)]
pub struct Rectangle {
    pub left: u32,
    pub right: u32,
    pub bottom: u32,
    pub top: u32,
}

// The maximum number of rows of a table, for each rectangle.
const TABLE_ROWS: usize = 8;

// The maximum number of rows of all rectangles together, for each rectangle, with which a table is used. The dictionary
// was measured to be faster from some 350 on.
const ALL_ROWS: usize = 128;

/// Whether no two of the rectangles have a point in common. It may reorder `rectangles`, and overwrites `table`, whose
/// buffer it reuses. `AllocError` if there is no memory for the dictionary, or for `table` if that is too small.
///
/// It takes O(n log n) time for n rectangles, however many points they contain.
///
/// # Errors
///
/// `AllocError` if there is no memory for the dictionary, or for the table if `table` is too small.
pub fn all_apart_in(
    alloc: Global,
    rectangles: &mut Vec<Rectangle>,
    table: &mut Vec<u64>,
) -> Result<bool, AllocError>
    requires { All IsNonempty rectangles.old.items }
    ensures { IfOk result (λ apart. IsTrue apart ↔ AllPairs AreApart rectangles.old.items) }
{
    match narrow_height(rectangles) {
        Some(height) => masks::flag_all(rectangles, height, table),
        None => {
            rectangles.sort_unstable_by_key(|r| r.left);
            sweep(alloc, rectangles, table)
        }
    }
}

/// Whether no two of the rectangles, sorted by their left columns, have a point in common. It overwrites `table` or, if
/// they have too many rows, allocates a dictionary. `AllocError` if there is no memory for the one that it uses.
fn sweep(alloc: Global, rectangles: &[Rectangle], table: &mut Vec<u64>) -> Result<bool, AllocError>
    requires filled { All IsNonempty rectangles.now }
    requires ordered { IsNonDecreasingBy (λ r. r.left) rectangles.now }
    ensures { IfOk result (λ apart. IsTrue apart ↔ AllPairs AreApart rectangles.now) }
{
    match table_height(rectangles) {
        Some(height) => sweep_with_table(rectangles, height, table),
        None => sweep_with_dictionary(alloc, rectangles),
    }
}

/// The number of rows, from row 0 on, of a table that covers all rows of the rectangles, 0 if there are no rectangles;
/// `None` if the table or all rectangles together would have too many.
fn table_height(rectangles: &[Rectangle]) -> Option<usize>
    requires { All IsNonempty rectangles.now }
    ensures { IfSome result (λ height. All (λ r. r.top < height) rectangles.now) }
{
    let mut spare = rectangles.len().saturating_mul(ALL_ROWS);
    let mut height = 0;
    for rectangle in rectangles {
        spare = spare.checked_sub((rectangle.top - rectangle.bottom) as usize + 1)?;
        height = height.max(rectangle.top as usize + 1);
    }
    if rectangles.len().saturating_mul(TABLE_ROWS) < height {
        return None;
    }
    Some(height)
}

/// The number of rows of a table of bits that has room for all rectangles, less than twice as many as needed. `None` if
/// there is no rectangle, if one goes beyond the columns that have bits, 0 to 62, or if the rows are too many.
///
/// Numbers are gathered by `or`, in which no step is a branch. The rows of all rectangles together need no count here:
/// those that are flagged are disjoint, so at most `COLUMNS` of them share a row.
fn narrow_height(rectangles: &[Rectangle]) -> Option<usize>
    ensures narrow { IfSome result (λ _. All (λ r. r.right < COLUMNS) rectangles.now) }
    ensures low { IfSome result (λ height. All (λ r. r.top < height) rectangles.now) }
{
    let mut right = 0;
    let mut top = 0;
    for rectangle in rectangles {
        right |= rectangle.right;
        top |= rectangle.top;
    }
    let height = top as usize + 1;
    if !are_narrow(rectangles, right) || rectangles.len().saturating_mul(TABLE_ROWS) < height {
        return None;
    }
    Some(height)
}

/// Whether all rectangles lie in columns 0 to 62, those that have bits. `right` must be a column beyond which none of
/// them goes.
fn are_narrow(rectangles: &[Rectangle], right: u32) -> bool
    requires { All (λ r. r.right ≤ right) rectangles.now }
    ensures { OnTrue result (All (λ r. r.right < COLUMNS) rectangles.now) }
{
    right < masks::COLUMNS || rectangles.iter().all(|r| r.right < masks::COLUMNS)
}

/// Whether no two of the rectangles, sorted by their left columns and all below row `height`, have a point in common.
/// It overwrites `frontier`, which becomes a table of `height` items. `AllocError` if there is no memory for it.
pub(crate) fn sweep_with_table(
    rectangles: &[Rectangle],
    height: usize,
    frontier: &mut Vec<u64>,
) -> Result<bool, AllocError>
    requires filled { All IsNonempty rectangles.now }
    requires ordered { IsNonDecreasingBy (λ r. r.left) rectangles.now }
    requires low { All (λ r. r.top < height) rectangles.now }
    ensures { IfOk result (λ apart. IsTrue apart ↔ AllPairs AreApart rectangles.now) }
{
    frontier.clear();
    frontier.resize(height, 0)?;
    for rectangle in rectangles {
        if !move_past(frontier, *rectangle) {
            return Ok(false);
        }
    }
    Ok(true)
}

/// Moves `frontier` past the rectangle `new`, and returns true: each of its rows gets the next column on its right.
/// False if in one of these rows the frontier is already beyond its left column; nothing changes then.
fn move_past(frontier: &mut [u64], new: Rectangle) -> bool
    requires filled { IsNonempty new }
    requires low { new.top < length frontier.old }
    ensures passes { OnTrue result (MovesPast frontier.old frontier.new new) }
    ensures reaches { OnFalse result (IsBeyond frontier.old new) }
{
    let rows = &mut frontier[new.bottom as usize..=new.top as usize];
    if is_beyond(rows, u64::from(new.left)) {
        return false;
    }
    rows.fill(u64::from(new.right) + 1);
    true
}

/// Whether the frontier is beyond the column `left`, at a greater one, in one of these rows.
fn is_beyond(rows: &[u64], left: u64) -> bool
    ensures beyond { OnTrue result (SomeIndex rows.now (λ y. left < slice_index rows.now y)) }
    ensures within { OnFalse result (EachIndex rows.now (λ y. slice_index rows.now y ≤ left)) }
{
    rows.iter().any(|column| left < *column)
}

/// Whether no two of the rectangles, sorted by their left columns, have a point in common. It allocates a dictionary of
/// the active rectangles; `AllocError` if there is no memory for it.
pub(crate) fn sweep_with_dictionary(
    alloc: Global,
    rectangles: &[Rectangle],
) -> Result<bool, AllocError>
    requires filled { All IsNonempty rectangles.now }
    requires ordered { IsNonDecreasingBy (λ r. r.left) rectangles.now }
    ensures { IfOk result (λ apart. IsTrue apart ↔ AllPairs AreApart rectangles.now) }
{
    let mut active = BTreeMap::new(alloc);
    for rectangle in rectangles {
        if !remove_ended(&mut active, *rectangle) {
            return Ok(false);
        }
        active.insert(rectangle.bottom, *rectangle)?;
    }
    Ok(true)
}

/// Removes from `active` the rectangles that share a row with `new` and end left of it, and returns true. At one that
/// shares a row and reaches the left column of `new` it stops and returns false; what it removed until then stays
/// removed.
fn remove_ended(active: &mut BTreeMap<u32, Rectangle>, new: Rectangle) -> bool
    requires { IsSweepDictionary (get nat_cmp active.old) }
    ensures clears { Clears (get nat_cmp active.old) (get nat_cmp active.new) new }
    ensures free { OnTrue result (IsFree (get nat_cmp active.new) new) }
    ensures met { OnFalse result (IsMet (get nat_cmp active.old) new) }
{
    while let Some((bottom, found)) = highest_up_to(active, new.top) {
        if found.top < new.bottom {
            return true;
        }
        if new.left <= found.right {
            return false;
        }
        active.remove(&bottom);
    }
    true
}

/// The key and, second, the rectangle of the entry of `active` with the greatest key that is at most `row`; `None` if
/// no key is.
fn highest_up_to(active: &BTreeMap<u32, Rectangle>, row: u32) -> Option<(u32, Rectangle)>
    ensures none { IfNone result ((k : ℕ) → k ≤ row → get nat_cmp active.now k ≡ None) }
    ensures below { IfSome result (λ e. e.0 ≤ row) }
    ensures held { IfSome result (λ e. get nat_cmp active.now e.0 ≡ Some e.1) }
    ensures highest { IfSome result (λ e. (k : ℕ) → k ≤ row → IsSome (get nat_cmp active.now k) → k ≤ e.0) }
{
    let (bottom, found) = active.range(..=row).next_back()?;
    Some((*bottom, *found))
}
