//! Lists that are refilled in the buffers that they have, and lists of items that are stored in one.
ghost use Rattle.std.specs.Prelude.{◌≡◌, ◌≤◌, [], IfOk, replicate, vec_len, vec_capacity, ◌+◌, ◌<◌, length, slice_index_or};
ghost use Rattle.common.specs.Slices.{slices_at, AreStarts};

use std::alloc::AllocError;
use std::marker::Model;

/// Returns `list` with `count` copies of `value` in place of its items, which are dropped. It reuses the buffer, and
/// gets a larger one only if it is too small: `AllocError` if there is no memory for that, and `list` is then dropped.
///
/// # Errors
///
/// `AllocError` if there is no memory for `count` items; the list is then gone.
pub fn filled<T: Copy + Drop>(
    mut list: Vec<T>,
    count: usize,
    value: T,
) -> Result<Vec<T>, AllocError>
    ensures items { IfOk result (λ v. v.items ≡ replicate count value) }
    ensures len { IfOk result (λ v. vec_len v ≡ count) }
{
    list.clear();
    list.resize(count, value)?;
    Ok(list)
}

/// Returns `list` without its items, which are dropped, and with a capacity of at least `room`. It reuses the buffer,
/// and gets a larger one, for exactly `room` items, only if it is too small: `AllocError` if there is no memory for
/// that, and `list` is then dropped.
///
/// # Errors
///
/// `AllocError` if there is no memory for `room` items; the list is then gone.
pub fn emptied<T: Drop>(mut list: Vec<T>, room: usize) -> Result<Vec<T>, AllocError>
    ensures items { IfOk result (λ v. v.items ≡ []) }
    ensures len { IfOk result (λ v. vec_len v ≡ 0) }
    ensures room { IfOk result (λ v. room ≤ vec_capacity v) }
{
    list.clear();
    list.reserve_exact(room)?;
    Ok(list)
}

/// A list of lists of items, stored in one flat list. In contracts it is the list of these lists.
#[derive(Debug, Drop)]
pub struct FlatLists<T> {
    // all items; where those of each list start, and finally where the last ones end
    items: Vec<T>,
    starts: Vec<usize>,
}

impl<T> Model for FlatLists<T> {
    ghost use Rattle.std.specs.Prelude.{List};
    ghost use Rattle.common.specs.Slices.{slices_at, AreStarts};

    ghost Value = { List (List T) };

    ghost view = { λ a. slices_at a.starts.items a.items.items };

    ghost invariant = { λ a. AreStarts a.starts.items a.items.items };
}

impl<T> FlatLists<T> {
    /// The lists into which `starts` divides `items`: list i has the items from `starts[i]` up to, but not including,
    /// `starts[i + 1]`. `starts` must ascend, have at least one number and none above the number of items. It keeps
    /// both buffers.
    ///
    /// It allocates nothing.
    pub fn new(items: Vec<T>, starts: Vec<usize>) -> FlatLists<T>
        requires { AreStarts starts.items items.items }
        ensures { result ≡ slices_at starts.items items.items }
    {
        FlatLists { items, starts }
    }

    /// Returns first all items in one list, and second `starts`, which says where each list begins in it and, at its
    /// end, where the last one ends. Both keep their buffers, for reuse.
    pub fn into_parts(self) -> (Vec<T>, Vec<usize>)
        ensures { self ≡ slices_at result.1.items result.0.items }
    {
        (self.items, self.starts)
    }

    /// The number of lists (not of items).
    pub fn len(&self) -> usize
        ensures { result ≡ length self.now }
    {
        self.starts.len() - 1
    }

    /// The items of list `i`, counted from 0, in order; `i` must be below the number of lists.
    pub fn get(&self, i: usize) -> &[T]
        requires { i < length self.now }
        ensures { result.now ≡ slice_index_or self.now i [] }
    {
        slice_of(&self.items, &self.starts, i)
    }
}

/// The part of `items` from `starts[i]` up to, but not including, `starts[i + 1]`, which must both exist.
fn slice_of<'a, T>(items: &'a [T], starts: &[usize], i: usize) -> &'a [T]
    requires places { AreStarts starts.now items.now }
    requires within { i + 1 < length starts.now }
    ensures { result.now ≡ slice_index_or (slices_at starts.now items.now) i [] }
{
    let start = starts[i];
    let end = starts[i + 1];
    &items[start..end]
}
