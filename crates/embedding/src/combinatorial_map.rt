//! The parts of a graph as a combinatorial map (Edmonds 1960), made from lists that keep rules 1 to 7, and an iterator
//! over one dart of each edge.
ghost use Rattle.std.specs.Prelude.{◌≡◌, ℕ, ◌+◌, ◌*◌, ◌<◌, ◌≤◌, ◌++◌, List, take, length, vec_capacity, OnOk, Contains};
ghost use Rattle.embedding.specs.Lists.{list_of};
ghost use Rattle.embedding.specs.Darts.{dart_count, first_dart, head_of, tail_of, reverse_of, after_of};
ghost use Rattle.embedding.specs.Rules.{KeepsBefore};
ghost use Rattle.embedding.specs.Tables.{IsTable, IsRotation};
ghost use Rattle.std.specs.Iterator.{YieldsFirst, item_count};
ghost use Rattle.embedding.specs.Lesser.{lesser_darts_of};

use crate::graphs::Graph;
use crate::neighbour_lists::Lists;
use std::alloc::AllocError;
use std::iter::FusedIterator;
use std::marker::Model;

/// The number of the dart from `head` to `tail`, the reverse of the dart from `tail` to `head`. `head` must be in the
/// list of `tail`.
fn reverse_between(lists: &Lists<'_>, tail: u16, head: u16) -> u16
    requires rules { KeepsBefore lists.now 8 }
    requires listed { Contains (list_of lists.now tail) head }
    ensures { (d : ℕ) → d < dart_count lists.now
        → tail_of lists.now d ≡ tail → head_of lists.now d ≡ head
        → result ≡ reverse_of lists.now d }
{
    lists.first_dart(head - 1) + lists.place_in(head - 1, tail)
}

/// The number of the dart that follows dart `next` - 1 around its tail, whose darts are `first` to `end` - 1: `next`,
/// or `first` if `next` is not below `end`.
fn after_in(next: u16, first: u16, end: u16) -> u16
    ensures inside { next < end → result ≡ next }
    ensures last { end ≤ next → result ≡ first }
{
    if next < end { next } else { first }
}

/// Appends to `heads` the heads of the darts of the list at `place`, counted from 0, in order. `heads` must have
/// capacity for all of them: it does not grow.
pub(crate) fn add_heads(heads: &mut Vec<u16>, lists: &Lists<'_>, place: u16)
    requires within { place < length lists.now }
    requires heads { IsTable (first_dart lists.now place) (head_of lists.now) heads.old.items }
    requires room { dart_count lists.now ≤ vec_capacity heads.old }
    ensures heads { IsTable (first_dart lists.now (place + 1)) (head_of lists.now) heads.new.items }
    ensures room { dart_count lists.now ≤ vec_capacity heads.new }
{
    let list = lists.at(place);
    'darts: for head in list {
        heads.push_reserved(*head);
    }
}

/// Overwrites in `rotation`, for each dart of the list at `place`, counted from 0, the two numbers from twice the
/// dart's number on: with its reverse, and the dart after it around its tail. The other numbers stay.
///
/// Each list has at most four entries, so to search one for a reverse takes constant time.
fn write_list_rotation(rotation: &mut [u16], lists: &Lists<'_>, place: u16)
    requires rules { KeepsBefore lists.now 8 }
    requires within { place < length lists.now }
    requires size { length rotation.old ≡ 2 * dart_count lists.now }
    requires before { let n = first_dart lists.now place in
        IsRotation lists.now n (take (2 * n) rotation.old) }
    ensures { let n = first_dart lists.now (place + 1) in
        IsRotation lists.now n (take (2 * n) rotation.new) }
{
    let list = lists.at(place);
    let first = lists.first_dart(place);
    let end = first + list.len() as u16;
    let mut next = first;
    'darts: for head in list {
        let pair = 2 * usize::from(next);
        next += 1;
        rotation[pair] = reverse_between(lists, place + 1, *head);
        rotation[pair + 1] = after_in(next, first, end);
    }
}

/// Overwrites `rotation`, which must have two numbers for each dart, with these: the dart's reverse, and the dart after
/// it, which is the next one of its list or, after the last one, the first.
pub(crate) fn write_rotation(rotation: &mut [u16], lists: &Lists<'_>)
    requires rules { KeepsBefore lists.now 8 }
    requires size { length rotation.old ≡ 2 * dart_count lists.now }
    ensures { IsRotation lists.now (dart_count lists.now) rotation.new }
{
    for place in 0..lists.count() {
        write_list_rotation(rotation, lists, place);
    }
}

/// Replaces the contents of `table` by two numbers for each dart: its reverse, and the dart after it around its tail.
/// `AllocError`, with `table` unchanged, if its buffer is too small and there is no memory.
pub(crate) fn make_rotation(table: &mut Vec<u16>, lists: &Lists<'_>) -> Result<(), AllocError>
    requires rules { KeepsBefore lists.now 8 }
    ensures { OnOk result (IsRotation lists.now (dart_count lists.now) table.new.items) }
{
    table.resize(2 * lists.darts(), 0)?;
    write_rotation(table, lists);
    Ok(())
}

/// Appends to `table` the number of the first dart of each vertex's list, in order, and then the number of darts.
/// `AllocError` if its buffer is too small and there is no memory; some of these numbers may then be appended.
pub(crate) fn add_starts(table: &mut Vec<u16>, lists: &Lists<'_>) -> Result<(), AllocError>
    ensures { OnOk result ((starts : List ℕ) × IsTable (length lists.now + 1) (first_dart lists.now) starts
        × (table.new.items ≡ table.old.items ++ starts)) }
{
    for place in 0..lists.count() {
        table.push(lists.first_dart(place))?;
    }
    table.push(lists.darts() as u16)?;
    Ok(())
}

/// An iterator over the lesser dart of each edge, in order: the one of its two darts with the smaller number.
/// In contracts it is the list of those that remain.
///
/// It allocates nothing; all its calls together are linear in the darts.
#[derive(Debug, Drop)]
pub struct LesserDarts<'a> {
    graph: &'a Graph,
    from: u16,
}

impl<'a> Model for LesserDarts<'a> {
    ghost use Rattle.std.specs.Prelude.{ℕ, List};
    ghost use Rattle.embedding.specs.Lesser.{lesser_darts_from};

    ghost Value = { List ℕ };

    ghost view = { λ darts. lesser_darts_from darts.graph.now darts.from };
}

impl<'a> Iterator for LesserDarts<'a> {
    type Item = u16;

    ghost next_gives = { YieldsFirst (λ left. left) };

    ghost remaining = { item_count (λ left. left) };

    /// The next lesser dart, which is then no longer among those that remain; `None`, now and at each later call, if
    /// none remains.
    fn next(&mut self) -> Option<u16> {
        let graph = self.graph;
        for dart in self.from..graph.darts() {
            if dart < graph.reverse(dart) {
                self.from = dart + 1;
                return Some(dart);
            }
        }
        self.from = graph.darts();
        None
    }
}

impl<'a> FusedIterator for LesserDarts<'a> {}

impl Graph {
    /// An iterator over the lesser dart of each edge, in ascending order: the one of its two darts with the smaller
    /// number.
    pub fn lesser_darts(&self) -> LesserDarts<'_>
        ensures { result ≡ lesser_darts_of self.now }
    {
        LesserDarts {
            graph: self,
            from: 0,
        }
    }
}
