//! Which vertices are adjacent, and which are reached. A set of pairs of vertices is an adjacency matrix of one bit
//! each, which allocates nothing. A bit-parallel test on the rows of such a matrix accepts nearly all lists of small
//! graphs that keep the first seven rules. Breadth-first search (Moore 1959) finds the vertices that are reached from
//! the first one.
ghost use Rattle.std.specs.Prelude.{◌≡◌, ℕ, ◌<◌, ◌↔◌, ◌⊎◌, IsTrue, length, ◌≢◌, ◌+◌, ◌≤◌, Bool, true, [], slice_index, slice_index_or, IfSome, OnSome, All, Contains, List};
ghost use Rattle.embedding.specs.Pairs.{HasPair};
ghost use Rattle.embedding.specs.Rules.{KeepsBefore, Breaks};
ghost use Rattle.embedding.specs.Rows.{HasBit, IsRow, IsRows, IsClosedUnderRows};
ghost use Rattle.embedding.specs.declared.neighbour_lists.TheConstants.{VERTEX_NUMBERS};
ghost use Rattle.embedding.specs.Lists.{list_of};
ghost use Rattle.embedding.specs.Reached.{IsQueue, IsReached, Holds};

use crate::breaks::Rule;
use crate::neighbour_lists::{Lists, VERTEX_NUMBERS};

/// One bit for each pair of numbers below 256, in 8 KiB.
#[derive(Drop)]
pub(crate) struct Pairs {
    words: [u64; 1024],
}

impl Pairs {
    /// The set that contains no pair.
    pub(crate) fn new() -> Pairs
        ensures { (a b : ℕ) → a < 256 → b < 256 → ¬ HasPair result.words a b }
    {
        Pairs { words: [0; 1024] }
    }

    /// Adds to the set the ordered pair (`first`, `second`) of numbers below 256; does nothing if it contains it
    /// already.
    pub(crate) fn insert(&mut self, first: u16, second: u16)
        requires first { first < 256 }
        requires second { second < 256 }
        ensures same { HasPair self.new.words first second }
        ensures others { (a b : ℕ) → a < 256 → b < 256 → ¬ ((a ≡ first) × (b ≡ second))
            → (HasPair self.new.words a b ↔ HasPair self.old.words a b) }
    {
        let word = 4 * usize::from(first) + usize::from(second / 64);
        self.words[word] |= 1u64 << (second % 64);
    }

    /// Whether the set contains the ordered pair (`first`, `second`) of numbers below 256.
    pub(crate) fn contains(&self, first: u16, second: u16) -> bool
        requires first { first < 256 }
        requires second { second < 256 }
        ensures { IsTrue result ↔ HasPair self.now.words first second }
    {
        let word = 4 * usize::from(first) + usize::from(second / 64);
        (self.words[word] >> (second % 64)) & 1 == 1
    }
}

/// The maximum number of vertices of a small graph: a `u64` has a bit for each, and two more.
const FEW: u16 = 62;

/// Whether `entry` is at most `n` and is not `vertex`.
fn is_other(entry: u16, vertex: u16, n: u16) -> bool
    ensures { IsTrue result → (entry ≤ n) × (entry ≢ vertex) }
{
    (entry <= n) & (entry != vertex)
}

/// The bit set of the entries of `list`, that of `vertex`; also adds the vertex's bit to `columns` at each entry.
/// `None`, perhaps with some bits added, if the list is empty or has more than four entries, or an entry is above `n`,
/// is `vertex` or occurs twice.
fn row_of(list: &[u16], vertex: u16, n: u16, columns: &mut [u64; 64]) -> Option<u64>
    requires vertex { vertex ≤ FEW }
    requires few { n ≤ FEW }
    ensures row { OnSome result (IsRow n vertex list.now) }
    ensures bits { IfSome result (λ row. (v : ℕ) → HasBit row v → Contains list.now v) }
    ensures columns { OnSome result (All (λ v. HasBit (slice_index columns.new v) vertex) list.now) }
    ensures kept { (u v : ℕ) → HasBit (slice_index columns.old u) v → HasBit (slice_index columns.new u) v }
{
    if list.is_empty() || list.len() > 4 {
        return None;
    }
    let own = 1u64 << vertex;
    let mut row = 0u64;
    for entry in list {
        if !is_other(*entry, vertex, n) || (row >> *entry) & 1 == 1 {
            return None;
        }
        row |= 1u64 << *entry;
        columns[usize::from(*entry)] |= own;
    }
    Some(row)
}

/// Whether each list has one to four entries, all different, and none its own vertex or above the number of lists. Sets
/// `rows` at each vertex to the bit set of its entries, and adds the vertex's bit to `columns` at these; both are only
/// partly filled if it returns false.
fn fill_rows(rows: &mut [u64; 64], columns: &mut [u64; 64], lists: &Lists<'_>) -> bool
    requires empty { (u v : ℕ) → ¬ HasBit (slice_index rows.old u) v }
    requires few { length lists.now ≤ FEW }
    ensures rows { IsTrue result → IsRows lists.now rows.new }
    ensures lists { IsTrue result → (k : ℕ) → k < length lists.now
        → IsRow (length lists.now) (k + 1) (slice_index_or lists.now k []) }
    ensures columns { IsTrue result → (k : ℕ) → k < length lists.now
        → All (λ v. HasBit (slice_index columns.new v) (k + 1)) (slice_index_or lists.now k []) }
{
    let n = lists.count();
    for place in 0..n {
        let Some(row) = row_of(lists.at(place), place + 1, n, columns) else {
            return false;
        };
        rows[usize::from(place) + 1] = row;
    }
    true
}

/// Whether vertices 1 to `n` are all reached from vertex 1 along `rows`, which have at each vertex the bit set of its
/// neighbours. Each row is read at most once.
fn reaches_all(rows: &[u64; 64], n: u16) -> bool
    requires { n ≤ FEW }
    ensures { IsTrue result → (s : ℕ → Bool) → s 1 ≡ true → IsClosedUnderRows rows.now s
        → (v : ℕ) → 0 < v → v ≤ n → s v ≡ true }
{
    let mut reached = 2u64;
    let mut waiting = reached;
    for _ in 0..n {
        if waiting == 0 {
            return false;
        }
        let vertex = waiting.trailing_zeros();
        let new = rows[vertex as usize] & !reached;
        reached |= new;
        waiting = (waiting & !(1u64 << vertex)) | new;
    }
    reached == (1u64 << (n + 1)) - 2
}

/// True only if there are at most 62 lists and they keep rules 1 to 7. False does not say that they break one.
pub(crate) fn is_small_graph(lists: &Lists<'_>) -> bool
    ensures { IsTrue result → KeepsBefore lists.now 8 }
{
    if lists.count() > FEW {
        return false;
    }
    let mut rows = [0u64; 64];
    let mut columns = [0u64; 64];
    let end = usize::from(lists.count()) + 1;
    fill_rows(&mut rows, &mut columns, lists)
        && rows[..end] == columns[..end]
        && reaches_all(&rows, lists.count())
}

/// The vertices reached so far, as flags and in the order in which they were reached.
#[derive(Drop)]
struct ReachedVertices {
    reached: [bool; VERTEX_NUMBERS],
    queue: [u16; VERTEX_NUMBERS],
    found: usize,
}

/// Flags `vertex` in `vertices` as reached and appends it to their queue; does nothing if it is flagged already.
fn reach(vertices: &mut ReachedVertices, vertex: u16)
    requires small { vertex < VERTEX_NUMBERS }
    requires queue { IsQueue vertices.old.reached vertices.old.queue vertices.old.found }
    ensures queue { IsQueue vertices.new.reached vertices.new.queue vertices.new.found }
    ensures reached { Holds vertices.new.reached vertex }
    ensures others { (v : ℕ) → Holds vertices.new.reached v
        → Holds vertices.old.reached v ⊎ (v ≡ vertex) }
    ensures kept { (v : ℕ) → Holds vertices.old.reached v → Holds vertices.new.reached v }
    ensures order { (i : ℕ) → i < vertices.old.found
        → slice_index vertices.new.queue i ≡ slice_index vertices.old.queue i }
    ensures longer { vertices.old.found ≤ vertices.new.found }
{
    if !vertices.reached[usize::from(vertex)] {
        vertices.reached[usize::from(vertex)] = true;
        vertices.queue[vertices.found] = vertex;
        vertices.found += 1;
    }
}

/// Flags each vertex of `list` in `vertices` as reached and appends it to their queue, in the order of the list; does
/// nothing for those that are flagged already.
fn reach_all(vertices: &mut ReachedVertices, list: &[u16])
    requires small { All (λ v. v < VERTEX_NUMBERS) list.now }
    requires queue { IsQueue vertices.old.reached vertices.old.queue vertices.old.found }
    ensures queue { IsQueue vertices.new.reached vertices.new.queue vertices.new.found }
    ensures reached { All (Holds vertices.new.reached) list.now }
    ensures others { (v : ℕ) → Holds vertices.new.reached v
        → Holds vertices.old.reached v ⊎ Contains list.now v }
    ensures kept { (v : ℕ) → Holds vertices.old.reached v → Holds vertices.new.reached v }
    ensures order { (i : ℕ) → i < vertices.old.found
        → slice_index vertices.new.queue i ≡ slice_index vertices.old.queue i }
    ensures longer { vertices.old.found ≤ vertices.new.found }
{
    for v in list {
        reach(vertices, *v);
    }
}

/// A flag for each vertex number from 0 on: whether that vertex is reached from vertex 1 along the lists. False at 0
/// and above the number of lists, and true at 1. Each list is read at most once.
fn reached_from_first(lists: &Lists<'_>) -> [bool; VERTEX_NUMBERS]
    requires { ¬ Breaks lists.now Rule.Range }
    ensures { IsReached lists.now result }
{
    let mut vertices = ReachedVertices {
        reached: [false; VERTEX_NUMBERS],
        queue: [0; VERTEX_NUMBERS],
        found: 0,
    };
    reach(&mut vertices, 1);
    let mut done = 0;
    while done < vertices.found {
        let vertex = vertices.queue[done];
        reach_all(&mut vertices, lists.of_vertex(vertex));
        done += 1;
    }
    vertices.reached
}

/// Whether some vertex is not reached from vertex 1 along the lists (rule 7). No entry may be above the number of
/// lists.
pub(crate) fn breaks_disconnected(lists: &Lists<'_>) -> bool
    requires { ¬ Breaks lists.now Rule.Range }
    ensures { IsTrue result ↔ Breaks lists.now Rule.Disconnected }
{
    let reached = reached_from_first(lists);
    for place in 0..lists.count() {
        if !reached[usize::from(place) + 1] {
            return true;
        }
    }
    false
}
