//! The rules that a record's graph may break, why lists give no graph, and whether lists break each of the first seven
//! rules. No test allocates.
ghost use Rattle.std.specs.Prelude.{◌≡◌, ℕ, ◌+◌, ◌<◌, ◌≤◌, ◌↔◌, ◌⊎◌, List, [], length, slice_index, IsTrue, MatchOption, All, Any, Contains};
ghost use Rattle.embedding.specs.declared.neighbour_lists.TheConstants.{VERTEX_NUMBERS};
ghost use Rattle.embedding.specs.Lists.{list_of};
ghost use Rattle.embedding.specs.Pairs.{HasPair};
ghost use Rattle.embedding.specs.Rules.{Breaks, KeepsBefore, FirstBroken, NamesTwice, rule_number};

use crate::adjacency::{Pairs, breaks_disconnected, is_small_graph};
use crate::neighbour_lists::{Lists, VERTEX_NUMBERS};
use std::alloc::AllocError;
use thiserror::Error;

/// A rule that graphs must obey; the variants are in the order in which they are checked.
///
/// A record is refused with the first one that it breaks.
#[derive(Debug, Clone, Copy, PartialEq, Eq)]
pub enum Rule {
    /// Some entry is greater than the number of vertices.
    Range,
    /// Some vertex is in its own list.
    Loop,
    /// Some list names a neighbour twice.
    Multi,
    /// Some vertex v is in the list of a vertex u, and u is not in the list of v.
    Asymmetric,
    /// All lists are empty.
    Edgeless,
    /// Some list has more than four entries.
    Degree,
    /// Not every vertex is reached from the first one.
    Disconnected,
    /// Euler's formula fails: vertices minus edges plus faces is not 2.
    Genus,
}

impl Rule {
    ghost use Rattle.embedding.specs.Words.{word_of};

    /// The word for the rule in reports: its name in lower case, such as `range`.
    pub fn word(self) -> &'static str
        ensures { result.now ≡ word_of self }
    {
        match self {
            Rule::Range => "range",
            Rule::Loop => "loop",
            Rule::Multi => "multi",
            Rule::Asymmetric => "asymmetric",
            Rule::Edgeless => "edgeless",
            Rule::Degree => "degree",
            Rule::Disconnected => "disconnected",
            Rule::Genus => "genus",
        }
    }
}

/// The reason why the graph of lists was not read.
#[derive(Debug, Clone, Copy, PartialEq, Eq, Error)]
pub enum ReadFault {
    /// The first rule that the lists break. `Graph::read` tests the first seven.
    #[error("the graph breaks rule {}", .0.word())]
    Rule(Rule),
    /// Memory ran out for the graph.
    #[error("out of memory")]
    Memory,
}

impl From<AllocError> for ReadFault {
    ghost use Rattle.std.specs.Prelude.{◌≡◌};
    ghost use Rattle.embedding.specs.declared.breaks.ReadFault.TheVariants.{Memory};

    ghost from_gives = { λ _ fault. fault ≡ Memory };

    /// Returns `ReadFault::Memory`.
    fn from(_refused: AllocError) -> ReadFault {
        ReadFault::Memory
    }
}

/// Whether some entry of `list` is greater than `n`; false if the list is empty.
fn exceeds(list: &[u16], n: u16) -> bool
    ensures { IsTrue result ↔ Any (λ v. n < v) list.now }
{
    list.iter().any(|v| *v > n)
}

/// Whether `list` contains `vertex`.
fn holds(list: &[u16], vertex: u16) -> bool
    ensures { IsTrue result ↔ Contains list.now vertex }
{
    list.iter().any(|v| *v == vertex)
}

/// Whether `list`, that of `vertex`, names a vertex twice. `last` must have for each number the last vertex before this
/// one whose list names it, or 0; the entries that are read, up to the first that repeats, are set to `vertex`.
fn names_twice(list: &[u16], vertex: u16, last: &mut [u16; VERTEX_NUMBERS]) -> bool
    requires small { All (λ v. v < VERTEX_NUMBERS) list.now }
    requires unnamed { (v : ℕ) → v < VERTEX_NUMBERS → slice_index last.old v < vertex }
    ensures twice { IsTrue result ↔ NamesTwice list.now }
    ensures flagged { (v : ℕ) → v < VERTEX_NUMBERS → slice_index last.new v ≤ vertex }
{
    for v in list {
        if last[usize::from(*v)] == vertex {
            return true;
        }
        last[usize::from(*v)] = vertex;
    }
    false
}

/// Adds to `pairs` the ordered pair of `vertex` and each entry of `list`. All these numbers must be below 256.
fn add_pairs(pairs: &mut Pairs, vertex: u16, list: &[u16])
    requires vertex { vertex < 256 }
    requires small { All (λ v. v < 256) list.now }
    ensures { (a b : ℕ) → a < 256 → b < 256
        → (HasPair pairs.new.words a b
        ↔ (HasPair pairs.old.words a b ⊎ ((a ≡ vertex) × Contains list.now b))) }
{
    for v in list {
        pairs.insert(vertex, *v);
    }
}

/// Whether `pairs` lacks, for some entry of `list`, the ordered pair of that entry and `vertex`; false if the list is
/// empty.
fn lacks_pair(pairs: &Pairs, vertex: u16, list: &[u16]) -> bool
    requires vertex { vertex < 256 }
    requires small { All (λ v. v < 256) list.now }
    ensures { IsTrue result ↔ Any (λ v. ¬ HasPair pairs.now.words v vertex) list.now }
{
    list.iter().any(|v| !pairs.contains(*v, vertex))
}

/// Whether some entry is above the number of lists (rule 1).
fn breaks_range(lists: &Lists<'_>) -> bool
    ensures { IsTrue result ↔ Breaks lists.now Rule.Range }
{
    let n = lists.count();
    for place in 0..n {
        if exceeds(lists.at(place), n) {
            return true;
        }
    }
    false
}

/// Whether some list names its own vertex (rule 2).
fn breaks_loop(lists: &Lists<'_>) -> bool
    ensures { IsTrue result ↔ Breaks lists.now Rule.Loop }
{
    for place in 0..lists.count() {
        if holds(lists.at(place), place + 1) {
            return true;
        }
    }
    false
}

/// Whether some list names a vertex twice (rule 3). No entry may be above the number of lists.
fn breaks_multi(lists: &Lists<'_>) -> bool
    requires { ¬ Breaks lists.now Rule.Range }
    ensures { IsTrue result ↔ Breaks lists.now Rule.Multi }
{
    let mut last = [0; VERTEX_NUMBERS];
    for place in 0..lists.count() {
        if names_twice(lists.at(place), place + 1, &mut last) {
            return true;
        }
    }
    false
}

/// Whether the list of some vertex u names a vertex v whose list does not name u (rule 4), tested with one bit for each
/// pair of vertices. There must be at most 255 lists, and no entry may be above their number.
fn breaks_asymmetric_by_bits(lists: &Lists<'_>) -> bool
    requires few { length lists.now < 256 }
    requires range { ¬ Breaks lists.now Rule.Range }
    ensures { IsTrue result ↔ Breaks lists.now Rule.Asymmetric }
{
    let mut pairs = Pairs::new();
    for place in 0..lists.count() {
        add_pairs(&mut pairs, place + 1, lists.at(place));
    }
    for place in 0..lists.count() {
        if lacks_pair(&pairs, place + 1, lists.at(place)) {
            return true;
        }
    }
    false
}

/// Whether the list of `vertex` names a vertex whose list does not name `vertex`. A number that is no vertex has the
/// empty list.
fn lacks_return(lists: &Lists<'_>, vertex: u16) -> bool
    ensures { IsTrue result
        ↔ Any (λ v. ¬ Contains (list_of lists.now v) vertex) (list_of lists.now vertex) }
{
    lists
        .of_vertex(vertex)
        .iter()
        .any(|v| !holds(lists.of_vertex(*v), vertex))
}

/// Whether the list of some vertex u names a vertex v whose list does not name u (rule 4), tested by a search of the
/// list of v for each entry. An entry that is no vertex has the empty list.
fn breaks_asymmetric_by_search(lists: &Lists<'_>) -> bool
    ensures { IsTrue result ↔ Breaks lists.now Rule.Asymmetric }
{
    for place in 0..lists.count() {
        if lacks_return(lists, place + 1) {
            return true;
        }
    }
    false
}

/// Whether the list of some vertex u names a vertex v whose list does not name u (rule 4). No entry may be above the
/// number of lists.
fn breaks_asymmetric(lists: &Lists<'_>) -> bool
    requires { ¬ Breaks lists.now Rule.Range }
    ensures { IsTrue result ↔ Breaks lists.now Rule.Asymmetric }
{
    if lists.count() < 256 {
        breaks_asymmetric_by_bits(lists)
    } else {
        breaks_asymmetric_by_search(lists)
    }
}

/// Whether all lists are empty (rule 5).
fn breaks_edgeless(lists: &Lists<'_>) -> bool
    ensures { IsTrue result ↔ Breaks lists.now Rule.Edgeless }
{
    for place in 0..lists.count() {
        if !lists.at(place).is_empty() {
            return false;
        }
    }
    true
}

/// Whether some list has more than four entries (rule 6).
fn breaks_degree(lists: &Lists<'_>) -> bool
    ensures { IsTrue result ↔ Breaks lists.now Rule.Degree }
{
    for place in 0..lists.count() {
        if lists.at(place).len() > 4 {
            return true;
        }
    }
    false
}

/// The first of rules 1 to 7 that the lists break, found by a test of each; `None` if they break none.
#[inline(never)]
fn first_broken_of_all(lists: &Lists<'_>) -> Option<Rule>
    ensures { MatchOption result (KeepsBefore lists.now 8)
        (λ rule. FirstBroken lists.now rule × (rule_number rule < 8)) }
{
    if breaks_range(lists) {
        Some(Rule::Range)
    } else if breaks_loop(lists) {
        Some(Rule::Loop)
    } else if breaks_multi(lists) {
        Some(Rule::Multi)
    } else if breaks_asymmetric(lists) {
        Some(Rule::Asymmetric)
    } else if breaks_edgeless(lists) {
        Some(Rule::Edgeless)
    } else if breaks_degree(lists) {
        Some(Rule::Degree)
    } else if breaks_disconnected(lists) {
        Some(Rule::Disconnected)
    } else {
        None
    }
}

/// The first of rules 1 to 7 that the lists break; `None` if they break none. The time is linear in the entries, unless
/// there are more than 255 lists and some have more than four entries.
pub(crate) fn first_broken(lists: &Lists<'_>) -> Option<Rule>
    ensures { MatchOption result (KeepsBefore lists.now 8)
        (λ rule. FirstBroken lists.now rule × (rule_number rule < 8)) }
{
    if is_small_graph(lists) {
        None
    } else {
        first_broken_of_all(lists)
    }
}
