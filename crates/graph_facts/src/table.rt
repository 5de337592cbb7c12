//! Tables of how many graphs have each combination of what they have in the columns, and their text.
ghost use Rattle.std.specs.Prelude.{◌≡◌, ◌+◌, ◌-◌, ◌<◌, ◌^◌, List, [], ◌∷◌, ◌++◌, length, OnOk, OnErr, ◌≤◌, codes, false};
ghost use Rattle.std.proofs.Common.{rules};
ghost use Rattle.std.specs.Cmp.{eq_by_cmp_equiv, partial_equiv_from_equiv, partial_order_from_total};
ghost use Rattle.std.specs.Cmp.Rules.{comparing};
ghost use Rattle.std.specs.Ordering.{as_partial_cmp, eq_by_cmp};
ghost use Rattle.graph_facts.specs.Combinations.{combination_of, compare, compare_total, rule_place};
ghost use Rattle.graph_facts.specs.Tables.{asks_any, IsTable, number_at, column_text, columns_text, number_text, row_text, rule_text, table_text, total_text};
ghost use Rattle.graph_facts.specs.declared.selection.Facts.{Facts};
ghost use Rattle.streams.specs.Sink.{Writes, StaysInTransit};
ghost use Rattle.streams.specs.declared.output.TheConstants.{LINE, ROOM};

use crate::selection::{Facts, place_of};
use embedding::Rule;
use std::alloc::{AllocError, Global};
use std::cmp::Ordering;
use std::collections::BTreeMap;
use std::marker::Model;
use streams::{Sink, TextBuffer, WriteFault};

/// The columns of a table.
#[derive(Clone, Copy, Debug)]
pub struct Columns {
    pub vertices: bool,
    pub edges: bool,
    pub faces: bool,
    pub bends: bool,
    /// The first rule that is broken.
    pub rule: bool,
}

/// What a graph has in the columns of a table; `None` in a column that is not asked for, or if the graph has no such
/// number or breaks no rule.
///
/// Combinations are ordered by these fields in order, with `None` before all else, and rules in the order in which they
/// are tried.
#[derive(Clone, Copy, Debug)]
pub struct Combination {
    pub vertices: Option<u32>,
    pub edges: Option<u32>,
    pub faces: Option<u32>,
    pub bends: Option<u32>,
    pub rule: Option<Rule>,
}

impl Columns {
    /// Whether at least one column is asked for.
    pub fn is_any(&self) -> bool
        ensures { result ≡ asks_any self.now }
    {
        self.vertices || self.edges || self.faces || self.bends || self.rule
    }

    /// The combination of a graph with these `facts`: what it has in the columns that are asked for, and `None` in all
    /// others and where it has no such number or breaks no rule.
    pub fn combination_of(&self, facts: &Facts) -> Combination
        ensures { result ≡ combination_of self.now facts.now }
    {
        Combination {
            vertices: if self.vertices {
                Some(facts.vertices)
            } else {
                None
            },
            edges: if self.edges { facts.edges } else { None },
            faces: if self.faces { facts.faces } else { None },
            bends: if self.bends { facts.bends } else { None },
            rule: if self.rule { facts.rule } else { None },
        }
    }
}

impl Combination {
    /// The place of the rule in the order in which rules are tried, from 1 to 8; `None` without a rule.
    fn rule_place(&self) -> Option<u8>
        ensures { result ≡ rule_place self.now }
    {
        self.rule.map(place_of)
    }
}

impl Ord for Combination {
    ghost cmp = { compare };

    ghost total = { compare_total };

    ghost matches_partial_cmp = { Prim.search (comparing, rules) };

    ghost matches_eq = { Prim.search (comparing, rules) };

    /// The order of two combinations: by vertices, edges, faces, bends and last by the place of the rule, each with
    /// `None` before all else.
    fn cmp(&self, other: &Combination) -> Ordering {
        self.vertices
            .cmp(&other.vertices)
            .then(self.edges.cmp(&other.edges))
            .then(self.faces.cmp(&other.faces))
            .then(self.bends.cmp(&other.bends))
            .then(self.rule_place().cmp(&other.rule_place()))
    }
}

impl PartialOrd for Combination {
    ghost partial_cmp = { as_partial_cmp compare };

    ghost laws = { partial_order_from_total compare_total };

    /// The order of two combinations, the same as by `cmp`; never `None`.
    fn partial_cmp(&self, other: &Combination) -> Option<Ordering> {
        Some(self.cmp(other))
    }
}

impl PartialEq for Combination {
    ghost eq = { eq_by_cmp compare };

    ghost laws = { partial_equiv_from_equiv (eq_by_cmp_equiv compare_total) };

    /// Whether two combinations have the same numbers and the same rule.
    fn eq(&self, other: &Combination) -> bool {
        self.cmp(other) == Ordering::Equal
    }
}

impl Eq for Combination {
    ghost laws = { eq_by_cmp_equiv compare_total };
}

/// How many graphs have each combination of what the columns show, and how many there are in all.
///
/// In contracts it is a `TableModel`. Memory grows with the number of different combinations.
#[derive(Drop)]
pub struct Counts {
    columns: Columns,
    rows: BTreeMap<Combination, u64>,
    total: u64,
}

impl Model for Counts {
    ghost use Rattle.graph_facts.specs.Tables.{TableModel};

    ghost Value = { TableModel };

    ghost view = { λ c. record { columns = c.columns; rows = c.rows.entries; total = c.total } };
}

impl Counts {
    /// The table of no graphs, in `columns`: it has no combination, and the number of all graphs is 0.
    pub fn new(alloc: Global, columns: Columns) -> Counts
        ensures columns { result.columns ≡ columns }
        ensures table { IsTable [] result }
    {
        Counts {
            columns,
            rows: BTreeMap::new(alloc),
            total: 0,
        }
    }

    /// Counts one more graph, with these `facts`, for its combination and for the number of all graphs; each number
    /// stops at 2^64 - 1. `AllocError` if there is no memory for a new combination; then nothing changes.
    ///
    /// # Errors
    ///
    /// `AllocError` if there is no memory for a new combination; nothing has then changed.
    pub fn add(&mut self, facts: &Facts) -> Result<(), AllocError>
        ensures columns { self.new.columns ≡ self.old.columns }
        ensures table { OnOk result ((graphs : List Facts) → IsTable graphs self.old → length graphs < 2 ^ 64 - 1
            → IsTable (graphs ++ facts.now ∷ []) self.new) }
        ensures unchanged { OnErr result (self.new ≡ self.old) }
    {
        let combination = self.columns.combination_of(facts);
        let number = self.number_of(&combination).saturating_add(1);
        self.rows.insert(combination, number)?;
        self.total = self.total.saturating_add(1);
        Ok(())
    }

    /// The columns that the table was made with.
    pub fn columns(&self) -> Columns
        ensures { result ≡ self.now.columns }
    {
        self.columns
    }

    /// The number of all graphs that were counted.
    pub fn total(&self) -> u64
        ensures { result ≡ self.now.total }
    {
        self.total
    }

    /// The number of graphs with each combination that occurs, in the order of the combinations; empty if no graph was
    /// counted.
    pub(crate) fn rows(&self) -> &BTreeMap<Combination, u64>
        ensures { result.now.entries ≡ self.now.rows }
    {
        &self.rows
    }

    /// The number of graphs with this `combination`; 0 if it does not occur.
    fn number_of(&self, combination: &Combination) -> u64
        ensures { result ≡ number_at self.now.rows combination.now }
    {
        self.rows.get(combination).copied().unwrap_or(0)
    }
}

/// Writes the table `counts` to `sink`: a line for each combination that occurs, in their order, and last one with the
/// number of all graphs. It uses a fixed buffer. `Write` exactly if `sink` fails, which has then taken a prefix of the
/// text.
///
/// Without columns this last line is the only one.
///
/// It allocates nothing: lines are collected in a fixed buffer.
///
/// # Errors
///
/// `Write` exactly if the sink has then failed; it has then taken a prefix of the text. There is no other error.
pub fn write_counts<S: Sink>(counts: &Counts, sink: &mut S) -> Result<(), WriteFault>
    requires { S.failed sink.old ≡ false }
    ensures { Writes (S.taken sink.old) (S.taken sink.new) (S.failed sink.new) (table_text counts.now) result }
{
    let mut lines = TextBuffer::new();
    let columns = counts.columns();
    for (combination, number) in counts.rows().iter() {
        write_row(&mut lines, sink, &columns, combination, *number)?;
    }
    write_total(&mut lines, sink, counts.total())?;
    lines.flush(sink)
}

/// Appends the line of `combination` and its `number` of graphs to the buffer `lines` if `columns` has any column, and
/// otherwise does nothing. If `lines` is nearly full, it is written to `sink` first: `Write` exactly if `sink` then
/// fails; it has taken a prefix of `lines`, and the line is not appended.
fn write_row<S: Sink>(
    lines: &mut TextBuffer,
    sink: &mut S,
    columns: &Columns,
    combination: &Combination,
    number: u64,
) -> Result<(), WriteFault>
    requires { S.failed sink.old ≡ false }
    ensures { StaysInTransit (S.taken sink.old) lines.old (S.taken sink.new) lines.new
        (S.failed sink.new) (row_text columns.now (combination.now, number)) result }
{
    if !columns.is_any() {
        return Ok(());
    }
    lines.make_room(sink)?;
    push_row(lines, columns, combination, number);
    Ok(())
}

/// Appends the line of the number of all graphs, `total`, to the buffer `lines`. If `lines` is nearly full, it is
/// written to `sink` first: `Write` exactly if `sink` then fails; it has taken a prefix of `lines`, and the line is not
/// appended.
fn write_total<S: Sink>(lines: &mut TextBuffer, sink: &mut S, total: u64) -> Result<(), WriteFault>
    requires { S.failed sink.old ≡ false }
    ensures { StaysInTransit (S.taken sink.old) lines.old (S.taken sink.new) lines.new
        (S.failed sink.new) (total_text total) result }
{
    lines.make_room(sink)?;
    push_total(lines, total);
    Ok(())
}

/// Appends the line of `combination` and its `number` of graphs to `lines`: each column that is asked for, the number,
/// and a newline. At least `LINE` bytes of `lines` must be free.
fn push_row(lines: &mut TextBuffer, columns: &Columns, combination: &Combination, number: u64)
    requires { length lines.old + LINE ≤ ROOM }
    ensures { lines.new ≡ lines.old ++ columns_text columns.now (combination.now, number) }
{
    push_column(lines, columns.vertices, b"n=", combination.vertices);
    push_column(lines, columns.edges, b"m=", combination.edges);
    push_column(lines, columns.faces, b"f=", combination.faces);
    push_column(lines, columns.bends, b"bends=", combination.bends);
    push_rule(lines, columns.rule, combination.rule);
    lines.push(b"graphs=");
    lines.push_number(number);
    lines.push(b"\n");
}

/// Appends the line of the number of all graphs, `total`, with a newline, to `lines`. At least `LINE` bytes of `lines`
/// must be free.
fn push_total(lines: &mut TextBuffer, total: u64)
    requires { length lines.old + LINE ≤ ROOM }
    ensures { lines.new ≡ lines.old ++ total_text total }
{
    lines.push(b"total graphs=");
    lines.push_number(total);
    lines.push(b"\n");
}

/// Appends the column with this `name` and `number` to `lines`, and a space after it; `-` in place of the number if it
/// is `None`. Does nothing if `asked` is false. There must be room in `lines` for the name and 41 bytes more.
fn push_column(lines: &mut TextBuffer, asked: bool, name: &[u8], number: Option<u32>)
    requires { length lines.old + length name.now + 41 ≤ ROOM }
    ensures text { lines.new ≡ lines.old ++ column_text asked name.now (number_text number) }
    ensures short { length lines.new ≤ length lines.old + length name.now + 41 }
{
    if !asked {
        return;
    }
    lines.push(name);
    match number {
        None => lines.push(b"-"),
        Some(number) => lines.push_number(u64::from(number)),
    }
    lines.push(b" ");
}

/// Appends the column of the first broken rule to `lines`, and a space after it: the word of `rule`, or `none` if it is
/// `None`. Does nothing if `asked` is false. At least 20 bytes of `lines` must be free.
fn push_rule(lines: &mut TextBuffer, asked: bool, rule: Option<Rule>)
    requires { length lines.old + 20 ≤ ROOM }
    ensures text { lines.new ≡ lines.old ++ column_text asked (codes "rule=") (rule_text rule) }
    ensures short { length lines.new ≤ length lines.old + 20 }
{
    if !asked {
        return;
    }
    lines.push(b"rule=");
    match rule {
        None => lines.push(b"none"),
        Some(rule) => lines.push(rule.word().as_bytes()),
    }
    lines.push(b" ");
}
