//! What is known of a graph once its record is answered, and conditions on it: ranges of numbers, rules, and the texts
//! by which conditions and columns are asked for.
ghost use Rattle.std.specs.Prelude.{◌≡◌, ◌/◌, ℕ, Option, IfErr, IfNone, IfOk, IfSome};
ghost use Rattle.planar_code.specs.Stream.{lists_of};
ghost use Rattle.embedding.specs.Darts.{dart_count};
ghost use Rattle.embedding.specs.Rules.{rule_number};
ghost use Rattle.graph_facts.specs.Facts.{edges_of_refused, laid_facts, refused_facts};
ghost use Rattle.graph_facts.specs.Ranges.{AreTwoEnds, IsEnd, IsOneNumber, IsRangeFault, IsRangeText, NamesEnds, has_numbers, in_range, is_up_to};
ghost use Rattle.graph_facts.specs.Conditions.{chooses, is_chosen, meets, meets_range, meets_rule};
ghost use Rattle.graph_facts.specs.declared.selection.RuleCondition.{RuleCondition};
ghost use Rattle.graph_facts.specs.Words.{IsRuleText, columns_in, no_columns, with_column};

use crate::table::Columns;
use embedding::Rule;
use faces::Plane;
use ortho_rep::Shape;
use planar_code::Record;
use thiserror::Error;

/// What is known of a graph once its record is answered.
#[derive(Clone, Copy, Debug)]
pub struct Facts {
    /// The number of vertices.
    pub vertices: u32,
    /// The number of edges; `None` if the first rule that the record breaks is one of the first four, so that its lists
    /// are those of no simple graph.
    pub edges: Option<u32>,
    /// The number of faces; `None` if the record breaks a rule.
    pub faces: Option<u32>,
    /// The fewest bends; `None` if the record breaks a rule.
    pub bends: Option<u32>,
    /// The first rule that the record breaks; `None` if it breaks none.
    pub rule: Option<Rule>,
}

impl Facts {
    /// The facts of a graph that breaks no rule: the numbers of vertices, edges and faces of `plane`, the bends of
    /// `shape`, which must be the fewest, and no broken rule.
    pub fn of_shape(plane: &Plane, shape: &Shape) -> Facts
        ensures { result ≡ laid_facts plane.now shape.now }
    {
        Facts {
            vertices: u32::from(plane.graph().vertices()),
            edges: Some(u32::from(plane.graph().edges())),
            faces: Some(u32::from(plane.face_count())),
            bends: Some(shape.bends()),
            rule: None,
        }
    }

    /// The facts of `rec`, which breaks `rule` first: its numbers of vertices and of edges, and `None` for faces and
    /// bends. The edges are `None`, too, if its lists are those of no simple graph.
    pub fn of_refused(rec: &Record, rule: Rule) -> Facts
        ensures { result ≡ refused_facts (lists_of rec.now) rule }
    {
        Facts {
            vertices: u32::from(rec.order()),
            edges: edges_of_refused(rec, rule),
            faces: None,
            bends: None,
            rule: Some(rule),
        }
    }
}

/// The number of edges of `rec`, which breaks `rule` first; `None` if `rule` is one of the first four (range, loop,
/// multi, asymmetric), so that its lists are those of no simple graph.
fn edges_of_refused(rec: &Record, rule: Rule) -> Option<u32>
    ensures { result ≡ edges_of_refused rule (lists_of rec.now) }
{
    match rule {
        Rule::Range | Rule::Loop | Rule::Multi | Rule::Asymmetric => None,
        Rule::Edgeless | Rule::Degree | Rule::Disconnected | Rule::Genus => {
            Some(half_of_entries(rec))
        }
    }
}

/// Half the number of entries of all lists of `rec`, rounded down; the zeros that end the lists do not count.
#[tactic(auto, using(crate::proofs::RecordEntries::record_size, crate::proofs::RecordEntries::few_entries))]
fn half_of_entries(rec: &Record) -> u32
    ensures { result ≡ dart_count (lists_of rec.now) / 2 }
{
    let order = usize::from(rec.order());
    let entries = rec.bytes().len() - 1 - order;
    (entries / 2) as u32
}

/// The place of `rule` in the order in which rules are tried, from 1 to 8.
pub(crate) fn place_of(rule: Rule) -> u8
    ensures { result ≡ rule_number rule }
{
    match rule {
        Rule::Range => 1,
        Rule::Loop => 2,
        Rule::Multi => 3,
        Rule::Asymmetric => 4,
        Rule::Edgeless => 5,
        Rule::Degree => 6,
        Rule::Disconnected => 7,
        Rule::Genus => 8,
    }
}

/// A range of numbers, with its first and its last number.
#[derive(Clone, Copy, Debug, PartialEq, Eq)]
pub struct Range {
    /// The first number.
    pub from: u32,
    /// The last number, if there is one.
    pub to: Option<u32>,
}

/// The reason why a text is no range.
#[derive(Clone, Copy, Debug, PartialEq, Eq, Error)]
pub enum RangeFault {
    /// It is not A:B, A:, :B or A, with decimal numbers of at most 32 bits.
    #[error("a range is A:B, A:, :B or A, with numbers from 0 to 4294967295")]
    Malformed,
    /// Its first number is above its last one.
    #[error("the range is empty: its first number is above its last one")]
    Empty,
}

impl Range {
    /// The range that `text` names: `A:B`, `A:` without a last number, `:B` from 0, or `A` for this number alone.
    /// `Empty` if `text` is `A:B` with A above B; `Malformed` if it has another form, or a number of more than 32 bits.
    ///
    /// # Errors
    ///
    /// `Empty` if the text names two numbers, the first above the second; `Malformed` if it has another form, or a
    /// number of more than 32 bits.
    pub fn parse(text: &str) -> Result<Range, RangeFault>
        ensures ok { IfOk result (IsRangeText text.now) }
        ensures fault { IfErr result (IsRangeFault text.now) }
    {
        match ends_of(text) {
            None => Err(RangeFault::Malformed),
            Some(range) if range.has_numbers() => Ok(range),
            Some(_) => Err(RangeFault::Empty),
        }
    }

    /// Whether `number` is in the range; its first and last number are.
    pub fn contains(&self, number: u32) -> bool
        ensures { result ≡ in_range self.now number }
    {
        self.from <= number && is_up_to(self.to, number)
    }

    /// Whether any number is in the range: its first number is at most its last one, or it has no last one.
    fn has_numbers(&self) -> bool
        ensures { result ≡ has_numbers self.now }
    {
        is_up_to(self.to, self.from)
    }
}

/// Whether `number` is at most `limit`; true if `limit` is `None`.
fn is_up_to(limit: Option<u32>, number: u32) -> bool
    ensures { result ≡ is_up_to limit number }
{
    match limit {
        None => true,
        Some(limit) => number <= limit,
    }
}

/// The range that `text` names, `A:B`, `A:` (no last number), `:B` (from 0) or `A`, also an empty one, whose first
/// number is above its last; `None` if the text has another form, or a number of more than 32 bits.
fn ends_of(text: &str) -> Option<Range>
    ensures some { IfSome result (NamesEnds text.now) }
    ensures none { IfNone result ((range : Range) → ¬ NamesEnds text.now range) }
{
    match text.split_once(':') {
        None => one_number(text),
        Some((low, high)) => two_ends(low, high),
    }
}

/// The range that contains only the number that `text` names; `None` if the text is no number of at most 32 bits.
fn one_number(text: &str) -> Option<Range>
    ensures some { IfSome result (IsOneNumber text.now) }
    ensures none { IfNone result ((range : Range) → ¬ IsOneNumber text.now range) }
{
    match text.parse::<u32>() {
        Ok(number) => Some(Range {
            from: number,
            to: Some(number),
        }),
        Err(_) => None,
    }
}

/// The range from the number `low` to the number `high`, also an empty one: from 0 if `low` is an empty text, and
/// without a last number if `high` is. `None` if both texts are empty, or one is neither empty nor a number of at most
/// 32 bits.
fn two_ends(low: &str, high: &str) -> Option<Range>
    ensures some { IfSome result (AreTwoEnds low.now high.now) }
    ensures none { IfNone result ((range : Range) → ¬ AreTwoEnds low.now high.now range) }
{
    if low.is_empty() && high.is_empty() {
        return None;
    }
    match (end_of(low), end_of(high)) {
        (Some(from), Some(to)) => Some(Range {
            from: from.unwrap_or(0),
            to,
        }),
        _ => None,
    }
}

/// `Some(Some(number))` if `text` names a number of at most 32 bits, `Some(None)` if it is empty, and `None` if it is
/// neither.
fn end_of(text: &str) -> Option<Option<u32>>
    ensures some { IfSome result (IsEnd text.now) }
    ensures none { IfNone result ((end : Option ℕ) → ¬ IsEnd text.now end) }
{
    if text.is_empty() {
        return Some(None);
    }
    match text.parse::<u32>() {
        Ok(number) => Some(Some(number)),
        Err(_) => None,
    }
}

/// A condition on the first rule that a graph breaks.
#[derive(Clone, Copy, Debug)]
pub enum RuleCondition {
    /// It breaks none.
    BreaksNone,
    /// It breaks this one first.
    BreaksFirst(Rule),
}

/// Conditions on graphs: a range for each number, and a condition on the first broken rule. What is `None` is no
/// condition.
#[derive(Clone, Copy, Debug)]
pub struct Conditions {
    pub vertices: Option<Range>,
    pub edges: Option<Range>,
    pub faces: Option<Range>,
    pub bends: Option<Range>,
    pub rule: Option<RuleCondition>,
}

impl Conditions {
    /// Whether a graph with these `facts` meets every condition; true if there are none. A fact that is `None` lies in
    /// no range; no broken rule meets `BreaksNone`.
    pub fn meets(&self, facts: &Facts) -> bool
        ensures { result ≡ meets self.now facts.now }
    {
        meets_range(self.vertices, Some(facts.vertices))
            && meets_range(self.edges, facts.edges)
            && meets_range(self.faces, facts.faces)
            && meets_range(self.bends, facts.bends)
            && meets_rule(self.rule, facts.rule)
    }
}

/// The graphs that meet conditions, or the others.
#[derive(Clone, Copy, Debug)]
pub struct Selection {
    pub conditions: Conditions,
    /// Whether the others are chosen.
    pub others: bool,
}

impl Selection {
    /// Whether a graph with these `facts` is chosen: whether it meets the conditions, or if `others` is true, whether
    /// it does not.
    pub fn chooses(&self, facts: &Facts) -> bool
        ensures { result ≡ chooses self.now facts.now }
    {
        let meets = self.conditions.meets(facts);
        if self.others { !meets } else { meets }
    }

    /// Whether a record with these `facts` is chosen; false if they are `None` because memory ran out for it, even if
    /// the others are asked for.
    pub fn is_chosen(&self, facts: &Option<Facts>) -> bool
        ensures { result ≡ is_chosen self.now facts.now }
    {
        match facts {
            Some(facts) => self.chooses(facts),
            None => false,
        }
    }
}

/// Whether `number` is in the range `condition`; true if `condition` is `None`, and otherwise false if `number` is
/// `None`.
fn meets_range(condition: Option<Range>, number: Option<u32>) -> bool
    ensures { result ≡ meets_range condition number }
{
    match (condition, number) {
        (None, _) => true,
        (Some(_), None) => false,
        (Some(range), Some(number)) => range.contains(number),
    }
}

/// Whether `rule`, the first broken rule or `None` if none is broken, meets `condition`; true if `condition` is `None`.
fn meets_rule(condition: Option<RuleCondition>, rule: Option<Rule>) -> bool
    ensures { result ≡ meets_rule condition rule }
{
    match (condition, rule) {
        (None, _) => true,
        (Some(RuleCondition::BreaksNone), rule) => rule.is_none(),
        (Some(RuleCondition::BreaksFirst(_)), None) => false,
        (Some(RuleCondition::BreaksFirst(asked)), Some(rule)) => place_of(asked) == place_of(rule),
    }
}

impl RuleCondition {
    /// The condition that `text` names: `BreaksNone` for `none`, `BreaksFirst` for the word of a rule, in lower case;
    /// `None` for any other text.
    pub fn parse(text: &str) -> Option<RuleCondition>
        ensures some { IfSome result (IsRuleText text.now) }
        ensures none { IfNone result ((condition : RuleCondition) → ¬ IsRuleText text.now condition) }
    {
        match text {
            "none" => Some(RuleCondition::BreaksNone),
            "range" => Some(RuleCondition::BreaksFirst(Rule::Range)),
            "loop" => Some(RuleCondition::BreaksFirst(Rule::Loop)),
            "multi" => Some(RuleCondition::BreaksFirst(Rule::Multi)),
            "asymmetric" => Some(RuleCondition::BreaksFirst(Rule::Asymmetric)),
            "edgeless" => Some(RuleCondition::BreaksFirst(Rule::Edgeless)),
            "degree" => Some(RuleCondition::BreaksFirst(Rule::Degree)),
            "disconnected" => Some(RuleCondition::BreaksFirst(Rule::Disconnected)),
            "genus" => Some(RuleCondition::BreaksFirst(Rule::Genus)),
            _ => None,
        }
    }
}

impl Columns {
    /// No columns.
    pub const NONE: Columns = Columns {
        vertices: false,
        edges: false,
        faces: false,
        bends: false,
        rule: false,
    };

    /// The columns whose names `text` lists, with commas between them: one or more of `n`, `m`, `f`, `bends` and
    /// `rule`, in any order, each at most once; `None` if it is no such list, or is empty.
    pub fn parse(text: &str) -> Option<Columns>
        ensures { result ≡ columns_in text.now }
    {
        text.split(',').fold(Some(Columns::NONE), with_column)
    }
}

/// The columns of `columns` and the one with this `name`; `None` if `columns` is `None` or has it already, or if no
/// column has this name.
fn with_column(columns: Option<Columns>, name: &str) -> Option<Columns>
    ensures { result ≡ with_column columns name.now }
{
    let columns = columns?;
    match name {
        "n" if !columns.vertices => Some(Columns {
            vertices: true,
            ..columns
        }),
        "m" if !columns.edges => Some(Columns {
            edges: true,
            ..columns
        }),
        "f" if !columns.faces => Some(Columns {
            faces: true,
            ..columns
        }),
        "bends" if !columns.bends => Some(Columns {
            bends: true,
            ..columns
        }),
        "rule" if !columns.rule => Some(Columns {
            rule: true,
            ..columns
        }),
        _ => None,
    }
}
