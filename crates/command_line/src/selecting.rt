//! The graphs that a command line selects, and the columns of their table.
ghost use Rattle.std.specs.Prelude.{◌≡◌, Option, IfNone, IfSome, option_map};
ghost use Rattle.graph_facts.specs.declared.selection.Range.{Range};
ghost use Rattle.graph_facts.specs.declared.selection.Selection.{Selection};
ghost use Rattle.command_line.specs.Requests.{IsRangeOf, IsSelectedBy};
ghost use Rattle.command_line.specs.Requests as requests;

use crate::reading::{Keyword, Setting, asks, setting_text};
use graph_facts::{Columns, Conditions, Range, RuleCondition, Selection};
use std::alloc::{AllocError, Global};

/// The selection of graphs that `words` ask for, by conditions and `--not`; a condition that they do not name is
/// absent. `None` if the value of a condition is not valid.
pub(crate) fn selection_of(words: &[String]) -> Option<Selection>
    ensures some { IfSome result (IsSelectedBy words.now) }
    ensures none { IfNone result ((selection : Selection) → ¬ IsSelectedBy words.now selection) }
{
    Some(Selection {
        conditions: Conditions {
            vertices: range_of(setting_text(Setting::Vertices, words))?,
            edges: range_of(setting_text(Setting::Edges, words))?,
            faces: range_of(setting_text(Setting::Faces, words))?,
            bends: range_of(setting_text(Setting::Bends, words))?,
            rule: match setting_text(Setting::Rule, words) {
                Some(text) => Some(RuleCondition::parse(text)?),
                None => None,
            },
        },
        others: asks(Keyword::Others, words),
    })
}

/// The range that `text` names, as `Some(Some(range))`; `Some(None)` if `text` is `None`. `None` if it names no range.
fn range_of(text: Option<&str>) -> Option<Option<Range>>
    ensures some { IfSome result (IsRangeOf (option_map (λ t. t.now) text.entry)) }
    ensures none { IfNone result ((range : Option Range) → ¬ IsRangeOf (option_map (λ t. t.now) text.entry) range) }
{
    match text {
        None => Some(None),
        Some(text) => match Range::parse(text) {
            Ok(range) => Some(Some(range)),
            Err(_) => None,
        },
    }
}

/// The columns that `text` lists, or `Columns::NONE` if `text` is `None`. `None` if it is no list of columns.
pub(crate) fn columns_of(text: Option<&str>) -> Option<Columns>
    ensures { result ≡ requests.columns_of (option_map (λ t. t.now) text.entry) }
{
    match text {
        None => Some(Columns::NONE),
        Some(text) => Columns::parse(text),
    }
}

/// The message about the first value in `words` that is not valid, of `--bends`, `--vertices`, `--edges`, `--faces` and
/// `--by` in this order; `None` if each is valid or not given. `AllocError` if there is no memory for the message.
pub(crate) fn value_fault(alloc: Global, words: &[String]) -> Result<Option<String>, AllocError> {
    for (setting, name) in RANGES {
        let Some(text) = setting_text(setting, words) else {
            continue;
        };
        if let Err(fault) = Range::parse(text) {
            return Ok(Some(format!(in alloc;
                "invalid value '{text}' for '{name} <RANGE>': {fault}"
            )?));
        }
    }
    match setting_text(Setting::By, words) {
        Some(text) if Columns::parse(text).is_none() => Ok(Some(format!(in alloc;
            "invalid value '{text}' for '--by <COLUMNS>': {COLUMNS}"
        )?)),
        _ => Ok(None),
    }
}

/// The options whose value is a range, with their names.
const RANGES: [(Setting, &str); 4] = [
    (Setting::Bends, "--bends"),
    (Setting::Vertices, "--vertices"),
    (Setting::Edges, "--edges"),
    (Setting::Faces, "--faces"),
];

/// What the value of `--by` is.
const COLUMNS: &str = "the columns are some of n,m,f,bends,rule, each at most once";
