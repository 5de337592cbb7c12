//! What is known of graphs, conditions on it, and tables of how many graphs have which combination of numbers and rule.
#![tactic(auto)]

pub mod laws;
mod selection;
mod table;

pub use selection::{Conditions, Facts, Range, RangeFault, RuleCondition, Selection};
pub use table::{Columns, Combination, Counts, write_counts};
