//! Theorems about conditions, columns and tables, each as the contract of an empty function.
ghost use Rattle.std.specs.Prelude.{◌≡◌, ◌↔◌, true, List, ℕ, Some, not};
ghost use Rattle.std.specs.List.Sorted.{IsPermutation};
ghost use Rattle.graph_facts.specs.declared.selection.Facts.{Facts};
ghost use Rattle.graph_facts.specs.declared.table.Columns.{Columns};
ghost use Rattle.graph_facts.specs.declared.table.Combination.{Combination};
ghost use Rattle.graph_facts.specs.declared.selection.Conditions.{Conditions};
ghost use Rattle.graph_facts.specs.Combinations.{is_same};
ghost use Rattle.graph_facts.specs.Conditions.{chooses, others_than, those_meeting};
ghost use Rattle.graph_facts.specs.Tables.{IsTable, TableModel};
ghost use Rattle.graph_facts.specs.Words.{AreNamesOf, columns_in, listed};

/// Theorem: a graph is one of the others exactly if it does not meet the conditions.
pub fn chosen_or_other()
    ensures { (conditions : Conditions) (facts : Facts)
        → chooses (others_than conditions) facts ≡ not (chooses (those_meeting conditions) facts) }
{}

/// Theorem: a text names columns exactly if it lists the names of those that are asked for, each once and in any order.
pub fn listed_columns()
    ensures { (text : List ℕ) (columns : Columns) → (columns_in text ≡ Some columns) ↔ AreNamesOf columns (listed text) }
{}

/// Theorem: combinations are the same only if they have the same numbers and the same rule.
pub fn same_is_equal()
    ensures { (c d : Combination) → is_same c d ≡ true → c ≡ d }
{}

/// Theorem: the same graphs have only one table in given columns, and so only one text of it.
pub fn one_table()
    ensures { (graphs : List Facts) (table other : TableModel)
        → IsTable graphs table → IsTable graphs other → table.columns ≡ other.columns
        → table ≡ other }
{}

/// Theorem: the table of graphs does not depend on their order.
pub fn order_is_free()
    ensures { (graphs others : List Facts) (table : TableModel)
        → IsPermutation graphs others → IsTable graphs table → IsTable others table }
{}
