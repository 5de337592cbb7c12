//! Conditions on graphs and their texts, by rows. The values come from the description of the commands `pick` and `count`.

use embedding::Rule;
use graph_facts::{Conditions, Facts, Range, RangeFault, RuleCondition, Selection};
use test_tools::same;

/// No condition.
const NONE: Conditions = Conditions {
    vertices: None,
    edges: None,
    faces: None,
    bends: None,
    rule: None,
};

/// No condition: all graphs.
pub(crate) const ALL: Selection = Selection {
    conditions: NONE,
    others: false,
};

/// The graphs with this number of bends, if one is given, and with this condition on the broken rule.
pub(crate) fn selection_of(bends: Option<u32>, rule: Option<RuleCondition>) -> Selection {
    Selection {
        conditions: Conditions {
            bends: bends.map(|number| Range {
                from: number,
                to: Some(number),
            }),
            rule,
            ..NONE
        },
        others: false,
    }
}

/// A triangle.
const TRIANGLE: Facts = Facts {
    vertices: 3,
    edges: Some(3),
    faces: Some(2),
    bends: Some(1),
    rule: None,
};

/// A graph with a vertex of degree 5.
const FIVE: Facts = Facts {
    vertices: 6,
    edges: Some(5),
    faces: None,
    bends: None,
    rule: Some(Rule::Degree),
};

/// Each text of a range, with its first and its last number.
#[test]
fn ranges_have_their_texts(rt: HostRuntime) {
    let rows: [(&str, u32, Option<u32>); 10] = [
        ("0", 0, Some(0)),
        ("17", 17, Some(17)),
        ("+5", 5, Some(5)),
        ("007", 7, Some(7)),
        ("2:5", 2, Some(5)),
        ("1:+2", 1, Some(2)),
        ("5:5", 5, Some(5)),
        ("3:", 3, None),
        (":4", 0, Some(4)),
        (":4294967295", 0, Some(4_294_967_295)),
    ];
    for (text, from, to) in rows {
        same!(&rt, Range::parse(text), Ok(Range { from, to }));
    }
    let bad = [
        "",
        ":",
        "+",
        "a",
        "1:b",
        "-1",
        "1:2:3",
        "4294967296",
        ":4294967296",
        "1 ",
        " 5",
        " 1:2",
    ];
    for text in bad {
        same!(&rt, Range::parse(text), Err(RangeFault::Malformed));
    }
    for text in ["5:3", "1:0"] {
        same!(&rt, Range::parse(text), Err(RangeFault::Empty));
    }
}

/// A range on one number chooses by this number alone.
#[test]
fn ranges_choose(rt: HostRuntime) {
    // Each number of a triangle and of a graph that breaks a rule, and a range on it.
    let rows: [(u32, Option<u32>, bool, bool); 6] = [
        (1, Some(1), true, false),
        (0, Some(0), false, false),
        (0, None, true, false),
        (1, None, true, false),
        (2, None, false, false),
        (0, Some(1), true, false),
    ];
    for (from, to, triangle, five) in rows {
        let bends = Some(Range { from, to });
        let chosen = Selection {
            conditions: Conditions { bends, ..NONE },
            others: false,
        };
        let others = Selection {
            others: true,
            ..chosen
        };
        same!(&rt, chosen.chooses(&TRIANGLE), triangle);
        same!(&rt, chosen.chooses(&FIVE), five);
        same!(&rt, others.chooses(&TRIANGLE), !triangle);
        same!(&rt, others.chooses(&FIVE), !five);
    }
}

/// Conditions, and whether they choose the triangle and the graph with a vertex of degree 5.
#[derive(Clone, Copy)]
struct Choice {
    conditions: Conditions,
    triangle: bool,
    five: bool,
}

/// Conditions on vertices, edges, faces and the broken rule, and all at once.
const CHOICES: [Choice; 9] = [
    Choice {
        conditions: NONE,
        triangle: true,
        five: true,
    },
    Choice {
        conditions: Conditions {
            vertices: Some(Range {
                from: 4,
                to: Some(6),
            }),
            ..NONE
        },
        triangle: false,
        five: true,
    },
    Choice {
        conditions: Conditions {
            edges: Some(Range {
                from: 3,
                to: Some(5),
            }),
            ..NONE
        },
        triangle: true,
        five: true,
    },
    Choice {
        conditions: Conditions {
            edges: Some(Range {
                from: 0,
                to: Some(4),
            }),
            ..NONE
        },
        triangle: true,
        five: false,
    },
    Choice {
        conditions: Conditions {
            faces: Some(Range {
                from: 0,
                to: Some(9),
            }),
            ..NONE
        },
        triangle: true,
        five: false,
    },
    Choice {
        conditions: Conditions {
            rule: Some(RuleCondition::BreaksFirst(Rule::Degree)),
            ..NONE
        },
        triangle: false,
        five: true,
    },
    Choice {
        conditions: Conditions {
            rule: Some(RuleCondition::BreaksFirst(Rule::Genus)),
            ..NONE
        },
        triangle: false,
        five: false,
    },
    Choice {
        conditions: Conditions {
            rule: Some(RuleCondition::BreaksNone),
            ..NONE
        },
        triangle: true,
        five: false,
    },
    Choice {
        conditions: Conditions {
            vertices: Some(Range {
                from: 6,
                to: Some(6),
            }),
            rule: Some(RuleCondition::BreaksNone),
            ..NONE
        },
        triangle: false,
        five: false,
    },
];

/// The graphs that meet all conditions are chosen, and no others.
#[test]
fn conditions_choose(rt: HostRuntime) {
    for choice in CHOICES {
        let chosen = Selection {
            conditions: choice.conditions,
            others: false,
        };
        same!(&rt, chosen.chooses(&TRIANGLE), choice.triangle);
        same!(&rt, chosen.chooses(&FIVE), choice.five);
    }
}
