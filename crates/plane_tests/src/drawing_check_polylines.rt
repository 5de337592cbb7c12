//! Ten thousand lines through five places, against a plain reading of the conditions.

use crate::drawing_check_faults::{BENT_EDGE, FOUR, PATH, faults_at};
use drawing_check::CheckFault;
use std::alloc::Global;
use std::process::Abort;
use test_tools::{Place, same};

/// Where the line begins: two columns to the left of the last one.
const START: Place = (65_533, 9);

/// The steps of the line, each coordinate two more than it is: along the axes, to the same place, and across.
const STEPS: [Place; 10] = [
    (3, 2),
    (4, 2),
    (2, 3),
    (2, 4),
    (1, 2),
    (0, 2),
    (2, 1),
    (2, 0),
    (2, 2),
    (3, 3),
];

/// The line whose steps are those of a number's four digits.
fn line_of(number: usize) -> [Place; 5] {
    let mut line = [START; 5];
    let mut rest = number;
    for place in 1..5 {
        let (x, y) = line[place - 1];
        let (across, up) = STEPS[rest % 10];
        line[place] = (
            x.wrapping_add(across).wrapping_sub(2),
            y.wrapping_add(up).wrapping_sub(2),
        );
        rest /= 10;
    }
    line
}

/// 1 if the second number is greater, -1 if it is smaller, 0 if they are equal.
fn way(from: u32, to: u32) -> i8 {
    if from < to {
        1
    } else if to < from {
        -1
    } else {
        0
    }
}

/// Whether two parts of the line, each along an axis, have a place in common.
fn meet(one: [Place; 2], other: [Place; 2]) -> bool {
    let [(a, b), (c, d)] = one;
    let [(e, f), (g, h)] = other;
    a.min(c) <= e.max(g) && e.min(g) <= a.max(c) && b.min(d) <= f.max(h) && f.min(h) <= b.max(d)
}

/// The first condition broken by a line that is to turn to the left at each place. (Two parts that follow one another
/// at a right angle have only their end in common.)
fn plain_fault(line: [Place; 5]) -> Option<CheckFault> {
    let [a, b, c, d, e] = line;
    if line
        .iter()
        .any(|place| place.0 > 65_535 || place.1 > 65_535)
    {
        return Some(CheckFault::OutOfGrid);
    }
    let ways = [(a, b), (b, c), (c, d), (d, e)].map(|(p, q)| (way(p.0, q.0), way(p.1, q.1)));
    if ways.iter().any(|way| (way.0 == 0) == (way.1 == 0)) {
        return Some(CheckFault::NotAxis);
    }
    for turn in ways.windows(2) {
        if turn[1] != (turn[0].1.wrapping_neg(), turn[0].0) {
            return Some(CheckFault::WrongTurn);
        }
    }
    let meets = meet([a, b], [c, d]) || meet([a, b], [d, e]) || meet([b, c], [d, e]);
    meets.then_some(CheckFault::Meet)
}

/// The fault of a line, as the plain reading has it, of a path through the places and of an edge with corners there.
fn fault_of(rt: &impl Abort, alloc: Global, line: [Place; 5]) -> Option<CheckFault> {
    let fault = plain_fault(line);
    let path = faults_at(rt, alloc, &PATH, &line, &FOUR);
    same!(rt, path, Some([fault; 2]));
    let ends = [line[0], line[4]];
    let edge = faults_at(rt, alloc, &BENT_EDGE, &ends, &[&line[1..4]]);
    same!(rt, edge, Some([fault; 2]));
    fault
}

/// The place of an answer among those that are counted: no fault, and then fault by fault.
fn place_of(found: Option<CheckFault>) -> usize {
    match found {
        None => 0,
        Some(fault) => 1 + fault as usize,
    }
}

/// Each line has the fault that the plain reading finds.
/// How often each answer comes was counted by a program that lists all places of a line.
#[test]
fn lines_have_the_plain_fault(rt: HostRuntime) {
    let mut seen = [0u32; 6];
    for number in 0..10_000 {
        let found = fault_of(&rt, rt.alloc(), line_of(number));
        if let Some(times) = seen.get_mut(place_of(found)) {
            *times = times.wrapping_add(1);
        }
    }
    same!(&rt, seen, [28, 1775, 4756, 3405, 36, 0]);
}
