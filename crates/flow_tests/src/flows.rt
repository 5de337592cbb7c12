//! Tests of what no clause says: that calls succeed if there is enough memory, and that the least costs are those that
//! other solvers found.
ghost use Rattle.std.specs.Prelude.{◌<◌};
ghost use Rattle.min_cost_flow.specs.Flow.{Solves};

use crate::plain;
use min_cost_flow::{Arc, Cap, NetFault, Network, SolveFault, Solved, solve};
use std::alloc::Global;
use std::process::Abort;
use test_tools::{Random, same};

/// The network of supplies and arcs given as `(from, to, cap, cost)`.
pub(crate) fn network(
    rt: &impl Abort,
    alloc: Global,
    supplies: &[i32],
    arcs: &[(u32, u32, Cap, u32)],
) -> Result<Network, NetFault> {
    let mut list = Vec::new(alloc);
    for (from, to, cap, cost) in arcs {
        let arc = Arc {
            from: *from,
            to: *to,
            cap: *cap,
            cost: *cost,
        };
        list.push(arc).expect(rt, "memory");
    }
    let supplies = supplies.to_vec(alloc).expect(rt, "memory");
    Network::new(supplies, list)
}

/// The least cost of a flow as the solver finds it, or the reason why there is no flow.
fn least_cost(alloc: Global, network: &Network) -> Result<u64, SolveFault> {
    match solve(alloc, network) {
        Ok(solved) => Ok(cost_of(network, &solved)),
        Err(fault) => Err(fault),
    }
}

/// The cost of a solution.
pub(crate) fn cost_of(network: &Network, solved: &Solved) -> u64
    requires { Solves network.now solved.now }
{
    let mut total = 0u64;
    for i in 0..network.arc_count() {
        let units = u64::from(solved.flow(i as u32));
        if network.arcs()[i].cost == 1 {
            total = total.saturating_add(units);
        }
    }
    total
}

/// Each of three arcs carries one unit, no potential of the three nodes is above 0, and the solver took 2 searches and
/// 6 looks.
fn expect_free_way(rt: &impl Abort, network: &Network, solved: &Solved)
    requires { Solves network.now solved.now }
{
    same!(rt, (network.arc_count(), network.node_count()), (3, 3));
    for arc in 0..network.arc_count() {
        same!(rt, (arc, solved.flow(arc as u32)), (arc, 1));
    }
    for node in 0..network.node_count() {
        let potential = solved.potential(node as u32);
        same!(rt, (node, potential.max(0)), (node, 0));
    }
    same!(rt, (solved.searches(), solved.looks()), (2, 6));
}

/// Arcs of three nodes: an expensive one from the first to the last, and a free way for one unit.
pub(crate) const FREE_WAY: [(u32, u32, Cap, u32); 3] = [
    (0, 2, Cap::Any, 1),
    (0, 1, Cap::AtMost(1), 0),
    (1, 2, Cap::Any, 0),
];

/// Units take arcs without cost before the expensive one.
#[test]
fn units_take_the_free_way_first(rt: HostRuntime) {
    let network = network(&rt, rt.alloc(), &[2, 0, -2], &FREE_WAY).expect(&rt, "a network");
    let solved = solve(rt.alloc(), &network).expect(&rt, "a flow");
    expect_free_way(&rt, &network, &solved);
}

/// A network with this many units at one node, 1,000 at most, which go through a second one and from there by an arc
/// each to as many others. Every second arc is expensive.
fn fountain(rt: &impl Abort, alloc: Global, units: u32) -> Network {
    let units = units.min(1000);
    let mut supplies = vec![in alloc; -1i32; units as usize + 2].expect(rt, "memory");
    supplies[0] = units as i32;
    supplies[1] = 0;
    let mut arcs = Vec::new(alloc);
    arcs.push((0, 1, Cap::Any, 0)).expect(rt, "memory");
    for end in 2..units + 2 {
        let pushed = arcs.push((1, end, Cap::AtMost(1), end % 2));
        pushed.expect(rt, "memory");
    }
    network(rt, alloc, &supplies, &arcs).expect(rt, "a network")
}

/// The numbers of searches and looks that the solver takes.
fn work_of(rt: &impl Abort, alloc: Global, network: &Network) -> (u32, u64) {
    let solved = solve(alloc, network).expect(rt, "a flow");
    (solved.searches(), solved.looks())
}

/// The number of looks is exactly the one counted by hand.
/// Each search finds one unit's end. It scans the first node, which has one residual arc, and the second one, which has
/// one for each unit and one back. In all it looks at two more than there are units, whichever end it finds.
#[test]
fn looks_are_told_exactly(rt: HostRuntime) {
    for (units, looks) in [(1, 3), (9, 99), (10, 120), (300, 90_600), (1000, 1_002_000)] {
        let network = fountain(&rt, rt.alloc(), units);
        same!(&rt, work_of(&rt, rt.alloc(), &network), (units, looks));
    }
}

/// Of two nodes equally near to the first one, the one with the lesser score is found: only the first node leads to it.
/// The first search therefore looks at two residual arcs, and that of the second node at one. Had it found the other
/// one, the second search would have to go back along its unit, and look at five.
#[test]
fn the_least_score_is_found(rt: HostRuntime) {
    for (first, second) in [(2, 3), (3, 2)] {
        let arcs = [
            (0, first, Cap::Any, 0),
            (0, second, Cap::Any, 0),
            (1, 2, Cap::Any, 0),
        ];
        let network = network(&rt, rt.alloc(), &[1, 1, -1, -1], &arcs);
        let network = network.expect(&rt, "a network");
        same!(&rt, work_of(&rt, rt.alloc(), &network), (2, 3));
    }
}

/// The answer for a network without a flow.
const NONE: Result<u64, SolveFault> = Err(SolveFault::Infeasible);

/// Supplies, arcs, and the least cost, or that there is no flow.
const COSTS: [(&[i32], &[(u32, u32, Cap, u32)], Result<u64, SolveFault>); 13] = [
    (&[1, -1], &[], NONE),
    (&[1, 0], &[(0, 1, Cap::Any, 0)], NONE),
    (&[0, -1], &[(0, 1, Cap::Any, 0)], NONE),
    (&[1, -2], &[(0, 1, Cap::Any, 0)], NONE),
    (&[1, -1], &[(1, 0, Cap::Any, 0)], NONE),
    (&[1, -1], &[(0, 1, Cap::AtMost(0), 0)], NONE),
    (&[1], &[(0, 0, Cap::Any, 1)], NONE),
    (&[2, 0, -2], &FREE_WAY, Ok(1)),
    (&[], &[], Ok(0)),
    (&[0, 0], &[], Ok(0)),
    (
        &[1, -1],
        &[(0, 0, Cap::Any, 1), (0, 1, Cap::AtMost(2), 0)],
        Ok(0),
    ),
    (
        &[5, -5],
        &[
            (0, 1, Cap::AtMost(2), 0),
            (0, 1, Cap::Any, 1),
            (0, 1, Cap::AtMost(1), 0),
        ],
        Ok(2),
    ),
    (&[12_008, -12_008], &[(0, 1, Cap::Any, 1)], Ok(12_008)),
];

/// The least costs of small networks are those found by hand, also with unusual arcs.
#[test]
fn special_arcs_serve(rt: HostRuntime) {
    for (supplies, arcs, expected) in COSTS {
        let network = network(&rt, rt.alloc(), supplies, arcs).expect(&rt, "a network");
        same!(&rt, least_cost(rt.alloc(), &network), expected);
    }
}

/// A chain of nodes, this many steps long, at most 3,000: these arcs, given as `(cap, cost)`, lead from each node to the
/// next, and 12,008 units go from the first to the last.
fn chain(
    rt: &impl Abort,
    alloc: Global,
    steps: u32,
    links: &[(Cap, u32)],
) -> Result<Network, NetFault> {
    let steps = steps.min(3000);
    let mut supplies = vec![in alloc; 0i32; steps as usize + 1].expect(rt, "memory");
    supplies[0] = 12_008;
    supplies[steps as usize] = -12_008;
    let mut arcs = Vec::new(alloc);
    for start in 0..steps {
        for (cap, cost) in links {
            let pushed = arcs.push((start, start + 1, *cap, *cost));
            pushed.expect(rt, "memory");
        }
    }
    network(rt, alloc, &supplies, &arcs)
}

/// Four arcs for a quarter of the units each; two of them are free.
const QUARTERS: [(Cap, u32); 4] = [
    (Cap::AtMost(3002), 1),
    (Cap::AtMost(3002), 0),
    (Cap::AtMost(3002), 0),
    (Cap::AtMost(3002), 1),
];

/// As many nodes, arcs and units as there may be have the least costs found by hand: 2,401 steps at 12,008 each, and
/// 2,400 steps at 6,004 each.
#[test]
fn networks_of_the_maximum_size_serve(rt: HostRuntime) {
    let wide = chain(&rt, rt.alloc(), 2401, &[(Cap::Any, 1)]).expect(&rt, "a network");
    let found = (wide.node_count(), least_cost(rt.alloc(), &wide));
    same!(&rt, found, (2402, Ok(28_831_208)));
    let dense = chain(&rt, rt.alloc(), 2400, &QUARTERS).expect(&rt, "a network");
    let found = (dense.arc_count(), least_cost(rt.alloc(), &dense));
    same!(&rt, found, (9600, Ok(14_409_600)));
}

/// A network with one node or one arc more than there may be is refused.
#[test]
fn larger_networks_are_refused(rt: HostRuntime) {
    let wide = chain(&rt, rt.alloc(), 2402, &[(Cap::Any, 1)]);
    same!(&rt, wide.err(), Some(NetFault::TooLarge));
    for (count, fault) in [(9600, None), (9601, Some(NetFault::TooLarge))] {
        let loops = vec![in rt.alloc(); (0u32, 0u32, Cap::Any, 0u32); count];
        let dense = network(&rt, rt.alloc(), &[0], &loops.expect(&rt, "memory"));
        same!(&rt, dense.err(), fault);
    }
}

/// Supplies and an arc, and the first fault that they have.
const FAULTS: [(&[i32], (u32, u32, Cap, u32), NetFault); 4] = [
    (&[0; 2403], (0, 3000, Cap::Any, 0), NetFault::TooLarge),
    (&[12_009, -12_009], (0, 2, Cap::Any, 0), NetFault::BadEnd),
    (&[12_009, -12_009], (0, 1, Cap::Any, 2), NetFault::BadSupply),
    (&[12_008, -12_008], (0, 1, Cap::Any, 2), NetFault::BadCost),
];

/// A network with several faults is refused with the first one.
#[test]
fn the_first_fault_is_named(rt: HostRuntime) {
    for (supplies, arc, expected) in FAULTS {
        let fault = network(&rt, rt.alloc(), supplies, &[arc]).err();
        same!(&rt, fault, Some(expected));
    }
}

/// The faults of networks and solutions have their messages.
#[test]
fn faults_say_what_is_wrong(rt: HostRuntime) {
    let text = format!(in rt.alloc(); "{}, {}", NetFault::BadEnd, SolveFault::Memory);
    let want = "arc endpoint out of range, out of memory";
    same!(&rt, text.expect(&rt, "memory").as_str(), want);
}

/// The next random number below `bound`.
fn below(random: &mut Random, bound: u32) -> u32
    requires { 0 < bound }
    ensures { result < bound }
{
    random.below(u64::from(bound)) as u32
}

/// The supplies of the next random network with this many nodes.
fn random_supplies(rt: &impl Abort, alloc: Global, random: &mut Random, nodes: u32) -> Vec<i32>
    requires { 1 < nodes }
{
    let mut supplies = vec![in alloc; 0i32; nodes as usize].expect(rt, "memory");
    for _ in 0..1 + below(random, 5) {
        let units = 1 + below(random, 3) as i32;
        let start = below(random, nodes) as usize;
        supplies[start] = supplies[start].saturating_add(units);
        let end = below(random, nodes) as usize;
        supplies[end] = supplies[end].saturating_sub(units);
    }
    if below(random, 16) == 0 {
        supplies[0] = supplies[0].saturating_add(1);
    }
    supplies
}

/// The next of the random networks, made as `bench/outside/lemon.cc` makes it.
pub(crate) fn random_network(rt: &impl Abort, alloc: Global, random: &mut Random) -> Network {
    let nodes = 2 + below(random, 7);
    let supplies = random_supplies(rt, alloc, random, nodes);
    let mut arcs = Vec::new(alloc);
    for _ in 0..2 * nodes + below(random, 3 * nodes) {
        arcs.push(random_arc(random, nodes)).expect(rt, "memory");
    }
    Network::new(supplies, arcs).expect(rt, "a network")
}

/// An arc between random nodes.
fn random_arc(random: &mut Random, nodes: u32) -> Arc
    requires { 0 < nodes }
{
    let from = below(random, nodes);
    let to = below(random, nodes);
    let limit = below(random, 9);
    let cap = if limit < 6 {
        Cap::AtMost(limit)
    } else {
        Cap::Any
    };
    let cost = below(random, 4).min(1);
    Arc {
        from,
        to,
        cap,
        cost,
    }
}

/// Checks that a random network has the least cost that is expected, or no flow, and that the slow solver agrees.
fn expect_random(
    rt: &impl Abort,
    alloc: Global,
    network: &Network,
    count: u32,
    expected: Option<u64>,
) {
    let found = least_cost(alloc, network);
    let slow = plain::least_cost(rt, alloc, network);
    let due = expected.ok_or(SolveFault::Infeasible);
    same!(rt, (count, found, slow), (count, due, expected));
}

/// The least costs of random networks are those that other solvers found.
#[test]
fn random_networks_cost_what_other_solvers_found(rt: HostRuntime) {
    let mut random = Random { state: 20_261_122 };
    let mut count = 0u32;
    for word in LEAST_COSTS.split_whitespace() {
        let network = random_network(&rt, rt.alloc(), &mut random);
        let expected = word.parse::<u64>().ok();
        expect_random(&rt, rt.alloc(), &network, count, expected);
        count = count.saturating_add(1);
    }
    same!(&rt, count, 1000);
}

/// The least costs that networkx and LEMON found, `-` if there is no flow (`checks/drawings networks`).
const LEAST_COSTS: &str = "\
    - 7 9 7 6 5 10 2 0 - 1 4 4 - - 2 0 - 2 - 2 - 2 - 3 2 2 1 - - - - 0 - - - 2 - 12 - 0 4 0 - 1 \
    1 - - - - - 2 4 0 14 14 4 - 6 - - - 10 - 0 5 2 - 1 - 5 - 10 2 0 7 - - - 3 - 0 - 4 - 3 3 5 4 \
    0 - 6 - 2 - - 2 - - - - 0 0 - 4 - 1 2 0 - 0 4 0 0 0 - 8 - 0 - 2 0 - - - 1 - 17 2 8 0 3 0 6 1 \
    1 - - 3 1 - 2 - - 2 - 2 3 0 - 0 6 4 - 1 5 5 - - 3 - - 0 0 0 4 0 0 0 8 - 0 6 0 3 0 0 1 1 6 - \
    - 5 - 0 2 8 1 3 - - - - - - 0 - 0 - 0 - 0 8 0 - - 3 1 5 2 - 2 6 3 2 3 - 2 1 - - 4 0 - 0 - 2 \
    1 3 - 2 - 2 0 - - 9 0 - 4 0 - 2 - 6 8 0 0 - 1 4 - 1 2 - 3 0 - 7 1 0 - - 2 - 1 2 - 0 2 4 0 0 \
    3 - 5 - - - - 3 0 0 - 6 4 0 - - 1 1 1 3 1 - - - 3 - 0 - - 0 3 0 - 1 0 - 4 1 1 1 5 7 - 0 10 0 \
    0 - - - 6 - 3 - 5 - - 0 2 4 8 - 0 6 9 - 4 - - 0 3 - - - 7 2 - 2 - 2 4 - - - 0 2 - 4 2 6 - 4 \
    5 0 - 0 2 0 - - 6 1 - 5 - - - 1 0 - 4 5 0 0 0 - 4 2 2 - 2 2 - - - 2 0 - - 0 - 1 11 4 2 0 0 1 \
    - - 9 - 10 0 1 3 1 - 3 - 6 - - - - - 0 4 1 4 - 1 1 - 3 0 - 1 - - 2 3 0 0 2 6 - - 3 - - 3 3 3 \
    - 0 - 2 - 0 0 - 2 1 - - - - 0 - - - - 1 1 - - 1 7 2 0 - 4 3 - 0 1 2 0 - 0 - 2 - 0 1 7 3 - 0 \
    1 - 0 1 8 - - - - - - 0 4 - 3 2 0 - - 1 1 0 - 2 - - 9 11 - - 7 3 3 - - 3 0 2 5 5 3 0 2 10 7 \
    1 5 6 3 9 - 0 0 - 2 0 1 - - - - 9 - - 3 6 11 - - 2 4 - 2 3 - 2 0 5 3 - 4 - - - 4 2 1 - - 6 2 \
    6 0 5 1 0 7 2 - 7 0 - - 0 2 0 7 - 0 - 1 3 - 7 2 5 1 - 0 8 1 - 0 7 1 1 6 0 5 1 0 6 1 - - - - \
    - - 0 - - - - 6 0 6 - - 5 - 2 8 1 3 1 0 - - 0 - 0 - 3 1 - 0 - - - - - 2 - - 18 - - 12 6 - 3 \
    - 3 2 - 0 1 - 5 - - - 3 - 0 - - 0 0 8 4 1 0 7 5 6 - 0 1 3 - - 5 4 8 9 - 3 2 5 - - 7 - 8 5 - \
    - 0 - - 3 - 7 - 3 0 - 3 5 - - - 0 0 - - 5 - 3 3 10 - - - 0 1 1 - - - 0 0 2 - - 2 3 0 8 - 0 4 \
    1 1 - 0 7 5 0 2 - 1 0 2 0 - 1 4 3 3 5 2 - - 0 0 6 5 5 4 7 2 - - - 1 1 3 2 0 6 3 0 5 0 1 - 0 \
    0 - - - 6 3 4 - 4 5 3 2 2 - - - 4 2 - 2 2 - 0 0 2 5 - 2 0 8 - - 4 0 - 1 3 1 4 0 - - 0 - 5 2 \
    1 2 - - - 0 2 2 5 5 0 - 0 - 3 3 0 - 11 7 2 1 - 0 5 2 1 1 0 8 4 - 4 - 2 1 2 2 15 2 1 16 3 6 4 \
    - 0 2 - 0 3 2 - - 1 - 7 0 - 4 - 2 2 9 - - 1 1 - - 2 4 2 0 0 0 3 - - 0 - 1 0 - - 0 1 - 4 0 - \
    2 - - 7 - 0 7 0 7 - 4 6 4 1 - 8 - 13 - - 2 12 1 0 0 - - 3 9 0 4 - - 0 0 0 0 - - 9 \
    ";
