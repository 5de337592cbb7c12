//! Residual arcs: those of arc i have the numbers 2i, along it, and 2i + 1, back along it. Those that start at a node
//! are a linked list, from the one with the greatest number down. At first a network carries nothing.
ghost use Rattle.std.specs.Prelude.{◌≡◌, ◌<◌, ◌≤◌, ◌+◌, ◌-◌, ◌^◌, length, ℤ, pos, negsuc, ◌≤ℤ◌, ℕ, slice_set};
ghost use Rattle.min_cost_flow.specs.ResidualArcs.{reverse_of, start_at, capacity_at, IsRated, IsCosted, numbers, units_of, carried, IsLinked, AreResidualArcs};
ghost use Rattle.min_cost_flow.specs.Residuals.{HasNumber, IsSetTo, HasSizes, IsResidualNetwork, flow_of};
ghost use Rattle.min_cost_flow.specs.declared.residual_network.TheConstants.{MAX_RESIDUAL_ARCS};
ghost use Rattle.min_cost_flow.specs.Networks.{IsNetwork, node_count, arc_count, arc_at};

use crate::dijkstra::FAR;
use crate::network::{Cap, MAX_ARCS, MAX_NODES, Network};

/// The maximum number of residual arcs of a network: two for each arc.
pub const MAX_RESIDUAL_ARCS: usize = 2 * MAX_ARCS;

/// Stands for the number of a residual arc where there is none.
pub const NONE: u32 = u32::MAX;

/// The amount that is added to the cost of a residual arc while it is saturated: no label that such an arc offers is
/// below `FAR`, since labels are at least -3 * MAX_NODES and costs at least -1.
pub const SATURATED: i16 = FAR + 3 * MAX_NODES as i16 + 1;

/// A residual arc, as a search reads it; `SATURATED` is added to the cost if it is saturated.
#[derive(Clone, Copy, Debug, Default, PartialEq, Eq)]
pub struct ResidualArc {
    pub end: u16,
    pub cost: i16,
    /// The next residual arc that starts at the same node, or `NONE`.
    pub next: u32,
}

impl ResidualArc {
    /// A residual arc to node `end`, where a unit costs `cost`, followed by `next` in the list of its start. `capacity`
    /// is not stored: if it is 0, the arc is saturated, and `SATURATED` is added to its cost.
    pub(crate) fn new(end: u16, cost: i16, capacity: u32, next: u32) -> ResidualArc
        requires { cost ≤ℤ pos 1 }
        ensures end { result.end ≡ end }
        ensures cost { IsRated result.cost capacity cost }
        ensures next { result.next ≡ next }
    {
        ResidualArc {
            end,
            cost: if capacity == 0 {
                cost + SATURATED
            } else {
                cost
            },
            next,
        }
    }
}

/// The number of the reverse of a residual arc: 2i + 1 for 2i, and 2i for 2i + 1.
pub fn reverse(number: usize) -> usize
    ensures { result ≡ reverse_of number }
{
    number ^ 1
}

/// The residual arcs of a network under a flow.
#[derive(Drop)]
pub struct Residual {
    /// The first residual arc that starts at each node, or `NONE`.
    pub first: Vec<u32>,
    pub arcs: Vec<ResidualArc>,
    /// How many more units fit along each residual arc.
    pub capacities: Vec<u32>,
}

impl Residual {
    /// The node where residual arc `number` starts.
    pub fn start(&self, number: usize) -> usize
        requires { reverse_of number < length self.now.arcs.items }
        ensures { result ≡ start_at self.now.arcs.items number }
    {
        self.arcs[reverse(number)].end as usize
    }

    /// Lowers the capacity of residual arc `number` by `units`, at least 1 and at most all of it; if none is left, the
    /// arc is saturated, and `SATURATED` is added to its cost.
    pub fn take_capacity(&mut self, number: usize, units: u32)
        requires arc { HasNumber self.old number }
        requires cost { (z : ℤ) × (negsuc 0 ≤ℤ z) × (z ≤ℤ pos 1) × IsCosted self.old.arcs.items self.old.capacities.items number z }
        requires some { 0 < units }
        requires fits { units ≤ capacity_at self.old.capacities.items number }
        ensures { IsSetTo self.old self.new number (capacity_at self.old.capacities.items number - units) }
    {
        let capacity = &mut self.capacities[number];
        *capacity -= units;
        if *capacity == 0 {
            self.arcs[number].cost += SATURATED;
        }
    }

    /// Raises the capacity of residual arc `number` by `units`, at least 1; if it was saturated, `SATURATED` is taken
    /// off its cost.
    pub fn add_capacity(&mut self, number: usize, units: u32)
        requires arc { HasNumber self.old number }
        requires cost { (z : ℤ) × (negsuc 0 ≤ℤ z) × (z ≤ℤ pos 1) × IsCosted self.old.arcs.items self.old.capacities.items number z }
        requires some { 0 < units }
        requires few { capacity_at self.old.capacities.items number + units < 2 ^ 32 }
        ensures { IsSetTo self.old self.new number (capacity_at self.old.capacities.items number + units) }
    {
        let capacity = &mut self.capacities[number];
        let was_saturated = *capacity == 0;
        *capacity += units;
        if was_saturated {
            self.arcs[number].cost -= SATURATED;
        }
    }
}

/// The number that represents the capacity of an arc that carries any number of units.
pub(crate) const UNLIMITED: u32 = 1 << 30;

impl Residual {
    /// Overwrites this with the residual network of `network` under the zero flow, in lists that already have the
    /// lengths that it needs: one entry for each node in `first`, two for each arc in the others.
    ///
    /// It allocates nothing, and its time is linear.
    pub fn build(&mut self, network: &Network)
        requires network { IsNetwork network.now }
        requires sizes { HasSizes network.now self.old }
        ensures arcs_built { IsResidualNetwork network.now self.new }
        ensures none { (i : ℕ) → i < arc_count network.now → flow_of self.new i ≡ 0 }
    {
        self.first.fill(NONE);
        put_arcs(
            network,
            &mut self.first,
            &mut self.arcs,
            &mut self.capacities,
        );
    }
}

/// Writes the two residual arcs of each arc to `arcs` and their capacities under the zero flow to `capacities`, and
/// makes each the first in the list of the node where it starts; in `first` each entry must be `NONE` before.
fn put_arcs(network: &Network, first: &mut [u32], arcs: &mut [ResidualArc], capacities: &mut [u32])
    requires starts { length first.old ≡ node_count network.now }
    requires none { (v : ℕ) → v < length first.old → numbers first.old v ≡ NONE }
    requires arcs { length arcs.old ≡ arc_count network.now + arc_count network.now }
    requires capacities { length capacities.old ≡ arc_count network.now + arc_count network.now }
    ensures linked { IsLinked (node_count network.now) first.new arcs.new }
    ensures filled { AreResidualArcs network.now (capacity_at capacities.new) arcs.new }
    ensures none { (i : ℕ) → i < arc_count network.now → carried (capacity_at capacities.new) i ≡ 0 }
    ensures limits { (i : ℕ) → i < arc_count network.now → units_of (arc_at network.now i).cap < 2 ^ 32 }
{
    let given = network.arcs();
    for i in 0..given.len() {
        let arc = given[i];
        let fits = limit(arc.cap);
        let cost = arc.cost as i16;
        let after_along = push_front(first, arc.from, 2 * i);
        arcs[2 * i] = ResidualArc::new(arc.to as u16, cost, fits, after_along);
        let after_back = push_front(first, arc.to, 2 * i + 1);
        arcs[2 * i + 1] = ResidualArc::new(arc.from as u16, -cost, 0, after_back);
        capacities[2 * i] = fits;
        capacities[2 * i + 1] = 0;
    }
}

/// Makes residual arc `number` the first one of `node` in the list `first`, and returns the number that stood there, or
/// `NONE`. To store this as the new arc's next one is left to the caller.
fn push_front(first: &mut [u32], node: u32, number: usize) -> u32
    requires node { node < length first.old }
    requires number { number < MAX_RESIDUAL_ARCS }
    ensures next { result ≡ numbers first.old node }
    ensures pushed { first.new ≡ slice_set first.old node number }
{
    let v = node as usize;
    let next = first[v];
    first[v] = number as u32;
    next
}

/// A capacity as a number of units: that of `AtMost`, or `UNLIMITED` for `Any`.
fn limit(cap: Cap) -> u32
    ensures { result ≡ units_of cap }
{
    match cap {
        Cap::AtMost(limit) => limit,
        Cap::Any => UNLIMITED,
    }
}
