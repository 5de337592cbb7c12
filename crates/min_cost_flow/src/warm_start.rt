//! Sensitivity analysis (Ahuja, Magnanti and Orlin, Network Flows, 1993, section 9.11): as supplies move, successive
//! shortest paths (section 9.7) go on from the flow that is there, from the node that supplies more, under the current
//! potentials. A move is of at most 12,008 units. It takes as many searches as units at most and allocates nothing; if
//! it solves from nothing, it takes as long as that.
ghost use Rattle.std.specs.Prelude.{◌≡◌, ◌≢◌, ◌<◌, ◌≤◌, ◌+◌, ◌*◌, ℕ, length, pos, ◌≤ℤ◌, ◌+ℤ◌, ◌-ℤ◌, true, ◌^◌, IfOk, IfErr, IfSome, IfNone};
ghost use Rattle.min_cost_flow.specs.declared.network.TheConstants.{MAX_SUPPLY, MAX_NODES};
ghost use Rattle.min_cost_flow.specs.declared.warm_start.TheConstants.{MAX_CARRIED};
ghost use Rattle.min_cost_flow.specs.Networks.{NetworkModel, node_count, HasSuppliesInRange, shifted, arc_count, IsNetwork};
ghost use Rattle.min_cost_flow.specs.Flow.{at_nodes, HasNoFlow, Solves, cost_of};
ghost use Rattle.min_cost_flow.specs.ResidualArcs.{capacity_at, carried};
ghost use Rattle.min_cost_flow.specs.SolverState.{excess_at, IsReady, IsAllSent, IsVerdict, IsShown};

use crate::solution::Solved;
use crate::solver::{SolveFault, Solver, carried_by, has_deficit, read_flow};
use crate::{MAX_NODES, MAX_SUPPLY, Network, move_units};
use std::alloc::{AllocError, Global};
use std::marker::Model;

/// How many units an arc carries at most: as many as all nodes of a network can supply.
pub(crate) const MAX_CARRIED: u32 = MAX_NODES as u32 * MAX_SUPPLY;

impl Solver {
    /// Raises the supply of node `from` in `network` by `amount`, lowers that of `to` as much, and goes on from the
    /// current flow to one of least cost; returns whether there still is a flow. If not, `network` is changed all the
    /// same, and the solver holds no flow.
    ///
    /// If potentials have drifted too far apart, or an arc carries too much, it solves from nothing.
    pub(crate) fn resume(&mut self, network: &mut Network, from: u32, to: u32, amount: u32) -> bool
        requires all_sent { IsAllSent network.old self.old }
        requires from { from < node_count network.old }
        requires to { to < node_count network.old }
        requires few { amount ≤ MAX_SUPPLY }
        requires in_range { HasSuppliesInRange (shifted network.old from to amount) }
        ensures network { network.new ≡ shifted network.old from to amount }
        ensures answer { IsVerdict network.new self.new result }
    {
        network.shift(from, to, amount);
        if !can_carry_more(&self.residual.capacities, amount) {
            return self.solve(network);
        }
        if !rebase(&mut self.nodes.potential, to as usize) {
            return self.solve(network);
        }
        move_units(&mut self.nodes.excess, from, to, amount);
        self.resend(from as usize)
    }

    /// Sends the whole excess of `root`, the only node that may have one, to nodes with a deficit; returns whether
    /// neither an excess nor a deficit is left. If it searches, `looks` then counts the last search alone; `searches`
    /// stays as it is.
    fn resend(&mut self, root: usize) -> bool
        requires ready { (net : NetworkModel) × IsReady net self.old }
        requires root { root < length self.old.nodes.excess.items }
        requires others { (v : ℕ) → v < length self.old.nodes.excess.items → v ≢ root → excess_at self.old v ≤ℤ pos 0 }
        ensures { (net : NetworkModel) → IsReady net self.old → IsVerdict net self.new result }
    {
        'units: while self.nodes.excess[root] > 0 {
            self.looks = 0;
            if !self.augment_once(root) {
                return false;
            }
        }
        !has_deficit(&self.nodes.excess)
    }
}

/// Whether each arc would carry at most [`MAX_CARRIED`] units with `amount` more than it carries by `capacities`, those
/// of the residual arcs.
fn can_carry_more(capacities: &[u32], amount: u32) -> bool
    requires { amount ≤ MAX_SUPPLY }
    ensures { result ≡ true → (i : ℕ) → 2 * i + 1 < length capacities.now → carried (capacity_at capacities.now) i + amount ≤ MAX_CARRIED }
{
    let most = MAX_CARRIED - amount;
    for i in 0..capacities.len() / 2 {
        if carried_by(capacities, i) > most {
            return false;
        }
    }
    true
}

/// Lowers all entries of `potential` by that of `node`, which becomes 0; returns whether all are then at most twice the
/// number of nodes in absolute value. They are lowered in either case.
fn rebase(potential: &mut [i32], node: usize) -> bool
    requires node { node < length potential.old }
    requires small { length potential.old ≤ MAX_NODES }
    requires low { (v : ℕ) → v < length potential.old → ((pos 0 -ℤ pos (2 * MAX_NODES)) ≤ℤ at_nodes potential.old v) × (at_nodes potential.old v ≤ℤ pos (2 * MAX_NODES)) }
    ensures moved { (v : ℕ) → v < length potential.new → at_nodes potential.new v ≡ at_nodes potential.old v -ℤ at_nodes potential.old node }
    ensures low { result ≡ true → (v : ℕ) → v < length potential.new → (pos 0 ≤ℤ (at_nodes potential.new v +ℤ pos (2 * length potential.old))) × (at_nodes potential.new v ≤ℤ pos (2 * length potential.old)) }
{
    let base = potential[node];
    lower_all(potential, base);
    are_in_bounds(potential)
}

/// Lowers each entry of `potential` by `base`; if `base` is below 0, they rise.
fn lower_all(potential: &mut [i32], base: i32)
    requires low { (v : ℕ) → v < length potential.old → ((pos 0 -ℤ pos (2 * MAX_NODES)) ≤ℤ at_nodes potential.old v) × (at_nodes potential.old v ≤ℤ pos (2 * MAX_NODES)) }
    requires base { ((pos 0 -ℤ pos (2 * MAX_NODES)) ≤ℤ base) × (base ≤ℤ pos (2 * MAX_NODES)) }
    ensures { (v : ℕ) → v < length potential.new → at_nodes potential.new v ≡ at_nodes potential.old v -ℤ base }
{
    for at_node in potential.iter_mut() {
        *at_node -= base;
    }
}

/// Whether all entries of `potential`, one for each node, are at most twice the number of nodes in absolute value.
fn are_in_bounds(potential: &[i32]) -> bool
    requires small { length potential.now ≤ MAX_NODES }
    ensures { result ≡ true → (v : ℕ) → v < length potential.now → (pos 0 ≤ℤ (at_nodes potential.now v +ℤ pos (2 * length potential.now))) × (at_nodes potential.now v ≤ℤ pos (2 * length potential.now)) }
{
    let limit = 2 * potential.len() as i32;
    let low = -limit;
    !potential
        .iter()
        .any(|at_node| *at_node < low || *at_node > limit)
}

/// A flow of least cost in a network of its own, which is updated as supplies move.
#[derive(Drop)]
pub struct WarmStart {
    network: Network,
    solver: Solver,
}

impl Model for WarmStart {
    ghost Value = { NetworkModel };

    ghost view = { λ s. s.network };

    ghost invariant = { λ s. IsAllSent s.network s.solver };
}

impl WarmStart {
    /// A flow of least cost in a copy of a network, which later calls of `shift` update. `Infeasible` if there is no
    /// flow, `Memory` if there is no memory.
    ///
    /// # Errors
    /// `Infeasible` exactly if there is no flow, memory aside, and `Memory` if an allocation was refused.
    pub fn new(alloc: Global, network: &Network) -> Result<WarmStart, SolveFault>
        ensures net { IfOk result (λ s. s ≡ network.now) }
        ensures infeasible { IfErr result (λ fault. fault ≡ SolveFault.Infeasible → HasNoFlow network.now) }
    {
        let network = network.copy()?;
        let mut solver = Solver::empty(alloc);
        solver.prepare(&network)?;
        if !solver.solve(&network) {
            return Err(SolveFault::Infeasible);
        }
        Ok(WarmStart { network, solver })
    }

    /// Raises the supply of node `from` by `amount`, lowers that of `to` as much, and returns this with its flow
    /// updated to least cost; `None` if there is no flow any more, and network and flow are then dropped.
    ///
    /// If there is none, the old one is gone too. It allocates nothing.
    pub fn shift(self, from: u32, to: u32, amount: u32) -> Option<WarmStart>
        requires from { from < node_count self }
        requires to { to < node_count self }
        requires few { amount ≤ MAX_SUPPLY }
        requires in_range { HasSuppliesInRange (shifted self from to amount) }
        ensures net { IfSome result (λ s. s ≡ shifted self from to amount) }
        ensures no_flow { IfNone result (HasNoFlow (shifted self from to amount)) }
    {
        let WarmStart { network, solver } = self;
        let (mut network, mut solver) = (network, solver);
        if !solver.resume(&mut network, from, to, amount) {
            return None;
        }
        Some(WarmStart { network, solver })
    }

    /// Its copy of the network, with the current supplies, borrowed.
    pub fn network(&self) -> &Network
        ensures { result.now ≡ self.now }
    {
        &self.network
    }

    /// A copy of the flow and its potentials, whose counts of searches and looks are 0. `AllocError` if there is no
    /// memory for the two lists.
    ///
    /// # Errors
    /// `AllocError` if there is no memory for them.
    pub fn solved(&self, alloc: Global) -> Result<Solved, AllocError>
        ensures solves { IfOk result (λ solved. Solves self.now solved) }
        ensures work { IfOk result (λ solved. (solved.searches ≡ 0) × (solved.looks ≡ 0)) }
    {
        let mut flow = Vec::new(alloc);
        flow.resize(self.network.arc_count(), 0)?;
        read_flow(&self.solver.residual.capacities, &mut flow);
        let potential = Vec::from_slice(alloc, &self.solver.nodes.potential)?;
        Ok(Solved::new(flow, potential, 0, 0))
    }

    /// The cost of the flow, and its potentials by node, borrowed. It allocates nothing; linear in the arcs.
    pub fn least_cost(&self) -> (u64, &[i32])
        ensures shown { IsShown self.now result.0 result.1.now }
        ensures few { result.0 < 2 ^ 48 }
    {
        // Only the proof needs this: `node_count` says that the network is one.
        let _nodes = self.network.node_count();
        let cost = flow_cost(&self.network, &self.solver.residual.capacities);
        (cost, &self.solver.nodes.potential)
    }
}

/// The cost of the flow that the residual arcs with these capacities show: the total number of units that the arcs of
/// cost 1 carry.
fn flow_cost(network: &Network, capacities: &[u32]) -> u64
    requires { arc_count network.now + arc_count network.now ≤ length capacities.now }
    ensures cost { result ≡ cost_of network.now (carried (capacity_at capacities.now)) }
    ensures few { result < 2 ^ 48 }
{
    let mut cost = 0;
    let given = network.arcs();
    for i in 0..given.len() {
        if given[i].cost == 1 {
            cost += u64::from(carried_by(capacities, i));
        }
    }
    cost
}
