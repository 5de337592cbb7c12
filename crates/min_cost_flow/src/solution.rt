//! What a network has: a flow of least cost with potentials that show it, or no flow, which a set of nodes shows that
//! supplies more than the arcs out of it can carry (Gale 1957). Laws of flows are the contracts of functions that do
//! nothing. Buffers are reused by one call after another.
ghost use Rattle.std.specs.Prelude.{◌≡◌, ◌<◌, length, slice_index, IfOk, IfSome, IfNone, ℕ, Bool, ◌≢◌, ℤ, pos};
ghost use Rattle.min_cost_flow.specs.Flow.{SolvedModel, at_nodes, Flow, HasNoFlow, HasPotentials, IsLeastCost};
ghost use Rattle.min_cost_flow.specs.Networks.{HasEnds, NetworkModel, node_count};
ghost use Rattle.min_cost_flow.specs.Existence.{SuppliesSumToZero, HasUnlimitedPaths};
ghost use Rattle.min_cost_flow.specs.Overfull.{IsOverfull, is_in, was_reached};
ghost use Rattle.min_cost_flow.specs.Excess.{IsWithinCaps, HasExcess, HasNoAugmentingPath};

use crate::solver::Solver;
use crate::{FAR, Network, Visit};
use common::emptied;
use std::alloc::{AllocError, Global};
use std::marker::Model;

/// The buffers of a solve, reused for the next one. Their contents between two solves do not matter.
///
/// A solution takes two of the lists with it. If each solution is returned before the next solve, none allocates for a
/// network with no more nodes and no more arcs than one before it had; if one is not, the next solve allocates these
/// two lists alone.
#[derive(Drop)]
pub struct Scratch {
    pub(crate) solver: Solver,
    /// What each arc carries in the solution.
    pub(crate) flow: Vec<u32>,
}

impl Scratch {
    /// A scratch with empty lists. It allocates nothing.
    pub fn empty(alloc: Global) -> Scratch {
        Scratch {
            solver: Solver::empty(alloc),
            flow: Vec::new(alloc),
        }
    }
}

/// A flow of least cost, with potentials that prove it.
#[derive(Debug, Drop)]
pub struct Solved {
    flow: Vec<u32>,
    potential: Vec<i32>,
    searches: u32,
    looks: u64,
}

impl Model for Solved {
    ghost Value = { SolvedModel };

    ghost view = { λ s. record { flow = s.flow.items; potential = s.potential.items; searches = s.searches; looks = s.looks } };
}

impl Solved {
    /// The solution with these amounts by arc, these potentials by node, and these counts of searches and looks.
    /// Nothing is checked.
    pub(crate) fn new(flow: Vec<u32>, potential: Vec<i32>, searches: u32, looks: u64) -> Solved
        ensures { result ≡ record { flow = flow.items; potential = potential.items; searches = searches; looks = looks } }
    {
        Solved {
            flow,
            potential,
            searches,
            looks,
        }
    }

    /// Moves the two lists of this solution, amounts and potentials, to `scratch`, to be reused; the lists that were
    /// there are dropped. It allocates nothing.
    pub fn give_back(self, scratch: &mut Scratch) {
        scratch.flow = self.flow;
        scratch.solver.nodes.potential = self.potential;
    }

    /// The number of units that an arc carries.
    pub fn flow(&self, arc: u32) -> u32
        requires { arc < length self.now.flow }
        ensures { result ≡ slice_index self.now.flow arc }
    {
        self.flow[arc as usize]
    }

    /// The potential of a node.
    pub fn potential(&self, node: u32) -> i32
        requires { node < length self.now.potential }
        ensures { result ≡ at_nodes self.now.potential node }
    {
        self.potential[node as usize]
    }

    /// The potentials of all nodes, in the order of their numbers from 0, borrowed.
    pub fn potentials(&self) -> &[i32]
        ensures { result.now ≡ self.now.potential }
    {
        &self.potential
    }

    /// The number of searches for a path that found one; 0 in what `WarmStart::solved` returns.
    pub fn searches(&self) -> u32
        ensures { result ≡ self.now.searches }
    {
        self.searches
    }

    /// The number of times that the searches examined a residual arc; 0 in what `WarmStart::solved` returns.
    pub fn looks(&self) -> u64
        ensures { result ≡ self.now.looks }
    {
        self.looks
    }
}

/// Solves the network anew in `scratch`: `None` if it has a flow, else a new list with a mark for each node. If the
/// supplies sum to 0, the marked nodes supply more than the arcs out of their set can carry. `AllocError` if there is
/// no memory for `scratch` or the marks; `scratch` can be used again.
///
/// The marked nodes are those that a search without a path reached, from a node with an excess by unsaturated residual
/// arcs; without such a search none is marked. If the supplies do not sum to 0, nothing more is said of them.
///
/// # Errors
/// `AllocError` if an allocation was refused. All lists stay in the scratch, which can be used again.
pub fn overfull_in(
    alloc: Global,
    scratch: &mut Scratch,
    network: &Network,
) -> Result<Option<Vec<bool>>, AllocError>
    ensures size { IfOk result (λ found. IfSome found (λ marks. length marks.items ≡ node_count network.now)) }
    ensures overfull { IfOk result (λ found. IfSome found (λ marks. SuppliesSumToZero network.now → IsOverfull network.now (is_in marks.items))) }
    ensures none { IfOk result (λ found. IfNone found ((y : ℕ → ℕ) × Flow network.now y)) }
{
    let solver = &mut scratch.solver;
    solver.prepare(network)?;
    if solver.solve(network) {
        return Ok(None);
    }
    Ok(Some(marks_of_reached(alloc, &solver.visits)?))
}

/// A new list with a mark for each node: true if it has a label in `visits`, which only a search that found no path
/// leaves there. `AllocError` if there is no memory for the list.
fn marks_of_reached(alloc: Global, visits: &[Visit]) -> Result<Vec<bool>, AllocError>
    ensures size { IfOk result (λ marks. length marks.items ≡ length visits.now) }
    ensures each { IfOk result (λ marks. (v : ℕ) → v < length visits.now → is_in marks.items v ≡ was_reached visits.now v) }
{
    let mut marks = emptied(Vec::new(alloc), visits.len())?;
    for node in 0..visits.len() {
        marks.push(visits[node].label < FAR)?;
    }
    Ok(marks)
}

/// Theorem: a network has no flow if some set of its nodes supplies more than the arcs out of it can carry.
pub fn overfull_shows_no_flow()
    ensures { (net : NetworkModel) (s : ℕ → Bool) → HasEnds net → IsOverfull net s → HasNoFlow net }
{}

/// Theorem: a flow has least cost if under some potentials no unsaturated residual arc has a reduced cost below 0.
///
/// It then costs no more than any other flow.
pub fn potentials_show_least_cost()
    ensures { (net : NetworkModel) (x : ℕ → ℕ) (p : ℕ → ℤ) → HasEnds net → Flow net x → HasPotentials net x p → IsLeastCost net x }
{}

/// Theorem: if some node has an excess other than 0 and no residual path leads from an excess above 0 to a deficit, the
/// network has no flow.
///
/// The excesses are those that the amounts of all arcs leave at the nodes.
pub fn no_path_shows_no_flow()
    ensures { (net : NetworkModel) (x : ℕ → ℕ) (e : ℕ → ℤ) (u : ℕ) → HasEnds net → HasExcess net x e → HasNoAugmentingPath net x e → u < node_count net → e u ≢ pos 0 → HasNoFlow net }
{}

/// Theorem: if the supplies sum to 0 and paths of unlimited arcs lead from each node with an excess to each with a
/// deficit, there is a flow.
///
/// The excesses are those that amounts within the capacities leave.
pub fn unlimited_arcs_give_a_flow()
    ensures { (net : NetworkModel) (x : ℕ → ℕ) (e : ℕ → ℤ) → HasEnds net → SuppliesSumToZero net → IsWithinCaps net x → HasExcess net x e → HasUnlimitedPaths net e → (y : ℕ → ℕ) × Flow net y }
{}
