//! Successive shortest paths (Ahuja, Magnanti and Orlin, Network Flows, 1993, section 9.7). Networks have at most 2,402
//! nodes and 9,600 arcs of cost 0 or 1, and nodes supply or want at most 12,008 units. Each search looks at each
//! residual arc once at most and sends as many units as fit along its path, one at least, but no more than the excess
//! where it starts or the deficit where it ends. Potentials stay then: along the path reduced costs are 0, so the
//! residual arcs back, which get capacity, have reduced costs of 0 too.
ghost use Rattle.std.specs.Prelude.{OnOk, ◌≡◌, ◌≢◌, ◌<◌, ◌≤◌, ◌+◌, ◌*◌, ◌^◌, ℕ, length, pos, ◌≤ℤ◌, ◌<ℤ◌, ◌+ℤ◌, ◌-ℤ◌, IfOk, IfErr, true, false, IfSome, IfNone};
ghost use Rattle.min_cost_flow.specs.SolverState.{IsSized, excess_at, potential_at, flow_in, IsReady, IsBetweenSearches, IsVerdict, HasSentFrom, IsAugmented, CanUpdate, HasReachedOrder, IsCleared, IsReadyIn, CanAugmentIn, CanAugment, IsSentAlong, IsBottleneck, IsPaired, IsPushedAlong};
ghost use Rattle.min_cost_flow.specs.declared.network.TheConstants.{MAX_NODES};
ghost use Rattle.min_cost_flow.specs.declared.solver.SolveFault.TheVariants.{Memory};
ghost use Rattle.min_cost_flow.specs.Networks.{NetworkModel, arc_count, node_count, IsNetwork};
ghost use Rattle.min_cost_flow.specs.Flow.{amounts, at_nodes, HasNoFlow, Solves};
ghost use Rattle.min_cost_flow.specs.ResidualArcs.{start_at, capacity_at, carried};
ghost use Rattle.min_cost_flow.specs.Search.{far, labels, orders, label_at, IsPut, IsWithinFar, place_at};
ghost use Rattle.min_cost_flow.specs.Existence.{SuppliesSumToZero};
ghost use Rattle.min_cost_flow.specs.Overfull.{IsOverfull, HasStopped, was_reached};
ghost use Rattle.min_cost_flow.specs.Round.{carrying, supply_sum, IsRoundDone, HasSupply, AreInBounds};

use crate::solution::{Scratch, Solved};
use crate::{FAR, Network, Residual, ResidualArc, Search, SearchInput, Visit, move_units, reverse};
use std::alloc::{AllocError, Global};
use std::mem;
use thiserror::Error;

/// The state of each node of a network.
#[derive(Drop)]
pub struct Nodes {
    /// Under these no unsaturated residual arc has a reduced cost below 0, and at a deficit they are 0.
    pub potential: Vec<i32>,
    /// How many units a node still has to send; below 0, its deficit.
    pub excess: Vec<i32>,
    /// Of nodes at the same distance the one with the least score is taken.
    pub score: Vec<i32>,
}

/// The state of a solver: the residual network, the state of each node, and the results of the last search.
///
/// The latter include the residual arc that the search found. It also counts the work done since the solver began:
/// searches, and looks at residual arcs in them. If it goes on after a move, no searches are counted, and only the
/// looks of the last one.
#[derive(Drop)]
pub struct Solver {
    pub residual: Residual,
    pub nodes: Nodes,
    pub visits: Vec<Visit>,
    pub found: usize,
    pub searches: u32,
    pub looks: u64,
}

impl Solver {
    /// A solver with empty lists. It allocates nothing.
    pub(crate) fn empty(alloc: Global) -> Solver {
        Solver {
            residual: Residual {
                first: Vec::new(alloc),
                arcs: Vec::new(alloc),
                capacities: Vec::new(alloc),
            },
            nodes: Nodes {
                potential: Vec::new(alloc),
                excess: Vec::new(alloc),
                score: Vec::new(alloc),
            },
            visits: Vec::new(alloc),
            found: 0,
            searches: 0,
            looks: 0,
        }
    }

    /// Gives each list the length that `network` needs, and removes the labels of all nodes; what else the lists
    /// contain does not matter. `AllocError` if there is no memory; some lists then lack that length, and none is lost.
    pub(crate) fn prepare(&mut self, network: &Network) -> Result<(), AllocError>
        ensures { OnOk result (IsSized network.now self.new) }
    {
        let nodes = network.node_count();
        let arcs = network.arc_count();
        let unvisited = Visit {
            label: FAR,
            predecessor: 0,
            place: 0,
            at_place: 0,
        };
        self.residual.first.resize(nodes, 0)?;
        self.residual.arcs.resize(2 * arcs, ResidualArc::default())?;
        self.residual.capacities.resize(2 * arcs, 0)?;
        self.nodes.potential.resize(nodes, 0)?;
        self.nodes.excess.resize(nodes, 0)?;
        self.nodes.score.resize(nodes, 0)?;
        self.visits.clear();
        self.visits.resize(nodes, unvisited)
    }
}

impl Solver {
    /// Finds a flow of least cost, from the zero flow on, in lists that `prepare` has sized for `network`; returns
    /// whether there is a flow. If so, `residual` holds the flow and `nodes` its potentials; if not, what was sent
    /// stays there, and `visits` keeps the labels of a search that found no path, if there was one.
    pub(crate) fn solve(&mut self, network: &Network) -> bool
        requires { IsSized network.now self.old }
        ensures done { result ≡ true → IsRoundDone network.now (flow_in self.new) (potential_at self.new) self.new.searches self.new.looks }
        ensures answer { IsVerdict network.now self.new result }
        ensures visits { length self.new.visits.items ≡ node_count network.now }
        ensures overfull { result ≡ false → SuppliesSumToZero network.now → IsOverfull network.now (was_reached self.new.visits.items) }
    {
        self.initialise(network);
        for root in 0..self.nodes.excess.len() {
            if !self.send_all_from(root) {
                return false;
            }
        }
        !has_deficit(&self.nodes.excess)
    }

    /// Resets this to the zero flow of a network, in lists that `prepare` has sized for it: all potentials are 0, the
    /// excesses are the supplies, nodes are scored, and no work is counted. `visits` stays as it is.
    fn initialise(&mut self, network: &Network)
        requires { IsSized network.now self.old }
        ensures { IsBetweenSearches network.now self.new }
    {
        write_all(&mut self.nodes.potential, 0);
        self.nodes.excess.copy_from_slice(network.supplies());
        self.residual.build(network);
        score_nodes(network, &mut self.nodes.score);
        self.searches = 0;
        self.looks = 0;
    }

    /// Sends the whole excess of node `root`, if it has one, to nodes with a deficit; updates the potentials, `looks`,
    /// and `searches`, the number of paths. Returns whether all of it could be sent; if not, what was sent stays, and
    /// `visits` has the last search's labels.
    fn send_all_from(&mut self, root: usize) -> bool
        requires between_searches { (net : NetworkModel) × IsBetweenSearches net self.old }
        requires root { root < length self.old.nodes.excess.items }
        ensures sent { result ≡ true → (net : NetworkModel) → IsBetweenSearches net self.old → HasSentFrom net self.old self.new root }
        ensures stopped { result ≡ false → (net : NetworkModel) → IsBetweenSearches net self.old → HasStopped net self.new.visits.items }
    {
        'units: while self.nodes.excess[root] > 0 {
            if !self.augment_once(root) {
                return false;
            }
            self.searches += 1;
        }
        true
    }

    /// Searches for a shortest path from `root`, which has an excess, to a node with a deficit; if there is one,
    /// updates the potentials and augments along it. Returns whether there is one; if not, only `looks` and `visits`
    /// change.
    pub(crate) fn augment_once(&mut self, root: usize) -> bool
        requires ready { (net : NetworkModel) × IsReady net self.old }
        requires root { root < length self.old.nodes.excess.items }
        requires remaining { pos 0 <ℤ excess_at self.old root }
        requires few { self.old.looks < 2 ^ 61 }
        ensures augmented { result ≡ true → (net : NetworkModel) → IsReady net self.old → IsAugmented net self.old self.new }
        ensures stopped { result ≡ false → (net : NetworkModel) → IsReady net self.old → HasStopped net self.new.visits.items }
        ensures looks { self.new.looks ≤ self.old.looks + length self.old.residual.arcs.items }
        ensures searches { self.new.searches ≡ self.old.searches }
    {
        let Some(found) = find_path(
            &self.residual,
            &mut self.nodes,
            &mut self.visits,
            root,
            &mut self.looks,
        ) else {
            return false;
        };
        self.found = found;
        self.augment(root);
        true
    }

    /// Sends as many units as fit, at least one, along the path that the last search from `root` found; updates the
    /// excesses of both ends and the capacities of the residual arcs. `searches` and `looks` stay as they are.
    fn augment(&mut self, root: usize)
        requires { (net : NetworkModel) × CanAugment net self.old root }
        ensures sent { (net : NetworkModel) → CanAugment net self.old root → IsSentAlong net self.old self.new }
        ensures work { (self.new.searches ≡ self.old.searches) × (self.new.looks ≡ self.old.looks) }
    {
        let amount = self.bottleneck(root);
        let found = self.found;
        let target = u32::from(self.residual.arcs[found].end);
        let mut node = self.residual.start(found);
        move_units(&mut self.nodes.excess, target, root as u32, amount);
        push(&mut self.residual, found, amount);
        'along: while self.visits[node].place > 0 {
            let number = self.visits[node].predecessor as usize;
            push(&mut self.residual, number, amount);
            node = self.residual.start(number);
        }
    }

    /// How many units, at least one, can go along the path that the last search from `root` found: as many as fit, at
    /// most the root's excess and the end's deficit.
    fn bottleneck(&self, root: usize) -> u32
        requires { (net : NetworkModel) × CanAugment net self.now root }
        ensures { IsBottleneck self.now root result }
    {
        let found = self.found;
        let target = usize::from(self.residual.arcs[found].end);
        let most = most_between(&self.nodes.excess, root, target);
        let mut amount = most.min(self.residual.capacities[found]);
        let mut node = self.residual.start(found);
        'narrow: while self.visits[node].place > 0 {
            let number = self.visits[node].predecessor as usize;
            amount = amount.min(self.residual.capacities[number]);
            node = self.residual.start(number);
        }
        amount
    }
}

/// The reason why no solution was returned.
#[derive(Clone, Copy, Debug, PartialEq, Eq, Error)]
pub enum SolveFault {
    /// No flow meets the supplies.
    #[error("no flow meets the supplies")]
    Infeasible,
    /// An allocation was refused.
    #[error("out of memory")]
    Memory,
}

impl From<AllocError> for SolveFault {
    ghost from_gives = { λ _ fault. fault ≡ Memory };

    /// `SolveFault::Memory`, for each `AllocError`.
    fn from(_refused: AllocError) -> SolveFault {
        SolveFault::Memory
    }
}

/// A flow of least cost that meets all supplies, with potentials that prove it. `Infeasible` if there is no flow,
/// `Memory` if there is no memory.
///
/// All memory is allocated before it begins. Each search sends at least one unit, so there are no more searches than
/// units are supplied, and looks at each residual arc at most once, so there are no more looks than twice the number of
/// arcs a search. The potentials are at most twice the number of nodes in absolute value.
///
/// # Errors
/// `Infeasible` exactly if there is no flow, memory aside, and `Memory` if an allocation was refused.
pub fn solve(alloc: Global, network: &Network) -> Result<Solved, SolveFault>
    ensures ok { IfOk result (λ solved. Solves network.now solved) }
    ensures infeasible { IfErr result (λ fault. fault ≡ SolveFault.Infeasible → HasNoFlow network.now) }
    ensures searches { IfOk result (λ solved. solved.searches ≤ supply_sum network.now) }
    ensures looks { IfOk result (λ solved. solved.looks ≤ solved.searches * (2 * arc_count network.now)) }
    ensures begun { IfOk result (λ solved. HasSupply network.now → 1 ≤ solved.searches) }
    ensures carrying { IfOk result (λ solved. carrying network.now (amounts solved.flow) ≤ solved.looks) }
    ensures in_bounds { IfOk result (λ solved. AreInBounds network.now (at_nodes solved.potential)) }
{
    let mut scratch = Scratch::empty(alloc);
    solve_in(alloc, &mut scratch, network)
}

/// A flow of least cost that meets all supplies, exactly as [`solve`], in the buffers of `scratch`, of which it takes
/// two lists with it. `Infeasible` if there is no flow, `Memory` if there is no memory; all lists then stay in
/// `scratch`, which can be used again.
///
/// The solution takes its two lists with it; [`Solved::give_back`] returns them. If there is no solution, or an
/// allocation was refused, all lists stay in the scratch, which can be used again.
pub fn solve_in(
    alloc: Global,
    scratch: &mut Scratch,
    network: &Network,
) -> Result<Solved, SolveFault>
    ensures ok { IfOk result (λ solved. Solves network.now solved) }
    ensures infeasible { IfErr result (λ fault. fault ≡ SolveFault.Infeasible → HasNoFlow network.now) }
    ensures searches { IfOk result (λ solved. solved.searches ≤ supply_sum network.now) }
    ensures looks { IfOk result (λ solved. solved.looks ≤ solved.searches * (2 * arc_count network.now)) }
    ensures begun { IfOk result (λ solved. HasSupply network.now → 1 ≤ solved.searches) }
    ensures carrying { IfOk result (λ solved. carrying network.now (amounts solved.flow) ≤ solved.looks) }
    ensures in_bounds { IfOk result (λ solved. AreInBounds network.now (at_nodes solved.potential)) }
{
    scratch.flow.resize(network.arc_count(), 0)?;
    let solver = &mut scratch.solver;
    solver.prepare(network)?;
    if !solver.solve(network) {
        return Err(SolveFault::Infeasible);
    }
    read_flow(&solver.residual.capacities, &mut scratch.flow);
    let flow = mem::replace(&mut scratch.flow, Vec::new(alloc));
    let potential = mem::replace(&mut solver.nodes.potential, Vec::new(alloc));
    Ok(Solved::new(flow, potential, solver.searches, solver.looks))
}

/// Finds a shortest path from `root`, which has an excess, to the nearest node with a deficit; returns the last
/// residual arc of the path, or `None` if there is none. Updates the potentials in `nodes` if there is one, records in
/// `visits` by which residual arc each node was reached, and adds its looks to `looks`.
///
/// In `visits` each earlier node of the path has the residual arc by which it was reached, and no node has a label any
/// more. If there is no path, the nodes that were reached keep their labels, and supply more than can leave them.
pub(crate) fn find_path(
    residual: &Residual,
    nodes: &mut Nodes,
    visits: &mut [Visit],
    root: usize,
    looks: &mut u64,
) -> Option<usize>
    requires ready { (net : NetworkModel) × IsReadyIn net residual.now nodes.old.potential.items nodes.old.excess.items visits.old }
    requires root { root < length nodes.old.excess.items }
    requires remaining { pos 0 <ℤ at_nodes nodes.old.excess.items root }
    requires few { looks.old < 2 ^ 61 }
    ensures found { IfSome result (λ found. (net : NetworkModel) → IsReadyIn net residual.now nodes.old.potential.items nodes.old.excess.items visits.old → CanAugmentIn net residual.now nodes.new.potential.items nodes.new.excess.items visits.new found root) }
    ensures short { IfSome result (λ found. looks.old + place_at visits.new (start_at residual.now.arcs.items found) + 1 ≤ looks.new) }
    ensures stopped { IfNone result ((net : NetworkModel) → IsReadyIn net residual.now nodes.old.potential.items nodes.old.excess.items visits.old → HasStopped net visits.new) }
    ensures excess { nodes.new.excess ≡ nodes.old.excess }
    ensures looks { looks.new ≤ looks.old + length residual.now.arcs.items }
{
    let input = SearchInput {
        first: &residual.first,
        arcs: &residual.arcs,
        potential: &nodes.potential,
        excess: &nodes.excess,
        score: &nodes.score,
        root,
    };
    let mut search = Search::run(input, visits, looks);
    if search.bound == FAR as i32 {
        return None;
    }
    update_potentials(&mut nodes.potential, &search);
    clear(&mut search);
    Some(search.found)
}

/// Lowers `potential` for each node that `search` scanned by as much as the node is nearer than the bound: it becomes
/// the node's label less the bound. The potentials of other nodes stay.
fn update_potentials(potential: &mut [i32], search: &Search<'_>)
    requires { CanUpdate potential.old search.now }
    ensures moved { (j : ℕ) → j < search.now.scanned → at_nodes potential.new (orders search.now j) ≡ labels search.now (orders search.now j) -ℤ search.now.bound }
    ensures others { (v : ℕ) → ((j : ℕ) → j < search.now.scanned → orders search.now j ≢ v) → at_nodes potential.new v ≡ at_nodes potential.old v }
    ensures size { length potential.new ≡ length potential.old }
{
    for j in 0..search.scanned {
        let node = search.visits[j].at_place as usize;
        write_potential(potential, node, search.visits[node].label, search.bound);
    }
}

/// Sets the entry of `potential` for `node` to `label` less `bound`.
fn write_potential(potential: &mut [i32], node: usize, label: i16, bound: i32)
    requires node { node < length potential.old }
    requires small { node < MAX_NODES }
    requires label { IsWithinFar label }
    requires bound { IsWithinFar bound }
    ensures { IsPut (at_nodes potential.old) (at_nodes potential.new) node (label -ℤ bound) }
{
    potential[node] = i32::from(label) - bound;
}

/// Takes away from `search` the labels of all nodes that were reached: each is `FAR` again. The order and the residual
/// arcs by which nodes were reached stay.
fn clear(search: &mut Search<'_>)
    requires { HasReachedOrder search.old }
    ensures cleared { IsCleared search.old search.new }
    ensures list { search.new.visits.ghost_name ≡ search.old.visits.ghost_name }
{
    for j in 0..search.reached {
        let node = search.visits[j].at_place as usize;
        search.visits[node].label = FAR;
    }
}

/// Whether some node has a deficit: an entry of `excess` below 0.
pub(crate) fn has_deficit(excess: &[i32]) -> bool
    ensures some { result ≡ true → (v : ℕ) × (v < length excess.now) × (at_nodes excess.now v <ℤ pos 0) }
    ensures none { result ≡ false → (v : ℕ) → v < length excess.now → pos 0 ≤ℤ at_nodes excess.now v }
{
    excess.iter().any(|units| *units < 0)
}

/// Writes to `scores` the score of each node: its supply, plus the supplies above 0 of the nodes from which arcs of
/// cost 0 lead to it. Of nodes that are equally near, a search takes the one with the least score.
///
/// No clause rests on it, but it decides which of several flows of least cost is found.
fn score_nodes(network: &Network, scores: &mut [i32])
    requires { IsNetwork network.now }
{
    let supplies = network.supplies();
    let scored = scores.len().min(supplies.len());
    scores[..scored].copy_from_slice(&supplies[..scored]);
    for arc in network.arcs() {
        if arc.cost == 0 {
            if let Some(score) = scores.get_mut(arc.to as usize) {
                *score = score.wrapping_add(supplies[arc.from as usize].max(0));
            }
        }
    }
}

/// Fills `flow`, indexed by arc, with the number of units that each arc carries, read from the residual capacities.
pub(crate) fn read_flow(capacities: &[u32], flow: &mut [u32])
    requires { length flow.old + length flow.old ≤ length capacities.now }
    ensures { (i : ℕ) → i < length flow.new → amounts flow.new i ≡ carried (capacity_at capacities.now) i }
{
    for i in 0..flow.len() {
        flow[i] = carried_by(capacities, i);
    }
}

/// The number of units that an arc carries: the capacity of the residual arc back along it.
pub(crate) fn carried_by(capacities: &[u32], arc: usize) -> u32
    requires { 2 * arc + 1 < length capacities.now }
    ensures { result ≡ carried (capacity_at capacities.now) arc }
{
    capacities[2 * arc + 1]
}

/// Sets all entries of `numbers` to `number`.
fn write_all(numbers: &mut [i32], number: i32)
    ensures { (v : ℕ) → v < length numbers.new → at_nodes numbers.new v ≡ number }
{
    for at_node in numbers.iter_mut() {
        *at_node = number;
    }
}

/// The lesser of the excess of `root` and the deficit of `target`: the most units that a path between them may carry.
fn most_between(excess: &[i32], root: usize, target: usize) -> u32
    requires root { root < length excess.now }
    requires target { target < length excess.now }
    requires remaining { pos 0 <ℤ at_nodes excess.now root }
    requires deficit { at_nodes excess.now target <ℤ pos 0 }
    ensures some { 0 < result }
    ensures remaining { pos result ≤ℤ at_nodes excess.now root }
    ensures deficit { (at_nodes excess.now target +ℤ pos result) ≤ℤ pos 0 }
    ensures most { (k : ℕ) → pos k ≤ℤ at_nodes excess.now root → (at_nodes excess.now target +ℤ pos k) ≤ℤ pos 0 → k ≤ result }
{
    excess[root]
        .unsigned_abs()
        .min(excess[target].unsigned_abs())
}

/// Sends `amount` units, at least 1, along residual arc `number` of `residual`: lowers its capacity, and raises that of
/// its reverse by as much.
fn push(residual: &mut Residual, number: usize, amount: u32)
    requires pair { IsPaired residual.old number }
    requires some { 0 < amount }
    requires fits { amount ≤ capacity_at residual.old.capacities.items number }
    ensures { IsPushedAlong residual.old residual.new number amount }
{
    residual.take_capacity(number, amount);
    residual.add_capacity(reverse(number), amount);
}
