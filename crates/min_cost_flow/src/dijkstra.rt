//! The search for the nearest node with a deficit: Dijkstra's algorithm (1959) by reduced costs, which are at least 0
//! (Ahuja, Magnanti and Orlin, Network Flows, 1993, section 9.7), from one root, by growing distance. In the place of
//! its queue is a list of nodes in order of their distance. Networks have at most 2,402 nodes and 19,200 residual arcs
//! of cost -1 to 1, so distances are small integers, within `FAR` of 0. Each residual arc is looked at once at most;
//! beside that the nodes that wait are gone over for each radius.
ghost use Rattle.std.specs.Prelude.{◌≡◌, ◌⊎◌, ◌<◌, ◌+◌, length, pos, ◌≤ℤ◌, ◌<ℤ◌, ◌-ℤ◌, ◌≤◌, ◌^◌, ℕ, ◌+ℤ◌, true, false};
ghost use Rattle.min_cost_flow.specs.Search.{far, potential_of, excess_of, labels, predecessors, orders, places, HasEnd, CanAdvance, CanPut, HasCandidate, IsRelaxed, IsLabelled, SameBesideBound, SameBesideOrder, SameOrder, SameProgress, IsPut, IsSwapped, IsWithinFar, nodes_of, arcs_of, looked, IsSearchInput, IsSearch, IsUnlabelled, HasLowered, HasFeasibleLabels, HasRemaining, IsFeasibleAt, IsNextRadius, IsReordered, IsWaiting, IsScanning, IsArcCost, HasSameList};
ghost use Rattle.min_cost_flow.specs.ResidualArcs.{end_at, cost_at, next_at, out_degree, StartsAt};

use crate::network::MAX_NODES;
use crate::residual_network::{NONE, ResidualArc};

/// The label of a node that was not reached. It exceeds each label and each distance: labels are at most 3 * MAX_NODES,
/// potentials at least -2 * MAX_NODES, and costs at most 1.
pub const FAR: i16 = 5 * MAX_NODES as i16 + 2;

/// The input of a search: residual arcs, the state of each node, and the node where the search begins.
#[derive(Clone, Copy)]
pub struct SearchInput<'a> {
    /// The first residual arc that starts at each node, or `NONE`.
    pub first: &'a [u32],
    pub arcs: &'a [ResidualArc],
    /// Under these no unsaturated residual arc has a reduced cost below 0, and at a deficit they are 0.
    pub potential: &'a [i32],
    /// How many units a node still has to send; below 0, its deficit.
    pub excess: &'a [i32],
    /// Of nodes that are found at the same distance the one with the least score is taken.
    pub score: &'a [i32],
    pub root: usize,
}

/// An entry of the table of a search: entry i has the state of node i, and the i-th node in the order of reached nodes.
///
/// That order begins with those that were scanned, then come those at the radius, then those further off.
#[derive(Clone, Copy)]
pub struct Visit {
    /// The root's potential and the costs of the residual arcs on the way to the node, or `FAR`.
    pub label: i16,
    /// The residual arc by which the node was reached.
    pub predecessor: u16,
    /// The place of the node in the order.
    pub place: u16,
    /// The node at this place of the order.
    pub at_place: u16,
}

/// The results of a search so far.
#[derive(Drop)]
pub struct Search<'a> {
    /// One for each node.
    pub visits: &'a mut [Visit],
    /// How many nodes were scanned: the first ones of the order.
    pub scanned: usize,
    /// The number of nodes at the beginning of the order that are sorted by their distance, with the scanned ones.
    pub ordered: usize,
    /// The number of nodes that were reached: all in the order.
    pub reached: usize,
    /// The distance of the nodes that are scanned now.
    pub radius: i32,
    /// The distance of the nearest node found with a deficit, or `FAR` if none was found.
    pub bound: i32,
    /// The residual arc that leads to that node.
    pub found: usize,
}

/// A residual arc that was looked at, and the label that it offers to its end.
#[derive(Clone, Copy, Debug, PartialEq, Eq)]
pub(crate) struct Candidate {
    pub number: usize,
    pub end: usize,
    pub label: i16,
}

impl Search<'_> {
    /// Takes up the label that `step` offers to its end, less than the end's own: an end with a deficit may become the
    /// nearest one found (`bound` and `found`); any other end gets the label if its distance by it is below `bound`.
    pub(crate) fn reach(&mut self, input: SearchInput<'_>, step: Candidate)
        requires candidate { HasCandidate input self.old step }
        ensures relaxed { IsRelaxed input.entry self.old self.new }
        ensures served { (step.label -ℤ potential_of input.entry step.end) <ℤ self.new.bound → labels self.new step.end ≤ℤ step.label }
    {
        let away = distance(step.label, input.potential[step.end]);
        if input.excess[step.end] < 0 {
            self.take_if_nearer(input, step, away);
        } else if away < self.bound {
            self.label_node(input, step);
        }
    }

    /// Gives the end of `step`, which has no deficit, the label that `step` offers, and a place in the order if it has
    /// none; if its distance is then the radius, it joins the ordered nodes.
    fn label_node(&mut self, input: SearchInput<'_>, step: Candidate)
        requires candidate { HasCandidate input self.old step }
        requires nonnegative { pos 0 ≤ℤ excess_of input step.end }
        ensures relaxed { IsRelaxed input.entry self.old self.new }
        ensures label { labels self.new step.end ≡ step.label }
    {
        self.set_label(step);
        if distance(step.label, input.potential[step.end]) == self.radius {
            self.advance(step.end);
        }
    }

    /// Makes the end of `step`, a node with a deficit at `distance`, the nearest one found (`bound` and `found`) if it
    /// is nearer than the one found, or as near with a lesser score. Else nothing changes.
    fn take_if_nearer(&mut self, input: SearchInput<'_>, step: Candidate, distance: i32)
        ensures same { SameBesideBound self.old self.new }
        ensures bound { self.new.bound ≤ℤ self.old.bound }
        ensures least { self.new.bound ≤ℤ distance }
        ensures either { ((self.new.bound ≡ self.old.bound) × (self.new.found ≡ self.old.found)) ⊎ ((self.new.bound ≡ distance) × (self.new.found ≡ step.number)) }
    {
        if distance < self.bound {
            self.bound = distance;
            self.found = step.number;
        } else if distance == self.bound && score_of(input, step.end) < self.found_score(input) {
            self.found = step.number;
        }
    }

    /// The score of the nearest node found: the end of residual arc `found`; 0 if there is no such residual arc or the
    /// node has no score.
    fn found_score(&self, input: SearchInput<'_>) -> i32 {
        match input.arcs.get(self.found) {
            Some(arc) => score_of(input, arc.end as usize),
            None => 0,
        }
    }

    /// Writes the label of the end of `step` and the residual arc by which it was reached; a node that had no label
    /// also gets the last place in the order, and `reached` grows by 1.
    fn set_label(&mut self, step: Candidate)
        requires end { HasEnd self.old step }
        requires room { far ≤ℤ labels self.old step.end → self.old.reached < length self.old.visits.now }
        ensures has_label { IsLabelled self.old self.new step }
    {
        if self.visits[step.end].label < FAR {
            self.relabel(step);
        } else {
            self.enlist(step);
        }
    }

    /// Writes the label of the end of `step`, which had none, and the residual arc by which it was reached; gives the
    /// node the last place in the order, so that `reached` grows by 1.
    fn enlist(&mut self, step: Candidate)
        requires end { HasEnd self.old step }
        requires room { self.old.reached < length self.old.visits.now }
        ensures label { IsPut (labels self.old) (labels self.new) step.end step.label }
        ensures predecessor { IsPut (predecessors self.old) (predecessors self.new) step.end step.number }
        ensures order { IsPut (orders self.old) (orders self.new) self.old.reached step.end }
        ensures place { IsPut (places self.old) (places self.new) step.end self.old.reached }
        ensures same { SameProgress self.old self.new }
        ensures reached { self.new.reached ≡ self.old.reached + 1 }
    {
        self.put(self.reached, step.end);
        self.reached += 1;
        self.relabel(step);
    }

    /// Writes the label of the end of `step`, and the residual arc by which it was reached; the order stays as it is.
    pub(crate) fn relabel(&mut self, step: Candidate)
        requires { HasEnd self.old step }
        ensures label { IsPut (labels self.old) (labels self.new) step.end step.label }
        ensures predecessor { IsPut (predecessors self.old) (predecessors self.new) step.end step.number }
        ensures order { SameOrder self.old self.new }
    {
        let visit = &mut self.visits[step.end];
        visit.label = step.label;
        visit.predecessor = step.number as u16;
    }

    /// Adds `node`, which was reached and is not ordered, to the ordered nodes: it swaps places with the first node
    /// that is not ordered, and `ordered` grows by 1.
    pub(crate) fn advance(&mut self, node: usize)
        requires { CanAdvance self.old node }
        ensures swapped { IsSwapped (orders self.old) (places self.old) (orders self.new) (places self.new) node (places self.old node) self.old.ordered }
        ensures same { SameBesideOrder self.old self.new }
        ensures ordered { self.new.ordered ≡ self.old.ordered + 1 }
    {
        let from = self.visits[node].place as usize;
        let other = self.visits[self.ordered].at_place as usize;
        self.put(from, other);
        self.put(self.ordered, node);
        self.ordered += 1;
    }

    /// Puts `node` at `place` of the order, and records the place as the node's. The node that stood there, and the
    /// place that `node` had, are not put right.
    pub(crate) fn put(&mut self, place: usize, node: usize)
        requires { CanPut self.old place node }
        ensures order { IsPut (orders self.old) (orders self.new) place node }
        ensures place { IsPut (places self.old) (places self.new) node place }
        ensures same { SameBesideOrder self.old self.new }
        ensures ordered { self.new.ordered ≡ self.old.ordered }
    {
        self.visits[place].at_place = node as u16;
        self.visits[node].place = place as u16;
    }
}

/// The score of a node; 0 if the list of scores has no entry for it.
fn score_of(input: SearchInput<'_>, node: usize) -> i32 {
    input.score.get(node).copied().unwrap_or(0)
}

/// A node's distance from the root by reduced costs: its label less its potential.
pub(crate) fn distance(label: i16, potential: i32) -> i32
    requires label { IsWithinFar label }
    requires potential { IsWithinFar potential }
    ensures { result ≡ label -ℤ potential }
{
    i32::from(label) - potential
}

impl<'a> Search<'a> {
    /// Searches from the root for the nearest node with a deficit and returns the results, with `bound` at `FAR` if
    /// there is none. Labels the nodes reached in `visits`, where none may have a label before, and adds the number of
    /// residual arcs looked at to `looks`.
    ///
    /// Distances are by reduced costs. Then `bound` is the distance of that node, and `found` the last residual arc on
    /// the way there; if unsaturated residual arcs lead to no such node, `bound` is `FAR`. A node's label is the root's
    /// potential and the costs of the residual arcs on the way; less its own potential it is its distance. Each node
    /// that was reached has the residual arc by which it was, and a place in the order, the root the first. Those at
    /// its first `scanned` places were scanned, and the others that were reached are no nearer than `bound`.
    ///
    /// It looks at each residual arc at most once, and allocates nothing. Besides that it goes over the nodes that were
    /// reached and wait, for each distance that it comes to.
    pub fn run(input: SearchInput<'_>, visits: &'a mut [Visit], looks: &mut u64) -> Search<'a>
        requires unlabelled { IsUnlabelled input visits.old }
        requires few { looks.old < 2 ^ 61 }
        ensures search { IsSearch input.entry result }
        ensures list { result.visits.ghost_name ≡ visits.entry.ghost_name }
        ensures served { HasFeasibleLabels input.entry result }
        ensures remaining { HasRemaining input.entry result }
        ensures looks { looks.new ≡ looks.old + looked (arcs_of input.entry) (orders result) result.scanned }
        ensures once { looks.new ≤ looks.old + length (arcs_of input.entry) }
    {
        let mut search = Search::begin(input, visits);
        'nodes: while search.find_next(input) {
            search.scan(input, looks);
        }
        search
    }

    /// A search that has reached the root alone and scanned none, with radius 0 and `bound` at `FAR`. In `visits`,
    /// where no node may have a label before, the root gets its potential as its label, and the first place in the
    /// order.
    fn begin(input: SearchInput<'_>, visits: &'a mut [Visit]) -> Search<'a>
        requires unlabelled { IsUnlabelled input visits.old }
        ensures search { IsSearch input.entry result }
        ensures list { result.visits.ghost_name ≡ visits.entry.ghost_name }
        ensures scanned { result.scanned ≡ 0 }
    {
        let mut search = Search {
            visits,
            scanned: 0,
            ordered: 1,
            reached: 1,
            radius: 0,
            bound: FAR as i32,
            found: 0,
        };
        search.relabel(Candidate {
            number: 0,
            end: input.root,
            label: input.potential[input.root] as i16,
        });
        search.put(0, input.root);
        search
    }

    /// Returns whether a node nearer than the bound is left to scan. If so, and all ordered nodes are scanned, it first
    /// raises the radius to the distance of the nearest node that waits; the nodes at that distance join the ordered
    /// nodes.
    fn find_next(&mut self, input: SearchInput<'_>) -> bool
        requires search { IsSearch input self.old }
        ensures ordered { IsReordered input.entry self.old self.new }
        ensures more { result ≡ true → self.new.scanned < self.new.ordered }
        ensures remaining { result ≡ false → HasRemaining input.entry self.new }
    {
        if self.radius == self.bound {
            return false;
        }
        if self.scanned < self.ordered {
            return true;
        }
        let nearest = self.least_distance(input);
        if nearest == self.bound {
            return false;
        }
        self.raise_radius(input, nearest);
        true
    }

    /// The least distance of the reached nodes that are not ordered yet; the bound if that is less or there are none.
    fn least_distance(&self, input: SearchInput<'_>) -> i32
        requires search { IsSearch input self.now }
        ensures bound { result ≤ℤ self.now.bound }
        ensures radius { self.now.radius ≤ℤ result }
        ensures least { (j : ℕ) → self.now.ordered ≤ j → j < self.now.reached → result ≤ℤ (labels self.now (orders self.now j) -ℤ potential_of input.entry (orders self.now j)) }
        ensures some { result <ℤ self.now.bound → (j : ℕ) × (self.now.ordered ≤ j) × (j < self.now.reached) × (result ≡ labels self.now (orders self.now j) -ℤ potential_of input.entry (orders self.now j)) }
    {
        let mut least = self.bound;
        for j in self.ordered..self.reached {
            let node = self.visits[j].at_place as usize;
            let away = distance(self.visits[node].label, input.potential[node]);
            least = least.min(away);
        }
        least
    }

    /// Sets the radius to `radius`; the reached nodes at that distance join the ordered nodes.
    fn raise_radius(&mut self, input: SearchInput<'_>, radius: i32)
        requires search { IsSearch input self.old }
        requires radius { IsNextRadius input self.old radius }
        ensures ordered { IsReordered input.entry self.old self.new }
        ensures more { self.new.scanned < self.new.ordered }
    {
        self.radius = radius;
        for j in self.ordered..self.reached {
            self.take_up(input, j);
        }
    }

    /// Adds the node at place `j` of the order to the ordered nodes if its distance is the radius; else nothing
    /// changes.
    fn take_up(&mut self, input: SearchInput<'_>, j: usize)
        requires waiting { IsWaiting input self.old j }
        ensures ordered { IsReordered input.entry self.old self.new }
        ensures radius { self.new.radius ≡ self.old.radius }
        ensures few { (self.old.ordered ≤ self.new.ordered) × (self.new.ordered ≤ self.old.ordered + 1) }
        ensures behind { (i : ℕ) → j < i → orders self.new i ≡ orders self.old i }
        ensures more { labels self.old (orders self.old j) -ℤ potential_of input.entry (orders self.old j) ≡ self.old.radius → self.new.ordered ≡ self.old.ordered + 1 }
    {
        let node = self.visits[j].at_place as usize;
        if distance(self.visits[node].label, input.potential[node]) == self.radius {
            self.advance(node);
        }
    }

    /// Scans the next node of the order, which must be an ordered one: relaxes each residual arc that starts there,
    /// adds their number to `looks`, and raises `scanned` by 1.
    fn scan(&mut self, input: SearchInput<'_>, looks: &mut u64)
        requires search { IsSearch input self.old }
        requires served { HasFeasibleLabels input self.old }
        requires more { self.old.scanned < self.old.ordered }
        requires few { looks.old < 2 ^ 61 + 2 ^ 60 }
        ensures search { IsSearch input.entry self.new }
        ensures list { HasSameList self.old self.new }
        ensures served { HasFeasibleLabels input.entry self.new }
        ensures kept { HasLowered input.entry (self.old.scanned + 1) self.old self.new }
        ensures scanned { self.new.scanned ≡ self.old.scanned + 1 }
        ensures looks { looks.new ≡ looks.old + out_degree (arcs_of input.entry) (orders self.old self.old.scanned) }
    {
        let node = self.visits[self.scanned].at_place as usize;
        self.scanned += 1;
        let mut here = 0;
        let mut number = input.first[node];
        'arcs: while number != NONE {
            let arc = look(input.arcs, number as usize, &mut here);
            self.relax(input, node, number as usize, arc);
            number = arc.next;
        }
        *looks += here;
    }

    /// Relaxes residual arc `number`, which is `arc` and starts at `node`, the node that is scanned: takes up the label
    /// that it offers to its end, if that is less than the end's own. Else nothing changes.
    fn relax(&mut self, input: SearchInput<'_>, node: usize, number: usize, arc: &ResidualArc)
        requires scanning { IsScanning input self.old node }
        requires number { StartsAt (arcs_of input) node number }
        requires end { arc.now.end ≡ end_at (arcs_of input) number }
        requires cost { arc.now.cost ≡ cost_at (arcs_of input) number }
        ensures relaxed { IsRelaxed input.entry self.old self.new }
        ensures serves { IsFeasibleAt (arcs_of input.entry) (potential_of input.entry) (labels self.new) self.new.bound node number }
    {
        let end = arc.end as usize;
        let label = self.visits[node].label + arc.cost;
        if label < self.visits[end].label {
            self.reach(input, Candidate { number, end, label });
        }
    }
}

/// Returns residual arc `number`, and adds 1 to `looks`. A scan goes through the residual arcs of a node by this call
/// alone.
fn look<'a>(arcs: &'a [ResidualArc], number: usize, looks: &mut u64) -> &'a ResidualArc
    requires number { number < length arcs.now }
    requires few { looks.old < 2 ^ 63 }
    ensures end { result.now.end ≡ end_at arcs.now number }
    ensures cost { result.now.cost ≡ cost_at arcs.now number }
    ensures next { result.now.next ≡ next_at arcs.now number }
    ensures tick { looks.new ≡ looks.old + 1 }
{
    *looks += 1;
    &arcs[number]
}
