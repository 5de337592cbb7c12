//! Flow networks (Ahuja, Magnanti and Orlin, Network Flows, 1993, section 1.2): nodes with supplies, which are moved
//! from one node to another, and arcs with capacities and costs. Also why supplies and arcs make no flow network.
ghost use Rattle.std.specs.Prelude.{◌≡◌, ◌<◌, ◌≤◌, ℕ, pos, ◌-ℤ◌, ◌≤ℤ◌, length, slice_index_or, [], true, false, IfOk, IfErr};
ghost use Rattle.min_cost_flow.specs.declared.network.TheConstants.{MAX_SUPPLY};
ghost use Rattle.min_cost_flow.specs.Networks.{moved, net_of, HasEnds, HasSuppliesInRange, HasUnitCosts, NetworkModel, node_count, arc_count, arc_at, supply_at, shifted, IsNetwork};
ghost use Rattle.min_cost_flow.specs.Fault.{HasFault};

use common::MAX_VERTICES;
use std::alloc::{AllocError, Global};
use std::marker::Model;
use thiserror::Error;

/// The capacity of an arc.
#[derive(Clone, Copy, Debug, PartialEq, Eq)]
pub enum Cap {
    /// At most this many units.
    AtMost(u32),
    /// Any number of units.
    Any,
}

/// An arc from one node to another, by their numbers. Each unit that it carries costs `cost`.
#[derive(Clone, Copy, Debug, PartialEq, Eq)]
pub struct Arc {
    pub from: u32,
    pub to: u32,
    pub cap: Cap,
    pub cost: u32,
}

/// Adds `amount` to the entry of `units` for node `from`, and subtracts it from the entry for node `to`; nothing
/// changes if both are one node. It allocates nothing.
pub fn move_units(units: &mut [i32], from: u32, to: u32, amount: u32)
    requires from { from < length units.old }
    requires to { to < length units.old }
    requires few { amount ≤ MAX_SUPPLY }
    requires low { (v : ℕ) → v < length units.old → (pos 0 -ℤ pos MAX_SUPPLY) ≤ℤ slice_index_or units.old v (pos 0) }
    requires high { (v : ℕ) → v < length units.old → slice_index_or units.old v (pos 0) ≤ℤ pos MAX_SUPPLY }
    ensures { units.new ≡ moved units.old from to amount }
{
    units[from as usize] += amount as i32;
    units[to as usize] -= amount as i32;
}

/// The maximum number of units that a node supplies or demands.
pub const MAX_SUPPLY: u32 = 10 * MAX_VERTICES as u32 + 8;

/// The reason why the given supplies and arcs are not a network.
#[derive(Clone, Copy, Debug, PartialEq, Eq, Error)]
pub enum NetFault {
    /// There are more than 2,402 supplies or 9,600 arcs.
    #[error("more than 2402 nodes or 9600 arcs")]
    TooLarge,
    /// An endpoint of an arc is out of range: no node has its number.
    #[error("arc endpoint out of range")]
    BadEnd,
    /// A supply is above 12,008 in absolute value.
    #[error("a supply is above 12008 in absolute value")]
    BadSupply,
    /// An arc costs neither 0 nor 1.
    #[error("the cost of an arc is neither 0 nor 1")]
    BadCost,
}

/// Whether an endpoint of an arc is out of range, that is, not below the number of supplies, one for each node.
pub(crate) fn has_bad_end(supplies: &[i32], arcs: &[Arc]) -> bool
    ensures some { result ≡ true → HasFault (net_of supplies.now arcs.now) NetFault.BadEnd }
    ensures none { result ≡ false → HasEnds (net_of supplies.now arcs.now) }
{
    let nodes = supplies.len();
    arcs.iter().any(|arc| arc.from as usize >= nodes || arc.to as usize >= nodes)
}

/// Whether a supply is above `MAX_SUPPLY` in absolute value.
pub(crate) fn has_bad_supply(supplies: &[i32]) -> bool
    ensures some { result ≡ true → HasFault (net_of supplies.now []) NetFault.BadSupply }
    ensures none { result ≡ false → HasSuppliesInRange (net_of supplies.now []) }
{
    supplies
        .iter()
        .any(|units| units.unsigned_abs() > MAX_SUPPLY)
}

/// Whether an arc costs neither 0 nor 1.
pub(crate) fn has_bad_cost(arcs: &[Arc]) -> bool
    ensures some { result ≡ true → HasFault (net_of [] arcs.now) NetFault.BadCost }
    ensures none { result ≡ false → HasUnitCosts (net_of [] arcs.now) }
{
    arcs.iter().any(|arc| arc.cost > 1)
}

/// The maximum number of nodes of a network.
pub const MAX_NODES: usize = 2 * MAX_VERTICES + 2;

/// The maximum number of arcs of a network.
pub const MAX_ARCS: usize = 8 * MAX_VERTICES;

/// A flow network: nodes with supplies, joined by arcs. A supply below 0 is a demand.
/// Nodes and arcs are numbered from 0.
#[derive(Debug, Drop)]
pub struct Network {
    supplies: Vec<i32>,
    arcs: Vec<Arc>,
}

impl Model for Network {
    ghost Value = { NetworkModel };

    ghost view = { λ net. net_of net.supplies.items net.arcs.items };

    ghost invariant = { λ net. IsNetwork (net_of net.supplies.items net.arcs.items) };
}

impl Network {
    ghost use Rattle.min_cost_flow.specs.Fault.{IsFirstFault};

    /// The network with these supplies, one for each node, and these arcs. If they make no network, the first that
    /// applies of `TooLarge`, `BadEnd`, `BadSupply` and `BadCost`; both lists are then dropped.
    ///
    /// It allocates nothing, and its time is linear.
    ///
    /// # Errors
    /// The first fault in the order of [`NetFault`].
    pub fn new(supplies: Vec<i32>, arcs: Vec<Arc>) -> Result<Network, NetFault>
        ensures ok { IfOk result (λ net. (net ≡ net_of supplies.items arcs.items) × IsNetwork net) }
        ensures err { IfErr result (λ fault. IsFirstFault (net_of supplies.items arcs.items) fault) }
    {
        if supplies.len() > MAX_NODES || arcs.len() > MAX_ARCS {
            return Err(NetFault::TooLarge);
        }
        if has_bad_end(&supplies, &arcs) {
            return Err(NetFault::BadEnd);
        }
        if has_bad_supply(&supplies) {
            return Err(NetFault::BadSupply);
        }
        if has_bad_cost(&arcs) {
            return Err(NetFault::BadCost);
        }
        Ok(Network { supplies, arcs })
    }

    /// The network with these supplies, one for each node, and these arcs, unchecked: they must be those of a network.
    ///
    /// It looks at none of them, and allocates nothing.
    pub fn of_lists(supplies: Vec<i32>, arcs: Vec<Arc>) -> Network
        requires { IsNetwork (net_of supplies.items arcs.items) }
        ensures { result ≡ net_of supplies.items arcs.items }
    {
        Network { supplies, arcs }
    }

    /// The number of nodes.
    pub fn node_count(&self) -> usize
        ensures count { result ≡ node_count self.now }
        ensures kept { IsNetwork self.now }
    {
        self.supplies.len()
    }

    /// The number of arcs.
    pub fn arc_count(&self) -> usize
        ensures count { result ≡ arc_count self.now }
        ensures kept { IsNetwork self.now }
    {
        self.arcs.len()
    }

    /// All arcs, in the order of their numbers from 0, borrowed.
    pub fn arcs(&self) -> &[Arc]
        ensures arcs { result.now ≡ self.now.arcs }
        ensures kept { IsNetwork (net_of self.now.supplies result.now) }
    {
        &self.arcs
    }

    /// The supplies of all nodes, in the order of their numbers from 0, borrowed; one below 0 is a demand.
    pub fn supplies(&self) -> &[i32]
        ensures supplies { result.now ≡ self.now.supplies }
        ensures kept { IsNetwork self.now }
    {
        &self.supplies
    }

    /// Raises the supply of node `from` by `amount`, and lowers that of node `to` by as much; nothing changes if both
    /// are one node. It allocates nothing.
    pub fn shift(&mut self, from: u32, to: u32, amount: u32)
        requires from { from < node_count self.old }
        requires to { to < node_count self.old }
        requires few { amount ≤ MAX_SUPPLY }
        requires in_range { HasSuppliesInRange (shifted self.old from to amount) }
        ensures { self.new ≡ shifted self.old from to amount }
    {
        move_units(&mut self.supplies, from, to, amount);
    }

    /// Takes the network apart: returns the list of its supplies by node, and the list of its arcs by number. It
    /// allocates nothing.
    pub fn into_lists(self) -> (Vec<i32>, Vec<Arc>)
        ensures supplies { result.0.items ≡ self.supplies }
        ensures arcs { result.1.items ≡ self.arcs }
    {
        (self.supplies, self.arcs)
    }

    /// A copy of the network, in lists of its own. `AllocError` if there is no memory for them.
    ///
    /// # Errors
    /// `AllocError` if there is no memory for its lists.
    pub fn copy(&self) -> Result<Network, AllocError>
        ensures { IfOk result (λ net. net ≡ self.now) }
    {
        Ok(Network::of_lists(self.supplies.clone()?, self.arcs.clone()?))
    }
}
