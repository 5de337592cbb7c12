//! Least-cost flow in small networks: each node supplies or wants units, each arc carries units up
//! to its capacity at a cost of 0 or 1 each, and the solver sends all of them at least cost.
//!
//! The method keeps, from the first unit on, potentials under which no unsaturated residual arc has a reduced
//! cost below 0. (Successive shortest paths: Ahuja, Magnanti and Orlin, Network Flows, 1993.)
#![tactic(auto)]

mod dijkstra;
mod network;
mod residual_network;
mod solution;
mod solver;
mod warm_start;

pub use dijkstra::{FAR, Search, SearchInput, Visit};
pub use network::{Arc, Cap, MAX_ARCS, MAX_NODES, MAX_SUPPLY, NetFault, Network, move_units};
pub use residual_network::{NONE, Residual, ResidualArc, SATURATED, reverse};
pub use solution::{
    Scratch, Solved, no_path_shows_no_flow, overfull_in, overfull_shows_no_flow,
    potentials_show_least_cost, unlimited_arcs_give_a_flow,
};
pub use solver::{SolveFault, solve, solve_in};
pub use warm_start::WarmStart;
