//! Graphs of maximum degree at most 4 with a rotation: the neighbours of each vertex in clockwise order.
//!
//! Vertices are numbered from 1. Each entry v in the list of u is the dart from u to v, and darts are
//! numbered from 0 in the order of their entries.
#![tactic(auto)]

mod adjacency;
mod breaks;
mod combinatorial_map;
mod genus;
mod graphs;
mod neighbour_lists;
pub mod wide_record;

pub use breaks::{ReadFault, Rule};
pub use combinatorial_map::LesserDarts;
pub use genus::{broken_rule, broken_wide_rule};
pub use graphs::{Graph, MAX_DARTS, MAX_EDGES, Scratch};
pub use wide_record::{MAX_ENTRIES, WideFault, WideRecord};
