//! Coordinates of segments along one axis with which the total edge length is least, and a certificate that it is.
//!
//! A *segment* is a maximal set of vertices and corners that edges join along the other axis; along this one it has one
//! coordinate. A *wire* leads along this axis from one segment to another. The segments on a level keep their order,
//! and nothing else is kept. Least total length is then a linear program over the segments; its dual gives a weight to
//! each pair of segments that share a level, and weights that are in balance at each segment bound the length of all
//! coordinates from below (Tamassia 1987, by a flow; strong duality).
#![tactic(auto)]

mod certificate;
mod least;
mod pulling;
mod segments;
mod sight_lists;

pub use certificate::{
    certify_lengths, shortest_are_equally_long, shortest_keep_order, weights_bound_lengths,
};
pub use least::{Scratch, find_shorter, write_if_shorter};
pub use segments::{MAX_SIGHTS, MAX_WIRES, Segment, Sight, Wire};
