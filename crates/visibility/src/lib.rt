//! Compaction of a drawing along one axis after the other, by what its segments see of each other: one-dimensional
//! compaction with a visibility constraint graph, found by a sweep (Lengauer, Combinatorial Algorithms for
//! Integrated Circuit Layout, 1990).
//!
//! A *segment* is a largest set of vertices and corners that edges join along one axis; along the other axis
//! it has one coordinate. At each coordinate that several segments cross they keep their order, and nothing
//! else is kept.
#![tactic(auto)]

mod compaction;
mod listing;
mod segments;
mod shortening;
mod sweep;

pub use compaction::{Scratch, compact_by_visibility_in};
