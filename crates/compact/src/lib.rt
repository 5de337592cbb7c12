//! Coordinates for a dissection: least integers that grow along its darts.
#![tactic(auto)]

mod axis;
mod longest_paths;
mod points;

pub use dissect::{
    DirectionSearch, Scratch as BoxesScratch, directions_in, dissect, dissect_along, dissect_in,
};
pub use points::{CompactFault, Scratch, compact, compact_in};
