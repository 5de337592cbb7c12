//! The four directions along the axes, and rectangles of grid points.
#![tactic(auto)]

mod direction;
mod masks;
mod plane_sweep;

pub use direction::Direction;
pub use plane_sweep::{Rectangle, all_apart_in};
