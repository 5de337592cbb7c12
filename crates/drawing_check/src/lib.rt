//! The check of a drawing: whether points draw a shape of a plane, and if not, which condition fails
//! first.
//!
//! The points are compared as rectangles and never one by one, so the time does not grow with the size
//! of the grid.
#![tactic(auto)]

mod drawing;
mod edges;
mod face_regions;
mod route;

pub use drawing::{CheckFault, Drawing, Scratch, check, check_in};
pub use face_regions::{one_dart_decides_regions, outside_is_outer};
pub use route::{Route, direction_from, distance, is_axial, route_of};
