//! Orthogonal representations of a plane: shapes, prices that prove a shape least, and their tests; and points
//! for the vertices and corners of a drawing.
#![tactic(auto)]

mod best;
mod best_keeping;
mod certificate;
mod distances;
mod grid_points;
mod least;
mod representation;
mod shape;
mod turn_strings;

pub use best::best_shape;
pub use best_keeping::best_shape_keeping;
pub use certificate::{Prices, certify, certify_keeping};
pub use grid_points::{MAX_COORDINATE, Point, Points};
pub use least::{least_shape, least_shape_in, least_shape_keeping_in};
pub use min_cost_flow::SolveFault;
pub use representation::{add_angles, add_turns, is_shape};
pub use shape::{Scratch, Shape};
pub use turn_strings::{DartShape, MAX_REPEATS, MAX_TURNS, Turn, count_lefts};
