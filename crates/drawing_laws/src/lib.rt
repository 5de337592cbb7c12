//! Laws of shapes and drawings, each as the contract of a function that does nothing: how few bends least shapes have,
//! that boxes have coordinates that grow along their darts, that points taken from these draw the shape and have its
//! faces as regions, and that each laid answer is drawn.
#![tactic(auto)]

mod laws;

pub use laws::{
    boxes_have_regions, cells_are_covered_once, cells_lie_in_faces, closed_sets_hold_the_outside,
    few_bends, least_coordinates_exist, least_coordinates_have_no_gap, least_is_priced,
    least_points_are_below_vertex_count, least_points_pass, least_shape_exists,
    monotone_coordinates_draw, monotone_coordinates_exist, regions_are_faces,
};
