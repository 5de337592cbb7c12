//! Theorems about answers, reports and whole runs, each as the contract of an empty function: the meaning of a laid
//! answer in plain terms, the uniqueness of faces, coordinates and reports, the regions of drawings, upper bounds on
//! sizes, and angles and turns that can always be given: points, each a vertex with a whole turn of given angles, and
//! frames, each a cycle of straight edges with four corners.
#![tactic(auto)]

mod laws;

pub use laws::{
    boxes_are_few, edges_meet_at_ends, edges_share_no_part, laid_bends, laid_means,
    least_corner_is_outer, least_points_are_unique, network_limits, one_best, one_book_text,
    one_counted_text, one_facts, one_greatest, one_picked_text, one_report, outer_face_looks_out,
    parts_have_no_cut, plane_limits, points_have_no_cut, record_limits, regions_are_connected,
    same_whole_runs, units_supplied, written_is_report,
};
