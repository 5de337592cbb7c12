//! Tests of records, graphs, planes and the check of drawings: known bytes, each rule that they may break, points
//! by hand, ten thousand lines against a plain reading of the conditions, rectangles, and refused allocations.
#![tactic(auto)]

#[cfg(test)]
mod drawing_check_faults;
#[cfg(test)]
mod drawing_check_outsides;
#[cfg(test)]
mod drawing_check_polylines;
#[cfg(test)]
mod embedding_graphs;
#[cfg(test)]
mod embedding_rules;
#[cfg(test)]
mod embedding_wide;
#[cfg(test)]
mod embedding_wide_entries;
#[cfg(test)]
mod faces_planes;
#[cfg(test)]
mod geometry_rectangles;
#[cfg(test)]
mod planar_code_cuts;
#[cfg(test)]
mod planar_code_framing;
#[cfg(test)]
mod planar_code_parsing;
