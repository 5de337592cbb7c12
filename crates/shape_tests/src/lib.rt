//! Tests of shapes, prices and their two tests over planes that are read from records, of the lines that print them,
//! and of what the layers below answer if an allocation is refused.
#![tactic(auto)]

#[cfg(test)]
mod flow_network_work;
#[cfg(test)]
mod large;
#[cfg(test)]
mod ortho_rep_best;
#[cfg(test)]
mod ortho_rep_shapes;
#[cfg(test)]
mod refused;
#[cfg(test)]
mod reports_lines;
#[cfg(test)]
mod straightening_turns;
