//! Tests of directions, bends, rectangles, dissections and coordinates: known graphs drawn with their fewest
//! bends, shapes with more bends than need be, and refused allocations.
#![tactic(auto)]

#[cfg(test)]
mod compact_wide;
#[cfg(test)]
mod dissect_bent;
#[cfg(test)]
mod dissect_boxed;
#[cfg(test)]
mod dissect_directed;
#[cfg(test)]
mod dissect_enclosed;
#[cfg(test)]
mod families;
#[cfg(test)]
mod geometry_quarters;
#[cfg(test)]
mod lent;
#[cfg(test)]
mod planes;
#[cfg(test)]
mod refused;
#[cfg(test)]
mod turned;
#[cfg(test)]
mod visibility_drawings;
