//! Shapes in which few vertices of degree 2 turn. A shape with the fewest bends is made straighter by moves that cost
//! nothing by the prices which prove it least, so the same prices prove what comes out.
#![tactic(auto)]

mod search;
mod straighten;

pub use straighten::{Scratch, straighten_in};
