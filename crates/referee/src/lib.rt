//! A referee of drawings that any program made: whether points draw an orthogonal representation of an embedding, with
//! whatever outer face, and what is wrong first where they do not.
#![tactic(auto)]

mod claims;
mod conditions;
mod judge;
mod shape;

pub use claims::{Claims, FalseClaim, false_claim};
pub use judge::{Fault, Judged, Scratch, fewest_in, judge_in};
