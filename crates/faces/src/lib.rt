//! The faces of a graph with a rotation system, and plane graphs.
//!
//! The face of a dart is walked with the face on its left: the dart u to v is followed by the dart from v that follows
//! v to u clockwise. A graph with V − E + F = 2 is a plane (Euler's formula); one of its faces is the outer face.
#![tactic(auto)]

pub mod laws;
mod plane;

pub use common::Choice;
pub use plane::{MAX_FACES, Plane, Scratch, TraceFault};
