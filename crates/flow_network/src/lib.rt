//! The flow network of a plane (Tamassia 1987): each flow gives a representation with as many bends as it costs,
//! and each representation gives a flow.
#![tactic(auto)]

mod given_shape;
mod plane_network;

pub use given_shape::{Given, MAX_GIVEN_TURNS, has_mark};
pub use plane_network::{FaceNet, Scratch, vertex_supply};
