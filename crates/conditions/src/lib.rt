//! What a layout is to keep, by the names of vertices: angles, turns along edges, and faces that stay inside.
#![tactic(auto)]

mod chosen;
mod conditions;
mod cuts;

pub use chosen::shape_keeping_in;
pub use conditions::{AngleAt, Conditions, DartEnds, TurnsAlong};
pub use cuts::{Cut, KeepFault, Unkept, cut_shows_none, violated_cut};
