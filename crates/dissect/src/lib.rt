//! Dissections: an orthogonal representation of a plane, cut into boxes.
//!
//! Each dart gets a direction, each bend a vertex, and the whole a rectangle round it; then every face is cut into
//! boxes, which turn left four times and are else straight.
#![tactic(auto)]

mod boxes;
mod dissection;
mod face_list;
pub mod laws;
mod normalization;
mod refinement;
mod table;

pub use boxes::Boxes;
pub use dissection::{DirectionSearch, Scratch, directions_in, dissect, dissect_along, dissect_in};
pub use face_list::Faces;
pub use laws::{cuts_reach_corners, cuts_stay_sound, cuts_use_right_turns};
pub use normalization::{lesser_darts_of, normalize_into};
pub use refinement::{cut_face, cut_faces, refine_in};
pub use table::{DartTable, NO_DART};
