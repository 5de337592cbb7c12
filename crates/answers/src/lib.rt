//! From a record to its entry: its graph is read and its faces are traced, a shape with the fewest
//! bends is found, and the shape is drawn. Each of these is a stage of a lane, and keeps in the type of
//! what it gives that it is the record's.
#![tactic(auto)]

mod answering;
mod drawing;
mod holder;
mod item;
mod kept;
mod laws;
mod shaped_plane;
mod shaping;
mod stages;

pub use answering::{Answering, Embedded, Framed, Shaped};
pub use drawing::DrawScratch;
pub use holder::{EmbedScratch, Holder, Shell};
pub use item::{Carried, Item, KeepEntries, PointsFound, Purpose, ShapeFound, State, Task, Traced};
pub use kept::RecordScratch;
pub use laws::{
    answers_are_drawn, laid_answers_are_drawn, least_points_are_in_grid, no_cause_is_shown,
    only_wide, remaining_causes,
};
pub use reports::{Answer, Cause, Entry};
pub use shaped_plane::ShapedPlane;
pub use shaping::ShapeScratch;
pub use stages::{answer, find_points};
