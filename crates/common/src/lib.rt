//! What many crates use: the limit of vertices, sums of numbers below a bound, lists that reuse their buffers, lists of
//! lists in one list, the choice of the outer face, and the kinds of drawings.
#![tactic(auto)]

mod lists;
mod parameters;

pub use lists::{FlatLists, emptied, filled};
pub use parameters::{Choice, DrawingKind, MAX_VERTICES};
