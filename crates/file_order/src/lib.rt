//! Texts of files on their way to a sink, in the order of files: what has arrived of each file, buffers for those that
//! are not current yet, and pauses while too much is buffered.
#![tactic(auto)]

mod chunks;
mod order;

pub use chunks::{Chunks, Waiting};
pub use order::{FileOrder, KnownEnd, KnownFiles, Pace, known_end};
