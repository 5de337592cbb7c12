//! Runs over whole files: each record is answered, and a run returns a book for each file.
#![tactic(auto)]

mod counting;
mod find_facts;
mod frames_run;
pub mod laws;
mod lines;
mod picking;
mod print_lines;
mod run;
mod texts;

pub use answers::{Answer, Cause, Entry, answer};
pub use common::{Choice, DrawingKind};
pub use counting::{Counted, count_files};
pub use find_facts::{FindFacts, Flaws, FoundFacts, status_of_flaws};
pub use frames_run::run_frames;
pub use lanes::{Gate, MemOpener, OpenFault, OpenGate, Opener, Stage};
pub use laws::{books_are_drawn, lines_tell_drawings};
pub use lines::Line;
pub use picking::{Picks, pick_files};
pub use planar_code::Ending;
pub use print_lines::{PrintLines, Printed, found_line, line_lanes};
pub use reports::{Batch, Book, Form, MAX_FILES, ReportLine, Style, write_json, write_report};
pub use ruled_lanes::MAX_CAPACITY;
pub use run::{MAX_LANES, run_batch, run_plain};
pub use streams::{
    BatchFault, Frames, IoSink, Mark, MemTap, Sink, SinkFault, Tap, TapFault, WriteFault,
    write_frames,
};
pub use texts::{Lines, Texts};
