//! Named files and standard input as sources of a run, with notes on how each began, failed and ended; the sink of the
//! output; and the system's reason for a failure.
#![tactic(auto)]

mod file_notes;
mod reason;
mod source;

pub use file_notes::{FileNote, FileNotes};
pub use reason::{KeepsReason, ReadTap, Reason, ShortLine};
pub use source::{
    FileOpener, INPUT, NamedFiles, NotedSource, OutputSink, Refused, SystemFiles, if_open,
    is_input, open_source, place_holder,
};
