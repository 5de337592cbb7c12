//! Reads sources of planar_code into records, and writes the records found as text.
#![tactic(auto)]

mod frames;
mod output;
mod source;

pub use frames::{Form, Frames, Mark, mark_word, write_frames, write_frames_of};
pub use output::{
    BatchFault, IoSink, LINE, ROOM, Sink, SinkFault, TextBuffer, WriteFault, put_all,
};
pub use source::{MemTap, PIECE, Receiver, SourceEnd, Tap, TapFault, piece_buffer, read_source};
