//! The commands of the program: what each does for the arguments after its name, and its exit status. `layout` writes
//! its output while it reads.
#![tactic(auto)]

mod layout;
mod program;
mod runs;
mod selection;

pub use command_line::{
    Console, ErrorConsole, Fault, Meter, Progress, SharedTerminal, write_fault,
};
pub use lanes::{Gate, Stage};
pub use layout::write_batch;
pub use named_sources::{
    FileOpener, KeepsReason, NamedFiles, OutputSink, Reason, Refused, SystemFiles, if_open,
    is_input, place_holder,
};
pub use program::{command, run};
