//! Runs over lanes. A lane is a pipeline of four stages, each in a thread. The first draws files until none is left,
//! reads them and gives messages of their records and one for each mark; each later stage takes the messages of the one
//! before it, works on their records and gives them on. The calling thread gathers the messages of the last stages from
//! one fan and passes them to a consumer. A `LaneKind` says what the stages do.
#![tactic(auto)]

mod all_lanes;
mod gathering;
mod lane;
mod message;
mod reading;
mod run;
mod stage;
mod starting;

pub use all_lanes::run_lanes;
pub use gathering::{Consumer, Draft, Drafts, RunFault, gather};
pub use message::{Batch, Filling, Gone, MOST_IN_LISTS, MOST_ITEMS, Message, Outlet, ReturnQueue};
pub use reading::{RecordSink, read_file};
pub use run::{Gate, MemOpener, OpenFault, OpenGate, Opener, Pauses, Run, Stage};
pub use stage::{
    LaneKind, LaneScratch, Numbered, ScratchOf, StageWork, Staged, run_stage, run_until_stop,
};
