//! The command line: parsing of arguments, progress output, and the message and exit status of a fault.
#![tactic(auto)]

mod fault;
mod help;
mod progress;
mod reading;
mod request;
mod selecting;
mod terminal;

pub use fault::{Fault, write_fault};
pub use help::help_text;
pub use progress::{Console, Meter, Progress};
pub use reading::{Keyword, asks};
pub use request::{
    CheckRequest, CountRequest, LayoutRequest, ParseFault, PickRequest, Request, RunRequest, parse,
};
pub use terminal::{ErrorConsole, SharedTerminal};
