//! The run of `check`: a verdict for each record of a file of graphs and its line in a file of drawings.
#![tactic(auto)]

mod claims;
mod json;
mod judging;
mod line_buffer;
mod line_content;
mod line_reader;
mod points;
mod run;
mod verdict_lines;

pub use run::{CheckOptions, CheckOutcome, check_files};
