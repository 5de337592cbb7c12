//! The text output for a batch of books, as a report or as JSON lines (an object for each entry of a file and one for
//! its end), and its exit status.
#![tactic(auto)]

mod answer;
mod book;
mod json_lines;
mod json_objects;
mod json_text;
mod report_line;

pub use answer::{Answer, Cause, Entry};
pub use book::{Batch, Book, MAX_FILES, Style, books_of, status_of};
pub use json_lines::{
    LaidGraph, answer_line, end_line, entry_line, laid_line, out_of_memory_line, write_json,
};
pub use report_line::{ReportLine, write_report};
pub use streams::Form;
