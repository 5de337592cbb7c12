//! The planar_code format: a stream of embedded graphs, divided into records.
//!
//! A stream is the 15 bytes `>>planar_code<<` and then records, one directly after another. A record is one byte n from
//! 1 to 255 and n neighbour lists, each of at most 254 bytes other than 0 with one byte 0 after it. (The format is that
//! of plantri by Brinkmann and McKay; the bound on a list is this crate's: no simple graph on 255 vertices has a longer
//! one.)
#![tactic(auto)]

mod framer;
pub mod laws;
mod partial_record;
mod record;

pub use framer::Framer;
pub use partial_record::{Ending, FeedFault};
pub use record::{End, ParseFault, Record, record_end};

/// The 15 bytes with which every stream begins.
pub const HEADER: [u8; 15] = *b">>planar_code<<";

/// The maximum number of entries of a neighbour list.
pub const MAX_LIST: usize = 254;

/// The maximum number of records of a stream.
pub const MAX_RECORDS: u32 = 1_000_000;
