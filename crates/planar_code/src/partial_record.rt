//! The record that a stream of planar_code has begun but not ended (plantri, Brinkmann and McKay). It is read further
//! list by list. Here are also the ways in which a stream ends, and the faults at which a framer stops reading.
ghost use Rattle.std.specs.Prelude.{◌≡◌, ℕ, ◌<◌, ◌≤◌, List, ◌++◌, length, take, [], IsTrue, ◌↔◌, IfOk, OnOk, OnErr};
ghost use Rattle.planar_code.specs.declared.TheConstants.{MAX_LIST};
ghost use Rattle.planar_code.specs.Started.{IsStarted};
ghost use Rattle.planar_code.specs.Scan.{Scans, TakesFrom};

use crate::MAX_LIST;
use crate::record::Record;
use std::alloc::{AllocError, Global};
use std::marker::Model;
use thiserror::Error;

/// The way in which a stream ends. It is `Many` if any bytes follow the millionth record.
#[derive(Clone, Copy, Debug, PartialEq, Eq, Hash)]
pub enum Ending {
    /// The bytes are the header followed by whole records and nothing else.
    Complete,
    /// The bytes end within a record.
    Truncated,
    /// The bytes do not begin with the whole header.
    Header,
    /// A record begins with byte 0, which announces the two-byte form for large graphs.
    Large,
    /// A neighbour list has more than 254 entries.
    Oversize,
    /// Memory ran out for a record; this can happen with any bytes.
    Memory,
    /// More bytes follow the millionth record.
    Many,
}

/// The reason why a framer stops reading.
#[derive(Clone, Copy, Debug, PartialEq, Eq, Hash, Error)]
pub enum FeedFault {
    /// A byte differs from the header.
    #[error("the input does not begin with >>planar_code<<")]
    Header,
    /// A record begins with byte 0.
    #[error("a record begins with byte 0; the two-byte form is not supported")]
    Large,
    /// A neighbour list has a 255th entry.
    #[error("a neighbour list has more than 254 entries")]
    Oversize,
    /// Memory ran out for a record.
    #[error("out of memory")]
    Memory,
    /// A byte follows the last of 1,000,000 records.
    #[error("more than 1000000 records")]
    Many,
}

impl From<FeedFault> for Ending {
    ghost use Rattle.std.specs.Prelude.{◌≡◌};
    ghost use Rattle.planar_code.specs.Split.{ending_of};

    ghost from_gives = { λ f e. e ≡ ending_of f };

    /// Returns the ending that has the name of the fault.
    fn from(fault: FeedFault) -> Ending {
        match fault {
            FeedFault::Header => Ending::Header,
            FeedFault::Large => Ending::Large,
            FeedFault::Oversize => Ending::Oversize,
            FeedFault::Memory => Ending::Memory,
            FeedFault::Many => Ending::Many,
        }
    }
}

/// The result of reading further bytes of a record: where it ends, or that it is still partial.
pub enum Scan {
    /// The record ends after this many bytes.
    Whole(usize),
    /// The record is still partial: `remaining` lists are not yet ended, and the partial one has `entries` entries.
    Open { remaining: u8, entries: u8 },
}

/// Reads `text` from index `from` on as the rest of a record; returns `Whole` with the index in `text` after the
/// record's last byte, or `Open` with the new counts if `text` ends before. `Oversize` if a list has a 255th entry.
///
/// `remaining` lists are not yet ended, including the partial one, which has `entries` entries so far.
pub fn scan_lists(
    text: &[u8],
    from: usize,
    mut remaining: u8,
    mut entries: u8,
) -> Result<Scan, FeedFault>
    requires within { from ≤ length text.now }
    requires some { 0 < remaining }
    requires short { entries ≤ MAX_LIST }
    ensures { (before : List ℕ)
        → IsStarted (before ++ take from text.now) remaining entries
        → Scans before text.now result }
{
    for i in from..text.len() {
        if text[i] != 0 {
            if usize::from(entries) == MAX_LIST {
                return Err(FeedFault::Oversize);
            }
            entries += 1;
            continue;
        }
        remaining -= 1;
        if remaining == 0 {
            return Ok(Scan::Whole(i + 1));
        }
        entries = 0;
    }
    Ok(Scan::Open { remaining, entries })
}

/// The maximum number of bytes of a record: its first byte, and 255 lists of 254 entries and a 0.
pub(crate) const MAX_BYTES: usize = 65_026;

/// The bytes of a record that is only partly read, with room for the longest record.
///
/// If there are any, `remaining` lists are not yet ended, including the partial one, which has `entries` entries so
/// far.
#[derive(Debug, Drop)]
pub struct PartialRecord {
    bytes: Vec<u8>,
    remaining: u8,
    entries: u8,
}

impl Model for PartialRecord {
    ghost use Rattle.std.specs.Prelude.{ℕ, List, ◌≤◌, vec_capacity};
    ghost use Rattle.planar_code.specs.declared.partial_record.TheConstants.{MAX_BYTES};
    ghost use Rattle.planar_code.specs.Started.{HasBegun};

    ghost Value = { List ℕ };

    ghost view = { λ r. r.bytes.items };

    ghost invariant = { λ r. HasBegun r.bytes.items r.remaining r.entries × (MAX_BYTES ≤ vec_capacity r.bytes) };
}

impl PartialRecord {
    /// An empty partial record, with a buffer for the longest record: 65,026 bytes. `AllocError` if there is no memory
    /// for the buffer.
    ///
    /// # Errors
    ///
    /// `AllocError` if there is no memory for the buffer.
    pub fn new(alloc: Global) -> Result<PartialRecord, AllocError>
        ensures { IfOk result (λ r. r ≡ []) }
    {
        Ok(PartialRecord {
            bytes: Vec::with_capacity(alloc, MAX_BYTES)?,
            remaining: 0,
            entries: 0,
        })
    }

    /// Whether no byte of a record has been read yet.
    pub fn is_empty(&self) -> bool
        ensures { IsTrue result ↔ (self.now ≡ []) }
    {
        self.bytes.is_empty()
    }

    /// Reads `text`, which is not empty, as the next bytes of the record, but keeps none; returns `Whole` with the
    /// index in `text` after the record's last byte, or `Open` with the new counts if the record is still partial.
    /// `Large` if the record begins with 0, `Oversize` if a list has a 255th entry.
    fn scan(&self, text: &[u8]) -> Result<Scan, FeedFault>
        requires { 0 < length text.now }
        ensures { Scans self.now text.now result }
    {
        if !self.bytes.is_empty() {
            return scan_lists(text, 0, self.remaining, self.entries);
        }
        let order = text[0];
        if order == 0 {
            return Err(FeedFault::Large);
        }
        scan_lists(text, 1, order, 0)
    }

    /// Appends `text`, after which `remaining` lists are not yet ended and the partial one has `entries` entries. It
    /// uses the buffer that `new` made for the longest record.
    fn keep(&mut self, text: &[u8], remaining: u8, entries: u8)
        requires { IsStarted (self.old ++ text.now) remaining entries }
        ensures { self.new ≡ self.old ++ text.now }
    {
        self.bytes.extend_from_slice(text).unwrap();
        self.remaining = remaining;
        self.entries = entries;
    }

    /// Appends `text` up to the record's end; returns the whole record and the number of bytes taken, and becomes
    /// empty, or returns `None` if `text` does not end it. `Large` if it begins with 0, `Oversize` at a list's 255th
    /// entry: it stays as it is. `Memory` if there is no memory for the whole record: it becomes empty.
    ///
    /// A record that lies whole in `text` is copied once. It runs out of memory only if `text` ends the record.
    pub fn read(&mut self, alloc: Global, text: &[u8]) -> Result<Option<(Record, usize)>, FeedFault>
        requires { 0 < length text.now }
        ensures { TakesFrom self.old text.now self.new result }
    {
        match self.scan(text)? {
            Scan::Open { remaining, entries } => {
                self.keep(text, remaining, entries);
                Ok(None)
            }
            Scan::Whole(end) => {
                let record = if self.bytes.is_empty() {
                    Record::from_slice(alloc, &text[..end])
                } else {
                    self.bytes.extend_from_slice(&text[..end]).unwrap();
                    let joined = Record::from_slice(alloc, self.bytes.as_slice());
                    self.bytes.clear();
                    joined
                };
                match record {
                    Ok(record) => Ok(Some((record, end))),
                    Err(_) => Err(FeedFault::Memory),
                }
            }
        }
    }
}
