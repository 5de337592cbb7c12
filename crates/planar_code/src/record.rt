//! Records of planar_code (plantri, Brinkmann and McKay): a number of vertices and their neighbour lists. Where a
//! record ends is found list by list. Bytes that are exactly one record are parsed into it.
ghost use Rattle.std.specs.Prelude.{◌≡◌, ◌≢◌, ℕ, ◌<◌, List, length, slice_index, ◌∷◌, All, IfOk, IfErr, IsOk, Err, ◌↔◌};
ghost use Rattle.planar_code.specs.Started.{IsStarted};
ghost use Rattle.planar_code.specs.Plain.{EndsList, EndsRecord};
ghost use Rattle.std.specs.List.{flat_map};
ghost use Rattle.planar_code.specs.Stream.{IsRecord, IsList, ended, lists_of};
ghost use Rattle.planar_code.specs.declared.record.ParseFault.{ParseFault};
ghost use Rattle.planar_code.specs.Parse.{IsParseFault};

use crate::MAX_LIST;
use smallvec::SmallVec;
use std::alloc::{AllocError, Global};
use std::marker::Model;
use thiserror::Error;

/// Where the first list or record in some bytes ends, or why it does not.
pub enum End {
    /// It ends after this many bytes.
    After(usize),
    /// The bytes end before it does.
    Truncated,
    /// A list has more than 254 entries.
    Oversize,
}

/// Where the list at the beginning of `bytes` ends: `After` with the number of its bytes and its 0, `Oversize` if it
/// has a 255th entry, or `Truncated` if the bytes end before its 0.
fn list_end(bytes: &[u8]) -> End
    ensures { (before : List ℕ) (remaining : ℕ) → IsStarted before remaining 0 → EndsList before remaining bytes.now result }
{
    for (i, byte) in bytes.iter().enumerate() {
        if *byte == 0 {
            return End::After(i + 1);
        }
        if i == MAX_LIST {
            return End::Oversize;
        }
    }
    End::Truncated
}

/// Where the record at the beginning of `bytes` ends: `After` with the number of its bytes, `Oversize` if a list has a
/// 255th entry, or `Truncated` if the bytes end before the record. There must be a first byte, other than 0; bytes
/// after the record do not matter.
pub fn record_end(bytes: &[u8]) -> End
    requires some { 0 < length bytes.now }
    requires nonzero { slice_index bytes.now 0 ≢ 0 }
    ensures { EndsRecord bytes.now result }
{
    let order = bytes[0];
    let mut at = 1;
    for done in 0..order {
        match list_end(&bytes[at..]) {
            End::After(end) => at += end,
            End::Truncated => return End::Truncated,
            End::Oversize => return End::Oversize,
        }
    }
    End::After(at)
}

/// The number of bytes of a record that fit in the value itself. Graphs of up to nine vertices of degree 4 have no
/// more, and most of ten.
const SHORT: usize = 48;

/// One record of a stream: its bytes, which are exactly one record. A record of at most 48 bytes allocates nothing.
#[derive(Debug, Drop)]
pub struct Record {
    bytes: SmallVec<u8, SHORT>,
}

impl Model for Record {
    ghost Value = { List ℕ };

    ghost view = { λ r. r.bytes.items };

    ghost invariant = { λ r. IsRecord r.bytes.items };
}

impl Record {
    /// A copy of `bytes`, which must be one record. `AllocError` if there are more than 48 bytes and no memory for
    /// them.
    ///
    /// A long one has a buffer of just their length.
    pub(crate) fn from_slice(alloc: Global, bytes: &[u8]) -> Result<Record, AllocError>
        requires { IsRecord bytes.now }
        ensures { IfOk result (λ r. r ≡ bytes.now) }
    {
        Ok(Record {
            bytes: SmallVec::from_slice(alloc, bytes)?,
        })
    }

    /// The record's bytes: n, followed by n neighbour lists, each ended by a 0.
    pub fn bytes(&self) -> &[u8]
        ensures value { result.now ≡ self.now }
        ensures is_record { IsRecord self.now }

        // The record is encoded by the lists that its bytes hold.
        ensures spelt { self.now ≡ length (lists_of self.now) ∷ flat_map ended (lists_of self.now) }
        ensures each { All IsList (lists_of self.now) }
    {
        self.bytes.as_slice()
    }

    /// The number of vertices and neighbour lists, 1 to 255: the first byte.
    pub fn order(&self) -> u8
        ensures first { result ≡ slice_index self.now 0 }
        ensures some { 0 < result }
        ensures lists { result ≡ length (lists_of self.now) }
    {
        self.bytes()[0]
    }
}

/// The reason why bytes are not parsed as one record.
#[derive(Clone, Copy, Debug, PartialEq, Eq, Hash, Error)]
pub enum ParseFault {
    /// The bytes are a proper prefix of a record, or there are none.
    #[error("the record is incomplete")]
    Unfinished,
    /// The first byte is 0, which is not a valid number of vertices. A framer calls this fault `Large`.
    #[error("the record begins with byte 0; the two-byte form is not supported")]
    Order,
    /// A neighbour list has a 255th entry.
    #[error("a neighbour list has more than 254 entries")]
    Oversize,
    /// The bytes are a record followed by more bytes.
    #[error("more bytes follow the record")]
    Long,
    /// The bytes are a record, but memory ran out for it.
    #[error("out of memory")]
    Memory,
}

impl Record {
    /// Parses `bytes` as exactly one record, and returns a copy of them. `Order` if the first byte is 0, `Oversize` if
    /// a list has a 255th entry, `Unfinished` if they end within a record or there are none, `Long` if more bytes
    /// follow the record, and `Memory` if they are a record of more than 48 bytes and there is no memory for it.
    ///
    /// The time is linear in their number, and only the record allocates.
    ///
    /// # Errors
    ///
    /// - `Order` if the first byte is 0;
    /// - `Oversize` if a neighbour list has a 255th entry;
    /// - `Unfinished` if the bytes end within a record, or there are none;
    /// - `Long` if more bytes follow a record;
    /// - `Memory` if the bytes are a record for which there is no memory.
    pub fn parse(alloc: Global, bytes: &[u8]) -> Result<Record, ParseFault>
        ensures record { IfOk result (λ r. r ≡ bytes.now) }

        // Unless memory runs out, it is Ok exactly if the bytes are one record.
        ensures ok_where_record { result ≢ Err ParseFault.Memory → (IsOk result ↔ IsRecord bytes.now) }
        ensures fault { IfErr result (IsParseFault bytes.now) }
    {
        if bytes.is_empty() {
            return Err(ParseFault::Unfinished);
        }
        if bytes[0] == 0 {
            return Err(ParseFault::Order);
        }
        match record_end(bytes) {
            End::Truncated => Err(ParseFault::Unfinished),
            End::Oversize => Err(ParseFault::Oversize),
            End::After(end) if end < bytes.len() => Err(ParseFault::Long),
            End::After(_) => match Record::from_slice(alloc, bytes) {
                Ok(record) => Ok(record),
                Err(_) => Err(ParseFault::Memory),
            },
        }
    }
}
