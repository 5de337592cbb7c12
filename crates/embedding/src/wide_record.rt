//! Wide records: a number of vertices, up to 1,200, and their neighbour lists, in entries of 16 bits; and theorems
//! about them, each as the contract of an empty function.
ghost use Rattle.std.specs.Prelude.{◌≡◌, ℕ, ◌<◌, ◌≤◌, List, ◌∷◌, length, slice_index, All, IfOk, IfErr, IsOk, IsTrue, ◌↔◌};
ghost use Rattle.std.specs.List.{flat_map};
ghost use Rattle.planar_code.specs.Stream.{ended, lists_of, IsRecord};
ghost use Rattle.embedding.specs.Wide.{IsWideRecord, IsWideList, IsWideFault, AreLists};
ghost use Rattle.embedding.specs.declared.wide_record.WideFault.{WideFault};

use common::MAX_VERTICES;
use std::marker::Model;
use thiserror::Error;

/// The maximum number of entries of a wide record, with its first and the zeros.
pub const MAX_ENTRIES: usize = 65_535;

/// The reason why entries are not one wide record.
#[derive(Clone, Copy, Debug, PartialEq, Eq, Hash, Error)]
pub enum WideFault {
    /// The first entry, the number of vertices, is above 1,200, whatever follows.
    #[error("the graph has more than 1200 vertices")]
    Large,
    /// There are no entries, the first is 0, there are fewer or more lists than it says, the last list has no 0 after
    /// it, or there are more than 65,535 entries.
    #[error("the entries are not one record")]
    Record,
}

/// One record with entries of 16 bits: n, from 1 to 1,200, and n neighbour lists, each of entries other than 0 with one
/// entry 0 after it; at most 65,535 entries in all. The bytes of a [`Record`](planar_code::Record) are such entries
/// too.
#[derive(Debug, Drop)]
pub struct WideRecord {
    entries: Vec<u16>,
}

impl Model for WideRecord {
    ghost Value = { List ℕ };

    ghost view = { λ r. r.entries.items };

    ghost invariant = { λ r. IsWideRecord r.entries.items };
}

/// Whether `entries` are exactly `count` lists, each ended by a 0, and nothing else.
fn are_lists(entries: &[u16], count: u16) -> bool
    ensures { IsTrue result ↔ AreLists entries.now count }
{
    let mut remaining = count;
    for i in 0..entries.len() {
        if remaining == 0 {
            return false;
        }
        if entries[i] != 0 {
            continue;
        }
        remaining -= 1;
    }
    remaining == 0
}

/// Whether `entries` are one wide record: first n, from 1 to 1,200, then exactly n lists, each ended by a 0, and at
/// most 65,535 entries in all.
fn is_wide_record(entries: &[u16]) -> bool
    ensures { IsTrue result ↔ IsWideRecord entries.now }
{
    if entries.is_empty() || entries.len() > MAX_ENTRIES {
        return false;
    }
    let order = entries[0];
    if order == 0 || usize::from(order) > MAX_VERTICES {
        return false;
    }
    are_lists(&entries[1..], order)
}

impl WideRecord {
    /// Checks that `entries` are one wide record, and returns it in their buffer. `Large` if the first entry is above
    /// 1,200; otherwise `Record` if they are not one wide record. After an error the buffer is dropped.
    ///
    /// The time is linear in their number, and it allocates nothing.
    ///
    /// # Errors
    ///
    /// - `Large` if the first entry is above 1,200;
    /// - `Record` otherwise, if the entries are not one wide record.
    pub fn new(entries: Vec<u16>) -> Result<WideRecord, WideFault>
        ensures record { IfOk result (λ r. r ≡ entries.items) }
        ensures ok_where_record { IsOk result ↔ IsWideRecord entries.items }
        ensures fault { IfErr result (IsWideFault entries.items) }
    {
        if is_wide_record(entries.as_slice()) {
            return Ok(WideRecord { entries });
        }
        if !entries.is_empty() && usize::from(entries[0]) > MAX_VERTICES {
            return Err(WideFault::Large);
        }
        Err(WideFault::Record)
    }

    /// The record's entries: n, followed by n neighbour lists, each ended by a 0.
    pub fn entries(&self) -> &[u16]
        ensures value { result.now ≡ self.now }
        ensures is_record { IsWideRecord self.now }

        // The record is encoded by the lists that its entries hold.
        ensures spelt { self.now ≡ length (lists_of self.now) ∷ flat_map ended (lists_of self.now) }
        ensures each { All IsWideList (lists_of self.now) }
        ensures short { length result.now ≤ MAX_ENTRIES }
    {
        self.entries.as_slice()
    }

    /// The number of vertices and neighbour lists, 1 to 1,200: the first entry.
    pub fn order(&self) -> u16
        ensures first { result ≡ slice_index self.now 0 }
        ensures some { 0 < result }
        ensures few { result ≤ MAX_VERTICES }
        ensures lists { result ≡ length (lists_of self.now) }
    {
        self.entries()[0]
    }
}

/// Theorem: the bytes of a record are the entries of a wide record.
pub fn record_is_wide()
    ensures { (bytes : List ℕ) → IsRecord bytes → IsWideRecord bytes }
{}

/// Theorem: a wide record's lists are those that its entries encode.
pub fn wide_record_lists()
    ensures { (entries : List ℕ) (r : IsWideRecord entries) → lists_of entries ≡ r.lists }
{}

/// Theorem: at most one fault fits given entries; entries that are one wide record have none.
pub fn one_wide_fault()
    ensures one { (entries : List ℕ) (fault other : WideFault)
        → IsWideFault entries fault
        → IsWideFault entries other
        → fault ≡ other }
    ensures none { (entries : List ℕ) (fault : WideFault) → IsWideFault entries fault → IsWideRecord entries → ⊥ }
{}
