//! Neighbour lists: borrowed from the entries that hold them, and written from a record's lists as numbers of 16 bits,
//! with the place where each list begins.
ghost use Rattle.std.specs.Prelude.{◌≡◌, ℕ, ◌<◌, ◌≤◌, List, length, slice_index, slice_index_or, [], Contains, ◌+◌};
ghost use Rattle.common.specs.declared.parameters.TheConstants.{MAX_VERTICES};
ghost use Rattle.embedding.specs.declared.wide_record.TheConstants.{MAX_ENTRIES};
ghost use Rattle.planar_code.specs.Stream.{lists_in, ended, lists_of};
ghost use Rattle.embedding.specs.Lists.{list_of};
ghost use Rattle.embedding.specs.Darts.{dart_count, first_dart};
ghost use Rattle.embedding.specs.Split.{HoldsLists, AreStarts};
ghost use Rattle.std.specs.List.{flat_map};

use common::MAX_VERTICES;
use planar_code::Record;
use std::marker::Model;

/// How many numbers there are from 0 to the maximum number of vertices.
pub(crate) const VERTEX_NUMBERS: usize = MAX_VERTICES + 1;

/// The lists that entries hold, each ended by a 0, and where each of them begins.
#[derive(Drop)]
pub(crate) struct Lists<'a> {
    entries: &'a [u16],
    starts: &'a [u16],
    count: u16,
}

impl<'a> Model for Lists<'a> {
    ghost use Rattle.std.specs.Prelude.{ℕ, List};
    ghost use Rattle.planar_code.specs.Stream.{lists_in};
    ghost use Rattle.embedding.specs.Split.{HoldsLists};

    ghost Value = { List (List ℕ) };

    ghost view = { λ l. lists_in l.entries.now };

    ghost invariant = { λ l. HoldsLists l.entries.now l.starts.now l.count };
}

impl<'a> Lists<'a> {
    /// The `count` lists that `entries` holds, each ended by a 0; `starts` says where each begins and where the last
    /// one ends. Nothing is copied.
    pub(crate) fn new(entries: &'a [u16], starts: &'a [u16], count: u16) -> Lists<'a>
        requires { HoldsLists entries.now starts.now count }
        ensures { result ≡ lists_in entries.now }
    {
        Lists {
            entries,
            starts,
            count,
        }
    }

    /// How many lists there are, 1 to 1,200.
    pub(crate) fn count(&self) -> u16
        ensures count { result ≡ length self.now }
        ensures some { 0 < result }
        ensures few { result ≤ MAX_VERTICES }
    {
        self.count
    }

    /// How many entries all lists have together, without the 0s that end them.
    pub(crate) fn darts(&self) -> usize
        ensures count { result ≡ dart_count self.now }
        ensures few { result < MAX_ENTRIES }
    {
        self.entries.len() - usize::from(self.count)
    }

    /// The entries of the list at `place`, counted from 0, without the 0 that ends it; empty if it has none.
    pub(crate) fn at(&self, place: u16) -> &'a [u16]
        requires { place < length self.now }
        ensures value { result.now ≡ slice_index_or self.now place [] }
        ensures short { length result.now < MAX_ENTRIES }
        ensures few { length self.now ≤ MAX_VERTICES }
    {
        let place = usize::from(place);
        let from = usize::from(self.starts[place]);
        let to = usize::from(self.starts[place + 1]);
        &self.entries[from..to - 1]
    }

    /// The first three numbers from where the list at `place`, counted from 0, begins, also those behind it if it is
    /// shorter; it must not be empty. If only two numbers are left in the entries, the second one is returned twice.
    fn three_at(&self, place: u16) -> [u16; 3]
        requires within { place < length self.now }
        requires some { 0 < length (slice_index_or self.now place []) }
        ensures { (i : ℕ) → i < 3 → i < length (slice_index_or self.now place [])
            → slice_index result i ≡ slice_index (slice_index_or self.now place []) i }
    {
        let first = usize::from(self.starts[usize::from(place)]);
        let third = (first + 2).min(self.entries.len() - 1);
        [
            self.entries[first],
            self.entries[first + 1],
            self.entries[third],
        ]
    }

    /// The index, 0 to 3, of `vertex` in the list at `place`, counted from 0. The list must contain it and have at most
    /// four entries.
    ///
    /// No branch depends on the index, and the end of the list is not looked for: what follows the list comes after the
    /// vertex.
    pub(crate) fn place_in(&self, place: u16, vertex: u16) -> u16
        requires within { place < length self.now }
        requires held { Contains (slice_index_or self.now place []) vertex }
        requires short { length (slice_index_or self.now place []) ≤ 4 }
        ensures within { result < length (slice_index_or self.now place []) }
        ensures here { slice_index (slice_index_or self.now place []) result ≡ vertex }
    {
        let [first, second, third] = self.three_at(place);
        let past_first = first != vertex;
        let past_second = past_first & (second != vertex);
        let past_third = past_second & (third != vertex);
        u16::from(past_first) + u16::from(past_second) + u16::from(past_third)
    }

    /// The entries of the list of `vertex`, without the 0 that ends it; empty if `vertex` is 0 or above the number of
    /// lists.
    pub(crate) fn of_vertex(&self, vertex: u16) -> &'a [u16]
        ensures value { result.now ≡ list_of self.now vertex }
        ensures few { length self.now ≤ MAX_VERTICES }
    {
        if vertex > self.count() || vertex == 0 {
            &[]
        } else {
            self.at(vertex - 1)
        }
    }

    /// The number of the first dart of the list at `place`, counted from 0; for an empty list, the number of entries
    /// before it.
    pub(crate) fn first_dart(&self, place: u16) -> u16
        requires { place < length self.now }
        ensures value { result ≡ first_dart self.now place }
        ensures few { dart_count self.now < MAX_ENTRIES }
    {
        self.starts[usize::from(place)] - place
    }
}

/// Room for the entries of a graph of 12 vertices whose degrees are at most 4, and of smaller ones.
pub(crate) const SHORT_ENTRIES: usize = 64;

/// Room for where each of 15 lists begins, and where the last one ends.
pub(crate) const SHORT_STARTS: usize = 16;

/// Room for the entries of a graph of 62 vertices whose degrees are at most 4, and of smaller ones.
pub(crate) const FEW_ENTRIES: usize = 310;

/// Room for where each of 62 lists begins, and where the last one ends.
pub(crate) const FEW_STARTS: usize = 63;

/// Room for the entries of a graph of 255 vertices whose degrees are at most 4.
pub(crate) const SOME_ENTRIES: usize = 1_275;

/// Room for the entries of any record.
pub(crate) const RECORD_ENTRIES: usize = 65_025;

/// Room for where each list of any record begins, and where the last one ends.
pub(crate) const RECORD_STARTS: usize = 256;

/// Room for where each list of any wide record begins, and where the last one ends.
pub(crate) const WIDE_STARTS: usize = MAX_VERTICES + 1;

/// The number of entries of a record's lists, with the 0 that ends each: all its bytes but the first.
pub(crate) fn entry_count(rec: &Record) -> usize
    ensures size { result + 1 ≡ length rec.now }
    ensures few { result ≤ RECORD_ENTRIES }
{
    rec.bytes().len() - 1
}

/// Copies `bytes`, which are lists with a 0 after each, to `entries` as numbers of 16 bits, and writes to `starts`
/// where each list begins and then where the last one ends. `entries` must be as long as `bytes`, and `starts` longer
/// than the number of lists.
///
/// It does this in one pass. Each byte might be the 0 that ends its list, so the place after it is always written, and
/// kept only if it is 0.
fn copy_lists(bytes: &[u8], entries: &mut [u16], starts: &mut [u16])
    requires spelt { bytes.now ≡ flat_map ended (lists_in bytes.now) }
    requires size { length entries.old ≡ length bytes.now }
    requires short { length bytes.now < MAX_ENTRIES }
    requires room { length (lists_in bytes.now) < length starts.old }
    ensures copied { entries.new ≡ bytes.now }
    ensures size { length starts.new ≡ length starts.old }
    ensures starts { AreStarts (lists_in bytes.now) starts.new }
{
    starts[0] = 0;
    let mut count = 0;
    for (i, byte) in bytes.iter().enumerate() {
        entries[i] = u16::from(*byte);
        starts[count + 1] = (i + 1) as u16;
        count += usize::from(*byte == 0);
    }
}

/// Writes to `starts` where each list in `entries` begins, and then where the last one ends, after its 0. `starts` must
/// be longer than the number of lists.
///
/// It does this in one pass over the entries, as [`copy_lists`] does.
pub(crate) fn find_starts(entries: &[u16], starts: &mut [u16])
    requires spelt { entries.now ≡ flat_map ended (lists_in entries.now) }
    requires short { length entries.now < MAX_ENTRIES }
    requires room { length (lists_in entries.now) < length starts.old }
    ensures size { length starts.new ≡ length starts.old }
    ensures starts { AreStarts (lists_in entries.now) starts.new }
{
    starts[0] = 0;
    let mut count = 0;
    for (i, entry) in entries.iter().enumerate() {
        starts[count + 1] = (i + 1) as u16;
        count += usize::from(*entry == 0);
    }
}

/// Writes to `entries` the lists of `rec`, with a 0 after each, and to `starts` where each list begins and then where
/// the last one ends; returns the number of lists. `entries` must be one shorter than the record's bytes, and `starts`
/// longer than the number of lists.
pub(crate) fn write_lists(rec: &Record, entries: &mut [u16], starts: &mut [u16]) -> u16
    requires size { length entries.old + 1 ≡ length rec.now }
    requires short { length entries.old < MAX_ENTRIES }
    requires room { length (lists_of rec.now) < length starts.old }
    ensures holds { HoldsLists entries.new starts.new result }
    ensures lists { lists_in entries.new ≡ lists_of rec.now }
{
    copy_lists(&rec.bytes()[1..], entries, starts);
    u16::from(rec.order())
}
