//! Segments, wires between them, and pairs that share a level; lists of members, one list for each segment, chained
//! through one array; and sums of the pulls that move each segment up and down.
ghost use Rattle.std.specs.Prelude.{◌≡◌, ◌<◌, ◌≤◌, ◌+◌, ◌^◌, ℕ, vec_len, slice_index, OnOk, ◌↔◌, ◌==◌, if◌then◌else◌, [], length, true, IfOk};
ghost use Rattle.common.specs.Sums.{sum_below};
ghost use Rattle.least_length.specs.declared.segments.TheConstants.{MAX_WIRES, MAX_SIGHTS};
ghost use Rattle.least_length.specs.Lengths.{wire_at};
ghost use Rattle.least_length.specs.Weights.{down_at, sight_at, up_at};

use std::alloc::{AllocError, Global};

/// The maximum number of wires of a search or a certificate.
pub const MAX_WIRES: usize = 65_536;

/// The maximum number of segments of a search.
pub(crate) const MAX_SEGMENTS: usize = 65_533;

/// The maximum number of pairs of segments with a weight, of a search or a certificate.
pub const MAX_SIGHTS: usize = 16_384;

/// A segment: its coordinate along the axis, and the levels that it crosses, from the lowest to the highest.
#[derive(Clone, Copy, Debug, PartialEq, Eq)]
pub struct Segment {
    pub coordinate: u16,
    pub low: u16,
    pub high: u16,
}

/// A wire along the axis, given by the segments at its ends.
///
/// `level`, on which it runs, only guides the search; the result does not depend on it.
#[derive(Clone, Copy, Debug, PartialEq, Eq)]
pub struct Wire {
    pub from: u16,
    pub to: u16,
    pub level: u16,
}

/// A pair of segments with a weight; on some level the first is before the second.
#[derive(Clone, Copy, Debug, PartialEq, Eq)]
pub struct Sight {
    pub before: u16,
    pub behind: u16,
    pub weight: u32,
}

/// Members in lists. Members are numbered from 1 on in the order in which they are added; 0 ends a list.
///
/// A list is read from the member added last to the one added first.
#[derive(Drop)]
pub(crate) struct Chains {
    /// For each list, the member added last; 0 if none.
    firsts: Vec<u32>,
    /// For each member, the one added to its list before it; 0 if none.
    nexts: Vec<u32>,
    ghost firsts_in: { (list : ℕ) → slice_index firsts.items list ≤ vec_len nexts },
    ghost nexts_in: { (place : ℕ) → slice_index nexts.items place ≤ place },
}

impl Chains {
    /// Chains with no list and no member; nothing is allocated.
    pub(crate) fn empty(alloc: Global) -> Chains {
        Chains {
            firsts: Vec::new(alloc),
            nexts: Vec::new(alloc),
        }
    }

    /// Replaces all lists and members by `lists` empty lists, numbered from 0. `AllocError` if there is no memory for
    /// them; the old ones are then gone, too.
    pub(crate) fn begin(&mut self, lists: usize) -> Result<(), AllocError>
        ensures lists { OnOk result (vec_len self.new.firsts ≡ lists) }
        ensures members { OnOk result (vec_len self.new.nexts ≡ 0) }
    {
        self.firsts.clear();
        self.nexts.clear();
        self.firsts.resize(lists, 0)
    }

    /// Adds a new member, which gets the next number, at the front of the list `list`. `AllocError` if there is no
    /// memory for it; nothing changes then.
    pub(crate) fn add(&mut self, list: u16) -> Result<(), AllocError>
        requires list { list < vec_len self.old.firsts }
        requires few { vec_len self.old.nexts + 1 < 2 ^ 32 }
        ensures lists { vec_len self.new.firsts ≡ vec_len self.old.firsts }
        ensures members { OnOk result (vec_len self.new.nexts ≡ vec_len self.old.nexts + 1) }
    {
        let first = self.firsts[usize::from(list)];
        self.nexts.push(first)?;
        self.firsts[usize::from(list)] = self.nexts.len() as u32;
        Ok(())
    }

    /// The number of the first member of the list `list`, the one added last; 0 if the list is empty.
    pub(crate) fn first(&self, list: u16) -> u32
        requires { list < vec_len self.now.firsts }
        ensures { result ≤ vec_len self.now.nexts }
    {
        self.firsts[usize::from(list)]
    }

    /// The number of the member that follows `member` in its list, one added earlier; 0 if `member` is the last.
    pub(crate) fn next(&self, member: u32) -> u32
        requires some { 0 < member }
        requires member { member ≤ vec_len self.now.nexts }
        ensures { result < member }
    {
        self.nexts[member as usize - 1]
    }
}

/// Buffers for a test: the pulls on each segment up and down, and the frontier of a sweep.
#[derive(Drop)]
pub(crate) struct Balance {
    /// For each segment, the sum of the pulls up.
    up: Vec<u64>,
    /// For each segment, the sum of the pulls down.
    down: Vec<u64>,
    /// The buffer of `is_order_kept`.
    pub(crate) frontier: Vec<u32>,
}

impl Balance {
    /// Empty buffers; nothing is allocated.
    pub(crate) fn empty(alloc: Global) -> Balance
        ensures { result.up.items ≡ [] }
    {
        Balance {
            up: Vec::new(alloc),
            down: Vec::new(alloc),
            frontier: Vec::new(alloc),
        }
    }

    /// Whether each of `segments` segments is pulled up as much as down, by `wires` and by the weights of the pairs
    /// `sights`. Overwrites the buffers `up` and `down`; `AllocError` if there is no memory for them.
    pub(crate) fn is_balanced(
        &mut self,
        segments: usize,
        wires: &[Wire],
        sights: &[Sight],
    ) -> Result<bool, AllocError>
        requires wires { length wires.now ≤ MAX_WIRES }
        requires sights { length sights.now ≤ MAX_SIGHTS }
        requires ends { (i : ℕ) → i < length wires.now → ((wire_at wires.now i).from < segments) × ((wire_at wires.now i).to < segments) }
        requires pairs { (i : ℕ) → i < length sights.now → ((sight_at sights.now i).before < segments) × ((sight_at sights.now i).behind < segments) }
        ensures { IfOk result (λ even. (even ≡ true) ↔ ((r : ℕ) → r < segments → up_at wires.now sights.now r ≡ down_at wires.now sights.now r)) }
    {
        self.up.clear();
        self.up.resize(segments, 0)?;
        self.down.clear();
        self.down.resize(segments, 0)?;
        let up = self.up.as_mut_slice();
        Ok(is_balanced_in(wires, sights, up, self.down.as_mut_slice()))
    }
}

/// Whether each segment is pulled up as much as down. It adds the pulls of `wires` and of the weights of `sights` to
/// `up` and `down`, which have one entry for each segment and must be all zeros.
fn is_balanced_in(wires: &[Wire], sights: &[Sight], up: &mut [u64], down: &mut [u64]) -> bool
    requires wires { length wires.now ≤ MAX_WIRES }
    requires sights { length sights.now ≤ MAX_SIGHTS }
    requires sizes { length down.old ≡ length up.old }
    requires ends { (i : ℕ) → i < length wires.now → ((wire_at wires.now i).from < length up.old) × ((wire_at wires.now i).to < length up.old) }
    requires pairs { (i : ℕ) → i < length sights.now → ((sight_at sights.now i).before < length up.old) × ((sight_at sights.now i).behind < length up.old) }
    requires blank { (r : ℕ) → slice_index up.old r ≡ 0 }
    requires clear { (r : ℕ) → slice_index down.old r ≡ 0 }
    ensures { (result ≡ true) ↔ ((r : ℕ) → r < length up.old → up_at wires.now sights.now r ≡ down_at wires.now sights.now r) }
{
    add_wires(wires, up, down);
    add_sights(sights, up, down);
    are_same(up, down)
}

/// Adds, for each wire, 1 to the entry of `up` for the segment where it starts, and 1 to that of `down` for the segment
/// where it ends. All entries must be 0 at first.
pub(crate) fn add_wires(wires: &[Wire], up: &mut [u64], down: &mut [u64])
    requires few { length wires.now ≤ MAX_WIRES }
    requires starts { (i : ℕ) → i < length wires.now → (wire_at wires.now i).from < length up.old }
    requires ends { (i : ℕ) → i < length wires.now → (wire_at wires.now i).to < length down.old }
    requires blank { (r : ℕ) → slice_index up.old r ≡ 0 }
    requires clear { (r : ℕ) → slice_index down.old r ≡ 0 }
    ensures up { (r : ℕ) → r < length up.new → slice_index up.new r ≡ sum_below (length wires.now) (λ i. if (wire_at wires.now i).from == r then 1 else 0) }
    ensures light { (r : ℕ) → slice_index up.new r ≤ MAX_WIRES }
    ensures slight { (r : ℕ) → slice_index down.new r ≤ MAX_WIRES }
    ensures down { (r : ℕ) → r < length down.new → slice_index down.new r ≡ sum_below (length wires.now) (λ i. if (wire_at wires.now i).to == r then 1 else 0) }
{
    for wire in wires {
        up[usize::from(wire.from)] += 1;
        down[usize::from(wire.to)] += 1;
    }
}

/// Adds the weight of each pair in `sights` to the entry of `up` for its second segment, `behind`, and to that of
/// `down` for its first, `before`.
pub(crate) fn add_sights(sights: &[Sight], up: &mut [u64], down: &mut [u64])
    requires few { length sights.now ≤ MAX_SIGHTS }
    requires behind { (i : ℕ) → i < length sights.now → (sight_at sights.now i).behind < length up.old }
    requires before { (i : ℕ) → i < length sights.now → (sight_at sights.now i).before < length down.old }
    requires light { (r : ℕ) → slice_index up.old r ≤ MAX_WIRES }
    requires slight { (r : ℕ) → slice_index down.old r ≤ MAX_WIRES }
    ensures up { (r : ℕ) → r < length up.new → slice_index up.new r ≡ slice_index up.old r + sum_below (length sights.now) (λ i. if (sight_at sights.now i).behind == r then (sight_at sights.now i).weight else 0) }
    ensures down { (r : ℕ) → r < length down.new → slice_index down.new r ≡ slice_index down.old r + sum_below (length sights.now) (λ i. if (sight_at sights.now i).before == r then (sight_at sights.now i).weight else 0) }
{
    for sight in sights {
        up[usize::from(sight.behind)] += u64::from(sight.weight);
        down[usize::from(sight.before)] += u64::from(sight.weight);
    }
}

/// Whether `up` and `down`, of equal length, have equal entries at each index; true if both are empty.
pub(crate) fn are_same(up: &[u64], down: &[u64]) -> bool
    requires { length up.now ≡ length down.now }
    ensures { (result ≡ true) ↔ ((r : ℕ) → r < length up.now → slice_index up.now r ≡ slice_index down.now r) }
{
    for place in 0..up.len() {
        if up[place] != down[place] {
            return false;
        }
    }
    true
}
