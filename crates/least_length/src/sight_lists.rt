//! The visibility graph of segments (Lengauer 1990): the pairs that see each other on a level, listed by segment.

ghost use Rattle.std.specs.Prelude.{◌≡◌, ◌<◌, ◌≤◌, ◌+◌, ◌-◌, ◌*◌, ◌/◌, ℕ, [], length, vec_len, OnOk};
ghost use Rattle.least_length.specs.declared.segments.TheConstants.{MAX_SEGMENTS, MAX_SIGHTS, MAX_WIRES};
ghost use Rattle.least_length.specs.Lengths.{segment_at, wire_at};
ghost use Rattle.least_length.specs.Weights.{HasEnds};
ghost use Rattle.least_length.specs.Searching.{seen_at, ArePairs, IsMet};

use crate::segments::{Chains, Segment, Sight, Wire};
use std::alloc::{AllocError, Global};

/// The last segment and wire end met on a level.
#[derive(Clone, Copy, Debug)]
struct LastSeen {
    /// The index of the segment plus 1, or 0 if none.
    segment: u16,
    /// The index of the segment where the wire ends, plus 1, or 0 if none.
    end: u16,
}

/// Nothing has been met yet.
const NONE_SEEN: LastSeen = LastSeen { segment: 0, end: 0 };

/// The pairs of segments that see each other on some level, and the lists of pairs of each segment.
#[derive(Drop)]
pub(crate) struct SightLists {
    pub(crate) sights: Vec<Sight>,
    /// For each level, what was met last.
    frontier: Vec<LastSeen>,
    /// The wires, by the segments where they begin.
    wires: Chains,
    /// The ends of pairs, by their segments: from the last pair to the first, two for each.
    pub(crate) ends: Chains,
}

impl SightLists {
    /// No pairs and no lists of them; nothing is allocated.
    pub(crate) fn empty(alloc: Global) -> SightLists
        ensures { result.sights.items ≡ [] }
    {
        SightLists {
            sights: Vec::new(alloc),
            frontier: Vec::new(alloc),
            wires: Chains::empty(alloc),
            ends: Chains::empty(alloc),
        }
    }

    /// Replaces `sights` by the pairs of segments that see each other: each segment, in order, with those immediately
    /// before it on its levels; `ends` stays. `segments` must be in the order of their coordinates, and no level may be
    /// above `top`. `AllocError` if there is no memory for the buffers; what `sights` holds then does not matter.
    ///
    /// The weight of a pair is the number of levels on which a wire runs from one to the other, also a wire that begins
    /// before the first or ends behind the second. A pair that is met on several adjacent levels is listed once.
    pub(crate) fn list(
        &mut self,
        segments: &[Segment],
        wires: &[Wire],
        top: u16,
    ) -> Result<(), AllocError>
        requires few { length segments.now ≤ MAX_SEGMENTS }
        requires wires { length wires.now ≤ MAX_WIRES }
        requires ends { (i : ℕ) → i < length wires.now → HasEnds segments.now (wire_at wires.now i) }
        requires levels { (i : ℕ) → i < length wires.now → (wire_at wires.now i).level ≤ top }
        requires crossed { (r : ℕ) → (segment_at segments.now r).high ≤ top }
        ensures pairs { OnOk result (ArePairs (length segments.now) self.new.sights.items) }
    {
        list_wires(&mut self.wires, segments.len(), wires)?;
        self.sights.clear();
        self.frontier.clear();
        self.frontier.resize(usize::from(top) + 1, NONE_SEEN)?;
        list_pairs(
            &mut self.sights,
            self.frontier.as_mut_slice(),
            &self.wires,
            segments,
            wires,
        )
    }

    /// Replaces `ends` by a list for each of `segments` segments: the ends there of the pairs in `sights`, added from
    /// the last pair to the first, and so read from the first on. `AllocError` if there is no memory for `ends`, which
    /// is then incomplete.
    pub(crate) fn list_ends(&mut self, segments: usize) -> Result<(), AllocError>
        requires few { vec_len self.old.sights ≤ MAX_SIGHTS }
        requires pairs { ArePairs segments self.old.sights.items }
        ensures same { self.new.sights ≡ self.old.sights }
        ensures lists { OnOk result (vec_len self.new.ends.firsts ≡ segments) }
        ensures ends { OnOk result (vec_len self.new.ends.nexts ≡ 2 * vec_len self.new.sights) }
    {
        self.ends.begin(segments)?;
        let count = self.sights.len();
        for done in 0..count {
            let sight = self.sights[count - 1 - done];
            self.ends.add(sight.behind)?;
            self.ends.add(sight.before)?;
        }
        Ok(())
    }

    /// The index in `sights` of the pair to which the member `end` of `ends` belongs. Members are numbered from 1, two
    /// for each pair, from the last pair to the first; `end` must be one of these numbers.
    pub(crate) fn pair_of(&self, end: u32) -> usize
        requires some { 0 < end }
        requires end { end ≤ 2 * vec_len self.now.sights }
        ensures { result < vec_len self.now.sights }
    {
        self.sights.len() - (end as usize + 1) / 2
    }
}

/// Replaces `chains` by a list for each of `segments` segments: the wires that begin there, each by its index plus 1.
/// `AllocError` if there is no memory for `chains`, which is then incomplete.
fn list_wires(chains: &mut Chains, segments: usize, wires: &[Wire]) -> Result<(), AllocError>
    requires few { length wires.now ≤ MAX_WIRES }
    requires from { (i : ℕ) → i < length wires.now → (wire_at wires.now i).from < segments }
    ensures lists { OnOk result (vec_len chains.new.firsts ≡ segments) }
    ensures wires { OnOk result (vec_len chains.new.nexts ≡ length wires.now) }
{
    chains.begin(segments)?;
    for wire in wires {
        chains.add(wire.from)?;
    }
    Ok(())
}

/// Appends to `sights`, empty at first, the pairs of each segment, in order, with the segments met last on its levels.
/// `frontier`, where nothing is met at first, records what was met; `begun` lists the wires by the segments where they
/// begin. `AllocError` if there is no memory for `sights`; both are then incomplete.
fn list_pairs(
    sights: &mut Vec<Sight>,
    frontier: &mut [LastSeen],
    begun: &Chains,
    segments: &[Segment],
    wires: &[Wire],
) -> Result<(), AllocError>
    requires few { length segments.now ≤ MAX_SEGMENTS }
    requires none { vec_len sights.old ≡ 0 }
    requires met { IsMet 0 frontier.old }
    requires crossed { (r : ℕ) → r < length segments.now → (segment_at segments.now r).high < length frontier.old }
    requires lists { vec_len begun.now.firsts ≡ length segments.now }
    requires wires { vec_len begun.now.nexts ≡ length wires.now }
    requires to { (i : ℕ) → i < length wires.now → (wire_at wires.now i).to < MAX_SEGMENTS }
    requires levels { (i : ℕ) → i < length wires.now → (wire_at wires.now i).level < length frontier.old }
    ensures { OnOk result (ArePairs (length segments.now) sights.new.items) }
{
    for place in 0..segments.len() {
        let behind = place as u16;
        list_before(sights, frontier, segments[place], behind)?;
        note_ends(frontier, begun, wires, behind);
    }
    Ok(())
}

/// Appends to `sights` the pairs of `segment`, whose index is `behind`, with the segments in `frontier` on its levels,
/// and puts it there in their place; wires noted there stay. `AllocError` if there is no memory for `sights`: some
/// pairs are then missing, and `frontier` has changed on some levels.
fn list_before(
    sights: &mut Vec<Sight>,
    frontier: &mut [LastSeen],
    segment: Segment,
    behind: u16,
) -> Result<(), AllocError>
    requires behind { behind < MAX_SEGMENTS }
    requires crossed { segment.high < length frontier.old }
    requires met { IsMet behind frontier.old }
    requires pairs { ArePairs behind sights.old.items }
    ensures met { IsMet (behind + 1) frontier.new }
    ensures pairs { OnOk result (ArePairs (behind + 1) sights.new.items) }
{
    let mut last = 0;
    let mut weight: u32 = 0;
    for level in usize::from(segment.low)..usize::from(segment.high) + 1 {
        let here = frontier[level];
        if here.segment != last {
            list_pair(sights, last, behind, weight)?;
            weight = 0;
        }
        if here.end > behind {
            weight += 1;
        }
        last = here.segment;
        frontier[level].segment = behind + 1;
    }
    list_pair(sights, last, behind, weight)
}

/// Appends to `sights` the pair of the segments `before` minus 1 and `behind`, with this weight, or nothing if `before`
/// is 0. `AllocError` if there is no memory for `sights`, which then stays as it is.
fn list_pair(
    sights: &mut Vec<Sight>,
    before: u16,
    behind: u16,
    weight: u32,
) -> Result<(), AllocError>
    requires before { before ≤ behind }
    requires pairs { ArePairs (behind + 1) sights.old.items }
    ensures { ArePairs (behind + 1) sights.new.items }
{
    if before != 0 {
        sights.push(Sight {
            before: before - 1,
            behind,
            weight,
        })?;
    }
    Ok(())
}

/// Sets in `frontier`, on the level of each wire that begins at `segment`, the wire's end: its segment plus 1. The
/// segments noted in `frontier` stay. `begun` lists the wires by the segments where they begin.
fn note_ends(frontier: &mut [LastSeen], begun: &Chains, wires: &[Wire], segment: u16)
    requires list { segment < vec_len begun.now.firsts }
    requires wires { vec_len begun.now.nexts ≡ length wires.now }
    requires to { (i : ℕ) → i < length wires.now → (wire_at wires.now i).to < MAX_SEGMENTS }
    requires levels { (i : ℕ) → i < length wires.now → (wire_at wires.now i).level < length frontier.old }
    ensures { (level : ℕ) → (seen_at frontier.new level).segment ≡ (seen_at frontier.old level).segment }
{
    let mut listed = begun.first(segment);
    while listed != 0 {
        let wire = wires[listed as usize - 1];
        frontier[usize::from(wire.level)].end = wire.to + 1;
        listed = begun.next(listed);
    }
}
