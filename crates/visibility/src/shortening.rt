//! Coordinates of segments with which the edges across them are shortest in all (Lengauer 1990; `least_length`).

ghost use Rattle.std.specs.Prelude.{◌≡◌, ◌<◌, ◌≤◌, ℕ, [], length, vec_len, slice_index, true, IfOk, OnOk};
ghost use Rattle.visibility.specs.declared.segments.TheConstants.{MAX_COORDINATE};
ghost use Rattle.visibility.specs.Axes.{AreFew, AreListed, HaveEnds, KeepEnds};
ghost use Rattle.visibility.specs.Crossing.{AreCrossed};

use crate::segments::{MAX_COORDINATE, Segment, Segments};
use least_length::{Wire, find_shorter, write_if_shorter};
use std::alloc::{AllocError, Global};

/// How many segments the searches for one drawing may go over in all, each counted each time. Only drawings with many
/// segments round one another need more.
const MAX_LOOKS: u64 = 28_000;

/// The buffers of a shortening.
#[derive(Drop)]
pub(crate) struct Shortening {
    /// The segments in the order of their coordinates.
    segments: Vec<least_length::Segment>,
    wires: Vec<Wire>,
    /// For each segment its place in that order.
    places: Vec<u16>,
    /// The coordinates found, in that order.
    coordinates: Vec<u16>,
    /// How many more segments the searches for this drawing may go over.
    looks: u64,
    search: least_length::Scratch,
}

impl Shortening {
    /// Empty buffers and no looks; nothing is allocated.
    pub(crate) fn empty(alloc: Global) -> Shortening
        ensures { result.wires.items ≡ [] }
    {
        Shortening {
            segments: Vec::new(alloc),
            wires: Vec::new(alloc),
            places: Vec::new(alloc),
            coordinates: Vec::new(alloc),
            looks: 0,
            search: least_length::Scratch::empty(alloc),
        }
    }

    /// Sets the looks to `MAX_LOOKS`: the number of segments that the searches for a drawing may go over in all.
    pub(crate) fn begin(&mut self) {
        self.looks = MAX_LOOKS;
    }

    /// Gives `along` coordinates with which the segments of the other axis, `other`, are shortest in all, while `along`
    /// keeps its order on each level; returns whether they are shorter then, and if not, leaves `along` as it is. Takes
    /// looks for the search. `AllocError` if there is no memory: `along` is as it was, or its new lists are missing.
    ///
    /// The search that takes the last of the looks for this drawing may leave them shorter, and yet not shortest.
    pub(crate) fn shorten(
        &mut self,
        along: &mut Segments,
        other: &Segments,
    ) -> Result<bool, AllocError>
        requires { AreCrossed along.old other.now }
        ensures { OnOk result (AreCrossed along.new other.now) }
    {
        if self.looks == 0 || other.are_shortest(along) {
            return Ok(false);
        }
        if !self.list_segments(along, other.segments.as_slice())? {
            return Ok(false);
        }
        self.list_wires(other.segments.as_slice())?;
        let segments = self.segments.as_slice();
        let wires = self.wires.as_slice();
        if !find(
            &mut self.search,
            segments,
            wires,
            &mut self.looks,
            &mut self.coordinates,
        )? {
            return Ok(false);
        }
        // The search does not say how great coordinates are.
        if !are_low(self.coordinates.as_slice()) {
            return Ok(false);
        }
        assign(
            along.segments.as_mut_slice(),
            self.places.as_slice(),
            self.coordinates.as_slice(),
        );
        along.list_anew()?;
        Ok(true)
    }

    /// Replaces `segments` by those of `along` in the order of their coordinates, with the levels that they cross by
    /// `other`, the segments of the other axis, and `places` by the place of each there. False if more or fewer are
    /// listed than there are, `AllocError` if there is no memory for the two: both are then incomplete.
    fn list_segments(&mut self, along: &Segments, other: &[Segment]) -> Result<bool, AllocError>
        requires listed { AreListed along.now.segments.items along.now.firsts.items }
        requires ends { HaveEnds along.now.segments.items (length other.now) }
        ensures segments { IfOk result (λ listed. listed ≡ true → vec_len self.new.segments ≡ vec_len along.now.segments) }
        ensures count { OnOk result (vec_len self.new.places ≡ vec_len along.now.segments) }
        ensures places { OnOk result ((r : ℕ) → r < vec_len along.now.segments → slice_index self.new.places.items r < vec_len along.now.segments) }
    {
        self.segments.clear();
        self.places.clear();
        self.places.resize(along.segments.len(), 0)?;
        let segments = along.segments.as_slice();
        for first in along.firsts.as_slice() {
            let mut named = *first;
            for _ in 0..segments.len() {
                if named == 0 {
                    break;
                }
                let place = self.segments.len();
                // No invariant says that each segment is in one list only.
                if place >= segments.len() {
                    return Ok(false);
                }
                let segment = segments[usize::from(named) - 1];
                let (low, high) = segment.span(other);
                let coordinate = segment.coordinate;
                self.places[usize::from(named) - 1] = place as u16;
                self.segments.push(least_length::Segment {
                    coordinate,
                    low,
                    high,
                })?;
                named = segment.next;
            }
        }
        Ok(self.segments.len() == segments.len())
    }

    /// Replaces `wires` by one for each segment of the other axis, `other`, from the place of the segment where it
    /// begins to that where it ends, without those that begin and end on the same one. `AllocError` if there is no
    /// memory for `wires`, which is then incomplete.
    fn list_wires(&mut self, other: &[Segment]) -> Result<(), AllocError>
        requires { HaveEnds other.now (vec_len self.old.places) }
        ensures places { self.new.places ≡ self.old.places }
        ensures segments { self.new.segments ≡ self.old.segments }
    {
        self.wires.clear();
        for segment in other {
            if segment.begins_on != segment.ends_on {
                self.wires.push(Wire {
                    from: self.places[usize::from(segment.begins_on)],
                    to: self.places[usize::from(segment.ends_on)],
                    level: segment.coordinate,
                })?;
            }
        }
        Ok(())
    }
}

/// Writes to `coordinates` those with which the wires are shortest, or only shorter if the search runs out of `looks`;
/// it takes one for each segment gone over. False if it finds none. After false or an error, what `coordinates` holds
/// does not matter. Overwrites the buffers of `search`; `AllocError` if there is no memory for them.
fn find(
    search: &mut least_length::Scratch,
    segments: &[least_length::Segment],
    wires: &[Wire],
    looks: &mut u64,
    coordinates: &mut Vec<u16>,
) -> Result<bool, AllocError>
    ensures { IfOk result (λ found. found ≡ true → length coordinates.new.items ≡ length segments.now) }
{
    if find_shorter(search, segments, wires, looks, coordinates)? {
        return Ok(true);
    }
    if *looks > 0 {
        return Ok(false);
    }
    write_if_shorter(search, segments, wires, coordinates)
}

/// Gives each of `segments` a coordinate found: segment r the one at the place `places[r]` in `coordinates`. It does
/// not list them anew.
fn assign(segments: &mut [Segment], places: &[u16], coordinates: &[u16])
    requires count { length places.now ≡ length segments.old }
    requires places { (r : ℕ) → r < length places.now → slice_index places.now r < length coordinates.now }
    requires low { (r : ℕ) → slice_index coordinates.now r ≤ MAX_COORDINATE }
    requires few { AreFew segments.old }
    ensures few { AreFew segments.new }
    ensures ends { KeepEnds segments.old segments.new }
{
    for segment in 0..segments.len() {
        segments[segment].coordinate = coordinates[usize::from(places[segment])];
    }
}

/// Whether none of `coordinates` is above `MAX_COORDINATE`, the greatest that segments can have; true if there are
/// none.
fn are_low(coordinates: &[u16]) -> bool
    ensures { result ≡ true → (r : ℕ) → slice_index coordinates.now r ≤ MAX_COORDINATE }
{
    for coordinate in coordinates {
        if *coordinate > MAX_COORDINATE {
            return false;
        }
    }
    true
}
