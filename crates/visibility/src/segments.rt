//! Segments: largest sets of vertices and corners that edges join along one axis (Lengauer 1990).

ghost use Rattle.std.specs.Prelude.{◌≡◌, ◌<◌, ◌≤◌, ◌+◌, ◌^◌, ℕ, [], length, vec_len, slice_index, slice_set, IfOk, IfSome, OnOk};
ghost use Rattle.visibility.specs.declared.segments.TheConstants.{MAX_COORDINATE, MAX_SEGMENTS};
ghost use Rattle.visibility.specs.Axes.{segment_at, AreBelow, AreFew, AreListed, HaveEnds, KeepEnds};

use crate::listing::StraightEdges;
use common::MAX_VERTICES;
use std::alloc::{AllocError, AllocFailed, Global};
use std::mem;

/// The maximum number of segments along one axis, so that one more than the index of one fits a `u16`.
pub(crate) const MAX_SEGMENTS: usize = 65_534;

/// The maximum coordinate of a segment.
pub(crate) const MAX_COORDINATE: u16 = 65_534;

/// The reason why no segments were listed.
#[derive(Clone, Copy, Debug)]
pub(crate) enum SegmentFault {
    /// Memory ran out.
    Memory,
    /// There are more vertices, corners, segments or parts of edges than the lists can hold, or a coordinate is too
    /// great for them. It also stands where no invariant says that an entry of one list is in the range of the next.
    TooLarge,
}

impl From<AllocError> for SegmentFault {
    /// Returns `Memory`, whatever the error.
    fn from(_refused: AllocError) -> SegmentFault {
        SegmentFault::Memory
    }
}

impl<T: Drop> From<AllocFailed<T>> for SegmentFault {
    /// Returns `Memory`, whatever the error, and drops what could not be stored.
    fn from(_refused: AllocFailed<T>) -> SegmentFault {
        SegmentFault::Memory
    }
}

/// A segment. All that lies on it has one coordinate along the axis that it crosses.
#[derive(Clone, Copy, Debug)]
pub(crate) struct Segment {
    /// That coordinate.
    pub(crate) coordinate: u16,
    /// Where it begins: the place of a vertex or corner, and from `find_ends` on the segment of the other axis
    /// on which that lies.
    pub(crate) begins_on: u16,
    /// Where it ends, likewise.
    pub(crate) ends_on: u16,
    /// The number of segments of the other axis that begin on it.
    pub(crate) begun: u16,
    /// The number of segments of the other axis that end on it.
    pub(crate) ended: u16,
    /// The next one of the segments with its coordinate, by its index plus 1; 0 if none.
    pub(crate) next: u16,
    /// The number of parts of edges that join its vertices and corners, one after another.
    parts: u16,
}

impl Segment {
    /// Whether this segment is surely as short as can be while the segments of the other axis, `along`, keep their
    /// order: no part of an edge on it is longer than 1, or steps of 1 lead from where it begins to where it ends
    /// (`leads`). False also if that is not seen. `other` are the segments of its own axis.
    fn is_shortest(&self, other: &[Segment], along: &Segments) -> bool
        requires begins { self.now.begins_on < vec_len along.now.segments }
        requires ends { self.now.ends_on < vec_len along.now.segments }
        requires listed { AreListed along.now.segments.items along.now.firsts.items }
        requires met { HaveEnds along.now.segments.items (length other.now) }
    {
        let from = along.segments[usize::from(self.begins_on)];
        let to = along.segments[usize::from(self.ends_on)];
        from.coordinate.abs_diff(to.coordinate) <= self.parts || along.leads(other, from, to)
    }

    /// A bit for each level that the segment crosses, the lowest bit for level 0; 0 if it crosses a level above 63.
    /// `other` are the segments of the other axis.
    fn levels(&self, other: &[Segment]) -> u64
        requires begins { self.now.begins_on < length other.now }
        requires ends { self.now.ends_on < length other.now }
    {
        let (low, high) = self.span(other);
        if high > 63 {
            return 0;
        }
        (u64::MAX >> (63 - (high - low))) << low
    }

    /// The lowest and the highest level that the segment crosses, in this order: the coordinates of the segments on
    /// which it begins and ends, in `other`, the segments of the other axis.
    pub(crate) fn span(&self, other: &[Segment]) -> (u16, u16)
        requires begins { self.now.begins_on < length other.now }
        requires ends { self.now.ends_on < length other.now }
        ensures order { result.0 ≤ result.1 }
        ensures room { (room : ℕ) → AreBelow room other.now → result.1 < room }
    {
        let begin = other[usize::from(self.begins_on)].coordinate;
        let end = other[usize::from(self.ends_on)].coordinate;
        (begin.min(end), begin.max(end))
    }
}

/// The segments that cross one axis.
#[derive(Drop)]
pub(crate) struct Segments {
    pub(crate) segments: Vec<Segment>,
    /// The segment on which each vertex lies, and after them each corner, edge after edge.
    pub(crate) of: Vec<u16>,
    /// For each coordinate up to the greatest the first one of the segments that have it, by its index plus 1; 0 if
    /// none.
    pub(crate) firsts: Vec<u16>,
    /// The edges without corners along these segments.
    pub(crate) edges: StraightEdges,
}

impl Segments {
    /// No segments; nothing is allocated.
    pub(crate) fn empty(alloc: Global) -> Segments
        ensures { result.of.items ≡ [] }
    {
        Segments {
            segments: Vec::new(alloc),
            of: Vec::new(alloc),
            firsts: Vec::new(alloc),
            edges: StraightEdges::empty(alloc),
        }
    }

    /// Removes all segments, their lists and their straight edges, and makes a place for each of `vertices` vertices.
    /// `AllocError` if there is no memory for the places or the edges; the old segments are then gone, too.
    pub(crate) fn begin(&mut self, vertices: u16) -> Result<(), AllocError>
        ensures few { OnOk result (AreFew self.new.segments.items) }
        ensures of { OnOk result (vec_len self.new.of ≡ vertices) }
        ensures edges { OnOk result (vec_len self.new.edges.beside ≡ vertices + 1) }
    {
        self.segments.clear();
        self.firsts.clear();
        self.of.clear();
        self.of.resize(usize::from(vertices), 0)?;
        self.edges.begin(vertices)
    }

    /// Appends a segment with this coordinate that reaches from the vertex or corner at the place `begins_on` to the
    /// one at `ends_on`, over `parts` parts of edges, and returns its index. `TooLarge` if there are `MAX_SEGMENTS`
    /// already or `coordinate` is above `MAX_COORDINATE`, `Memory` if there is no memory; nothing changes then.
    pub(crate) fn add(
        &mut self,
        coordinate: u32,
        begins_on: u16,
        ends_on: u16,
        parts: u16,
    ) -> Result<u16, SegmentFault>
        requires few { AreFew self.old.segments.items }
        ensures few { AreFew self.new.segments.items }
        ensures of { self.new.of ≡ self.old.of }
        ensures edges { vec_len self.new.edges.beside ≡ vec_len self.old.edges.beside }
        ensures count { vec_len self.old.segments ≤ vec_len self.new.segments }
        ensures added { IfOk result (λ segment. segment < vec_len self.new.segments) }
    {
        let place = self.segments.len();
        if place >= MAX_SEGMENTS || coordinate > u32::from(MAX_COORDINATE) {
            return Err(SegmentFault::TooLarge);
        }
        self.segments.push(Segment {
            coordinate: coordinate as u16,
            begins_on,
            ends_on,
            begun: 0,
            ended: 0,
            next: 0,
            parts,
        })?;
        Ok(place as u16)
    }

    /// Appends the segment with this coordinate of `vertex` and all vertices ahead of it on straight edges, and sets it
    /// for their places; does nothing if such an edge leads to `vertex`. `TooLarge` as in `add`, or if an edge leads to
    /// a vertex with no place: the segment is then incomplete. `Memory` if there is no memory; nothing changes then.
    pub(crate) fn add_straight(&mut self, vertex: u16, coordinate: u32) -> Result<(), SegmentFault>
        requires vertex { 0 < vertex }
        requires place { vertex ≤ vec_len self.old.of }
        requires edges { vec_len self.old.of < vec_len self.old.edges.beside }
        requires few { AreFew self.old.segments.items }
        ensures few { AreFew self.new.segments.items }
        ensures of { vec_len self.new.of ≡ vec_len self.old.of }
        ensures edges { vec_len self.new.edges.beside ≡ vec_len self.old.edges.beside }
    {
        if self.edges.has_lower_neighbour(vertex) {
            return Ok(());
        }
        let first = vertex - 1;
        let segment = self.add(coordinate, first, first, 0)?;
        let mut last = vertex;
        let mut parts = 0;
        for steps in 0..MAX_VERTICES {
            // No invariant says that an edge leads to one of the vertices that have places.
            let of = self.of.get_mut(usize::from(last) - 1);
            *of.ok_or(SegmentFault::TooLarge)? = segment;
            let ahead = self.edges.ahead(last);
            if ahead == 0 {
                break;
            }
            parts = steps as u16 + 1;
            last = ahead;
        }
        let added = &mut self.segments[usize::from(segment)];
        added.ends_on = last - 1;
        added.parts = parts;
        Ok(())
    }

    /// Makes the segment with the index `segment` end at the vertex or corner at `place` if `is_end`, and otherwise
    /// begin there, and adds 1 to its parts. `TooLarge` if it has 65,535 parts already; nothing changes then.
    pub(crate) fn extend(
        &mut self,
        segment: u16,
        place: u16,
        is_end: bool,
    ) -> Result<(), SegmentFault>
        requires few { AreFew self.old.segments.items }
        requires segment { segment < vec_len self.old.segments }
        ensures few { AreFew self.new.segments.items }
        ensures of { self.new.of ≡ self.old.of }
        ensures count { vec_len self.new.segments ≡ vec_len self.old.segments }
    {
        let segment = &mut self.segments[usize::from(segment)];
        // No invariant says how many parts there are.
        segment.parts = segment.parts.checked_add(1).ok_or(SegmentFault::TooLarge)?;
        if is_end {
            segment.ends_on = place;
        } else {
            segment.begins_on = place;
        }
        Ok(())
    }

    /// Whether each segment is surely as short as can be while the segments of the other axis, `along`, keep their
    /// order; false also if that is not seen, and true if there are no segments.
    pub(crate) fn are_shortest(&self, along: &Segments) -> bool
        requires ends { HaveEnds self.now.segments.items (vec_len along.now.segments) }
        requires listed { AreListed along.now.segments.items along.now.firsts.items }
        requires met { HaveEnds along.now.segments.items (vec_len self.now.segments) }
    {
        let segments = self.segments.as_slice();
        for segment in segments {
            if !segment.is_shortest(segments, along) {
                return false;
            }
        }
        true
    }

    /// The sum of the lengths of all segments, as the segments of the other axis, `along`, are placed on which they
    /// begin and end; 0 if there are no segments.
    pub(crate) fn length(&self, along: &Segments) -> u64
        requires few { vec_len self.now.segments ≤ MAX_SEGMENTS }
        requires ends { HaveEnds self.now.segments.items (vec_len along.now.segments) }
        ensures { result < 2 ^ 32 }
    {
        let mut length: u64 = 0;
        for segment in self.segments.as_slice() {
            let from = along.segments[usize::from(segment.begins_on)].coordinate;
            let to = along.segments[usize::from(segment.ends_on)].coordinate;
            length += u64::from(from.abs_diff(to));
        }
        length
    }

    /// Whether steps of 1 lead over segments from `from` up to `to`, each to one that shares a level with the segment
    /// before: then the two cannot come nearer to each other while segments on each level keep their order. It does not
    /// see segments that cross a level above 63; `other` are the segments of the other axis.
    fn leads(&self, other: &[Segment], from: Segment, to: Segment) -> bool
        requires from_begins { from.begins_on < length other.now }
        requires from_ends { from.ends_on < length other.now }
        requires to_begins { to.begins_on < length other.now }
        requires to_ends { to.ends_on < length other.now }
        requires to_listed { to.coordinate < vec_len self.now.firsts }
        requires listed { AreListed self.now.segments.items self.now.firsts.items }
        requires met { HaveEnds self.now.segments.items (length other.now) }
    {
        let mut levels = from.levels(other);
        for coordinate in usize::from(from.coordinate) + 1..usize::from(to.coordinate) {
            levels = self.levels_reached(other, coordinate, levels);
        }
        levels & to.levels(other) != 0
    }

    /// The levels, one bit each, of all segments with this coordinate that cross one of `levels`; 0 if there are none.
    /// It does not see segments that cross a level above 63; `other` are the segments of the other axis.
    fn levels_reached(&self, other: &[Segment], coordinate: usize, levels: u64) -> u64
        requires coordinate { coordinate < vec_len self.now.firsts }
        requires listed { AreListed self.now.segments.items self.now.firsts.items }
        requires met { HaveEnds self.now.segments.items (length other.now) }
    {
        let segments = self.segments.as_slice();
        let mut behind = 0;
        let mut named = self.firsts[coordinate];
        for _ in 0..segments.len() {
            if named == 0 {
                break;
            }
            let segment = segments[usize::from(named) - 1];
            let own = segment.levels(other);
            if own & levels != 0 {
                behind |= own;
            }
            named = segment.next;
        }
        behind
    }

    /// Replaces the lists of segments by empty ones, one for each coordinate up to the greatest of a segment.
    /// `AllocError` if there is no memory for them; the old lists are then gone, too.
    fn begin_lists(&mut self) -> Result<(), AllocError>
        requires { AreFew self.old.segments.items }
        ensures same { self.new.segments ≡ self.old.segments }
        ensures of { self.new.of ≡ self.old.of }
        ensures listed { OnOk result (AreListed self.new.segments.items self.new.firsts.items) }
    {
        let greatest = greatest_of(self.segments.as_slice());
        self.firsts.clear();
        self.firsts.resize(usize::from(greatest) + 1, 0)
    }

    /// Replaces the lists of segments by new ones, one for each coordinate up to the greatest of a segment, with each
    /// segment in that of its coordinate. `AllocError` if there is no memory for them; the old lists are then gone,
    /// too.
    pub(crate) fn list_anew(&mut self) -> Result<(), AllocError>
        requires few { AreFew self.old.segments.items }
        ensures listed { OnOk result (AreListed self.new.segments.items self.new.firsts.items) }
        ensures count { vec_len self.new.segments ≡ vec_len self.old.segments }
        ensures ends { KeepEnds self.old.segments.items self.new.segments.items }
    {
        self.begin_lists()?;
        list_all(self.segments.as_mut_slice(), self.firsts.as_mut_slice());
        Ok(())
    }

    /// Gives each segment a coordinate of its own, from 0 on, in the order of those that they have, and makes the lists
    /// anew. `TooLarge` if more are listed than there are, `Memory` if there is no memory for the lists: coordinates
    /// have then changed, and the lists do not fit them.
    pub(crate) fn set_apart(&mut self) -> Result<(), SegmentFault>
        requires listed { AreListed self.old.segments.items self.old.firsts.items }
        ensures listed { OnOk result (AreListed self.new.segments.items self.new.firsts.items) }
        ensures count { vec_len self.new.segments ≡ vec_len self.old.segments }
        ensures ends { KeepEnds self.old.segments.items self.new.segments.items }
    {
        spread(self.segments.as_mut_slice(), self.firsts.as_slice())?;
        Ok(self.list_anew()?)
    }

    /// The index of the segment on which the vertex or corner at `place` lies; `None` if there is no such place or
    /// segment.
    pub(crate) fn segment_at(&self, place: u16) -> Option<u16>
        ensures { IfSome result (λ segment. segment < vec_len self.now.segments) }
    {
        segment_of(self.of.as_slice(), usize::from(place), self.segments.len())
    }

    /// The coordinate of the segment on which the vertex or corner at `place` lies; `None` if there is no such place or
    /// segment.
    pub(crate) fn coordinate_at(&self, place: usize) -> Option<u32> {
        let segment = segment_of(self.of.as_slice(), place, self.segments.len())?;
        Some(u32::from(self.segments[usize::from(segment)].coordinate))
    }
}

/// The index of the segment on which the vertex or corner at `place` lies, as `of` gives it; `None` if there is no such
/// place, or the index is not below `count`.
pub(crate) fn segment_of(of: &[u16], place: usize, count: usize) -> Option<u16>
    ensures { IfSome result (λ segment. segment < count) }
{
    // No invariant says that each place is on a segment.
    let segment = *of.get(place)?;
    if usize::from(segment) < count {
        Some(segment)
    } else {
        None
    }
}

/// The greatest coordinate of a segment; 0 if there are no segments.
fn greatest_of(segments: &[Segment]) -> u16
    requires { (r : ℕ) → (segment_at segments.now r).coordinate ≤ MAX_COORDINATE }
    ensures greatest { (r : ℕ) → (segment_at segments.now r).coordinate ≤ result }
    ensures room { result ≤ MAX_COORDINATE }
{
    let mut greatest = 0;
    for segment in segments {
        greatest = segment.coordinate.max(greatest);
    }
    greatest
}

/// Empties the list of `coordinate`: sets its entry of `firsts` to 0, and returns the old entry, the index of its first
/// segment plus 1, or 0 if it had none.
pub(crate) fn take_first(firsts: &mut [u16], coordinate: usize) -> u16
    requires { coordinate < length firsts.old }
    ensures first { result ≡ slice_index firsts.old coordinate }
    ensures rest { firsts.new ≡ slice_set firsts.old coordinate 0 }
{
    mem::replace(&mut firsts[coordinate], 0)
}

/// Puts `segment`, whose index is `place`, at the front of the list of its coordinate: sets `segment.next` to the entry
/// of `firsts` for that coordinate, and then the entry to `place` plus 1.
pub(crate) fn put_first(firsts: &mut [u16], segment: &mut Segment, place: u16)
    requires coordinate { segment.old.coordinate < length firsts.old }
    requires place { place + 1 < 2 ^ 16 }
    ensures next { segment.new ≡ record segment.old { next = slice_index firsts.old segment.old.coordinate } }
    ensures first { firsts.new ≡ slice_set firsts.old segment.old.coordinate (place + 1) }
{
    let first = &mut firsts[usize::from(segment.coordinate)];
    segment.next = *first;
    *first = place + 1;
}

/// Puts each of `segments`, from the first to the last, at the front of the list of its coordinate: sets `next` in
/// `segments`, and the entries of `firsts`.
fn list_all(segments: &mut [Segment], firsts: &mut [u16])
    requires { AreListed segments.old firsts.old }
    ensures listed { AreListed segments.new firsts.new }
    ensures ends { KeepEnds segments.old segments.new }
{
    for place in 0..segments.len() {
        put_first(firsts, &mut segments[place], place as u16);
    }
}

/// Gives each of `segments` that the lists `firsts` have a coordinate of its own, in the order of those that they have,
/// but does not list them anew. `TooLarge` if more are listed than there are: coordinates have then changed.
fn spread(segments: &mut [Segment], firsts: &[u16]) -> Result<(), SegmentFault>
    requires { AreListed segments.old firsts.now }
    ensures few { AreFew segments.new }
    ensures ends { KeepEnds segments.old segments.new }
{
    let mut free = segments.len() as u16;
    for coordinate in (0..firsts.len()).rev() {
        let mut named = firsts[coordinate];
        for _ in 0..segments.len() {
            if named == 0 {
                break;
            }
            // No invariant says that each segment is in one list only.
            free = free.checked_sub(1).ok_or(SegmentFault::TooLarge)?;
            let segment = &mut segments[usize::from(named) - 1];
            segment.coordinate = free;
            named = segment.next;
        }
    }
    Ok(())
}
