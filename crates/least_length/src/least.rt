//! Coordinates of least total length, by the primal-dual method (Ahuja, Magnanti and Orlin, Network Flows, 1993,
//! section 9.8). A sweep along the axis with a frontier (after Shamos and Hoey 1976) checks whether segments keep their
//! order. Buffers are reused.
ghost use Rattle.std.specs.Prelude.{◌≡◌, [], ◌<◌, ◌≤◌, ◌+◌, ◌^◌, ◌↔◌, ℕ, length, true, IfOk, slice_index};
ghost use Rattle.least_length.specs.Lengths.{coordinates_in, segment_at, HasLevel, KeepsOrder, total_length, wire_at, IsShortest};
ghost use Rattle.least_length.specs.declared.segments.TheConstants.{MAX_WIRES};
ghost use Rattle.least_length.specs.Weights.{HasEnds};

use crate::certificate;
use crate::certificate::{certify, have_ends, have_levels, length_of_wires};
use crate::pulling::Pulling;
use crate::segments::{Balance, MAX_SEGMENTS, MAX_SIGHTS, MAX_WIRES, Segment, Wire};
use std::alloc::{AllocError, Global};

/// The buffers of a search or a certificate, reused for the next one. Between two calls their contents matter
/// only to [`write_if_shorter`].
#[derive(Drop)]
pub struct Scratch {
    pub(crate) balance: Balance,
    pub(crate) pulling: Pulling,
}

impl Scratch {
    /// An empty scratch. It allocates nothing.
    pub fn empty(alloc: Global) -> Scratch
        ensures { result.balance.up.items ≡ [] }
    {
        Scratch {
            balance: Balance::empty(alloc),
            pulling: Pulling::empty(alloc),
        }
    }
}

/// Whether segments keep their order on each level with `coordinates`, one for each segment. Overwrites `frontier`;
/// `AllocError` if there is no memory for it, one entry for each level.
///
/// Linear in their levels if they are listed in the order of their own coordinates and keep it, otherwise quadratic in
/// the segments.
pub(crate) fn is_order_kept(
    frontier: &mut Vec<u32>,
    segments: &[Segment],
    coordinates: &[u16],
) -> Result<bool, AllocError>
    requires { length coordinates.now ≡ length segments.now }
    ensures { IfOk result (λ kept. (kept ≡ true) ↔ KeepsOrder segments.now (coordinates_in coordinates.now)) }
{
    frontier.clear();
    frontier.resize(usize::from(highest(segments)) + 1, 0)?;
    if is_swept(frontier, segments, coordinates) {
        return Ok(true);
    }
    Ok(certificate::is_order_kept(segments, coordinates))
}

/// Whether segments are listed in the order of their own coordinates, and each has one in `coordinates` above those of
/// all listed before it on its levels; false also if `frontier` has no entry for a level. `frontier` must be all zeros,
/// and is overwritten, in part if the result is false.
fn is_swept(frontier: &mut [u32], segments: &[Segment], coordinates: &[u16]) -> bool
    requires { length coordinates.now ≡ length segments.now }
    ensures { result ≡ true → KeepsOrder segments.now (coordinates_in coordinates.now) }
{
    let mut last = 0;
    for place in 0..segments.len() {
        let segment = segments[place];
        if segment.coordinate < last || usize::from(segment.high) >= frontier.len() {
            return false;
        }
        last = segment.coordinate;
        if !raise_frontier(frontier, segment, u32::from(coordinates[place])) {
            return false;
        }
    }
    true
}

/// Sets the entries of `frontier` on the levels of `segment` to `coordinate` plus 1, and returns true. At the first
/// level with an entry above `coordinate` it stops and returns false; the entries of lower levels are then set.
fn raise_frontier(frontier: &mut [u32], segment: Segment, coordinate: u32) -> bool
    requires levels { segment.high < length frontier.old }
    requires coordinate { coordinate < 2 ^ 16 }
    ensures passed { result ≡ true → (level : ℕ) → HasLevel segment level → slice_index frontier.old level ≤ coordinate }
    ensures met { result ≡ true → (level : ℕ) → HasLevel segment level → slice_index frontier.new level ≡ coordinate + 1 }
    ensures risen { result ≡ true → (level : ℕ) → slice_index frontier.old level ≤ slice_index frontier.new level }
{
    for level in usize::from(segment.low)..usize::from(segment.high) + 1 {
        if frontier[level] > coordinate {
            return false;
        }
        frontier[level] = coordinate + 1;
    }
    true
}

/// The highest level that a segment crosses, or 0 if there are no segments.
pub(crate) fn highest(segments: &[Segment]) -> u16
    ensures { (r : ℕ) → (segment_at segments.now r).high ≤ result }
{
    let mut most = 0;
    for segment in segments {
        most = most.max(segment.high);
    }
    most
}

/// Searches for coordinates that shorten the wires; returns true if `coordinates` then has those of least total length,
/// one for each segment. After false or an error, what it holds does not matter. Takes one of `looks` for each segment
/// gone over; if too few are left, all, and gives up. Overwrites `scratch`. `AllocError` if there is no memory.
///
/// There is one coordinate for each segment. With them segments keep their order on each level, and no such coordinates
/// give a lesser total length. The segments must be given in the order of their coordinates; wires run along levels, to
/// a segment further on.
///
/// Each wire pulls its two segments together by one unit. Segment by segment, units that pull up are sent along pairs
/// to segments that are pulled down: over segments that are next to each other, and if these lead no further, all
/// segments reached move up together (the primal-dual method for least-cost flow: Ahuja, Magnanti and Orlin, Network
/// Flows, 1993). True is returned only if [`certify_lengths`](crate::certify_lengths) accepts the result. It is false
/// if the wires are no shorter than with the segments' own coordinates; if the search would go over more segments than
/// there are `looks`, of which it takes one for each segment, each time, and all if they are too few; if more than
/// 16,384 pairs are met, or if more than 65,536 wires or 65,533 segments are given; it may be false if the input is
/// other than said above. That it is never false otherwise is measured and not proved. It reuses the caller's scratch
/// and list; if it is false, what the list holds does not matter.
///
/// # Errors
///
/// `AllocError` if there is no memory for the coordinates, the search or the check.
pub fn find_shorter(
    scratch: &mut Scratch,
    segments: &[Segment],
    wires: &[Wire],
    looks: &mut u64,
    coordinates: &mut Vec<u16>,
) -> Result<bool, AllocError>
    ensures least { IfOk result (λ found. found ≡ true → IsShortest segments.now wires.now (coordinates_in coordinates.new.items)) }
    ensures count { IfOk result (λ found. found ≡ true → length coordinates.new.items ≡ length segments.now) }
    ensures shorter { IfOk result (λ found. found ≡ true → total_length wires.now (coordinates_in coordinates.new.items) < total_length wires.now (λ r. (segment_at segments.now r).coordinate)) }
    ensures looks { looks.new ≤ looks.old }
{
    if wires.len() > MAX_WIRES || !search_weights(scratch, segments, wires, looks)? {
        return Ok(false);
    }
    if !scratch.pulling.moved || !write_certified(scratch, segments, wires, coordinates)? {
        return Ok(false);
    }
    Ok(is_shorter(segments, wires, coordinates.as_slice()))
}

/// Writes to `coordinates` those that the last search in `scratch` came to; returns whether segments keep their order
/// with them and the wires are shorter than with the segments' own. After false or an error, what it holds does not
/// matter. Overwrites a buffer of `scratch`, but not what was found. `AllocError` if there is no memory.
///
/// If a search of [`find_shorter`] had too few looks, this makes use of what it found until then: the same scratch,
/// segments and wires are to be given. The total length need not be least. The result is false also if a coordinate is
/// above 65,535, a wire has an end that is no segment, or more than 65,536 wires are given.
///
/// # Errors
///
/// `AllocError` if there is no memory for the coordinates or the check.
pub fn write_if_shorter(
    scratch: &mut Scratch,
    segments: &[Segment],
    wires: &[Wire],
    coordinates: &mut Vec<u16>,
) -> Result<bool, AllocError>
    ensures keeps { IfOk result (λ found. found ≡ true → KeepsOrder segments.now (coordinates_in coordinates.new.items)) }
    ensures count { IfOk result (λ found. found ≡ true → length coordinates.new.items ≡ length segments.now) }
    ensures shorter { IfOk result (λ found. found ≡ true → total_length wires.now (coordinates_in coordinates.new.items) < total_length wires.now (λ r. (segment_at segments.now r).coordinate)) }
{
    if wires.len() > MAX_WIRES || !have_ends(segments, wires) {
        return Ok(false);
    }
    if !scratch.pulling.write(coordinates)? || coordinates.len() != segments.len() {
        return Ok(false);
    }
    let frontier = &mut scratch.balance.frontier;
    if !is_order_kept(frontier, segments, coordinates.as_slice())? {
        return Ok(false);
    }
    Ok(is_shorter(segments, wires, coordinates.as_slice()))
}

/// Searches for coordinates and weights in balance, and stores both in `scratch`. False if there are too many segments
/// or pairs, a wire has an end that is no segment or a level above all segments, or the search fails or has too few of
/// `looks` left; it takes one for each segment gone over. `AllocError` if there is no memory for `scratch`.
///
/// If true, the weights may still not be in balance, since the search stops after `MAX_PULLS` pulls on a segment; they
/// are tested later.
fn search_weights(
    scratch: &mut Scratch,
    segments: &[Segment],
    wires: &[Wire],
    looks: &mut u64,
) -> Result<bool, AllocError>
    requires { length wires.now ≤ MAX_WIRES }
    ensures looks { looks.new ≤ looks.old }
    ensures ends { IfOk result (λ found. found ≡ true → ((i : ℕ) → i < length wires.now → HasEnds segments.now (wire_at wires.now i))) }
{
    let top = highest(segments);
    if segments.len() > MAX_SEGMENTS || !have_ends(segments, wires) || !have_levels(wires, top) {
        return Ok(false);
    }
    scratch.pulling.search_weights(segments, wires, top, looks)
}

/// Writes to `coordinates` those that the last search in `scratch` came to; returns whether the weights found certify
/// them as least, and false also if one is above 65,535. After false or an error, what it holds may be incomplete.
/// Overwrites the buffers of the check in `scratch`; `AllocError` if there is no memory.
fn write_certified(
    scratch: &mut Scratch,
    segments: &[Segment],
    wires: &[Wire],
    coordinates: &mut Vec<u16>,
) -> Result<bool, AllocError>
    requires { length wires.now ≤ MAX_WIRES }
    ensures least { IfOk result (λ found. found ≡ true → IsShortest segments.now wires.now (coordinates_in coordinates.new.items)) }
    ensures count { IfOk result (λ found. found ≡ true → length coordinates.new.items ≡ length segments.now) }
{
    if !scratch.pulling.write(coordinates)? {
        return Ok(false);
    }
    let balance = &mut scratch.balance;
    let sights = scratch.pulling.sight_lists.sights.as_slice();
    if sights.len() > MAX_SIGHTS || coordinates.len() != segments.len() {
        return Ok(false);
    }
    certify(balance, segments, wires, coordinates.as_slice(), sights)
}

/// Whether the total length of the wires is less with `coordinates`, one for each segment, than with the segments' own;
/// false if both are equal.
fn is_shorter(segments: &[Segment], wires: &[Wire], coordinates: &[u16]) -> bool
    requires few { length wires.now ≤ MAX_WIRES }
    requires ends { (i : ℕ) → i < length wires.now → HasEnds segments.now (wire_at wires.now i) }
    requires count { length coordinates.now ≡ length segments.now }
    ensures { result ≡ true → total_length wires.now (coordinates_in coordinates.now) < total_length wires.now (λ r. (segment_at segments.now r).coordinate) }
{
    length_of_wires(wires, coordinates) < measure_own(segments, wires)
}

/// The total length of the wires with the segments' own coordinates; 0 if there are no wires.
fn measure_own(segments: &[Segment], wires: &[Wire]) -> u64
    requires few { length wires.now ≤ MAX_WIRES }
    requires ends { (i : ℕ) → i < length wires.now → HasEnds segments.now (wire_at wires.now i) }
    ensures { result ≡ total_length wires.now (λ r. (segment_at segments.now r).coordinate) }
{
    let mut total: u64 = 0;
    for wire in wires {
        let from = segments[usize::from(wire.from)].coordinate;
        let to = segments[usize::from(wire.to)].coordinate;
        total += u64::from(from.abs_diff(to));
    }
    total
}
