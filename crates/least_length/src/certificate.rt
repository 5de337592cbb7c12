//! The check of a certificate by linear programming duality (Ahuja, Magnanti and Orlin, Network Flows, 1993, section
//! 9.4): weights of pairs bound all lengths from below. Theorems say so, and what shortest coordinates have in common.
ghost use Rattle.std.specs.Prelude.{◌≡◌, ◌<◌, ◌≤◌, ◌↔◌, ℕ, length, true, IfOk, List};
ghost use Rattle.least_length.specs.declared.segments.TheConstants.{MAX_WIRES, MAX_SIGHTS};
ghost use Rattle.least_length.specs.Lengths.{wire_at, coordinates_in, segment_at, total_length, StandsBefore, IsShortest, KeepsOrder};
ghost use Rattle.least_length.specs.Weights.{sight_at, total_weight, HasEnds, IsCertificate, IsSight, AreWeights};
ghost use Rattle.least_length.specs.declared.segments.Wire.{Wire};
ghost use Rattle.least_length.specs.declared.segments.Segment.{Segment};
ghost use Rattle.least_length.specs.declared.segments.Sight.{Sight};

use crate::least;
use crate::least::Scratch;
use crate::segments::{Balance, Segment, Sight, Wire};
use std::alloc::AllocError;

/// Whether the weights of the pairs `sights` certify that the wires have least total length with `coordinates`; false
/// also if a wire or pair has a member that is no segment, or segments lose their order. Overwrites the buffers of the
/// check in `scratch`; `AllocError` if there is no memory for them.
///
/// There is one coordinate for each segment. True means that no coordinates with which segments keep their order on
/// each level give a lesser total length.
///
/// The time is linear in the segments and their levels, wires and pairs if segments are listed in the order of their
/// coordinates and the answer is yes. Otherwise it is quadratic in the segments.
///
/// # Errors
/// `AllocError` if the scratch is too small and there is no more memory.
pub fn certify_lengths(
    scratch: &mut Scratch,
    segments: &[Segment],
    wires: &[Wire],
    coordinates: &[u16],
    sights: &[Sight],
) -> Result<bool, AllocError>
    requires coordinates { length coordinates.now ≡ length segments.now }
    requires wires { length wires.now ≤ MAX_WIRES }
    requires sights { length sights.now ≤ MAX_SIGHTS }
    ensures exact { IfOk result (λ found. (found ≡ true) ↔ IsCertificate segments.now wires.now (coordinates_in coordinates.now) sights.now) }
    ensures least { IfOk result (λ found. found ≡ true → IsShortest segments.now wires.now (coordinates_in coordinates.now)) }
{
    certify(&mut scratch.balance, segments, wires, coordinates, sights)
}

/// Whether the weights of the pairs `sights` certify that the wires have least total length with `coordinates`, as
/// [`certify_lengths`] says. Overwrites the buffers in `balance`, the only ones that it needs; `AllocError` if there is
/// no memory for them.
pub(crate) fn certify(
    balance: &mut Balance,
    segments: &[Segment],
    wires: &[Wire],
    coordinates: &[u16],
    sights: &[Sight],
) -> Result<bool, AllocError>
    requires coordinates { length coordinates.now ≡ length segments.now }
    requires wires { length wires.now ≤ MAX_WIRES }
    requires sights { length sights.now ≤ MAX_SIGHTS }
    ensures exact { IfOk result (λ found. (found ≡ true) ↔ IsCertificate segments.now wires.now (coordinates_in coordinates.now) sights.now) }
    ensures least { IfOk result (λ found. found ≡ true → IsShortest segments.now wires.now (coordinates_in coordinates.now)) }
{
    if !have_ends(segments, wires) || !are_sights(segments, sights) {
        return Ok(false);
    }
    let kept = least::is_order_kept(&mut balance.frontier, segments, coordinates)?;
    if !kept {
        return Ok(false);
    }
    if weigh(sights) != length_of_wires(wires, coordinates) {
        return Ok(false);
    }
    balance.is_balanced(segments.len(), wires, sights)
}

/// Whether both ends of each wire are indices of `segments`; true if there are no wires.
pub(crate) fn have_ends(segments: &[Segment], wires: &[Wire]) -> bool
    ensures { (result ≡ true) ↔ ((i : ℕ) → i < length wires.now → HasEnds segments.now (wire_at wires.now i)) }
{
    let count = segments.len();
    for wire in wires {
        if usize::from(wire.from) >= count || usize::from(wire.to) >= count {
            return false;
        }
    }
    true
}

/// Whether no wire has a level above `top`; true if there are no wires.
pub(crate) fn have_levels(wires: &[Wire], top: u16) -> bool
    ensures { (result ≡ true) ↔ ((i : ℕ) → i < length wires.now → (wire_at wires.now i).level ≤ top) }
{
    for wire in wires {
        if wire.level > top {
            return false;
        }
    }
    true
}

/// Whether in each pair of `sights` both members are indices of `segments`, both cross a common level, and the first,
/// `before`, has a lesser coordinate than the second, `behind`; true if there are no pairs.
fn are_sights(segments: &[Segment], sights: &[Sight]) -> bool
    ensures { (result ≡ true) ↔ ((i : ℕ) → i < length sights.now → IsSight segments.now (sight_at sights.now i)) }
{
    for sight in sights {
        if !is_sight(segments, *sight) {
            return false;
        }
    }
    true
}

/// Whether both members of the pair `sight` are indices of `segments`, both cross a common level, and the first,
/// `before`, has a lesser coordinate than the second, `behind`. Its weight does not matter.
fn is_sight(segments: &[Segment], sight: Sight) -> bool
    ensures { (result ≡ true) ↔ IsSight segments.now sight }
{
    let first = usize::from(sight.before);
    let second = usize::from(sight.behind);
    if first >= segments.len() || second >= segments.len() {
        return false;
    }
    stands_before(segments[first], segments[second])
}

/// Whether both segments cross a common level and `first` has a lesser coordinate than `second`; false if the
/// coordinates are equal.
fn stands_before(first: Segment, second: Segment) -> bool
    ensures { (result ≡ true) ↔ StandsBefore first second }
{
    let low = first.low.max(second.low);
    let high = first.high.min(second.high);
    low <= high && first.coordinate < second.coordinate
}

/// Whether segments keep their order on each level: of each two that cross a common level, the one with the lesser own
/// coordinate has the lesser one in `coordinates`, too. Quadratic in the segments, since it compares each with all
/// others.
pub(crate) fn is_order_kept(segments: &[Segment], coordinates: &[u16]) -> bool
    requires { length coordinates.now ≡ length segments.now }
    ensures { (result ≡ true) ↔ KeepsOrder segments.now (coordinates_in coordinates.now) }
{
    for place in 0..segments.len() {
        if !keeps_order(segments, coordinates, place) {
            return false;
        }
    }
    true
}

/// Whether the segment at `place` has a lesser coordinate in `coordinates` than each segment that crosses a common
/// level and has a greater own coordinate. Linear in the segments.
fn keeps_order(segments: &[Segment], coordinates: &[u16], place: usize) -> bool
    requires count { length coordinates.now ≡ length segments.now }
    requires place { place < length segments.now }
    ensures { (result ≡ true) ↔ ((s : ℕ) → s < length segments.now → StandsBefore (segment_at segments.now place) (segment_at segments.now s) → coordinates_in coordinates.now place < coordinates_in coordinates.now s) }
{
    let segment = segments[place];
    let coordinate = coordinates[place];
    for other in 0..segments.len() {
        if coordinate >= coordinates[other] && stands_before(segment, segments[other]) {
            return false;
        }
    }
    true
}

/// The sum of the weights of the pairs `sights`; 0 if there are none.
fn weigh(sights: &[Sight]) -> u64
    requires { length sights.now ≤ MAX_SIGHTS }
    ensures { result ≡ total_weight sights.now }
{
    let mut total: u64 = 0;
    for sight in sights {
        total += u64::from(sight.weight);
    }
    total
}

/// The total length of the wires with `coordinates`, one for each segment: the sum of the differences between the
/// coordinates at both ends of each wire; 0 if there are no wires.
pub(crate) fn length_of_wires(wires: &[Wire], coordinates: &[u16]) -> u64
    requires few { length wires.now ≤ MAX_WIRES }
    requires ends { (i : ℕ) → i < length wires.now → ((wire_at wires.now i).from < length coordinates.now) × ((wire_at wires.now i).to < length coordinates.now) }
    ensures { result ≡ total_length wires.now (coordinates_in coordinates.now) }
{
    let mut total: u64 = 0;
    for wire in wires {
        let from = coordinates[usize::from(wire.from)];
        let to = coordinates[usize::from(wire.to)];
        total += u64::from(from.abs_diff(to));
    }
    total
}

/// Theorem: if the weights of pairs are in balance with the wires at each segment, their sum is at most the total
/// length of the wires with any coordinates that keep the order of segments on each level.
pub fn weights_bound_lengths()
    ensures { (segments : List Segment) (wires : List Wire) (sights : List Sight) (coordinates : ℕ → ℕ) → AreWeights segments wires sights → KeepsOrder segments coordinates → total_weight sights ≤ total_length wires coordinates }
{}

/// Theorem: with coordinates that give the wires least total length, segments keep their current order on each level.
pub fn shortest_keep_order()
    ensures { (segments : List Segment) (wires : List Wire) (coordinates : ℕ → ℕ) → IsShortest segments wires coordinates → KeepsOrder segments coordinates }
{}

/// Theorem: any two choices of coordinates that each give the wires least total length give the same total length.
pub fn shortest_are_equally_long()
    ensures { (segments : List Segment) (wires : List Wire) (first second : ℕ → ℕ) → IsShortest segments wires first → IsShortest segments wires second → total_length wires first ≡ total_length wires second }
{}
