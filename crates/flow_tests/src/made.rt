//! Segments, wires and weights made from short lists.
ghost use Rattle.std.specs.Prelude.{◌≡◌, ◌≤◌, length, IfOk};

use least_length::{MAX_SIGHTS, MAX_WIRES, Scratch, Segment, Sight, Wire, certify_lengths};
use std::alloc::{AllocError, Global};

/// A drawing along one axis: the coordinate and the levels of each segment, and the segments of each wire.
#[derive(Clone, Copy)]
pub(crate) struct Drawn<'a> {
    pub(crate) segments: &'a [(u16, u16, u16)],
    pub(crate) wires: &'a [(u16, u16)],
}

/// Whether these weights of pairs of segments certify that a drawing is shortest with these coordinates; false if there
/// are too many, or not one coordinate for each segment.
pub(crate) fn is_certified(
    alloc: Global,
    drawn: Drawn<'_>,
    coordinates: &[u16],
    sights: &[(u16, u16, u32)],
) -> Result<bool, AllocError> {
    let segments = segments_of(alloc, drawn.segments)?;
    let wires = wires_of(alloc, &segments, drawn.wires)?;
    let weighed = sights_of(alloc, sights)?;
    let mut scratch = Scratch::empty(alloc);
    if coordinates.len() != segments.len()
        || wires.len() > MAX_WIRES
        || weighed.len() > MAX_SIGHTS
    {
        return Ok(false);
    }
    certify_lengths(&mut scratch, &segments, &wires, coordinates, &weighed)
}

/// Segments by their coordinates and their lowest and highest levels.
pub(crate) fn segments_of(
    alloc: Global,
    segments: &[(u16, u16, u16)],
) -> Result<Vec<Segment>, AllocError> {
    let mut made = Vec::new(alloc);
    for (coordinate, low, high) in segments {
        made.push(Segment {
            coordinate: *coordinate,
            low: *low,
            high: *high,
        })?;
    }
    Ok(made)
}

/// Wires between segments, each on the lowest level that both its segments cross.
pub(crate) fn wires_of(
    alloc: Global,
    segments: &[Segment],
    wires: &[(u16, u16)],
) -> Result<Vec<Wire>, AllocError> {
    let mut made = Vec::new(alloc);
    for (from, to) in wires {
        made.push(Wire {
            from: *from,
            to: *to,
            level: low_of(segments, *from).max(low_of(segments, *to)),
        })?;
    }
    Ok(made)
}

/// The lowest level of a segment.
fn low_of(segments: &[Segment], place: u16) -> u16 {
    match segments.get(usize::from(place)) {
        Some(segment) => segment.low,
        None => 0,
    }
}

/// Pairs of segments with their weights.
fn sights_of(alloc: Global, sights: &[(u16, u16, u32)]) -> Result<Vec<Sight>, AllocError> {
    let mut made = Vec::new(alloc);
    for (before, behind, weight) in sights {
        made.push(Sight {
            before: *before,
            behind: *behind,
            weight: *weight,
        })?;
    }
    Ok(made)
}
