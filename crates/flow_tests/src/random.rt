//! Random drawings, a thousand small ones and three large ones, whose least lengths LEMON found by its network simplex
//! (`checks/drawings random`).
use crate::least::length_of;
use least_length::{Scratch, Segment, Wire, find_shorter, write_if_shorter};
use std::alloc::{AllocError, Global};
use test_tools::{Random, same};

/// For each hundred of drawings, the sum of their least lengths.
const LEAST: [u32; 10] = [
    14_829, 12_242, 11_757, 12_373, 13_934, 13_636, 11_467, 12_748, 11_249, 12_966,
];

/// Numbers of segments, and the least length of a drawing with this many.
const LARGE_LEAST: [(u16, u32); 3] = [(300, 2_637), (600, 10_923), (1_000, 30_318)];

/// The size of a drawing: the number of segments, the number of levels, the greatest number of levels of a segment, and
/// the number of wires that are tried.
#[derive(Clone, Copy)]
struct Size {
    count: u16,
    levels: u16,
    height: u16,
    wires: u16,
}

/// The next random number below a count, or 0 below none.
fn below(random: &mut Random, count: u16) -> u16 {
    let number = random.below(u64::from(count.max(1)));
    number.min(u64::from(u16::MAX)) as u16
}

/// Buffers that each drawing reuses, with its segments, its wires and the coordinates found.
#[derive(Drop)]
struct Lent {
    scratch: Scratch,
    segments: Vec<Segment>,
    wires: Vec<Wire>,
    coordinates: Vec<u16>,
}

impl Lent {
    /// Empty buffers; nothing is allocated.
    fn empty(alloc: Global) -> Lent {
        Lent {
            scratch: Scratch::empty(alloc),
            segments: Vec::new(alloc),
            wires: Vec::new(alloc),
            coordinates: Vec::new(alloc),
        }
    }

    /// Makes the small drawing with this number: up to 31 segments on up to 12 levels.
    fn make_small(&mut self, drawing: u64) -> Result<(), AllocError> {
        let mut random = Random { state: drawing };
        let count = below(&mut random, 30).saturating_add(2);
        let levels = below(&mut random, 12).saturating_add(1);
        let size = Size {
            count,
            levels,
            height: levels,
            wires: count.saturating_mul(2),
        };
        self.make(random, size)
    }

    /// Makes a drawing with this many segments.
    fn make_large(&mut self, count: u16) -> Result<(), AllocError> {
        let random = Random {
            state: u64::from(count),
        };
        let size = Size {
            count,
            levels: 40,
            height: 8,
            wires: count.saturating_mul(2),
        };
        self.make(random, size)
    }

    /// Makes a drawing of this size, with wires between segments that share a level.
    fn make(&mut self, random: Random, size: Size) -> Result<(), AllocError> {
        let mut random = random;
        let Size {
            count,
            levels,
            height,
            wires,
        } = size;
        self.segments.clear();
        let mut coordinate: u16 = 0;
        for _ in 0..count {
            coordinate = coordinate
                .saturating_add(below(&mut random, 3))
                .saturating_add(1);
            let low = below(&mut random, levels);
            let high = low.saturating_add(below(&mut random, height));
            let high = high.min(levels.saturating_sub(1));
            self.segments.push(Segment {
                coordinate,
                low,
                high,
            })?;
        }
        self.wires.clear();
        for _ in 0..wires {
            let one = below(&mut random, count);
            let other = below(&mut random, count);
            self.join(one.min(other), one.max(other))?;
        }
        Ok(())
    }

    /// Adds a wire between two segments, if there are two that share a level.
    fn join(&mut self, from: u16, to: u16) -> Result<(), AllocError> {
        let first = self.segments.get(usize::from(from)).copied();
        let second = self.segments.get(usize::from(to)).copied();
        let (Some(first), Some(second)) = (first, second) else {
            return Ok(());
        };
        let level = first.low.max(second.low);
        if from != to && level <= first.high.min(second.high) {
            self.wires.push(Wire { from, to, level })?;
        }
        Ok(())
    }

    /// The total length of the wires as a search with this many looks leaves them.
    fn length_within(&mut self, looks: u64) -> Result<u32, AllocError> {
        let segments = self.segments.as_slice();
        let wires = self.wires.as_slice();
        let mut left = looks;
        if find_shorter(
            &mut self.scratch,
            segments,
            wires,
            &mut left,
            &mut self.coordinates,
        )? {
            return Ok(length_of(wires, self.coordinates.as_slice()));
        }
        if write_if_shorter(&mut self.scratch, segments, wires, &mut self.coordinates)? {
            return Ok(length_of(wires, self.coordinates.as_slice()));
        }
        self.own_length()
    }

    /// The total length of the wires of the drawing with the segments' own coordinates.
    fn own_length(&mut self) -> Result<u32, AllocError> {
        self.coordinates.clear();
        for segment in self.segments.as_slice() {
            self.coordinates.push(segment.coordinate)?;
        }
        Ok(length_of(self.wires.as_slice(), self.coordinates.as_slice()))
    }
}

/// The sum of the least lengths of a hundred drawings.
fn hundred(lent: &mut Lent, first: u64) -> Result<u32, AllocError> {
    let mut total: u32 = 0;
    for place in 0..100 {
        lent.make_small(first.wrapping_add(place))?;
        total = total.wrapping_add(lent.length_within(u64::MAX)?);
    }
    Ok(total)
}

/// The least lengths of small random drawings are those that LEMON found.
#[test]
fn random_drawings_are_as_short_as_by_lemon(rt: HostRuntime) {
    let mut lent = Lent::empty(rt.alloc());
    let mut first: u64 = 0;
    for wanted in LEAST {
        let length = hundred(&mut lent, first).expect(&rt, "memory");
        same!(&rt, length, wanted);
        first = first.wrapping_add(100);
    }
}

/// The least length of a drawing with this many segments.
fn large(lent: &mut Lent, count: u16) -> Result<u32, AllocError> {
    lent.make_large(count)?;
    lent.length_within(u64::MAX)
}

/// The least lengths of large random drawings are those that LEMON found.
#[test]
fn large_drawings_are_as_short_as_by_lemon(rt: HostRuntime) {
    let mut lent = Lent::empty(rt.alloc());
    for (count, wanted) in LARGE_LEAST {
        let length = large(&mut lent, count).expect(&rt, "memory");
        same!(&rt, (count, length), (count, wanted));
    }
}

/// Numbers of looks that are too few for each large drawing.
const FEW_LOOKS: [u64; 3] = [0, 100, 1_000];

/// Searches with few looks leave a drawing no longer than it was, and no shorter than LEMON found, as those with many do.
#[test]
fn searches_with_few_looks_end_between(rt: HostRuntime) {
    let mut lent = Lent::empty(rt.alloc());
    for (count, least) in LARGE_LEAST {
        lent.make_large(count).expect(&rt, "memory");
        let own = lent.own_length().expect(&rt, "memory");
        for looks in FEW_LOOKS {
            let length = lent.length_within(looks).expect(&rt, "memory");
            same!(
                &rt,
                (count, least < length, length <= own),
                (count, true, true)
            );
        }
        let length = lent.length_within(u64::MAX).expect(&rt, "memory");
        same!(&rt, (count, length), (count, least));
    }
}
