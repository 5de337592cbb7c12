//! Quarter turns between the four directions, and their numbers.

use geometry::Direction;
use test_tools::same;

/// Quarter turns lead through the four directions, which have the numbers 0 to 3.
#[test]
fn turns_by_quarters(rt: HostRuntime) {
    let round = [
        Direction::East,
        Direction::North,
        Direction::West,
        Direction::South,
    ];
    for k in 0..4 {
        let next = round[(k + 1) % 4];
        same!(&rt, round[k].left(), next);
        same!(&rt, next.right(), round[k]);
        same!(&rt, round[k].opposite(), round[(k + 2) % 4]);
        same!(&rt, round[k].left_quarters(7), round[(k + 3) % 4]);
        same!(&rt, usize::from(round[k].quarters()), k);
        same!(&rt, Direction::from_quarters(round[k].quarters()), round[k]);
    }
}
