//! The four directions along the axes, quarter turns between them, and their numbers.

/// A direction along an axis: x grows to the east, y to the north.
///
/// A number that represents a direction, as in a table of darts, counts quarter turns to the left from east: 0 is east,
/// 1 north, 2 west and 3 south. Only `quarters` and `from_quarters` convert between the two.
#[derive(Clone, Copy, Debug, PartialEq, Eq)]
pub enum Direction {
    East,
    North,
    West,
    South,
}

impl Direction {
    ghost use Rattle.std.specs.Prelude.{◌≡◌, ◌<◌};
    ghost use Rattle.geometry.specs.Directions.{left_of, right_of, opposite_of, quarters, left_quarters};

    /// The direction a quarter turn to the left: the left of (x, y) is (-y, x).
    pub fn left(self) -> Direction
        ensures { result ≡ left_of self }
    {
        match self {
            Direction::East => Direction::North,
            Direction::North => Direction::West,
            Direction::West => Direction::South,
            Direction::South => Direction::East,
        }
    }

    /// The direction a quarter turn to the right.
    pub fn right(self) -> Direction
        ensures { result ≡ right_of self }
    {
        match self {
            Direction::East => Direction::South,
            Direction::North => Direction::East,
            Direction::West => Direction::North,
            Direction::South => Direction::West,
        }
    }

    /// The opposite direction.
    pub fn opposite(self) -> Direction
        ensures { result ≡ opposite_of self }
    {
        match self {
            Direction::East => Direction::West,
            Direction::North => Direction::South,
            Direction::West => Direction::East,
            Direction::South => Direction::North,
        }
    }

    /// The number of the direction: 0 to 3 quarter turns to the left from east.
    pub fn quarters(self) -> u8
        ensures value { result ≡ quarters self }
        ensures few { result < 4 }
    {
        match self {
            Direction::East => 0,
            Direction::North => 1,
            Direction::West => 2,
            Direction::South => 3,
        }
    }

    /// The direction with this number, 0 to 3: `number` quarter turns to the left from east.
    pub fn from_quarters(number: u8) -> Direction
        requires { number < 4 }
        ensures { quarters result ≡ number }
    {
        // The remainder shows the compiler that the last arm is direction 3, so no comparison is left.
        match number % 4 {
            0 => Direction::East,
            1 => Direction::North,
            2 => Direction::West,
            _ => Direction::South,
        }
    }

    /// The direction that is `quarters` quarter turns to the left of this one; four or a multiple of it is no change.
    /// It takes constant time.
    pub fn left_quarters(self, quarters: u8) -> Direction
        ensures { result ≡ left_quarters quarters self }
    {
        Direction::from_quarters((self.quarters() + quarters % 4) % 4)
    }
}
