// The steps from a cell to those beside it.

/// A step from a cell to one of the eight beside it.
#[derive(Clone, Copy)]
pub enum Step {
    North,
    NorthEast,
    East,
    SouthEast,
    South,
    SouthWest,
    West,
    NorthWest,
}

/// All steps, clockwise from north.
pub const STEPS: &[Step] = &[
    Step::North,
    Step::NorthEast,
    Step::East,
    Step::SouthEast,
    Step::South,
    Step::SouthWest,
    Step::West,
    Step::NorthWest,
];

impl Step {
    /// Returns the cell to which the step leads, as its column and its row. West of column 0 and
    /// north of row 0 is the greatest number.
    pub fn from(self, cell: (u32, u32)) -> (u32, u32) {
        let (x, y) = cell;
        let (west, east) = (x.wrapping_sub(1), x.wrapping_add(1));
        let (north, south) = (y.wrapping_sub(1), y.wrapping_add(1));
        match self {
            Step::North => (x, north),
            Step::NorthEast => (east, north),
            Step::East => (east, y),
            Step::SouthEast => (east, south),
            Step::South => (x, south),
            Step::SouthWest => (west, south),
            Step::West => (west, y),
            Step::NorthWest => (west, north),
        }
    }

    /// Returns the step's word.
    pub(crate) fn word(self) -> &'static [u8] {
        match self {
            Step::North => b"N",
            Step::NorthEast => b"NE",
            Step::East => b"E",
            Step::SouthEast => b"SE",
            Step::South => b"S",
            Step::SouthWest => b"SW",
            Step::West => b"W",
            Step::NorthWest => b"NW",
        }
    }
}
