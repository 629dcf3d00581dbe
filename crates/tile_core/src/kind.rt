// The kinds of tiles, and what a tile's surroundings know of each.
ghost use Rattle.std.specs.Prelude.{◌≡◌};
ghost use Rattle.lists.specs.Items.{flag_at};
ghost use Rattle.tile_core.specs.Kinds.{lanes, entries, exits, answer};

/// The kinds of tiles. The first five and `WestSwap` are two lanes high and work on two signals.
/// The others are one lane high and carry one signal: the name gives its direction, or its
/// directions before and after a turn.
#[derive(Clone, Copy, Debug, PartialEq, Eq)]
pub enum Kind {
    Swap,
    Xor,
    Or,
    AndNot,
    Fork,
    East,
    South,
    North,
    EastSouth,
    SouthWest,
    WestNorth,
    NorthEast,
    West,
    WestSwap,
}

impl Kind {
    /// Returns the height in lanes of 16 rows, 1 or 2. Every tile is 32 columns wide.
    pub fn lanes(self) -> u32
        ensures { result ≡ lanes self }
    {
        match self {
            Kind::Swap | Kind::Xor | Kind::Or | Kind::AndNot | Kind::Fork | Kind::WestSwap => 2,
            Kind::East
            | Kind::South
            | Kind::North
            | Kind::EastSouth
            | Kind::SouthWest
            | Kind::WestNorth
            | Kind::NorthEast
            | Kind::West => 1,
        }
    }

    /// Returns the cells (x, y) where the tile is entered, the upper one first. The second is (0,
    /// 0) in a tile of one lane.
    pub fn entries(self) -> [(u32, u32); 2]
        ensures { result ≡ entries self }
    {
        match self {
            Kind::Swap | Kind::Xor | Kind::Or | Kind::AndNot | Kind::Fork => [(0, 8), (0, 24)],
            Kind::WestSwap => [(31, 8), (31, 24)],
            Kind::East | Kind::EastSouth => [(0, 8), (0, 0)],
            Kind::South | Kind::SouthWest => [(16, 0), (0, 0)],
            Kind::North | Kind::NorthEast => [(16, 15), (0, 0)],
            Kind::West | Kind::WestNorth => [(31, 8), (0, 0)],
        }
    }

    /// Returns the cells (x, y) where the tile is left, the upper one first. The second is (0, 0)
    /// in a tile of one lane.
    pub fn exits(self) -> [(u32, u32); 2]
        ensures { result ≡ exits self }
    {
        match self {
            Kind::Swap | Kind::Xor | Kind::Or | Kind::AndNot | Kind::Fork => [(31, 8), (31, 24)],
            Kind::WestSwap => [(0, 8), (0, 24)],
            Kind::East | Kind::NorthEast => [(31, 8), (0, 0)],
            Kind::South | Kind::EastSouth => [(16, 15), (0, 0)],
            Kind::North | Kind::WestNorth => [(16, 0), (0, 0)],
            Kind::West | Kind::SouthWest => [(0, 8), (0, 0)],
        }
    }

    /// Returns which exits are lit 31 generations after the entries that `lit` names, the upper
    /// ones first. In a tile of one lane the second bit of `lit` is ignored, and that of the result
    /// is false.
    pub fn answer(self, lit: [bool; 2]) -> [bool; 2]
        ensures { result ≡ answer self (flag_at lit 0) (flag_at lit 1) }
    {
        let [upper, lower] = lit;
        match self {
            Kind::Swap | Kind::WestSwap => [lower, upper],
            Kind::Xor => [upper != lower, false],
            Kind::Or => [upper || lower, false],
            Kind::AndNot => [upper && !lower, false],
            Kind::Fork => [upper, upper],
            Kind::East
            | Kind::South
            | Kind::North
            | Kind::EastSouth
            | Kind::SouthWest
            | Kind::WestNorth
            | Kind::NorthEast
            | Kind::West => [upper, false],
        }
    }
}
