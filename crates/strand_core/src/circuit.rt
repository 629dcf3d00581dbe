// Circuits of strands.

/// What meets in a tile: its upper and its lower strand, or one strand alone.
#[derive(Clone, Copy, PartialEq)]
pub enum TileKind {
    /// Two strands change places.
    Cross,
    Xor,
    Or,
    /// The upper strand without the lower one.
    AndNot,
    /// The lower strand without the upper one.
    AndNotBelow,
    /// One strand becomes two.
    Fork,
    /// One strand takes so many generations more, an even number from 2 on.
    Bump(u32),
}

/// A tile with its strands by their numbers: the upper one and the lower one on either side. Where
/// there is one alone, it is the upper one.
#[derive(Clone, Copy)]
pub struct Tile {
    pub kind: TileKind,
    pub ins: [Option<u32>; 2],
    pub outs: [Option<u32>; 2],
}

/// A strand: a signal that runs east from where it is made to where it is used. `maker` and `user` are tiles by
/// their numbers; a strand without a maker comes in at the west, and one without a user goes out at the east.
/// A signal is `late` generations later than its column.
#[derive(Clone, Copy)]
pub struct Strand {
    pub maker: Option<u32>,
    pub user: Option<u32>,
    pub late: u32,
}

/// What a strand brings that comes in at the west: an input, by its number, or the last latch of a register, by
/// the register's number; or constant 0, which is the data of a register; or constant 1, where no register brings it.
#[derive(Clone, Copy)]
pub enum West {
    Input(u32),
    Register(u32),
    Zero,
    One,
}

/// What a strand that goes out at the east is: an output, by its number, or the data of a register.
#[derive(Clone, Copy)]
pub enum East {
    Output(u32),
    Register(u32),
}

/// A strand that comes in or goes out, and what it is there. An input that nothing reads has no strand, and neither
/// has an output that is constant 0.
#[derive(Clone, Copy)]
pub struct End<T> {
    pub strand: Option<u32>,
    pub is: T,
}

/// Latches of which each but the last is read by the next one alone, from the first to the last, by their numbers. It
/// becomes one wire of as many periods. A register with no latch is constant 1: its one start bit is 1, and it reads
/// itself.
#[derive(Drop)]
pub struct Register {
    pub latches: Vec<u32>,
    pub starts: Vec<bool>,
}

/// Strands and tiles: the strands of the west and of the east from north to south, and the tiles, each after those
/// whose strands it takes.
#[derive(Drop)]
pub struct StrandCircuit {
    pub strands: Vec<Strand>,
    pub tiles: Vec<Tile>,
    pub west: Vec<End<West>>,
    pub east: Vec<End<East>>,
    pub registers: Vec<Register>,
}
