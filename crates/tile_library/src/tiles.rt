// A tile for each kind.
ghost use Rattle.std.specs.Prelude.{refl};
ghost use Rattle.tile_core.specs.Kinds.{entries, exits, answer, interface};
ghost use Rattle.tile_library.specs.Drawings.{shipped_drawing};
ghost use Rattle.tile_library.specs.declared.drawings.TheConstants.{AND_NOT, EAST, EAST_SOUTH, FORK, NORTH_EAST, OR, SOUTH, SOUTH_WEST, SWAP, WEST_NORTH, XOR};

use crate::drawings::{
    AND_NOT, EAST, EAST_SOUTH, FORK, NORTH_EAST, OR, SOUTH, SOUTH_WEST, SWAP, WEST_NORTH, XOR,
};
use crate::rows::{is_drawn, is_drawn_mirrored};
use tile_core::{Kind, Tile};

/// A tile that carries two signals from the west side to the east side and exchanges them.
#[derive(Clone, Copy)]
pub struct Swap;

impl Tile for Swap {
    ghost use Rattle.tile_core.specs.declared.kind.Kind.TheVariants.{Swap};
    ghost use Rattle.tile_library.specs.Laws.{has_form, meets_law};

    const LANES: u32 = 2;

    const ENTRIES: [(u32, u32); 2] = [(0, 8), (0, 24)];

    const EXITS: [(u32, u32); 2] = [(31, 8), (31, 24)];

    ghost LANES = { 2 };

    ghost ENTRIES = { entries Swap };

    ghost EXITS = { exits Swap };

    ghost drawing = { shipped_drawing Swap };

    ghost answers = { answer Swap };

    fn cell(&self, x: u32, y: u32) -> bool {
        is_drawn(&SWAP, x, y)
    }

    fn answer(&self, lit: [bool; 2]) -> [bool; 2] {
        Kind::Swap.answer(lit)
    }

    ghost form = { has_form Swap };

    ghost law = { meets_law (interface Swap) SWAP refl };
}

/// A tile whose upper exit is lit if exactly one entry is lit.
#[derive(Clone, Copy)]
pub struct Xor;

impl Tile for Xor {
    ghost use Rattle.tile_core.specs.declared.kind.Kind.TheVariants.{Xor};
    ghost use Rattle.tile_library.specs.Laws.{has_form, meets_law};

    const LANES: u32 = 2;

    const ENTRIES: [(u32, u32); 2] = [(0, 8), (0, 24)];

    const EXITS: [(u32, u32); 2] = [(31, 8), (31, 24)];

    ghost LANES = { 2 };

    ghost ENTRIES = { entries Xor };

    ghost EXITS = { exits Xor };

    ghost drawing = { shipped_drawing Xor };

    ghost answers = { answer Xor };

    fn cell(&self, x: u32, y: u32) -> bool {
        is_drawn(&XOR, x, y)
    }

    fn answer(&self, lit: [bool; 2]) -> [bool; 2] {
        Kind::Xor.answer(lit)
    }

    ghost form = { has_form Xor };

    ghost law = { meets_law (interface Xor) XOR refl };
}

/// A tile whose upper exit is lit if at least one entry is lit.
#[derive(Clone, Copy)]
pub struct Or;

impl Tile for Or {
    ghost use Rattle.tile_core.specs.declared.kind.Kind.TheVariants.{Or};
    ghost use Rattle.tile_library.specs.Laws.{has_form, meets_law};

    const LANES: u32 = 2;

    const ENTRIES: [(u32, u32); 2] = [(0, 8), (0, 24)];

    const EXITS: [(u32, u32); 2] = [(31, 8), (31, 24)];

    ghost LANES = { 2 };

    ghost ENTRIES = { entries Or };

    ghost EXITS = { exits Or };

    ghost drawing = { shipped_drawing Or };

    ghost answers = { answer Or };

    fn cell(&self, x: u32, y: u32) -> bool {
        is_drawn(&OR, x, y)
    }

    fn answer(&self, lit: [bool; 2]) -> [bool; 2] {
        Kind::Or.answer(lit)
    }

    ghost form = { has_form Or };

    ghost law = { meets_law (interface Or) OR refl };
}

/// A tile whose upper exit is lit if the upper entry is lit and the lower one is not.
#[derive(Clone, Copy)]
pub struct AndNot;

impl Tile for AndNot {
    ghost use Rattle.tile_core.specs.declared.kind.Kind.TheVariants.{AndNot};
    ghost use Rattle.tile_library.specs.Laws.{has_form, meets_law};

    const LANES: u32 = 2;

    const ENTRIES: [(u32, u32); 2] = [(0, 8), (0, 24)];

    const EXITS: [(u32, u32); 2] = [(31, 8), (31, 24)];

    ghost LANES = { 2 };

    ghost ENTRIES = { entries AndNot };

    ghost EXITS = { exits AndNot };

    ghost drawing = { shipped_drawing AndNot };

    ghost answers = { answer AndNot };

    fn cell(&self, x: u32, y: u32) -> bool {
        is_drawn(&AND_NOT, x, y)
    }

    fn answer(&self, lit: [bool; 2]) -> [bool; 2] {
        Kind::AndNot.answer(lit)
    }

    ghost form = { has_form AndNot };

    ghost law = { meets_law (interface AndNot) AND_NOT refl };
}

/// A tile whose exits are both lit if the upper entry is lit.
#[derive(Clone, Copy)]
pub struct Fork;

impl Tile for Fork {
    ghost use Rattle.tile_core.specs.declared.kind.Kind.TheVariants.{Fork};
    ghost use Rattle.tile_library.specs.Laws.{has_form, meets_law};

    const LANES: u32 = 2;

    const ENTRIES: [(u32, u32); 2] = [(0, 8), (0, 24)];

    const EXITS: [(u32, u32); 2] = [(31, 8), (31, 24)];

    ghost LANES = { 2 };

    ghost ENTRIES = { entries Fork };

    ghost EXITS = { exits Fork };

    ghost drawing = { shipped_drawing Fork };

    ghost answers = { answer Fork };

    fn cell(&self, x: u32, y: u32) -> bool {
        is_drawn(&FORK, x, y)
    }

    fn answer(&self, lit: [bool; 2]) -> [bool; 2] {
        Kind::Fork.answer(lit)
    }

    ghost form = { has_form Fork };

    ghost law = { meets_law (interface Fork) FORK refl };
}

/// A tile that carries one signal from the west side to the east side.
#[derive(Clone, Copy)]
pub struct East;

impl Tile for East {
    ghost use Rattle.tile_core.specs.declared.kind.Kind.TheVariants.{East};
    ghost use Rattle.tile_library.specs.Laws.{has_form, meets_law};

    const LANES: u32 = 1;

    const ENTRIES: [(u32, u32); 2] = [(0, 8), (0, 0)];

    const EXITS: [(u32, u32); 2] = [(31, 8), (0, 0)];

    ghost LANES = { 1 };

    ghost ENTRIES = { entries East };

    ghost EXITS = { exits East };

    ghost drawing = { shipped_drawing East };

    ghost answers = { answer East };

    fn cell(&self, x: u32, y: u32) -> bool {
        is_drawn(&EAST, x, y)
    }

    fn answer(&self, lit: [bool; 2]) -> [bool; 2] {
        Kind::East.answer(lit)
    }

    ghost form = { has_form East };

    ghost law = { meets_law (interface East) EAST refl };
}

/// A tile that carries one signal from the north side to the south side.
#[derive(Clone, Copy)]
pub struct South;

impl Tile for South {
    ghost use Rattle.tile_core.specs.declared.kind.Kind.TheVariants.{South};
    ghost use Rattle.tile_library.specs.Laws.{has_form, meets_law};

    const LANES: u32 = 1;

    const ENTRIES: [(u32, u32); 2] = [(16, 0), (0, 0)];

    const EXITS: [(u32, u32); 2] = [(16, 15), (0, 0)];

    ghost LANES = { 1 };

    ghost ENTRIES = { entries South };

    ghost EXITS = { exits South };

    ghost drawing = { shipped_drawing South };

    ghost answers = { answer South };

    fn cell(&self, x: u32, y: u32) -> bool {
        is_drawn(&SOUTH, x, y)
    }

    fn answer(&self, lit: [bool; 2]) -> [bool; 2] {
        Kind::South.answer(lit)
    }

    ghost form = { has_form South };

    ghost law = { meets_law (interface South) SOUTH refl };
}

/// A tile that carries one signal from the south side to the north side.
#[derive(Clone, Copy)]
pub struct North;

impl Tile for North {
    ghost use Rattle.tile_core.specs.declared.kind.Kind.TheVariants.{North};
    ghost use Rattle.tile_library.specs.Laws.{has_form, meets_law};

    const LANES: u32 = 1;

    const ENTRIES: [(u32, u32); 2] = [(16, 15), (0, 0)];

    const EXITS: [(u32, u32); 2] = [(16, 0), (0, 0)];

    ghost LANES = { 1 };

    ghost ENTRIES = { entries North };

    ghost EXITS = { exits North };

    ghost drawing = { shipped_drawing North };

    ghost answers = { answer North };

    fn cell(&self, x: u32, y: u32) -> bool {
        is_drawn(&SOUTH, x, y)
    }

    fn answer(&self, lit: [bool; 2]) -> [bool; 2] {
        Kind::North.answer(lit)
    }

    ghost form = { has_form North };

    ghost law = { meets_law (interface North) SOUTH refl };
}

/// A tile that carries one signal from the west side to the south side.
#[derive(Clone, Copy)]
pub struct EastSouth;

impl Tile for EastSouth {
    ghost use Rattle.tile_core.specs.declared.kind.Kind.TheVariants.{EastSouth};
    ghost use Rattle.tile_library.specs.Laws.{has_form, meets_law};

    const LANES: u32 = 1;

    const ENTRIES: [(u32, u32); 2] = [(0, 8), (0, 0)];

    const EXITS: [(u32, u32); 2] = [(16, 15), (0, 0)];

    ghost LANES = { 1 };

    ghost ENTRIES = { entries EastSouth };

    ghost EXITS = { exits EastSouth };

    ghost drawing = { shipped_drawing EastSouth };

    ghost answers = { answer EastSouth };

    fn cell(&self, x: u32, y: u32) -> bool {
        is_drawn(&EAST_SOUTH, x, y)
    }

    fn answer(&self, lit: [bool; 2]) -> [bool; 2] {
        Kind::EastSouth.answer(lit)
    }

    ghost form = { has_form EastSouth };

    ghost law = { meets_law (interface EastSouth) EAST_SOUTH refl };
}

/// A tile that carries one signal from the north side to the west side.
#[derive(Clone, Copy)]
pub struct SouthWest;

impl Tile for SouthWest {
    ghost use Rattle.tile_core.specs.declared.kind.Kind.TheVariants.{SouthWest};
    ghost use Rattle.tile_library.specs.Laws.{has_form, meets_law};

    const LANES: u32 = 1;

    const ENTRIES: [(u32, u32); 2] = [(16, 0), (0, 0)];

    const EXITS: [(u32, u32); 2] = [(0, 8), (0, 0)];

    ghost LANES = { 1 };

    ghost ENTRIES = { entries SouthWest };

    ghost EXITS = { exits SouthWest };

    ghost drawing = { shipped_drawing SouthWest };

    ghost answers = { answer SouthWest };

    fn cell(&self, x: u32, y: u32) -> bool {
        is_drawn(&SOUTH_WEST, x, y)
    }

    fn answer(&self, lit: [bool; 2]) -> [bool; 2] {
        Kind::SouthWest.answer(lit)
    }

    ghost form = { has_form SouthWest };

    ghost law = { meets_law (interface SouthWest) SOUTH_WEST refl };
}

/// A tile that carries one signal from the east side to the north side.
#[derive(Clone, Copy)]
pub struct WestNorth;

impl Tile for WestNorth {
    ghost use Rattle.tile_core.specs.declared.kind.Kind.TheVariants.{WestNorth};
    ghost use Rattle.tile_library.specs.Laws.{has_form, meets_law};

    const LANES: u32 = 1;

    const ENTRIES: [(u32, u32); 2] = [(31, 8), (0, 0)];

    const EXITS: [(u32, u32); 2] = [(16, 0), (0, 0)];

    ghost LANES = { 1 };

    ghost ENTRIES = { entries WestNorth };

    ghost EXITS = { exits WestNorth };

    ghost drawing = { shipped_drawing WestNorth };

    ghost answers = { answer WestNorth };

    fn cell(&self, x: u32, y: u32) -> bool {
        is_drawn(&WEST_NORTH, x, y)
    }

    fn answer(&self, lit: [bool; 2]) -> [bool; 2] {
        Kind::WestNorth.answer(lit)
    }

    ghost form = { has_form WestNorth };

    ghost law = { meets_law (interface WestNorth) WEST_NORTH refl };
}

/// A tile that carries one signal from the south side to the east side.
#[derive(Clone, Copy)]
pub struct NorthEast;

impl Tile for NorthEast {
    ghost use Rattle.tile_core.specs.declared.kind.Kind.TheVariants.{NorthEast};
    ghost use Rattle.tile_library.specs.Laws.{has_form, meets_law};

    const LANES: u32 = 1;

    const ENTRIES: [(u32, u32); 2] = [(16, 15), (0, 0)];

    const EXITS: [(u32, u32); 2] = [(31, 8), (0, 0)];

    ghost LANES = { 1 };

    ghost ENTRIES = { entries NorthEast };

    ghost EXITS = { exits NorthEast };

    ghost drawing = { shipped_drawing NorthEast };

    ghost answers = { answer NorthEast };

    fn cell(&self, x: u32, y: u32) -> bool {
        is_drawn(&NORTH_EAST, x, y)
    }

    fn answer(&self, lit: [bool; 2]) -> [bool; 2] {
        Kind::NorthEast.answer(lit)
    }

    ghost form = { has_form NorthEast };

    ghost law = { meets_law (interface NorthEast) NORTH_EAST refl };
}

/// A tile that carries one signal from the east side to the west side.
#[derive(Clone, Copy)]
pub struct West;

impl Tile for West {
    ghost use Rattle.tile_core.specs.declared.kind.Kind.TheVariants.{West};
    ghost use Rattle.tile_library.specs.Laws.{has_form, meets_law};

    const LANES: u32 = 1;

    const ENTRIES: [(u32, u32); 2] = [(31, 8), (0, 0)];

    const EXITS: [(u32, u32); 2] = [(0, 8), (0, 0)];

    ghost LANES = { 1 };

    ghost ENTRIES = { entries West };

    ghost EXITS = { exits West };

    ghost drawing = { shipped_drawing West };

    ghost answers = { answer West };

    fn cell(&self, x: u32, y: u32) -> bool {
        is_drawn(&EAST, x, y)
    }

    fn answer(&self, lit: [bool; 2]) -> [bool; 2] {
        Kind::West.answer(lit)
    }

    ghost form = { has_form West };

    ghost law = { meets_law (interface West) EAST refl };
}

/// Swap with west and east exchanged: a tile that carries two signals from the east side to the
/// west side and exchanges them.
#[derive(Clone, Copy)]
pub struct WestSwap;

impl Tile for WestSwap {
    ghost use Rattle.tile_core.specs.declared.kind.Kind.TheVariants.{WestSwap};
    ghost use Rattle.tile_library.specs.Laws.{has_form, west_swap_meets};

    const LANES: u32 = 2;

    const ENTRIES: [(u32, u32); 2] = [(31, 8), (31, 24)];

    const EXITS: [(u32, u32); 2] = [(0, 8), (0, 24)];

    ghost LANES = { 2 };

    ghost ENTRIES = { entries WestSwap };

    ghost EXITS = { exits WestSwap };

    ghost drawing = { shipped_drawing WestSwap };

    ghost answers = { answer WestSwap };

    fn cell(&self, x: u32, y: u32) -> bool {
        is_drawn_mirrored(&SWAP, x, y)
    }

    fn answer(&self, lit: [bool; 2]) -> [bool; 2] {
        Kind::WestSwap.answer(lit)
    }

    ghost form = { has_form WestSwap };

    ghost law = { west_swap_meets refl };
}
