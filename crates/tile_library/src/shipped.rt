// The library of the shipped drawings.
ghost use Rattle.tile_library.specs.Drawings.{shipped_drawing};
ghost use Rattle.tile_library.specs.WiredRows.{AreWiredRows};

use crate::rows::{run_from, run_from_mirrored};
use crate::{drawings, tiles};
use tile_core::{Kind, Library, Tile};

/// The shipped drawings: for each kind the one of its tile in `tiles`.
#[derive(Clone, Copy)]
pub struct Shipped;

impl Library for Shipped {
    ghost use Rattle.std.specs.Prelude.{refl};
    ghost use Rattle.tile_core.specs.declared.kind.Kind.TheVariants.{Swap, Xor, Or, AndNot, Fork, East, South, North, EastSouth, SouthWest, WestNorth, NorthEast, West, WestSwap};
    ghost use Rattle.tile_core.specs.Kinds.{interface};
    ghost use Rattle.tile_library.specs.declared.drawings.TheConstants.{AND_NOT, EAST, EAST_SOUTH, FORK, NORTH_EAST, OR, SOUTH, SOUTH_WEST, SWAP, WEST_NORTH, XOR};
    ghost use Rattle.tile_library.specs.Laws.{meets_law, west_swap_meets};

    ghost drawing = { λ library kind. shipped_drawing kind };

    fn cell(&self, kind: Kind, x: u32, y: u32) -> bool {
        match kind {
            Kind::Swap => tiles::Swap.cell(x, y),
            Kind::Xor => tiles::Xor.cell(x, y),
            Kind::Or => tiles::Or.cell(x, y),
            Kind::AndNot => tiles::AndNot.cell(x, y),
            Kind::Fork => tiles::Fork.cell(x, y),
            Kind::East => tiles::East.cell(x, y),
            Kind::South => tiles::South.cell(x, y),
            Kind::North => tiles::North.cell(x, y),
            Kind::EastSouth => tiles::EastSouth.cell(x, y),
            Kind::SouthWest => tiles::SouthWest.cell(x, y),
            Kind::WestNorth => tiles::WestNorth.cell(x, y),
            Kind::NorthEast => tiles::NorthEast.cell(x, y),
            Kind::West => tiles::West.cell(x, y),
            Kind::WestSwap => tiles::WestSwap.cell(x, y),
        }
    }

    ghost law = { λ library. elim [
      | Swap ↦ meets_law (interface Swap) SWAP refl
      | Xor ↦ meets_law (interface Xor) XOR refl
      | Or ↦ meets_law (interface Or) OR refl
      | AndNot ↦ meets_law (interface AndNot) AND_NOT refl
      | Fork ↦ meets_law (interface Fork) FORK refl
      | East ↦ meets_law (interface East) EAST refl
      | South ↦ meets_law (interface South) SOUTH refl
      | North ↦ meets_law (interface North) SOUTH refl
      | EastSouth ↦ meets_law (interface EastSouth) EAST_SOUTH refl
      | SouthWest ↦ meets_law (interface SouthWest) SOUTH_WEST refl
      | WestNorth ↦ meets_law (interface WestNorth) WEST_NORTH refl
      | NorthEast ↦ meets_law (interface NorthEast) NORTH_EAST refl
      | West ↦ meets_law (interface West) EAST refl
      | WestSwap ↦ west_swap_meets refl
    ] };
}

impl Shipped {
    ghost use Rattle.std.specs.Prelude.{◌≡◌, ◌-◌, ◌<◌, true, false, ℕ, pos};
    ghost use Rattle.tile_library.specs.RowRuns.{IsRowRun};

    /// Returns whether row `y` lies above or below all rows of a tile that have conductors.
    pub fn is_row_blank(self, kind: Kind, y: u32) -> bool
        ensures { result ≡ true → (x : ℕ) → shipped_drawing kind (pos x) (pos y) ≡ false }
    {
        let (first, last) = wired_rows(kind);
        y < first || last < y
    }

    /// Returns whether a cell of a tile is a conductor, and how many cells from it eastward, within
    /// the box, are all so.
    pub fn run_at(self, kind: Kind, x: u32, y: u32) -> (bool, u32)
        requires { x < 32 }
        ensures { IsRowRun (λ x. shipped_drawing kind (pos x) (pos y)) x (32 - x) result }
    {
        match kind {
            Kind::Swap => run_from(&drawings::SWAP, x, y),
            Kind::Xor => run_from(&drawings::XOR, x, y),
            Kind::Or => run_from(&drawings::OR, x, y),
            Kind::AndNot => run_from(&drawings::AND_NOT, x, y),
            Kind::Fork => run_from(&drawings::FORK, x, y),
            Kind::East => run_from(&drawings::EAST, x, y),
            Kind::South => run_from(&drawings::SOUTH, x, y),
            Kind::North => run_from(&drawings::SOUTH, x, y),
            Kind::EastSouth => run_from(&drawings::EAST_SOUTH, x, y),
            Kind::SouthWest => run_from(&drawings::SOUTH_WEST, x, y),
            Kind::WestNorth => run_from(&drawings::WEST_NORTH, x, y),
            Kind::NorthEast => run_from(&drawings::NORTH_EAST, x, y),
            Kind::West => run_from(&drawings::EAST, x, y),
            Kind::WestSwap => run_from_mirrored(&drawings::SWAP, x, y),
        }
    }
}

// The first and the last row of a kind's box that have conductors.
fn wired_rows(kind: Kind) -> (u32, u32)
    ensures { AreWiredRows kind result }
{
    match kind {
        Kind::Swap => (5, 27),
        Kind::Xor => (8, 24),
        Kind::Or => (8, 24),
        Kind::AndNot => (8, 25),
        Kind::Fork => (6, 24),
        Kind::East => (8, 8),
        Kind::South => (0, 15),
        Kind::North => (0, 15),
        Kind::EastSouth => (8, 15),
        Kind::SouthWest => (0, 8),
        Kind::WestNorth => (0, 8),
        Kind::NorthEast => (8, 15),
        Kind::West => (8, 8),
        Kind::WestSwap => (5, 27),
    }
}
