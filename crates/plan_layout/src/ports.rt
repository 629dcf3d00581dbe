// The places where what stands in a block is entered and left.
ghost use Rattle.std.specs.Prelude.{◌≡◌, ◌&&◌, ◌<◌, pos, [], ◌∷◌};
ghost use Rattle.std.specs.Ordering.{int_eq};
ghost use Rattle.tile_core.specs.Drawing.{is_cell_of};
ghost use Rattle.tile_core.specs.Interface.{entry_cells, exit_cells, cell_at};
ghost use Rattle.tile_core.specs.Kinds.{interface};
ghost use Rattle.tiling.specs.Matched.{is_entered, is_left};
ghost use Rattle.plan_layout.specs.Slots.{slot_of};

use crate::{Piece, Slot};
use tile_core::Kind;

// Whether a place is that of a port.
fn is_at(place: (u32, u32), port: (u32, u32)) -> bool
    ensures { result ≡ (int_eq (pos place.0) (pos port.0) && int_eq (pos place.1) (pos port.1)) }
{
    place.0 == port.0 && place.1 == port.1
}

// Whether a tile is left at this place of its box.
#[tactic(auto, using(crate::proofs::PortCells::left_at))]
fn is_tile_left(kind: Kind, place: (u32, u32)) -> bool
    ensures { result ≡ is_cell_of (pos place.0) (pos place.1) (exit_cells (interface kind)) }
{
    let exits = kind.exits();
    let upper = is_at(place, exits[0]);
    let lower = is_at(place, exits[1]);
    let two = kind.lanes() == 2;
    upper | (two & lower)
}

// Whether a tile is entered at this place of its box.
#[tactic(auto, using(crate::proofs::PortCells::entered_at))]
fn is_tile_entered(kind: Kind, place: (u32, u32)) -> bool
    ensures { result ≡ is_cell_of (pos place.0) (pos place.1) (entry_cells (interface kind)) }
{
    let entries = kind.entries();
    let upper = is_at(place, entries[0]);
    let lower = is_at(place, entries[1]);
    let two = kind.lanes() == 2;
    upper | (two & lower)
}

// Whether an output cell is entered at this place: at its one cell.
#[tactic(auto, using(crate::proofs::PortCells::output_at))]
fn is_output_entered(place: (u32, u32)) -> bool
    ensures { result ≡ is_cell_of (pos place.0) (pos place.1) (cell_at (0, 8) ∷ []) }
{
    is_at(place, (0, 8))
}

/// Returns whether what stands in a block is left at this place of the block.
pub fn is_left(slot: Slot, place: (u32, u32)) -> bool
    requires { place.1 < 16 }
    ensures { result ≡ is_left (slot_of slot) place.0 place.1 }
{
    match slot {
        Slot::Whole(Piece::Tile(kind)) | Slot::Upper(Piece::Tile(kind)) => is_tile_left(
            kind, place,
        ),
        Slot::Lower(Piece::Tile(kind)) => is_tile_left(kind, (place.0, place.1 + 16)),
        Slot::Nothing
        | Slot::Whole(Piece::Output)
        | Slot::Upper(Piece::Output)
        | Slot::Lower(Piece::Output) => false,
    }
}

/// Returns whether what stands in a block is entered at this place of the block.
pub fn is_entered(slot: Slot, place: (u32, u32)) -> bool
    requires { place.1 < 16 }
    ensures { result ≡ is_entered (slot_of slot) place.0 place.1 }
{
    match slot {
        Slot::Whole(Piece::Tile(kind)) | Slot::Upper(Piece::Tile(kind)) => {
            is_tile_entered(kind, place)
        }
        Slot::Lower(Piece::Tile(kind)) => is_tile_entered(kind, (place.0, place.1 + 16)),
        Slot::Nothing => false,
        Slot::Whole(Piece::Output) | Slot::Upper(Piece::Output) => is_output_entered(place),
        Slot::Lower(Piece::Output) => is_output_entered((place.0, place.1 + 16)),
    }
}
