// The tiles of a plan as letters.
ghost use Rattle.lane_core.specs.Plans.{IsAdmissible};

use lane_core::Plan;
use plan_layout::{Piece, Slot, slot_at};
use tile_core::Kind;

// The letter of a slot: a lowercase one for the lower half of a pair.
fn letter(slot: Slot) -> u8 {
    match slot {
        Slot::Nothing => b'.',
        Slot::Whole(Piece::Output) => b'*',
        Slot::Whole(Piece::Tile(kind)) => match kind {
            Kind::East => b'>',
            Kind::West => b'<',
            Kind::South => b'v',
            Kind::North => b'^',
            Kind::EastSouth => b'7',
            Kind::SouthWest => b'J',
            Kind::WestNorth => b'L',
            Kind::NorthEast => b'r',
            _ => b'?',
        },
        Slot::Upper(Piece::Tile(kind)) => pair_letter(kind),
        Slot::Lower(Piece::Tile(kind)) => pair_letter(kind).to_ascii_lowercase(),
        _ => b'?',
    }
}

fn pair_letter(kind: Kind) -> u8 {
    match kind {
        Kind::Swap => b'S',
        Kind::Xor => b'X',
        Kind::Or => b'O',
        Kind::AndNot => b'A',
        Kind::Fork => b'F',
        Kind::WestSwap => b'W',
        _ => b'?',
    }
}

/// Returns whether the plan's slots on a lane have these letters.
pub fn is_row_of_slots(plan: &Plan, lane: u64, letters: &[u8]) -> bool
    requires { IsAdmissible plan.now }
{
    for (column, want) in letters.iter().enumerate() {
        if letter(slot_at(plan, column as u64, lane)) != *want {
            return false;
        }
    }
    true
}
