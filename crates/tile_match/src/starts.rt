// Which loops start with 1, by the cells at which they enter the body.
ghost use Rattle.std.specs.Prelude.{◌≡◌, ◌≤◌, IfOk};
ghost use Rattle.circuit_plans.specs.Circuits.{starts_where};
ghost use Rattle.tile_match.specs.Blocks.{bit_shown, bits_shown};

use crate::reading::{cell_shown, is_head};
use circuit_plans::starts_of_bits;
use lane_core::Starts;
use std::alloc::{AllocError, Global};
use ww_rule::CellRows;

fn bit_shown(rows: &CellRows, lanes: u32, loops: u32, number: u32) -> bool
    requires { loops ≤ lanes }
    ensures { result ≡ bit_shown rows.now lanes loops number }
{
    let lane = (lanes - loops) as u64 + number as u64;
    is_head(cell_shown(rows, 32 * loops as u64, 16 * lane + 8))
}

// A bit for each of so many loops.
fn bits_shown(
    alloc: Global,
    rows: &CellRows,
    lanes: u32,
    loops: u32,
) -> Result<Vec<bool>, AllocError>
    requires { loops ≤ lanes }
    ensures { IfOk result (λ starts. starts.items ≡ bits_shown rows.now lanes loops) }
{
    let mut starts = Vec::new(alloc);
    for number in 0..loops {
        starts.push(bit_shown(rows, lanes, loops, number))?;
    }
    Ok(starts)
}

/// Returns the starts of the loops that start with 1.
pub fn starts_shown(
    alloc: Global,
    rows: &CellRows,
    lanes: u32,
    loops: u32,
) -> Result<Starts, AllocError>
    requires { loops ≤ lanes }
    ensures { IfOk result (λ starts.
        starts.list ≡ starts_where lanes loops (bit_shown rows.now lanes loops)
        ) }
{
    let bits = bits_shown(alloc, rows, lanes, loops)?;
    starts_of_bits(alloc, lanes, &bits)
}
