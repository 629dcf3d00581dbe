// The number of the column of each instruction.
ghost use Rattle.std.specs.Prelude.{◌≡◌, ◌<◌, ◌+◌, ◌^◌, ℕ, max, length, set, All, IfOk};
ghost use Rattle.lists.specs.Items.{number_at};
ghost use Rattle.lane_core.specs.Instrs.{IsOnLanes, lane_of};
ghost use Rattle.column_packer.specs.Numbers.{column_numbers};

use crate::PackError;
use lane_core::Instr;
use std::alloc::Global;

// Puts an instruction into the first column after the last use of its lanes, and notes this use;
// the column's number.
fn put(used: &mut [usize], instr: Instr) -> usize
    requires within { IsOnLanes (length used.old) instr }
    requires few { (lane : ℕ) → lane < length used.old → number_at used.old lane + 1 < 2 ^ 64 }
    ensures number { result ≡ max (number_at used.old (lane_of instr))
        (number_at used.old (lane_of instr + 1)) }
    ensures used { used.new ≡ set (set used.old (lane_of instr) (result + 1)) (lane_of instr + 1)
        (result + 1) }
{
    let lane = instr.lane() as usize;
    let column = used[lane].max(used[lane + 1]);
    used[lane] = column + 1;
    used[lane + 1] = column + 1;
    column
}

/// Returns the number of each instruction's column, from 0: the first column after the last use of
/// its two lanes.
pub fn column_numbers(alloc: Global, lanes: u32, instrs: &[Instr]) -> Result<Vec<usize>, PackError>
    requires { All (IsOnLanes lanes) instrs.now }
    ensures { IfOk result (λ v. v.items ≡ column_numbers instrs.now) }
{
    let mut used = vec![in alloc; 0usize; lanes as usize]?;
    let mut numbers = Vec::new(alloc);
    for instr in instrs {
        numbers.push(put(&mut used, *instr))?;
    }
    Ok(numbers)
}
