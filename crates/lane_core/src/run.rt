// Instructions carried out on bits, one for each lane.
ghost use Rattle.std.specs.Prelude.{◌≡◌, length, All};
ghost use Rattle.lane_core.specs.Columns.{after_columns, IsColumnOnLanes};
ghost use Rattle.lane_core.specs.Instrs.{after_instr, after_instrs, IsOnLanes};

use crate::{Column, Instr};

fn run_instr(instr: Instr, bits: &mut [bool])
    requires { IsOnLanes (length bits.old) instr }
    ensures { bits.new ≡ after_instr bits.old instr }
{
    let lane = instr.lane() as usize;
    let (upper, lower) = instr.answer(bits[lane], bits[lane + 1]);
    bits[lane] = upper;
    bits[lane + 1] = lower;
}

/// Carries out the instructions in order on the bits of all lanes.
pub fn run_instrs(instrs: &[Instr], bits: &mut [bool])
    requires { All (IsOnLanes (length bits.old)) instrs.now }
    ensures { bits.new ≡ after_instrs instrs.now bits.old }
{
    for instr in instrs {
        run_instr(*instr, bits);
    }
}

/// Carries out the columns in order on the bits of all lanes.
pub fn run_columns(columns: &[Column], bits: &mut [bool])
    requires { All (IsColumnOnLanes (length bits.old)) columns.now }
    ensures { bits.new ≡ after_columns columns.now bits.old }
{
    for column in columns {
        run_instrs(column.instrs.as_slice(), bits);
    }
}
