// The bits that a run shows, read in the order of their generations.
ghost use Rattle.std.specs.Prelude.{◌≡◌, ◌≤◌, ◌<◌, ◌==◌, ◌&&◌, ◌||◌, ℕ, Bool, pos, All, IfErr, IfOk, OnOk, length};
ghost use Rattle.lists.specs.Items.{flag_at};
ghost use Rattle.ww_rule.specs.Wireworld.{is_head};
ghost use Rattle.drive.specs.Driving.{HasRunCause};
ghost use Rattle.drive.specs.Runs.{HasGoneOn, IsBandRun, first_miss_of, planes_of};
ghost use Rattle.vcd_write.specs.DueBits.{AreDueFrom, AreFirstBits, IsWithin};

use crate::due_bits::{DueBit, DueBits, Raster};
use crate::packed_bits::PackedBits;
use drive::{Run, SimulateError};
use std::alloc::Global;

// Reads a bit that is due.
fn read_bit(run: &mut Run, bits: &mut PackedBits, bit: DueBit)
    requires run { IsBandRun run.old }
    requires order { run.old.generation ≤ bit.generation }
    requires place { bit.place < length bits.old }
    ensures gone { HasGoneOn bit.generation run.old run.new }
    ensures long { length bits.new ≡ length bits.old }
    ensures bits { (k : ℕ) → flag_at bits.new k
        ≡ ((k == bit.place && is_head (planes_of run.old bit.generation (pos bit.x) (pos bit.y))) ||
        flag_at bits.old k) }
{
    run.go_on(bit.generation);
    if run.is_head(bit.x, bit.y) {
        bits.set(bit.place);
    }
}

/// Returns the bits that a run shows at the places of a raster. `first` has the first bit of each
/// variable, in the order of their generations. The run goes on to the last bit, or to the first
/// bit after an injection whose cell was no conductor.
pub fn read_bits(
    alloc: Global,
    run: &mut Run,
    first: Vec<DueBit>,
    raster: &Raster,
) -> Result<PackedBits, SimulateError>
    requires run { IsBandRun run.old }
    requires near { run.old.generation ≤ raster.now.last }
    requires order { AreDueFrom run.old.generation first.items }
    requires within { All (IsWithin raster.now) first.items }
    ensures gone { OnOk result (HasGoneOn raster.now.last run.old run.new) }
    ensures long { IfOk result (λ bits. length bits ≡ raster.now.bits) }
    ensures bits { IfOk result (λ bits. (shown : ℕ → Bool) →
        AreFirstBits shown (planes_of run.old) raster.now first.items
        → (k : ℕ) → k < raster.now.bits → flag_at bits k ≡ shown k) }
    ensures refused { IfErr result (HasRunCause (first_miss_of run.old raster.now.last)) }
{
    let mut bits = PackedBits::zeros(alloc, raster.bits)?;
    let mut due = DueBits::of(alloc, first);
    'bits: while let Some(bit) = due.take_earliest() {
        read_bit(run, &mut bits, bit);
        run.quiet()?;
        due.put_next(bit, raster)?;
    }
    Ok(bits)
}
