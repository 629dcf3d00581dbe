// The tape of a plan: how long it is, and where its bits lie.
ghost use Rattle.std.specs.Prelude.{◌≡◌, ◌*◌, ◌<◌, ◌≤◌, ◌^◌, map, slice_get, unwrap_or, false};
ghost use Rattle.lists.specs.Items.{flag_at};
ghost use Rattle.lane_core.specs.Entering.{lane_bit};
ghost use Rattle.lane_core.specs.Plans.{IsAdmissible};
ghost use Rattle.lane_core.specs.Tape.{cycle_tiles, tape_cycles, tape_tiles, tape_shift, tape_bit};

use crate::{Plan, period};
use lists::List;

/// Returns the number of cycles for which a plan has bits on its tape, which is 0 without a tape.
pub fn tape_cycles(plan: &Plan) -> usize
    ensures { result ≡ tape_cycles plan.now }
{
    match plan.tape.as_slice().first() {
        Some(bits) => bits.len(),
        None => 0,
    }
}

/// Returns the number of tiles that a signal goes through from cycle to cycle.
pub fn cycle_tiles(plan: &Plan) -> u64
    requires { IsAdmissible plan.now }
    ensures exact { result ≡ cycle_tiles plan.now }
    ensures some { 1 ≤ result }
    ensures few { result < 2 ^ 42 }
{
    period(plan) / 32
}

/// Returns the number of tiles of the tape on the lane of an input, which is 0 without a tape.
pub fn tape_tiles(plan: &Plan) -> u64
    requires { IsAdmissible plan.now }
    ensures exact { result ≡ tape_tiles plan.now }
    ensures few { result < 2 ^ 54 }
{
    tape_cycles(plan).saturating_sub(1) as u64 * cycle_tiles(plan)
}

/// Returns how many tile columns further east a plan is drawn, so that its tape has room.
pub fn tape_shift(plan: &Plan) -> u64
    requires { IsAdmissible plan.now }
    ensures exact { result ≡ tape_shift plan.now }
    ensures few { result < 2 ^ 54 }
{
    tape_tiles(plan).saturating_sub(plan.latches as u64)
}

// Whether the list of this number has the bit 1 in a cycle.
fn is_set(tape: &[List<bool>], number: usize, cycle: u64) -> bool
    ensures { result ≡ flag_at (map (λ bits. unwrap_or
        (slice_get bits cycle) false) tape.now) number }
{
    match tape.get(number) {
        Some(bits) => bits
            .as_slice()
            .get(cycle as usize)
            .copied()
            .unwrap_or(false),
        None => false,
    }
}

// Whether the input of a lane has the bit 1 in a cycle.
fn has_bit(ins: &[u32], tape: &[List<bool>], lane: u64, cycle: u64) -> bool
    ensures { result ≡ lane_bit ins.now (map (λ bits. unwrap_or
        (slice_get bits cycle) false) tape.now) lane }
{
    for (i, input) in ins.iter().enumerate() {
        if *input as u64 == lane && is_set(tape, i, cycle) {
            return true;
        }
    }
    false
}

/// Returns whether the electron of a bit 1 of the tape lies on a lane at the edge that is so many
/// tiles before the body.
pub fn tape_bit(plan: &Plan, tiles: u64, lane: u64) -> bool
    requires { IsAdmissible plan.now }
    ensures { result ≡ tape_bit plan.now tiles lane }
{
    let each = cycle_tiles(plan);
    tiles % each == 0
        && has_bit(
            plan.ins.as_slice(),
            plan.tape.as_slice(),
            lane,
            tiles / each,
        )
}
