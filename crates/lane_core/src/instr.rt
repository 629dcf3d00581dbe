// What can be done to two neighbouring lanes, and what is done side by side.
ghost use Rattle.std.specs.Prelude.{◌≡◌, ◌+◌, ◌<◌, ◌≤◌, IsTrue, length};
ghost use Rattle.std.specs.List.{AllWithin};
ghost use Rattle.lane_core.specs.Instrs.{lane_of, upper_bit, lower_bit, are_sorted_apart, instr_on};

use lists::List;

/// An instruction works on the lane that it names and on the next one below it. Lanes count from 0
/// at the top.
#[derive(Clone, Copy, Debug, PartialEq, Eq)]
pub enum Instr {
    /// The two lanes exchange their bits.
    Swap(u32),
    /// The upper bit is copied to the lower lane.
    Fork(u32),
    /// The upper lane gets 1 if exactly one of the two bits is 1; the lower lane gets 0.
    Xor(u32),
    /// The upper lane gets 1 if at least one of the two bits is 1; the lower lane gets 0.
    Or(u32),
    /// The upper lane gets 1 if its bit is 1 and the lower one is 0; the lower lane gets 0.
    AndNot(u32),
}

impl Instr {
    /// Returns the upper of its two lanes.
    pub fn lane(self) -> u32
        ensures { result ≡ lane_of self }
    {
        match self {
            Instr::Swap(lane)
            | Instr::Fork(lane)
            | Instr::Xor(lane)
            | Instr::Or(lane)
            | Instr::AndNot(lane) => lane,
        }
    }

    /// Returns the bits that it puts on its upper and its lower lane, given those that it finds
    /// there.
    pub fn answer(self, upper: bool, lower: bool) -> (bool, bool)
        ensures above { result.0 ≡ upper_bit self upper lower }
        ensures below { result.1 ≡ lower_bit self upper lower }
    {
        match self {
            Instr::Swap(_) => (lower, upper),
            Instr::Fork(_) => (upper, upper),
            Instr::Xor(_) => (upper != lower, false),
            Instr::Or(_) => (upper || lower, false),
            Instr::AndNot(_) => (upper && !lower, false),
        }
    }
}

/// Instructions that are done side by side: no two share a lane, and they are sorted by lane, so
/// that the one on a lane is found by binary search.
#[derive(Drop)]
pub struct Column {
    pub instrs: List<Instr>,
    pub ghost sorted_apart: { IsTrue (are_sorted_apart instrs) },
}

impl Column {
    /// Returns the instruction that works on a lane, if there is one.
    pub fn instr_on(&self, lane: u32) -> Option<Instr>
        ensures { result ≡ instr_on self.now.instrs lane }
    {
        let instrs = self.instrs.as_slice();
        let instr = *instrs.get(ending_above(instrs, lane))?;
        if instr.lane() <= lane {
            Some(instr)
        } else {
            None
        }
    }
}

// How many of the instructions, which are sorted, work only on lanes above this one.
fn ending_above(instrs: &[Instr], lane: u32) -> usize
    requires { IsTrue (are_sorted_apart instrs.now) }
    ensures within { result ≤ length instrs.now }
    ensures above { AllWithin (λ i. lane_of i + 1 < lane) instrs.now 0 result }
    ensures others { AllWithin (λ i. lane ≤ lane_of i + 1) instrs.now result (length instrs.now) }
{
    instrs.partition_point(|instr| instr.lane() as u64 + 1 < lane as u64)
}
