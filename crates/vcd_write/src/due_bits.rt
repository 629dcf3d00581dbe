// Bits that are due, each at a generation.
ghost use Rattle.std.specs.Prelude.{◌≡◌, ◌≤◌, ◌++◌, ℕ, [], IfSome, MatchOption, OnOk};
ghost use Rattle.vcd_write.specs.DueBits.{AreInOrder, IsTakenFrom, IsWithin, comes_first, next_bit};

use std::alloc::{AllocError, Global};
use std::collections::VecDeque;

/// A bit that is due: at this generation the cell of its variable shows it. `place` is its place
/// among all bits.
#[derive(Clone, Copy)]
pub struct DueBit {
    pub generation: u64,
    pub place: usize,
    pub x: u64,
    pub y: u64,
}

/// How all bits stand in rows, one row for each cycle: the number of variables in a row, the number
/// of generations in a cycle, the number of bits, and a generation up to which all of them are
/// shown.
#[derive(Clone, Copy)]
pub struct Raster {
    pub variables: usize,
    pub period: u64,
    pub bits: usize,
    pub last: u64,
}

/// The next bit of each variable that has one, in two queues: that of the variables of which no bit
/// has been taken, and that of the variables that have begun.
#[derive(Drop)]
pub struct DueBits {
    unbegun: VecDeque<DueBit>,
    begun: VecDeque<DueBit>,
}

// Whether there is a first bit, and it comes no later than the first of the others, if there are
// others.
fn comes_first(bits: &VecDeque<DueBit>, others: &VecDeque<DueBit>) -> bool
    ensures { result ≡ comes_first bits.now.items others.now.items }
{
    match (bits.front(), others.front()) {
        (Some(bit), Some(other)) => bit.generation <= other.generation,
        (Some(_), None) => true,
        (None, _) => false,
    }
}

impl DueBits {
    /// Makes the queues of the first bit of each variable; no variable has begun.
    pub fn of(alloc: Global, first: Vec<DueBit>) -> DueBits
        ensures unbegun { result.unbegun.items ≡ first.items }
        ensures begun { result.begun.items ≡ [] }
    {
        DueBits {
            unbegun: VecDeque::from_vec(first),
            begun: VecDeque::new(alloc),
        }
    }

    /// Takes the earliest bit, if there is one.
    pub fn take_earliest(&mut self) -> Option<DueBit>
        ensures taken { MatchOption result (
            (self.old.unbegun.items ≡ []) × (self.old.begun.items ≡ [])
            ) (λ bit. IsTakenFrom bit self.old self.new) }
        ensures order { IfSome result (λ bit. (g period : ℕ) → AreInOrder g period self.old
            → (g ≤ bit.generation) × AreInOrder bit.generation period self.new) }
    {
        if comes_first(&self.begun, &self.unbegun) {
            self.begun.pop_front()
        } else {
            self.unbegun.pop_front()
        }
    }

    /// Puts the next bit of the same variable, if there is one, after all others that have begun.
    pub fn put_next(&mut self, bit: DueBit, raster: &Raster) -> Result<(), AllocError>
        requires { IsWithin raster.now bit }
        ensures unbegun { OnOk result (self.new.unbegun.items ≡ self.old.unbegun.items) }
        ensures begun { OnOk result (self.new.begun.items ≡
            self.old.begun.items ++ next_bit raster.now bit) }
    {
        if raster.bits - bit.place <= raster.variables {
            return Ok(());
        }
        self.begun.push_back(DueBit {
            generation: bit.generation + raster.period,
            place: bit.place + raster.variables,
            ..bit
        })?;
        Ok(())
    }
}
