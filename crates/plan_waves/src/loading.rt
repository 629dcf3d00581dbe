// Puts bits on the tape of a plan.
ghost use Rattle.std.specs.Prelude.{◌≡◌, length, IfOk, IfErr};
ghost use Rattle.lane_core.specs.Plans.{IsAdmissible};
ghost use Rattle.lane_core.specs.Tape.{AreTapeLists};
ghost use Rattle.plan_waves.specs.Loaded.{with_tape};
ghost use Rattle.plan_waves.specs.declared.loading.LoadError.TheVariants.{NoMemory};

use lane_core::Plan;
use lists::{List, OutOfMemory};
use std::alloc::{AllocError, Global};
use std::fmt;
use thiserror::Error;

/// The reason why `load` has put no bits on a plan's tape.
#[derive(Drop, Error)]
pub enum LoadError {
    /// Memory runs out while the bits are copied. The plan is handed back as it was.
    #[error("out of memory")]
    NoMemory(Plan),
}

impl fmt::Debug for LoadError {
    fn fmt<W: fmt::Write>(&self, f: &mut fmt::Formatter<W>) -> fmt::Result {
        match self {
            LoadError::NoMemory(_) => f.write_str("NoMemory"),
        }
    }
}

impl From<LoadError> for OutOfMemory {
    fn from(error: LoadError) -> Self {
        match error {
            LoadError::NoMemory(_) => OutOfMemory::NoMemory,
        }
    }
}

// Copies lists of bits.
fn copied(alloc: Global, bits: &[List<bool>]) -> Result<Vec<List<bool>>, AllocError>
    ensures { IfOk result (λ copy. copy.items ≡ bits.now) }
{
    let mut copy = Vec::with_capacity(alloc, bits.len())?;
    for list in bits {
        copy.push(List::of(list.as_slice().to_vec(alloc)?))?;
    }
    Ok(copy)
}

/// Puts bits on the tape of a plan, in place of those that it had. `bits` has a list for each of
/// its inputs in order, with the bit of each cycle. All lists have one length, from 1 to 4,096.
pub fn load(alloc: Global, plan: Plan, bits: &[List<bool>]) -> Result<Plan, LoadError>
    requires each_input { length bits.now ≡ length plan.ins }
    requires lists { AreTapeLists bits.now }
    ensures loaded { IfOk result (λ p. p ≡ with_tape bits.now plan) }
    ensures admissible { IsAdmissible plan → IfOk result IsAdmissible }
    ensures back { IfErr result (λ e. e ≡ NoMemory plan) }
{
    let Ok(tape) = copied(alloc, bits) else {
        return Err(LoadError::NoMemory(plan));
    };
    let mut plan = plan;
    plan.tape = List::of(tape);
    Ok(plan)
}
