// Sets of names.
ghost use Rattle.std.specs.Prelude.{IfOk};
ghost use Rattle.netlist_core.specs.Names.{is_named};
ghost use Rattle.netlist_rules.specs.ModelFaults.{formals_of};
ghost use Rattle.model_words.specs.NameSets.{HasNames};

use netlist_core::Subckt;
use std::alloc::{AllocError, Global};
use std::collections::BTreeSet;

/// Collects the formals of a line.
pub fn formals_of(alloc: Global, line: &Subckt) -> Result<BTreeSet<&[u8]>, AllocError>
    ensures { IfOk result (λ names. HasNames names (is_named (formals_of line.now))) }
{
    let mut names = BTreeSet::new(alloc);
    for pin in line.pins.as_slice() {
        names.insert(pin.formal.as_slice())?;
    }
    Ok(names)
}
