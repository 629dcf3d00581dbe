// A loop of nets, as literals.
ghost use Rattle.std.specs.Prelude.{◌≡◌, map, IfOk};
ghost use Rattle.aiger_meaning.specs.FlatOf.{own_literals};
ghost use Rattle.aiger_meaning.specs.Laws.{literal_of_net};
ghost use Rattle.aiger_meaning.specs.Ids.{net_numbers};

use crate::literals::OwnLiterals;
use aiger_text::Aig;
use lists::List;
use netlist_core::NetId;
use std::alloc::{AllocError, Global};

/// Returns the literals of nets.
pub fn literals_at(
    alloc: Global,
    aig: &Aig,
    known: &OwnLiterals,
    nets: &[NetId],
) -> Result<List<u64>, AllocError>
    requires { known.now ≡ own_literals aig.now }
    ensures { IfOk result (λ found. found ≡ map (literal_of_net aig.now) (net_numbers nets.now)) }
{
    let mut found = Vec::with_capacity(alloc, nets.len())?;
    for net in nets {
        found.push(known.literal(net.0 as usize))?;
    }
    Ok(List::of(found))
}
