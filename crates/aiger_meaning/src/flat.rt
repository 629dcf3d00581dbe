// The flat netlist.
ghost use Rattle.std.specs.Prelude.{◌≡◌, ◌<◌, ◌^◌, IfOk};
ghost use Rattle.aiger_text.specs.SoundAig.{IsSoundAig};
ghost use Rattle.aiger_meaning.specs.Circuit.{aig_weight};
ghost use Rattle.aiger_meaning.specs.FlatOf.{IsFlatOfAig, own_literals};

use crate::literals::OwnLiterals;
use crate::nets::nets_of;
use crate::nodes::nodes_of;
use crate::ports::{latches_from, ports_from};
use aiger_text::Aig;
use lists::List;
use netlist_core::Flat;
use std::alloc::{AllocError, Global};

/// Makes the flat netlist of a circuit of this weight. `known` has the circuit's literals that have
/// a net of their own.
pub fn flat_of(
    alloc: Global,
    aig: &Aig,
    known: &OwnLiterals,
    weight: u64,
) -> Result<Flat, AllocError>
    requires sound { IsSoundAig aig.now }
    requires own { known.now ≡ own_literals aig.now }
    requires small { aig_weight aig.now < 2 ^ 31 }
    requires weight { weight ≡ aig_weight aig.now }
    ensures { IfOk result (IsFlatOfAig aig.now) }
{
    let first_buffer = 1 + aig.inputs.len() + aig.latches.len() + aig.ands.len();
    let first_output = first_buffer + aig.latches.len();
    let ins = ports_from(alloc, 1, aig.inputs.len())?;
    let outs = ports_from(alloc, first_output, aig.outputs.len())?;
    let inner = aig.latches.as_slice();
    let latches = latches_from(alloc, first_buffer, 1 + aig.inputs.len(), inner)?;
    let nets = nets_of(alloc, aig)?;
    let nodes = nodes_of(alloc, aig, known)?;
    Ok(Flat {
        nets: List::of(nets),
        ins: List::of(ins),
        outs: List::of(outs),
        clocks: List::of(Vec::new(alloc)),
        nodes: List::of(nodes),
        latches: List::of(latches),
        control: None,
        weight,
        listed: false,
    })
}
