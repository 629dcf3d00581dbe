// The literals that have a net of their own, in the order of the nets.
ghost use Rattle.std.specs.Prelude.{◌≡◌, ◌≤◌, ◌==◌, ◌++◌, length, map, IfOk, OnOk};
ghost use Rattle.lists.specs.Items.{number_at};
ghost use Rattle.std.specs.List.{position_or_len};
ghost use Rattle.aiger_text.specs.declared.aig.AigLatch as latch_type;
ghost use Rattle.aiger_text.specs.declared.aig.AigAnd as gate_type;
ghost use Rattle.aiger_text.specs.EntryFaults.{even};
ghost use Rattle.aiger_meaning.specs.FlatOf.{own_literals};
ghost use Rattle.aiger_meaning.specs.NetIndex.{HasNetsFrom};

use aiger_text::{Aig, AigAnd, AigLatch};
use std::alloc::{AllocError, Global};
use std::collections::BTreeMap;

/// The literals of a circuit that have a net of their own, in the order of the nets, and the net of
/// each. Contracts see the literals.
#[derive(Drop)]
pub struct OwnLiterals {
    literals: Vec<u64>,
    nets: BTreeMap<u64, usize>,
}

impl std::marker::Model for OwnLiterals {
    ghost use Rattle.std.specs.Prelude.{ℕ, List};
    ghost use Rattle.aiger_meaning.specs.NetIndex.{HasNetsFrom};

    ghost Value = { List ℕ };

    ghost view = { λ own. own.literals.items };

    ghost invariant = { λ own. HasNetsFrom own.nets 0 own.literals.items };
}

fn push_latches(literals: &mut Vec<u64>, latches: &[AigLatch]) -> Result<(), AllocError>
    ensures { OnOk result (literals.new.items ≡
        literals.old.items ++ map (λ (latch : latch_type.AigLatch). latch.lit) latches.now) }
{
    for latch in latches {
        literals.push(latch.lit)?;
    }
    Ok(())
}

fn push_gates(literals: &mut Vec<u64>, gates: &[AigAnd]) -> Result<(), AllocError>
    ensures { OnOk result (literals.new.items ≡
        literals.old.items ++ map (λ (gate : gate_type.AigAnd). gate.lhs) gates.now) }
{
    for gate in gates {
        literals.push(gate.lhs)?;
    }
    Ok(())
}

// Constant 0, the inputs, the latches and the left sides.
fn literals_of(alloc: Global, aig: &Aig) -> Result<Vec<u64>, AllocError>
    ensures { IfOk result (λ own. own.items ≡ own_literals aig.now) }
{
    let mut own = Vec::new(alloc);
    own.push(0)?;
    own.extend_from_slice(aig.inputs.as_slice())?;
    push_latches(&mut own, aig.latches.as_slice())?;
    push_gates(&mut own, aig.ands.as_slice())?;
    Ok(own)
}

// The position of the first of each literal.
fn positions_of(alloc: Global, literals: &[u64]) -> Result<BTreeMap<u64, usize>, AllocError>
    ensures { IfOk result (λ nets. HasNetsFrom nets 0 literals.now) }
{
    let mut nets = BTreeMap::new(alloc);
    for net in (0..literals.len()).rev() {
        nets.insert(literals[net], net)?;
    }
    Ok(nets)
}

impl OwnLiterals {
    /// Makes the table of a circuit.
    pub fn new(alloc: Global, aig: &Aig) -> Result<OwnLiterals, AllocError>
        ensures { IfOk result (λ own. own ≡ own_literals aig.now) }
    {
        let literals = literals_of(alloc, aig)?;
        let nets = positions_of(alloc, &literals)?;
        Ok(OwnLiterals { literals, nets })
    }

    /// Returns the net of a literal, itself or negated, or the number of nets if it has none.
    pub fn net(&self, lit: u64) -> usize
        ensures net { result ≡ position_or_len (λ own. own == even lit) self.now }
        ensures within { result ≤ length self.now }
    {
        match self.nets.get(&(lit - lit % 2)) {
            Some(net) => *net,
            None => self.literals.as_slice().len(),
        }
    }

    /// Returns the literal of a net, or 0 if the net is no literal's.
    pub fn literal(&self, net: usize) -> u64
        ensures { result ≡ number_at self.now net }
    {
        self.literals.get(net).copied().unwrap_or(0)
    }
}
