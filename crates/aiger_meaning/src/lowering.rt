// From a circuit to its flat netlist.
ghost use Rattle.std.specs.Prelude.{ℕ, List, ◌≡◌, ◌≤◌, IfOk, IfErr, OnOk};
ghost use Rattle.netlist_core.specs.declared.flat.Flat as flats;
ghost use Rattle.netlist_meaning.specs.FlatOrder.{IsOrder};
ghost use Rattle.loop_check.specs.Reasons.{IsOrderRefusal};
ghost use Rattle.aiger_text.specs.SoundAig.{IsSoundAig};
ghost use Rattle.netlist_core.specs.Limit.{weight_limit};
ghost use Rattle.aiger_meaning.specs.Causes.{HasLowerCause};
ghost use Rattle.aiger_meaning.specs.Circuit.{aig_weight};
ghost use Rattle.aiger_meaning.specs.Loop.{IsAigLoop};
ghost use Rattle.aiger_meaning.specs.FlatOf.{IsFlatOfAig, own_literals};
ghost use Rattle.aiger_meaning.specs.Lowered.{IsLowered};

use crate::error::LowerError;
use crate::flat::flat_of;
use crate::literals::OwnLiterals;
use crate::loop_literals::literals_at;
use crate::weight::weight_of;
use aiger_text::Aig;
use loop_check::OrderError;
use netlist_core::{Flat, Order, WEIGHT_LIMIT};
use std::alloc::Global;

/// The flat netlist of a circuit, and an order of its nodes.
#[derive(Drop)]
pub struct Lowered {
    pub flat: Flat,
    /// Each node comes after those that drive what it reads.
    pub order: Order,
}

// Why a circuit's flat netlist has no order, as the answer of `lower`.
fn refusal(alloc: Global, aig: &Aig, own: &OwnLiterals, error: OrderError) -> LowerError
    requires { own.now ≡ own_literals aig.now }
    ensures { (flat : flats.Flat) → IsSoundAig aig.now → IsFlatOfAig aig.now flat
        → aig_weight aig.now ≤ weight_limit → IsOrderRefusal flat error
        → HasLowerCause aig.now result }
{
    match error {
        OrderError::Loop(nets) => match literals_at(alloc, aig, own, nets.as_slice()) {
            Ok(literals) => LowerError::Loop(literals),
            Err(_) => LowerError::NoMemory,
        },
        OrderError::NoMemory => LowerError::NoMemory,
    }
}

/// Makes the flat netlist of a sound circuit (`IsSoundAig`); each circuit that a text reads as is
/// sound. `TooLarge` comes exactly if the weight is over the limit, and `Loop` exactly if the
/// weight is within the limit and gates read each other in a circle; the literals are their left
/// sides, each once.
pub fn lower(alloc: Global, aig: &Aig) -> Result<Lowered, LowerError>
    requires { IsSoundAig aig.now }
    ensures is_flat { IfOk result (λ lowered. IsFlatOfAig aig.now lowered.flat) }
    ensures lowered { IfOk result (λ lowered. IsLowered aig.now lowered.flat) }
    ensures order { IfOk result (λ lowered. IsOrder lowered.flat lowered.order.nodes) }
    ensures light { OnOk result (aig_weight aig.now ≤ weight_limit) }
    ensures no_loop { OnOk result ((lits : List ℕ) → ¬ IsAigLoop aig.now lits) }
    ensures refused { IfErr result (HasLowerCause aig.now) }
{
    let weight = weight_of(aig);
    if weight > WEIGHT_LIMIT {
        return Err(LowerError::TooLarge { weight });
    }
    let own = OwnLiterals::new(alloc, aig)?;
    let flat = flat_of(alloc, aig, &own, weight)?;
    match loop_check::order(alloc, &flat) {
        Ok(order) => {
            drop(own);
            Ok(Lowered { flat, order })
        }
        Err(error) => {
            drop(flat);
            let refused = refusal(alloc, aig, &own, error);
            drop(own);
            Err(refused)
        }
    }
}
