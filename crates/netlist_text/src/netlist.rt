// From the bytes of a text to its netlist.
ghost use Rattle.std.specs.Prelude.{IfOk, IfErr};
ghost use Rattle.netlist_text.specs.Causes.{HasNetlistCause};
ghost use Rattle.netlist_text.specs.NetlistText.{IsNetlist};
ghost use Rattle.netlist_text.specs.Parts.{AreParts};

use crate::error::NetlistError;
use crate::names::net_names;
use loop_check::OrderError;
use netlist_core::{Design, Flat, Order};
use std::alloc::Global;

/// The netlist of a text: its design, its flat netlist, and an order of the covers.
#[derive(Drop)]
pub struct Netlist {
    pub design: Design,
    pub flat: Flat,
    /// An order in which each cover comes after those that drive what it reads.
    pub order: Order,
}

/// Reads the netlist of a BLIF text. If there is none, the first cause in this order is answered: a
/// fault of its lines or models, too great a weight, a fault of its clocks, a loop.
pub fn netlist_of(alloc: Global, text: &[u8]) -> Result<Netlist, NetlistError>
    ensures netlist { IfOk result (λ n. IsNetlist text.now n.design) }
    ensures parts { IfOk result (λ n. AreParts n.design n.flat n.order.nodes) }
    ensures refused { IfErr result (HasNetlistCause text.now) }
{
    let lines = blif_lex::lines(alloc, text)?;
    let models = blif_reader::read(alloc, lines.as_slice())?;
    let design = blif_check::check(alloc, models)?;
    let flat = netlist_flatten::flatten(alloc, &design)?;
    blif_check::check_clock(alloc, &flat)?;
    match loop_check::order(alloc, &flat) {
        Ok(order) => Ok(Netlist {
            design,
            flat,
            order,
        }),
        Err(OrderError::Loop(nets)) => {
            let names = net_names(alloc, &flat, nets.as_slice())?;
            Err(NetlistError::Loop(names))
        }
        Err(OrderError::NoMemory) => Err(NetlistError::NoMemory),
    }
}
