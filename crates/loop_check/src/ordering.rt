// An order of the nodes, or a loop.
ghost use Rattle.std.specs.Prelude.{◌≡◌, IfOk, IfErr, OnOk, List, ℕ};
ghost use Rattle.netlist_meaning.specs.Flat.{IsSound};
ghost use Rattle.netlist_meaning.specs.FlatOrder.{IsOrder, IsFlatLoop};
ghost use Rattle.loop_check.specs.Links.{AreDriverLinks};
ghost use Rattle.loop_check.specs.Reasons.{IsOrderRefusal};

use crate::links::links_of;
use crate::outputs::{as_nodes, outputs_back};
use crate::table::drivers;
use depth_walk::WalkError;
use lists::List;
use netlist_core::{Flat, NetId, Order};
use std::alloc::{AllocError, AllocFailed, Global};
use std::fmt;
use thiserror::Error;

/// Why the nodes of a flat netlist have no order.
#[derive(Drop, Error)]
pub enum OrderError {
    /// Memory ran out.
    #[error("out of memory")]
    NoMemory,
    /// The nets of a loop, each the first of its class: a node reads the class of each and drives
    /// that of the next, and a node reads the class of the last and drives that of the first.
    #[error("nodes read each other in a circle")]
    Loop(List<NetId>),
}

impl fmt::Debug for OrderError {
    fn fmt<W: fmt::Write>(&self, f: &mut fmt::Formatter<W>) -> fmt::Result {
        match self {
            OrderError::NoMemory => f.write_str("NoMemory"),
            OrderError::Loop(_) => f.write_str("Loop"),
        }
    }
}

impl From<AllocError> for OrderError {
    ghost use Rattle.loop_check.specs.declared.ordering.OrderError.TheVariants.{NoMemory};

    ghost from_gives = { λ _ e. e ≡ NoMemory };

    fn from(_: AllocError) -> Self {
        OrderError::NoMemory
    }
}

impl<T: Drop> From<AllocFailed<T>> for OrderError {
    ghost use Rattle.loop_check.specs.declared.ordering.OrderError.TheVariants.{NoMemory};

    ghost from_gives = { λ _ e. e ≡ NoMemory };

    fn from(_: AllocFailed<T>) -> Self {
        OrderError::NoMemory
    }
}

/// Orders the nodes of a flat netlist so that each comes after those that drive what it reads.
/// `Loop` comes if nodes read each other in a circle.
pub fn order(alloc: Global, flat: &Flat) -> Result<Order, OrderError>
    requires { IsSound flat.now }
    ensures order { IfOk result (λ order. IsOrder flat.now order.nodes) }
    ensures no_loop { OnOk result ((classes : List ℕ) → ¬ IsFlatLoop flat.now classes) }
    ensures refused { IfErr result (IsOrderRefusal flat.now) }
{
    let table = drivers(alloc, flat)?;
    let links = links_of(alloc, flat, &table)?;
    order_by(alloc, flat, &links)
}

// An order by the nodes that drive what each node reads.
#[tactic(auto, using(crate::proofs::Linked::stay, crate::proofs::Linked::few_numbers, crate::proofs::Linked::few_nodes))]
fn order_by(alloc: Global, flat: &Flat, links: &[List<Option<usize>>]) -> Result<Order, OrderError>
    requires sound { IsSound flat.now }
    requires links { AreDriverLinks flat.now links.now }
    ensures order { IfOk result (λ order. IsOrder flat.now order.nodes) }
    ensures no_loop { OnOk result ((classes : List ℕ) → ¬ IsFlatLoop flat.now classes) }
    ensures refused { IfErr result (IsOrderRefusal flat.now) }
{
    match depth_walk::order(alloc, links) {
        Ok(numbers) => Ok(Order {
            nodes: as_nodes(alloc, numbers.as_slice())?,
        }),
        Err(WalkError::NoMemory) => Err(OrderError::NoMemory),
        Err(WalkError::Circle(circle)) => Err(OrderError::Loop(outputs_back(
            alloc,
            flat,
            circle.as_slice(),
        )?)),
    }
}
