// Why a pattern is no routed circuit.

use lists::OutOfMemory;
use route_tables::CellFault;

/// Why there is no list: the box is larger than is looked at, the drawing is no routed circuit, or
/// memory ran out.
#[derive(Clone, Copy)]
pub enum RouteError {
    TooLarge { width: u64, height: u64 },
    Fault(CellFault),
    NoMemory,
}

impl From<OutOfMemory> for RouteError {
    fn from(_: OutOfMemory) -> Self {
        RouteError::NoMemory
    }
}

impl From<CellFault> for RouteError {
    fn from(fault: CellFault) -> Self {
        RouteError::Fault(fault)
    }
}
