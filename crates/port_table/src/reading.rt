// The reading of a text's table.
ghost use Rattle.std.specs.Prelude.{◌≡◌, IfOk};
ghost use Rattle.std.specs.Result.{IsErrOf, IsOkUnless};
ghost use Rattle.pattern_reading.specs.declared.ports.Ports.{Ports};
ghost use Rattle.pattern_reading.specs.PortTable.{ReadsAsPorts, HasPortFault};
ghost use Rattle.port_table.specs.declared.faults.PortFault.{PortFault};
ghost use Rattle.port_table.specs.declared.reading.PortReadError.TheVariants.{Fault, NoMemory};

use crate::faults::{PortFault, first_fault};
use crate::ports::ports_of;
use crate::table::table_lines;
use pattern_reading::Ports;
use std::alloc::{AllocError, Global};
use thiserror::Error;

/// The reason why `read` has read no table.
#[derive(Debug, Drop, Error)]
pub enum PortReadError {
    /// A line of the table is at fault: this is the first one, with its first fault.
    #[error("a line of the port table is at fault")]
    Fault(PortFault),
    /// Memory runs out.
    #[error("out of memory")]
    NoMemory,
}

impl From<AllocError> for PortReadError {
    ghost from_gives = { λ _ e. e ≡ NoMemory };

    fn from(_e: AllocError) -> PortReadError {
        PortReadError::NoMemory
    }
}

/// Reads the port table in the comments before the header of a text of extended RLE. `width` and
/// `height` are those of the header's box, in cells. In a text without a header it looks at all
/// lines.
///
/// The lines of the table begin with `#C BLIFWW `, and their fields are separated by single spaces.
/// A text without such lines has the empty table of period 32, latency 0 and one context. Otherwise
/// the first line is `2 P p L l C c`, or in version 1 `1 P p L l` or `1 P p L l C c`. Its period
/// `p` is at least 1. Its number of contexts `c` is 1, or more if each has 32 generations of the
/// period. Each later line is `IN x y name`, `OUT x y name` or `NET x y offset name path`. In
/// version 2 a `%` in a name and the two hexadecimal digits after it stand for a byte; in version 1
/// names stand as they are.
///
/// `Fault` has the first line that is at fault, and the first fault of that line.
pub fn read(alloc: Global, text: &[u8], width: u64, height: u64) -> Result<Ports, PortReadError>
    ensures table { IfOk result (ReadsAsPorts text.now width height) }
    ensures reads { (ports : Ports) → ReadsAsPorts text.now width height ports →
        IsOkUnless result NoMemory }
    ensures fault { (fault : PortFault) → IsErrOf result (Fault fault) →
        HasPortFault text.now width height fault.kind fault.line }
{
    let lines = table_lines(alloc, text)?;
    if let Some(fault) = first_fault(alloc, &lines, width, height)? {
        return Err(PortReadError::Fault(fault));
    }
    Ok(ports_of(alloc, lines)?)
}
