// A lifted circuit.
ghost use Rattle.std.specs.Prelude.{◌≡◌, ◌++◌, length};
ghost use Rattle.lifted_designs.specs.Names.{most_leading};

use cell_core::CellList;
use lists::{Bytes, List};

/// A lifted circuit: the cells of a plan, the names of its inputs and outputs, and the greatest
/// number of `_` with which one of these names begins. It holds nothing else of the text.
#[derive(Drop)]
pub struct Lift {
    pub list: CellList,
    pub ins: List<Bytes>,
    pub outs: List<Bytes>,
    pub leading: usize,
    pub ghost marked: { leading ≡ most_leading (ins ++ outs) },
    pub ghost outs_named: { length outs ≡ length list.outs },
}
