// Variables and their bits.
ghost use Rattle.std.specs.Prelude.{◌≡◌, ◌*◌, length};

use crate::packed_bits::PackedBits;
use lists::{Bytes, List};

/// Variables by their references, and their bits in `cycles` cycles: those of all variables in the
/// first cycle, then those in the next.
#[derive(Drop)]
pub struct Vcd {
    pub cycles: usize,
    pub references: List<Bytes>,
    pub bits: PackedBits,
    pub ghost whole: { length bits ≡ cycles * length references },
}
