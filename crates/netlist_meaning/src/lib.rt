//! What designs and flat netlists mean: nets, valuations, runs, loops, weight, and which flat netlist a design has.
//!
//! Theorem: `joined_is_the_least_equivalence`, `cover_value`; definitions `IsValuation`, `IsRun`, `IsFlatOf`.
#![tactic(auto)]

ghost use Rattle.std.specs.Prelude.{◌≡◌};
ghost use Rattle.netlist_meaning.specs.CoverValue.{fits, product_holds, any_holds, cover_value};

mod clocks;
mod flat_nets;
pub mod laws;

pub use clocks::ClockClasses;
pub use flat_nets::{class_of, name_of_net};
use lists::Bytes;
use netlist_core::Cover;

/// Returns whether a character of a row takes the bit under it: `0` takes only 0, `1` takes only 1,
/// and `-` takes both.
pub fn fits(character: u8, bit: bool) -> bool
    ensures { result ≡ fits character bit }
{
    if bit {
        character != b'0'
    } else {
        character != b'1'
    }
}

// Whether a row's product holds under the bits of the cover's inputs.
fn product_holds(row: &[u8], bits: &[bool]) -> bool
    ensures { result ≡ product_holds row.now bits.now }
{
    row.iter()
        .zip(bits.iter())
        .all(|(character, bit)| fits(*character, *bit))
}

// Whether some row's product holds under the bits of the cover's inputs.
fn any_holds(rows: &[Bytes], bits: &[bool]) -> bool
    ensures { result ≡ any_holds rows.now bits.now }
{
    rows.iter().any(|row| product_holds(row.as_slice(), bits))
}

/// Returns the bit that a cover's rows give for the bits of its inputs, by the BLIF report.
pub fn cover_value(cover: &Cover, bits: &[bool]) -> bool
    ensures { result ≡ cover_value cover.now.rows cover.now.on bits.now }
{
    let rows = cover.rows.as_slice();
    if rows.is_empty() {
        return false;
    }
    if cover.on {
        any_holds(rows, bits)
    } else {
        !any_holds(rows, bits)
    }
}
