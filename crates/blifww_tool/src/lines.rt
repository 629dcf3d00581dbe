// The lines of outputs.
ghost use Rattle.std.specs.Prelude.{◌≡◌, ◌++◌, map, flat_map, zip, IfOk, OnOk};
ghost use Rattle.blifww_tool.specs.Lines.{bit_digit, bits_line};

use lists::{Bytes, List};
use std::alloc::{AllocError, Global};

// Adds bits, as digits.
fn push_bits(line: &mut Vec<u8>, bits: &[bool]) -> Result<(), AllocError>
    ensures { OnOk result (line.new.items ≡ line.old.items ++ map bit_digit bits.now) }
{
    for bit in bits {
        line.push(if *bit { b'1' } else { b'0' })?;
    }
    Ok(())
}

/// Adds an output's line.
pub fn push_line(lines: &mut Vec<u8>, name: &[u8], bits: &[bool]) -> Result<(), AllocError>
    ensures { OnOk result (lines.new.items ≡ lines.old.items ++ bits_line name.now bits.now) }
{
    lines.extend_from_slice(name)?;
    lines.push(b'=')?;
    push_bits(lines, bits)?;
    lines.push(b'\n')?;
    Ok(())
}

/// Makes a line for each output, from the outputs' names and bits.
pub fn output_lines(
    alloc: Global,
    names: &[Bytes],
    bits: &[List<bool>],
) -> Result<Bytes, AllocError>
    ensures { IfOk result (λ lines. lines ≡
        flat_map (λ p. bits_line p.0 p.1) (zip names.now bits.now)) }
{
    let mut lines = Vec::new(alloc);
    for (name, shown) in names.iter().zip(bits) {
        push_line(&mut lines, name.as_slice(), shown.as_slice())?;
    }
    Ok(Bytes::of(lines))
}
