// Single lines.
ghost use Rattle.std.specs.Prelude.{◌≡◌, ◌<◌, ◌+◌, ◌%◌, ◌/◌, ℕ, List, ◌∷◌, ◌++◌, OnOk, OnErr, if◌then◌else◌};
ghost use Rattle.ww_base.specs.Pages.{held};
ghost use Rattle.ww_base.specs.Progress.{Wrote, Broke};
ghost use Rattle.vcd_write.specs.Reading.{var_line, time_line, value_line};
ghost use Rattle.vcd_write.specs.Writing.{vcd_id};

use itoa::Buffer;
use ww_base::{Failed, Page, Sink};

// The least digit of a number in base 94.
fn last_digit(n: usize) -> u8
    ensures { result ≡ 33 + n % 94 }
{
    33 + (n % 94) as u8
}

// The digit of a bit.
fn bit_digit(bit: bool) -> u8
    ensures { result ≡ (if bit then 49 else 48) }
{
    if bit { b'1' } else { b'0' }
}

// Writes the id of a variable.
fn write_id<O: Sink>(sink: &mut O, page: &mut Page, n: usize) -> Result<(), Failed>
    ensures ok { OnOk result ((rest : List ℕ) →
        Wrote (O.written sink.old) (O.written sink.new) (O.faults sink.old) (O.faults sink.new)
        (held page.old ++ (vcd_id n ++ rest)) (held page.new ++ rest)) }
    ensures err { OnErr result ((rest : List ℕ) →
        Broke (O.written sink.old) (O.written sink.new) (O.faults sink.old) (O.faults sink.new)
        (held page.old ++ (vcd_id n ++ rest))) }
{
    page.put(sink, &[last_digit(n)])?;
    let mut left = n / 94;
    'digits: while left != 0 {
        page.put(sink, &[last_digit(left)])?;
        left /= 94;
    }
    Ok(())
}

/// Writes the line of a variable.
pub fn write_var<O: Sink>(
    sink: &mut O,
    page: &mut Page,
    n: usize,
    reference: &[u8],
) -> Result<(), Failed>
    ensures ok { OnOk result ((rest : List ℕ) →
        Wrote (O.written sink.old) (O.written sink.new) (O.faults sink.old) (O.faults sink.new)
        (held page.old ++ (var_line (record { id = vcd_id n; reference = reference.now }) ++
        (10 ∷ rest))) (held page.new ++ rest)) }
    ensures err { OnErr result ((rest : List ℕ) →
        Broke (O.written sink.old) (O.written sink.new) (O.faults sink.old) (O.faults sink.new)
        (held page.old ++ (var_line (record { id = vcd_id n; reference = reference.now }) ++
        (10 ∷ rest)))) }
{
    page.put(sink, b"$var wire 1 ")?;
    write_id(sink, page, n)?;
    page.put(sink, b" ")?;
    page.put(sink, reference)?;
    page.put(sink, b" $end\n")
}

/// Writes the line of a time.
pub fn write_time<O: Sink>(sink: &mut O, page: &mut Page, time: usize) -> Result<(), Failed>
    ensures ok { OnOk result ((rest : List ℕ) →
        Wrote (O.written sink.old) (O.written sink.new) (O.faults sink.old) (O.faults sink.new)
        (held page.old ++ (time_line time ++ (10 ∷ rest))) (held page.new ++ rest)) }
    ensures err { OnErr result ((rest : List ℕ) →
        Broke (O.written sink.old) (O.written sink.new) (O.faults sink.old) (O.faults sink.new)
        (held page.old ++ (time_line time ++ (10 ∷ rest)))) }
{
    let mut buffer = Buffer::new();
    let digits = buffer.format(time);
    page.put(sink, b"#")?;
    page.put(sink, digits.as_bytes())?;
    page.put(sink, b"\n")
}

/// Writes the line that gives a variable a bit.
pub fn write_value<O: Sink>(
    sink: &mut O,
    page: &mut Page,
    n: usize,
    bit: bool,
) -> Result<(), Failed>
    ensures ok { OnOk result ((rest : List ℕ) →
        Wrote (O.written sink.old) (O.written sink.new) (O.faults sink.old) (O.faults sink.new)
        (held page.old ++ (value_line (record { id = vcd_id n; bit = bit }) ++ (10 ∷ rest)))
        (held page.new ++ rest)) }
    ensures err { OnErr result ((rest : List ℕ) →
        Broke (O.written sink.old) (O.written sink.new) (O.faults sink.old) (O.faults sink.new)
        (held page.old ++ (value_line (record { id = vcd_id n; bit = bit }) ++ (10 ∷ rest)))) }
{
    page.put(sink, &[bit_digit(bit)])?;
    write_id(sink, page, n)?;
    page.put(sink, b"\n")
}
